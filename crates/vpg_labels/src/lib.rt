//! The text of a game with labels: names that a program gives to vertices.
//!
//! `vpg_game` writes a game without names. [`with_labels`] puts them in, and a `start` if the caller wants one. It
//! changes nothing else, so the text spells the same game. `vpg_game` reads both.
//!
//! The definitions stand in `specs/Labels`: which text it is. `Labelling` serves private functions.
//!
//! Trials: `bench/modelled.py`, outside the gate.
#![tactic(auto)]

mod labels;

pub use labels::{Label, with_labels};
