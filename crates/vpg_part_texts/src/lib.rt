//! The texts of parts of requirements, for the names of a game's vertices.
//!
//! [`set_texts`] gives a text to each set of actions, and [`Wording::text`] one to each part. That is its formula, with
//! its actions for a set, and with variables called X, Y, Z, X3, X4 and so on in the order of their fixpoints. A text
//! has at most 60 bytes; a longer one is cut. It is for people, and is not read again.
//!
//! The definitions stand in `specs/`: `SetTexts` and `PartTexts`.
//!
//! Trials: tests of `vpg_family_tests` (`walks`).
#![tactic(auto)]

mod kept;
mod sets;
mod wording;

pub use sets::{Text, set_texts};
pub use wording::{Wording, numbers};
