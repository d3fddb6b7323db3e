//! The meaning of the verdicts of a desk's pages for a family's requirements: the theorem on games made from a system
//! and formulas, joined with the desk's headline.
//!
//! If a page is hopeless at a requirement's vertex, the requirement holds in the system of no product left; if it is
//! sure, it holds in that of each. `specs/Promises` states this, of a game that is a model of a formula (`IsModel` of
//! `vpg_model`), and of the game of two texts, which `vpg_checking` reads (`IsModelOfTexts`). The theorems are the laws
//! in [`laws`].
//!
//! No code runs here, so there are no trials.
#![tactic(auto)]

pub mod laws;
