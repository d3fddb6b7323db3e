//! The meaning of a requirement in its written form: definitions and laws alone.
//!
//! A requirement is read as a formula in an engineer's words: names of actions and variables, regular formulas inside
//! modalities, `always` and the other words, and the names of earlier entries. `specs/Translation` has the formula of
//! numbered variables that it stands for (`formula_of`); the layers above make games from it. `specs/Meaning` has its
//! meaning at a state, in the words of its text (`Holds`), over the paths of `specs/Paths` and the names of
//! `specs/Labels`. The laws in [`laws`] say that the two agree. They are stated in `specs/Laws`.
//!
//! No code runs here, so there are no trials.
#![tactic(auto)]

pub mod laws;
