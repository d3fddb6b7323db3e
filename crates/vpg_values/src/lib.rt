//! Guessed values of a parity game: guesses of progress tables are made of them.
//!
//! The least values of Even's region come from strategy improvement: each strategy is valued exactly, and then changed
//! if that is better. Bounds cut from such values have ranks to show them. The only promise is that all this is safe
//! and ends: its results count only as far as certificates show them.
//!
//! The layer above, `vpg_guess`, makes a `GuessGround` of an arena: its graph, and the `Scale` of measures for either
//! player. Over it `guess_table` returns a `Guess` of values, and `ranked_top` and `ranked` return `RankedBounds`.
//! `TableGround` and `LiftGround` have what lifts use. This crate has no arenas and no tables, only their numbers.
//!
//! Trials: tests of `vpg_lifting_tests` (`asks`, `climbing`), by certified guesses.
#![tactic(auto)]

mod bounds;
mod even_cycles;
mod ground;
mod improve;
mod scale;
mod subgame;
mod values;

pub use bounds::{RankedBounds, ranked, ranked_top};
pub use ground::{GuessGround, LiftGround, TableGround, value_in};
pub use improve::{Guess, guess_table};
pub use scale::Scale;
