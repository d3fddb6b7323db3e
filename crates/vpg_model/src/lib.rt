//! The game of a family's system and its requirements, for a desk as any other.
//!
//! [`Source::of`] takes a system that was read. [`build`] takes a [`Source`]: the states with their transitions, the
//! sets of actions that requirements name, and the parts of the requirements. It returns the guarded game of what can
//! be reached from the roots at the first state, in the order of a breadth-first search. If the game passes a limit,
//! the error names it. A vertex is a pair of two numbers: a state, and the place of a part. [`sharpened`] then writes
//! guards so that their three-valued values are known as early as they can be.
//!
//! The definitions stand in `specs/`: `Pairs`, the game in words of pairs alone, and when it is refused; `Forms`, the
//! system and the normal forms that the lists stand for. `Laws` states that the game is theirs, is a model of formulas,
//! and decides them; `Sources` has a system that was read as the theorem's, and `Sharpening` games that differ in
//! guards alone. `Departures` serves models, and `Searching` private contracts. This crate knows no products and no
//! winning.
//!
//! Trials: tests of `vpg_family_tests` (`games`, `walks`).
#![tactic(auto)]

mod building;
mod fault;
pub mod laws;
mod making;
mod moves;
mod sharpening;
mod source;
mod sourcing;

pub use building::{Built, build};
pub use fault::ModelFault;
pub use moves::Move;
pub use sharpening::sharpened;
pub use source::{Source, State, Transition};
