//! Who wins where in a family of parity games, for all products at once.
//!
//! The recursion of Zielonka 1998 with a set of products at each vertex (ter Beek, van Loo, de Vink, Willemse:
//! Family-based SPL model checking using parity games with variability, FASE 2020). [`solve`] returns in which products
//! of a set Even wins from a vertex, and in which Odd does. The layer above cuts them into parts and counts.
//! [`winners_of`] returns the winner in each of some listed products.
//!
//! The recursion works over a universe of sets (`specs/Universes`). In `solve` sets are decision diagrams (`vpg_sets`).
//! In `winners_of` they are words, with a bit for each of at most 64 listed products (`specs/Words`). Words are quicker
//! where diagrams would have about as many nodes as there are products.
//!
//! Definitions: `specs/Winners` (the promise), `specs/Attractors` and `specs/Rounds` (one product's game),
//! `specs/Parts` (a set at each vertex), `specs/Edges`, `specs/Stops`. `proofs/Attractions`, `proofs/Solutions`,
//! `proofs/Turns` and `proofs/Recursion` have the recursion in one product's game. `proofs/Bits`, `proofs/Places` and
//! `proofs/Columns` are about words.
//!
//! Trials: scripts of `vpg_examples` (`scripts/rows`), by `winners`.
#![tactic(auto)]

mod attracting;
mod each;
mod edges;
mod listed;
mod parts;
mod reaching;
mod rounds;
mod solving;
mod stop;
mod subset;
mod together;
mod universe;
mod winners;
mod worklist;

pub use each::winners_of;
pub use together::{Solved, solve};
pub use winners::Division;
