//! Requirements from their normal forms: lists of parts, with priorities.
//!
//! [`parts_of`] reads normal forms in Polish notation and returns the parts of all in one list, as the builder of games
//! takes them. An operand begins directly after its symbol, so each part is at the place of its symbol. Passes over the
//! symbols find the rest: the number of symbols of each operand (`specs/Sizes`), the fixpoints around it and which of
//! them a variable names (`specs/Scopes`), and the priority of each fixpoint (`specs/Ranks`). `specs/Standing` has the
//! promise for a root, `specs/Placing` the symbols in one list.
//!
//! Trials: tests of `vpg_family_tests` (`family/models`), by the games of systems.
#![tactic(auto)]

mod arena;
mod look;
mod rank;
mod scope;
mod size;

pub use arena::{Arena, parts_of};
