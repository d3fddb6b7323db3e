//! Looks at a page, a module for each: its text, what that means for the page, and that there is one such text.
//!
//! Most take an order of the page, and search, by the crates of reasons, of moves and of numbers below. Two take the
//! page with its games, and first look for a product that is left: `counting` for `count`, `claims` for an assertion of
//! a vertex's verdicts. The layer above chooses the function for a look. Each appends the lines of its answer and
//! returns its tone; none changes anything.
//!
//! Lines about a vertex, or about a move of two, end with the names of these, none if none are asked for.
//!
//! A function's clause gives its answer a meaning: a relation between the page and the text. A law, in `proofs`, says
//! that two such texts are one if no limit was met; the layer above states it. `specs/Meanings` has both as one record.
//! If a limit was met, the text says so. ` or fewer` marks decisions that suffice, some perhaps needlessly; ` or more`
//! lines to which others may belong, or a number that may be greater; `some product` one that need not be the first;
//! `unsettled` a fact that was not shown.
//!
//! Texts are defined in `specs/Texts`, and their meaning for a page in `specs/Answers`, or both in a look's own file of
//! `specs/`; the room of limits in `specs/Room`. All are this project's own.
#![tactic(auto)]

pub mod asserting;
pub mod claims;
pub mod counting;
pub mod deciding;
pub mod drawing;
pub mod edges;
pub mod examples;
mod left;
mod lines;
pub mod losses;
pub mod needs;
pub mod numbers;
pub mod offers;
pub mod reasons;
pub mod repairs;
mod retracting;
pub mod traces;
pub mod uses;
pub mod winners;
pub mod winning;
