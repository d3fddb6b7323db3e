//! Guessed winners of a parity game, by several solvers in turns: Zielonka's recursion and the weights of paths
//! (`vpg_regions`), and tangles that are learnt (van Dijk 2018, "Attracting Tangles to Solve Parity Games").
//!
//! Each is slow on games where another is not. One budget counts all that they look at. The only promise is that they
//! are safe and end: their results count only as far as certificates show them.
//!
//! The layers above, `vpg_values` and `vpg_guess`, use `solve_regions` for a whole game and `solve_part` for some of
//! its vertices.
//!
//! Trials: tests of `vpg_lifting_tests` (`asks`, `climbing`), by certified guesses.
#![tactic(auto)]

mod learning;
mod tangles;
mod turns;

pub use learning::solve_by_tangles;
pub use turns::{solve_part, solve_regions};
