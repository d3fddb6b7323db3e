//! The two sides of a parity game: its players, the names of a page's two tables, and a vertex's verdict.
//!
//! Games, plain games and the solvers of flat games have no more in common than the players. Scripts, pictures and
//! watchers name tables and report verdicts, and need no measure for it.
//!
//! The definitions stand in `specs/Players`: the other player, and the parity with which each wins.
//!
//! Trials: those of the layers above.
#![tactic(auto)]

mod player;
mod verdict;
mod which;

pub use player::Player;
pub use verdict::Verdict;
pub use which::Which;
