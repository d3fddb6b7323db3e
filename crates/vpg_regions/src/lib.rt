//! Solvers that guess the winners of a parity game, with their moves: guesses of progress tables begin with them.
//!
//! They are Zielonka's recursion (Zielonka 1998) and the weights of paths (Luttenberger 2008, Schewe 2008). One budget
//! counts all that they look at. The only promise is that they are safe and end: their results count only as far as
//! certificates show them.
//!
//! The layer above, `vpg_tangles`, uses `solve_by_recursion` and `solve_by_weights` on a `Solution`.
//! All layers above use `Graph` for the edges of a game both ways, `Predecessors` for those that lead to a vertex, and
//! `Components` for the game that a strategy leaves. `VertexSet` has some of the vertices, `PerVertex` one value for
//! each vertex, and `Found` is a list that grows. `Budget` counts the work.
//!
//! Trials: tests of `vpg_lifting_tests` (`asks`, `climbing`), by certified guesses.
#![tactic(auto)]

mod budget;
mod components;
mod cycles;
mod found;
mod graph;
mod per_vertex;
mod recursion;
mod regions;
mod solution;
mod weights;

pub use budget::Budget;
pub use components::{Components, Moves};
pub use found::Found;
pub use graph::{Arrivals, Draft, Graph, Places, Predecessors};
pub use per_vertex::{Choices, PerVertex, VertexSet};
pub use recursion::solve_by_recursion;
pub use regions::Regions;
pub use solution::{Solution, player_of};
pub use weights::solve_by_weights;
