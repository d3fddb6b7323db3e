//! Boards: several lifters raise the two tables of an order at once, on shared atomic words.
//!
//! A `Board` is opened on an order and returns its opening `Seat`. A seat is the right of one thread to step: it loads
//! words, raises one to the lift of the values that it has seen, and claims places, each of which goes to one seat. The
//! opening seat splits into up to 64 seats, which are joined again; the last one closes the board for a harvest.
//! Whatever seats do, and in whatever order, each word stays below every progress table of the order's games. So a
//! harvest may be committed at any later moment. `sweep` does all of this with as many threads as the caller asks for.
//! One lifter alone needs no board for it, and sweeps if there is no memory for one.
//!
//! `claim` and `lift` neither wait nor take memory. The layers above use `sweep`. Its harvest is of the given order, on
//! or above its tables and the lift of them at every vertex.
//!
//! Definitions: `specs/Places` (both tables as one list of words, lifts on them); `specs/Lifters` and `specs/Run` (the
//! knowledge of a lifter, the steps, runs); `specs/Rule` (the invariant of every run, in two halves); `specs/Taken`
//! (which steps a lifter took); `specs/Seats` (boards and seats as callers see them); `specs/Steps` (what each atomic
//! step leaves and shows); `specs/Worked` (the work of lifters in a sweep); `specs/Alone` (the work of one alone);
//! `specs/Predecessors` (which vertices keep an edge to which); `specs/Chains` (how these are kept); `specs/Hints` (the
//! vertices that hints name). `laws` states the invariants of every run, and that the atomic steps are those of runs.
//!
//! Trials: tests of `vpg_lifting_tests` (`boards`, `sweeps`, `hinted`), calls with little memory in `vpg_refusals`
//! (`boards`).
#![tactic(auto)]

mod alone;
pub mod board;
mod hints;
pub mod laws;
pub mod lifter;
pub mod predecessors;
pub mod seat;
mod steps;
pub mod sweeping;

pub use board::Board;
pub use lifter::Lifter;
pub use predecessors::Predecessors;
pub use seat::{Seat, TooManyLifters};
pub use sweeping::{Gate, OpenGate, sweep, sweep_along};
