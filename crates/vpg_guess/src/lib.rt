//! Guesses that make settling fast: the least progress table of a game, without lifts.
//!
//! Lifting alone climbs one step a round to a top that may be near 2^62. Here the least progress table is guessed.
//! `vpg_tangles` guesses the winners, and `vpg_values` the values that are left. Vertices that Odd wins go to the top,
//! lifts do most of the rest, and where they don't, strategy improvement gives the values of what still moves. A table
//! that is not of zeros is guessed at only where it moves, while that is a small part. The only promise of a guess is
//! that it is safe and ends. Its results count only as far as certificates show them (`vpg_measure::raise_to_bounds`).
//! So the raised table stays below every progress table that it was below.
//!
//! A `Raising` is a table with all that raising it reads; its methods lift and guess (`remaining`, `guesses`).
//!
//! The layer above uses `raise_within` for one table, `harvest_by_bounds` for both tables of an order, and
//! `harvest_by_bounds_at_once` for both with a thread for each. The lists that they make of a game are its
//! `Groundwork`, which the layer above keeps from one page to the next. Definitions: those of `vpg_measure`
//! (`specs/Bounds`, `specs/Lifts`, `specs/Orders`).
//!
//! Trials: tests of `vpg_lifting_tests` (`asks`, `harvests`, `policy`).
#![tactic(auto)]

mod at_once;
mod certificates;
mod ground;
mod guesses;
mod harvests;
mod part;
mod raising;
mod remaining;
mod rising;

pub use at_once::harvest_by_bounds_at_once;
pub use ground::Groundwork;
pub use guesses::raise_within;
pub use harvests::harvest_by_bounds;
