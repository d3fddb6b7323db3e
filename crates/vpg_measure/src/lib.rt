//! Small progress measures, each kept as one number, and the orders and harvests that lifters carry from a page and
//! back.
//!
//! A measure of a parity game has one component for each odd priority that occurs, at most the number of vertices of
//! that priority, or it is top. This is after Jurdzinski 2000, mirrored so that the greatest priority decides. In mixed
//! radix it is one `u64` of at most 2^62: a `Shape` has the radices, a `Table` one number for each vertex. `prog` and
//! `lift` compute on the numbers, and `settle_alone` lifts in rounds. `strategy` reads a winning strategy from a
//! settled table, and `folding` lifts from values that come one after another. `raise_to_bounds` raises a table at once
//! to values that a certificate supports: whatever was guessed, the table stays below every progress table.
//!
//! `PageGames` is made from a page's decisions and its game: it has what is known, and for each table its shape and its
//! kept edges. It is made once and shared by the page, its orders and its harvests.
//!
//! An `Order` holds all that lifters need of a page: its games, both tables, and room for two raised ones. So a
//! `Harvest`, the order with raised tables, is made without taking memory. The layers above rest on a property of every
//! harvest: each of its tables is below every progress table of the order's two games.
//!
//! Definitions: `specs/Measures` and `specs/Tables` (measures as tuples, measures that fit, progress measures);
//! `specs/Numbers` (the number of a measure); `specs/Lifts` (lifts, rounds and choices on tables of numbers);
//! `specs/Least` (below every progress table); `specs/Bounds` (bounds and their certificates); `specs/TwoGames` (the
//! two hopeful games of a guarded game); `specs/Games` (the games of a page); `specs/Orders` (orders and harvests).
//! Their laws stand in `laws`.
//!
//! Trials: tests of `vpg_lifting_tests` (`tables`, `orders`, `asks`), calls with little memory in `vpg_refusals`
//! (`decided`, `orders`).
#![tactic(auto)]

pub mod bounds;
mod fault;
pub mod folding;
pub mod games;
pub mod harvest;
pub mod laws;
pub mod lifts;
pub mod order;
pub mod shape;
mod still;
pub mod table;

pub use bounds::{Certificate, raise_to_bounds};
pub use fault::OrderFault;
pub use games::{PageGames, known_under};
pub use harvest::Harvest;
pub use lifts::{Outcome, StrategyFault, is_progress, lift, settle_alone, strategy};
pub use order::{Order, Refused};
pub use shape::{Shape, prog};
pub use table::Table;
pub use vpg_sides::{Verdict, Which};
