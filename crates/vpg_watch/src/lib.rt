//! Sheets of verdicts for readers that never wait: one side publishes them, one after another, and others read the
//! newest.
//!
//! A `Sheet` has a page's verdict for each vertex, and its `front`: a beginning of the row of calls that led to that
//! page. The thread that makes the calls holds a `Press` and publishes a sheet after each change. A thread that wants
//! to follow gets a `Watch` and reads the sheet that is shown. It reads without a lock and without waiting (`read`
//! takes no right to wait), by the two copies of `left_right`. A watch never goes back: each front that it reads begins
//! with the front that it read before.
//!
//! The crate knows nothing of calls. A type with the trait `Follows` stands for fronts. It defines when one begins with
//! another, and the right content of a sheet of a front.
//!
//! The layer above uses `Press::{open, publish, watch, close}` and `Watch::read`. A read returns a sheet that was
//! published, which belongs to its front, and never an older one than before. Not promised: that a read returns the
//! newest sheet, or that one comes.
//!
//! Definitions: `specs/Rule` (when a sheet belongs to its front; the invariant of every step on the shared shelf, and
//! what the step shows), `specs/Fronts` (a front that begins with all that was seen), `specs/Reads` (values read one
//! after another). The laws of the reads of one watch, however many, stand in `laws`.
//!
//! Trials: tests of `vpg_book_tests` (`watching`), calls with little memory in `vpg_refusals` (`presses`).
#![tactic(auto)]

mod fault;
pub mod follows;
pub mod laws;
pub mod press;
pub mod sheet;
mod shelf;
pub mod watch;

pub use fault::{NoPlace, WatchFault};
pub use follows::Follows;
pub use press::Press;
pub use sheet::{Sheet, Verdicts};
pub use watch::Watch;
