//! Counterexamples and witnesses for engineers: how the verdict of a page comes about, in words of the system.
//!
//! If a page is hopeless at a requirement's vertex, Odd wins there in each product that is left; if it is sure, Even
//! does. `vpg_why` finds moves that win in all of them at once. [`follow`] goes along the plays that these moves allow,
//! whatever the other player does, in the cautious game of the page. Its walk goes depth first and on from no vertex
//! twice, and says where it closes a loop, stands, or was cut. [`step_between`] returns the transition of the system
//! that a move goes by, and whether it depends on features that are open; if not, each product that is left has it.
//! [`put_trace`] writes a walk as steps of the system, and [`put_answer`] the walk of a page's verdict.
//!
//! The definitions stand in `specs/`: `Traces`, the meaning of a walk; `Walks`, the one walk from a vertex; `Telling`,
//! the report of a step of the system; `Taking`, the one transition that is reported; `Texts`, the text of a walk;
//! `Answering`, the answer for a vertex. `Laws` states that reported steps are there in products, and that the winner
//! goes on.
//!
//! Trials: tests of `vpg_family_tests` (`walks`).
#![tactic(auto)]

mod answering;
pub mod laws;
mod taking;
mod walking;
mod writing;

pub use answering::put_answer;
pub use taking::{Taken, step_between};
pub use walking::{End, MOST_DEPTH, MOST_VISITS, Trace, Visit, follow};
pub use writing::put_trace;
