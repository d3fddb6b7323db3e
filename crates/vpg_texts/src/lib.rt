//! Texts of pages.
//!
//! `show` writes a page's decisions, its tables and its verdicts, `count` how many vertices have which verdict, and
//! `trail` its entries. `products` writes what is known of each feature, `put_known` what is known of one, `plan`
//! Even's moves if everything is known and settled, and `draw_over` the picture of the game. They take a page with its
//! game and its diagram, over the games that its decisions leave: so they look at no guard. They know no desk. A line
//! about a vertex ends with the vertex's name, and one about a move with two, if the names given have one
//! (`put_beside`, `put_beside_both`). The crates of answers and runs above answer lines by these texts, and take
//! `blank_number` and `blank_name` for their own answers.
//!
//! `vertices_over` writes the lines of some vertices. `plan_answer` writes a plan or why there is none, and
//! `claims_over`, `full_over` and `settled_over` whether an assertion holds; they return the answer's tone.
//! `verdicts_over` returns the verdicts of a page, `verdicts_by` those of two tables, and `put_changed` writes which of
//! them differ from some that were seen earlier.
//!
//! The texts are defined in `specs/Text`, `specs/Labels`, `specs/Sights` and `specs/Changed`, and their meaning for a
//! page in `specs/Scene`, `specs/Picture` and `specs/Plan`. All are this project's own.
//!
//! Trials: scripts of `vpg_examples` (`scripts/rows`), calls with little memory in `vpg_refusals` (`texts`).
#![tactic(auto)]

mod changed;
mod labels;
mod showing;
mod sights;
mod text;

pub use labels::{put_beside, put_beside_both};
pub use showing::{
    PlanFault, claims_over, count, draw_over, full_over, plan, plan_answer, products, put_changed,
    put_known, settled_over, show, trail, verdicts_by, verdicts_over, vertices_over,
};
pub use sights::vertex_at;
pub use text::{blank_name, blank_number};
