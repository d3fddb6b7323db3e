//! The names of features in order, and lists by feature.
//!
//! The crates above use `Names`, the names of features in the order of a feature diagram, `is_feature_name`, and
//! `Index`: for each feature, the numbers noted of it, such as those of the vertices or rules that name it. The reader
//! of guards uses `is_name_byte` and `constant_of`.
//!
//! Definitions stand in `specs/`: `Names` (feature names, and lists of them) and `Index` (lists by feature).
//!
//! Trials: rows of `vpg_text_rows/data/names`, calls with little memory in `vpg_refusals` (`reading`, `lookups`).
#![tactic(auto)]

mod fault;
mod index;
mod names;

pub use fault::NameFault;
pub use index::Index;
pub use names::{LONGEST_NAME, MOST_FEATURES, Names, constant_of, is_feature_name, is_name_byte};
