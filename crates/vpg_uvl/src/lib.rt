//! Feature models in the Universal Variability Language (UVL; Sundermann, Feichtinger, Engelhardt, Rabiser and Thüm,
//! "Yet another textual variability language?", 2021), read as feature trees.
//!
//! A layer above uses `read`, which returns the `Tree` of `vpg_tree` that a text spells, or the first fault with its
//! line and column. It writes the tree's diagram with `Tree::write`, and says what a `Reason` means. `attribute_places`
//! says where the attributes are that are read over.
//!
//! Read are `features` with groups (`mandatory`, `optional`, `alternative`, `or`, `[n]`, `[n..m]`, `[n..*]`), nested by
//! indentation, and `constraints`, one a row. A name may stand between double quotes. Chains of arrows group to the
//! left, as the language's grammar does it. Read over are `namespace`, `include` of the levels `Boolean`, `Boolean.*`
//! and `Boolean.group-cardinality`, comments (`//`, and `/*` to `*/`), and attributes in braces after a feature on its
//! row. A comment counts as blanks, also for the indentation of what follows, and its line ends do not end a row.
//! Refused are types, feature cardinalities, imports, names that are no feature names, constraints in attributes, and
//! attributes, numbers, texts and aggregates in constraints.
//!
//! Definitions stand in `specs/`: `Model` (which tree a text spells, and its first fault), over `Comments`, `Rows`
//! (lines without comments), `Places` (lines and columns), `Items` (heads of groups, and features), `Nesting` (the tree
//! that rows spell by their indentation), `Quotes` and `Arrows` (chains). `laws` says what follows for chains. `Views`
//! has the code's values as those of the definitions, for private contracts.
//!
//! Trials: tests of `vpg_family_tests` (`family/meant`).
#![tactic(auto)]

mod arrows;
mod attributes;
mod comments;
mod constraint;
mod fault;
mod growth;
mod item;
pub mod laws;
mod places;
mod quotes;
mod reading;
mod row;
mod words;

pub use attributes::attribute_places;
pub use fault::{Reason, UvlFault};
pub use reading::read;
