//! Feature trees with cross-tree constraints, and the text of the feature diagram that each stands for.
//!
//! Readers of feature models build a `Tree` feature by feature (`new`, `add_group`, `add_feature`, `add_constraint`),
//! and `write` writes it as a feature diagram. This crate knows nothing of their formats.
//!
//! Features are numbered from 0 in the order in which they were added; the root is feature 0. Groups are numbered from
//! 0 in the order in which they were added.
//!
//! Definitions stand in `specs/`: `Tree` (feature trees and their configurations), `Lines` (the lines of the diagram
//! that a tree stands for), `DiagramText` (the text of these lines), `InOrder` (trees whose text is that of a diagram),
//! and `Laws` (statements of the module `laws`).
//!
//! Trials: tests of `vpg_family_tests` (`family/meant`), by the formats that spell trees.
#![tactic(auto)]

mod group;
pub mod laws;
mod members;
mod rules;
mod signs;
mod tree;
mod writing;

pub use group::{Group, Kind};
pub use signs::{MOST_OPEN, is_shallow};
pub use tree::Tree;
