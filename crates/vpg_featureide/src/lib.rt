//! Feature models of FeatureIDE, read from their `model.xml`.
//!
//! A layer above uses `read_tree`, the tree of `vpg_tree` that a text spells, and `read_model`: the names of the
//! features, what each one asks of its children, where each one is, and the constraints. Elements that say nothing of
//! products are read over, and abstract features are features.
//!
//! Definitions stand in `specs/`: `Roles` (what an element is, by the element around it), `Model` (the features),
//! `Formulas` (the constraints, and the model of a document), `Trees` (the tree of a model), and `Laws` (statements of
//! the module `laws`). Only private contracts name `Spans` and `View`.
//!
//! Trials: tests of `vpg_family_tests` (`family/meant`).
#![tactic(auto)]

mod builder;
mod fault;
mod formula;
pub mod laws;
mod model;
mod role;
mod spans;
mod tree;

pub use builder::Member;
pub use fault::ModelFault;
pub use model::{Model, read_model};
pub use role::Role;
pub use tree::read_tree;
