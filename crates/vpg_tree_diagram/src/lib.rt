//! Laws that join feature trees and feature diagrams: the diagram that is read from the text of a tree has the tree's
//! configurations as its products.
//!
//! `vpg_tree` writes the text of the diagram that a tree stands for, and `vpg_diagram` reads it. This crate has
//! definitions and laws alone: `specs/Standing` says when a diagram has the configurations of a tree, and `specs/Laws`
//! states the laws of the module `laws`. `vpg_models` cites both in the contract of `diagram_of`.
#![tactic(auto)]

pub mod laws;
