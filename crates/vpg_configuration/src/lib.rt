//! Configurations as other tools write them: a text with one selected feature a line, or FeatureIDE's XML.
//!
//! The end of a file's name gives the `ConfigurationForm`, by `form_of`. `selecting` returns the lines of a script that
//! select what a list of names has, and `deciding` those that decide what a person decided in a document of XML.
//!
//! `exported` writes the configuration of a page: as names the features that are known to be in, and as XML for each
//! feature what is known of it, and whether a person or propagation decided it.
//!
//! Definitions stand in `specs/`: `Configurations` (lists of names), `Deciding` (which document decides what, and its
//! faults), `Documents` (how a document is written), `Exports` (which configuration a page has), `Forms`. `laws` says
//! that what is written in each form is read back as the same decisions.
//!
//! Trials: tests of `vpg_family_tests` (`configured`).
#![tactic(auto)]

mod document;
mod exporting;
mod fault;
mod form;
pub mod laws;
mod names;
mod reading;
mod selection;

pub use exporting::exported;
pub use fault::{ConfigurationFault, Reason};
pub use form::{ConfigurationForm, form_of};
pub use names::selecting;
pub use reading::deciding;
pub use selection::Selection;
