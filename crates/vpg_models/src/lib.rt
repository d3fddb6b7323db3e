//! Feature models in files, read as the diagrams that they mean.
//!
//! The end of a file's name gives its `Form`: a diagram, UVL, or FeatureIDE's XML. A layer above uses `form_of`, and
//! `diagram_of`, which returns the text of the diagram that a text means. `put_form_fault` appends the fault of a
//! model, `explain_model` returns a message on it, and `features_in` the places where a model names features,
//! `attributes_in` those of attributes that are read over. The layer above reads that text as a diagram.
//!
//! `specs/Forms` defines forms and what they mean, over the trees of `vpg_tree`; `specs/Told` the text of faults. Only
//! these have contracts: messages are for people.
//!
//! Trials: tests of `vpg_family_tests` (`family/meant`).
#![tactic(auto)]

mod explaining;
mod fault;
mod form;
mod meaning;
mod places;
mod telling;

pub use explaining::explain_model;
pub use fault::FormFault;
pub use form::{Form, form_of};
pub use meaning::diagram_of;
pub use places::{attributes_in, features_in};
pub use telling::put_form_fault;
