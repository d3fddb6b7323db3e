//! Warnings of a featured transition system and its requirements.
//!
//! `unreached_states` returns the states that no transitions lead to from the first one. `unmet_guards` returns the
//! transitions with guards that no product of the diagram meets, as far as propagation shows it. `unknown_actions`
//! returns the words of a text of requirements that name an action that no transition has, and `unnamed_actions` the
//! actions that no requirement names. The layer above says where they stand, and in which words.
//!
//! `specs/States` defines these states, by paths; `specs/Guards` the guards, by the diagram's products, and the
//! features that are tried; `specs/Actions` the actions, by the words of a text; `specs/Numbers` has marks and their
//! numbers.
//!
//! Trials: tests of `vpg_family_tests` (`family/models`).
#![tactic(auto)]

mod actions;
mod guards;
mod numbers;
mod states;

pub use actions::{unknown_actions, unnamed_actions};
pub use guards::unmet_guards;
pub use states::unreached_states;
