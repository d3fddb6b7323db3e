//! The path of a trace through the system.
//!
//! A trace shows in steps of the system how a page's verdict comes about. `path_at` returns its path: the transitions
//! that its steps take, the states that it comes back to, and those where it stands. The layer above draws the path on
//! the picture of the system.
//!
//! `specs/Steps` defines the path of a walk, and that of the trace of a verdict. This is this project's own; walks and
//! their texts are those of `vpg_trace`.
//!
//! Trials: scripts of `vpg_examples` (`scripts/drawn`).
#![tactic(auto)]

mod path;
mod tracing;

pub use tracing::path_at;
