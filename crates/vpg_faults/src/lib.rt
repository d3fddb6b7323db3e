//! Why calls of a desk are refused.
//!
//! Each call's fault is one enum, which `vpg_desk` exports with the call. `Refusal` has all reasons in one, for what
//! logs and writes them; `Refuses` gives the one that a fault stands for (`specs/Refusals`). `Returned` is a fault
//! with what the call took. They stand below the desk
//! and need nothing of it.
//!
//! Trials: scripts of `vpg_examples` (`scripts/faults`).
#![tactic(auto)]

mod fault;
mod refusal;
mod returned;

pub use fault::{
    CommitFault, DecideFault, OpenFault, RedoFault, ResetFault, RetractFault, UndoFault,
};
pub use refusal::{Never, Refusal, Refuses};
pub use returned::Returned;
