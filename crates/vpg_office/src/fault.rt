//! Why calls of sessions are not made, and the values that come back.
use crate::front::Front;
use crate::terms::Terms;
use std::fmt;
use thiserror::Error;
use vpg_desk::{CommitFault, DecideFault, RedoFault, RetractFault, UndoFault};

/// Why a session's call fails. `Refused` is the desk's own refusal, which is logged; the others are not.
#[derive(Drop, Error)]
#[error_bound(F: fmt::Display)]
pub enum Fault<L: Terms, F> {
    /// The log is full.
    #[error("LogFull")]
    LogFull { front: Front<L> },
    /// The log has a call of this session since its front.
    #[error("Doubled")]
    Doubled { front: Front<L> },
    #[error("{fault}")]
    Refused { fault: F },
    #[error("Memory")]
    Memory,
}

// Not derived: fronts and terms have no `Debug`.
impl<L: Terms, F: fmt::Display> fmt::Debug for Fault<L, F> {
    fn fmt<W: fmt::Write>(&self, f: &mut fmt::Formatter<W>) -> fmt::Result {
        write!(f, "{self}")
    }
}

/// Why there is no watch that begins with a front.
#[derive(Clone, Copy, Debug, PartialEq, Eq, Error)]
pub enum NotWatched {
    /// There are 64 watches.
    #[error("NoPlace")]
    NoPlace,
    /// There is no memory for the log's sheet.
    #[error("Memory")]
    Memory,
}
