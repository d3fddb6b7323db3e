//! The values that come back if calls of a desk are refused.

use crate::desk::Desk;
use crate::token::{Redo, Undo};
use std::fmt;
use std::sync::Arc;
use thiserror::Error;
use vpg_diagram::Diagram;
use vpg_faults::{CommitFault, OpenFault, RedoFault, UndoFault};
use vpg_game::GuardedGame;
use vpg_measure::Harvest;

/// A desk that isn't opened, with the arguments.
#[derive(Drop, Error)]
#[error("{fault}")]
pub struct OpenRefused {
    pub fault: OpenFault,
    pub game: Arc<GuardedGame>,
    pub diagram: Arc<Diagram>,
}

// Written by hand, as those below: the values that come back are not shown.
impl fmt::Debug for OpenRefused {
    fn fmt<W: fmt::Write>(&self, f: &mut fmt::Formatter<W>) -> fmt::Result {
        f.debug_struct("OpenRefused")
            .field("fault", &self.fault)
            .finish_non_exhaustive()
    }
}

/// A change that isn't undone, with its token. A token can't be dropped, so this is no `Error`, which can be.
pub struct UndoRefused {
    pub fault: UndoFault,
    pub token: Undo,
}

/// A change that isn't redone, with its token; no `Error` either.
pub struct RedoRefused {
    pub fault: RedoFault,
    pub token: Redo,
}

/// A desk that isn't closed since tokens of it are out, and their number.
#[derive(Drop, Error)]
#[error("TokensOut {tokens}")]
pub struct TokensOut {
    pub tokens: u64,
    pub desk: Desk,
}

impl fmt::Debug for TokensOut {
    fn fmt<W: fmt::Write>(&self, f: &mut fmt::Formatter<W>) -> fmt::Result {
        f.debug_struct("TokensOut")
            .field("tokens", &self.tokens)
            .finish_non_exhaustive()
    }
}

/// A harvest that isn't committed.
#[derive(Drop, Error)]
#[error("{fault}")]
pub struct CommitRefused {
    pub fault: CommitFault,
    pub harvest: Harvest,
}

impl fmt::Debug for CommitRefused {
    fn fmt<W: fmt::Write>(&self, f: &mut fmt::Formatter<W>) -> fmt::Result {
        f.debug_struct("CommitRefused")
            .field("fault", &self.fault)
            .finish_non_exhaustive()
    }
}
