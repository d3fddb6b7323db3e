//! The reasons why a desk refuses a call.
ghost use Rattle.vpg_faults.specs.Refusals.{commit_refusal, decide_refusal, never_refused, redo_refusal, reset_refusal, retract_refusal, undo_refusal};

use crate::fault::{CommitFault, DecideFault, RedoFault, ResetFault, RetractFault, UndoFault};
use thiserror::Error;

/// Why a desk refuses a call. A call's own fault has those that it can meet, and `Memory`.
#[derive(Clone, Copy, Debug, PartialEq, Eq)]
pub enum Refusal {
    /// The diagram has no such feature.
    UnknownFeature,
    /// The change of this serial decided the feature.
    AlreadyDecided { serial: u64 },
    /// The decision contradicts the diagram and the present decisions.
    Conflict { feature: u16 },
    /// The desk has made 1,048,576 changes.
    TooManyChanges,
    /// No decision of the present page is on the feature, or there is none at all.
    NotDecided,
    /// The past has no page of this serial.
    Sealed,
    /// A newer change has to be undone before; this is the newest one's serial.
    NotNewest { newest: u64 },
    /// The future has no page of this serial.
    Overtaken,
    /// An earlier change has to be redone before; this is the nearest one's serial.
    NotNext { next: u64 },
    /// The order's game or diagram isn't the desk's.
    OtherGame,
    /// The order's decision on this feature, its first such one, isn't among the present ones with the same value.
    Outdated { feature: u16 },
}

/// A fault of a desk's call: a refusal, or that memory ran out.
pub trait Refuses: Drop {
    ghost use Rattle.std.specs.Prelude.{◌≡◌, Option};
    ghost use Rattle.vpg_faults.specs.declared.refusal.Refusal.{Refusal};

    /// The refusal that a fault stands for.
    ghost refusal_of: { Self → Option Refusal };

    /// Returns why the desk refuses the call, or `None` if memory ran out.
    fn refusal(&self) -> Option<Refusal>
        ensures { result ≡ refusal_of self.now };
}

impl Refuses for DecideFault {
    ghost refusal_of = { decide_refusal };

    fn refusal(&self) -> Option<Refusal> {
        match *self {
            DecideFault::UnknownFeature => Some(Refusal::UnknownFeature),
            DecideFault::AlreadyDecided { serial } => Some(Refusal::AlreadyDecided { serial }),
            DecideFault::Conflict { feature } => Some(Refusal::Conflict { feature }),
            DecideFault::TooManyChanges => Some(Refusal::TooManyChanges),
            DecideFault::Memory => None,
        }
    }
}

impl Refuses for RetractFault {
    ghost refusal_of = { retract_refusal };

    fn refusal(&self) -> Option<Refusal> {
        match *self {
            RetractFault::UnknownFeature => Some(Refusal::UnknownFeature),
            RetractFault::NotDecided => Some(Refusal::NotDecided),
            RetractFault::TooManyChanges => Some(Refusal::TooManyChanges),
            RetractFault::Memory => None,
        }
    }
}

impl Refuses for ResetFault {
    ghost refusal_of = { reset_refusal };

    fn refusal(&self) -> Option<Refusal> {
        match *self {
            ResetFault::NotDecided => Some(Refusal::NotDecided),
            ResetFault::TooManyChanges => Some(Refusal::TooManyChanges),
            ResetFault::Memory => None,
        }
    }
}

impl Refuses for UndoFault {
    ghost refusal_of = { undo_refusal };

    fn refusal(&self) -> Option<Refusal> {
        match *self {
            UndoFault::Sealed => Some(Refusal::Sealed),
            UndoFault::NotNewest { newest } => Some(Refusal::NotNewest { newest }),
            UndoFault::Memory => None,
        }
    }
}

impl Refuses for RedoFault {
    ghost refusal_of = { redo_refusal };

    fn refusal(&self) -> Option<Refusal> {
        match *self {
            RedoFault::Overtaken => Some(Refusal::Overtaken),
            RedoFault::NotNext { next } => Some(Refusal::NotNext { next }),
            RedoFault::Memory => None,
        }
    }
}

impl Refuses for CommitFault {
    ghost refusal_of = { commit_refusal };

    fn refusal(&self) -> Option<Refusal> {
        match *self {
            CommitFault::OtherGame => Some(Refusal::OtherGame),
            CommitFault::Outdated { feature } => Some(Refusal::Outdated { feature }),
            CommitFault::Memory => None,
        }
    }
}

/// The fault of a call that a desk never refuses: no call gives one.
#[derive(Clone, Copy, Debug, PartialEq, Eq, Error)]
#[error("never")]
pub struct Never {
    none: (),
}

impl Refuses for Never {
    ghost refusal_of = { never_refused };

    fn refusal(&self) -> Option<Refusal> {
        None
    }
}
