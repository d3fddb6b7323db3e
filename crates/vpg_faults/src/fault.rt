//! One enum for each call that is refused.

use std::alloc::{AllocError, AllocFailed};
use thiserror::Error;

/// Why a desk isn't opened.
#[derive(Clone, Copy, Debug, PartialEq, Eq, Error)]
pub enum OpenFault {
    /// Some priority is 65,536, so that the game has no dual.
    #[error("AtLimit")]
    AtLimit,
    /// The diagram alone has a conflict, which names its root.
    #[error("Conflict {feature}")]
    Conflict { feature: u16 },
    #[error("Memory")]
    Memory,
}

/// Why a feature isn't decided. `Memory` comes last, and only if a growth was refused.
#[derive(Clone, Copy, Debug, PartialEq, Eq, Error)]
pub enum DecideFault {
    /// The diagram has no such feature.
    #[error("UnknownFeature")]
    UnknownFeature,
    /// The change of this serial decided the feature.
    #[error("AlreadyDecided {serial}")]
    AlreadyDecided { serial: u64 },
    /// The decision contradicts the diagram and the present decisions.
    #[error("Conflict {feature}")]
    Conflict { feature: u16 },
    /// The desk has made 1,048,576 changes.
    #[error("TooManyChanges")]
    TooManyChanges,
    #[error("Memory")]
    Memory,
}

/// Why a decision isn't retracted. `Memory` comes last, and only if a growth was refused.
#[derive(Clone, Copy, Debug, PartialEq, Eq, Error)]
pub enum RetractFault {
    /// The diagram has no such feature.
    #[error("UnknownFeature")]
    UnknownFeature,
    /// No decision of the present page is on the feature.
    #[error("NotDecided")]
    NotDecided,
    /// The desk has made 1,048,576 changes.
    #[error("TooManyChanges")]
    TooManyChanges,
    #[error("Memory")]
    Memory,
}

/// Why the decisions aren't taken back. `Memory` comes last, and only if a growth was refused.
#[derive(Clone, Copy, Debug, PartialEq, Eq, Error)]
pub enum ResetFault {
    /// The present page has no decision.
    #[error("NotDecided")]
    NotDecided,
    /// The desk has made 1,048,576 changes.
    #[error("TooManyChanges")]
    TooManyChanges,
    #[error("Memory")]
    Memory,
}

/// Why a change isn't undone. `Memory` comes last, and only if a growth was refused.
#[derive(Clone, Copy, Debug, PartialEq, Eq, Error)]
pub enum UndoFault {
    /// The past has no page of this serial.
    #[error("Sealed")]
    Sealed,
    /// A newer change has to be undone before; this is the newest one's serial.
    #[error("NotNewest {newest}")]
    NotNewest { newest: u64 },
    #[error("Memory")]
    Memory,
}

/// Why a change isn't redone. `Memory` comes last, and only if a growth was refused.
#[derive(Clone, Copy, Debug, PartialEq, Eq, Error)]
pub enum RedoFault {
    /// The future has no page of this serial.
    #[error("Overtaken")]
    Overtaken,
    /// An earlier change has to be redone before; this is the nearest one's serial.
    #[error("NotNext {next}")]
    NotNext { next: u64 },
    #[error("Memory")]
    Memory,
}

/// Why a harvest isn't committed. `Memory` comes last, and only if a growth was refused.
#[derive(Clone, Copy, Debug, PartialEq, Eq, Error)]
pub enum CommitFault {
    /// The order's game or diagram isn't the desk's.
    #[error("OtherGame")]
    OtherGame,
    /// The order's decision on this feature, its first such one, isn't among the present ones with the same value.
    #[error("Outdated {feature}")]
    Outdated { feature: u16 },
    #[error("Memory")]
    Memory,
}

impl From<AllocError> for OpenFault {
    ghost use Rattle.std.specs.Prelude.{◌≡◌};
    ghost use Rattle.vpg_faults.specs.declared.fault.OpenFault.TheVariants.{Memory};

    ghost from_gives = { λ _ fault. fault ≡ Memory };

    fn from(_: AllocError) -> OpenFault {
        OpenFault::Memory
    }
}

impl From<AllocError> for DecideFault {
    ghost use Rattle.std.specs.Prelude.{◌≡◌};
    ghost use Rattle.vpg_faults.specs.declared.fault.DecideFault.TheVariants.{Memory};

    ghost from_gives = { λ _ fault. fault ≡ Memory };

    fn from(_: AllocError) -> DecideFault {
        DecideFault::Memory
    }
}

impl<T: Drop> From<AllocFailed<T>> for DecideFault {
    ghost use Rattle.std.specs.Prelude.{◌≡◌};
    ghost use Rattle.vpg_faults.specs.declared.fault.DecideFault.TheVariants.{Memory};

    ghost from_gives = { λ _ fault. fault ≡ Memory };

    fn from(_: AllocFailed<T>) -> DecideFault {
        DecideFault::Memory
    }
}

impl From<AllocError> for RetractFault {
    ghost use Rattle.std.specs.Prelude.{◌≡◌};
    ghost use Rattle.vpg_faults.specs.declared.fault.RetractFault.TheVariants.{Memory};

    ghost from_gives = { λ _ fault. fault ≡ Memory };

    fn from(_: AllocError) -> RetractFault {
        RetractFault::Memory
    }
}

impl From<AllocError> for ResetFault {
    ghost use Rattle.std.specs.Prelude.{◌≡◌};
    ghost use Rattle.vpg_faults.specs.declared.fault.ResetFault.TheVariants.{Memory};

    ghost from_gives = { λ _ fault. fault ≡ Memory };

    fn from(_: AllocError) -> ResetFault {
        ResetFault::Memory
    }
}

impl From<AllocError> for CommitFault {
    ghost use Rattle.std.specs.Prelude.{◌≡◌};
    ghost use Rattle.vpg_faults.specs.declared.fault.CommitFault.TheVariants.{Memory};

    ghost from_gives = { λ _ fault. fault ≡ Memory };

    fn from(_: AllocError) -> CommitFault {
        CommitFault::Memory
    }
}

impl<T: Drop> From<AllocFailed<T>> for CommitFault {
    ghost use Rattle.std.specs.Prelude.{◌≡◌};
    ghost use Rattle.vpg_faults.specs.declared.fault.CommitFault.TheVariants.{Memory};

    ghost from_gives = { λ _ fault. fault ≡ Memory };

    fn from(_: AllocFailed<T>) -> CommitFault {
        CommitFault::Memory
    }
}

impl From<AllocError> for UndoFault {
    ghost use Rattle.std.specs.Prelude.{◌≡◌};
    ghost use Rattle.vpg_faults.specs.declared.fault.UndoFault.TheVariants.{Memory};

    ghost from_gives = { λ _ fault. fault ≡ Memory };

    fn from(_: AllocError) -> UndoFault {
        UndoFault::Memory
    }
}

impl From<AllocError> for RedoFault {
    ghost use Rattle.std.specs.Prelude.{◌≡◌};
    ghost use Rattle.vpg_faults.specs.declared.fault.RedoFault.TheVariants.{Memory};

    ghost from_gives = { λ _ fault. fault ≡ Memory };

    fn from(_: AllocError) -> RedoFault {
        RedoFault::Memory
    }
}
