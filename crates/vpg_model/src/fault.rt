//! Why a game is refused.
use std::alloc::{AllocError, AllocFailed};
use thiserror::Error;

/// Why a game is refused.
#[derive(Clone, Copy, Debug, PartialEq, Eq, Error)]
pub enum ModelFault {
    /// More than 65,536 vertices can be reached.
    #[error("TooManyVertices")]
    TooManyVertices,
    /// Vertices that can be reached have more than 1,048,576 moves.
    #[error("TooManyEdges")]
    TooManyEdges,
    /// A priority is 65,536 or more, or the top measure of the game or of its dual exceeds 2^62.
    #[error("TooWide")]
    TooWide,
    /// Memory ran out.
    #[error("Memory")]
    Memory,
}

impl From<AllocError> for ModelFault {
    ghost use Rattle.std.specs.Prelude.{◌≡◌};
    ghost use Rattle.vpg_model.specs.declared.fault.ModelFault.TheVariants.{Memory};

    ghost from_gives = { λ _ fault. fault ≡ Memory };

    fn from(_error: AllocError) -> ModelFault {
        ModelFault::Memory
    }
}

impl<T: Drop> From<AllocFailed<T>> for ModelFault {
    ghost use Rattle.std.specs.Prelude.{◌≡◌};
    ghost use Rattle.vpg_model.specs.declared.fault.ModelFault.TheVariants.{Memory};

    ghost from_gives = { λ _ fault. fault ≡ Memory };

    fn from(_error: AllocFailed<T>) -> ModelFault {
        ModelFault::Memory
    }
}
