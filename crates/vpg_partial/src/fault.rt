//! Why decisions have no table of what is known.
ghost use Rattle.std.specs.Prelude.{◌≡◌};

use std::alloc::AllocError;
use thiserror::Error;

/// Why decisions have no table of what is known.
#[derive(Clone, Copy, Debug, PartialEq, Eq, Error)]
pub enum PartialFault {
    /// The decisions have a conflict. The first decision up to which they have one names it, or the root if the diagram
    /// alone has one.
    #[error("Conflict {feature}")]
    Conflict { feature: u16 },
    /// Memory ran out.
    #[error("Memory")]
    Memory,
}

impl From<AllocError> for PartialFault {
    ghost use Rattle.vpg_partial.specs.declared.fault.PartialFault.TheVariants.{Memory};

    ghost from_gives = { λ _ fault. fault ≡ Memory };

    fn from(_: AllocError) -> PartialFault {
        PartialFault::Memory
    }
}
