//! Why there is no order.

use std::alloc::AllocError;
use thiserror::Error;
use vpg_partial::PartialFault;

/// Why there is no order.
#[derive(Clone, Copy, Debug, PartialEq, Eq, Error)]
pub enum OrderFault {
    /// Some priority is 65,536, so that the game has no dual.
    #[error("AtLimit")]
    AtLimit,
    /// The decisions have a conflict, named by this feature. If the diagram alone has one, the feature is its root.
    #[error("Conflict {feature}")]
    Conflict { feature: u16 },
    /// Memory ran out.
    #[error("Memory")]
    Memory,
}

impl From<AllocError> for OrderFault {
    ghost use Rattle.std.specs.Prelude.{◌≡◌};
    ghost use Rattle.vpg_measure.specs.declared.fault.OrderFault.TheVariants.{Memory};

    ghost from_gives = { λ _ e. e ≡ Memory };

    fn from(_e: AllocError) -> OrderFault {
        OrderFault::Memory
    }
}

impl From<PartialFault> for OrderFault {
    ghost use Rattle.std.specs.Prelude.{◌≡◌};
    ghost use Rattle.vpg_measure.specs.Faults.{order_fault};

    ghost from_gives = { λ fault e. e ≡ order_fault fault };

    fn from(fault: PartialFault) -> OrderFault {
        match fault {
            PartialFault::Conflict { feature } => OrderFault::Conflict { feature },
            PartialFault::Memory => OrderFault::Memory,
        }
    }
}
