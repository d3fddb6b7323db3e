//! Reasons to stop before the winners are found.
ghost use Rattle.std.specs.Prelude.{◌≡◌, ◌+◌, IfErr, OnOk};
ghost use Rattle.vpg_zielonka.specs.declared.stop.Stop.{Stop};

use std::alloc::AllocError;
use thiserror::Error;
use vpg_sets::SetsFault;

/// A reason to stop before the winners are found.
#[derive(Clone, Copy, Debug, PartialEq, Eq, Error)]
pub(crate) enum Stop {
    /// The universe of the sets has as many nodes as it may have.
    #[error("Full")]
    Full,
    /// The steps are spent.
    #[error("Spent")]
    Spent,
    /// Out of memory.
    #[error("Memory")]
    Memory,
}

impl From<AllocError> for Stop {
    ghost use Rattle.vpg_zielonka.specs.declared.stop.Stop.TheVariants.{Memory};

    ghost from_gives = { λ _ stop. stop ≡ Memory };

    fn from(_e: AllocError) -> Stop {
        Stop::Memory
    }
}

impl From<SetsFault> for Stop {
    ghost use Rattle.vpg_zielonka.specs.Stops.{stop_of};

    ghost from_gives = { λ fault stop. stop ≡ stop_of fault };

    fn from(fault: SetsFault) -> Stop {
        match fault {
            SetsFault::Full => Stop::Full,
            SetsFault::Memory => Stop::Memory,
        }
    }
}

/// Takes so many steps, or all if fewer are left.
pub(crate) fn take_steps(steps: &mut u64, count: u64) -> Result<(), Stop>
    ensures taken { OnOk result (steps.new + count ≡ steps.old) }
    ensures spent { IfErr result (λ stop. (stop ≡ Stop.Spent) × (steps.new ≡ 0)) }
{
    if *steps < count {
        *steps = 0;
        return Err(Stop::Spent);
    }
    *steps -= count;
    Ok(())
}
