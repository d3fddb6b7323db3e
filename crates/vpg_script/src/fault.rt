//! Why a script stops before its end.
ghost use Rattle.std.specs.Prelude.{◌≡◌};

use crate::command::LineFault;
use crate::lines::NextFault;
use crate::serving::ServeFault;
use std::alloc::AllocError;
use thiserror::Error;
use vpg_faults::OpenFault;

/// Why a script stops before its end, or isn't begun.
#[derive(Clone, Copy, Debug, PartialEq, Eq, Error)]
pub enum RunFault {
    /// The line of this number, from 1, has a fault.
    #[error("Line {line} {fault}")]
    Line { line: u64, fault: LineFault },
    /// The reader failed, or was read 16,777,216 times.
    #[error("Read")]
    Read,
    /// The writer failed.
    #[error("Write")]
    Write,
    /// No office was opened for the script.
    #[error("{fault}")]
    Open { fault: OpenFault },
    #[error("Memory")]
    Memory,
    /// Others used the server's office.
    #[error("Stray")]
    Stray,
}

impl From<AllocError> for RunFault {
    ghost use Rattle.vpg_script.specs.declared.fault.RunFault.TheVariants.{Memory};

    ghost from_gives = { λ _ stop. stop ≡ Memory };

    fn from(_e: AllocError) -> RunFault {
        RunFault::Memory
    }
}

impl From<ServeFault> for RunFault {
    ghost use Rattle.vpg_script.specs.Results.{stop_of};

    ghost from_gives = { λ fault stop. stop ≡ stop_of fault };

    fn from(fault: ServeFault) -> RunFault {
        match fault {
            ServeFault::Memory => RunFault::Memory,
            ServeFault::Stray => RunFault::Stray,
        }
    }
}

impl From<NextFault> for RunFault {
    ghost use Rattle.vpg_script.specs.Results.{stop_of_read};

    ghost from_gives = { λ fault stop. stop ≡ stop_of_read fault };

    fn from(fault: NextFault) -> RunFault {
        match fault {
            NextFault::Read => RunFault::Read,
            NextFault::Memory => RunFault::Memory,
        }
    }
}
