//! Why a journal isn't opened, or a list of records isn't added.
use std::alloc::{AllocError, AllocFailed};
use std::io;
use thiserror::Error;

/// Why a journal isn't opened, or a list of records isn't added.
#[derive(Clone, Copy, Debug, Error)]
pub enum JournalFault {
    /// The file is no book.
    #[error("NoBook")]
    NoBook,
    /// The file is a book of another version.
    #[error("OtherVersion {version}")]
    OtherVersion { version: u8 },
    /// The file is a book of another family.
    #[error("OtherFamily")]
    OtherFamily,
    /// The file ends within a frame, or without a gate: it has lost records that were acknowledged.
    #[error("CutShort")]
    CutShort,
    /// A record has more than 65,535 bytes.
    #[error("TooLong")]
    TooLong,
    /// The records of the file, or those to add, take 2^62 bytes.
    #[error("Full")]
    Full,
    /// A call of the disk failed. After it the journal may not be used: open the file again.
    #[error("Disk {0}")]
    Disk(io::Error),
    /// Memory ran out.
    #[error("Memory")]
    Memory,
}

impl From<AllocError> for JournalFault {
    ghost use Rattle.std.specs.Prelude.{◌≡◌};
    ghost use Rattle.vpg_journal.specs.declared.fault.JournalFault.TheVariants.{Memory};

    ghost from_gives = { λ _ fault. fault ≡ Memory };

    fn from(_e: AllocError) -> JournalFault {
        JournalFault::Memory
    }
}

impl<T: Drop> From<AllocFailed<T>> for JournalFault {
    ghost use Rattle.std.specs.Prelude.{◌≡◌};
    ghost use Rattle.vpg_journal.specs.declared.fault.JournalFault.TheVariants.{Memory};

    ghost from_gives = { λ _ fault. fault ≡ Memory };

    fn from(_e: AllocFailed<T>) -> JournalFault {
        JournalFault::Memory
    }
}

impl From<io::Error> for JournalFault {
    ghost use Rattle.std.specs.Prelude.{◌≡◌};
    ghost use Rattle.vpg_journal.specs.declared.fault.JournalFault.TheVariants.{Disk};

    ghost from_gives = { λ e fault. fault ≡ Disk e };

    fn from(e: io::Error) -> JournalFault {
        JournalFault::Disk(e)
    }
}
