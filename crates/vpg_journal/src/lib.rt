//! A file of records that survives a crash at every moment, and knows nothing of what its records mean.
//!
//! A record is a string of at most 65,535 bytes. `open` reads the records of a book, or begins one, and `Journal::put`
//! adds a list of records: once it answers `Ok`, each crash leaves a file that has them, and a crash at any moment
//! leaves all of them or none. The first record is the head, which names the version and the family. `open` refuses a
//! file of another family or another version, or one that is no book, and leaves it untouched.
//!
//! The file is a row of frames: `1`, the record's length in two bytes, the lower one first, and the record. Behind the
//! last frame is a closed gate, a byte other than `1`. The next frames are written after it, with a closed gate
//! after them, and synced. Only then is the gate opened, by a write of one byte, and synced. So what a crash tears
//! lies after a closed gate, means nothing, and is overwritten by the next `put`. No checksum is trusted.
//!
//! The records of a file take less than 2^62 bytes before a list is added, and so does the list (`Full`).
//!
//! Two threads, or two programs, may not write to one file: `sqlite_std_file` opens a file under a lock, and answers
//! `Busy` where another has it.
//!
//! # Premises
//!
//! The contracts are over any `sqlite_disk::Disk`, and hold of a real file under these premises, which no proof shows:
//! the file answers as `Disk` says; what it returned was true (`is_clean`); after a crash it holds one of the contents
//! that `Disk` allows then; and nobody else writes to it.
//!
//! Definitions stand in `specs/`: `Frames` (which records a file holds), `Batch` (why a list is not added), `Head`
//! (which head a family's book has, and which file is refused) and `Journal` (when a journal is settled, and what a
//! crash may leave).
#![tactic(auto)]

mod fault;
mod frames;
mod head;
mod journal;
mod opening;

pub use fault::JournalFault;
pub use frames::{Found, LONGEST_RECORD};
pub use head::VERSION;
pub use journal::Journal;
pub use opening::open;
