//! Records are added to a file.
ghost use Rattle.std.specs.Prelude.{◌≡◌, ◌≢◌, ◌+◌, ◌<◌, ◌≤◌, ◌^◌, ◌++◌, [], ◌∷◌, List, ℕ, length, IfErr, IfOk, OnErr, OnOk, IsErr, IsTrue};
ghost use Rattle.sqlite_disk.specs.Disk.{MoreFaults, Only};
ghost use Rattle.vpg_journal.specs.Batch.{IsBatch, IsNotPut};
ghost use Rattle.vpg_journal.specs.Frames.{records_of, texts};
ghost use Rattle.vpg_journal.specs.Journal.{IsAtRest, IsBeforeOrAfter, IsSettled};

use crate::fault::JournalFault;
use crate::frames::batch_of;
use sqlite_disk::Disk;
use std::alloc::Global;
use std::io;

const MOST_BYTES: usize = 1 << 62;

/// A book that is open: its file, and the place of the closed gate after its last record.
#[derive(Drop)]
pub struct Journal<D: Disk> {
    pub disk: D,
    pub gate: usize,
}

impl<D: Disk> Journal<D> {
    /// Adds records. At `Ok` they are acknowledged: from then on each crash leaves a file that has them.
    ///
    /// Errors: `TooLong`, if a record has more than 65,535 bytes; `Memory`; `Full`, if the records of the file, or
    /// those to add, take 2^62 bytes; `Disk`. After `Disk` open the file again; the others leave the journal as it was.
    pub fn put(&mut self, alloc: Global, records: &[Vec<u8>]) -> Result<(), JournalFault>
        requires usable { IsTrue (D.is_usable self.old.disk) }
        requires settled { IsTrue (D.is_clean self.old.disk) → IsSettled D.seen D.may_leave self.old }
        ensures usable { OnOk result (IsTrue (D.is_usable self.new.disk)) }
        ensures clean { IsTrue (D.is_clean self.new.disk) → IsTrue (D.is_clean self.old.disk) }
        ensures acknowledged { OnOk result (IsTrue (D.is_clean self.new.disk) → IsSettled D.seen D.may_leave self.new
            × (records_of (D.seen self.new.disk) ≡ records_of (D.seen self.old.disk) ++ texts records.now)) }

        // A crash after any call of the disk, failed or not, leaves the records from before, with all of the new ones
        // or with none.
        ensures any_crash { IsTrue (D.is_clean self.new.disk) → (c : List ℕ) → D.may_leave self.new.disk c
            → IsBeforeOrAfter (records_of (D.seen self.old.disk)) (texts records.now) c }

        // It does not give up by itself.
        ensures refused { IfErr result
            (IsNotPut self.old self.new (texts records.now) (D.faults self.old.disk) (D.faults self.new.disk)) }
    {
        let bytes = match batch_of(alloc, records) {
            Ok(bytes) => bytes,
            Err(fault) => return Err(fault),
        };
        if records.is_empty() {
            return Ok(());
        }
        if self.gate >= MOST_BYTES || bytes.len() >= MOST_BYTES {
            return Err(JournalFault::Full);
        }
        let tail = &bytes[1..];
        if let Err(error) = append(&mut self.disk, self.gate, tail) {
            return Err(JournalFault::Disk(error));
        }
        self.gate += tail.len();
        Ok(())
    }
}

/// Writes the frames and the closed gate of a batch after the closed gate, and then opens that. The tail is the batch
/// without its first byte.
pub(crate) fn append<D: Disk>(disk: &mut D, gate: usize, tail: &[u8]) -> io::Result<()>
    requires usable { IsTrue (D.is_usable disk.old) }
    requires at_rest { IsTrue (D.is_clean disk.old) → IsAtRest (D.seen disk.old) gate }
    requires durable { IsTrue (D.is_clean disk.old) → Only (D.seen disk.old) (D.may_leave disk.old) }
    requires batch { IsBatch (1 ∷ tail.now) }
    requires room { gate < 2 ^ 62 }
    ensures usable { OnOk result (IsTrue (D.is_usable disk.new)) }
    ensures clean { IsTrue (D.is_clean disk.new) → IsTrue (D.is_clean disk.old) }
    ensures durable { OnOk result (Only (D.seen disk.new) (D.may_leave disk.new)) }
    ensures at_rest { OnOk result (IsTrue (D.is_clean disk.new) → IsAtRest (D.seen disk.new) (gate + length tail.now)) }
    ensures added { OnOk result (IsTrue (D.is_clean disk.new)
        → records_of (D.seen disk.new) ≡ records_of (D.seen disk.old) ++ records_of (1 ∷ tail.now)) }
    ensures any_crash { IsTrue (D.is_clean disk.new) → (c : List ℕ) → D.may_leave disk.new c
        → IsBeforeOrAfter (records_of (D.seen disk.old)) (records_of (1 ∷ tail.now)) c }
    ensures failed { IsErr result → MoreFaults (D.faults disk.old) (D.faults disk.new) }
{
    disk.write_at(gate + 1, tail)?;
    disk.sync()?; // else a crash may leave the gate open before frames that are torn
    disk.write_at(gate, &[1])?;
    disk.sync()?; // else a crash may lose what is acknowledged
    Ok(())
}
