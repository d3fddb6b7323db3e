//! A book is opened, or begun.
ghost use Rattle.std.specs.Prelude.{◌≡◌, ◌⊎◌, ◌<◌, ◌++◌, [], ◌∷◌, List, ℕ, length, IfErr, IfOk, OnOk, IsErr, IsTrue, nat_eq, slice_index};
ghost use Rattle.sqlite_disk.specs.Disk.{CountsFault, Only};
ghost use Rattle.vpg_journal.specs.Batch.{HasCause};
ghost use Rattle.vpg_journal.specs.Frames.{records_of, texts};
ghost use Rattle.vpg_journal.specs.Head.{IsBegun, IsBlank, IsRefused, head_of};
ghost use Rattle.vpg_journal.specs.Journal.{IsAtRest, IsBeforeOrAfter};

use crate::fault::JournalFault;
use crate::frames::{Found, first_record, found_in};
use crate::head::{head_batch, is_blank, refusal};
use crate::journal::append;
use sqlite_disk::Disk;
use std::alloc::Global;
use std::io;

/// Opens the book of a family, and returns the records after its head. A blank file becomes a book: one that is
/// empty, or that was begun and never opened. No other file is written to.
///
/// The family is any string of bytes that tells families apart, such as a digest of their texts, of at most 65,522
/// bytes. Errors: `Disk`, `Memory`; `TooLong`, if the file is blank and the family longer; `NoBook`, `OtherVersion`,
/// `OtherFamily` and `CutShort` for a file that isn't blank, which each leave untouched.
pub fn open<D: Disk>(alloc: Global, disk: &mut D, family: &[u8]) -> Result<Found, JournalFault>
    requires usable { IsTrue (D.is_usable disk.old) }
    ensures usable { OnOk result (IsTrue (D.is_usable disk.new)) }
    ensures clean { IsTrue (D.is_clean disk.new) → IsTrue (D.is_clean disk.old) }
    ensures found { IfOk result (λ found. IsTrue (D.is_clean disk.new)
        → records_of (D.seen disk.new) ≡ head_of family.now ∷ texts found.records.items) }
    ensures at_rest { IfOk result (λ found. IsTrue (D.is_clean disk.new) → IsAtRest (D.seen disk.new) found.gate) }
    ensures durable { OnOk result (Only (D.seen disk.new) (D.may_leave disk.new)) }
    ensures begun { IfOk result (λ found. IsTrue (D.is_clean disk.new) → IsBlank (D.seen disk.old) family.now
        → texts found.records.items ≡ []) }
    ensures refused { IfErr result
        (λ fault. IsTrue (D.is_clean disk.new) → IsRefused (D.seen disk.old) family.now fault) }

    // It does not give up by itself.
    ensures failed { IfErr result (HasCause (D.faults disk.old) (D.faults disk.new)) }

    // Only a blank file is written to.
    ensures untouched { IsTrue (D.is_clean disk.new) → ¬ IsBlank (D.seen disk.old) family.now →
        D.seen disk.new ≡ D.seen disk.old }
    // A crash leaves what it might have left before, or the blank file with its head or with no record.
    ensures any_crash { IsTrue (D.is_clean disk.new) → (c : List ℕ) → D.may_leave disk.new c
        → D.may_leave disk.old c ⊎ IsBegun (D.seen disk.old) family.now c }
{
    if let Err(error) = disk.sync() {
        return Err(JournalFault::Disk(error));
    }
    let bytes = match read_all(alloc, disk) {
        Ok(bytes) => bytes,
        Err(fault) => return Err(fault),
    };
    if !is_blank(&bytes, family) {
        return read_book(alloc, &bytes, family);
    }
    let gate = match begin(alloc, disk, bytes.is_empty(), family) {
        Ok(gate) => gate,
        Err(fault) => return Err(fault),
    };
    Ok(Found {
        records: Vec::new(alloc),
        gate,
    })
}

/// Reads the whole file.
fn read_all<D: Disk>(alloc: Global, disk: &mut D) -> Result<Vec<u8>, JournalFault>
    requires { IsTrue (D.is_usable disk.old) }
    ensures usable { IsTrue (D.is_usable disk.new) }
    ensures bytes { IfOk result (λ bytes. IsTrue (D.is_clean disk.new) → bytes.items ≡ D.seen disk.old) }
    ensures seen { D.seen disk.new ≡ D.seen disk.old }
    ensures clean { IsTrue (D.is_clean disk.new) → IsTrue (D.is_clean disk.old) }
    ensures crash { (c : List ℕ) → D.may_leave disk.new c → D.may_leave disk.old c }
    ensures same { OnOk result (D.faults disk.new ≡ D.faults disk.old) }
    ensures refused { IfErr result (λ fault. (file other : List ℕ) → IsRefused file other fault) }
    ensures failed { IfErr result (HasCause (D.faults disk.old) (D.faults disk.new)) }
{
    let len = match disk.len() {
        Ok(len) => len,
        Err(error) => return Err(JournalFault::Disk(error)),
    };
    let Ok(mut bytes) = vec![in alloc; 0u8; len] else {
        return Err(JournalFault::Memory);
    };
    if let Err(error) = disk.read_at(0, &mut bytes) {
        return Err(JournalFault::Disk(error));
    }
    Ok(bytes)
}

/// Reads the records after the head of a family's book.
fn read_book(alloc: Global, bytes: &[u8], family: &[u8]) -> Result<Found, JournalFault>
    requires { ¬ IsBlank bytes.now family.now }
    ensures found { IfOk result (λ found. records_of bytes.now ≡ head_of family.now ∷ texts found.records.items) }
    ensures at_rest { IfOk result (λ found. IsAtRest bytes.now found.gate) }
    ensures refused { IfErr result (IsRefused bytes.now family.now) }
    ensures own { IfErr result (λ fault. (before now : ℕ) → HasCause before now fault) }
{
    let Some((text, rest)) = first_record(bytes) else {
        return Err(JournalFault::NoBook);
    };
    if let Some(fault) = refusal(text, family) {
        return Err(fault);
    }
    let Ok(behind) = found_in(alloc, rest) else {
        return Err(JournalFault::Memory);
    };
    let gate = bytes.len() - rest.len() + behind.gate;
    let Some(byte) = bytes.get(gate) else {
        return Err(JournalFault::CutShort);
    };
    if *byte == 1 {
        return Err(JournalFault::CutShort);
    }
    Ok(Found {
        records: behind.records,
        gate,
    })
}

/// Makes a book of a blank file, and returns the place of its gate.
fn begin<D: Disk>(
    alloc: Global,
    disk: &mut D,
    is_empty: bool,
    family: &[u8],
) -> Result<usize, JournalFault>
    requires usable { IsTrue (D.is_usable disk.old) }
    requires durable { IsTrue (D.is_clean disk.old) → Only (D.seen disk.old) (D.may_leave disk.old) }
    requires closed { IsTrue (D.is_clean disk.old) → slice_index (D.seen disk.old) 0 ≡ 0 }
    requires empty { IsTrue (D.is_clean disk.old) → is_empty ≡ nat_eq (length (D.seen disk.old)) 0 }
    ensures usable { OnOk result (IsTrue (D.is_usable disk.new)) }
    ensures clean { IsTrue (D.is_clean disk.new) → IsTrue (D.is_clean disk.old) }
    ensures head { OnOk result (IsTrue (D.is_clean disk.new) → records_of (D.seen disk.new) ≡ head_of family.now ∷ []) }
    ensures at_rest { IfOk result (λ gate. IsTrue (D.is_clean disk.new) → IsAtRest (D.seen disk.new) gate) }
    ensures durable { OnOk result (Only (D.seen disk.new) (D.may_leave disk.new)) }
    ensures any_crash { IsTrue (D.is_clean disk.new) → (c : List ℕ) → D.may_leave disk.new c
        → IsBeforeOrAfter [] (head_of family.now ∷ []) c }
    ensures refused { IfErr result
        (λ fault. (file : List ℕ) → IsBlank file family.now → IsRefused file family.now fault) }
    ensures failed { IfErr result (HasCause (D.faults disk.old) (D.faults disk.new)) }
{
    let bytes = head_batch(alloc, family)?;
    if let Err(error) = close_gate(disk, is_empty) {
        return Err(JournalFault::Disk(error));
    }
    let tail = &bytes[1..];
    if let Err(error) = append(disk, 0, tail) {
        return Err(JournalFault::Disk(error));
    }
    Ok(tail.len())
}

/// Writes a closed gate into an empty file.
fn close_gate<D: Disk>(disk: &mut D, is_empty: bool) -> io::Result<()>
    requires usable { IsTrue (D.is_usable disk.old) }
    requires durable { IsTrue (D.is_clean disk.old) → Only (D.seen disk.old) (D.may_leave disk.old) }
    requires closed { IsTrue (D.is_clean disk.old) → slice_index (D.seen disk.old) 0 ≡ 0 }
    requires empty { IsTrue (D.is_clean disk.old) → is_empty ≡ nat_eq (length (D.seen disk.old)) 0 }
    ensures usable { OnOk result (IsTrue (D.is_usable disk.new)) }
    ensures clean { IsTrue (D.is_clean disk.new) → IsTrue (D.is_clean disk.old) }
    ensures none { OnOk result (IsTrue (D.is_clean disk.new) → records_of (D.seen disk.new) ≡ []) }
    ensures at_rest { OnOk result (IsTrue (D.is_clean disk.new) → IsAtRest (D.seen disk.new) 0) }
    ensures durable { OnOk result (IsTrue (D.is_clean disk.new) → Only (D.seen disk.new) (D.may_leave disk.new)) }
    ensures any_crash { IsTrue (D.is_clean disk.new) → (c : List ℕ) → D.may_leave disk.new c → records_of c ≡ [] }
    ensures faults { CountsFault result (D.faults disk.old) (D.faults disk.new) }
{
    if !is_empty {
        return Ok(());
    }
    disk.write_at(0, &[0])?;
    disk.sync()?;
    Ok(())
}
