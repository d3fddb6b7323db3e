//! Records as frames, and the records of a row of frames.
ghost use Rattle.std.specs.Prelude.{◌≡◌, ◌<◌, [], ◌∷◌, ◌++◌, length, IfOk, IfErr, OnOk, IfSome, IfNone};
ghost use Rattle.vpg_journal.specs.Frames.{AreShort, IsParted, IsFirst, frame, frames, records_of, texts};
ghost use Rattle.vpg_journal.specs.Batch.{IsNotFramed};

use crate::fault::JournalFault;
use std::alloc::{AllocError, Global};

/// The most bytes of a record.
pub const LONGEST_RECORD: usize = 65_535;

/// The records of a book after its head, and the place of the gate that follows them.
#[derive(Drop)]
pub struct Found {
    pub records: Vec<Vec<u8>>,
    pub gate: usize,
}

/// Returns the frames of the records, and a closed gate.
pub(crate) fn batch_of(alloc: Global, records: &[Vec<u8>]) -> Result<Vec<u8>, JournalFault>
    ensures short { IfOk result (λ bytes. AreShort (texts records.now)) }
    ensures bytes { IfOk result (λ bytes. bytes.items ≡ frames (texts records.now) ++ 0 ∷ []) }
    ensures refused { IfErr result (IsNotFramed (texts records.now)) }
{
    let mut bytes = Vec::new(alloc);
    for text in records {
        if let Err(fault) = put_frame(&mut bytes, text) {
            return Err(fault);
        }
    }
    bytes.push(0)?;
    Ok(bytes)
}

/// Adds the frame of a record.
fn put_frame(bytes: &mut Vec<u8>, text: &[u8]) -> Result<(), JournalFault>
    ensures short { OnOk result (length text.now < 65536) }
    ensures bytes { OnOk result (bytes.new.items ≡ bytes.old.items ++ frame text.now) }
    ensures refused { IfErr result (IsNotFramed (text.now ∷ [])) }
{
    if text.len() > LONGEST_RECORD {
        return Err(JournalFault::TooLong);
    }
    let [low, high] = (text.len() as u16).to_le_bytes();
    bytes.extend_from_slice(&[1, low, high])?;
    bytes.extend_from_slice(text)?;
    Ok(())
}

/// Returns the record of the first frame, and the bytes after that frame. Returns `None` if it is closed or cut
/// short.
pub(crate) fn first_record(bytes: &[u8]) -> Option<(&[u8], &[u8])>
    ensures some { IfSome result (λ parts. IsFirst bytes.now parts.0.now parts.1.now) }
    ensures none { IfNone result (records_of bytes.now ≡ []) }
{
    let [gate, low, high, rest @ ..] = bytes else {
        return None;
    };
    if *gate != 1 {
        return None;
    }
    let len = usize::from(*low) + 256 * usize::from(*high);
    if rest.len() < len {
        return None;
    }
    Some((&rest[..len], &rest[len..]))
}

/// Returns the records of the frames, up to the first that is closed or cut short, and its place.
pub(crate) fn found_in(alloc: Global, bytes: &[u8]) -> Result<Found, AllocError>
    ensures { IfOk result (λ found. IsParted bytes.now (texts found.records.items) found.gate) }
{
    let mut records = Vec::new(alloc);
    let mut rest = bytes;
    while let Some((text, behind)) = first_record(rest) {
        records.push(text.to_vec(alloc)?)?;
        rest = behind;
    }
    Ok(Found {
        records,
        gate: bytes.len() - rest.len(),
    })
}
