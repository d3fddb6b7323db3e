//! The first record of a book, which names the version and the family.
ghost use Rattle.std.specs.Prelude.{◌≡◌, ◌↔◌, [], ◌∷◌, ◌++◌, List, ℕ, IfErr, IfOk, IsTrue, MatchOption};
ghost use Rattle.vpg_journal.specs.Batch.{IsNotFramed};
ghost use Rattle.vpg_journal.specs.Frames.{AreShort, frames};
ghost use Rattle.vpg_journal.specs.Head.{IsBlank, IsOtherHead, head_of};

use crate::fault::JournalFault;
use crate::frames::batch_of;
use std::alloc::{AllocError, Global};

/// The version of the books that are written and read.
pub const VERSION: u8 = 1;

const WORD: [u8; 12] = *b"vpgdesk book";

/// The bytes of a head beside the family, those of its frame, and the gate after it.
const BEGUN: usize = 17;

/// Returns the frame of a family's head, and a closed gate.
pub(crate) fn head_batch(alloc: Global, family: &[u8]) -> Result<Vec<u8>, JournalFault>
    ensures short { IfOk result (λ bytes. AreShort (head_of family.now ∷ [])) }
    ensures bytes { IfOk result (λ bytes. bytes.items ≡ frames (head_of family.now ∷ []) ++ 0 ∷ []) }
    ensures refused { IfErr result (IsNotFramed (head_of family.now ∷ [])) }
{
    let Ok(head) = head_text(alloc, family) else {
        return Err(JournalFault::Memory);
    };
    let heads = [head];
    batch_of(alloc, &heads)
}

fn head_text(alloc: Global, family: &[u8]) -> Result<Vec<u8>, AllocError>
    ensures { IfOk result (λ head. head.items ≡ head_of family.now) }
{
    let mut head = Vec::new(alloc);
    head.extend_from_slice(&WORD)?;
    head.push(VERSION)?;
    head.extend_from_slice(family)?;
    Ok(head)
}

/// Whether the file is empty, or was begun and never opened.
pub(crate) fn is_blank(bytes: &[u8], family: &[u8]) -> bool
    ensures { IsTrue result ↔ IsBlank bytes.now family.now }
{
    if bytes.len() > family.len() + BEGUN {
        return false;
    }
    let Some(first) = bytes.first() else {
        return true;
    };
    *first == 0
}

/// Returns why a first record is not the head of a family's book.
pub(crate) fn refusal(text: &[u8], family: &[u8]) -> Option<JournalFault>
    ensures { MatchOption result (text.now ≡ head_of family.now) (IsOtherHead text.now family.now) }
{
    let Some(rest) = text.strip_prefix(&WORD) else {
        return Some(JournalFault::NoBook);
    };
    let [version, found @ ..] = rest else {
        return Some(JournalFault::NoBook);
    };
    if *version != VERSION {
        return Some(JournalFault::OtherVersion { version: *version });
    }
    if found != family {
        return Some(JournalFault::OtherFamily);
    }
    None
}
