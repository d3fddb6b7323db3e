//! The name that was perhaps meant by a word.
ghost use Rattle.std.specs.Prelude.{◌<◌, IfOk, IfSome, length};

use std::alloc::{AllocError, Global};
use strsim::levenshtein;
use vpg_features::{LONGEST_NAME, Names};
use vpg_places::{LINES, begins_character};
use vpg_script::all_forms;

/// The greatest number of edits from a word to a name that is proposed.
const MOST_EDITS: usize = 3;

/// A word of more bytes is no name with a few letters changed.
const LONGEST: usize = LONGEST_NAME + MOST_EDITS;

/// Returns a number of edits that is too great for a name to be proposed.
fn too_many_edits(word: &str) -> usize {
    MOST_EDITS.min(word.len() / 2) + 1
}

/// Returns the text of a word, if it may be a name with a few letters changed.
fn text_of(word: &[u8]) -> Option<&str> {
    if word.len() > LONGEST {
        return None;
    }
    str::from_utf8(word).ok()
}

/// Returns the number of characters of a text whose first byte is not in another text.
fn lacking(text: &str, other: &str) -> usize {
    let mut count = 0usize;
    for b in text.as_bytes() {
        if begins_character(*b) && !other.as_bytes().contains(b) {
            count = count.saturating_add(1);
        }
    }
    count
}

/// Returns the number of edits from a word to a text if it is below the limit, otherwise at least the limit.
fn edits_below(alloc: Global, limit: usize, word: &str, text: &str) -> Result<usize, AllocError> {
    // Each character that the other text lacks takes an edit of its own.
    if lacking(word, text) >= limit || lacking(text, word) >= limit {
        return Ok(limit);
    }
    levenshtein(alloc, word, text)
}

/// Returns the nearest name: of those that few edits lead to, fewer than half the word's bytes, the first with the
/// fewest.
pub fn nearest(alloc: Global, names: &Names, word: &str) -> Result<Option<u16>, AllocError>
    ensures { IfOk result (λ found. IfSome found (λ f. f < length names.now)) }
{
    let mut found = None;
    if word.len() > LONGEST {
        return Ok(found);
    }
    let mut fewest = too_many_edits(word);
    let count = names.len() as u16;
    for f in 0..count {
        let edits = edits_below(alloc, fewest, word, names.name(f))?;
        if edits < fewest {
            fewest = edits;
            found = Some(f);
        }
    }
    Ok(found)
}

/// Returns the number of edits as `edits_below` does. If `alike` is set, large and small letters count alike if nothing
/// else differs.
fn edits_to(
    alloc: Global,
    limit: usize,
    word: &str,
    text: &str,
    alike: bool,
) -> Result<usize, AllocError> {
    if alike && text.as_bytes().eq_ignore_ascii_case(word.as_bytes()) {
        return Ok(0);
    }
    edits_below(alloc, limit, word, text)
}

/// Returns the first of some words that the fewest edits lead to, fewer than half of the bytes of the word that was
/// perhaps meant to be one of them. `alike` is as for `edits_to`.
fn nearest_in<'t>(
    alloc: Global,
    words: &[&'t [u8]],
    word: &[u8],
    alike: bool,
) -> Result<Option<&'t [u8]>, AllocError> {
    let mut found = None;
    let Some(word) = text_of(word) else {
        return Ok(found);
    };
    let mut fewest = too_many_edits(word);
    for other in words {
        if let Some(name) = text_of(other) {
            let edits = edits_to(alloc, fewest, word, name, alike)?;
            if edits < fewest {
                fewest = edits;
                found = Some(*other);
            }
        }
    }
    Ok(found)
}

/// Returns the first of some words that the fewest edits lead to, fewer than half of the bytes of the word that was
/// perhaps meant to be one of them.
pub fn nearest_of<'t>(
    alloc: Global,
    words: &[&'t [u8]],
    word: &[u8],
) -> Result<Option<&'t [u8]>, AllocError> {
    nearest_in(alloc, words, word, false)
}

/// Returns the nearest of the words that begin a diagram's lines.
pub(crate) fn nearest_kind(
    alloc: Global,
    word: &[u8],
) -> Result<Option<&'static [u8]>, AllocError> {
    let kinds: Vec<&'static [u8]> = LINES
        .iter()
        .map(|form| form.word.as_bytes())
        .collect(alloc)?;
    nearest_in(alloc, &kinds, word, true)
}

/// Returns the nearest of the words that name commands.
pub(crate) fn nearest_command(
    alloc: Global,
    word: &[u8],
) -> Result<Option<&'static [u8]>, AllocError> {
    let commands: Vec<&'static [u8]> = all_forms()
        .iter()
        .map(|form| form.word.as_bytes())
        .collect(alloc)?;
    nearest_in(alloc, &commands, word, true)
}
