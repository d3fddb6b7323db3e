//! Lines and their words, with the offsets where they begin.
ghost use Rattle.std.specs.Prelude.{◌≡◌, ◌⊎◌, ◌++◌, ◌∷◌, [], length, take};
ghost use Rattle.vpg_places.specs.Places.{to_line_feed, behind_feed, behind_feeds, column_of, IsColumnOf, IsLine};

use crate::place::{Place, is_line_feed, place_of};
use std::alloc::{AllocError, Global};

/// A word.
#[derive(Clone, Copy)]
pub struct Word<'t> {
    /// The offset of its first byte in its line.
    pub at: usize,
    pub bytes: &'t [u8],
}

/// A line without its end.
#[derive(Clone, Copy)]
pub struct Line<'t> {
    /// From 1.
    pub number: usize,
    /// The offset of its first byte in the text.
    pub from: usize,
    pub bytes: &'t [u8],
}

impl<'t> Line<'t> {
    /// Returns the place of the byte at an offset of the line, or of the end of the line if the offset is greater.
    pub fn place(&self, at: usize) -> Place
        ensures line { result.line ≡ self.now.number }
        ensures column { result.column ≡ column_of (take at self.now.bytes.now) }
        ensures within { IsColumnOf self.now.bytes.now result.column }
    {
        let at = at.min(self.bytes.len());
        Place {
            line: self.number,
            column: place_of(self.bytes, at).column,
        }
    }

    /// Whether it has no byte but blanks.
    pub fn is_blank(&self) -> bool {
        self.bytes.iter().all(|b| is_blank(*b))
    }
}

/// Returns the offset of the first line feed, or the length if there is none.
fn feed_at(text: &[u8]) -> usize
    ensures { result ≡ length (to_line_feed text.now) }
{
    for (i, b) in text.iter().enumerate() {
        if is_line_feed(*b) {
            return i;
        }
    }
    text.len()
}

/// Returns the text after the first line feed.
fn behind_feed(text: &[u8]) -> &[u8]
    ensures { result.now ≡ behind_feed text.now }
{
    let end = feed_at(text);
    if end < text.len() {
        &text[end + 1..]
    } else {
        &[]
    }
}

/// Returns the text after this many line feeds.
fn behind_feeds(text: &[u8], feeds: usize) -> &[u8]
    ensures { result.now ≡ behind_feeds feeds text.now }
{
    let mut rest = text;
    for _ in 0..feeds {
        if rest.is_empty() {
            return rest;
        }
        rest = behind_feed(rest);
    }
    rest
}

/// Returns the bytes without a carriage return at their end.
fn without_return(bytes: &[u8]) -> &[u8]
    ensures { (result.now ≡ bytes.now) ⊎ (result.now ++ 13 ∷ [] ≡ bytes.now) }
{
    match bytes {
        [rest @ .., b'\r'] => rest,
        _ => bytes,
    }
}

/// Returns the line at the front of a text. A line feed may have a carriage return before it.
fn front_line(text: &[u8]) -> &[u8]
    ensures { (result.now ≡ to_line_feed text.now) ⊎ (result.now ++ 13 ∷ [] ≡ to_line_feed text.now) }
{
    let end = feed_at(text);
    let bytes = &text[..end];
    if end < text.len() {
        without_return(bytes)
    } else {
        bytes
    }
}

/// Returns the line of this number, or an empty one if the text has fewer.
pub fn line_at(text: &[u8], number: usize) -> Line<'_>
    ensures number { result.number ≡ number }
    ensures bytes { IsLine text.now number result.bytes.now }
{
    let rest = behind_feeds(text, number.saturating_sub(1));
    Line {
        number,
        from: text.len().saturating_sub(rest.len()),
        bytes: front_line(rest),
    }
}

/// Returns the lines of a text.
pub fn lines_of<'t>(alloc: Global, text: &'t [u8]) -> Result<Vec<Line<'t>>, AllocError> {
    let mut lines = Vec::new(alloc);
    let mut from = 0usize;
    let mut number = 1usize;
    for piece in text.split(|b| *b == b'\n') {
        let end = from.saturating_add(piece.len());
        // The last line has no line feed.
        let bytes = if end < text.len() {
            without_return(piece)
        } else {
            piece
        };
        lines.push(Line {
            number,
            from,
            bytes,
        })?;
        from = end.saturating_add(1);
        number = number.saturating_add(1);
    }
    Ok(lines)
}

fn is_blank(b: u8) -> bool {
    b == b' ' || b == b'\t'
}

/// Adds the bytes of a line from one offset to another, if there are any.
fn push_word<'t>(
    line: &'t [u8],
    begin: usize,
    end: usize,
    words: &mut Vec<Word<'t>>,
) -> Result<(), AllocError> {
    match line.get(begin..end) {
        None | Some([]) => Ok(()),
        Some(bytes) => {
            words.push(Word { at: begin, bytes })?;
            Ok(())
        }
    }
}

/// Returns the place after the quote here and the next one, or here if there is no other.
fn behind_quotes(line: &[u8], at: usize) -> usize {
    let next = at.saturating_add(1);
    match line.get(next..) {
        Some(rest) => match rest.iter().position(|b| *b == b'"') {
            Some(n) => next.saturating_add(n).saturating_add(1),
            None => at,
        },
        None => at,
    }
}

/// Returns the words of a line. Each of these signs is a word of its own; if there are none, a word that begins with a
/// quote goes on after the next quote.
pub fn words_of<'t>(
    alloc: Global,
    line: &'t [u8],
    signs: &[u8],
) -> Result<Vec<Word<'t>>, AllocError> {
    let mut words = Vec::new(alloc);
    let mut begin = 0usize;
    let mut behind = 0usize;
    for (i, b) in line.iter().enumerate() {
        let is_sign = signs.contains(b);
        if signs.is_empty() && *b == b'"' && i == begin {
            behind = behind_quotes(line, i);
        }
        if i >= behind && (is_sign || is_blank(*b)) {
            push_word(line, begin, i, &mut words)?;
            begin = i.saturating_add(1);
        }
        if is_sign {
            push_word(line, i, begin, &mut words)?;
        }
    }
    push_word(line, begin, line.len(), &mut words)?;
    Ok(words)
}
