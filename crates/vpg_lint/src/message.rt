//! How messages are written.
ghost use Rattle.std.specs.Prelude.{◌≡◌, ◌++◌, OnOk, map, decimal};
ghost use Rattle.vpg_lint.specs.Messages.{shown_byte, place_text, message_text};

use crate::said::Said;
use itoa::Buffer;
use std::alloc::AllocError;
use vpg_places::{Place, begins_character};

/// A message on a fault: its place, and lines that say what was found there, what was expected, and hints.
#[derive(Drop)]
pub struct Message {
    pub place: Place,
    pub words: Vec<u8>,
}

/// A word is cut after this many bytes.
const MOST_SHOWN: usize = 60;

/// Appends a number.
pub fn put_number(n: usize, out: &mut Vec<u8>) -> Result<(), AllocError>
    ensures { OnOk result (out.new.items ≡ out.old.items ++ decimal n) }
{
    let mut buffer = Buffer::new();
    out.extend_from_slice(buffer.format(n as u64).as_bytes())
}

/// Returns the byte, or `?` for a control character.
fn shown_byte(b: u8) -> u8
    ensures { result ≡ shown_byte b }
{
    if b < 32 || b == 127 { b'?' } else { b }
}

/// Appends a text without control characters.
pub fn put_text(text: &[u8], out: &mut Vec<u8>) -> Result<(), AllocError>
    ensures { OnOk result (out.new.items ≡ out.old.items ++ map shown_byte text.now) }
{
    for b in text {
        out.push(shown_byte(*b))?;
    }
    Ok(())
}

/// Appends `NAME:LINE:COLUMN: `.
pub fn put_place(name: &str, place: Place, out: &mut Vec<u8>) -> Result<(), AllocError>
    ensures { OnOk result (out.new.items ≡ out.old.items ++ place_text name.now place.line place.column) }
{
    put_text(name.as_bytes(), out)?;
    out.push(b':')?;
    put_number(place.line, out)?;
    out.push(b':')?;
    put_number(place.column, out)?;
    out.extend_from_slice(b": ")
}

/// Appends a message about the file of this name.
pub fn put_message(name: &str, message: &Message, out: &mut Vec<u8>) -> Result<(), AllocError>
    ensures { OnOk result (out.new.items ≡ out.old.items ++ message_text name.now message.now) }
{
    put_place(name, message.place, out)?;
    out.extend_from_slice(&message.words)
}

/// Appends the front of a word.
pub fn put_shown(word: &[u8], out: &mut Vec<u8>) -> Result<(), AllocError> {
    for (i, b) in word.iter().enumerate() {
        if i >= MOST_SHOWN && begins_character(*b) {
            return out.extend_from_slice(b"..");
        }
        out.push(shown_byte(*b))?;
    }
    Ok(())
}

/// Appends what was found, or what ended.
fn put_word(word: &[u8], ended: &[u8], out: &mut Said) {
    if word.is_empty() {
        out.put(ended);
        out.put(b" ends");
    } else {
        out.put(b"found `");
        out.put_shown(word);
        out.put(b"`");
    }
}

/// Appends what was found, or what ended, and what was expected.
pub(crate) fn put_found(word: &[u8], ended: &[u8], expected: &[u8], out: &mut Said) {
    put_word(word, ended, out);
    out.put(b"; expected ");
    out.put(expected);
    out.put(b"\n");
}

/// Appends a hint.
pub(crate) fn put_hint(hint: &[u8], out: &mut Said) {
    out.put(b"  hint: ");
    out.put(hint);
    out.put(b"\n");
}

/// Appends a hint with a word in quotes.
pub(crate) fn put_hint_with(before: &[u8], word: &[u8], behind: &[u8], out: &mut Said) {
    out.put(b"  hint: ");
    out.put(before);
    out.put(b"`");
    out.put_shown(word);
    out.put(b"`");
    out.put(behind);
    out.put(b"\n");
}

/// Appends the text that was perhaps meant; if there is none, another hint, unless it is empty.
pub(crate) fn put_meant(
    meant: Result<Option<&[u8]>, AllocError>,
    otherwise: &[u8],
    out: &mut Said,
) {
    match meant {
        Ok(Some(text)) => put_hint_with(b"is ", text, b" meant?", out),
        Ok(None) if otherwise.is_empty() => {}
        Ok(None) => put_hint(otherwise, out),
        Err(_) => out.refuse(),
    }
}

/// Appends a hint that ends in a line's number.
pub(crate) fn put_hint_line(before: &[u8], line: usize, out: &mut Said) {
    out.put(b"  hint: ");
    out.put(before);
    out.put_number(line);
    out.put(b"\n");
}
