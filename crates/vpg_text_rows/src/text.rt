//! The writing of texts in rows.
//!
//! `/` is a line feed, and a byte that can't be seen has its picture: `␉` a tab, `␋` a vertical tab, `␍` a carriage
//! return, `␠` a blank at the end. `�` is a byte 255, which no text in UTF-8 has. `<N|PART>` is the part N times, one
//! after the other. In it `#` is the number of the repetition, from 0, `%` twice that, and `@` one more than twice
//! that.

use crate::line::Line;
use std::alloc::Global;

/// Returns the bytes for a sign that doesn't stand for itself.
fn meant(sign: char) -> Option<&'static [u8]> {
    match sign {
        '/' => Some(b"\n"),
        '␉' => Some(b"\t"),
        '␋' => Some(b"\x0b"),
        '␍' => Some(b"\r"),
        '␠' => Some(b" "),
        '�' => Some(b"\xff"),
        _ => None,
    }
}

/// Writes the bytes for a sign.
fn put_sign(text: &mut Line, sign: char) {
    match meant(sign) {
        Some(bytes) => text.put_bytes(bytes),
        None => {
            let mut room = [0; 4];
            text.put(sign.encode_utf8(&mut room));
        }
    }
}

/// Returns the number that a sign stands for in a repetition.
fn number_at(sign: char, repetition: Option<u64>) -> Option<u64> {
    let number = repetition?;
    match sign {
        '#' => Some(number),
        '%' => Some(number.saturating_mul(2)),
        '@' => Some(number.saturating_mul(2).saturating_add(1)),
        _ => None,
    }
}

/// Writes the bytes for signs, in a repetition or outside of one.
fn put_signs(text: &mut Line, signs: &str, repetition: Option<u64>) {
    for sign in signs.chars() {
        match number_at(sign, repetition) {
            Some(number) => text.show(&number),
            None => put_sign(text, sign),
        }
    }
}

/// Writes a part a number of times.
fn put_parts(text: &mut Line, part: &str, count: u64) {
    for number in 0..count {
        put_signs(text, part, Some(number));
    }
}

/// Takes a repetition apart after its `<`. Returns how often, which part, and the text after it.
fn repetition_of(writing: &str) -> Option<(u64, &str, &str)> {
    let (repeated, behind) = writing.split_once('>')?;
    let (count, part) = repeated.split_once('|')?;
    Some((count.parse::<u64>().ok()?, part, behind))
}

/// Writes what comes after a `<`: a repetition, or the sign itself and the rest.
fn put_piece(text: &mut Line, piece: &str) {
    match repetition_of(piece) {
        Some((count, part, behind)) => {
            put_parts(text, part, count);
            put_signs(text, behind, None);
        }
        None => {
            text.put("<");
            put_signs(text, piece, None);
        }
    }
}

/// Returns the text that a row writes so.
pub(crate) fn spelled(alloc: Global, writing: &str) -> Line {
    let mut text = Line::new(alloc);
    let mut pieces = writing.split('<');
    if let Some(first) = pieces.next() {
        put_signs(&mut text, first, None);
    }
    for piece in pieces {
        put_piece(&mut text, piece);
    }
    text
}

/// Returns the two parts of a row's text, before and after the first `~`.
pub(crate) fn two_of(text: &[u8]) -> (&[u8], &[u8]) {
    for place in 0..text.len() {
        if text[place] == b'~' {
            return (&text[..place], &text[place + 1..]);
        }
    }
    (text, b"")
}

/// Returns the parts of a text between bytes of this value.
pub(crate) fn parts_of<'t>(text: &'t [u8], beside: u8, line: &mut Line) -> Vec<&'t [u8]> {
    let mut parts = Vec::new(line.alloc);
    let mut from = 0;
    for place in 0..text.len() {
        if text[place] == beside {
            line.note(parts.push(&text[from..place]).is_ok());
            from = place + 1;
        }
    }
    line.note(parts.push(&text[from..]).is_ok());
    parts
}

/// Returns the set of the features with `+`.
pub(crate) fn set_of(signs: &[u8], line: &mut Line) -> Vec<bool> {
    let mut set = Vec::new(line.alloc);
    for sign in signs {
        if *sign != b' ' {
            line.note(set.push(*sign == b'+').is_ok());
        }
    }
    set
}

/// Returns the number that the digits of a text spell.
pub(crate) fn number_of(text: &[u8]) -> u32 {
    let mut number = 0u32;
    for digit in text {
        if digit.is_ascii_digit() {
            let value = digit.saturating_sub(b'0') as u32;
            number = number.saturating_mul(10).saturating_add(value);
        }
    }
    number
}

/// Returns the numbers of a text, which stand between blanks.
pub(crate) fn numbers_of(text: &[u8], line: &mut Line) -> Vec<u32> {
    let mut numbers = Vec::new(line.alloc);
    let words = parts_of(text, b' ', line);
    for word in &words {
        line.note(numbers.push(number_of(word)).is_ok());
    }
    numbers
}
