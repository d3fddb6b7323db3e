//! Bytes, words and numbers of a text.

ghost use Rattle.std.specs.Prelude.{◌≡◌, ◌==◌, ◌<◌, ◌≤◌, ◌^◌, true, [], ◌∷◌, not, ◌&&◌, ◌||◌, bytes_eq, min, length, take, drop, position, IfOk, IfSome, IfNone};
ghost use Rattle.std.specs.List.{list_all, prefix_len};
ghost use Rattle.std.specs.Char.{is_ascii_digit};
ghost use Rattle.std.specs.Str.Lines.{lines, strip_carriage_return};
ghost use Rattle.std.specs.Str.Parse.{digits_value};
ghost use Rattle.vpg_system.specs.SystemText.{is_blank, is_sign, goes_on, words, lacks, without_front, without_end, trimmed, is_nonempty, is_numeral};
ghost use Rattle.vpg_system.specs.SystemReading.{cut, cut_last, before_end, two};
ghost use Rattle.vpg_system.specs.SystemView.{texts, text_in, pair_in};

use std::alloc::{AllocError, Global};

fn is_blank(byte: u8) -> bool
    ensures { result ≡ is_blank byte }
{
    byte == b' ' || byte == b'\t'
}

fn is_sign(byte: u8) -> bool
    ensures { result ≡ is_sign byte }
{
    byte == b'(' || byte == b')' || byte == b','
}

/// Whether the text is all blanks.
pub(crate) fn is_all_blank(text: &[u8]) -> bool
    ensures { result ≡ list_all is_blank text.now }
{
    text.iter().all(|b| is_blank(*b))
}

/// Whether the text is not empty.
pub(crate) fn is_nonempty(text: &[u8]) -> bool
    ensures { result ≡ is_nonempty text.now }
{
    match text {
        [] => false,
        [_, ..] => true,
    }
}

/// Returns the text without the blanks at its front.
fn without_front(text: &[u8]) -> &[u8]
    ensures text { result.now ≡ without_front text.now }
    ensures within { length result.now ≤ length text.now }
    ensures words { words result.now ≡ words text.now }
{
    let mut rest = text;
    while let [first, behind @ ..] = rest {
        if !is_blank(*first) {
            return rest;
        }
        rest = behind;
    }
    rest
}

/// Returns the text without the blanks at its end.
fn without_end(text: &[u8]) -> &[u8]
    ensures { result.now ≡ without_end text.now }
{
    let mut rest = text;
    while let [front @ .., last] = rest {
        if !is_blank(*last) {
            return rest;
        }
        rest = front;
    }
    rest
}

/// Returns the text without the blanks round it.
pub(crate) fn trimmed(text: &[u8]) -> &[u8]
    ensures { result.now ≡ trimmed text.now }
{
    without_end(without_front(text))
}

/// Whether a word goes on here.
fn goes_on(text: &[u8]) -> bool
    ensures { result ≡ goes_on text.now }
{
    match text {
        [] => false,
        [first, ..] => !is_blank(*first) && !is_sign(*first),
    }
}

/// Returns the length of the word at the front, up to the next sign.
fn word_len(text: &[u8]) -> usize
    requires { goes_on text.now ≡ true }
    ensures some { 0 < result }
    ensures within { result ≤ length text.now }
    ensures words { words text.now ≡ take result text.now ∷ words (drop result text.now) }
{
    let mut len = 1;
    while goes_on(&text[len..]) {
        len += 1;
    }
    len
}

/// Splits the text after its first word.
fn first_word(text: &[u8]) -> Option<(&[u8], &[u8])>
    ensures some { IfSome result (λ p. words text.now ≡ p.0.now ∷ words p.1.now) }
    ensures shorter { IfSome result (λ p. length p.1.now < length text.now) }
    ensures none { IfNone result (words text.now ≡ []) }
{
    let text = without_front(text);
    match text {
        [] => None,
        [first, behind @ ..] => {
            if is_sign(*first) {
                Some((&text[..1], behind))
            } else {
                Some(text.split_at(word_len(text)))
            }
        }
    }
}

/// Returns the words of a line.
pub(crate) fn words(alloc: Global, line: &[u8]) -> Result<Vec<&[u8]>, AllocError>
    ensures { IfOk result (λ v. texts v.items ≡ words line.now) }
{
    let mut found = Vec::new(alloc);
    let mut rest = line;
    while let Some((word, behind)) = first_word(rest) {
        found.push(word)?;
        rest = behind;
    }
    Ok(found)
}

/// Returns the two words of a text that has no others.
pub(crate) fn two_words(text: &[u8]) -> Option<(&[u8], &[u8])>
    ensures { pair_in result ≡ two (words text.now) }
{
    let Some((first, behind)) = first_word(text) else {
        return None;
    };
    let Some((second, rest)) = first_word(behind) else {
        return None;
    };
    match first_word(rest) {
        Some(_) => None,
        None => Some((first, second)),
    }
}

fn place_of(text: &[u8], sign: u8) -> Option<usize>
    ensures { result ≡ position (λ b. b == sign) text.now }
{
    text.iter().position(|b| *b == sign)
}

/// Returns the texts before and after the first such byte.
pub(crate) fn cut(text: &[u8], sign: u8) -> Option<(&[u8], &[u8])>
    ensures { pair_in result ≡ cut sign text.now }
{
    match place_of(text, sign) {
        Some(at) => Some((&text[..at], &text[at + 1..])),
        None => None,
    }
}

/// Returns the texts before and after the last such byte.
pub(crate) fn cut_last(text: &[u8], sign: u8) -> Option<(&[u8], &[u8])>
    ensures { pair_in result ≡ cut_last sign text.now }
{
    let mut len = text.len();
    while len > 0 {
        if text[len - 1] == sign {
            return Some((&text[..len - 1], &text[len..]));
        }
        len -= 1;
    }
    None
}

/// Returns the text before such a byte, if the byte comes last.
pub(crate) fn before_end(text: &[u8], sign: u8) -> Option<&[u8]>
    ensures { text_in result ≡ before_end sign text.now }
{
    match cut_last(text, sign) {
        Some((front, behind)) => {
            if is_nonempty(behind) {
                None
            } else {
                Some(front)
            }
        }
        None => None,
    }
}

/// Whether a byte does not occur.
pub(crate) fn lacks(text: &[u8], sign: u8) -> bool
    ensures { result ≡ lacks sign text.now }
{
    text.iter().all(|b| !(*b == sign))
}

/// Whether two texts are the same.
pub(crate) fn same(a: &[u8], b: &[u8]) -> bool
    ensures { result ≡ bytes_eq a.now b.now }
{
    a == b
}

fn has_digits(word: &[u8]) -> bool
    ensures { result ≡ list_all is_ascii_digit word.now }
{
    word.iter().all(|b| b.is_ascii_digit())
}

/// Whether a word is a numeral.
pub(crate) fn is_numeral(word: &[u8]) -> bool
    ensures { result ≡ is_numeral word.now }
{
    is_nonempty(word) && has_digits(word)
}

/// A number greater than any number of states or transitions.
const GREAT: u64 = 1 << 60;

/// Returns the number that digits write, or `GREAT` if it is greater.
fn number(digits: &[u8]) -> u64
    ensures { result ≡ min (digits_value 10 digits.now) (2 ^ 60) }
{
    let mut value: u64 = 0;
    for digit in digits {
        let digit = char::from(*digit).to_digit(36).unwrap_or(36);
        value = (value * 10 + u64::from(digit)).min(GREAT);
    }
    value
}

/// Returns the number that digits write, if it is below a limit.
pub(crate) fn number_below(digits: &[u8], limit: u32) -> Option<u32>
    ensures some { IfSome result (λ n. (n ≡ digits_value 10 digits.now) × (n < limit)) }
    ensures none { IfNone result (limit ≤ digits_value 10 digits.now) }
{
    let value = number(digits);
    if value < u64::from(limit) {
        Some(value as u32)
    } else {
        None
    }
}

/// Returns a line without the one carriage return at its end.
fn without_return(line: &[u8]) -> &[u8]
    ensures { result.now ≡ strip_carriage_return line.now }
{
    match line {
        [front @ .., b'\r'] => front,
        _ => line,
    }
}

fn line_end(text: &[u8]) -> Option<usize>
    ensures { result ≡ position (λ b. b == 10) text.now }
{
    text.iter().position(|b| *b == b'\n')
}

/// Splits the text after its first line.
pub(crate) fn first_line(text: &[u8]) -> (&[u8], &[u8])
    requires { 0 < length text.now }
    ensures lines { lines text.now ≡ result.0.now ∷ lines result.1.now }
    ensures shorter { length result.1.now < length text.now }
{
    match line_end(text) {
        Some(at) => (without_return(&text[..at]), &text[at + 1..]),
        None => (text, &text[text.len()..]),
    }
}
