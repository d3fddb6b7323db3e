//! The words of a line.
ghost use Rattle.std.specs.Prelude.{◌≡◌, ◌<◌, ◌≤◌, ℕ, suc, ◌∷◌, [], length, map, position, IfOk, IfNone, IfSome};
ghost use Rattle.std.specs.List.{prefix_len};
ghost use Rattle.vpg_script.specs.Script.{is_blank, is_nonempty, is_quote, is_within_word, unblanked, behind_quote, quoted_len, word_len, words, words_with};

use std::alloc::{AllocError, Global};

fn is_blank(byte: u8) -> bool
    ensures { result ≡ is_blank byte }
{
    byte == b' ' || byte == b'\t'
}

pub(crate) fn is_nonempty(part: &[u8]) -> bool
    ensures { result ≡ is_nonempty part.now }
{
    match part {
        [] => false,
        [_, ..] => true,
    }
}

/// Returns the number of blanks at the front.
fn blanks_len(text: &[u8]) -> usize
    ensures len { result ≡ prefix_len is_blank text.now }
    ensures within { result ≤ length text.now }
{
    text.iter().take_while(|b| is_blank(**b)).count()
}

/// Returns the number of bytes before the first blank.
fn within_len(text: &[u8]) -> usize
    ensures len { result ≡ prefix_len is_within_word text.now }
    ensures within { result ≤ length text.now }
{
    text.iter().take_while(|b| !is_blank(**b)).count()
}

/// Returns the text from its first word on.
fn unblanked(text: &[u8]) -> &[u8]
    ensures rest { result.now ≡ unblanked text.now }
    ensures shorter { length result.now ≤ length text.now }
{
    &text[blanks_len(text)..]
}

fn quote_at(text: &[u8]) -> Option<usize>
    ensures at { result ≡ position is_quote text.now }
    ensures within { IfSome result (λ n. n < length text.now) }
{
    text.iter().position(|b| *b == b'"')
}

/// Returns the number of bytes up to and with the next quote; none without a quote.
fn behind_quote(text: &[u8]) -> usize
    ensures len { result ≡ behind_quote (position is_quote text.now) }
    ensures within { result ≤ length text.now }
{
    match quote_at(text) {
        Some(n) => n + 1,
        None => 0,
    }
}

/// Returns the number of bytes in quotes after the first byte of a word.
fn quoted_len(first: u8, text: &[u8]) -> usize
    ensures len { result ≡ quoted_len first text.now }
    ensures within { result ≤ length text.now }
{
    if first == b'"' { behind_quote(text) } else { 0 }
}

/// Returns the length of the word at the front, which begins with no blank.
fn word_len(text: &[u8]) -> usize
    ensures len { result ≡ word_len text.now }
    ensures within { result ≤ length text.now }
    ensures some { 0 < length text.now → 0 < result }
{
    match text {
        [] => 0,
        [first, rest @ ..] => {
            let quoted = quoted_len(*first, rest);
            quoted + within_len(&rest[quoted..]) + 1
        }
    }
}

/// Returns the first word, and the text after it.
fn first_word(text: &[u8]) -> Option<(&[u8], &[u8])>
    ensures some { IfSome result (λ p. (n : ℕ) → words_with (suc n) text.now ≡ p.0.now ∷ words_with n p.1.now) }
    ensures shorter { IfSome result (λ p. length p.1.now < length text.now) }
    ensures none { IfNone result ((n : ℕ) → words_with n text.now ≡ []) }
{
    let text = unblanked(text);
    if !is_nonempty(text) {
        return None;
    }
    Some(text.split_at(word_len(text)))
}

/// Returns the words of a line: the pieces between its blanks, and a text in quotes with the blanks in it.
pub(crate) fn words_of(alloc: Global, line: &[u8]) -> Result<Vec<&[u8]>, AllocError>
    ensures { IfOk result (λ v. map (λ w. w.now) v.items ≡ words line.now) }
{
    let mut words = Vec::new(alloc);
    let mut rest = line;
    while let Some((word, behind)) = first_word(rest) {
        words.push(word)?;
        rest = behind;
    }
    Ok(words)
}
