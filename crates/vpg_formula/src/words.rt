//! The words of a text.
ghost use Rattle.std.specs.Prelude.{◌≡◌, ◌<◌, ◌≤◌, ◌∷◌, [], length, take, drop, bytes_eq, Some, true, false, ◌+◌, IfOk, IfSome, IfNone, MatchOption};
ghost use Rattle.std.specs.List.{prefix_len};
ghost use Rattle.vpg_features.specs.Names.{is_name_byte};
ghost use Rattle.vpg_formula.specs.Words.{is_blank, gap_len, is_keyword, starts_name, open_behind, action_len, quoted_len, deeper, is_closed, line_len, quote_len, name_len, is_pair, word_len, after_gap, words_of};
ghost use Rattle.vpg_formula.specs.ReadCode.{texts};
ghost use Rattle.vpg_formula.specs.ActionCode.{end_at};
ghost use Rattle.vpg_formula.specs.FaultCode.{ArePlaces};

use std::alloc::{AllocError, Global};
use vpg_features::is_name_byte;

fn is_blank(b: u8) -> bool
    ensures { result ≡ is_blank b }
{
    b == b' ' || b == b'\t' || b == b'\r' || b == b'\n'
}

/// Returns the number of bytes at the front that are blanks and comments.
fn gap_len(text: &[u8]) -> usize
    ensures len { result ≡ gap_len false text.now }
    ensures within { result ≤ length text.now }
{
    let mut comment = false;
    for (i, b) in text.iter().enumerate() {
        if comment {
            comment = *b != b'\n';
        } else if is_blank(*b) || *b == b'%' {
            comment = *b == b'%';
        } else {
            return i;
        }
    }
    text.len()
}

/// Whether two texts are the same.
pub(crate) fn is_same(a: &[u8], b: &[u8]) -> bool
    ensures { result ≡ bytes_eq a.now b.now }
{
    a == b
}

/// Whether a word has a meaning of its own.
pub(crate) fn is_keyword(word: &[u8]) -> bool
    ensures { result ≡ is_keyword word.now }
{
    is_same(word, b"true")
        || is_same(word, b"false")
        || is_same(word, b"mu")
        || is_same(word, b"nu")
        || is_same(word, b"always")
        || is_same(word, b"never")
        || is_same(word, b"possibly")
        || is_same(word, b"inevitably")
        || is_same(word, b"again")
        || is_same(word, b"and")
        || is_same(word, b"deadlock")
        || is_same(word, b"free")
        || is_same(word, b"can")
        || is_same(word, b"after")
        || is_same(word, b"will")
}

fn starts_name(text: &[u8]) -> bool
    ensures { result ≡ starts_name text.now }
{
    match text {
        [] => false,
        [first, ..] => is_name_byte(*first),
    }
}

/// Returns the depth of one more open parenthesis, unless that is too many.
fn deeper(depth: usize) -> Option<usize>
    ensures open { result ≡ deeper depth }
    ensures small { IfSome result (λ more. more ≤ 64) }
{
    if depth < 64 { Some(depth + 1) } else { None }
}

/// Returns the number of parentheses open after a byte of an action, if `depth` are open before it; `None` if the
/// action ends.
fn open_behind(depth: usize, b: u8, text: &[u8]) -> Option<usize>
    requires { depth ≤ 64 }
    ensures open { result ≡ open_behind depth b text.now }
    ensures small { IfSome result (λ more. more ≤ 64) }
{
    if depth == 0 {
        if is_name_byte(b) || (b == b'|' && starts_name(text)) {
            return Some(0);
        }
        return if b == b'(' { Some(1) } else { None };
    }
    if b == b'\n' {
        return None;
    }
    if b == b')' {
        return Some(depth - 1);
    }
    if b == b'(' {
        deeper(depth)
    } else {
        Some(depth)
    }
}

/// Returns the length in bytes of an action with its arguments, and of others after `|`, at the front. Arguments that
/// are not closed do not count.
fn action_len(text: &[u8]) -> usize
    ensures len { Some result ≡ action_len 0 text.now }
    ensures within { result ≤ length text.now }
{
    let mut depth = 0;
    let mut end = 0;
    for (at, b) in text.iter().enumerate() {
        end = end_at(depth, at, end);
        match open_behind(depth, *b, &text[at + 1..]) {
            Some(more) => depth = more,
            None => return end,
        }
    }
    end_at(depth, text.len(), end)
}

/// Returns the end of an action: here if no parenthesis is open, otherwise at the first open one.
fn end_at(depth: usize, at: usize, opened: usize) -> usize
    ensures { result ≡ end_at depth at opened }
{
    if depth == 0 { at } else { opened }
}

/// Returns the number of bytes up to the closing quote, which counts too.
fn quoted_len(text: &[u8]) -> Option<usize>
    ensures len { result ≡ quoted_len false text.now }
    ensures within { IfSome result (λ len. len ≤ length text.now) }
{
    let mut escaped = false;
    for (i, b) in text.iter().enumerate() {
        if *b == b'\n' {
            return None;
        }
        if *b == b'"' && !escaped {
            return Some(i + 1);
        }
        escaped = *b == b'\\';
    }
    None
}

/// Whether a quote closes exactly at the end of the bytes after the first.
pub(crate) fn is_closed(text: &[u8]) -> bool
    ensures { result ≡ is_closed text.now }
{
    match quoted_len(text) {
        Some(len) => len == text.len(),
        None => false,
    }
}

/// Returns the number of bytes up to the end of the line.
fn line_len(text: &[u8]) -> usize
    ensures len { result ≡ line_len text.now }
    ensures within { result ≤ length text.now }
{
    text.iter().take_while(|b| **b != b'\n').count()
}

/// Returns the number of bytes of a word in quotes, without the first.
fn quote_len(text: &[u8]) -> usize
    ensures len { result ≡ quote_len text.now }
    ensures within { result ≤ length text.now }
{
    match quoted_len(text) {
        Some(len) => len,
        None => line_len(text),
    }
}

/// Returns the number of letters, digits and `_` at the front.
fn run_len(text: &[u8]) -> usize
    ensures len { result ≡ prefix_len is_name_byte text.now }
    ensures within { result ≤ length text.now }
{
    text.iter().take_while(|b| is_name_byte(**b)).count()
}

/// Returns the length of the word of letters, digits and `_` at the front, with its arguments.
#[tactic(auto, using(crate::proofs::Lengths::name_len_some))]
fn name_len(text: &[u8]) -> usize
    requires { starts_name text.now ≡ true }
    ensures len { result ≡ name_len text.now }
    ensures some { 0 < result }
    ensures within { result ≤ length text.now }
{
    let len = run_len(text);
    if is_keyword(&text[..len]) {
        return len;
    }
    action_len(text)
}

fn is_pair(b: u8, text: &[u8]) -> bool
    ensures { result ≡ is_pair b text.now }
{
    match text {
        [] => false,
        [c, ..] => {
            (b == b'=' && *c == b'>') || (b == b'&' && *c == b'&') || (b == b'|' && *c == b'|')
        }
    }
}

/// Returns the length of the word at the front.
fn word_len(text: &[u8]) -> usize
    requires { 0 < length text.now }
    ensures len { result ≡ word_len text.now }
    ensures some { 0 < result }
    ensures within { result ≤ length text.now }
{
    match text {
        [] => 0,
        [first, rest @ ..] => {
            if is_name_byte(*first) {
                return name_len(text);
            }
            if *first == b'"' {
                return quote_len(rest) + 1;
            }
            if is_pair(*first, rest) { 2 } else { 1 }
        }
    }
}

/// Returns the text from its first word on.
fn after_gap(text: &[u8]) -> &[u8]
    ensures rest { result.now ≡ after_gap text.now }
    ensures shorter { length result.now ≤ length text.now }
{
    &text[gap_len(text)..]
}

/// Splits the text after its first word.
fn first_word(text: &[u8]) -> Option<(&[u8], &[u8])>
    ensures some { IfSome result (λ p. words_of text.now ≡ p.0.now ∷ words_of p.1.now) }
    ensures shorter { IfSome result (λ p. length p.0.now + length p.1.now ≤ length text.now) }
    ensures longer { IfSome result (λ p. 0 < length p.0.now) }
    ensures rest { IfSome result (λ p. p.1.now ≡ drop (word_len (after_gap text.now)) (after_gap text.now)) }
    ensures whole { IfSome result (λ p. length p.0.now + length p.1.now ≡ length (after_gap text.now)) }
    ensures none { IfNone result (words_of text.now ≡ []) }
    ensures blank { IfNone result (after_gap text.now ≡ []) }
{
    let text = after_gap(text);
    if text.is_empty() {
        return None;
    }
    Some(text.split_at(word_len(text)))
}

/// The words of a text, and where each begins. After the places of the words comes the length of the text.
#[derive(Drop)]
pub(crate) struct Words<'t> {
    pub(crate) words: Vec<&'t [u8]>,
    pub(crate) places: Vec<usize>,
}

/// Returns the words of a text, in order.
pub(crate) fn split_words(alloc: Global, text: &[u8]) -> Result<Words, AllocError>
    ensures words { IfOk result (λ w. texts w.words.items ≡ words_of text.now) }
    ensures places { IfOk result (λ w. ArePlaces text.now w.places.items) }
{
    let mut words = Vec::new(alloc);
    let mut places = Vec::new(alloc);
    let mut rest = text;
    while let Some((word, behind)) = first_word(rest) {
        words.push(word)?;
        places.push(text.len() - behind.len() - word.len())?;
        rest = behind;
    }
    places.push(text.len())?;
    Ok(Words { words, places })
}
