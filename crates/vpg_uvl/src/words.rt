//! Blanks and words of a row.
ghost use Rattle.std.specs.Prelude.{◌≡◌, ◌+◌, ◌≤◌, ◌^◌, length, take, drop, bytes_eq, not};
ghost use Rattle.std.specs.List.{prefix_len, list_all};
ghost use Rattle.std.specs.Char.{is_ascii_digit};
ghost use Rattle.vpg_features.specs.Names.{is_name_byte};
ghost use Rattle.vpg_uvl.specs.Rows.{is_blank, is_visible, is_nothing, after_blanks, after_blank, indentation, word_at, behind_word, is_head};
ghost use Rattle.vpg_uvl.specs.Items.{name_at, behind_name, digits_at, behind_digits};

use vpg_features::is_name_byte;

/// The greatest column of an indentation. Greater ones count as this one.
const WIDEST: u64 = 1 << 32;

/// Whether a byte is a space or a tab.
pub(crate) fn is_blank(b: u8) -> bool
    ensures { result ≡ is_blank b }
{
    b == b' ' || b == b'\t'
}

/// Whether a text is equal to a word.
pub(crate) fn same(text: &[u8], word: &[u8]) -> bool
    ensures { result ≡ bytes_eq text.now word.now }
{
    text == word
}

/// Whether there are no bytes.
pub(crate) fn is_nothing(text: &[u8]) -> bool
    ensures { result ≡ is_nothing text.now }
{
    match text {
        [] => true,
        [_, ..] => false,
    }
}

/// Whether there are only blanks.
pub(crate) fn is_blank_text(text: &[u8]) -> bool
    ensures { result ≡ list_all is_blank text.now }
{
    text.iter().all(|b| is_blank(*b))
}

pub(crate) fn blanks_len(text: &[u8]) -> usize
    ensures { result ≡ prefix_len is_blank text.now }
{
    text.iter().take_while(|b| is_blank(**b)).count()
}

fn word_len(text: &[u8]) -> usize
    ensures { result ≡ prefix_len is_visible text.now }
{
    text.iter().take_while(|b| !is_blank(**b)).count()
}

fn name_len(text: &[u8]) -> usize
    ensures { result ≡ prefix_len is_name_byte text.now }
{
    text.iter().take_while(|b| is_name_byte(**b)).count()
}

fn digits_len(text: &[u8]) -> usize
    ensures { result ≡ prefix_len is_ascii_digit text.now }
{
    text.iter().take_while(|b| b.is_ascii_digit()).count()
}

/// Returns the text after the blanks at its front.
#[tactic(auto, using(crate::proofs::Fronts::front_within))]
pub(crate) fn after_blanks(text: &[u8]) -> &[u8]
    ensures { result.now ≡ after_blanks text.now }
{
    &text[blanks_len(text)..]
}

/// Returns the word at the front, and the text after it and its blanks.
#[tactic(auto, using(crate::proofs::Fronts::front_within))]
pub(crate) fn split_word(text: &[u8]) -> (&[u8], &[u8])
    ensures word { result.0.now ≡ word_at text.now }
    ensures behind { result.1.now ≡ behind_word text.now }
{
    let (word, behind) = text.split_at(word_len(text));
    (word, after_blanks(behind))
}

/// Returns the name at the front, and the bytes after it.
#[tactic(auto, using(crate::proofs::Fronts::front_within))]
pub(crate) fn split_front(text: &[u8]) -> (&[u8], &[u8])
    ensures name { result.0.now ≡ name_at text.now }
    ensures rest { result.1.now ≡ drop (prefix_len is_name_byte text.now) text.now }
{
    text.split_at(name_len(text))
}

/// Returns the name at the front, and the text after it and its blanks.
#[tactic(auto, using(crate::proofs::Fronts::front_within))]
pub(crate) fn split_name(text: &[u8]) -> (&[u8], &[u8])
    ensures name { result.0.now ≡ name_at text.now }
    ensures behind { result.1.now ≡ behind_name text.now }
{
    let (name, behind) = text.split_at(name_len(text));
    (name, after_blanks(behind))
}

/// Returns the digits at the front, and the text after them.
#[tactic(auto, using(crate::proofs::Fronts::front_within))]
pub(crate) fn split_digits(text: &[u8]) -> (&[u8], &[u8])
    ensures digits { result.0.now ≡ digits_at text.now }
    ensures behind { result.1.now ≡ behind_digits text.now }
{
    text.split_at(digits_len(text))
}

/// Whether a text is this word and nothing else, but for blanks after it.
pub(crate) fn is_head(text: &[u8], word: &[u8]) -> bool
    ensures { result ≡ is_head word.now text.now }
{
    let (first, behind) = split_word(text);
    same(first, word) && is_nothing(behind)
}

/// Returns the column after one more blank.
fn after_blank(column: u64, b: u8) -> u64
    requires { column ≤ 2 ^ 32 }
    ensures value { result ≡ after_blank column b }
    ensures small { result ≤ 2 ^ 32 }
{
    let next = if b == b'\t' {
        (column / 8 + 1) * 8
    } else {
        column + 1
    };
    next.min(WIDEST)
}

/// Returns how far a row is indented.
pub(crate) fn indentation(bytes: &[u8]) -> u64
    ensures { result ≡ indentation bytes.now }
{
    let mut column: u64 = 0;
    for b in bytes {
        if !is_blank(*b) {
            return column;
        }
        column = after_blank(column, *b);
    }
    column
}
