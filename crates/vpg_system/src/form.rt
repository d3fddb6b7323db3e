//! The forms of lines, and the parts of a label.

ghost use Rattle.std.specs.Prelude.{◌≡◌, ◌==◌, ◌&&◌, [], ◌∷◌, bytes_eq, length, option_map, IfOk};
ghost use Rattle.vpg_system.specs.SystemText.{words, lacks, trimmed, is_nonempty, is_numeral};
ghost use Rattle.vpg_system.specs.SystemReading.{between, cut_last, source_of, middle_of, target_of, opening, closing, label_in, unquoted, make_form, form_of, make_header, header_in, header_at, guard_place, named, guarded, label_of};
ghost use Rattle.vpg_system.specs.SystemView.{texts, text_in, pair_in, view_form, view_header, view_name};

use crate::text::{
    before_end, cut, cut_last, is_nonempty, is_numeral, lacks, same, trimmed, two_words, words,
};
use std::alloc::{AllocError, Global};

/// A numeral between two words.
#[derive(Clone, Copy)]
struct Between<'a> {
    left: &'a [u8],
    digits: &'a [u8],
    right: &'a [u8],
}

/// Returns the numeral, if it stands between these.
fn numeral_between<'a>(words: Between<'a>, left: &[u8], right: &[u8]) -> Option<&'a [u8]>
    ensures { text_in result
        ≡ between left.now right.now words.entry.left.now words.entry.digits.now words.entry.right.now }
{
    if same(words.left, left) && is_numeral(words.digits) && same(words.right, right) {
        Some(words.digits)
    } else {
        None
    }
}

fn source_of(words: Between) -> Option<&[u8]>
    ensures { text_in result ≡ source_of words.entry.left.now words.entry.digits.now words.entry.right.now }
{
    numeral_between(words, b"(", b",")
}

fn middle_of(words: Between) -> Option<&[u8]>
    ensures { text_in result ≡ middle_of words.entry.left.now words.entry.digits.now words.entry.right.now }
{
    numeral_between(words, b",", b",")
}

fn target_of(words: Between) -> Option<&[u8]>
    ensures { text_in result ≡ target_of words.entry.left.now words.entry.digits.now words.entry.right.now }
{
    numeral_between(words, b",", b")")
}

/// A line with a transition: the numerals of its states, and its label.
#[derive(Clone, Copy)]
pub(crate) struct LineForm<'a> {
    pub(crate) source: &'a [u8],
    pub(crate) label: &'a [u8],
    pub(crate) target: &'a [u8],
}

/// Returns the numeral after `(`, if there is nothing else.
fn opening(text: &[u8]) -> Option<&[u8]>
    ensures { text_in result ≡ opening text.now }
{
    let Some((open, digits)) = two_words(text) else {
        return None;
    };
    if same(open, b"(") && is_numeral(digits) {
        Some(digits)
    } else {
        None
    }
}

/// Returns the numeral before `)`, if there is nothing else.
fn closing(text: &[u8]) -> Option<&[u8]>
    ensures { text_in result ≡ closing text.now }
{
    let Some((digits, close)) = two_words(text) else {
        return None;
    };
    if is_numeral(digits) && same(close, b")") {
        Some(digits)
    } else {
        None
    }
}

/// Returns the text in quotes.
fn unquoted(text: &[u8]) -> Option<&[u8]>
    ensures { text_in result ≡ unquoted text.now }
{
    match text {
        [] => None,
        [first, behind @ ..] => {
            if *first == b'"' {
                before_end(behind, b'"')
            } else {
                None
            }
        }
    }
}

/// Returns the label in a text, bare or in quotes.
fn label_in(text: &[u8]) -> Option<&[u8]>
    ensures { text_in result ≡ label_in text.now }
{
    if !lacks(text, b'"') {
        return unquoted(text);
    }
    if lacks(text, b',') { Some(text) } else { None }
}

/// Returns the form made of its parts.
fn make_form<'a>(
    source: Option<&'a [u8]>,
    label: Option<&'a [u8]>,
    target: Option<&'a [u8]>,
) -> Option<LineForm<'a>>
    ensures { option_map view_form result
        ≡ make_form (text_in source.entry) (text_in label.entry) (text_in target.entry) }
{
    match (source, label, target) {
        (Some(source), Some(label), Some(target)) => Some(LineForm {
            source,
            label,
            target,
        }),
        _ => None,
    }
}

/// Returns the form of a line, if it has one.
pub(crate) fn form_of(line: &[u8]) -> Option<LineForm>
    ensures { option_map view_form result ≡ form_of line.now }
{
    let Some((front, behind)) = cut(line, b',') else {
        return None;
    };
    let Some((middle, back)) = cut_last(behind, b',') else {
        return None;
    };
    make_form(opening(front), label_in(trimmed(middle)), closing(back))
}

/// A header with its numerals.
#[derive(Clone, Copy)]
pub(crate) struct HeaderForm<'a> {
    pub(crate) first: &'a [u8],
    pub(crate) count: &'a [u8],
    pub(crate) states: &'a [u8],
}

/// Returns the header made of its parts.
fn make_header<'a>(
    first: Option<&'a [u8]>,
    count: Option<&'a [u8]>,
    states: Option<&'a [u8]>,
) -> Option<HeaderForm<'a>>
    ensures { option_map view_header result
        ≡ make_header (text_in first.entry) (text_in count.entry) (text_in states.entry) }
{
    match (first, count, states) {
        (Some(first), Some(count), Some(states)) => Some(HeaderForm {
            first,
            count,
            states,
        }),
        _ => None,
    }
}

/// Returns the header that words spell.
fn header_in<'a>(words: &[&'a [u8]]) -> Option<HeaderForm<'a>>
    ensures { option_map view_header result ≡ header_in (texts words.now) }
{
    match words {
        [] | [_] | [_, _] | [_, _, _] | [_, _, _, _] | [_, _, _, _, _] | [_, _, _, _, _, _] => None,
        [_, _, _, _, _, _, _] => None,
        [word, open, first, comma, count, other, states, close] => {
            let first = source_of(Between {
                left: open,
                digits: first,
                right: comma,
            });
            let count = middle_of(Between {
                left: comma,
                digits: count,
                right: other,
            });
            let states = target_of(Between {
                left: other,
                digits: states,
                right: close,
            });
            if same(word, b"des") {
                make_header(first, count, states)
            } else {
                None
            }
        }
        [_, _, _, _, _, _, _, _, _, ..] => None,
    }
}

/// Returns the header that a line spells, if it does.
pub(crate) fn header_at(alloc: Global, line: &[u8]) -> Result<Option<HeaderForm>, AllocError>
    ensures { IfOk result (λ found. option_map view_header found ≡ header_at line.now) }
{
    let all = words(alloc, line)?;
    Ok(header_in(&all))
}

/// The name of a label, and the text of its guard, if it has one.
#[derive(Clone, Copy)]
pub(crate) struct Name<'a> {
    pub(crate) name: &'a [u8],
    pub(crate) guard: Option<&'a [u8]>,
}

fn named<'a>(name: &'a [u8], guard: Option<&'a [u8]>) -> Option<Name<'a>>
    ensures { option_map view_name result ≡ named name.now (text_in guard.entry) }
{
    if is_nonempty(name) {
        Some(Name { name, guard })
    } else {
        None
    }
}

/// Returns the name before the last `[`, and the text after it.
fn guarded(front: &[u8]) -> Option<Name>
    ensures { option_map view_name result ≡ guarded (cut_last 91 front.now) }
{
    match cut_last(front, b'[') {
        Some((name, text)) => named(trimmed(name), Some(text)),
        None => None,
    }
}

/// Returns the name of a label.
pub(crate) fn name_of(label: &[u8]) -> Option<Name>
    ensures { option_map view_name result ≡ label_of label.now }
{
    let text = trimmed(label);
    match before_end(text, b']') {
        Some(front) => guarded(front),
        None => named(text, None),
    }
}

/// Returns the place after the last `[`.
pub(crate) fn guard_place(line: &[u8]) -> usize
    ensures { result ≡ guard_place line.now }
{
    match cut_last(line, b'[') {
        Some((front, _)) => front.len() + 1,
        None => 0,
    }
}
