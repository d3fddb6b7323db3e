//! Lines of a text, and the forms of lines.

ghost use Rattle.std.specs.Prelude.{◌≡◌, ℕ, List, [], ◌∷◌, map, filter, length, IfOk, IfSome, IsTrue, ◌↔◌, Some, None, option_map, ◌||◌, ◌==◌, not};
ghost use Rattle.std.specs.List.{slice_split, list_all};
ghost use Rattle.vpg_diagram.specs.DiagramText.{is_blank, is_nonempty, words, is_numeral};
ghost use Rattle.std.specs.Char.{is_ascii_digit};

use std::alloc::{AllocError, Global};
use vpg_features::is_feature_name;

fn is_blank(byte: u8) -> bool
    ensures { result ≡ is_blank byte }
{
    byte == b' ' || byte == b'\t'
}

fn is_nonempty(part: &[u8]) -> bool
    ensures { result ≡ is_nonempty part.now }
{
    match part {
        [] => false,
        [_, ..] => true,
    }
}

/// Returns the words of a line: what stands between its blanks.
fn words(alloc: Global, line: &[u8]) -> Result<Vec<&[u8]>, AllocError>
    ensures { IfOk result (λ v. map (λ w. w.now) v.items ≡ words line.now) }
{
    line.split(|b| is_blank(*b))
        .filter(|w| is_nonempty(w))
        .collect(alloc)
}

ghost use Rattle.std.specs.Prelude.{◌&&◌, bytes_eq};
ghost use Rattle.vpg_diagram.specs.DiagramReading.{is_feature_name, plain_form, group_form, form_by_colon, at_colon, after_blank, behind_rule};
ghost use Rattle.vpg_rules.specs.Reading.{stripped};
ghost use Rattle.vpg_diagram.specs.FormView.{texts, view_form};

/// A line, with the names and numerals that stand in it.
#[derive(Drop)]
pub(crate) enum LineForm<'a> {
    Root(&'a [u8]),
    Mandatory(&'a [u8], &'a [u8]),
    Optional(&'a [u8], &'a [u8]),
    Alternative(&'a [u8], Vec<&'a [u8]>),
    Or(&'a [u8], Vec<&'a [u8]>),
    Group(&'a [u8], &'a [u8], &'a [u8], Vec<&'a [u8]>),
    Requires(&'a [u8], &'a [u8]),
    Excludes(&'a [u8], &'a [u8]),
}

fn same(a: &[u8], b: &[u8]) -> bool
    ensures { result ≡ bytes_eq a.now b.now }
{
    a == b
}

fn has_digits(word: &[u8]) -> bool
    ensures { result ≡ list_all is_ascii_digit word.now }
{
    word.iter().all(|b| b.is_ascii_digit())
}

/// Whether a word is a feature's name.
fn is_name(word: &[u8]) -> bool
    ensures { result ≡ is_feature_name word.now }
{
    is_feature_name(word)
}

/// Whether a word is a numeral.
fn is_numeral(word: &[u8]) -> bool
    ensures { result ≡ is_numeral word.now }
{
    is_nonempty(word) && has_digits(word)
}

fn root_form<'a>(word: &[u8], name: &'a [u8]) -> Option<LineForm<'a>>
    ensures { option_map view_form result ≡ plain_form (word.now ∷ name.now ∷ []) }
{
    if same(word, b"root") && is_name(name) {
        Some(LineForm::Root(name))
    } else {
        None
    }
}

fn pair_form<'a>(word: &[u8], first: &'a [u8], second: &'a [u8]) -> Option<LineForm<'a>>
    ensures { option_map view_form result ≡ plain_form (word.now ∷ first.now ∷ second.now ∷ []) }
{
    if !is_name(first) || !is_name(second) {
        return None;
    }
    if same(word, b"mandatory") {
        Some(LineForm::Mandatory(first, second))
    } else if same(word, b"optional") {
        Some(LineForm::Optional(first, second))
    } else if same(word, b"requires") {
        Some(LineForm::Requires(first, second))
    } else if same(word, b"excludes") {
        Some(LineForm::Excludes(first, second))
    } else {
        None
    }
}

/// Returns the form of a line with no colon.
fn plain_form<'a>(words: &[&'a [u8]]) -> Option<LineForm<'a>>
    ensures { option_map view_form result ≡ plain_form (texts words.now) }
{
    match words {
        [] | [_] => None,
        [word, name] => root_form(word, name),
        [word, first, second] => pair_form(word, first, second),
        [_, _, _, _, ..] => None,
    }
}

/// Whether each word is a feature's name.
fn are_names(words: &[&[u8]]) -> bool
    ensures { result ≡ list_all is_feature_name (texts words.now) }
{
    words.iter().all(|w| is_name(w))
}

fn members_form<'a>(word: &[u8], parent: &'a [u8], members: Vec<&'a [u8]>) -> Option<LineForm<'a>>
    ensures { option_map view_form result ≡ group_form (word.now ∷ parent.now ∷ []) (texts members.entry.items) }
{
    if members.is_empty() || !is_name(parent) || !are_names(&members) {
        return None;
    }
    if same(word, b"alternative") {
        Some(LineForm::Alternative(parent, members))
    } else if same(word, b"or") {
        Some(LineForm::Or(parent, members))
    } else {
        None
    }
}

fn range_form<'a>(
    word: &[u8],
    parent: &'a [u8],
    low: &'a [u8],
    high: &'a [u8],
    members: Vec<&'a [u8]>,
) -> Option<LineForm<'a>>
    ensures { option_map view_form result
        ≡ group_form (word.now ∷ parent.now ∷ low.now ∷ high.now ∷ []) (texts members.entry.items) }
{
    if members.is_empty() || !is_name(parent) || !are_names(&members) {
        return None;
    }
    if same(word, b"group") && is_numeral(low) && is_numeral(high) {
        Some(LineForm::Group(parent, low, high, members))
    } else {
        None
    }
}

/// Returns the form of a line with a colon, by the words before it and after it.
fn group_form<'a>(head: &[&'a [u8]], members: Vec<&'a [u8]>) -> Option<LineForm<'a>>
    ensures { option_map view_form result ≡ group_form (texts head.now) (texts members.entry.items) }
{
    match head {
        [] | [_] => None,
        [word, parent] => members_form(word, parent, members),
        [_, _, _] => None,
        [word, parent, low, high] => range_form(word, parent, low, high, members),
        [_, _, _, _, _, ..] => None,
    }
}

ghost use Rattle.std.specs.Prelude.{position};

fn colon(line: &[u8]) -> Option<usize>
    ensures { result ≡ position (λ b. b == 58) line.now }
{
    line.iter().position(|b| *b == b':')
}

/// Returns the form of a line that is no formula, if it has one.
pub(crate) fn form_of(alloc: Global, line: &[u8]) -> Result<Option<LineForm>, AllocError>
    ensures { IfOk result (λ found. option_map view_form found ≡ form_by_colon line.now (at_colon line.now)) }
{
    match colon(line) {
        None => {
            let all = words(alloc, line)?;
            Ok(plain_form(&all))
        }
        Some(at) => {
            let head = words(alloc, &line[..at])?;
            let members = words(alloc, &line[at + 1..])?;
            Ok(group_form(&head, members))
        }
    }
}

ghost use Rattle.std.specs.Prelude.{codes, option_and_then};

/// Returns the text after a blank at the front.
fn after_blank(text: &[u8]) -> Option<&[u8]>
    ensures { option_map (λ t. t.now) result ≡ after_blank text.now }
{
    match text {
        [b, behind @ ..] if is_blank(*b) => Some(behind),
        _ => None,
    }
}

/// Returns the text after the word `rule` at the front and a blank.
fn after_word(text: &[u8]) -> Option<&[u8]>
    ensures { option_map (λ t. t.now) result ≡ option_and_then after_blank (stripped (codes "rule") text.now) }
{
    match text.strip_prefix(b"rule") {
        Some(behind) => after_blank(behind),
        None => None,
    }
}

/// Returns the text of the rule in a line that begins with the word `rule`.
pub(crate) fn behind_rule(line: &[u8]) -> Option<&[u8]>
    ensures { option_map (λ t. t.now) result ≡ behind_rule line.now }
{
    let mut rest = line;
    while let [b, behind @ ..] = rest {
        if !is_blank(*b) {
            return after_word(rest);
        }
        rest = behind;
    }
    None
}

ghost use Rattle.std.specs.Prelude.{◌<◌, ◌^◌, min};
ghost use Rattle.std.specs.Str.Lines.{lines, strip_carriage_return};
ghost use Rattle.std.specs.Str.Parse.{digits_value};

/// A number greater than any number of members.
const GREAT: u64 = 1 << 60;

/// Returns the number that digits write, or `GREAT` if it is greater.
pub(crate) fn number(digits: &[u8]) -> u64
    ensures { result ≡ min (digits_value 10 digits.now) (2 ^ 60) }
{
    let mut value: u64 = 0;
    for digit in digits {
        let digit = char::from(*digit).to_digit(36).unwrap_or(36);
        value = (value * 10 + u64::from(digit)).min(GREAT);
    }
    value
}

/// Whether a line has only spaces and tabs.
pub(crate) fn is_blank_line(line: &[u8]) -> bool
    ensures { result ≡ not (is_nonempty (words line.now)) }
{
    line.iter().all(|b| is_blank(*b))
}

/// Returns a line without the one carriage return at its end.
fn without_return(line: &[u8]) -> &[u8]
    ensures { result.now ≡ strip_carriage_return line.now }
{
    match line {
        [front @ .., b'\r'] => front,
        _ => line,
    }
}

fn line_end(text: &[u8]) -> Option<usize>
    ensures { result ≡ position (λ b. b == 10) text.now }
{
    text.iter().position(|b| *b == b'\n')
}

/// Returns the first line of a text, and what stands after it.
pub(crate) fn first_line(text: &[u8]) -> (&[u8], &[u8])
    requires { 0 < length text.now }
    ensures lines { lines text.now ≡ result.0.now ∷ lines result.1.now }
    ensures shorter { length result.1.now < length text.now }
{
    match line_end(text) {
        Some(at) => (without_return(&text[..at]), &text[at + 1..]),
        None => (text, &text[text.len()..]),
    }
}
