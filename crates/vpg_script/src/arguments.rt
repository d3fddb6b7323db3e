//! The arguments of commands, as words spell them.
ghost use Rattle.std.specs.Prelude.{◌≡◌, ◌≤◌, ◌<◌, ◌^◌, true, map, min, drop, option_map, IfOk, bytes_eq};
ghost use Rattle.std.specs.List.{list_all, list_any};
ghost use Rattle.std.specs.Char.{is_ascii_digit, digit_value};
ghost use Rattle.std.specs.Str.Parse.{digits_value};
ghost use Rattle.vpg_script.specs.Forms.{form_shown};
ghost use Rattle.vpg_script.specs.Script.{is_quote, closed, quoted, vertex_name, vertex_named, is_feature_name, number_of, signed, table_named, claim_named, state_named};
ghost use Rattle.vpg_script.specs.Script.{argument_of, argument_by, arguments_by, arguments_of, next_parameter};
ghost use Rattle.vpg_script.specs.Script as script;
ghost use Rattle.vpg_script.specs.View.{argument_shown, texts, vertex_shown};

use crate::exact::{ExactVerdict, exact_named};
use crate::forms::{CommandForm, Parameter};
use crate::look::{Claim, PageLook, Vertex};
use crate::words::is_nonempty;
use std::alloc::{AllocError, Global};
use vpg_features::is_feature_name;
use vpg_sides::Which;

const LARGEST_SERIAL: u64 = u64::MAX;

const LARGEST_IDENTIFIER: u64 = u32::MAX as u64;

const MOST_SWEEPS: u64 = 1_000_000_000;

/// An argument of a command. Names stand in the line that was read.
#[derive(Clone, Copy)]
pub enum Argument<'t> {
    /// The name of a feature.
    Name(&'t [u8]),
    Number(u64),
    Table(Which),
    Vertex(Vertex<'t>),
    /// A decision: whether the feature is to be in, and its name.
    Choice(bool, &'t [u8]),
    /// The vertex of an assertion, and what the word asserts of the page if it stands alone.
    Asserted(Option<PageLook>, Vertex<'t>),
    Claim(Claim),
    Exact(ExactVerdict),
}

pub(crate) fn same(a: &[u8], b: &[u8]) -> bool
    ensures { result ≡ bytes_eq a.now b.now }
{
    a == b
}

fn has_digits(word: &[u8]) -> bool
    ensures { result ≡ list_all is_ascii_digit word.now }
{
    word.iter().all(|b| b.is_ascii_digit())
}

/// Whether a word is a feature's name.
fn is_name(word: &[u8]) -> bool
    ensures { result ≡ is_feature_name word.now }
{
    is_feature_name(word)
}

fn digit(b: u8) -> u64
    requires { is_ascii_digit b ≡ true }
    ensures value { result ≡ digit_value b }
    ensures less { result < 10 }
{
    (b - b'0') as u64
}

/// Returns the number that digits write, or one more than the most if it is larger.
fn bounded_value(digits: &[u8], above: u128) -> u128
    requires above { above ≤ 2 ^ 64 }
    requires digits { list_all is_ascii_digit digits.now ≡ true }
    ensures { result ≡ min above (digits_value 10 digits.now) }
{
    let mut value: u128 = 0;
    for b in digits {
        value = above.min(value * 10 + digit(*b) as u128);
    }
    value
}

/// Returns the number that a word's digits write, if it is at most this.
pub(crate) fn number(word: &[u8], most: u64) -> Option<u64>
    ensures { result ≡ number_of most word.now }
{
    if !is_nonempty(word) || !has_digits(word) {
        return None;
    }
    let value = bounded_value(word, most as u128 + 1);
    if value <= most as u128 {
        Some(value as u64)
    } else {
        None
    }
}

/// Returns the name after a sign.
fn signed(sign: u8, word: &[u8]) -> Option<&[u8]>
    ensures { option_map (λ name. name.now) result ≡ signed sign word.now }
{
    match word {
        [first, name @ ..] if *first == sign && is_name(name) => Some(name),
        _ => None,
    }
}

fn has_quote(bytes: &[u8]) -> bool
    ensures { result ≡ list_any is_quote bytes.now }
{
    bytes.iter().any(|b| *b == b'"')
}

/// Returns the text before the last quote, if there is no other quote.
fn closed(word: &[u8]) -> Option<&[u8]>
    ensures { option_map (λ name. name.now) result ≡ closed word.now }
{
    match word {
        [name @ .., b'"'] if !has_quote(name) => Some(name),
        _ => None,
    }
}

/// Returns the bytes between two quotes.
fn quoted(word: &[u8]) -> Option<&[u8]>
    ensures { option_map (λ name. name.now) result ≡ quoted word.now }
{
    match word {
        [b'"', rest @ ..] => closed(rest),
        _ => None,
    }
}

/// Returns the name of a vertex that a word spells.
fn vertex_name(word: &[u8]) -> Option<&[u8]>
    ensures { option_map (λ name. name.now) result ≡ vertex_name word.now }
{
    if is_name(word) {
        Some(word)
    } else {
        quoted(word)
    }
}

/// Returns the vertex that a word names: by its identifier, or else by its name.
pub(crate) fn vertex_named(word: &[u8]) -> Option<Vertex>
    ensures { option_map vertex_shown result ≡ vertex_named word.now }
{
    match number(word, LARGEST_IDENTIFIER) {
        Some(identifier) => Some(Vertex::Number(identifier as u32)),
        None => match vertex_name(word) {
            Some(name) => Some(Vertex::Name(name)),
            None => None,
        },
    }
}

/// Returns the subject of a `why`: a feature, a decision, or else a vertex.
fn subject(word: &[u8]) -> Option<Argument>
    ensures { option_map argument_shown result ≡ argument_of Parameter.Subject word.now }
{
    if is_name(word) {
        return Some(Argument::Name(word));
    }
    if let Some(name) = signed(b'+', word) {
        return Some(Argument::Choice(true, name));
    }
    if let Some(name) = signed(b'-', word) {
        return Some(Argument::Choice(false, name));
    }
    Some(Argument::Vertex(vertex_named(word)?))
}

fn table_named(word: &[u8]) -> Option<Which>
    ensures { result ≡ table_named word.now }
{
    if same(word, b"hopeful") {
        Some(Which::Hopeful)
    } else if same(word, b"dual") {
        Some(Which::Dual)
    } else {
        None
    }
}

fn claim_named(word: &[u8]) -> Option<Claim>
    ensures { result ≡ claim_named word.now }
{
    if same(word, b"hopeless") {
        Some(Claim::Hopeless)
    } else if same(word, b"possible") {
        Some(Claim::Possible)
    } else if same(word, b"sure") {
        Some(Claim::Sure)
    } else if same(word, b"unsure") {
        Some(Claim::Unsure)
    } else {
        None
    }
}

/// Returns what a word asserts of the page as a whole.
fn state_named(word: &[u8]) -> Option<PageLook>
    ensures { result ≡ state_named word.now }
{
    if same(word, b"full") {
        Some(PageLook::Full)
    } else if same(word, b"settled") {
        Some(PageLook::Settled)
    } else {
        None
    }
}

/// Returns the name of a feature.
fn feature(word: &[u8]) -> Option<Argument>
    ensures { option_map argument_shown result ≡ argument_of Parameter.Feature word.now }
{
    if is_name(word) {
        Some(Argument::Name(word))
    } else {
        None
    }
}

/// Returns a number, if it is at most this.
fn numbered<'t>(word: &[u8], most: u64) -> Option<Argument<'t>>
    ensures { option_map argument_shown result ≡ option_map script.Number (number_of most word.now) }
{
    let n = number(word, most)?;
    Some(Argument::Number(n))
}

/// Returns the vertex of an assertion.
fn asserted(word: &[u8]) -> Option<Argument>
    ensures { option_map argument_shown result ≡ argument_of Parameter.Asserted word.now }
{
    let vertex = vertex_named(word)?;
    Some(Argument::Asserted(state_named(word), vertex))
}

/// Returns an asserted verdict of a vertex.
fn verdict(word: &[u8]) -> Option<Argument>
    ensures { option_map argument_shown result ≡ argument_of Parameter.Verdict word.now }
{
    match claim_named(word) {
        Some(claim) => Some(Argument::Claim(claim)),
        None => Some(Argument::Exact(exact_named(word)?)),
    }
}

/// Returns what a word says for a parameter.
pub fn argument_of(parameter: Parameter, word: &[u8]) -> Option<Argument>
    ensures { option_map argument_shown result ≡ argument_of parameter word.now }
{
    match parameter {
        Parameter::Feature => feature(word),
        Parameter::Serial => numbered(word, LARGEST_SERIAL),
        Parameter::Harvest => numbered(word, LARGEST_SERIAL),
        Parameter::Sweeps => numbered(word, MOST_SWEEPS),
        Parameter::Table => Some(Argument::Table(table_named(word)?)),
        Parameter::Vertex => Some(Argument::Vertex(vertex_named(word)?)),
        Parameter::Subject => subject(word),
        Parameter::Asserted => asserted(word),
        Parameter::Verdict => verdict(word),
    }
}

/// Returns what a word says as the next argument: for the first of these parameters, or else for that of further ones.
fn next_argument<'t>(
    parameters: &[Parameter],
    rest: Option<Parameter>,
    word: &'t [u8],
) -> Option<Argument<'t>>
    ensures { option_map argument_shown result ≡ argument_by (next_parameter parameters.now rest) word.now }
{
    match parameters {
        [parameter, ..] => argument_of(*parameter, word),
        [] => match rest {
            Some(parameter) => argument_of(parameter, word),
            None => None,
        },
    }
}

/// Returns the parameters after the first.
fn later(parameters: &[Parameter]) -> &[Parameter]
    ensures { result.now ≡ drop 1 parameters.now }
{
    match parameters {
        [_, later @ ..] => later,
        [] => parameters,
    }
}

/// Returns what words say for these parameters, in their order, and further words for that of further arguments.
fn arguments_by<'t>(
    alloc: Global,
    parameters: &[Parameter],
    rest: Option<Parameter>,
    words: &[&'t [u8]],
) -> Result<Option<Vec<Argument<'t>>>, AllocError>
    ensures { IfOk result (λ found. option_map (λ v. map argument_shown v.items) found
        ≡ arguments_by parameters.now rest (texts words.now)) }
{
    let mut arguments = Vec::new(alloc);
    let mut left = parameters;
    for word in words {
        let Some(argument) = next_argument(left, rest, word) else {
            return Ok(None);
        };
        arguments.push(argument)?;
        left = later(left);
    }
    Ok(Some(arguments))
}

/// Returns what words say as the arguments of a form, if they fit it.
pub(crate) fn arguments_of<'t>(
    alloc: Global,
    form: &CommandForm,
    words: &[&'t [u8]],
) -> Result<Option<Vec<Argument<'t>>>, AllocError>
    ensures { IfOk result (λ found. option_map (λ v. map argument_shown v.items) found
        ≡ arguments_of (form_shown form.now) (texts words.now)) }
{
    if words.len() < form.least {
        return Ok(None);
    }
    arguments_by(alloc, form.parameters, form.rest, words)
}
