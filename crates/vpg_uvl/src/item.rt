//! The heads of groups, and features.
ghost use Rattle.std.specs.Prelude.{◌≡◌, ◌∷◌, ◌^◌, ◌≤◌, [], min, drop, not, Some, None, IfOk, IsTrue};
ghost use Rattle.std.specs.Str.Parse.{digits_value};
ghost use Rattle.vpg_uvl.specs.Items.{number_of, behind_dots, high_at, cardinality_at, cardinality_of, kind_of, has_range, is_feature_name, is_type, last_visible, is_constraint_word, names_constraint, first_byte, with_attributes, named_before, is_quoted_name, quoted_feature, plain_feature, feature_of, item_of};
ghost use Rattle.vpg_features.specs.Names.{IsFeatureName};
ghost use Rattle.vpg_uvl.specs.Views.{GivesItem, IsItem, item_in, text_in};

use crate::fault::Reason;
use crate::words::{
    after_blanks, is_blank, is_nothing, same, split_digits, split_front, split_name, split_word,
};
use vpg_features::is_name_byte;
use vpg_tree::Kind;

/// The head of a group, or a feature.
#[derive(Clone, Copy)]
pub(crate) enum Item<'t> {
    Head(Kind),
    Named(&'t [u8]),
}

/// Why a row is refused, and what is left of it from the refused word on.
#[derive(Clone, Copy)]
pub(crate) struct Stop<'t> {
    pub(crate) reason: Reason,
    pub(crate) left: &'t [u8],
}

/// A number greater than any number of members.
const GREAT: u64 = 1 << 30;

/// Returns the number that digits write, or `GREAT` if it is greater.
fn number(digits: &[u8]) -> u64
    ensures { result ≡ min (digits_value 10 digits.now) (2 ^ 30) }
{
    let mut value: u64 = 0;
    for digit in digits {
        let digit = char::from(*digit).to_digit(36).unwrap_or(36);
        value = (value * 10 + u64::from(digit)).min(GREAT);
    }
    value
}

fn number_of(digits: &[u8]) -> u32
    ensures { result ≡ number_of digits.now }
{
    number(digits) as u32
}

/// Returns what stands after `..`.
fn behind_dots(text: &[u8]) -> Option<&[u8]>
    ensures { text_in result ≡ behind_dots text.now }
{
    match text {
        [] | [_] => None,
        [first, second, rest @ ..] => {
            if *first == b'.' && *second == b'.' {
                Some(rest)
            } else {
                None
            }
        }
    }
}

/// Returns the cardinality with this low end, by the text of its upper end.
fn high_at(low: u32, text: &[u8]) -> Option<Kind>
    ensures { result ≡ high_at low text.now }
{
    if same(text, b"*]") {
        return Some(Kind::Cardinality { low, high: None });
    }
    let (digits, behind) = split_digits(text);
    if !is_nothing(digits) && same(behind, b"]") {
        return Some(Kind::Cardinality {
            low,
            high: Some(number_of(digits)),
        });
    }
    None
}

/// Returns the cardinality that a text is after its `[`.
fn cardinality_at(text: &[u8]) -> Option<Kind>
    ensures { result ≡ cardinality_at text.now }
{
    let (digits, behind) = split_digits(text);
    if is_nothing(digits) {
        return None;
    }
    let low = number_of(digits);
    if same(behind, b"]") {
        return Some(Kind::Cardinality {
            low,
            high: Some(low),
        });
    }
    match behind_dots(behind) {
        Some(rest) => high_at(low, rest),
        None => None,
    }
}

fn cardinality_of(word: &[u8]) -> Option<Kind>
    ensures { result ≡ cardinality_of word.now }
{
    match word {
        [] => None,
        [first, inner @ ..] => {
            if *first == b'[' {
                cardinality_at(inner)
            } else {
                None
            }
        }
    }
}

/// Returns the kind of group that a word names.
fn kind_of(word: &[u8]) -> Option<Kind>
    ensures { result ≡ kind_of word.now }
{
    if same(word, b"mandatory") {
        Some(Kind::Mandatory)
    } else if same(word, b"optional") {
        Some(Kind::Optional)
    } else if same(word, b"alternative") {
        Some(Kind::Alternative)
    } else if same(word, b"or") {
        Some(Kind::Or)
    } else {
        cardinality_of(word)
    }
}

/// Whether the bounds of a cardinality are in order.
fn has_range(kind: Kind) -> bool
    ensures { result ≡ has_range kind }
{
    match kind {
        Kind::Cardinality { low, high } => match high {
            Some(high) => low <= high,
            None => true,
        },
        Kind::Mandatory | Kind::Optional | Kind::Alternative | Kind::Or => true,
    }
}

/// Whether a word is a feature's name.
fn is_feature_name(word: &[u8]) -> bool
    ensures value { result ≡ is_feature_name word.now }
    ensures name { IsTrue result → IsFeatureName word.now }
{
    vpg_features::is_feature_name(word)
}

/// Whether a word is `Boolean`, `Integer`, `Real` or `String`.
fn is_type(word: &[u8]) -> bool
    ensures { result ≡ is_type word.now }
{
    same(word, b"Boolean") || same(word, b"Integer") || same(word, b"Real") || same(word, b"String")
}

fn is_constraint_word(word: &[u8]) -> bool
    ensures { result ≡ is_constraint_word word.now }
{
    same(word, b"constraint") || same(word, b"constraints")
}

/// Whether the word `constraint` or `constraints` stands in a text.
fn names_constraint(text: &[u8]) -> bool
    ensures { result ≡ names_constraint text.now }
{
    text.split(|b| !is_name_byte(*b))
        .any(|word| is_constraint_word(word))
}

/// Returns the last byte that is no blank, or 0.
fn last_visible(text: &[u8]) -> u8
    ensures { result ≡ last_visible 0 text.now }
{
    let mut last = 0;
    for b in text {
        if !is_blank(*b) {
            last = *b;
        }
    }
    last
}

pub(crate) fn first_byte(text: &[u8]) -> u8
    ensures { result ≡ first_byte text.now }
{
    match text {
        [] => 0,
        [first, ..] => *first,
    }
}

/// Returns the feature with attributes after it.
fn with_attributes<'t>(name: &'t [u8], behind: &'t [u8]) -> Result<Item<'t>, Stop<'t>>
    requires { IsFeatureName name.now }
    ensures gives { GivesItem result (with_attributes name.now behind.now) }
    ensures item { IfOk result (λ item. IsItem (item_in item)) }
{
    if names_constraint(behind) {
        return Err(Stop {
            reason: Reason::AttributeConstraint,
            left: behind,
        });
    }
    if last_visible(behind) == b'}' {
        Ok(Item::Named(name))
    } else {
        Err(Stop {
            reason: Reason::Attributes,
            left: behind,
        })
    }
}

/// Returns the feature with this name, or why the text after it is refused.
fn named_before<'t>(name: &'t [u8], behind: &'t [u8]) -> Result<Item<'t>, Stop<'t>>
    requires { IsFeatureName name.now }
    ensures gives { GivesItem result (named_before name.now behind.now) }
    ensures item { IfOk result (λ item. IsItem (item_in item)) }
{
    if is_nothing(behind) {
        return Ok(Item::Named(name));
    }
    if first_byte(behind) == b'{' {
        return with_attributes(name, behind);
    }
    let (word, _) = split_name(behind);
    let reason = if same(word, b"cardinality") {
        Reason::FeatureCardinality
    } else {
        Reason::Syntax
    };
    Err(Stop {
        reason,
        left: behind,
    })
}

/// Returns the text without its first byte, if there is one.
pub(crate) fn behind_first(text: &[u8]) -> &[u8]
    ensures { result.now ≡ drop 1 text.now }
{
    match text {
        [] => text,
        [_, rest @ ..] => rest,
    }
}

/// Returns whether a feature's name and a quote follow an opening quote.
pub(crate) fn is_quoted_name(text: &[u8]) -> bool
    ensures { result ≡ is_quoted_name text.now }
{
    let (word, rest) = split_front(text);
    is_feature_name(word) && first_byte(rest) == b'"'
}

/// Returns the feature whose name stands between double quotes, by the text after the first one.
fn quoted_feature<'t>(body: &'t [u8], text: &'t [u8]) -> Result<Item<'t>, Stop<'t>>
    ensures gives { GivesItem result (quoted_feature body.now text.now) }
    ensures item { IfOk result (λ item. IsItem (item_in item)) }
{
    let (name, rest) = split_front(text);
    if is_feature_name(name) && first_byte(rest) == b'"' {
        return named_before(name, after_blanks(behind_first(rest)));
    }
    Err(Stop {
        reason: Reason::Quotes,
        left: body,
    })
}

/// Returns the feature whose name stands there, by the text after the name.
fn plain_feature<'t>(body: &'t [u8], name: &'t [u8], behind: &'t [u8]) -> Result<Item<'t>, Stop<'t>>
    ensures gives { GivesItem result (plain_feature body.now name.now behind.now) }
    ensures item { IfOk result (λ item. IsItem (item_in item)) }
{
    if is_nothing(name) {
        return Err(Stop {
            reason: Reason::Syntax,
            left: body,
        });
    }
    if !is_nothing(behind) && is_type(name) {
        return Err(Stop {
            reason: Reason::Typed,
            left: body,
        });
    }
    if is_feature_name(name) {
        return named_before(name, behind);
    }
    Err(Stop {
        reason: Reason::Name,
        left: body,
    })
}

/// Returns the feature that a row is.
fn feature_of(body: &[u8]) -> Result<Item, Stop>
    ensures gives { GivesItem result (feature_of body.now) }
    ensures item { IfOk result (λ item. IsItem (item_in item)) }
{
    if first_byte(body) == b'"' {
        return quoted_feature(body, behind_first(body));
    }
    let (name, behind) = split_name(body);
    plain_feature(body, name, behind)
}

/// Returns the item that a row is, after its indentation.
pub(crate) fn item_of(body: &[u8]) -> Result<Item, Stop>
    ensures gives { GivesItem result (item_of body.now) }
    ensures item { IfOk result (λ item. IsItem (item_in item)) }
{
    let (word, behind) = split_word(body);
    let Some(kind) = kind_of(word) else {
        return feature_of(body);
    };
    if !is_nothing(behind) {
        return Err(Stop {
            reason: Reason::Syntax,
            left: behind,
        });
    }
    if has_range(kind) {
        Ok(Item::Head(kind))
    } else {
        Err(Stop {
            reason: Reason::Range,
            left: body,
        })
    }
}
