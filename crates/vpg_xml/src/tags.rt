//! Tags, comments and tokens.
ghost use Rattle.std.specs.Prelude.{◌≡◌, ◌<◌, ◌≤◌, [], length, IfSome, IfOk, true, map, bytes_eq};
ghost use Rattle.std.specs.List.{list_any};
ghost use Rattle.vpg_xml.specs.Tokens.{value_with, quoted_at, attribute_at, has_attribute, is_new, attributes_at, tag_at, ending_at, comment_end, comment_at, end_at, start_at, markup_at, token_at, body_of, is_declared, after_declaration};
ghost use Rattle.vpg_xml.specs.View.{text_in, with_rest, same, attribute_of, tag_of, token_of};

use crate::element::{Attribute, Tag};
use crate::scan::{
    after_gap, after_name, after_sign, character, is_allowed, is_same, name_in, starts_blank,
    starts_name,
};
use crate::token::Token;
use std::alloc::{AllocError, Global};

/// The greatest number of attributes of a tag.
pub const MOST_ATTRIBUTES: usize = 64;

/// Returns the characters up to a quote, and the text after it.
fn value(alloc: Global, text: &[u8], quote: u8) -> Result<Option<(Vec<u8>, &[u8])>, AllocError>
    ensures read { IfOk result (λ v.
        with_rest (λ said. said.items) v ≡ value_with (length text.now) quote [] text.now) }
    ensures within { IfOk result (λ v. IfSome v (λ p. length p.1.now ≤ length text.now)) }
{
    let mut said = Vec::new(alloc);
    let mut rest = text;
    while let [b, behind @ ..] = rest {
        if *b == quote {
            return Ok(Some((said, behind)));
        }
        let Some((c, left)) = character(rest, quote) else {
            return Ok(None);
        };
        said.push(c)?;
        rest = left;
    }
    Ok(None)
}

/// Returns what a value in quotes says, and the text after it.
fn quoted(alloc: Global, text: &[u8]) -> Result<Option<(Vec<u8>, &[u8])>, AllocError>
    ensures read { IfOk result (λ v. with_rest (λ said. said.items) v ≡ quoted_at text.now) }
    ensures shorter { IfOk result (λ v. IfSome v (λ p. length p.1.now < length text.now)) }
{
    match text {
        [] => Ok(None),
        [quote, rest @ ..] => {
            if *quote == b'"' || *quote == b'\'' {
                value(alloc, rest, *quote)
            } else {
                Ok(None)
            }
        }
    }
}

/// Returns the attribute after blanks, and the text after it. `size` is the length of the whole text.
fn attribute<'t>(
    alloc: Global,
    size: usize,
    text: &'t [u8],
) -> Result<Option<(Attribute<'t>, &'t [u8])>, AllocError>
    requires { length text.now ≤ size }
    ensures read { IfOk result (λ a. with_rest attribute_of a ≡ attribute_at size text.now) }
    ensures shorter { IfOk result (λ a. IfSome a (λ p. length p.1.now < length text.now)) }
{
    let from = after_gap(text);
    let Some(behind) = after_sign(after_gap(after_name(from)), b'=') else {
        return Ok(None);
    };
    let Some((value, rest)) = quoted(alloc, after_gap(behind))? else {
        return Ok(None);
    };
    let attribute = Attribute {
        at: size - from.len(),
        name: name_in(from),
        value,
    };
    Ok(Some((attribute, rest)))
}

fn has_attribute(text: &[u8]) -> bool
    ensures { result ≡ has_attribute text.now }
{
    starts_blank(text) && starts_name(after_gap(text))
}

fn has_name(attributes: &[Attribute], name: &[u8]) -> bool
    ensures { result ≡ list_any (λ a. bytes_eq a.name.now name.now) attributes.now }
{
    attributes.iter().any(|a| is_same(a.name, name))
}

/// Whether an attribute may come after these.
fn is_new(attributes: &[Attribute], name: &[u8]) -> bool
    ensures { result ≡ is_new (map attribute_of attributes.now) name.now }
{
    attributes.len() < MOST_ATTRIBUTES && !has_name(attributes, name)
}

/// Returns the attributes at the front, and the text after them.
fn attributes<'t>(
    alloc: Global,
    size: usize,
    text: &'t [u8],
) -> Result<Option<(Vec<Attribute<'t>>, &'t [u8])>, AllocError>
    requires { length text.now ≤ size }
    ensures read { IfOk result (λ a. with_rest (λ v. map attribute_of v.items) a ≡ attributes_at size text.now) }
    ensures within { IfOk result (λ a. IfSome a (λ p. length p.1.now ≤ length text.now)) }
{
    let mut found = Vec::new(alloc);
    let mut rest = text;
    while has_attribute(rest) {
        let Some((next, left)) = attribute(alloc, size, rest)? else {
            return Ok(None);
        };
        if !is_new(&found, next.name) {
            return Ok(None);
        }
        found.push(next)?;
        rest = left;
    }
    Ok(Some((found, rest)))
}

/// Returns the name and the attributes of a start tag, after its `<`, and the text after them.
fn tag<'t>(
    alloc: Global,
    size: usize,
    text: &'t [u8],
) -> Result<Option<(Tag<'t>, &'t [u8])>, AllocError>
    requires { length text.now ≤ size }
    ensures read { IfOk result (λ t. with_rest tag_of t ≡ tag_at size text.now) }
    ensures within { IfOk result (λ t. IfSome t (λ p. length p.1.now ≤ length text.now)) }
{
    if !starts_name(text) {
        return Ok(None);
    }
    let Some((attributes, rest)) = attributes(alloc, size, after_name(text))? else {
        return Ok(None);
    };
    let name = name_in(text);
    Ok(Some((Tag { name, attributes }, rest)))
}

/// Returns whether a start tag ends as that of an empty element, and the text after its end.
fn ending(text: &[u8]) -> Option<(bool, &[u8])>
    ensures read { with_rest same result ≡ ending_at text.now }
    ensures shorter { IfSome result (λ p. length p.1.now < length text.now) }
{
    match text {
        [] => None,
        [b, rest @ ..] => {
            if *b == b'/' {
                let Some(behind) = after_sign(rest, b'>') else {
                    return None;
                };
                return Some((true, behind));
            }
            if *b == b'>' {
                Some((false, rest))
            } else {
                None
            }
        }
    }
}

/// Returns the text after the end of a comment.
fn comment_end(text: &[u8]) -> Option<&[u8]>
    ensures rest { text_in result ≡ comment_end text.now }
    ensures shorter { IfSome result (λ rest. length rest.now < length text.now) }
{
    let mut rest = text;
    while let [b, c, behind @ ..] = rest {
        if *b == b'-' && *c == b'-' {
            return after_sign(behind, b'>');
        }
        if !is_allowed(*b) {
            return None;
        }
        rest = &rest[1..];
    }
    None
}

/// Returns a comment, after its `<!`, and the text after it.
fn comment<'t>(text: &'t [u8]) -> Option<(Token<'t>, &'t [u8])>
    ensures read { with_rest token_of result ≡ comment_at text.now }
    ensures shorter { IfSome result (λ p. length p.1.now < length text.now) }
{
    let Some(behind) = after_sign(text, b'-') else {
        return None;
    };
    let Some(inside) = after_sign(behind, b'-') else {
        return None;
    };
    let Some(rest) = comment_end(inside) else {
        return None;
    };
    Some((Token::Comment, rest))
}

/// Returns an end tag, after its `</`, and the text after it.
fn end<'t>(text: &'t [u8]) -> Option<(Token<'t>, &'t [u8])>
    ensures read { with_rest token_of result ≡ end_at text.now }
    ensures shorter { IfSome result (λ p. length p.1.now < length text.now) }
{
    if !starts_name(text) {
        return None;
    }
    let Some(rest) = after_sign(after_gap(after_name(text)), b'>') else {
        return None;
    };
    Some((Token::End(name_in(text)), rest))
}

/// Returns a start tag, or the tag of an empty element, after its `<`, and the text after it.
fn start<'t>(
    alloc: Global,
    size: usize,
    text: &'t [u8],
) -> Result<Option<(Token<'t>, &'t [u8])>, AllocError>
    requires { length text.now ≤ size }
    ensures read { IfOk result (λ t. with_rest token_of t ≡ start_at size text.now) }
    ensures shorter { IfOk result (λ t. IfSome t (λ p. length p.1.now < length text.now)) }
{
    let Some((tag, behind)) = tag(alloc, size, text)? else {
        return Ok(None);
    };
    let Some((is_empty, rest)) = ending(after_gap(behind)) else {
        return Ok(None);
    };
    Ok(Some((Token::Start(tag, is_empty), rest)))
}

/// Returns the token at the front, and the text after it. `size` is the length of the whole text.
pub(crate) fn token<'t>(
    alloc: Global,
    size: usize,
    text: &'t [u8],
) -> Result<Option<(Token<'t>, &'t [u8])>, AllocError>
    requires { length text.now ≤ size }
    ensures read { IfOk result (λ t. with_rest token_of t ≡ token_at size text.now) }
    ensures shorter { IfOk result (λ t. IfSome t (λ p. length p.1.now < length text.now)) }
{
    match text {
        [] => Ok(None),
        [b'<', b'!', rest @ ..] => Ok(comment(rest)),
        [b'<', b'/', rest @ ..] => Ok(end(rest)),
        [b'<', rest @ ..] => start(alloc, size, rest),
        _ => {
            let Some((c, rest)) = character(text, b'<') else {
                return Ok(None);
            };
            Ok(Some((Token::Character(c), rest)))
        }
    }
}

fn is_declared(text: &[u8]) -> bool
    ensures { result ≡ is_declared text.now }
{
    match text {
        [b'<', b'?', b'x', b'm', b'l', ..] => true,
        _ => false,
    }
}

/// Returns the text after its declaration, if it has one.
pub(crate) fn body(alloc: Global, text: &[u8]) -> Result<Option<&[u8]>, AllocError>
    ensures read { IfOk result (λ t. text_in t ≡ body_of text.now) }
    ensures within { IfOk result (λ t. IfSome t (λ rest. length rest.now ≤ length text.now)) }
{
    if !is_declared(text) {
        return Ok(Some(text));
    }
    let Some((_attributes, rest)) = attributes(alloc, text.len(), &text[5..])? else {
        return Ok(None);
    };
    let Some(behind) = after_sign(after_gap(rest), b'?') else {
        return Ok(None);
    };
    Ok(after_sign(behind, b'>'))
}
