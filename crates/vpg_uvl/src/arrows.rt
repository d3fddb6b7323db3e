//! Chains of `=>`.
ghost use Rattle.std.specs.Prelude.{◌≡◌, ◌+◌, ◌-◌, ◌<◌, ◌≤◌, ◌^◌, ◌==◌, ◌++◌, if◌then◌else◌, length, IfOk, OnOk};
ghost use Rattle.vpg_uvl.specs.Arrows.{arrows, is_arrow, is_chained, opened, is_front, with_parentheses, enclosed_from, enclosed};

use std::alloc::{AllocError, Global};

/// Returns the number of open parentheses after a byte.
fn deeper(depth: usize, b: u8) -> usize
    requires { depth < 2 ^ 63 }
    ensures { result ≡ (if b == 40 then depth + 1 else (if b == 41 then depth - 1 else depth)) }
{
    match b {
        b'(' => depth + 1,
        b')' => depth.saturating_sub(1),
        _ => depth,
    }
}

/// Returns the number of `=>` before the end of the parentheses around a text and before the next `<=>` in them.
fn arrows(text: &[u8]) -> usize
    ensures value { result ≡ arrows text.now }
{
    let mut depth: usize = 0;
    let mut before = 0;
    let mut count: usize = 0;
    for b in text {
        if depth == 0 && *b == b')' {
            return count;
        }
        if depth == 0 && *b == b'=' {
            if before == b'<' {
                return count;
            }
            count += 1;
        }
        depth = deeper(depth, *b);
        before = *b;
    }
    count
}

/// Whether a byte is the `=` of a `=>`.
fn is_arrow(before: u8, b: u8) -> bool
    ensures { result ≡ is_arrow before b }
{
    b == b'=' && before != b'<'
}

/// Whether a `=>` comes after another in the same parentheses, with no `<=>` of these between.
pub(crate) fn is_chained(text: &[u8]) -> bool
    ensures { result ≡ is_chained 0 text.now }
{
    let mut before = 0;
    for (at, b) in text.iter().enumerate() {
        if is_arrow(before, *b) && arrows(&text[at + 1..]) != 0 {
            return true;
        }
        before = *b;
    }
    false
}

/// Writes a `(` for each `=>` whose left side begins with the text.
fn put_opened(text: &[u8], out: &mut Vec<u8>) -> Result<(), AllocError>
    ensures { OnOk result (out.new.items ≡ out.old.items ++ opened text.now) }
{
    for _ in 0..arrows(text) {
        out.push(b'(')?;
    }
    Ok(())
}

/// Whether a byte is a `(` or the end of a `<=>`, by the two bytes before it.
fn is_front(earlier: u8, before: u8, b: u8) -> bool
    ensures { result ≡ is_front earlier before b }
{
    b == b'(' || (b == b'>' && before == b'=' && earlier == b'<')
}

/// Writes a byte with the parentheses around it.
fn put_byte(
    earlier: u8,
    before: u8,
    b: u8,
    behind: &[u8],
    out: &mut Vec<u8>,
) -> Result<(), AllocError>
    ensures { OnOk result (out.new.items ≡ out.old.items ++ with_parentheses earlier before b behind.now) }
{
    if is_front(earlier, before, b) {
        out.push(b)?;
        return put_opened(behind, out);
    }
    if is_arrow(before, b) {
        out.push(b')')?;
    }
    out.push(b)?;
    Ok(())
}

/// Writes a text with a `)` before each `=>`, and after each `(` and `<=>` the `(` that belong to them.
fn put_enclosed(text: &[u8], out: &mut Vec<u8>) -> Result<(), AllocError>
    ensures { OnOk result (out.new.items ≡ out.old.items ++ enclosed_from 0 0 text.now) }
{
    let mut earlier = 0;
    let mut before = 0;
    for (at, b) in text.iter().enumerate() {
        put_byte(earlier, before, *b, &text[at + 1..], out)?;
        earlier = before;
        before = *b;
    }
    Ok(())
}

/// Returns the text with the left side of each `=>` in parentheses.
pub(crate) fn enclosed(alloc: Global, text: &[u8]) -> Result<Vec<u8>, AllocError>
    ensures { IfOk result (λ bytes. bytes.items ≡ enclosed text.now) }
{
    let mut bytes = Vec::new(alloc);
    put_opened(text, &mut bytes)?;
    put_enclosed(text, &mut bytes)?;
    Ok(bytes)
}
