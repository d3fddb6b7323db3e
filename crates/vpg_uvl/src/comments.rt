//! Comments.
ghost use Rattle.std.specs.Prelude.{◌≡◌, ◌+◌, ◌<◌, ◌≤◌, ◌^◌, length, IfOk, IfSome};
ghost use Rattle.vpg_uvl.specs.Comments.{begins, next_place, is_comment, shown, plain, is_block, start_of, open_comment};

use std::alloc::{AllocError, Global};

/// Where a byte stands.
#[derive(Clone, Copy)]
pub(crate) enum Place {
    /// Neither in a comment nor between quotes.
    Outside,
    /// Between two of these quotes.
    Quoted(u8),
    /// In a comment up to the line's end.
    InLine,
    /// At the `*` of a `/*`.
    Opening,
    /// In a comment up to its `*/`.
    Inside,
    /// At the `/` of a `*/`.
    Closing,
}

/// Whether a text begins with a byte.
fn begins(text: &[u8], byte: u8) -> bool
    ensures { result ≡ begins byte text.now }
{
    match text {
        [] => false,
        [first, ..] => *first == byte,
    }
}

/// Returns where the byte after a byte outside of comments stands.
fn place_outside(b: u8, behind: &[u8]) -> Place
    ensures { result ≡ next_place Place.Outside b behind.now }
{
    if b == b'/' && begins(behind, b'/') {
        return Place::InLine;
    }
    if b == b'/' && begins(behind, b'*') {
        return Place::Opening;
    }
    if b == b'"' || b == b'\'' {
        Place::Quoted(b)
    } else {
        Place::Outside
    }
}

/// Returns where the byte after a byte stands.
fn next_place(place: Place, b: u8, behind: &[u8]) -> Place
    ensures { result ≡ next_place place b behind.now }
{
    let ends = match place {
        Place::Outside => return place_outside(b, behind),
        Place::Quoted(mark) => b == mark || b == b'\n',
        Place::InLine => begins(behind, b'\n'),
        Place::Opening => return Place::Inside,
        Place::Inside => {
            if b == b'*' && begins(behind, b'/') {
                return Place::Closing;
            }
            return Place::Inside;
        }
        Place::Closing => true,
    };
    if ends { Place::Outside } else { place }
}

/// Whether a place is within a comment, after its first byte.
fn is_comment(place: Place) -> bool
    ensures { result ≡ is_comment place }
{
    match place {
        Place::Outside | Place::Quoted(_) => false,
        Place::InLine | Place::Opening | Place::Inside | Place::Closing => true,
    }
}

/// Returns a byte, or a space if the byte is one of a comment.
fn shown(place: Place, next: Place, b: u8) -> u8
    ensures { result ≡ shown place next b }
{
    if is_comment(place) || is_comment(next) {
        b' '
    } else {
        b
    }
}

/// Returns the text with a space for each byte of a comment.
pub(crate) fn plain(alloc: Global, text: &[u8]) -> Result<Vec<u8>, AllocError>
    ensures { IfOk result (λ bytes. bytes.items ≡ plain text.now) }
{
    let mut bytes = Vec::new(alloc);
    let mut place = Place::Outside;
    for (at, b) in text.iter().enumerate() {
        let next = next_place(place, *b, &text[at + 1..]);
        bytes.push(shown(place, next, *b))?;
        place = next;
    }
    Ok(bytes)
}

/// Whether a place is within a comment that needs its `*/`.
fn is_block(place: Place) -> bool
    ensures { result ≡ is_block place }
{
    match place {
        Place::Outside | Place::Quoted(_) | Place::InLine => false,
        Place::Opening | Place::Inside | Place::Closing => true,
    }
}

/// Returns where the last comment begins, if another one may begin here.
fn start_of(place: Place, start: usize, here: usize) -> usize
    ensures { result ≡ start_of place start here }
{
    match place {
        Place::Opening => here,
        _ => start,
    }
}

/// Returns how many bytes come before the `/*` that no `*/` follows, if there is one.
pub(crate) fn open_comment(text: &[u8]) -> Option<usize>
    ensures { result ≡ open_comment text.now }
{
    let mut place = Place::Outside;
    let mut start = 0;
    for (at, b) in text.iter().enumerate() {
        let next = next_place(place, *b, &text[at + 1..]);
        start = start_of(next, start, at);
        place = next;
    }
    if is_block(place) { Some(start) } else { None }
}
