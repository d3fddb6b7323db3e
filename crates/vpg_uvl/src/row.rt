//! The rows of a text.
ghost use Rattle.std.specs.Prelude.{◌≡◌, ◌+◌, ◌-◌, ◌<◌, ◌≤◌, ◌^◌, [], ◌∷◌, ◌==◌, length, position, IfSome, IfNone, ℕ};
ghost use Rattle.std.specs.Str.Lines.{strip_carriage_return};
ghost use Rattle.vpg_uvl.specs.Rows.{rows_from, parts_of};
ghost use Rattle.vpg_uvl.specs.Views.{row_of, row_then, rows_left};

use crate::words::is_blank_text;

/// A row of a text without comments, and how many bytes come before it.
#[derive(Clone, Copy)]
pub(crate) struct Row<'t> {
    pub(crate) start: usize,
    pub(crate) bytes: &'t [u8],
}

/// The rest of a text without comments, and the number of bytes before it.
#[derive(Clone, Copy)]
pub(crate) struct Cursor<'t> {
    pub(crate) rest: &'t [u8],
    pub(crate) start: usize,
}

/// The next row, and what is left after it.
#[derive(Clone, Copy)]
pub(crate) struct Next<'t> {
    pub(crate) row: Row<'t>,
    pub(crate) behind: Cursor<'t>,
}

/// Returns a line without the one carriage return at its end.
fn without_return(line: &[u8]) -> &[u8]
    ensures value { result.now ≡ strip_carriage_return line.now }
    ensures shorter { length result.now ≤ length line.now }
{
    match line {
        [front @ .., b'\r'] => front,
        _ => line,
    }
}

fn line_end(text: &[u8]) -> Option<usize>
    ensures { result ≡ position (λ b. b == 10) text.now }
{
    text.iter().position(|b| *b == b'\n')
}

/// Returns the text up to its first line feed, and what stands after that.
fn first_part(text: &[u8]) -> (&[u8], &[u8])
    requires { 0 < length text.now }
    ensures rows { (start : ℕ) → rows_from start (parts_of text.now)
        ≡ row_then start result.0.now
        (rows_from (start + (length text.now - length result.1.now)) (parts_of result.1.now)) }
    ensures shorter { length result.1.now < length text.now }
    ensures within { length result.0.now ≤ length text.now }
{
    match line_end(text) {
        Some(at) => (&text[..at], &text[at + 1..]),
        None => (text, &text[text.len()..]),
    }
}

/// Returns the next row, if there is one.
pub(crate) fn next_row(cursor: Cursor) -> Option<Next>
    requires { cursor.start + length cursor.rest.now < 2 ^ 64 }
    ensures some { IfSome result (λ next. rows_left cursor.entry ≡ row_of next.row ∷ rows_left next.behind) }
    ensures shorter { IfSome result (λ next. length next.behind.rest.now < length cursor.entry.rest.now) }
    ensures room { IfSome result (λ next. next.behind.start + length next.behind.rest.now < 2 ^ 64) }
    ensures row { IfSome result (λ next. next.row.start + length next.row.bytes.now < 2 ^ 64) }
    ensures none { IfNone result (rows_left cursor.entry ≡ []) }
{
    let mut rest = cursor.rest;
    let mut start = cursor.start;
    while !rest.is_empty() {
        let (part, behind) = first_part(rest);
        let bytes = without_return(part);
        let row = Row { start, bytes };
        start += rest.len() - behind.len();
        rest = behind;
        if !is_blank_text(bytes) {
            return Some(Next {
                row,
                behind: Cursor { rest, start },
            });
        }
    }
    None
}
