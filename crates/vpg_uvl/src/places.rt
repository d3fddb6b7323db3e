//! Lines and columns.
ghost use Rattle.std.specs.Prelude.{◌≡◌, ◌≤◌, ◌+◌, length};
ghost use Rattle.vpg_uvl.specs.Places.{line_after, column_after};
ghost use Rattle.vpg_uvl.specs.Model.{told};

use crate::fault::{TextFault, UvlFault};

/// Returns the line after some bytes, from 1.
fn line_after(bytes: &[u8]) -> usize
    ensures { result ≡ line_after 1 bytes.now }
{
    let mut line = 1;
    for b in bytes {
        if *b == b'\n' {
            line += 1;
        }
    }
    line
}

/// Returns the column after some bytes, from 1.
fn column_after(bytes: &[u8]) -> usize
    ensures { result ≡ column_after 1 bytes.now }
{
    let mut column = 1;
    for b in bytes {
        column = if *b == b'\n' { 1 } else { column + 1 };
    }
    column
}

/// Returns the fault with the line and the column of its place.
pub(crate) fn told(text: &[u8], fault: TextFault) -> UvlFault
    ensures { result ≡ told text.now fault }
{
    match fault {
        TextFault::Memory => UvlFault::Memory,
        TextFault::Ended => UvlFault::Ended,
        TextFault::Refused { reason, at } => {
            let before = &text[..at.min(text.len())];
            UvlFault::Refused {
                reason,
                line: line_after(before),
                column: column_after(before),
            }
        }
    }
}
