//! Attributes of features.
ghost use Rattle.std.specs.Prelude.{◌≡◌, ◌+◌, ◌<◌, ◌^◌, length, IfOk};
ghost use Rattle.vpg_uvl.specs.Attributes.{behind_feature, below_features, attributes_of, attribute_places};
ghost use Rattle.vpg_uvl.specs.Views.{rows_left};

use crate::comments::plain;
use crate::item::{behind_first, first_byte, is_quoted_name};
use crate::row::{Cursor, next_row};
use crate::words::{after_blanks, is_head, split_front, split_name};
use std::alloc::{AllocError, Global};

/// Returns the text after the name at the front of a row, or nothing if quotes stand around something else.
fn behind_feature(body: &[u8]) -> &[u8]
    ensures { result.now ≡ behind_feature body.now }
{
    if first_byte(body) != b'"' {
        let (_, behind) = split_name(body);
        return behind;
    }
    let inner = behind_first(body);
    if !is_quoted_name(inner) {
        return &[];
    }
    let (_, rest) = split_front(inner);
    after_blanks(behind_first(rest))
}

/// Returns what stands below `features`.
fn below_features(cursor: Cursor) -> Cursor
    requires { cursor.start + length cursor.rest.now < 2 ^ 64 }
    ensures rows { rows_left result ≡ below_features (rows_left cursor.entry) }
    ensures room { result.start + length result.rest.now < 2 ^ 64 }
{
    let mut left = cursor;
    while let Some(next) = next_row(left) {
        left = next.behind;
        if is_head(next.row.bytes, b"features") {
            return left;
        }
    }
    left
}

/// Returns how many bytes of the text come before the attributes of each row.
fn attributes_of(alloc: Global, cursor: Cursor) -> Result<Vec<usize>, AllocError>
    requires { cursor.start + length cursor.rest.now < 2 ^ 64 }
    ensures { IfOk result (λ places. places.items ≡ attributes_of (rows_left cursor.entry)) }
{
    let mut places = Vec::new(alloc);
    let mut left = cursor;
    while let Some(next) = next_row(left) {
        left = next.behind;
        let row = next.row;
        let behind = behind_feature(after_blanks(row.bytes));
        if first_byte(behind) == b'{' {
            places.push(row.start + row.bytes.len().saturating_sub(behind.len()))?;
        }
    }
    Ok(places)
}

/// Returns for each feature that has attributes, in order, how many bytes of the text come before their `{`. The text
/// is one that `read` reads; nothing uses these attributes.
pub fn attribute_places(alloc: Global, text: &[u8]) -> Result<Vec<usize>, AllocError>
    ensures { IfOk result (λ places. places.items ≡ attribute_places text.now) }
{
    let bytes = plain(alloc, text)?;
    let start = Cursor {
        rest: &bytes,
        start: 0,
    };
    attributes_of(alloc, below_features(start))
}
