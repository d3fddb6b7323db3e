//! Names between double quotes in constraints.
ghost use Rattle.std.specs.Prelude.{◌≡◌, IfOk};
ghost use Rattle.vpg_uvl.specs.Quotes.{unquoted};

use crate::item::is_quoted_name;
use std::alloc::{AllocError, Global};

/// Returns the text with a blank for each quote around a feature's name.
pub(crate) fn unquoted(alloc: Global, text: &[u8]) -> Result<Vec<u8>, AllocError>
    ensures { IfOk result (λ bytes. bytes.items ≡ unquoted text.now) }
{
    let mut bytes = Vec::new(alloc);
    let mut is_open = false;
    for (at, b) in text.iter().enumerate() {
        if *b == b'"' && (is_open || is_quoted_name(&text[at + 1..])) {
            bytes.push(b' ')?;
            is_open = !is_open;
        } else {
            bytes.push(*b)?;
        }
    }
    Ok(bytes)
}
