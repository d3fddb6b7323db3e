//! Texts that keep their first bytes and drop the others.
ghost use Rattle.std.specs.Prelude.{◌≡◌, ◌≤◌, ◌++◌, length, take, OnOk};
ghost use Rattle.vpg_part_texts.specs.PartTexts.{cut};

use std::alloc::AllocError;

/// The number of bytes that are kept: one more than in the longest text.
pub(crate) const KEPT: usize = 61;

/// Writes bytes after a text, as far as they are kept.
pub(crate) fn put(bytes: &[u8], out: &mut Vec<u8>) -> Result<(), AllocError>
    requires { length out.old.items ≤ 61 }
    ensures put { OnOk result (out.new.items ≡ take 61 (out.old.items ++ bytes.now)) }
    ensures few { OnOk result (length out.new.items ≤ 61) }
{
    let room = KEPT - out.len();
    let count = room.min(bytes.len());
    out.extend_from_slice(&bytes[..count])?;
    Ok(())
}

/// Cuts a text that has its first bytes kept.
pub(crate) fn cut(text: &mut Vec<u8>) -> Result<(), AllocError>
    ensures { OnOk result (text.new.items ≡ cut text.old.items) }
{
    if text.len() > 60 {
        text.truncate(58);
        text.extend_from_slice(b"..")?;
    }
    Ok(())
}
