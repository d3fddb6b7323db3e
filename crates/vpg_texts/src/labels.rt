//! The names of vertices at the ends of lines.
ghost use Rattle.std.specs.Prelude.{◌≡◌, ◌++◌, map, OnOk};
ghost use Rattle.vpg_texts.specs.Labels.{is_empty, shown_byte, quoted, beside, beside_both};

use std::alloc::AllocError;

fn is_empty(bytes: &[u8]) -> bool
    ensures { result ≡ is_empty bytes.now }
{
    match bytes {
        [] => true,
        [_, ..] => false,
    }
}

/// Returns a byte of a name as it is shown: `?` for a control character.
fn shown_byte(byte: u8) -> u8
    ensures { result ≡ shown_byte byte }
{
    if byte < b' ' || byte == 127 {
        b'?'
    } else {
        byte
    }
}

/// Appends bytes as they are shown.
fn put_shown(bytes: &[u8], out: &mut Vec<u8>) -> Result<(), AllocError>
    ensures { OnOk result (out.new.items ≡ out.old.items ++ map shown_byte bytes.now) }
{
    for byte in bytes {
        out.push(shown_byte(*byte))?;
    }
    Ok(())
}

/// Appends a blank and a name in quotes.
fn put_quoted(name: &[u8], out: &mut Vec<u8>) -> Result<(), AllocError>
    ensures { OnOk result (out.new.items ≡ out.old.items ++ quoted name.now) }
{
    out.extend_from_slice(b" \"")?;
    put_shown(name, out)?;
    out.extend_from_slice(b"\"")
}

/// Appends a blank and the name of a line's vertex in quotes, if it has one.
pub fn put_beside(name: &[u8], out: &mut Vec<u8>) -> Result<(), AllocError>
    ensures { OnOk result (out.new.items ≡ out.old.items ++ beside name.now) }
{
    if is_empty(name) {
        return Ok(());
    }
    put_quoted(name, out)
}

/// Appends the names of a move's two vertices, if one of them has one.
pub fn put_beside_both(name: &[u8], other: &[u8], out: &mut Vec<u8>) -> Result<(), AllocError>
    ensures { OnOk result (out.new.items ≡ out.old.items ++ beside_both name.now other.now) }
{
    if is_empty(name) && is_empty(other) {
        return Ok(());
    }
    put_quoted(name, out)?;
    put_quoted(other, out)
}
