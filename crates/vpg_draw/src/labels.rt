//! The text between the quotes of labels.
ghost use Rattle.std.specs.Prelude.{◌≡◌, ◌<◌, ◌++◌, All, OnOk, decimal, flat_map, length, map};
ghost use Rattle.vpg_partial.specs.Known.{literal_of};
ghost use Rattle.vpg_draw.specs.Labels.{label_byte, ends_line, wrapped, feature_name, choice_text, choices_text};

use itoa::Buffer;
use std::alloc::AllocError;
use vpg_features::Names;
use vpg_partial::Decision;

/// The number of bytes in a line after which a blank ends it.
const LINE: usize = 12;

/// Appends a number in decimal.
pub(crate) fn number(n: u32, out: &mut Vec<u8>) -> Result<(), AllocError>
    ensures { OnOk result (out.new.items ≡ out.old.items ++ decimal n) }
{
    let mut buffer = Buffer::new();
    out.extend_from_slice(buffer.format(n).as_bytes())
}

fn label_byte(b: u8, out: &mut Vec<u8>) -> Result<(), AllocError>
    ensures { OnOk result (out.new.items ≡ out.old.items ++ label_byte b) }
{
    if b == b'"' {
        return out.extend_from_slice(b"\\\"");
    }
    if b == b'\\' {
        return out.extend_from_slice(b"\\\\");
    }
    if b == b'&' {
        return out.extend_from_slice(b"&amp;");
    }
    if b < 32 {
        return out.extend_from_slice(b" ");
    }
    out.extend_from_slice(&[b])
}

/// Appends bytes as they are written between quotes.
pub fn escaped(bytes: &[u8], out: &mut Vec<u8>) -> Result<(), AllocError>
    ensures { OnOk result (out.new.items ≡ out.old.items ++ flat_map label_byte bytes.now) }
{
    for b in bytes {
        label_byte(*b, out)?;
    }
    Ok(())
}

fn ends_line(column: usize, b: u8) -> bool
    ensures { result ≡ ends_line column b }
{
    b == b' ' && LINE <= column
}

/// Appends a name in lines.
pub(crate) fn wrapped(name: &[u8], out: &mut Vec<u8>) -> Result<(), AllocError>
    ensures { OnOk result (out.new.items ≡ out.old.items ++ wrapped 0 name.now) }
{
    let mut column = 0;
    for b in name {
        if ends_line(column, *b) {
            out.extend_from_slice(b"\\n")?;
            column = 0;
        } else {
            label_byte(*b, out)?;
            column += 1;
        }
    }
    Ok(())
}

/// Appends the name of a feature.
pub(crate) fn feature(names: &Names, f: u16, out: &mut Vec<u8>) -> Result<(), AllocError>
    requires { f < length names.now }
    ensures { OnOk result (out.new.items ≡ out.old.items ++ feature_name names.now f) }
{
    out.extend_from_slice(names.name(f).as_bytes())
}

fn choice(names: &Names, d: &Decision, out: &mut Vec<u8>) -> Result<(), AllocError>
    requires { d.now.feature < length names.now }
    ensures { OnOk result (out.new.items ≡ out.old.items ++ choice_text names.now (literal_of d.now)) }
{
    out.push(b' ')?;
    out.push(if d.value { b'+' } else { b'-' })?;
    feature(names, d.feature, out)
}

/// Appends the choices of decisions.
pub fn choices(names: &Names, decisions: &[Decision], out: &mut Vec<u8>) -> Result<(), AllocError>
    requires { All (λ d. d.feature < length names.now) decisions.now }
    ensures { OnOk result (out.new.items ≡ out.old.items ++ choices_text names.now (map literal_of decisions.now)) }
{
    for d in decisions {
        choice(names, d, out)?;
    }
    Ok(())
}
