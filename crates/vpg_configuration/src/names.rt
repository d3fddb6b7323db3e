//! Configurations of names: a text with one selected feature a line.
ghost use Rattle.std.specs.Prelude.{◌≡◌, ◌++◌, ◌≤◌, length, map, flat_map, IfOk, OnOk};
ghost use Rattle.std.specs.List.{prefix_len, slice_split};
ghost use Rattle.vpg_configuration.specs.Configurations.{is_blank, is_line_end, begins_nothing, says_nothing, selection, last_selection, selections, selecting, name_line};

use std::alloc::{AllocError, Global};

fn is_blank(b: u8) -> bool
    ensures { result ≡ is_blank b }
{
    (b == b' ' || b == b'\t') || b == b'\r'
}

fn is_line_end(b: u8) -> bool
    ensures { result ≡ is_line_end b }
{
    b == b'\n'
}

/// Returns the number of blanks that a line begins with.
fn blanks(line: &[u8]) -> usize
    ensures len { result ≡ prefix_len is_blank line.now }
    ensures within { result ≤ length line.now }
{
    line.iter().take_while(|b| is_blank(**b)).count()
}

/// Whether a text that begins with no blank begins as a comment, or is empty.
fn begins_nothing(text: &[u8]) -> bool
    ensures { result ≡ begins_nothing text.now }
{
    match text {
        [] => true,
        [first, ..] => *first == b'#',
    }
}

/// Whether a line of a configuration names no feature.
fn says_nothing(line: &[u8]) -> bool
    ensures { result ≡ says_nothing line.now }
{
    begins_nothing(&line[blanks(line)..])
}

/// Appends the line of a script for a line of a configuration.
fn put_selection(line: &[u8], out: &mut Vec<u8>) -> Result<(), AllocError>
    ensures { OnOk result (out.new.items ≡ out.old.items ++ selection line.now) }
{
    if !says_nothing(line) {
        out.extend_from_slice(b"select ")?;
    }
    out.extend_from_slice(line)?;
    out.extend_from_slice(b"\n")
}

/// Appends the lines of a script for lines of a configuration.
fn put_selections(lines: &[&[u8]], out: &mut Vec<u8>) -> Result<(), AllocError>
    ensures { OnOk result (out.new.items ≡ out.old.items ++ flat_map selection (map (λ w. w.now) lines.now)) }
{
    for line in lines {
        put_selection(line, out)?;
    }
    Ok(())
}

/// Returns the lines of a text.
fn lines(alloc: Global, text: &[u8]) -> Result<Vec<&[u8]>, AllocError>
    ensures { IfOk result (λ v. map (λ w. w.now) v.items ≡ slice_split is_line_end text.now) }
{
    text.split(|b| is_line_end(*b)).collect(alloc)
}

/// Appends the line of a script for the text after the last line feed of a configuration.
fn put_last(line: &[u8], out: &mut Vec<u8>) -> Result<(), AllocError>
    ensures { OnOk result (out.new.items ≡ out.old.items ++ last_selection line.now) }
{
    match line {
        [] => Ok(()),
        [_, ..] => put_selection(line, out),
    }
}

/// Appends the lines of a script for the pieces of a configuration between line feeds.
fn put_pieces(pieces: &[&[u8]], out: &mut Vec<u8>) -> Result<(), AllocError>
    ensures { OnOk result (out.new.items ≡ out.old.items ++ selections (map (λ w. w.now) pieces.now)) }
{
    match pieces {
        [] => Ok(()),
        [lines @ .., last] => {
            put_selections(lines, out)?;
            put_last(last, out)
        }
    }
}

/// Returns the lines of a script that select the features of a configuration: for each line of the text one. A blank
/// line or a comment stays as it is, and each other line has `select` before it.
pub fn selecting(alloc: Global, text: &[u8]) -> Result<Vec<u8>, AllocError>
    ensures { IfOk result (λ script. script.items ≡ selecting text.now) }
{
    let pieces = lines(alloc, text)?;
    let mut script = Vec::new(alloc);
    put_pieces(&pieces, &mut script)?;
    Ok(script)
}

/// Appends the line of a feature.
pub(crate) fn put_name(name: &[u8], out: &mut Vec<u8>) -> Result<(), AllocError>
    ensures { OnOk result (out.new.items ≡ out.old.items ++ name_line name.now) }
{
    out.extend_from_slice(name)?;
    out.extend_from_slice(b"\n")
}
