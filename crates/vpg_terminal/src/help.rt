//! The help of a session on commands.
use std::alloc::{AllocError, Global};
use vpg_places::words_of;

/// The number of bytes in a line of the list that show how commands are written.
const WRITTEN: usize = 25;

/// Whether a line of the list begins the help on a command, and doesn't go on with it.
fn begins(line: &[u8]) -> bool {
    line.starts_with(b"  ") && !line.starts_with(b"   ")
}

/// Returns whether a line that begins the help on commands names this word.
fn names(alloc: Global, line: &[u8], command: &[u8]) -> Result<bool, AllocError> {
    let written = line.get(..WRITTEN).unwrap_or(line);
    let words = words_of(alloc, written, b"")?;
    Ok(words.iter().any(|word| word.bytes == command))
}

/// Appends the lines about one command from a list of commands. Returns whether there are any.
pub(crate) fn put_command(
    alloc: Global,
    list: &str,
    command: &[u8],
    out: &mut Vec<u8>,
) -> Result<bool, AllocError> {
    let mut is_told = false;
    let mut is_found = false;
    for line in list.lines() {
        let line = line.as_bytes();
        if begins(line) {
            is_told = names(alloc, line, command)?;
            is_found = is_found || is_told;
        }
        if is_told {
            out.extend_from_slice(line)?;
            out.push(b'\n')?;
        }
    }
    Ok(is_found)
}
