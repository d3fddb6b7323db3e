//! The lines of a script, as they are read.
ghost use Rattle.std.specs.Prelude.{◌≡◌, ℕ, ◌+◌, ◌-◌, ◌*◌, ◌<◌, ◌≤◌, ◌≢◌, ◌==◌, ◌⊎◌, [], ◌∷◌, ◌++◌, true, false, length, take, drop, position, vec_len, IfOk, OnOk, OnErr, IfErr, IsErrOf, IfNone, IfSome, Ok, Err, MatchResult};
ghost use Rattle.std.specs.List.{list_all, prefix_len};
ghost use Rattle.std.specs.Str.Lines.{strip_carriage_return};
ghost use Rattle.std.specs.Io.KnownBytes.{prepend_known, Keeps, IsAtEnd};
ghost use Rattle.vpg_script.specs.Lines.{is_within_line, IsUnended, IsEnded, ComesNext, ComesKnown, PassedKnown, HeldKnown, IsLine, lines_left, UnlessUnread};

use crate::command::LONGEST_LINE;
use crate::device::{Failed, Source};
use std::alloc::{AllocError, Global};
use std::mem;
use thiserror::Error;

/// The most read calls of one run.
pub const MOST_READS: u32 = 16_777_216;

/// The number of bytes that one read asks for.
const PIECE: usize = 8192;

/// The next piece of a script.
#[derive(Drop)]
pub enum Next {
    Line(Vec<u8>),
    End,
    TooLong,
}

/// Why no next piece comes.
#[derive(Clone, Copy, Debug, Error)]
pub enum NextFault {
    /// The reader failed, or was read 16,777,216 times.
    #[error("Read")]
    Read,
    #[error("Memory")]
    Memory,
}

/// Returns the number of bytes of the first line.
fn line_len(bytes: &[u8]) -> usize
    ensures len { result ≡ prefix_len is_within_line bytes.now }
    ensures within { result ≤ length bytes.now }
{
    bytes.iter().take_while(|b| **b != b'\n').count()
}

fn without_return(front: &[u8]) -> &[u8]
    ensures { result.now ≡ strip_carriage_return front.now }
{
    match front {
        [rest @ .., b'\r'] => rest,
        _ => front,
    }
}

/// Takes the first line off, with the line feed that stands at n.
fn drop_line(held: &mut Vec<u8>, n: usize)
    requires { n < vec_len held.old }
    ensures rest { held.new.items ≡ drop (n + 1) held.old.items }
    ensures len { vec_len held.new < vec_len held.old }
{
    let rest = held.len() - (n + 1);
    held.rotate_left(n + 1);
    held.truncate(rest);
}

/// Takes the first line off, with the line feed that stands at n, and returns it.
fn cut(alloc: Global, held: &mut Vec<u8>, n: usize) -> Result<Vec<u8>, AllocError>
    requires { n < vec_len held.old }
    ensures line { IfOk result (λ line. line.items ≡ strip_carriage_return (take n held.old.items)) }
    ensures rest { OnOk result (held.new.items ≡ drop (n + 1) held.old.items) }
    ensures len { OnOk result (vec_len held.new < vec_len held.old) }
    ensures err { OnErr result (held.new.items ≡ held.old.items) }
{
    let line = Vec::from_slice(alloc, without_return(&held[..n]))?;
    drop_line(held, n);
    Ok(line)
}

/// Reads once more. Returns whether anything came.
fn more<R: Source>(held: &mut Vec<u8>, reader: &mut R) -> Result<bool, NextFault>
    requires { R.calls reader.old < 16777216 }
    ensures counted { R.calls reader.new ≡ R.calls reader.old + 1 }
    ensures ok { OnOk result
        (Keeps (prepend_known held.old.items (R.remaining reader.old))
        (prepend_known held.new.items (R.remaining reader.new))) }
    ensures few { OnOk result (vec_len held.new ≤ vec_len held.old + 8192) }
    ensures end { IfOk result (λ came. came ≡ false → IsAtEnd (R.remaining reader.new)) }
    ensures same { IfOk result (λ came. came ≡ false → held.new.items ≡ held.old.items) }
    ensures read { IsErrOf result NextFault.Read →
        Keeps (prepend_known held.old.items (R.remaining reader.old))
        (prepend_known held.new.items (R.remaining reader.new)) }
    ensures read_same { IsErrOf result NextFault.Read → held.new.items ≡ held.old.items }
    ensures failed { IsErrOf result NextFault.Read → R.has_failed reader.new ≡ true }
    ensures readable { UnlessUnread result (R.has_failed reader.new ≡ R.has_failed reader.old) }
{
    let mut piece = [0u8; PIECE];
    match reader.fill(&mut piece) {
        Ok(n) => {
            if held.extend_from_slice(&piece[..n]).is_err() {
                return Err(NextFault::Memory);
            }
            Ok(n != 0)
        }
        Err(_) => Err(NextFault::Read),
    }
}

/// Returns the last piece, from the bytes held when nothing more comes.
fn last(alloc: Global, held: &mut Vec<u8>) -> Next
    requires { IsUnended held.old.items }
    ensures next { ComesNext result held.old.items [] }
    ensures emptied { vec_len held.new ≡ 0 }
{
    if held.is_empty() {
        return Next::End;
    }
    Next::Line(mem::replace(held, Vec::new(alloc)))
}

/// Returns the next line. `held` has the bytes that were read and not used; `reads` counts the reads.
pub fn next_line<R: Source>(
    alloc: Global,
    held: &mut Vec<u8>,
    reads: &mut u32,
    reader: &mut R,
) -> Result<Next, NextFault>
    requires few { reads.old ≤ 16777216 }
    requires calls { R.calls reader.old ≡ reads.old }
    ensures calls { R.calls reader.new ≡ reads.new }
    ensures unended { IsErrOf result NextFault.Read → IsUnended held.new.items }
    ensures next { IfOk result
        (λ n. ComesKnown n (prepend_known held.old.items (R.remaining reader.old))
        (prepend_known held.new.items (R.remaining reader.new))) }
    ensures read { IsErrOf result NextFault.Read →
        Keeps (prepend_known held.old.items (R.remaining reader.old))
        (prepend_known held.new.items (R.remaining reader.new)) }
    ensures readable { UnlessUnread result (R.has_failed reader.new ≡ R.has_failed reader.old) }
    ensures cause { IsErrOf result NextFault.Read → (R.has_failed reader.new ≡ true) ⊎ (reads.new ≡ 16777216) }
    ensures reads { reads.new ≤ 16777216 }
    ensures fewer { IfOk result
        (λ n. IsLine n → lines_left reads.new (vec_len held.new) < lines_left reads.old (vec_len held.old)) }
    ensures no_more { OnOk result
        (lines_left reads.new (vec_len held.new) ≤ lines_left reads.old (vec_len held.old)) }
{
    'fill: loop {
        let n = line_len(held);
        if n < held.len() {
            let Ok(line) = cut(alloc, held, n) else {
                return Err(NextFault::Memory);
            };
            return Ok(Next::Line(line));
        }
        if held.len() > LONGEST_LINE + 1 {
            return Ok(Next::TooLong);
        }
        if *reads >= MOST_READS {
            return Err(NextFault::Read);
        }
        *reads += 1;
        let came = match more(held, reader) {
            Ok(came) => came,
            Err(fault) => return Err(fault),
        };
        if !came {
            return Ok(last(alloc, held));
        }
    }
}

/// Takes the rest of a line off, with its end, and holds nothing of it.
pub fn pass_line<R: Source>(
    held: &mut Vec<u8>,
    reads: &mut u32,
    reader: &mut R,
) -> Result<(), NextFault>
    requires few { reads.old ≤ 16777216 }
    requires calls { R.calls reader.old ≡ reads.old }
    ensures calls { R.calls reader.new ≡ reads.new }
    ensures passed { OnOk result
        (PassedKnown (prepend_known held.old.items (R.remaining reader.old))
        (prepend_known held.new.items (R.remaining reader.new))) }
    ensures read { IsErrOf result NextFault.Read →
        HeldKnown (prepend_known held.old.items (R.remaining reader.old)) (R.remaining reader.new) }
    ensures readable { UnlessUnread result (R.has_failed reader.new ≡ R.has_failed reader.old) }
    ensures cause { IsErrOf result NextFault.Read → (R.has_failed reader.new ≡ true) ⊎ (reads.new ≡ 16777216) }
    ensures reads { reads.new ≤ 16777216 }
    ensures fewer { OnOk result
        (lines_left reads.new (vec_len held.new) < lines_left reads.old (vec_len held.old)) }
{
    'pass: loop {
        let n = line_len(held);
        if n < held.len() {
            drop_line(held, n);
            return Ok(());
        }
        held.clear();
        if *reads >= MOST_READS {
            return Err(NextFault::Read);
        }
        *reads += 1;
        let came = match more(held, reader) {
            Ok(came) => came,
            Err(fault) => return Err(fault),
        };
        if !came {
            return Ok(());
        }
    }
}
