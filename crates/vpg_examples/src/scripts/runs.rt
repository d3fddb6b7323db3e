//! Texts of rows, and runs that end as a row says.

use crate::devices::all;
use crate::family::{Family, outcome};
use std::alloc::Global;
use std::io::Read;
use std::sync::Wait;
use std::thread::Threads;
use vpg_script::{Ending, Manner, RunFault};

/// Appends a line, or a number of `#`; or answers that there was no memory.
fn put_line(alloc: Global, line: &str, out: &mut Vec<u8>) -> bool {
    let bytes = match line {
        "LONG" => 4097,
        "LONGEST" => 4096,
        "HUGE" => 30_000,
        _ => return out.extend_from_slice(line.as_bytes()).is_ok(),
    };
    match vec![in alloc; b'#'; bytes] {
        Ok(long) => out.extend_from_slice(&long).is_ok(),
        Err(_) => false,
    }
}

/// Appends the lines of a text, which are separated by ` / `, each with a line feed after it; or answers that there was
/// no memory.
pub(super) fn put_lines(alloc: Global, text: &str, out: &mut Vec<u8>) -> bool {
    let mut done = true;
    for line in text.split(" / ") {
        done &= put_line(alloc, line, out) & out.push(b'\n').is_ok();
    }
    done
}

/// Whether a run on a family ends so, and answers just this.
pub(super) fn ends_so<T: Threads + Wait + Sync, R: Read + Drop>(
    rt: &T,
    alloc: Global,
    family: &Family,
    lifters: u32,
    manner: Option<Manner>,
    reader: R,
    ended: Result<Ending, RunFault>,
    answers: &[u8],
) -> bool {
    let mut got = Vec::new(alloc);
    let result = outcome(rt, alloc, family, lifters, manner, reader, all(&mut got));
    result == Some(ended) && got.as_slice() == answers
}
