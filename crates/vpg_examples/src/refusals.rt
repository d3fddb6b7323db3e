//! Runs that memory or a device ends, and a line for each kind.

mod devices;
mod scripts;

use crate::family::Family;
use anyhow::{Context, Result};
use std::alloc::Global;
use std::io;
use std::sync::Wait;
use std::thread::Threads;
use vpg_scarce::{Heap, Report};

/// Writes the result of runs over devices that fail.
fn write_line<R: Print>(rt: &R, name: &str, holds: bool) -> io::Result<()> {
    let word = if holds {
        "a prefix, and the office ended"
    } else {
        "ENDS OTHERWISE"
    };
    println!(rt; "{name}: {word}")
}

/// Makes devices fail, and writes the result.
fn fail_devices<R: Threads + Wait + Sync + Print>(
    rt: &R,
    alloc: Global,
    family: &Family,
) -> io::Result<()> {
    let reads = devices::reads(rt, alloc, family);
    write_line(rt, "a reader that fails at each call in turn", reads)?;
    let bytes = devices::writes(rt, alloc, family, 1, 1);
    write_line(rt, "a writer of a byte a call", bytes)?;
    let pairs = devices::writes(rt, alloc, family, usize::MAX, 2);
    write_line(rt, "a writer of two bytes a call", pairs)?;
    let answers = devices::writes(rt, alloc, family, 1, usize::MAX);
    write_line(rt, "a writer of an answer a call", answers)
}

/// Makes devices fail with little memory, and writes the result.
fn fail_with_little<R: Threads + Wait + Sync + Print>(
    rt: &R,
    heap: &mut Heap,
    family: &Family,
) -> Result<()> {
    let mut got = Vec::with_capacity(heap.alloc(), scripts::MOST_BYTES)?;
    let reads = devices::reads_with_little(rt, heap, family, &mut got);
    write_line(rt, "a reader that fails, with little memory", reads)?;
    let writes = devices::writes_with_little(rt, heap, family, &mut got);
    write_line(rt, "a writer that fails, with little memory", writes)?;
    Ok(())
}

/// Has runs of this family refused memory, and devices fail, unless runs are marked.
fn refuse_of<R: Threads + Wait + Sync + Print>(
    rt: &R,
    heap: &mut Heap,
    report: &mut Report,
    family: &Family,
) -> Result<()> {
    scripts::refuse(rt, heap, report, family).context("no room")?;
    report.write(rt, heap)?;
    if !heap.is_marked() {
        fail_devices(rt, heap.alloc(), family)?;
        fail_with_little(rt, heap, family)?;
    }
    Ok(())
}

/// Does so with the family of most examples. Runs are marked if the program was called with a word.
pub(crate) fn refuse_all<R: Threads + Wait + Sync + Print>(
    rt: &R,
    alloc: Global,
    words: usize,
) -> Result<()> {
    let mut heap = Heap::new(alloc, words)?;
    let mut report = Report::new(alloc)?;
    let family = Family::built_in(alloc)?;
    refuse_of(rt, &mut heap, &mut report, &family)
}
