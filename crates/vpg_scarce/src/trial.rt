//! Calls that are made with more and more memory.

use crate::heap::Heap;
use std::alloc::Global;
use std::sync::Wait;

/// The end of a call.
#[derive(Clone, Copy, PartialEq, Eq, Debug, Drop)]
pub enum End {
    /// As with ample memory.
    Done,
    /// It was refused memory.
    Memory,
    /// In another way.
    Otherwise,
}

/// A call, with all that it may change.
pub trait Trial<R> {
    /// Makes the call.
    fn attempt(&mut self, rt: &R, alloc: Global) -> End;

    /// Whether all is as it was before the call, looked at with ample memory.
    fn is_unchanged(&mut self, rt: &R, alloc: Global) -> bool;
}

/// The result of a call that was made again and again.
#[derive(Clone, Copy, PartialEq, Eq, Debug, Drop)]
pub enum Finding {
    /// It was done without any memory.
    TakesNone,
    /// It was refused memory, which changed nothing each time, and then done.
    Unchanged,
    /// It was refused memory, and something changed.
    Changed,
    /// It ended neither done nor refused memory.
    Otherwise,
    /// It was never done.
    Never,
}

/// More than a call is ever made: up to a megabyte.
pub const MOST_TRIES: usize = 1 << 16;

/// Returns the memory to leave at the next try: it adds the step to which the C library rounds sizes up.
pub fn more(bytes: usize) -> usize {
    bytes.saturating_add(16)
}

/// Makes the call with this much memory. Returns its end, and whether a refusal changed nothing.
fn try_once<R: Wait, T: Trial<R>>(
    rt: &R,
    heap: &mut Heap,
    trial: &mut T,
    bytes: usize,
) -> (End, bool) {
    heap.leave(bytes);
    let end = trial.attempt(rt, heap.alloc());
    heap.relax();
    let unchanged = end != End::Memory || trial.is_unchanged(rt, heap.alloc());
    (end, unchanged)
}

/// Makes the call with more and more memory until it is done.
pub fn tried<R: Wait, T: Trial<R>>(rt: &R, heap: &mut Heap, trial: &mut T) -> Finding {
    let mut bytes = 0;
    for tries in 0..MOST_TRIES {
        match try_once(rt, heap, trial, bytes) {
            (End::Done, _) if tries == 0 => return Finding::TakesNone,
            (End::Done, _) => return Finding::Unchanged,
            (End::Memory, true) => bytes = more(bytes),
            (End::Memory, false) => return Finding::Changed,
            (End::Otherwise, _) => return Finding::Otherwise,
        }
    }
    Finding::Never
}

/// Makes the call with more and more memory, up to this many bytes. It may be done in a lesser form with little memory,
/// and has to be done at the end.
pub fn tried_through<R: Wait, T: Trial<R>>(
    rt: &R,
    heap: &mut Heap,
    trial: &mut T,
    most: usize,
) -> Finding {
    let mut bytes = 0;
    let mut done = Finding::TakesNone;
    for _ in 0..MOST_TRIES {
        match try_once(rt, heap, trial, bytes) {
            (End::Done, _) if bytes >= most || heap.is_marked() => return done,
            (End::Done, _) => {}
            (End::Memory, true) => done = Finding::Unchanged,
            (End::Memory, false) => return Finding::Changed,
            (End::Otherwise, _) => return Finding::Otherwise,
        }
        bytes = more(bytes);
    }
    Finding::Never
}

/// The end of a try, and whether all was then as it has to be.
#[derive(Clone, Copy, PartialEq, Eq, Debug, Drop)]
pub struct Outcome {
    pub end: End,
    pub holds: bool,
}

/// A call that is made on things of its own at each try.
pub trait Anew<R> {
    /// Makes all that the call needs with ample memory, the call with this many bytes, and checks its result.
    fn try_within(&mut self, rt: &R, heap: &mut Heap, bytes: usize) -> Outcome;
}

/// Makes the call with more and more memory until it is done with this many bytes or more. With fewer it may be done in
/// a lesser form. If calls are marked it ends as soon as it is done.
pub fn tried_anew<R: Wait, T: Anew<R>>(
    rt: &R,
    heap: &mut Heap,
    call: &mut T,
    most: usize,
) -> Finding {
    let mut bytes = 0;
    let mut told = Finding::TakesNone;
    for _ in 0..MOST_TRIES {
        let Outcome { end, holds } = call.try_within(rt, heap, bytes);
        match end {
            End::Otherwise => return Finding::Otherwise,
            _ if !holds => return Finding::Changed,
            End::Done if bytes >= most || heap.is_marked() => return told,
            End::Done => {}
            End::Memory => told = Finding::Unchanged,
        }
        bytes = more(bytes);
    }
    Finding::Never
}
