//! Runs over a reader and a writer that fail at one of their calls.

use crate::devices::{Gives, Takes};
use crate::family::{Family, outcome};
use std::alloc::Global;
use std::sync::Wait;
use std::thread::Threads;
use vpg_scarce::{Heap, MOST_TRIES, more};
use vpg_script::{Ending, RunFault};

/// A script that decides, settles and shows.
const SCRIPT: &[u8] = b"exclude f\nsettle\nshow\ntrail\n";

/// Its answers.
const ANSWERS: &[u8] =
    b"done 1\nsettled 2\ndecisions -f\nfull no\nsettled yes\n0 2 0 hopeless unsure\n1 0 1 possible unsure
exclude f 1\nhopeful 0 0 2 -f\ndual 1 0 1 -f\nentries 3\n";

/// After how many bytes of the script how many bytes of the answers are written.
const WRITTEN: [(usize, usize); 5] = [(0, 0), (10, 7), (17, 17), (22, 94), (28, 147)];

/// Returns how many bytes are answered to this many bytes of the script.
fn written_after(bytes: usize) -> usize {
    let mut written = 0;
    for (after, answered) in WRITTEN {
        if after <= bytes {
            written = answered;
        }
    }
    written
}

/// Whether a run with a reader that fails after this many bytes ends so, after the answers to the whole lines read.
fn reads_so_far<R: Threads + Wait + Sync>(
    rt: &R,
    alloc: Global,
    family: &Family,
    calls: usize,
) -> bool {
    let gives = Gives {
        script: SCRIPT,
        bytes: 1,
        calls,
        fails: true,
    };
    let mut got = Vec::new(alloc);
    let takes = Takes {
        got: &mut got,
        bytes: 7,
        calls: usize::MAX,
    };
    let ended = outcome(rt, alloc, family, 1, None, gives, takes);
    ended == Some(Err(RunFault::Read))
        && got.len() == written_after(calls)
        && ANSWERS.starts_with(&got)
}

/// Whether a run ends so if its writer fails at this call, after as many bytes of the answers as were taken. Its reader
/// gives and its writer takes these numbers of bytes a call.
fn writes_so_far<R: Threads + Wait + Sync>(
    rt: &R,
    alloc: Global,
    family: &Family,
    given: usize,
    bytes: usize,
    calls: usize,
) -> bool {
    let gives = Gives {
        script: SCRIPT,
        bytes: given,
        calls: usize::MAX,
        fails: false,
    };
    let mut got = Vec::new(alloc);
    let takes = Takes {
        got: &mut got,
        bytes,
        calls,
    };
    let ended = outcome(rt, alloc, family, 1, None, gives, takes);
    if ended == Some(Ok(Ending::Whole)) {
        return got.as_slice() == ANSWERS;
    }
    ended == Some(Err(RunFault::Write)) && got.len() < ANSWERS.len() && ANSWERS.starts_with(&got)
}

/// Whether a reader may fail at each of its calls.
pub(crate) fn reads<R: Threads + Wait + Sync>(rt: &R, alloc: Global, family: &Family) -> bool {
    for calls in 0..=SCRIPT.len() {
        if !reads_so_far(rt, alloc, family, calls) {
            return false;
        }
    }
    true
}

/// Whether a writer that takes this many bytes a call may fail at each of its calls, with a reader that gives this
/// many.
pub(crate) fn writes<R: Threads + Wait + Sync>(
    rt: &R,
    alloc: Global,
    family: &Family,
    given: usize,
    bytes: usize,
) -> bool {
    for calls in 0..=ANSWERS.len() {
        if !writes_so_far(rt, alloc, family, given, bytes, calls) {
            return false;
        }
    }
    true
}

/// A run with a reader that fails after a number of bytes, or a writer that fails at this call.
#[derive(Clone, Copy)]
enum Broken {
    Reader(usize),
    Writer(usize),
}

/// Returns the result of a run with this much memory over such a device.
fn broken_within<R: Threads + Wait + Sync>(
    rt: &R,
    heap: &mut Heap,
    family: &Family,
    broken: Broken,
    got: &mut Vec<u8>,
    bytes: usize,
) -> Option<Result<Ending, RunFault>> {
    let (given, fails, taken) = match broken {
        Broken::Reader(calls) => (calls, true, usize::MAX),
        Broken::Writer(calls) => (usize::MAX, false, calls),
    };
    let gives = Gives {
        script: SCRIPT,
        bytes: 1,
        calls: given,
        fails,
    };
    got.clear();
    let takes = Takes {
        got,
        bytes: usize::MAX,
        calls: taken,
    };
    heap.leave(bytes);
    let ended = outcome(rt, heap.alloc(), family, 1, None, gives, takes);
    heap.relax();
    ended
}

/// Whether runs with more and more memory over such a device end in `Memory`, and then as the device fails, each after
/// a prefix of the answers. With more memory than that they come no further.
fn breaks_so_far<R: Threads + Wait + Sync>(
    rt: &R,
    heap: &mut Heap,
    family: &Family,
    broken: Broken,
    got: &mut Vec<u8>,
) -> bool {
    let mut bytes = 0;
    for _ in 0..MOST_TRIES {
        let ended = broken_within(rt, heap, family, broken, got, bytes);
        if !ANSWERS.starts_with(got) {
            return false;
        }
        match ended {
            Some(Err(RunFault::Memory)) => bytes = more(bytes),
            Some(Err(RunFault::Read)) => return matches!(broken, Broken::Reader(_)),
            Some(Err(RunFault::Write)) => return matches!(broken, Broken::Writer(_)),
            Some(Ok(Ending::Whole)) => return got.as_slice() == ANSWERS
                && matches!(broken, Broken::Writer(_)),
            _ => return false,
        }
    }
    false
}

/// Whether each growth may be refused beside a reader that may fail after each line.
pub(crate) fn reads_with_little<R: Threads + Wait + Sync>(
    rt: &R,
    heap: &mut Heap,
    family: &Family,
    got: &mut Vec<u8>,
) -> bool {
    for (calls, _) in WRITTEN {
        if !breaks_so_far(rt, heap, family, Broken::Reader(calls), got) {
            return false;
        }
    }
    true
}

/// Whether each growth may be refused beside a writer that may fail at each answer.
pub(crate) fn writes_with_little<R: Threads + Wait + Sync>(
    rt: &R,
    heap: &mut Heap,
    family: &Family,
    got: &mut Vec<u8>,
) -> bool {
    for calls in 0..WRITTEN.len() {
        if !breaks_so_far(rt, heap, family, Broken::Writer(calls), got) {
            return false;
        }
    }
    true
}
