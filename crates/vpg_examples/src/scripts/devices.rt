//! Runs that end before their script does.

use super::runs::ends_so;
use crate::devices::{Gives, whole};
use crate::family::Family;
use std::alloc::Global;
use std::io;
use std::io::Read;
use std::sync::Wait;
use std::thread::Threads;
use vpg_desk::OpenFault;
use vpg_script::{Ending, LineFault, RunFault};

/// Gives `#` and a line feed in turn, one byte a call, a number of times or for ever.
#[derive(Drop)]
struct Comments {
    feed: bool,
    left: Option<u32>,
}

impl Read for Comments {
    fn read(&mut self, buf: &mut [u8]) -> io::Result<usize> {
        if buf.is_empty() {
            return Ok(0);
        }
        match self.left {
            Some(0) => return Ok(0),
            Some(left) => self.left = Some(left - 1),
            None => {}
        }
        buf[0] = if self.feed { b'\n' } else { b'#' };
        self.feed = !self.feed;
        Ok(1)
    }
}

/// Whether a plain run over a reader ends so, and answers just this.
fn is_answered<T: Threads + Wait + Sync, R: Read + Drop>(
    rt: &T,
    alloc: Global,
    family: &Family,
    reader: R,
    ended: Result<Ending, RunFault>,
    answers: &[u8],
) -> bool {
    ends_so(rt, alloc, family, 1, None, reader, ended, answers)
}

/// Whether a run over this many `#` without a line's end ends so, without an answer.
fn is_comment<T: Threads + Wait + Sync>(
    rt: &T,
    alloc: Global,
    family: &Family,
    bytes: usize,
    ended: Result<Ending, RunFault>,
) -> bool {
    match vec![in alloc; b'#'; bytes] {
        Ok(text) => is_answered(rt, alloc, family, whole(&text), ended, b""),
        Err(_) => false,
    }
}

/// Whether a run ends at a faulty line, after the answers to those before it.
pub(super) fn ends_at_a_faulty_line<T: Threads + Wait + Sync>(
    rt: &T,
    alloc: Global,
    family: &Family,
) -> bool {
    let script = whole(b"show\nfrob\nshow\n");
    let ended = Err(RunFault::Line {
        line: 2,
        fault: LineFault::Word,
    });
    let answers = b"decisions\nfull no\nsettled no\n0 0 0 possible unsure\n1 0 0 possible unsure\n";
    is_answered(rt, alloc, family, script, ended, answers)
}

/// Whether a line of 4,097 bytes is refused, and one of 4,096 is not.
pub(super) fn has_a_longest_line<T: Threads + Wait + Sync>(
    rt: &T,
    alloc: Global,
    family: &Family,
) -> bool {
    let ended = Err(RunFault::Line {
        line: 1,
        fault: LineFault::TooLong,
    });
    is_comment(rt, alloc, family, 4097, ended)
        && is_comment(rt, alloc, family, 4096, Ok(Ending::Whole))
}

/// Whether a reader may be called 16,777,216 times, with the end found by the last call, and no more often.
pub(super) fn counts_reads<T: Threads + Wait + Sync>(
    rt: &T,
    alloc: Global,
    family: &Family,
) -> bool {
    let most = Comments {
        feed: true,
        left: Some(16_777_215),
    };
    let endless = Comments {
        feed: false,
        left: None,
    };
    is_answered(rt, alloc, family, most, Ok(Ending::Whole), b"")
        && is_answered(rt, alloc, family, endless, Err(RunFault::Read), b"")
}

/// Appends a line a number of times, or answers that there was no memory.
fn put_times(line: &[u8], times: u32, out: &mut Vec<u8>) -> bool {
    let mut done = true;
    for _ in 0..times {
        done &= out.extend_from_slice(line).is_ok();
    }
    done
}

/// The number of calls that the log of a run takes.
const ROOM: u32 = 1_048_576;

/// Whether the log of a run takes 1,048,576 calls and no more: each line is one, and is read by itself.
pub(super) fn fills_its_log<T: Threads + Wait + Sync>(
    rt: &T,
    alloc: Global,
    family: &Family,
) -> bool {
    let (mut script, mut answers) = (Vec::new(alloc), Vec::new(alloc));
    let line = b"select f\n";
    let done = put_times(line, ROOM + 1, &mut script)
        & put_times(b"done 1\n", 1, &mut answers)
        & put_times(b"refused AlreadyDecided 1\n", ROOM - 1, &mut answers)
        & put_times(b"refused LogFull\n", 1, &mut answers);
    let reader = Gives {
        script: &script,
        bytes: line.len(),
        calls: usize::MAX,
        fails: false,
    };
    done && is_answered(rt, alloc, family, reader, Ok(Ending::Whole), &answers)
}

/// Whether no office is opened on a family with a diagram that contradicts itself.
pub(super) fn is_not_opened<T: Threads + Wait + Sync>(rt: &T, alloc: Global) -> bool {
    let diagram = b"root r\nmandatory r a\nexcludes r a\n";
    let ended = Err(RunFault::Open {
        fault: OpenFault::Conflict { feature: 0 },
    });
    match Family::read(alloc, diagram, b"0 0 0 0;") {
        Ok(family) => is_answered(rt, alloc, &family, whole(b"show\n"), ended, b""),
        Err(_) => false,
    }
}
