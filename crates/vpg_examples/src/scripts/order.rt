//! Each answer is written whole before more of the script is asked for.

use crate::family::{Family, outcome};
use std::alloc::Global;
use std::io;
use std::io::{Read, Write};
use std::sync::Wait;
use std::sync::atomic::{AtomicU64, Ordering};
use std::thread::Threads;
use vpg_script::Ending;

const SCRIPT: &[u8] = b"exclude f\n# none\nsettle\n\nshow\n";

/// The number of bytes to be written before each line of the script is read, and before its end is found.
const WANTED: [u64; 6] = [0, 7, 7, 17, 17, 94];

/// The number of bytes written so far, and how often it was not the wanted one.
#[derive(Drop)]
struct Seen {
    written: AtomicU64,
    missed: AtomicU64,
}

/// Gives one byte of the script a call, and looks at the bytes written by then.
#[derive(Drop)]
struct Looks<'t> {
    script: &'static [u8],
    line: usize,
    seen: &'t Seen,
}

impl Read for Looks<'_> {
    fn read(&mut self, buf: &mut [u8]) -> io::Result<usize> {
        if WANTED.get(self.line) != Some(&self.seen.written.load(Ordering::SeqCst)) {
            self.seen.missed.fetch_add(1, Ordering::SeqCst);
        }
        if self.script.is_empty() || buf.is_empty() {
            return Ok(0);
        }
        if self.script[0] == b'\n' {
            self.line = self.line.saturating_add(1);
        }
        buf[0] = self.script[0];
        self.script = &self.script[1..];
        Ok(1)
    }
}

/// Counts the bytes that it takes, a few a call.
#[derive(Drop)]
struct Counts<'t> {
    seen: &'t Seen,
}

impl Write for Counts<'_> {
    fn write(&mut self, buf: &[u8]) -> io::Result<usize> {
        let most = buf.len().min(5);
        self.seen.written.fetch_add(most as u64, Ordering::SeqCst);
        Ok(most)
    }

    fn flush(&mut self) -> io::Result<()> {
        Ok(())
    }
}

/// Runs the script, and says whether it came to its end.
fn ends<T: Threads + Wait + Sync>(rt: &T, alloc: Global, family: &Family, seen: &Seen) -> bool {
    let reader = Looks {
        script: SCRIPT,
        line: 0,
        seen,
    };
    outcome(rt, alloc, family, 1, None, reader, Counts { seen }) == Some(Ok(Ending::Whole))
}

/// Whether each answer to the script is written before more of it is read.
pub(super) fn is_kept<T: Threads + Wait + Sync>(rt: &T, alloc: Global, family: &Family) -> bool {
    let seen = Seen {
        written: AtomicU64::new(0),
        missed: AtomicU64::new(0),
    };
    let ended = ends(rt, alloc, family, &seen);
    let (missed, written) = (
        seen.missed.load(Ordering::SeqCst),
        seen.written.load(Ordering::SeqCst),
    );
    ended && missed == 0 && written == 94
}
