//! A watcher in a thread of its own: it prints the verdicts of a vertex as they change, until the office has ended.
use std::io;
use std::sync::Wait;
use std::sync::atomic::{AtomicU64, Ordering};
use std::thread::yield_now;
use vpg_office::{Front, Terms, read};
use vpg_sides::Verdict;
use vpg_watch::Watch;

/// The number of times that a session looks whether the watcher has read its call.
const MOST_LOOKS: u32 = 10_000_000;

/// Returns the number of calls of the sheet that is shown, and its verdict of vertex 0. Nothing once the office has
/// ended.
fn told<L: Terms>(watch: &mut Watch<Front<L>>) -> Option<(u32, Verdict)> {
    let sheet = read(watch).ok()?;
    let verdict = sheet.verdicts.as_slice().first()?;
    Some((sheet.at, *verdict))
}

fn print_verdict<R: Print>(rt: &R, verdict: Verdict) -> io::Result<()> {
    let hopeless = if verdict.hopeless {
        "hopeless"
    } else {
        "possible"
    };
    let sure = if verdict.sure { "sure" } else { "unsure" };
    println!(rt; "vertex 0 {hopeless} {sure}")
}

/// Prints the verdicts of vertex 0 as they change, and notes one more than the number of calls of the sheet that was
/// read last. It ends when the office has ended, and says whether all was printed.
pub fn follow<L: Terms, R: Wait + Print>(rt: &R, watch: Watch<Front<L>>, seen: &AtomicU64) -> bool {
    let mut watch = watch;
    let mut last = None;
    for _ in rt.forever() {
        let Some((at, verdict)) = told(&mut watch) else {
            return true;
        };
        if last != Some(verdict) {
            if print_verdict(rt, verdict).is_err() {
                return false;
            }
            last = Some(verdict);
        }
        seen.store(u64::from(at) + 1, Ordering::SeqCst);
        yield_now();
    }
    unreachable!()
}

/// Waits until the watcher has read a sheet of this many calls, but not for ever: a sheet that finds no memory is left
/// out, and is not made later. Its verdicts can be read nowhere else, so then the watcher's lines can't be whole.
pub fn is_read(seen: &AtomicU64, calls: usize) -> bool {
    for _ in 0..MOST_LOOKS {
        if seen.load(Ordering::SeqCst) > calls as u64 {
            return true;
        }
        yield_now();
    }
    false
}
