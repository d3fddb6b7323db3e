//! Whole runs of a script with little memory.

use crate::devices::{Gives, Takes};
use crate::family::{Family, outcome};
use std::sync::Wait;
use std::thread::Threads;
use vpg_scarce::{Finding, Heap, MOST_TRIES, Report, more};
use vpg_script::{Ending, RunFault};

/// A line for each command.
const SCRIPT: &[u8] = b"\
    exclude f\nharvest\n2: select g\ncommit 1\nlift dual 1\nundo 2\nredo 2\nundo 2\nforget 2\n\
    retract f\nundo\nredo\nkeep 3\nkeep 1\nselect f\nselect g\nsettle\nshow\nshow 1\ntrail\nproducts\n\
    known f\nplan\ncount\nassert 0 possible\nassert full\nretract g\nexclude f\nwhy 0\nwhy r\nwhy +f\n\
    example 0\ncounterexample 1\noffer 0\nneeds 0\nretract f\nexclude f\nsettle\nwhy 0\nrepair 0\n\
    winners 1\ndecide 1\nnumber\n";

/// Its answers.
const ANSWERS: &[u8] = b"\
    done 1\nharvest 1\ndone 2\nadded 2\nadded 0\nundone 2\nredone 2\nundone 2\nforgotten 2\ndone 3\n\
    undone 3\nredone 3\nkept 3\nkept 1\ndone 4\ndone 5\nsettled 3\ndecisions +f +g\nfull yes\n\
    settled yes\n0 1 2 possible sure\n1 0 2 possible sure\n1 0 2 possible sure\nselect f 4\nselect g 5\n\
    hopeful 0 0 1 +f +g\ndual 0 0 2 +f +g\ndual 1 0 2 +f +g\nentries 5\nin r f g\nout\nopen\nin f\n\
    plan 0 1\nplans 1\nhopeless 0\npossible 2\nsure 2\nunsure 0\nsettled yes\nfull yes\nholds\nholds\n\
    done 6\nrefused AlreadyDecided 4\npossible 0\nunsure 0\nin r\nrefused NoConflict\nproduct r f g\n\
    none\noffer +g possible sure won\noffer -g possible sure won\noffers 2\nneeds 0\ndone 7\ndone 8\nsettled 2\n\
    hopeless 0 -f\nunsure 0\nrepair -f\nrepairs 1\nlost 1 +g 1\nwon 1 -g 1\nwinners 1 1 1\nmixed 1\n\
    product r\nproduct r g\nnumber 2\n";

/// More than the answers have bytes.
pub(crate) const MOST_BYTES: usize = 8192;

/// Runs the script with this much memory, and returns the result.
fn run_within<R: Threads + Wait + Sync>(
    rt: &R,
    heap: &mut Heap,
    family: &Family,
    lifters: u32,
    got: &mut Vec<u8>,
    bytes: usize,
) -> Option<Result<Ending, RunFault>> {
    let gives = Gives {
        script: SCRIPT,
        bytes: 1,
        calls: usize::MAX,
        fails: false,
    };
    got.clear();
    let takes = Takes {
        got,
        bytes: MOST_BYTES,
        calls: usize::MAX,
    };
    heap.leave(bytes);
    let ended = outcome(rt, heap.alloc(), family, lifters, None, gives, takes);
    heap.relax();
    ended
}

/// Returns the result of running the script with more and more memory: each time the written text is a prefix of the
/// answers, and at last all of them.
fn run_often<R: Threads + Wait + Sync>(
    rt: &R,
    heap: &mut Heap,
    family: &Family,
    lifters: u32,
    got: &mut Vec<u8>,
) -> Finding {
    let mut bytes = 0;
    for tries in 0..MOST_TRIES {
        let ended = run_within(rt, heap, family, lifters, got, bytes);
        if !ANSWERS.starts_with(got) {
            return Finding::Changed;
        }
        match ended {
            Some(Ok(_)) if got.len() < ANSWERS.len() => return Finding::Changed,
            Some(Ok(_)) if tries == 0 => return Finding::TakesNone,
            Some(Ok(_)) => return Finding::Unchanged,
            Some(Err(RunFault::Memory)) => bytes = more(bytes),
            _ => return Finding::Otherwise,
        }
    }
    Finding::Never
}

/// Runs the script with little memory, by one lifter and by two.
pub(crate) fn refuse<R: Threads + Wait + Sync>(
    rt: &R,
    heap: &mut Heap,
    report: &mut Report,
    family: &Family,
) -> Option<()> {
    let mut got = Vec::with_capacity(heap.alloc(), MOST_BYTES).ok()?;
    let told = run_often(rt, heap, family, 1, &mut got);
    report.note(heap, "run by one lifter", told);
    let told = run_often(rt, heap, family, 2, &mut got);
    report.note(heap, "run by two lifters", told);
    Some(())
}
