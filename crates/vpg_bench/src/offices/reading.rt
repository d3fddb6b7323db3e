//! Reading beside sessions that change the page: by watches, and of the same sheet under a mutex.
use std::sync::atomic::{AtomicU64, Ordering};
use std::sync::{Arc, Mutex, Wait};
use vpg_office::{Front, Terms, read};
use vpg_watch::{Sheet, Watch};

/// The sheet of an office that a session last put there.
pub type Shown<L> = Mutex<Option<Arc<Sheet<Front<L>>>>>;

/// Returns a further owner of the sheet that is shown.
fn again<L: Terms>(shown: &Option<Arc<Sheet<Front<L>>>>) -> Option<Arc<Sheet<Front<L>>>> {
    match shown {
        Some(sheet) => Arc::try_clone(sheet).ok(),
        None => None,
    }
}

/// Whether the watch reads a sheet with verdicts; without a watch, whether one is shown under the mutex.
fn reads<L: Terms, R: Wait>(rt: &R, watch: &mut Option<Watch<Front<L>>>, shown: &Shown<L>) -> bool {
    let sheet = match watch {
        Some(watch) => read(watch).ok(),
        None => again(&shown.lock(rt)),
    };
    match sheet {
        Some(sheet) => !sheet.verdicts.as_slice().is_empty(),
        None => false,
    }
}

/// Reads so until the changes have ended. Returns how many sheets.
pub fn read_on<L: Terms, R: Wait>(
    rt: &R,
    watch: &mut Option<Watch<Front<L>>>,
    shown: &Shown<L>,
    ended: &AtomicU64,
) -> u64 {
    let mut count = 0u64;
    for _ in rt.forever() {
        if ended.load(Ordering::SeqCst) != 0 {
            return count;
        }
        if reads(rt, watch, shown) {
            count = count.saturating_add(1);
        }
    }
    unreachable!()
}

/// Puts the sheet that a watch reads under the mutex, if there is a watch. Returns whether no sheet was missing.
pub fn show<L: Terms, R: Wait>(
    rt: &R,
    watch: &mut Option<Watch<Front<L>>>,
    shown: &Shown<L>,
) -> bool {
    match watch {
        Some(watch) => match read(watch) {
            Ok(sheet) => {
                *shown.lock(rt) = Some(sheet);
                true
            }
            Err(_) => false,
        },
        None => true,
    }
}
