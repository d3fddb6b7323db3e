//! A day of two sessions of one office, each in a thread of its own: one lifts while the other decides. Then the page
//! is settled, and the decision is undone by its token.

use crate::offices::watcher::is_read;
use crate::offices::{Done, Left, Stopped};
use std::alloc::Global;
use std::sync::Wait;
use std::sync::atomic::AtomicU64;
use std::thread::{Threads, join};
use vpg_faults::Returned;
use vpg_measure::Harvest;
use vpg_office::{Office, Terms};
use vpg_scarce::{End, HeldToken, OfficeCall, Seat, end_of, joined, made};

/// The feature that is decided.
const FEATURE: u16 = 1;

/// Drops a harvest that isn't taken, here alone.
fn let_go(_harvest: Harvest) {}

/// Takes an order, lifts until both tables are settled, and commits. Returns how many lifts that added.
fn lifts<L: Terms, R: Wait>(
    rt: &R,
    alloc: Global,
    office: &Office<L>,
    seat: &mut Seat<L>,
) -> Option<u32> {
    let order = seat.session.order(rt, alloc, office, &mut seat.front).ok()?;
    let harvest = Harvest::alone(order, 1000);
    match seat
        .session
        .commit(rt, alloc, office, &mut seat.front, harvest)
    {
        Ok(added) => Some(added),
        Err(Returned { fault, value }) => {
            end_of(fault);
            let_go(value);
            None
        }
    }
}

/// Lifts as `lifts` does, by a session of its own.
fn lifts_once<L: Terms, R: Wait>(
    rt: &R,
    alloc: Global,
    office: &Office<L>,
    mut seat: Seat<L>,
) -> Option<u32> {
    lifts(rt, alloc, office, &mut seat)
}

/// One session lifts while the other decides the feature out. Returns how many lifts that added, the token of the
/// decision, and the call's end.
fn works<L: Terms + Send + Sync, R: Threads + Wait + Sync>(
    rt: &R,
    alloc: Global,
    office: &Office<L>,
    lifter: Seat<L>,
    decider: &mut Seat<L>,
) -> (Option<u32>, (HeldToken<L>, End)) {
    let (lifted, decided) = join(
        rt,
        || lifts_once(rt, alloc, office, lifter),
        || {
            made(
                rt,
                alloc,
                office,
                decider,
                HeldToken::Nothing,
                OfficeCall::Decide(FEATURE, false),
            )
        },
    );
    (lifted, decided)
}

/// Settles the page, and undoes the decision once the watcher has read the sheet. After that it waits for the watcher
/// again. Returns the token that is held then, or why that was not done.
fn settles_and_undoes<L: Terms, R: Wait>(
    rt: &R,
    alloc: Global,
    office: &Office<L>,
    seat: &mut Seat<L>,
    held: HeldToken<L>,
    seen: &AtomicU64,
) -> (HeldToken<L>, Option<Stopped>) {
    if lifts(rt, alloc, office, seat).is_none() {
        return (held, Some(Stopped::Refused));
    }
    if !is_read(seen, seat.front.len()) {
        return (held, Some(Stopped::Unseen));
    }
    let (held, _) = made(rt, alloc, office, seat, held, OfficeCall::Undo);
    let stopped = if !is_undone(&held) {
        Some(Stopped::Refused)
    } else if !is_read(seen, seat.front.len()) {
        Some(Stopped::Unseen)
    } else {
        None
    };
    (held, stopped)
}

/// Whether a decision was undone.
fn is_undone<L: Terms>(held: &HeldToken<L>) -> bool {
    matches!(held, HeldToken::Redo(_))
}

/// Returns the result of the work of two.
fn done_by_two(
    stopped: Option<Stopped>,
    added: Option<u32>,
    undone: bool,
) -> Result<Done, Stopped> {
    match (stopped, added) {
        (None, Some(added)) => Ok(Done::TwoSessions { added, undone }),
        (Some(stopped), _) => Err(stopped),
        (None, None) => Err(Stopped::Refused),
    }
}

/// Two sessions work, and the decision is undone. Returns how many lifts were added, and the token that is left.
fn work_of<L: Terms + Send + Sync, R: Threads + Wait + Sync>(
    rt: &R,
    alloc: Global,
    office: &Office<L>,
    lifter: Seat<L>,
    decider: &mut Seat<L>,
    seen: &AtomicU64,
) -> Left<L> {
    let (added, (held, end)) = works(rt, alloc, office, lifter, decider);
    let (held, stopped) = if end == End::Done {
        settles_and_undoes(rt, alloc, office, decider, held, seen)
    } else {
        (held, Some(Stopped::Refused))
    };
    (done_by_two(stopped, added, is_undone(&held)), held)
}

/// Two sessions join and work, once the watcher has read the sheet of the opening.
pub(crate) fn work_in_two<L: Terms + Send + Sync, R: Threads + Wait + Sync>(
    rt: &R,
    alloc: Global,
    office: &Office<L>,
    seen: &AtomicU64,
) -> Left<L> {
    if !is_read(seen, 0) {
        return (Err(Stopped::Unseen), HeldToken::Nothing);
    }
    match joined(rt, office) {
        Some(lifter) => match joined(rt, office) {
            Some(mut decider) => work_of(rt, alloc, office, lifter, &mut decider, seen),
            None => (Err(Stopped::Refused), HeldToken::Nothing),
        },
        None => (Err(Stopped::Refused), HeldToken::Nothing),
    }
}
