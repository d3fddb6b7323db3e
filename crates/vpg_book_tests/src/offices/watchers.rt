//! Watchers: the sheets that they read, and when.

use crate::calls::Answer::{
    Added, Done, Forgotten, Has, Is, Kept, NotCommitted, NotDecided, NotRedone, NotRetracted,
    NotUndone, Says, Sheet, Token,
};
use crate::calls::At::{First, Second};
use crate::calls::By::{One, Two};
use crate::calls::RowCall::{
    Calls, Commit, Decide, Forget, Keep, Order, Page, Redo, Retract, Sees, Settled, Undo, Verdict,
    Watch, WatchAll,
};
use crate::calls::Step;
use crate::offices::steps::Day;
use vpg_desk::{CommitFault, DecideFault, RedoFault, RetractFault, UndoFault};
use vpg_small_family::{F, G};

/// One session decides and another takes the page. A watch is at the decision, and so is one that is asked for then.
const WATCH_TWO: &[Step] = &[
    (One, Watch, Done),
    (One, Sees, Sheet(0, false)),
    (One, Decide(First, F, true), Token(1)),
    (One, Sees, Sheet(1, false)),
    (
        Two,
        Page("1 decided / select f 1 by 1 / 0 0 / 0 0 / "),
        Is(true),
    ),
    (One, Sees, Sheet(1, false)),
    (One, Watch, Done),
    (One, Sees, Sheet(1, false)),
    (One, Keep(First), Kept),
    (One, Calls, Has(3)),
];

/// One session decides and another takes the page, and then the first watch is asked for: it is at the decision.
const WATCH_LATE: &[Step] = &[
    (One, Decide(First, F, true), Token(1)),
    (
        Two,
        Page("1 decided / select f 1 by 1 / 0 0 / 0 0 / "),
        Is(true),
    ),
    (One, Watch, Done),
    (One, Sees, Sheet(1, false)),
    (One, Keep(First), Kept),
    (One, Calls, Has(3)),
];

/// Each change is seen. Nobody sees that a token is kept or forgotten, nor calls that ask or are refused: an undo, a
/// redo and a harvest that are refused too.
const WATCH_EACH: &[Step] = &[
    (One, Watch, Done),
    (One, Decide(First, F, false), Token(1)),
    (One, Sees, Sheet(1, false)),
    (One, Undo(First), Token(1)),
    (One, Sees, Sheet(2, false)),
    (One, Redo(First), Token(1)),
    (One, Sees, Sheet(3, false)),
    (One, Order, Done),
    (One, Commit, Added(2)),
    (One, Sees, Sheet(5, true)),
    (One, Retract(Second, F), Token(2)),
    (One, Sees, Sheet(6, false)),
    (One, Keep(Second), Kept),
    (One, Keep(First), Kept),
    (One, Sees, Sheet(6, false)),
    (One, Settled, Is(false)),
    (One, Verdict(0), Says(false, false)),
    (One, Page("0 decided / 0 0 / 0 0 / "), Is(true)),
    (One, Order, Done),
    (
        One,
        Decide(First, 3, true),
        NotDecided(DecideFault::UnknownFeature),
    ),
    (
        One,
        Retract(First, F),
        NotRetracted(RetractFault::NotDecided),
    ),
    (One, Sees, Sheet(6, false)),
    (One, Decide(First, F, true), Token(3)),
    (One, Decide(Second, G, true), Token(4)),
    (
        One,
        Undo(First),
        NotUndone(UndoFault::NotNewest { newest: 4 }),
    ),
    (One, Sees, Sheet(16, false)),
    (One, Undo(Second), Token(4)),
    (One, Undo(First), Token(3)),
    (One, Redo(Second), NotRedone(RedoFault::NotNext { next: 3 })),
    (One, Forget(First), Forgotten),
    (One, Forget(Second), Forgotten),
    (One, Sees, Sheet(19, false)),
    (One, Decide(First, F, false), Token(5)),
    (One, Order, Done),
    (One, Retract(Second, F), Token(6)),
    (
        One,
        Commit,
        NotCommitted(CommitFault::Outdated { feature: F }),
    ),
    (One, Sees, Sheet(25, false)),
    (One, Keep(Second), Kept),
    (One, Keep(First), Kept),
];

/// A watch is opened and a change made.
const OPEN: &[Step] = &[(One, Watch, Done), (One, Decide(First, F, true), Token(1))];

/// An office that can't be closed goes on publishing.
const STILL_OPEN: &[Step] = &[
    (One, Sees, Sheet(1, false)),
    (One, Undo(First), Token(1)),
    (One, Sees, Sheet(2, false)),
    (One, Forget(First), Forgotten),
];

const WATCH_OPENING: &[Step] = &[(One, Watch, Done), (One, Sees, Sheet(0, false))];

const WATCH_ALL: &[Step] = &[(One, WatchAll, Is(true))];

/// Once an office is closed or has ended there is no sheet. There are 64 watches and no more, until they are dropped.
pub const DAYS: &[Day] = &[
    Day {
        name: "a watch is at the last change",
        room: 10,
        calls: 3,
        before: &[],
        steps: WATCH_TWO,
        closes: true,
    },
    Day {
        name: "the first watch is at the last change",
        room: 10,
        calls: 3,
        before: &[],
        steps: WATCH_LATE,
        closes: true,
    },
    Day {
        name: "a watch sees changes alone",
        room: 30,
        calls: 28,
        before: &[],
        steps: WATCH_EACH,
        closes: true,
    },
    Day {
        name: "a watch ends as the office is closed",
        room: 10,
        calls: 3,
        before: OPEN,
        steps: STILL_OPEN,
        closes: true,
    },
    Day {
        name: "a watch ends with the office",
        room: 10,
        calls: 0,
        before: &[],
        steps: WATCH_OPENING,
        closes: false,
    },
    Day {
        name: "the last watch is the 64th",
        room: 1,
        calls: 0,
        before: &[],
        steps: WATCH_ALL,
        closes: true,
    },
];
