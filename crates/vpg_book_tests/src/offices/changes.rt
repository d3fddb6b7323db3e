//! Calls of one or two sessions in one thread: their changes, and their refusals.

use crate::calls::Answer::{
    Added, Done, Forgotten, Has, Is, Kept, NotCommitted, NotDecided, NotRedone, NotReset,
    NotRetracted, NotUndone, Says, Token,
};
use crate::calls::At::{First, Second, Third};
use crate::calls::By::{One, Two};
use crate::calls::RowCall::{
    Calls, Commit, Decide, Forget, Keep, Lift, Order, Page, Redo, Reset, Retract, Settled, Undo,
    Verdict,
};
use crate::calls::Step;
use crate::offices::steps::Day;
use vpg_desk::{CommitFault, DecideFault, RedoFault, ResetFault, RetractFault, UndoFault};
use vpg_small_family::{F, G};

/// One session lifts an opened office's page and looks at it.
const SETTLE: &[Step] = &[
    (One, Order, Done),
    (One, Commit, Added(2)),
    (One, Settled, Is(true)),
    (
        One,
        Page("0 decided / hopeful 0 0 1 / dual 1 0 1 / 1 0 / 0 1 / "),
        Is(true),
    ),
    (One, Verdict(0), Says(false, false)),
    (One, Verdict(1), Says(false, false)),
    (One, Calls, Has(6)),
];

const ALREADY: DecideFault = DecideFault::AlreadyDecided { serial: 1 };

/// Two sessions get the refusals of a desk.
const REFUSE: &[Step] = &[
    (One, Decide(First, F, true), Token(1)),
    (Two, Decide(Second, F, true), NotDecided(ALREADY)),
    (Two, Decide(Second, F, false), NotDecided(ALREADY)),
    (
        One,
        Retract(Second, G),
        NotRetracted(RetractFault::NotDecided),
    ),
    (
        One,
        Retract(Second, 0),
        NotRetracted(RetractFault::NotDecided),
    ),
    (
        One,
        Decide(Second, 3, true),
        NotDecided(DecideFault::UnknownFeature),
    ),
    (One, Calls, Has(6)),
    (One, Keep(First), Kept),
];

/// A harvest is outdated, and is taken once its decision stands again, which another session made.
const OUTDATE: &[Step] = &[
    (One, Decide(First, F, false), Token(1)),
    (One, Order, Done),
    (One, Retract(Second, F), Token(2)),
    (
        One,
        Commit,
        NotCommitted(CommitFault::Outdated { feature: F }),
    ),
    (Two, Decide(Third, F, false), Token(3)),
    (One, Commit, Added(2)),
    (
        One,
        Page("1 decided / exclude f 3 by 2 / hopeful 0 0 2 -f / dual 1 0 1 -f / 2 0 / 0 1 / "),
        Is(true),
    ),
    (Two, Settled, Is(true)),
    (Two, Verdict(0), Says(true, false)),
    (Two, Verdict(1), Says(false, false)),
    (One, Keep(First), Kept),
    (One, Keep(Second), Kept),
    (One, Keep(Third), Kept),
    (One, Calls, Has(13)),
];

/// One session undoes and redoes its change, and another lifts between.
const TURN: &[Step] = &[
    (One, Decide(First, F, false), Token(1)),
    (Two, Order, Done),
    (Two, Commit, Added(2)),
    (One, Undo(First), Token(1)),
    (Two, Page("0 decided / 0 0 / 0 0 / "), Is(true)),
    (Two, Lift(0), Done),
    (Two, Commit, Added(1)),
    (One, Redo(First), Token(1)),
    (
        Two,
        Page("1 decided / exclude f 1 by 1 / hopeful 0 0 2 -f / dual 1 0 1 -f / 2 0 / 0 1 / "),
        Is(true),
    ),
    (One, Undo(First), Token(1)),
    (
        Two,
        Page("0 decided / hopeful 0 0 1 / 1 0 / 0 0 / "),
        Is(true),
    ),
    (One, Forget(First), Forgotten),
    (One, Calls, Has(12)),
];

const LIFTED: &str =
    "2 decided / select f 1 by 1 / select g 2 by 2 / hopeful 0 0 1 +f +g / dual 0 0 2 +f +g \
    / dual 1 0 2 +f +g / 1 0 / 2 2 / ";

/// A reset takes back the decisions of both sessions, and its undo brings them back with their lifts.
const RESET_AND_UNDO: &[Step] = &[
    (Two, Reset(First), NotReset(ResetFault::NotDecided)),
    (One, Decide(First, F, true), Token(1)),
    (Two, Decide(Second, G, true), Token(2)),
    (One, Order, Done),
    (One, Commit, Added(3)),
    (Two, Reset(Third), Token(3)),
    (One, Page("0 decided / 0 0 / 0 0 / "), Is(true)),
    (One, Verdict(0), Says(false, false)),
    (Two, Undo(Third), Token(3)),
    (One, Verdict(0), Says(false, true)),
    (One, Page(LIFTED), Is(true)),
    (Two, Forget(Third), Forgotten),
    (Two, Keep(Second), Kept),
    (One, Keep(First), Kept),
    (One, Calls, Has(14)),
];

/// A retraction drops the lifts that assumed the decision, and its undo brings them back.
const RETRACT_AND_UNDO: &[Step] = &[
    (One, Decide(First, F, true), Token(1)),
    (Two, Decide(Second, G, true), Token(2)),
    (One, Order, Done),
    (One, Commit, Added(3)),
    (Two, Retract(Third, F), Token(3)),
    (
        One,
        Page("1 decided / select g 2 by 2 / 0 0 / 0 0 / "),
        Is(true),
    ),
    (One, Settled, Is(false)),
    (One, Order, Done),
    (One, Commit, Added(2)),
    (One, Verdict(0), Says(false, false)),
    (Two, Undo(Third), Token(3)),
    (One, Verdict(0), Says(false, true)),
    (One, Page(LIFTED), Is(true)),
    (Two, Forget(Third), Forgotten),
    (Two, Keep(Second), Kept),
    (One, Keep(First), Kept),
    (One, Calls, Has(16)),
];

/// A change below a newer one isn't undone, and not below one that is kept.
const SEAL: &[Step] = &[
    (One, Decide(First, F, true), Token(1)),
    (Two, Decide(Second, G, true), Token(2)),
    (
        One,
        Undo(First),
        NotUndone(UndoFault::NotNewest { newest: 2 }),
    ),
    (Two, Keep(Second), Kept),
    (One, Undo(First), NotUndone(UndoFault::Sealed)),
    (One, Keep(First), Kept),
    (One, Calls, Has(6)),
];

/// A change that was undone isn't redone once another session made one.
const OVERTAKE: &[Step] = &[
    (One, Decide(First, F, true), Token(1)),
    (One, Undo(First), Token(1)),
    (Two, Decide(Second, G, true), Token(2)),
    (One, Redo(First), NotRedone(RedoFault::Overtaken)),
    (One, Forget(First), Forgotten),
    (Two, Keep(Second), Kept),
    (Two, Calls, Has(6)),
];

/// Two sessions undo and redo in turns.
const TOKENS: &[Step] = &[
    (One, Decide(First, F, true), Token(1)),
    (Two, Decide(Second, G, true), Token(2)),
    (
        One,
        Undo(First),
        NotUndone(UndoFault::NotNewest { newest: 2 }),
    ),
    (Two, Undo(Second), Token(2)),
    (One, Undo(First), Token(1)),
    (Two, Redo(Second), NotRedone(RedoFault::NotNext { next: 1 })),
    (One, Forget(First), Forgotten),
    (Two, Redo(Second), NotRedone(RedoFault::Overtaken)),
    (Two, Forget(Second), Forgotten),
    (Two, Calls, Has(9)),
];

pub const DAYS: &[Day] = &[
    Day {
        name: "a page is settled",
        room: 10,
        calls: 6,
        before: &[],
        steps: SETTLE,
        closes: true,
    },
    Day {
        name: "sessions are refused",
        room: 10,
        calls: 7,
        before: &[],
        steps: REFUSE,
        closes: true,
    },
    Day {
        name: "a harvest is outdated",
        room: 20,
        calls: 13,
        before: &[],
        steps: OUTDATE,
        closes: true,
    },
    Day {
        name: "pages come back",
        room: 20,
        calls: 12,
        before: &[],
        steps: TURN,
        closes: true,
    },
    Day {
        name: "a retraction is undone",
        room: 20,
        calls: 16,
        before: &[],
        steps: RETRACT_AND_UNDO,
        closes: true,
    },
    Day {
        name: "a reset is undone",
        room: 20,
        calls: 14,
        before: &[],
        steps: RESET_AND_UNDO,
        closes: true,
    },
    Day {
        name: "a kept change seals",
        room: 10,
        calls: 6,
        before: &[],
        steps: SEAL,
        closes: true,
    },
    Day {
        name: "a change overtakes",
        room: 10,
        calls: 6,
        before: &[],
        steps: OVERTAKE,
        closes: true,
    },
    Day {
        name: "tokens of two sessions",
        room: 10,
        calls: 9,
        before: &[],
        steps: TOKENS,
        closes: true,
    },
];
