//! Calls that a log takes: up to its room, one call of a session since the front that it lends, and 1,024 sessions.

use crate::calls::Answer::{Doubled, Full, Has, Is, Joined, Says, Token};
use crate::calls::At::First;
use crate::calls::By::{One, Two};
use crate::calls::RowCall::{
    Calls, Decide, EarlyCalls, Join, JoinAll, Meet, Page, Settled, SettledEarly, Verdict,
};
use crate::calls::Step;
use crate::offices::steps::Day;
use vpg_small_family::F;

/// Two sessions fill a log of room 4. Then it refuses, and the other front meets the one of all calls.
const FILL: &[Step] = &[
    (One, Calls, Has(0)),
    (One, Decide(First, F, true), Token(1)),
    (One, Calls, Has(1)),
    (
        Two,
        Page("1 decided / select f 1 by 1 / 0 0 / 0 0 / "),
        Is(true),
    ),
    (Two, Calls, Has(2)),
    // by the front of before its last call
    (One, SettledEarly, Doubled(2)),
    (One, EarlyCalls, Has(0)),
    (One, Settled, Is(false)),
    (One, Calls, Has(3)),
    (Two, Verdict(0), Says(false, false)),
    (Two, Calls, Has(4)),
    (Two, Settled, Full(4)),
    (One, Meet, Has(4)),
    (One, Join, Joined(3, 4)),
];

/// The session's front has all calls, though the office can't be closed.
const FILLED: &[Step] = &[(One, EarlyCalls, Has(4)), (Two, Calls, Has(4))];

const JOIN_ALL: &[Step] = &[(One, JoinAll, Is(true))];

pub const DAYS: &[Day] = &[
    Day {
        name: "a log fills",
        room: 4,
        calls: 4,
        before: FILL,
        steps: FILLED,
        closes: false,
    },
    Day {
        name: "the last session is the 1,024th",
        room: 1,
        calls: 0,
        before: &[],
        steps: JOIN_ALL,
        closes: true,
    },
];
