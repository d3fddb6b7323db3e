//! Sweeps of the game of two vertices by 1 to 64 lifters, and lifters that wait for one another.

use crate::given::require_at;
use crate::harvests::How::{Sweep, Swept};
use crate::harvests::{Turn, in_turn};
use std::process::Abort;
use std::sync::Wait;
use std::sync::atomic::{AtomicU64, Ordering};
use std::test::*;
use std::thread;
use std::thread::Threads;
use vpg_board::{Gate, OpenGate};

const MOST_TURNS: u64 = 1_000_000;

/// The event that a lifter waits for in its first claim.
#[derive(Clone, Copy)]
enum Until {
    /// Nothing.
    Now,
    /// This many lifters have come.
    All(u32),
    /// Lifter 1 waits until lifter 2 has lifted, and lifter 2 until lifter 1 has come.
    Relay,
}

/// The meeting of lifters: each waits in its first claim, and each first claim that went on in time is counted.
#[derive(Drop)]
struct Meeting {
    until: Until,
    // one bit for each lifter that came, from lifter 1
    come: AtomicU64,
    passed: AtomicU64,
    // whether lifter 2 has lifted
    lifted: AtomicU64,
}

impl Meeting {
    /// Whether this lifter need not wait.
    fn may_pass(&self, lifter: u32) -> bool {
        let come = self.come.load(Ordering::SeqCst);
        match self.until {
            Until::Now => true,
            Until::All(lifters) => come.count_ones() >= lifters,
            Until::Relay => {
                if lifter == 1 {
                    self.lifted.load(Ordering::SeqCst) != 0
                } else {
                    come & 1 != 0
                }
            }
        }
    }
}

impl Gate for Meeting {
    fn before_claim(&self, lifter: u32) {
        if lifter < 1 || 64 < lifter {
            return;
        }
        let mark = 1u64 << (lifter - 1);
        if self.come.fetch_or(mark, Ordering::SeqCst) & mark != 0 {
            return;
        }
        for _ in 0..MOST_TURNS {
            if self.may_pass(lifter) {
                self.passed.fetch_add(1, Ordering::SeqCst);
                return;
            }
            thread::yield_now();
        }
    }

    fn after_lift(&self, lifter: u32) {
        if lifter == 2 {
            self.lifted.store(1, Ordering::SeqCst);
        }
    }
}

/// The tables of the small game without decisions, settled.
const SETTLED: [[u64; 2]; 2] = [[1, 0], [0, 1]];

const BY_TWO: Turn = (Sweep(2), SETTLED, true);

const BY_FOUR: Turn = (Sweep(4), SETTLED, true);

/// Sweeps of the small game.
struct Row {
    until: Until,
    turns: &'static [Turn],
    /// Which lifters come: one bit for each.
    come: u64,
    /// The number of first claims that go on in time, if lifters wait for one another.
    passed: Option<u64>,
}

/// A second sweep leaves the tables as they are. A sweep has as many lifters as were asked for.
const ROWS: &[Row] = &[
    Row {
        until: Until::Relay,
        turns: &[BY_TWO, BY_TWO],
        come: 3,
        passed: Some(2),
    },
    Row {
        until: Until::All(4),
        turns: &[BY_FOUR, BY_FOUR],
        come: 15,
        passed: Some(4),
    },
    Row {
        until: Until::Now,
        turns: &[(Swept(1), SETTLED, true)],
        come: 1,
        passed: None,
    },
    Row {
        until: Until::Now,
        turns: &[(Swept(2), SETTLED, true)],
        come: 3,
        passed: None,
    },
    Row {
        until: Until::Now,
        turns: &[(Swept(4), SETTLED, true)],
        come: 15,
        passed: None,
    },
    Row {
        until: Until::Now,
        turns: &[(Swept(64), SETTLED, true)],
        come: u64::MAX,
        passed: None,
    },
];

/// Sweeps the small game, and stops if others come, or go on, than have to.
fn meet<R: Threads + Wait + Abort + AllocGlobal + Sync>(rt: &R, row: &Row, k: usize) {
    let meeting = Meeting {
        until: row.until,
        come: AtomicU64::new(0),
        passed: AtomicU64::new(0),
        lifted: AtomicU64::new(0),
    };
    in_turn(rt, &meeting, &[], row.turns);
    let passed = meeting.passed.load(Ordering::SeqCst);
    let come = meeting.come.load(Ordering::SeqCst);
    require_at(rt, come == row.come, "lifters that come", k);
    let go_on = row.passed.is_none() || row.passed == Some(passed);
    require_at(rt, go_on, "lifters that go on", k);
}

fn all_meet<R: Threads + Wait + Abort + AllocGlobal + Sync>(rt: &R) {
    for k in 0..ROWS.len() {
        meet(rt, &ROWS[k], k);
    }
}

#[test]
fn a_sweep_has_as_many_lifters_as_were_asked_for(rt: HostRuntime) {
    all_meet(&rt);
    for lifters in 1..65 {
        let turn = (Sweep(lifters), SETTLED, true);
        in_turn(&rt, &OpenGate, &[], &[turn, turn]);
    }
}
