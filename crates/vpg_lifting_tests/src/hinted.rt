//! The answers of lifts, the moments at which a gate is called, and the vertices that hints name, on a ring that rises
//! lift by lift.

ghost use Rattle.std.specs.Prelude.{◌≡◌, ◌≤◌};
ghost use Rattle.vpg_board.specs.Places.{vertices};

use crate::boards::board_of;
use crate::given::{given, require, require_at};
use crate::harvests::few;
use crate::starts::{ROOT, let_go, order_from};
use std::process::Abort;
use std::sync::Wait;
use std::sync::atomic::{AtomicU64, Ordering};
use std::test::*;
use std::thread;
use std::thread::Threads;
use vpg_board::{Board, Gate, Predecessors, Seat, sweep, sweep_along};
use vpg_measure::{Harvest, Order};
use vpg_sides::Which;
use vpg_sides::Which::{Dual, Hopeful};

/// Three vertices of Even in a ring, of priority 1: the top of the hopeful table is 4, that of the dual one is 1.
const RING: &[u8] = b"0 1 0 1; 1 1 0 2; 2 1 0 0;";

/// The number of the ring's vertices.
const AROUND: u32 = 3;

/// A vertex that is lifted, and whether that raises it.
type Lift = (Which, u32, bool);

/// Vertices come again after those that they lead to were raised, until all have the top.
const LIFTS: &[Lift] = &[
    (Hopeful, 0, true),
    (Hopeful, 0, false),
    (Hopeful, 2, true),
    (Dual, 0, false),
    (Hopeful, 1, true),
    (Hopeful, 0, true),
    (Hopeful, 2, true),
    (Dual, 2, false),
    (Hopeful, 1, true),
    (Hopeful, 0, false),
    (Hopeful, 2, false),
];

/// Whether the lifts of a seat answer so.
fn lifts_answer(board: &Board, seat: &mut Seat, count: u32, lifts: &[Lift]) -> bool
    requires board { seat.old.board ≡ board.now }
    requires count { count ≤ vertices board.now.order }
    ensures { seat.new.board ≡ board.now }
{
    let mut answer = true;
    for k in 0..lifts.len() {
        let (which, v, raises) = lifts[k];
        if v < count {
            let rose = board.lift(seat, which, v);
            answer &= rose == raises;
        }
    }
    answer
}

/// Whether a harvest has these tables.
fn has_tables(harvest: &Harvest, hopeful: &[u64], dual: &[u64]) -> bool {
    harvest.table(Hopeful).values() == hopeful && harvest.table(Dual).values() == dual
}

fn ring<R: Abort + AllocGlobal>(rt: &R) -> Order {
    order_from(rt, ROOT, RING, &[])
}

#[test]
fn a_lift_says_whether_it_raised(rt: HostRuntime) {
    let order = ring(&rt);
    let count = order.game().vertices() as u32;
    require(&rt, count == AROUND, "a ring of three");
    let (board, mut seat) = board_of(&rt, order);
    let answer = lifts_answer(&board, &mut seat, count, LIFTS);
    require(&rt, answer, "lifts of a ring");
    let harvest = given(&rt, board.close(rt.alloc(), seat));
    require(&rt, has_tables(&harvest, &[4; 3], &[0; 3]), "a ring");
    let_go(harvest.again());
}

/// The events that lifters wait for.
#[derive(Clone, Copy, PartialEq)]
enum Manner {
    /// None.
    Free,
    /// Lifter 1 claims nothing before lifter 2 found none left.
    SecondAlone,
    /// Lifter 1 claims nothing before lifter 2 has lifted, and lifter 2 goes on after lifter 1 has.
    InTurn,
}

/// Counts the calls of lifters.
#[derive(Drop)]
struct Tally {
    manner: Manner,
    claims: AtomicU64,
    lifts: AtomicU64,
    /// Those of lifter 2.
    second_claims: AtomicU64,
    second_lifts: AtomicU64,
    /// The lifts of lifter 1.
    first_lifts: AtomicU64,
    /// The number of lifters that waited in vain.
    late: AtomicU64,
}

const MOST_LOOKS: u64 = 10_000_000;

/// The number of claims of a lifter that lifts all alone: the last finds none left.
const ALL_CLAIMS: u64 = 7;

impl Tally {
    /// Waits until a count has reached this, but not for ever.
    fn wait(&self, count: &AtomicU64, least: u64) {
        for _ in 0..MOST_LOOKS {
            if count.load(Ordering::SeqCst) >= least {
                return;
            }
            thread::yield_now();
        }
        self.late.fetch_add(1, Ordering::SeqCst);
    }
}

impl Gate for Tally {
    fn before_claim(&self, lifter: u32) {
        self.claims.fetch_add(1, Ordering::SeqCst);
        if lifter != 1 {
            self.second_claims.fetch_add(1, Ordering::SeqCst);
            return;
        }
        match self.manner {
            Manner::Free => {}
            Manner::SecondAlone => self.wait(&self.second_claims, ALL_CLAIMS),
            Manner::InTurn => self.wait(&self.second_lifts, 1),
        }
    }

    fn after_lift(&self, lifter: u32) {
        self.lifts.fetch_add(1, Ordering::SeqCst);
        if lifter == 1 {
            self.first_lifts.fetch_add(1, Ordering::SeqCst);
            return;
        }
        let earlier = self.second_lifts.fetch_add(1, Ordering::SeqCst);
        if earlier == 0 && self.manner == Manner::InTurn {
            self.wait(&self.first_lifts, 1);
        }
    }
}

fn tally_in(manner: Manner) -> Tally {
    Tally {
        manner,
        claims: AtomicU64::new(0),
        lifts: AtomicU64::new(0),
        second_claims: AtomicU64::new(0),
        second_lifts: AtomicU64::new(0),
        first_lifts: AtomicU64::new(0),
        late: AtomicU64::new(0),
    }
}

/// Whether this many claims and lifts were counted, and nobody waited in vain.
fn has_counted(tally: &Tally, claims: u64, lifts: u64) -> bool {
    tally.claims.load(Ordering::SeqCst) == claims
        && tally.lifts.load(Ordering::SeqCst) == lifts
        && tally.late.load(Ordering::SeqCst) == 0
}

/// Sweeps the ring with hints. The first claimed vertex is raised, and with it all others up to the top, each by a hint
/// that one before it gave: six claims and six hints, and the gate is called after each lift. Returns whether it is so.
fn is_hinted<R: Threads + Wait + Abort + AllocGlobal + Sync>(
    rt: &R,
    lifters: u32,
    manner: Manner,
    claims: u64,
) -> bool {
    let tally = tally_in(manner);
    let harvest = sweep(rt, rt.alloc(), ring(rt), few(rt, lifters), &tally);
    let is_raised = has_tables(&harvest, &[4; 3], &[0; 3]);
    let_go(harvest.again());
    is_raised && has_counted(&tally, claims, 12)
}

/// A loop of priority 1, and a vertex that leads to it.
const PAIR: &[u8] = b"0 1 0 0; 1 0 0 0;";

/// Whether of two lifters without hints lifter 2 raises the loop, and lifter 1 the other vertex after the gate was
/// called for that.
fn is_called_after<R: Threads + Wait + Abort + AllocGlobal + Sync>(rt: &R) -> bool {
    let tally = tally_in(Manner::InTurn);
    let order = order_from(rt, ROOT, PAIR, &[]);
    let none = Predecessors::none(rt.alloc(), &order);
    let harvest = sweep_along(rt, rt.alloc(), order, 2, &tally, &none);
    let is_raised = has_tables(&harvest, &[1, 1], &[0, 1]);
    let_go(harvest.again());
    is_raised && has_counted(&tally, 6, 4)
}

#[test]
fn a_gate_is_called_after_each_lift(rt: HostRuntime) {
    require_at(&rt, is_hinted(&rt, 1, Manner::Free, 7), "hints", 0);
    require_at(&rt, is_hinted(&rt, 2, Manner::SecondAlone, 8), "hints", 1);
    require(&rt, is_called_after(&rt), "a lift before its gate");
}
