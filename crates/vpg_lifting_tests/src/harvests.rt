//! Harvests made of an order in turn, each of the order that the one before left.

ghost use Rattle.std.specs.Prelude.{◌≤◌};

use crate::asks::{BUDGET, settled};
use crate::boards::{Sitting, seated};
use crate::given::{given, require};
use crate::harvests::How::{Alone, AtOnce, Bounds, Given, One, Seated};
use crate::starts::{let_go, small};
use std::process::Abort;
use std::sync::Wait;
use std::test::*;
use std::thread::Threads;
use vpg_board::{Gate, OpenGate, sweep};
use vpg_guess::{Groundwork, harvest_by_bounds, harvest_by_bounds_at_once};
use vpg_measure::{Harvest, Order};
use vpg_settle::swept;
use vpg_sides::Which;
use vpg_sides::Which::{Dual, Hopeful};

/// The way to raise an order.
#[derive(Clone, Copy)]
pub(crate) enum How {
    /// One lift of this vertex.
    One(Which, u32),
    /// This many rounds of both tables.
    Alone(u64),
    /// Copies of its tables after this many rounds, handed in.
    Given(u64),
    /// Certified guesses.
    Bounds,
    /// Certified guesses by two threads.
    AtOnce,
    /// A board.
    Seated(Sitting),
    /// A sweep by this many lifters.
    Sweep(u32),
    /// The sweep of a line that settles by one sweep of this many lifters.
    Swept(u32),
}

/// The way to raise an order, the tables then, and whether they are progress tables.
pub(crate) type Turn = (How, [[u64; 2]; 2], bool);

/// Returns the harvest of an order with one vertex lifted once.
fn lifted(rt: &impl Abort, order: Order, which: Which, vertex: u32) -> Harvest {
    assert!(rt; (vertex as usize) < order.game().vertices());
    Harvest::one(order, which, vertex)
}

/// Returns the harvest of copies of an order's tables after this many rounds.
fn handed_in<R: Abort + AllocGlobal>(rt: &R, order: Order, rounds: u64) -> Harvest {
    let (hopeful, _) = settled(rt, &order, Hopeful, rounds);
    let (dual, _) = settled(rt, &order, Dual, rounds);
    Harvest::of(order, hopeful.into_values(), dual.into_values())
}

/// Returns a number of lifters that a sweep may have.
pub(crate) fn few(rt: &impl Abort, lifters: u32) -> u32
    ensures { (1 ≤ result) × (result ≤ 64) }
{
    assert!(rt; 1 <= lifters && lifters <= 64);
    lifters
}

/// Returns the harvest of an order raised so.
fn harvest<G: Gate + Sync, R: Threads + Wait + Abort + AllocGlobal + Sync>(
    rt: &R,
    gate: &G,
    order: Order,
    how: How,
) -> Harvest {
    match how {
        One(which, vertex) => lifted(rt, order, which, vertex),
        Alone(rounds) => Harvest::alone(order, rounds),
        Given(rounds) => handed_in(rt, order, rounds),
        Bounds => given(
            rt,
            harvest_by_bounds(rt.alloc(), order, &mut Groundwork::none(), BUDGET),
        ),
        AtOnce => given(
            rt,
            harvest_by_bounds_at_once(rt, rt.alloc(), order, &mut Groundwork::none(), BUDGET),
        ),
        Seated(sitting) => seated(rt, order, sitting),
        How::Sweep(lifters) => { sweep(rt, rt.alloc(), order, few(rt, lifters), gate) }
        How::Swept(lifters) => {
            swept(
                rt,
                rt.alloc(),
                order,
                1,
                few(rt, lifters),
                gate,
                &mut Groundwork::none(),
            )
            .harvest
        }
    }
}

/// Whether a harvest has these tables of two vertices over an order with those, and they are progress tables or not.
fn is_so(harvest: &Harvest, tables: [[u64; 2]; 2], before: [[u64; 2]; 2], settled: bool) -> bool {
    let order = harvest.order();
    if order.game().vertices() != 2 {
        return false;
    }
    let has = [
        harvest.table(Hopeful).values(),
        harvest.table(Dual).values(),
        order.hopeful().values(),
        order.dual().values(),
    ];
    let expected: [&[u64]; 4] = [&tables[0], &tables[1], &before[0], &before[1]];
    let values = [harvest.value(Hopeful, 0), harvest.value(Dual, 1)];
    has == expected && values == [tables[0][0], tables[1][1]] && harvest.check() == settled
}

/// Raises an order, and gives the order of its tables then.
fn raised<G: Gate + Sync, R: Threads + Wait + Abort + AllocGlobal + Sync>(
    rt: &R,
    gate: &G,
    order: Order,
    turn: Turn,
    before: [[u64; 2]; 2],
) -> Order {
    let (how, tables, settled) = turn;
    let harvest = harvest(rt, gate, order, how);
    require(rt, is_so(&harvest, tables, before, settled), "a harvest");
    harvest.again()
}

/// Raises the order of the small game with these decisions in turn.
pub(crate) fn in_turn<G: Gate + Sync, R: Threads + Wait + Abort + AllocGlobal + Sync>(
    rt: &R,
    gate: &G,
    choices: &[(u16, bool)],
    turns: &[Turn],
) {
    let mut order = small(rt, choices);
    let mut before = [[0, 0], [0, 0]];
    for k in 0..turns.len() {
        order = raised(rt, gate, order, turns[k], before);
        before = turns[k].1;
    }
    let_go(order);
}

/// Decisions, and the turns of the order with these.
type Row = (&'static [(u16, bool)], &'static [Turn]);

const WITHOUT_F: &[(u16, bool)] = &[(1, false)];

/// One lift from zeros; rounds and guesses from zeros, without `f`; and more than one turn.
const ROWS: &[Row] = &[
    (&[], &[(One(Hopeful, 0), [[1, 0], [0, 0]], false)]),
    (&[], &[(One(Hopeful, 1), [[0, 0], [0, 0]], false)]),
    (&[], &[(One(Dual, 0), [[0, 0], [0, 0]], false)]),
    (&[], &[(One(Dual, 1), [[0, 0], [0, 1]], false)]),
    (WITHOUT_F, &[(Alone(0), [[0, 0], [0, 0]], false)]),
    (WITHOUT_F, &[(Alone(1), [[1, 0], [0, 1]], false)]),
    (WITHOUT_F, &[(Alone(2), [[2, 0], [0, 1]], true)]),
    (WITHOUT_F, &[(Alone(u64::MAX), [[2, 0], [0, 1]], true)]),
    (WITHOUT_F, &[(Bounds, [[2, 0], [0, 1]], true)]),
    (WITHOUT_F, &[(AtOnce, [[2, 0], [0, 1]], true)]),
    (WITHOUT_F, HANDED_IN),
    (&[], SEATED),
    (&[], SPLIT),
];

/// Tables handed in, of one round and then of one more.
const HANDED_IN: &[Turn] = &[
    (Given(1), [[1, 0], [0, 1]], false),
    (Given(1), [[2, 0], [0, 1]], true),
];

/// One seat claims and lifts each vertex; then the order is settled, and it raises nothing.
const SEATED: &[Turn] = &[
    (
        Seated(Sitting::Lifts([true, false, false, true])),
        [[1, 0], [0, 1]],
        true,
    ),
    (Seated(Sitting::Lifts([false; 4])), [[1, 0], [0, 1]], true),
];

/// The opening seat splits 63 times. Nothing is lifted.
const SPLIT: &[Turn] = &[(Seated(Sitting::Splits), [[0, 0], [0, 0]], false)];

#[test]
fn harvests(rt: HostRuntime) {
    for k in 0..ROWS.len() {
        let (choices, turns) = ROWS[k];
        in_turn(&rt, &OpenGate, choices, turns);
    }
}
