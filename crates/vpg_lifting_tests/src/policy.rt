//! The policy of settling: which lines guess, what a guess needs, what is kept for the next one, and the sweeps after a
//! guess that does not settle an order.

use crate::climbing::{TOP, climb_of};
use crate::given::{given, require, require_at};
use crate::harvests::few;
use crate::starts::{ROOT, let_go, order_from};
use std::process::Abort;
use std::sync::Wait;
use std::sync::atomic::{AtomicU64, Ordering};
use std::test::*;
use std::thread::Threads;
use vpg_board::{Gate, OpenGate};
use vpg_guess::Groundwork;
use vpg_measure::{Harvest, Order};
use vpg_settle::{FEW_SWEEPS, LAST_SWEEPS, MANY_SWEEPS, swept};
use vpg_sides::Which::{Dual, Hopeful};
use vpg_small_family::{DIAGRAM, F, G};

/// The number of even priorities in a game whose dual climbs, each of one vertex.
const LEVELS: u32 = 20;

/// The top of its dual table.
const DUAL_TOP: u64 = 1 << LEVELS;

/// A game that few rounds of lifts do not settle: vertices of priorities of their own lead to a cycle.
#[derive(Clone, Copy)]
enum Climb {
    /// Odd wins it: the hopeful table climbs. All priorities are odd.
    Odd,
    /// Even wins it: the table of the dual climbs. All priorities are even.
    Even,
    /// So, but the cycle passes a vertex of priority 1. Its rank has a place in the measures of the dual's dual alone.
    Mixed,
}

/// Returns the order without decisions of a game whose dual climbs: vertices of greater even priorities lead to this
/// cycle of a few vertices.
fn dual_climb<R: Abort + AllocGlobal>(rt: &R, cycle: &str, vertices: u32) -> Order {
    let mut text = String::new(rt.alloc());
    given(rt, write!(text, "{cycle}"));
    let mut priority = 4u32;
    for v in vertices..vertices.saturating_add(LEVELS - 1) {
        given(rt, write!(text, "{v} {priority} 1 0;"));
        priority = priority.saturating_add(2);
    }
    order_from(rt, ROOT, text.as_bytes(), &[])
}

/// Returns the order of a game that climbs.
fn order_in<R: Abort + AllocGlobal>(rt: &R, climb: Climb) -> Order {
    match climb {
        Climb::Odd => climb_of(rt, 0),
        Climb::Even => dual_climb(rt, "0 2 1 0;", 1),
        Climb::Mixed => dual_climb(rt, "0 2 1 1;1 1 1 0;", 2),
    }
}

/// Whether all vertices have the top of the table that climbs.
fn is_at_top(harvest: &Harvest, climb: Climb) -> bool {
    let (table, top) = match climb {
        Climb::Odd => (harvest.table(Hopeful), TOP),
        _ => (harvest.table(Dual), DUAL_TOP),
    };
    table.values().iter().all(|value| *value == top)
}

/// A game, the number of rounds that raised it before, the numbers of sweeps and of lifters that a line asks for, the
/// number of sweeps that are made, and whether they settle it.
type Row = (Climb, u64, u64, u32, u64, bool);

/// From five sweeps on a line guesses, after the first sweep if both tables are of zeros. The guess settles the game.
const ROWS: &[Row] = &[
    (Climb::Odd, 0, 0, 1, 0, false),
    (Climb::Odd, 0, FEW_SWEEPS, 1, 4, false),
    (Climb::Odd, 0, FEW_SWEEPS, 2, 4, false),
    (Climb::Odd, 0, 5, 1, 1, true),
    (Climb::Odd, 0, 5, 2, 1, true),
    (Climb::Even, 0, FEW_SWEEPS, 2, 4, false),
    (Climb::Even, 0, 5, 1, 1, true),
    (Climb::Even, 0, 5, 2, 1, true),
    (Climb::Mixed, 0, FEW_SWEEPS, 1, 4, false),
    (Climb::Mixed, 0, 5, 1, 1, true),
    (Climb::Mixed, 0, 5, 2, 1, true),
    (Climb::Odd, 2, FEW_SWEEPS, 1, 4, false),
    (Climb::Odd, 2, 5, 1, 0, true),
    (Climb::Even, 2, 5, 2, 0, true),
    (Climb::Mixed, 2, 5, 1, 0, true),
];

/// Whether a row is as it says.
fn is_row<R: Threads + Wait + Abort + AllocGlobal + Sync>(rt: &R, row: Row) -> bool {
    let (climb, rounds, sweeps, lifters, made, settled) = row;
    let found = swept(
        rt,
        rt.alloc(),
        Harvest::alone(order_in(rt, climb), rounds).again(),
        sweeps,
        few(rt, lifters),
        &OpenGate,
        &mut Groundwork::none(),
    );
    let is_top = is_at_top(&found.harvest, climb);
    let is_so = found.harvest.check() == settled && is_top == settled;
    let_go(found.harvest.again());
    is_so && found.sweeps == made
}

#[test]
fn lines_of_more_than_four_sweeps_guess(rt: HostRuntime) {
    for k in 0..ROWS.len() {
        require_at(&rt, is_row(&rt, ROWS[k]), "lines of few sweeps", k);
    }
}

/// Counts the lifts of lifters.
#[derive(Drop)]
struct Lifts {
    count: AtomicU64,
}

impl Gate for Lifts {
    fn before_claim(&self, _lifter: u32) {}

    fn after_lift(&self, _lifter: u32) {
        self.count.fetch_add(1, Ordering::SeqCst);
    }
}

/// The least number of lifts of a sweep of the game of `Climb::Mixed`: each vertex of both tables once.
const LIFTS: u64 = 2 * (LEVELS as u64 + 1);

/// The number of sweeps of a line of many that ends at its goal: one before the guess, and those after it.
const ENDED: u64 = 1 + LAST_SWEEPS + 1;

/// Whether a line of many sweeps, after a guess that does not settle it, ends as soon as it may. The gate is called in
/// each sweep, and after lifts that were hinted at. What is kept of another game, without odd priorities, takes the
/// ranks from the guess. The first sweep raises the tables by more than the line's number.
fn is_called_in_each<R: Threads + Wait + Abort + AllocGlobal + Sync>(rt: &R, lifters: u32) -> bool {
    let lifts = Lifts {
        count: AtomicU64::new(0),
    };
    let mut kept = Groundwork::none();
    let lifters = few(rt, lifters);
    let other = order_in(rt, Climb::Even);
    let first = swept(rt, rt.alloc(), other, 5, lifters, &OpenGate, &mut kept);
    let order = order_in(rt, Climb::Mixed);
    let found = swept(
        rt,
        rt.alloc(),
        order,
        MANY_SWEEPS,
        lifters,
        &lifts,
        &mut kept,
    );
    let is_so = first.sweeps == 1 && found.sweeps == ENDED && !found.harvest.check();
    let_go(first.harvest.again());
    let_go(found.harvest.again());
    is_so && lifts.count.load(Ordering::SeqCst) > ENDED * LIFTS
}

#[test]
fn the_gate_is_called_after_a_guess(rt: HostRuntime) {
    require(&rt, is_called_in_each(&rt, 1), "one lifter");
    require(&rt, is_called_in_each(&rt, 2), "two lifters");
}

/// Returns the order of a game with this feature left out, raised by two rounds. Vertex 0 is a loop that climbs. With
/// `f`, vertices 1 and 2 climb in turn.
fn page_without<R: Abort + AllocGlobal>(rt: &R, feature: u16) -> Order {
    let mut text = String::new(rt.alloc());
    given(rt, write!(text, "0 1 0 0;1 0 0 2[f],3[g];2 1 0 1;3 0 0 3;"));
    let mut priority = 3u32;
    for v in 4..4 + LEVELS {
        given(rt, write!(text, "{v} {priority} 0 0;"));
        priority = priority.saturating_add(2);
    }
    let order = order_from(rt, DIAGRAM, text.as_bytes(), &[(feature, false)]);
    Harvest::alone(order, 2).again()
}

/// Whether a guess settles two pages of a game, the second by what is kept of the first: its lists lack an edge.
fn is_settled_in_turn<R: Threads + Wait + Abort + AllocGlobal + Sync>(
    rt: &R,
    lifters: u32,
) -> bool {
    let mut kept = Groundwork::none();
    let lifters = few(rt, lifters);
    let order = page_without(rt, F);
    let first = swept(rt, rt.alloc(), order, 5, lifters, &OpenGate, &mut kept);
    let order = page_without(rt, G);
    let second = swept(rt, rt.alloc(), order, 5, lifters, &OpenGate, &mut kept);
    let is_so = first.sweeps == 0 && first.harvest.check();
    let is_second = second.sweeps == 0 && second.harvest.check();
    let_go(first.harvest.again());
    let_go(second.harvest.again());
    is_so && is_second
}

#[test]
fn lists_that_lack_an_edge_are_made_anew(rt: HostRuntime) {
    require(&rt, is_settled_in_turn(&rt, 1), "one lifter");
    require(&rt, is_settled_in_turn(&rt, 2), "two lifters");
}
