//! Games that no rounds of lifts settle, settled as by a line that names no number of sweeps, and the lifters of a
//! large one.

use crate::given::{given, require, require_at};
use crate::starts::{ROOT, let_go, order_from};
use std::process::Abort;
use std::sync::Wait;
use std::sync::atomic::{AtomicU64, Ordering};
use std::test::*;
use std::thread;
use std::thread::Threads;
use vpg_board::{Gate, OpenGate};
use vpg_guess::Groundwork;
use vpg_measure::{Harvest, Order};
use vpg_settle::{LAST_SWEEPS, MANY_SWEEPS, swept};
use vpg_sides::Which::Hopeful;

/// The number of vertices that climb. They have odd priorities of their own, so the top is 2^61.
pub(crate) const CLIMBING: u32 = 61;

pub(crate) const TOP: u64 = 1 << 61;

/// The number of further vertices of the large game, with two edges each.
const MANY: u32 = 35_000;

/// Returns the order without decisions of a game that no rounds of lifts settle. The first two vertices of Even are a
/// cycle of the priorities 1 and 3, whose winner is not seen at once. All of greater odd priorities lead to it, and so
/// do this many more of priority 0, each also to the vertex before it.
pub(crate) fn climb_of<R: Abort + AllocGlobal>(rt: &R, more: u32) -> Order {
    let mut text = String::new(rt.alloc());
    let mut priority = 1u32;
    for v in 0..CLIMBING {
        let to = if v == 0 { 1 } else { 0 };
        given(rt, write!(text, "{v} {priority} 0 {to};"));
        priority = priority.saturating_add(2);
    }
    put_queue(rt, &mut text, more);
    order_from(rt, ROOT, text.as_bytes(), &[])
}

/// Writes the further vertices.
fn put_queue(rt: &impl Abort, text: &mut String, more: u32) {
    let mut before = CLIMBING - 1;
    for _ in 0..more {
        let v = before.saturating_add(1);
        given(rt, write!(text, "{v} 0 0 0,{before};"));
        before = v;
    }
}

/// Whether a harvest is settled, and all vertices have the top of the hopeful table.
fn is_at_top(harvest: &Harvest) -> bool {
    harvest.check()
        && harvest
            .table(Hopeful)
            .values()
            .iter()
            .all(|value| *value == TOP)
}

/// Whether a line settles an order in few sweeps, by two lifters or one.
fn is_settled<R: Threads + Wait + Abort + AllocGlobal + Sync>(
    rt: &R,
    order: Order,
    by_two: bool,
) -> bool {
    let lifters = if by_two { 2 } else { 1 };
    let mut kept = Groundwork::none();
    let found = swept(
        rt,
        rt.alloc(),
        order,
        MANY_SWEEPS,
        lifters,
        &OpenGate,
        &mut kept,
    );
    let is_so = found.sweeps <= LAST_SWEEPS && is_at_top(&found.harvest);
    let_go(found.harvest.again());
    is_so
}

/// The number of further vertices, the number of rounds that raised the page before, and whether two lifters settle it.
type Row = (u32, u64, bool);

/// Games of 61 vertices, and of over 64.
const ROWS: &[Row] = &[(0, 0, false), (40, 0, true), (40, 2, false)];

/// The meeting of four lifters in their first claims.
#[derive(Drop)]
struct Four {
    // one bit for each lifter that came
    come: AtomicU64,
    /// The number of those that all others met in time.
    met: AtomicU64,
}

const MOST_LOOKS: u64 = 10_000_000;

impl Gate for Four {
    fn before_claim(&self, lifter: u32) {
        let mark = 1u64.wrapping_shl(lifter);
        if self.come.fetch_or(mark, Ordering::SeqCst) & mark != 0 {
            return;
        }
        for _ in 0..MOST_LOOKS {
            if self.come.load(Ordering::SeqCst).count_ones() >= 4 {
                self.met.fetch_add(1, Ordering::SeqCst);
                return;
            }
            thread::yield_now();
        }
    }

    fn after_lift(&self, _lifter: u32) {}
}

/// Returns a meeting to which none came.
fn no_meeting() -> Four {
    Four {
        come: AtomicU64::new(0),
        met: AtomicU64::new(0),
    }
}

/// Whether lifters 1 to 4 came and met, and no other.
fn have_met(meeting: &Four) -> bool {
    meeting.come.load(Ordering::SeqCst) == 30 && meeting.met.load(Ordering::SeqCst) == 4
}

/// Sweeps the order as by a line that asks for one sweep by four lifters. Returns the order then, and whether four met.
fn by_four<R: Threads + Wait + Abort + AllocGlobal + Sync>(rt: &R, order: Order) -> (Order, bool) {
    let four = no_meeting();
    let found = swept(rt, rt.alloc(), order, 1, 4, &four, &mut Groundwork::none());
    let is_so = found.sweeps == 1 && have_met(&four);
    (found.harvest.again(), is_so)
}

#[test]
fn climbing_games_are_settled(rt: HostRuntime) {
    for k in 0..ROWS.len() {
        let (more, rounds, by_two) = ROWS[k];
        let order = Harvest::alone(climb_of(&rt, more), rounds).again();
        require_at(&rt, is_settled(&rt, order, by_two), "climbing games", k);
    }
    let (order, is_so) = by_four(&rt, climb_of(&rt, MANY));
    require(&rt, is_so, "four lifters of a large game");
    require(&rt, is_settled(&rt, order, true), "a large game");
}
