//! Boards that are opened and closed, and sweeps by one lifter and by several.

ghost use Rattle.std.specs.Prelude.{◌≡◌};

use crate::orders::{both_values, first_order, let_go};
use crate::told_of;
use std::alloc::Global;
use std::sync::{Arc, Wait};
use std::thread::Threads;
use vpg_board::{Board, Gate, OpenGate, Seat, sweep};
use vpg_diagram::Diagram;
use vpg_game::GuardedGame;
use vpg_measure::Order;
use vpg_scarce::{End, Finding, Heap, MOST_TRIES, Report, more};
use vpg_sides::Which;

/// More memory than a sweep by two lifters takes, hints and all.
const PLENTY: usize = 1 << 16;

/// The work on an order.
#[derive(Clone, Copy)]
enum Work {
    /// A board of it is opened and closed.
    Board,
    /// It is swept by this many lifters.
    Sweep(u32),
}

/// Returns the order after a board is opened and closed, and how that ended.
fn use_board(alloc: Global, order: Order) -> (Order, End) {
    match Board::open(alloc, order) {
        Ok((board, seat)) => match board.close(alloc, seat) {
            Ok(harvest) => (harvest.again(), End::Done),
            Err(order) => (order, End::Memory),
        },
        Err(order) => (order, End::Memory),
    }
}

/// Returns the order after work on it, and how that ended.
fn worked<R: Threads + Wait + Sync>(
    rt: &R,
    alloc: Global,
    order: Order,
    work: Work,
) -> (Order, End) {
    match work {
        Work::Board => use_board(alloc, order),
        Work::Sweep(lifters) => {
            let lifters = lifters.clamp(1, 64);
            let harvest = sweep(rt, alloc, order, lifters, &OpenGate);
            (harvest.again(), End::Done)
        }
    }
}

/// Does work with this much memory. A method of `Trial` can't: values that are handed to threads are not yet proved
/// below one.
fn worked_within<R: Threads + Wait + Sync>(
    rt: &R,
    heap: &mut Heap,
    order: Order,
    work: Work,
    bytes: usize,
) -> (Order, End) {
    heap.leave(bytes);
    let worked = worked(rt, heap.alloc(), order, work);
    heap.relax();
    worked
}

/// Does work again and again with more and more memory, from none until it is done with this many bytes or more.
/// Returns the result, and the order then.
fn worked_through<R: Threads + Wait + Sync>(
    rt: &R,
    heap: &mut Heap,
    order: Order,
    work: Work,
    most: usize,
) -> (Order, Finding) {
    let mut order = order;
    let mut told = Finding::TakesNone;
    let mut bytes = 0;
    for _ in 0..MOST_TRIES {
        let before = both_values(&order);
        let (back, end) = worked_within(rt, heap, order, work, bytes);
        order = back;
        match end {
            End::Done if bytes >= most || heap.is_marked() => return (order, told),
            End::Done => {}
            End::Memory if both_values(&order) == before => told = Finding::Unchanged,
            End::Memory => return (order, Finding::Changed),
            End::Otherwise => return (order, Finding::Otherwise),
        }
        bytes = more(bytes);
    }
    (order, Finding::Never)
}

/// Claims a vertex and lifts it: whether it is this one, and the answer of the lift this.
fn lifts(board: &Board, seat: &mut Seat, which: Which, v: u32, rises: bool) -> bool
    requires { seat.old.board ≡ board.now }
    ensures { seat.new.board ≡ board.now }
{
    OpenGate.before_claim(1);
    let Some((claimed, u)) = board.claim(seat) else {
        return false;
    };
    let rose = board.lift(seat, claimed, u);
    OpenGate.after_lift(1);
    claimed == which && u == v && rose == rises
}

/// Whether two seats in turn claim and lift each vertex of the opening page's order.
fn seats_tell(board: &Board, seat: &mut Seat) -> bool
    requires { seat.old.board ≡ board.now }
    ensures { seat.new.board ≡ board.now }
{
    let Ok(other) = board.split(seat) else {
        return false;
    };
    let mut other = other;
    let first = lifts(board, seat, Which::Hopeful, 0, true);
    let second = lifts(board, &mut other, Which::Hopeful, 1, false);
    let third = lifts(board, seat, Which::Dual, 0, false);
    let fourth = lifts(board, &mut other, Which::Dual, 1, true);
    let none = board.claim(&mut other).is_none();
    board.join(seat, other);
    first && second && third && fourth && none
}

/// Asks the seats of an order's board with no memory. Returns the board's order, and whether their answers are right.
fn seats_asked(heap: &mut Heap, order: Order) -> (bool, Order) {
    let (board, seat) = match Board::open(heap.alloc(), order) {
        Ok(opened) => opened,
        Err(order) => return (false, order),
    };
    let mut seat = seat;
    heap.leave(0);
    let tells = seats_tell(&board, &mut seat);
    heap.relax();
    match board.close(heap.alloc(), seat) {
        Ok(harvest) => (tells, harvest.again()),
        Err(order) => (false, order),
    }
}

/// Works on the opening page's order with little memory.
fn refuse_work<R: Threads + Wait + Sync>(
    rt: &R,
    heap: &mut Heap,
    report: &mut Report,
    order: Order,
) {
    let (order, told) = worked_through(rt, heap, order, Work::Board, 0);
    report.note(heap, "Board::open, Board::close", told);
    let (tells, order) = seats_asked(heap, order);
    report.note(
        heap,
        "Board::split, claim, lift, join, OpenGate::before_claim, after_lift",
        told_of(tells),
    );
    let (order, told) = worked_through(rt, heap, order, Work::Sweep(1), 0);
    report.note(heap, "sweep by one lifter", told);
    let (order, told) = worked_through(rt, heap, order, Work::Sweep(2), PLENTY);
    report.note(heap, "sweep by two lifters", told);
    let_go(order);
}

/// Opens and closes a board with little memory, asks its seats, and sweeps by one lifter and by two.
pub(crate) fn refuse<R: Threads + Wait + Sync>(
    rt: &R,
    heap: &mut Heap,
    report: &mut Report,
    game: &Arc<GuardedGame>,
    diagram: &Arc<Diagram>,
) -> Option<()> {
    let order = first_order(heap.alloc(), game, diagram)?;
    refuse_work(rt, heap, report, order);
    Some(())
}
