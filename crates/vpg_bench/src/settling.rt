//! Ways of settling: both tables of a game are raised from zero, until they are settled or a number of sweeps is made.

ghost use Rattle.std.specs.Prelude.{◌≡◌, ◌≤◌, length};
ghost use Rattle.vpg_board.specs.Places.{vertices};

use crate::words::asked_by;
use anyhow::{Context, Result, bail};
use std::alloc::Global;
use std::fs;
use std::sync::Wait;
use std::sync::atomic::{AtomicU64, Ordering};
use std::thread::Threads;
use vpg_board::{Board, Gate, OpenGate, Predecessors, Seat, sweep_along};
use vpg_guess::{Groundwork, harvest_by_bounds};
use vpg_measure::{Harvest, Order, Table};
use vpg_sides::Which;
use vpg_small_family::{DIAGRAM, GAME, diagram_of, game_of, order_of};

/// The number of edges and vertices that a guess at both tables may look at, as in the lines of a script.
const BUDGET: u64 = 1 << 27;

/// More claims than a board has places.
const MOST_CLAIMS: u32 = 131_074;

/// The way in which the tables are raised.
#[derive(Clone, Copy)]
pub(crate) enum Way {
    Alone,
    Plain,
    Hinted,
    Counted,
    Guessed,
    Seated,
}

/// The way of settling, the most sweeps, and the number of lifters.
#[derive(Clone, Copy)]
pub(crate) struct SettlePlan {
    pub(crate) way: Way,
    pub(crate) most: u64,
    pub(crate) lifters: u32,
}

/// Counts the lifts of all lifters.
#[derive(Drop)]
struct Count {
    lifts: AtomicU64,
}

impl Gate for Count {
    fn before_claim(&self, _lifter: u32) {}

    fn after_lift(&self, _lifter: u32) {
        self.lifts.fetch_add(1, Ordering::SeqCst);
    }
}

/// Returns the order that a game's text spells, without decisions and from zero.
fn opening_order(alloc: Global, text: &[u8]) -> Result<Order> {
    let diagram = diagram_of(alloc, DIAGRAM)?;
    let game = game_of(alloc, text, &diagram)?;
    order_of(alloc, game, diagram, Vec::new(alloc))?
        .ok()
        .context("no order")
}

/// Sweeps at most this many times. Returns the harvest, and the number of sweeps. If settled tables do not end them,
/// there are just this many.
fn swept<G: Gate + Sync, T: Threads + Wait + Sync>(
    rt: &T,
    alloc: Global,
    order: Order,
    most: u64,
    ends_settled: bool,
    lifters: u32,
    gate: &G,
    predecessors: &Predecessors,
) -> (Harvest, u64)
    requires lifters { (1 ≤ lifters) × (lifters ≤ 64) }
    requires predecessors { predecessors.now.vertices ≡ vertices order }
{
    let mut order = order;
    for done in 0..most {
        let harvest = sweep_along(rt, alloc, order, lifters, gate, predecessors);
        if ends_settled && harvest.check() {
            return (harvest, done + 1);
        }
        order = harvest.again();
    }
    (Harvest::alone(order, 0), most)
}

/// Returns the predecessors that hints go along, or nothing without hints.
fn predecessors_of(alloc: Global, order: &Order, hints: bool) -> Predecessors
    ensures { result.vertices ≡ vertices order.now }
{
    if hints {
        Predecessors::of_or_none(alloc, order)
    } else {
        Predecessors::none(alloc, order)
    }
}

/// Sweeps without hints, or with hints until the tables are settled. Returns the harvest.
fn swept_from<G: Gate + Sync, T: Threads + Wait + Sync>(
    rt: &T,
    alloc: Global,
    order: Order,
    lifters: u32,
    most: u64,
    hints: bool,
    gate: &G,
) -> (Harvest, u64)
    requires { (1 ≤ lifters) × (lifters ≤ 64) }
{
    let predecessors = predecessors_of(alloc, &order, hints);
    swept(rt, alloc, order, most, hints, lifters, gate, &predecessors)
}

/// Returns the harvest of certified guesses. If they find no memory, that of the order as it is.
fn by_bounds(alloc: Global, order: Order) -> Harvest {
    match harvest_by_bounds(alloc, order, &mut Groundwork::none(), BUDGET) {
        Ok(harvest) => harvest,
        Err(order) => Harvest::alone(order, 0),
    }
}

/// Raises an order by certified guesses, and sweeps it from there if they don't settle it, each lift counted. Returns
/// the harvest.
fn guessed<T: Threads + Wait + Sync>(
    rt: &T,
    alloc: Global,
    order: Order,
    lifters: u32,
    most: u64,
    count: &Count,
) -> (Harvest, u64)
    requires { (1 ≤ lifters) × (lifters ≤ 64) }
{
    let harvest = by_bounds(alloc, order);
    if harvest.check() {
        (harvest, 0)
    } else {
        swept_from(rt, alloc, harvest.again(), lifters, most, true, count)
    }
}

/// Claims and lifts until nothing is left.
fn lift_all(board: &Board, seat: &mut Seat)
    requires { seat.old.board ≡ board.now }
    ensures { seat.new.board ≡ board.now }
{
    for _ in 0..MOST_CLAIMS {
        let Some((which, v)) = board.claim(seat) else {
            return;
        };
        board.lift(seat, which, v);
    }
}

/// Returns the harvest of a board of the order that one seat has lifted.
fn seated(alloc: Global, order: Order) -> Option<Harvest> {
    match Board::open(alloc, order) {
        Ok((board, mut seat)) => {
            lift_all(&board, &mut seat);
            board.close(alloc, seat).ok()
        }
        Err(_) => None,
    }
}

/// Lifts on this many boards, one after the other. Returns the harvest, and their number.
fn seated_often(alloc: Global, order: Order, most: u64) -> Option<(Harvest, u64)> {
    let mut order = order;
    for _ in 0..most {
        order = seated(alloc, order)?.again();
    }
    Some((Harvest::alone(order, 0), most))
}

/// Raises the tables as the words ask for. Returns the harvest, and the number of sweeps. Nothing if there is no memory
/// for a board that one seat lifts.
fn reach<T: Threads + Wait + Sync>(
    rt: &T,
    alloc: Global,
    order: Order,
    asked: SettlePlan,
    count: &Count,
) -> Option<(Harvest, u64)>
    requires { (1 ≤ asked.lifters) × (asked.lifters ≤ 64) }
{
    let SettlePlan { way, most, lifters } = asked;
    match way {
        Way::Alone => Some((Harvest::alone(order, most), 0)),
        Way::Plain => Some(swept_from(rt, alloc, order, lifters, most, false, &OpenGate)),
        Way::Hinted => Some(swept_from(rt, alloc, order, lifters, most, true, &OpenGate)),
        Way::Counted => Some(swept_from(rt, alloc, order, lifters, most, true, count)),
        Way::Guessed => Some(guessed(rt, alloc, order, lifters, most, count)),
        Way::Seated => seated_often(alloc, order, most),
    }
}

/// Returns the sum of a table's values.
fn sum_of(table: &Table) -> u64 {
    let mut sum = 0u64;
    for value in table.values() {
        sum = sum.saturating_add(*value);
    }
    sum
}

/// Prints the result, in one line.
fn tell(rt: &HostRuntime, harvest: &Harvest, sweeps: u64, lifts: u64) -> Result<()> {
    let settled = harvest.check();
    let hopeful = sum_of(harvest.table(Which::Hopeful));
    let dual = sum_of(harvest.table(Which::Dual));
    println!(rt; "settled {settled} sweeps {sweeps} lifts {lifts} sums {hopeful} {dual}")?;
    Ok(())
}

/// Raises an order so, and prints the result.
fn measure<T: Threads + Wait + Sync>(
    rt: &HostRuntime,
    threads: &T,
    order: Order,
    asked: SettlePlan,
) -> Result<()>
    requires { (1 ≤ asked.lifters) × (asked.lifters ≤ 64) }
{
    let count = Count {
        lifts: AtomicU64::new(0),
    };
    match reach(threads, rt.alloc(), order, asked, &count) {
        Some((harvest, sweeps)) => tell(rt, &harvest, sweeps, count.lifts.load(Ordering::SeqCst)),
        None => bail!("no memory"),
    }
}

/// Sweeps the built-in game, by one lifter and by two: what they lift beside the four claims are hints.
pub(crate) fn sweep_built_in<T: Threads + Wait + Sync>(
    rt: &HostRuntime,
    threads: &T,
) -> Result<()> {
    for lifters in 1..3 {
        let asked = SettlePlan {
            way: Way::Counted,
            most: 1,
            lifters,
        };
        measure(rt, threads, opening_order(rt.alloc(), GAME)?, asked)?;
    }
    Ok(())
}

/// Raises the tables of the game of a file, as the words ask for.
pub(crate) fn settle<T: Threads + Wait + Sync>(
    rt: &HostRuntime,
    threads: &T,
    words: &[String],
) -> Result<()>
    requires { 5 ≤ length words.now }
{
    let asked = asked_by(words)?;
    let text = fs::read(rt, words[2].as_str())?;
    measure(rt, threads, opening_order(rt.alloc(), &text)?, asked)
}
