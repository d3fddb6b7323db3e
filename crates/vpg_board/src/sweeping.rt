//! Sweeps: lifters in threads of their own.

ghost use Rattle.std.specs.Prelude.{◌≡◌, ℕ, ◌+◌, ◌<◌, ◌≤◌, slice_index, sum, IfOk, IfErr, IfSome, IfNone};
ghost use Rattle.std.specs.Thread.{IsSync};
ghost use Rattle.vpg_hope.specs.Arena.{vertex_at};
ghost use Rattle.vpg_measure.specs.Lifts.{lift_of, IsBelowTable};
ghost use Rattle.vpg_measure.specs.Orders.{IsSameOrder, IsHarvest, IsSettledHarvest, order_levels, order_arena, order_table, harvest_table};
ghost use Rattle.vpg_board.specs.Places.{vertices, table_in, lift_in};
ghost use Rattle.vpg_board.specs.Lifters.{splits, newcomer};
ghost use Rattle.vpg_board.specs.Seats.{SeesMore, IsSafe};
ghost use Rattle.vpg_board.specs.Worked.{Works, SameStand, HasWorked};

use crate::alone::sweep_alone;
use crate::board::Board;
use crate::hints::{Hints, Vertices, hints_of, next_hints};
use crate::predecessors::Predecessors;
use crate::seat::Seat;
use std::alloc::Global;
use std::marker::Brand;
use std::sync::Wait;
use std::thread::{Threads, join};
use vpg_measure::{Harvest, Order};
use vpg_sides::Which;

/// The callback of each lifter of a sweep before each claim and after each lift, of a vertex that it claimed or was
/// hinted at. Lifters are numbered from 1, which is the calling thread.
pub trait Gate {
    fn before_claim(&self, lifter: u32);

    fn after_lift(&self, lifter: u32);
}

/// A gate that does nothing.
#[derive(Clone, Copy, Debug)]
pub struct OpenGate;

impl Gate for OpenGate {
    fn before_claim(&self, _lifter: u32) {}

    fn after_lift(&self, _lifter: u32) {}
}

/// The greatest number of hinted lifts after a claim: a setting that no clause counts.
pub(crate) const HINTED_LIFTS: usize = 16;

// Lifts a vertex, and after a raise hints at the vertices that keep an edge to it.
fn lift_and_hint<J: Vertices>(
    board: &Board,
    seat: &mut Seat,
    predecessors: &Predecessors,
    hints: &mut Hints<J>,
    which: Which,
    v: u32,
)
    requires board { seat.old.board ≡ board.now }
    requires vertex { v < vertices board.now.order }
    requires predecessors { predecessors.now.vertices ≡ J.vertices }
    ensures board { seat.new.board ≡ seat.old.board }
    ensures seen { SeesMore seat.old.lifter seat.new.lifter }
    ensures safe { IsSafe seat.new.lifter }
    ensures lifted { lift_in board.now.order which seat.old.lifter.seen v ≤ slice_index
        (table_in board.now.order which seat.new.lifter.seen) v }
{
    if board.lift(seat, which, v) {
        hints.give_all(which, predecessors.in_game(which), v);
    }
}

// Lifts hinted vertices, a few at most.
fn lift_hinted<J: Vertices, G: Gate>(
    board: &Board,
    gate: &G,
    lifter: u32,
    seat: &mut Seat,
    predecessors: &Predecessors,
    hints: &mut Hints<J>,
)
    requires works { Works board.now seat.old }
    requires game { J.vertices ≡ vertices board.now.order }
    requires predecessors { predecessors.now.vertices ≡ J.vertices }
    ensures works { Works board.now seat.new }
    ensures stand { SameStand seat.old.lifter seat.new.lifter }
{
    'hinted: for _ in 0..HINTED_LIFTS {
        let Some((which, v)) = hints.take() else {
            return;
        };
        lift_and_hint(board, seat, predecessors, hints, which, v);
        gate.after_lift(lifter);
    }
}

// Claims until none is left, and lifts the claimed and the hinted vertices.
fn work<J: Vertices, G: Gate, R: Wait>(
    rt: &R,
    board: &Board,
    gate: &G,
    lifter: u32,
    seat: Seat,
    predecessors: &Predecessors,
    hints: Hints<J>,
) -> Seat
    requires works { Works board.now seat }
    requires game { J.vertices ≡ vertices board.now.order }
    requires predecessors { predecessors.now.vertices ≡ J.vertices }
    ensures { HasWorked board.now seat.lifter result }
{
    let mut seat = seat;
    let mut hints = hints;
    'claims: for _ in rt.forever() {
        gate.before_claim(lifter);
        let Some((which, v)) = board.claim(&mut seat) else {
            return seat;
        };
        lift_and_hint(board, &mut seat, predecessors, &mut hints, which, v);
        gate.after_lift(lifter);
        lift_hinted(board, gate, lifter, &mut seat, predecessors, &mut hints);
    }
    unreachable!()
}

// A seat for one more lifter, if more are asked for and there may be one.
#[tactic(auto, using(crate::proofs::Working::works_split, crate::proofs::Working::works_newcomer))]
fn split_off(board: &Board, seat: &mut Seat, lifters: u32) -> Option<Seat>
    requires { Works board.now seat.old }
    ensures more { IfSome result (λ _. 1 < lifters) }
    ensures works { IfSome result (λ _. Works board.now seat.new) }
    ensures other { IfSome result (Works board.now) }
    ensures split { IfSome result
        (λ other. (seat.new.lifter ≡ splits seat.old.lifter) × (other.lifter ≡ newcomer seat.old.lifter)) }
    ensures same { IfNone result (seat.new ≡ seat.old) }
{
    if lifters <= 1 {
        return None;
    }
    board.split(seat).ok()
}

// Works with as many lifters as are asked for; the last one is the caller.
fn work_together<J: Vertices + Send + Sync, G: Gate + Sync, R: Threads + Wait + Sync>(
    rt: &R,
    board: &Board,
    gate: &G,
    lifters: u32,
    seat: Seat,
    predecessors: &Predecessors,
    crew: Vec<Hints<J>>,
) -> Seat
    requires works { Works board.now seat }
    requires game { J.vertices ≡ vertices board.now.order }
    requires predecessors { predecessors.now.vertices ≡ J.vertices }
    ensures { HasWorked board.now seat.lifter result }
{
    let mut seat = seat;
    let mut crew = crew;
    let hints = next_hints(&mut crew);
    let Some(other) = split_off(board, &mut seat, lifters) else {
        return work(rt, board, gate, 1, seat, predecessors, hints);
    };
    let rest = lifters - 1;
    let (other, mine) = join(
        rt,
        move || -> Seat
            requires { IsSync R.row × IsSync G.row × Works board.now other
                × (J.vertices ≡ vertices board.now.order) × (predecessors.now.vertices ≡ J.vertices) }
            ensures { HasWorked board.entry.now other.lifter result }
        { work(rt, board, gate, lifters, other, predecessors, hints) },
        move || -> Seat
            requires { IsSync R.row × IsSync G.row × Works board.now seat
                × (J.vertices ≡ vertices board.now.order) × (predecessors.now.vertices ≡ J.vertices) }
            ensures { HasWorked board.entry.now seat.lifter result }
        { work_together(rt, board, gate, rest, seat, predecessors, crew) },
    );
    let mut mine = mine;
    board.join(&mut mine, other);
    mine
}

// Works with as many lifters as are asked for, with hints of the game that is picked for J.
fn work_with_hints<J: Vertices + Send + Sync, G: Gate + Sync, R: Threads + Wait + Sync>(
    rt: &R,
    alloc: Global,
    board: &Board,
    gate: &G,
    lifters: u32,
    seat: Seat,
    predecessors: &Predecessors,
) -> Seat
    requires works { Works board.now seat }
    requires game { J.vertices ≡ vertices board.now.order }
    requires predecessors { predecessors.now.vertices ≡ J.vertices }
    ensures { HasWorked board.now seat.lifter result }
{
    // Without predecessors there is nothing to hint at.
    let hinting = if predecessors.are_none() { 0 } else { lifters };
    let crew = hints_of::<J>(alloc, hinting);
    work_together(rt, board, gate, lifters, seat, predecessors, crew)
}

// Sweeps on a board, with as many lifters as are asked for. If memory runs out, the order comes back.
fn sweep_on_board<G: Gate + Sync, R: Threads + Wait + Sync>(
    rt: &R,
    alloc: Global,
    order: Order,
    lifters: u32,
    gate: &G,
    predecessors: &Predecessors,
) -> Result<Harvest, Order>
    requires { predecessors.now.vertices ≡ vertices order }
    ensures order { IfOk result (λ harvest. IsSameOrder harvest.order order) }
    ensures lifted { IfOk result (λ harvest. (which : Which) (v : ℕ) → v < vertices order →
        lift_of (order_levels which order) (order_table which order)
        (vertex_at (order_arena which order) v) ≤ slice_index (harvest_table which harvest) v) }
    ensures above { IfOk result
        (λ harvest. (which : Which) → IsBelowTable (order_table which order) (harvest_table which harvest)) }
    ensures harvest { IfOk result IsHarvest }
    ensures moved { IfOk result
        (λ harvest. ¬ IsSettledHarvest harvest →
        sum order.hopeful + sum order.dual < sum harvest.hopeful + sum harvest.dual) }
    ensures back { IfErr result (λ returned. returned ≡ order) }
{
    let (board, seat) = Board::open(alloc, order)?;
    let seat = work_with_hints::<Brand, G, R>(rt, alloc, &board, gate, lifters, seat, predecessors);
    board.close(alloc, seat)
}

/// Lifts each vertex of both tables of the order at least once, by 1 to 64 lifters at once. The calling thread is
/// lifter 1, the others get threads of their own. If the machine has no thread for one, the calling thread does its
/// work. After a raise the lifter hints at the vertices that keep an edge to the raised one, for itself and for one
/// other. After each claim it lifts at most 16 hinted vertices.
///
/// The call always returns a harvest. One lifter shares its tables with nobody: it raises them in the order's room,
/// without a board. Several need memory for their board, at its opening and at its close. If there is none, the calling
/// thread alone sweeps the order from its tables, and the gate is called again if the close was refused. Hints without
/// memory are left out.
///
/// A sweep proves the order settled if its harvest has no greater value than the order.
pub fn sweep<G: Gate + Sync, R: Threads + Wait + Sync>(
    rt: &R,
    alloc: Global,
    order: Order,
    lifters: u32,
    gate: &G,
) -> Harvest
    requires lifters { (1 ≤ lifters) × (lifters ≤ 64) }
    ensures order { IsSameOrder result.order order }

    // At every vertex of both tables the harvest is on or above the lift of the order's table.
    ensures lifted { (which : Which) (v : ℕ) → v < vertices order →
        lift_of (order_levels which order) (order_table which order)
        (vertex_at (order_arena which order) v) ≤ slice_index (harvest_table which result) v }

    // On or above the order's tables, and below every progress table of its games.
    ensures above { (which : Which) → IsBelowTable (order_table which order) (harvest_table which result) }
    ensures harvest { IsHarvest result }

    // A harvest that does not check has risen, in sum: so if nothing rose, the order was settled.
    ensures moved { ¬ IsSettledHarvest result →
        sum order.hopeful + sum order.dual < sum result.hopeful + sum result.dual }
{
    let predecessors = Predecessors::of_or_none(alloc, &order);
    sweep_along(rt, alloc, order, lifters, gate, &predecessors)
}

/// Sweeps the order as `sweep` does, with hints along these predecessors: for many sweeps of one order and its
/// successors.
pub fn sweep_along<G: Gate + Sync, R: Threads + Wait + Sync>(
    rt: &R,
    alloc: Global,
    order: Order,
    lifters: u32,
    gate: &G,
    predecessors: &Predecessors,
) -> Harvest
    requires predecessors { predecessors.now.vertices ≡ vertices order }
    requires lifters { (1 ≤ lifters) × (lifters ≤ 64) }
    ensures order { IsSameOrder result.order order }

    // At every vertex of both tables the harvest is on or above the lift of the order's table.
    ensures lifted { (which : Which) (v : ℕ) → v < vertices order →
        lift_of (order_levels which order) (order_table which order)
        (vertex_at (order_arena which order) v) ≤ slice_index (harvest_table which result) v }

    // On or above the order's tables, and below every progress table of its games.
    ensures above { (which : Which) → IsBelowTable (order_table which order) (harvest_table which result) }
    ensures harvest { IsHarvest result }

    // A harvest that does not check has risen, in sum: so if nothing rose, the order was settled.
    ensures moved { ¬ IsSettledHarvest result →
        sum order.hopeful + sum order.dual < sum result.hopeful + sum result.dual }
{
    if lifters == 1 {
        return sweep_alone::<Brand, G>(alloc, order, gate, predecessors);
    }
    match sweep_on_board(rt, alloc, order, lifters, gate, predecessors) {
        Ok(harvest) => harvest,
        Err(order) => sweep_alone::<Brand, G>(alloc, order, gate, predecessors),
    }
}
