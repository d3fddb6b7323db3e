//! Sweeps of one lifter: it shares its tables with nobody, so it needs no board.

ghost use Rattle.std.specs.Prelude.{◌≡◌, ◌<◌, ◌≤◌, ◌+◌, ℕ, sum, slice_index};
ghost use Rattle.vpg_hope.specs.Arena.{vertex_at};
ghost use Rattle.vpg_measure.specs.Lifts.{lift_of, IsBelowTable};
ghost use Rattle.vpg_measure.specs.Orders.{IsSameOrder, IsHarvest, IsSettledHarvest, order_levels, order_arena, order_table, harvest_table};
ghost use Rattle.vpg_board.specs.Alone.{Rises, AreLifted, lift_over};
ghost use Rattle.vpg_board.specs.Places.{vertices};

use crate::hints::{Hints, Vertices};
use crate::predecessors::Predecessors;
use crate::sweeping::{Gate, HINTED_LIFTS};
use std::alloc::Global;
use vpg_measure::{Harvest, Order};
use vpg_sides::Which;

// Lifts a vertex, and after a raise hints at the vertices that keep an edge to it.
fn raise_and_hint<J: Vertices>(
    harvest: &mut Harvest,
    predecessors: &Predecessors,
    hints: &mut Hints<J>,
    which: Which,
    v: u32,
)
    requires vertex { v < vertices harvest.old.order }
    requires predecessors { predecessors.now.vertices ≡ J.vertices }
    ensures rises { Rises harvest.old harvest.new }
    ensures lifted { lift_over which harvest.old v ≤ slice_index (harvest_table which harvest.new) v }
{
    if harvest.raise(which, v) {
        hints.give_all(which, predecessors.in_game(which), v);
    }
}

// Lifts hinted vertices, a few at most.
fn raise_hinted<J: Vertices, G: Gate>(
    harvest: &mut Harvest,
    gate: &G,
    predecessors: &Predecessors,
    hints: &mut Hints<J>,
)
    requires harvest { IsHarvest harvest.old }
    requires game { J.vertices ≡ vertices harvest.old.order }
    requires predecessors { predecessors.now.vertices ≡ J.vertices }
    ensures { Rises harvest.old harvest.new }
{
    'hinted: for _ in 0..HINTED_LIFTS {
        let Some((which, v)) = hints.take() else {
            return;
        };
        raise_and_hint(harvest, predecessors, hints, which, v);
        gate.after_lift(1);
    }
}

// Claims the vertices of one table in file order, and lifts each of them and the hinted vertices.
fn raise_table<J: Vertices, G: Gate>(
    harvest: &mut Harvest,
    gate: &G,
    predecessors: &Predecessors,
    hints: &mut Hints<J>,
    which: Which,
)
    requires game { J.vertices ≡ vertices harvest.old.order }
    requires predecessors { predecessors.now.vertices ≡ J.vertices }
    ensures rises { Rises harvest.old harvest.new }
    ensures lifted { AreLifted which harvest.old harvest.new (vertices harvest.old.order) }
{
    let count = harvest.order().game().vertices() as u32;
    'claims: for v in 0..count {
        gate.before_claim(1);
        raise_and_hint(harvest, predecessors, hints, which, v);
        gate.after_lift(1);
        raise_hinted(harvest, gate, predecessors, hints);
    }
}

/// Lifts each vertex of both tables at least once, as a sweep of one lifter does, in the order's room.
pub(crate) fn sweep_alone<J: Vertices, G: Gate>(
    alloc: Global,
    order: Order,
    gate: &G,
    predecessors: &Predecessors,
) -> Harvest
    requires game { J.vertices ≡ vertices order }
    requires predecessors { predecessors.now.vertices ≡ J.vertices }
    ensures order { IsSameOrder result.order order }
    ensures lifted { (which : Which) (v : ℕ) → v < vertices order →
        lift_of (order_levels which order) (order_table which order)
        (vertex_at (order_arena which order) v) ≤ slice_index (harvest_table which result) v }
    ensures above { (which : Which) → IsBelowTable (order_table which order) (harvest_table which result) }
    ensures harvest { IsHarvest result }
    ensures moved { ¬ IsSettledHarvest result →
        sum order.hopeful + sum order.dual < sum result.hopeful + sum result.dual }
{
    let _game = order.game();
    let mut hints: Hints<J> = if predecessors.are_none() {
        Hints::none()
    } else {
        Hints::beside(alloc, None)
    };
    let mut harvest = Harvest::alone(order, 0);
    raise_table(&mut harvest, gate, predecessors, &mut hints, Which::Hopeful);
    raise_table(&mut harvest, gate, predecessors, &mut hints, Which::Dual);
    // The claim that finds none left.
    gate.before_claim(1);
    harvest
}
