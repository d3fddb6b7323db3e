//! Orders of decisions.

ghost use Rattle.std.specs.Prelude.{◌≡◌, map, IsTrue, IfOk};
ghost use Rattle.vpg_diagram.specs.FeatureDiagram.{feature_count};
ghost use Rattle.vpg_measure.specs.Orders.{IsRaised};
ghost use Rattle.vpg_partial.specs.Known.{literal_of};
ghost use Rattle.vpg_partial.specs.TableLaws.{AreChoicesOf};

use crate::told_of;
use std::alloc::{AllocError, Global};
use std::sync::Arc;
use vpg_diagram::Diagram;
use vpg_game::GuardedGame;
use vpg_measure::{Harvest, Order, OrderFault, Refused, Table};
use vpg_partial::Decision;
use vpg_scarce::{End, Heap, Report};
use vpg_sides::Which;
use vpg_small_family::{fit, order_of, shared};

/// Drops an order. A function that does so itself takes the prover seconds.
pub(crate) fn let_go(_order: Order) {}

const DECISIONS: [Decision; 2] = [
    Decision {
        serial: 1,
        session: 1,
        feature: 1,
        value: true,
    },
    Decision {
        serial: 2,
        session: 1,
        feature: 2,
        value: false,
    },
];

const ORDER_CALLS: &str = "Order::game, diagram, decisions, hopeful, dual, shape, arena";

/// Whether all arguments came back since memory ran out.
fn came_back(refused: &Refused) -> bool {
    refused.fault == OrderFault::Memory
        && [refused.game.vertices(), refused.diagram.features()] == [2, 3]
        && refused.decisions.as_slice() == DECISIONS.as_slice()
        && refused.hopeful.values() == [0, 0].as_slice()
        && refused.dual.values() == [0, 0].as_slice()
}

/// Returns an order of these; or the fault, with a note if the arguments came back.
fn made_of(
    alloc: Global,
    game: Arc<GuardedGame>,
    diagram: Arc<Diagram>,
    decisions: Vec<Decision>,
    is_back: &mut bool,
) -> Result<Order, End> {
    if !fit(&game, &diagram, &decisions) {
        return Err(End::Otherwise);
    }
    match order_of(alloc, game, diagram, decisions) {
        Ok(Ok(order)) => Ok(order),
        Ok(Err(refused)) => {
            *is_back = came_back(&refused);
            Err(End::Memory)
        }
        Err(_) => Err(End::Memory),
    }
}

/// Returns an order of a game and a diagram; or the fault, with a note if the arguments came back.
fn made(
    alloc: Global,
    game: &Arc<GuardedGame>,
    diagram: &Arc<Diagram>,
    decisions: &[Decision],
    is_back: &mut bool,
) -> Result<Order, End> {
    let Ok(decisions) = Vec::from_slice(alloc, decisions) else {
        return Err(End::Memory);
    };
    match shared(game, diagram) {
        Some((game, diagram)) => made_of(alloc, game, diagram, decisions, is_back),
        None => Err(End::Otherwise),
    }
}

/// Returns the order of the opening page.
pub(crate) fn first_order(
    alloc: Global,
    game: &Arc<GuardedGame>,
    diagram: &Arc<Diagram>,
) -> Option<Order> {
    let mut is_back = true;
    made(alloc, game, diagram, &[], &mut is_back).ok()
}

/// Returns the values of both tables of two vertices.
pub(crate) fn both_values(order: &Order) -> [u64; 4] {
    match (order.hopeful().values(), order.dual().values()) {
        ([a, b], [c, d]) => [*a, *b, *c, *d],
        _ => [u64::MAX; 4],
    }
}

/// Makes an order, and drops it.
pub(crate) fn make_order(
    alloc: Global,
    game: &Arc<GuardedGame>,
    diagram: &Arc<Diagram>,
    is_back: &mut bool,
) -> End {
    match made(alloc, game, diagram, &DECISIONS, is_back) {
        Ok(order) => {
            let_go(order);
            End::Done
        }
        Err(end) => end,
    }
}

/// Whether an order has the values that it was made of: with `f` in and `g` out, over tables of zeros.
fn order_tells(order: &Order) -> bool {
    let arena = order.arena(Which::Dual);
    [
        order.game().vertices(),
        order.diagram().features(),
        arena.vertices() as usize,
    ] == [2, 3, 2]
        && order.decisions() == DECISIONS.as_slice()
        && both_values(order) == [0; 4]
        && order.shape(Which::Dual).top() == 2
}

/// Whether a harvest of two vertices has these tables, and says whether they are settled.
fn harvest_tells(harvest: &Harvest, hopeful: u64, dual: u64, is_settled: bool) -> bool {
    if harvest.order().game().vertices() != 2 {
        return false;
    }
    let values = [
        harvest.value(Which::Hopeful, 0),
        harvest.value(Which::Dual, 0),
    ];
    values == [hopeful, dual] && harvest.check() == is_settled
}

/// Returns whether harvests of an order have the right values, and the order of the last one's tables.
fn harvests_tell(order: Order) -> (bool, Order) {
    if order.game().vertices() != 2 {
        return (false, order);
    }
    let harvest = Harvest::one(order, Which::Hopeful, 0);
    let one = harvest_tells(&harvest, 1, 0, false);
    let harvest = Harvest::alone(harvest.again(), 10);
    let alone = harvest_tells(&harvest, 1, 2, true);
    (one && alone, harvest.again())
}

/// Returns one of an order's tables, which may stand in a harvest of it.
fn own_table(order: &Order, which: Which) -> &Table
    ensures { IsRaised which order.now result.now }
{
    order.table(which)
}

/// Returns copies of both tables of an order.
fn tables_of(alloc: Global, order: &Order) -> Result<(Vec<u64>, Vec<u64>), AllocError>
    ensures hopeful { IfOk result (λ both. IsRaised Which.Hopeful order.now both.0.items) }
    ensures dual { IfOk result (λ both. IsRaised Which.Dual order.now both.1.items) }
{
    let hopeful = Vec::from_slice(alloc, own_table(order, Which::Hopeful).values())?;
    let dual = Vec::from_slice(alloc, own_table(order, Which::Dual).values())?;
    Ok((hopeful, dual))
}

/// Hands in settled tables with no memory. Returns whether the harvest has the right values, and its order.
fn handed_in(heap: &mut Heap, order: Order) -> (bool, Order) {
    match tables_of(heap.alloc(), &order) {
        Ok((hopeful, dual)) => {
            heap.leave(0);
            let harvest = Harvest::of(order, hopeful, dual);
            let tells = harvest_tells(&harvest, 1, 2, true);
            let order = harvest.again();
            heap.relax();
            (tells, order)
        }
        Err(_) => (false, order),
    }
}

/// Asks an order, and harvests of it, with no memory.
fn ask(heap: &mut Heap, report: &mut Report, order: Order) {
    heap.leave(0);
    let tells = order_tells(&order);
    heap.relax();
    report.note(heap, ORDER_CALLS, told_of(tells));
    heap.leave(0);
    let (tells, order) = harvests_tell(order);
    heap.relax();
    report.note(
        heap,
        "Harvest::one, alone, check, value, again, order",
        told_of(tells),
    );
    let (tells, order) = handed_in(heap, order);
    let_go(order);
    report.note(heap, "Harvest::of", told_of(tells));
}

/// Asks an order of a game and a diagram, and harvests of it, with no memory.
pub(crate) fn ask_order(
    heap: &mut Heap,
    report: &mut Report,
    game: &Arc<GuardedGame>,
    diagram: &Arc<Diagram>,
) -> Option<()> {
    let mut is_back = true;
    let order = made(heap.alloc(), game, diagram, &DECISIONS, &mut is_back).ok()?;
    ask(heap, report, order);
    Some(())
}
