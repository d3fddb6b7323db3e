//! Both tables of an order raised within one budget.
ghost use Rattle.std.specs.Prelude.{◌≡◌, IfOk, IfErr, IsTrue};
ghost use Rattle.vpg_measure.specs.Lifts.{IsProgressTable, IsBelowTable, after_rounds};
ghost use Rattle.vpg_measure.specs.Orders.{IsSameOrder, IsHarvest, IsRaised, IsSettledHarvest, order_levels, order_arena, order_table, harvest_table};

use crate::ground::{Groundwork, shape_in};
use crate::raising::Raising;
use std::alloc::{AllocError, Global};
use vpg_measure::{Harvest, Order, Shape, Table};
use vpg_regions::Budget;
use vpg_sides::Which;
use vpg_values::TableGround;

/// A raised table, and whether it is known to be a progress table.
#[derive(Drop)]
pub(crate) struct RaisedTable {
    pub(crate) table: Table,
    pub(crate) settled: bool,
}

/// Returns a copy of one of an order's tables, raised.
pub(crate) fn raised(
    alloc: Global,
    order: &Order,
    which: Which,
    dual_shape: &Shape,
    kept: &mut Option<TableGround>,
    budget: &mut Budget,
) -> Result<RaisedTable, AllocError>
    ensures raised { IfOk result (λ found. IsRaised which order.now found.table) }
    ensures round { IfOk result
        (λ found. IsBelowTable (after_rounds (order_levels which order.now) (order_arena which order.now) 1
        (order_table which order.now)) found.table) }
    ensures settled { IfOk result
        (λ found. IsTrue found.settled →
        IsProgressTable (order_levels which order.now) (order_arena which order.now) found.table) }
{
    let table = order.table(which).copy(alloc)?;
    let mut raising = Raising {
        alloc,
        shape: order.shape(which),
        dual_shape,
        arena: order.arena(which),
        table,
    };
    let settled = raising.raise(kept, budget)?;
    let table = raising.into_table();
    Ok(RaisedTable { table, settled })
}

// The hopeful table has half of the budget, and the dual one the rest.
fn both_raised(
    alloc: Global,
    order: &Order,
    kept: &mut Groundwork,
    budget: u64,
) -> Result<(RaisedTable, RaisedTable), AllocError>
    ensures hopeful { IfOk result (λ tables. IsRaised Which.Hopeful order.now tables.0.table) }
    ensures dual { IfOk result (λ tables. IsRaised Which.Dual order.now tables.1.table) }
    ensures hopeful_round { IfOk result
        (λ tables. IsBelowTable (after_rounds (order_levels Which.Hopeful order.now)
        (order_arena Which.Hopeful order.now) 1 (order_table Which.Hopeful order.now)) tables.0.table) }
    ensures dual_round { IfOk result
        (λ tables. IsBelowTable (after_rounds (order_levels Which.Dual order.now) (order_arena Which.Dual order.now) 1
        (order_table Which.Dual order.now)) tables.1.table) }
    ensures hopeful_settled { IfOk result
        (λ tables. IsTrue tables.0.settled →
        IsProgressTable (order_levels Which.Hopeful order.now) (order_arena Which.Hopeful order.now) tables.0.table) }
    ensures dual_settled { IfOk result
        (λ tables. IsTrue tables.1.settled →
        IsProgressTable (order_levels Which.Dual order.now) (order_arena Which.Dual order.now) tables.1.table) }
{
    let again = shape_in(alloc, order.game(), &mut kept.dual_of_dual)?;
    let mut budget = Budget::new(budget);
    let mut share = budget.take_half();
    let hopeful = raised(
        alloc,
        order,
        Which::Hopeful,
        order.shape(Which::Dual),
        &mut kept.hopeful,
        &mut share,
    )?;
    budget.give_back(share);
    let dual = raised(
        alloc,
        order,
        Which::Dual,
        again,
        &mut kept.dual,
        &mut budget,
    )?;
    Ok((hopeful, dual))
}

// A harvest with a note if both tables are known to be progress tables.
fn noted_where(harvest: Harvest, hopeful_settled: bool, dual_settled: bool) -> Harvest
    requires { IsTrue hopeful_settled → IsTrue dual_settled → IsSettledHarvest harvest }
    ensures { result ≡ harvest }
{
    if !hopeful_settled {
        return harvest;
    }
    if !dual_settled {
        return harvest;
    }
    harvest.noted()
}

/// Returns the order with these tables, raised from its own.
pub(crate) fn harvest_of(order: Order, hopeful: RaisedTable, dual: RaisedTable) -> Harvest
    requires hopeful { IsRaised Which.Hopeful order hopeful.table }
    requires dual { IsRaised Which.Dual order dual.table }
    requires hopeful_round { IsBelowTable (after_rounds (order_levels Which.Hopeful order)
        (order_arena Which.Hopeful order) 1 (order_table Which.Hopeful order)) hopeful.table }
    requires dual_round { IsBelowTable (after_rounds (order_levels Which.Dual order)
        (order_arena Which.Dual order) 1 (order_table Which.Dual order)) dual.table }
    requires hopeful_settled { IsTrue hopeful.settled →
        IsProgressTable (order_levels Which.Hopeful order) (order_arena Which.Hopeful order) hopeful.table }
    requires dual_settled { IsTrue dual.settled →
        IsProgressTable (order_levels Which.Dual order) (order_arena Which.Dual order) dual.table }
    ensures order { IsSameOrder result.order order }
    ensures harvest { IsHarvest result }
    ensures round { (which : Which) →
        IsBelowTable (after_rounds (order_levels which order) (order_arena which order) 1 (order_table which order))
        (harvest_table which result) }
{
    let RaisedTable {
        table: hopeful_table,
        settled: hopeful_settled,
    } = hopeful;
    let RaisedTable {
        table: dual_table,
        settled: dual_settled,
    } = dual;
    let harvest = Harvest::of(order, hopeful_table.into_values(), dual_table.into_values());
    let _order = harvest.order();
    noted_where(harvest, hopeful_settled, dual_settled)
}

/// Returns the order with both its tables raised as by `raise_within`, within one budget, and by what is kept of its
/// game, which is kept on. The only error is a lack of memory; then the order comes back.
pub fn harvest_by_bounds(
    alloc: Global,
    order: Order,
    kept: &mut Groundwork,
    budget: u64,
) -> Result<Harvest, Order>
    ensures order { IfOk result (λ harvest. IsSameOrder harvest.order order) }
    // Its tables are on or above the order's, and below every progress table of the order's two games.
    ensures harvest { IfOk result IsHarvest }
    // They are also on or above the order's tables after a round of lifts.
    ensures round { IfOk result
        (λ harvest. (which : Which) →
        IsBelowTable (after_rounds (order_levels which order) (order_arena which order) 1 (order_table which order))
        (harvest_table which harvest)) }
    ensures back { IfErr result (λ same. same ≡ order) }
{
    match both_raised(alloc, &order, kept, budget) {
        Ok((hopeful, dual)) => Ok(harvest_of(order, hopeful, dual)),
        Err(_) => Err(order),
    }
}
