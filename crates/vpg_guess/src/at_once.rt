//! Both tables of an order raised at once, each by a thread.
ghost use Rattle.std.specs.Prelude.{◌≡◌, IfOk, IfErr, IsTrue};
ghost use Rattle.std.specs.Thread.{IsSync};
ghost use Rattle.vpg_measure.specs.Lifts.{IsProgressTable, IsBelowTable, after_rounds};
ghost use Rattle.vpg_measure.specs.Orders.{IsSameOrder, IsHarvest, IsRaised, order_levels, order_arena, order_table, harvest_table};

use crate::ground::{Groundwork, shape_in};
use crate::harvests::{RaisedTable, harvest_of, raised};
use std::alloc::{AllocError, Global};
use std::sync::Wait;
use std::thread::{Threads, join};
use vpg_measure::{Harvest, Order, Shape};
use vpg_regions::Budget;
use vpg_sides::Which;
use vpg_values::TableGround;

// A copy of one of an order's tables, raised within a budget of its own.
fn raised_alone(
    alloc: Global,
    order: &Order,
    which: Which,
    dual_shape: &Shape,
    kept: &mut Option<TableGround>,
    budget: u64,
) -> Result<RaisedTable, AllocError>
    ensures raised { IfOk result (λ found. IsRaised which order.now found.table) }
    ensures round { IfOk result
        (λ found. IsBelowTable (after_rounds (order_levels which order.now) (order_arena which order.now) 1
        (order_table which order.now)) found.table) }
    ensures settled { IfOk result
        (λ found. IsTrue found.settled →
        IsProgressTable (order_levels which order.now) (order_arena which order.now) found.table) }
{
    let mut budget = Budget::new(budget);
    raised(alloc, order, which, dual_shape, kept, &mut budget)
}

// Both tables, each by a thread and within this budget.
fn each_raised<R: Threads + Wait + Sync>(
    rt: &R,
    alloc: Global,
    order: &Order,
    again: &Shape,
    kept_hopeful: &mut Option<TableGround>,
    kept_dual: &mut Option<TableGround>,
    budget: u64,
) -> (
    Result<RaisedTable, AllocError>,
    Result<RaisedTable, AllocError>,
)
    ensures hopeful { IfOk result.0
        (λ found. IsRaised Which.Hopeful order.now found.table
        × IsBelowTable (after_rounds (order_levels Which.Hopeful order.now) (order_arena Which.Hopeful order.now) 1
        (order_table Which.Hopeful order.now)) found.table
        × (IsTrue found.settled → IsProgressTable (order_levels Which.Hopeful order.now)
        (order_arena Which.Hopeful order.now) found.table)) }
    ensures dual { IfOk result.1
        (λ found. IsRaised Which.Dual order.now found.table
        × IsBelowTable (after_rounds (order_levels Which.Dual order.now) (order_arena Which.Dual order.now) 1
        (order_table Which.Dual order.now)) found.table
        × (IsTrue found.settled → IsProgressTable (order_levels Which.Dual order.now)
        (order_arena Which.Dual order.now) found.table)) }
{
    join(
        rt,
        move || -> Result<RaisedTable, AllocError>
            ensures { IfOk result
                (λ found. IsRaised Which.Hopeful order.entry.now found.table
                × IsBelowTable (after_rounds (order_levels Which.Hopeful order.entry.now)
                (order_arena Which.Hopeful order.entry.now) 1 (order_table Which.Hopeful order.entry.now)) found.table
                × (IsTrue found.settled → IsProgressTable (order_levels Which.Hopeful order.entry.now)
                (order_arena Which.Hopeful order.entry.now) found.table)) }
        {
            raised_alone(
                alloc,
                order,
                Which::Hopeful,
                order.shape(Which::Dual),
                kept_hopeful,
                budget,
            )
        },
        move || -> Result<RaisedTable, AllocError>
            ensures { IfOk result
                (λ found. IsRaised Which.Dual order.entry.now found.table
                × IsBelowTable (after_rounds (order_levels Which.Dual order.entry.now)
                (order_arena Which.Dual order.entry.now) 1 (order_table Which.Dual order.entry.now)) found.table
                × (IsTrue found.settled → IsProgressTable (order_levels Which.Dual order.entry.now)
                (order_arena Which.Dual order.entry.now) found.table)) }
        { raised_alone(alloc, order, Which::Dual, again, kept_dual, budget) },
    )
}

// Both tables, each by a thread and within half of the budget.
fn both_raised_at_once<R: Threads + Wait + Sync>(
    rt: &R,
    alloc: Global,
    order: &Order,
    kept: &mut Groundwork,
    budget: u64,
) -> Result<(RaisedTable, RaisedTable), AllocError>
    ensures hopeful { IfOk result
        (λ tables. IsRaised Which.Hopeful order.now tables.0.table
        × IsBelowTable (after_rounds (order_levels Which.Hopeful order.now) (order_arena Which.Hopeful order.now) 1
        (order_table Which.Hopeful order.now)) tables.0.table
        × (IsTrue tables.0.settled → IsProgressTable (order_levels Which.Hopeful order.now)
        (order_arena Which.Hopeful order.now) tables.0.table)) }
    ensures dual { IfOk result
        (λ tables. IsRaised Which.Dual order.now tables.1.table
        × IsBelowTable (after_rounds (order_levels Which.Dual order.now) (order_arena Which.Dual order.now) 1
        (order_table Which.Dual order.now)) tables.1.table
        × (IsTrue tables.1.settled → IsProgressTable (order_levels Which.Dual order.now)
        (order_arena Which.Dual order.now) tables.1.table)) }
{
    let again = shape_in(alloc, order.game(), &mut kept.dual_of_dual)?;
    let (hopeful, dual) = each_raised(
        rt,
        alloc,
        order,
        again,
        &mut kept.hopeful,
        &mut kept.dual,
        budget / 2,
    );
    Ok((hopeful?, dual?))
}

/// Returns a harvest as `harvest_by_bounds` does, with a thread for each table, and half of the budget for each. The
/// rest of one table's half is not passed to the other. If the machine refuses a thread, the calling one raises both.
pub fn harvest_by_bounds_at_once<R: Threads + Wait + Sync>(
    rt: &R,
    alloc: Global,
    order: Order,
    kept: &mut Groundwork,
    budget: u64,
) -> Result<Harvest, Order>
    ensures order { IfOk result (λ harvest. IsSameOrder harvest.order order) }
    // Its tables are on or above the order's, and below every progress table of the order's two games.
    ensures harvest { IfOk result IsHarvest }
    // They are also on or above the order's tables after a round of lifts.
    ensures round { IfOk result
        (λ harvest. (which : Which) →
        IsBelowTable (after_rounds (order_levels which order) (order_arena which order) 1 (order_table which order))
        (harvest_table which harvest)) }
    ensures back { IfErr result (λ same. same ≡ order) }
{
    match both_raised_at_once(rt, alloc, &order, kept, budget) {
        Ok((hopeful, dual)) => Ok(harvest_of(order, hopeful, dual)),
        Err(_) => Err(order),
    }
}
