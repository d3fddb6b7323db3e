//! The least progress table of an arena, and its moves.
ghost use Rattle.std.specs.Prelude.{◌≡◌, ◌↔◌, ◌<◌, ◌≤◌, ◌-◌, ℕ, List, length, replicate, slice_index, IfOk, IfSome, IsNone, IsTrue};
ghost use Rattle.vpg_game.specs.Levels.{top_of};
ghost use Rattle.vpg_hope.specs.Strategies.{Wins};
ghost use Rattle.vpg_measure.specs.Least.{IsLeastTable};
ghost use Rattle.vpg_measure.specs.Lifts.{IsTableOf, IsProgressTable, IsBelowTable, AreChoices, after_rounds};
ghost use Rattle.vpg_measure.specs.Views.{strategy_of};

use crate::question::Limits;
use std::alloc::{AllocError, Global};
use vpg_guess::raise_within;
use vpg_hope::Arena;
use vpg_measure::{Shape, StrategyFault, Table, is_progress, settle_alone, strategy};
use vpg_sides::Player;

// Raises a table by certified bounds, which take half at most of the looks that are left. Returns whether it is a
// progress table then.
pub(crate) fn raise_for(
    alloc: Global,
    shape: &Shape,
    dual_shape: &Shape,
    arena: &Arena,
    table: &mut Table,
    looks: &mut u64,
) -> Result<bool, AllocError>
    requires { IsTableOf shape.now arena.now table.old }
    ensures settled { IfOk result (λ settled. IsTrue settled ↔ IsProgressTable shape.now arena.now table.new) }
    ensures table { IsTableOf shape.now arena.now table.new }
    ensures above { IsBelowTable table.old table.new }
    ensures below { (other : List ℕ) → IsTableOf shape.now arena.now other → IsProgressTable shape.now arena.now other →
        IsBelowTable table.old other → IsBelowTable table.new other }
    // A table takes a look for each vertex at least.
    ensures spent { IfOk result (λ settled. looks.new ≤ looks.old - length arena.now) }
{
    let rest = looks.saturating_sub(arena.vertices() as u64);
    let mut lent = rest / 2;
    let kept = rest - lent;
    let settled = raise_within(alloc, shape, dual_shape, arena, table, &mut lent)?;
    *looks = kept + lent;
    Ok(settled)
}

// Raises a table by certified bounds and, if these do not settle it, by rounds of lifts. Returns whether it is a
// progress table then.
pub(crate) fn raise(
    alloc: Global,
    shape: &Shape,
    dual_shape: &Shape,
    arena: &Arena,
    table: &mut Table,
    limits: Limits,
    looks: &mut u64,
) -> Result<bool, AllocError>
    requires { IsTableOf shape.now arena.now table.old }
    ensures settled { IfOk result (λ settled. IsTrue settled ↔ IsProgressTable shape.now arena.now table.new) }
    ensures table { IsTableOf shape.now arena.now table.new }
    ensures below { (other : List ℕ) → IsTableOf shape.now arena.now other → IsProgressTable shape.now arena.now other →
        IsBelowTable table.old other → IsBelowTable table.new other }
    // It is on or above what this many rounds alone leave,
    ensures above { IfOk result (λ settled.
        IsBelowTable (after_rounds shape.now arena.now limits.rounds table.old) table.new) }
    // and a progress table if they leave one.
    ensures rounds { IfOk result (λ settled.
        IsProgressTable shape.now arena.now (after_rounds shape.now arena.now limits.rounds table.old) →
        IsTrue settled) }
    // A table takes a look for each vertex at least.
    ensures spent { IfOk result (λ settled. looks.new ≤ looks.old - length arena.now) }
{
    let settled = raise_for(alloc, shape, dual_shape, arena, table, looks)?;
    if settled {
        return Ok(true);
    }
    settle_alone(shape, arena, table, limits.rounds);
    Ok(is_progress(shape, arena, table))
}

// The least progress table of an arena, if the limits leave room for it. The other shape is that of its dual.
pub(crate) fn least_table(
    alloc: Global,
    shape: &Shape,
    dual_shape: &Shape,
    arena: &Arena,
    limits: Limits,
    looks: &mut u64,
) -> Result<Option<Table>, AllocError>
    ensures least { IfOk result (λ found. IfSome found (λ table. IsLeastTable shape.now arena.now table)) }
    ensures settled { IfOk result (λ found. IsNone found → IsProgressTable shape.now arena.now
        (after_rounds shape.now arena.now limits.rounds (replicate (length arena.now) 0)) → ⊥) }
    ensures looks { IfOk result (λ found. looks.new ≤ looks.old - length arena.now) }
{
    let mut table = Table::zero(alloc, shape, arena.vertices())?;
    let settled = raise(alloc, shape, dual_shape, arena, &mut table, limits, looks)?;
    if settled { Ok(Some(table)) } else { Ok(None) }
}

// The moves of Even by the least progress table; nothing if the vertex is at the top there.
pub(crate) fn moves_by(
    alloc: Global,
    shape: &Shape,
    arena: &Arena,
    table: &Table,
    vertex: u32,
) -> Result<Option<Vec<Option<u32>>>, AllocError>
    requires least { IsLeastTable shape.now arena.now table.now }
    requires vertex { vertex < length arena.now }
    ensures chosen { IfOk result (λ found. IfSome found (λ moves.
        AreChoices shape.now arena.now table.now moves.items)) }
    ensures low { IfOk result (λ found. IfSome found (λ moves. slice_index table.now vertex < top_of shape.now)) }
    ensures wins { IfOk result (λ found. IfSome found (λ moves.
        Wins arena.now Player.Even (strategy_of moves.items) vertex)) }
    ensures top { IfOk result (λ found. IsNone found → slice_index table.now vertex ≡ top_of shape.now) }
{
    if table.get(vertex) == shape.top() {
        return Ok(None);
    }
    match strategy(alloc, shape, arena, table) {
        Ok(moves) => Ok(Some(moves)),
        Err(StrategyFault::NotSettled) => unreachable!(),
        Err(StrategyFault::Memory) => Err(AllocError),
    }
}
