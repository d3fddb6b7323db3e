//! Calls that make something of decisions.

ghost use Rattle.std.specs.Prelude.{IsTrue};
ghost use Rattle.vpg_measure.specs.Lifts.{IsTableOf};

use crate::done_if;
use std::alloc::Global;
use vpg_diagram::Diagram;
use vpg_game::GuardedGame;
use vpg_hope::Arena;
use vpg_measure::{Shape, StrategyFault, Table, strategy};
use vpg_partial::{Decision, Partial, PartialFault};
use vpg_scarce::End;
use vpg_small_family::are_below;

/// All three features decided in.
pub(crate) const DECISIONS: [Decision; 3] = [
    Decision {
        serial: 1,
        session: 1,
        feature: 0,
        value: true,
    },
    Decision {
        serial: 2,
        session: 1,
        feature: 1,
        value: true,
    },
    Decision {
        serial: 3,
        session: 1,
        feature: 2,
        value: true,
    },
];

/// The hopeful table once it is settled.
pub(crate) const SETTLED: [u64; 2] = [1, 0];

/// Returns the features that the decisions make known, if each is on a feature of the diagram.
pub(crate) fn close_checked(
    alloc: Global,
    diagram: &Diagram,
    decisions: &[Decision],
) -> Result<Partial, PartialFault> {
    if !are_below(diagram.features(), decisions) {
        return Err(PartialFault::Conflict { feature: 0 });
    }
    Partial::close(alloc, diagram, decisions)
}

pub(crate) fn close(alloc: Global, diagram: &Diagram) -> End {
    match close_checked(alloc, diagram, &DECISIONS) {
        Ok(known) => done_if(known.is_full()),
        Err(PartialFault::Memory) => End::Memory,
        Err(_) => End::Otherwise,
    }
}

pub(crate) fn make_product(alloc: Global, known: &Partial) -> End {
    match known.product(alloc) {
        Ok(Some(set)) => done_if(set.as_slice() == [true, true, true].as_slice()),
        Ok(None) => End::Otherwise,
        Err(_) => End::Memory,
    }
}

pub(crate) fn make_arena(alloc: Global, game: &GuardedGame, known: &Partial) -> End {
    if known.values().len() != game.features() {
        return End::Otherwise;
    }
    match Arena::hopeful(alloc, game, known) {
        Ok(arena) => done_if(arena.vertices() == 2),
        Err(_) => End::Memory,
    }
}

pub(crate) fn make_shape(alloc: Global, game: &GuardedGame) -> End {
    match Shape::of(alloc, game) {
        Ok(shape) => done_if(shape.top() == 2),
        Err(_) => End::Memory,
    }
}

pub(crate) fn make_zeros(alloc: Global, shape: &Shape) -> End {
    match Table::zero(alloc, shape, 3) {
        Ok(table) => done_if(table.values() == [0, 0, 0].as_slice()),
        Err(_) => End::Memory,
    }
}

pub(crate) fn copy_table(alloc: Global, table: &Table) -> End {
    match table.copy(alloc) {
        Ok(copy) => done_if(copy.values() == table.values()),
        Err(_) => End::Memory,
    }
}

/// Whether this is a table of the arena's measures.
pub(crate) fn is_table(shape: &Shape, arena: &Arena, table: &Table) -> bool
    ensures { IsTrue result → IsTableOf shape.now arena.now table.now }
{
    table.values().len() == arena.vertices() as usize
        && table.values().iter().all(|n| *n <= shape.top())
}

pub(crate) fn make_strategy(alloc: Global, shape: &Shape, arena: &Arena, table: &Table) -> End {
    if !is_table(shape, arena, table) {
        return End::Otherwise;
    }
    match strategy(alloc, shape, arena, table) {
        Ok(choices) => done_if(choices.as_slice() == [Some(1), None].as_slice()),
        Err(StrategyFault::Memory) => End::Memory,
        Err(_) => End::Otherwise,
    }
}

/// Returns the hopeful arena of a game under these known features, if they are the game's.
pub(crate) fn arena_of(alloc: Global, game: &GuardedGame, known: &Partial) -> Option<Arena> {
    if known.values().len() != game.features() {
        return None;
    }
    Arena::hopeful(alloc, game, known).ok()
}
