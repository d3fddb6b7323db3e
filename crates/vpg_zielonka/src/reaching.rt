//! The vertices that plays from a vertex can come to.
ghost use Rattle.std.specs.Prelude.{◌≡◌, ◌<◌, ◌≤◌, ◌⊎◌, ℕ, true, IfOk, IfErr, OnOk, length, slice_set};
ghost use Rattle.vpg_game.specs.Game.{graph_of};
ghost use Rattle.vpg_zielonka.specs.Reached.{IsClosed, IsClosedBut, WaitsIfNew, flagged};
ghost use Rattle.vpg_zielonka.specs.declared.stop.Stop.{Stop};

use crate::stop::{Stop, take_steps};
use crate::worklist::Worklist;
use std::alloc::{AllocError, Global};
use vpg_game::GuardedGame;

/// Adds a vertex to a set, and lets it wait if it is new.
fn add(found: &mut Vec<bool>, waiting: &mut Worklist, v: u32) -> Result<(), AllocError>
    requires found { v < length found.old.items }
    requires waiting { v < length waiting.old }
    ensures found { OnOk result (found.new.items ≡ slice_set found.old.items v true) }
    ensures waiting { OnOk result (WaitsIfNew found.old.items v waiting.old waiting.new) }
{
    let was_found = found[v as usize];
    found[v as usize] = true;
    if was_found {
        return Ok(());
    }
    waiting.add(v)
}

/// Adds the vertices to which edges from a vertex lead.
fn add_next(
    game: &GuardedGame,
    v: u32,
    found: &mut Vec<bool>,
    waiting: &mut Worklist,
) -> Result<(), AllocError>
    requires vertex { v < length (graph_of game.now) }
    requires found { length found.old.items ≡ length (graph_of game.now) }
    requires waiting { length waiting.old ≡ length (graph_of game.now) }
    requires closed { IsClosedBut (graph_of game.now) (flagged found.old.items)
        (λ u. (u ≡ v) ⊎ (flagged waiting.old u ≡ true)) }
    ensures found { OnOk result (length found.new.items ≡ length (graph_of game.now)) }
    ensures waiting { OnOk result (length waiting.new ≡ length (graph_of game.now)) }
    ensures kept { OnOk result ((u : ℕ) → flagged found.old.items u ≡ true → flagged found.new.items u ≡ true) }
    ensures closed { OnOk result (IsClosedBut (graph_of game.now) (flagged found.new.items)
        (λ u. flagged waiting.new u ≡ true)) }
{
    // The contract of `vertices` has what holds of every game.
    let _vertices = game.vertices();
    for edge in game.edges(v) {
        add(found, waiting, edge.to)?;
    }
    Ok(())
}

/// Returns for each vertex whether a play from this one can come to it, in whatever product.
pub(crate) fn reached(
    alloc: Global,
    game: &GuardedGame,
    vertex: u32,
    steps: &mut u64,
) -> Result<Vec<bool>, Stop>
    requires vertex { vertex < length (graph_of game.now) }
    ensures count { IfOk result (λ found. length found.items ≡ length (graph_of game.now)) }
    ensures vertex { IfOk result (λ found. flagged found.items vertex ≡ true) }
    ensures closed { IfOk result (λ found. IsClosed (graph_of game.now) (flagged found.items)) }
    ensures steps { steps.new ≤ steps.old }
    ensures stopped { IfErr result (λ stop. stop ≡ Stop.Full → ⊥) }
    ensures spent { IfErr result (λ stop. stop ≡ Stop.Spent → steps.new ≡ 0) }
{
    let mut found = vec![in alloc; false; game.vertices()]?;
    let mut waiting = Worklist::new(alloc, game.vertices())?;
    add(&mut found, &mut waiting, vertex)?;
    while let Some(v) = waiting.pop() {
        take_steps(steps, 1)?;
        add_next(game, v, &mut found, &mut waiting)?;
    }
    Ok(found)
}
