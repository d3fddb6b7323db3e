//! The parts of a desk that are made before it is opened.
ghost use Rattle.std.specs.Arc.{arc_value};
ghost use Rattle.std.specs.Prelude.{◌≡◌, ◌↔◌, ℕ, [], length, Err, IfOk, IfErr, OnOk};
ghost use Rattle.vpg_diagram.specs.FeatureDiagram.{feature_count};
ghost use Rattle.vpg_game.specs.Game.{IsAtLimit, graph_of};
ghost use Rattle.vpg_measure.specs.Games.{ArePageGames};
ghost use Rattle.vpg_partial.specs.KnownLaws.{HasConflictOf};
ghost use Rattle.vpg_desk.specs.State.{IsOpened};

use std::alloc::Global;
use std::sync::Arc;
use vpg_diagram::Diagram;
use vpg_faults::OpenFault;
use vpg_game::GuardedGame;
use vpg_measure::{OrderFault, PageGames};
use vpg_sides::Which;
use vpg_trail::Trail;

/// Returns the games without a decision.
fn first_games(
    alloc: Global,
    game: &GuardedGame,
    diagram: &Diagram,
) -> Result<Arc<PageGames>, OpenFault>
    requires { game.now.features ≡ feature_count diagram.now.lines }
    ensures games { IfOk result (λ games. ArePageGames game.now diagram.now [] (arc_value games)) }
    ensures at_limit { (result ≡ Err OpenFault.AtLimit) ↔ IsAtLimit game.now }
    ensures conflict { (f : ℕ) → result ≡ Err (OpenFault.Conflict f) → HasConflictOf diagram.now.lines [] × (f ≡ 0) }
{
    match PageGames::under(alloc, game, diagram, &[]) {
        Ok(games) => Ok(games.share(alloc)?),
        Err(OrderFault::AtLimit) => Err(OpenFault::AtLimit),
        Err(OrderFault::Conflict { feature }) => Err(OpenFault::Conflict { feature }),
        Err(OrderFault::Memory) => Err(OpenFault::Memory),
    }
}

/// Returns the games and the trail of a page without entries.
pub(crate) fn first_page(
    alloc: Global,
    game: &GuardedGame,
    diagram: &Diagram,
) -> Result<(Arc<PageGames>, Trail), OpenFault>
    requires { game.now.features ≡ feature_count diagram.now.lines }
    ensures opened { OnOk result (IsOpened game.now diagram.now) }
    ensures games { IfOk result (λ made. ArePageGames game.now diagram.now [] (arc_value made.0)) }
    ensures trail { IfOk result (λ made. made.1 ≡ record { vertices = length (graph_of game.now); entries = [] }) }
    ensures at_limit { (result ≡ Err OpenFault.AtLimit) ↔ IsAtLimit game.now }
    ensures conflict { (f : ℕ) → result ≡ Err (OpenFault.Conflict f) → HasConflictOf diagram.now.lines [] × (f ≡ 0) }
{
    let games = first_games(alloc, game, diagram)?;
    let trail = Trail::open(
        alloc,
        games.shape(Which::Hopeful),
        games.shape(Which::Dual),
        game.vertices() as u32,
    )?;
    Ok((games, trail))
}
