//! The games that the decisions of a page leave.
ghost use Rattle.std.specs.Arc.{arc_value};
ghost use Rattle.std.specs.Prelude.{◌≡◌, ◌++◌, map, IfOk};
ghost use Rattle.vpg_diagram.specs.FeatureDiagram.{feature_count};
ghost use Rattle.vpg_game.specs.Game.{IsAtLimit};
ghost use Rattle.vpg_measure.specs.Games.{AreGamesOf, ArePageGames};
ghost use Rattle.vpg_trail.specs.Page.{choices_of};
ghost use Rattle.vpg_trail.specs.Shown.{entry_of};
ghost use Rattle.vpg_desk.specs.Setting.{HasConflict};
ghost use Rattle.vpg_desk.specs.State.{setting_between};

use std::alloc::{AllocError, Global};
use std::sync::Arc;
use vpg_diagram::Diagram;
use vpg_game::GuardedGame;
use vpg_measure::{OrderFault, PageGames};
use vpg_trail::{Entry, decisions_among};

/// Returns the games of a page, from those of another: the entries before a place, and then a suffix. The page has no
/// conflict.
pub(crate) fn games_of_page(
    alloc: Global,
    game: &GuardedGame,
    diagram: &Diagram,
    before: &[Entry],
    suffix: &[Entry],
    present: &PageGames,
) -> Result<Arc<PageGames>, AllocError>
    requires features { game.now.features ≡ feature_count diagram.now.lines }
    requires held { AreGamesOf game.now diagram.now present.now }
    requires not_at_limit { ¬ IsAtLimit game.now }
    requires consistent { ¬ (HasConflict (setting_between game.now diagram.now)
        (choices_of (map entry_of before.now ++ map entry_of suffix.now))) }
    ensures { IfOk result (λ games.
        ArePageGames game.now diagram.now (choices_of (map entry_of before.now ++ map entry_of suffix.now))
        (arc_value games)) }
{
    let mut decisions = decisions_among(alloc, before)?;
    let mut later = decisions_among(alloc, suffix)?;
    decisions.append(&mut later)?;
    match present.updated(alloc, game, diagram, &decisions) {
        Ok(games) => games.share(alloc),
        Err(OrderFault::AtLimit) => unreachable!(),
        Err(OrderFault::Conflict { .. }) => unreachable!(),
        Err(OrderFault::Memory) => Err(AllocError),
    }
}
