//! The text of the numbers of vertices with each verdict.
ghost use Rattle.std.specs.Prelude.{[], ◌≡◌, ◌≤◌, ◌++◌, ℕ, List, length, map, All, OnOk, OnErr};
ghost use Rattle.vpg_game.specs.Game.{graph_of};
ghost use Rattle.vpg_measure.specs.Games.{ArePageGames};
ghost use Rattle.vpg_measure.specs.TwoGames.{top_for};
ghost use Rattle.vpg_partial.specs.Known.{literal_of};
ghost use Rattle.vpg_texts.specs.Scene.{IsCounted, scene_of};

use crate::showing::page::is_settled;
use crate::text;
use std::alloc::{AllocError, Global};
use vpg_diagram::Diagram;
use vpg_game::GuardedGame;
use vpg_measure::PageGames;
use vpg_sides::Which;
use vpg_trail::Page;

/// Appends counts of a page: how many vertices are hopeless and how many possible, how many are sure and how many
/// unsure. Then whether both tables are progress tables, and whether each feature is known. The mark ends the last
/// line. The tables have one number up to the top for each vertex.
pub fn count(
    alloc: Global,
    games: &PageGames,
    page: &Page,
    game: &GuardedGame,
    diagram: &Diagram,
    mark: &[u8],
    out: &mut Vec<u8>,
) -> Result<(), AllocError>
    requires games { ArePageGames game.now diagram.now (map literal_of page.now.decisions) games.now }
    requires hopeful { length page.now.hopeful ≡ length game.now.vertices }
    requires dual { length page.now.dual ≡ length game.now.vertices }
    requires hopeful_within { All (λ n. n ≤ top_for Which.Hopeful (graph_of game.now)) page.now.hopeful }
    requires dual_within { All (λ n. n ≤ top_for Which.Dual (graph_of game.now)) page.now.dual }
    ensures counted { OnOk result
        ((text : List ℕ) ×
        (IsCounted (scene_of [] game.now diagram.now) page.now.decisions page.now.hopeful page.now.dual mark.now text ×
        (out.new.items ≡ out.old.items ++ text))) }
    ensures unchanged { OnErr result (out.new.items ≡ out.old.items) }
{
    let full = games.known().is_full();
    let settled = is_settled(games, game, diagram, &page.hopeful, &page.dual);
    let mut text = Vec::new(alloc);
    text::count(
        games,
        full,
        settled,
        mark,
        &page.hopeful,
        &page.dual,
        &mut text,
    )?;
    out.extend_from_slice(&text)
}
