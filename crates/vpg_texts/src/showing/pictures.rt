//! The picture of a page's game.
ghost use Rattle.std.specs.Prelude.{◌≡◌, ◌++◌, ℕ, List, length, map, OnOk, OnErr};
ghost use Rattle.vpg_diagram.specs.FeatureDiagram.{feature_count};
ghost use Rattle.vpg_measure.specs.Games.{ArePageGames};
ghost use Rattle.vpg_partial.specs.Known.{literal_of};
ghost use Rattle.vpg_partial.specs.TableLaws.{AreChoicesOf};
ghost use Rattle.vpg_texts.specs.Picture.{IsDrawn};
ghost use Rattle.vpg_texts.specs.Scene.{scene_of};

use crate::showing::changes::verdicts_over;
use std::alloc::{AllocError, Global};
use vpg_diagram::Diagram;
use vpg_draw::draw_game;
use vpg_game::{GuardedGame, VertexNames};
use vpg_measure::PageGames;
use vpg_trail::Page;

/// Appends the picture of a page's game, over the games that its decisions leave: its decisions, the verdicts by its
/// tables, the names of the vertices, and each guard by what is known.
pub fn draw_over(
    alloc: Global,
    games: &PageGames,
    page: &Page,
    game: &GuardedGame,
    diagram: &Diagram,
    labels: &VertexNames,
    out: &mut Vec<u8>,
) -> Result<(), AllocError>
    requires features { game.now.features ≡ feature_count diagram.now.lines }
    requires games { ArePageGames game.now diagram.now (map literal_of page.now.decisions) games.now }
    requires named { AreChoicesOf diagram.now.lines (map literal_of page.now.decisions) }
    requires hopeful { length page.now.hopeful ≡ length game.now.vertices }
    requires dual { length page.now.dual ≡ length game.now.vertices }
    ensures drawn { OnOk result
        ((text : List ℕ) ×
        (IsDrawn (scene_of labels.now.names game.now diagram.now) page.now.decisions page.now.hopeful page.now.dual
        text ×
        (out.new.items ≡ out.old.items ++ text))) }
    ensures unchanged { OnErr result (out.new.items ≡ out.old.items) }
{
    let verdicts = verdicts_over(alloc, games, page, game)?;
    draw_game(
        alloc,
        game,
        diagram.names(),
        games.known(),
        page.decisions.as_slice(),
        labels,
        &verdicts,
        out,
    )
}
