//! The text of a page's decisions, tables and verdicts.
ghost use Rattle.std.specs.Prelude.{◌≡◌, ◌≤◌, ◌↔◌, ◌++◌, ℕ, List, length, map, All, IfOk, IsTrue, OnOk, OnErr};
ghost use Rattle.std.specs.Bool.{Decides};
ghost use Rattle.vpg_game.specs.Game.{graph_of};
ghost use Rattle.vpg_measure.specs.Games.{AreGamesOf, ArePageGames, games_levels, games_arena};
ghost use Rattle.vpg_measure.specs.Lifts.{IsTableOf, IsProgressTable};
ghost use Rattle.vpg_measure.specs.TwoGames.{top_for};
ghost use Rattle.vpg_partial.specs.Known.{literal_of};
ghost use Rattle.vpg_partial.specs.TableLaws.{AreChoicesOf};
ghost use Rattle.vpg_texts.specs.Scene.{AreProgressTables, IsShown, TellsUnder, scene_of, shown_lines};

use crate::text;
use std::alloc::{AllocError, Global};
use vpg_diagram::Diagram;
use vpg_game::{GuardedGame, VertexNames};
use vpg_measure::{PageGames, Table, is_progress};
use vpg_partial::Decision;
use vpg_sides::Which;
use vpg_trail::Page;

/// Whether no lift raises one of the two tables.
pub(crate) fn is_settled_table(games: &PageGames, which: Which, table: &Table) -> bool
    requires { IsTableOf (games_levels which games.now) (games_arena which games.now) table.now }
    ensures { IsTrue result ↔ IsProgressTable (games_levels which games.now) (games_arena which games.now) table.now }
{
    is_progress(games.shape(which), games.arena(which), table)
}

/// Whether both tables are progress tables of a page's games.
pub(crate) fn is_settled(
    games: &PageGames,
    game: &GuardedGame,
    diagram: &Diagram,
    hopeful: &Table,
    dual: &Table,
) -> bool
    requires games { AreGamesOf game.now diagram.now games.now }
    requires hopeful { length hopeful.now ≡ length game.now.vertices }
    requires dual { length dual.now ≡ length game.now.vertices }
    requires hopeful_within { All (λ n. n ≤ top_for Which.Hopeful (graph_of game.now)) hopeful.now }
    requires dual_within { All (λ n. n ≤ top_for Which.Dual (graph_of game.now)) dual.now }
    ensures { Decides result (AreProgressTables games.now.known (graph_of game.now) hopeful.now dual.now) }
{
    if !is_settled_table(games, Which::Hopeful, hopeful) {
        return false;
    }
    is_settled_table(games, Which::Dual, dual)
}

/// Appends the text of decisions and tables, over the games that the decisions leave.
fn shown(
    alloc: Global,
    games: &PageGames,
    game: &GuardedGame,
    diagram: &Diagram,
    labels: &VertexNames,
    decisions: &[Decision],
    hopeful: &Table,
    dual: &Table,
) -> Result<Vec<u8>, AllocError>
    requires games { ArePageGames game.now diagram.now (map literal_of decisions.now) games.now }
    requires named { AreChoicesOf diagram.now.lines (map literal_of decisions.now) }
    requires hopeful { length hopeful.now ≡ length game.now.vertices }
    requires dual { length dual.now ≡ length game.now.vertices }
    requires hopeful_within { All (λ n. n ≤ top_for Which.Hopeful (graph_of game.now)) hopeful.now }
    requires dual_within { All (λ n. n ≤ top_for Which.Dual (graph_of game.now)) dual.now }
    ensures { IfOk result (λ text.
        TellsUnder (graph_of game.now) games.now.known hopeful.now dual.now
        (shown_lines (scene_of labels.now.names game.now diagram.now) decisions.now hopeful.now dual.now) text.items) }
{
    let full = games.known().is_full();
    let settled = is_settled(games, game, diagram, hopeful, dual);
    let mut text = Vec::new(alloc);
    text::page(
        diagram.names(),
        game,
        labels,
        games,
        decisions,
        full,
        settled,
        hopeful,
        dual,
        &mut text,
    )?;
    Ok(text)
}

/// Appends the text of a page: its decisions in their order, whether each feature is known, and whether both tables are
/// progress tables. Then each vertex with its two measures, its verdict and its name. The tables have one number up to
/// the top for each vertex.
pub fn show(
    alloc: Global,
    games: &PageGames,
    page: &Page,
    game: &GuardedGame,
    diagram: &Diagram,
    labels: &VertexNames,
    out: &mut Vec<u8>,
) -> Result<(), AllocError>
    requires games { ArePageGames game.now diagram.now (map literal_of page.now.decisions) games.now }
    requires named { AreChoicesOf diagram.now.lines (map literal_of page.now.decisions) }
    requires hopeful { length page.now.hopeful ≡ length game.now.vertices }
    requires dual { length page.now.dual ≡ length game.now.vertices }
    requires hopeful_within { All (λ n. n ≤ top_for Which.Hopeful (graph_of game.now)) page.now.hopeful }
    requires dual_within { All (λ n. n ≤ top_for Which.Dual (graph_of game.now)) page.now.dual }
    ensures shown { OnOk result
        ((text : List ℕ) ×
        (IsShown (scene_of labels.now.names game.now diagram.now) page.now.decisions page.now.hopeful page.now.dual
        text ×
        (out.new.items ≡ out.old.items ++ text))) }
    ensures unchanged { OnErr result (out.new.items ≡ out.old.items) }
{
    let text = shown(
        alloc,
        games,
        game,
        diagram,
        labels,
        page.decisions.as_slice(),
        &page.hopeful,
        &page.dual,
    )?;
    out.extend_from_slice(&text)
}
