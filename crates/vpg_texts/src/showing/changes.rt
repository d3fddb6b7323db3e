//! The verdicts of a page, and the text of those that differ from earlier ones.
ghost use Rattle.std.specs.Prelude.{◌≡◌, ◌++◌, length, IfOk, OnOk, OnErr};
ghost use Rattle.vpg_game.specs.Game.{graph_of, vertex_ids};
ghost use Rattle.vpg_measure.specs.Games.{games_levels};
ghost use Rattle.vpg_measure.specs.TwoGames.{levels_for};
ghost use Rattle.vpg_texts.specs.Changed.{changed_text, verdicts_by};

use crate::changed;
use std::alloc::{AllocError, Global};
use vpg_game::{GuardedGame, VertexNames};
use vpg_measure::{PageGames, Table};
use vpg_sides::{Verdict, Which};
use vpg_trail::Page;

/// Returns each vertex's verdict by two tables, in file order. The tables have one number for each vertex, and the
/// games are those of this game: no guard and no edge is looked at.
pub fn verdicts_by(
    alloc: Global,
    games: &PageGames,
    game: &GuardedGame,
    hopeful: &Table,
    dual: &Table,
) -> Result<Vec<Verdict>, AllocError>
    requires levels { (which : Which) → games_levels which games.now ≡ levels_for which (graph_of game.now) }
    requires hopeful { length hopeful.now ≡ length game.now.vertices }
    requires dual { length dual.now ≡ length game.now.vertices }
    ensures { IfOk result (λ verdicts. verdicts.items ≡ verdicts_by (graph_of game.now) hopeful.now dual.now) }
{
    changed::verdicts(alloc, games, game, hopeful, dual)
}

/// Returns each vertex's verdict by a page's tables, in file order.
pub fn verdicts_over(
    alloc: Global,
    games: &PageGames,
    page: &Page,
    game: &GuardedGame,
) -> Result<Vec<Verdict>, AllocError>
    requires levels { (which : Which) → games_levels which games.now ≡ levels_for which (graph_of game.now) }
    requires hopeful { length page.now.hopeful ≡ length game.now.vertices }
    requires dual { length page.now.dual ≡ length game.now.vertices }
    ensures { IfOk result (λ verdicts.
        verdicts.items ≡ verdicts_by (graph_of game.now) page.now.hopeful page.now.dual) }
{
    verdicts_by(alloc, games, game, &page.hopeful, &page.dual)
}

/// Appends a line for each vertex with another verdict now than was seen of it, in file order: its identifier, the
/// verdict seen, its verdict now, and its name. Then their number. A vertex without a seen verdict counts as possible
/// and unsure, as on the opening page.
pub fn put_changed(
    alloc: Global,
    game: &GuardedGame,
    labels: &VertexNames,
    seen: &[Verdict],
    present: &[Verdict],
    out: &mut Vec<u8>,
) -> Result<(), AllocError>
    ensures changed { OnOk result
        (out.new.items ≡ out.old.items
        ++ changed_text (vertex_ids game.now.vertices) labels.now.names seen.now present.now) }
    ensures unchanged { OnErr result (out.new.items ≡ out.old.items) }
{
    let mut text = Vec::new(alloc);
    changed::changed(game, labels, seen, present, &mut text)?;
    out.extend_from_slice(&text)
}
