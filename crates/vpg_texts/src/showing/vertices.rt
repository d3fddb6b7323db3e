//! The lines of some vertices.
ghost use Rattle.std.specs.Prelude.{◌≡◌, ◌<◌, ◌++◌, All, length, OnOk, OnErr};
ghost use Rattle.vpg_game.specs.Game.{vertex_ids};
ghost use Rattle.vpg_game.specs.Levels.{top_of};
ghost use Rattle.vpg_texts.specs.Sights.{lines_at};

use crate::sights;
use std::alloc::{AllocError, Global};
use vpg_game::{GuardedGame, VertexNames};
use vpg_measure::PageGames;
use vpg_trail::Page;

/// Appends the lines of the vertices at these places, as `show` has them.
pub fn vertices_over(
    alloc: Global,
    games: &PageGames,
    page: &Page,
    game: &GuardedGame,
    labels: &VertexNames,
    vertices: &[u32],
    out: &mut Vec<u8>,
) -> Result<(), AllocError>
    requires vertices { All (λ v. v < length game.now.vertices) vertices.now }
    requires hopeful { length page.now.hopeful ≡ length game.now.vertices }
    requires dual { length page.now.dual ≡ length game.now.vertices }
    ensures lines { OnOk result (out.new.items ≡ out.old.items
        ++ lines_at (top_of games.now.hopeful_levels) (top_of games.now.dual_levels)
        (vertex_ids game.now.vertices) labels.now.names page.now.hopeful page.now.dual vertices.now) }
    ensures unchanged { OnErr result (out.new.items ≡ out.old.items) }
{
    let mut text = Vec::new(alloc);
    sights::lines_at(
        games,
        game,
        labels,
        &page.hopeful,
        &page.dual,
        vertices,
        &mut text,
    )?;
    out.extend_from_slice(&text)
}
