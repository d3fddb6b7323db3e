//! The text of a page's entries.
ghost use Rattle.std.specs.Prelude.{◌≡◌, ◌++◌, length, All, OnOk, OnErr};
ghost use Rattle.vpg_diagram.specs.FeatureDiagram.{feature_count};
ghost use Rattle.vpg_game.specs.Game.{vertex_ids};
ghost use Rattle.vpg_texts.specs.Scene.{EntryIsWithin};
ghost use Rattle.vpg_texts.specs.Text.{trail_text};

use crate::text;
use std::alloc::{AllocError, Global};
use vpg_diagram::Diagram;
use vpg_game::{GuardedGame, VertexNames};
use vpg_trail::Page;

/// Appends a line for each entry of a page, a decision with its serial or a lift with its assumptions and the vertex's
/// name, and their number. The entries name features of the diagram and vertices of the game.
pub fn trail(
    alloc: Global,
    page: &Page,
    game: &GuardedGame,
    diagram: &Diagram,
    labels: &VertexNames,
    out: &mut Vec<u8>,
) -> Result<(), AllocError>
    requires entries { All (EntryIsWithin (feature_count diagram.now.lines)
        (length game.now.vertices)) page.now.entries }
    ensures trail { OnOk result
        (out.new.items ≡ out.old.items
        ++ trail_text diagram.now.names (vertex_ids game.now.vertices) labels.now.names page.now.entries) }
    ensures unchanged { OnErr result (out.new.items ≡ out.old.items) }
{
    let mut text = Vec::new(alloc);
    let entries = page.entries.as_slice();
    text::trail(diagram.names(), game, labels, entries, &mut text)?;
    out.extend_from_slice(&text)
}
