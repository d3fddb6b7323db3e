//! The text about one feature: whether a page's decisions make it known.
ghost use Rattle.std.specs.Prelude.{◌≡◌, ◌<◌, ◌++◌, length, OnOk, OnErr};
ghost use Rattle.vpg_diagram.specs.FeatureDiagram.{feature_count};
ghost use Rattle.vpg_texts.specs.Text.{known_text};

use crate::text;
use std::alloc::{AllocError, Global};
use vpg_diagram::Diagram;
use vpg_measure::PageGames;

/// Appends whether a feature of the diagram is known in, known out or not known, by the games that a page's decisions
/// leave. No edge is looked at.
pub fn put_known(
    alloc: Global,
    games: &PageGames,
    diagram: &Diagram,
    feature: u16,
    out: &mut Vec<u8>,
) -> Result<(), AllocError>
    requires known { length games.now.known ≡ feature_count diagram.now.lines }
    requires feature { feature < length diagram.now.names }
    ensures known { OnOk result
        (out.new.items ≡ out.old.items ++ known_text diagram.now.names games.now.known feature) }
    ensures unchanged { OnErr result (out.new.items ≡ out.old.items) }
{
    let mut text = Vec::new(alloc);
    text::known(diagram.names(), games.known(), feature, &mut text)?;
    out.extend_from_slice(&text)
}
