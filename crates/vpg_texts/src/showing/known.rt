//! The text of the features that a page's decisions make known.
ghost use Rattle.std.specs.Prelude.{◌≡◌, ◌++◌, length, OnOk, OnErr};
ghost use Rattle.vpg_diagram.specs.FeatureDiagram.{feature_count};
ghost use Rattle.vpg_texts.specs.Text.{products_text};

use crate::text;
use std::alloc::{AllocError, Global};
use vpg_diagram::Diagram;
use vpg_measure::PageGames;

/// Appends the features that are known in, those known out, and those not known, by the games that a page's decisions
/// leave. No edge is looked at.
pub fn products(
    alloc: Global,
    games: &PageGames,
    diagram: &Diagram,
    out: &mut Vec<u8>,
) -> Result<(), AllocError>
    requires { length games.now.known ≡ feature_count diagram.now.lines }
    ensures products { OnOk result (out.new.items ≡ out.old.items ++ products_text diagram.now.names games.now.known) }
    ensures unchanged { OnErr result (out.new.items ≡ out.old.items) }
{
    let mut text = Vec::new(alloc);
    text::products(diagram.names(), games.known(), &mut text)?;
    out.extend_from_slice(&text)
}
