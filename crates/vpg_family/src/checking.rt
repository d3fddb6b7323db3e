//! Counts of a family, from its texts.
ghost use Rattle.std.specs.Prelude.{IfOk, IfErr};
ghost use Rattle.vpg_formula.specs.EntryCode.{earlier_of};
ghost use Rattle.vpg_family.specs.Families.{IsFamilyFault};
ghost use Rattle.vpg_family.specs.Checked.{IsChecked};

use crate::counts::{put_counts, put_roots};
use crate::family::Family;
use crate::fault::Fault;
use crate::files::Texts;
use std::alloc::Global;

/// Returns the line that counts the family of these texts, then a line `NAME V` for each requirement.
pub fn checked(alloc: Global, texts: &Texts) -> Result<Vec<u8>, Fault>
    ensures text { IfOk result (λ text. IsChecked texts.now.diagram.items texts.now.game.items
        (earlier_of texts.now.entries.items) texts.now.vertices.items text.items) }
    ensures refused { IfErr result (IsFamilyFault texts.now.diagram.items texts.now.game.items) }
{
    let family = match Family::read(alloc, &texts.diagram, &texts.game) {
        Ok(family) => family,
        Err(fault) => return Err(fault),
    };
    let mut text = Vec::new(alloc);
    put_counts(&family.game, &mut text)?;
    put_roots(&texts.entries, &texts.vertices, &mut text)?;
    Ok(text)
}
