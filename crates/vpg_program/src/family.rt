//! The texts of a family's files, kept to explain a fault.
ghost use Rattle.std.specs.Arc.{arc_value};
ghost use Rattle.std.specs.Prelude.{◌≡◌, IfOk};
ghost use Rattle.vpg_diagram.specs.FeatureDiagram.{feature_count};

use std::alloc::Global;
use vpg_family::{Fault, Known, Paths, Texts, Unread, read_known, read_texts};

/// Returns the fault of files that are no family, and keeps their texts for its explanation.
pub(crate) fn kept(unread: Unread, texts: &mut Texts) -> Fault {
    let Unread { fault, texts: read } = unread;
    *texts = read;
    fault
}

/// Reads the texts of some files.
pub(crate) fn read_into(
    rt: &HostRuntime,
    alloc: Global,
    paths: Paths<'_>,
    texts: &mut Texts,
) -> Result<(), Fault> {
    match read_texts(rt, alloc, paths) {
        Ok(read) => {
            *texts = read;
            Ok(())
        }
        Err(unread) => Err(kept(unread, texts)),
    }
}

/// Returns the family of some files, with the names of its vertices. If they are no family, keeps their texts.
pub(crate) fn known_of(
    rt: &HostRuntime,
    alloc: Global,
    paths: Paths<'_>,
    texts: &mut Texts,
) -> Result<Known, Fault>
    ensures features { IfOk result (λ known.
        (arc_value known.family.game).features ≡ feature_count (arc_value known.family.diagram).lines) }
{
    match read_known(rt, alloc, paths) {
        Ok(known) => Ok(known),
        Err(unread) => Err(kept(unread, texts)),
    }
}
