//! Texts that files alone decide.
use crate::family::{kept, read_into};
use std::alloc::Global;
use vpg_family::{
    DiagramFile, Family, Fault, Paths, Texts, drawn, read_diagram_file, system_drawn,
};
use vpg_terminal::Picture;

/// Returns the plain game of the product that has these features, of a family of some files.
pub(crate) fn projected(
    rt: &HostRuntime,
    alloc: Global,
    paths: Paths<'_>,
    features: &[&str],
    texts: &mut Texts,
) -> Result<Vec<u8>, Fault> {
    read_into(rt, alloc, paths, texts)?;
    let family = Family::read(alloc, &texts.diagram, &texts.game)?;
    family.projected(alloc, features)
}

/// Returns the text of the diagram that a file means.
pub(crate) fn diagram_text(
    rt: &HostRuntime,
    alloc: Global,
    path: &str,
    texts: &mut Texts,
) -> Result<Vec<u8>, Fault> {
    match read_diagram_file(rt, alloc, path) {
        Ok(DiagramFile { text, .. }) => Ok(text),
        Err(unread) => Err(kept(unread, texts)),
    }
}

/// Returns a picture of a family of some files.
pub(crate) fn pictured(
    rt: &HostRuntime,
    alloc: Global,
    paths: Paths<'_>,
    picture: Picture,
    texts: &mut Texts,
) -> Result<Vec<u8>, Fault> {
    read_into(rt, alloc, paths, texts)?;
    match picture {
        Picture::Family(subject) => drawn(alloc, subject, &texts.diagram, &texts.game),
        Picture::System => system_drawn(alloc, &texts.diagram, &texts.system),
    }
}
