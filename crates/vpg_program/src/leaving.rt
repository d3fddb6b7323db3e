//! Pictures and configurations of the page that a script leaves.
ghost use Rattle.std.specs.Arc.{arc_value};
ghost use Rattle.std.specs.Prelude.{◌≡◌};
ghost use Rattle.vpg_diagram.specs.FeatureDiagram.{feature_count};

use crate::family::{known_of, read_into};
use crate::output::put_out;
use crate::running::script_of;
use std::alloc::Global;
use std::sync::Wait;
use std::thread::Threads;
use vpg_configuration::ConfigurationForm;
use vpg_family::{Fault, Known, Paths, Texts, read_script};
use vpg_report::{End, drawn_after, ended, exported_after, system_drawn_after, traced_after};
use vpg_script::Ending;
use vpg_terminal::Picture;

/// Returns the picture of the family of some files on the page that a script of a file leaves, and the script's end.
pub(crate) fn drawn_after_files<T: Threads + Wait + Sync>(
    rt: &HostRuntime,
    threads: &T,
    alloc: Global,
    paths: Paths<'_>,
    picture: Picture,
    script: &str,
    texts: &mut Texts,
) -> Result<(Ending, Vec<u8>), Fault> {
    read_into(rt, alloc, paths, texts)?;
    let known = Known::read(alloc, texts)?;
    let script = read_script(rt, script)?;
    let (family, context) = (&known.family, &known.context);
    match picture {
        Picture::Family(subject) => {
            drawn_after(threads, alloc, subject, texts, family, context, &script)
        }
        Picture::System => system_drawn_after(threads, alloc, texts, family, context, &script),
    }
}

/// Returns the picture of the system of the family of some files with the marks of the trace of a vertex, on the page
/// that a script of a file leaves, or on the first page; and the script's end.
pub(crate) fn traced_files<T: Threads + Wait + Sync>(
    rt: &HostRuntime,
    threads: &T,
    alloc: Global,
    paths: Paths<'_>,
    vertex: &str,
    script: Option<&str>,
    texts: &mut Texts,
) -> Result<(Ending, Vec<u8>), Fault> {
    read_into(rt, alloc, paths, texts)?;
    let mut known = Known::read(alloc, texts)?;
    known.context.behaviour = texts.behaviour.take();
    let lines = script_of(rt, alloc, script)?;
    traced_after(
        threads,
        alloc,
        &texts.system,
        &known.family,
        &known.context,
        vertex.as_bytes(),
        &lines,
    )
}

/// Returns the configuration of the family of some files on the page that a script leaves, and the script's end.
pub(crate) fn exported<T: Threads + Wait + Sync>(
    rt: &HostRuntime,
    threads: &T,
    alloc: Global,
    paths: Paths<'_>,
    form: ConfigurationForm,
    script: &str,
    texts: &mut Texts,
) -> Result<(Ending, Vec<u8>), Fault> {
    let known = known_of(rt, alloc, paths, texts)?;
    let lines = read_script(rt, script)?;
    exported_after(threads, alloc, &known.family, &known.context, form, &lines)
}

/// Writes a picture or a configuration, if it was made, and returns the end of its script.
pub(crate) fn put_left(
    rt: &HostRuntime,
    left: Result<(Ending, Vec<u8>), Fault>,
) -> Result<End, Fault> {
    let (ending, text) = left?;
    put_out(rt, &text)?;
    Ok(ended(ending))
}
