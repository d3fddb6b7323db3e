//! Scripts in files, and from standard input.
use crate::configuring::decisions_of;
use crate::family::known_of;
use std::alloc::Global;
use std::io::{IsTerminal, Read};
use std::sync::Wait;
use std::thread::Threads;
use vpg_family::{Context, Family, Fault, Paths, Texts, open_script, read_script};
use vpg_report::{DIAGRAM, End, GAME, end_of, run_script};
use vpg_script::{Device, Form, Manner, Sink};
use vpg_terminal::ScriptRun;

/// The message while the program waits for a script from a terminal.
const WAITS: &[u8] =
    b"vpgdesk reads a script, one command a line; `vpgdesk --help` lists commands\n";

/// Says what the program waits for, if a person may type it.
fn tell_waiting(rt: &HostRuntime) {
    if rt.stdin().is_terminal() {
        // If this fails the answers are still to come.
        let _ = Device::writer(rt.stderr().lock()).put(WAITS);
    }
}

/// Carries a script from standard input out on the built-in family. Each line is answered, and a fault ends it.
pub(crate) fn run_built_in<T: Threads + Wait + Sync>(
    rt: &HostRuntime,
    threads: &T,
    alloc: Global,
) -> Result<End, Fault> {
    let family = Family::read(alloc, DIAGRAM.as_bytes(), GAME.as_bytes())?;
    tell_waiting(rt);
    let mut reader = Device::reader(rt.stdin().lock());
    let mut writer = Device::writer(rt.stdout().lock());
    let context = Context::none(alloc);
    let manner = Manner {
        is_strict: false,
        goes_on: false,
        form: Form::Plain,
    };
    end_of(run_script(
        threads,
        alloc,
        family,
        &context,
        &mut reader,
        &mut writer,
        1,
        manner,
    ))
}

/// Returns the lines of a script's file, none if there is no script.
pub(crate) fn script_of(
    rt: &HostRuntime,
    alloc: Global,
    script: Option<&str>,
) -> Result<Vec<u8>, Fault> {
    match script {
        Some(path) => read_script(rt, path),
        None => Ok(Vec::new(alloc)),
    }
}

/// Carries a script's file out on the family of some files.
pub(crate) fn run_files<T: Threads + Wait + Sync>(
    rt: &HostRuntime,
    threads: &T,
    alloc: Global,
    paths: Paths<'_>,
    run: ScriptRun<'_>,
    texts: &mut Texts,
) -> Result<End, Fault> {
    let mut known = known_of(rt, alloc, paths, texts)?;
    if run.is_named {
        known.label();
    }
    let family = known.family.again()?;
    let decisions = decisions_of(rt, alloc, run.config)?;
    let file = open_script(rt, run.script)?;
    let mut reader = Device::reader(decisions.as_slice().chain(file));
    let mut writer = Device::writer(rt.stdout().lock());
    end_of(run_script(
        threads,
        alloc,
        family,
        &known.context,
        &mut reader,
        &mut writer,
        run.lifters.clamp(1, 64),
        run.manner,
    ))
}
