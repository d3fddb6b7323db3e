//! Commands as a person types them.
ghost use Rattle.std.specs.Arc.{arc_value};
ghost use Rattle.std.specs.Prelude.{◌≡◌, IfOk};
ghost use Rattle.vpg_diagram.specs.FeatureDiagram.{feature_count};

use crate::family::known_of;
use std::alloc::{AllocError, Global};
use std::cell::Cell;
use std::io::IsTerminal;
use std::sync::Wait;
use std::thread::Threads;
use vpg_family::{Family, Fault, Known, Paths, Texts};
use vpg_report::{End, end_of, run_script};
use vpg_script::{Device, Manner, Sink, Source};
use vpg_terminal::{Ear, Heard, Setting, Talk, Typed, command_list};

/// Returns the identifier where a game starts, if it is that of a vertex.
fn start_of(known: &Known) -> Option<u32> {
    let id = u32::try_from(known.names.start()?).ok()?;
    known.family.game.find(id).map(|_| id)
}

/// The message before the first line is read, after the family's counts.
const GREETING: &[u8] = b"one command a line; `help` lists commands, `quit` ends\n";

/// Writes the first lines of a session. Returns the family once more, for the session.
fn greet<S: Sink>(alloc: Global, family: &Family, talk: &mut S) -> Result<Family, AllocError>
    ensures game { IfOk result (λ again. arc_value again.game ≡ arc_value family.now.game) }
    ensures diagram { IfOk result (λ again. arc_value again.diagram ≡ arc_value family.now.diagram) }
{
    let counts = family.counted(alloc)?;
    // If these fail the answers are still to come.
    let _ = talk.put(&counts);
    let _ = talk.put(GREETING);
    family.again()
}

/// Answers commands as they are typed, on a family that starts at the vertex of this identifier. The text beside the
/// answers goes to `beside`. Of answers in JSON the session hears nothing.
fn converse<T: Threads + Wait + Sync, R: Source + Drop, S: Sink + Drop, W: Sink + Drop>(
    threads: &T,
    alloc: Global,
    known: &Known,
    start: Option<u32>,
    talk: Talk,
    is_prompted: bool,
    reader: R,
    mut beside: S,
    writer: W,
) -> Result<End, Fault>
    requires unread { R.calls reader ≡ 0 }
    requires features { (arc_value known.now.family.game).features
        ≡ feature_count (arc_value known.now.family.diagram).lines }
{
    let commands = command_list(alloc)?;
    let family = greet(alloc, &known.family, &mut beside)?;
    let heard = Cell::new(Heard::Nothing);
    let setting = Setting {
        commands: &commands,
        features: known.family.diagram.names(),
        is_prompted,
        start,
        heard: &heard,
    };
    // Each line is answered, also one with a fault.
    let manner = Manner {
        is_strict: false,
        goes_on: true,
        form: talk.form,
    };
    let mut typed = Typed::new(alloc, setting, reader, beside);
    let mut ear = Ear::new(writer, &heard);
    end_of(run_script(
        threads,
        alloc,
        family,
        &known.context,
        &mut typed,
        &mut ear,
        talk.lifters.clamp(1, 64),
        manner,
    ))
}

/// Answers commands from standard input as they are typed, on a family.
fn converse_here<T: Threads + Wait + Sync, W: Sink + Drop>(
    rt: &HostRuntime,
    threads: &T,
    alloc: Global,
    known: &Known,
    start: Option<u32>,
    talk: Talk,
    writer: W,
) -> Result<End, Fault>
    requires { (arc_value known.now.family.game).features
        ≡ feature_count (arc_value known.now.family.diagram).lines }
{
    let is_prompted = rt.stdin().is_terminal();
    let reader = Device::reader(rt.stdin().lock());
    let beside = Device::writer(rt.stderr().lock());
    converse(
        threads,
        alloc,
        known,
        start,
        talk,
        is_prompted,
        reader,
        beside,
        writer,
    )
}

/// Answers commands from standard input on the family of some files.
pub(crate) fn sit<T: Threads + Wait + Sync>(
    rt: &HostRuntime,
    threads: &T,
    alloc: Global,
    paths: Paths<'_>,
    talk: Talk,
    texts: &mut Texts,
) -> Result<End, Fault> {
    let mut known = known_of(rt, alloc, paths, texts)?;
    let start = start_of(&known);
    if talk.is_named {
        known.label();
    }
    let writer = Device::writer(rt.stdout().lock());
    converse_here(rt, threads, alloc, &known, start, talk, writer)
}
