//! Runs of scripts.
ghost use Rattle.std.specs.Arc.{arc_value};
ghost use Rattle.std.specs.Prelude.{[], ◌≡◌, ◌≤◌, ◌⊎◌, true, None, IsErrOf};
ghost use Rattle.vpg_diagram.specs.FeatureDiagram.{feature_count};
ghost use Rattle.vpg_desk.specs.State.{IsOpened};
ghost use Rattle.vpg_report.specs.Output.{Outcome, OutcomeAs};
ghost use Rattle.vpg_report.specs.Results.{IsOpenRefusal, Opens};
ghost use Rattle.vpg_engine.specs.Line.{begun};
ghost use Rattle.vpg_report.specs.Run.{answering, answering_called, called_in};
ghost use Rattle.vpg_script.specs.Results.{UnlessReaderFails, UnlessWriterFails};
ghost use Rattle.vpg_texts.specs.Scene.{scene_of};

use crate::answering::Answering;
use std::alloc::Global;
use std::marker::Brand;
use std::sync::{Arc, Wait};
use std::thread::Threads;
use vpg_desk::OpenFault;
use vpg_diagram::Diagram;
use vpg_engine::Engine;
use vpg_family::Context;
use vpg_game::GuardedGame;
use vpg_office::{Site, Terms};
use vpg_script::{Ending, Form, Manner, RunFault, Sink, Source, answer_script_as};

/// Opens an office on the game and the diagram, reads a script, and answers its lines in order, each before the next is
/// read. A label is a session of the office. 1 to 64 lifters sweep at once, in threads of their own.
///
/// `Open` comes before any line is read; `Line`, `Read` and `Write` as the run meets them. `Memory` comes only if a
/// growth was refused, and `Stray` only if the office has a call that no line made. What earlier lines wrote stays
/// written. At the script's end, and after each fault, all tokens are spent and the office is ended.
pub fn run<T: Threads + Wait + Sync, R: Source, W: Sink>(
    rt: &T,
    alloc: Global,
    game: Arc<GuardedGame>,
    diagram: Arc<Diagram>,
    reader: &mut R,
    writer: &mut W,
    lifters: u32,
) -> Result<(), RunFault>
    requires unread { R.calls reader.old ≡ 0 }
    requires lifters { (1 ≤ lifters) × (lifters ≤ 64) }
    requires features { (arc_value game).features ≡ feature_count (arc_value diagram).lines }

    // The answers to the lines read are written, each by calls on the office's desk with the replies that it gives,
    // while its log has room for them. A harvest that a line commits or keeps was made by at most its number of sweeps,
    // each by this many lifters.
    ensures output { Outcome (answering None (scene_of [] (arc_value game) (arc_value diagram)) lifters)
        (IsOpenRefusal (arc_value game) (arc_value diagram)) begun (R.remaining reader.old) (R.remaining reader.new)
        (W.contents writer.old) (W.contents writer.new) result }

    // Unless it ends in Open, or in Memory, an office was opened: game and diagram are a setting, and the laws of
    // `vpg_desk` apply. So the verdicts that are written say who wins (`laws::answers_name_winners`).
    ensures opened { Opens result (IsOpened (arc_value game) (arc_value diagram)) }

    // Read and Write come only if the device failed, or the reads were used up.
    ensures read { IsErrOf result RunFault.Read → (R.has_failed reader.new ≡ true) ⊎ (R.calls reader.new ≡ 16777216) }
    ensures write { IsErrOf result RunFault.Write → W.has_failed writer.new ≡ true }

    // A failed device is reported: no read failed unless the run ends in Read, and no write unless it ends in Write.
    ensures readable { UnlessReaderFails result (R.has_failed reader.new ≡ R.has_failed reader.old) }
    ensures writable { UnlessWriterFails result (W.has_failed writer.new ≡ W.has_failed writer.old) }
{
    let plain = Manner {
        is_strict: false,
        goes_on: false,
        form: Form::Plain,
    };
    match run_as(rt, alloc, game, diagram, reader, writer, lifters, plain) {
        Ok(_) => Ok(()),
        Err(fault) => Err(fault),
    }
}

/// Runs a script as `run` does, in a manner: a strict run ends at the first refusal, one that goes on answers a line
/// with a fault, and each writes its answers in a form. If the run comes to the script's end, `Failed` says that an
/// assertion failed.
///
/// `Open` comes before any line is read; `Line` only if the run does not go on, `Read` and `Write` as the run meets
/// them. `Memory` comes only if a growth was refused, and `Stray` only if the office has a call that no line made.
pub fn run_as<T: Threads + Wait + Sync, R: Source, W: Sink>(
    rt: &T,
    alloc: Global,
    game: Arc<GuardedGame>,
    diagram: Arc<Diagram>,
    reader: &mut R,
    writer: &mut W,
    lifters: u32,
    manner: Manner,
) -> Result<Ending, RunFault>
    requires unread { R.calls reader.old ≡ 0 }
    requires lifters { (1 ≤ lifters) × (lifters ≤ 64) }
    requires features { (arc_value game).features ≡ feature_count (arc_value diagram).lines }

    // The answers to the lines read are written in the manner's form: `run` writes the same ones plainly. The result is
    // their end.
    ensures output { OutcomeAs manner (answering None (scene_of [] (arc_value game) (arc_value diagram)) lifters)
        (IsOpenRefusal (arc_value game) (arc_value diagram)) begun (R.remaining reader.old) (R.remaining reader.new)
        (W.contents writer.old) (W.contents writer.new) result }

    // Unless it ends in Open, or in Memory, an office was opened.
    ensures opened { Opens result (IsOpened (arc_value game) (arc_value diagram)) }

    // Read and Write come only if the device failed, or the reads were used up.
    ensures read { IsErrOf result RunFault.Read → (R.has_failed reader.new ≡ true) ⊎ (R.calls reader.new ≡ 16777216) }
    ensures write { IsErrOf result RunFault.Write → W.has_failed writer.new ≡ true }

    // A failed device is reported.
    ensures readable { UnlessReaderFails result (R.has_failed reader.new ≡ R.has_failed reader.old) }
    ensures writable { UnlessWriterFails result (W.has_failed writer.new ≡ W.has_failed writer.old) }
{
    let context = Context::none(alloc);
    run_called(
        rt, alloc, game, diagram, &context, reader, writer, lifters, manner,
    )
}

/// Runs a script as `run_as` does, in a context: lines may name vertices, and the game may be made of a system. A line
/// is answered as if the identifier of each vertex stood in place of its name; a vertex with a name that none has is
/// refused `NoVertex`. Lines of answers end with the names that the context has for their vertices. A trace is of the
/// system that the game was made of; without one over the diagram's features it is refused `NoSystem`.
pub fn run_called<T: Threads + Wait + Sync, R: Source, W: Sink>(
    rt: &T,
    alloc: Global,
    game: Arc<GuardedGame>,
    diagram: Arc<Diagram>,
    context: &Context,
    reader: &mut R,
    writer: &mut W,
    lifters: u32,
    manner: Manner,
) -> Result<Ending, RunFault>
    requires unread { R.calls reader.old ≡ 0 }
    requires lifters { (1 ≤ lifters) × (lifters ≤ 64) }
    requires features { (arc_value game).features ≡ feature_count (arc_value diagram).lines }

    // The answers to the lines read are written, with the vertices that their names mean, the system that the game was
    // made of, and the names at the ends of lines; and the result is their end.
    ensures output { OutcomeAs manner
        (answering_called (called_in (arc_value game) (arc_value diagram) context.now) lifters)
        (IsOpenRefusal (arc_value game) (arc_value diagram)) begun (R.remaining reader.old) (R.remaining reader.new)
        (W.contents writer.old) (W.contents writer.new) result }

    // Unless it ends in Open, or in Memory, an office was opened.
    ensures opened { Opens result (IsOpened (arc_value game) (arc_value diagram)) }

    // Read and Write come only if the device failed, or the reads were used up.
    ensures read { IsErrOf result RunFault.Read → (R.has_failed reader.new ≡ true) ⊎ (R.calls reader.new ≡ 16777216) }
    ensures write { IsErrOf result RunFault.Write → W.has_failed writer.new ≡ true }

    // A failed device is reported.
    ensures readable { UnlessReaderFails result (R.has_failed reader.new ≡ R.has_failed reader.old) }
    ensures writable { UnlessWriterFails result (W.has_failed writer.new ≡ W.has_failed writer.old) }
{
    let Ok(site) = Site::new(alloc) else {
        return Err(RunFault::Memory);
    };
    run_there::<Brand, T, R, W>(
        rt, alloc, site, game, diagram, context, reader, writer, lifters, manner,
    )
}

/// Ends an engine, and its office whatever calls its log has.
pub(crate) fn end_engine<L: Terms, R: Wait>(rt: &R, engine: Engine<L>) {
    if let Err(others) = engine.end(rt) {
        let _further = others.end(rt);
    }
}

/// Runs a script as `run_called` does, at an office with this row and this ledger, which `L` names.
pub(crate) fn run_there<L: Terms, T: Threads + Wait + Sync, R: Source, W: Sink>(
    rt: &T,
    alloc: Global,
    site: Site,
    game: Arc<GuardedGame>,
    diagram: Arc<Diagram>,
    context: &Context,
    reader: &mut R,
    writer: &mut W,
    lifters: u32,
    manner: Manner,
) -> Result<Ending, RunFault>
    requires unread { R.calls reader.old ≡ 0 }
    requires lifters { (1 ≤ lifters) × (lifters ≤ 64) }
    requires features { (arc_value game).features ≡ feature_count (arc_value diagram).lines }
    requires site { (site.row ≡ L.shelves) × (site.name ≡ L.name) × (site.parts ≡ L.parts) }
    requires of { (arc_value game ≡ L.game) × (arc_value diagram ≡ L.diagram) }
    requires room { L.limit ≡ 1048576 }
    ensures output { OutcomeAs manner
        (answering_called (called_in (arc_value game) (arc_value diagram) context.now) lifters)
        (IsOpenRefusal (arc_value game) (arc_value diagram)) begun (R.remaining reader.old) (R.remaining reader.new)
        (W.contents writer.old) (W.contents writer.new) result }
    ensures opened { Opens result (IsOpened (arc_value game) (arc_value diagram)) }
    ensures read { IsErrOf result RunFault.Read → (R.has_failed reader.new ≡ true) ⊎ (R.calls reader.new ≡ 16777216) }
    ensures write { IsErrOf result RunFault.Write → W.has_failed writer.new ≡ true }
    ensures readable { UnlessReaderFails result (R.has_failed reader.new ≡ R.has_failed reader.old) }
    ensures writable { UnlessWriterFails result (W.has_failed writer.new ≡ W.has_failed writer.old) }
{
    let engine = match Engine::<L>::open(rt, alloc, site, game, diagram) {
        Ok(engine) => engine,
        Err(OpenFault::Memory) => return Err(RunFault::Memory),
        Err(fault) => return Err(RunFault::Open { fault }),
    };
    let mut server = Answering { engine, context };
    let result = answer_script_as(rt, alloc, lifters, manner, &mut server, reader, writer);
    let Answering { engine, context: _ } = server;
    end_engine(rt, engine);
    result
}
