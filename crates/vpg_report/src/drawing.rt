//! Pictures of a family on the page that a script leaves.
ghost use Rattle.std.specs.Arc.{arc_value};
ghost use Rattle.std.specs.Prelude.{[], ◌≡◌, ◌<◌, length, IfErr, IfOk, IfSome};
ghost use Rattle.vpg_looks.specs.Answers.{IsOver};
ghost use Rattle.vpg_diagram.specs.FeatureDiagram.{feature_count};
ghost use Rattle.vpg_game.specs.Game.{graph_of};
ghost use Rattle.vpg_report.specs.Draws.{tracing_line, AsksTrace, FindsTrail, IsDrawnAfter, IsDrawnOn, IsSystemDrawnAfter, IsSystemUndrawnAfter, IsTracedAfter, IsTracedOn, LineAsksTrace, RequestAsksTrace};
ghost use Rattle.vpg_report.specs.Left.{IsUnleft};
ghost use Rattle.vpg_report.specs.Run.{called_in};
ghost use Rattle.vpg_script.specs.View.{command_shown, request_shown};
ghost use Rattle.vpg_texts.specs.Changed.{verdicts_by};
ghost use Rattle.vpg_texts.specs.Scene.{scene_of};
ghost use Rattle.vpg_trace.specs.Answering.{page_of};

use crate::leaving::page_after;
use std::alloc::{AllocError, Global};
use std::sync::Wait;
use std::thread::Threads;
use vpg_answers::{Missing, Topic, topic_of};
use vpg_checking::Behaviour;
use vpg_diagram::Diagram;
use vpg_engine::{LIMITS, put_missing};
use vpg_family::{Context, Family, Fault, Subject, Texts, page_drawn, system_on};
use vpg_game::GuardedGame;
use vpg_measure::Order;
use vpg_script::{Command, Ending, ReadFault, Request, VertexLook, meant, read_line};
use vpg_sides::Verdict;
use vpg_steps::path_at;
use vpg_system_draw::Path;
use vpg_texts::verdicts_by;
use vpg_trace::put_answer;

/// Returns each vertex's verdict on the page of an order.
fn verdicts_on(alloc: Global, order: &Order) -> Result<Vec<Verdict>, AllocError>
    ensures verdicts { IfOk result (λ verdicts.
        verdicts.items ≡ verdicts_by (graph_of order.now.game) order.now.hopeful order.now.dual) }
    ensures each { IfOk result (λ verdicts. length verdicts.items ≡ length order.now.game.vertices) }
{
    let hopeful = order.hopeful();
    let dual = order.dual();
    verdicts_by(alloc, order.games(), order.game(), hopeful, dual)
}

/// Returns the picture of the page of an order, of a family with these texts.
fn picture(
    alloc: Global,
    subject: Subject,
    order: &Order,
    texts: &Texts,
) -> Result<Vec<u8>, AllocError>
    ensures { IfOk result (λ picture. IsDrawnOn subject order.now.diagram order.now.game order.now.decisions
        order.now.hopeful order.now.dual texts.now.diagram.items texts.now.game.items picture.items) }
{
    let verdicts = verdicts_on(alloc, order)?;
    page_drawn(alloc, subject, order, &verdicts, texts)
}

/// Returns the picture of the family of these texts on the page that a script leaves, and the script's end. Its lines
/// are read in this context. Errors: the run's own fault; `LogFull` if the script leaves no room in the log for a look
/// at the page.
pub fn drawn_after<T: Threads + Wait + Sync>(
    rt: &T,
    alloc: Global,
    subject: Subject,
    texts: &Texts,
    family: &Family,
    context: &Context,
    script: &[u8],
) -> Result<(Ending, Vec<u8>), Fault>
    requires { (arc_value family.now.game).features ≡ feature_count (arc_value family.now.diagram).lines }
    ensures drawn { IfOk result (λ drawn. IsDrawnAfter subject (arc_value family.now.diagram)
        (arc_value family.now.game) context.now texts.now.diagram.items texts.now.game.items script.now drawn.0
        drawn.1.items) }
    ensures refused { IfErr result
        (IsUnleft (arc_value family.now.diagram) (arc_value family.now.game) context.now script.now) }
{
    let (ending, order) = page_after(rt, alloc, family, context, script)?;
    match picture(alloc, subject, &order, texts) {
        Ok(picture) => Ok((ending, picture)),
        Err(_) => Err(Fault::Memory),
    }
}

/// Returns the picture of the system of the family of these texts on the page that a script leaves, and the script's
/// end. Its lines are read in this context. Errors: those of `drawn_after`, and then a fault of the system.
#[tactic(auto, using(crate::proofs::Draws::undrawn))]
pub fn system_drawn_after<T: Threads + Wait + Sync>(
    rt: &T,
    alloc: Global,
    texts: &Texts,
    family: &Family,
    context: &Context,
    script: &[u8],
) -> Result<(Ending, Vec<u8>), Fault>
    requires { (arc_value family.now.game).features ≡ feature_count (arc_value family.now.diagram).lines }
    ensures drawn { IfOk result (λ drawn. IsSystemDrawnAfter (arc_value family.now.diagram)
        (arc_value family.now.game) context.now texts.now.system.items script.now drawn.0 drawn.1.items) }
    ensures refused { IfErr result (IsSystemUndrawnAfter (arc_value family.now.diagram) (arc_value family.now.game)
        context.now texts.now.system.items script.now) }
{
    let (ending, order) = page_after(rt, alloc, family, context, script)?;
    match system_on(alloc, &order, &texts.system, None) {
        Ok(picture) => Ok((ending, picture)),
        Err(fault) => Err(fault),
    }
}

/// Returns the line `trace` for the vertex that a word names.
fn tracing_line(alloc: Global, word: &[u8]) -> Result<Vec<u8>, AllocError>
    ensures { IfOk result (λ line. line.items ≡ tracing_line word.now) }
{
    let mut line = Vec::from_slice(alloc, b"trace ")?;
    line.extend_from_slice(word)?;
    Ok(line)
}

/// Returns the number of the line after a script's last one, from 1.
fn next_number(script: &[u8]) -> u64 {
    let ends = script.iter().filter(|b| **b == b'\n').count();
    (ends as u64).saturating_add(2)
}

/// Returns the fault of a line `trace` with this answer, which is no trace.
fn untraced(alloc: Global, answer: &[u8]) -> Fault {
    match Vec::from_slice(alloc, answer.strip_suffix(b"\n").unwrap_or(answer)) {
        Ok(answer) => Fault::NoTrace { answer },
        Err(_) => Fault::Memory,
    }
}

/// Returns the fault of a line `trace` that is refused for what is missing.
fn refused(alloc: Global, missing: Missing) -> Fault {
    let mut answer = Vec::new(alloc);
    match put_missing(missing, &mut answer) {
        Ok(_) => untraced(alloc, &answer),
        Err(_) => Fault::Memory,
    }
}

/// Returns the vertex for whose trace a command asks, `None` if it asks for something else.
fn vertex_asked(
    alloc: Global,
    behaviour: &Option<Behaviour>,
    game: &GuardedGame,
    diagram: &Diagram,
    command: &Command<'_>,
) -> Result<Result<Option<u32>, Missing>, AllocError>
    ensures asked { IfOk result (λ found. IfOk found (λ vertex. IfSome vertex
        (AsksTrace behaviour.now (scene_of [] game.now diagram.now) (command_shown command.now)))) }
    ensures within { IfOk result (λ found. IfOk found (λ vertex. IfSome vertex
        (λ v. (v < length game.now.vertices) × IsOver (length diagram.now.names) behaviour.now))) }
{
    match command {
        Command::Look(look) => match topic_of(alloc, behaviour, game, diagram, look)? {
            Ok(Topic::OfVertex(VertexLook::Trace, vertex)) => Ok(Ok(Some(vertex))),
            Ok(_) => Ok(Ok(None)),
            Err(missing) => Ok(Err(missing)),
        },
        _ => Ok(Ok(None)),
    }
}

/// Returns the vertex for whose trace a request asks, as it is meant in this context.
fn vertex_meant(
    alloc: Global,
    context: &Context,
    order: &Order,
    request: &Request<'_>,
) -> Result<u32, Fault>
    ensures asked { IfOk result (RequestAsksTrace (called_in order.now.game order.now.diagram context.now)
        (request_shown request.now)) }
    ensures within { IfOk result (λ v. (v < length order.now.game.vertices) ×
        IsOver (feature_count order.now.diagram.lines) context.now.behaviour) }
{
    let diagram = order.diagram();
    let said = meant(alloc, &context.callings, diagram.names(), request)?;
    match vertex_asked(
        alloc,
        &context.behaviour,
        order.game(),
        diagram,
        &said.command,
    )? {
        Ok(Some(vertex)) => Ok(vertex),
        Ok(None) => Err(untraced(alloc, b"")),
        Err(missing) => Err(refused(alloc, missing)),
    }
}

/// Returns the vertex for whose trace a line asks. A fault of the line is that of the line of this number.
fn vertex_of(
    alloc: Global,
    context: &Context,
    order: &Order,
    line: &[u8],
    number: u64,
) -> Result<u32, Fault>
    ensures asked { IfOk result (LineAsksTrace (called_in order.now.game order.now.diagram context.now) line.now) }
    ensures within { IfOk result (λ v. (v < length order.now.game.vertices) ×
        IsOver (feature_count order.now.diagram.lines) context.now.behaviour) }
{
    match read_line(alloc, line) {
        Ok(Some(request)) => vertex_meant(alloc, context, order, &request),
        Ok(None) => Err(untraced(alloc, b"")),
        Err(ReadFault::Line(fault)) => Err(Fault::Line {
            line: number,
            fault,
        }),
        Err(ReadFault::Memory) => Err(Fault::Memory),
    }
}

/// Returns the fault of a line `trace` for a vertex without a trace: its answer.
fn no_trace(alloc: Global, order: &Order, behaviour: &Behaviour, vertex: u32) -> Fault
    requires vertex { vertex < length order.now.game.vertices }
    requires features { behaviour.now.features ≡ order.now.game.features }
{
    let mut answer = Vec::new(alloc);
    match put_answer(alloc, order, behaviour, vertex, b"", LIMITS, &mut answer) {
        Ok(()) => untraced(alloc, &answer),
        Err(_) => Fault::Memory,
    }
}

/// Returns the path of the trace of a vertex in the system that the game was made of.
#[tactic(auto, using(crate::proofs::Draws::trail_found))]
fn path_for(
    alloc: Global,
    order: &Order,
    behaviour: &Option<Behaviour>,
    vertex: u32,
) -> Result<Path, Fault>
    requires vertex { vertex < length order.now.game.vertices }
    requires system { IsOver (feature_count order.now.diagram.lines) behaviour.now }
    ensures { IfOk result (FindsTrail behaviour.now (page_of order.now) vertex) }
{
    // The invariant of every order, for the proof.
    let _order = order.game();
    match behaviour {
        Some(made) => match path_at(alloc, order, made, vertex, LIMITS)? {
            Some(path) => Ok(path),
            None => Err(no_trace(alloc, order, made, vertex)),
        },
        None => unreachable!(),
    }
}

/// Returns the picture of the system that a text spells, on the page of an order, with the marks of the trace for which
/// a line asks. A fault of the line is that of the line of this number.
fn traced(
    alloc: Global,
    order: &Order,
    context: &Context,
    system: &[u8],
    line: &[u8],
    number: u64,
) -> Result<Vec<u8>, Fault>
    ensures { IfOk result (λ picture. IsTracedOn (called_in order.now.game order.now.diagram context.now)
        order.now.diagram order.now.decisions order.now.hopeful order.now.dual system.now line.now picture.items) }
{
    let vertex = vertex_of(alloc, context, order, line, number)?;
    let path = path_for(alloc, order, &context.behaviour, vertex)?;
    match system_on(alloc, order, system, Some(path)) {
        Ok(picture) => Ok(picture),
        Err(fault) => Err(fault),
    }
}

/// Returns the picture of the system that a text spells, on the page that a script leaves, and the script's end. It has
/// the marks of the trace that a line `trace` with this word writes on that page. The script's lines are read in this
/// context.
///
/// Errors: those of `drawn_after`; then a fault of the line, as of one after the script's; `NoTrace` with its answer if
/// that is no trace; a fault of the system. `NoTrace` comes first of all if the game was not made of a system.
pub fn traced_after<T: Threads + Wait + Sync>(
    rt: &T,
    alloc: Global,
    system: &[u8],
    family: &Family,
    context: &Context,
    word: &[u8],
    script: &[u8],
) -> Result<(Ending, Vec<u8>), Fault>
    requires { (arc_value family.now.game).features ≡ feature_count (arc_value family.now.diagram).lines }
    ensures { IfOk result (λ drawn. IsTracedAfter (arc_value family.now.diagram) (arc_value family.now.game)
        context.now system.now script.now word.now drawn.0 drawn.1.items) }
{
    if context.behaviour.is_none() {
        return Err(untraced(alloc, b"refused NoSystem"));
    }
    let (ending, order) = page_after(rt, alloc, family, context, script)?;
    let line = tracing_line(alloc, word)?;
    let number = next_number(script);
    let picture = traced(alloc, &order, context, system, &line, number)?;
    Ok((ending, picture))
}
