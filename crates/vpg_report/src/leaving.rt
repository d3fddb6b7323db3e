//! The page that a script leaves.
ghost use Rattle.std.specs.Arc.{arc_value};
ghost use Rattle.std.specs.Prelude.{◌≡◌, ◌⊎◌, Some, None, false, IfOk, IfErr};
ghost use Rattle.vpg_diagram.specs.FeatureDiagram.{feature_count};
ghost use Rattle.vpg_engine.specs.Engine.{between_of};
ghost use Rattle.vpg_report.specs.Left.{HandsOver, IsHanded, IsLeft, IsRunStopped, IsStopped, IsUnleft, plain};
ghost use Rattle.vpg_report.specs.Run.{answering_called, called_by};
ghost use Rattle.vpg_script.specs.Manners.{Leaves};

use crate::answering::Answering;
use crate::running::stopped;
use crate::runs::end_engine;
use std::alloc::Global;
use std::marker::Brand;
use std::sync::{Arc, Wait};
use std::thread::Threads;
use vpg_desk::OpenFault;
use vpg_diagram::Diagram;
use vpg_engine::{ClientFault, Engine};
use vpg_family::{Context, Family, Fault};
use vpg_game::GuardedGame;
use vpg_measure::Order;
use vpg_office::{Site, Terms};
use vpg_script::{Device, Ending, Failed, Form, Manner, RunFault, Sink, Source, answer_script_as};

/// A sink that drops each answer.
#[derive(Drop)]
struct Unheard;

impl Sink for Unheard {
    ghost contents = { λ _. None };

    ghost has_failed = { λ _. false };

    fn put(&mut self, _bytes: &[u8]) -> Result<(), Failed> {
        Ok(())
    }
}

/// Carries the script of a source out on an engine with one lifter.
fn carried_from<L: Terms, T: Threads + Wait + Sync, R: Source, W: Sink>(
    rt: &T,
    alloc: Global,
    server: &mut Answering<'_, L>,
    reader: &mut R,
    writer: &mut W,
) -> Result<Ending, RunFault>
    requires { R.calls reader.old ≡ 0 }
    ensures left { IfOk result
        (Leaves plain (answering_called (called_by server.old.engine server.old.context.now) 1)
        (between_of server.old.engine) (between_of server.new.engine) (R.remaining reader.old) (W.contents writer.old)
        (W.contents writer.new)) }
    ensures stopped { IfErr result
        (IsStopped (answering_called (called_by server.old.engine server.old.context.now) 1)
        (between_of server.old.engine) (R.remaining reader.old) (W.contents writer.old) (W.contents writer.new)) }
{
    let plain = Manner {
        is_strict: false,
        goes_on: false,
        form: Form::Plain,
    };
    answer_script_as(rt, alloc, 1, plain, server, reader, writer)
}

/// Carries a script out on an engine with one lifter, and drops its answers.
fn carried<L: Terms, T: Threads + Wait + Sync>(
    rt: &T,
    alloc: Global,
    server: &mut Answering<'_, L>,
    script: &[u8],
) -> Result<Ending, RunFault>
    ensures left { IfOk result
        (Leaves plain (answering_called (called_by server.old.engine server.old.context.now) 1)
        (between_of server.old.engine) (between_of server.new.engine) (Some script.now) None None) }
    ensures stopped { IfErr result
        (IsStopped (answering_called (called_by server.old.engine server.old.context.now) 1)
        (between_of server.old.engine) (Some script.now) None None) }
{
    let mut reader = Device::reader(script);
    let mut writer = Unheard;
    carried_from(rt, alloc, server, &mut reader, &mut writer)
}

/// Returns an order of the present page, which the first session takes. `None` if the log is full.
fn present<L: Terms, R: Wait>(
    rt: &R,
    alloc: Global,
    engine: &mut Engine<L>,
) -> Result<Option<Order>, RunFault>
    ensures order { IfOk result (HandsOver L.game L.diagram (between_of engine.old)) }
    ensures stopped { IfErr result (λ fault. (fault ≡ RunFault.Memory) ⊎ (fault ≡ RunFault.Stray)) }
{
    match engine.order(rt, alloc, 1) {
        Ok(order) => Ok(Some(order)),
        Err(ClientFault::LogFull) => Ok(None),
        Err(ClientFault::Memory) => Err(RunFault::Memory),
        Err(_) => Err(RunFault::Stray),
    }
}

/// Returns a script's end with an order of the page that it left.
fn handed<L: Terms, R: Wait>(
    rt: &R,
    alloc: Global,
    engine: &mut Engine<L>,
    run: Result<Ending, RunFault>,
) -> Result<(Ending, Option<Order>), RunFault>
    ensures { IsHanded L.game L.diagram (between_of engine.old) run result }
{
    let ending = run?;
    let order = present(rt, alloc, engine)?;
    Ok((ending, order))
}

/// Carries a script out at an office with this row and this ledger, which `L` names. Returns its end with an order of
/// the page that it leaves, `None` if its log is full then.
fn left_there<L: Terms, T: Threads + Wait + Sync>(
    rt: &T,
    alloc: Global,
    site: Site,
    game: Arc<GuardedGame>,
    diagram: Arc<Diagram>,
    context: &Context,
    script: &[u8],
) -> Result<(Ending, Option<Order>), RunFault>
    requires features { (arc_value game).features ≡ feature_count (arc_value diagram).lines }
    requires site { (site.row ≡ L.shelves) × (site.name ≡ L.name) × (site.parts ≡ L.parts) }
    requires of { (arc_value game ≡ L.game) × (arc_value diagram ≡ L.diagram) }
    requires room { L.limit ≡ 1048576 }
    ensures left { IfOk result
        (λ r. IsLeft (arc_value diagram) (arc_value game) context.now script.now r.0 r.1) }
    ensures stopped { IfErr result (IsRunStopped (arc_value diagram) (arc_value game) context.now script.now) }
{
    let engine = match Engine::<L>::open(rt, alloc, site, game, diagram) {
        Ok(engine) => engine,
        Err(fault) => match fault {
            OpenFault::Memory => return Err(RunFault::Memory),
            _ => return Err(RunFault::Open { fault }),
        },
    };
    let mut server = Answering { engine, context };
    let run = carried(rt, alloc, &mut server, script);
    let Answering {
        mut engine,
        context: _,
    } = server;
    let left = handed(rt, alloc, &mut engine, run);
    end_engine(rt, engine);
    left
}

/// Carries a script out at an office on the game and the diagram. Returns its end with an order of the page that it
/// leaves, `None` if its log is full then.
fn left_by<T: Threads + Wait + Sync>(
    rt: &T,
    alloc: Global,
    game: Arc<GuardedGame>,
    diagram: Arc<Diagram>,
    context: &Context,
    script: &[u8],
) -> Result<(Ending, Option<Order>), RunFault>
    requires features { (arc_value game).features ≡ feature_count (arc_value diagram).lines }
    ensures left { IfOk result
        (λ r. IsLeft (arc_value diagram) (arc_value game) context.now script.now r.0 r.1) }
    ensures stopped { IfErr result (IsRunStopped (arc_value diagram) (arc_value game) context.now script.now) }
{
    let Ok(site) = Site::new(alloc) else {
        return Err(RunFault::Memory);
    };
    left_there::<Brand, T>(rt, alloc, site, game, diagram, context, script)
}

/// Returns the end of a script that is carried out at an office of the family, and an order of the page that it leaves.
/// Its lines are read in this context; its answers are dropped. `LogFull` if it leaves no room for the order.
pub(crate) fn page_after<T: Threads + Wait + Sync>(
    rt: &T,
    alloc: Global,
    family: &Family,
    context: &Context,
    script: &[u8],
) -> Result<(Ending, Order), Fault>
    requires { (arc_value family.now.game).features ≡ feature_count (arc_value family.now.diagram).lines }
    ensures left { IfOk result (λ r. IsLeft (arc_value family.now.diagram) (arc_value family.now.game) context.now
        script.now r.0 (Some r.1)) }
    ensures refused { IfErr result
        (IsUnleft (arc_value family.now.diagram) (arc_value family.now.game) context.now script.now) }
{
    let game = family.game.clone()?;
    let diagram = family.diagram.clone()?;
    match left_by(rt, alloc, game, diagram, context, script) {
        Ok((ending, found)) => match found {
            Some(order) => Ok((ending, order)),
            None => Err(Fault::LogFull),
        },
        Err(stop) => Err(stopped(alloc, &family.diagram, stop)),
    }
}
