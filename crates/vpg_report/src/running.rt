//! Scripts carried out at an office of a family.
ghost use Rattle.std.specs.Arc.{arc_value};
ghost use Rattle.std.specs.Prelude.{◌≡◌, ◌≤◌, ◌⊎◌, ℕ, true, IsErrOf};
ghost use Rattle.vpg_diagram.specs.FeatureDiagram.{feature_count};
ghost use Rattle.vpg_report.specs.Runs.{TellsStop, IsRun, UnlessScriptFails, UnlessOutputFails};

use crate::runs::run_there;
use std::alloc::Global;
use std::marker::Brand;
use std::sync::Wait;
use std::thread::Threads;
use vpg_desk::OpenFault;
use vpg_diagram::Diagram;
use vpg_family::{Context, Family, Fault, conflict};
use vpg_office::Site;
use vpg_script::{Ending, Manner, RunFault, Sink, Source};

/// Returns the fault that reports how a run stopped. A conflict names the root.
pub(crate) fn stopped(alloc: Global, diagram: &Diagram, stop: RunFault) -> Fault
    requires root { (f : ℕ) → stop ≡ RunFault.Open (OpenFault.Conflict f) → f ≡ 0 }
    ensures { TellsStop diagram.now.names stop result }
{
    match stop {
        RunFault::Line { line, fault } => Fault::Line { line, fault },
        RunFault::Read => Fault::Read,
        RunFault::Write => Fault::Write,
        RunFault::Open { fault } => match fault {
            OpenFault::AtLimit => Fault::AtLimit,
            OpenFault::Conflict { feature } => conflict(alloc, diagram, feature),
            OpenFault::Memory => Fault::Memory,
        },
        RunFault::Memory => Fault::Memory,
        RunFault::Stray => Fault::Stray,
    }
}

/// Carries a script out at an office of the family, in a manner. Its lines are read in this context: they may give
/// vertices its names, and ask for traces of its system. Lines of answers end with the names that it has for vertices.
pub fn run_script<T: Threads + Wait + Sync, R: Source, W: Sink>(
    rt: &T,
    alloc: Global,
    family: Family,
    context: &Context,
    reader: &mut R,
    writer: &mut W,
    lifters: u32,
    manner: Manner,
) -> Result<Ending, Fault>
    requires unread { R.calls reader.old ≡ 0 }
    requires lifters { (1 ≤ lifters) × (lifters ≤ 64) }
    requires features { (arc_value family.game).features ≡ feature_count (arc_value family.diagram).lines }

    // An office on the family writes the answers to the script's lines, with the vertices that their names mean, and
    // the result is their end.
    ensures output { IsRun manner (arc_value family.diagram) (arc_value family.game) context.now lifters
        (R.remaining reader.old) (R.remaining reader.new) (W.contents writer.old) (W.contents writer.new) result }

    // Read and Write come only if the device failed, or the script was read 16,777,216 times.
    ensures read { IsErrOf result Fault.Read → (R.has_failed reader.new ≡ true) ⊎ (R.calls reader.new ≡ 16777216) }
    ensures write { IsErrOf result Fault.Write → W.has_failed writer.new ≡ true }

    // A failed device is reported.
    ensures readable { UnlessScriptFails result (R.has_failed reader.new ≡ R.has_failed reader.old) }
    ensures writable { UnlessOutputFails result (W.has_failed writer.new ≡ W.has_failed writer.old) }
{
    let diagram = family.diagram.clone()?;
    let Ok(site) = Site::new(alloc) else {
        return Err(Fault::Memory);
    };
    match run_there::<Brand, T, R, W>(
        rt,
        alloc,
        site,
        family.game,
        family.diagram,
        context,
        reader,
        writer,
        lifters,
        manner,
    ) {
        Ok(ending) => Ok(ending),
        Err(stop) => Err(stopped(alloc, &diagram, stop)),
    }
}
