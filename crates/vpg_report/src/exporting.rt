//! The configuration of a family on the page that a script leaves.
ghost use Rattle.std.specs.Arc.{arc_value};
ghost use Rattle.std.specs.Prelude.{◌≡◌, IfErr, IfOk};
ghost use Rattle.vpg_diagram.specs.FeatureDiagram.{feature_count};
ghost use Rattle.vpg_report.specs.Exports.{IsConfiguration, IsExportedAfter};
ghost use Rattle.vpg_report.specs.Left.{IsUnleft};

use crate::leaving::page_after;
use std::alloc::{AllocError, Global};
use std::sync::Wait;
use std::thread::Threads;
use vpg_configuration::{ConfigurationForm, exported};
use vpg_family::{Context, Family, Fault};
use vpg_measure::Order;
use vpg_script::Ending;

/// Returns the configuration of the page of an order.
fn configuration(
    alloc: Global,
    form: ConfigurationForm,
    order: &Order,
) -> Result<Vec<u8>, AllocError>
    ensures { IfOk result
        (λ text. IsConfiguration form order.now.diagram order.now.game order.now.decisions text.items) }
{
    let names = order.diagram().names();
    exported(alloc, form, names, order.games().known(), order.decisions())
}

/// Returns the configuration of a family on the page that a script leaves, and the script's end. As names these are the
/// features that are known to be in, one a line; as XML it says of each feature what is known and decided of it. The
/// script's lines are read in this context. Errors: the run's own fault; `LogFull` if the script leaves no room in the
/// log for a look at the page.
pub fn exported_after<T: Threads + Wait + Sync>(
    rt: &T,
    alloc: Global,
    family: &Family,
    context: &Context,
    form: ConfigurationForm,
    script: &[u8],
) -> Result<(Ending, Vec<u8>), Fault>
    requires { (arc_value family.now.game).features ≡ feature_count (arc_value family.now.diagram).lines }
    ensures exported { IfOk result (λ exported. IsExportedAfter (arc_value family.now.diagram)
        (arc_value family.now.game) context.now form script.now exported.0 exported.1.items) }
    ensures refused { IfErr result
        (IsUnleft (arc_value family.now.diagram) (arc_value family.now.game) context.now script.now) }
{
    let (ending, order) = page_after(rt, alloc, family, context, script)?;
    match configuration(alloc, form, &order) {
        Ok(text) => Ok((ending, text)),
        Err(_) => Err(Fault::Memory),
    }
}
