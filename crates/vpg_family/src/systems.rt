//! Pictures of a system over the features of a diagram.
ghost use Rattle.std.specs.Prelude.{◌≡◌, ◌<◌, [], All, length, map, IfOk, IfErr};
ghost use Rattle.vpg_diagram.specs.FeatureDiagram.{feature_count};
ghost use Rattle.vpg_family.specs.Pictures.{TellsContradiction};
ghost use Rattle.vpg_family.specs.Systems.{IsDrawnAlone, IsSystemFault, IsSystemDrawn, IsSystemOn, IsSystemPicture, IsSystemUndrawn, IsSystemUnder, marks_on};
ghost use Rattle.vpg_partial.specs.Known.{literal_of};
ghost use Rattle.vpg_system.specs.SystemText.{IsTextOf};

use crate::drawing::known_alone;
use crate::family::read_diagram;
use crate::fault::Fault;
use std::alloc::{AllocError, Global};
use vpg_diagram::Diagram;
use vpg_measure::Order;
use vpg_partial::{Decision, Partial};
use vpg_system::{System, SystemFault};
use vpg_system_draw::{Marks, Path, draw_system, reachable};

/// Returns the system over the features of a diagram that a text spells.
pub(crate) fn read_system(alloc: Global, text: &[u8], diagram: &Diagram) -> Result<System, Fault>
    ensures found { IfOk result (IsTextOf diagram.now.names text.now) }
    ensures features { IfOk result (λ system. system.features ≡ feature_count diagram.now.lines) }
    ensures refused { IfErr result (IsSystemFault diagram.now.names text.now) }
{
    match System::read(alloc, text, diagram.names()) {
        Ok(system) => Ok(system),
        Err(fault) => match fault {
            SystemFault::Memory => Err(Fault::Memory),
            _ => Err(Fault::System { fault }),
        },
    }
}

/// Returns the picture of a system under decisions and the features that they make known, with these marks.
fn system_marked(
    alloc: Global,
    diagram: &Diagram,
    system: &System,
    known: &Partial,
    decisions: &[Decision],
    marks: &Marks,
) -> Result<Vec<u8>, AllocError>
    requires features { system.now.features ≡ feature_count diagram.now.lines }
    requires known { length known.now ≡ feature_count diagram.now.lines }
    requires decisions { All (λ d. d.feature < feature_count diagram.now.lines) decisions.now }
    ensures { IfOk result (λ picture. IsSystemDrawn diagram.now.names known.now (map literal_of decisions.now)
        system.now marks.now picture.items) }
{
    let names = diagram.names();
    let reached = reachable(alloc, system, known)?;
    let mut picture = Vec::new(alloc);
    draw_system(
        alloc,
        system,
        names,
        known,
        decisions,
        &reached,
        marks,
        &mut picture,
    )?;
    Ok(picture)
}

/// Returns the marks of a trace, if there is one.
fn marks_on(alloc: Global, system: &System, path: Option<Path>) -> Result<Marks, AllocError>
    ensures { IfOk result (λ marks. marks ≡ marks_on system.now path) }
{
    match path {
        Some(path) => Marks::of(alloc, system, path),
        None => Ok(Marks::none(alloc)),
    }
}

/// Returns the picture of a system under decisions and the features that they make known, with the marks of a trace if
/// there is one.
fn system_shown(
    alloc: Global,
    diagram: &Diagram,
    system: &System,
    known: &Partial,
    decisions: &[Decision],
    path: Option<Path>,
) -> Result<Vec<u8>, AllocError>
    requires features { system.now.features ≡ feature_count diagram.now.lines }
    requires known { length known.now ≡ feature_count diagram.now.lines }
    requires decisions { All (λ d. d.feature < feature_count diagram.now.lines) decisions.now }
    ensures { IfOk result (λ picture. IsSystemDrawn diagram.now.names known.now (map literal_of decisions.now)
        system.now (marks_on system.now path) picture.items) }
{
    let marks = marks_on(alloc, system, path)?;
    system_marked(alloc, diagram, system, known, decisions, &marks)
}

/// Returns the picture of a system under what its diagram alone makes known.
fn drawn_alone(alloc: Global, diagram: &Diagram, system: &System) -> Result<Vec<u8>, Fault>
    requires { system.now.features ≡ feature_count diagram.now.lines }
    ensures drawn { IfOk result (λ picture. IsDrawnAlone diagram.now system.now picture.items) }
    ensures refused { IfErr result (TellsContradiction diagram.now) }
{
    let known = match known_alone(alloc, diagram) {
        Ok(known) => known,
        Err(fault) => return Err(fault),
    };
    match system_shown(alloc, diagram, system, &known, &[], None) {
        Ok(picture) => Ok(picture),
        Err(_) => Err(Fault::Memory),
    }
}

/// Returns the picture of the system that two texts spell, under no decisions. Errors, in this order: a fault of the
/// diagram, one of the system, a diagram that contradicts itself.
pub fn system_drawn(
    alloc: Global,
    diagram_text: &[u8],
    system_text: &[u8],
) -> Result<Vec<u8>, Fault>
    ensures drawn { IfOk result (λ picture. IsSystemPicture diagram_text.now system_text.now picture.items) }
    ensures refused { IfErr result (IsSystemUndrawn diagram_text.now system_text.now) }
{
    let diagram = match read_diagram(alloc, diagram_text) {
        Ok(diagram) => diagram,
        Err(fault) => return Err(fault),
    };
    let system = match read_system(alloc, system_text, &diagram) {
        Ok(system) => system,
        Err(fault) => return Err(fault),
    };
    drawn_alone(alloc, &diagram, &system)
}

/// Returns the picture of a system on a page, of which this is an order, with the marks of a trace if there is one.
fn system_under(
    alloc: Global,
    order: &Order,
    system: &System,
    path: Option<Path>,
) -> Result<Vec<u8>, AllocError>
    requires { system.now.features ≡ feature_count order.now.diagram.lines }
    ensures { IfOk result (λ picture. IsSystemUnder order.now.diagram (map literal_of order.now.decisions) system.now
        path picture.items) }
{
    let known = order.games().known();
    let decisions = order.decisions();
    system_shown(alloc, order.diagram(), system, known, decisions, path)
}

/// Returns the picture of the system that a text spells, on a page, of which this is an order. It has the marks of a
/// trace if there is one. Errors: a fault of the system.
pub fn system_on(
    alloc: Global,
    order: &Order,
    system_text: &[u8],
    path: Option<Path>,
) -> Result<Vec<u8>, Fault>
    ensures drawn { IfOk result (λ picture. IsSystemOn order.now.diagram (map literal_of order.now.decisions)
        system_text.now path picture.items) }
    ensures refused { IfErr result (IsSystemFault order.now.diagram.names system_text.now) }
{
    let system = match read_system(alloc, system_text, order.diagram()) {
        Ok(system) => system,
        Err(fault) => return Err(fault),
    };
    match system_under(alloc, order, &system, path) {
        Ok(picture) => Ok(picture),
        Err(_) => Err(Fault::Memory),
    }
}
