//! The features that decisions make known.
ghost use Rattle.std.specs.Prelude.{◌≡◌, ◌↔◌, ◌<◌, IsTrue, All};

use std::alloc::{AllocError, Global};
use vpg_diagram::Diagram;
use vpg_guards::Tri;
use vpg_measure::known_under;
use vpg_partial::{Decision, Partial, PartialFault};

/// The features that decisions make known, or that they contradict each other.
#[derive(Drop)]
pub(crate) enum Closed {
    Known(Partial),
    Conflict,
}

/// Whether each decision is on a feature below this count.
fn are_below(features: usize, decisions: &[Decision]) -> bool
    ensures { IsTrue result ↔ All (λ d. d.feature < features) decisions.now }
{
    decisions.iter().all(|d| (d.feature as usize) < features)
}

/// Returns the features that decisions make known. Decisions on no feature have a conflict.
pub(crate) fn closure_of(
    alloc: Global,
    diagram: &Diagram,
    decisions: &[Decision],
) -> Result<Closed, AllocError> {
    let features = diagram.features();
    if !are_below(features, decisions) {
        return Ok(Closed::Conflict);
    }
    match known_under(alloc, diagram, decisions) {
        Ok(known) => Ok(Closed::Known(known)),
        Err(PartialFault::Conflict { .. }) => Ok(Closed::Conflict),
        Err(PartialFault::Memory) => Err(AllocError),
    }
}

/// Returns a decision.
pub(crate) fn decision(feature: u16, value: bool) -> Decision {
    Decision {
        serial: 1,
        session: 1,
        feature,
        value,
    }
}

/// Returns whether decisions contradict each other.
pub(crate) fn have_conflict(
    alloc: Global,
    diagram: &Diagram,
    decisions: &[Decision],
) -> Result<bool, AllocError> {
    let closed = closure_of(alloc, diagram, decisions)?;
    Ok(matches!(closed, Closed::Conflict))
}

/// Returns whether a feature is known out without decisions, or contradicts the diagram if it is chosen.
pub(crate) fn is_dead(
    alloc: Global,
    diagram: &Diagram,
    known: &[Tri],
    feature: u16,
) -> Result<bool, AllocError> {
    match known.get(feature as usize) {
        Some(Tri::No) => Ok(true),
        Some(Tri::Unknown) => have_conflict(alloc, diagram, &[decision(feature, true)]),
        Some(Tri::Yes) | None => Ok(false),
    }
}
