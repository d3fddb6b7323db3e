//! Guards that no product meets.
ghost use Rattle.std.specs.Prelude.{◌≡◌, ◌<◌, ◌++◌, ◌∷◌, [], All, length, map, true, Contains, slice_index_or, IfOk, OnOk};
ghost use Rattle.vpg_guards.specs.Formula.{IsBelow, named};
ghost use Rattle.vpg_guards.specs.View.{formula_of};
ghost use Rattle.vpg_diagram.specs.FeatureDiagram.{feature_count};
ghost use Rattle.vpg_partial.specs.Known.{literal_of};
ghost use Rattle.vpg_partial.specs.TableLaws.{AreChoicesOf};
ghost use Rattle.vpg_system_draw.specs.Arrows.{no_transition};
ghost use Rattle.vpg_warnings.specs.Guards.{IsFound, IsNo, IsJudged, IsNoted, AreTriedOf, AreJudged, AreUnmet, decided};

use crate::numbers::numbers_of;
use std::alloc::{AllocError, Global};
use vpg_diagram::Diagram;
use vpg_guards::{Guard, Tri};
use vpg_partial::{Decision, Partial, PartialFault};
use vpg_system::System;

/// The most features of a guard that are tried, as the work doubles with each.
pub const MOST_TRIED: usize = 6;

/// Returns these decisions, and one after them.
fn with(
    alloc: Global,
    decisions: &[Decision],
    feature: u16,
    value: bool,
) -> Result<Vec<Decision>, AllocError>
    ensures { IfOk result (λ more. map literal_of more.items ≡
        map literal_of decisions.now ++ decided feature value ∷ []) }
{
    let mut more = Vec::new(alloc);
    more.extend_from_slice(decisions)?;
    more.push(Decision {
        serial: 1,
        session: 1,
        feature,
        value,
    })?;
    Ok(more)
}

/// Whether a value is `No`.
fn is_no(value: Tri) -> bool
    ensures { IsNo value result }
{
    match value {
        Tri::No => true,
        Tri::Unknown | Tri::Yes => false,
    }
}

/// Whether decisions contradict each other, or make a guard known false.
fn is_closed(
    alloc: Global,
    diagram: &Diagram,
    guard: &Guard,
    decisions: &[Decision],
) -> Result<bool, AllocError>
    requires choices { AreChoicesOf diagram.now.lines (map literal_of decisions.now) }
    requires guard { IsBelow (feature_count diagram.now.lines) (formula_of guard.now) }
    ensures { IfOk result (IsFound diagram.now.lines (formula_of guard.now) [] (map literal_of decisions.now)) }
{
    match Partial::close(alloc, diagram, decisions) {
        Ok(known) => Ok(is_no(guard.kleene(known.values()))),
        Err(PartialFault::Conflict { .. }) => Ok(true),
        Err(PartialFault::Memory) => Err(AllocError),
    }
}

/// Returns whether no way to decide the features is left, after these decisions.
fn is_refuted(
    alloc: Global,
    diagram: &Diagram,
    guard: &Guard,
    features: &[u16],
    decisions: &[Decision],
) -> Result<bool, AllocError>
    requires choices { AreChoicesOf diagram.now.lines (map literal_of decisions.now) }
    requires guard { IsBelow (feature_count diagram.now.lines) (formula_of guard.now) }
    requires features { All (λ f. f < feature_count diagram.now.lines) features.now }
    ensures { IfOk result
        (IsFound diagram.now.lines (formula_of guard.now) features.now (map literal_of decisions.now)) }
{
    let is_closed = is_closed(alloc, diagram, guard, decisions)?;
    let Some((first, rest)) = features.split_first() else {
        return Ok(is_closed);
    };
    if is_closed {
        return Ok(true);
    }
    let within = with(alloc, decisions, *first, true)?;
    if !is_refuted(alloc, diagram, guard, rest, &within)? {
        return Ok(false);
    }
    let without = with(alloc, decisions, *first, false)?;
    is_refuted(alloc, diagram, guard, rest, &without)
}

/// Whether a feature is one of these.
fn has(features: &[u16], feature: u16) -> bool
    ensures { result ≡ true → Contains features.now feature }
{
    for one in features {
        if *one == feature {
            return true;
        }
    }
    false
}

/// Notes a feature that is not there yet, while there are few.
fn note(features: &mut Vec<u16>, feature: u16) -> Result<(), AllocError>
    ensures { OnOk result (IsNoted features.old.items feature features.new.items) }
{
    if features.len() >= MOST_TRIED {
        return Ok(());
    }
    if has(features, feature) {
        return Ok(());
    }
    features.push(feature)?;
    Ok(())
}

/// Returns the features of these that are tried.
fn tried_of(alloc: Global, named: &[u16]) -> Result<Vec<u16>, AllocError>
    ensures { IfOk result (λ features. AreTriedOf named.now features.items) }
{
    let mut features = Vec::new(alloc);
    for feature in named {
        note(&mut features, *feature)?;
    }
    Ok(features)
}

/// Returns the features of a guard that are tried.
fn tried(alloc: Global, guard: &Guard) -> Result<Vec<u16>, AllocError>
    ensures { IfOk result (λ features. AreTriedOf (named (formula_of guard.now)) features.items) }
{
    let mut named = Vec::new(alloc);
    guard.push_features(&mut named)?;
    tried_of(alloc, &named)
}

/// Whether no product meets a guard, as far as propagation shows it.
fn is_unmet(alloc: Global, diagram: &Diagram, guard: &Guard) -> Result<bool, AllocError>
    requires { IsBelow (feature_count diagram.now.lines) (formula_of guard.now) }
    ensures { IfOk result (IsJudged diagram.now.lines (formula_of guard.now)) }
{
    // The contract of `features` states the invariant of every diagram.
    let _features = diagram.features();
    let features = tried(alloc, guard)?;
    is_refuted(alloc, diagram, guard, &features, &[])
}

/// Returns the number of transitions.
fn transition_count(system: &System) -> usize
    ensures { result ≡ length system.now.transitions }
{
    system.transitions().len()
}

/// Returns the guard of the transition of a number.
fn guard_at(system: &System, at: usize) -> &Guard
    requires { at < length system.now.transitions }
    ensures value { formula_of result.now ≡ (slice_index_or system.now.transitions at no_transition).guard }
    ensures below { IsBelow system.now.features (formula_of result.now) }
{
    let transitions = system.transitions();
    &transitions[at].guard
}

/// Returns for each transition whether no product meets its guard, as far as propagation shows it.
fn unmet_marks(alloc: Global, diagram: &Diagram, system: &System) -> Result<Vec<bool>, AllocError>
    requires { system.now.features ≡ feature_count diagram.now.lines }
    ensures { IfOk result (λ marks. AreJudged diagram.now.lines system.now.transitions
        (length system.now.transitions) marks.items) }
{
    let mut marks = Vec::new(alloc);
    for at in 0..transition_count(system) {
        marks.push(is_unmet(alloc, diagram, guard_at(system, at))?)?;
    }
    Ok(marks)
}

/// Returns the numbers of the transitions with guards that no product of the diagram meets, in order, as far as
/// propagation shows it. The features that a guard names, or six of them, are decided in each way, and each way
/// contradicts the diagram or makes the guard known false. Each other guard is left open by one way. In a diagram that
/// has no product these are all transitions.
pub fn unmet_guards(
    alloc: Global,
    diagram: &Diagram,
    system: &System,
) -> Result<Vec<usize>, AllocError>
    requires { system.now.features ≡ feature_count diagram.now.lines }
    ensures { IfOk result (λ found. AreUnmet diagram.now.lines system.now.transitions found.items) }
{
    let marks = unmet_marks(alloc, diagram, system)?;
    numbers_of(alloc, &marks)
}
