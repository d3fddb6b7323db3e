//! A search by features alone.
ghost use Rattle.std.specs.Prelude.{◌≡◌, ◌<◌, ◌≤◌, ◌+◌, [], ℕ, length, map, take, count_by, true, false, slice_index_or, IfOk, IfSome, IsNone, IsTrue, ◌↔◌};
ghost use Rattle.std.proofs.Math.ListN.{set};
ghost use Rattle.std.specs.List.{AllByRecursion};
ghost use Rattle.vpg_guards.specs.declared.tri.Tri.TheVariants.{Unknown};
ghost use Rattle.vpg_guards.specs.Known.{AreAllKnown, IsFiner};
ghost use Rattle.vpg_game.specs.Game.{NamedGame};
ghost use Rattle.vpg_partial.specs.KnownTable.{is_known_as};
ghost use Rattle.vpg_partial.specs.TableLaws.{AreChoicesOf, IsOnlyRemaining};
ghost use Rattle.vpg_products.specs.Growing.{AreShown, tri_of};
ghost use Rattle.vpg_why.specs.Explained.{choices};
ghost use Rattle.vpg_why.specs.Found.{HasRoom};
ghost use Rattle.vpg_why.specs.Glances.{IsGlance};
ghost use Rattle.vpg_why.specs.Products.{NoneMeets};
ghost use Rattle.vpg_why.specs.Reasons.{IsReason, IsReasoned, IsReasonedExact, IsTaken};
ghost use Rattle.vpg_why.specs.Suffices.{is_open, most_trials, AreOpenUpTo};

use crate::asking::{closed, with_one};
use crate::grounds::{decided, kept_by};
use crate::question::{Aim, Limits};
use crate::searching::{Example, Half, Reasoned, both, first_half, reason, reserve};
use crate::seeking::has;
use std::alloc::{AllocError, Global};
use vpg_diagram::Diagram;
use vpg_guards::Tri;
use vpg_measure::Order;
use vpg_partial::Decision;
use vpg_products::{Trail, blamed, grow, is_refuted};

/// The outlook of some decisions by features alone.
#[derive(Drop)]
pub(crate) enum Glance {
    /// No product is left. The marked decisions leave none.
    Lost(Vec<bool>),
    /// This is the only product that is left.
    Met(Vec<bool>),
    /// The feature is the first that is not known.
    Open { feature: u16 },
}

// The first feature that is not known.
fn first_open(known: &[Tri], features: u16) -> Option<u16>
    requires { length known.now ≡ features }
    ensures within { IfSome result (λ f. f < length known.now) }
    ensures unknown { IfSome result (λ f. slice_index_or known.now f Unknown ≡ Unknown) }
    ensures below { IfSome result (λ f. (g : ℕ) → g < f → slice_index_or known.now g Unknown ≡ Unknown → ⊥) }
    ensures none { IsNone result → AreAllKnown (length known.now) known.now }
{
    for f in 0..features {
        if known[f as usize] == Tri::Unknown {
            return Some(f);
        }
    }
    None
}

// Whether a product has each of the decisions.
fn has_each(product: &[bool], decisions: &[Decision]) -> bool
    ensures { IsTrue result ↔ AllByRecursion (λ d. slice_index_or product.now d.feature false ≡ d.value) decisions.now }
{
    decisions.iter().all(|d| has(product, d.feature) == d.value)
}

// For each feature whether it is known to be in.
fn features_in(alloc: Global, known: &[Tri]) -> Result<Vec<bool>, AllocError>
    ensures { IfOk result (λ set. set.items ≡ map (λ t. is_known_as t true) known.now) }
{
    known
        .iter()
        .map(|value| match value {
            Tri::No | Tri::Unknown => false,
            Tri::Yes => true,
        })
        .collect(alloc)
}

// The only product that is left where each feature is known; nothing if none is.
fn only_product(
    alloc: Global,
    diagram: &Diagram,
    known: &[Tri],
    decisions: &[Decision],
) -> Result<Option<Vec<bool>>, AllocError>
    requires shown { AreShown diagram.now.lines (choices decisions.now) known.now }
    requires full { AreAllKnown (length known.now) known.now }
    ensures some { IfOk result (λ found. IfSome found (λ set.
        IsOnlyRemaining diagram.now.lines (choices decisions.now) set.items)) }
    ensures none { IfOk result (λ found. IsNone found →
        (game : NamedGame) → NoneMeets game diagram.now Aim.Any (choices decisions.now)) }
{
    let product = features_in(alloc, known)?;
    if !diagram.is_product(&product) {
        return Ok(None);
    }
    if !has_each(&product, decisions) {
        return Ok(None);
    }
    Ok(Some(product))
}

// Some of the decisions that leave no product, which do so alone: those on marked features, if that is shown, or
// otherwise all. The first ones, which a search begins with, are always among them.
fn reason_on(
    alloc: Global,
    diagram: &Diagram,
    base: &[Tri],
    decisions: &[Decision],
    begun: usize,
    used: &[bool],
    trail: &mut Trail,
) -> Result<Vec<bool>, AllocError>
    requires named { AreChoicesOf diagram.now.lines (choices decisions.now) }
    requires base { AreShown diagram.now.lines (take begun (choices decisions.now)) base.now }
    requires lost { (game : NamedGame) → NoneMeets game diagram.now Aim.Any (choices decisions.now) }
    ensures { IfOk result (λ marks.
        (game : NamedGame) → IsReason game diagram.now Aim.Any (choices decisions.now) [] marks.items) }
{
    let marks = decided(alloc, decisions, begun, used)?;
    let kept = kept_by(alloc, decisions, &marks)?;
    if is_refuted(alloc, diagram, base, &kept, trail)? {
        return Ok(marks);
    }
    let all = vec![in alloc; true; decisions.len()]?;
    Ok(all)
}

// The outlook where each feature is known.
fn glance_at_full(
    alloc: Global,
    diagram: &Diagram,
    known: &[Tri],
    decisions: &[Decision],
) -> Result<Glance, AllocError>
    requires shown { AreShown diagram.now.lines (choices decisions.now) known.now }
    requires full { AreAllKnown (length known.now) known.now }
    ensures { IfOk result (IsGlance diagram.now (choices decisions.now) known.now) }
{
    let only = only_product(alloc, diagram, known, decisions)?;
    if let Some(product) = only {
        return Ok(Glance::Met(product));
    }
    let marks = vec![in alloc; true; decisions.len()]?;
    Ok(Glance::Lost(marks))
}

// The outlook of some decisions, after what follows from the feature was added to what is known.
fn glance_on(
    alloc: Global,
    diagram: &Diagram,
    base: &[Tri],
    known: &mut [Tri],
    feature: u16,
    decisions: &[Decision],
    begun: usize,
    trail: &mut Trail,
) -> Result<Glance, AllocError>
    requires named { AreChoicesOf diagram.now.lines (choices decisions.now) }
    requires base { AreShown diagram.now.lines (take begun (choices decisions.now)) base.now }
    requires shown { AreShown diagram.now.lines (choices decisions.now) known.old }
    ensures shown { AreShown diagram.now.lines (choices decisions.now) known.new }
    ensures finer { IsFiner known.old known.new }
    ensures glance { IfOk result (IsGlance diagram.now (choices decisions.now) known.new) }
{
    let features = diagram.features() as u16;
    let fails = grow(diagram, known, feature, trail)?;
    if let Some(failed) = fails {
        let used = blamed(alloc, diagram, known, trail, failed)?;
        let marks = reason_on(alloc, diagram, base, decisions, begun, &used, trail)?;
        return Ok(Glance::Lost(marks));
    }
    match first_open(known, features) {
        Some(feature) => Ok(Glance::Open { feature }),
        None => glance_at_full(alloc, diagram, known, decisions),
    }
}

// The work of a trial: so many visits of rules by the features that became known since the last trial was taken.
const WORK: u64 = 65_536;

// Takes a trial, if there was so much work since the last one.
fn charge(trail: &mut Trail, trials: &mut u64)
    requires { 0 < trials.old }
    ensures fewer { trials.new ≤ trials.old }
    ensures one { trials.old ≤ trials.new + 1 }
{
    if trail.is_due(WORK) {
        *trials -= 1;
    }
}

// What is known, and the feature so.
fn with_value(
    alloc: Global,
    known: &[Tri],
    feature: u16,
    value: bool,
) -> Result<Vec<Tri>, AllocError>
    requires { feature < length known.now }
    ensures { IfOk result (λ more. more.items ≡ set known.now feature (tri_of value)) }
{
    let mut more = Vec::from_slice(alloc, known)?;
    more[feature as usize] = if value { Tri::Yes } else { Tri::No };
    Ok(more)
}

/// A search for any product among those that agree with the decisions, with a reason if there is none. It is that of
/// `search_with_reasons`, but adds to what is known for the decisions what follows from the last one, on this feature.
/// A trial has the work of many looks.
fn search_on(
    alloc: Global,
    diagram: &Diagram,
    base: &[Tri],
    known: &mut [Tri],
    feature: u16,
    decisions: &[Decision],
    avoided: &[bool],
    begun: usize,
    depth: u32,
    trials: &mut u64,
    trail: &mut Trail,
) -> Result<Reasoned, AllocError>
    requires named { AreChoicesOf diagram.now.lines (choices decisions.now) }
    requires begun { begun ≤ length decisions.now }
    requires base { AreShown diagram.now.lines (take begun (choices decisions.now)) base.now }
    requires shown { AreShown diagram.now.lines (choices decisions.now) known.old }
    ensures found { IfOk result (λ found.
        (game : NamedGame) → IsReasoned game diagram.now Aim.Any (choices decisions.now) found) }
    ensures left { IfOk result (λ found. trials.new ≤ trials.old) }
    ensures spent { IfOk result (λ found. trials.old ≤ trials.new + most_trials depth) }
    ensures fewer { IfOk result (λ found. trials.old ≤ trials.new + most_trials (count_by is_open known.old + 1)) }
    ensures settled { IfOk result (λ found. count_by is_open known.old < depth →
        most_trials (count_by is_open known.old + 1) ≤ trials.old → IsReasonedExact avoided.now found) }
{
    if depth == 0 || *trials == 0 {
        return Ok(Reasoned::Unsettled);
    }
    charge(trail, trials);
    let seen = glance_on(
        alloc, diagram, base, known, feature, decisions, begun, trail,
    )?;
    let open = match seen {
        Glance::Lost(marks) => return Ok(Reasoned::Nothing(marks)),
        Glance::Met(features) => {
            return Ok(Reasoned::Product(Example {
                features,
                first: true,
            }));
        }
        Glance::Open { feature } => feature,
    };
    let place = trail.len();
    let less = depth - 1;
    let value = !has(avoided, open);
    let kept = reserve(*trials);
    *trials -= kept;
    let more = with_one(alloc, decisions, open, value)?;
    let mut half = with_value(alloc, known, open, value)?;
    let one = search_on(
        alloc, diagram, base, &mut half, open, &more, avoided, begun, less, trials, trail,
    )?;
    trail.truncate(place);
    *trials += kept;
    let reason = match first_half(decisions.len(), value, one) {
        Half::Ends(found) => return Ok(found),
        Half::GoesOn(reason) => reason,
    };
    let more = with_one(alloc, decisions, open, !value)?;
    let mut half = with_value(alloc, known, open, !value)?;
    let other = search_on(
        alloc, diagram, base, &mut half, open, &more, avoided, begun, less, trials, trail,
    )?;
    trail.truncate(place);
    let found = both(alloc, decisions.len(), value, reason, other)?;
    Ok(found)
}

// What the first decisions make known.
fn base_of(
    alloc: Global,
    order: &Order,
    decisions: &[Decision],
    begun: usize,
) -> Result<Vec<Tri>, AllocError>
    requires named { AreChoicesOf order.now.diagram.lines (choices decisions.now) }
    requires begun { begun ≤ length decisions.now }
    ensures { IfOk result (λ base. AreShown order.now.diagram.lines (take begun (choices decisions.now)) base.items) }
{
    // Properties of every order, for the proof.
    let _order = order.game();
    match closed(alloc, order, &decisions[..begun])? {
        Some(known) => Ok(Vec::from_slice(alloc, known.values())?),
        None => Ok(vec![in alloc; Tri::Unknown; order.diagram().features()]?),
    }
}

// The search where what the decisions make known has no conflict.
fn search_known(
    alloc: Global,
    order: &Order,
    known: &[Tri],
    decisions: &[Decision],
    avoided: &[bool],
    begun: usize,
    depth: u32,
    trials: &mut u64,
) -> Result<Reasoned, AllocError>
    requires named { AreChoicesOf order.now.diagram.lines (choices decisions.now) }
    requires begun { begun ≤ length decisions.now }
    requires some { 0 < trials.old }
    requires deep { 0 < depth }
    requires shown { AreShown order.now.diagram.lines (choices decisions.now) known.now }
    ensures found { IfOk result (IsReasoned order.now.game order.now.diagram Aim.Any (choices decisions.now)) }
    ensures left { IfOk result (λ found. trials.new < trials.old) }
    ensures spent { IfOk result (λ found. trials.old ≤ trials.new + most_trials depth) }
    ensures fewer { IfOk result (λ found. trials.old ≤ trials.new + most_trials (count_by is_open known.now + 1)) }
    ensures settled { IfOk result (λ found. count_by is_open known.now < depth →
        most_trials (count_by is_open known.now + 1) ≤ trials.old → IsReasonedExact avoided.now found) }
{
    let base = base_of(alloc, order, decisions, begun)?;
    let mut now = Vec::from_slice(alloc, known)?;
    let mut trail = Trail::new(alloc);
    let before = *trials;
    let found = search_on(
        alloc,
        order.diagram(),
        &base,
        &mut now,
        0,
        decisions,
        avoided,
        begun,
        depth,
        trials,
        &mut trail,
    )?;
    if *trials == before {
        *trials -= 1;
    }
    Ok(found)
}

/// The search of `search_with_reasons` for any product, by features alone: no game is made.
pub(crate) fn search_features(
    alloc: Global,
    order: &Order,
    decisions: &[Decision],
    avoided: &[bool],
    begun: usize,
    limits: Limits,
    looks: &mut u64,
    depth: u32,
    trials: &mut u64,
) -> Result<Reasoned, AllocError>
    requires named { AreChoicesOf order.now.diagram.lines (choices decisions.now) }
    ensures found { IfOk result (IsReasoned order.now.game order.now.diagram Aim.Any (choices decisions.now)) }
    ensures taken { IfOk result (IsTaken trials.old trials.new) }
    ensures spent { IfOk result (λ found. trials.old ≤ trials.new + most_trials depth) }
    ensures fewer { IfOk result (λ found. (most : ℕ) →
        AreOpenUpTo most order.now.diagram.lines (choices decisions.now) →
        trials.old ≤ trials.new + most_trials (most + 1)) }
    ensures settled { IfOk result
        (λ found. HasRoom order.now.diagram (choices decisions.now) depth trials.old →
        IsReasonedExact avoided.now found) }
    ensures looks { IfOk result (λ found. looks.new ≤ looks.old) }
{
    // Properties of every order, for the proof.
    let _order = order.game();
    if depth == 0 || *trials == 0 {
        return Ok(Reasoned::Unsettled);
    }
    let begun = begun.min(decisions.len());
    let Some(known) = closed(alloc, order, decisions)? else {
        *trials -= 1;
        let marks = reason(alloc, order, Aim::Any, decisions, begun, limits, looks)?;
        return Ok(Reasoned::Nothing(marks));
    };
    let found = search_known(
        alloc,
        order,
        known.values(),
        decisions,
        avoided,
        begun,
        depth,
        trials,
    )?;
    Ok(found)
}
