//! The effects of retracting decisions of a page.
ghost use Rattle.std.specs.Prelude.{◌≡◌, ◌≢◌, ◌↔◌, ◌<◌, ◌++◌, ◌∷◌, [], IfOk, IsTrue, length};
ghost use Rattle.vpg_looks.specs.Repairs.{AreTried, IsEffect, IsLostBy, without};
ghost use Rattle.vpg_looks.specs.Room.{EachSearchEnds, SearchEnds};
ghost use Rattle.vpg_partial.specs.TableLaws.{AreChoicesOf};
ghost use Rattle.vpg_texts.specs.Scene.{scene_of};
ghost use Rattle.vpg_why.specs.Explained.{choices};
ghost use Rattle.vpg_why.specs.Repaired.{IsRepair};

use std::alloc::{AllocError, Global};
use vpg_measure::Order;
use vpg_partial::Decision;
use vpg_sides::Which;
use vpg_why::{Aim, Found, Limits, Shown, are_among, order_under, seek, verdict_shown};

/// The effect of retracting a decision.
#[derive(Clone, Copy)]
pub(crate) enum Effect {
    /// A product is left that Even wins.
    Won,
    /// There is none, but the vertex is possible by the cautious verdict, and was hopeless before.
    Possible,
    /// There is none, and the verdict stays.
    Nothing,
    /// A limit was met.
    Unsettled,
}

/// A decision, and the effect of retracting it alone.
#[derive(Clone, Copy)]
pub(crate) struct Tried {
    pub(crate) decision: Decision,
    pub(crate) effect: Effect,
}

/// Decisions to retract together.
#[derive(Drop)]
pub(crate) struct Given {
    /// Those that stay.
    pub(crate) kept: Vec<Decision>,
    pub(crate) given: Vec<Decision>,
    /// Whether it was shown that each of them has to be retracted, beside the older ones that stay.
    pub(crate) sure: bool,
}

/// Returns the effect on the verdict, where Even wins no product that agrees with the decisions that stay.
fn cautious_effect(
    alloc: Global,
    order: &Order,
    kept: &[Decision],
    vertex: u32,
    was_hopeless: bool,
    limits: Limits,
    looks: &mut u64,
) -> Result<Effect, AllocError>
    requires named { AreChoicesOf order.now.diagram.lines (choices kept.now) }
    requires vertex { vertex < length order.now.game.vertices }
    requires lost { IsLostBy (scene_of [] order.now.game order.now.diagram) vertex (choices kept.now) }
    ensures { IfOk result (IsEffect (scene_of [] order.now.game order.now.diagram) limits vertex was_hopeless
        (choices kept.now)) }
{
    if !was_hopeless {
        return Ok(Effect::Nothing);
    }
    match verdict_shown(alloc, order, Which::Hopeful, vertex, kept, limits, looks)? {
        Shown::Yes => Ok(Effect::Nothing),
        Shown::No => Ok(Effect::Possible),
        Shown::Unsettled => Ok(Effect::Unsettled),
    }
}

/// Returns the effect of a retraction, by the decisions that stay, with the looks and the trials of the line.
pub(crate) fn effect_of(
    alloc: Global,
    order: &Order,
    kept: &[Decision],
    vertex: u32,
    was_hopeless: bool,
    limits: Limits,
    looks: &mut u64,
    trials: &mut u64,
) -> Result<Effect, AllocError>
    requires named { AreChoicesOf order.now.diagram.lines (choices kept.now) }
    requires vertex { vertex < length order.now.game.vertices }
    ensures { IfOk result (IsEffect (scene_of [] order.now.game order.now.diagram) limits vertex was_hopeless
        (choices kept.now)) }
{
    let which = Which::Hopeful;
    let aim = Aim::Won { which, vertex };
    let found = seek(alloc, order, aim, kept, limits, looks, trials)?;
    match found {
        Found::Product(_) => Ok(Effect::Won),
        Found::Nothing => cautious_effect(alloc, order, kept, vertex, was_hopeless, limits, looks),
        Found::Unsettled => Ok(Effect::Unsettled),
    }
}

/// Returns the decisions without the one at this place.
fn without(alloc: Global, decisions: &[Decision], place: usize) -> Result<Vec<Decision>, AllocError>
    requires { place < length decisions.now }
    ensures { IfOk result (λ kept. kept.items ≡ without place decisions.now) }
{
    let mut kept = Vec::from_slice(alloc, &decisions[..place])?;
    kept.extend_from_slice(&decisions[place + 1..])?;
    Ok(kept)
}

/// Returns the effect of retracting the decision at this place alone. It is nothing if the reason stays.
fn effect_without(
    alloc: Global,
    order: &Order,
    place: usize,
    vertex: u32,
    was_hopeless: bool,
    reason: &[Decision],
    limits: Limits,
    looks: &mut u64,
    trials: &mut u64,
) -> Result<Effect, AllocError>
    requires place { place < length order.now.decisions }
    requires vertex { vertex < length order.now.game.vertices }
    requires reason { IsEffect (scene_of [] order.now.game order.now.diagram) limits vertex was_hopeless
        (choices reason.now) Effect.Nothing }
    ensures { IfOk result (IsEffect (scene_of [] order.now.game order.now.diagram) limits vertex was_hopeless
        (choices (without place order.now.decisions))) }
{
    let kept = without(alloc, order.decisions(), place)?;
    if are_among(reason, &kept) {
        return Ok(Effect::Nothing);
    }
    let under = order_under(alloc, order, &kept, &[Which::Hopeful, Which::Dual], looks)?;
    let found = effect_of(
        alloc,
        &under,
        &kept,
        vertex,
        was_hopeless,
        limits,
        looks,
        trials,
    )?;
    Ok(found)
}

/// Returns the decisions of the page, each with the effect of retracting it alone. All of them share looks and trials.
/// The reason has no effect if all else is retracted.
pub(crate) fn tries(
    alloc: Global,
    order: &Order,
    vertex: u32,
    was_hopeless: bool,
    reason: &[Decision],
    limits: Limits,
    looks: &mut u64,
    trials: &mut u64,
) -> Result<Vec<Tried>, AllocError>
    requires vertex { vertex < length order.now.game.vertices }
    requires reason { IsEffect (scene_of [] order.now.game order.now.diagram) limits vertex was_hopeless
        (choices reason.now) Effect.Nothing }
    ensures { IfOk result (λ tried. AreTried (scene_of [] order.now.game order.now.diagram) limits vertex was_hopeless
        order.now.decisions (length order.now.decisions) tried.items) }
{
    let decisions = order.decisions();
    let mut tried = Vec::new(alloc);
    'trying: for place in 0..decisions.len() {
        let effect = effect_without(
            alloc,
            order,
            place,
            vertex,
            was_hopeless,
            reason,
            limits,
            looks,
            trials,
        )?;
        tried.push(Tried {
            decision: decisions[place],
            effect,
        })?;
    }
    Ok(tried)
}

/// Whether Even wins no product that agrees with the decisions: none if they have those of the reason.
pub(crate) fn lost(
    alloc: Global,
    order: &Order,
    decisions: &[Decision],
    vertex: u32,
    reason: &[Decision],
    limits: Limits,
    looks: &mut u64,
    trials: &mut u64,
) -> Result<Shown, AllocError>
    requires named { AreChoicesOf order.now.diagram.lines (choices decisions.now) }
    requires vertex { vertex < length order.now.game.vertices }
    requires reason { IsLostBy (scene_of [] order.now.game order.now.diagram) vertex (choices reason.now) }
    ensures yes { IfOk result (λ shown. shown ≡ Shown.Yes →
        IsLostBy (scene_of [] order.now.game order.now.diagram) vertex (choices decisions.now)) }
    ensures no { IfOk result (λ shown. shown ≡ Shown.No →
        IsLostBy (scene_of [] order.now.game order.now.diagram) vertex (choices decisions.now) → ⊥) }
    ensures settled { IfOk result (λ shown.
        SearchEnds (scene_of [] order.now.game order.now.diagram) limits (Aim.Won Which.Hopeful vertex)
        (choices decisions.now) → shown ≢ Shown.Unsettled) }
{
    // Properties of every order, for the proof.
    let _order = order.game();
    if are_among(reason, decisions) {
        return Ok(Shown::Yes);
    }
    let which = Which::Hopeful;
    let aim = Aim::Won { which, vertex };
    let found = seek(alloc, order, aim, decisions, limits, looks, trials)?;
    match found {
        Found::Product(_) => Ok(Shown::No),
        Found::Nothing => Ok(Shown::Yes),
        Found::Unsettled => Ok(Shown::Unsettled),
    }
}

// The decisions and one more.
fn appended(
    alloc: Global,
    decisions: &[Decision],
    more: Decision,
) -> Result<Vec<Decision>, AllocError>
    ensures { IfOk result (λ all. all.items ≡ decisions.now ++ more ∷ []) }
{
    let mut all = Vec::with_capacity(alloc, decisions.len())?;
    all.extend_from_slice(decisions)?;
    all.push(more)?;
    Ok(all)
}

fn is_yes(shown: Shown) -> bool
    ensures { IsTrue result ↔ (shown ≡ Shown.Yes) }
{
    match shown {
        Shown::Yes => true,
        _ => false,
    }
}

/// Returns the decisions to retract together so that Even wins some product left, if the oldest are to stay. It goes
/// through them from the first, and keeps each with which Even still wins one.
pub(crate) fn give_up(
    alloc: Global,
    order: &Order,
    decisions: &[Decision],
    vertex: u32,
    reason: &[Decision],
    limits: Limits,
    looks: &mut u64,
    trials: &mut u64,
) -> Result<Given, AllocError>
    requires named { AreChoicesOf order.now.diagram.lines (choices decisions.now) }
    requires vertex { vertex < length order.now.game.vertices }
    requires winner { IsLostBy (scene_of [] order.now.game order.now.diagram) vertex [] → ⊥ }
    requires reason { IsLostBy (scene_of [] order.now.game order.now.diagram) vertex (choices reason.now) }
    ensures repair { IfOk result (λ found. IsRepair (IsLostBy (scene_of [] order.now.game order.now.diagram) vertex)
        decisions.now found.kept.items found.given.items found.sure) }
    ensures settled { IfOk result (λ found.
        EachSearchEnds (scene_of [] order.now.game order.now.diagram) limits (Aim.Won Which.Hopeful vertex)
        (choices decisions.now) → IsTrue found.sure) }
{
    let mut kept = Vec::new(alloc);
    let mut given = Vec::new(alloc);
    let mut sure = true;
    'deciding: for d in decisions {
        let more = appended(alloc, &kept, *d)?;
        let shown = lost(alloc, order, &more, vertex, reason, limits, looks, trials)?;
        if let Shown::No = shown {
            kept = more;
        } else {
            given.push(*d)?;
            sure = sure && is_yes(shown);
        }
    }
    Ok(Given { kept, given, sure })
}
