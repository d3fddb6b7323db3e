//! A search for any product that meets an aim, as unlike another product as possible.
ghost use Rattle.std.specs.Prelude.{◌≡◌, ◌≢◌, ◌≤◌, ◌+◌, count_by, false, length, slice_index_or, IfOk, IsTrue};
ghost use Rattle.vpg_partial.specs.TableLaws.{AreChoicesOf};
ghost use Rattle.vpg_why.specs.Explained.{choices};
ghost use Rattle.vpg_why.specs.Found.{IsSought};
ghost use Rattle.vpg_why.specs.Suffices.{IsAim, AimSettles, HasTrials, IsSettled, is_open, most_trials};

use crate::asking::closed;
use crate::question::{Aim, Limits, Question};
use crate::sampling::sample;
use crate::searching::{Example, Found, Reasoned, search_with_reasons};
use std::alloc::{AllocError, Global};
use vpg_guards::Tri;
use vpg_measure::Order;
use vpg_partial::{Decision, Partial};

/// A search for an unlike product by features alone has one in this many of the trials that are left.
const PART: u64 = 512;

/// In a large family, the rounds of lifts for one table take one in this many of the looks that are left.
const LARGE: u64 = 16;

/// A line that searches for decisions has one in this many of the looks of a line: it begins many tables.
const OF_DECISIONS: u64 = 8;

// Whether a product has a feature.
pub(crate) fn has(product: &[bool], feature: u16) -> bool
    ensures { result ≡ slice_index_or product.now feature false }
{
    match product.get(feature as usize) {
        Some(value) => *value,
        None => false,
    }
}

// A search among all products that agree with the decisions, for any that meets the aim, with these trials.
fn seek_within(
    alloc: Global,
    order: &Order,
    aim: Aim,
    decisions: &[Decision],
    avoided: &[bool],
    limits: Limits,
    looks: &mut u64,
    is_small: bool,
    trials: &mut u64,
) -> Result<Found, AllocError>
    requires named { AreChoicesOf order.now.diagram.lines (choices decisions.now) }
    requires aim { IsAim order.now.game aim }
    ensures found { IfOk result (IsSought order.now.game order.now.diagram aim (choices decisions.now)) }
    ensures left { IfOk result (λ found. trials.new ≤ trials.old) }
    ensures settled { IfOk result (λ found. IsTrue is_small →
        AimSettles limits.rounds order.now.game order.now.diagram aim (choices decisions.now) →
        HasTrials order.now.diagram.lines (choices decisions.now) trials.old → found ≢ Found.Unsettled) }
    ensures looks { IfOk result (λ found. looks.new ≤ looks.old) }
{
    let depth = order.diagram().features() as u32 + 1;
    let begun = decisions.len();
    match search_with_reasons(
        alloc, order, aim, decisions, avoided, begun, limits, looks, is_small, depth, trials,
    )? {
        Reasoned::Product(example) => Ok(Found::Product(example)),
        Reasoned::Nothing(_) => Ok(Found::Nothing),
        Reasoned::Unsettled => Ok(Found::Unsettled),
    }
}

// The number of vertices and edges of the order's game.
fn size_of(order: &Order) -> u64 {
    let game = order.game();
    let mut size = 0u64;
    for v in 0..game.vertices() as u32 {
        let edges = game.edges(v).len() as u64;
        size = size.saturating_add(edges).saturating_add(1);
    }
    size
}

/// Returns the limits of a search in a large family: where bounds do not settle a table, rounds of lifts take few steps
/// beside the looks that are left.
pub fn large_limits(order: &Order, limits: Limits, looks: u64) -> Limits
    ensures budget { result.budget ≡ limits.budget }
    ensures rounds { result.rounds ≤ limits.rounds }
    ensures trials { result.trials ≡ limits.trials }
{
    let rounds = looks / LARGE / (size_of(order).max(1));
    Limits {
        budget: limits.budget,
        rounds: limits.rounds.min(rounds),
        trials: limits.trials,
    }
}

/// Returns the looks of a line that searches for decisions, and not for a product alone.
pub fn looks_for_decisions(limits: Limits) -> u64
    ensures { result ≤ limits.budget }
{
    limits.budget / OF_DECISIONS
}

/// One of several searches of a line, among all products that agree with the decisions, for any that meets the aim.
///
/// A small family has the trials of the limits for each search. Otherwise the line has them for all of its searches,
/// and each takes half at most of those that are left. It ends where the looks do.
pub(crate) fn seek_in_line(
    alloc: Global,
    order: &Order,
    aim: Aim,
    decisions: &[Decision],
    avoided: &[bool],
    limits: Limits,
    looks: &mut u64,
    is_small: bool,
    trials: &mut u64,
) -> Result<Found, AllocError>
    requires named { AreChoicesOf order.now.diagram.lines (choices decisions.now) }
    requires aim { IsAim order.now.game aim }
    ensures found { IfOk result (IsSought order.now.game order.now.diagram aim (choices decisions.now)) }
    ensures left { IfOk result (λ found. trials.new ≤ trials.old) }
    ensures settled { IfOk result (λ found. IsTrue is_small →
        IsSettled order.now.game order.now.diagram limits (Question.Lost aim) (choices decisions.now) →
        found ≢ Found.Unsettled) }
    ensures looks { IfOk result (λ found. looks.new ≤ looks.old) }
{
    if is_small {
        let mut own = limits.trials;
        return seek_within(
            alloc, order, aim, decisions, avoided, limits, looks, true, &mut own,
        );
    }
    let mut own = *trials / 2;
    *trials -= own;
    let large = large_limits(order, limits, *looks);
    let found = seek_within(
        alloc, order, aim, decisions, avoided, large, looks, false, &mut own,
    )?;
    *trials += own;
    Ok(found)
}

/// Whether the trials of the limits suffice for each case of the features that the decisions leave open.
pub fn is_small(
    alloc: Global,
    order: &Order,
    decisions: &[Decision],
    limits: Limits,
) -> Result<bool, AllocError>
    requires { AreChoicesOf order.now.diagram.lines (choices decisions.now) }
    ensures { IfOk result (λ small. HasTrials order.now.diagram.lines (choices decisions.now) limits.trials →
        IsTrue small) }
{
    // Properties of every order, for the proof.
    let _order = order.game();
    let features = order.diagram().features() as u16;
    match closed(alloc, order, decisions)? {
        Some(known) => Ok(has_trials(&known, features, limits.trials)),
        None => Ok(true),
    }
}

/// Searches for any product that agrees with the decisions and meets the aim, as one of several searches of a line. It
/// takes looks from those of the line, and half at most of its trials. Where the trials of the limits suffice for each
/// case of the open features, it has these. Before it searches, it tries two products by themselves: one with each
/// feature that it can have, and one without each that it can lack. The only error is a lack of memory.
pub fn seek(
    alloc: Global,
    order: &Order,
    aim: Aim,
    decisions: &[Decision],
    limits: Limits,
    looks: &mut u64,
    trials: &mut u64,
) -> Result<Found, AllocError>
    requires named { AreChoicesOf order.now.diagram.lines (choices decisions.now) }
    requires aim { IsAim order.now.game aim }
    ensures found { IfOk result (IsSought order.now.game order.now.diagram aim (choices decisions.now)) }
    ensures settled { IfOk result (λ found.
        IsSettled order.now.game order.now.diagram limits (Question.Lost aim) (choices decisions.now) →
        found ≢ Found.Unsettled) }
    // No looks and no trials are added.
    ensures looks { IfOk result (λ found. looks.new ≤ looks.old) }
    ensures left { IfOk result (λ found. trials.new ≤ trials.old) }
{
    if let Some(features) = sample(alloc, order, aim, decisions, &[], limits, looks, trials)? {
        return Ok(Found::Product(Example {
            features,
            first: false,
        }));
    }
    let is_small = is_small(alloc, order, decisions, limits)?;
    let found = seek_in_line(
        alloc,
        order,
        aim,
        decisions,
        &[],
        limits,
        looks,
        is_small,
        trials,
    )?;
    Ok(found)
}

// Turns each value of a product.
fn turned(alloc: Global, product: &[bool]) -> Result<Vec<bool>, AllocError> {
    product.iter().map(|value| !*value).collect(alloc)
}

/// One of several searches of a line, as that of `seek_in_line`, for a product as unlike this one as possible: it
/// answers many later questions. Where features alone decide, it takes a small part of the trials that are left. If it
/// meets a limit there, a product is sought that is like this one where it can be.
pub(crate) fn seek_beyond(
    alloc: Global,
    order: &Order,
    aim: Aim,
    decisions: &[Decision],
    product: &[bool],
    limits: Limits,
    looks: &mut u64,
    is_small: bool,
    trials: &mut u64,
) -> Result<Found, AllocError>
    requires named { AreChoicesOf order.now.diagram.lines (choices decisions.now) }
    requires aim { IsAim order.now.game aim }
    ensures found { IfOk result (IsSought order.now.game order.now.diagram aim (choices decisions.now)) }
    ensures left { IfOk result (λ found. trials.new ≤ trials.old) }
    ensures settled { IfOk result (λ found. IsTrue is_small →
        IsSettled order.now.game order.now.diagram limits (Question.Lost aim) (choices decisions.now) →
        found ≢ Found.Unsettled) }
    ensures looks { IfOk result (λ found. looks.new ≤ looks.old) }
{
    let Aim::Any = aim else {
        return seek_in_line(
            alloc, order, aim, decisions, product, limits, looks, is_small, trials,
        );
    };
    let mut few = *trials / PART;
    *trials -= few;
    let unlike = seek_in_line(
        alloc, order, aim, decisions, product, limits, looks, is_small, &mut few,
    )?;
    *trials += few;
    match unlike {
        Found::Unsettled => {}
        found => return Ok(found),
    }
    let avoided = turned(alloc, product)?;
    seek_in_line(
        alloc, order, aim, decisions, &avoided, limits, looks, is_small, trials,
    )
}

/// Whether these trials suffice for each case of the features that are not known.
pub(crate) fn has_trials(known: &Partial, features: u16, trials: u64) -> bool
    requires { length known.now ≡ features }
    ensures { most_trials (count_by is_open known.now + 1) ≤ trials → IsTrue result }
{
    if trials == 0 {
        return false;
    }
    let mut cases = 1;
    for f in 0..features {
        let tri = known.value(f);
        if let Tri::Unknown = tri {
            if trials - cases <= cases {
                return false;
            }
            cases = cases + cases + 1;
        }
    }
    true
}
