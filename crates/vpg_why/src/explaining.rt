//! Explanations: some of a page's decisions that suffice, none of which can be left out.
ghost use Rattle.std.specs.Prelude.{◌≡◌, ◌≢◌, ◌<◌, ◌≤◌, [], length, IfOk, IfSome, IsNone, IsTrue};
ghost use Rattle.vpg_partial.specs.TableLaws.{AreChoicesOf};
ghost use Rattle.vpg_why.specs.Explained.{choices, front_with, IsLast, OfFronts, Explains};
ghost use Rattle.vpg_why.specs.Suffices.{Suffice, EachIsSettled, IsAskable, IsSettled};

use crate::answering::suffice_within;
use crate::question::{Limits, Question, Shown};
use crate::sampling::is_refuted;
use crate::under::{are_among, has_choice};
use std::alloc::{AllocError, Global};
use vpg_measure::Order;
use vpg_partial::Decision;

/// Some decisions that suffice, in the page's order.
#[derive(Drop)]
pub struct Explanation {
    pub decisions: Vec<Decision>,
    /// Whether it was shown that none of them can be left out.
    pub exact: bool,
}

// The first decisions, and others after them.
fn joined(
    alloc: Global,
    decisions: &[Decision],
    most: usize,
    kept: &[Decision],
) -> Result<Vec<Decision>, AllocError>
    requires { most ≤ length decisions.now }
    ensures { IfOk result (λ joined. joined.items ≡ front_with most decisions.now kept.now) }
{
    let mut joined = Vec::from_slice(alloc, &decisions[..most])?;
    joined.extend_from_slice(kept)?;
    Ok(joined)
}

// Whether the first decisions and others after them suffice. They do if they have those of the hint.
fn front_suffices(
    alloc: Global,
    order: &Order,
    question: Question,
    decisions: &[Decision],
    most: usize,
    kept: &[Decision],
    hint: &[Decision],
    limits: Limits,
    looks: &mut u64,
    is_small: bool,
    trials: &mut u64,
) -> Result<Shown, AllocError>
    requires named { AreChoicesOf order.now.diagram.lines (choices decisions.now) }
    requires kept_named { AreChoicesOf order.now.diagram.lines (choices kept.now) }
    requires askable { IsAskable order.now.game order.now.diagram question }
    requires hint { hint.now ≢ [] → Suffice order.now.game order.now.diagram question (choices hint.now) }
    requires within { most ≤ length decisions.now }
    ensures yes { IfOk result (λ shown. shown ≡ Shown.Yes → Suffice order.now.game order.now.diagram question (choices (front_with most decisions.now kept.now))) }
    ensures no { IfOk result (λ shown. shown ≡ Shown.No → Suffice order.now.game order.now.diagram question (choices (front_with most decisions.now kept.now)) → ⊥) }
    ensures settled { IfOk result (λ shown. IsTrue is_small →
        IsSettled order.now.game order.now.diagram limits question (choices (front_with most decisions.now kept.now)) →
        shown ≢ Shown.Unsettled) }
    ensures looks { IfOk result (λ shown. looks.new ≤ looks.old) }
    ensures left { IfOk result (λ shown. trials.new ≤ trials.old) }
{
    // Properties of every order, for the proof.
    let _order = order.game();
    let joined = joined(alloc, decisions, most, kept)?;
    if !hint.is_empty() && are_among(hint, &joined) {
        return Ok(Shown::Yes);
    }
    if !is_small && *looks == 0 {
        return Ok(Shown::Unsettled);
    }
    if is_refuted(
        alloc, order, question, &joined, decisions, limits, looks, trials,
    )? {
        return Ok(Shown::No);
    }
    let shown = suffice_within(
        alloc, order, question, &joined, limits, looks, is_small, trials,
    )?;
    Ok(shown)
}

// The last decision that is needed, and whether it was shown that those before it do not suffice.
#[derive(Clone, Copy)]
struct Last {
    place: usize,
    exact: bool,
}

// How many first decisions to try next, if from `low` to below `high` are left: with the last of them that is in the
// hint, or without it; else none, or the middle.
fn next_front(decisions: &[Decision], hint: &[Decision], low: usize, high: usize) -> usize
    requires apart { low < high }
    requires within { high ≤ length decisions.now }
    ensures above { low ≤ result }
    ensures below { result < high }
{
    for back in 0..high - low {
        let place = high - 1 - back;
        if has_choice(hint, &decisions[place]) {
            if place + 1 < high {
                return place + 1;
            }
            return place;
        }
    }
    if low == 0 {
        return 0;
    }
    low + (high - low) / 2
}

// The last of the first decisions that is needed beside the kept ones, if one is. It looks for the least number of
// first decisions that suffice with them.
fn last_needed(
    alloc: Global,
    order: &Order,
    question: Question,
    decisions: &[Decision],
    most: usize,
    kept: &[Decision],
    hint: &[Decision],
    limits: Limits,
    looks: &mut u64,
    is_small: bool,
    trials: &mut u64,
) -> Result<Option<Last>, AllocError>
    requires named { AreChoicesOf order.now.diagram.lines (choices decisions.now) }
    requires kept_named { AreChoicesOf order.now.diagram.lines (choices kept.now) }
    requires askable { IsAskable order.now.game order.now.diagram question }
    requires hint { hint.now ≢ [] → Suffice order.now.game order.now.diagram question (choices hint.now) }
    requires within { most ≤ length decisions.now }
    requires enough { Suffice order.now.game order.now.diagram question (choices (front_with most decisions.now kept.now)) }
    ensures none { IfOk result (λ found. IsNone found → Suffice order.now.game order.now.diagram question (choices (front_with 0 decisions.now kept.now))) }
    ensures some { IfOk result (λ found. IfSome found (λ last. IsLast (Suffice order.now.game order.now.diagram question) decisions.now kept.now most last.place last.exact)) }
    ensures settled { IfOk result (λ found. IfSome found (λ last. IsTrue is_small →
        OfFronts (IsSettled order.now.game order.now.diagram limits question) decisions.now kept.now → IsTrue last.exact)) }
    ensures looks { IfOk result (λ found. looks.new ≤ looks.old) }
    ensures left { IfOk result (λ found. trials.new ≤ trials.old) }
{
    let mut low = 0;
    let mut high = most;
    let mut exact = true;
    'halving: while low < high {
        let front = next_front(decisions, hint, low, high);
        let shown = front_suffices(
            alloc, order, question, decisions, front, kept, hint, limits, looks, is_small, trials,
        )?;
        match shown {
            Shown::Yes => high = front,
            Shown::No => {
                low = front + 1;
                exact = true;
            }
            Shown::Unsettled => {
                low = front + 1;
                exact = false;
            }
        }
    }
    if high == 0 {
        return Ok(None);
    }
    let place = high - 1;
    Ok(Some(Last { place, exact }))
}

/// Returns some of the decisions, which suffice, that suffice alone. None of them can be left out, if the answer says
/// so: then no list of them that lacks one suffices.
///
/// It is the explanation with the earliest last decision on the page, and before that the earliest next to last, and so
/// on. This holds as far as no trial met a limit. It takes about the logarithm of the page's decisions in trials for
/// each decision that it lists. A hint suffices, unless it is empty. It is tried first whether its last decisions are
/// the last that are needed. Looks are taken from those of a line, and so are its trials, unless a small family has
/// those of the limits for each question. The only error is a lack of memory.
pub(crate) fn explain_by(
    alloc: Global,
    order: &Order,
    question: Question,
    decisions: &[Decision],
    hint: &[Decision],
    limits: Limits,
    looks: &mut u64,
    is_small: bool,
    trials: &mut u64,
) -> Result<Explanation, AllocError>
    requires named { AreChoicesOf order.now.diagram.lines (choices decisions.now) }
    requires askable { IsAskable order.now.game order.now.diagram question }
    requires hint { hint.now ≢ [] → Suffice order.now.game order.now.diagram question (choices hint.now) }
    requires enough { Suffice order.now.game order.now.diagram question (choices decisions.now) }
    ensures explains { IfOk result (λ found. Explains (Suffice order.now.game order.now.diagram question) decisions.now found.decisions.items found.exact) }
    ensures settled { IfOk result (λ found. IsTrue is_small →
        EachIsSettled order.now.game order.now.diagram limits question (choices decisions.now) → IsTrue found.exact) }
    ensures looks { IfOk result (λ found. looks.new ≤ looks.old) }
    ensures left { IfOk result (λ found. trials.new ≤ trials.old) }
{
    // Properties of every order, for the proof.
    let _order = order.game();
    let mut kept = Vec::new(alloc);
    let mut exact = true;
    let mut most = decisions.len();
    'listing: while most > 0 {
        let found = last_needed(
            alloc, order, question, decisions, most, &kept, hint, limits, looks, is_small, trials,
        )?;
        match found {
            Some(last) => {
                kept.insert(0, decisions[last.place])?;
                most = last.place;
                exact = exact && last.exact;
            }
            None => most = 0,
        }
    }
    Ok(Explanation {
        decisions: kept,
        exact,
    })
}
