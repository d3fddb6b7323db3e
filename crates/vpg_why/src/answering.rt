//! Answering a question of decisions.
ghost use Rattle.std.specs.Prelude.{◌≡◌, ◌≢◌, ◌≤◌, IfOk, IsTrue};
ghost use Rattle.vpg_partial.specs.TableLaws.{AreChoicesOf};
ghost use Rattle.vpg_why.specs.Explained.{choices};
ghost use Rattle.vpg_why.specs.Suffices.{Suffice, IsAim, IsAskable, IsSettled};

use crate::asking::{conflict_shown, known_shown, verdict_shown};
use crate::question::{Aim, Limits, Question, Shown};
use crate::searching::Found;
use crate::seeking::seek_in_line;
use std::alloc::{AllocError, Global};
use vpg_measure::Order;
use vpg_partial::Decision;

// Whether no product that agrees with the decisions meets the aim.
fn lost_shown(
    alloc: Global,
    order: &Order,
    aim: Aim,
    decisions: &[Decision],
    limits: Limits,
    looks: &mut u64,
    is_small: bool,
    trials: &mut u64,
) -> Result<Shown, AllocError>
    requires named { AreChoicesOf order.now.diagram.lines (choices decisions.now) }
    requires aim { IsAim order.now.game aim }
    ensures yes { IfOk result (λ shown. shown ≡ Shown.Yes → Suffice order.now.game order.now.diagram (Question.Lost aim) (choices decisions.now)) }
    ensures no { IfOk result (λ shown. shown ≡ Shown.No → Suffice order.now.game order.now.diagram (Question.Lost aim) (choices decisions.now) → ⊥) }
    ensures settled { IfOk result (λ shown. IsTrue is_small →
        IsSettled order.now.game order.now.diagram limits (Question.Lost aim) (choices decisions.now) →
        shown ≢ Shown.Unsettled) }
    ensures looks { IfOk result (λ shown. looks.new ≤ looks.old) }
    ensures left { IfOk result (λ shown. trials.new ≤ trials.old) }
{
    let found = seek_in_line(
        alloc,
        order,
        aim,
        decisions,
        &[],
        limits,
        looks,
        is_small,
        trials,
    )?;
    match found {
        Found::Product(_) => Ok(Shown::No),
        Found::Nothing => Ok(Shown::Yes),
        Found::Unsettled => Ok(Shown::Unsettled),
    }
}

/// Whether the decisions alone make it so, as one of several questions of a line. Looks for certified bounds are taken
/// from those of the line; so are trials, half at most of those that are left, unless a small family has the trials of
/// the limits for each question. `Unsettled` is returned if a limit was met: never for features, nor if a small family's
/// limits leave room for an answer.
pub(crate) fn suffice_within(
    alloc: Global,
    order: &Order,
    question: Question,
    decisions: &[Decision],
    limits: Limits,
    looks: &mut u64,
    is_small: bool,
    trials: &mut u64,
) -> Result<Shown, AllocError>
    requires named { AreChoicesOf order.now.diagram.lines (choices decisions.now) }
    requires askable { IsAskable order.now.game order.now.diagram question }
    ensures yes { IfOk result (λ shown. shown ≡ Shown.Yes → Suffice order.now.game order.now.diagram question (choices decisions.now)) }
    ensures no { IfOk result (λ shown. shown ≡ Shown.No → Suffice order.now.game order.now.diagram question (choices decisions.now) → ⊥) }
    ensures settled { IfOk result (λ shown. IsTrue is_small →
        IsSettled order.now.game order.now.diagram limits question (choices decisions.now) →
        shown ≢ Shown.Unsettled) }
    ensures looks { IfOk result (λ shown. looks.new ≤ looks.old) }
    ensures left { IfOk result (λ shown. trials.new ≤ trials.old) }
{
    match question {
        Question::Verdict { which, vertex } => {
            verdict_shown(alloc, order, which, vertex, decisions, limits, looks)
        }
        Question::Lost { aim } => lost_shown(
            alloc, order, aim, decisions, limits, looks, is_small, trials,
        ),
        Question::Known { feature, value } => {
            known_shown(alloc, order, feature, value, decisions)
        }
        Question::Conflict { feature, value } => {
            conflict_shown(alloc, order, feature, value, decisions)
        }
    }
}
