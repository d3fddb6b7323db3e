//! Why a verdict, a loss, a known feature or a conflict is so.
ghost use Rattle.std.specs.Prelude.{◌≡◌, ◌≢◌, ◌↔◌, ◌<◌, ◌≤◌, List, [], length, slice_index, IfOk, IfSome, IsSome, IsTrue};
ghost use Rattle.vpg_game.specs.Game.{graph_of};
ghost use Rattle.vpg_measure.specs.Orders.{order_table};
ghost use Rattle.vpg_measure.specs.TwoGames.{top_for};
ghost use Rattle.vpg_why.specs.Explained.{choices, Explains};
ghost use Rattle.vpg_why.specs.Products.{NoneMeets};
ghost use Rattle.vpg_why.specs.Found.{IsWhyLost, IsWhyLostExact, IsWhyLostShown};
ghost use Rattle.vpg_diagram.specs.FeatureDiagram.{feature_count};
ghost use Rattle.vpg_diagram.specs.declared.clause.Literal.{Literal};
ghost use Rattle.vpg_why.specs.Suffices.{Suffice, EachIsSettled, IsAim, IsAskable, IsSettled};

use crate::answering::suffice_within;
use crate::explaining::{Explanation, explain_by};
use crate::question::{Aim, Limits, Question, Shown};
use crate::searching::{Example, Found, find_within};
use crate::seeking::{is_small, looks_for_decisions};
use crate::under::order_under;
use std::alloc::{AllocError, Global};
use vpg_measure::Order;
use vpg_partial::Decision;
use vpg_sides::Which;

// Whether the page's table has the vertex hopeless, for the hopeful table, or sure, for the dual one.
fn has_verdict(order: &Order, which: Which, vertex: u32) -> bool
    requires { vertex < length order.now.game.vertices }
    ensures { IsTrue result ↔
        (slice_index (order_table which order.now) vertex ≡ top_for which (graph_of order.now.game)) }
{
    order.table(which).get(vertex) == order.shape(which).top()
}

// The decisions of the page that make the verdict of its table so. Trials begin with the tables of the base, an order
// of the same game and diagram.
fn why_over(
    alloc: Global,
    order: &Order,
    base: &Order,
    which: Which,
    vertex: u32,
    limits: Limits,
    looks: &mut u64,
) -> Result<Explanation, AllocError>
    requires vertex { vertex < length order.now.game.vertices }
    requires told { slice_index (order_table which order.now) vertex ≡ top_for which (graph_of order.now.game) }
    requires game { base.now.game ≡ order.now.game }
    requires diagram { base.now.diagram ≡ order.now.diagram }
    ensures explains { IfOk result (λ e. Explains (Suffice order.now.game order.now.diagram
        (Question.Verdict which vertex)) order.now.decisions e.decisions.items e.exact) }
    ensures lost { IfOk result (λ e.
        NoneMeets order.now.game order.now.diagram (Aim.Won which vertex) (choices e.decisions.items)) }
    ensures settled { IfOk result (λ e.
        EachIsSettled order.now.game order.now.diagram limits (Question.Verdict which vertex)
        (choices order.now.decisions) → IsTrue e.exact) }
    ensures looks { IfOk result (λ e. looks.new ≤ looks.old) }
{
    let question = Question::Verdict { which, vertex };
    let mut trials = limits.trials;
    let found = explain_by(
        alloc,
        base,
        question,
        order.decisions(),
        &[],
        limits,
        looks,
        true,
        &mut trials,
    )?;
    Ok(found)
}

/// Returns the decisions of the page that make the vertex hopeless, by the hopeful table, or sure, by the dual one, with
/// the looks that a line has left. Returns nothing if the page's table does not have it so.
pub fn why_within(
    alloc: Global,
    order: &Order,
    which: Which,
    vertex: u32,
    limits: Limits,
    looks: &mut u64,
) -> Result<Option<Explanation>, AllocError>
    requires { vertex < length order.now.game.vertices }
    ensures told { IfOk result (λ found. IsSome found ↔ (slice_index (order_table which order.now) vertex ≡ top_for which (graph_of order.now.game))) }
    ensures explains { IfOk result (λ found. IfSome found (λ e.
        Explains (Suffice order.now.game order.now.diagram (Question.Verdict which vertex)) order.now.decisions e.decisions.items e.exact)) }
    // These decisions alone leave the loser of the verdict no winning strategy in any product that agrees with them.
    ensures lost { IfOk result (λ found. IfSome found (λ e. NoneMeets order.now.game order.now.diagram (Aim.Won which vertex) (choices e.decisions.items))) }
    ensures settled { IfOk result (λ found. IfSome found (λ e.
        EachIsSettled order.now.game order.now.diagram limits (Question.Verdict which vertex)
        (choices order.now.decisions) → IsTrue e.exact)) }
    ensures looks { IfOk result (λ found. looks.new ≤ looks.old) }
{
    if !has_verdict(order, which, vertex) {
        return Ok(None);
    }
    let base = order_under(alloc, order, &[], &[which], looks)?;
    let found = why_over(alloc, order, &base, which, vertex, limits, looks)?;
    Ok(Some(found))
}

/// Why no product meets an aim: the decisions that make it so, or a product that does.
#[derive(Drop)]
pub enum WhyLost {
    /// No product that agrees with these decisions alone meets the aim.
    Because(Explanation),
    /// A product that is left and meets it.
    Unless(Example),
    /// A limit was met before either was shown.
    Unsettled,
}

// Decisions to be tried first: those that make the page's verdict so, if it bars the aim. Trials begin with the tables
// of the base, an order of the same game and diagram.
fn hint_for(
    alloc: Global,
    order: &Order,
    base: &Order,
    aim: Aim,
    limits: Limits,
    looks: &mut u64,
) -> Result<Vec<Decision>, AllocError>
    requires aim { IsAim order.now.game aim }
    requires game { base.now.game ≡ order.now.game }
    requires diagram { base.now.diagram ≡ order.now.diagram }
    ensures suffices { IfOk result (λ hint. hint.items ≢ [] →
        Suffice order.now.game order.now.diagram (Question.Lost aim) (choices hint.items)) }
    ensures looks { IfOk result (λ hint. looks.new ≤ looks.old) }
{
    let Aim::Won { which, vertex } = aim else {
        return Ok(Vec::new(alloc));
    };
    if !has_verdict(order, which, vertex) {
        return Ok(Vec::new(alloc));
    }
    let found = why_over(alloc, order, base, which, vertex, limits, looks)?;
    Ok(found.decisions)
}

// The decisions that leave no product that meets the aim, with the looks and the trials that the line has left.
fn because(
    alloc: Global,
    order: &Order,
    aim: Aim,
    limits: Limits,
    looks: &mut u64,
    trials: &mut u64,
) -> Result<Explanation, AllocError>
    requires aim { IsAim order.now.game aim }
    requires lost { NoneMeets order.now.game order.now.diagram aim (choices order.now.decisions) }
    ensures explains { IfOk result (λ found. Explains (Suffice order.now.game order.now.diagram (Question.Lost aim))
        order.now.decisions found.decisions.items found.exact) }
    ensures settled { IfOk result (λ found.
        EachIsSettled order.now.game order.now.diagram limits (Question.Lost aim) (choices order.now.decisions) →
        IsTrue found.exact) }
    ensures looks { IfOk result (λ found. looks.new ≤ looks.old) }
    ensures left { IfOk result (λ found. trials.new ≤ trials.old) }
{
    let base = order_under(alloc, order, &[], &[Which::Hopeful, Which::Dual], looks)?;
    let hint = hint_for(alloc, order, &base, aim, limits, looks)?;
    let is_small = is_small(alloc, order, &[], limits)?;
    let question = Question::Lost { aim };
    let found = explain_by(
        alloc,
        &base,
        question,
        order.decisions(),
        &hint,
        limits,
        looks,
        is_small,
        trials,
    )?;
    Ok(found)
}

/// Returns the decisions of the page that leave no product that meets the aim, whatever the cautious verdict of the
/// page is. In such a product Even wins from the vertex, for the hopeful table, or Odd, for the dual one. With
/// `Aim::Any` they are the decisions that leave no product at all.
pub fn why_lost(
    alloc: Global,
    order: &Order,
    aim: Aim,
    limits: Limits,
) -> Result<WhyLost, AllocError>
    requires { IsAim order.now.game aim }
    ensures why { IfOk result (IsWhyLost order.now.game order.now.diagram aim order.now.decisions) }
    ensures settled { IfOk result (λ found.
        IsSettled order.now.game order.now.diagram limits (Question.Lost aim) (choices order.now.decisions) →
        IsWhyLostShown found) }
    ensures exact { IfOk result (λ found.
        EachIsSettled order.now.game order.now.diagram limits (Question.Lost aim) (choices order.now.decisions) →
        IsWhyLostExact found) }
{
    let mut looks = limits.budget;
    let mut trials = limits.trials;
    match find_within(alloc, order, aim, limits, &mut looks, &mut trials)? {
        Found::Product(example) => return Ok(WhyLost::Unless(example)),
        Found::Unsettled => return Ok(WhyLost::Unsettled),
        Found::Nothing => {}
    }
    looks = looks.min(looks_for_decisions(limits));
    let found = because(alloc, order, aim, limits, &mut looks, &mut trials)?;
    Ok(WhyLost::Because(found))
}

/// Returns the decisions of the page that leave no product that meets the aim, where none does. The only error is a
/// lack of memory.
pub fn losing_decisions(
    alloc: Global,
    order: &Order,
    aim: Aim,
    limits: Limits,
) -> Result<Explanation, AllocError>
    requires aim { IsAim order.now.game aim }
    requires lost { NoneMeets order.now.game order.now.diagram aim (choices order.now.decisions) }
    ensures explains { IfOk result (λ found. Explains (Suffice order.now.game order.now.diagram (Question.Lost aim))
        order.now.decisions found.decisions.items found.exact) }
    ensures settled { IfOk result (λ found.
        EachIsSettled order.now.game order.now.diagram limits (Question.Lost aim) (choices order.now.decisions) →
        IsTrue found.exact) }
{
    let mut looks = looks_for_decisions(limits);
    let mut trials = limits.trials;
    let found = because(alloc, order, aim, limits, &mut looks, &mut trials)?;
    Ok(found)
}

// An explanation, if the page's decisions make it so: for questions that are always answered.
fn why_so(
    alloc: Global,
    order: &Order,
    question: Question,
) -> Result<Option<Explanation>, AllocError>
    requires askable { IsAskable order.now.game order.now.diagram question }
    requires settled { (limits : Limits) (own : List Literal) →
        IsSettled order.now.game order.now.diagram limits question own }
    ensures told { IfOk result (λ found. IsSome found ↔ Suffice order.now.game order.now.diagram question (choices order.now.decisions)) }
    ensures explains { IfOk result (λ found. IfSome found (λ e. Explains (Suffice order.now.game order.now.diagram question) order.now.decisions e.decisions.items e.exact)) }
    ensures exact { IfOk result (λ found. IfSome found (λ e. IsTrue e.exact)) }
{
    let limits = Limits {
        budget: 0,
        rounds: 0,
        trials: 0,
    };
    let (mut looks, mut trials) = (0, 0);
    let shown = suffice_within(
        alloc,
        order,
        question,
        order.decisions(),
        limits,
        &mut looks,
        true,
        &mut trials,
    )?;
    match shown {
        Shown::Yes => {}
        _ => return Ok(None),
    }
    let found = explain_by(
        alloc,
        order,
        question,
        order.decisions(),
        &[],
        limits,
        &mut looks,
        true,
        &mut trials,
    )?;
    Ok(Some(found))
}

/// Returns the decisions of the page that make the feature known to be in, or out; nothing if they do not. The
/// explanation is exact.
pub fn why_known(
    alloc: Global,
    order: &Order,
    feature: u16,
    value: bool,
) -> Result<Option<Explanation>, AllocError>
    requires { feature < feature_count order.now.diagram.lines }
    ensures told { IfOk result (λ found. IsSome found ↔ Suffice order.now.game order.now.diagram (Question.Known feature value) (choices order.now.decisions)) }
    ensures explains { IfOk result (λ found. IfSome found (λ e.
        Explains (Suffice order.now.game order.now.diagram (Question.Known feature value)) order.now.decisions e.decisions.items e.exact)) }
    ensures exact { IfOk result (λ found. IfSome found (λ e. IsTrue e.exact)) }
{
    let found = why_so(alloc, order, Question::Known { feature, value })?;
    Ok(found)
}

/// Returns the decisions of the page that contradict one more, that the feature is in, or out; nothing if they do not.
/// The explanation is exact.
pub fn why_conflict(
    alloc: Global,
    order: &Order,
    feature: u16,
    value: bool,
) -> Result<Option<Explanation>, AllocError>
    requires { feature < feature_count order.now.diagram.lines }
    ensures told { IfOk result (λ found. IsSome found ↔ Suffice order.now.game order.now.diagram (Question.Conflict feature value) (choices order.now.decisions)) }
    ensures explains { IfOk result (λ found. IfSome found (λ e.
        Explains (Suffice order.now.game order.now.diagram (Question.Conflict feature value)) order.now.decisions e.decisions.items e.exact)) }
    ensures exact { IfOk result (λ found. IfSome found (λ e. IsTrue e.exact)) }
{
    let found = why_so(alloc, order, Question::Conflict { feature, value })?;
    Ok(found)
}
