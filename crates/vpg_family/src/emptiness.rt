//! Whether a diagram has a product, and the warning if it has none.
ghost use Rattle.std.specs.Prelude.{◌≡◌, ◌↔◌, IfOk, IsTrue, Some, true};
ghost use Rattle.vpg_family.specs.Emptiness.{IsSettled, IsWarned, TellsProduct, any_of, warning_of};

use crate::products::{Closed, closure_of, decision, have_conflict};
use crate::warnings::Sort;
use std::alloc::{AllocError, Global};
use vpg_diagram::Diagram;
use vpg_guards::Tri;
use vpg_number::{Count, Natural, number};
use vpg_partial::Decision;

/// The number of cases that are looked at, at most.
const LOOKS: u64 = 10_000;

/// Returns the value of a feature under decisions.
fn value_under(
    alloc: Global,
    diagram: &Diagram,
    decisions: &[Decision],
    feature: u16,
) -> Result<Tri, AllocError> {
    match closure_of(alloc, diagram, decisions)? {
        Closed::Known(known) => Ok(
            *known
                .values()
                .get(feature as usize)
                .unwrap_or(&Tri::Unknown),
        ),
        Closed::Conflict => Ok(Tri::Unknown),
    }
}

/// Decides a feature, out if that is no contradiction. Returns whether one of the values is none.
fn decide(
    alloc: Global,
    diagram: &Diagram,
    decisions: &mut Vec<Decision>,
    feature: u16,
) -> Result<bool, AllocError> {
    for value in [false, true] {
        decisions.push(decision(feature, value))?;
        if !have_conflict(alloc, diagram, decisions)? {
            return Ok(true);
        }
        decisions.pop();
    }
    Ok(false)
}

/// Returns decisions that leave out each open feature if that is no contradiction, and else take it. They end before a
/// feature with which both are contradictions.
fn first_decisions(alloc: Global, diagram: &Diagram) -> Result<Vec<Decision>, AllocError> {
    let mut decisions = Vec::new(alloc);
    let features = diagram.names().len() as u16;
    for feature in 0..features {
        let value = value_under(alloc, diagram, &decisions, feature)?;
        if value == Tri::Unknown && !decide(alloc, diagram, &mut decisions, feature)? {
            return Ok(decisions);
        }
    }
    Ok(decisions)
}

/// Returns for each feature whether decisions make it known in, or nothing if they contradict each other.
fn set_under(
    alloc: Global,
    diagram: &Diagram,
    decisions: &[Decision],
) -> Result<Vec<bool>, AllocError> {
    let mut set = Vec::new(alloc);
    if let Closed::Known(known) = closure_of(alloc, diagram, decisions)? {
        for value in known.values() {
            set.push(*value == Tri::Yes)?;
        }
    }
    Ok(set)
}

/// Returns whether a set of features is a product.
fn is_product(diagram: &Diagram, set: &[bool]) -> bool
    ensures { IsTrue result → TellsProduct diagram.now.lines (Some true) }
{
    if set.len() != diagram.features() {
        return false;
    }
    diagram.is_product(set)
}

/// Returns whether propagation finds a product.
fn finds_product(alloc: Global, diagram: &Diagram) -> Result<bool, AllocError>
    ensures { IfOk result (λ found. IsTrue found → TellsProduct diagram.now.lines (Some true)) }
{
    let decisions = first_decisions(alloc, diagram)?;
    let set = set_under(alloc, diagram, &decisions)?;
    Ok(is_product(diagram, &set))
}

/// Returns whether a number is 0.
fn is_zero(alloc: Global, number: &Natural) -> Result<bool, AllocError>
    ensures { IfOk result (λ is_zero. IsTrue is_zero ↔ (number.now ≡ 0)) }
{
    let text = number.text(alloc)?;
    Ok(text.as_slice() == b"0".as_slice())
}

/// Returns whether a count is of any products, or `None` if it does not show that.
fn any_of(alloc: Global, count: &Count) -> Result<Option<bool>, AllocError>
    ensures { IfOk result (λ any. any ≡ any_of count.now) }
{
    match count {
        Count::Exactly(number) => {
            let is_zero = is_zero(alloc, number)?;
            Ok(Some(!is_zero))
        }
        Count::AtLeast(few) => {
            let is_zero = is_zero(alloc, few)?;
            if is_zero { Ok(None) } else { Ok(Some(true)) }
        }
    }
}

/// Returns whether a diagram has a product, or `None` if 10,000 cases do not show it.
fn has_counted(alloc: Global, diagram: &Diagram) -> Result<Option<bool>, AllocError>
    ensures exact { IfOk result (TellsProduct diagram.now.lines) }
    ensures settled { IfOk result (IsSettled diagram.now.lines) }
{
    let count = number(alloc, diagram, &[], LOOKS)?;
    let any = any_of(alloc, &count)?;
    Ok(any)
}

/// Returns whether a diagram has a product; `None` if propagation finds none and 10,000 cases do not show it. They do
/// if propagation leaves 12 features unknown or fewer, and mostly if it leaves many more.
fn has_product(alloc: Global, diagram: &Diagram) -> Result<Option<bool>, AllocError>
    ensures exact { IfOk result (TellsProduct diagram.now.lines) }
    ensures settled { IfOk result (IsSettled diagram.now.lines) }
{
    let is_found = finds_product(alloc, diagram)?;
    if is_found {
        return Ok(Some(true));
    }
    let any = has_counted(alloc, diagram)?;
    Ok(any)
}

/// Returns the warning about a diagram by whether it has a product.
fn warning_of(any: Option<bool>) -> Option<Sort>
    ensures { result ≡ warning_of any }
{
    match any {
        Some(true) => None,
        Some(false) => Some(Sort::NoProduct),
        None => Some(Sort::NoneFound),
    }
}

/// Returns the warning about a diagram that has no product, or perhaps none.
pub(crate) fn warning_about(alloc: Global, diagram: &Diagram) -> Result<Option<Sort>, AllocError>
    ensures { IfOk result (IsWarned diagram.now.lines) }
{
    let any = has_product(alloc, diagram)?;
    Ok(warning_of(any))
}
