//! The verdicts of a vertex with other decisions than the page's.

ghost use Rattle.std.specs.Prelude.{◌<◌, length};
ghost use Rattle.vpg_diagram.specs.FeatureDiagram.{feature_count};

use crate::decisions::are_choices;
use crate::line::Line;
use crate::putting::{put_retraction, put_verdict, put_verdicts};
use vpg_diagram::Literal;
use vpg_measure::Order;
use vpg_partial::Decision;
use vpg_sides::Which;
use vpg_why::{Foresight, Limits, Shown, foresee, no_findings, none_spared, verdict_shown};

/// Returns whether these decisions alone make the vertex hopeless, or sure.
fn shown_by(
    order: &Order,
    which: Which,
    vertex: u32,
    decisions: &[Decision],
    limits: Limits,
    line: &mut Line,
) -> Shown
    requires { vertex < length order.now.game.vertices }
{
    if !are_choices(order.diagram(), decisions) {
        line.put("features ");
        return Shown::Unsettled;
    }
    let mut looks = limits.budget;
    let shown = verdict_shown(
        line.alloc, order, which, vertex, decisions, limits, &mut looks,
    );
    line.kept(shown).unwrap_or(Shown::Unsettled)
}

/// Returns the decisions of a page without the one at this place.
fn without(decisions: &[Decision], place: usize, line: &mut Line) -> Vec<Decision>
    requires { place < length decisions.now }
{
    let mut fewer = Vec::new(line.alloc);
    line.note(fewer.extend_from_slice(&decisions[..place]).is_ok());
    line.note(fewer.extend_from_slice(&decisions[place + 1..]).is_ok());
    fewer
}

/// Writes the verdicts that there would be without the decision at this place: of both tables, or of one.
pub(crate) fn put_without(
    order: &Order,
    which: Option<Which>,
    place: usize,
    vertex: u32,
    limits: Limits,
    line: &mut Line,
)
    requires place { place < length order.now.decisions }
    requires vertex { vertex < length order.now.game.vertices }
{
    let fewer = without(order.decisions(), place, line);
    match which {
        Some(which) => {
            let shown = shown_by(order, which, vertex, &fewer, limits, line);
            put_verdict(which, shown, line);
        }
        None => {
            let hopeless = shown_by(order, Which::Hopeful, vertex, &fewer, limits, line);
            let sure = shown_by(order, Which::Dual, vertex, &fewer, limits, line);
            put_verdicts(hopeless, sure, line);
        }
    }
}

/// Writes the verdicts that there would be with one more decision.
pub(crate) fn put_with(
    order: &Order,
    choice: Decision,
    vertex: u32,
    limits: Limits,
    line: &mut Line,
)
    requires feature { choice.feature < feature_count order.now.diagram.lines }
    requires vertex { vertex < length order.now.game.vertices }
{
    let choice = Literal {
        feature: choice.feature,
        value: choice.value,
    };
    let (mut looks, mut trials) = (limits.budget, limits.trials);
    let mut won = no_findings(line.alloc);
    let mut lost = no_findings(line.alloc);
    let spared = none_spared(line.alloc);
    let found = foresee(
        line.alloc,
        order,
        choice,
        vertex,
        &spared,
        limits,
        &mut looks,
        &mut trials,
        &mut won,
        &mut lost,
    );
    match line.kept(found) {
        Some(Foresight::Conflict) => line.put("conflict"),
        Some(Foresight::Sides { even, odd }) => put_verdicts(even.verdict, odd.verdict, line),
        None => {}
    }
}

/// Moves the last decision of a list to another.
fn move_last(kept: &mut Vec<Decision>, given: &mut Vec<Decision>, line: &mut Line) {
    if let Some(last) = kept.pop() {
        line.note(given.push(last).is_ok());
    }
}

/// Goes through the page from its first decision, and keeps each that leaves the verdict open. Writes those that it
/// keeps, and the others.
fn put_given(order: &Order, which: Which, vertex: u32, limits: Limits, line: &mut Line)
    requires { vertex < length order.now.game.vertices }
{
    let mut kept = Vec::new(line.alloc);
    let mut given = Vec::new(line.alloc);
    let mut exact = true;
    for d in order.decisions() {
        line.note(kept.push(*d).is_ok());
        match shown_by(order, which, vertex, &kept, limits, line) {
            Shown::No => {}
            Shown::Yes => move_last(&mut kept, &mut given, line),
            Shown::Unsettled => {
                move_last(&mut kept, &mut given, line);
                exact = false;
            }
        }
    }
    put_retraction(order.diagram(), &given, &kept, exact, line);
}

/// Writes the decisions to retract so that the vertex is not hopeless any more, or not sure, if the oldest are to stay.
pub(crate) fn put_repair(order: &Order, which: Which, vertex: u32, limits: Limits, line: &mut Line)
    requires { vertex < length order.now.game.vertices }
{
    match shown_by(order, which, vertex, &[], limits, line) {
        Shown::Yes => line.put("nothing"),
        Shown::No => put_given(order, which, vertex, limits, line),
        Shown::Unsettled => line.put("unsettled"),
    }
}
