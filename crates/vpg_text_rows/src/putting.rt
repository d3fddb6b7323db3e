//! The text of answers.

use crate::line::Line;
use std::alloc::AllocError;
use vpg_diagram::{Diagram, Literal};
use vpg_measure::Order;
use vpg_partial::Decision;
use vpg_sides::Which;
use vpg_why::{Demand, Example, Explanation, Forced, Found, Shown, WhyLost};

/// Writes a feature with its value: `+f` or `-f`, and a blank before it.
fn put_one(diagram: &Diagram, feature: u16, value: bool, line: &mut Line) {
    let names = diagram.names();
    if (feature as usize) < names.len() {
        let sign = if value { " +" } else { " -" };
        line.put_each(&[sign, names.name(feature)]);
    }
}

fn put_decisions(diagram: &Diagram, decisions: &[Decision], line: &mut Line) {
    for d in decisions {
        put_one(diagram, d.feature, d.value, line);
    }
}

fn put_explanation(diagram: &Diagram, found: &Explanation, line: &mut Line) {
    line.put("by");
    put_decisions(diagram, &found.decisions, line);
    line.put(if found.exact { "" } else { " or fewer" });
}

/// Writes an explanation: `by` and its decisions, `no` if there is none.
pub(crate) fn put_why(
    order: &Order,
    found: Result<Option<Explanation>, AllocError>,
    line: &mut Line,
) {
    match line.kept(found) {
        Some(Some(found)) => put_explanation(order.diagram(), &found, line),
        Some(None) => line.put("no"),
        None => {}
    }
}

/// Writes the features of a product.
fn put_features(diagram: &Diagram, features: &[bool], line: &mut Line) {
    let mut feature = 0;
    for has in features {
        if *has {
            put_one(diagram, feature, true, line);
        }
        feature = feature.saturating_add(1);
    }
}

/// Writes a product: its features.
fn put_example(diagram: &Diagram, found: &Example, line: &mut Line) {
    line.put("with");
    put_features(diagram, &found.features, line);
    line.put(if found.first {
        ""
    } else {
        " or an earlier one"
    });
}

/// Writes the result of a search.
pub(crate) fn put_found(order: &Order, found: Result<Found, AllocError>, line: &mut Line) {
    match line.kept(found) {
        Some(Found::Product(example)) => put_example(order.diagram(), &example, line),
        Some(Found::Nothing) => line.put("none"),
        Some(Found::Unsettled) => line.put("unsettled"),
        None => {}
    }
}

/// Writes why no product meets an aim.
pub(crate) fn put_why_lost(order: &Order, found: Result<WhyLost, AllocError>, line: &mut Line) {
    match line.kept(found) {
        Some(WhyLost::Because(found)) => put_explanation(order.diagram(), &found, line),
        Some(WhyLost::Unless(example)) => put_example(order.diagram(), &example, line),
        Some(WhyLost::Unsettled) => line.put("unsettled"),
        None => {}
    }
}

fn put_literals(diagram: &Diagram, literals: &[Literal], line: &mut Line) {
    for literal in literals {
        put_one(diagram, literal.feature, literal.value, line);
    }
}

fn put_forced(diagram: &Diagram, found: &Forced, line: &mut Line) {
    line.put("these");
    put_literals(diagram, &found.literals, line);
    line.put(if found.exact { "" } else { " or more" });
}

/// Writes the needs.
pub(crate) fn put_demand(order: &Order, found: Result<Demand, AllocError>, line: &mut Line) {
    match line.kept(found) {
        Some(Demand::These(forced)) => put_forced(order.diagram(), &forced, line),
        Some(Demand::Nothing) => line.put("none"),
        Some(Demand::Unsettled) => line.put("unsettled"),
        None => {}
    }
}

/// Returns the word for a verdict of a table that there would be.
fn verdict_word(which: Which, shown: Shown) -> &'static str {
    match (which, shown) {
        (Which::Hopeful, Shown::Yes) => "hopeless",
        (Which::Hopeful, Shown::No) => "possible",
        (Which::Dual, Shown::Yes) => "sure",
        (Which::Dual, Shown::No) => "unsure",
        (_, Shown::Unsettled) => "unsettled",
    }
}

/// Writes the verdict of a table that there would be.
pub(crate) fn put_verdict(which: Which, shown: Shown, line: &mut Line) {
    line.put(verdict_word(which, shown));
}

/// Writes the verdicts that there would be.
pub(crate) fn put_verdicts(hopeless: Shown, sure: Shown, line: &mut Line) {
    line.put_each(&[
        verdict_word(Which::Hopeful, hopeless),
        " ",
        verdict_word(Which::Dual, sure),
    ]);
}

/// Writes the decisions to retract, and those that stay.
pub(crate) fn put_retraction(
    diagram: &Diagram,
    given: &[Decision],
    kept: &[Decision],
    exact: bool,
    line: &mut Line,
) {
    line.put("retract");
    put_decisions(diagram, given, line);
    line.put(" keep");
    put_decisions(diagram, kept, line);
    line.put(if exact { "" } else { " or more" });
}
