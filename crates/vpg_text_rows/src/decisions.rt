//! Decisions, written as `+f -g`, and the features that they make known.

ghost use Rattle.std.specs.Prelude.{◌↔◌, ◌<◌, IsTrue, All, map};
ghost use Rattle.vpg_partial.specs.Known.{literal_of};
ghost use Rattle.vpg_partial.specs.TableLaws.{AreChoicesOf};

use crate::line::Line;
use crate::text::parts_of;
use vpg_diagram::Diagram;
use vpg_features::Names;
use vpg_partial::{Decision, Partial};

/// Whether each decision is of one of this many features.
pub(crate) fn are_below(features: usize, decisions: &[Decision]) -> bool
    ensures { IsTrue result ↔ All (λ d. d.feature < features) decisions.now }
{
    decisions.iter().all(|d| (d.feature as usize) < features)
}

/// Whether each decision is of a feature of the diagram.
pub(crate) fn are_choices(diagram: &Diagram, decisions: &[Decision]) -> bool
    ensures { IsTrue result → AreChoicesOf diagram.now.lines (map literal_of decisions.now) }
{
    let features = diagram.features();
    are_below(features, decisions)
}

/// Returns the features that the decisions make known, if each is on a feature of the diagram; or writes in the line
/// why not.
pub(crate) fn close_checked(
    diagram: &Diagram,
    decisions: &[Decision],
    line: &mut Line,
) -> Option<Partial> {
    if !are_choices(diagram, decisions) {
        line.put("features");
        return None;
    }
    match Partial::close(line.alloc, diagram, decisions) {
        Ok(known) => Some(known),
        Err(fault) => {
            line.show(&fault);
            None
        }
    }
}

/// Returns the decision of a word.
pub(crate) fn decision_of(names: &Names, word: &[u8]) -> Option<Decision> {
    let (sign, name) = word.split_first()?;
    let feature = names.get(name)?;
    Some(Decision {
        serial: 1,
        session: 1,
        feature,
        value: *sign == b'+',
    })
}

/// Adds the decision of each word to a list, and returns whether each has one.
fn add_all(names: &Names, words: &[&[u8]], decisions: &mut Vec<Decision>, line: &mut Line) -> bool {
    for word in words {
        match decision_of(names, word) {
            Some(decision) => line.note(decisions.push(decision).is_ok()),
            None if word.is_empty() => {}
            None => return false,
        }
    }
    true
}

/// Returns the decisions of a text; or writes in the line that a word names no feature.
pub(crate) fn decisions_of(names: &Names, text: &[u8], line: &mut Line) -> Option<Vec<Decision>> {
    let mut decisions = Vec::new(line.alloc);
    let words = parts_of(text, b' ', line);
    if add_all(names, &words, &mut decisions, line) {
        return Some(decisions);
    }
    line.put("feature");
    None
}
