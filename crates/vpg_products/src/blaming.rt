//! A guess at the features that a failure rests on.
ghost use Rattle.std.specs.Prelude.{◌≡◌, length, IfOk};
ghost use Rattle.vpg_diagram.specs.FeatureDiagram.{feature_count};

use crate::trail::Trail;
use std::alloc::{AllocError, Global};
use vpg_diagram::{Clause, Count, Diagram};
use vpg_guards::Tri;

// Marks a feature.
fn mark(marks: &mut [bool], feature: u16)
    ensures { length marks.new ≡ length marks.old }
{
    if let Some(it) = marks.get_mut(feature as usize) {
        *it = true;
    }
}

// Marks the other features of a clause.
fn mark_clause(clause: &Clause, but: Option<u16>, marks: &mut [bool])
    ensures { length marks.new ≡ length marks.old }
{
    for literal in clause.literals() {
        if Some(literal.feature) != but {
            mark(marks, literal.feature);
        }
    }
}

// The number of members with this value.
fn with_value(members: &[u16], known: &[Tri], value: Tri) -> usize {
    members
        .iter()
        .filter(|c| known.get(**c as usize) == Some(&value))
        .count()
}

// The value of the members that a count rests on if it made the feature known, or failed: those that are in, if there
// are as many as may be.
fn blamed_value(count: &Count, but: Option<u16>, known: &[Tri]) -> Tri {
    if let Some(feature) = but {
        if feature != count.parent() {
            return match known.get(feature as usize) {
                Some(Tri::No) => Tri::Yes,
                _ => Tri::No,
            };
        }
    }
    if with_value(count.members(), known, Tri::Yes) > count.high() {
        Tri::Yes
    } else {
        Tri::No
    }
}

// Marks the other features of a count that it rests on.
fn mark_count(count: &Count, but: Option<u16>, known: &[Tri], marks: &mut [bool])
    ensures { length marks.new ≡ length marks.old }
{
    let value = blamed_value(count, but, known);
    for member in count.members() {
        if Some(*member) != but && known.get(*member as usize) == Some(&value) {
            mark(marks, *member);
        }
    }
    if Some(count.parent()) != but {
        mark(marks, count.parent());
    }
}

// Marks the other features that a rule rests on if it made the feature known, or failed.
fn mark_rule(diagram: &Diagram, number: usize, but: Option<u16>, known: &[Tri], marks: &mut [bool])
    ensures { length marks.new ≡ length marks.old }
{
    let clauses = diagram.clauses();
    match clauses.get(number) {
        Some(clause) => mark_clause(clause, but, marks),
        None => {
            if let Some(count) = diagram.counts().get(number - clauses.len()) {
                mark_count(count, but, known, marks);
            }
        }
    }
}

/// Returns a guess at the features that a rule's failure rests on: a mark for each feature, also for those by which
/// the rules of the trail made it so. If marked features were decided, these decisions may be refuted alone.
pub fn blamed(
    alloc: Global,
    diagram: &Diagram,
    known: &[Tri],
    trail: &Trail,
    failed: usize,
) -> Result<Vec<bool>, AllocError>
    ensures { IfOk result (λ marks. length marks.items ≡ feature_count diagram.now.lines) }
{
    let mut marks = vec![in alloc; false; diagram.features()]?;
    mark_rule(diagram, failed, None, known, &mut marks);
    for step in trail.steps().iter().rev() {
        if marks.get(step.feature as usize) == Some(&true) {
            if let Some(cause) = step.cause {
                mark_rule(diagram, cause, Some(step.feature), known, &mut marks);
            }
        }
    }
    Ok(marks)
}
