//! For each feature, the rules that name it.

ghost use Rattle.std.specs.Prelude.{◌≡◌, ◌<◌, length, OnOk, IfOk};
ghost use Rattle.std.specs.List.{AllByRecursion};
ghost use Rattle.vpg_features.specs.Index.{NotesAlso};
ghost use Rattle.vpg_diagram.specs.Clauses.{IsClauseBelow, IsCountBelow};
ghost use Rattle.vpg_diagram.specs.Rules.{AtClause, AtCount, IsIndex, features_of};

use crate::clause::{Clause, Count};
use std::alloc::{AllocError, Global};
use vpg_features::Index;

/// Returns the index of the clauses and counts over this many features. The clauses have the first numbers.
pub(crate) fn index_of(
    alloc: Global,
    features: usize,
    clauses: &[Clause],
    counts: &[Count],
) -> Result<Index, AllocError>
    requires clauses { AllByRecursion (IsClauseBelow features) clauses.now }
    requires counts { AllByRecursion (IsCountBelow features) counts.now }
    ensures { IfOk result (IsIndex clauses.now counts.now) }
{
    let mut index = Index::new(alloc, features)?;
    for (number, clause) in clauses.iter().enumerate() {
        note_clause(&mut index, number, clause)?;
    }
    for (place, count) in counts.iter().enumerate() {
        note_count(&mut index, clauses.len() + place, count)?;
    }
    Ok(index)
}

fn note_clause(index: &mut Index, number: usize, clause: &Clause) -> Result<(), AllocError>
    requires { IsClauseBelow (length index.old) clause.now }
    ensures { OnOk result (NotesAlso index.old number (features_of (AtClause clause.now)) index.new) }
{
    for literal in clause.literals() {
        index.note(number, literal.feature)?;
    }
    Ok(())
}

fn note_count(index: &mut Index, number: usize, count: &Count) -> Result<(), AllocError>
    requires { IsCountBelow (length index.old) count.now }
    ensures { OnOk result (NotesAlso index.old number (features_of (AtCount count.now)) index.new) }
{
    index.note(number, count.parent())?;
    for member in count.members() {
        index.note(number, *member)?;
    }
    Ok(())
}
