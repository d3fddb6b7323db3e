//! Whether a set of features meets clauses and counts.

ghost use Rattle.std.specs.Prelude.{◌≡◌, List, length, IsTrue, ◌↔◌, count_by};
ghost use Rattle.std.specs.List.{list_any, AllByRecursion};
ghost use Rattle.vpg_diagram.specs.FeatureDiagram.{chosen, count_in, IsDiagram, IsProduct, feature_count, Line};
ghost use Rattle.vpg_diagram.specs.Clauses.{IsTrueIn, MeetsClause, MeetsCount, MeetsAll, is_true_in, clauses_of, counts_of};

use crate::clause::{Clause, Count, Literal};

/// Whether a set has a feature. It has none beyond its length.
fn chosen(features: &[bool], feature: u16) -> bool
    ensures { result ≡ chosen features.now feature }
{
    match features.get(feature as usize) {
        Some(value) => *value,
        None => false,
    }
}

fn is_true_in(features: &[bool], literal: Literal) -> bool
    ensures { result ≡ is_true_in features.now literal }
{
    let value = chosen(features, literal.feature);
    if literal.value { value } else { !value }
}

fn has_true(features: &[bool], literals: &[Literal]) -> bool
    ensures { result ≡ list_any (λ l. is_true_in features.now l) literals.now }
{
    literals.iter().any(|l| is_true_in(features, *l))
}

fn meets_clause(clause: &Clause, features: &[bool]) -> bool
    ensures { IsTrue result ↔ MeetsClause features.now clause.now }
{
    has_true(features, clause.literals())
}

fn chosen_members(features: &[bool], members: &[u16]) -> usize
    ensures { result ≡ count_in features.now members.now }
{
    members.iter().filter(|c| chosen(features, **c)).count()
}

fn meets_count(count: &Count, features: &[bool]) -> bool
    ensures { IsTrue result ↔ MeetsCount features.now count.now }
{
    if !chosen(features, count.parent()) {
        return true;
    }
    let members = count.members();
    let number = chosen_members(features, members);
    count.low() <= number && number <= count.high()
}

fn meets_clauses(clauses: &[Clause], features: &[bool]) -> bool
    ensures { IsTrue result ↔ AllByRecursion (MeetsClause features.now) clauses.now }
{
    for clause in clauses {
        if !meets_clause(clause, features) {
            return false;
        }
    }
    true
}

fn meets_counts(counts: &[Count], features: &[bool]) -> bool
    ensures { IsTrue result ↔ AllByRecursion (MeetsCount features.now) counts.now }
{
    for count in counts {
        if !meets_count(count, features) {
            return false;
        }
    }
    true
}

fn meets_all(clauses: &[Clause], counts: &[Count], features: &[bool]) -> bool
    ensures { IsTrue result ↔ MeetsAll clauses.now counts.now features.now }
{
    meets_clauses(clauses, features) && meets_counts(counts, features)
}

/// Whether a set of features is a product of the diagram of these clauses and counts.
pub(crate) fn is_product(clauses: &[Clause], counts: &[Count], features: &[bool]) -> bool
    ensures { (lines : List Line) → IsDiagram lines → clauses.now ≡ clauses_of lines → counts.now ≡ counts_of lines →
        length features.now ≡ feature_count lines → IsTrue result ↔ IsProduct lines features.now }
{
    meets_all(clauses, counts, features)
}
