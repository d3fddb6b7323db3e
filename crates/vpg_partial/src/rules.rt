//! The literals that one rule adds to what is known.

ghost use Rattle.std.specs.Prelude.{◌≡◌, ◌≢◌, ◌↔◌, ◌&&◌, not, length, IfSome, IfNone, IsTrue, All, Contains, find, count_by};
ghost use Rattle.std.specs.List.{AllByRecursion};
ghost use Rattle.vpg_diagram.specs.Clauses.{IsClauseBelow, IsCountBelow, feature_in, feature_out};
ghost use Rattle.vpg_partial.specs.Known.{negation, IsClosedAtClause, IsClosedAtCount};
ghost use Rattle.vpg_partial.specs.KnownTable.{literals_in};
ghost use Rattle.vpg_partial.specs.Propagation.{IsMissingAtClause, IsMissingAtCount};
ghost use Rattle.vpg_partial.specs.Rules.{Rule, HasNumber, IsClosedAt, IsMissing, features_of};

use vpg_diagram::{Clause, Count, Literal};
use vpg_guards::Tri;

/// Whether a literal is known. No literal of a feature beyond the table is.
pub(crate) fn is_known(known: &[Tri], feature: u16, value: bool) -> bool
    ensures { result ≡ literals_in known.now (record { feature = feature; value = value }) }
{
    match known.get(feature as usize) {
        Some(Tri::Yes) => value,
        Some(Tri::No) => !value,
        _ => false,
    }
}

/// Returns the first literal that is not known to be false.
fn first_open(literals: &[Literal], known: &[Tri]) -> Option<Literal>
    ensures { result ≡ find (λ l. not (literals_in known.now (negation l))) literals.now }
{
    literals
        .iter()
        .copied()
        .find(|l| !is_known(known, l.feature, !l.value))
}

/// Whether each other literal is known to be false.
fn others_false(literals: &[Literal], known: &[Tri], one: Literal) -> bool
    ensures { IsTrue result ↔ All (λ l. l ≢ one → IsTrue (literals_in known.now (negation l))) literals.now }
{
    literals
        .iter()
        .all(|l| *l == one || is_known(known, l.feature, !l.value))
}

/// Returns a literal that the unit rule adds at a clause, if there is one.
fn missing_at_clause(clause: &Clause, known: &[Tri]) -> Option<Literal>
    requires { IsClauseBelow (length known.now) clause.now }
    ensures missing { IfSome result (IsMissingAtClause clause.now known.now) }
    ensures closed { IfNone result (IsClosedAtClause (literals_in known.now) clause.now) }
{
    let literals = clause.literals();
    match first_open(literals, known) {
        None => Some(literals[0]),
        Some(one) => {
            if is_known(known, one.feature, one.value) {
                None
            } else if others_false(literals, known, one) {
                Some(one)
            } else {
                None
            }
        }
    }
}

/// Returns the number of members that are known to have this value.
fn known_members(members: &[u16], known: &[Tri], value: bool) -> usize
    ensures { result ≡ count_by (λ c. literals_in known.now (record { feature = c; value = value })) members.now }
{
    members
        .iter()
        .filter(|c| is_known(known, **c, value))
        .count()
}

/// Returns the first unknown member.
fn first_unknown(members: &[u16], known: &[Tri]) -> Option<u16>
    ensures { result ≡ find (λ c. not (literals_in known.now (feature_in c))
        && not (literals_in known.now (feature_out c))) members.now }
{
    members.iter().copied().find(|c| !is_known(known, *c, true) && !is_known(known, *c, false))
}

/// Returns a literal that the counting rule adds at a count, if there is one.
fn missing_at_count(count: &Count, known: &[Tri]) -> Option<Literal>
    requires { IsCountBelow (length known.now) count.now }
    ensures missing { IfSome result (IsMissingAtCount count.now known.now) }
    ensures closed { IfNone result (IsClosedAtCount (literals_in known.now) count.now) }
{
    let parent = count.parent();
    if is_known(known, parent, false) {
        return None;
    }
    let members = count.members();
    let ins = known_members(members, known, true);
    let outs = known_members(members, known, false);
    let high = count.high();
    let most_out = members.len() - count.low();
    if ins > high || outs > most_out {
        return Some(Literal {
            feature: parent,
            value: false,
        });
    }
    if !is_known(known, parent, true) {
        return None;
    }
    if ins < high && outs < most_out {
        return None;
    }
    let value = ins < high;
    match first_unknown(members, known) {
        Some(feature) => Some(Literal { feature, value }),
        None => None,
    }
}

/// Returns a literal that the rule of this number adds, if there is one. The clauses have the first numbers.
pub(crate) fn missing_at(
    clauses: &[Clause],
    counts: &[Count],
    number: usize,
    known: &[Tri],
) -> Option<Literal>
    requires clauses { AllByRecursion (IsClauseBelow (length known.now)) clauses.now }
    requires counts { AllByRecursion (IsCountBelow (length known.now)) counts.now }
    ensures missing { IfSome result (IsMissing clauses.now counts.now known.now) }
    ensures mentioned { IfSome result
        (λ l. (rule : Rule) → HasNumber clauses.now counts.now number rule → Contains (features_of rule) l.feature) }
    ensures closed { IfNone result
        ((rule : Rule) → HasNumber clauses.now counts.now number rule → IsClosedAt (literals_in known.now) rule) }
{
    match clauses.get(number) {
        Some(clause) => missing_at_clause(clause, known),
        None => match counts.get(number - clauses.len()) {
            Some(count) => missing_at_count(count, known),
            None => None,
        },
    }
}
