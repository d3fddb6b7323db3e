//! Applies one rule to what is known.
ghost use Rattle.std.specs.Prelude.{◌≡◌, ◌<◌, ◌≤◌, length, count_by, find, not, ◌&&◌};
ghost use Rattle.std.specs.List.{AllByRecursion};
ghost use Rattle.vpg_diagram.specs.Clauses.{IsClauseBelow, IsCountBelow, MeetsAll, MeetsClause, MeetsCount, feature_in, feature_out};
ghost use Rattle.vpg_partial.specs.KnownTable.{literals_in};
ghost use Rattle.vpg_products.specs.Stepping.{IsStep, if_out};

use vpg_diagram::{Clause, Count, Literal};
use vpg_guards::Tri;

/// The conclusion of a rule from what is known.
#[derive(Clone, Copy)]
pub(crate) enum Step {
    /// Nothing more.
    Nothing,
    /// The literal, which is not known, is in each product that agrees with what is known.
    Adds(Literal),
    /// No product agrees with what is known.
    Fails,
}

// Whether a feature is known so.
fn is_known(known: &[Tri], feature: u16, value: bool) -> bool
    ensures { result ≡ literals_in known.now (record { feature = feature; value = value }) }
{
    match known.get(feature as usize) {
        Some(Tri::Yes) => value,
        Some(Tri::No) => !value,
        _ => false,
    }
}

// What a clause says: it fails if all of its literals are false, and adds the only one that is not.
fn step_at_clause(clause: &Clause, known: &[Tri]) -> Step
    requires { IsClauseBelow (length known.now) clause.now }
    ensures { IsStep (λ set. MeetsClause set clause.now) known.now result }
{
    let literals = clause.literals();
    let mut open = None;
    for literal in literals {
        if is_known(known, literal.feature, literal.value) {
            return Step::Nothing;
        }
        if !is_known(known, literal.feature, !literal.value) {
            match open {
                Some(_) => return Step::Nothing,
                None => open = Some(*literal),
            }
        }
    }
    match open {
        Some(literal) => Step::Adds(literal),
        None => Step::Fails,
    }
}

// The number of members that are known so.
fn known_members(members: &[u16], known: &[Tri], value: bool) -> usize
    ensures { result ≡ count_by (λ c. literals_in known.now (record { feature = c; value = value })) members.now }
{
    members
        .iter()
        .filter(|c| is_known(known, **c, value))
        .count()
}

// The first member that is not known.
fn first_open(members: &[u16], known: &[Tri]) -> Option<u16>
    ensures { result ≡ find (λ c. not (literals_in known.now (feature_in c))
        && not (literals_in known.now (feature_out c))) members.now }
{
    members.iter().copied().find(|c| !is_known(known, *c, true) && !is_known(known, *c, false))
}

// What is said if a count's parent cannot be in.
fn without_parent(parent: u16, is_in: bool) -> Step
    ensures { result ≡ if_out parent is_in }
{
    if is_in {
        return Step::Fails;
    }
    Step::Adds(Literal {
        feature: parent,
        value: false,
    })
}

// What a count says: it fails if its parent is in and too many members are in, or too many out. It leaves its parent
// out if that would fail, and puts its first open member where else it would fail.
fn step_at_count(count: &Count, known: &[Tri]) -> Step
    requires { IsCountBelow (length known.now) count.now }
    ensures { IsStep (λ set. MeetsCount set count.now) known.now result }
{
    let parent = count.parent();
    if is_known(known, parent, false) {
        return Step::Nothing;
    }
    let members = count.members();
    let ins = known_members(members, known, true);
    let outs = known_members(members, known, false);
    let high = count.high();
    let most_out = members.len() - count.low();
    let is_in = is_known(known, parent, true);
    if ins > high || outs > most_out {
        return without_parent(parent, is_in);
    }
    if !is_in || (ins < high && outs < most_out) {
        return Step::Nothing;
    }
    match first_open(members, known) {
        Some(feature) => Step::Adds(Literal {
            feature,
            value: ins < high,
        }),
        None => Step::Nothing,
    }
}

/// Returns what the rule of this number says. The clauses have the first numbers.
pub(crate) fn step_at(clauses: &[Clause], counts: &[Count], number: usize, known: &[Tri]) -> Step
    requires clauses { AllByRecursion (IsClauseBelow (length known.now)) clauses.now }
    requires counts { AllByRecursion (IsCountBelow (length known.now)) counts.now }
    ensures { IsStep (MeetsAll clauses.now counts.now) known.now result }
{
    match clauses.get(number) {
        Some(clause) => step_at_clause(clause, known),
        None => match counts.get(number - clauses.len()) {
            Some(count) => step_at_count(count, known),
            None => Step::Nothing,
        },
    }
}
