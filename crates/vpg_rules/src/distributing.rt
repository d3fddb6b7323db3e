//! The clauses of a rule.
ghost use Rattle.std.specs.Prelude.{◌≡◌, ◌<◌, ◌≤◌, ◌∷◌, ◌++◌, [], ◌↔◌, ℕ, Bool, List, Some, None, true, false, length, map, IfOk, IfErr, IsTrue, OnOk};
ghost use Rattle.std.specs.List.{AllByRecursion};
ghost use Rattle.vpg_rules.specs.declared.clause.Literal.{Literal};
ghost use Rattle.vpg_rules.specs.Constraint.{IsMet, IsBelow};
ghost use Rattle.vpg_rules.specs.Clauses.{clauses_of, clauses_when, each_when, some_when, crossed, joined, no_way, MeetsClause};
ghost use Rattle.vpg_rules.specs.Distributing.{limited, clauses_in, AreLimited};
ghost use Rattle.vpg_rules.specs.View.{constraint_of, parts_in};

use crate::clause::{Clause, Literal};
use crate::fault::ClausesFault;
use crate::rule::{Rule, Rules};
use std::alloc::{AllocError, Global};

/// The greatest number of clauses of a rule.
pub const MOST_CLAUSES: usize = 64;

/// The conjunctive normal forms of a part of a rule and of its negation. `None` stands for more than 64 clauses.
struct NormalForms {
    met: Option<Vec<Clause>>,
    unmet: Option<Vec<Clause>>,
}

impl Drop for NormalForms {
    fn drop(self) {
        let NormalForms { met: _, unmet: _ } = self;
    }
}

/// Returns the list of one clause.
fn one(alloc: Global, clause: Clause) -> Result<Option<Vec<Clause>>, AllocError>
    ensures { IfOk result (λ list. clauses_in list ≡ Some (clause ∷ [])) }
{
    let mut clauses = Vec::new(alloc);
    clauses.push(clause)?;
    Ok(Some(clauses))
}

/// Returns both lists as one.
fn together(
    first: Option<Vec<Clause>>,
    second: Option<Vec<Clause>>,
) -> Result<Option<Vec<Clause>>, AllocError>
    ensures { (xs ys : List (List Literal)) → clauses_in first ≡ limited xs → clauses_in second ≡ limited ys →
        IfOk result (λ list. clauses_in list ≡ limited (xs ++ ys)) }
{
    let Some(mut first) = first else {
        return Ok(None);
    };
    let Some(mut second) = second else {
        return Ok(None);
    };
    if first.len().saturating_add(second.len()) > MOST_CLAUSES {
        return Ok(None);
    }
    first.append(&mut second)?;
    Ok(Some(first))
}

/// Adds the clause joined with each of the others.
fn push_joined(
    alloc: Global,
    clause: &Clause,
    others: &[Clause],
    clauses: &mut Vec<Clause>,
) -> Result<(), AllocError>
    ensures { OnOk result (clauses.new.items ≡ clauses.old.items ++ map (joined clause.now) others.now) }
{
    for other in others {
        clauses.push(clause.joined(alloc, other)?)?;
    }
    Ok(())
}

/// Returns each clause of the first list joined with each of the second.
fn all_joined(alloc: Global, first: &[Clause], second: &[Clause]) -> Result<Vec<Clause>, AllocError>
    ensures { IfOk result (λ clauses. clauses.items ≡ crossed first.now second.now) }
{
    let mut clauses = Vec::new(alloc);
    for clause in first {
        push_joined(alloc, clause, second, &mut clauses)?;
    }
    Ok(clauses)
}

/// Whether the list has no clause.
fn is_empty(clauses: &Option<Vec<Clause>>) -> bool
    ensures { IsTrue result ↔ (clauses_in clauses.now ≡ Some []) }
{
    match clauses {
        Some(clauses) => clauses.is_empty(),
        None => false,
    }
}

/// Returns each clause of the first list joined with each of the second, if they are within the limit.
fn crossed(
    alloc: Global,
    first: &Option<Vec<Clause>>,
    second: &Option<Vec<Clause>>,
) -> Result<Option<Vec<Clause>>, AllocError>
    ensures { (xs ys : List (List Literal)) → clauses_in first.now ≡ limited xs → clauses_in second.now ≡ limited ys →
        IfOk result (λ list. clauses_in list ≡ limited (crossed xs ys)) }
{
    if is_empty(first) {
        return Ok(Some(Vec::new(alloc)));
    }
    if is_empty(second) {
        return Ok(Some(Vec::new(alloc)));
    }
    let Some(first) = first else {
        return Ok(None);
    };
    let Some(second) = second else {
        return Ok(None);
    };
    if first.len().saturating_mul(second.len()) > MOST_CLAUSES {
        return Ok(None);
    }
    let clauses = all_joined(alloc, first, second)?;
    Ok(Some(clauses))
}

impl NormalForms {
    /// Returns the clauses of `true`.
    fn always(alloc: Global) -> Result<NormalForms, AllocError>
        ensures { IfOk result (λ forms. AreLimited forms [] no_way) }
    {
        let unmet = one(alloc, Clause::none(alloc))?;
        Ok(NormalForms {
            met: Some(Vec::new(alloc)),
            unmet,
        })
    }

    /// Returns the clauses of a feature.
    fn feature(alloc: Global, feature: u16) -> Result<NormalForms, AllocError>
        ensures { IfOk result (λ forms. AreLimited forms
            ((record { feature = feature; value = true } ∷ []) ∷ [])
            ((record { feature = feature; value = false } ∷ []) ∷ [])) }
    {
        let is_in = Literal {
            feature,
            value: true,
        };
        let is_out = Literal {
            feature,
            value: false,
        };
        let met = one(alloc, Clause::of(alloc, is_in)?)?;
        let unmet = one(alloc, Clause::of(alloc, is_out)?)?;
        Ok(NormalForms { met, unmet })
    }

    /// Returns the clauses of the part.
    fn into_met(self) -> Option<Vec<Clause>>
        ensures { result ≡ self.met }
    {
        let NormalForms { met, unmet: _ } = self;
        met
    }

    /// Returns the clauses of the negation.
    fn inverted(self) -> NormalForms
        ensures { (xs ys : List (List Literal)) → AreLimited self xs ys → AreLimited result ys xs }
    {
        let NormalForms { met, unmet } = self;
        NormalForms {
            met: unmet,
            unmet: met,
        }
    }

    /// Returns the clauses of the `and`.
    fn and(self, alloc: Global, other: NormalForms) -> Result<NormalForms, AllocError>
        ensures { (xs ys us vs : List (List Literal)) → AreLimited self xs ys → AreLimited other us vs →
            IfOk result (λ forms. AreLimited forms (xs ++ us) (crossed ys vs)) }
    {
        let unmet = crossed(alloc, &self.unmet, &other.unmet)?;
        let met = together(self.into_met(), other.into_met())?;
        Ok(NormalForms { met, unmet })
    }

    /// Returns the clauses of the `or`.
    fn or(self, alloc: Global, other: NormalForms) -> Result<NormalForms, AllocError>
        ensures { (xs ys us vs : List (List Literal)) → AreLimited self xs ys → AreLimited other us vs →
            IfOk result (λ forms. AreLimited forms (crossed xs us) (ys ++ vs)) }
    {
        let forms = self.inverted().and(alloc, other.inverted())?;
        Ok(forms.inverted())
    }

    /// Returns the clauses of the equivalence.
    fn equal(&self, alloc: Global, other: &NormalForms) -> Result<NormalForms, AllocError>
        ensures { (xs ys us vs : List (List Literal)) → AreLimited self.now xs ys → AreLimited other.now us vs →
            IfOk result
            (λ forms. AreLimited forms (crossed ys us ++ crossed xs vs) (crossed xs us ++ crossed ys vs)) }
    {
        let only_if = crossed(alloc, &self.unmet, &other.met)?;
        let if_so = crossed(alloc, &self.met, &other.unmet)?;
        let some = crossed(alloc, &self.met, &other.met)?;
        let not_both = crossed(alloc, &self.unmet, &other.unmet)?;
        let met = together(only_if, if_so)?;
        let unmet = together(some, not_both)?;
        Ok(NormalForms { met, unmet })
    }
}

impl Rule {
    /// Returns its clauses, and those of its negation.
    #[cycle(normal)]
    fn normal_forms(&self, alloc: Global) -> Result<NormalForms, AllocError>
        ensures { IfOk result (λ forms. AreLimited forms
            (clauses_when true (constraint_of self.now)) (clauses_when false (constraint_of self.now))) }
    {
        match self {
            Rule::Always => NormalForms::always(alloc),
            Rule::Never => Ok(NormalForms::always(alloc)?.inverted()),
            Rule::Feature(f) => NormalForms::feature(alloc, *f),
            Rule::Not(inner) => Ok(inner.normal_forms(alloc)?.inverted()),
            Rule::All(parts) => parts.all_forms(alloc),
            Rule::Any(parts) => parts.any_forms(alloc),
            Rule::Implies(left, right) => {
                let left = left.normal_forms(alloc)?;
                let right = right.normal_forms(alloc)?;
                left.inverted().or(alloc, right)
            }
            Rule::Iff(left, right) => {
                let left = left.normal_forms(alloc)?;
                let right = right.normal_forms(alloc)?;
                left.equal(alloc, &right)
            }
        }
    }

    /// Returns the clauses, 64 at most: a set of features meets the rule exactly if it meets each of them.
    ///
    /// They are the rule's conjunctive normal form by distribution: arrows are eliminated (`a => b` is `!a | b`, and
    /// `a <=> b` is `(!a | b) & (a | !b)`), negations go inwards, and `|` is distributed over `&`. A literal that would
    /// stand twice in a clause stands once; a clause with a feature and its negation stays. The rule `false` has one
    /// clause without literals.
    ///
    /// `TooMany` comes only if this list has more than 64 clauses. Memory and time stay small then, too: each part of
    /// the rule is visited once, no list that is made on the way has more than 64 clauses, and no clause has more than
    /// two literals for each feature that the rule names.
    pub fn clauses(&self, alloc: Global) -> Result<Vec<Clause>, ClausesFault>
        ensures clauses { IfOk result (λ clauses. clauses.items ≡ clauses_of (constraint_of self.now)) }
        // A set of features meets the rule exactly if it meets each clause.
        ensures met { IfOk result (λ clauses. (chosen : ℕ → Bool) →
            IsMet (constraint_of self.now) chosen ↔ AllByRecursion (MeetsClause chosen) clauses.items) }
        // They name the features of the rule.
        ensures below { (n : ℕ) → IsBelow n (constraint_of self.now) → IfOk result
            (λ clauses. AllByRecursion (AllByRecursion (λ l. l.feature < n)) clauses.items) }
        ensures few { IfOk result (λ clauses. length clauses.items ≤ 64) }
        // A rule with at most 64 clauses is refused only if memory runs out.
        ensures refused { IfErr result (λ fault. fault ≡ ClausesFault.TooMany →
            64 < length (clauses_of (constraint_of self.now))) }
    {
        let Ok(forms) = self.normal_forms(alloc) else {
            return Err(ClausesFault::Memory);
        };
        match forms.into_met() {
            Some(clauses) => Ok(clauses),
            None => Err(ClausesFault::TooMany),
        }
    }
}

impl Rules {
    #[cycle(normal)]
    fn all_forms(&self, alloc: Global) -> Result<NormalForms, AllocError>
        ensures { IfOk result (λ forms. AreLimited forms
            (each_when true (parts_in self.now)) (some_when false (parts_in self.now))) }
    {
        let mut whole = NormalForms::always(alloc)?;
        for place in (0..self.items.len()).rev() {
            whole = self.items[place].normal_forms(alloc)?.and(alloc, whole)?;
        }
        Ok(whole)
    }

    #[cycle(normal)]
    fn any_forms(&self, alloc: Global) -> Result<NormalForms, AllocError>
        ensures { IfOk result (λ forms. AreLimited forms
            (some_when true (parts_in self.now)) (each_when false (parts_in self.now))) }
    {
        let mut whole = NormalForms::always(alloc)?.inverted();
        for place in (0..self.items.len()).rev() {
            whole = self.items[place].normal_forms(alloc)?.or(alloc, whole)?;
        }
        Ok(whole)
    }
}
