//! Propagation of decisions: a worklist over the rules of a diagram.
//!
//! A feature waits once something becomes known of it. Each rule adds nothing, or one of its features waits. When a
//! feature leaves the list, the rules that name it are visited. So if no feature waits, no rule adds anything.

ghost use Rattle.std.specs.Prelude.{◌≡◌, ◌<◌, ℕ, List, [], length, replicate, map, IfErr, OnOk, OnErr, Err, IsTrue, Contains};
ghost use Rattle.std.specs.List.{AllByRecursion};
ghost use Rattle.vpg_diagram.specs.Clauses.{IsClauseBelow, IsCountBelow};
ghost use Rattle.vpg_partial.specs.Known.{negation, literal_of, IsClosed, NamesConflict};
ghost use Rattle.vpg_partial.specs.KnownTable.{literals_in, IsClosedTable};
ghost use Rattle.vpg_partial.specs.Propagation.{AddsLiteral, ClosedWith, Contradicts, Grows};
ghost use Rattle.vpg_partial.specs.Rules.{Advances, AreDone, IsDoneAt, IsIndex};
ghost use Rattle.vpg_partial.specs.Stops.{IsFaultOf, fault_named};

use crate::decision::Decision;
use crate::fault::PartialFault;
use crate::rules::{is_known, missing_at};
use vpg_diagram::{Clause, Count, Literal};
use vpg_features::Index;
use vpg_guards::Tri;

/// Why propagation stopped.
#[derive(Clone, Copy, Debug, PartialEq, Eq)]
pub(crate) enum Stop {
    /// A feature is known both ways.
    Contradiction,
    Memory,
}

impl Stop {
    /// Returns the fault, with the feature that names a contradiction.
    fn named(self, feature: u16) -> PartialFault
        ensures { result ≡ fault_named self feature }
    {
        match self {
            Stop::Contradiction => PartialFault::Conflict { feature },
            Stop::Memory => PartialFault::Memory,
        }
    }
}

/// Adds a literal, unless its negation is known.
fn add(known: &mut [Tri], literal: Literal) -> Result<(), Stop>
    requires { literal.feature < length known.old }
    ensures ok { OnOk result (AddsLiteral known.old literal known.new) }
    ensures err { OnErr result (IsTrue (literals_in known.old (negation literal))) }
{
    if is_known(known, literal.feature, !literal.value) {
        return Err(Stop::Contradiction);
    }
    known[literal.feature as usize] = if literal.value { Tri::Yes } else { Tri::No };
    Ok(())
}

/// Applies the rule of this number once. The feature of what it adds waits.
fn visit(
    clauses: &[Clause],
    counts: &[Count],
    number: usize,
    known: &mut [Tri],
    waiting: &mut Vec<u16>,
) -> Result<(), Stop>
    requires clauses { AllByRecursion (IsClauseBelow (length known.old)) clauses.now }
    requires counts { AllByRecursion (IsCountBelow (length known.old)) counts.now }
    ensures advances { OnOk result
        (Advances clauses.now counts.now known.old waiting.old.items known.new waiting.new.items) }
    ensures done { OnOk result (IsDoneAt clauses.now counts.now known.new waiting.new.items number) }
    ensures contradiction { result ≡ Err Stop.Contradiction → Contradicts (IsClosed clauses.now counts.now) known.old }
{
    if let Some(literal) = missing_at(clauses, counts, number, known) {
        add(known, literal)?;
        if waiting.push(literal.feature).is_err() {
            return Err(Stop::Memory);
        }
    }
    Ok(())
}

/// Applies the rules of these numbers once each.
fn visit_each(
    clauses: &[Clause],
    counts: &[Count],
    numbers: &[usize],
    known: &mut [Tri],
    waiting: &mut Vec<u16>,
) -> Result<(), Stop>
    requires clauses { AllByRecursion (IsClauseBelow (length known.old)) clauses.now }
    requires counts { AllByRecursion (IsCountBelow (length known.old)) counts.now }
    ensures advances { OnOk result
        (Advances clauses.now counts.now known.old waiting.old.items known.new waiting.new.items) }
    ensures done { OnOk result
        ((number : ℕ) → Contains numbers.now number →
        IsDoneAt clauses.now counts.now known.new waiting.new.items number) }
    ensures contradiction { result ≡ Err Stop.Contradiction → Contradicts (IsClosed clauses.now counts.now) known.old }
{
    for number in numbers {
        visit(clauses, counts, *number, known, waiting)?;
    }
    Ok(())
}

/// Applies each rule once.
fn visit_all(
    clauses: &[Clause],
    counts: &[Count],
    known: &mut [Tri],
    waiting: &mut Vec<u16>,
) -> Result<(), Stop>
    requires clauses { AllByRecursion (IsClauseBelow (length known.old)) clauses.now }
    requires counts { AllByRecursion (IsCountBelow (length known.old)) counts.now }
    ensures advances { OnOk result
        (Advances clauses.now counts.now known.old waiting.old.items known.new waiting.new.items) }
    ensures done { OnOk result (AreDone clauses.now counts.now known.new waiting.new.items) }
    ensures contradiction { result ≡ Err Stop.Contradiction → Contradicts (IsClosed clauses.now counts.now) known.old }
{
    for number in 0..clauses.len() + counts.len() {
        visit(clauses, counts, number, known, waiting)?;
    }
    Ok(())
}

/// Visits the rules of each waiting feature until none waits.
fn propagate(
    clauses: &[Clause],
    counts: &[Count],
    index: &Index,
    known: &mut [Tri],
    waiting: &mut Vec<u16>,
) -> Result<(), Stop>
    requires clauses { AllByRecursion (IsClauseBelow (length known.old)) clauses.now }
    requires counts { AllByRecursion (IsCountBelow (length known.old)) counts.now }
    requires index { IsIndex clauses.now counts.now index.now }
    requires done { AreDone clauses.now counts.now known.old waiting.old.items }
    ensures grows { OnOk result (Grows (IsClosed clauses.now counts.now) known.old known.new) }
    ensures closed { OnOk result (IsClosed clauses.now counts.now (literals_in known.new)) }
    ensures contradiction { result ≡ Err Stop.Contradiction → Contradicts (IsClosed clauses.now counts.now) known.old }
    ensures none_waits { OnOk result (waiting.new.items ≡ []) }
{
    while let Some(feature) = waiting.pop() {
        visit_each(clauses, counts, index.numbers(feature), known, waiting)?;
    }
    Ok(())
}

/// Adds what follows from no decision.
fn start(
    clauses: &[Clause],
    counts: &[Count],
    index: &Index,
    known: &mut [Tri],
    waiting: &mut Vec<u16>,
) -> Result<(), Stop>
    requires clauses { AllByRecursion (IsClauseBelow (length known.old)) clauses.now }
    requires counts { AllByRecursion (IsCountBelow (length known.old)) counts.now }
    requires index { IsIndex clauses.now counts.now index.now }
    ensures grows { OnOk result (Grows (IsClosed clauses.now counts.now) known.old known.new) }
    ensures closed { OnOk result (IsClosed clauses.now counts.now (literals_in known.new)) }
    ensures contradiction { result ≡ Err Stop.Contradiction → Contradicts (IsClosed clauses.now counts.now) known.old }
    ensures none_waits { OnOk result (waiting.new.items ≡ []) }
{
    visit_all(clauses, counts, known, waiting)?;
    propagate(clauses, counts, index, known, waiting)
}

/// Adds a decision and what follows.
fn decide(
    clauses: &[Clause],
    counts: &[Count],
    index: &Index,
    decision: Decision,
    known: &mut [Tri],
    waiting: &mut Vec<u16>,
) -> Result<(), Stop>
    requires clauses { AllByRecursion (IsClauseBelow (length known.old)) clauses.now }
    requires counts { AllByRecursion (IsCountBelow (length known.old)) counts.now }
    requires index { IsIndex clauses.now counts.now index.now }
    requires decision { decision.feature < length known.old }
    requires closed { IsClosed clauses.now counts.now (literals_in known.old) }
    ensures grows { OnOk result (Grows (ClosedWith clauses.now counts.now (literal_of decision)) known.old known.new) }
    ensures closed { OnOk result (ClosedWith clauses.now counts.now (literal_of decision) (literals_in known.new)) }
    ensures contradiction { result ≡ Err Stop.Contradiction →
        Contradicts (ClosedWith clauses.now counts.now (literal_of decision)) known.old }
    ensures none_waits { OnOk result (waiting.new.items ≡ []) }
{
    add(
        known,
        Literal {
            feature: decision.feature,
            value: decision.value,
        },
    )?;
    if waiting.push(decision.feature).is_err() {
        return Err(Stop::Memory);
    }
    propagate(clauses, counts, index, known, waiting)
}

/// Adds each decision and what follows to a table with nothing known.
pub(crate) fn decide_all(
    clauses: &[Clause],
    counts: &[Count],
    index: &Index,
    decisions: &[Decision],
    known: &mut [Tri],
    waiting: &mut Vec<u16>,
) -> Result<(), PartialFault>
    requires clauses { AllByRecursion (IsClauseBelow (length known.old)) clauses.now }
    requires counts { AllByRecursion (IsCountBelow (length known.old)) counts.now }
    requires index { IsIndex clauses.now counts.now index.now }
    requires decisions { AllByRecursion (λ d. d.feature < length known.old) decisions.now }
    requires nothing { known.old ≡ replicate (length known.old) Tri.Unknown }
    ensures table { OnOk result
        (IsClosedTable clauses.now counts.now (map literal_of decisions.now) (length known.old) known.new) }
    ensures fault { IfErr result (IsFaultOf clauses.now counts.now (map literal_of decisions.now)) }
{
    if let Err(stop) = start(clauses, counts, index, known, waiting) {
        return Err(stop.named(0));
    }
    for decision in decisions {
        if let Err(stop) = decide(clauses, counts, index, *decision, known, waiting) {
            return Err(stop.named(decision.feature));
        }
    }
    Ok(())
}
