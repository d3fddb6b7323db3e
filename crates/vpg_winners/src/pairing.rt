//! Joins the halves of parts of which no two can be joined.
ghost use Rattle.std.specs.Prelude.{◌≡◌, ℕ, ◌<◌, ◌≤◌, ◌%◌, ◌*◌, ◌+◌, ◌++◌, ◌↔◌, true, false, cond, length, map, IfOk, IfSome, IsNone, IsTrue, OnOk};
ghost use Rattle.vpg_why.specs.Suffices.{choice};
ghost use Rattle.vpg_winners.specs.Joined.{AreHalves, ArePut, PartView, cut_by};
ghost use Rattle.vpg_winners.specs.Numbered.{AreHalvesNumbered, AreNumberedBy, IsAdditive, IsNumberedBy};
ghost use Rattle.vpg_winners.specs.Pairs.{AreBehind, AreFlagged, HasNone, HasNot, IsFirstSame, IsNext, IsPaired, first_mark, mark_from, mark_of, marked};
ghost use Rattle.vpg_winners.specs.Winners.{AreJoined, view_of, views};

use crate::joining::same_front;
use crate::parts::{Part, Winner, sum};
use std::alloc::{AllocError, Global};
use vpg_diagram::Literal;

// Whether the lists are the same.
fn are_same(one: &[Literal], other: &[Literal]) -> bool
    ensures { IsTrue result ↔ (one.now ≡ other.now) }
{
    if one.len() != other.len() {
        return false;
    }
    if same_front(one, other) < one.len() {
        return false;
    }
    true
}

// Whether the parts are the same but for their numbers.
fn is_same_part(one: &Part, other: &Part) -> bool
    ensures { IsTrue result ↔ (view_of one.now ≡ view_of other.now) }
{
    one.winner == other.winner && are_same(&one.literals, &other.literals)
}

// A number of a literal.
fn code_of(literal: Literal) -> u64
    ensures { result ≡ 2 * literal.feature + cond literal.value 1 0 }
{
    if literal.value {
        2 * literal.feature as u64 + 1
    } else {
        2 * literal.feature as u64
    }
}

// The mark of a list with one literal more.
fn marked(mark: u64, literal: &Literal) -> u64
    ensures { result ≡ marked mark literal.now }
{
    mark.wrapping_mul(1_000_003).wrapping_add(code_of(*literal))
}

// The mark of a list that goes on from another mark.
fn mark_from(begin: u64, literals: &[Literal]) -> u64
    ensures { result ≡ mark_from begin literals.now }
{
    let mut mark = begin;
    for i in 0..literals.len() {
        mark = marked(mark, &literals[i]);
    }
    mark
}

// The mark that those of a winner's parts go on from.
fn first_mark(winner: Winner) -> u64
    ensures { result ≡ first_mark winner }
{
    match winner {
        Winner::Won => 1,
        Winner::Lost => 2,
        Winner::Unsettled => 3,
    }
}

// A number that equal parts share.
fn mark_of(part: &Part) -> u64
    ensures { result ≡ mark_of part.now }
{
    mark_from(first_mark(part.winner), &part.literals)
}

// The marks of parts.
fn marks_of(alloc: Global, parts: &[Part]) -> Result<Vec<u64>, AllocError>
    ensures { IfOk result (λ marks. marks.items ≡ map mark_of parts.now) }
{
    let mut marks = Vec::with_capacity(alloc, parts.len())?;
    for part in parts {
        marks.push(mark_of(part))?;
    }
    Ok(marks)
}

// The slots of flags for each mark.
const SLOTS: usize = 64;

// The slot of a mark.
fn slot_of(mark: u64, slots: usize) -> usize
    requires { 0 < slots }
    ensures within { result < slots }
    ensures slot { result ≡ mark % slots }
{
    (mark % slots as u64) as usize
}

// Flags that are set at the slots of the marks: a mark whose slot has none is not among them.
fn flags_of(alloc: Global, marks: &[u64]) -> Result<Vec<bool>, AllocError>
    ensures { IfOk result (λ flags. AreFlagged flags.items marks.now) }
{
    let slots = marks.len().saturating_mul(SLOTS).saturating_add(1);
    let mut flags = vec![in alloc; false; slots]?;
    for i in 0..marks.len() {
        let slot = slot_of(marks[i], slots);
        flags[slot] = true;
    }
    Ok(flags)
}

// The first place of a mark, from this one on.
fn next_with(marks: &[u64], from: usize, mark: u64) -> Option<usize>
    requires { from ≤ length marks.now }
    ensures some { IfSome result (λ place. IsNext marks.now from mark place) }
    ensures none { IsNone result → HasNot marks.now from mark (length marks.now) }
{
    for place in from..marks.len() {
        if marks[place] == mark {
            return Some(place);
        }
    }
    None
}

// The place of the first of the parts that is the same as this one.
fn place_of(parts: &[Part], marks: &[u64], flags: &[bool], part: &Part) -> Option<usize>
    requires marks { marks.now ≡ map mark_of parts.now }
    requires flags { AreFlagged flags.now marks.now }
    ensures some { IfSome result (IsFirstSame (views parts.now) (view_of part.now)) }
    ensures none { IsNone result → HasNone (views parts.now) (view_of part.now) }
{
    let own = mark_of(part);
    if !flags[slot_of(own, flags.len())] {
        return None;
    }
    let mut from = 0;
    while let Some(place) = next_with(marks, from, own) {
        if is_same_part(&parts[place], part) {
            return Some(place);
        }
        from = place + 1;
    }
    None
}

// Takes the part out that is the same as this one, and makes one part of both. If there is none, this one has the
// literal that the feature is out.
fn pair(
    alloc: Global,
    feature: u16,
    left: &mut Vec<Part>,
    marks: &mut Vec<u64>,
    flags: &[bool],
    part: &mut Part,
) -> Result<(), AllocError>
    requires marks { marks.old.items ≡ map mark_of left.old.items }
    requires flags { AreFlagged flags.now marks.old.items }
    ensures marks { OnOk result (marks.new.items ≡ map mark_of left.new.items) }
    ensures flags { OnOk result (AreFlagged flags.now marks.new.items) }
    ensures paired { OnOk result (IsPaired feature (views left.old.items) (view_of part.old) (views left.new.items)
        (view_of part.new)) }
    ensures numbers { OnOk result ((measure : PartView → ℕ) → IsAdditive measure →
        AreNumberedBy (λ p. measure (cut_by (choice feature true) p)) left.old.items →
        IsNumberedBy (λ p. measure (cut_by (choice feature false) p)) part.old →
        AreNumberedBy (λ p. measure (cut_by (choice feature true) p)) left.new.items ×
        IsNumberedBy measure part.new) }
{
    if let Some(place) = place_of(left, marks, flags, part) {
        let mate = left.remove(place);
        marks.remove(place);
        part.number = sum(alloc, &mate.number, &part.number)?;
        return Ok(());
    }
    let literal = Literal {
        feature,
        value: false,
    };
    part.literals.insert(0, literal)?;
    Ok(())
}

// Pairs each of the parts without the feature.
fn pair_all(
    alloc: Global,
    feature: u16,
    left: &mut Vec<Part>,
    without: &mut Vec<Part>,
) -> Result<(), AllocError>
    requires joined { AreJoined (views without.old.items) }
    requires behind { AreBehind feature (views without.old.items) }
    ensures put { OnOk result (ArePut (map (cut_by (choice feature true)) (views left.old.items))
        (map (cut_by (choice feature false)) (views without.old.items))
        (map (cut_by (choice feature true)) (views left.new.items) ++ views without.new.items)) }
    ensures numbers { OnOk result ((measure : PartView → ℕ) → IsAdditive measure →
        AreNumberedBy (λ p. measure (cut_by (choice feature true) p)) left.old.items →
        AreNumberedBy (λ p. measure (cut_by (choice feature false) p)) without.old.items →
        AreNumberedBy (λ p. measure (cut_by (choice feature true) p)) left.new.items ×
        AreNumberedBy measure without.new.items) }
{
    let mut marks = marks_of(alloc, left)?;
    let flags = flags_of(alloc, &marks)?;
    for part in without.iter_mut() {
        pair(alloc, feature, left, &mut marks, &flags, part)?;
    }
    Ok(())
}

// Puts a literal at the front of each of the parts.
fn cut_each(literal: Literal, parts: &mut Vec<Part>) -> Result<(), AllocError>
    ensures parts { OnOk result (views parts.new.items ≡ map (cut_by literal) (views parts.old.items)) }
    ensures numbers { OnOk result ((measure : PartView → ℕ) →
        AreNumberedBy (λ part. measure (cut_by literal part)) parts.old.items →
        AreNumberedBy measure parts.new.items) }
{
    for part in parts.iter_mut() {
        part.literals.insert(0, literal)?;
    }
    Ok(())
}

/// Returns the parts of all, from those with a feature and those without it. Each of the second ones is joined with the
/// first one that is the same, if there is one: no other two can be joined.
pub(crate) fn paired(
    alloc: Global,
    feature: u16,
    with_it: Vec<Part>,
    without: Vec<Part>,
) -> Result<Vec<Part>, AllocError>
    requires joined { AreJoined (views without.items) }
    requires behind { AreBehind feature (views without.items) }
    ensures parts { IfOk result
        (λ parts. AreHalves feature (views with_it.items) (views without.items) (views parts.items)) }
    ensures numbers { IfOk result (λ parts. (measure : PartView → ℕ) →
        AreHalvesNumbered measure feature with_it.items without.items → AreNumberedBy measure parts.items) }
{
    if with_it.is_empty() {
        return Ok(without);
    }
    if without.is_empty() {
        return Ok(with_it);
    }
    let mut parts = with_it;
    let mut others = without;
    pair_all(alloc, feature, &mut parts, &mut others)?;
    let literal = Literal {
        feature,
        value: true,
    };
    cut_each(literal, &mut parts)?;
    parts.append(&mut others)?;
    Ok(parts)
}
