//! Joins parts that differ in one sign alone.
ghost use Rattle.std.specs.Prelude.{◌≡◌, ◌↔◌, ℕ, ◌<◌, ◌≤◌, length, map, take, slice_index_or, IfOk, IfSome, IsNone, IsTrue, OnOk};
ghost use Rattle.vpg_diagram.specs.declared.clause.Literal.{Literal};
ghost use Rattle.vpg_winners.specs.Joined.{AreHalves, ArePut, CanJoin, DiffersAt, HasNoMate, IsFirstMate, IsPut, JoinsAt, PartView, cut_by};
ghost use Rattle.vpg_winners.specs.Numbered.{AreHalvesNumbered, AreNumberedBy, IsAdditive, IsNumberedBy};
ghost use Rattle.vpg_winners.specs.Winners.{view_of, views};

use crate::parts::{Part, cut, cut_all, sum};
use std::alloc::{AllocError, Global};
use vpg_diagram::Literal;

fn is_same(one: Literal, other: Literal) -> bool
    ensures { IsTrue result ↔ (one ≡ other) }
{
    one.feature == other.feature && one.value == other.value
}

// The number of equal literals at the front of both lists.
pub(crate) fn same_front(one: &[Literal], other: &[Literal]) -> usize
    ensures within { result ≤ length one.now }
    ensures within_other { result ≤ length other.now }
    ensures same { take result one.now ≡ take result other.now }
    ensures stops { (d : Literal) → result < length one.now → result < length other.now →
        slice_index_or one.now result d ≡ slice_index_or other.now result d → ⊥ }
{
    for i in 0..one.len() {
        if i >= other.len() || !is_same(one[i], other[i]) {
            return i;
        }
    }
    one.len()
}

// The place of the only literal with a sign in which two lists differ; nothing if they differ otherwise, or not at all.
fn differ_at(one: &[Literal], other: &[Literal]) -> Option<usize>
    ensures some { IfSome result (DiffersAt one.now other.now) }
    ensures none { IsNone result → (place : ℕ) → DiffersAt one.now other.now place → ⊥ }
{
    if one.len() != other.len() {
        return None;
    }
    let place = same_front(one, other);
    if place == one.len() {
        return None;
    }
    if one[place].feature != other[place].feature {
        return None;
    }
    let rest = same_front(&one[place + 1..], &other[place + 1..]);
    if rest < one.len() - place - 1 {
        return None;
    }
    Some(place)
}

// The place of the literal that is left out if two parts are joined; nothing if they cannot be.
fn joins_at(one: &Part, other: &Part) -> Option<usize>
    ensures some { IfSome result (JoinsAt (view_of one.now) (view_of other.now)) }
    ensures none { IsNone result → CanJoin (view_of one.now) (view_of other.now) → ⊥ }
{
    if one.winner != other.winner {
        return None;
    }
    differ_at(&one.literals, &other.literals)
}

// The place of a part that another can be joined with, and that of the literal that is then left out.
#[derive(Clone, Copy)]
struct Mate {
    place: usize,
    literal: usize,
}

// The first of the parts that this one can be joined with.
fn mate_of(parts: &[Part], part: &Part) -> Option<Mate>
    ensures some { IfSome result (λ mate. IsFirstMate (views parts.now) (view_of part.now) mate.place mate.literal) }
    ensures none { IsNone result → HasNoMate (views parts.now) (view_of part.now) }
{
    for place in 0..parts.len() {
        if let Some(literal) = joins_at(&parts[place], part) {
            return Some(Mate { place, literal });
        }
    }
    None
}

// Puts a part to others: it is joined with the first of them that it can be joined with, then again, and is put last.
fn put(alloc: Global, parts: &mut Vec<Part>, part: Part) -> Result<(), AllocError>
    ensures put { OnOk result (IsPut (views parts.old.items) (view_of part) (views parts.new.items)) }
    ensures numbers { OnOk result ((measure : PartView → ℕ) → IsAdditive measure →
        AreNumberedBy measure parts.old.items → IsNumberedBy measure part → AreNumberedBy measure parts.new.items) }
{
    let mut part = part;
    'joining: while let Some(mate) = mate_of(parts, &part) {
        let taken = parts.remove(mate.place);
        let number = sum(alloc, &taken.number, &part.number)?;
        part.literals.remove(mate.literal);
        part.number = number;
    }
    parts.push(part)?;
    Ok(())
}

// Puts each of the parts, with one literal more, to others.
fn put_all(
    alloc: Global,
    all: &mut Vec<Part>,
    literal: Literal,
    parts: &[Part],
) -> Result<(), AllocError>
    ensures put { OnOk result
        (ArePut (views all.old.items) (map (cut_by literal) (views parts.now)) (views all.new.items)) }
    ensures numbers { OnOk result ((measure : PartView → ℕ) → IsAdditive measure →
        AreNumberedBy measure all.old.items → AreNumberedBy (λ part. measure (cut_by literal part)) parts.now →
        AreNumberedBy measure all.new.items) }
{
    for part in parts {
        let more = cut(alloc, literal, part)?;
        put(alloc, all, more)?;
    }
    Ok(())
}

/// Returns the parts of all, from those with a feature and those without it.
pub(crate) fn halves(
    alloc: Global,
    feature: u16,
    with_it: Vec<Part>,
    without: Vec<Part>,
) -> Result<Vec<Part>, AllocError>
    ensures parts { IfOk result
        (λ parts. AreHalves feature (views with_it.items) (views without.items) (views parts.items)) }
    ensures numbers { IfOk result (λ parts. (measure : PartView → ℕ) →
        AreHalvesNumbered measure feature with_it.items without.items → AreNumberedBy measure parts.items) }
{
    if with_it.is_empty() {
        return Ok(without);
    }
    if without.is_empty() {
        return Ok(with_it);
    }
    let literal = Literal {
        feature,
        value: true,
    };
    let mut parts = cut_all(alloc, literal, &with_it)?;
    let literal = Literal {
        feature,
        value: false,
    };
    put_all(alloc, &mut parts, literal, &without)?;
    Ok(parts)
}
