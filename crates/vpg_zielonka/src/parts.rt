//! A set of products for each vertex: a part of the game in each product.
ghost use Rattle.std.specs.Prelude.{◌≡◌, ℕ, ◌<◌, List, [], ◌∷◌, ◌++◌, Bool, ◌&&◌, ◌||◌, not, true, false, IfOk, OnOk, IfErr, length};
ghost use Rattle.vpg_zielonka.specs.Universes.{IsGrown, IsInside, IsSetOf, IsTrueFault, has};
ghost use Rattle.vpg_zielonka.specs.Attractors.{IsRest, IsJoined};
ghost use Rattle.vpg_zielonka.specs.Parts.{AreSets, part_in};
ghost use Rattle.vpg_zielonka.specs.Reached.{flagged};

use crate::subset::Subset;
use crate::universe::Universe;
use std::alloc::{AllocError, Global};
use vpg_sets::SetsFault;

/// Adds a set to a list.
pub(crate) fn push(list: &mut Vec<Subset>, set: Subset) -> Result<(), AllocError>
    ensures { OnOk result (list.new.items ≡ list.old.items ++ set ∷ []) }
{
    list.push(set)?;
    Ok(())
}

/// Returns a list with this set at each vertex.
pub(crate) fn same_for_all(
    alloc: Global,
    sets: &Universe,
    set: Subset,
    vertices: usize,
) -> Result<Vec<Subset>, SetsFault>
    requires { IsInside sets.now set }
    ensures sets { IfOk result (λ part. AreSets sets.now vertices part.items) }
    ensures each { IfOk result (λ part. (p : List Bool) (v : ℕ) → v < vertices →
        part_in sets.now part.items p v ≡ has sets.now set p) }
    ensures failed { IfErr result (IsTrueFault sets.now) }
{
    Ok(vec![in alloc; set; vertices]?)
}

/// Returns the set if it is wanted, else none.
fn set_if(sets: &Universe, set: Subset, is_wanted: bool) -> Subset
    requires { IsInside sets.now set }
    ensures { IsSetOf sets.now (λ p. is_wanted && has sets.now set p) result }
{
    if is_wanted { set } else { sets.none() }
}

/// Returns a list with this set for each of the vertices that are wanted, and none for the others.
pub(crate) fn set_for(
    alloc: Global,
    sets: &Universe,
    set: Subset,
    wanted: &[bool],
) -> Result<Vec<Subset>, AllocError>
    requires { IsInside sets.now set }
    ensures sets { IfOk result (λ part. AreSets sets.now (length wanted.now) part.items) }
    ensures each { IfOk result (λ part. (p : List Bool) (v : ℕ) →
        part_in sets.now part.items p v ≡ (flagged wanted.now v && has sets.now set p)) }
{
    let mut part = Vec::with_capacity(alloc, wanted.len())?;
    for v in 0..wanted.len() {
        let own = set_if(sets, set, wanted[v]);
        push(&mut part, own)?;
    }
    Ok(part)
}

/// Returns the first part without the second.
pub(crate) fn without(
    alloc: Global,
    sets: &mut Universe,
    part: &[Subset],
    other: &[Subset],
) -> Result<Vec<Subset>, SetsFault>
    requires part { AreSets sets.old (length part.now) part.now }
    requires other { AreSets sets.old (length part.now) other.now }
    ensures grown { IsGrown sets.old sets.new }
    ensures sets { IfOk result (λ left. AreSets sets.new (length part.now) left.items) }
    ensures rest { IfOk result (λ left. (p : List Bool) →
        IsRest (part_in sets.new left.items p) (part_in sets.old part.now p) (part_in sets.old other.now p)) }
    ensures failed { IfErr result (IsTrueFault sets.new) }
{
    let mut left = Vec::with_capacity(alloc, part.len())?;
    for v in 0..part.len() {
        let set = sets.without(part[v], other[v])?;
        push(&mut left, set)?;
    }
    Ok(left)
}

/// Returns both parts together.
pub(crate) fn joined(
    alloc: Global,
    sets: &mut Universe,
    part: &[Subset],
    other: &[Subset],
) -> Result<Vec<Subset>, SetsFault>
    requires part { AreSets sets.old (length part.now) part.now }
    requires other { AreSets sets.old (length part.now) other.now }
    ensures grown { IsGrown sets.old sets.new }
    ensures sets { IfOk result (λ both. AreSets sets.new (length part.now) both.items) }
    ensures joined { IfOk result (λ both. (p : List Bool) →
        IsJoined (part_in sets.new both.items p) (part_in sets.old part.now p) (part_in sets.old other.now p)) }
    ensures failed { IfErr result (IsTrueFault sets.new) }
{
    let mut both = Vec::with_capacity(alloc, part.len())?;
    for v in 0..part.len() {
        let set = sets.or(part[v], other[v])?;
        push(&mut both, set)?;
    }
    Ok(both)
}

/// Returns the part in the products of a set.
pub(crate) fn within(
    alloc: Global,
    sets: &mut Universe,
    part: &[Subset],
    set: Subset,
) -> Result<Vec<Subset>, SetsFault>
    requires part { AreSets sets.old (length part.now) part.now }
    requires set { IsInside sets.old set }
    ensures grown { IsGrown sets.old sets.new }
    ensures sets { IfOk result (λ kept. AreSets sets.new (length part.now) kept.items) }
    ensures each { IfOk result (λ kept. (p : List Bool) (v : ℕ) →
        part_in sets.new kept.items p v ≡ (part_in sets.old part.now p v && has sets.old set p)) }
    ensures failed { IfErr result (IsTrueFault sets.new) }
{
    let mut kept = Vec::with_capacity(alloc, part.len())?;
    for v in 0..part.len() {
        let set = sets.and(part[v], set)?;
        push(&mut kept, set)?;
    }
    Ok(kept)
}

/// Returns the part in the products outside of a set.
pub(crate) fn outside(
    alloc: Global,
    sets: &mut Universe,
    part: &[Subset],
    set: Subset,
) -> Result<Vec<Subset>, SetsFault>
    requires part { AreSets sets.old (length part.now) part.now }
    requires set { IsInside sets.old set }
    ensures grown { IsGrown sets.old sets.new }
    ensures sets { IfOk result (λ kept. AreSets sets.new (length part.now) kept.items) }
    ensures each { IfOk result (λ kept. (p : List Bool) (v : ℕ) →
        part_in sets.new kept.items p v ≡ (part_in sets.old part.now p v && not (has sets.old set p))) }
    ensures failed { IfErr result (IsTrueFault sets.new) }
{
    let mut kept = Vec::with_capacity(alloc, part.len())?;
    for v in 0..part.len() {
        let set = sets.without(part[v], set)?;
        push(&mut kept, set)?;
    }
    Ok(kept)
}

/// Returns the products in which the part has a vertex.
pub(crate) fn occupied(sets: &mut Universe, part: &[Subset]) -> Result<Subset, SetsFault>
    requires { AreSets sets.old (length part.now) part.now }
    ensures grown { IsGrown sets.old sets.new }
    ensures inside { IfOk result (IsInside sets.new) }
    ensures none { IfOk result (λ set. (p : List Bool) → has sets.new set p ≡ false →
        (v : ℕ) → part_in sets.old part.now p v ≡ false) }
    ensures some { IfOk result (λ set. (p : List Bool) → has sets.new set p ≡ true →
        (v : ℕ) × (part_in sets.old part.now p v ≡ true)) }
    ensures failed { IfErr result (IsTrueFault sets.new) }
{
    let mut some = sets.none();
    for v in 0..part.len() {
        some = sets.or(some, part[v])?;
    }
    Ok(some)
}
