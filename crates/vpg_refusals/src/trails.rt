//! Trails that are opened, extended and cut.

ghost use Rattle.std.specs.Prelude.{◌≡◌, [], ◌∷◌, map, IfOk};
ghost use Rattle.vpg_trail.specs.Page.{Decided};
ghost use Rattle.vpg_trail.specs.Shown.{entry_of};

use crate::done_if;
use std::alloc::{AllocError, Global};
use vpg_measure::Shape;
use vpg_partial::Decision;
use vpg_scarce::End;
use vpg_trail::{Entry, Trail};

const FIRST: Decision = Decision {
    serial: 1,
    session: 1,
    feature: 0,
    value: true,
};

const NEXT: Decision = Decision {
    serial: 2,
    session: 1,
    feature: 1,
    value: false,
};

pub(crate) fn open(alloc: Global, hopeful: &Shape, dual: &Shape) -> End {
    match Trail::open(alloc, hopeful, dual, 2) {
        Ok(trail) => done_if(trail.entries().is_empty()),
        Err(_) => End::Memory,
    }
}

pub(crate) fn append(trail: &mut Trail) -> End {
    match trail.append(Entry::Decide(FIRST)) {
        Ok(()) => End::Done,
        Err(refused) if is_first(&refused.value) => End::Memory,
        Err(_) => End::Otherwise,
    }
}

/// Whether an entry is the first decision.
fn is_first(entry: &Entry) -> bool {
    match entry {
        Entry::Decide(decision) => *decision == FIRST,
        Entry::Lift { .. } => false,
    }
}

/// Whether all these entries are the first decision.
fn are_first(entries: &[Entry]) -> bool {
    for entry in entries {
        if !is_first(entry) {
            return false;
        }
    }
    true
}

/// Returns four times the next decision.
fn suffix_of(alloc: Global) -> Result<Vec<Entry>, AllocError>
    ensures { IfOk result (λ s. map entry_of s.items ≡ Decided NEXT ∷ Decided NEXT ∷ Decided NEXT ∷ Decided NEXT ∷ []) }
{
    let entries = [
        Entry::Decide(NEXT),
        Entry::Decide(NEXT),
        Entry::Decide(NEXT),
        Entry::Decide(NEXT),
    ];
    Ok(Vec::from_array(alloc, entries)?)
}

pub(crate) fn splice(alloc: Global, trail: &mut Trail) -> End {
    let Ok(suffix) = suffix_of(alloc) else {
        return End::Memory;
    };
    let spliced = trail.splice(0, suffix);
    match &spliced {
        Ok(removed) if removed.len() == 1 && are_first(removed) => End::Done,
        Err(refused) if refused.value.len() == 4 => End::Memory,
        _ => End::Otherwise,
    }
}

/// Whether both tables of a trail are zero.
fn are_zeros(trail: &Trail) -> bool {
    let (hopeful, dual) = trail.tables();
    hopeful.values() == [0, 0].as_slice() && dual.values() == [0, 0].as_slice()
}

/// Looks at a trail of four decisions.
pub(crate) fn look(trail: &Trail) -> End {
    if trail.entries().len() != 4 {
        return End::Otherwise;
    }
    done_if(are_zeros(trail) && [trail.level(0), trail.level(3)] == [0, 3])
}

/// Whether a trail has this many entries, each the first decision.
pub(crate) fn is_of_first(trail: &Trail, entries: usize) -> bool {
    trail.entries().len() == entries && are_first(trail.entries()) && are_zeros(trail)
}
