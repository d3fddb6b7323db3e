//! The decisions that the entries of a page give, and a page by itself.
ghost use Rattle.std.specs.Prelude.{◌≡◌, ◌+◌, ◌<◌, [], ◌∷◌, length, map, take, drop, is_some, IfOk, IfSome, IfNone};
ghost use Rattle.vpg_trail.specs.Page.{Decided, Decision as Chosen, decisions_of, decision_on, has_decided, before_decision, after_decision};

use crate::entry::Entry;
use std::alloc::{AllocError, Global};
use std::marker::Model;
use vpg_measure::Table;
use vpg_partial::Decision;

/// Decisions in their order.
#[derive(Drop)]
pub struct Decisions {
    decisions: Vec<Decision>,
}

impl Model for Decisions {
    ghost use Rattle.std.specs.Prelude.{List};
    ghost use Rattle.vpg_partial.specs.declared.decision.Decision.{Decision};

    ghost Value = { List Decision };

    ghost view = { λ d. d.decisions.items };
}

impl Decisions {
    /// Makes it of a list, without memory.
    pub fn new(decisions: Vec<Decision>) -> Decisions
        ensures { result ≡ decisions.items }
    {
        Decisions { decisions }
    }

    /// Returns the list itself.
    pub fn into_vec(self) -> Vec<Decision>
        ensures { result.items ≡ self }
    {
        self.decisions
    }

    pub fn as_slice(&self) -> &[Decision]
        ensures { result.now ≡ self.now }
    {
        self.decisions.as_slice()
    }
}

/// Entries in their order; contracts see their assumed decisions as lists.
#[derive(Drop)]
pub struct Entries {
    items: Vec<Entry>,
}

impl Model for Entries {
    ghost use Rattle.std.specs.Prelude.{List, map};
    ghost use Rattle.vpg_trail.specs.Page.{Entry as Step};
    ghost use Rattle.vpg_trail.specs.Shown.{entry_of};

    ghost Value = { List Step };

    ghost view = { λ e. map entry_of e.items.items };
}

impl Entries {
    ghost use Rattle.vpg_trail.specs.Shown.{entry_of};

    /// Makes it of a list, without memory.
    pub fn new(items: Vec<Entry>) -> Entries
        ensures { result ≡ map entry_of items.items }
    {
        Entries { items }
    }

    /// Returns the list itself.
    pub fn into_vec(self) -> Vec<Entry>
        ensures { map entry_of result.items ≡ self }
    {
        self.items
    }

    pub fn as_slice(&self) -> &[Entry]
        ensures { map entry_of result.now ≡ self.now }
    {
        self.items.as_slice()
    }

    /// Returns a copy of the entries; their assumed decisions are shared.
    pub fn copy_of(alloc: Global, entries: &[Entry]) -> Result<Entries, AllocError>
        ensures { IfOk result (λ copy. copy ≡ map entry_of entries.now) }
    {
        let mut items = Vec::with_capacity(alloc, entries.len())?;
        for entry in entries {
            items.push(entry.copy()?)?;
        }
        Ok(Entries { items })
    }
}

/// A page by itself: its decisions, its two tables, and the entries that give them.
pub struct Page {
    pub decisions: Decisions,
    pub hopeful: Table,
    pub dual: Table,
    pub entries: Entries,
}

// Not derived: a derived `drop` would be proved again at each exit that owns such a value.
impl Drop for Page {
    fn drop(self) {
        let Page {
            decisions: _,
            hopeful: _,
            dual: _,
            entries: _,
        } = self;
    }
}

ghost use Rattle.vpg_trail.specs.Shown.{entry_of};

/// Returns the decisions among the entries, in their order.
pub fn decisions_among(alloc: Global, entries: &[Entry]) -> Result<Vec<Decision>, AllocError>
    ensures { IfOk result (λ ds. ds.items ≡ decisions_of (map entry_of entries.now)) }
{
    let mut decisions = Vec::new(alloc);
    for entry in entries {
        if let Entry::Decide(decision) = entry {
            decisions.push(*decision)?;
        }
    }
    Ok(decisions)
}

/// Returns the decision on a feature.
pub fn decided(entries: &[Entry], feature: u16) -> Option<Decision>
    ensures { result ≡ decision_on feature (map entry_of entries.now) }
{
    for entry in entries {
        if let Entry::Decide(decision) = entry {
            if decision.feature == feature {
                return Some(*decision);
            }
        }
    }
    None
}

/// Returns the place of the decision on a feature.
pub fn place_of(entries: &[Entry], feature: u16) -> Option<usize>
    ensures decided { is_some result ≡ has_decided feature (map entry_of entries.now) }
    ensures place { IfSome result (λ place. place < length entries.now) }
    ensures before { IfSome result
        (λ place. map entry_of (take place entries.now) ≡ before_decision feature (map entry_of entries.now)) }
    ensures after { IfSome result
        (λ place. map entry_of (drop (place + 1) entries.now) ≡ after_decision feature (map entry_of entries.now)) }
{
    for place in 0..entries.len() {
        if let Entry::Decide(decision) = &entries[place] {
            if decision.feature == feature {
                return Some(place);
            }
        }
    }
    None
}

/// Returns the place of the first decision.
pub fn first_decision(entries: &[Entry]) -> Option<usize>
    ensures none { IfNone result (decisions_of (map entry_of entries.now) ≡ []) }
    ensures place { IfSome result (λ place. place < length entries.now) }
    ensures before { IfSome result (λ place. decisions_of (map entry_of (take place entries.now)) ≡ []) }
    ensures decision { IfSome result
        (λ place. (d : Chosen) × (map entry_of (drop place entries.now)
        ≡ Decided d ∷ map entry_of (drop (place + 1) entries.now))) }
{
    for i in 0..entries.len() {
        if let Entry::Decide(_) = &entries[i] {
            return Some(i);
        }
    }
    None
}
