//! The entries of a page that stay once a decision is retracted, or once all are.
ghost use Rattle.std.specs.Prelude.{[], ◌≡◌, ◌+◌, ◌<◌, length, map, filter, not, take, drop, replicate, All, option_to_list, IfOk, IfSome};
ghost use Rattle.vpg_trail.specs.Page.{Hopeful, Dual, assumes as assumes_of, free_after, reset_all};
ghost use Rattle.vpg_trail.specs.Shown.{entry_of, VertexBelow, keeps, lift_stays, what_stays};
ghost use Rattle.vpg_trail.specs.WellFormed.{LiftsStandAfter};

use crate::entry::{Assumed, Entry};
use crate::replay::{replay, take_in};
use std::alloc::{AllocError, Global};
use vpg_measure::Table;
use vpg_sides::Which;

/// Whether a lift that assumed these decisions stays.
fn lift_stays(under: &Assumed, feature: Option<u16>) -> bool
    ensures { result ≡ lift_stays feature under.now }
{
    match feature {
        Some(feature) => !under.has(feature),
        None => under.is_empty(),
    }
}

/// Returns the entry with the old value that the tables give, if it did not assume the feature. If there is no feature,
/// every decision is retracted: then it is a lift that assumed none.
fn reset_entry(
    entry: &Entry,
    feature: Option<u16>,
    hopeful: &Table,
    dual: &Table,
) -> Result<Option<Entry>, AllocError>
    requires hopeful { VertexBelow (length hopeful.now) (entry_of entry.now) }
    requires dual { VertexBelow (length dual.now) (entry_of entry.now) }
    ensures stays { IfOk result
        (λ stays. map entry_of (option_to_list stays) ≡ what_stays feature hopeful.now dual.now (entry_of entry.now)) }
    ensures hopeful { IfOk result (λ stays. IfSome stays (λ e. VertexBelow (length hopeful.now) (entry_of e))) }
    ensures dual { IfOk result (λ stays. IfSome stays (λ e. VertexBelow (length dual.now) (entry_of e))) }
{
    match entry {
        Entry::Decide(decision) => match feature {
            Some(_) => Ok(Some(Entry::Decide(*decision))),
            None => Ok(None),
        },
        Entry::Lift {
            table,
            vertex,
            new,
            under,
            ..
        } => {
            if !lift_stays(under, feature) {
                return Ok(None);
            }
            let old = match table {
                Which::Hopeful => hopeful.get(*vertex),
                Which::Dual => dual.get(*vertex),
            };
            Ok(Some(Entry::Lift {
                table: *table,
                vertex: *vertex,
                old,
                new: *new,
                under: under.clone()?,
            }))
        }
    }
}

/// Returns the table that no entries give.
fn zeros(alloc: Global, vertices: u32) -> Result<Table, AllocError>
    ensures { IfOk result (λ table. table ≡ replicate vertices 0) }
{
    Ok(Table::of(vec![in alloc; 0; vertices as usize]?))
}

/// Returns the entries after the decision at `place`, on this feature, once it is retracted. These are the later
/// entries in their order, without each lift that assumed the feature. They have the old values that the entries now
/// before them give.
pub fn kept_after(
    alloc: Global,
    entries: &[Entry],
    place: usize,
    feature: u16,
    vertices: u32,
) -> Result<Vec<Entry>, AllocError>
    requires place { place < length entries.now }
    requires vertices { All (λ e. VertexBelow vertices (entry_of e)) entries.now }
    ensures kept { IfOk result
        (λ kept. map entry_of kept.items
        ≡ reset_all (map entry_of (take place entries.now))
        (filter (λ e. not (assumes_of feature e)) (map entry_of (drop (place + 1) entries.now)))) }
    ensures vertices { IfOk result (λ kept. All (λ e. VertexBelow vertices (entry_of e)) kept.items) }
    ensures lifts { IfOk result
        (λ kept. LiftsStandAfter [] (map entry_of entries.now) →
        LiftsStandAfter (map entry_of (take place entries.now)) (map entry_of kept.items)) }
{
    staying_after(alloc, entries, place, Some(feature), vertices)
}

/// Returns the entries after the first decision, at `place`, once every decision is retracted. These are the later
/// lifts in their order that assumed none. They have the old values that the entries now before them give.
pub fn free_lifts_after(
    alloc: Global,
    entries: &[Entry],
    place: usize,
    vertices: u32,
) -> Result<Vec<Entry>, AllocError>
    requires place { place < length entries.now }
    requires vertices { All (λ e. VertexBelow vertices (entry_of e)) entries.now }
    ensures kept { IfOk result
        (λ kept. map entry_of kept.items
        ≡ free_after (map entry_of (take place entries.now)) (map entry_of (drop (place + 1) entries.now))) }
    ensures vertices { IfOk result (λ kept. All (λ e. VertexBelow vertices (entry_of e)) kept.items) }
    ensures lifts { IfOk result
        (λ kept. LiftsStandAfter [] (map entry_of entries.now) →
        LiftsStandAfter (map entry_of (take place entries.now)) (map entry_of kept.items)) }
{
    staying_after(alloc, entries, place, None, vertices)
}

/// Returns the entries after the decision at `place` that stay once this feature's decision is retracted, or every one.
fn staying_after(
    alloc: Global,
    entries: &[Entry],
    place: usize,
    feature: Option<u16>,
    vertices: u32,
) -> Result<Vec<Entry>, AllocError>
    requires place { place < length entries.now }
    requires vertices { All (λ e. VertexBelow vertices (entry_of e)) entries.now }
    ensures kept { IfOk result
        (λ kept. map entry_of kept.items
        ≡ reset_all (map entry_of (take place entries.now))
        (filter (keeps feature) (map entry_of (drop (place + 1) entries.now)))) }
    ensures vertices { IfOk result (λ kept. All (λ e. VertexBelow vertices (entry_of e)) kept.items) }
    ensures lifts { IfOk result
        (λ kept. LiftsStandAfter [] (map entry_of entries.now) →
        LiftsStandAfter (map entry_of (take place entries.now)) (map entry_of kept.items)) }
{
    let mut hopeful = zeros(alloc, vertices)?;
    let mut dual = zeros(alloc, vertices)?;
    replay(&entries[..place], &mut hopeful, &mut dual, vertices);
    let mut kept = Vec::new(alloc);
    for entry in &entries[place + 1..] {
        if let Some(stays) = reset_entry(entry, feature, &hopeful, &dual)? {
            take_in(&mut hopeful, &mut dual, &stays);
            kept.push(stays)?;
        }
    }
    Ok(kept)
}
