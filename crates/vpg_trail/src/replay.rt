//! The tables that entries give, entry by entry.
ghost use Rattle.std.specs.Prelude.{List, ◌≡◌, ◌++◌, ◌<◌, max, length, map, replicate, slice_index, slice_set, All, IfOk};
ghost use Rattle.vpg_trail.specs.Page.{Hopeful, Dual, table_of, Entry as Step};
ghost use Rattle.vpg_trail.specs.Shown.{entry_of, VertexBelow, after_entry, before_entry};
ghost use Rattle.vpg_trail.specs.WellFormed.{LiftsStandAfter};

use crate::entry::Entry;
use std::alloc::{AllocError, Global};
use vpg_measure::Table;
use vpg_sides::Which;

/// Raises a value.
fn raise(values: &mut Table, vertex: u32, new: u64)
    requires { vertex < length values.old }
    ensures { values.new ≡ slice_set values.old vertex (max (slice_index values.old vertex) new) }
{
    let old = values.get(vertex);
    values.set(vertex, old.max(new));
}

/// Adds one more entry to the two tables.
pub(crate) fn take_in(hopeful: &mut Table, dual: &mut Table, entry: &Entry)
    requires hopeful { VertexBelow (length hopeful.old) (entry_of entry.now) }
    requires dual { VertexBelow (length dual.old) (entry_of entry.now) }
    ensures hopeful { hopeful.new ≡ after_entry Hopeful hopeful.old (entry_of entry.now) }
    ensures dual { dual.new ≡ after_entry Dual dual.old (entry_of entry.now) }
    ensures hopeful_len { length hopeful.new ≡ length hopeful.old }
    ensures dual_len { length dual.new ≡ length dual.old }
{
    match entry {
        Entry::Decide(_) => {}
        Entry::Lift {
            table,
            vertex,
            new,
            ..
        } => match table {
            Which::Hopeful => raise(hopeful, *vertex, *new),
            Which::Dual => raise(dual, *vertex, *new),
        },
    }
}

/// Adds further entries to the two tables of a page.
pub(crate) fn take_all(entries: &[Entry], hopeful: &mut Table, dual: &mut Table, vertices: u32)
    requires below { All (λ e. VertexBelow vertices (entry_of e)) entries.now }
    requires hopeful_len { length hopeful.old ≡ vertices }
    requires dual_len { length dual.old ≡ vertices }
    ensures hopeful { (page : List Step) → hopeful.old ≡ table_of Hopeful page vertices →
        hopeful.new ≡ table_of Hopeful (page ++ map entry_of entries.now) vertices }
    ensures dual { (page : List Step) → dual.old ≡ table_of Dual page vertices →
        dual.new ≡ table_of Dual (page ++ map entry_of entries.now) vertices }
{
    for entry in entries {
        take_in(hopeful, dual, entry);
    }
}

/// Removes the last entry from the two tables.
fn take_back(hopeful: &mut Table, dual: &mut Table, entry: &Entry)
    requires hopeful { VertexBelow (length hopeful.old) (entry_of entry.now) }
    requires dual { VertexBelow (length dual.old) (entry_of entry.now) }
    ensures hopeful { hopeful.new ≡ before_entry Hopeful hopeful.old (entry_of entry.now) }
    ensures dual { dual.new ≡ before_entry Dual dual.old (entry_of entry.now) }
    ensures hopeful_len { length hopeful.new ≡ length hopeful.old }
    ensures dual_len { length dual.new ≡ length dual.old }
{
    match entry {
        Entry::Decide(_) => {}
        Entry::Lift {
            table,
            vertex,
            old,
            ..
        } => match table {
            Which::Hopeful => hopeful.set(*vertex, *old),
            Which::Dual => dual.set(*vertex, *old),
        },
    }
}

/// Removes the last entries of a page from its two tables, from the last to the first.
pub(crate) fn take_all_back(entries: &[Entry], hopeful: &mut Table, dual: &mut Table, vertices: u32)
    requires below { All (λ e. VertexBelow vertices (entry_of e)) entries.now }
    requires hopeful_len { length hopeful.old ≡ vertices }
    requires dual_len { length dual.old ≡ vertices }
    ensures hopeful { (page : List Step) → LiftsStandAfter page (map entry_of entries.now) →
        hopeful.old ≡ table_of Hopeful (page ++ map entry_of entries.now) vertices →
        hopeful.new ≡ table_of Hopeful page vertices }
    ensures dual { (page : List Step) → LiftsStandAfter page (map entry_of entries.now) →
        dual.old ≡ table_of Dual (page ++ map entry_of entries.now) vertices → dual.new ≡ table_of Dual page vertices }
    ensures hopeful_kept { length hopeful.new ≡ vertices }
    ensures dual_kept { length dual.new ≡ vertices }
{
    for place in (0..entries.len()).rev() {
        take_back(hopeful, dual, &entries[place]);
    }
}

/// Sets two tables of zeros to those that entries give.
pub(crate) fn replay(entries: &[Entry], hopeful: &mut Table, dual: &mut Table, vertices: u32)
    requires below { All (λ e. VertexBelow vertices (entry_of e)) entries.now }
    requires hopeful_zeros { hopeful.old ≡ replicate vertices 0 }
    requires dual_zeros { dual.old ≡ replicate vertices 0 }
    ensures hopeful { hopeful.new ≡ table_of Hopeful (map entry_of entries.now) vertices }
    ensures dual { dual.new ≡ table_of Dual (map entry_of entries.now) vertices }
{
    take_all(entries, hopeful, dual, vertices);
}
