//! Pages compared by value.

use vpg_trail::{Entry, Page};

/// Whether two entries are the same decision, or the same lift under the same decisions.
fn is_same_entry(one: &Entry, other: &Entry) -> bool {
    match (one, other) {
        (Entry::Decide(decision), Entry::Decide(another)) => *decision == *another,
        (
            Entry::Lift {
                table,
                vertex,
                old,
                new,
                under,
            },
            Entry::Lift {
                table: table_2,
                vertex: vertex_2,
                old: old_2,
                new: new_2,
                under: under_2,
            },
        ) => {
            *table == *table_2
                && [*vertex as u64, *old, *new] == [*vertex_2 as u64, *old_2, *new_2]
                && under.literals() == under_2.literals()
        }
        _ => false,
    }
}

fn are_same_entries(one: &[Entry], other: &[Entry]) -> bool {
    if one.len() != other.len() {
        return false;
    }
    for k in 0..one.len() {
        if !is_same_entry(&one[k], &other[k]) {
            return false;
        }
    }
    true
}

/// Whether two pages have the same decisions, tables and entries.
pub fn is_same_page(one: &Page, other: &Page) -> bool {
    one.decisions.as_slice() == other.decisions.as_slice()
        && one.hopeful.values() == other.hopeful.values()
        && one.dual.values() == other.dual.values()
        && are_same_entries(one.entries.as_slice(), other.entries.as_slice())
}
