//! The lifts that raise a page to a table.
ghost use Rattle.std.specs.Prelude.{List, ◌≡◌, ◌≤◌, length, map, All, IfOk};
ghost use Rattle.vpg_trail.specs.Page.{table_of, raises, Entry as Step};
ghost use Rattle.vpg_trail.specs.Shown.{entry_of, VertexBelow};

use crate::entry::{Assumed, Entry};
use std::alloc::{AllocError, Global};
use std::sync::Arc;
use vpg_measure::Table;
use vpg_sides::Which;

/// Returns one lift for each value above the present one, in the order of the vertices: the lifts of every page that
/// has this present table.
pub fn lifts(
    alloc: Global,
    table: Which,
    present: &Table,
    values: &Table,
    under: &Arc<Assumed>,
    vertices: u32,
) -> Result<Vec<Entry>, AllocError>
    requires present { length present.now ≡ vertices }
    requires values { length values.now ≡ vertices }
    ensures lifts { IfOk result
        (λ lifts. (page : List Step) → present.now ≡ table_of table page vertices →
        map entry_of lifts.items ≡ raises under.now.value page table values.now vertices) }
    ensures vertices { IfOk result (λ lifts. All (λ e. VertexBelow vertices (entry_of e)) lifts.items) }
{
    let mut lifts = Vec::new(alloc);
    for vertex in 0..vertices {
        let old = present.get(vertex);
        let new = values.get(vertex);
        if old < new {
            lifts.push(Entry::Lift {
                table,
                vertex,
                old,
                new,
                under: under.clone()?,
            })?;
        }
    }
    Ok(lifts)
}
