//! The entries of one page, with the tables that they give.
ghost use Rattle.std.specs.Prelude.{◌≡◌, ◌+◌, ◌++◌, ◌∷◌, ◌≤◌, ◌<◌, [], length, map, take, drop, replicate, vec_len, All, IfOk, IfErr, OnOk, OnErr};
ghost use Rattle.vpg_measure.specs.Numbers.{AreZeroMeasures};
ghost use Rattle.vpg_trail.specs.Page.{Hopeful, Dual, table_of, decisions_of};
ghost use Rattle.vpg_trail.specs.Shown.{entry_of, VertexBelow};
ghost use Rattle.vpg_trail.specs.WellFormed.{LiftStands, LiftsStandAfter};

use crate::entry::Entry;
use crate::replay::{take_all, take_all_back, take_in};
use std::alloc::{AllocError, AllocFailed, Global};
use std::marker::Model;
use vpg_measure::{Shape, Table};

/// The entries of a page over a number of vertices. Its tables are those that the entries give.
pub struct Trail {
    vertices: u32,
    entries: Vec<Entry>,
    hopeful: Table,
    dual: Table,
}

// Not derived: a derived `drop` would be proved again at each exit that owns such a value.
impl Drop for Trail {
    fn drop(self) {
        let Trail {
            vertices: _,
            entries: _,
            hopeful: _,
            dual: _,
        } = self;
    }
}

impl Model for Trail {
    ghost use Rattle.std.specs.Prelude.{map};
    ghost use Rattle.vpg_trail.specs.Shown.{Track, IsTracked, entry_of};

    ghost Value = { Track };

    ghost view = { λ t. record { vertices = t.vertices; entries = map entry_of t.entries.items } };

    ghost invariant = { λ t. IsTracked t.vertices (map entry_of t.entries.items) t.hopeful t.dual };
}

/// Puts the suffix in place of the entries from a place on, and leaves those there.
fn exchange(
    entries: &mut Vec<Entry>,
    place: usize,
    suffix: &mut Vec<Entry>,
) -> Result<(), AllocError>
    requires { place ≤ vec_len entries.old }
    ensures entries { OnOk result (entries.new.items ≡ take place entries.old.items ++ suffix.old.items) }
    ensures suffix { OnOk result (suffix.new.items ≡ drop place entries.old.items) }
    ensures err_entries { OnErr result (entries.new.items ≡ entries.old.items) }
    ensures err_suffix { OnErr result (suffix.new.items ≡ suffix.old.items) }
{
    entries.reserve(suffix.len())?;
    let removed = entries.split_off(place)?;
    entries.append(suffix).unwrap();
    *suffix = removed;
    Ok(())
}

/// Returns the number of decisions among the entries.
fn count_decisions(entries: &[Entry]) -> usize
    ensures { result ≡ length (decisions_of (map entry_of entries.now)) }
{
    let mut count = 0;
    for entry in entries {
        if let Entry::Decide(_) = entry {
            count += 1;
        }
    }
    count
}

impl Trail {
    /// Returns a trail without entries: at each vertex both tables have the zero measure of their shape.
    pub fn open(
        alloc: Global,
        hopeful: &Shape,
        dual: &Shape,
        vertices: u32,
    ) -> Result<Trail, AllocError>
        ensures empty { IfOk result (λ trail. trail ≡ record { vertices = vertices; entries = [] }) }
        ensures hopeful { IfOk result
            (λ trail. AreZeroMeasures hopeful.now (table_of Hopeful trail.entries trail.vertices)) }
        ensures dual { IfOk result
            (λ trail. AreZeroMeasures dual.now (table_of Dual trail.entries trail.vertices)) }
    {
        Ok(Trail {
            vertices,
            entries: Vec::new(alloc),
            hopeful: Table::zero(alloc, hopeful, vertices)?,
            dual: Table::zero(alloc, dual, vertices)?,
        })
    }

    /// Returns the entries in their order. Each lift's old value is the one that the entries before it give, below its
    /// new one.
    pub fn entries(&self) -> &[Entry]
        ensures entries { map entry_of result.now ≡ self.now.entries }
        ensures vertices { All (λ e. VertexBelow self.now.vertices (entry_of e)) result.now }
        ensures lifts { LiftsStandAfter [] self.now.entries }
    {
        self.entries.as_slice()
    }

    /// Returns the number of vertices.
    pub fn vertices(&self) -> u32
        ensures { result ≡ self.now.vertices }
    {
        self.vertices
    }

    /// Returns the hopeful table.
    pub fn hopeful(&self) -> &Table
        ensures { result.now ≡ table_of Hopeful self.now.entries self.now.vertices }
    {
        &self.hopeful
    }

    /// Returns the dual table.
    pub fn dual(&self) -> &Table
        ensures { result.now ≡ table_of Dual self.now.entries self.now.vertices }
    {
        &self.dual
    }

    /// Returns both tables.
    pub fn tables(&self) -> (&Table, &Table)
        ensures hopeful { result.0.now ≡ table_of Hopeful self.now.entries self.now.vertices }
        ensures dual { result.1.now ≡ table_of Dual self.now.entries self.now.vertices }
    {
        (&self.hopeful, &self.dual)
    }

    /// Returns the number of decisions among the first entries.
    pub fn level(&self, place: usize) -> usize
        requires { place ≤ length self.now.entries }
        ensures { result ≡ length (decisions_of (take place self.now.entries)) }
    {
        count_decisions(&self.entries[..place])
    }

    /// Appends one entry. A lift's old value is the one that the others give, below its new one. The entry comes back
    /// if memory was refused; the trail is then as it was.
    pub fn append(&mut self, entry: Entry) -> Result<(), AllocFailed<Entry>>
        requires vertices { VertexBelow self.old.vertices (entry_of entry) }
        requires lifts { LiftStands self.old.entries (entry_of entry) }
        ensures appended { OnOk result
            (self.new ≡ record { vertices = self.old.vertices; entries = self.old.entries ++ entry_of entry ∷ [] }) }
        ensures err { OnErr result (self.new ≡ self.old) }
        ensures back { IfErr result (λ e. e.value ≡ entry) }
    {
        if self.entries.reserve(1).is_err() {
            return Err(AllocFailed { value: entry });
        }
        take_in(&mut self.hopeful, &mut self.dual, &entry);
        self.entries.push(entry).unwrap();
        Ok(())
    }

    /// Appends these entries. Each lift's old value is the one that the entries before it give, below its new one. The
    /// entries come back if memory was refused; the trail is then as it was.
    pub fn extend(&mut self, more: Vec<Entry>) -> Result<(), AllocFailed<Vec<Entry>>>
        requires vertices { All (λ e. VertexBelow self.old.vertices (entry_of e)) more.items }
        requires lifts { LiftsStandAfter self.old.entries (map entry_of more.items) }
        ensures extended { OnOk result
            (self.new ≡ record { vertices = self.old.vertices; entries = self.old.entries ++ map entry_of more.items }) }
        ensures err { OnErr result (self.new ≡ self.old) }
        ensures back { IfErr result (λ e. e.value.items ≡ more.items) }
    {
        let mut more = more;
        if self.entries.reserve(more.len()).is_err() {
            return Err(AllocFailed { value: more });
        }
        take_all(&more, &mut self.hopeful, &mut self.dual, self.vertices);
        self.entries.append(&mut more).unwrap();
        Ok(())
    }

    /// Puts the suffix in place of the entries from a place on, and returns those. Each lift's old value is the one
    /// that the entries before it give, below its new one. The tables change by the lifts of both suffixes alone. The
    /// suffix comes back if memory was refused; the trail is then as it was.
    pub fn splice(
        &mut self,
        place: usize,
        suffix: Vec<Entry>,
    ) -> Result<Vec<Entry>, AllocFailed<Vec<Entry>>>
        requires place { place ≤ length self.old.entries }
        requires vertices { All (λ e. VertexBelow self.old.vertices (entry_of e)) suffix.items }
        requires lifts { LiftsStandAfter (take place self.old.entries) (map entry_of suffix.items) }
        ensures spliced { OnOk result
            (self.new ≡ record { vertices = self.old.vertices; entries = take place self.old.entries ++ map entry_of suffix.items }) }
        ensures removed { IfOk result (λ removed. map entry_of removed.items ≡ drop place self.old.entries) }
        ensures removed_vertices { IfOk result
            (λ removed. All (λ e. VertexBelow self.old.vertices (entry_of e)) removed.items) }
        ensures removed_lifts { IfOk result
            (λ removed. LiftsStandAfter (take place self.old.entries) (map entry_of removed.items)) }
        ensures err { OnErr result (self.new ≡ self.old) }
        ensures back { IfErr result (λ e. e.value.items ≡ suffix.items) }
    {
        let mut suffix = suffix;
        match exchange(&mut self.entries, place, &mut suffix) {
            Ok(()) => {
                take_all_back(&suffix, &mut self.hopeful, &mut self.dual, self.vertices);
                take_all(
                    &self.entries[place..],
                    &mut self.hopeful,
                    &mut self.dual,
                    self.vertices,
                );
                Ok(suffix)
            }
            Err(_) => Err(AllocFailed { value: suffix }),
        }
    }
}
