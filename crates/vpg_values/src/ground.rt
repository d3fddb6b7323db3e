//! The graphs and scales of a table that guesses of values use.
use crate::scale::Scale;
use std::alloc::{AllocError, Global};
use vpg_regions::{Found, Graph, PerVertex, Predecessors};

/// A part with less than one in this many of the vertices is small.
const SMALL_PART: usize = 4;

/// The graph and scale that lifts use: who moves to each vertex, and how measures grow for Even.
#[derive(Clone, Copy)]
pub struct LiftGround<'a> {
    pub predecessors: &'a Predecessors,
    pub even: &'a Scale,
}

impl LiftGround<'_> {
    pub fn vertices(self) -> u32 {
        self.predecessors.vertices()
    }

    /// Returns the number of looks for this many at each edge and vertex.
    pub fn looks(self, each: u64) -> u64 {
        self.predecessors.size().saturating_mul(each)
    }

    /// Whether this many vertices are most of all.
    pub fn are_most(self, count: usize) -> bool {
        self.vertices() as usize / 2 < count
    }

    /// Whether this many vertices are a small part of all.
    pub fn is_small_part(self, count: usize) -> bool {
        count < self.vertices() as usize / SMALL_PART
    }
}

/// The lists that lifts of one table use, made for some page of a game. Other pages have some other edges: the lists
/// may miss one that lifts would follow, and never cost a clause.
pub struct TableGround {
    pub predecessors: Predecessors,
    pub even: Scale,
}

// Not derived: a derived `drop` would be proved again at each exit that owns such a value.
impl Drop for TableGround {
    fn drop(self) {
        let TableGround {
            predecessors: _,
            even: _,
        } = self;
    }
}

impl TableGround {
    pub fn lifts(&self) -> LiftGround<'_> {
        LiftGround {
            predecessors: &self.predecessors,
            even: &self.even,
        }
    }

    pub fn into_parts(self) -> (Predecessors, Scale) {
        let TableGround { predecessors, even } = self;
        (predecessors, even)
    }
}

/// A graph, and how measures grow along its edges for either player.
pub struct GuessGround {
    pub graph: Graph,
    pub even: Scale,
    pub odd: Scale,
}

// Not derived: a derived `drop` would be proved again at each exit that owns such a value.
impl Drop for GuessGround {
    fn drop(self) {
        let GuessGround {
            graph: _,
            even: _,
            odd: _,
        } = self;
    }
}

impl GuessGround {
    /// Returns the lists that its lifts use, and discards the rest.
    pub fn into_lifts(self) -> TableGround {
        let GuessGround {
            graph,
            even,
            odd: _,
        } = self;
        TableGround {
            predecessors: graph.into_predecessor_lists(),
            even,
        }
    }

    /// Returns the graph and scale that lifts use.
    pub fn lifts(&self) -> LiftGround<'_> {
        LiftGround {
            predecessors: self.graph.predecessor_lists(),
            even: &self.even,
        }
    }

    /// Returns the vertices at the top.
    pub fn lost(&self, alloc: Global, table: &[u64]) -> Result<Vec<u32>, AllocError> {
        let mut lost = Found::none(alloc);
        for v in 0..self.graph.vertices() {
            if self.even.top <= value_in(table, v) {
                lost.add(v);
            }
        }
        lost.list()
    }

    /// Whether a table has these values, or greater ones.
    pub fn is_reached(&self, values: &PerVertex<u64>, table: &[u64]) -> bool {
        for v in 0..self.graph.vertices() {
            if value_in(table, v) < values.get(v) {
                return false;
            }
        }
        true
    }

    /// Returns the weights that values are cut to, stage by stage: the top, and those of the odd priorities, greatest
    /// first.
    pub fn weights(&self, alloc: Global) -> Result<Vec<u64>, AllocError> {
        let mut odd = Found::none(alloc);
        for v in 0..self.graph.vertices() {
            if self.graph.priority(v) % 2 == 1 {
                odd.add(self.even.weight(v));
            }
        }
        let mut sorted = odd.list()?;
        sorted.sort()?;
        let mut weights = Found::none(alloc);
        let mut last = self.even.top;
        weights.add(last);
        for weight in sorted.iter().rev() {
            if *weight < last {
                last = *weight;
                weights.add(last);
            }
        }
        weights.list()
    }
}

/// Returns a vertex's value in a table.
#[inline(always)]
pub fn value_in(table: &[u64], v: u32) -> u64 {
    match table.get(v as usize) {
        Some(value) => *value,
        None => 0,
    }
}
