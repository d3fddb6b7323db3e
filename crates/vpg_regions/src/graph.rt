//! Flat parity games, for guesses.
use crate::per_vertex::PerVertex;
use std::alloc::{AllocError, Global};
use vpg_sides::Player;

/// A list for each vertex, one after another.
struct Lists {
    // where each list ends
    ends: Vec<u32>,
    items: Vec<u32>,
}

// Not derived: a derived `drop` would be proved again at each exit that owns such a value.
impl Drop for Lists {
    fn drop(self) {
        let Lists { ends: _, items: _ } = self;
    }
}

impl Lists {
    fn of(&self, v: u32) -> &[u32] {
        let start = match v.checked_sub(1) {
            Some(before) => self.end(before),
            None => 0,
        };
        let end = self.end(v);
        if start <= end && end <= self.items.len() {
            &self.items[start..end]
        } else {
            &[]
        }
    }

    fn end(&self, v: u32) -> usize {
        match self.ends.get(v as usize) {
            Some(end) => *end as usize,
            None => 0,
        }
    }

    // Ends the list of the next vertex here, and returns whether there was memory for that.
    fn end_here(&mut self) -> bool {
        let end = u32::try_from(self.items.len()).unwrap_or(u32::MAX);
        self.ends.push(end).is_ok()
    }
}

// For each vertex, the number of places that the lists of lesser vertices take, from the length of each list.
fn places_before(counts: &mut Vec<u32>) {
    let mut before = 0u32;
    for v in 0..counts.len() {
        let count = counts[v];
        counts[v] = before;
        before = before.saturating_add(count);
    }
}

// Counts each of these vertices once more.
fn count_each(vertices: &[u32], counts: &mut Vec<u32>) {
    for w in vertices {
        let at = *w as usize;
        if at < counts.len() {
            counts[at] = counts[at].saturating_add(1);
        }
    }
}

// Writes v to the next place of each of these vertices.
fn put_back(v: u32, vertices: &[u32], places: &mut Vec<u32>, items: &mut Vec<u32>) {
    for w in vertices {
        let at = *w as usize;
        if at < places.len() {
            let place = places[at] as usize;
            places[at] = places[at].saturating_add(1);
            if place < items.len() {
                items[place] = v;
            }
        }
    }
}

/// For each vertex, the vertices that move to it.
pub struct Predecessors {
    count: u32,
    lists: Lists,
}

// Not derived: a derived `drop` would be proved again at each exit that owns such a value.
impl Drop for Predecessors {
    fn drop(self) {
        let Predecessors { count: _, lists: _ } = self;
    }
}

/// The number of vertices that move to each vertex, while it is counted.
pub struct Arrivals {
    counts: Vec<u32>,
    edges: usize,
}

// Not derived: a derived `drop` would be proved again at each exit that owns such a value.
impl Drop for Arrivals {
    fn drop(self) {
        let Arrivals {
            counts: _,
            edges: _,
        } = self;
    }
}

impl Arrivals {
    /// Returns a count for this many vertices, with none counted yet.
    pub fn none(alloc: Global, vertices: u32) -> Result<Arrivals, AllocError> {
        let counts = vec![in alloc; 0u32; vertices as usize]?;
        Ok(Arrivals { counts, edges: 0 })
    }

    /// Counts the moves of one vertex to these.
    pub fn count(&mut self, successors: &[u32]) {
        count_each(successors, &mut self.counts);
        self.edges = self.edges.saturating_add(successors.len());
    }

    /// Returns places for the vertices that move to each vertex; none is written yet.
    pub fn into_places(self, alloc: Global) -> Result<Places, AllocError> {
        let items = vec![in alloc; 0u32; self.edges]?;
        let mut ends = self.into_counts();
        places_before(&mut ends);
        Ok(Places { ends, items })
    }

    fn into_counts(self) -> Vec<u32> {
        let Arrivals { counts, edges: _ } = self;
        counts
    }
}

/// For each vertex, the vertices that move to it, while they are written: each vertex once, in ascending order.
pub struct Places {
    // the end of each list so far
    ends: Vec<u32>,
    items: Vec<u32>,
}

// Not derived: a derived `drop` would be proved again at each exit that owns such a value.
impl Drop for Places {
    fn drop(self) {
        let Places { ends: _, items: _ } = self;
    }
}

impl Places {
    /// Writes that a vertex moves to these.
    pub fn write(&mut self, v: u32, successors: &[u32]) {
        put_back(v, successors, &mut self.ends, &mut self.items);
    }

    /// Returns the finished lists.
    pub fn finish(self) -> Predecessors {
        let Places { ends, items } = self;
        let count = u32::try_from(ends.len()).unwrap_or(u32::MAX);
        let lists = Lists { ends, items };
        Predecessors { count, lists }
    }
}

impl Predecessors {
    // The predecessors along these lists of moves.
    fn of_lists(alloc: Global, successors: &Lists, count: u32) -> Result<Predecessors, AllocError> {
        let mut arrivals = Arrivals::none(alloc, count)?;
        arrivals.count(&successors.items);
        let mut places = arrivals.into_places(alloc)?;
        for v in 0..count {
            places.write(v, successors.of(v));
        }
        Ok(places.finish())
    }

    pub fn vertices(&self) -> u32 {
        self.count
    }

    /// Returns the number of edges and vertices.
    pub fn size(&self) -> u64 {
        u64::from(self.count).saturating_add(self.lists.items.len() as u64)
    }

    /// Returns the number of edges.
    pub fn edges(&self) -> usize {
        self.lists.items.len()
    }

    /// Returns the vertices that move to a vertex.
    pub fn before(&self, v: u32) -> &[u32] {
        self.lists.of(v)
    }
}

/// A game that is being written down, vertex by vertex. If memory was refused, this is noted, and reported at the end.
pub struct Draft {
    count: u32,
    is_refused: bool,
    owners: Vec<Player>,
    priorities: Vec<u32>,
    successors: Lists,
}

// Not derived: a derived `drop` would be proved again at each exit that owns such a value.
impl Drop for Draft {
    fn drop(self) {
        let Draft {
            count: _,
            is_refused: _,
            owners: _,
            priorities: _,
            successors: _,
        } = self;
    }
}

impl Draft {
    pub fn new(alloc: Global) -> Draft {
        Draft {
            count: 0,
            is_refused: false,
            owners: Vec::new(alloc),
            priorities: Vec::new(alloc),
            successors: Lists {
                ends: Vec::new(alloc),
                items: Vec::new(alloc),
            },
        }
    }

    /// Returns a draft with room for this many vertices and edges.
    pub fn with_room(alloc: Global, vertices: usize, edges: usize) -> Result<Draft, AllocError> {
        Ok(Draft {
            count: 0,
            is_refused: false,
            owners: Vec::with_capacity(alloc, vertices)?,
            priorities: Vec::with_capacity(alloc, vertices)?,
            successors: Lists {
                ends: Vec::with_capacity(alloc, vertices)?,
                items: Vec::with_capacity(alloc, edges)?,
            },
        })
    }

    // Notes if there was no memory for something.
    fn note(&mut self, has_grown: bool) {
        if !has_grown {
            self.is_refused = true;
        }
    }

    /// Adds an edge of the vertex that comes next.
    pub fn edge(&mut self, to: u32) {
        let grown = self.successors.items.push(to).is_ok();
        self.note(grown);
    }

    /// Adds edges of the vertex that comes next.
    pub fn edges(&mut self, to: &[u32]) {
        let grown = self.successors.items.extend_from_slice(to).is_ok();
        self.note(grown);
    }

    /// Adds a vertex with the edges since the last one.
    pub fn vertex(&mut self, owner: Player, priority: u32) {
        let owned = self.owners.push(owner).is_ok();
        let counted = self.priorities.push(priority).is_ok();
        let ended = self.successors.end_here();
        self.note(owned && counted && ended);
        self.count = self.count.saturating_add(1);
    }

    /// Returns the game, with the fewest priorities that keep the winners.
    pub fn finish(self, alloc: Global) -> Result<Graph, AllocError> {
        let predecessors = Predecessors::of_lists(alloc, &self.successors, self.count)?;
        self.finish_with(alloc, predecessors)
    }

    /// Returns the game with the fewest priorities, for known predecessors.
    pub fn finish_with(
        self,
        alloc: Global,
        predecessors: Predecessors,
    ) -> Result<Graph, AllocError> {
        let mut draft = self;
        draft.merge(alloc)?;
        Ok(draft.with(predecessors))
    }

    fn merge(&mut self, alloc: Global) -> Result<(), AllocError> {
        if self.is_refused {
            return Err(AllocError);
        }
        let occurs = occurring(alloc, &self.priorities)?;
        let merged = merged(alloc, &occurs)?;
        for priority in &mut self.priorities {
            *priority = merged.get(*priority);
        }
        Ok(())
    }

    // The game as it is written, for known predecessors.
    fn with(self, predecessors: Predecessors) -> Graph {
        let Draft {
            count,
            is_refused: _,
            owners,
            priorities,
            successors,
        } = self;
        Graph {
            count,
            owners,
            priorities,
            successors,
            predecessors,
        }
    }
}

/// A parity game with the edges of each vertex both ways.
pub struct Graph {
    count: u32,
    owners: Vec<Player>,
    priorities: Vec<u32>,
    successors: Lists,
    predecessors: Predecessors,
}

// Not derived: a derived `drop` would be proved again at each exit that owns such a value.
impl Drop for Graph {
    fn drop(self) {
        let Graph {
            count: _,
            owners: _,
            priorities: _,
            successors: _,
            predecessors: _,
        } = self;
    }
}

// Whether each priority up to the greatest occurs.
fn occurring(alloc: Global, priorities: &[u32]) -> Result<PerVertex<bool>, AllocError> {
    let mut greatest = 0;
    for priority in priorities {
        greatest = greatest.max(*priority);
    }
    let mut occurs = PerVertex::of(alloc, greatest.saturating_add(1), false)?;
    for priority in priorities {
        occurs.set(*priority, true);
    }
    Ok(occurs)
}

// For each priority one of the same parity. Priorities of one parity with none of the other between them become the
// same.
fn merged(alloc: Global, occurs: &PerVertex<bool>) -> Result<PerVertex<u32>, AllocError> {
    let mut merged = PerVertex::of(alloc, occurs.count(), 0)?;
    let mut last = 0u32;
    for p in 0..occurs.count() {
        if occurs.get(p) {
            last = last.saturating_add((last % 2 + p % 2) % 2);
            merged.set(p, last);
        }
    }
    Ok(merged)
}

impl Graph {
    pub fn vertices(&self) -> u32 {
        self.count
    }

    /// Returns the number of edges and vertices.
    pub fn size(&self) -> u64 {
        u64::from(self.count).saturating_add(self.successors.items.len() as u64)
    }

    pub fn owner(&self, v: u32) -> Player {
        match self.owners.get(v as usize) {
            Some(owner) => *owner,
            None => Player::Even,
        }
    }

    pub fn priority(&self, v: u32) -> u32 {
        match self.priorities.get(v as usize) {
            Some(priority) => *priority,
            None => 0,
        }
    }

    pub fn successors(&self, v: u32) -> &[u32] {
        self.successors.of(v)
    }

    pub fn predecessors(&self, v: u32) -> &[u32] {
        self.predecessors.before(v)
    }

    /// Returns the vertices that move to each vertex.
    pub fn predecessor_lists(&self) -> &Predecessors {
        &self.predecessors
    }

    /// Returns the vertices that move to each vertex, and discards the rest.
    pub fn into_predecessor_lists(self) -> Predecessors {
        let Graph {
            count: _,
            owners: _,
            priorities: _,
            successors: _,
            predecessors,
        } = self;
        predecessors
    }

    /// Returns some vertices in another order: those of greater priorities come first.
    pub fn by_priority(&self, alloc: Global, vertices: &[u32]) -> Result<Vec<u32>, AllocError> {
        let greatest = self.greatest_priority(vertices);
        let mut counts = vec![in alloc; 0u32; (greatest as usize).saturating_add(1)]?;
        for v in vertices {
            count_each(&[greatest.saturating_sub(self.priority(*v))], &mut counts);
        }
        places_before(&mut counts);
        let mut sorted = vec![in alloc; 0u32; vertices.len()]?;
        for v in vertices {
            let below = greatest.saturating_sub(self.priority(*v));
            put_back(*v, &[below], &mut counts, &mut sorted);
        }
        Ok(sorted)
    }

    /// Returns the greatest priority of some vertices.
    pub fn greatest_priority(&self, vertices: &[u32]) -> u32 {
        let mut greatest = 0;
        for v in vertices {
            greatest = greatest.max(self.priority(*v));
        }
        greatest
    }
}
