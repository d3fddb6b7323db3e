//! Games over some of a graph's vertices.
use std::alloc::{AllocError, Global};
use vpg_regions::{Budget, Choices, Draft, Graph, Regions};
use vpg_sides::Player;
use vpg_tangles::solve_regions;

/// Some vertices of a graph under numbers of their own, and after them a dead end of Even, where Odd wins.
pub struct Subgame {
    pub vertices: Vec<u32>,
    places: Choices,
    sink: u32,
    draft: Draft,
}

// Not derived: a derived `drop` would be proved again at each exit that owns such a value.
impl Drop for Subgame {
    fn drop(self) {
        let Subgame {
            vertices: _,
            places: _,
            sink: _,
            draft: _,
        } = self;
    }
}

impl Subgame {
    pub fn new(alloc: Global, graph: &Graph, vertices: Vec<u32>) -> Result<Subgame, AllocError> {
        let mut places = Choices::none(alloc, graph.vertices())?;
        let mut sink = 0u32;
        for v in &vertices {
            places.set(*v, Some(sink));
            sink = sink.saturating_add(1);
        }
        Ok(Subgame {
            vertices,
            places,
            sink,
            draft: Draft::new(alloc),
        })
    }

    pub fn has(&self, v: u32) -> bool {
        self.places.get(v).is_some()
    }

    /// Adds an edge of the vertex that comes next; it leads to the dead end if w is not in the game.
    pub fn edge(&mut self, w: u32) {
        self.draft.edge(self.places.get(w).unwrap_or(self.sink));
    }

    /// Adds the next vertex, with the edges since the last one.
    pub fn vertex(&mut self, graph: &Graph, v: u32) {
        self.draft.vertex(graph.owner(v), graph.priority(v));
    }

    /// Solves the game.
    pub fn solve(self, alloc: Global, budget: &mut Budget) -> Result<Solved, AllocError> {
        let Subgame {
            vertices,
            places,
            sink: _,
            draft,
        } = self;
        let regions = solve_with_sink(alloc, draft, budget)?;
        Ok(Solved {
            vertices,
            places,
            regions,
        })
    }
}

// Solves a game with a dead end of Even after its vertices.
fn solve_with_sink(
    alloc: Global,
    draft: Draft,
    budget: &mut Budget,
) -> Result<Regions, AllocError> {
    let mut draft = draft;
    draft.vertex(Player::Even, 0);
    let graph = draft.finish(alloc)?;
    solve_regions(alloc, &graph, Vec::new(alloc), budget)
}

/// A game over some vertices, and its winners.
pub struct Solved {
    vertices: Vec<u32>,
    places: Choices,
    regions: Regions,
}

// Not derived: a derived `drop` would be proved again at each exit that owns such a value.
impl Drop for Solved {
    fn drop(self) {
        let Solved {
            vertices: _,
            places: _,
            regions: _,
        } = self;
    }
}

impl Solved {
    pub fn vertices(&self) -> &[u32] {
        &self.vertices
    }

    pub fn winner(&self, v: u32) -> Option<Player> {
        match self.places.get(v) {
            Some(place) => self.regions.winner(place),
            None => None,
        }
    }

    /// Returns the winner's choice, if it stays in the game.
    pub fn choice(&self, v: u32) -> Option<u32> {
        let place = self.places.get(v)?;
        let chosen = self.regions.choice(place)?;
        self.vertices.get(chosen as usize).copied()
    }

    pub fn has(&self, v: u32) -> bool {
        self.places.get(v).is_some()
    }
}
