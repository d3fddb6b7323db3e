//! The moving part of a game, under numbers of its own: all else is guessed to keep its value.
use crate::ground::{kept_in, owner_in, priority_in, scale_of_part};
use crate::raising::Raising;
use std::alloc::{AllocError, Global};
use vpg_hope::Arena;
use vpg_regions::{Budget, Choices, Draft, Found, Graph};
use vpg_sides::Player;
use vpg_tangles::solve_part;
use vpg_values::{Guess, GuessGround, RankedBounds, guess_table, ranked, value_in};

/// Vertices that move, and then the others that they move to, which have no moves here.
pub(crate) struct Part {
    ground: GuessGround,
    // the values that the table has there
    table: Vec<u64>,
    /// The vertices, by their numbers in the whole game.
    pub(crate) vertices: Vec<u32>,
    // those that move, by their numbers here
    moving: Vec<u32>,
}

// Not derived: a derived `drop` would be proved again at each exit that owns such a value.
impl Drop for Part {
    fn drop(self) {
        let Part {
            ground: _,
            table: _,
            vertices: _,
            moving: _,
        } = self;
    }
}

// The vertices of a part, and the place of each among them.
struct Numbered {
    vertices: Found<u32>,
    places: Choices,
    count: u32,
}

// Not derived: a derived `drop` would be proved again at each exit that owns such a value.
impl Drop for Numbered {
    fn drop(self) {
        let Numbered {
            vertices: _,
            places: _,
            count: _,
        } = self;
    }
}

impl Numbered {
    fn new(alloc: Global, vertices: u32) -> Result<Numbered, AllocError> {
        Ok(Numbered {
            vertices: Found::none(alloc),
            places: Choices::none(alloc, vertices)?,
            count: 0,
        })
    }

    fn into_vertices(self) -> Result<Vec<u32>, AllocError> {
        let Numbered {
            vertices,
            places: _,
            count: _,
        } = self;
        vertices.list()
    }

    // Numbers those of some vertices that have no number.
    fn add(&mut self, vertices: &[u32]) {
        for v in vertices {
            if self.places.get(*v).is_none() {
                self.places.set(*v, Some(self.count));
                self.count = self.count.saturating_add(1);
                self.vertices.add(*v);
            }
        }
    }

    // The values of a table of the whole game at these vertices.
    fn values(&self, alloc: Global, table: &[u64]) -> Result<Vec<u64>, AllocError> {
        let mut values = Found::with(Vec::with_capacity(alloc, self.vertices.len())?);
        for v in self.vertices.items() {
            values.add(value_in(table, *v));
        }
        values.list()
    }

    // The places of some of the vertices.
    fn places_of(&self, alloc: Global, vertices: &[u32]) -> Result<Vec<u32>, AllocError> {
        let mut places = Found::with(Vec::with_capacity(alloc, vertices.len())?);
        for v in vertices {
            places.add(self.places.get(*v).unwrap_or(0));
        }
        places.list()
    }
}

// The moving vertices first, and then those that they move to.
fn number(alloc: Global, arena: &Arena, moving: &[u32]) -> Result<Numbered, AllocError> {
    let mut numbered = Numbered::new(alloc, arena.vertices())?;
    numbered.add(moving);
    for v in moving {
        numbered.add(kept_in(arena, *v));
    }
    Ok(numbered)
}

// The game of a part: the vertices that do not move have no edges.
fn graph_of(
    alloc: Global,
    arena: &Arena,
    numbered: &Numbered,
    moving: usize,
) -> Result<Graph, AllocError> {
    let mut draft = Draft::new(alloc);
    write_down(arena, numbered, moving, &mut draft);
    draft.finish(alloc)
}

fn write_down(arena: &Arena, numbered: &Numbered, moving: usize, draft: &mut Draft) {
    for at in 0..numbered.vertices.len() {
        if let Some(v) = numbered.vertices.get(at) {
            if at < moving {
                add_edges(arena, numbered, draft, v);
            }
            draft.vertex(owner_in(arena, v), priority_in(arena, v));
        }
    }
}

fn add_edges(arena: &Arena, numbered: &Numbered, draft: &mut Draft, v: u32) {
    for w in kept_in(arena, v) {
        draft.edge(numbered.places.get(*w).unwrap_or(0));
    }
}

// The ground of a part.
fn ground_of(
    raising: &Raising<'_>,
    numbered: &Numbered,
    moving: usize,
) -> Result<GuessGround, AllocError> {
    let (alloc, arena) = (raising.alloc, raising.arena);
    let vertices = numbered.vertices.items();
    let even = scale_of_part(alloc, arena, raising.shape, Player::Even, vertices)?;
    let odd = scale_of_part(alloc, arena, raising.dual_shape, Player::Odd, vertices)?;
    let graph = graph_of(alloc, arena, numbered, moving)?;
    Ok(GuessGround { graph, even, odd })
}

impl Part {
    /// Returns the part of these vertices, each of which is there once.
    pub(crate) fn of(raising: &Raising<'_>, moving: &[u32]) -> Result<Part, AllocError> {
        let alloc = raising.alloc;
        let numbered = number(alloc, raising.arena, moving)?;
        let values = numbered.values(alloc, raising.table.values())?;
        let own = numbered.places_of(alloc, moving)?;
        let ground = ground_of(raising, &numbered, moving.len())?;
        Ok(Part {
            ground,
            table: values,
            vertices: numbered.into_vertices()?,
            moving: own,
        })
    }

    // A guess of the values of the moving vertices, tops with them.
    fn guess(&self, alloc: Global, budget: &mut Budget) -> Result<Guess, AllocError> {
        let lost = self.ground.lost(alloc, &self.table)?;
        let mut share = budget.take_half();
        let regions = solve_part(alloc, &self.ground.graph, &lost, &self.moving, &mut share)?;
        budget.give_back(share);
        guess_table(
            alloc,
            &self.ground,
            &regions,
            &self.table,
            &self.moving,
            budget,
        )
    }

    /// Returns bounds and ranks for a guess of the moving values; `None` if it exceeds the table nowhere.
    pub(crate) fn ranked(
        &self,
        alloc: Global,
        budget: &mut Budget,
    ) -> Result<Option<RankedBounds>, AllocError> {
        let mut share = budget.take_half();
        let guess = self.guess(alloc, &mut share)?;
        budget.give_back(share);
        ranked(alloc, &self.ground, &guess, &self.table, 1, budget)
    }
}
