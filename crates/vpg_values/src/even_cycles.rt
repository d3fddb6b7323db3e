//! Cycles of an even priority on which the values above it stay equal. Values fall along them.
use crate::ground::value_in;
use crate::scale::Scale;
use crate::subgame::{Solved, Subgame};
use std::alloc::{AllocError, Global};
use vpg_regions::{Budget, Found, Graph, PerVertex};
use vpg_sides::Player;

/// The values of a strategy, and the table that they lie above.
#[derive(Drop)]
pub struct Level<'a> {
    pub graph: &'a Graph,
    pub scale: &'a Scale,
    pub table: &'a [u64],
    pub values: &'a PerVertex<u64>,
}

// A vertex, and the greatest even priority at which it may fall.
#[derive(Clone, Copy)]
struct Fall {
    v: u32,
    greatest: u32,
}

impl<'a> Level<'a> {
    fn may_fall(&self, v: u32, weight: u64) -> bool {
        let value = self.values.get(v);
        value < self.scale.top
            && self.scale.cut(value_in(self.table, v), weight) < self.scale.cut(value, weight)
    }

    // The even priorities that occur among some vertices, greatest first, each with one such vertex.
    fn evens(&self, alloc: Global, region: &[u32]) -> Result<Vec<u32>, AllocError> {
        let greatest = self.graph.greatest_priority(region);
        let mut of_priority = PerVertex::of(alloc, greatest.saturating_add(1), None)?;
        for v in region {
            of_priority.set(self.graph.priority(*v), Some(*v));
        }
        let mut each = Found::none(alloc);
        for below in 0..=greatest {
            let priority = greatest.saturating_sub(below);
            if priority % 2 == 0
                && let Some(v) = of_priority.get(priority)
            {
                each.add(v);
            }
        }
        each.list()
    }

    // The greatest even priority at which v may fall, if it is not below that of v.
    fn greatest_fall(&self, v: u32, evens: &[u32]) -> Option<u32> {
        let mut greatest = None;
        for even in evens.iter().rev() {
            let priority = self.graph.priority(*even);
            if self.graph.priority(v) <= priority {
                if !self.may_fall(v, self.scale.weight(*even)) {
                    break;
                }
                greatest = Some(priority);
            }
        }
        greatest
    }

    // The vertices of the region that may fall at some even priority, and the greatest such priority of each.
    fn falls(&self, alloc: Global, region: &[u32], evens: &[u32]) -> Result<Vec<Fall>, AllocError> {
        let mut falls = Found::none(alloc);
        for v in region {
            if let Some(greatest) = self.greatest_fall(*v, evens) {
                falls.add(Fall { v: *v, greatest });
            }
        }
        falls.list()
    }

    // Those up to this vertex's priority that may fall there; none if no vertex of that priority does. Where one may
    // fall, it may at each lesser even priority.
    fn falling(&self, alloc: Global, falls: &[Fall], even: u32) -> Result<Vec<u32>, AllocError> {
        let limit = self.graph.priority(even);
        let mut falling = Found::none(alloc);
        let mut attained = false;
        for fall in falls {
            let priority = self.graph.priority(fall.v);
            if priority <= limit && limit <= fall.greatest {
                attained = attained || priority == limit;
                falling.add(fall.v);
            }
        }
        if !attained {
            falling.clear();
        }
        falling.list()
    }

    // Solves the game of these vertices over edges to values that are no greater above the even priority.
    fn solved(
        &self,
        alloc: Global,
        falling: Vec<u32>,
        even: u32,
        budget: &mut Budget,
    ) -> Result<Solved, AllocError> {
        let mut game = Subgame::new(alloc, self.graph, falling)?;
        self.write_down(&mut game, self.scale.weight(even));
        game.solve(alloc, budget)
    }

    fn write_down(&self, game: &mut Subgame, weight: u64) {
        for at in 0..game.vertices.len() {
            if let Some(v) = game.vertices.get(at) {
                let vertex = *v;
                self.edges(game, vertex, weight);
                game.vertex(self.graph, vertex);
            }
        }
    }

    fn edges(&self, game: &mut Subgame, v: u32, weight: u64) {
        let mine = self.scale.cut(self.values.get(v), weight);
        let even = self.graph.owner(v) == Player::Even;
        for w in self.graph.successors(v) {
            let value = self.scale.cut(self.values.get(*w), weight);
            let stays = if even {
                value <= mine && game.has(*w)
            } else {
                mine <= value
            };
            if stays {
                game.edge(*w);
            }
        }
    }

    // Even's choices where it wins, or nothing if it wins nowhere.
    fn choices(
        &self,
        alloc: Global,
        solved: &Solved,
    ) -> Result<Option<Vec<(u32, u32)>>, AllocError> {
        let mut choices = Found::none(alloc);
        let mut wins = false;
        for v in solved.vertices() {
            if solved.winner(*v) == Some(Player::Even) {
                wins = true;
                if let Some(w) = solved.choice(*v) {
                    choices.add((*v, w));
                }
            }
        }
        if !wins {
            return Ok(None);
        }
        Ok(Some(choices.list()?))
    }

    // Choices of Even that go round cycles of one even priority, if it wins by some.
    fn choices_at(
        &self,
        alloc: Global,
        falls: &[Fall],
        even: u32,
        budget: &mut Budget,
    ) -> Result<Option<Vec<(u32, u32)>>, AllocError> {
        let falling = self.falling(alloc, falls, even)?;
        if falling.is_empty() {
            return Ok(None);
        }
        let solved = self.solved(alloc, falling, even, budget)?;
        self.choices(alloc, &solved)
    }

    /// Returns choices of Even in a region that go round such cycles, of the greatest even priority that has some.
    pub fn even_cycles(
        &self,
        alloc: Global,
        region: &[u32],
        budget: &mut Budget,
    ) -> Result<Vec<(u32, u32)>, AllocError> {
        let evens = self.evens(alloc, region)?;
        let falls = self.falls(alloc, region, &evens)?;
        for even in &evens {
            if budget.is_spent() {
                break;
            }
            budget.spend(falls.len());
            if let Some(choices) = self.choices_at(alloc, &falls, *even, budget)? {
                return Ok(choices);
            }
        }
        Ok(Vec::new(alloc))
    }
}
