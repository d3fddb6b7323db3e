//! Shapes: the odd priorities of a game, and the numbers of its measures.

ghost use Rattle.std.specs.Prelude.{◌≡◌, ◌+◌, ◌≤◌, ◌↔◌, ℕ, suc, IfOk, map};
ghost use Rattle.vpg_game.specs.Game.{graph_of};
ghost use Rattle.vpg_game.specs.Guarded.{guarded_priorities, dual};
ghost use Rattle.vpg_game.specs.Levels.{top_of, weight_of, levels_of, prog_of};
ghost use Rattle.vpg_measure.specs.Lifts.{NumberFitsEdge};
ghost use Rattle.vpg_measure.specs.TwoGames.{levels_for};

use std::alloc::{AllocError, Global};
use std::marker::Model;
use vpg_game::{GuardedGame, Level, TOP_LIMIT, odd_counts};
use vpg_sides::Which;

/// The levels of a game, greatest priority first.
pub struct Shape {
    // from the least priority up
    levels: Vec<Level>,
    // of each priority up to the greatest, and of the next
    weights: Vec<u64>,
    top: u64,
}

// Not derived: a derived `drop` would be proved again at each exit that owns such a value.
impl Drop for Shape {
    fn drop(self) {
        let Shape {
            levels: _,
            weights: _,
            top: _,
        } = self;
    }
}

impl Model for Shape {
    ghost use Rattle.std.specs.Prelude.{List, reverse};
    ghost use Rattle.vpg_game.specs.declared.levels.Level.{Level};
    ghost use Rattle.vpg_game.specs.Levels.{AreWeights};

    ghost Value = { List Level };

    ghost view = { λ s. reverse s.levels.items };

    ghost invariant = { λ s. AreWeights (reverse s.levels.items) s.weights.items s.top };
}

// The priorities of a game, each raised by the same number.
fn priorities(alloc: Global, game: &GuardedGame, raise: u32) -> Result<Vec<u32>, AllocError>
    requires { raise ≤ 2 }
    ensures priorities { IfOk result
        (λ priorities. priorities.items ≡ map (λ p. p + raise) (guarded_priorities (graph_of game.now))) }
    ensures limit { IfOk result (λ priorities. top_of (levels_of priorities.items) ≤ TOP_LIMIT) }
{
    let vertices = game.vertices();
    let mut priorities = Vec::with_capacity(alloc, vertices)?;
    for v in 0..vertices as u32 {
        priorities.push(game.priority(v) + raise)?;
    }
    Ok(priorities)
}

impl Shape {
    /// Returns the shape of the measures of a game.
    pub fn of(alloc: Global, game: &GuardedGame) -> Result<Shape, AllocError>
        ensures { IfOk result (λ shape. shape ≡ levels_for Which.Hopeful (graph_of game.now)) }
    {
        Shape::raised(alloc, game, 0)
    }

    /// Returns the shape of the measures of its dual, which is not built.
    pub fn of_dual(alloc: Global, game: &GuardedGame) -> Result<Shape, AllocError>
        ensures { IfOk result (λ shape. shape ≡ levels_for Which.Dual (graph_of game.now)) }
    {
        Shape::raised(alloc, game, 1)
    }

    /// Returns the shape of the measures of the dual's dual: the game's with each priority two greater, so with the
    /// game's top.
    pub fn of_dual_of_dual(alloc: Global, game: &GuardedGame) -> Result<Shape, AllocError>
        ensures { IfOk result (λ shape. shape ≡ levels_of (guarded_priorities (dual (dual (graph_of game.now))))) }
    {
        Shape::raised(alloc, game, 2)
    }

    // The shape of a game with each priority raised by this number.
    fn raised(alloc: Global, game: &GuardedGame, raise: u32) -> Result<Shape, AllocError>
        requires { raise ≤ 2 }
        ensures { IfOk result
            (λ shape. shape ≡ levels_of (map (λ p. p + raise) (guarded_priorities (graph_of game.now)))) }
    {
        let priorities = priorities(alloc, game, raise)?;
        Shape::over(alloc, &priorities)
    }

    /// Returns a shape of its own, of the same measures.
    pub(crate) fn copy(&self, alloc: Global) -> Result<Shape, AllocError>
        ensures { IfOk result (λ shape. shape ≡ self.now) }
    {
        Ok(Shape {
            levels: Vec::from_slice(alloc, self.levels.as_slice())?,
            weights: Vec::from_slice(alloc, self.weights.as_slice())?,
            top: self.top,
        })
    }

    /// Returns the shape over the priorities of some vertices.
    pub(crate) fn over(alloc: Global, priorities: &[u32]) -> Result<Shape, AllocError>
        requires { top_of (levels_of priorities.now) ≤ TOP_LIMIT }
        ensures { IfOk result (λ shape. shape ≡ levels_of priorities.now) }
    {
        let counts = odd_counts(alloc, priorities)?;
        let mut levels = Vec::new(alloc);
        let mut weights = Vec::with_capacity(alloc, counts.len() + 1)?;
        let mut top = 1;
        weights.push(top)?;
        for priority in 0..counts.len() {
            let count = counts[priority];
            if count > 0 {
                levels.push(Level {
                    priority: priority as u32,
                    count,
                })?;
                top *= count + 1;
            }
            weights.push(top)?;
        }
        Ok(Shape {
            levels,
            weights,
            top,
        })
    }

    /// Returns the number of the top measure.
    pub fn top(&self) -> u64
        ensures top { result ≡ top_of self.now }
        ensures limit { result ≤ TOP_LIMIT }
    {
        self.top
    }

    /// Returns the product of the radices of the odd priorities below this one: the value of one at this priority.
    pub fn weight(&self, priority: u64) -> u64
        ensures { result ≡ weight_of priority self.now }
    {
        let at = priority as usize;
        if at < self.weights.len() {
            self.weights[at]
        } else {
            self.top
        }
    }

    // The formula in mixed radix: the part below the priority is cut off, and an odd priority adds one at its place. At
    // weight 1 nothing is cut off.
    fn cut(&self, priority: u64, value: u64) -> u64
        requires { value ≤ top_of self.now }
        ensures prog { result ≡ prog_of self.now priority value }
        ensures within { result ≤ top_of self.now }
    {
        if value == self.top() {
            return value;
        }
        let weight = self.weight(priority);
        if weight == 1 {
            return value + priority % 2;
        }
        let quotient = value / weight;
        (quotient + priority % 2) * weight
    }
}

/// Returns the least number with a measure that fits an edge from a vertex of this priority to one of this value, at
/// most top.
pub fn prog(shape: &Shape, priority: u32, value: u64) -> u64
    requires { value ≤ top_of shape.now }
    ensures prog { result ≡ prog_of shape.now priority value }
    ensures within { result ≤ top_of shape.now }

    // The numbers that fit the edge are those from the result on.
    ensures least { (n : ℕ) → n ≤ top_of shape.now → NumberFitsEdge shape.now priority n value ↔ (result ≤ n) }
{
    shape.cut(priority as u64, value)
}

/// Returns `prog` at the next priority, that of the same vertex in the dual.
pub fn next_prog(shape: &Shape, priority: u32, value: u64) -> u64
    requires { value ≤ top_of shape.now }
    ensures prog { result ≡ prog_of shape.now (suc priority) value }
    ensures within { result ≤ top_of shape.now }
{
    shape.cut(priority as u64 + 1, value)
}
