//! The least values of Even's region, by strategy improvement. Each strategy is valued exactly, and then changed if
//! that is better. A better move lowers the value at once, and those of the vertices that move there: so most choices
//! are found before the next valuation. Only the vertices that lead to a changed choice are valued again, and only
//! those that move to a changed value are looked at again. Where all open vertices have odd priorities, lowering leaves
//! the values of the choices, and none is valued again.
use crate::even_cycles::Level;
use crate::ground::{GuessGround, value_in};
use crate::scale::Scale;
use crate::values::Evaluation;
use std::alloc::{AllocError, Global};
use vpg_regions::{Budget, Choices, Found, Graph, PerVertex, Regions};
use vpg_sides::Player;

/// A guess of values, and choices. Odd's choices are those that win, at vertices with the top.
pub struct Guess {
    pub values: PerVertex<u64>,
    pub choice: Choices,
}

// Not derived: a derived `drop` would be proved again at each exit that owns such a value.
impl Drop for Guess {
    fn drop(self) {
        let Guess {
            values: _,
            choice: _,
        } = self;
    }
}

/// The greatest number of times that lowering looks at all edges and vertices before strategies are valued again.
const LOWERINGS: u64 = 8;

/// The greatest number of turns of moves round even cycles. Such moves may raise a value, too, and then come again and
/// again.
const MOST_TURNS: u32 = 64;

struct Improvement<'a> {
    graph: &'a Graph,
    scale: &'a Scale,
    table: &'a [u64],
    choice: Choices,
    values: PerVertex<u64>,
    // the values before the last evaluation
    before: PerVertex<u64>,
    // whether the value exceeds the table, and may still fall
    open: PerVertex<bool>,
    // those with a value that was lowered to the table's since the last evaluation
    closed: Found<u32>,
    mark: PerVertex<u32>,
    stamp: u32,
    // those to be looked at
    waits: PerVertex<bool>,
    stack: Found<u32>,
    evaluation: Evaluation,
}

// Not derived: a derived `drop` would be proved again at each exit that owns such a value.
impl<'a> Drop for Improvement<'a> {
    fn drop(self) {
        let Improvement {
            graph: _,
            scale: _,
            table: _,
            choice: _,
            values: _,
            before: _,
            open: _,
            closed: _,
            mark: _,
            stamp: _,
            waits: _,
            stack: _,
            evaluation: _,
        } = self;
    }
}

impl<'a> Improvement<'a> {
    fn new(
        alloc: Global,
        ground: &'a GuessGround,
        regions: &Regions,
        table: &'a [u64],
    ) -> Result<Improvement<'a>, AllocError> {
        let vertices = ground.graph.vertices();
        let mut values = PerVertex::of(alloc, vertices, 0)?;
        for v in 0..vertices {
            values.set(v, value_in(table, v));
        }
        Ok(Improvement {
            graph: &ground.graph,
            scale: &ground.even,
            table,
            choice: regions.choice.copy(alloc)?,
            values,
            before: PerVertex::of(alloc, vertices, 0)?,
            open: PerVertex::of(alloc, vertices, false)?,
            closed: Found::none(alloc),
            mark: PerVertex::of(alloc, vertices, 0)?,
            stamp: 0,
            waits: PerVertex::of(alloc, vertices, false)?,
            stack: Found::none(alloc),
            evaluation: Evaluation::new(alloc, vertices)?,
        })
    }

    fn into_guess(self) -> Guess {
        let Improvement {
            graph: _,
            scale: _,
            table: _,
            choice,
            values,
            before: _,
            open: _,
            closed: _,
            mark: _,
            stamp: _,
            waits: _,
            stack: _,
            evaluation: _,
        } = self;
        Guess { values, choice }
    }

    // Sets the top where Odd is guessed to win.
    fn lose(&mut self, regions: &Regions, vertices: &[u32]) {
        for v in vertices {
            if regions.winner(*v) == Some(Player::Odd) {
                self.values.set(*v, self.scale.top);
            }
        }
    }

    // Values the choices in a region, and changes them until nothing is better.
    fn run(
        &mut self,
        alloc: Global,
        region: &[u32],
        budget: &mut Budget,
    ) -> Result<(), AllocError> {
        self.value(alloc, region, budget)?;
        let mut look = self.open_all(alloc, region)?;
        let are_strict = self.are_strict(region);
        let mut turns = 0u32;
        for _ in 0..u64::MAX {
            let changed = self.changes(alloc, region, &look, &mut turns, budget)?;
            let is_exact = are_strict && self.is_lowered();
            if changed.is_empty() || budget.is_spent() || is_exact {
                break;
            }
            look = self.value_again(alloc, changed, budget)?;
        }
        Ok(())
    }

    // Whether each open vertex of the region is at an odd priority. Then values rise along each cycle of moves: those
    // that lowering leaves are the values of the choices, so they need not be valued again.
    fn are_strict(&self, region: &[u32]) -> bool {
        for v in region {
            if self.open.get(*v) && !self.scale.is_strict(*v) {
                return false;
            }
        }
        true
    }

    // Whether lowering ended, and no value fell to the table's.
    fn is_lowered(&self) -> bool {
        self.stack.len() == 0 && self.closed.len() == 0
    }

    // Even's vertices that changed: for better moves, and otherwise round even cycles, in at most this many turns.
    fn changes(
        &mut self,
        alloc: Global,
        region: &[u32],
        look: &[u32],
        turns: &mut u32,
        budget: &mut Budget,
    ) -> Result<Vec<u32>, AllocError> {
        let changed = self.lower(alloc, look, budget)?;
        if !changed.is_empty() || MOST_TURNS <= *turns {
            return Ok(changed);
        }
        *turns = turns.saturating_add(1);
        self.switch_even_cycles(alloc, region, budget)
    }

    // Values the vertices that lead to changed ones, and returns the vertices to be looked at again.
    fn value_again(
        &mut self,
        alloc: Global,
        changed: Vec<u32>,
        budget: &mut Budget,
    ) -> Result<Vec<u32>, AllocError> {
        let affected = self.leading_to(changed, budget)?;
        self.value(alloc, &affected, budget)?;
        self.looks_again(alloc, &affected, budget)
    }

    fn value(
        &mut self,
        alloc: Global,
        vertices: &[u32],
        budget: &mut Budget,
    ) -> Result<(), AllocError> {
        for v in vertices {
            self.before.set(*v, self.values.get(*v));
        }
        self.evaluation.run(
            alloc,
            self.graph,
            self.scale,
            &self.choice,
            vertices,
            &mut self.values,
            budget,
        )
    }

    fn exceeds(&self, v: u32) -> bool {
        value_in(self.table, v) < self.values.get(v)
    }

    // Notes which vertices exceed the table, and returns Even's of them.
    fn open_all(&mut self, alloc: Global, region: &[u32]) -> Result<Vec<u32>, AllocError> {
        let mut own = Found::none(alloc);
        for v in region {
            if self.exceeds(*v) {
                self.open.set(*v, true);
                if self.graph.owner(*v) == Player::Even {
                    own.add(*v);
                }
            }
        }
        own.list()
    }

    // Takes better moves from these vertices on, lowers values along, and returns Even's vertices that changed.
    // Vertices that the budget does not reach are looked at the next time.
    fn lower(
        &mut self,
        alloc: Global,
        look: &[u32],
        budget: &mut Budget,
    ) -> Result<Vec<u32>, AllocError> {
        self.stamp = self.stamp.saturating_add(1);
        let mut changed = Found::none(alloc);
        for v in look {
            self.add(*v);
        }
        let mut turn = budget.take(self.graph.size().saturating_mul(LOWERINGS));
        for _ in 0..u64::MAX {
            if turn.is_spent() {
                break;
            }
            let Some(v) = self.stack.pop() else {
                break;
            };
            self.waits.set(v, false);
            self.lower_from(v, &mut changed, &mut turn);
        }
        budget.give_back(turn);
        if self.stack.is_refused() || self.closed.is_refused() {
            return Err(AllocError);
        }
        changed.list()
    }

    fn add(&mut self, v: u32) {
        if !self.waits.get(v) {
            self.waits.set(v, true);
            self.stack.add(v);
        }
    }

    fn lower_from(&mut self, v: u32, changed: &mut Found<u32>, budget: &mut Budget) {
        budget.spend(self.graph.successors(v).len().saturating_add(1));
        if self.falls(v, changed) {
            budget.spend(self.graph.predecessors(v).len());
            self.wake(v);
        }
    }

    // After the value of v fell, marks the vertices that move to v to be looked at, if theirs may fall.
    fn wake(&mut self, v: u32) {
        let graph = self.graph;
        let value = self.values.get(v);
        for u in graph.predecessors(v) {
            let limit = self.values.get(*u).saturating_sub(self.scale.step(*u));
            if self.open.get(*u) && value < limit {
                self.add(*u);
            }
        }
    }

    // Lowers the value of v if its moves allow that, and returns whether they do.
    fn falls(&mut self, v: u32, changed: &mut Found<u32>) -> bool {
        let value = if self.graph.owner(v) == Player::Even {
            let Some(w) = self.better(v) else {
                return false;
            };
            self.choice.set(v, Some(w));
            if self.mark.get(v) != self.stamp {
                self.mark.set(v, self.stamp);
                changed.add(v);
            }
            self.scale.prog_to(v, w, self.values.get(w))
        } else {
            self.greatest_over(v)
        };
        if self.values.get(v) <= value {
            return false;
        }
        self.values.set(v, value);
        if !self.exceeds(v) {
            self.open.set(v, false);
            self.closed.add(v);
        }
        true
    }

    // The greatest number over a move of Odd's.
    fn greatest_over(&self, v: u32) -> u64 {
        let mut greatest = 0;
        for w in self.graph.successors(v) {
            greatest = greatest.max(self.values.get(*w));
        }
        self.scale.prog(v, greatest)
    }

    // The move of least value, if that is less than the present one.
    fn better(&self, v: u32) -> Option<u32> {
        let mut least = self.values.get(v).saturating_sub(self.scale.step(v));
        let mut better = None;
        for w in self.graph.successors(v) {
            let value = self.values.get(*w);
            if value < least {
                least = value;
                better = Some(*w);
            }
        }
        better
    }

    // Moves round cycles of an even priority. Returns the vertices that changed.
    fn switch_even_cycles(
        &mut self,
        alloc: Global,
        region: &[u32],
        budget: &mut Budget,
    ) -> Result<Vec<u32>, AllocError> {
        let mut found = Found::none(alloc);
        for v in region {
            if self.open.get(*v) {
                found.add(*v);
            }
        }
        let open = found.list()?;
        let level = Level {
            graph: self.graph,
            scale: self.scale,
            table: self.table,
            values: &self.values,
        };
        let choices = level.even_cycles(alloc, &open, budget)?;
        self.choose(alloc, &choices)
    }

    // Takes over these choices. Returns Even's vertices that changed.
    fn choose(&mut self, alloc: Global, choices: &[(u32, u32)]) -> Result<Vec<u32>, AllocError> {
        let mut changed = Found::none(alloc);
        for (v, w) in choices {
            if self.graph.owner(*v) == Player::Even && self.choice.get(*v) != Some(*w) {
                self.choice.set(*v, Some(*w));
                changed.add(*v);
            }
        }
        changed.list()
    }

    // The vertices that changed or were closed, and the open ones with moves that lead there.
    fn leading_to(
        &mut self,
        changed: Vec<u32>,
        budget: &mut Budget,
    ) -> Result<Vec<u32>, AllocError> {
        let mut leading = self.with_closed(changed);
        for at in 0..self.graph.vertices() as usize {
            let Some(v) = leading.get(at) else {
                break;
            };
            budget.spend(self.graph.predecessors(v).len());
            self.lead(v, &mut leading);
        }
        leading.list()
    }

    // Marks the vertices that changed and those that were closed, and returns each once.
    fn with_closed(&mut self, changed: Vec<u32>) -> Found<u32> {
        self.stamp = self.stamp.saturating_add(1);
        for v in &changed {
            self.mark.set(*v, self.stamp);
        }
        let mut both = Found::with(changed);
        for v in self.closed.items() {
            if self.mark.get(*v) != self.stamp {
                self.mark.set(*v, self.stamp);
                both.add(*v);
            }
        }
        self.closed.clear();
        both
    }

    fn lead(&mut self, v: u32, leading: &mut Found<u32>) {
        for u in self.graph.predecessors(v) {
            if self.open.get(*u) && self.mark.get(*u) != self.stamp && self.moves_to(*u, v) {
                self.mark.set(*u, self.stamp);
                leading.add(*u);
            }
        }
    }

    // Whether the edge from u to v is a move of the strategy's game.
    fn moves_to(&self, u: u32, v: u32) -> bool {
        self.graph.owner(u) == Player::Odd || self.choice.get(u) == Some(v)
    }

    // Even's open vertices with an edge to one of these with a changed value.
    fn looks_again(
        &mut self,
        alloc: Global,
        affected: &[u32],
        budget: &mut Budget,
    ) -> Result<Vec<u32>, AllocError> {
        self.stamp = self.stamp.saturating_add(1);
        let mut look = Found::none(alloc);
        for v in affected {
            if self.values.get(*v) != self.before.get(*v) {
                if !self.exceeds(*v) {
                    self.open.set(*v, false);
                }
                budget.spend(self.graph.predecessors(*v).len());
                self.look_from(*v, &mut look);
            }
        }
        look.list()
    }

    fn look_from(&mut self, v: u32, look: &mut Found<u32>) {
        for u in self.graph.predecessors(v) {
            if self.open.get(*u)
                && self.mark.get(*u) != self.stamp
                && self.graph.owner(*u) == Player::Even
            {
                self.mark.set(*u, self.stamp);
                look.add(*u);
            }
        }
    }
}

// Those of some vertices that are below the top and guessed to be Even's.
fn even_region(
    alloc: Global,
    ground: &GuessGround,
    regions: &Regions,
    table: &[u64],
    vertices: &[u32],
) -> Result<Vec<u32>, AllocError> {
    let mut region = Found::none(alloc);
    for v in vertices {
        if regions.winner(*v) == Some(Player::Even) && value_in(table, *v) < ground.even.top {
            region.add(*v);
        }
    }
    region.list()
}

// The guess of `guess_table`, for a known region of Even.
fn guess_over(
    alloc: Global,
    ground: &GuessGround,
    regions: &Regions,
    table: &[u64],
    vertices: &[u32],
    region: &[u32],
    budget: &mut Budget,
) -> Result<Guess, AllocError> {
    let mut improvement = Improvement::new(alloc, ground, regions, table)?;
    improvement.lose(regions, vertices);
    improvement.run(alloc, region, budget)?;
    Ok(improvement.into_guess())
}

/// Guesses the least progress table above a table that has its values except at some vertices. The guess has the top
/// where Odd is guessed to win, and values that begin with Even's choices elsewhere. If the budget is spent, the values
/// are those of some choices.
pub fn guess_table(
    alloc: Global,
    ground: &GuessGround,
    regions: &Regions,
    table: &[u64],
    vertices: &[u32],
    budget: &mut Budget,
) -> Result<Guess, AllocError> {
    let region = even_region(alloc, ground, regions, table, vertices)?;
    guess_over(alloc, ground, regions, table, vertices, &region, budget)
}
