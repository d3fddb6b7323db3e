//! The winners of a game, by the weights of paths: strategy improvement (Luttenberger 2008, Schewe 2008).
//!
//! Even may stop at each vertex of its own. A vertex of an even priority weighs more than all vertices of lesser
//! priorities together; one of an odd priority has the negative of such a weight. Odd takes the path to a stop that
//! weighs least, and Even changes its choices while such paths weigh more after the change. If no stop can be reached
//! in the end, Even wins.
use crate::budget::Budget;
use crate::cycles::win_cycles;
use crate::graph::Graph;
use crate::per_vertex::PerVertex;
use crate::solution::Solution;
use std::alloc::{AllocError, Global};
use std::collections::VecDeque;
use vpg_sides::Player;

/// The weight if no stop can be reached.
const UNREACHED: i128 = i128::MAX;

struct PathWeights {
    vertices: Vec<u32>,
    // the weight of each priority
    weights: PerVertex<i128>,
    // the least weight of a path from each vertex to a stop
    least: PerVertex<i128>,
    // those with predecessors to be looked at
    waits: PerVertex<bool>,
    queue: VecDeque<u32>,
    // whether memory was refused for one of them
    is_refused: bool,
}

// Not derived: a derived `drop` would be proved again at each exit that owns such a value.
impl Drop for PathWeights {
    fn drop(self) {
        let PathWeights {
            vertices: _,
            weights: _,
            least: _,
            waits: _,
            queue: _,
            is_refused: _,
        } = self;
    }
}

// The weight of each priority: plus or minus the product, over the lesser priorities, of one more than their numbers of
// vertices. With tops of 2^62 at most it stays below 2^124.
fn weights_of(
    alloc: Global,
    graph: &Graph,
    vertices: &[u32],
) -> Result<PerVertex<i128>, AllocError> {
    let greatest = graph.greatest_priority(vertices);
    let mut weights = PerVertex::of(alloc, greatest.saturating_add(1), 1i128)?;
    for v in vertices {
        let priority = graph.priority(*v);
        weights.set(priority, weights.get(priority).saturating_add(1));
    }
    let mut product = 1i128;
    for priority in 0..=greatest {
        let more = product.saturating_mul(weights.get(priority));
        let sign = if priority % 2 == 0 { 1 } else { -1 };
        weights.set(priority, product.saturating_mul(sign));
        product = more;
    }
    Ok(weights)
}

impl PathWeights {
    fn of(alloc: Global, graph: &Graph, vertices: Vec<u32>) -> Result<PathWeights, AllocError> {
        Ok(PathWeights {
            weights: weights_of(alloc, graph, &vertices)?,
            vertices,
            least: PerVertex::of(alloc, graph.vertices(), UNREACHED)?,
            waits: PerVertex::of(alloc, graph.vertices(), false)?,
            queue: VecDeque::new(alloc),
            is_refused: false,
        })
    }

    // The weight of a path from v over w.
    fn over(&self, graph: &Graph, v: u32, w: u32) -> i128 {
        let rest = self.least.get(w);
        if rest == UNREACHED {
            UNREACHED
        } else {
            let weight = self.weights.get(graph.priority(v));
            rest.checked_add(weight).unwrap_or(UNREACHED)
        }
    }

    // Finds the least weights of paths to a stop, along Even's choices.
    fn find_least(
        &mut self,
        solution: &Solution<'_>,
        budget: &mut Budget,
    ) -> Result<(), AllocError> {
        self.stop_all(solution);
        for _ in 0..u64::MAX {
            if budget.is_spent() {
                break;
            }
            let Some(w) = self.queue.pop_front() else {
                break;
            };
            self.reach_from(solution, w, budget);
        }
        if self.is_refused {
            return Err(AllocError);
        }
        Ok(())
    }

    // Each vertex of Even without a choice is a stop; from the others none is reached yet.
    fn stop_all(&mut self, solution: &Solution<'_>) {
        let graph = solution.graph;
        for v in &self.vertices {
            if graph.owner(*v) == Player::Even && solution.choice.get(*v).is_none() {
                self.least.set(*v, self.weights.get(graph.priority(*v)));
                self.waits.set(*v, true);
                if self.queue.push_back(*v).is_err() {
                    self.is_refused = true;
                }
            } else {
                self.least.set(*v, UNREACHED);
            }
        }
    }

    fn add(&mut self, v: u32) {
        if self.waits.get(v) {
            return;
        }
        self.waits.set(v, true);
        if self.queue.push_back(v).is_err() {
            self.is_refused = true;
        }
    }

    // Lowers the weights of w's predecessors by that of w.
    fn reach_from(&mut self, solution: &Solution<'_>, w: u32, budget: &mut Budget) {
        let graph = solution.graph;
        self.waits.set(w, false);
        budget.spend(graph.predecessors(w).len().saturating_add(1));
        for u in graph.predecessors(w) {
            let weight = self.over(graph, *u, w);
            if self.changes(solution, *u, w, weight) {
                self.least.set(*u, weight);
                self.add(*u);
            }
        }
    }

    // Whether the path from u over w, of this weight, is to be taken.
    fn changes(&self, solution: &Solution<'_>, u: u32, w: u32, weight: i128) -> bool {
        if !solution.is_alive(u) {
            return false;
        }
        match solution.graph.owner(u) {
            Player::Even => solution.choice.get(u) == Some(w) && weight != self.least.get(u),
            Player::Odd => weight < self.least.get(u),
        }
    }

    // Changes Even's choices if that weighs more, and returns whether one changed.
    fn improve(&self, solution: &mut Solution<'_>, budget: &mut Budget) -> bool {
        let graph = solution.graph;
        let mut improved = false;
        for v in &self.vertices {
            if graph.owner(*v) == Player::Even && self.least.get(*v) != UNREACHED {
                budget.spend(graph.successors(*v).len());
                let better = self.better(solution, *v);
                if better.is_some() {
                    solution.choice.set(*v, better);
                    improved = true;
                }
            }
        }
        improved
    }

    // The move of greatest weight, if that is more than the present one.
    fn better(&self, solution: &Solution<'_>, v: u32) -> Option<u32> {
        let mut greatest = self.least.get(v);
        let mut better = None;
        for w in solution.graph.successors(v) {
            let weight = self.over(solution.graph, v, *w);
            if solution.is_alive(*w) && greatest < weight {
                greatest = weight;
                better = Some(*w);
            }
        }
        better
    }

    // The move of least weight.
    fn least_move(&self, solution: &Solution<'_>, v: u32) -> Option<u32> {
        let mut least = UNREACHED;
        let mut chosen = None;
        for w in solution.graph.successors(v) {
            let weight = self.least.get(*w);
            if solution.is_alive(*w) && weight < least {
                least = weight;
                chosen = Some(*w);
            }
        }
        chosen
    }

    // Gives the vertices from which no stop can be reached to Even, and the others to Odd.
    fn tell(&self, solution: &mut Solution<'_>) {
        for v in &self.vertices {
            if self.least.get(*v) == UNREACHED {
                solution.give(Player::Even, &[*v]);
            } else {
                solution.give(Player::Odd, &[*v]);
                if solution.graph.owner(*v) == Player::Odd {
                    let least = self.least_move(solution, *v);
                    solution.choice.set(*v, least);
                }
            }
        }
    }
}

/// Gives each vertex of the present game, which is of some of these, its winner, or those known when the budget is
/// spent. Returns whether all are given.
pub fn solve_by_weights(
    alloc: Global,
    solution: &mut Solution<'_>,
    vertices: &[u32],
    budget: &mut Budget,
) -> Result<bool, AllocError> {
    budget.spend(solution.graph.vertices() as usize);
    let living = solution.living(alloc, vertices)?;
    win_cycles(alloc, Player::Odd, solution, &living, budget)?;
    let living = solution.living(alloc, vertices)?;
    let mut paths = PathWeights::of(alloc, solution.graph, living)?;
    for v in &paths.vertices {
        solution.choice.set(*v, None);
    }
    for _ in 0..u64::MAX {
        paths.find_least(solution, budget)?;
        if budget.is_spent() {
            return Ok(false);
        }
        if !paths.improve(solution, budget) {
            break;
        }
    }
    paths.tell(solution);
    Ok(true)
}
