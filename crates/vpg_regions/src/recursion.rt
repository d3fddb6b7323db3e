//! The winners of a game, by Zielonka's recursion (Zielonka 1998) with a stack of its own.
use crate::budget::Budget;
use crate::found::Found;
use crate::graph::Graph;
use crate::solution::{Solution, player_of};
use std::alloc::{AllocError, Global};
use vpg_sides::Player;

/// The number of priorities after which the recursion may give up. It does if they took less than one in `LITTLE` of
/// the vertices, and its budget does not suffice to look at the others once for each lesser priority.
const LEVELS: usize = 2;

const LITTLE: usize = 1024;

// A game on the stack: its vertices, those of greater priorities first, and those found to be won by the player against
// whom its greatest priority is.
struct Game {
    all: Vec<u32>,
    gone: Vec<u32>,
}

// Not derived: a derived `drop` would be proved again at each exit that owns such a value.
impl Drop for Game {
    fn drop(self) {
        let Game { all: _, gone: _ } = self;
    }
}

// A game that waits: the rest of it, without the attractor of the greatest priority, is being solved.
struct Waiting {
    game: Game,
    attracted: Vec<u32>,
    player: Player,
}

// Not derived: a derived `drop` would be proved again at each exit that owns such a value.
impl Drop for Waiting {
    fn drop(self) {
        let Waiting {
            game: _,
            attracted: _,
            player: _,
        } = self;
    }
}

#[derive(Drop)]
enum Frame {
    Open(Game),
    Inner(Waiting),
}

impl Game {
    // The vertices of the greatest priority, which come first. They lose their choices.
    fn begin(
        &self,
        alloc: Global,
        solution: &mut Solution<'_>,
        greatest: u32,
    ) -> Result<Vec<u32>, AllocError> {
        let mut seed = Found::none(alloc);
        for v in &self.all {
            if solution.graph.priority(*v) != greatest {
                break;
            }
            solution.choice.set(*v, None);
            seed.add(*v);
        }
        seed.list()
    }

    // The vertices from which the player of the greatest priority can force play there.
    fn attracted(
        &self,
        alloc: Global,
        solution: &mut Solution<'_>,
        greatest: u32,
        player: Player,
        budget: &mut Budget,
    ) -> Result<Vec<u32>, AllocError> {
        let seed = self.begin(alloc, solution, greatest)?;
        solution.attract(player, seed, budget)
    }

    fn waiting(self, attracted: Vec<u32>, player: Player) -> Waiting {
        Waiting {
            game: self,
            attracted,
            player,
        }
    }

    // The number of looks at its vertices, once for each priority up to the greatest.
    fn looks(&self, graph: &Graph) -> u64 {
        match self.all.first() {
            Some(v) => u64::from(graph.priority(*v)).saturating_mul(self.all.len() as u64),
            None => 0,
        }
    }

    // The game with other vertices.
    fn with(self, all: Vec<u32>) -> Game {
        let Game { all: _, gone } = self;
        Game { all, gone }
    }
}

impl Waiting {
    // Takes over a solved inner game: the vertices that the other player wins there it wins in the whole. Returns the
    // rest to be solved.
    fn rest(
        &mut self,
        alloc: Global,
        solution: &mut Solution<'_>,
        budget: &mut Budget,
    ) -> Result<Option<Vec<u32>>, AllocError> {
        let other = self.player.opponent();
        let lost = solution.won_by(alloc, other, &self.game.all)?;
        solution.revive(&self.attracted);
        if lost.is_empty() {
            self.end(solution);
            return Ok(None);
        }
        self.lose(solution, lost, other, budget)?;
        Ok(Some(solution.living(alloc, &self.game.all)?))
    }

    // Gives all to the player of the greatest priority.
    fn end(&self, solution: &mut Solution<'_>) {
        solution.give(self.player, &self.attracted);
        solution.choose_any(&self.attracted);
        solution.revive(&self.game.gone);
    }

    fn lose(
        &mut self,
        solution: &mut Solution<'_>,
        lost: Vec<u32>,
        other: Player,
        budget: &mut Budget,
    ) -> Result<(), AllocError> {
        let taken = solution.win(other, lost, budget)?;
        self.game.gone.extend_from_slice(&taken)?;
        Ok(())
    }

    fn into_game(self) -> Game {
        let Waiting {
            game,
            attracted: _,
            player: _,
        } = self;
        game
    }
}

// Goes on to the game without the attractor of the greatest priority.
fn descend(
    alloc: Global,
    solution: &mut Solution<'_>,
    stack: &mut Vec<Frame>,
    game: Game,
    budget: &mut Budget,
) -> Result<(), AllocError> {
    let Some(first) = game.all.first() else {
        solution.revive(&game.gone);
        return Ok(());
    };
    let greatest = solution.graph.priority(*first);
    budget.spend(game.all.len());
    let player = player_of(greatest);
    let attracted = game.attracted(alloc, solution, greatest, player, budget)?;
    let inner = solution.living(alloc, &game.all)?;
    stack.push(Frame::Inner(game.waiting(attracted, player)))?;
    open(alloc, stack, inner)
}

// A game of these vertices on the stack.
fn open(alloc: Global, stack: &mut Vec<Frame>, all: Vec<u32>) -> Result<(), AllocError> {
    stack.push(Frame::Open(Game {
        all,
        gone: Vec::new(alloc),
    }))?;
    Ok(())
}

// Goes on to the rest of a game with a solved inner game.
fn ascend(
    alloc: Global,
    solution: &mut Solution<'_>,
    stack: &mut Vec<Frame>,
    waiting: Waiting,
    budget: &mut Budget,
) -> Result<(), AllocError> {
    let mut waiting = waiting;
    if let Some(rest) = waiting.rest(alloc, solution, budget)? {
        stack.push(Frame::Open(waiting.into_game().with(rest)))?;
    }
    Ok(())
}

// Whether the greatest priorities took little of this many vertices, and the budget is too small for the others.
fn is_stuck(graph: &Graph, stack: &[Frame], vertices: usize, budget: &Budget) -> bool {
    let Some(Frame::Open(game)) = stack.last() else {
        return false;
    };
    let most = vertices.saturating_sub(vertices / LITTLE);
    LEVELS < stack.len() && most < game.all.len() && budget.left() < game.looks(graph)
}

// Solves the games on the stack, the outermost of which has this many vertices, until it is empty, or the budget is
// spent or too small.
fn run(
    alloc: Global,
    solution: &mut Solution<'_>,
    stack: &mut Vec<Frame>,
    vertices: usize,
    budget: &mut Budget,
) -> Result<(), AllocError> {
    for _ in 0..u64::MAX {
        if budget.is_spent() || is_stuck(solution.graph, stack, vertices, budget) {
            break;
        }
        match stack.pop() {
            Some(Frame::Open(game)) => descend(alloc, solution, stack, game, budget)?,
            Some(Frame::Inner(waiting)) => ascend(alloc, solution, stack, waiting, budget)?,
            None => break,
        }
    }
    Ok(())
}

// Forgets all but the vertices that the outermost game gave away, if the stack is not empty.
fn forget(solution: &mut Solution<'_>, stack: &[Frame]) {
    match stack.first() {
        Some(Frame::Open(game)) => solution.forget(&game.all),
        Some(Frame::Inner(waiting)) => solution.forget(&waiting.game.all),
        None => {}
    }
}

/// Gives each vertex of the present game, which is of some of these, its winner, or those known when the budget is
/// spent, or too small. Returns whether all are given.
pub fn solve_by_recursion(
    alloc: Global,
    solution: &mut Solution<'_>,
    vertices: &[u32],
    budget: &mut Budget,
) -> Result<bool, AllocError> {
    let mut stack = Vec::new(alloc);
    let living = solution.living(alloc, vertices)?;
    open(
        alloc,
        &mut stack,
        solution.graph.by_priority(alloc, &living)?,
    )?;
    run(alloc, solution, &mut stack, living.len(), budget)?;
    forget(solution, &stack);
    Ok(stack.is_empty())
}
