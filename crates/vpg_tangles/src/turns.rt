//! The winners of a game, and their moves, by Zielonka's recursion, by tangles, and by the weights of paths, in turns.
//! If the first turns of the recursion and of tangles do not end, strongly connected components are solved one by one.
use crate::learning::solve_by_tangles;
use std::alloc::{AllocError, Global};
use vpg_regions::{
    Budget, Components, Found, Graph, Moves, Regions, Solution, solve_by_recursion,
    solve_by_weights,
};
use vpg_sides::Player;

/// The number of times that the recursion may look at a whole game in its first turn, and at a component. At a small
/// component it may look as often as the others do before their first step. Where few vertices are left of a graph it
/// may look as often as the components of all take.
const FIRST_PASSES: u64 = 3;

const COMPONENT_PASSES: u64 = 2;

const GRAPH_PASSES: u64 = 5;

/// The number of times that tangles, and then weights, may look at a component in their first turn, and the least that
/// they may look at. Tangles may look at a whole game as often, without that least.
const FIRST_TURN: u64 = 32;

const LEAST_TURN: u64 = 1 << 20;

/// Components of more than one vertex and of at most this many are solved together, up to so many vertices.
const SMALL: usize = 8;

const TOGETHER: usize = 4096;

// How a game is solved.
#[derive(Clone, Copy, PartialEq, Eq)]
enum Way {
    Recursion,
    Tangles,
    Weights,
}

// Takes one turn of the recursion or of the weights; returns whether all is solved.
fn take_turn(
    alloc: Global,
    solution: &mut Solution<'_>,
    way: Way,
    vertices: &[u32],
    most: u64,
    budget: &mut Budget,
) -> Result<bool, AllocError> {
    let mut turn = budget.take(most);
    let solved = match way {
        Way::Recursion => solve_by_recursion(alloc, solution, vertices, &mut turn),
        Way::Tangles => solve_by_tangles(alloc, solution, vertices, &mut turn),
        Way::Weights => solve_by_weights(alloc, solution, vertices, &mut turn),
    };
    budget.give_back(turn);
    solution.reopen(vertices);
    solved
}

// The number of some vertices and of their edges.
fn size_of(graph: &Graph, vertices: &[u32]) -> u64 {
    let mut size = vertices.len() as u64;
    for v in vertices {
        size = size.saturating_add(graph.successors(*v).len() as u64);
    }
    size
}

// The number of looks in the recursion's first turn at a component.
fn passes_of(graph: &Graph, first: Way, size: u64) -> u64 {
    if first == Way::Recursion {
        size.saturating_mul(COMPONENT_PASSES)
            .max(u64::from(graph.vertices()))
    } else {
        0
    }
}

// Solves the present game, which is of some of these vertices, by turns, each longer than the one before it, until one
// ends or the budget is spent. The recursion has the first turn, or none until the others had theirs. Returns whether
// all is solved.
fn take_turns(
    alloc: Global,
    solution: &mut Solution<'_>,
    first: Way,
    vertices: &[u32],
    budget: &mut Budget,
) -> Result<bool, AllocError> {
    let size = size_of(solution.graph, vertices);
    let mut passes = passes_of(solution.graph, first, size);
    let mut turn = size.saturating_mul(FIRST_TURN).max(LEAST_TURN);
    for _ in 0..u64::MAX {
        if (0 < passes && take_turn(alloc, solution, Way::Recursion, vertices, passes, budget)?)
            || take_turn(alloc, solution, Way::Tangles, vertices, turn, budget)?
            || take_turn(alloc, solution, Way::Weights, vertices, turn, budget)?
        {
            return Ok(true);
        }
        if budget.is_spent() {
            break;
        }
        passes = passes.saturating_mul(8).max(LEAST_TURN / 4);
        turn = turn.saturating_mul(8);
    }
    Ok(false)
}

// Solves one component, after those that it leads to; returns whether all of it is solved.
fn solve_component(
    alloc: Global,
    solution: &mut Solution<'_>,
    first: Way,
    members: &[u32],
    budget: &mut Budget,
) -> Result<bool, AllocError> {
    solution.revive(members);
    solution.win_exits(alloc, members, budget)?;
    let rest = solution.living(alloc, members)?;
    let solved = rest.is_empty() || take_turns(alloc, solution, first, &rest, budget)?;
    solution.leave(members);
    Ok(solved)
}

// Solves the component between two ends; returns whether all of it is solved. The recursion, which failed at so many
// vertices, is not tried at most of them again.
fn solve_between(
    alloc: Global,
    solution: &mut Solution<'_>,
    components: &Components,
    from: usize,
    to: usize,
    budget: &mut Budget,
) -> Result<bool, AllocError> {
    if let Some(v) = components.single(from, to) {
        solution.win_alone(v, budget);
        return Ok(true);
    }
    let members = components.between(alloc, from, to)?;
    let first = if components.found.len() / 2 < members.len() {
        Way::Tangles
    } else {
        Way::Recursion
    };
    solve_component(alloc, solution, first, &members, budget)
}

// The ends of groups of components. Small ones that follow one another are a group, which ends before it would have too
// many vertices; each other component is a group.
fn grouped(alloc: Global, ends: &[usize]) -> Result<Vec<usize>, AllocError> {
    let mut groups = Found::none(alloc);
    let mut from = 0;
    let mut last = 0;
    let mut was_small = false;
    for end in ends {
        let count = end.saturating_sub(last);
        let is_small = 1 < count && count <= SMALL;
        if from < last && !(was_small && is_small && end.saturating_sub(from) <= TOGETHER) {
            groups.add(last);
            from = last;
        }
        last = *end;
        was_small = is_small;
    }
    groups.add(last);
    groups.list()
}

// Solves the present game component by component, small ones together, until one is not solved. The solved ones are
// easier than the rest.
fn solve_apart(
    alloc: Global,
    solution: &mut Solution<'_>,
    vertices: &[u32],
    budget: &mut Budget,
) -> Result<(), AllocError> {
    let living = solution.living(alloc, vertices)?;
    let components = components_of(alloc, solution, &living, budget)?;
    solution.leave(&living);
    let mut from = 0;
    for to in &grouped(alloc, components.ends.items())? {
        if !solve_between(alloc, solution, &components, from, *to, budget)? {
            break;
        }
        from = *to;
    }
    Ok(())
}

// The components of some vertices, each after those that it leads to.
fn components_of(
    alloc: Global,
    solution: &Solution<'_>,
    vertices: &[u32],
    budget: &mut Budget,
) -> Result<Components, AllocError> {
    let moves = Moves {
        graph: solution.graph,
        player: None,
        choice: &solution.choice,
    };
    let mut components = Components::new(alloc, solution.graph.vertices())?;
    components.search(&moves, vertices, budget)?;
    Ok(components)
}

/// Returns the winners; vertices that are open on a spent budget have none. Odd is known to win at the lost vertices.
pub fn solve_regions(
    alloc: Global,
    graph: &Graph,
    lost: Vec<u32>,
    budget: &mut Budget,
) -> Result<Regions, AllocError> {
    let mut solution = Solution::new(alloc, graph)?;
    solve_whole(alloc, &mut solution, lost, budget)?;
    let (winner, choice) = solution.finish();
    Ok(Regions::of(winner, choice))
}

// Takes the recursion's first turn, and one of tangles if the recursion gives up before; returns whether all of these
// vertices are solved.
fn take_first_turns(
    alloc: Global,
    solution: &mut Solution<'_>,
    all: &[u32],
    budget: &mut Budget,
) -> Result<bool, AllocError> {
    let least = u64::from(solution.graph.vertices()).saturating_mul(GRAPH_PASSES);
    let size = size_of(solution.graph, all);
    let most = size.saturating_mul(FIRST_PASSES).max(least);
    let spent = budget.left().saturating_sub(most);
    if take_turn(alloc, solution, Way::Recursion, all, most, budget)? {
        return Ok(true);
    }
    if budget.left() <= spent {
        return Ok(false);
    }
    let turn = size.saturating_mul(FIRST_TURN);
    take_turn(alloc, solution, Way::Tangles, all, turn, budget)
}

fn solve_whole(
    alloc: Global,
    solution: &mut Solution<'_>,
    lost: Vec<u32>,
    budget: &mut Budget,
) -> Result<(), AllocError> {
    solution.win(Player::Odd, lost, budget)?;
    solution.win_dead_ends(alloc, Player::Even, budget)?;
    solution.win_dead_ends(alloc, Player::Odd, budget)?;
    let all = solution.all_living(alloc)?;
    if take_first_turns(alloc, solution, &all, budget)? {
        return Ok(());
    }
    solve_apart(alloc, solution, &all, budget)
}

/// Returns the winners at some vertices. All others are guessed to be lost if they are at the top, and won by Even if
/// not.
pub fn solve_part(
    alloc: Global,
    graph: &Graph,
    lost: &[u32],
    members: &[u32],
    budget: &mut Budget,
) -> Result<Regions, AllocError> {
    let mut solution = Solution::new(alloc, graph)?;
    let all = solution.all_living(alloc)?;
    solution.give(Player::Even, &all);
    solution.give(Player::Odd, lost);
    solution.leave(&all);
    solution.forget(members);
    solve_component(alloc, &mut solution, Way::Recursion, members, budget)?;
    let (winner, choice) = solution.finish();
    Ok(Regions::of(winner, choice))
}
