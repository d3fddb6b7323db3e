//! The recursion over the greatest priority.
ghost use Rattle.std.specs.Prelude.{◌≡◌, ℕ, ◌<◌, ◌≤◌, List, Bool, true, false, IfOk, IfErr, length};
ghost use Rattle.vpg_sides.specs.Players.{WinsAt, opponent};
ghost use Rattle.vpg_game.specs.Game.{graph_of};
ghost use Rattle.vpg_hope.specs.Games.{priority_of};
ghost use Rattle.vpg_zielonka.specs.Universes.{features_of, has, IsGrown, IsInside};
ghost use Rattle.vpg_zielonka.specs.Attractors.{IsWithin};
ghost use Rattle.vpg_zielonka.specs.Edges.{AreAllEdges};
ghost use Rattle.vpg_zielonka.specs.Parts.{AreSets, part_in, game_in};
ghost use Rattle.vpg_zielonka.specs.Rounds.{IsLive, IsBelowTops, IsGivenAway, IsWithoutStuck};
ghost use Rattle.vpg_zielonka.specs.Solutions.{IsSolution};
ghost use Rattle.vpg_zielonka.specs.Stops.{StopsAt};
ghost use Rattle.vpg_zielonka.specs.Winners.{AreShared, AreWinners, wins_in};

use crate::attracting::attracted;
use crate::edges::Edges;
use crate::parts::{occupied, outside, set_for, within, without};
use crate::reaching::reached;
use crate::rounds::{greatest, stuck, tops, winner_at};
use crate::stop::{Stop, take_steps};
use crate::subset::Subset;
use crate::universe::Universe;
use crate::winners::{Shares, Winners};
use std::alloc::Global;
use vpg_game::GuardedGame;
use vpg_sides::Player;

/// Returns the part without what the player draws to its vertices of a priority.
fn below_tops(
    alloc: Global,
    sets: &mut Universe,
    game: &GuardedGame,
    edges: &Edges,
    player: Player,
    priority: u32,
    part: &[Subset],
    steps: &mut u64,
) -> Result<Vec<Subset>, Stop>
    requires edges { AreAllEdges sets.old (graph_of game.now) edges.now }
    requires part { AreSets sets.old (length (graph_of game.now)) part.now }
    requires live { (p : List Bool) → IsLive (game_in (graph_of game.now) p) (part_in sets.old part.now p) }
    ensures grown { IsGrown sets.old sets.new }
    ensures sets { IfOk result (λ left. AreSets sets.new (length (graph_of game.now)) left.items) }
    ensures left { IfOk result (λ left. (p : List Bool) → IsBelowTops (game_in (graph_of game.now) p) player priority
        (part_in sets.old part.now p) (part_in sets.new left.items p)) }
    ensures steps { steps.new ≤ steps.old }
    ensures stopped { IfErr result (StopsAt sets.new steps.new) }
{
    let seeds = tops(alloc, sets, game, part, priority)?;
    let drawn = attracted(alloc, sets, game, edges, player, part, &seeds, steps)?;
    Ok(without(alloc, sets, part, &drawn)?)
}

/// Gives away what a round settles, and returns the part that goes on. `inner` are the winners below the tops.
fn give_away(
    alloc: Global,
    sets: &mut Universe,
    game: &GuardedGame,
    edges: &Edges,
    player: Player,
    part: &[Subset],
    others: &[Subset],
    winners: &mut Winners,
    steps: &mut u64,
) -> Result<Vec<Subset>, Stop>
    requires edges { AreAllEdges sets.old (graph_of game.now) edges.now }
    requires part { AreSets sets.old (length (graph_of game.now)) part.now }
    requires others { AreSets sets.old (length (graph_of game.now)) others.now }
    requires winners { AreWinners sets.old (length (graph_of game.now)) winners.old }
    requires inside { (p : List Bool) → IsWithin (part_in sets.old others.now p) (part_in sets.old part.now p) }
    requires live { (p : List Bool) → IsLive (game_in (graph_of game.now) p) (part_in sets.old part.now p) }
    ensures grown { IsGrown sets.old sets.new }
    ensures sets { IfOk result (λ left. AreSets sets.new (length (graph_of game.now)) left.items) }
    ensures winners { IfOk result (λ _. AreWinners sets.new (length (graph_of game.now)) winners.new) }
    ensures given { IfOk result (λ left. (p : List Bool) → IsGivenAway (game_in (graph_of game.now) p) player
        (part_in sets.old part.now p) (part_in sets.old others.now p) (part_in sets.new left.items p)
        (wins_in sets.old winners.old p) (wins_in sets.new winners.new p)) }
    ensures steps { steps.new ≤ steps.old }
    ensures stopped { IfErr result (StopsAt sets.new steps.new) }
{
    let other = player.opponent();
    let some = occupied(sets, others)?;
    let drawn = attracted(alloc, sets, game, edges, other, part, others, steps)?;
    let done = outside(alloc, sets, part, some)?;
    winners.give(alloc, sets, player, &done)?;
    winners.give(alloc, sets, other, &drawn)?;
    let on = within(alloc, sets, part, some)?;
    Ok(without(alloc, sets, &on, &drawn)?)
}

/// Returns who wins where in a part whose vertices have priorities below a bound, and edges to the part.
fn solve_part(
    alloc: Global,
    sets: &mut Universe,
    game: &GuardedGame,
    edges: &Edges,
    part: Vec<Subset>,
    bound: u32,
    steps: &mut u64,
) -> Result<Winners, Stop>
    requires edges { AreAllEdges sets.old (graph_of game.now) edges.now }
    requires part { AreSets sets.old (length (graph_of game.now)) part.items }
    requires live { (p : List Bool) → IsLive (game_in (graph_of game.now) p) (part_in sets.old part.items p) }
    requires below { (p : List Bool) (v : ℕ) → part_in sets.old part.items p v ≡ true →
        priority_of (game_in (graph_of game.now) p) v < bound }
    ensures grown { IsGrown sets.old sets.new }
    ensures sets { IfOk result (AreWinners sets.new (length (graph_of game.now))) }
    ensures solution { IfOk result (λ winners. (p : List Bool) → IsSolution (game_in (graph_of game.now) p)
        (part_in sets.old part.items p) (wins_in sets.new winners p)) }
    ensures steps { steps.new ≤ steps.old }
    ensures stopped { IfErr result (StopsAt sets.new steps.new) }
{
    let mut winners = Winners::nothing(alloc, sets, part.len())?;
    let mut part = part;
    while let Some(priority) = greatest(sets, game, &part) {
        take_steps(steps, game.vertices() as u64 + 1)?;
        let player = winner_at(priority);
        let left = below_tops(alloc, sets, game, edges, player, priority, &part, steps)?;
        let inner = solve_part(alloc, sets, game, edges, left, priority, steps)?;
        let others = inner.of(player.opponent());
        part = give_away(
            alloc,
            sets,
            game,
            edges,
            player,
            &part,
            others,
            &mut winners,
            steps,
        )?;
    }
    Ok(winners)
}

/// Gives a player the vertices where the opponent has no move, and what it draws to them. Returns the rest of the part.
fn give_stuck(
    alloc: Global,
    sets: &mut Universe,
    game: &GuardedGame,
    edges: &Edges,
    player: Player,
    part: &[Subset],
    winners: &mut Winners,
    steps: &mut u64,
) -> Result<Vec<Subset>, Stop>
    requires edges { AreAllEdges sets.old (graph_of game.now) edges.now }
    requires part { AreSets sets.old (length (graph_of game.now)) part.now }
    requires winners { AreWinners sets.old (length (graph_of game.now)) winners.old }
    ensures grown { IsGrown sets.old sets.new }
    ensures sets { IfOk result (λ left. AreSets sets.new (length (graph_of game.now)) left.items) }
    ensures winners { IfOk result (λ _. AreWinners sets.new (length (graph_of game.now)) winners.new) }
    ensures given { IfOk result (λ left. (p : List Bool) → IsWithoutStuck (game_in (graph_of game.now) p) player
        (part_in sets.old part.now p) (part_in sets.new left.items p)
        (wins_in sets.old winners.old p) (wins_in sets.new winners.new p)) }
    ensures steps { steps.new ≤ steps.old }
    ensures stopped { IfErr result (StopsAt sets.new steps.new) }
{
    let seeds = stuck(alloc, sets, game, edges, player.opponent(), part)?;
    let drawn = attracted(alloc, sets, game, edges, player, part, &seeds, steps)?;
    winners.give(alloc, sets, player, &drawn)?;
    Ok(without(alloc, sets, part, &drawn)?)
}

/// Returns which of the products of a set each player wins from a vertex.
pub(crate) fn solve_from(
    alloc: Global,
    sets: &mut Universe,
    game: &GuardedGame,
    vertex: u32,
    products: Subset,
    steps: &mut u64,
) -> Result<Shares, Stop>
    requires vertex { vertex < length (graph_of game.now) }
    requires products { IsInside sets.old products }
    requires features { game.now.features ≡ features_of sets.old }
    ensures grown { IsGrown sets.old sets.new }
    ensures divided { IfOk result (AreShared sets.new (graph_of game.now) vertex products) }
    ensures steps { steps.new ≤ steps.old }
    ensures stopped { IfErr result (StopsAt sets.new steps.new) }
{
    let found = reached(alloc, game, vertex, steps)?;
    let edges = Edges::of(alloc, sets, game)?;
    let all = set_for(alloc, sets, products, &found)?;
    let mut winners = Winners::nothing(alloc, sets, game.vertices())?;
    let part = give_stuck(
        alloc,
        sets,
        game,
        &edges,
        Player::Even,
        &all,
        &mut winners,
        steps,
    )?;
    let part = give_stuck(
        alloc,
        sets,
        game,
        &edges,
        Player::Odd,
        &part,
        &mut winners,
        steps,
    )?;
    let solved = solve_part(alloc, sets, game, &edges, part, 65_537, steps)?;
    winners.give(alloc, sets, Player::Even, &solved.won)?;
    winners.give(alloc, sets, Player::Odd, &solved.lost)?;
    Ok(winners.at(vertex))
}
