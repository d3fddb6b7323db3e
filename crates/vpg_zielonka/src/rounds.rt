//! The steps of one round: the greatest priority, its vertices, and what has no move.
ghost use Rattle.std.specs.Prelude.{◌≡◌, ℕ, ◌<◌, ◌≤◌, List, Bool, true, false, IfOk, IfErr, IfSome, IfNone, ◌⊎◌, Some, length};
ghost use Rattle.vpg_sides.specs.Players.{WinsAt};
ghost use Rattle.vpg_game.specs.Game.{graph_of};
ghost use Rattle.vpg_hope.specs.Games.{priority_of};
ghost use Rattle.vpg_zielonka.specs.Universes.{IsGrown, IsTrueFault};
ghost use Rattle.vpg_zielonka.specs.Edges.{AreAllEdges};
ghost use Rattle.vpg_zielonka.specs.Parts.{AreSets, part_in, game_in};
ghost use Rattle.vpg_zielonka.specs.Rounds.{AreTops, AreStuck};

use crate::attracting::confined;
use crate::edges::Edges;
use crate::parts::{push, same_for_all};
use crate::subset::Subset;
use crate::universe::Universe;
use std::alloc::{AllocError, Global};
use vpg_game::GuardedGame;
use vpg_sets::SetsFault;
use vpg_sides::Player;

/// Returns the player that wins a play whose greatest recurring priority is this one.
pub(crate) fn winner_at(priority: u32) -> Player
    ensures { WinsAt result priority }
{
    if priority % 2 == 0 {
        Player::Even
    } else {
        Player::Odd
    }
}

/// Returns the greater of two priorities. The first may be absent.
fn greater(greatest: Option<u32>, priority: u32) -> u32
    ensures least { priority ≤ result }
    ensures more { IfSome greatest (λ d. d ≤ result) }
    ensures one { (result ≡ priority) ⊎ (greatest ≡ Some result) }
{
    match greatest {
        Some(d) => d.max(priority),
        None => priority,
    }
}

/// Returns the greatest priority of a vertex that has a product, if one has.
pub(crate) fn greatest(sets: &Universe, game: &GuardedGame, part: &[Subset]) -> Option<u32>
    requires { AreSets sets.now (length (graph_of game.now)) part.now }
    ensures greatest { IfSome result (λ d. (p : List Bool) (v : ℕ) → part_in sets.now part.now p v ≡ true →
        priority_of (game_in (graph_of game.now) p) v ≤ d) }
    ensures some { IfSome result (λ d. (p : List Bool) × (v : ℕ) × (part_in sets.now part.now p v ≡ true) ×
        (priority_of (game_in (graph_of game.now) p) v ≡ d)) }
    ensures none { IfNone result ((p : List Bool) (v : ℕ) → part_in sets.now part.now p v ≡ false) }
{
    let mut greatest = None;
    for v in 0..game.vertices() as u32 {
        if !sets.is_none(part[v as usize]) {
            greatest = Some(greater(greatest, game.priority(v)));
        }
    }
    greatest
}

/// Returns the part at the vertices of a priority.
pub(crate) fn tops(
    alloc: Global,
    sets: &Universe,
    game: &GuardedGame,
    part: &[Subset],
    priority: u32,
) -> Result<Vec<Subset>, AllocError>
    requires { AreSets sets.now (length (graph_of game.now)) part.now }
    ensures sets { IfOk result (λ seeds. AreSets sets.now (length (graph_of game.now)) seeds.items) }
    ensures tops { IfOk result (λ seeds. (p : List Bool) → AreTops (game_in (graph_of game.now) p)
        (part_in sets.now part.now p) priority (part_in sets.now seeds.items p)) }
{
    let mut seeds = Vec::with_capacity(alloc, part.len())?;
    for v in 0..game.vertices() as u32 {
        let seed = if game.priority(v) == priority {
            part[v as usize]
        } else {
            sets.none()
        };
        push(&mut seeds, seed)?;
    }
    Ok(seeds)
}

/// Returns the part at the vertices of a player, in the products in which no edge leads from there to the part.
pub(crate) fn stuck(
    alloc: Global,
    sets: &mut Universe,
    game: &GuardedGame,
    edges: &Edges,
    player: Player,
    part: &[Subset],
) -> Result<Vec<Subset>, SetsFault>
    requires edges { AreAllEdges sets.old (graph_of game.now) edges.now }
    requires part { AreSets sets.old (length (graph_of game.now)) part.now }
    ensures grown { IsGrown sets.old sets.new }
    ensures sets { IfOk result (λ seeds. AreSets sets.new (length (graph_of game.now)) seeds.items) }
    ensures stuck { IfOk result (λ seeds. (p : List Bool) → AreStuck (game_in (graph_of game.now) p) player
        (part_in sets.old part.now p) (part_in sets.new seeds.items p)) }
    ensures failed { IfErr result (IsTrueFault sets.new) }
{
    let nothing = same_for_all(alloc, sets, sets.none(), part.len())?;
    let mut seeds = Vec::with_capacity(alloc, part.len())?;
    for v in 0..game.vertices() as u32 {
        let seed = if game.owner(v) == player {
            confined(sets, game, edges, part[v as usize], v, part, &nothing)?
        } else {
            sets.none()
        };
        push(&mut seeds, seed)?;
    }
    Ok(seeds)
}
