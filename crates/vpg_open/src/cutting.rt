//! A game in which each vertex with a known winner is won by it at once.
ghost use Rattle.std.specs.Prelude.{◌≡◌, ◌<◌, List, Bool, length, map, All, IfOk, None, slice_index_or};
ghost use Rattle.vpg_game.specs.Game.{IsAtLimit, graph_of, vertex_ids, no_vertex};
ghost use Rattle.vpg_open.specs.SettledGames.{AreWinnersIn, HasSameWinners, settled_vertex, settled_game, spelled_edge, spelled_vertex, settled_entries};

use std::alloc::{AllocError, Global};
use vpg_game::{Edge, Entry, GameFault, GuardedGame, Successor};
use vpg_sides::Player;

// An edge as a successor.
fn successor(alloc: Global, game: &GuardedGame, edge: &Edge) -> Result<Successor, AllocError>
    requires { edge.now.to < length game.now.vertices }
    ensures { IfOk result (λ successor. successor ≡ spelled_edge (vertex_ids game.now.vertices) edge.now) }
{
    let guard = edge.guard.copy(alloc)?;
    Ok(Successor {
        id: game.id(edge.to),
        guard,
    })
}

// Edges as successors.
fn successors(
    alloc: Global,
    game: &GuardedGame,
    edges: &[Edge],
) -> Result<Vec<Successor>, AllocError>
    requires { All (λ edge. edge.to < length game.now.vertices) edges.now }
    ensures { IfOk result
        (λ successors. successors.items ≡ map (spelled_edge (vertex_ids game.now.vertices)) edges.now) }
{
    let mut successors = Vec::with_capacity(alloc, edges.len())?;
    for edge in edges {
        successors.push(successor(alloc, game, edge)?)?;
    }
    Ok(successors)
}

// The entry of a vertex. With a winner it belongs to the other player, and has no successor.
pub(crate) fn entry(
    alloc: Global,
    game: &GuardedGame,
    v: u32,
    winner: Option<Player>,
) -> Result<Entry, AllocError>
    requires { v < length game.now.vertices }
    ensures { IfOk result (λ entry. entry
        ≡ spelled_vertex (vertex_ids game.now.vertices)
        (settled_vertex (slice_index_or game.now.vertices v no_vertex) winner)) }
{
    // The contract of `vertices` has the properties of every game.
    let _count = game.vertices();
    match winner {
        Some(player) => Ok(Entry {
            id: game.id(v),
            priority: game.priority(v),
            owner: player.opponent(),
            successors: Vec::new(alloc),
        }),
        None => Ok(Entry {
            id: game.id(v),
            priority: game.priority(v),
            owner: game.owner(v),
            successors: successors(alloc, game, game.edges(v))?,
        }),
    }
}

// The entries of all vertices.
fn entries(
    alloc: Global,
    game: &GuardedGame,
    winners: &[Option<Player>],
) -> Result<Vec<Entry>, AllocError>
    requires { length winners.now ≡ length game.now.vertices }
    ensures { IfOk result (λ entries. entries.items ≡ settled_entries game.now winners.now) }
{
    let count = game.vertices();
    let mut entries = Vec::with_capacity(alloc, count)?;
    for v in 0..count {
        entries.push(entry(alloc, game, v as u32, winners[v])?)?;
    }
    Ok(entries)
}

/// Returns the game with each vertex that has a winner won by it at once: it belongs to the other player, and has no
/// successor. Only the edges of the other vertices are copied.
pub fn settled(
    alloc: Global,
    game: &GuardedGame,
    winners: &[Option<Player>],
) -> Result<GuardedGame, AllocError>
    requires length { length winners.now ≡ length (graph_of game.now) }
    // Only a dual has the highest priority.
    requires limit { ¬ (IsAtLimit game.now) }
    ensures made { IfOk result (λ made. made ≡ settled_game game.now winners.now) }
    ensures features { IfOk result (λ made. made.features ≡ game.now.features) }
    ensures vertices { IfOk result (λ made. length (graph_of made) ≡ length (graph_of game.now)) }
    ensures limit { IfOk result (λ made. ¬ (IsAtLimit made)) }
    // In each product in which the winners win, it has the winners of the game.
    ensures wins { IfOk result (λ made. (p : List Bool) → AreWinnersIn (graph_of game.now) winners.now p →
        HasSameWinners (graph_of game.now) (graph_of made) p) }
{
    // The contract of `vertices` has the properties of every game.
    let _count = game.vertices();
    let entries = entries(alloc, game, winners)?;
    match GuardedGame::of(alloc, entries, game.features()) {
        Ok(made) => Ok(made),
        Err(fault) => match fault {
            GameFault::Memory => Err(AllocError),
            // Identifiers, targets and priorities are those of a game.
            _ => unreachable!(),
        },
    }
}
