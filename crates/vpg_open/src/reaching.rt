//! The part of a game that plays from a vertex can come to.
ghost use Rattle.std.specs.Prelude.{◌≡◌, ◌<◌, ℕ, List, Bool, All, length, slice_get, slice_index_or, Some, None, IfOk, IfSome, OnOk};
ghost use Rattle.vpg_game.specs.Game.{IsAtLimit, IsGame, graph_of, vertex_ids};
ghost use Rattle.vpg_open.specs.ReachedGames.{HasWinnersOf, marked_entries};
ghost use Rattle.vpg_open.specs.SettledGames.{settled_game};

use crate::cutting::entry;
use std::alloc::{AllocError, Global};
use vpg_game::{Edge, Entry, GameFault, GuardedGame};
use vpg_sides::Player;

/// A part of a game, and the place of a vertex in it.
#[derive(Drop)]
pub struct Reached {
    pub game: GuardedGame,
    pub vertex: u32,
}

// The winner of a vertex, if the list has one.
fn winner_of(winners: &[Option<Player>], v: u32) -> Option<Player>
    ensures { result ≡ slice_index_or winners.now v None }
{
    match winners.get(v as usize) {
        Some(winner) => *winner,
        None => None,
    }
}

// Marks a vertex, and puts it last in the row if it is new there.
fn mark(marks: &mut Vec<bool>, row: &mut Vec<u32>, v: u32) -> Result<(), AllocError>
    requires { v < length marks.old.items }
    ensures { OnOk result (length marks.new.items ≡ length marks.old.items) }
{
    if !marks[v as usize] {
        row.push(v)?;
        marks[v as usize] = true;
    }
    Ok(())
}

// Marks the vertices that edges lead to.
fn mark_targets(edges: &[Edge], marks: &mut Vec<bool>, row: &mut Vec<u32>) -> Result<(), AllocError>
    requires { All (λ edge. edge.to < length marks.old.items) edges.now }
    ensures { OnOk result (length marks.new.items ≡ length marks.old.items) }
{
    for edge in edges {
        mark(marks, row, edge.to)?;
    }
    Ok(())
}

// Marks the vertices that an edge leads to from this one. From one with a winner none does.
fn mark_next(
    game: &GuardedGame,
    winners: &[Option<Player>],
    v: u32,
    marks: &mut Vec<bool>,
    row: &mut Vec<u32>,
) -> Result<(), AllocError>
    requires vertex { v < length (graph_of game.now) }
    requires marks { length marks.old.items ≡ length (graph_of game.now) }
    ensures { OnOk result (length marks.new.items ≡ length (graph_of game.now)) }
{
    // The contract of `vertices` has the properties of every game.
    let _count = game.vertices();
    match winner_of(winners, v) {
        Some(_) => Ok(()),
        None => mark_targets(game.edges(v), marks, row),
    }
}

// Marks for the vertices that plays from this one can come to, in whatever product, if they end at vertices that have a
// winner.
fn marks_from(
    alloc: Global,
    game: &GuardedGame,
    winners: &[Option<Player>],
    vertex: u32,
) -> Result<Vec<bool>, AllocError>
    requires { vertex < length (graph_of game.now) }
    ensures { IfOk result (λ marks. length marks.items ≡ length (graph_of game.now)) }
{
    let count = game.vertices();
    let mut marks = vec![in alloc; false; count]?;
    let mut row: Vec<u32> = Vec::new(alloc);
    mark(&mut marks, &mut row, vertex)?;
    for place in 0..count {
        if let Some(v) = row.get(place) {
            let v = *v;
            if (v as usize) < count {
                mark_next(game, winners, v, &mut marks, &mut row)?;
            }
        }
    }
    Ok(marks)
}

// The entries of the vertices that are marked, where each one with a winner is won by it at once.
fn entries(
    alloc: Global,
    game: &GuardedGame,
    winners: &[Option<Player>],
    marks: &[bool],
) -> Result<Vec<Entry>, AllocError>
    requires { length marks.now ≡ length game.now.vertices }
    ensures { IfOk result
        (λ entries. entries.items ≡ marked_entries (settled_game game.now winners.now) marks.now) }
{
    let mut entries = Vec::new(alloc);
    for v in 0..game.vertices() {
        if marks[v] {
            entries.push(entry(alloc, game, v as u32, winner_of(winners, v as u32))?)?;
        }
    }
    Ok(entries)
}

// The place of the vertex in a part of the game, if it is there.
fn placed(game: &GuardedGame, vertex: u32, part: GuardedGame) -> Option<Reached>
    requires { vertex < length game.now.vertices }
    ensures game { IfSome result (λ found. found.game ≡ part) }
    ensures whole { IfSome result (λ found. IsGame part) }
    ensures vertex { IfSome result (λ found. (id : ℕ) × (slice_get (vertex_ids game.now.vertices) vertex ≡ Some id) ×
        (slice_get (vertex_ids part.vertices) found.vertex ≡ Some id)) }
{
    // The contract of `vertices` has the properties of every game.
    let _count = part.vertices();
    let id = game.id(vertex);
    match part.find(id) {
        Some(vertex) => Some(Reached { game: part, vertex }),
        None => None,
    }
}

// The part of the game that plays from the vertex can come to, where each vertex with a winner is won by it at once.
// The list may end before the vertices do.
pub(crate) fn reached_settled(
    alloc: Global,
    game: &GuardedGame,
    winners: &[Option<Player>],
    vertex: u32,
) -> Result<Option<Reached>, AllocError>
    requires vertex { vertex < length (graph_of game.now) }
    // Only a dual has the highest priority.
    requires limit { ¬ (IsAtLimit game.now) }
    ensures features { IfOk result (λ found. IfSome found (λ part. part.game.features ≡ game.now.features)) }
    ensures vertex { IfOk result (λ found. IfSome found (λ part. part.vertex < length (graph_of part.game))) }
    ensures wins { IfOk result (λ found. IfSome found (λ part. (p : List Bool) →
        HasWinnersOf (graph_of (settled_game game.now winners.now)) vertex p (graph_of part.game) part.vertex)) }
{
    // The contract of `vertices` has the properties of every game.
    let _count = game.vertices();
    let marks = marks_from(alloc, game, winners, vertex)?;
    let entries = entries(alloc, game, winners, &marks)?;
    if entries.as_slice().is_empty() {
        return Ok(None);
    }
    match GuardedGame::of(alloc, entries, game.features()) {
        Ok(part) => Ok(placed(game, vertex, part)),
        Err(GameFault::Memory) => Err(AllocError),
        Err(_) => Ok(None),
    }
}

/// Returns the part of the game that plays from the vertex can come to, in whatever product, and the vertex's place
/// there. Its vertices keep identifiers, owners, priorities, edges and their order. In each product the same player
/// wins from the vertex. Returns nothing if it could not make the part a game.
///
/// The contract leaves out speed alone: no clause says how small the part is, or that there is one.
pub fn reached_game(
    alloc: Global,
    game: &GuardedGame,
    vertex: u32,
) -> Result<Option<Reached>, AllocError>
    requires vertex { vertex < length (graph_of game.now) }
    // Only a dual has the highest priority.
    requires limit { ¬ (IsAtLimit game.now) }
    ensures features { IfOk result (λ found. IfSome found (λ part. part.game.features ≡ game.now.features)) }
    ensures vertex { IfOk result (λ found. IfSome found (λ part. part.vertex < length (graph_of part.game))) }
    ensures wins { IfOk result (λ found. IfSome found (λ part. (p : List Bool) →
        HasWinnersOf (graph_of game.now) vertex p (graph_of part.game) part.vertex)) }
{
    reached_settled(alloc, game, &[], vertex)
}
