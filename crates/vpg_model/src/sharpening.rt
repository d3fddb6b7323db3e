//! Guards that are written otherwise, so that their three-valued values are known as early as they can be.
ghost use Rattle.std.specs.Prelude.{◌≡◌, ◌<◌, length, All, IfOk, slice_index_or};
ghost use Rattle.vpg_guards.specs.Writing.{IsReadable};
ghost use Rattle.vpg_game.specs.Game.{graph_of, vertex_ids, priorities_of, no_vertex};
ghost use Rattle.vpg_model.specs.Pairs.{AreNumbered, AreWithin};
ghost use Rattle.vpg_model.specs.Sharpening.{IsSameGame, AreSharp, IsSharpSuccessor, AreSharpSuccessors, IsSharpEntry, AreSharpEntries};

use std::alloc::{AllocError, Global};
use vpg_blake::sharp_form;
use vpg_game::{Edge, Entry, GuardedGame, Successor};

/// Returns an edge as a successor, with a sharp guard.
fn sharp_successor(alloc: Global, edge: &Edge, features: usize) -> Result<Successor, AllocError>
    requires { IsReadable features edge.now.guard }
    ensures { IfOk result (IsSharpSuccessor features edge.now) }
{
    let guard = edge.guard.copy(alloc)?;
    let guard = sharp_form(alloc, guard, features)?;
    Ok(Successor { id: edge.to, guard })
}

/// Returns edges as successors, with sharp guards.
fn sharp_successors(
    alloc: Global,
    edges: &[Edge],
    features: usize,
) -> Result<Vec<Successor>, AllocError>
    requires { All (λ edge. IsReadable features edge.guard) edges.now }
    ensures { IfOk result (λ successors. AreSharpSuccessors features edges.now successors.items) }
{
    let mut successors = Vec::with_capacity(alloc, edges.len())?;
    for edge in edges {
        successors.push(sharp_successor(alloc, edge, features)?)?;
    }
    Ok(successors)
}

/// Returns the entry of a vertex.
fn sharp_entry(alloc: Global, game: &GuardedGame, v: u32) -> Result<Entry, AllocError>
    requires { v < length game.now.vertices }
    ensures { IfOk result (λ entry.
        IsSharpEntry game.now.features (slice_index_or game.now.vertices v no_vertex) entry) }
{
    // The contract of `vertices` has the properties of every game.
    let _count = game.vertices();
    let successors = sharp_successors(alloc, game.edges(v), game.features())?;
    Ok(Entry {
        id: game.id(v),
        priority: game.priority(v),
        owner: game.owner(v),
        successors,
    })
}

/// Returns the entries of all vertices, and discards the rest of the game.
fn sharp_entries(alloc: Global, game: GuardedGame) -> Result<Vec<Entry>, AllocError>
    ensures { IfOk result (λ entries. AreSharpEntries game.features game.vertices entries.items) }
{
    let count = game.vertices();
    let mut entries = Vec::with_capacity(alloc, count)?;
    for v in 0..count {
        entries.push(sharp_entry(alloc, &game, v as u32)?)?;
    }
    Ok(entries)
}

/// Returns the game with its guards written so that their three-valued values are known as early as they can be
/// (`sharp_form`). It is mostly joined guards that change: `f | !f` becomes `true`.
pub fn sharpened(alloc: Global, game: GuardedGame) -> Result<GuardedGame, AllocError>
    requires numbered { AreNumbered (vertex_ids game.vertices) }
    requires within { AreWithin (priorities_of game.vertices) }
    // Each guard is as true in each product as before, and all else is unchanged.
    ensures same { IfOk result (λ made. IsSameGame (graph_of game) (graph_of made)) }
    ensures ids { IfOk result (λ made. vertex_ids made.vertices ≡ vertex_ids game.vertices) }
    ensures priorities { IfOk result (λ made. priorities_of made.vertices ≡ priorities_of game.vertices) }
    ensures features { IfOk result (λ made. made.features ≡ game.features) }
    // Each guard's value is known as early as it can be, unless the guard is too long for that.
    ensures sharp { IfOk result (λ made. AreSharp game.features (graph_of made)) }
{
    // The contract of `vertices` has the properties of every game.
    let _count = game.vertices();
    let features = game.features();
    let entries = sharp_entries(alloc, game)?;
    match GuardedGame::of(alloc, entries, features) {
        Ok(made) => Ok(made),
        Err(_) => Err(AllocError),
    }
}
