//! Vertices that can be reached over edges that may be there.
ghost use Rattle.std.specs.Prelude.{◌≡◌, ◌≢◌, ◌↔◌, ◌<◌, ℕ, None, Some, IfOk, IsTrue, OnOk, length, slice_index_or, true, false};
ghost use Rattle.vpg_guards.specs.Formula.{IsBelow};
ghost use Rattle.vpg_guards.specs.Known.{kleene};
ghost use Rattle.vpg_game.specs.Game.{graph_of, vertex_in};
ghost use Rattle.vpg_why.specs.Reachable.{AreReachable, MayStep};
ghost use Rattle.vpg_why.specs.Searched.{AreNoted, AreQueued, IsBegun};

use crate::reaching::note;
use std::alloc::{AllocError, Global};
use vpg_game::{Edge, GuardedGame};
use vpg_guards::Tri;
use vpg_partial::Partial;
use vpg_sides::Player;

// Whether the listed moves are those of this player.
fn is_mover(mover: Option<Player>, owner: Player) -> bool
    ensures { IsTrue result ↔ (mover ≡ Some owner) }
{
    match (mover, owner) {
        (Some(Player::Even), Player::Even) => true,
        (Some(Player::Odd), Player::Odd) => true,
        _ => false,
    }
}

// The move of a vertex; none if the list has none.
fn move_of(moves: &[Option<u32>], v: u32) -> Option<u32>
    ensures { result ≡ slice_index_or moves.now v None }
{
    match moves.get(v as usize) {
        Some(listed) => *listed,
        None => None,
    }
}

// Whether a move leads to this vertex.
fn leads_to(listed: Option<u32>, w: u32) -> bool
    ensures { IsTrue result ↔ (listed ≡ Some w) }
{
    match listed {
        Some(m) => m == w,
        None => false,
    }
}

// Whether an edge may be taken: it may be there, and leads to the listed vertex if moves are listed.
fn may_take(known: &[Tri], is_listed: bool, listed: Option<u32>, edge: &Edge) -> bool
    requires { IsBelow (length known.now) edge.now.guard }
    ensures { IsTrue result ↔ ((kleene known.now edge.now.guard ≢ Tri.No)
        × (IsTrue is_listed → listed ≡ Some edge.now.to)) }
{
    match edge.guard.kleene(known) {
        Tri::No => false,
        Tri::Unknown | Tri::Yes => !is_listed || leads_to(listed, edge.to),
    }
}

// Notes each vertex that a step from this one leads to.
fn visit(
    game: &GuardedGame,
    known: &[Tri],
    mover: Option<Player>,
    moves: &[Option<u32>],
    v: u32,
    marks: &mut Vec<bool>,
    queue: &mut Vec<u32>,
) -> Result<(), AllocError>
    requires vertex { v < length game.now.vertices }
    requires known { length known.now ≡ game.now.features }
    requires marks { length marks.old.items ≡ length game.now.vertices }
    requires queued { AreQueued marks.old.items queue.old.items }
    ensures { OnOk result (AreNoted (MayStep (graph_of game.now) known.now mover moves.now v)
        marks.old.items queue.old.items marks.new.items queue.new.items) }
{
    let _count = game.vertices();
    let is_listed = is_mover(mover, game.owner(v));
    let listed = move_of(moves, v);
    let edges = game.edges(v);
    for e in edges {
        if may_take(known, is_listed, listed, e) {
            note(marks, queue, e.to)?;
        }
    }
    Ok(())
}

// Visits the vertices in the order in which they are found.
fn search(
    game: &GuardedGame,
    known: &[Tri],
    mover: Option<Player>,
    moves: &[Option<u32>],
    first: u32,
    marks: &mut Vec<bool>,
    queue: &mut Vec<u32>,
) -> Result<(), AllocError>
    requires known { length known.now ≡ game.now.features }
    requires marks { length marks.old.items ≡ length game.now.vertices }
    requires begun { IsBegun first marks.old.items queue.old.items }
    ensures { OnOk result (AreReachable (graph_of game.now) known.now mover moves.now first marks.new.items) }
{
    for place in 0..marks.len() {
        if place < queue.len() {
            let v = queue[place];
            visit(game, known, mover, moves, v, marks, queue)?;
        }
    }
    Ok(())
}

/// Marks the vertices that can be reached from the first one under what is known, over each edge that may be there. If
/// moves of a player are listed, only these lead on from that player's vertices. A vertex past the end of the list has
/// no move.
///
/// With the moves of `winning_moves` these are the vertices that a play by them can come to. The only error is a lack
/// of memory.
pub fn reachable(
    alloc: Global,
    game: &GuardedGame,
    known: &Partial,
    mover: Option<Player>,
    moves: &[Option<u32>],
    first: u32,
) -> Result<Vec<bool>, AllocError>
    requires known { length known.now ≡ game.now.features }
    requires first { first < length game.now.vertices }
    ensures { IfOk result (λ marks.
        AreReachable (graph_of game.now) known.now mover moves.now first marks.items) }
{
    let mut marks = vec![in alloc; false; game.vertices()]?;
    let mut queue = Vec::new(alloc);
    note(&mut marks, &mut queue, first)?;
    search(
        game,
        known.values(),
        mover,
        moves,
        first,
        &mut marks,
        &mut queue,
    )?;
    Ok(marks)
}
