//! The moves of a player that a play can come to.
ghost use Rattle.std.specs.Prelude.{◌≡◌, ◌↔◌, ◌<◌, [], ◌∷◌, Some, IfOk, IsTrue, OnOk, length, slice_index_or, true, false};
ghost use Rattle.vpg_hope.specs.Games.{owner_of};
ghost use Rattle.vpg_hope.specs.Strategies.{AllowsMove};
ghost use Rattle.vpg_measure.specs.Views.{strategy_of};
ghost use Rattle.vpg_why.specs.Played.{ArePlayed, AreReached, move_if};
ghost use Rattle.vpg_why.specs.Searched.{AreNoted, AreQueued, IsBegun};

use std::alloc::{AllocError, Global};
use vpg_hope::Arena;
use vpg_sides::Player;

// Whether a move to this vertex is allowed: Even makes the chosen one, Odd any.
fn allows(owner: Player, choice: Option<u32>, w: u32) -> bool
    ensures { IsTrue result ↔ (owner ≡ Player.Even → choice ≡ Some w) }
{
    match owner {
        Player::Odd => true,
        Player::Even => match choice {
            Some(chosen) => chosen == w,
            None => false,
        },
    }
}

// Marks a vertex that is not marked yet, and puts it last.
pub(crate) fn note(marks: &mut Vec<bool>, queue: &mut Vec<u32>, w: u32) -> Result<(), AllocError>
    requires queued { AreQueued marks.old.items queue.old.items }
    requires inside { w < length marks.old.items }
    ensures { OnOk result (AreNoted (λ v. v ≡ w) marks.old.items queue.old.items marks.new.items queue.new.items) }
{
    if !marks[w as usize] {
        queue.push(w)?;
        marks[w as usize] = true;
    }
    Ok(())
}

// Notes each vertex that a move from this one leads to.
fn visit(
    arena: &Arena,
    moves: &[Option<u32>],
    v: u32,
    marks: &mut Vec<bool>,
    queue: &mut Vec<u32>,
) -> Result<(), AllocError>
    requires vertex { v < length arena.now }
    requires marks { length marks.old.items ≡ length arena.now }
    requires moves { length moves.now ≡ length arena.now }
    requires queued { AreQueued marks.old.items queue.old.items }
    ensures { OnOk result (AreNoted (AllowsMove arena.now Player.Even (strategy_of moves.now) v)
        marks.old.items queue.old.items marks.new.items queue.new.items) }
{
    let owner = arena.owner(v);
    let choice = moves[v as usize];
    let successors = arena.kept(v);
    for w in successors {
        if allows(owner, choice, *w) {
            note(marks, queue, *w)?;
        }
    }
    Ok(())
}

// Visits the vertices in the order in which they are found.
fn search(
    arena: &Arena,
    moves: &[Option<u32>],
    first: u32,
    marks: &mut Vec<bool>,
    queue: &mut Vec<u32>,
) -> Result<(), AllocError>
    requires moves { length moves.now ≡ length arena.now }
    requires marks { length marks.old.items ≡ length arena.now }
    requires begun { IsBegun first marks.old.items queue.old.items }
    ensures { OnOk result (AreReached arena.now moves.now first marks.new.items) }
{
    for place in 0..marks.len() {
        if place < queue.len() {
            let v = queue[place];
            visit(arena, moves, v, marks, queue)?;
        }
    }
    Ok(())
}

// Marks the vertices that a play from the first one can come to.
pub(crate) fn reached(
    alloc: Global,
    arena: &Arena,
    moves: &[Option<u32>],
    first: u32,
) -> Result<Vec<bool>, AllocError>
    requires first { first < length arena.now }
    requires moves { length moves.now ≡ length arena.now }
    ensures { IfOk result (λ marks. AreReached arena.now moves.now first marks.items) }
{
    let mut marks = vec![in alloc; false; arena.vertices() as usize]?;
    let mut queue = Vec::new(alloc);
    note(&mut marks, &mut queue, first)?;
    search(arena, moves, first, &mut marks, &mut queue)?;
    Ok(marks)
}

// The move at a vertex, if it is Even's and a play can come to it.
fn move_at(arena: &Arena, moves: &[Option<u32>], is_reached: bool, v: u32) -> Option<u32>
    requires vertex { v < length arena.now }
    requires moves { length moves.now ≡ length arena.now }
    ensures { result ≡ move_if (owner_of arena.now v) is_reached (strategy_of moves.now v) }
{
    match arena.owner(v) {
        Player::Even if is_reached => moves[v as usize],
        _ => None,
    }
}

// Of Even's moves, those that a play from the first vertex can come to, if Odd moves along any edge.
pub(crate) fn played(
    alloc: Global,
    arena: &Arena,
    moves: &[Option<u32>],
    first: u32,
) -> Result<Vec<Option<u32>>, AllocError>
    requires first { first < length arena.now }
    requires moves { length moves.now ≡ length arena.now }
    ensures { IfOk result (λ played. ArePlayed arena.now moves.now first played.items) }
{
    let marks = reached(alloc, arena, moves, first)?;
    let mut played = Vec::new(alloc);
    for v in 0..arena.vertices() {
        played.push(move_at(arena, moves, marks[v as usize], v))?;
    }
    Ok(played)
}
