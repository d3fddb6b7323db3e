//! A walk over the plays that a player's moves allow.
ghost use Rattle.std.specs.Prelude.{◌≡◌, ◌++◌, ◌∷◌, [], IfOk, OnOk, false, length, reverse};
ghost use Rattle.vpg_measure.specs.Views.{strategy_of};
ghost use Rattle.vpg_trace.specs.Traces.{IsTrace, IsComplete};
ghost use Rattle.vpg_trace.specs.Walks.{IsWalkFrom, allows, deeper, end_of, end_where, first_visit, fresh_end, is_above, moves_from, opened, visit_at, visit_of, waiting_by, waiting_from, walk, walked};

use std::alloc::{AllocError, Global};
use vpg_hope::Arena;
use vpg_sides::Player;

/// The greatest number of visits in a walk.
pub const MOST_VISITS: usize = 1_000;

/// The number of side branches around a visit at which the walk does not go on from it.
pub const MOST_DEPTH: u32 = 32;

/// The end of a visit, or that it goes on.
#[derive(Clone, Copy, Debug, PartialEq, Eq)]
pub enum End {
    /// A visit for each move from the vertex.
    GoesOn,
    /// Nothing: the visit of this number is of the same vertex, and the way to here leads over it.
    Loop(usize),
    /// Nothing: the visit of this number is of the same vertex, and is elsewhere.
    Seen(usize),
    /// Nothing: there is no move.
    Stands,
    /// Nothing: it has as many side branches around it as are allowed.
    Cut,
}

/// A visit of a vertex.
#[derive(Clone, Copy, Debug, PartialEq, Eq)]
pub struct Visit {
    pub vertex: u32,
    /// The visit that the move to here leaves. The first visit has none.
    pub before: Option<usize>,
    /// The number of side branches around it.
    pub depth: u32,
    pub end: End,
}

/// A walk: its visits, each after the one that it comes from.
#[derive(Drop)]
pub struct Trace {
    pub visits: Vec<Visit>,
    /// Whether some moves were left out, since there are as many visits as allowed.
    pub is_cut: bool,
}

/// A visit that is still to be made.
#[derive(Clone, Copy)]
struct Waiting {
    vertex: u32,
    before: Option<usize>,
    depth: u32,
}

/// Whether a move to this vertex is allowed: Even makes the chosen one, Odd any.
fn allows(owner: Player, choice: Option<u32>, w: u32) -> bool
    ensures { result ≡ allows owner choice w }
{
    match owner {
        Player::Odd => true,
        Player::Even => match choice {
            Some(chosen) => chosen == w,
            None => false,
        },
    }
}

/// Returns the move at a vertex, if there is one.
fn choice_at(moves: &[Option<u32>], v: u32) -> Option<u32>
    ensures { result ≡ strategy_of moves.now v }
{
    match moves.get(v as usize) {
        Some(choice) => *choice,
        None => None,
    }
}

/// Returns the targets of the moves from a vertex.
fn moves_from(
    alloc: Global,
    arena: &Arena,
    moves: &[Option<u32>],
    v: u32,
) -> Result<Vec<u32>, AllocError>
    ensures { IfOk result (λ found. found.items ≡ moves_from arena.now moves.now v) }
{
    let mut found = Vec::new(alloc);
    if v >= arena.vertices() {
        return Ok(found);
    }
    let owner = arena.owner(v);
    let choice = choice_at(moves, v);
    let kept = arena.kept(v);
    for w in kept {
        if allows(owner, choice, *w) {
            found.push(*w)?;
        }
    }
    Ok(found)
}

/// Returns the visit of this number. Past the last one it is a visit of the first vertex, which stands.
pub(crate) fn visit_at(visits: &[Visit], k: usize) -> Visit
    ensures { result ≡ visit_at visits.now k }
{
    match visits.get(k) {
        Some(visit) => *visit,
        None => Visit {
            vertex: 0,
            before: None,
            depth: 0,
            end: End::Stands,
        },
    }
}

/// Whether a visit is this one, or on the way to it.
fn is_above(visits: &[Visit], k: usize, from: Option<usize>) -> bool
    ensures { result ≡ is_above visits.now k (length visits.now) from }
{
    let mut at = from;
    for _ in 0..visits.len() {
        let Some(i) = at else {
            return false;
        };
        if i == k {
            return true;
        }
        at = visit_at(visits, i).before;
    }
    false
}

/// Returns the first visit of a vertex.
fn first_visit(visits: &[Visit], v: u32) -> Option<usize>
    ensures { result ≡ first_visit visits.now v }
{
    visits.iter().position(|visit| visit.vertex == v)
}

/// Returns the end of the first visit of a vertex.
fn fresh_end(depth: u32) -> End
    ensures { result ≡ fresh_end depth }
{
    if depth < MOST_DEPTH {
        End::GoesOn
    } else {
        End::Cut
    }
}

/// Returns the end of a visit with moves; `first` is the first visit of its vertex, if there is one.
fn end_where(visits: &[Visit], before: Option<usize>, depth: u32, first: Option<usize>) -> End
    ensures { result ≡ end_where visits.now before depth first }
{
    match first {
        Some(k) => {
            if is_above(visits, k, before) {
                End::Loop(k)
            } else {
                End::Seen(k)
            }
        }
        None => fresh_end(depth),
    }
}

/// Returns the end of a visit from which these moves lead.
fn end_of(visits: &[Visit], next: Waiting, moves: &[u32]) -> End
    ensures { result ≡ end_of visits.now next moves.now }
{
    match moves {
        [] => End::Stands,
        [_, ..] => end_where(
            visits,
            next.before,
            next.depth,
            first_visit(visits, next.vertex),
        ),
    }
}

/// Returns the depth of a side branch.
fn deeper(depth: u32) -> u32
    ensures { result ≡ deeper depth }
{
    if depth < MOST_DEPTH { depth + 1 } else { depth }
}

/// Puts the visits of these vertices before all that wait, in their order. The last one has this depth, the others are
/// side branches.
fn wait(pending: &mut Vec<Waiting>, at: usize, depth: u32, moves: &[u32]) -> Result<(), AllocError>
    ensures { OnOk result
        (reverse pending.new.items ≡ waiting_from at depth moves.now ++ reverse pending.old.items) }
{
    let count = moves.len();
    let mut own = depth;
    for i in 0..count {
        pending.push(Waiting {
            vertex: moves[count - 1 - i],
            before: Some(at),
            depth: own,
        })?;
        own = deeper(depth);
    }
    Ok(())
}

/// Puts the visits of these vertices before all that wait, if the walk goes on.
fn wait_by(
    end: End,
    pending: &mut Vec<Waiting>,
    at: usize,
    depth: u32,
    moves: &[u32],
) -> Result<(), AllocError>
    ensures { OnOk result
        (reverse pending.new.items ≡ waiting_by end (waiting_from at depth moves.now) ++ reverse pending.old.items) }
{
    match end {
        End::GoesOn => wait(pending, at, depth, moves),
        End::Loop(_) | End::Seen(_) | End::Stands | End::Cut => Ok(()),
    }
}

/// Makes a visit.
fn make_visit(
    alloc: Global,
    arena: &Arena,
    moves: &[Option<u32>],
    next: Waiting,
    pending: &mut Vec<Waiting>,
    visits: &mut Vec<Visit>,
) -> Result<(), AllocError>
    ensures visits { OnOk result
        (visits.new.items ≡ visits.old.items ++ visit_of arena.now moves.now visits.old.items next ∷ []) }
    ensures pending { OnOk result (reverse pending.new.items ≡
        opened arena.now moves.now visits.old.items next ++ reverse pending.old.items) }
{
    let found = moves_from(alloc, arena, moves, next.vertex)?;
    let end = end_of(visits, next, &found);
    wait_by(end, pending, visits.len(), next.depth, &found)?;
    visits.push(Visit {
        vertex: next.vertex,
        before: next.before,
        depth: next.depth,
        end,
    })?;
    Ok(())
}

/// Makes the visits that wait, and those that come to wait then, at most this many.
fn walk(
    alloc: Global,
    arena: &Arena,
    moves: &[Option<u32>],
    most: usize,
    pending: &mut Vec<Waiting>,
) -> Result<Vec<Visit>, AllocError>
    ensures { IfOk result (λ visits. walked visits.items (reverse pending.new.items) ≡
        walk arena.now moves.now most (reverse pending.old.items) []) }
{
    let mut visits = Vec::new(alloc);
    for _ in 0..most {
        let Some(next) = pending.pop() else {
            return Ok(visits);
        };
        make_visit(alloc, arena, moves, next, pending, &mut visits)?;
    }
    Ok(visits)
}

/// Follows the plays from a vertex that these moves of Even allow, whatever Odd does. It makes a visit for each move,
/// depth first, in the order of the game. The walk does not go on again from a vertex that was visited.
///
/// If several moves lead from a vertex, all but the last are side branches. There are at most 1,000 visits, and none in
/// 32 side branches goes on. The only error is a lack of memory.
pub fn follow(
    alloc: Global,
    arena: &Arena,
    moves: &[Option<u32>],
    first: u32,
) -> Result<Trace, AllocError>
    // Each visit comes from an earlier one by an allowed move, and ends as it says.
    ensures trace { IfOk result (λ trace. IsTrace arena.now moves.now first trace.visits.items) }
    // Each allowed move from a visit that goes on is followed, unless the walk was cut.
    ensures complete { IfOk result (λ trace. trace.is_cut ≡ false →
        IsComplete arena.now moves.now trace.visits.items) }
    // There is one such walk.
    ensures walk { IfOk result (λ trace. IsWalkFrom arena.now moves.now first trace.visits.items trace.is_cut) }
{
    let mut pending = Vec::new(alloc);
    pending.push(Waiting {
        vertex: first,
        before: None,
        depth: 0,
    })?;
    let visits = walk(alloc, arena, moves, MOST_VISITS, &mut pending)?;
    let is_cut = !pending.is_empty();
    Ok(Trace { visits, is_cut })
}
