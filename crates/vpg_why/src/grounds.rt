//! A guess at a reason: decisions that may alone leave nothing to be found. The search tries it before it trusts it.
ghost use Rattle.std.specs.Prelude.{◌≡◌, ◌<◌, ◌≤◌, ℕ, Bool, true, false, List, length, slice_index_or, IfOk};
ghost use Rattle.vpg_guards.specs.Formula.{IsBelow};
ghost use Rattle.vpg_measure.specs.Games.{ArePageGames};
ghost use Rattle.vpg_partial.specs.TableLaws.{AreChoicesOf};
ghost use Rattle.vpg_why.specs.Explained.{choices};
ghost use Rattle.vpg_why.specs.Reasons.{marked};
ghost use Rattle.vpg_why.specs.Suffices.{IsAim};

use crate::asking::{closed, games_with};
use crate::easing::opposite;
use crate::question::{Aim, Limits};
use crate::reaching::reached;
use crate::settling::moves_by;
use crate::winning::{caution, table_of};
use std::alloc::{AllocError, Global};
use vpg_game::{Edge, GuardedGame};
use vpg_guards::Tri;
use vpg_hope::Arena;
use vpg_measure::{Order, PageGames};
use vpg_partial::{Decision, Partial};
use vpg_sides::{Player, Which};

/// Returns the decisions that are marked.
pub(crate) fn kept_by(
    alloc: Global,
    decisions: &[Decision],
    marks: &[bool],
) -> Result<Vec<Decision>, AllocError>
    requires { length marks.now ≡ length decisions.now }
    ensures { IfOk result (λ kept. choices kept.items ≡ marked marks.now (choices decisions.now)) }
{
    let mut kept = Vec::new(alloc);
    for i in 0..decisions.len() {
        if marks[i] {
            kept.push(decisions[i])?;
        }
    }
    Ok(kept)
}

// The known value of an edge's guard.
fn value_of(edge: &Edge, known: &[Tri]) -> Tri
    requires { IsBelow (length known.now) edge.now.guard }
{
    edge.guard.kleene(known)
}

// Adds the features that the moves at a vertex rest on: those that make the chosen move be there, otherwise those of
// each edge that is not there.
fn push_used(
    game: &GuardedGame,
    known: &[Tri],
    v: u32,
    chosen: Option<u32>,
    used: &mut Vec<u16>,
) -> Result<(), AllocError>
    requires vertex { v < length game.now.vertices }
    requires known { length known.now ≡ game.now.features }
{
    let _count = game.vertices();
    let edges = game.edges(v);
    for edge in edges {
        let is_used = match (chosen, value_of(edge, known)) {
            (Some(to), Tri::Yes) => to == edge.to,
            (None, Tri::No) => true,
            _ => false,
        };
        if is_used {
            edge.guard.push_features(used)?;
        }
    }
    Ok(())
}

// The winner's move at a vertex; nothing at one of the loser.
fn chosen_at(arena: &Arena, moves: &[Option<u32>], v: u32) -> Option<u32>
    requires vertex { v < length arena.now }
    requires moves { length moves.now ≡ length arena.now }
{
    match arena.owner(v) {
        Player::Even => moves[v as usize],
        Player::Odd => None,
    }
}

// Marks these features.
fn mark_each(used: &mut [bool], features: &[u16]) {
    for feature in features {
        if let Some(it) = used.get_mut(*feature as usize) {
            *it = true;
        }
    }
}

// Marks the features that the win of these moves from the vertex rests on.
fn features_used(
    alloc: Global,
    game: &GuardedGame,
    known: &[Tri],
    arena: &Arena,
    moves: &[Option<u32>],
    vertex: u32,
) -> Result<Vec<bool>, AllocError>
    requires vertex { vertex < length game.now.vertices }
    requires known { length known.now ≡ game.now.features }
    requires arena { length arena.now ≡ length game.now.vertices }
    requires moves { length moves.now ≡ length arena.now }
{
    let marks = reached(alloc, arena, moves, vertex)?;
    let mut used = vec![in alloc; false; known.len()]?;
    let mut named = Vec::new(alloc);
    for v in 0..arena.vertices() {
        if marks[v as usize] {
            named.clear();
            push_used(game, known, v, chosen_at(arena, moves, v), &mut named)?;
            mark_each(&mut used, &named);
        }
    }
    Ok(used)
}

// The features on which it rests that no product meets the aim under these games; nothing if a limit was met.
fn used_under(
    alloc: Global,
    order: &Order,
    games: &PageGames,
    which: Which,
    vertex: u32,
    decisions: &[Decision],
    limits: Limits,
    looks: &mut u64,
) -> Result<Option<Vec<bool>>, AllocError>
    requires games { ArePageGames order.now.game order.now.diagram (choices decisions.now) games.now }
    requires vertex { vertex < length order.now.game.vertices }
    ensures { IfOk result (λ found. looks.new ≤ looks.old) }
{
    if *looks == 0 {
        return Ok(None);
    }
    let winner = opposite(which);
    let arena = caution(alloc, order.game(), games.known(), winner)?;
    let Some(table) = table_of(alloc, order.game(), games, winner, &arena, limits, looks)? else {
        return Ok(None);
    };
    let Some(moves) = moves_by(alloc, games.shape(winner), &arena, &table, vertex)? else {
        return Ok(None);
    };
    let used = features_used(
        alloc,
        order.game(),
        games.known().values(),
        &arena,
        &moves,
        vertex,
    )?;
    Ok(Some(used))
}

// A goal for some decisions: a conflict, or a feature known as it is.
#[derive(Clone, Copy)]
enum Goal {
    Conflict,
    Known { feature: usize, value: Tri },
}

// A number of first decisions, and the marked ones after them.
fn with_first(
    alloc: Global,
    decisions: &[Decision],
    marks: &[bool],
    first: usize,
) -> Result<Vec<Decision>, AllocError>
    requires { length marks.now ≡ length decisions.now }
    ensures { IfOk result (λ kept.
        (more : List Bool) × (choices kept.items ≡ marked more (choices decisions.now))) }
{
    let mut more = Vec::new(alloc);
    for i in 0..marks.len() {
        more.push(i < first || marks[i])?;
    }
    kept_by(alloc, decisions, &more)
}

// Whether the first decisions, and those marked after them, show it. A conflict shows everything.
fn is_shown(
    alloc: Global,
    order: &Order,
    decisions: &[Decision],
    marks: &[bool],
    first: usize,
    goal: Goal,
) -> Result<bool, AllocError>
    requires named { AreChoicesOf order.now.diagram.lines (choices decisions.now) }
    requires marks { length marks.now ≡ length decisions.now }
{
    let kept = with_first(alloc, decisions, marks, first)?;
    match (closed(alloc, order, &kept)?, goal) {
        (None, _) => Ok(true),
        (Some(_), Goal::Conflict) => Ok(false),
        (Some(known), Goal::Known { feature, value }) => {
            Ok(known.values().get(feature) == Some(&value))
        }
    }
}

// A number of first decisions that show it, found by halving: all of them do.
fn fewest(
    alloc: Global,
    order: &Order,
    decisions: &[Decision],
    marks: &[bool],
    goal: Goal,
) -> Result<usize, AllocError>
    requires named { AreChoicesOf order.now.diagram.lines (choices decisions.now) }
    requires marks { length marks.now ≡ length decisions.now }
    ensures { IfOk result (λ first. first ≤ length decisions.now) }
{
    let mut least = 0;
    let mut most = decisions.len();
    for _ in 0..decisions.len() {
        if least < most {
            let middle = least + (most - least) / 2;
            if is_shown(alloc, order, decisions, marks, middle, goal)? {
                most = middle;
            } else {
                least = middle + 1;
            }
        }
    }
    Ok(most)
}

// The first marked feature that is known otherwise.
fn differing(known: &Partial, now: &Partial, used: &[bool]) -> Option<Goal> {
    for (feature, value) in known.values().iter().enumerate() {
        if used.get(feature) == Some(&true)
            && *value != Tri::Unknown
            && now.values().get(feature) != Some(value)
        {
            return Some(Goal::Known {
                feature,
                value: *value,
            });
        }
    }
    None
}

// The goal that the marked decisions do not show yet: that marked features are known as they are, or, if there are
// none, a conflict.
fn unshown(
    alloc: Global,
    order: &Order,
    decisions: &[Decision],
    marks: &[bool],
    wanted: Option<(&Partial, &[bool])>,
) -> Result<Option<Goal>, AllocError>
    requires named { AreChoicesOf order.now.diagram.lines (choices decisions.now) }
    requires marks { length marks.now ≡ length decisions.now }
{
    let kept = with_first(alloc, decisions, marks, 0)?;
    match (closed(alloc, order, &kept)?, wanted) {
        (None, _) => Ok(None),
        (Some(_), None) => Ok(Some(Goal::Conflict)),
        (Some(now), Some((known, used))) => Ok(differing(known, &now, used)),
    }
}

// Marks further decisions until the marked ones show all that is wanted.
fn mark_until_shown(
    alloc: Global,
    order: &Order,
    decisions: &[Decision],
    marks: Vec<bool>,
    wanted: Option<(&Partial, &[bool])>,
) -> Result<Vec<bool>, AllocError>
    requires named { AreChoicesOf order.now.diagram.lines (choices decisions.now) }
    requires marks { length marks.items ≡ length decisions.now }
    ensures { IfOk result (λ marked. length marked.items ≡ length decisions.now) }
{
    let mut marks = marks;
    for _ in 0..decisions.len() {
        let Some(goal) = unshown(alloc, order, decisions, &marks, wanted)? else {
            return Ok(marks);
        };
        let first = fewest(alloc, order, decisions, &marks, goal)?;
        if first > 0 {
            marks[first - 1] = true;
        }
    }
    Ok(marks)
}

/// Returns a mark for each of the first decisions, and for each on a marked feature.
pub(crate) fn decided(
    alloc: Global,
    decisions: &[Decision],
    begun: usize,
    used: &[bool],
) -> Result<Vec<bool>, AllocError>
    ensures count { IfOk result (λ marks. length marks.items ≡ length decisions.now) }
    ensures first { IfOk result (λ marks. (k : ℕ) → k < begun → k < length decisions.now →
        slice_index_or marks.items k false ≡ true) }
{
    let mut marks = vec![in alloc; true; decisions.len()]?;
    for i in begun..decisions.len() {
        marks[i] = used.get(decisions[i].feature as usize) == Some(&true);
    }
    Ok(marks)
}

/// Returns a guess at the decisions that alone leave nothing to be found: a mark for each.
///
/// If the decisions contradict the diagram, these are some that do so alone. Otherwise they are those that the winner's
/// moves rest on: they make known that these edges are there, and that the loser lacks others. The first ones, which
/// the search begins with, are always marked.
pub(crate) fn grounds(
    alloc: Global,
    order: &Order,
    aim: Aim,
    decisions: &[Decision],
    begun: usize,
    limits: Limits,
    looks: &mut u64,
) -> Result<Vec<bool>, AllocError>
    requires named { AreChoicesOf order.now.diagram.lines (choices decisions.now) }
    requires aim { IsAim order.now.game aim }
    ensures count { IfOk result (λ marks. length marks.items ≡ length decisions.now) }
    ensures looks { IfOk result (λ marks. looks.new ≤ looks.old) }
{
    let none = decided(alloc, decisions, begun, &[])?;
    let Aim::Won { which, vertex } = aim else {
        return mark_until_shown(alloc, order, decisions, none, None);
    };
    let Some(games) = games_with(alloc, order, decisions)? else {
        return mark_until_shown(alloc, order, decisions, none, None);
    };
    match used_under(
        alloc, order, &games, which, vertex, decisions, limits, looks,
    )? {
        Some(used) => {
            let marks = decided(alloc, decisions, begun, &used)?;
            mark_until_shown(alloc, order, decisions, marks, Some((games.known(), &used)))
        }
        None => Ok(vec![in alloc; true; decisions.len()]?),
    }
}
