//! The winner at a vertex in the products that are left.
ghost use Rattle.std.specs.Prelude.{◌≡◌, ◌<◌, length, IfOk, IfSome, IsTrue};
ghost use Rattle.vpg_game.specs.Game.{graph_of};
ghost use Rattle.vpg_partial.specs.TableLaws.{AreChoicesOf};
ghost use Rattle.vpg_why.specs.Explained.{choices};
ghost use Rattle.vpg_why.specs.Suffices.{IsSettled};
ghost use Rattle.vpg_winners.specs.Decided.{IsDecidedAs, IsDecidedExact, decided_by};
ghost use Rattle.vpg_winners.specs.OpenParts.{IsPartOf};

use crate::dividing::Effort;
use crate::finding::first_found;
use crate::part::{OF_SEVERAL, on_part, order_on, part_of};
use crate::two_sets::two_sets;
use std::alloc::{AllocError, Global};
use vpg_measure::Order;
use vpg_open::Reached;
use vpg_partial::Decision;
use vpg_sides::Which;
use vpg_why::{Aim, Example, Found, Limits, Question, is_small, search_all};

/// The winner at a vertex in the products that are left.
#[derive(Drop)]
pub enum Decided {
    /// Even wins in each, and there is one.
    Won,
    /// Odd wins in each, and there is one.
    Lost,
    /// Even wins in one product, and Odd in another.
    Mixed { won: Example, lost: Example },
    /// No product is left.
    Empty,
    /// A limit was met.
    Unsettled,
}

// The joint result of two searches: for a product that Even wins, and for one that Odd wins.
fn both(won: Found, lost: Found) -> Decided
    ensures { result ≡ decided_by won lost }
{
    match won {
        Found::Product(won) => match lost {
            Found::Product(lost) => Decided::Mixed { won, lost },
            Found::Nothing => Decided::Won,
            Found::Unsettled => Decided::Unsettled,
        },
        Found::Nothing => match lost {
            Found::Product(_) => Decided::Lost,
            Found::Nothing => Decided::Empty,
            Found::Unsettled => Decided::Unsettled,
        },
        Found::Unsettled => Decided::Unsettled,
    }
}

// The winner by the two sets of products; nothing if a limit is met.
fn decide_by_sets(
    alloc: Global,
    order: &Order,
    vertex: u32,
    part: &Reached,
) -> Result<Option<Decided>, AllocError>
    requires vertex { vertex < length order.now.game.vertices }
    requires part { IsPartOf order.now vertex part.now.game part.now.vertex }
    ensures decided { IfOk result (λ found. IfSome found
        (IsDecidedAs (graph_of order.now.game) order.now.diagram.lines (choices order.now.decisions) vertex)) }
    ensures exact { IfOk result (λ found. IfSome found IsDecidedExact) }
{
    // Properties of every order, for the proof.
    let _order = order.game();
    let two = match two_sets(alloc, order, vertex, part, Effort::First)? {
        Some(two) => two,
        None => return Ok(None),
    };
    let won = first_found(alloc, &two.sets, two.won)?;
    let lost = first_found(alloc, &two.sets, two.lost)?;
    Ok(Some(both(won, lost)))
}

// The winner by two searches: for a product that Even wins, with half of the trials of the limits, and then for one
// that Odd wins, with the rest.
fn search_both(
    alloc: Global,
    order: &Order,
    vertex: u32,
    decisions: &[Decision],
    limits: Limits,
) -> Result<Decided, AllocError>
    requires named { AreChoicesOf order.now.diagram.lines (choices decisions.now) }
    requires vertex { vertex < length order.now.game.vertices }
    ensures decided { IfOk result
        (IsDecidedAs (graph_of order.now.game) order.now.diagram.lines (choices decisions.now) vertex) }
    ensures settled { IfOk result (λ decided.
        IsSettled order.now.game order.now.diagram limits (Question.Lost (Aim.Won Which.Hopeful vertex))
        (choices decisions.now) →
        IsSettled order.now.game order.now.diagram limits (Question.Lost (Aim.Won Which.Dual vertex))
        (choices decisions.now) →
        IsDecidedExact decided) }
{
    // Properties of every order, for the proof.
    let _order = order.game();
    let mut looks = limits.budget;
    let mut trials = limits.trials / 2;
    let rest = limits.trials - trials;
    let aim = Aim::Won {
        which: Which::Hopeful,
        vertex,
    };
    let won = search_all(
        alloc,
        order,
        aim,
        decisions,
        limits,
        &mut looks,
        &mut trials,
    )?;
    trials += rest;
    let aim = Aim::Won {
        which: Which::Dual,
        vertex,
    };
    let lost = search_all(
        alloc,
        order,
        aim,
        decisions,
        limits,
        &mut looks,
        &mut trials,
    )?;
    Ok(both(won, lost))
}

// Whether a result met no limit.
fn is_exact(decided: &Decided) -> bool
    ensures { IsTrue result → IsDecidedExact decided.now }
{
    match decided {
        Decided::Mixed { won, lost } => won.first && lost.first,
        Decided::Unsettled => false,
        _ => true,
    }
}

// The winner by searches on the part. Returns nothing if searches on the whole game have to show more.
fn decide_on_part(
    alloc: Global,
    order: &Order,
    vertex: u32,
    part: Reached,
    limits: Limits,
) -> Result<Option<Decided>, AllocError>
    requires { IsPartOf order.now vertex part.game part.vertex }
    ensures decided { IfOk result (λ found. IfSome found
        (IsDecidedAs (graph_of order.now.game) order.now.diagram.lines (choices order.now.decisions) vertex)) }
    ensures settled { IfOk result (λ found. IfSome found (λ decided.
        IsSettled order.now.game order.now.diagram limits (Question.Lost (Aim.Won Which.Hopeful vertex))
        (choices order.now.decisions) →
        IsDecidedExact decided)) }
{
    // Properties of every order, for the proof.
    let _order = order.game();
    let part = match order_on(alloc, order, vertex, part)? {
        Some(part) => part,
        None => return Ok(None),
    };
    let decisions = part.order.decisions();
    let own = on_part(alloc, &part.order, limits, OF_SEVERAL)?;
    let decided = search_both(alloc, &part.order, part.vertex, decisions, own)?;
    if is_exact(&decided) {
        return Ok(Some(decided));
    }
    if is_small(alloc, order, order.decisions(), limits)? {
        return Ok(None);
    }
    Ok(Some(decided))
}

// The winner by the part that decides the vertex. Returns nothing if searches on the whole game have to show more.
fn decide_at(
    alloc: Global,
    order: &Order,
    vertex: u32,
    limits: Limits,
) -> Result<Option<Decided>, AllocError>
    requires { vertex < length order.now.game.vertices }
    ensures decided { IfOk result (λ found. IfSome found
        (IsDecidedAs (graph_of order.now.game) order.now.diagram.lines (choices order.now.decisions) vertex)) }
    ensures settled { IfOk result (λ found. IfSome found (λ decided.
        IsSettled order.now.game order.now.diagram limits (Question.Lost (Aim.Won Which.Hopeful vertex))
        (choices order.now.decisions) →
        IsDecidedExact decided)) }
{
    let part = match part_of(alloc, order, vertex)? {
        Some(part) => part,
        None => return Ok(None),
    };
    if let Some(decided) = decide_by_sets(alloc, order, vertex, &part)? {
        return Ok(Some(decided));
    }
    let found = decide_on_part(alloc, order, vertex, part, limits)?;
    Ok(found)
}

/// Returns the winner at the vertex in the products that are left. If both players win some, the answer has the first
/// product of each, if no limit was met.
///
/// The call solves the part of the game that decides the vertex, for all products at once. If a limit is met, it looks
/// there for a product that Even wins, with half of the trials of the limits, and then for one that Odd wins, with the
/// rest. Where these suffice for each case of the open features, each search has them all. The only error is a lack of
/// memory.
pub fn decide(
    alloc: Global,
    order: &Order,
    vertex: u32,
    limits: Limits,
) -> Result<Decided, AllocError>
    requires { vertex < length order.now.game.vertices }
    ensures decided { IfOk result
        (IsDecidedAs (graph_of order.now.game) order.now.diagram.lines (choices order.now.decisions) vertex) }
    ensures settled { IfOk result (λ decided.
        IsSettled order.now.game order.now.diagram limits (Question.Lost (Aim.Won Which.Hopeful vertex))
        (choices order.now.decisions) →
        IsSettled order.now.game order.now.diagram limits (Question.Lost (Aim.Won Which.Dual vertex))
        (choices order.now.decisions) →
        IsDecidedExact decided) }
{
    if let Some(decided) = decide_at(alloc, order, vertex, limits)? {
        return Ok(decided);
    }
    let decided = search_both(alloc, order, vertex, order.decisions(), limits)?;
    Ok(decided)
}
