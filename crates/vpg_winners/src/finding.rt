//! Products that meet an aim, by the set of all that do.
ghost use Rattle.std.specs.Prelude.{◌≡◌, ◌<◌, length, IfOk, IfSome, IsTrue};
ghost use Rattle.vpg_diagram.specs.FeatureDiagram.{feature_count};
ghost use Rattle.vpg_sets.specs.Sets.{IsInside};
ghost use Rattle.vpg_why.specs.Explained.{choices};
ghost use Rattle.vpg_why.specs.Found.{IsFound, IsFoundExact, IsWhyLost, IsWhyLostExact, IsWhyLostShown};
ghost use Rattle.vpg_why.specs.Suffices.{EachIsSettled, IsAim, IsSettled};
ghost use Rattle.vpg_winners.specs.Finding.{IsFirstFound, IsSetOfMet};
ghost use Rattle.vpg_winners.specs.OpenParts.{IsPartOf};

use crate::dividing::Effort;
use crate::part::{OF_ONE, edges_of, on_part, order_on, part_of};
use crate::sampling::{last_of, sampled_for};
use crate::trying::{Tried, first_tried, not_tried};
use crate::two_sets::{TwoSets, two_sets};
use std::alloc::{AllocError, Global};
use vpg_measure::Order;
use vpg_open::{Reached, is_open};
use vpg_sets::{Set, Sets};
use vpg_sides::Which;
use vpg_why::{Aim, Example, Found, Limits, Question, WhyLost, is_small, losing_decisions};

/// The products that meet an aim, as a set, and its arena.
#[derive(Drop)]
pub(crate) struct Met {
    pub(crate) sets: Sets,
    pub(crate) set: Set,
}

/// Returns the first product of the set, or nothing if it is empty.
pub(crate) fn first_found(alloc: Global, sets: &Sets, set: Set) -> Result<Found, AllocError>
    requires { IsInside sets.now set }
    ensures { IfOk result (IsFirstFound sets.now set) }
{
    match sets.first(alloc, set)? {
        Some(features) => Ok(Found::Product(Example {
            features,
            first: true,
        })),
        None => Ok(Found::Nothing),
    }
}

// The products of one of two sets: those that meet the aim of this table.
fn side(two: TwoSets, which: Which) -> Met
    ensures sets { result.sets ≡ two.sets }
    ensures hopeful { which ≡ Which.Hopeful → result.set ≡ two.won }
    ensures dual { which ≡ Which.Dual → result.set ≡ two.lost }
{
    let TwoSets { sets, won, lost } = two;
    match which {
        Which::Hopeful => Met { sets, set: won },
        Which::Dual => Met { sets, set: lost },
    }
}

/// Returns the part that decides the vertex, or nothing if it is not open on the page.
pub(crate) fn open_part(
    alloc: Global,
    order: &Order,
    vertex: u32,
) -> Result<Option<Reached>, AllocError>
    requires { vertex < length order.now.game.vertices }
    ensures { IfOk result (λ found. IfSome found (λ part. IsPartOf order.now vertex part.game part.vertex)) }
{
    if !is_open(order, vertex) {
        return Ok(None);
    }
    let found = part_of(alloc, order, vertex)?;
    Ok(found)
}

/// Returns the products that are left as two sets, by the winner at the vertex. Returns nothing if a limit is met.
pub(crate) fn sets_at(
    alloc: Global,
    order: &Order,
    vertex: u32,
    part: &Reached,
) -> Result<Option<TwoSets>, AllocError>
    requires { IsPartOf order.now vertex part.now.game part.now.vertex }
    ensures features { IfOk result
        (λ found. IfSome found (λ two. feature_count order.now.diagram.lines ≡ two.sets.features)) }
    ensures won_inside { IfOk result (λ found. IfSome found (λ two. IsInside two.sets two.won)) }
    ensures lost_inside { IfOk result (λ found. IfSome found (λ two. IsInside two.sets two.lost)) }
    ensures won { IfOk result (λ found. IfSome found (λ two. IsSetOfMet order.now.game order.now.diagram
        (Aim.Won Which.Hopeful vertex) (choices order.now.decisions) two.sets two.won)) }
    ensures lost { IfOk result (λ found. IfSome found (λ two. IsSetOfMet order.now.game order.now.diagram
        (Aim.Won Which.Dual vertex) (choices order.now.decisions) two.sets two.lost)) }
{
    let found = two_sets(alloc, order, vertex, part, Effort::First)?;
    Ok(found)
}

/// Returns the products that are left and are won at the vertex, as a set. Returns nothing if a limit is met.
pub(crate) fn met_at(
    alloc: Global,
    order: &Order,
    which: Which,
    vertex: u32,
    part: &Reached,
) -> Result<Option<Met>, AllocError>
    requires { IsPartOf order.now vertex part.now.game part.now.vertex }
    ensures inside { IfOk result (λ found. IfSome found (λ met. IsInside met.sets met.set)) }
    ensures met { IfOk result (λ found. IfSome found (λ met. IsSetOfMet order.now.game order.now.diagram
        (Aim.Won which vertex) (choices order.now.decisions) met.sets met.set)) }
{
    match sets_at(alloc, order, vertex, part)? {
        Some(two) => Ok(Some(side(two, which))),
        None => Ok(None),
    }
}

// Whether a result met no limit.
fn is_exact(found: &Found) -> bool
    ensures { IsTrue result → IsFoundExact found.now }
{
    match found {
        Found::Product(example) => example.first,
        Found::Nothing => true,
        Found::Unsettled => false,
    }
}

// A product that is won at the vertex, by a search on the part. Returns nothing if a search on the whole game has to
// show more.
fn search_part(
    alloc: Global,
    order: &Order,
    which: Which,
    vertex: u32,
    part: Reached,
    limits: Limits,
) -> Result<Option<Found>, AllocError>
    requires { IsPartOf order.now vertex part.game part.vertex }
    ensures found { IfOk result (λ found. IfSome found
        (IsFound order.now.game order.now.diagram (Aim.Won which vertex) (choices order.now.decisions))) }
    ensures settled { IfOk result (λ found. IfSome found (λ found.
        IsSettled order.now.game order.now.diagram limits (Question.Lost (Aim.Won which vertex))
        (choices order.now.decisions) → IsFoundExact found)) }
{
    // Properties of every order, for the proof.
    let _order = order.game();
    let part = match order_on(alloc, order, vertex, part)? {
        Some(part) => part,
        None => return Ok(None),
    };
    let aim = Aim::Won {
        which,
        vertex: part.vertex,
    };
    let own = on_part(alloc, &part.order, limits, OF_ONE)?;
    let found = vpg_why::find(alloc, &part.order, aim, own)?;
    if is_exact(&found) {
        return Ok(Some(found));
    }
    if is_small(alloc, order, order.decisions(), limits)? {
        return Ok(None);
    }
    Ok(Some(found))
}

// The first product that is left, if it is won at the vertex.
fn first_won(
    alloc: Global,
    order: &Order,
    which: Which,
    vertex: u32,
    part: &Reached,
) -> Result<Option<Found>, AllocError>
    requires { IsPartOf order.now vertex part.now.game part.now.vertex }
    ensures found { IfOk result (λ found. IfSome found
        (IsFound order.now.game order.now.diagram (Aim.Won which vertex) (choices order.now.decisions))) }
    ensures exact { IfOk result (λ found. IfSome found IsFoundExact) }
{
    let found = sampled_for(alloc, order, which, vertex, part, 1)?;
    match last_of(found) {
        Some(example) => {
            if example.first {
                Ok(Some(Found::Product(example)))
            } else {
                Ok(None)
            }
        }
        None => Ok(None),
    }
}

// The least number of edges of a large part.
const LARGE: usize = 16_384;

// Whether a part is large, also beside the game: a look at the whole game takes less time than sets do there.
fn is_large(order: &Order, part: &Reached) -> bool {
    edges_of(&part.game) > (edges_of(order.game()) / 16).max(LARGE)
}

// A look at the first product that is left, where the part is large.
fn tried(
    alloc: Global,
    order: &Order,
    which: Which,
    vertex: u32,
    part: &Reached,
    limits: Limits,
) -> Result<Tried, AllocError>
    requires { vertex < length order.now.game.vertices }
    ensures found { IfOk result (λ tried. IfSome tried.found
        (IsFound order.now.game order.now.diagram (Aim.Won which vertex) (choices order.now.decisions))) }
    ensures exact { IfOk result (λ tried. IfSome tried.found IsFoundExact) }
{
    if !is_large(order, part) {
        return Ok(not_tried());
    }
    let found = first_tried(alloc, order, which, vertex, limits)?;
    Ok(found)
}

// The first product that is won at the vertex, or that there is none: by the first that is left, or by the set of all
// that are won. Returns nothing if limits are met.
fn find_first(
    alloc: Global,
    order: &Order,
    which: Which,
    vertex: u32,
    part: &Reached,
    limits: Limits,
) -> Result<Option<Found>, AllocError>
    requires vertex { vertex < length order.now.game.vertices }
    requires part { IsPartOf order.now vertex part.now.game part.now.vertex }
    ensures found { IfOk result (λ found. IfSome found
        (IsFound order.now.game order.now.diagram (Aim.Won which vertex) (choices order.now.decisions))) }
    ensures exact { IfOk result (λ found. IfSome found IsFoundExact) }
{
    let Tried { found, is_lost } = tried(alloc, order, which, vertex, part, limits)?;
    if let Some(found) = found {
        return Ok(Some(found));
    }
    if let Some(met) = met_at(alloc, order, which, vertex, part)? {
        let found = first_found(alloc, &met.sets, met.set)?;
        return Ok(Some(found));
    }
    if is_lost {
        return Ok(None);
    }
    first_won(alloc, order, which, vertex, part)
}

// A product that is left and won at the vertex, or that there is none. Returns nothing if the vertex is not open, or a
// search on the whole game has to show more.
fn find_at(
    alloc: Global,
    order: &Order,
    which: Which,
    vertex: u32,
    limits: Limits,
) -> Result<Option<Found>, AllocError>
    requires { vertex < length order.now.game.vertices }
    ensures found { IfOk result (λ found. IfSome found
        (IsFound order.now.game order.now.diagram (Aim.Won which vertex) (choices order.now.decisions))) }
    ensures settled { IfOk result (λ found. IfSome found (λ found.
        IsSettled order.now.game order.now.diagram limits (Question.Lost (Aim.Won which vertex))
        (choices order.now.decisions) → IsFoundExact found)) }
{
    let part = match open_part(alloc, order, vertex)? {
        Some(part) => part,
        None => return Ok(None),
    };
    if let Some(found) = find_first(alloc, order, which, vertex, &part, limits)? {
        return Ok(Some(found));
    }
    let found = search_part(alloc, order, which, vertex, part, limits)?;
    Ok(found)
}

// A product that is left and meets the aim, or that there is none. Returns nothing for any product, if the vertex is
// not open, or if a search on the whole game has to show more.
fn find_open(
    alloc: Global,
    order: &Order,
    aim: Aim,
    limits: Limits,
) -> Result<Option<Found>, AllocError>
    requires { IsAim order.now.game aim }
    ensures found { IfOk result (λ found. IfSome found
        (IsFound order.now.game order.now.diagram aim (choices order.now.decisions))) }
    ensures settled { IfOk result (λ found. IfSome found (λ found.
        IsSettled order.now.game order.now.diagram limits (Question.Lost aim) (choices order.now.decisions) →
        IsFoundExact found)) }
{
    match aim {
        Aim::Any => Ok(None),
        Aim::Won { which, vertex } => find_at(alloc, order, which, vertex, limits),
    }
}

/// Returns a product that is left and meets the aim. For the hopeful table Even wins from the vertex in it, for the
/// dual one Odd does; or it is just any. Returns nothing if there is none, however cautious the page's verdict is.
///
/// For a vertex that is open on the page the call solves the part of the game that decides it, for all products at
/// once. If a limit is met it solves it for the first product, and then searches on that part, in a large family with
/// few trials where it has many edges. If the part is large, it looks at the game for the first product before all
/// else. If the page's verdict decides, it searches as `vpg_why::find` does. The only error is a lack of memory.
pub fn find(alloc: Global, order: &Order, aim: Aim, limits: Limits) -> Result<Found, AllocError>
    requires { IsAim order.now.game aim }
    ensures found { IfOk result (IsFound order.now.game order.now.diagram aim (choices order.now.decisions)) }
    ensures settled { IfOk result (λ found.
        IsSettled order.now.game order.now.diagram limits (Question.Lost aim) (choices order.now.decisions) →
        IsFoundExact found) }
{
    if let Some(found) = find_open(alloc, order, aim, limits)? {
        return Ok(found);
    }
    let found = vpg_why::find(alloc, order, aim, limits)?;
    Ok(found)
}

/// Returns the decisions of the page that leave no product that meets the aim, whatever the cautious verdict of the
/// page is. In such a product Even wins from the vertex, for the hopeful table, or Odd, for the dual one. With
/// `Aim::Any` they are the decisions that leave no product at all.
///
/// If there is such a product, it is found as by `find`. The only error is a lack of memory.
pub fn why_lost(
    alloc: Global,
    order: &Order,
    aim: Aim,
    limits: Limits,
) -> Result<WhyLost, AllocError>
    requires { IsAim order.now.game aim }
    ensures why { IfOk result (IsWhyLost order.now.game order.now.diagram aim order.now.decisions) }
    ensures settled { IfOk result (λ found.
        IsSettled order.now.game order.now.diagram limits (Question.Lost aim) (choices order.now.decisions) →
        IsWhyLostShown found) }
    ensures exact { IfOk result (λ found.
        EachIsSettled order.now.game order.now.diagram limits (Question.Lost aim) (choices order.now.decisions) →
        IsWhyLostExact found) }
{
    match find_open(alloc, order, aim, limits)? {
        Some(Found::Product(example)) => Ok(WhyLost::Unless(example)),
        Some(Found::Unsettled) => Ok(WhyLost::Unsettled),
        Some(Found::Nothing) => {
            let found = losing_decisions(alloc, order, aim, limits)?;
            Ok(WhyLost::Because(found))
        }
        None => {
            let found = vpg_why::why_lost(alloc, order, aim, limits)?;
            Ok(found)
        }
    }
}
