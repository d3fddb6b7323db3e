//! The first product that is left, tried alone.
ghost use Rattle.std.specs.Prelude.{◌≡◌, ◌<◌, ◌++◌, length, true, IfOk, IfSome, None, Some};
ghost use Rattle.vpg_diagram.specs.FeatureDiagram.{feature_count};
ghost use Rattle.vpg_measure.specs.Games.{ArePageGames};
ghost use Rattle.vpg_partial.specs.TableLaws.{AreChoicesOf};
ghost use Rattle.vpg_why.specs.Explained.{choices};
ghost use Rattle.vpg_why.specs.Found.{IsFound, IsFoundExact, IsOutlook};
ghost use Rattle.vpg_winners.specs.Sampled.{IsFirstOfAll, choices_of};

use crate::gathering::chosen;
use crate::listing::NODES;
use crate::two_sets::remaining;
use std::alloc::{AllocError, Global};
use vpg_measure::{Order, PageGames};
use vpg_partial::Decision;
use vpg_sets::{Sets, SetsFault};
use vpg_sides::Which;
use vpg_why::{Aim, Example, Found, Limits, Outlook, games_with, large_limits, look_at_games};

// The first of all products that are left, by the set of them.
fn first_in_set(alloc: Global, order: &Order) -> Result<Option<Vec<bool>>, SetsFault>
    ensures { IfOk result (λ found. IfSome found
        (λ p. IsFirstOfAll order.now.diagram (choices order.now.decisions) p.items)) }
{
    // Properties of every order, for the proof.
    let _order = order.game();
    let features = order.diagram().features() as u16;
    let mut sets = Sets::new(alloc, features, NODES)?;
    let left = remaining(alloc, &mut sets, order.diagram(), order.decisions())?;
    let first = sets.first(alloc, left)?;
    Ok(first)
}

// The first of all products that are left. Returns nothing if there is none, or if the nodes of a set do not suffice.
fn first_left(alloc: Global, order: &Order) -> Result<Option<Vec<bool>>, AllocError>
    ensures { IfOk result (λ found. IfSome found
        (λ p. IsFirstOfAll order.now.diagram (choices order.now.decisions) p.items)) }
{
    match first_in_set(alloc, order) {
        Ok(found) => Ok(found),
        Err(SetsFault::Full) => Ok(None),
        Err(SetsFault::Memory) => Err(AllocError),
    }
}

// The decisions of the order, and one on each feature, as the product has it.
fn decided_as(alloc: Global, order: &Order, product: &[bool]) -> Result<Vec<Decision>, AllocError>
    ensures { IfOk result (λ more. choices more.items ≡
        choices order.now.decisions ++ choices_of product.now (feature_count order.now.diagram.lines)) }
{
    let features = order.diagram().features() as u16;
    let mut more = Vec::from_slice(alloc, order.decisions())?;
    for feature in 0..features {
        let value = chosen(product, feature);
        more.push(Decision {
            serial: 0,
            session: 0,
            feature,
            value,
        })?;
    }
    Ok(more)
}

/// The result of a look at the first product that is left; nothing if a limit is met.
#[derive(Drop)]
pub(crate) struct Tried {
    /// The product, if it is won.
    pub(crate) found: Option<Found>,
    /// Whether it is not won, or none is left.
    pub(crate) is_lost: bool,
}

/// Returns that nothing is shown.
pub(crate) fn not_tried() -> Tried
    ensures { result.found ≡ None }
{
    Tried {
        found: None,
        is_lost: false,
    }
}

// That the product is not won, or none is left.
fn lost() -> Tried
    ensures { result.found ≡ None }
{
    Tried {
        found: None,
        is_lost: true,
    }
}

// That the product is won.
fn won(features: Vec<bool>) -> Tried
    ensures { result.found ≡ Some (Found.Product (record { features = features; first = true })) }
{
    Tried {
        found: Some(Found::Product(Example {
            features,
            first: true,
        })),
        is_lost: false,
    }
}

// The outlook of decisions on a product that is won, with a quarter of the looks.
fn look_once(
    alloc: Global,
    order: &Order,
    games: &PageGames,
    which: Which,
    vertex: u32,
    decisions: &[Decision],
    limits: Limits,
) -> Result<Outlook, AllocError>
    requires games { ArePageGames order.now.game order.now.diagram (choices decisions.now) games.now }
    requires named { AreChoicesOf order.now.diagram.lines (choices decisions.now) }
    requires vertex { vertex < length order.now.game.vertices }
    ensures { IfOk result
        (IsOutlook order.now.game order.now.diagram (Aim.Won which vertex) (choices decisions.now)) }
{
    let mut looks = limits.budget / 4;
    let large = large_limits(order, limits, looks);
    let outlook = look_at_games(
        alloc, order, games, which, vertex, decisions, large, &mut looks,
    )?;
    Ok(outlook)
}

// The outlook of decisions on a product that is won. It is unsettled if they have a conflict.
fn outlook_of(
    alloc: Global,
    order: &Order,
    which: Which,
    vertex: u32,
    decisions: &[Decision],
    limits: Limits,
) -> Result<Outlook, AllocError>
    requires named { AreChoicesOf order.now.diagram.lines (choices decisions.now) }
    requires vertex { vertex < length order.now.game.vertices }
    ensures { IfOk result
        (IsOutlook order.now.game order.now.diagram (Aim.Won which vertex) (choices decisions.now)) }
{
    match games_with(alloc, order, decisions)? {
        Some(games) => look_once(alloc, order, &games, which, vertex, decisions, limits),
        None => Ok(Outlook::Unsettled),
    }
}

/// Returns the first of all products that are left, if it is won at the vertex, or that it is not.
///
/// The order's own game is looked at for this product alone. A look begins with the order's tables, so it takes much
/// less time than a solution of a large part. The only error is a lack of memory.
pub(crate) fn first_tried(
    alloc: Global,
    order: &Order,
    which: Which,
    vertex: u32,
    limits: Limits,
) -> Result<Tried, AllocError>
    requires { vertex < length order.now.game.vertices }
    ensures found { IfOk result (λ tried. IfSome tried.found
        (IsFound order.now.game order.now.diagram (Aim.Won which vertex) (choices order.now.decisions))) }
    ensures exact { IfOk result (λ tried. IfSome tried.found IsFoundExact) }
{
    // Properties of every order, for the proof.
    let _order = order.game();
    let first = match first_left(alloc, order)? {
        Some(first) => first,
        None => return Ok(lost()),
    };
    let decisions = decided_as(alloc, order, &first)?;
    match outlook_of(alloc, order, which, vertex, &decisions, limits)? {
        Outlook::Met(features) => Ok(won(features)),
        Outlook::Lost => Ok(lost()),
        _ => Ok(not_tried()),
    }
}
