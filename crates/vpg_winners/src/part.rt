//! The part of an order's game that decides a vertex.
ghost use Rattle.std.specs.Prelude.{◌≡◌, ◌<◌, ◌≤◌, length, IfOk, IfSome};
ghost use Rattle.vpg_winners.specs.OpenParts.{IsPartOf, IsPartOrder};

use std::alloc::{AllocError, Global};
use std::sync::Arc;
use vpg_game::GuardedGame;
use vpg_guess::{Groundwork, harvest_by_bounds};
use vpg_measure::laws::orders::zeros_are_opening;
use vpg_measure::{Order, OrderFault, Shape, Table};
use vpg_open::{Reached, reached_open};
use vpg_why::{Limits, is_small};

/// An order on a part of a game, and the place of a vertex there.
#[derive(Drop)]
pub(crate) struct PartOrder {
    pub(crate) order: Order,
    pub(crate) vertex: u32,
}

// The edges and vertices that bounds may look at for the tables of a part.
const LOOKS: u64 = 33_554_432;

/// The edges, in all, of the games that the trials of one search make in a large family.
pub(crate) const OF_ONE: u64 = 3_500_000;

/// The edges, in all, of the games that the trials of a line's several searches make in a large family.
pub(crate) const OF_SEVERAL: u64 = 8_000_000;

// The edges of a game.
pub(crate) fn edges_of(game: &GuardedGame) -> usize {
    let mut edges = 0usize;
    for vertex in 0..game.vertices() {
        edges = edges.saturating_add(game.edges(vertex as u32).len());
    }
    edges
}

/// Returns the trials of a search on a game in a large family, of those of the limits. Each makes games that may have
/// all of its edges, so in all these have as many as are lent.
pub(crate) fn trials_on(game: &GuardedGame, trials: u64, edges: u64) -> u64
    ensures { result ≤ trials }
{
    let each = edges_of(game).max(game.vertices()) as u64;
    trials.min(edges / each.saturating_add(1))
}

/// Returns the limits of a search on a part: it has half of the looks, since the whole game may come after it, and in a
/// large family the trials that these edges suffice for.
pub(crate) fn on_part(
    alloc: Global,
    part: &Order,
    limits: Limits,
    edges: u64,
) -> Result<Limits, AllocError> {
    // Properties of every order, for the proof.
    let game = part.game();
    let trials = if is_small(alloc, part, part.decisions(), limits)? {
        limits.trials
    } else {
        trials_on(game, limits.trials, edges)
    };
    Ok(Limits {
        budget: limits.budget / 2,
        rounds: limits.rounds,
        trials,
    })
}

/// Returns the part of the order's game that decides the vertex: what plays from it can come to, where each vertex
/// with a verdict is won at once.
pub(crate) fn part_of(
    alloc: Global,
    order: &Order,
    vertex: u32,
) -> Result<Option<Reached>, AllocError>
    requires { vertex < length order.now.game.vertices }
    ensures { IfOk result
        (λ found. IfSome found (λ part. IsPartOf order.now vertex part.game part.vertex)) }
{
    let found = reached_open(alloc, order, vertex)?;
    Ok(found)
}

// The order's decisions on another game, with two tables of zeros.
fn zeros_on(alloc: Global, order: &Order, game: GuardedGame) -> Result<Option<Order>, AllocError>
    requires { game.features ≡ order.now.game.features }
    ensures game { IfOk result (λ found. IfSome found (λ made. made.game ≡ game)) }
    ensures diagram { IfOk result (λ found. IfSome found (λ made. made.diagram ≡ order.now.diagram)) }
    ensures decisions { IfOk result (λ found. IfSome found (λ made. made.decisions ≡ order.now.decisions)) }
{
    zeros_are_opening();
    let vertices = game.vertices() as u32;
    let shape = Shape::of(alloc, &game)?;
    let dual_shape = Shape::of_dual(alloc, &game)?;
    let hopeful = Table::zero(alloc, &shape, vertices)?;
    let dual = Table::zero(alloc, &dual_shape, vertices)?;
    let decisions = Vec::from_slice(alloc, order.decisions())?;
    let diagram = order.diagram().clone()?;
    let game = Arc::new(alloc, game)?;
    match Order::of(alloc, game, diagram, decisions, hopeful, dual) {
        Ok(made) => Ok(Some(made)),
        Err(refused) => match refused.fault {
            OrderFault::Memory => Err(AllocError),
            _ => Ok(None),
        },
    }
}

// The order with both tables raised.
fn raised(alloc: Global, order: Order) -> Result<Order, AllocError>
    ensures game { IfOk result (λ made. made.game ≡ order.game) }
    ensures diagram { IfOk result (λ made. made.diagram ≡ order.diagram) }
    ensures decisions { IfOk result (λ made. made.decisions ≡ order.decisions) }
{
    let mut kept = Groundwork::none();
    match harvest_by_bounds(alloc, order, &mut kept, LOOKS) {
        Ok(harvest) => Ok(harvest.again()),
        Err(_) => Err(AllocError),
    }
}

/// Returns an order of the same decisions on a part of the order's game.
pub(crate) fn order_on(
    alloc: Global,
    order: &Order,
    vertex: u32,
    part: Reached,
) -> Result<Option<PartOrder>, AllocError>
    requires { IsPartOf order.now vertex part.game part.vertex }
    ensures { IfOk result
        (λ found. IfSome found (λ made. IsPartOrder order.now vertex made.order made.vertex)) }
{
    let Reached {
        game,
        vertex: place,
    } = part;
    match zeros_on(alloc, order, game)? {
        Some(made) => {
            let order = raised(alloc, made)?;
            Ok(Some(PartOrder {
                order,
                vertex: place,
            }))
        }
        None => Ok(None),
    }
}
