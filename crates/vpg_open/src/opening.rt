//! The game of an order with all verdicts won at once, and the part of it that a vertex reaches.
ghost use Rattle.std.specs.Prelude.{◌≡◌, ◌<◌, ℕ, List, [], Bool, length, IfOk, IfSome};
ghost use Rattle.vpg_game.specs.Game.{IsAtLimit, graph_of, vertex_in};
ghost use Rattle.vpg_open.specs.OpenVertices.{IsOpenVertex, IsLeft};
ghost use Rattle.vpg_open.specs.ReachedGames.{HasWinnersOf};
ghost use Rattle.vpg_open.specs.SettledGames.{HasSameWinners};

use crate::cutting::settled;
use crate::looking::verdicts;
use crate::reaching::{Reached, reached_settled};
use std::alloc::{AllocError, Global};
use vpg_game::GuardedGame;
use vpg_measure::Order;

/// Returns the order's game with each vertex that has a verdict won by its winner at once. Open vertices stay as they
/// are, and the others have no edge. In every product left the same player wins from each vertex as in the order's
/// game.
pub fn open_game(alloc: Global, order: &Order) -> Result<GuardedGame, AllocError>
    ensures features { IfOk result (λ made. made.features ≡ order.now.game.features) }
    ensures vertices { IfOk result (λ made. length (graph_of made) ≡ length (graph_of order.now.game)) }
    ensures limit { IfOk result (λ made. ¬ (IsAtLimit made)) }
    ensures open { IfOk result (λ made. (v : ℕ) → v < length (graph_of made) → IsOpenVertex order.now v →
        vertex_in (graph_of made) v ≡ vertex_in (graph_of order.now.game) v) }
    ensures others { IfOk result (λ made. (v : ℕ) → v < length (graph_of made) → (IsOpenVertex order.now v → ⊥) →
        (vertex_in (graph_of made) v).edges ≡ []) }
    ensures wins { IfOk result (λ made. (p : List Bool) → IsLeft order.now p →
        HasSameWinners (graph_of order.now.game) (graph_of made) p) }
{
    let winners = verdicts(alloc, order)?;
    settled(alloc, order.game(), &winners)
}

/// Returns the part of the order's game that plays from the vertex can come to, in whatever product, where each vertex
/// that has a verdict is won by its winner at once. It is the part that `reached_game` makes of `open_game`, without
/// that game: only its own edges are copied. In each product left the same player wins from the vertex as in the
/// order's game. Returns nothing if it could not make the part a game.
pub fn reached_open(
    alloc: Global,
    order: &Order,
    vertex: u32,
) -> Result<Option<Reached>, AllocError>
    requires { vertex < length (graph_of order.now.game) }
    ensures features { IfOk result (λ found. IfSome found (λ part. part.game.features ≡ order.now.game.features)) }
    ensures vertex { IfOk result (λ found. IfSome found (λ part. part.vertex < length (graph_of part.game))) }
    ensures wins { IfOk result (λ found. IfSome found (λ part. (p : List Bool) → IsLeft order.now p →
        HasWinnersOf (graph_of order.now.game) vertex p (graph_of part.game) part.vertex)) }
{
    let winners = verdicts(alloc, order)?;
    reached_settled(alloc, order.game(), &winners, vertex)
}
