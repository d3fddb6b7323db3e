//! The verdicts of an order's tables.
ghost use Rattle.std.specs.Prelude.{◌≡◌, ◌↔◌, ◌<◌, ℕ, List, Bool, length, IfOk, IsTrue, None, slice_index_or};
ghost use Rattle.vpg_game.specs.Game.{graph_of};
ghost use Rattle.vpg_open.specs.OpenVertices.{HasTop, IsOpenVertex, IsVerdict, IsLeft};
ghost use Rattle.vpg_open.specs.SettledGames.{AreWinnersIn};

use std::alloc::{AllocError, Global};
use vpg_measure::Order;
use vpg_sides::{Player, Which};

// Whether a table has the top at the vertex.
fn has_top(order: &Order, which: Which, v: u32) -> bool
    requires { v < length order.now.game.vertices }
    ensures { IsTrue result ↔ HasTop which order.now v }
{
    order.table(which).get(v) == order.shape(which).top()
}

/// Whether neither table has the top at the vertex: no verdict says who wins there.
pub fn is_open(order: &Order, v: u32) -> bool
    requires { v < length order.now.game.vertices }
    ensures { IsTrue result ↔ IsOpenVertex order.now v }
{
    !has_top(order, Which::Hopeful, v) && !has_top(order, Which::Dual, v)
}

// The player that wins from the vertex in every product left, as far as the tables show it.
fn verdict(order: &Order, v: u32) -> Option<Player>
    requires { v < length order.now.game.vertices }
    ensures { IsVerdict order.now v result }
{
    if has_top(order, Which::Hopeful, v) {
        return Some(Player::Odd);
    }
    if has_top(order, Which::Dual, v) {
        return Some(Player::Even);
    }
    None
}

/// Returns for each vertex the player that wins from it in every product left, as far as the tables show it: Odd where
/// the hopeful table has the top, else Even where the dual one has it.
pub fn verdicts(alloc: Global, order: &Order) -> Result<Vec<Option<Player>>, AllocError>
    ensures length { IfOk result (λ winners. length winners.items ≡ length (graph_of order.now.game)) }
    ensures verdicts { IfOk result (λ winners. (v : ℕ) → v < length (graph_of order.now.game) →
        IsVerdict order.now v (slice_index_or winners.items v None)) }
    ensures wins { IfOk result (λ winners. (p : List Bool) → IsLeft order.now p →
        AreWinnersIn (graph_of order.now.game) winners.items p) }
{
    let count = order.game().vertices();
    let mut winners = Vec::with_capacity(alloc, count)?;
    for v in 0..count {
        winners.push(verdict(order, v as u32))?;
    }
    Ok(winners)
}
