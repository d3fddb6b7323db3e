//! The path of the trace of a page's verdict.
ghost use Rattle.std.specs.Prelude.{◌≡◌, ◌↔◌, ◌<◌, IfOk, IsTrue, length, slice_index};
ghost use Rattle.vpg_game.specs.Game.{graph_of};
ghost use Rattle.vpg_measure.specs.Games.{ArePageGames};
ghost use Rattle.vpg_measure.specs.Orders.{order_table, other_table};
ghost use Rattle.vpg_measure.specs.TwoGames.{top_for};
ghost use Rattle.vpg_steps.specs.Steps.{FindsPath, FindsWon, IsPathOf, trail_of};
ghost use Rattle.vpg_trace.specs.Answering.{page_of, walk_along};
ghost use Rattle.vpg_why.specs.Explained.{choices};
ghost use Rattle.vpg_why.specs.Moves.{AreWinning};

use crate::path::path_of;
use std::alloc::{AllocError, Global};
use vpg_checking::Behaviour;
use vpg_measure::{Order, PageGames};
use vpg_sides::Which;
use vpg_system_draw::Path;
use vpg_trace::follow;
use vpg_why::{Limits, Moves, caution, winning_moves};

/// Whether the page's table has the top at the vertex.
fn has_top(order: &Order, which: Which, vertex: u32) -> bool
    requires { vertex < length order.now.game.vertices }
    ensures { IsTrue result ↔
        (slice_index (order_table which order.now) vertex ≡ top_for which (graph_of order.now.game)) }
{
    order.table(which).get(vertex) == order.shape(which).top()
}

/// Returns the path of the walk along these moves of a player, under what the page's decisions make known.
fn walked(
    alloc: Global,
    order: &Order,
    games: &PageGames,
    behaviour: &Behaviour,
    mover: Which,
    vertex: u32,
    moves: &[Option<u32>],
) -> Result<Path, AllocError>
    requires games { ArePageGames order.now.game order.now.diagram (choices order.now.decisions) games.now }
    requires features { behaviour.now.features ≡ order.now.game.features }
    ensures { IfOk result (λ path. path ≡ trail_of games.now.known behaviour.now
        (walk_along (page_of order.now) games.now.known mover vertex moves.now).visits) }
{
    let known = games.known();
    let arena = caution(alloc, order.game(), known, mover)?;
    let trace = follow(alloc, &arena, moves, vertex)?;
    path_of(
        alloc,
        behaviour.source(),
        behaviour.pairs(),
        known.values(),
        &trace.visits,
    )
}

/// Returns the path of the walk along these moves of a player, which win.
fn path_along(
    alloc: Global,
    order: &Order,
    behaviour: &Behaviour,
    mover: Which,
    vertex: u32,
    moves: &[Option<u32>],
) -> Result<Path, AllocError>
    requires features { behaviour.now.features ≡ order.now.game.features }
    requires win { AreWinning (graph_of order.now.game) order.now.diagram.lines (choices order.now.decisions) mover
        vertex moves.now }
    ensures { IfOk result (IsPathOf (page_of order.now) behaviour.now mover vertex) }
{
    walked(alloc, order, order.games(), behaviour, mover, vertex, moves)
}

/// Returns the path of the trace of a player's verdict at a vertex: Even's for the hopeful table, Odd's for the dual.
fn won(
    alloc: Global,
    order: &Order,
    behaviour: &Behaviour,
    mover: Which,
    vertex: u32,
    limits: Limits,
) -> Result<Option<Path>, AllocError>
    requires vertex { vertex < length order.now.game.vertices }
    requires verdict { slice_index (order_table (other_table mover) order.now) vertex ≡
        top_for (other_table mover) (graph_of order.now.game) }
    requires features { behaviour.now.features ≡ order.now.game.features }
    ensures { IfOk result (FindsWon (page_of order.now) behaviour.now limits mover vertex) }
{
    match winning_moves(alloc, order, mover, vertex, limits)? {
        Moves::Winning(moves) => {
            let path = path_along(alloc, order, behaviour, mover, vertex, &moves)?;
            Ok(Some(path))
        }
        Moves::Nothing => unreachable!(),
        Moves::Unsettled => Ok(None),
    }
}

/// Returns the path of the trace of a page's verdict at a vertex: the walk that `vpg_trace::put_answer` writes, along
/// moves that win in each product left. `None` if the vertex is neither hopeless nor sure on the page, or if the limits
/// leave no room to find such moves.
///
/// The behaviour is what the game was made of, over the features of the order's diagram. The path has its steps in
/// their order, as `step_between` returns them, the states that it comes back to, and those where nobody moves. The
/// only error is a lack of memory.
pub fn path_at(
    alloc: Global,
    order: &Order,
    behaviour: &Behaviour,
    vertex: u32,
    limits: Limits,
) -> Result<Option<Path>, AllocError>
    requires vertex { vertex < length order.now.game.vertices }
    requires features { behaviour.now.features ≡ order.now.game.features }
    ensures { IfOk result (FindsPath (page_of order.now) behaviour.now limits vertex) }
{
    if has_top(order, Which::Hopeful, vertex) {
        won(alloc, order, behaviour, Which::Dual, vertex, limits)
    } else if has_top(order, Which::Dual, vertex) {
        won(alloc, order, behaviour, Which::Hopeful, vertex, limits)
    } else {
        Ok(None)
    }
}
