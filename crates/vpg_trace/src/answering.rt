//! The answer of a trace: how a page's verdict at a vertex comes about.
ghost use Rattle.std.specs.Arc.{arc_value};
ghost use Rattle.std.specs.Prelude.{◌≡◌, ◌↔◌, ◌<◌, ◌++◌, IfOk, IsTrue, OnOk, length, slice_index};
ghost use Rattle.vpg_game.specs.Game.{graph_of, vertex_ids};
ghost use Rattle.vpg_measure.specs.Games.{ArePageGames};
ghost use Rattle.vpg_measure.specs.Orders.{order_table, other_table};
ghost use Rattle.vpg_measure.specs.TwoGames.{top_for};
ghost use Rattle.vpg_why.specs.Explained.{choices};
ghost use Rattle.vpg_trace.specs.Answering.{Appends, TellsTrace, TellsWon, IsWalkTold, family_on, head_line, neither_line, page_of, unsettled_line, walk_along};
ghost use Rattle.vpg_trace.specs.Texts.{trace_text};
ghost use Rattle.vpg_trace.specs.Walks.{is_left};

use crate::walking::follow;
use crate::writing::{put_number, put_trace};
use std::alloc::{AllocError, Global};
use vpg_checking::Behaviour;
use vpg_measure::{Order, PageGames};
use vpg_sides::Which;
use vpg_why::{Limits, Moves, caution, winning_moves};

/// Whether the page's table has the top at the vertex.
fn has_top(order: &Order, which: Which, vertex: u32) -> bool
    requires { vertex < length order.now.game.vertices }
    ensures { IsTrue result ↔
        (slice_index (order_table which order.now) vertex ≡ top_for which (graph_of order.now.game)) }
{
    order.table(which).get(vertex) == order.shape(which).top()
}

/// Returns the table that has the top where the player of this one wins.
fn other_table(which: Which) -> Which
    ensures { result ≡ other_table which }
{
    match which {
        Which::Hopeful => Which::Dual,
        Which::Dual => Which::Hopeful,
    }
}

/// Appends the line of a verdict.
fn put_head(
    verdict: Which,
    identifier: u32,
    beside: &[u8],
    out: &mut Vec<u8>,
) -> Result<(), AllocError>
    ensures { OnOk result (out.new.items ≡ out.old.items ++ head_line verdict identifier beside.now) }
{
    match verdict {
        Which::Hopeful => out.extend_from_slice(b"hopeless ")?,
        Which::Dual => out.extend_from_slice(b"sure ")?,
    }
    put_number(identifier as u64, out)?;
    out.extend_from_slice(beside)?;
    out.extend_from_slice(b"\n")
}

/// Appends that a vertex is neither hopeless nor sure.
fn put_neither(identifier: u32, beside: &[u8], out: &mut Vec<u8>) -> Result<(), AllocError>
    ensures { OnOk result (out.new.items ≡ out.old.items ++ neither_line identifier beside.now) }
{
    out.extend_from_slice(b"possible ")?;
    put_number(identifier as u64, out)?;
    out.extend_from_slice(b" unsure")?;
    out.extend_from_slice(beside)?;
    out.extend_from_slice(b"\n")
}

fn put_unsettled(out: &mut Vec<u8>) -> Result<(), AllocError>
    ensures { OnOk result (out.new.items ≡ out.old.items ++ unsettled_line) }
{
    out.extend_from_slice(b"unsettled\n")
}

/// Returns the identifier of a vertex.
fn identifier(order: &Order, vertex: u32) -> u32
    requires { vertex < length order.now.game.vertices }
    ensures { result ≡ slice_index (vertex_ids order.now.game.vertices) vertex }
{
    order.game().id(vertex)
}

/// Appends the walk along these moves of a player, under what the page's decisions make known.
fn put_walk(
    alloc: Global,
    order: &Order,
    games: &PageGames,
    behaviour: &Behaviour,
    mover: Which,
    vertex: u32,
    moves: &[Option<u32>],
    out: &mut Vec<u8>,
) -> Result<(), AllocError>
    requires games { ArePageGames order.now.game order.now.diagram (choices order.now.decisions) games.now }
    requires features { behaviour.now.features ≡ order.now.game.features }
    ensures { OnOk result (out.new.items ≡ out.old.items
        ++ trace_text (family_on (page_of order.now) games.now.known behaviour.now)
        (walk_along (page_of order.now) games.now.known mover vertex moves.now).visits
        (is_left (walk_along (page_of order.now) games.now.known mover vertex moves.now).waiting)) }
{
    let known = games.known();
    let arena = caution(alloc, order.game(), known, mover)?;
    let trace = follow(alloc, &arena, moves, vertex)?;
    put_trace(
        alloc,
        order.diagram().names(),
        behaviour.actions(),
        behaviour.source(),
        behaviour.pairs(),
        known.values(),
        &trace,
        out,
    )
}

/// Appends the verdict by which a player wins, and the walk along these moves.
fn put_won(
    alloc: Global,
    order: &Order,
    behaviour: &Behaviour,
    mover: Which,
    vertex: u32,
    beside: &[u8],
    moves: &[Option<u32>],
    out: &mut Vec<u8>,
) -> Result<(), AllocError>
    requires vertex { vertex < length order.now.game.vertices }
    requires features { behaviour.now.features ≡ order.now.game.features }
    ensures { OnOk result (IsWalkTold (page_of order.now) behaviour.now mover vertex beside.now moves.now out.old.items
        out.new.items) }
{
    put_head(other_table(mover), identifier(order, vertex), beside, out)?;
    put_walk(
        alloc,
        order,
        order.games(),
        behaviour,
        mover,
        vertex,
        moves,
        out,
    )
}

/// Appends how a player wins, if the page says so: Even for the hopeful table, Odd for the dual one.
fn won(
    alloc: Global,
    order: &Order,
    behaviour: &Behaviour,
    mover: Which,
    vertex: u32,
    beside: &[u8],
    limits: Limits,
    out: &mut Vec<u8>,
) -> Result<(), AllocError>
    requires vertex { vertex < length order.now.game.vertices }
    requires verdict { slice_index (order_table (other_table mover) order.now) vertex ≡
        top_for (other_table mover) (graph_of order.now.game) }
    requires features { behaviour.now.features ≡ order.now.game.features }
    ensures { OnOk result (Appends (TellsWon (page_of order.now) behaviour.now limits mover vertex beside.now)
        out.old.items out.new.items) }
{
    match winning_moves(alloc, order, mover, vertex, limits)? {
        Moves::Winning(moves) => {
            put_won(alloc, order, behaviour, mover, vertex, beside, &moves, out)
        }
        Moves::Nothing => unreachable!(),
        Moves::Unsettled => put_unsettled(out),
    }
}

/// Appends how the verdict of a page at a vertex comes about. If it is hopeless, this is a walk along moves of Odd that
/// win in each product that is left; if it is sure, one along such moves of Even. Otherwise the text says that the
/// vertex is neither, or that the limits leave no room.
///
/// The behaviour is what the game was made of, over the features of the order's diagram. The first line is the verdict,
/// `hopeless 0` or `sure 0`; the walk follows, as of `put_trace`, up to the line `steps 12`. Else there is one line:
/// `possible 0 unsure`, or `unsettled`. A line with the vertex ends with what the caller passes to stand beside it. The
/// only error is a lack of memory.
pub fn put_answer(
    alloc: Global,
    order: &Order,
    behaviour: &Behaviour,
    vertex: u32,
    beside: &[u8],
    limits: Limits,
    out: &mut Vec<u8>,
) -> Result<(), AllocError>
    requires vertex { vertex < length order.now.game.vertices }
    requires features { behaviour.now.features ≡ order.now.game.features }
    ensures { OnOk result (Appends (TellsTrace (page_of order.now) behaviour.now limits vertex beside.now)
        out.old.items out.new.items) }
{
    if has_top(order, Which::Hopeful, vertex) {
        won(
            alloc,
            order,
            behaviour,
            Which::Dual,
            vertex,
            beside,
            limits,
            out,
        )
    } else if has_top(order, Which::Dual, vertex) {
        won(
            alloc,
            order,
            behaviour,
            Which::Hopeful,
            vertex,
            beside,
            limits,
            out,
        )
    } else {
        put_neither(identifier(order, vertex), beside, out)
    }
}
