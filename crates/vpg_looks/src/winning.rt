//! Moves that win in every product left.
ghost use Rattle.std.specs.Prelude.{◌≡◌, ◌↔◌, ◌<◌, ◌++◌, All, IfOk, IfSome, IsTrue, OnOk, count_by, is_some, length, slice_index};
ghost use Rattle.vpg_looks.specs.Answers.{Appends, TellsMoves, TellsWinning};
ghost use Rattle.vpg_looks.specs.Texts.{move_line, move_lines, moves_text, moves_word};
ghost use Rattle.vpg_game.specs.Game.{graph_of, vertex_ids};
ghost use Rattle.vpg_measure.specs.Orders.{order_table, other_table};
ghost use Rattle.vpg_measure.specs.TwoGames.{top_for};
ghost use Rattle.vpg_script.specs.Answer.{Gives, IsDone};
ghost use Rattle.vpg_texts.specs.Scene.{scene_of, table_in};

use crate::lines;
use crate::reasons::identifier;
use std::alloc::{AllocError, Global};
use vpg_game::VertexNames;
use vpg_measure::Order;
use vpg_script::{Tone, done};
use vpg_sides::Which;
use vpg_texts::{blank_number, put_beside_both};
use vpg_why::{Limits, Moves, winning_moves};

/// Returns the first word of the lines of a player's moves.
fn word_of(mover: Which) -> &'static [u8]
    ensures { result.now ≡ moves_word mover }
{
    match mover {
        Which::Hopeful => b"plan",
        Which::Dual => b"spoil",
    }
}

/// Returns the table with a top that says that the player wins.
fn verdict_for(mover: Which) -> Which
    ensures { result ≡ other_table mover }
{
    match mover {
        Which::Hopeful => Which::Dual,
        Which::Dual => Which::Hopeful,
    }
}

/// Whether the page's table has the top at the vertex.
pub(crate) fn has_top(order: &Order, which: Which, vertex: u32) -> bool
    requires { vertex < length order.now.game.vertices }
    ensures { IsTrue result ↔
        (slice_index (order_table which order.now) vertex ≡ top_for which (graph_of order.now.game)) }
{
    order.table(which).get(vertex) == order.shape(which).top()
}

/// Appends the move at a vertex, if there is one.
fn move_line(
    word: &[u8],
    order: &Order,
    labels: &VertexNames,
    v: u32,
    to: Option<u32>,
    out: &mut Vec<u8>,
) -> Result<(), AllocError>
    requires v { v < length order.now.game.vertices }
    requires to { IfSome to (λ w. w < length order.now.game.vertices) }
    ensures { OnOk result
        (out.new.items ≡
        out.old.items ++ move_line word.now (vertex_ids order.now.game.vertices) labels.now.names v to) }
{
    match to {
        None => Ok(()),
        Some(w) => {
            out.extend_from_slice(word)?;
            blank_number(identifier(order, v) as u64, out)?;
            blank_number(identifier(order, w) as u64, out)?;
            put_beside_both(labels.name(v), labels.name(w), out)?;
            out.extend_from_slice(b"\n")
        }
    }
}

/// Appends the moves, in the order of the game.
fn each(
    word: &[u8],
    order: &Order,
    labels: &VertexNames,
    moves: &[Option<u32>],
    out: &mut Vec<u8>,
) -> Result<(), AllocError>
    requires count { length moves.now ≡ length order.now.game.vertices }
    requires inside { All (λ m. IfSome m (λ w. w < length order.now.game.vertices)) moves.now }
    ensures { OnOk result (out.new.items ≡
        out.old.items ++ move_lines word.now (vertex_ids order.now.game.vertices) labels.now.names moves.now
        (length moves.now)) }
{
    let count = order.game().vertices() as u32;
    for v in 0..count {
        move_line(word, order, labels, v, moves[v as usize], out)?;
    }
    Ok(())
}

fn count(moves: &[Option<u32>]) -> usize
    ensures { result ≡ count_by is_some moves.now }
{
    moves.iter().filter(|m| m.is_some()).count()
}

/// Appends the moves, and their number.
fn tell(
    word: &[u8],
    order: &Order,
    labels: &VertexNames,
    moves: &[Option<u32>],
    out: &mut Vec<u8>,
) -> Result<(), AllocError>
    requires count { length moves.now ≡ length order.now.game.vertices }
    requires inside { All (λ m. IfSome m (λ w. w < length order.now.game.vertices)) moves.now }
    ensures { OnOk result (out.new.items ≡
        out.old.items ++ moves_text word.now (vertex_ids order.now.game.vertices) labels.now.names moves.now) }
{
    each(word, order, labels, moves, out)?;
    out.extend_from_slice(word)?;
    out.extend_from_slice(b"s")?;
    blank_number(count(moves) as u64, out)?;
    out.extend_from_slice(b"\n")
}

/// Appends moves by which a player wins, if the page says so: Even for the hopeful table, Odd for the dual.
fn winning(
    alloc: Global,
    order: &Order,
    labels: &VertexNames,
    mover: Which,
    vertex: u32,
    limits: Limits,
    out: &mut Vec<u8>,
) -> Result<(), AllocError>
    requires vertex { vertex < length order.now.game.vertices }
    requires verdict { slice_index (order_table (other_table mover) order.now) vertex ≡
        top_for (other_table mover) (graph_of order.now.game) }
    ensures { OnOk result (Appends
        (TellsWinning (scene_of labels.now.names order.now.game order.now.diagram) limits mover vertex
        order.now.decisions) out.old.items out.new.items) }
{
    let word = word_of(mover);
    match winning_moves(alloc, order, mover, vertex, limits)? {
        Moves::Winning(moves) => tell(word, order, labels, &moves, out),
        Moves::Nothing => unreachable!(),
        Moves::Unsettled => lines::unsettled(out),
    }
}

/// Appends moves by which a player wins, if the page says that this player does; or that it doesn't.
fn moves_if(
    alloc: Global,
    order: &Order,
    labels: &VertexNames,
    mover: Which,
    vertex: u32,
    limits: Limits,
    out: &mut Vec<u8>,
) -> Result<(), AllocError>
    requires { vertex < length order.now.game.vertices }
    ensures { OnOk result (Appends
        (TellsMoves (scene_of labels.now.names order.now.game order.now.diagram) limits mover vertex order.now.decisions
        (table_in order.now.hopeful order.now.dual (other_table mover))) out.old.items out.new.items) }
{
    let verdict = verdict_for(mover);
    if has_top(order, verdict, vertex) {
        winning(alloc, order, labels, mover, vertex, limits, out)
    } else {
        let label = labels.name(vertex);
        lines::other(verdict, identifier(order, vertex), label, out)
    }
}

/// Appends moves by which a player wins from the vertex in every product left: Even for the hopeful table, if the page
/// has the vertex sure, or Odd for the dual, if it has it hopeless. Or appends that it hasn't. Returns the answer's
/// tone.
pub fn moves(
    alloc: Global,
    order: &Order,
    labels: &VertexNames,
    mover: Which,
    vertex: u32,
    limits: Limits,
    out: &mut Vec<u8>,
) -> Result<Tone, AllocError>
    requires { vertex < length order.now.game.vertices }
    ensures { IfOk result (λ tone. Gives
        (IsDone (TellsMoves (scene_of labels.now.names order.now.game order.now.diagram) limits mover vertex
        order.now.decisions (table_in order.now.hopeful order.now.dual (other_table mover)))) tone
        out.old.items out.new.items) }
{
    done(moves_if(alloc, order, labels, mover, vertex, limits, out))
}
