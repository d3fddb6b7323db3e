//! Pictures of the part of a game that decides a vertex.
ghost use Rattle.std.specs.Prelude.{◌≡◌, ◌<◌, IfOk, OnOk, length, slice_index};
ghost use Rattle.vpg_looks.specs.Answers.{Appends};
ghost use Rattle.vpg_looks.specs.Parts.{DrawsWinning, IsPartDrawn, TellsPart};
ghost use Rattle.vpg_diagram.specs.FeatureDiagram.{feature_count};
ghost use Rattle.vpg_game.specs.Game.{graph_of};
ghost use Rattle.vpg_measure.specs.Games.{ArePageGames};
ghost use Rattle.vpg_measure.specs.Orders.{order_table, other_table};
ghost use Rattle.vpg_measure.specs.TwoGames.{top_for};
ghost use Rattle.vpg_partial.specs.TableLaws.{AreChoicesOf};
ghost use Rattle.vpg_script.specs.Answer.{Gives, IsDone};
ghost use Rattle.vpg_texts.specs.Scene.{scene_of};
ghost use Rattle.vpg_why.specs.Explained.{choices};
ghost use Rattle.vpg_why.specs.Products.{loser};

use crate::lines;
use crate::winning::has_top;
use std::alloc::{AllocError, Global};
use vpg_diagram::Diagram;
use vpg_draw::draw_part;
use vpg_game::{GuardedGame, VertexNames};
use vpg_measure::{Order, PageGames, Table};
use vpg_partial::Decision;
use vpg_script::{Tone, done};
use vpg_sides::{Player, Which};
use vpg_texts::verdicts_by;
use vpg_why::{Limits, Moves, reachable, winning_moves};

/// Returns the player of the listed moves.
fn player(mover: Which) -> Player
    ensures { result ≡ loser mover }
{
    match mover {
        Which::Hopeful => Player::Even,
        Which::Dual => Player::Odd,
    }
}

/// Appends the picture of the vertices that can be reached from this one, if the mover makes the listed moves, over the
/// games that the decisions leave.
fn part_over(
    alloc: Global,
    game: &GuardedGame,
    diagram: &Diagram,
    labels: &VertexNames,
    games: &PageGames,
    decisions: &[Decision],
    hopeful: &Table,
    dual: &Table,
    vertex: u32,
    mover: Option<Player>,
    moves: &[Option<u32>],
    out: &mut Vec<u8>,
) -> Result<(), AllocError>
    requires features { game.now.features ≡ feature_count diagram.now.lines }
    requires games { ArePageGames game.now diagram.now (choices decisions.now) games.now }
    requires named { AreChoicesOf diagram.now.lines (choices decisions.now) }
    requires hopeful { length hopeful.now ≡ length game.now.vertices }
    requires dual { length dual.now ≡ length game.now.vertices }
    requires vertex { vertex < length game.now.vertices }
    ensures { OnOk result (Appends
        (IsPartDrawn (scene_of labels.now.names game.now diagram.now) vertex decisions.now hopeful.now dual.now mover
        moves.now)
        out.old.items out.new.items) }
{
    let marks = reachable(alloc, game, games.known(), mover, moves, vertex)?;
    let verdicts = verdicts_by(alloc, games, game, hopeful, dual)?;
    draw_part(
        alloc,
        game,
        diagram.names(),
        games.known(),
        decisions,
        labels,
        &verdicts,
        vertex,
        &marks,
        mover,
        moves,
        out,
    )
}

/// Appends the picture of the vertices that can be reached from this one, if the mover makes the listed moves.
fn drawn(
    alloc: Global,
    order: &Order,
    labels: &VertexNames,
    vertex: u32,
    mover: Option<Player>,
    moves: &[Option<u32>],
    out: &mut Vec<u8>,
) -> Result<(), AllocError>
    requires { vertex < length order.now.game.vertices }
    ensures { OnOk result (Appends
        (IsPartDrawn (scene_of labels.now.names order.now.game order.now.diagram) vertex order.now.decisions
        order.now.hopeful order.now.dual mover moves.now) out.old.items out.new.items) }
{
    part_over(
        alloc,
        order.game(),
        order.diagram(),
        labels,
        order.games(),
        order.decisions(),
        order.hopeful(),
        order.dual(),
        vertex,
        mover,
        moves,
        out,
    )
}

/// Appends the picture with the moves of a player, Even for the hopeful table and Odd for the dual, if the page says
/// that this player wins.
fn winning(
    alloc: Global,
    order: &Order,
    labels: &VertexNames,
    mover: Which,
    vertex: u32,
    limits: Limits,
    out: &mut Vec<u8>,
) -> Result<(), AllocError>
    requires vertex { vertex < length order.now.game.vertices }
    requires verdict { slice_index (order_table (other_table mover) order.now) vertex ≡
        top_for (other_table mover) (graph_of order.now.game) }
    ensures { OnOk result (Appends
        (DrawsWinning (scene_of labels.now.names order.now.game order.now.diagram) limits mover vertex
        order.now.decisions order.now.hopeful order.now.dual) out.old.items out.new.items) }
{
    match winning_moves(alloc, order, mover, vertex, limits)? {
        Moves::Winning(moves) => {
            let mover = Some(player(mover));
            drawn(alloc, order, labels, vertex, mover, &moves, out)
        }
        Moves::Nothing => unreachable!(),
        Moves::Unsettled => lines::unsettled(out),
    }
}

/// Appends the picture, with moves of the player who wins by the page.
fn picture(
    alloc: Global,
    order: &Order,
    labels: &VertexNames,
    vertex: u32,
    limits: Limits,
    out: &mut Vec<u8>,
) -> Result<(), AllocError>
    requires { vertex < length order.now.game.vertices }
    ensures { OnOk result (Appends
        (TellsPart (scene_of labels.now.names order.now.game order.now.diagram) limits vertex order.now.decisions
        order.now.hopeful order.now.dual) out.old.items out.new.items) }
{
    if has_top(order, Which::Hopeful, vertex) {
        winning(alloc, order, labels, Which::Dual, vertex, limits, out)
    } else if has_top(order, Which::Dual, vertex) {
        winning(alloc, order, labels, Which::Hopeful, vertex, limits, out)
    } else {
        drawn(alloc, order, labels, vertex, None, &[], out)
    }
}

/// Appends a picture of the part of the game that decides a vertex, and returns the answer's tone. If it is hopeless,
/// these are the vertices reached by Odd's moves that win in every product left. Else if it is sure, they are those
/// reached by Even's; else all that can be reached.
pub fn part(
    alloc: Global,
    order: &Order,
    labels: &VertexNames,
    vertex: u32,
    limits: Limits,
    out: &mut Vec<u8>,
) -> Result<Tone, AllocError>
    requires { vertex < length order.now.game.vertices }
    ensures { IfOk result (λ tone. Gives
        (IsDone (TellsPart (scene_of labels.now.names order.now.game order.now.diagram) limits vertex
        order.now.decisions order.now.hopeful order.now.dual)) tone out.old.items out.new.items) }
{
    done(picture(alloc, order, labels, vertex, limits, out))
}
