//! The page that rows ask about: the order of its decisions, with both tables settled.
//!
//! The rows `diagram TEXT`, `game TEXT`, `page DECISION..` and `limits BUDGET ROUNDS TRIALS` set the page for the rows
//! after them; every other row is a question, which `asking` answers.
ghost use Rattle.std.specs.Arc.{arc_value};
ghost use Rattle.std.specs.Prelude.{◌≡◌, IsTrue, map};
ghost use Rattle.vpg_diagram.specs.FeatureDiagram.{feature_count};
ghost use Rattle.vpg_partial.specs.Known.{literal_of};
ghost use Rattle.vpg_partial.specs.TableLaws.{AreChoicesOf};

use crate::asking::ask;
use crate::decisions::{are_choices, decisions_of};
use crate::diagrams::diagram_of;
use crate::games::game_of;
use crate::line::Line;
use crate::text::{numbers_of, spelled};
use std::alloc::{AllocError, Global};
use std::sync::Arc;
use vpg_diagram::Diagram;
use vpg_game::GuardedGame;
use vpg_guess::{Groundwork, harvest_by_bounds};
use vpg_measure::laws::orders::zeros_are_opening;
use vpg_measure::{Order, Refused, Shape, Table};
use vpg_partial::Decision;
use vpg_why::Limits;

/// The page that rows ask about, as rows write it.
#[derive(Drop)]
pub(crate) struct Page<'a> {
    diagram: &'a str,
    game: &'a str,
    decisions: &'a str,
    limits: Limits,
}

/// Returns a page without texts, with limits that no small game meets.
pub(crate) fn blank() -> Page<'static> {
    Page {
        diagram: "",
        game: "",
        decisions: "",
        limits: Limits {
            budget: 1 << 27,
            rounds: 1_000,
            trials: 100_000,
        },
    }
}

/// Takes the limits of a row, which has three numbers.
fn set_limits(limits: &mut Limits, writing: &str, line: &mut Line) {
    let numbers = numbers_of(writing.as_bytes(), line);
    match numbers.as_slice() {
        [budget, rounds, trials] => {
            limits.budget = *budget as u64;
            limits.rounds = *rounds as u64;
            limits.trials = *trials as u64;
        }
        _ => line.put(" = no limits"),
    }
}

/// Takes a row about the page. Returns whether it is one.
pub(crate) fn take<'a>(page: &mut Page<'a>, word: &str, writing: &'a str, line: &mut Line) -> bool {
    match word {
        "diagram" => page.diagram = writing,
        "game" => page.game = writing,
        "page" => page.decisions = writing,
        "limits" => set_limits(&mut page.limits, writing, line),
        _ => return false,
    }
    true
}

/// Whether a game has a diagram's features, and each decision is of one.
fn fit(game: &GuardedGame, diagram: &Diagram, decisions: &[Decision]) -> bool
    ensures features { IsTrue result → game.now.features ≡ feature_count diagram.now.lines }
    ensures named { IsTrue result → AreChoicesOf diagram.now.lines (map literal_of decisions.now) }
{
    game.features() == diagram.features() && are_choices(diagram, decisions)
}

/// Returns the order of decisions with two tables of zeros, or why there is none.
fn zeros_over(
    alloc: Global,
    game: Arc<GuardedGame>,
    diagram: Arc<Diagram>,
    decisions: Vec<Decision>,
) -> Result<Result<Order, Refused>, AllocError>
    requires features { (arc_value game).features ≡ feature_count (arc_value diagram).lines }
    requires named { AreChoicesOf (arc_value diagram).lines (map literal_of decisions.items) }
{
    zeros_are_opening();
    let vertices = game.vertices() as u32;
    let shape = Shape::of(alloc, &game)?;
    let dual_shape = Shape::of_dual(alloc, &game)?;
    let hopeful = Table::zero(alloc, &shape, vertices)?;
    let dual = Table::zero(alloc, &dual_shape, vertices)?;
    Ok(Order::of(alloc, game, diagram, decisions, hopeful, dual))
}

/// Returns the order with both tables raised by certified bounds.
fn raised(order: Order, line: &mut Line) -> Option<Order> {
    let harvest = harvest_by_bounds(line.alloc, order, &mut Groundwork::none(), 1 << 27).ok();
    line.note(harvest.is_some());
    match harvest {
        Some(harvest) => Some(harvest.again()),
        None => None,
    }
}

/// Returns the order of decisions on a game and a diagram; or writes in the line why there is none.
fn order_over(
    game: Arc<GuardedGame>,
    diagram: Arc<Diagram>,
    decisions: Vec<Decision>,
    line: &mut Line,
) -> Option<Order> {
    if !fit(&game, &diagram, &decisions) {
        line.put("features");
        return None;
    }
    match zeros_over(line.alloc, game, diagram, decisions) {
        Ok(Ok(order)) => raised(order, line),
        Ok(Err(refused)) => {
            line.show(&refused.fault);
            None
        }
        Err(_) => {
            line.note(false);
            None
        }
    }
}

/// Returns the game that a row writes over a diagram; or writes in the line why it writes none.
fn shared_game(diagram: &Diagram, writing: &str, line: &mut Line) -> Option<Arc<GuardedGame>> {
    let text = spelled(line.alloc, writing);
    match game_of(diagram.names(), &text.text, line) {
        Some(game) => {
            let shared = Arc::new(line.alloc, game).ok();
            line.note(shared.is_some());
            shared
        }
        None => None,
    }
}

/// Returns the diagram that a row writes; or writes in the line why it writes none.
fn shared_diagram(writing: &str, line: &mut Line) -> Option<Arc<Diagram>> {
    let text = spelled(line.alloc, writing);
    match diagram_of(&text.text, line) {
        Some(diagram) => {
            let shared = Arc::new(line.alloc, diagram).ok();
            line.note(shared.is_some());
            shared
        }
        None => None,
    }
}

/// Returns the page's order; or writes in the line why there is none.
fn order_of(page: &Page<'_>, line: &mut Line) -> Option<Order> {
    let diagram = shared_diagram(page.diagram, line)?;
    let decisions = decisions_of(diagram.names(), page.decisions.as_bytes(), line)?;
    let game = shared_game(&diagram, page.game, line)?;
    order_over(game, diagram, decisions, line)
}

/// Writes the answer to a question after its row.
pub(crate) fn put_answer(page: &Page<'_>, word: &str, words: &str, line: &mut Line) {
    line.put(" = ");
    if let Some(order) = order_of(page, line) {
        ask(&order, word, words, page.limits, line);
    }
}
