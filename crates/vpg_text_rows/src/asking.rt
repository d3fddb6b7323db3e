//! Questions of rows about a page.
//!
//! Vertices stand as the game's file numbers them, features by name.
//!
//! | Row | Asks |
//! |---|---|
//! | `hopeless V`, `sure V` | which decisions make the vertex so |
//! | `known +F` | which decisions make the feature known so |
//! | `against +F` | which decisions contradict this one more |
//! | `lost V`, `won V`, `barren` | which decisions leave no product that Even (Odd) wins; no product at all |
//! | `example V`, `counterexample V`, `product` | a product that is left and that Even (Odd) wins; any |
//! | `needs V`, `fails V`, `forced` | the features that all products left that Even (Odd) wins have or lack; all left |
//! | `offer +F V`, `without N V` | the verdicts of the vertex with one more decision; without the Nth |
//! | `still N V`, `certain N V` | whether the vertex would be hopeless, or sure, without the Nth |
//! | `repair V`, `expose V` | the decisions to retract so that it is not hopeless any more; not sure any more |
ghost use Rattle.std.specs.Prelude.{◌<◌, IfSome, length};
ghost use Rattle.vpg_diagram.specs.FeatureDiagram.{feature_count};
ghost use Rattle.vpg_why.specs.Suffices.{IsAim};

use crate::changing::{put_repair, put_with, put_without};
use crate::decisions::decision_of;
use crate::line::Line;
use crate::putting::{put_demand, put_found, put_why, put_why_lost};
use vpg_measure::Order;
use vpg_partial::Decision;
use vpg_sides::Which;
use vpg_why::{Aim, Limits, find, needs, why_conflict, why_known, why_lost, why_within};

/// The question of a word.
#[derive(Clone, Copy)]
enum RowInquiry {
    Why,
    Known,
    Against,
    Lost,
    Example,
    Needs,
    Offer,
    Without,
    Stays,
    Repair,
    /// No word.
    Nothing,
}

const HOPEFUL: Option<Which> = Some(Which::Hopeful);

const DUAL: Option<Which> = Some(Which::Dual);

/// The question of each word, and its table; no table if it is about all products.
static WORDS: [(&str, RowInquiry, Option<Which>); 19] = [
    ("hopeless", RowInquiry::Why, HOPEFUL),
    ("sure", RowInquiry::Why, DUAL),
    ("known", RowInquiry::Known, None),
    ("against", RowInquiry::Against, None),
    ("lost", RowInquiry::Lost, HOPEFUL),
    ("won", RowInquiry::Lost, DUAL),
    ("barren", RowInquiry::Lost, None),
    ("example", RowInquiry::Example, HOPEFUL),
    ("counterexample", RowInquiry::Example, DUAL),
    ("product", RowInquiry::Example, None),
    ("needs", RowInquiry::Needs, HOPEFUL),
    ("fails", RowInquiry::Needs, DUAL),
    ("forced", RowInquiry::Needs, None),
    ("offer", RowInquiry::Offer, None),
    ("without", RowInquiry::Without, None),
    ("still", RowInquiry::Stays, HOPEFUL),
    ("certain", RowInquiry::Stays, DUAL),
    ("repair", RowInquiry::Repair, HOPEFUL),
    ("expose", RowInquiry::Repair, DUAL),
];

/// Returns the question of a word, and its table.
fn asked_of(word: &str) -> (RowInquiry, Option<Which>) {
    for (name, asked, which) in &WORDS {
        if *name == word {
            return (*asked, *which);
        }
    }
    (RowInquiry::Nothing, HOPEFUL)
}

/// Returns the number of a word; or writes in the line why it has none.
fn number_of(word: &str, line: &mut Line) -> Option<u32> {
    match word.parse::<u32>() {
        Ok(number) => Some(number),
        Err(fault) => {
            line.show(&fault);
            None
        }
    }
}

/// Returns the vertex of an identifier.
fn vertex_of(order: &Order, word: &str, line: &mut Line) -> Option<u32>
    ensures { IfSome result (λ v. v < length order.now.game.vertices) }
{
    let id = number_of(word, line)?;
    match order.game().find(id) {
        Some(vertex) if (vertex as usize) < order.game().vertices() => Some(vertex),
        _ => {
            line.put("vertex");
            None
        }
    }
}

/// Returns the choice of a word, `+F` or `-F`, as a decision.
fn choice_of(order: &Order, word: &str, line: &mut Line) -> Option<Decision>
    ensures { IfSome result (λ choice. choice.feature < feature_count order.now.diagram.lines) }
{
    match decision_of(order.diagram().names(), word.as_bytes()) {
        Some(choice) if (choice.feature as usize) < order.diagram().features() => Some(choice),
        _ => {
            line.put("feature");
            None
        }
    }
}

/// Returns the place of the decision that a word numbers, from 1 on.
fn place_of(order: &Order, word: &str, line: &mut Line) -> Option<usize>
    ensures { IfSome result (λ place. place < length order.now.decisions) }
{
    let number = number_of(word, line)? as usize;
    if number == 0 || number > order.decisions().len() {
        line.put("decision");
        return None;
    }
    Some(number - 1)
}

/// Returns the aim of a search for products: those that win at the vertex of a word, for Even or for Odd, or any.
fn aim_of(order: &Order, which: Option<Which>, word: &str, line: &mut Line) -> Option<Aim>
    ensures { IfSome result (λ aim. IsAim order.now.game aim) }
{
    let Some(which) = which else {
        return Some(Aim::Any);
    };
    let vertex = vertex_of(order, word, line)?;
    Some(Aim::Won { which, vertex })
}

/// Asks of a vertex: why its verdict is so, or the decisions to retract so that it is not so any more.
fn ask_vertex(
    order: &Order,
    asked: RowInquiry,
    which: Which,
    word: &str,
    limits: Limits,
    line: &mut Line,
) {
    if let Some(vertex) = vertex_of(order, word, line) {
        match asked {
            RowInquiry::Why => {
                let mut looks = limits.budget;
                let found = why_within(line.alloc, order, which, vertex, limits, &mut looks);
                put_why(order, found, line);
            }
            _ => put_repair(order, which, vertex, limits, line),
        }
    }
}

/// Asks for the decisions that make a choice known, or that contradict it.
fn ask_choice(order: &Order, asked: RowInquiry, word: &str, line: &mut Line) {
    if let Some(choice) = choice_of(order, word, line) {
        let found = match asked {
            RowInquiry::Known => why_known(line.alloc, order, choice.feature, choice.value),
            _ => why_conflict(line.alloc, order, choice.feature, choice.value),
        };
        put_why(order, found, line);
    }
}

fn ask_offer(order: &Order, choice: &str, word: &str, limits: Limits, line: &mut Line) {
    if let Some(choice) = choice_of(order, choice, line) {
        if let Some(vertex) = vertex_of(order, word, line) {
            put_with(order, choice, vertex, limits, line);
        }
    }
}

/// Asks for the verdicts without a decision: by both tables, or by one.
fn ask_fewer(
    order: &Order,
    which: Option<Which>,
    number: &str,
    word: &str,
    limits: Limits,
    line: &mut Line,
) {
    if let Some(place) = place_of(order, number, line) {
        if let Some(vertex) = vertex_of(order, word, line) {
            put_without(order, which, place, vertex, limits, line);
        }
    }
}

/// Asks about two words: a choice or the number of a decision, and a vertex.
fn ask_of_two(
    order: &Order,
    asked: RowInquiry,
    which: Option<Which>,
    words: &str,
    limits: Limits,
    line: &mut Line,
) {
    match (words.split_once(' '), asked) {
        (Some((choice, word)), RowInquiry::Offer) => ask_offer(order, choice, word, limits, line),
        (Some((number, word)), _) => ask_fewer(order, which, number, word, limits, line),
        (None, _) => line.put("vertex"),
    }
}

/// Asks of products.
fn ask_of_products(
    order: &Order,
    asked: RowInquiry,
    which: Option<Which>,
    word: &str,
    limits: Limits,
    line: &mut Line,
) {
    if let Some(aim) = aim_of(order, which, word, line) {
        match asked {
            RowInquiry::Lost => put_why_lost(order, why_lost(line.alloc, order, aim, limits), line),
            RowInquiry::Example => put_found(order, find(line.alloc, order, aim, limits), line),
            RowInquiry::Needs => put_demand(order, needs(line.alloc, order, aim, limits), line),
            _ => line.put("word"),
        }
    }
}

/// Asks of a page.
pub(crate) fn ask(order: &Order, word: &str, words: &str, limits: Limits, line: &mut Line) {
    let (asked, which) = asked_of(word);
    let table = which.unwrap_or(Which::Hopeful);
    match asked {
        RowInquiry::Why | RowInquiry::Repair => ask_vertex(
            order, asked, table, words, limits, line,
        ),
        RowInquiry::Known | RowInquiry::Against => ask_choice(order, asked, words, line),
        RowInquiry::Offer | RowInquiry::Without | RowInquiry::Stays => {
            ask_of_two(order, asked, which, words, limits, line)
        }
        _ => ask_of_products(order, asked, which, words, limits, line),
    }
}
