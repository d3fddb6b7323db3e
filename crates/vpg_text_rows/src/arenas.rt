//! Rows on the features that decisions make known, and on the games that they leave.
//!
//! - `close DECISIONS ~ DIAGRAM` is answered a sign for each feature: known in (`+`), known out (`-`) or not known (`?`).
//! - `product DECISIONS ~ DIAGRAM` is answered whether each feature is known, and the product if there is one.
//! - `hopeful DECISIONS ~ GAME` is answered owner, priority and kept successors of each vertex of the hopeful game, over the
//!   optional features `f` and `g` of the root `r`; `hopeful-of-dual` those of the dual.
//! - `project SIGNS ~ GAME` is answered the text of the game of the set of features with `+`, after a text that
//!   stood there before.

use crate::asked::RowQuestion;
use crate::decisions::{close_checked, decisions_of};
use crate::diagrams::diagram_of;
use crate::games::game_of;
use crate::line::Line;
use crate::text::{set_of, two_of};
use vpg_diagram::Diagram;
use vpg_game::GuardedGame;
use vpg_guards::Tri;
use vpg_hope::{Arena, PlainGame, project};
use vpg_partial::Partial;

/// Returns the features that the decisions of a row make known.
fn known_of(diagram: &Diagram, text: &[u8], line: &mut Line) -> Option<Partial> {
    match decisions_of(diagram.names(), text, line) {
        Some(decisions) => close_checked(diagram, &decisions, line),
        None => None,
    }
}

/// Writes a sign for each value.
fn put_values(values: &[Tri], line: &mut Line) {
    for value in values {
        line.put(match value {
            Tri::No => "-",
            Tri::Unknown => "?",
            Tri::Yes => "+",
        });
    }
}

/// Writes the value of each feature, looked up by its number.
fn put_each(known: &Partial, line: &mut Line) {
    for feature in 0..512u16 {
        if (feature as usize) < known.values().len() {
            line.put(" ");
            line.debug(&known.value(feature));
        }
    }
}

/// Writes whether each feature is known, the value of each, and the product.
fn put_product(known: &Partial, line: &mut Line) {
    line.show(&known.is_full());
    put_each(known, line);
    line.put(" ");
    let product = known.product(line.alloc);
    if let Some(product) = line.kept(product) {
        line.debug(&product.as_deref());
    }
}

/// Answers a row on the features that decisions make known.
fn known_told(asked: &RowQuestion, text: &[u8], line: &mut Line) {
    let (decisions, text) = two_of(text);
    if let Some(diagram) = diagram_of(text, line) {
        if let Some(known) = known_of(&diagram, decisions, line) {
            match asked {
                RowQuestion::Close => put_values(known.values(), line),
                _ => put_product(&known, line),
            }
        }
    }
}

/// Writes owner, priority and kept successors of each vertex.
fn put_vertices(arena: &Arena, line: &mut Line) {
    for v in 0..arena.vertices() {
        line.debug(&arena.owner(v));
        line.number(" ", arena.priority(v) as u64);
        line.put(" ");
        line.debug(&arena.kept(v));
        line.put(";");
    }
}

/// Writes the game that is left, or its dual.
fn put_arena(asked: &RowQuestion, game: &GuardedGame, known: &Partial, line: &mut Line) {
    if known.values().len() != game.features() {
        line.put("features");
        return;
    }
    let arena = match asked {
        RowQuestion::Hopeful => Arena::hopeful(line.alloc, game, known),
        _ => Arena::hopeful_of_dual(line.alloc, game, known),
    };
    if let Some(arena) = line.kept(arena) {
        put_vertices(&arena, line);
    }
}

/// Writes the game that decisions leave.
fn put_left(
    asked: &RowQuestion,
    decisions: &[u8],
    diagram: &Diagram,
    game: &GuardedGame,
    line: &mut Line,
) {
    if let Some(known) = known_of(diagram, decisions, line) {
        put_arena(asked, game, &known, line);
    }
}

/// Returns the game of a set of features, if there is a value for each; or writes in the line why not.
fn projection(
    signs: &[u8],
    diagram: &Diagram,
    game: &GuardedGame,
    line: &mut Line,
) -> Option<PlainGame> {
    let set = set_of(signs, line);
    if diagram.features() != game.features() || set.len() != game.features() {
        line.put("features");
        return None;
    }
    match project(line.alloc, game, diagram, &set) {
        Ok(plain) => Some(plain),
        Err(fault) => {
            line.show(&fault);
            None
        }
    }
}

/// Writes the text of the game of a set of features, after a text.
fn put_projected(signs: &[u8], diagram: &Diagram, game: &GuardedGame, line: &mut Line) {
    if let Some(plain) = projection(signs, diagram, game, line) {
        line.put("plain: ");
        let done = plain.write(line.alloc, &mut line.text).is_ok();
        line.note(done);
    }
}

/// Answers a row over the diagram of free features.
fn free(diagram: &Diagram, asked: &RowQuestion, text: &[u8], line: &mut Line) {
    let (first, text) = two_of(text);
    if let Some(game) = game_of(diagram.names(), text, line) {
        match asked {
            RowQuestion::Project => put_projected(first, diagram, &game, line),
            _ => put_left(asked, first, diagram, &game, line),
        }
    }
}

/// Answers a row, over the diagram of free features if it has none of its own.
pub(crate) fn answer(diagram: &Diagram, asked: &RowQuestion, text: &[u8], line: &mut Line) {
    match asked {
        RowQuestion::Close | RowQuestion::Product => known_told(asked, text, line),
        _ => free(diagram, asked, text, line),
    }
}
