//! Rows of games, over the features `r`, `f` and `g`.
//!
//! - `read GAME` is answered `read`, or the fault.
//! - `write GAME` and `dual GAME` are answered the text of the game and of its dual, after a text that stood there
//!   before.
//! - `dual-of-dual GAME` is answered whether the game and its dual are at the limit of priorities, and the dual of the
//!   dual.
//! - `look GAME` is answered identifier, priority, owner and edges of each vertex; `!` is a guard that always holds, `?F`
//!   the feature with the number F, `..` any other.
//! - `find N ~ GAME` is answered the place of the vertex with the identifier N.
//! - `sizes GAME` is answered how many vertices there are, and how many edges the first has.
//! - `tops GAME` is answered the tops of both tables.
//! - `same GAME ~ GAME` asks whether both are the same.
//! - `odd-counts N..` is answered how many of the priorities are 0, 1 and so on; an even one is counted as none.
//! - `top N..` is answered the top of these priorities.

use crate::asked::RowQuestion;
use crate::line::Line;
use crate::text::{number_of, numbers_of, two_of};
use vpg_features::Names;
use vpg_game::{Edge, GuardedGame, odd_counts, top_within_limit};
use vpg_guards::Guard;

/// Writes the text of a game after a text.
fn put_game(names: &Names, game: &GuardedGame, line: &mut Line) {
    line.put("game: ");
    if names.len() == game.features() {
        let done = game.write(line.alloc, names, &mut line.text).is_ok();
        line.note(done);
    }
}

/// Returns a game's dual, or writes in the line why it has none.
fn dual_of(game: &GuardedGame, line: &mut Line) -> Option<GuardedGame> {
    match game.dual(line.alloc) {
        Ok(dual) => Some(dual),
        Err(fault) => {
            line.show(&fault);
            None
        }
    }
}

/// Writes the text of a game's dual, or why it has none.
fn put_dual(names: &Names, game: &GuardedGame, line: &mut Line) {
    if let Some(dual) = dual_of(game, line) {
        put_game(names, &dual, line);
    }
}

/// Writes whether a game and its dual are at the limit, and the dual of the dual.
fn put_duals(names: &Names, game: &GuardedGame, line: &mut Line) {
    if let Some(dual) = dual_of(game, line) {
        line.show(&game.is_at_limit());
        line.put(", ");
        line.show(&dual.is_at_limit());
        line.put(", ");
        put_dual(names, &dual, line);
    }
}

/// Writes a sign for a guard.
fn put_guard(guard: &Guard, line: &mut Line) {
    match guard {
        Guard::Always => line.put("!"),
        Guard::Feature(f) => {
            line.put("?");
            line.show(f);
        }
        _ => line.put(".."),
    }
}

/// Writes edges.
fn put_edges(edges: &[Edge], line: &mut Line) {
    for edge in edges {
        line.number(" ", edge.to as u64);
        put_guard(&edge.guard, line);
    }
    line.put(";");
}

/// Writes the answer about each vertex.
fn put_vertices(game: &GuardedGame, line: &mut Line) {
    let count = game.vertices() as u32;
    for v in 0..count {
        line.show(&game.id(v));
        line.number(" ", game.priority(v) as u64);
        line.put(" ");
        line.debug(&game.owner(v));
        put_edges(game.edges(v), line);
    }
}

/// Writes how many vertices there are, and how many edges the first has.
fn put_sizes(game: &GuardedGame, line: &mut Line) {
    let vertices = game.vertices();
    line.show(&vertices);
    if vertices > 0 {
        line.number(" ", game.edges(0).len() as u64);
    }
}

/// Writes the tops of both tables.
fn put_tops(game: &GuardedGame, line: &mut Line) {
    let (hopeful, dual) = game.tops();
    line.show(&hopeful);
    line.number(" ", dual);
}

/// Writes the answer to a question about a game.
fn put(names: &Names, asked: &RowQuestion, game: &GuardedGame, line: &mut Line) {
    match asked {
        RowQuestion::Read => line.put("read"),
        RowQuestion::Write => put_game(names, game, line),
        RowQuestion::Dual => put_dual(names, game, line),
        RowQuestion::DualOfDual => put_duals(names, game, line),
        RowQuestion::Look => put_vertices(game, line),
        RowQuestion::Sizes => put_sizes(game, line),
        RowQuestion::Tops => put_tops(game, line),
        _ => line.put("no such word"),
    }
}

/// Returns the game that a text spells, or writes its fault in the line.
pub(crate) fn game_of(names: &Names, text: &[u8], line: &mut Line) -> Option<GuardedGame> {
    match GuardedGame::read(line.alloc, text, names) {
        Ok(game) => Some(game),
        Err(fault) => {
            line.show(&fault);
            None
        }
    }
}

/// Answers a row of one game.
fn told(names: &Names, asked: &RowQuestion, text: &[u8], line: &mut Line) {
    if let Some(game) = game_of(names, text, line) {
        put(names, asked, &game, line);
    }
}

/// Writes whether a text spells this game.
fn put_same(names: &Names, game: &GuardedGame, text: &[u8], line: &mut Line) {
    if let Some(other) = game_of(names, text, line) {
        line.put_yes_or_no(game.is_same(&other));
    }
}

/// Answers a row of two parts: the question of its first about the game of its second.
fn paired(names: &Names, asked: &RowQuestion, text: &[u8], line: &mut Line) {
    let (first, second) = two_of(text);
    if let Some(game) = game_of(names, second, line) {
        match asked {
            RowQuestion::Find => line.debug(&game.find(number_of(first))),
            _ => put_same(names, &game, first, line),
        }
    }
}

/// Writes how many priorities are each number.
fn put_counts(priorities: &[u32], line: &mut Line) {
    let counts = odd_counts(line.alloc, priorities);
    if let Some(counts) = line.kept(counts) {
        line.debug(&counts.as_slice());
    }
}

/// Writes the top of priorities.
fn put_top(priorities: &[u32], line: &mut Line) {
    let top = top_within_limit(line.alloc, priorities);
    if let Some(top) = line.kept(top) {
        line.debug(&top);
    }
}

/// Answers a row of priorities.
fn counted(asked: &RowQuestion, text: &[u8], line: &mut Line) {
    let priorities = numbers_of(text, line);
    match asked {
        RowQuestion::Top => put_top(&priorities, line),
        _ => put_counts(&priorities, line),
    }
}

/// Answers a row.
pub(crate) fn answer(names: &Names, asked: &RowQuestion, text: &[u8], line: &mut Line) {
    match asked {
        RowQuestion::Top | RowQuestion::OddCounts => counted(asked, text, line),
        RowQuestion::Find | RowQuestion::Same => paired(names, asked, text, line),
        _ => told(names, asked, text, line),
    }
}
