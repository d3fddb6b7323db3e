//! Rows of mistakes: the messages about texts that are refused.
//!
//! - `game TEXT` is answered the mistake of the text as a game over the features of the family.
//! - `diagram TEXT` is answered its mistake as a diagram.
//! - `line TEXT` is answered its mistake as the second line of a script.

use crate::asked::RowQuestion;
use crate::line::Line;
use std::alloc::AllocError;
use vpg_diagram::Diagram;
use vpg_features::Names;
use vpg_game::GuardedGame;
use vpg_lint::{Message, explain_diagram, explain_game, explain_line, put_message};

/// The message about a text that has no mistake.
const NOTHING: &str = "nothing is wrong\n";

/// Writes a message about the file of this name.
fn put(name: &str, message: Result<Message, AllocError>, line: &mut Line) {
    if let Some(message) = line.kept(message) {
        let done = put_message(name, &message, &mut line.text).is_ok();
        line.note(done);
    }
}

/// Writes the message about a text as a game.
fn put_game(names: &Names, text: &[u8], line: &mut Line) {
    match GuardedGame::read(line.alloc, text, names) {
        Ok(_) => line.put(NOTHING),
        Err(fault) => put("game", explain_game(line.alloc, text, names, fault), line),
    }
}

/// Writes the message about a text as a diagram.
fn put_diagram(text: &[u8], line: &mut Line) {
    match Diagram::read(line.alloc, text) {
        Ok(_) => line.put(NOTHING),
        Err(fault) => put("diagram", explain_diagram(line.alloc, text, fault), line),
    }
}

/// Writes the message about the text of a row.
pub(crate) fn answer(names: &Names, asked: &RowQuestion, text: &[u8], line: &mut Line) {
    match asked {
        RowQuestion::Game => put_game(names, text, line),
        RowQuestion::Diagram => put_diagram(text, line),
        _ => put("script", explain_line(line.alloc, 2, text), line),
    }
}
