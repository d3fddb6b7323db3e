//! Hints on a whole text: it has a mark in front, or is another kind of file.
use crate::message::put_hint;
use crate::said::Said;
use vpg_places::{LINES, form_of};
use vpg_script::form_named;

/// The byte order mark in UTF-8.
pub(crate) const MARK: [u8; 3] = [239, 187, 191];

/// A kind of text, by its looks.
#[derive(Clone, Copy)]
pub(crate) enum Kind {
    Game,
    Diagram,
    Script,
    System,
    Requirements,
}

fn is_letter(b: u8) -> bool {
    b.is_ascii_alphabetic()
}

/// Returns the letters in front of a text, without blanks.
fn front(text: &[u8]) -> &[u8] {
    let text = text.strip_prefix(&MARK).unwrap_or(text).trim_ascii_start();
    let letters = text.iter().take_while(|b| is_letter(**b)).count();
    text.get(..letters).unwrap_or(text)
}

/// Returns the kind that the front of a text looks like.
fn kind_of(text: &[u8]) -> Option<Kind> {
    let word = front(text);
    if word == b"parity".as_slice() {
        return Some(Kind::Game);
    }
    if word == b"des".as_slice() {
        return Some(Kind::System);
    }
    if form_of(&LINES, word).is_some() {
        return Some(Kind::Diagram);
    }
    if form_named(word).is_some() {
        return Some(Kind::Script);
    }
    let first = text.trim_ascii_start().first();
    if first.is_some_and(|b| b.is_ascii_digit()) {
        return Some(Kind::Game);
    }
    None
}

/// Appends which kind a text looks like, if that is not the wanted one.
pub(crate) fn put_text_hint(text: &[u8], wanted: Kind, out: &mut Said) {
    if text.starts_with(&MARK) {
        put_hint(
            b"the text begins with a byte order mark; save it without one",
            out,
        );
    }
    match (wanted, kind_of(text)) {
        (Kind::Game, Some(Kind::Diagram)) | (Kind::Diagram, Some(Kind::Game)) => put_hint(
            b"this looks like the other file; GAME comes before DIAGRAM",
            out,
        ),
        (Kind::Game | Kind::Diagram, Some(Kind::System)) => put_hint(
            b"this looks like a system, which is named behind `--system`",
            out,
        ),
        (Kind::Script, Some(Kind::Game | Kind::Diagram | Kind::System)) => put_hint(
            b"this looks like no script; the words are GAME DIAGRAM SCRIPT",
            out,
        ),
        (Kind::System, Some(Kind::Game | Kind::Diagram | Kind::Script)) => put_hint(
            b"this looks like no system; the words are `--system SYSTEM --requirements FILE DIAGRAM`",
            out,
        ),
        (Kind::Requirements, Some(Kind::Game | Kind::System)) => put_hint(
            b"this looks like no requirements; the words are `--system SYSTEM --requirements FILE DIAGRAM`",
            out,
        ),
        (Kind::Game | Kind::Diagram, Some(Kind::Script)) => put_hint(
            b"this looks like a script; the words are GAME DIAGRAM SCRIPT",
            out,
        ),
        _ => {}
    }
}
