//! Rows of names. Names that are added one after the other are parted by `~`.
//!
//! - `add NAME~..` adds the names to none, and is answered the answer to each and how many there are then.
//! - `last NAME~..` is answered so for the last alone.
//! - `get NAME~NAME~..` looks the first up among the others.
//! - `at PLACE~NAME~..` is answered the name at the place.
//! - `is NAME` asks whether it is the name of a feature.

use crate::asked::RowQuestion;
use crate::line::Line;
use crate::text::{number_of, parts_of, two_of};
use vpg_features::{NameFault, Names, is_feature_name};

/// Writes the answer to a name that was added.
fn put_answer(added: Result<u16, NameFault>, line: &mut Line) {
    match added {
        Ok(place) => line.show(&place),
        Err(fault) => line.show(&fault),
    }
    line.put(", ");
}

/// Whether the answer to a name is written, with this many names after it.
fn is_written(asked: &RowQuestion, behind: usize) -> bool {
    match asked {
        RowQuestion::Add => true,
        RowQuestion::Last => behind == 0,
        _ => false,
    }
}

/// Adds names, and writes the answers that are asked for.
fn add_all(names: &mut Names, asked: &RowQuestion, text: &[u8], line: &mut Line) {
    let parts = parts_of(text, b'~', line);
    let mut behind = parts.len();
    for name in &parts {
        behind = behind.saturating_sub(1);
        let added = names.add(line.alloc, name);
        if is_written(asked, behind) {
            put_answer(added, line);
        }
    }
}

/// Adds names, and writes the answers that are asked for, and how many there are.
fn put_added(names: &mut Names, asked: &RowQuestion, text: &[u8], line: &mut Line) {
    add_all(names, asked, text, line);
    line.show(&names.len());
    line.put(if names.is_empty() {
        " names, empty"
    } else {
        " names"
    });
}

/// Writes the name at a place.
fn put_name(names: &Names, place: u32, line: &mut Line) {
    if (place as usize) < names.len() && place <= 511 {
        line.put(names.name(place as u16));
    } else {
        line.put("no name there");
    }
}

/// Adds all names except the first, and looks that up.
fn put_found(names: &mut Names, asked: &RowQuestion, text: &[u8], line: &mut Line) {
    let (word, others) = two_of(text);
    add_all(names, asked, others, line);
    match asked {
        RowQuestion::Get => line.debug(&names.get(word)),
        _ => put_name(names, number_of(word), line),
    }
}

/// Answers a row, beginning with no names.
fn put(names: &mut Names, asked: &RowQuestion, text: &[u8], line: &mut Line) {
    match asked {
        RowQuestion::Is => line.put_yes_or_no(is_feature_name(text)),
        RowQuestion::Get | RowQuestion::At => put_found(names, asked, text, line),
        _ => put_added(names, asked, text, line),
    }
}

/// Answers a row.
pub(crate) fn answer(asked: &RowQuestion, text: &[u8], line: &mut Line) {
    let made = Names::new(line.alloc);
    if let Some(mut names) = line.kept(made) {
        put(&mut names, asked, text, line);
    }
}
