//! Rows of facts about texts and about answers on pages.
//!
//!     vpg_text_rows [FILE..]
//!
//! Each file of the folder that the program runs in is a table: a row is a word for a question, and the text that it is
//! about. The program writes each row with its answer after ` = `, and comments as they stand. `text` says how a row
//! writes a text; the modules of the tables explain each word. A fault is an answer as any other.
//!
//! After the facts of guards, feature diagrams, games, systems and decisions come the texts that are shown at a
//! terminal. `family` has a family, and makes up verdicts of it, so that each of the four is there. The program writes
//! where its game starts, its two pictures and that of a system under each list of decisions of `pictures`, and the
//! messages about each text of `mistakes`. At last come answers about pages (`pages`): why a verdict is so, which
//! decisions could still be made, a product that is won. If words name files, these are tables of such questions, and
//! the program answers them alone.
//!
//! No function has more than one exit at which something is dropped: an answer goes into a `Line`, which also notes
//! that memory ran out. The program ends once a line lacks memory.
#![tactic(auto)]

mod arenas;
mod asked;
mod asking;
mod changing;
mod decisions;
mod diagrams;
mod family;
mod games;
mod guards;
mod line;
mod mistakes;
mod names;
mod pages;
mod putting;
mod systems;
mod text;

use crate::asked::{RowQuestion, asked_of};
use crate::diagrams::diagram_of;
use crate::line::Line;
use crate::pages::{Page, blank, take};
use crate::text::spelled;
use anyhow::{Context, Result, bail};
use std::{env, fs};
use vpg_diagram::Diagram;

/// A table.
#[derive(Clone, Copy)]
enum Table {
    Names,
    Guards,
    Diagrams,
    Games,
    Systems,
    Arenas,
    Pictures,
    Mistakes,
    Pages,
}

/// The tables with their files, in the order in which they are answered.
static TABLES: [(&str, Table); 11] = [
    ("names", Table::Names),
    ("guards", Table::Guards),
    ("diagrams", Table::Diagrams),
    ("games", Table::Games),
    ("systems", Table::Systems),
    ("arenas", Table::Arenas),
    ("pictures", Table::Pictures),
    ("mistakes", Table::Mistakes),
    ("small", Table::Pages),
    ("limits", Table::Pages),
    ("families", Table::Pages),
];

/// A diagram of the features `a` and `b`, for guards.
const PAIR: &[u8] = b"root a\noptional a b\n";

/// A diagram of the features `r`, `f` and `g`, for games and systems.
const FREE: &[u8] = b"root r\noptional r f\noptional r g\n";

/// Writes the answer to a question about a text over a diagram.
fn answer_over(diagram: &Diagram, table: Table, asked: &RowQuestion, text: &[u8], line: &mut Line) {
    match table {
        Table::Guards => guards::answer(diagram.names(), asked, text, line),
        Table::Games => games::answer(diagram.names(), asked, text, line),
        Table::Systems => systems::answer(diagram.names(), asked, text, line),
        Table::Arenas => arenas::answer(diagram, asked, text, line),
        _ => mistakes::answer(diagram.names(), asked, text, line),
    }
}

/// Returns the diagram of a table's texts.
fn diagram_below(table: Table) -> &'static [u8] {
    match table {
        Table::Guards => PAIR,
        Table::Mistakes => family::DIAGRAM,
        _ => FREE,
    }
}

/// Writes the answer to a question about a text.
fn answer(table: Table, asked: &RowQuestion, text: &[u8], line: &mut Line) {
    match table {
        Table::Names => names::answer(asked, text, line),
        Table::Diagrams => diagrams::answer(asked, text, line),
        _ => {
            if let Some(diagram) = diagram_of(diagram_below(table), line) {
                answer_over(&diagram, table, asked, text, line);
            }
        }
    }
}

/// Writes the answer to a row.
fn answer_row(table: Table, word: &str, writing: &str, line: &mut Line) {
    let text = spelled(line.alloc, writing);
    line.note(!text.lacks);
    answer(table, asked_of(word), &text.text, line);
}

/// Turns each line feed from a place on into a `/`.
fn flatten(text: &mut [u8], from: usize) {
    for place in from..text.len() {
        if text[place] == b'\n' {
            text[place] = b'/';
        }
    }
}

/// Writes an answer after its row, with each line feed as `/`.
fn put_answer(table: Table, word: &str, writing: &str, line: &mut Line) {
    line.put(" = ");
    let from = line.text.len();
    answer_row(table, word, writing, line);
    flatten(&mut line.text, from);
}

/// Writes the text after a row of a table.
fn put_behind<'r>(page: &mut Page<'r>, table: Table, row: &'r str, line: &mut Line) {
    let (word, writing) = row.split_once(' ').unwrap_or((row, ""));
    match table {
        Table::Mistakes => {
            line.put("\n");
            answer_row(table, word, writing, line);
        }
        Table::Pages => {
            if !take(page, word, writing, line) {
                pages::put_answer(page, word, writing, line);
            }
            line.put("\n");
        }
        _ => {
            put_answer(table, word, writing, line);
            line.put("\n");
        }
    }
}

/// Writes a row and the text after it; a comment has none.
fn put_row<'r>(page: &mut Page<'r>, table: Table, row: &'r str, line: &mut Line) {
    if let Table::Pictures | Table::Mistakes = table {
        line.put("# ");
    }
    line.put(row);
    if let Table::Pictures = table {
        family::put_pictures(row, line);
    } else if row.is_empty() || row.starts_with('#') {
        line.put("\n");
    } else {
        put_behind(page, table, row, line);
    }
}

/// Writes the answers of a table's rows.
fn put_rows(table: Table, rows: &str, line: &mut Line) {
    let mut page = blank();
    if let Table::Pictures = table {
        family::put_start(line);
    }
    for row in rows.lines() {
        put_row(&mut page, table, row, line);
    }
}

/// Prints a line that lacks nothing.
fn print_line(rt: &HostRuntime, line: &Line) -> Result<()> {
    if line.lacks {
        bail!("no memory");
    }
    print!(rt; "{}", str::from_utf8(&line.text).unwrap_or("not UTF-8\n"))?;
    Ok(())
}

/// Carries out a table.
fn carry_out(rt: &HostRuntime, table: Table, rows: &str) -> Result<()> {
    let mut line = Line::new(rt.alloc());
    put_rows(table, rows, &mut line);
    print_line(rt, &line)
}

/// Carries out the table of a file.
fn carry_out_file(rt: &HostRuntime, file: &str, table: Table) -> Result<()> {
    let rows = fs::read_to_string(rt, file).context(file)?;
    carry_out(rt, table, rows.as_str())
}

/// Carries out the tables of questions that words name.
fn carry_out_words(rt: &HostRuntime, words: &[String]) -> Result<()> {
    for word in words {
        carry_out_file(rt, word.as_str(), Table::Pages)?;
    }
    Ok(())
}

/// Carries out the tables of the folder.
fn carry_out_all(rt: &HostRuntime) -> Result<()> {
    for (file, table) in &TABLES {
        carry_out_file(rt, file, *table)?;
    }
    Ok(())
}

fn main(rt: HostRuntime) -> Result<()> {
    let words: Vec<String> = env::args(&rt)?.collect(rt.alloc())?;
    if words.len() > 1 {
        carry_out_words(&rt, &words[1..])
    } else {
        carry_out_all(&rt)
    }
}
