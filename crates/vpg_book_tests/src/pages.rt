//! Pages and entries as texts, such as `select f 1 by 1 / hopeful 0 0 2 +f / `.
use std::alloc::Global;
use std::fmt::{Display, Write};
use vpg_measure::Table;
use vpg_sides::Which;
use vpg_trail::{Assumed, Entry, Page};

/// A text that is written. If memory runs out this is noted, and reported once the text is whole.
#[derive(Drop)]
struct Line {
    text: String,
    lacks: bool,
}

impl Line {
    fn new(alloc: Global) -> Line {
        Line {
            text: String::new(alloc),
            lacks: false,
        }
    }

    /// Whether this text was written, and all of it found memory.
    fn is(&self, text: &str) -> bool {
        !self.lacks && self.text.as_str() == text
    }

    /// Writes a word or a number, and a space after it.
    fn put<T: Display + Copy>(&mut self, word: T) {
        self.lacks |= write!(self.text, "{word} ").is_err();
    }
}

/// Returns the feature's name in the diagram of the tests.
fn name(feature: u16) -> &'static str {
    match feature {
        0 => "r",
        1 => "f",
        2 => "g",
        _ => "other",
    }
}

/// Returns the feature's name after its sign.
fn signed(feature: u16, value: bool) -> &'static str {
    match (feature, value) {
        (0, true) => "+r",
        (0, false) => "-r",
        (1, true) => "+f",
        (1, false) => "-f",
        (2, true) => "+g",
        (2, false) => "-g",
        _ => "other",
    }
}

fn put_assumed(line: &mut Line, under: &Assumed) {
    for literal in under.literals() {
        line.put(signed(literal.feature, literal.value));
    }
}

fn put_entry(line: &mut Line, entry: &Entry) {
    match entry {
        Entry::Decide(decision) => {
            line.put(if decision.value { "select" } else { "exclude" });
            line.put(name(decision.feature));
            line.put(decision.serial);
            line.put("by");
            line.put(decision.session);
        }
        Entry::Lift {
            table,
            vertex,
            old,
            new,
            under,
        } => {
            line.put(match table {
                Which::Hopeful => "hopeful",
                Which::Dual => "dual",
            });
            line.put(*vertex);
            line.put(*old);
            line.put(*new);
            put_assumed(line, under);
        }
    }
}

fn put_entries(line: &mut Line, entries: &[Entry]) {
    for entry in entries {
        put_entry(line, entry);
        line.put("/");
    }
}

fn put_table(line: &mut Line, table: &Table) {
    for value in table.values() {
        line.put(*value);
    }
    line.put("/");
}

/// Whether a page is this text: its decisions, its entries, and its two tables.
pub fn is_text(alloc: Global, page: &Page, text: &str) -> bool {
    let mut line = Line::new(alloc);
    line.put(page.decisions.as_slice().len());
    line.put("decided /");
    put_entries(&mut line, page.entries.as_slice());
    put_table(&mut line, &page.hopeful);
    put_table(&mut line, &page.dual);
    line.is(text)
}

/// Whether entries are this text.
pub fn are_text(alloc: Global, entries: &[Entry], text: &str) -> bool {
    let mut line = Line::new(alloc);
    put_entries(&mut line, entries);
    line.is(text)
}
