//! The calls of sessions, noted word by word.
use std::alloc::Global;
use std::fmt::{Display, Write};
use vpg_measure::{Harvest, Order, Table};
use vpg_office::{Fault, Terms};
use vpg_partial::Decision;
use vpg_sides::{Verdict, Which};
use vpg_trail::{Assumed, Entry, Page};

/// Lines of words, one for each call.
#[derive(Drop)]
pub(crate) struct Notes {
    text: String,
    /// Whether nothing is missing: no word lacked memory, and each call was answered by the desk.
    pub(crate) is_whole: bool,
}

impl Notes {
    pub(crate) fn new(alloc: Global) -> Notes {
        Notes {
            text: String::new(alloc),
            is_whole: true,
        }
    }

    /// Writes a word or a number, and a space after it.
    pub(crate) fn put<T: Display + Copy>(&mut self, word: T) {
        self.is_whole &= write!(self.text, "{word} ").is_ok();
    }

    /// Begins the line of a session's call.
    pub(crate) fn begin(&mut self, session: u32, word: &str) {
        self.put(session);
        self.put(word);
    }

    /// Writes the place of the call in the log, and ends the line.
    pub(crate) fn end(&mut self, place: usize) {
        self.is_whole &= write!(self.text, "at {place}\n").is_ok();
    }

    /// Appends other lines.
    pub(crate) fn append(&mut self, other: &Notes) {
        self.is_whole &= other.is_whole & self.text.push_str(other.text.as_str()).is_ok();
    }

    pub(crate) fn text(&self) -> &str {
        self.text.as_str()
    }
}

/// Notes that a call failed which the desk did not refuse. A function that drops a fault itself takes the prover
/// seconds.
pub(crate) fn put_failure<L: Terms, F: Drop>(notes: &mut Notes, _fault: Fault<L, F>) {
    notes.is_whole = false;
}

/// Notes why a call was refused.
pub(crate) fn put_fault<L: Terms, F: Display + Copy + Drop>(notes: &mut Notes, fault: Fault<L, F>) {
    match fault {
        Fault::Refused { fault } => {
            notes.put("refused");
            notes.put(fault);
        }
        other => put_failure(notes, other),
    }
}

fn put_table(notes: &mut Notes, name: &str, table: &Table) {
    notes.put(name);
    for value in table.values() {
        notes.put(*value);
    }
}

fn put_signed(notes: &mut Notes, feature: u16, value: bool) {
    notes.put(if value { "+" } else { "-" });
    notes.put(feature);
}

fn put_decisions(notes: &mut Notes, decisions: &[Decision]) {
    for decision in decisions {
        put_signed(notes, decision.feature, decision.value);
    }
}

fn put_assumed(notes: &mut Notes, under: &Assumed) {
    for literal in under.literals() {
        put_signed(notes, literal.feature, literal.value);
    }
}

fn put_entry(notes: &mut Notes, entry: &Entry) {
    match entry {
        Entry::Decide(decision) => {
            notes.put("decide");
            put_signed(notes, decision.feature, decision.value);
            notes.put(decision.serial);
            notes.put(decision.session);
        }
        Entry::Lift {
            table,
            vertex,
            old,
            new,
            under,
        } => {
            notes.put(match table {
                Which::Hopeful => "hopeful",
                Which::Dual => "dual",
            });
            notes.put(*vertex);
            notes.put(*old);
            notes.put(*new);
            put_assumed(notes, under);
        }
    }
    notes.put("/");
}

/// Notes a page: its entries and its tables.
pub(crate) fn put_page(notes: &mut Notes, page: &Page) {
    for entry in page.entries.as_slice() {
        put_entry(notes, entry);
    }
    put_table(notes, "tables", &page.hopeful);
    put_table(notes, "and", &page.dual);
}

/// Notes an order: its decisions and its tables.
pub(crate) fn put_order(notes: &mut Notes, order: &Order) {
    put_decisions(notes, order.decisions());
    put_table(notes, "tables", order.hopeful());
    put_table(notes, "and", order.dual());
}

/// Notes both tables of a harvest.
pub(crate) fn put_tables(notes: &mut Notes, harvest: &Harvest) {
    put_table(notes, "tables", harvest.table(Which::Hopeful));
    put_table(notes, "and", harvest.table(Which::Dual));
}

/// Notes a harvest: the decisions of its order, and its own tables.
pub(crate) fn put_harvest(notes: &mut Notes, harvest: &Harvest) {
    put_decisions(notes, harvest.order().decisions());
    put_tables(notes, harvest);
}

/// Notes verdicts.
pub(crate) fn put_verdicts(notes: &mut Notes, verdicts: &[Verdict]) {
    for verdict in verdicts {
        notes.put(if verdict.hopeless {
            "hopeless"
        } else {
            "possible"
        });
        notes.put(if verdict.sure { "sure" } else { "unsure" });
    }
}
