//! Rows of feature diagrams.
//!
//! - `read DIAGRAM` is answered `read`, or the fault.
//! - `names DIAGRAM` is answered the features in order, and how many there are.
//! - `products DIAGRAM` is answered the products of a diagram of at most five features, each as a row of ones and zeros;
//!   the first feature changes first.
//! - `clauses DIAGRAM` is answered the clauses, each after a bar: literals with the features' numbers.
//! - `counts DIAGRAM` is answered the counts, each after a bar: the parent, the range and the members.
//! - `same DIAGRAM ~ DIAGRAM` asks whether both are the same.
//! - `most-rules` is answered how many rules a diagram may have.

use crate::asked::RowQuestion;
use crate::line::Line;
use crate::text::two_of;
use vpg_diagram::{Clause, Count, Diagram, MOST_RULES};
use vpg_features::Names;

/// Writes the features in order, and how many there are.
fn put_names(names: &Names, line: &mut Line) {
    for place in 0..512u16 {
        if (place as usize) < names.len() {
            line.put_each(&[names.name(place), " "]);
        }
    }
    line.show(&names.len());
}

/// Moves on to the next set of features, with the root changing first. The empty set comes after the full one.
fn next_set(set: &mut [bool]) {
    for f in 0..set.len() {
        set[f] = !set[f];
        if set[f] {
            return;
        }
    }
}

/// Writes a set as ones and zeros.
fn put_set(set: &[bool], line: &mut Line) {
    line.put(" ");
    for value in set {
        line.put(if *value { "1" } else { "0" });
    }
}

/// Writes the products among the first 32 sets.
fn put_products(diagram: &Diagram, set: &mut [bool], line: &mut Line) {
    for _ in 0..32 {
        if set.len() == diagram.features() && diagram.is_product(set) {
            put_set(set, line);
        }
        next_set(set);
        if !set.contains(&true) {
            break;
        }
    }
}

/// Writes a clause.
fn put_clause(clause: &Clause, line: &mut Line) {
    line.put("|");
    for literal in clause.literals() {
        line.number(
            if literal.value { "+" } else { "-" },
            literal.feature as u64,
        );
    }
}

/// Writes a count.
fn put_count(count: &Count, line: &mut Line) {
    line.number("|", count.parent() as u64);
    line.number(" ", count.low() as u64);
    line.number(" to ", count.high() as u64);
    line.put(" of");
    for member in count.members() {
        line.number(" ", *member as u64);
    }
}

/// Writes all clauses.
fn put_clauses(diagram: &Diagram, line: &mut Line) {
    for clause in diagram.clauses() {
        put_clause(clause, line);
    }
}

/// Writes all counts.
fn put_counts(diagram: &Diagram, line: &mut Line) {
    for count in diagram.counts() {
        put_count(count, line);
    }
}

/// Writes all products.
fn put_all_products(diagram: &Diagram, line: &mut Line) {
    let set = vec![in line.alloc; false; diagram.features()];
    if let Some(mut set) = line.kept(set) {
        put_products(diagram, &mut set, line);
    }
}

/// Writes the answer to a question about a diagram.
fn put(asked: &RowQuestion, diagram: &Diagram, line: &mut Line) {
    match asked {
        RowQuestion::Read => line.put("read"),
        RowQuestion::Names => put_names(diagram.names(), line),
        RowQuestion::Products => put_all_products(diagram, line),
        RowQuestion::Clauses => put_clauses(diagram, line),
        RowQuestion::Counts => put_counts(diagram, line),
        _ => line.put("no such word"),
    }
}

/// Returns the diagram that a text spells, or writes its fault in the line.
pub(crate) fn diagram_of(text: &[u8], line: &mut Line) -> Option<Diagram> {
    match Diagram::read(line.alloc, text) {
        Ok(diagram) => Some(diagram),
        Err(fault) => {
            line.show(&fault);
            None
        }
    }
}

/// Answers a row of one diagram.
fn told(asked: &RowQuestion, text: &[u8], line: &mut Line) {
    if let Some(diagram) = diagram_of(text, line) {
        put(asked, &diagram, line);
    }
}

/// Answers whether two texts spell the same diagram.
fn compared(text: &[u8], line: &mut Line) {
    let (first, second) = two_of(text);
    if let Some(diagram) = diagram_of(first, line) {
        if let Some(other) = diagram_of(second, line) {
            line.put_yes_or_no(diagram.is_same(&other));
        }
    }
}

/// Answers a row.
pub(crate) fn answer(asked: &RowQuestion, text: &[u8], line: &mut Line) {
    match asked {
        RowQuestion::Same => compared(text, line),
        RowQuestion::MostRules => line.show(&MOST_RULES),
        _ => told(asked, text, line),
    }
}
