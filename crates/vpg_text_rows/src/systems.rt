//! Rows of transition systems, over the features `r`, `f` and `g`.
//!
//! - `read SYSTEM` is answered `read`, or the fault.
//! - `write SYSTEM` is answered the text of the system, after a text that stood there before.
//! - `look SYSTEM` is answered the first state, how many states and actions there are, the names of the actions, and of
//!   each transition the numbers of its source, its action and its target.
//! - `find NAME~SYSTEM` is answered the number of the action of that name.

use crate::asked::RowQuestion;
use crate::line::Line;
use crate::text::two_of;
use vpg_features::Names;
use vpg_system::{System, Transition};

/// Writes the text of a system after a text.
fn put_system(names: &Names, system: &System, line: &mut Line) {
    line.put("system: ");
    if names.len() == system.features() {
        let done = system.write(line.alloc, names, &mut line.text).is_ok();
        line.note(done);
    }
}

/// Writes the names of the actions.
fn put_actions(system: &System, line: &mut Line) {
    for action in 0..system.actions() {
        line.put(" ");
        line.put_bytes(system.action_name(action));
    }
}

/// Writes the numbers of a transition.
fn put_transition(transition: &Transition, line: &mut Line) {
    line.number("; ", transition.source as u64);
    line.number(" ", transition.action as u64);
    line.number(" ", transition.target as u64);
}

/// Writes the numbers of a system, and the names of its actions.
fn put_numbers(system: &System, line: &mut Line) {
    line.show(&system.first());
    line.number(" of ", system.states() as u64);
    line.number(", ", system.actions() as u64);
    line.put(" actions");
    put_actions(system, line);
    for transition in system.transitions() {
        put_transition(transition, line);
    }
}

/// Writes the answer to a question about a system.
fn put(names: &Names, asked: &RowQuestion, system: &System, line: &mut Line) {
    match asked {
        RowQuestion::Read => line.put("read"),
        RowQuestion::Write => put_system(names, system, line),
        RowQuestion::Look => put_numbers(system, line),
        _ => line.put("no such word"),
    }
}

/// Returns the system that a text spells, or writes its fault in the line.
fn system_of(names: &Names, text: &[u8], line: &mut Line) -> Option<System> {
    match System::read(line.alloc, text, names) {
        Ok(system) => Some(system),
        Err(fault) => {
            line.show(&fault);
            None
        }
    }
}

/// Answers a row of a system.
fn told(names: &Names, asked: &RowQuestion, text: &[u8], line: &mut Line) {
    if let Some(system) = system_of(names, text, line) {
        put(names, asked, &system, line);
    }
}

/// Answers with the number of an action.
fn found(names: &Names, text: &[u8], line: &mut Line) {
    let (name, rest) = two_of(text);
    if let Some(system) = system_of(names, rest, line) {
        line.debug(&system.action(name));
    }
}

/// Answers a row.
pub(crate) fn answer(names: &Names, asked: &RowQuestion, text: &[u8], line: &mut Line) {
    match asked {
        RowQuestion::Find => found(names, text, line),
        _ => told(names, asked, text, line),
    }
}
