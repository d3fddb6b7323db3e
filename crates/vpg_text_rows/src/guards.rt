//! Rows of guards, over the features `a` and `b`. Guards are parted by `~`.
//!
//! - `read GUARD` is answered `read`, or the fault.
//! - `write GUARD` is answered its text.
//! - `same GUARD ~ GUARD` asks whether both are the same.
//! - `or GUARD ~ GUARD ~ GUARD` asks whether the last two joined by `or` are the first; `twice GUARD ~ GUARD` whether a
//!   copy of the last joined with it by `and` is the first; `all GUARD ~ GUARD ~ GUARD` whether an `and` made of a list of
//!   the last two is the first.
//! - `known SIGNS ~ GUARD` is answered the value if a feature is known in (`+`), known out (`-`) or not known (`?`);
//!   `holds SIGNS ~ GUARD` the truth in a set of features (`+` and `-`).
ghost use Rattle.std.specs.Prelude.{IfSome, length};
ghost use Rattle.vpg_guards.specs.Formula.{IsBelow};
ghost use Rattle.vpg_guards.specs.View.{formula_of};

use crate::asked::RowQuestion;
use crate::line::Line;
use crate::text::{set_of, two_of};
use vpg_features::Names;
use vpg_guards::{Guard, Guards, Tri, parse_guard};

/// Returns the guard that a text spells, or writes its fault in the line.
fn guard_of(names: &Names, text: &[u8], line: &mut Line) -> Option<Guard>
    ensures { IfSome result (λ guard. IsBelow (length names.now) (formula_of guard)) }
{
    match parse_guard(line.alloc, text, names) {
        Ok(guard) => Some(guard),
        Err(fault) => {
            line.show(&fault);
            None
        }
    }
}

/// Returns the value that signs give each feature.
fn known_of(signs: &[u8], line: &mut Line) -> Vec<Tri> {
    let mut known = Vec::new(line.alloc);
    for sign in signs {
        let value = match *sign {
            b'+' => Tri::Yes,
            b'-' => Tri::No,
            _ => Tri::Unknown,
        };
        if *sign != b' ' {
            line.note(known.push(value).is_ok());
        }
    }
    known
}

/// Writes the value of a guard.
fn put_value(names: &Names, signs: &[u8], guard: &Guard, line: &mut Line)
    requires { IsBelow (length names.now) (formula_of guard.now) }
{
    let known = known_of(signs, line);
    if known.len() == names.len() {
        line.debug(&guard.kleene(&known));
    } else {
        line.put("features");
    }
}

/// Writes the truth of a guard.
fn put_truth(names: &Names, signs: &[u8], guard: &Guard, line: &mut Line)
    requires { IsBelow (length names.now) (formula_of guard.now) }
{
    let set = set_of(signs, line);
    if set.len() == names.len() {
        line.put_yes_or_no(guard.eval(&set));
    } else {
        line.put("features");
    }
}

/// Writes the answer to a question about a guard.
fn put(names: &Names, asked: &RowQuestion, signs: &[u8], guard: &Guard, line: &mut Line)
    requires { IsBelow (length names.now) (formula_of guard.now) }
{
    match asked {
        RowQuestion::Read => line.put("read"),
        RowQuestion::Write => {
            let done = guard.write(line.alloc, names, &mut line.text).is_ok();
            line.note(done);
        }
        RowQuestion::Known => put_value(names, signs, guard, line),
        _ => put_truth(names, signs, guard, line),
    }
}

/// Answers a row of one guard.
fn told(names: &Names, asked: &RowQuestion, signs: &[u8], text: &[u8], line: &mut Line) {
    if let Some(guard) = guard_of(names, text, line) {
        put(names, asked, signs, &guard, line);
    }
}

/// Returns the `and` of a guard and its copy.
fn and_itself(guard: Guard, line: &mut Line) -> Option<Guard> {
    let copy = guard.copy(line.alloc);
    match line.kept(copy) {
        Some(copy) => {
            let made = copy.and(line.alloc, guard);
            line.kept(made)
        }
        None => None,
    }
}

/// Returns two guards joined by `or`, or by an `and` of a list, which goes through both forms of a list.
fn joined(asked: &RowQuestion, guard: Guard, other: Guard, line: &mut Line) -> Option<Guard> {
    match asked {
        RowQuestion::Or => {
            let made = guard.or(line.alloc, other);
            line.kept(made)
        }
        _ => {
            let mut items = Vec::new(line.alloc);
            line.note(items.push(guard).is_ok());
            line.note(items.push(other).is_ok());
            Some(Guard::All(Guards::new(Guards::new(items).into_vec())))
        }
    }
}

/// Returns the guard that a row makes of a guard, and of another if it has one.
fn made(
    names: &Names,
    asked: &RowQuestion,
    guard: Guard,
    text: &[u8],
    line: &mut Line,
) -> Option<Guard> {
    match asked {
        RowQuestion::Same => Some(guard),
        RowQuestion::Twice => and_itself(guard, line),
        _ => match guard_of(names, text, line) {
            Some(other) => joined(asked, guard, other, line),
            None => None,
        },
    }
}

/// Writes whether a text spells the guard that a row makes of a guard.
fn put_same(
    names: &Names,
    asked: &RowQuestion,
    first: &[u8],
    guard: Guard,
    text: &[u8],
    line: &mut Line,
) {
    if let Some(guard) = made(names, asked, guard, text, line) {
        if let Some(other) = guard_of(names, first, line) {
            line.put_yes_or_no(other.is_same(&guard));
        }
    }
}

/// Answers whether a text spells the guard that a row makes.
fn compared(names: &Names, asked: &RowQuestion, first: &[u8], rest: &[u8], line: &mut Line) {
    let (one, other) = two_of(rest);
    if let Some(guard) = guard_of(names, one, line) {
        put_same(names, asked, first, guard, other, line);
    }
}

/// Answers a row.
pub(crate) fn answer(names: &Names, asked: &RowQuestion, text: &[u8], line: &mut Line) {
    let (first, rest) = two_of(text);
    match asked {
        RowQuestion::Read | RowQuestion::Write => told(names, asked, b"", text, line),
        RowQuestion::Known | RowQuestion::Holds => told(names, asked, first, rest, line),
        _ => compared(names, asked, first, rest, line),
    }
}
