//! Messages about faulty lines of a script.
ghost use Rattle.std.specs.Prelude.{◌≡◌, IfOk};
ghost use Rattle.vpg_places.specs.Places.{IsColumnOf};

use crate::arguments::{Departure, departure_of, too_great};
use crate::diagrams::NAME_RULE;
use crate::faulty::Faulty;
use crate::hints::{Kind, MARK, put_text_hint};
use crate::message::{Message, put_hint, put_hint_with, put_meant};
use crate::naming::nearest_command;
use crate::said::Said;
use std::alloc::{AllocError, Global};
use vpg_places::{Line, words_of};
use vpg_script::{CommandForm, LONGEST_LINE, Parameter, form_named};

/// The rule for words that stand for vertices.
const VERTEX_RULE: &[u8] =
    b"an identifier is digits alone; a name that is not written as a feature's stands in quotes";

/// Whether a word is a label as it should be.
fn is_label(word: &[u8]) -> bool {
    let Some((b':', digits)) = word.split_last() else {
        return false;
    };
    let mut value = 0u32;
    for b in digits {
        if !b.is_ascii_digit() {
            return false;
        }
        value = value
            .saturating_mul(10)
            .saturating_add(b.saturating_sub(b'0') as u32);
    }
    1 <= value && value <= 64
}

/// Appends a hint about a word that should be a command.
fn put_command_hint(alloc: Global, word: &[u8], out: &mut Said) {
    let command = word.strip_prefix(&MARK).unwrap_or(word);
    if word.contains(&b':') {
        put_hint(
            b"a label is a number from 1 to 64 and `:`, with a blank behind it",
            out,
        );
    } else if form_named(command).is_none() {
        let otherwise = b"`vpgdesk --help` lists the commands";
        put_meant(nearest_command(alloc, command), otherwise, out);
    }
}

/// Appends what is wrong with a word that should be a command. Returns its place in the line.
fn put_unknown(alloc: Global, faulty: &Faulty<'_>, place: usize, out: &mut Said) -> usize {
    let at = faulty.put_found(place, b"a command", out);
    put_command_hint(alloc, faulty.word(place).bytes, out);
    if faulty.line.number == 1 {
        put_text_hint(faulty.line.bytes, Kind::Script, out);
    }
    at
}

/// Returns the words for what is expected as an argument.
fn told(parameter: Parameter) -> &'static [u8] {
    match parameter {
        Parameter::Feature => b"the name of a feature",
        Parameter::Serial => b"the number of a change",
        Parameter::Harvest | Parameter::Sweeps => b"a number",
        Parameter::Table => b"`hopeful` or `dual`",
        Parameter::Vertex => b"the identifier or the name of a vertex",
        Parameter::Subject => b"a vertex or a feature, with `+` or `-` where it is decided",
        Parameter::Asserted => b"a vertex and its verdicts, or `full` or `settled` alone",
        Parameter::Verdict => b"`hopeless`, `possible`, `sure` or `unsure`",
    }
}

/// Appends a hint about an argument.
fn put_argument_hint(departure: Departure, word: &[u8], out: &mut Said) {
    match departure.expected {
        _ if word.starts_with(b"#") => put_hint(b"a comment is a line of its own", out),
        _ if word.is_empty() => {}
        Some(Parameter::Feature) => put_hint(NAME_RULE, out),
        Some(Parameter::Serial | Parameter::Harvest | Parameter::Sweeps) => {
            put_hint(b"a number is digits alone", out)
        }
        Some(Parameter::Vertex) => put_hint(VERTEX_RULE, out),
        _ => {}
    }
}

/// Appends where the arguments of a command depart from its form. Those after a place are its arguments. Returns the
/// place in the line.
fn put_departure(
    faulty: &Faulty<'_>,
    form: &CommandForm,
    departure: Departure,
    first: usize,
    out: &mut Said,
) -> usize {
    let place = first.saturating_add(departure.place);
    let expected = match departure.expected {
        Some(parameter) => told(parameter),
        None => b"the end of the line",
    };
    let at = faulty.put_found(place, expected, out);
    put_hint_with(b"it is written ", form.written.as_bytes(), b"", out);
    put_argument_hint(departure, faulty.word(place).bytes, out);
    at
}

/// Returns what is expected of a number as an argument.
fn told_of_number(parameter: Parameter) -> &'static [u8] {
    match parameter {
        Parameter::Sweeps => b"at most 1,000,000,000 sweeps",
        Parameter::Serial | Parameter::Harvest => b"a number up to 18,446,744,073,709,551,615",
        _ => b"the identifier of a vertex, up to 4,294,967,295",
    }
}

/// Appends what is wrong with the arguments of a command at a place. Returns their place in the line.
fn put_arguments(faulty: &Faulty<'_>, form: &CommandForm, command: usize, out: &mut Said) -> usize {
    let first = command.saturating_add(1);
    let arguments = faulty.words.get(first..).unwrap_or(&[]);
    match departure_of(form, arguments) {
        Some(departure) => put_departure(faulty, form, departure, first, out),
        None => {
            let (place, parameter) = too_great(form, arguments);
            let place = first.saturating_add(place);
            faulty.put_found(place, told_of_number(parameter), out)
        }
    }
}

/// Appends what is wrong with a line. Returns its place in the line.
fn put_refused(alloc: Global, faulty: &Faulty<'_>, out: &mut Said) -> usize {
    let command = if is_label(faulty.word(0).bytes) { 1 } else { 0 };
    match form_named(faulty.word(command).bytes) {
        Some(form) => put_arguments(faulty, &form, command, out),
        None => put_unknown(alloc, faulty, command, out),
    }
}

/// Appends that a line is too long. Returns where it should end.
fn put_long(out: &mut Said) -> usize {
    out.put(b"the line goes on; expected at most 4,096 bytes\n");
    LONGEST_LINE
}

/// Appends what is wrong with any line, also with one that is too long. Returns its place in the line.
fn put_line(alloc: Global, line: Line<'_>, out: &mut Said) -> Result<usize, AllocError> {
    let text = line.bytes;
    if text.len() > LONGEST_LINE {
        return Ok(put_long(out));
    }
    let words = words_of(alloc, text, b"")?;
    Ok(put_refused(alloc, &Faulty { text, line, words }, out))
}

/// Returns the message why a line of a script, of this number, is no command.
pub fn explain_line(alloc: Global, number: usize, line: &[u8]) -> Result<Message, AllocError>
    ensures line { IfOk result (λ message. message.place.line ≡ number) }
    ensures column { IfOk result (λ message. IsColumnOf line.now message.place.column) }
{
    let line = Line {
        number,
        from: 0,
        bytes: line,
    };
    let mut said = Said::new(alloc);
    let at = put_line(alloc, line, &mut said)?;
    said.into_message(line.place(at))
}
