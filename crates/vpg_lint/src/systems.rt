//! Messages about faults of a system's text.
ghost use Rattle.std.specs.Prelude.{◌≡◌, IfOk};
ghost use Rattle.vpg_places.specs.Places.{line_text, IsColumnOf};
ghost use Rattle.vpg_lint.specs.Messages.{line_in_system};

use crate::diagrams::is_less;
use crate::faulty::Faulty;
use crate::games::{offset_in_guard, put_guard_fault};
use crate::hints::{Kind, put_text_hint};
use crate::message::{Message, put_found, put_hint, put_hint_line, put_hint_with};
use crate::said::Said;
use crate::tokens::word;
use std::alloc::{AllocError, Global};
use vpg_features::Names;
use vpg_guards::GuardFault;
use vpg_places::{Line, Word, line_at, lines_of, words_of};
use vpg_system::SystemFault;

/// The bytes of a line that are words of their own.
const SIGNS: &[u8] = b"(),";

/// Whether a word is a number.
fn is_number(word: &[u8]) -> bool {
    !word.is_empty() && word.iter().all(|b| b.is_ascii_digit())
}

/// The words of a header, none where a number stands, and what is expected there.
static HEADER: [(&[u8], &[u8]); 8] = [
    (b"des", b"`des`"),
    (b"(", b"`(`"),
    (b"", b"the number of the first state"),
    (b",", b"`,`"),
    (b"", b"the number of transitions"),
    (b",", b"`,`"),
    (b"", b"the number of states"),
    (b")", b"`)`"),
];

/// Returns the place where a line departs from the form of a header, and what is expected there.
fn header_departure(faulty: &Faulty<'_>) -> (usize, &'static [u8]) {
    for (place, (word, expected)) in HEADER.iter().enumerate() {
        let found = faulty.word(place).bytes;
        let is_fit = if word.is_empty() {
            is_number(found)
        } else {
            found == *word
        };
        if !is_fit {
            return (place, *expected);
        }
    }
    (8, b"the end of the line")
}

/// Appends why a line is no header. Returns the place in the line.
fn put_no_header(faulty: &Faulty<'_>, out: &mut Said) -> usize {
    let (place, expected) = header_departure(faulty);
    let at = faulty.put_found(place, expected, out);
    put_hint(
        b"the first line is written `des (FIRST, TRANSITIONS, STATES)`",
        out,
    );
    put_text_hint(faulty.text, Kind::System, out);
    at
}

/// Appends what a header counts too much of. Returns its place in the line.
fn put_too_many(faulty: &Faulty<'_>, out: &mut Said) -> usize {
    if is_less(b"1048576", faulty.word(4).bytes) {
        return faulty.put_found(4, b"at most 1,048,576 transitions", out);
    }
    faulty.put_found(6, b"at most 65,536 states", out)
}

/// Returns the place of the last `,` of a line, and the number of all.
fn last_comma(words: &[Word<'_>]) -> (usize, usize) {
    let mut last = 0;
    let mut count = 0usize;
    for (place, word) in words.iter().enumerate() {
        if word.bytes == b",".as_slice() {
            last = place;
            count = count.saturating_add(1);
        }
    }
    (last, count)
}

/// Returns the place where a line with two `,` departs from the form of a transition, and what is expected there.
fn departure_behind(faulty: &Faulty<'_>, last: usize) -> (usize, &'static [u8]) {
    let (target, close) = (last.saturating_add(1), last.saturating_add(2));
    let end = last.saturating_add(3);
    if !is_number(faulty.word(target).bytes) {
        (target, b"the number of the target")
    } else if faulty.word(close).bytes != b")".as_slice() {
        (close, b"`)`")
    } else if faulty.words.len() > end {
        (end, b"the end of the line")
    } else {
        (3, b"a label in quotes, or one without `,` and `\"`")
    }
}

/// Returns the place where a line departs from the form of a transition, and what is expected there.
fn departure(faulty: &Faulty<'_>) -> (usize, &'static [u8]) {
    let (last, commas) = last_comma(&faulty.words);
    if faulty.word(0).bytes != b"(".as_slice() {
        (0, b"`(`")
    } else if !is_number(faulty.word(1).bytes) {
        (1, b"the number of the source")
    } else if faulty.word(2).bytes != b",".as_slice() {
        (2, b"`,`")
    } else if commas < 2 {
        (faulty.words.len(), b"`,` and the number of the target")
    } else {
        departure_behind(faulty, last)
    }
}

/// Whether a guard stands directly after the quotes of a label.
fn has_guard_outside(faulty: &Faulty<'_>) -> bool {
    let mut is_quoted = false;
    for word in &faulty.words {
        if is_quoted && matches!(word.bytes.first(), Some(b'[')) {
            return true;
        }
        is_quoted = matches!(word.bytes.last(), Some(b'"'));
    }
    false
}

/// Appends why a line is no transition. Returns the place in the line.
fn put_syntax(faulty: &Faulty<'_>, out: &mut Said) -> usize {
    let (place, expected) = departure(faulty);
    let at = faulty.put_found(place, expected, out);
    put_hint(
        b"a transition is written `(SOURCE, \"LABEL\", TARGET)`",
        out,
    );
    if has_guard_outside(faulty) {
        put_hint(
            b"a guard stands within the quotes: `\"ACTION [GUARD]\"`",
            out,
        );
    }
    at
}

/// Returns the header, and how many lines that are not blank stand after it.
fn header_in<'t>(lines: &[Line<'t>]) -> Option<(Line<'t>, usize)> {
    let mut header = None;
    let mut behind = 0usize;
    for line in lines {
        if !line.is_blank() {
            match header {
                Some(_) => behind = behind.saturating_add(1),
                None => header = Some(*line),
            }
        }
    }
    header.map(|it| (it, behind))
}

/// Returns the header of a text, and how many lines that are not blank stand after it.
fn header_of<'t>(alloc: Global, text: &'t [u8]) -> Result<Option<(Line<'t>, usize)>, AllocError> {
    let lines = lines_of(alloc, text)?;
    Ok(header_in(&lines))
}

/// Appends that a header with this many lines after it counts a different number. Returns the place in the line.
fn put_count_of(faulty: &Faulty<'_>, header: Line<'_>, behind: usize, out: &mut Said) -> usize {
    if header.number == faulty.line.number {
        let at = faulty.put_found(4, b"the number of transitions below", out);
        put_hint_line(b"lines below that are not blank: ", behind, out);
        return at;
    }
    let at = faulty.put_found(0, b"no more transitions than the header counts", out);
    put_hint_line(b"the header stands on line ", header.number, out);
    at
}

/// Appends that a header counts a different number of transitions. Returns the place in the line.
fn put_wrong_count(
    alloc: Global,
    faulty: &Faulty<'_>,
    out: &mut Said,
) -> Result<usize, AllocError> {
    match header_of(alloc, faulty.text)? {
        Some((header, behind)) => Ok(put_count_of(faulty, header, behind, out)),
        None => Ok(0),
    }
}

/// Appends which state a header of these words does not count. Returns its place in the line.
fn put_state_of(faulty: &Faulty<'_>, is_header: bool, states: &[u8], out: &mut Said) -> usize {
    let place = if is_header {
        2
    } else if is_less(faulty.word(1).bytes, states) {
        faulty.words.len().saturating_sub(2)
    } else {
        1
    };
    let at = faulty.put_found(place, b"a state", out);
    put_hint_with(
        b"states are the numbers below ",
        states,
        b", as the header says",
        out,
    );
    at
}

/// Appends which state the header does not count. Returns its place in the line.
fn put_no_state(alloc: Global, faulty: &Faulty<'_>, out: &mut Said) -> Result<usize, AllocError> {
    let Some((header, _)) = header_of(alloc, faulty.text)? else {
        return Ok(0);
    };
    let words = words_of(alloc, header.bytes, SIGNS)?;
    let states = word(&words, 6);
    Ok(put_state_of(faulty, header.number == faulty.line.number, states, out))
}

/// Returns the text between the first `,` of a line and the last, without the blanks round it, and where it begins.
fn label_in<'t>(faulty: &Faulty<'t>) -> (usize, &'t [u8]) {
    let (last, _) = last_comma(&faulty.words);
    let from = faulty.word(2).at.saturating_add(1);
    let text = faulty
        .line
        .bytes
        .get(from..faulty.word(last).at)
        .unwrap_or(&[]);
    let label = text.trim_ascii_start();
    let blanks = text.len().saturating_sub(label.len());
    (from.saturating_add(blanks), label.trim_ascii_end())
}

/// Returns a label without quotes round it.
fn unquoted(label: &[u8]) -> &[u8] {
    match label {
        [b'"', inside @ .., b'"'] => inside.trim_ascii(),
        _ => label,
    }
}

/// Returns a hint on a label that is no name with at most one guard.
fn hint_of_label(label: &[u8]) -> Option<&'static [u8]> {
    match label {
        [b'[', ..] => Some(b"the name of the action is missing before the guard"),
        [.., b']'] => Some(b"is a `[` missing before the guard?"),
        _ => None,
    }
}

/// Appends why a label is none. Returns its place in the line.
fn put_label(faulty: &Faulty<'_>, out: &mut Said) -> usize {
    let (at, label) = label_in(faulty);
    let expected = b"the name of an action, and then perhaps a guard between `[` and `]`";
    put_found(label, b"the label", expected, out);
    if let Some(hint) = hint_of_label(unquoted(label)) {
        put_hint(hint, out);
    }
    at
}

/// Appends the meaning of a guard's fault, if the guard is at an offset of the line. Returns its place in the line.
fn put_guard(
    alloc: Global,
    faulty: &Faulty<'_>,
    names: &Names,
    at: usize,
    fault: GuardFault,
    out: &mut Said,
) -> usize {
    let at = at.saturating_add(offset_in_guard(fault));
    put_guard_fault(alloc, faulty.line.bytes, at, names, fault, out);
    at
}

/// Appends what is wrong with a line. Returns its place in the line.
fn put_fault(
    alloc: Global,
    faulty: &Faulty<'_>,
    names: &Names,
    fault: SystemFault,
    out: &mut Said,
) -> Result<usize, AllocError> {
    Ok(match fault {
        SystemFault::NoHeader { .. } => put_no_header(faulty, out),
        SystemFault::TooMany { .. } => put_too_many(faulty, out),
        SystemFault::Syntax { .. } => put_syntax(faulty, out),
        SystemFault::WrongCount { .. } => put_wrong_count(alloc, faulty, out)?,
        SystemFault::Label { .. } => put_label(faulty, out),
        SystemFault::NoState { .. } => put_no_state(alloc, faulty, out)?,
        SystemFault::Guard { at, fault, .. } => put_guard(alloc, faulty, names, at, fault, out),
        SystemFault::Memory => out.put_memory(),
    })
}

/// Returns the number of the line that has a fault.
fn line_of_fault(fault: SystemFault) -> usize
    ensures { result ≡ line_in_system fault }
{
    match fault {
        SystemFault::NoHeader { line } => line,
        SystemFault::TooMany { line } => line,
        SystemFault::Syntax { line } => line,
        SystemFault::WrongCount { line } => line,
        SystemFault::Label { line } => line,
        SystemFault::NoState { line } => line,
        SystemFault::Guard { line, .. } => line,
        SystemFault::Memory => 1,
    }
}

/// Returns the message on the fault with which `System::read` refused a text, over features of these names. Its place
/// is the line that the reader names, at the word that is wrong, in the middle of a guard too.
pub fn explain_system(
    alloc: Global,
    text: &[u8],
    names: &Names,
    fault: SystemFault,
) -> Result<Message, AllocError>
    ensures line { IfOk result (λ message. message.place.line ≡ line_in_system fault) }
    ensures column { IfOk result (λ message.
        IsColumnOf (line_text text.now (line_in_system fault)) message.place.column) }
{
    let line = line_at(text, line_of_fault(fault));
    let words = words_of(alloc, line.bytes, SIGNS)?;
    let mut said = Said::new(alloc);
    let faulty = Faulty { text, line, words };
    let at = put_fault(alloc, &faulty, names, fault, &mut said)?;
    said.into_message(line.place(at))
}
