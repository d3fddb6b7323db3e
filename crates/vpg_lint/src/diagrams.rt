//! Messages about faults of a diagram's text.
ghost use Rattle.std.specs.Prelude.{◌≡◌, IfOk};
ghost use Rattle.vpg_places.specs.Places.{line_text, IsColumnOf};
ghost use Rattle.vpg_lint.specs.Messages.{line_of_fault};

use crate::faulty::Faulty;
use crate::hints::{Kind, MARK, put_text_hint};
use crate::message::{Message, put_found, put_hint, put_hint_line, put_hint_with, put_meant};
use crate::naming::{nearest_kind, nearest_of};
use crate::said::Said;
use std::alloc::{AllocError, Global};
use vpg_diagram::DiagramFault;
use vpg_places::{
    Declared, Departure, Form, LINES, Part, declared_of, find, form_of, line_at, names_before,
    words_of,
};

/// The rule for names.
pub(crate) const NAME_RULE: &[u8] =
    b"a name is a letter or `_`, then letters, digits and `_`, at most 64 bytes, and neither `true` nor `false`";

const KINDS: &[u8] =
    b"`root`, `mandatory`, `optional`, `alternative`, `or`, `group`, `requires`, `excludes` or `rule`";

const FORMULA: &[u8] = b"a formula of features with `!`, `&`, `|`, `=>`, `<=>` and parentheses";

fn is_remark(word: &[u8]) -> bool {
    word.starts_with(b"#") || word.starts_with(b"//") || word.starts_with(b"--")
}

/// Appends a hint about the first word of a line.
fn put_kind_hint(alloc: Global, word: &[u8], out: &mut Said) {
    let word = word.strip_prefix(&MARK).unwrap_or(word);
    if is_remark(word) {
        put_hint(b"a diagram has no comments", out);
    } else if form_of(&LINES, word).is_none() {
        put_meant(nearest_kind(alloc, word), b"", out);
    }
}

/// Appends a hint about a name that is none.
fn put_name_hint(word: &[u8], out: &mut Said) {
    let hint: &[u8] = if word == b":".as_slice() {
        b"a name is missing before the `:`, or a `:` is left over"
    } else if is_remark(word) {
        b"a diagram has no comments"
    } else if word.contains(&b',') {
        b"blanks stand between names, and no commas"
    } else {
        NAME_RULE
    };
    if !word.is_empty() {
        put_hint(hint, out);
    }
}

/// Appends a hint about a word that does not fit its place.
fn put_departure_hint(form: &Form, departure: Departure, word: &[u8], out: &mut Said) {
    match departure.expected {
        None if word == b":".as_slice() => put_hint(b"no `:` stands in such a line", out),
        None if is_remark(word) => put_hint(b"a diagram has no comments", out),
        None if form.parts.contains(&Part::Child) => put_hint(b"one line for each child", out),
        None => {}
        Some(Part::Colon) if !word.is_empty() => {
            put_hint(b"is the `:` behind the parent missing?", out)
        }
        Some(part) if part.is_name() => put_name_hint(word, out),
        Some(_) => {}
    }
}

/// Appends where a line departs from its form, and returns that place.
fn put_departure(faulty: &Faulty<'_>, form: &Form, departure: Departure, out: &mut Said) -> usize {
    // The first word of the line is not among those of the form.
    let place = departure.place.saturating_add(1);
    let expected = match departure.expected {
        Some(part) => part.told(),
        None => b"the end of the line",
    };
    let at = faulty.put_found(place, expected, out);
    put_hint_with(
        b"such a line is written ",
        form.written.as_bytes(),
        b"",
        out,
    );
    put_departure_hint(form, departure, faulty.word(place).bytes, out);
    at
}

/// Appends what is wrong with the form of a line, and returns its place in the line.
fn put_form(alloc: Global, faulty: &Faulty<'_>, out: &mut Said) -> usize {
    let Some((first, rest)) = faulty.words.split_first() else {
        return faulty.put_found(0, KINDS, out);
    };
    match form_of(&LINES, first.bytes) {
        Some(form) => match form.departure(rest) {
            Some(departure) => put_departure(faulty, &form, departure, out),
            None if form.parts.contains(&Part::Formula) => faulty.put_found(1, FORMULA, out),
            None => faulty.put_found(0, KINDS, out),
        },
        None => {
            let at = faulty.put_found(0, KINDS, out);
            put_kind_hint(alloc, first.bytes, out);
            at
        }
    }
}

/// Appends what is wrong with the form of a line, and what the whole text looks like if its first line is no line.
/// Returns the place in the line.
fn put_syntax(alloc: Global, faulty: &Faulty<'_>, out: &mut Said) -> usize {
    let at = put_form(alloc, faulty, out);
    if faulty.line.number == 1 || faulty.text.starts_with(&MARK) {
        put_text_hint(faulty.text, Kind::Diagram, out);
    }
    at
}

/// Returns the place of the first unknown name in a line: no earlier line has it, though one has to.
fn unknown_place(faulty: &Faulty<'_>, form: &Form, known: &[&[u8]]) -> Option<usize> {
    for (place, part) in form.parts.iter().enumerate() {
        let place = place.saturating_add(1);
        let word = faulty.word(place).bytes;
        let is_named = known.iter().any(|name| *name == word);
        if matches!(part, Part::Parent | Part::First | Part::Second) && !is_named {
            return Some(place);
        }
    }
    None
}

/// Appends a hint about a name that no earlier line has: a later line has it, or an earlier one has a similar name.
fn put_unknown_hint(
    alloc: Global,
    declared: &[Declared<'_>],
    known: &[&[u8]],
    word: &[u8],
    out: &mut Said,
) {
    if let Some(it) = find(declared, word) {
        let hint = b"a feature is named before it is used; it is named on line ";
        put_hint_line(hint, it.line, out);
        return;
    }
    let otherwise = b"each feature is first named as the root or as a child";
    put_meant(nearest_of(alloc, known, word), otherwise, out)
}

/// Appends that no earlier line names anything. Returns the place in the line.
fn put_no_names(faulty: &Faulty<'_>, out: &mut Said) -> usize {
    let at = faulty.put_found(0, b"`root` and the name of the root", out);
    put_hint(b"the first line names the root", out);
    at
}

/// Appends which name of a line no earlier line has. Returns its place in the line.
fn put_unknown(
    alloc: Global,
    faulty: &Faulty<'_>,
    declared: &[Declared<'_>],
    out: &mut Said,
) -> Result<usize, AllocError> {
    let known = names_before(alloc, declared, faulty.line.number)?;
    if known.is_empty() {
        return Ok(put_no_names(faulty, out));
    }
    let form = form_of(&LINES, faulty.word(0).bytes);
    let Some(place) = form.and_then(|form| unknown_place(faulty, &form, &known)) else {
        return Ok(faulty.put_found(0, b"features that earlier lines name", out));
    };
    let at = faulty.put_found(place, b"a feature that an earlier line names", out);
    put_unknown_hint(alloc, declared, &known, faulty.word(place).bytes, out);
    Ok(at)
}

/// Returns the first child of a line that has been a child before, and that earlier line.
fn second_parent<'t>(declared: &[Declared<'t>], line: usize) -> Option<(Declared<'t>, usize)> {
    for it in declared {
        if it.line == line {
            if let Some(earlier) = find(declared, it.name) {
                if earlier.at < it.at {
                    return Some((*it, earlier.line));
                }
            }
        }
    }
    None
}

/// Appends which child of a line has a parent. Returns its place in the line.
fn put_two_parents(faulty: &Faulty<'_>, declared: &[Declared<'_>], out: &mut Said) -> usize {
    let Some((it, earlier)) = second_parent(declared, faulty.line.number) else {
        return faulty.put_found(0, b"children without a parent", out);
    };
    put_found(it.name, b"the line", b"a feature without a parent", out);
    put_hint_line(b"it is named already on line ", earlier, out);
    put_hint(
        b"a feature has one parent; `requires` and `excludes` say more of it",
        out,
    );
    it.at.saturating_sub(faulty.line.from)
}

/// Appends that there is a second root. Returns its place in the line.
fn put_two_roots(faulty: &Faulty<'_>, declared: &[Declared<'_>], out: &mut Said) -> usize {
    let at = faulty.put_found(0, b"no second `root`", out);
    if let Some(root) = declared.first() {
        put_hint_line(b"the root is named on line ", root.line, out);
    }
    at
}

/// Appends what is wrong with the names of a line. Returns its place in the line.
fn put_names(
    alloc: Global,
    faulty: &Faulty<'_>,
    fault: DiagramFault,
    out: &mut Said,
) -> Result<usize, AllocError> {
    let declared = declared_of(alloc, faulty.text)?;
    match fault {
        DiagramFault::TwoRoots { .. } => Ok(put_two_roots(faulty, &declared, out)),
        DiagramFault::TwoParents { .. } => Ok(put_two_parents(faulty, &declared, out)),
        _ => put_unknown(alloc, faulty, &declared, out),
    }
}

/// Appends what there is too much of. Returns its place in the line.
fn put_too_many(faulty: &Faulty<'_>, out: &mut Said) -> usize {
    let word = faulty.word(0).bytes;
    if word == b"requires".as_slice() || word == b"excludes".as_slice() {
        return faulty.put_found(0, b"at most 16,384 lines of `requires` and `excludes`", out);
    }
    if word == b"rule".as_slice() {
        return faulty.put_found(
            0,
            b"at most 16,384 rules, each clause of a formula as one",
            out,
        );
    }
    faulty.put_found(0, b"at most 512 features", out)
}

/// Returns the digits of a number without leading zeros.
fn significant(digits: &[u8]) -> &[u8] {
    let zeros = digits.iter().take_while(|b| **b == b'0').count();
    digits.get(zeros..).unwrap_or(digits)
}

/// Whether a number, in digits, is less than another.
pub(crate) fn is_less(a: &[u8], b: &[u8]) -> bool {
    let (a, b) = (significant(a), significant(b));
    if a.len() != b.len() {
        return a.len() < b.len();
    }
    for (x, y) in a.iter().zip(b) {
        if x != y {
            return x < y;
        }
    }
    false
}

/// Appends what is wrong with the range of a group. Returns its place in the line.
fn put_bad_range(faulty: &Faulty<'_>, out: &mut Said) -> usize {
    let (low, high) = (faulty.word(2), faulty.word(3));
    if is_less(high.bytes, low.bytes) {
        return faulty.put_found(2, b"a number that is not above the next", out);
    }
    faulty.put_found(3, b"at most the number of children of this line", out)
}

/// Appends that a text is blank. Returns the place in the line.
fn put_no_root(faulty: &Faulty<'_>, out: &mut Said) -> usize {
    let at = faulty.put_found(0, b"`root` and the name of the root", out);
    put_hint(b"the text is blank", out);
    at
}

/// Appends what is wrong with a line. Returns its place in the line.
fn put_fault(
    alloc: Global,
    faulty: &Faulty<'_>,
    fault: DiagramFault,
    out: &mut Said,
) -> Result<usize, AllocError> {
    Ok(match fault {
        DiagramFault::Syntax { .. } => put_syntax(alloc, faulty, out),
        DiagramFault::TwoRoots { .. }
        | DiagramFault::UnknownFeature { .. }
        | DiagramFault::TwoParents { .. } => put_names(alloc, faulty, fault, out)?,
        DiagramFault::TooManyClauses { .. } => {
            faulty.put_found(0, b"a formula of at most 64 clauses", out)
        }
        DiagramFault::TooMany { .. } => put_too_many(faulty, out),
        DiagramFault::BadRange { .. } => put_bad_range(faulty, out),
        DiagramFault::NoRoot => put_no_root(faulty, out),
        DiagramFault::Memory => out.put_memory(),
    })
}

/// Returns the number of the line that has a fault.
fn line_of_fault(fault: DiagramFault) -> usize
    ensures { result ≡ line_of_fault fault }
{
    match fault {
        DiagramFault::Syntax { line } => line,
        DiagramFault::TwoRoots { line } => line,
        DiagramFault::UnknownFeature { line } => line,
        DiagramFault::TwoParents { line } => line,
        DiagramFault::TooManyClauses { line } => line,
        DiagramFault::TooMany { line } => line,
        DiagramFault::BadRange { line } => line,
        DiagramFault::NoRoot | DiagramFault::Memory => 1,
    }
}

/// Returns the message on the fault with which `Diagram::read` refused a text. Its place is the line that the reader
/// names, at the word that is wrong.
pub fn explain_diagram(
    alloc: Global,
    text: &[u8],
    fault: DiagramFault,
) -> Result<Message, AllocError>
    ensures line { IfOk result (λ message. message.place.line ≡ line_of_fault fault) }
    ensures column { IfOk result (λ message.
        IsColumnOf (line_text text.now (line_of_fault fault)) message.place.column) }
{
    let line = line_at(text, line_of_fault(fault));
    let words = words_of(alloc, line.bytes, b":")?;
    let mut said = Said::new(alloc);
    let faulty = Faulty { text, line, words };
    let at = put_fault(alloc, &faulty, fault, &mut said)?;
    said.into_message(line.place(at))
}
