//! Messages about faults of a game's text.
ghost use Rattle.std.specs.Prelude.{◌≡◌, ◌≤◌, length, min, IfOk, IfSome};
ghost use Rattle.vpg_places.specs.Places.{IsWithin};
ghost use Rattle.vpg_lint.specs.Messages.{offset_in_guard, offset_of, IsPlaceOf};

use crate::diagrams::NAME_RULE;
use crate::hints::{Kind, put_text_hint};
use crate::message::{Message, put_found, put_hint, put_hint_line, put_hint_with};
use crate::naming::nearest;
use crate::said::Said;
use std::alloc::{AllocError, Global};
use vpg_features::Names;
use vpg_game::GameFault;
use vpg_guards::GuardFault;
use vpg_places::{Last, Number, Scan, numbers_of, place_of};

/// Whether the byte can be in a word. Those above 127 spell letters of other alphabets.
fn is_word_byte(b: u8) -> bool {
    b.is_ascii_alphanumeric() || b == b'_' || b >= 128
}

/// Returns the length in bytes of the word at the front of a text, or one if there is none.
fn word_len(text: &[u8]) -> usize
    ensures { result ≤ length text.now }
{
    for (i, b) in text.iter().enumerate() {
        if !is_word_byte(*b) {
            return if i == 0 { 1 } else { i };
        }
    }
    text.len()
}

/// Returns the text after an offset.
pub(crate) fn behind(text: &[u8], at: usize) -> &[u8] {
    text.get(at..).unwrap_or(&[])
}

/// Returns the word, or the one byte, at an offset.
pub(crate) fn word_at(text: &[u8], at: usize) -> &[u8] {
    let rest = behind(text, at);
    &rest[..word_len(rest)]
}

/// Appends what was found at an offset, and what was expected.
pub(crate) fn put_found_at(text: &[u8], at: usize, expected: &[u8], out: &mut Said) {
    put_found(word_at(text, at), b"the text", expected, out)
}

/// Returns the number of the line with an offset.
pub(crate) fn line_of(text: &[u8], at: usize) -> usize {
    place_of(text, at.min(text.len())).line
}

/// Returns a hint on a byte that other formats use and this one does not.
fn hint_of_byte(found: &[u8]) -> Option<&'static [u8]> {
    match found {
        [b'#', ..] | [b'/', ..] | [b'%', ..] => {
            Some(b"a game has no comments; a remark is a name, between two `\"`")
        }
        [b'-', b'>', ..] => Some(b"successors stand behind the owner, joined by `,`"),
        [b'-', ..] | [b'+', ..] => Some(b"numbers have no signs"),
        [b'.', ..] => Some(b"numbers are digits alone"),
        [b'\'', ..] => Some(b"a name stands between two `\"`"),
        [b'(', ..] | [b'{', ..] => Some(b"a guard stands between `[` and `]`"),
        _ => None,
    }
}

/// Returns a hint on a byte in an entry with this many numbers.
fn hint_in_entry(numbers: usize, last: Last, found: &[u8]) -> Option<&'static [u8]> {
    let form: &'static [u8] = b"an entry is IDENTIFIER PRIORITY OWNER SUCCESSORS \"NAME\";";
    match (found.first().copied(), last) {
        (Some(b'"'), Last::Name) => Some(b"an entry has one name"),
        (Some(b',' | b';'), Last::Comma) => Some(b"is there a `,` too many?"),
        (Some(b'['), _) if numbers < 4 => {
            Some(b"a guard stands behind a successor; is a number missing before it?")
        }
        (Some(b','), _) if numbers == 3 => Some(b"no `,` stands behind the owner"),
        (Some(b), Last::Number | Last::Guard | Last::Name) if numbers >= 3 && b.is_ascii_digit() =>
            { Some(b"is a `,`, or the `;` of the entry, missing before it?") }
        (Some(b'a'..=b'z' | b'A'..=b'Z'), Last::Guard | Last::Name) => {
            Some(b"is the `;` of the entry missing before it?")
        }
        (Some(b';' | b',' | b'"'), _) if numbers == 1 || numbers == 2 => Some(form),
        (Some(b'a'..=b'z' | b'A'..=b'Z'), _) if numbers > 0 => Some(form),
        _ => None,
    }
}

/// Appends a hint on what is at an offset.
fn put_syntax_hint(text: &[u8], at: usize, scan: &Scan, out: &mut Said) {
    let found = behind(text, at);
    let byte = hint_of_byte(found);
    let entry = match scan.in_entry() {
        Some((numbers, last)) => hint_in_entry(numbers, last, found),
        None => None,
    };
    match byte.or(entry) {
        Some(hint) => put_hint(hint, out),
        None => {}
    }
}

/// Appends what stands at an offset where it cannot.
fn put_syntax(text: &[u8], at: usize, out: &mut Said) {
    let scan = Scan::of(text, at);
    put_found_at(text, at, scan.expected(), out);
    if let Some(opened) = scan.open_at() {
        put_hint_line(b"it was opened on line ", line_of(text, opened), out);
    }
    put_syntax_hint(text, at, &scan, out);
    if at < 8 {
        put_text_hint(text, Kind::Game, out);
    }
}

/// Appends the name that a word was perhaps meant to be.
fn put_nearest(alloc: Global, names: &Names, word: &[u8], out: &mut Said) {
    let Ok(word) = str::from_utf8(word) else {
        return;
    };
    match nearest(alloc, names, word) {
        Ok(Some(f)) => put_hint_with(b"is ", names.name(f).as_bytes(), b" meant?", out),
        Ok(None) => {}
        Err(_) => out.refuse(),
    }
}

/// Returns a hint on a byte that cannot stand in a guard.
fn hint_in_guard(found: &[u8]) -> Option<&'static [u8]> {
    match found {
        [b'&', ..] => Some(b"one `&` joins two parts"),
        [b'|', ..] => Some(b"one `|` joins two parts"),
        [b']', ..] => Some(b"the guard ends too early: is a name or a `)` missing?"),
        [b'~', ..] | [b'-', ..] => Some(b"`!` stands for not; names have letters, digits and `_`"),
        [b'=', ..] | [b'<', ..] | [b'>', ..] => Some(b"a guard has names, `!`, `&` and `|` alone"),
        [b'0'..=b'9', ..] => Some(NAME_RULE),
        [b'a'..=b'z' | b'A'..=b'Z' | b'_' | b'(' | b'!', ..] => {
            Some(b"is `&` or `|` missing before it?")
        }
        [b')', ..] => Some(b"is there a `)` too many, or a name missing before it?"),
        [b',', ..] | [b';', ..] => Some(b"`&` and `|` join parts; is a `]` missing before it?"),
        _ => None,
    }
}

/// Returns a hint on a word that other formats use for a sign of guards.
fn hint_of_sign(word: &[u8]) -> Option<&'static [u8]> {
    if word.eq_ignore_ascii_case(b"and") {
        Some(b"`&` stands for and")
    } else if word.eq_ignore_ascii_case(b"or") {
        Some(b"`|` stands for or")
    } else if word.eq_ignore_ascii_case(b"not") {
        Some(b"`!` stands for not")
    } else if word.eq_ignore_ascii_case(b"true") || word.eq_ignore_ascii_case(b"false") {
        Some(b"`true` and `false` have small letters")
    } else if word.len() > 64 {
        Some(NAME_RULE)
    } else {
        None
    }
}

/// Says that a word is the name of no feature, and which name was perhaps meant.
fn say_unknown(alloc: Global, names: &Names, word: &[u8], out: &mut Said) {
    put_found(
        word,
        b"the word",
        b"the name of a feature of the diagram",
        out,
    );
    match hint_of_sign(word) {
        Some(hint) => put_hint(hint, out),
        None => put_nearest(alloc, names, word, out),
    }
}

/// Appends that a word is the name of no feature, and which name was perhaps meant.
pub fn put_unknown(
    alloc: Global,
    names: &Names,
    word: &[u8],
    out: &mut Vec<u8>,
) -> Result<(), AllocError> {
    let mut said = Said::new(alloc);
    say_unknown(alloc, names, word, &mut said);
    let text = said.into_text()?;
    out.extend_from_slice(&text)
}

/// Appends what stands in a guard where it cannot.
fn put_guard_syntax(text: &[u8], at: usize, out: &mut Said) {
    let expected = b"a guard of names, `true`, `false`, `!`, `&`, `|`, `(` and `)`";
    put_found_at(text, at, expected, out);
    match hint_in_guard(behind(text, at)) {
        Some(hint) => put_hint(hint, out),
        None => {}
    }
}

/// Appends the meaning of a guard's fault at an offset of the text.
pub(crate) fn put_guard_fault(
    alloc: Global,
    text: &[u8],
    at: usize,
    names: &Names,
    fault: GuardFault,
    out: &mut Said,
) {
    match fault {
        GuardFault::Syntax { .. } => put_guard_syntax(text, at, out),
        GuardFault::UnknownFeature { .. } => say_unknown(alloc, names, word_at(text, at), out),
        GuardFault::TooDeep { .. } => put_found_at(text, at, b"at most 64 open `(` and `!`", out),
        GuardFault::Memory => {}
    }
}

/// Returns the first number after another that names a vertex so.
fn find(numbers: &[Number], id: u32, successors: bool, from: usize) -> Option<Number> {
    for number in numbers {
        let is_wanted = if successors {
            number.place > 3
        } else {
            number.place == 1
        };
        if is_wanted && number.value == id as u64 && number.at >= from {
            return Some(*number);
        }
    }
    None
}

/// Returns the offset at which the first entry with an identifier begins, after an offset.
fn entry_at(numbers: &[Number], id: u32, from: usize) -> usize {
    find(numbers, id, false, from).map_or(0, |number| number.at)
}

/// Appends that two entries have one identifier. Returns where the second begins.
fn put_double(alloc: Global, text: &[u8], id: u32, out: &mut Said) -> Result<usize, AllocError> {
    let numbers = numbers_of(alloc, text, true)?;
    let first = entry_at(&numbers, id, 0);
    let second = entry_at(&numbers, id, first.saturating_add(1));
    put_found_at(text, second, b"an identifier that no entry before has", out);
    put_hint_line(
        b"the other entry stands on line ",
        line_of(text, first),
        out,
    );
    Ok(second)
}

/// Appends that a successor has no entry. Returns where the successor is.
fn put_missing(alloc: Global, text: &[u8], id: u32, out: &mut Said) -> Result<usize, AllocError> {
    let numbers = numbers_of(alloc, text, false)?;
    let at = find(&numbers, id, true, 0).map_or(0, |number| number.at);
    put_found_at(text, at, b"a successor that has an entry", out);
    put_hint(b"no entry begins with this identifier", out);
    Ok(at)
}

/// Appends that the measures of a game are too many.
fn put_too_wide(out: &mut Said) {
    out.put(b"the top measure of this game, or of its dual, is above 2^62\n");
    put_hint(
        b"it is the product, over the odd (even) priorities, of one plus their vertices; use fewer priorities",
        out,
    )
}

/// Returns where in the guard its fault is.
pub(crate) fn offset_in_guard(fault: GuardFault) -> usize
    ensures { result ≡ offset_in_guard fault }
{
    match fault {
        GuardFault::Syntax { at } => at,
        GuardFault::UnknownFeature { at } => at,
        GuardFault::TooDeep { at } => at,
        GuardFault::Memory => 0,
    }
}

/// Returns where the reader says that a fault is, or the greatest offset if it is greater.
fn offset_of(fault: GameFault) -> usize
    ensures { IfSome (offset_of fault) (λ at. result ≡ min at usize.MAX) }
{
    match fault {
        GameFault::Syntax { at } => at,
        GameFault::BadOwner { at } => at,
        GameFault::PriorityTooLarge { at } => at,
        GameFault::TooMany { at } => at,
        GameFault::Guard { at, fault } => at.saturating_add(offset_in_guard(fault)),
        GameFault::DoubleVertex { .. } | GameFault::MissingVertex { .. } => 0,
        GameFault::TooWide | GameFault::Memory => 0,
    }
}

/// Appends the meaning of a fault at an offset.
fn put_placed(
    alloc: Global,
    text: &[u8],
    at: usize,
    names: &Names,
    fault: GameFault,
    out: &mut Said,
) {
    match fault {
        GameFault::Syntax { .. } => put_syntax(text, at, out),
        GameFault::BadOwner { .. } => {
            put_found_at(text, at, b"the owner, 0 for Even or 1 for Odd", out);
            put_hint(b"is the priority missing before it?", out)
        }
        GameFault::PriorityTooLarge { .. } => {
            put_found_at(text, at, b"a priority up to 65,535", out)
        }
        GameFault::TooMany { .. } => {
            let expected = b"at most 65,536 entries and 1,048,576 successors";
            put_found_at(text, at, expected, out)
        }
        GameFault::Guard { fault, .. } => put_guard_fault(alloc, text, at, names, fault, out),
        GameFault::TooWide => put_too_wide(out),
        _ => out.put(b"memory ran out\n"),
    }
}

/// Appends the meaning of a fault. Returns where it is.
fn put_fault(
    alloc: Global,
    text: &[u8],
    names: &Names,
    fault: GameFault,
    out: &mut Said,
) -> Result<usize, AllocError>
    ensures { IfOk result (λ at. IfSome (offset_of fault) (λ offset. at ≡ min offset usize.MAX)) }
{
    match fault {
        GameFault::DoubleVertex { id } => Ok(put_double(alloc, text, id, out)?),
        GameFault::MissingVertex { id } => Ok(put_missing(alloc, text, id, out)?),
        _ => {
            let at = offset_of(fault);
            put_placed(alloc, text, at, names, fault, out);
            Ok(at)
        }
    }
}

/// Returns the message on the fault with which `GuardedGame::read` refused a text, over features of these names. Its
/// place is the one that the reader gives, in the middle of a guard too. A missing or double vertex has the place where
/// it is named, and a fault without a place the front of the text.
pub fn explain_game(
    alloc: Global,
    text: &[u8],
    names: &Names,
    fault: GameFault,
) -> Result<Message, AllocError>
    ensures place { IfOk result (λ message. IfSome (offset_of fault) (λ at. IsPlaceOf text.now at message.place)) }
    ensures within { IfOk result (λ message. IsWithin text.now message.place.line message.place.column) }
{
    let mut said = Said::new(alloc);
    let at = put_fault(alloc, text, names, fault, &mut said)?;
    let place = place_of(text, at.min(text.len()));
    said.into_message(place)
}
