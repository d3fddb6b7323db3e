//! Messages about faults of a text of requirements.
ghost use Rattle.std.specs.Prelude.{◌≡◌, IfOk, IfSome};
ghost use Rattle.vpg_places.specs.Places.{IsWithin};
ghost use Rattle.vpg_lint.specs.Messages.{offset_in_requirements, IsPlaceOf};

use crate::diagrams::NAME_RULE;
use crate::games::{behind, line_of, put_found_at, word_at};
use crate::hints::{Kind, put_text_hint};
use crate::message::{Message, put_found, put_hint, put_hint_line, put_meant};
use crate::naming::nearest_of;
use crate::said::Said;
use crate::spots::{Spot, spot_of};
use crate::tokens::{is_one_of, tokens_of, word};
use std::alloc::{AllocError, Global};
use vpg_formula::RequirementFault;
use vpg_places::{Word, place_of};

/// How an entry is written.
const ENTRY: &[u8] = b"an entry is written `NAME = FORMULA;`";

/// Returns the word this many places before the last.
fn last<'t>(words: &[Word<'t>], before: usize) -> &'t [u8] {
    match words.len().checked_sub(before.saturating_add(1)) {
        Some(place) => word(words, place),
        None => b"",
    }
}

/// Whether a word ends a formula if it comes after another.
fn ends_formula(before: &[u8], word: &[u8]) -> bool {
    match word {
        [b')' | b'"', ..] => true,
        _ if is_one_of(before, &["after", "mu", "nu"]) => false,
        _
            if is_one_of(
                word,
                &[
                    "again",
                    "and",
                    "always",
                    "never",
                    "possibly",
                    "inevitably",
                    "deadlock",
                    "mu",
                    "nu",
                ],
            ) => { false }
        [b, ..] => b.is_ascii_alphanumeric() || *b == b'_',
        [] => false,
    }
}

/// Returns what is expected after the last word where no actions are open, if it comes after another.
fn expected_behind(before: &[u8], word: &[u8]) -> &'static [u8] {
    if word.is_empty() {
        return b"a formula, or entries `NAME = FORMULA;`";
    }
    if is_one_of(before, &["mu", "nu"]) {
        return b"`.` and a formula";
    }
    match word {
        b";" => b"the name of an entry, or the end of the text",
        b"mu" | b"nu" => b"the name of a variable",
        b"deadlock" => b"`free`",
        b"again" if before != b"and".as_slice() => b"`and again`",
        b"and" => b"`again`",
        _ if ends_formula(before, word) => b"`&&`, `||`, `=>`, or the end of the formula",
        _ => b"a formula",
    }
}

/// Returns what is expected after words.
fn expected(words: &[Word<'_>]) -> &'static [u8] {
    match spot_of(words) {
        Spot::Formula => expected_behind(last(words, 1), last(words, 0)),
        Spot::After => b"a formula",
        Spot::Operand => b"an action, `true`, `false`, `!` or `(`",
        Spot::Action => b"`&&`, `||` or `)`",
        Spot::Path => b"`.`, `+`, `*`, `&&`, `||`, or what closes it",
        Spot::Series => b"`.`, `+`, `*`, or what closes it",
        Spot::Plus => b"an action, `!`, `(`, `.`, `+`, `*`, or what closes it",
    }
}

/// Returns a hint on a sign that cannot stand where the words before it end.
fn hint_of_spot(spot: Spot, found: &[u8]) -> Option<&'static [u8]> {
    match (spot, found) {
        (Spot::Action, [b'.' | b'+' | b'*', ..]) => {
            Some(
                b"`!`, `&&`, `||`, `can`, `will` and `after` take action formulas, without `.`, `+` and `*`",
            )
        }
        (Spot::Series | Spot::Plus, [b'&', b'&', ..] | [b'|', b'|', ..]) => {
            Some(b"`&&` and `||` join action formulas; `+` joins regular formulas")
        }
        _ => None,
    }
}

/// Returns a hint on a sign that other formats use and this one does not.
fn hint_of_sign(found: &[u8]) -> Option<&'static [u8]> {
    match found {
        [b'&', b'&', ..] | [b'|', b'|', ..] => None,
        [b'#', ..] | [b'/', ..] => Some(b"a comment begins with `%`"),
        [b'&', ..] => Some(b"`&&` stands for and"),
        [b'|', ..] => Some(b"`||` stands for or"),
        [b'~', ..] | [b'-', ..] => Some(b"`!` stands for not"),
        [b':', ..] | [b'=', ..] => Some(ENTRY),
        [b'"', ..] => Some(b"a name in quotes is an action, and ends on its line"),
        [b'0'..=b'9', ..] => Some(NAME_RULE),
        [b'(', ..] => Some(b"arguments stand at once behind the name of an action"),
        _ => None,
    }
}

/// Returns a hint on a word that other languages use and this one does not.
fn hint_of_word(word: &[u8]) -> Option<&'static [u8]> {
    if is_one_of(word, &["and", "AND", "or", "OR", "not", "NOT", "implies"]) {
        Some(b"`&&`, `||`, `!` and `=>` stand for and, or, not and implies")
    } else if is_one_of(word, &["forall", "exists", "val", "delay", "yaled"]) {
        Some(b"formulas have no data: neither quantifiers nor `val`, nor times")
    } else if is_one_of(word, &["AG", "AF", "EF", "EG", "AX", "EX"]) {
        Some(
            b"`always`, `never`, `possibly` and `inevitably` say so; `[true]` and `<true>` are next",
        )
    } else if word.len() > 64 {
        Some(NAME_RULE)
    } else {
        None
    }
}

/// Returns a hint on a word that cannot come after a formula.
fn hint_of_two(words: &[Word<'_>], found: &[u8]) -> Option<&'static [u8]> {
    let begins = found
        .first()
        .is_some_and(|b| b.is_ascii_alphabetic() || *b == b'_');
    let is_formula = matches!(spot_of(words), Spot::Formula);
    if begins && is_formula && ends_formula(last(words, 1), last(words, 0)) {
        Some(b"is `&&`, `||`, or the `;` of an entry missing before it?")
    } else {
        None
    }
}

/// Appends a hint on what comes after words at an offset.
fn put_syntax_hint(text: &[u8], at: usize, words: &[Word<'_>], out: &mut Said) {
    let found = behind(text, at);
    let hint = hint_of_word(word_at(text, at))
        .or(hint_of_spot(spot_of(words), found))
        .or(hint_of_sign(found))
        .or(hint_of_two(words, found));
    if let Some(hint) = hint {
        put_hint(hint, out);
    }
    if at < 8 {
        put_text_hint(text, Kind::Requirements, out);
    }
}

/// Returns the words before an offset.
fn words_before<'a, 't>(words: &'a [Word<'t>], at: usize) -> &'a [Word<'t>] {
    let count = words.iter().take_while(|word| word.at < at).count();
    words.get(..count).unwrap_or(words)
}

/// Returns the word, the sign, or the one byte, at an offset.
fn found_at(text: &[u8], at: usize) -> &[u8] {
    match behind(text, at) {
        [b'&', b'&', ..] => b"&&",
        [b'|', b'|', ..] => b"||",
        [b'=', b'>', ..] => b"=>",
        _ => word_at(text, at),
    }
}

/// Appends what stands at an offset where it cannot.
fn put_syntax(text: &[u8], at: usize, words: &[Word<'_>], out: &mut Said) {
    let before = words_before(words, at);
    put_found(found_at(text, at), b"the text", expected(before), out);
    put_syntax_hint(text, at, before, out)
}

/// Whether a `=` of a text is one by itself.
fn is_single(text: &[u8], word: &Word<'_>) -> bool {
    word.bytes == b"=".as_slice() && !behind(text, word.at).starts_with(b"=>")
}

/// Whether the word at a place names an entry.
fn names_entry(text: &[u8], words: &[Word<'_>], place: usize) -> bool {
    let begins = place == 0 || word(words, place.saturating_sub(1)) == b";".as_slice();
    match words.get(place.saturating_add(1)) {
        Some(next) => begins && is_single(text, next),
        None => false,
    }
}

/// Whether the word at a place names the variable of a fixpoint.
fn names_variable(words: &[Word<'_>], place: usize) -> bool {
    place > 0 && is_one_of(word(words, place.saturating_sub(1)), &["mu", "nu"])
}

/// Returns the place of the first word that names an entry, or a variable, like this one.
fn declared(text: &[u8], words: &[Word<'_>], name: &[u8], entries: bool) -> Option<usize> {
    for (place, it) in words.iter().enumerate() {
        let declares = if entries {
            names_entry(text, words, place)
        } else {
            names_variable(words, place)
        };
        if declares && it.bytes == name {
            return Some(it.at);
        }
    }
    None
}

/// Returns the names of entries and of variables before an offset.
fn known_before<'t>(
    alloc: Global,
    text: &[u8],
    words: &[Word<'t>],
    at: usize,
) -> Result<Vec<&'t [u8]>, AllocError> {
    let mut known = Vec::new(alloc);
    for (place, it) in words.iter().enumerate() {
        let declares = names_entry(text, words, place) || names_variable(words, place);
        if declares && it.at < at {
            known.push(it.bytes)?;
        }
    }
    Ok(known)
}

/// The words that stand before a formula.
const WORDS: [&str; 11] = [
    "always",
    "never",
    "possibly",
    "inevitably",
    "again",
    "deadlock",
    "can",
    "will",
    "after",
    "true",
    "false",
];

/// Adds the words that stand before a formula.
fn add_words(known: &mut Vec<&[u8]>) -> Result<(), AllocError> {
    for word in WORDS {
        known.push(word.as_bytes())?;
    }
    Ok(())
}

/// Returns the name, or the word, that was perhaps meant.
fn nearest_before<'t>(
    alloc: Global,
    text: &[u8],
    words: &[Word<'t>],
    at: usize,
    name: &[u8],
) -> Result<Option<&'t [u8]>, AllocError> {
    let mut known = known_before(alloc, text, words, at)?;
    add_words(&mut known)?;
    nearest_of(alloc, &known, name)
}

/// Appends that a name names nothing.
fn put_unknown(alloc: Global, text: &[u8], at: usize, words: &[Word<'_>], out: &mut Said) {
    let name = word_at(text, at);
    put_found_at(
        text,
        at,
        b"a variable that is bound there, or the name of an entry before",
        out,
    );
    if let Some(hint) = hint_of_word(name) {
        return put_hint(hint, out);
    }
    if let Some(at) = declared(text, words, name, true) {
        let hint = b"an entry is named before it is used; it is named on line ";
        return put_hint_line(hint, line_of(text, at), out);
    }
    if let Some(at) = declared(text, words, name, false) {
        return put_hint_line(b"it is bound elsewhere, on line ", line_of(text, at), out);
    }
    let otherwise =
        b"an action stands behind `can`, `will` or `after`, or between `<` and `>` or `[` and `]`";
    let nearest = nearest_before(alloc, text, words, at, name);
    put_meant(nearest, otherwise, out)
}

/// Appends that two entries have one name.
fn put_twice(text: &[u8], at: usize, words: &[Word<'_>], out: &mut Said) {
    put_found_at(text, at, b"a name that no entry before has", out);
    if let Some(first) = declared(text, words, word_at(text, at), true) {
        put_hint_line(
            b"the other entry stands on line ",
            line_of(text, first),
            out,
        );
    }
}

/// Appends that a variable is negated.
fn put_negated(text: &[u8], at: usize, out: &mut Said) {
    put_found_at(
        text,
        at,
        b"a variable under an even number of negations within its fixpoint",
        out,
    );
    put_hint(b"`!`, `never` and the left side of `=>` negate", out)
}

/// Appends the meaning of a fault at an offset of a text of these words.
fn put_placed(
    alloc: Global,
    text: &[u8],
    at: usize,
    words: &[Word<'_>],
    fault: RequirementFault,
    out: &mut Said,
) {
    match fault {
        RequirementFault::Syntax { .. } => put_syntax(text, at, words, out),
        RequirementFault::UnknownVariable { .. } => put_unknown(alloc, text, at, words, out),
        RequirementFault::TooDeep { .. } => {
            put_found(
                found_at(text, at),
                b"the text",
                b"at most 64 parts that are open at one place",
                out,
            )
        }
        RequirementFault::Twice { .. } => put_twice(text, at, words, out),
        RequirementFault::TooMany { .. } => put_found_at(text, at, b"at most 64 entries", out),
        RequirementFault::NegatedVariable { .. } => put_negated(text, at, out),
        RequirementFault::Memory => out.put(b"memory ran out\n"),
    }
}

/// Returns where the reader says that a fault is, or the front if it says nothing.
fn offset_of(fault: RequirementFault) -> usize
    ensures { IfSome (offset_in_requirements fault) (λ at. result ≡ at) }
{
    match fault {
        RequirementFault::Syntax { at } => at,
        RequirementFault::UnknownVariable { at } => at,
        RequirementFault::TooDeep { at } => at,
        RequirementFault::Twice { at } => at,
        RequirementFault::TooMany { at } => at,
        RequirementFault::NegatedVariable { at } => at,
        RequirementFault::Memory => 0,
    }
}

/// Returns the message on the fault with which `Requirements::read` refused a text. Its place is the one that the
/// reader gives.
pub fn explain_requirements(
    alloc: Global,
    text: &[u8],
    fault: RequirementFault,
) -> Result<Message, AllocError>
    ensures place { IfOk result (λ message.
        IfSome (offset_in_requirements fault) (λ at. IsPlaceOf text.now at message.place)) }
    ensures within { IfOk result (λ message. IsWithin text.now message.place.line message.place.column) }
{
    let words = tokens_of(alloc, text)?;
    let mut said = Said::new(alloc);
    let at = offset_of(fault);
    put_placed(alloc, text, at, &words, fault, &mut said);
    said.into_message(place_of(text, at.min(text.len())))
}

/// Returns the message that the entry of a name has too many parts. Its place is the entry's name.
pub fn explain_parts(alloc: Global, text: &[u8], name: &[u8]) -> Result<Message, AllocError>
    ensures { IfOk result (λ message. IsWithin text.now message.place.line message.place.column) }
{
    let words = tokens_of(alloc, text)?;
    let at = declared(text, &words, name, true).unwrap_or(0);
    let mut said = Said::new(alloc);
    said.put(b"`");
    said.put_shown(name);
    said.put(b"` has more than 65,536 parts\n");
    put_hint(
        b"the parts of an entry count anew wherever a later one names it",
        &mut said,
    );
    said.into_message(place_of(text, at.min(text.len())))
}
