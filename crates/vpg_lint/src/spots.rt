//! The place in a formula where its words break off: among the actions between `<` and `>`, or `[` and `]`; in the
//! action after `can`, `will` or `after`; or outside both.
use crate::tokens::{is_one_of, word};
use vpg_places::Word;

/// The end of words that stand before a fault.
#[derive(Clone, Copy)]
pub(crate) enum Spot {
    /// No actions are open.
    Formula,
    /// The action of an `after` is complete.
    After,
    /// An action has to come.
    Operand,
    /// An action is complete, and only actions may stand here.
    Action,
    /// An action is complete.
    Path,
    /// Actions in their order, or repeated, are complete.
    Series,
    /// A `+`, perhaps with an action to come.
    Plus,
}

/// Returns the byte of the word at a place, or a blank if the word has several or there is none.
fn sign(words: &[Word<'_>], place: usize) -> u8 {
    match word(words, place) {
        [b] => *b,
        _ => b' ',
    }
}

/// Whether the word at a place begins where the one before ends.
fn is_joined(words: &[Word<'_>], place: usize) -> bool {
    match (words.get(place.saturating_sub(1)), words.get(place)) {
        (Some(before), Some(word)) => before.at.saturating_add(before.bytes.len()) == word.at,
        _ => false,
    }
}

/// Whether the word at a place closes what another one opened. A `>` after `=` does not.
fn closes(words: &[Word<'_>], place: usize) -> bool {
    match sign(words, place) {
        b')' | b']' => true,
        b'>' => sign(words, place.saturating_sub(1)) != b'=' || !is_joined(words, place),
        _ => false,
    }
}

/// Whether the word at a place opens what another one closes.
fn opens(words: &[Word<'_>], place: usize) -> bool {
    matches!(sign(words, place), b'(' | b'[' | b'<')
}

/// Returns the place of the last word before an end that opens what is not closed there.
fn opening(words: &[Word<'_>], end: usize) -> Option<usize> {
    let mut closed = 0usize;
    for place in (0..end).rev() {
        if closes(words, place) {
            closed = closed.saturating_add(1);
        } else if opens(words, place) {
            if closed == 0 {
                return Some(place);
            }
            closed = closed.saturating_sub(1);
        }
    }
    None
}

/// Returns the place of the first of the `!` that stand directly before a place.
fn front(words: &[Word<'_>], end: usize) -> usize {
    for place in (0..end).rev() {
        if sign(words, place) != b'!' {
            return place.saturating_add(1);
        }
    }
    0
}

/// Whether the word before a place, or before the `!` there, is one of these.
fn is_behind(words: &[Word<'_>], place: usize, others: &[&str]) -> bool {
    match front(words, place).checked_sub(1) {
        Some(before) => is_one_of(word(words, before), others),
        None => false,
    }
}

/// The words that an action comes after.
const TAKES: [&str; 3] = ["can", "will", "after"];

/// Whether only actions may stand after the word before a place.
fn is_of_actions(words: &[Word<'_>], place: usize) -> bool {
    matches!(sign(words, place.saturating_sub(1)), b'!' | b'&' | b'|')
}

/// Whether the words end in a path, or in an action: and if so, whether only actions may stand there.
fn actions(words: &[Word<'_>]) -> Option<bool> {
    let mut closed = 0usize;
    let mut only = false;
    for place in (0..words.len()).rev() {
        if closes(words, place) {
            closed = closed.saturating_add(1);
        } else if closed > 0 && opens(words, place) {
            closed = closed.saturating_sub(1);
        } else if opens(words, place) {
            if sign(words, place) != b'(' || is_behind(words, place, &TAKES) {
                return Some(only || sign(words, place) == b'(');
            }
            only = only || is_of_actions(words, place);
        }
    }
    None
}

/// Returns the place where the action begins that the words end with.
fn action_begin(words: &[Word<'_>]) -> usize {
    let last = words.len().saturating_sub(1);
    let place = match sign(words, last) {
        b')' => opening(words, last).unwrap_or(0),
        _ => last,
    };
    if sign(words, place) == b'(' && has_arguments(words, place) {
        place.saturating_sub(1)
    } else {
        place
    }
}

/// Whether the `(` at a place begins the arguments of the action before it.
fn has_arguments(words: &[Word<'_>], place: usize) -> bool {
    match word(words, place.saturating_sub(1)) {
        [b, ..] => (b.is_ascii_alphanumeric() || *b == b'_') && is_joined(words, place),
        [] => false,
    }
}

/// Whether actions between the parentheses that close at the end stand in an order, or are repeated.
fn is_series(words: &[Word<'_>], begin: usize) -> bool {
    let mut arguments = 0usize;
    for place in begin..words.len() {
        match sign(words, place) {
            b'(' if arguments > 0 || has_arguments(words, place) => {
                arguments = arguments.saturating_add(1);
            }
            b')' if arguments > 0 => arguments = arguments.saturating_sub(1),
            b'.' | b'+' | b'*' if arguments == 0 => return true,
            _ => {}
        }
    }
    false
}

/// Returns the end of words in which no actions are open.
fn formula_spot(words: &[Word<'_>]) -> Spot {
    if is_behind(words, words.len(), &TAKES) {
        return Spot::Operand;
    }
    if is_behind(words, action_begin(words), &["after"]) {
        return Spot::After;
    }
    Spot::Formula
}

/// Returns the end of words in a path, or in an action.
fn action_spot(words: &[Word<'_>], only: bool) -> Spot {
    let last = words.len().saturating_sub(1);
    match sign(words, last) {
        b'[' | b'<' | b'(' | b'!' | b'.' | b'&' | b'|' => Spot::Operand,
        b'+' => Spot::Plus,
        _ if only => Spot::Action,
        b'*' => Spot::Series,
        b')' if is_series(words, action_begin(words)) => Spot::Series,
        _ => Spot::Path,
    }
}

/// Returns the end of words that stand before a fault.
pub(crate) fn spot_of(words: &[Word<'_>]) -> Spot {
    match actions(words) {
        Some(only) => action_spot(words, only),
        None => formula_spot(words),
    }
}
