//! Actions of requirements that no transition has, and actions that no requirement names.
ghost use Rattle.std.specs.Prelude.{◌≡◌, ◌||◌, Bool, not, map, bytes_eq, IfOk};
ghost use Rattle.std.specs.List.{list_any};
ghost use Rattle.vpg_formula.specs.Words as words;
ghost use Rattle.vpg_formula.specs.Regular as regular;
ghost use Rattle.vpg_formula.specs.ActionWords.{placed_words};
ghost use Rattle.vpg_meaning.specs.Labels as labels;
ghost use Rattle.vpg_warnings.specs.Actions.{action_label, label_names, names_none, is_general, is_mentioned};
ghost use Rattle.vpg_warnings.specs.Actions as spec;

use crate::numbers::numbers_of;
use std::alloc::{AllocError, Global};
use vpg_formula::{Label, PlacedWord, action_words, label};
use vpg_system::System;

/// Whether two texts are the same.
fn is_same(a: &[u8], b: &[u8]) -> bool
    ensures { result ≡ bytes_eq a.now b.now }
{
    a == b
}

/// A space, a tab, a carriage return or a line feed.
fn is_blank(byte: u8) -> bool
    ensures { result ≡ words.is_blank byte }
{
    matches!(byte, b' ' | b'\t' | b'\r' | b'\n')
}

/// Returns a text without its blanks.
fn without_blanks(alloc: Global, text: &[u8]) -> Result<Vec<u8>, AllocError>
    ensures { IfOk result (λ v. v.items ≡ labels.without_blanks text.now) }
{
    text.iter()
        .copied()
        .filter(|b| !is_blank(*b))
        .collect(alloc)
}

/// Whether a label names the action of this name.
fn is_named(alloc: Global, label: &Label, name: &[u8]) -> Result<bool, AllocError>
    ensures { IfOk result (λ b. b ≡ labels.is_named label.now name.now) }
{
    if label.quoted {
        return Ok(is_same(label.name.as_bytes(), name));
    }
    let bare = without_blanks(alloc, label.name.as_bytes())?;
    let other = without_blanks(alloc, name)?;
    Ok(is_same(bare.as_slice(), other.as_slice()))
}

/// Returns the label that a word of an action formula spells.
fn action_label(alloc: Global, word: &[u8]) -> Result<Option<Label>, AllocError>
    ensures { IfOk result (λ found. found ≡ action_label word.now) }
{
    if is_same(word, b"true") || is_same(word, b"false") {
        return Ok(None);
    }
    label(alloc, word)
}

/// Whether a label names some action of a system.
fn names_some(alloc: Global, system: &System, label: &Label) -> Result<bool, AllocError>
    ensures { IfOk result (λ b. b ≡ list_any (labels.is_named label.now) system.now.actions) }
{
    for action in 0..system.actions() {
        if is_named(alloc, label, system.action_name(action))? {
            return Ok(true);
        }
    }
    Ok(false)
}

/// Whether a word of an action formula names an action that no transition has.
fn is_unknown(alloc: Global, system: &System, word: &[u8]) -> Result<bool, AllocError>
    ensures { IfOk result (λ b. b ≡ names_none system.now.actions (action_label word.now)) }
{
    match action_label(alloc, word)? {
        Some(label) => Ok(!names_some(alloc, system, &label)?),
        None => Ok(false),
    }
}

/// Returns the words of a text of requirements that name an action that no transition has, each with its place, in the
/// order of the text. Names are compared as for requirements: those in quotes byte for byte, and others without their
/// blanks.
pub fn unknown_actions<'t>(
    alloc: Global,
    system: &System,
    text: &'t [u8],
) -> Result<Vec<PlacedWord<'t>>, AllocError>
    ensures { IfOk result (λ found. placed_words found.items ≡
        spec.unknown_actions system.now.actions text.now) }
{
    let words = action_words(alloc, text)?;
    let mut found = Vec::new(alloc);
    for word in &words {
        if is_unknown(alloc, system, word.bytes)? {
            found.push(*word)?;
        }
    }
    Ok(found)
}

/// Whether a word of an action formula stands for more actions than it names.
fn is_general(word: &[u8]) -> bool
    ensures { result ≡ is_general word.now }
{
    is_same(word, b"true") || is_same(word, b"!")
}

/// Whether a word of an action formula names the action of this name.
fn names(alloc: Global, word: &[u8], name: &[u8]) -> Result<bool, AllocError>
    ensures { IfOk result (λ b. b ≡ label_names (action_label word.now) name.now) }
{
    match action_label(alloc, word)? {
        Some(label) => is_named(alloc, &label, name),
        None => Ok(false),
    }
}

/// Whether words of action formulas name the action of this name, or stand for all.
fn is_mentioned(alloc: Global, words: &[PlacedWord<'_>], name: &[u8]) -> Result<bool, AllocError>
    ensures { IfOk result (λ b. b ≡ is_mentioned (placed_words words.now) name.now) }
{
    for word in words {
        if is_general(word.bytes) || names(alloc, word.bytes, name)? {
            return Ok(true);
        }
    }
    Ok(false)
}

/// Returns for each action whether words of action formulas do not mention it.
fn unmentioned(
    alloc: Global,
    system: &System,
    words: &[PlacedWord<'_>],
) -> Result<Vec<bool>, AllocError>
    ensures { IfOk result (λ marks. marks.items ≡
        map (λ name. not (is_mentioned (placed_words words.now) name)) system.now.actions) }
{
    let mut marks = Vec::new(alloc);
    for action in 0..system.actions() {
        let name = system.action_name(action);
        marks.push(!is_mentioned(alloc, words, name)?)?;
    }
    Ok(marks)
}

/// Returns the actions of a system that a text of requirements does not mention, in order. A word `true` or `!` of an
/// action formula mentions all.
pub fn unnamed_actions(
    alloc: Global,
    system: &System,
    text: &[u8],
) -> Result<Vec<usize>, AllocError>
    ensures { IfOk result (λ found. found.items ≡ spec.unnamed_actions system.now.actions text.now) }
{
    let words = action_words(alloc, text)?;
    let marks = unmentioned(alloc, system, &words)?;
    numbers_of(alloc, &marks)
}
