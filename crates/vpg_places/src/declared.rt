//! The lines of a diagram that name a feature as the root or as a child.
use crate::forms::{Form, LINES, Part, form_of};
use crate::lines::{Line, Word, lines_of, words_of};
use std::alloc::{AllocError, Global};

/// A feature that a line names as the root or as a child.
#[derive(Clone, Copy)]
pub struct Declared<'t> {
    /// The offset of its first byte in the text.
    pub at: usize,
    pub name: &'t [u8],
    /// The number of its line.
    pub line: usize,
}

/// Returns the place of the first child in a line, after its first word.
fn first_child(form: &Form) -> usize {
    let mut first = form.parts.len();
    for (place, part) in form.parts.iter().enumerate() {
        if *part == Part::Root || *part == Part::Child {
            first = place;
        }
    }
    first
}

/// Adds the features that a line names.
fn declare<'t>(
    line: Line<'t>,
    words: &[Word<'t>],
    declared: &mut Vec<Declared<'t>>,
) -> Result<(), AllocError> {
    let Some((word, rest)) = words.split_first() else {
        return Ok(());
    };
    let Some(form) = form_of(&LINES, word.bytes) else {
        return Ok(());
    };
    let first = first_child(&form);
    let more = matches!(form.rest, Some(Part::Child));
    for (place, word) in rest.iter().enumerate() {
        if place >= first && (more || place < form.parts.len()) {
            declared.push(Declared {
                at: line.from.saturating_add(word.at),
                name: word.bytes,
                line: line.number,
            })?;
        }
    }
    Ok(())
}

/// Returns all features that lines name as the root or as a child, in their order. Other faults of the lines do not
/// matter.
pub fn declared_of<'t>(alloc: Global, text: &'t [u8]) -> Result<Vec<Declared<'t>>, AllocError> {
    let lines = lines_of(alloc, text)?;
    let mut declared = Vec::new(alloc);
    for line in &lines {
        let words = words_of(alloc, line.bytes, b":")?;
        declare(*line, &words, &mut declared)?;
    }
    Ok(declared)
}

/// Returns the first that has this name.
pub fn find<'t>(declared: &[Declared<'t>], name: &[u8]) -> Option<Declared<'t>> {
    for it in declared {
        if it.name == name {
            return Some(*it);
        }
    }
    None
}

/// Returns the names of those on lines before this one.
pub fn names_before<'t>(
    alloc: Global,
    declared: &[Declared<'t>],
    line: usize,
) -> Result<Vec<&'t [u8]>, AllocError> {
    let mut names = Vec::new(alloc);
    for it in declared {
        if it.line < line {
            names.push(it.name)?;
        }
    }
    Ok(names)
}
