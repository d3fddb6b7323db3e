//! Where feature models name their features.
ghost use Rattle.std.specs.Prelude.{◌≡◌, IfOk};
ghost use Rattle.vpg_models.specs.Forms.{attributes_in};

use crate::form::Form;
use std::alloc::{AllocError, Global};
use vpg_features::{Names, is_name_byte};
use vpg_places::lines_of;
use vpg_uvl::attribute_places;
use vpg_xml::{Element, read_document};

/// The words of UVL that begin a group.
const HEADS: [&[u8]; 4] = [b"mandatory", b"optional", b"alternative", b"or"];

/// Notes where a feature of this name is, unless that was noted before.
fn note(names: &Names, name: &[u8], at: usize, places: &mut [Option<usize>]) {
    let Some(f) = names.get(name) else {
        return;
    };
    if let Some(place) = places.get_mut(f as usize) {
        if place.is_none() {
            *place = Some(at);
        }
    }
}

/// Returns the name at the front of a line in UVL, without its quotes, and the offset of its first byte. The word that
/// begins a group is none.
fn name_in(line: &[u8]) -> Option<(&[u8], usize)> {
    let blanks = line
        .iter()
        .take_while(|b| **b == b' ' || **b == b'\t')
        .count();
    let word = line.get(blanks..)?;
    let (word, at, is_quoted) = match word.strip_prefix(b"\"") {
        Some(inside) => (inside, blanks.saturating_add(1), true),
        None => (word, blanks, false),
    };
    let len = word.iter().take_while(|b| is_name_byte(**b)).count();
    let name = word.get(..len)?;
    if !is_quoted && HEADS.contains(&name) {
        return None;
    }
    Some((name, at))
}

/// Notes where a text in UVL names its features: on lines between `features` and `constraints`.
fn note_in_uvl(
    alloc: Global,
    text: &[u8],
    names: &Names,
    places: &mut [Option<usize>],
) -> Result<(), AllocError> {
    let lines = lines_of(alloc, text)?;
    let mut is_behind = false;
    for line in &lines {
        if line.bytes.starts_with(b"constraints") {
            return Ok(());
        }
        if is_behind {
            if let Some((name, at)) = name_in(line.bytes) {
                note(names, name, line.from.saturating_add(at), places);
            }
        }
        is_behind = is_behind || line.bytes.starts_with(b"features");
    }
    Ok(())
}

/// Whether an element of FeatureIDE's XML is a feature.
fn is_feature(tag: &[u8]) -> bool {
    matches!(tag, b"feature" | b"and" | b"or" | b"alt")
}

/// Notes where an element of FeatureIDE's XML names a feature.
fn note_element(element: &Element<'_>, names: &Names, places: &mut [Option<usize>]) {
    if !is_feature(element.tag.name) {
        return;
    }
    for attribute in &element.tag.attributes {
        if matches!(attribute.name, b"name") {
            note(names, &attribute.value, element.at, places);
        }
    }
}

/// Notes where a text in FeatureIDE's XML names its features.
fn note_in_xml(alloc: Global, text: &[u8], names: &Names, places: &mut [Option<usize>]) {
    let Ok(elements) = read_document(alloc, text) else {
        return;
    };
    for element in &elements {
        note_element(element, names, places);
    }
}

/// Returns for each of these features the offset at which the text of a model names it first, if that is found.
pub fn features_in(
    alloc: Global,
    form: Form,
    text: &[u8],
    names: &Names,
) -> Result<Vec<Option<usize>>, AllocError> {
    let mut places = vec![in alloc; None; names.len()]?;
    match form {
        Form::Diagram => {}
        Form::Uvl => note_in_uvl(alloc, text, names, &mut places)?,
        Form::FeatureIde => note_in_xml(alloc, text, names, &mut places),
    }
    Ok(places)
}

/// Returns the offsets at which attributes begin that the text of a model has and that are read over. Only UVL's are
/// found.
pub fn attributes_in(alloc: Global, form: Form, text: &[u8]) -> Result<Vec<usize>, AllocError>
    ensures { IfOk result (λ places. places.items ≡ attributes_in form text.now) }
{
    match form {
        Form::Uvl => attribute_places(alloc, text),
        Form::Diagram | Form::FeatureIde => Ok(Vec::new(alloc)),
    }
}
