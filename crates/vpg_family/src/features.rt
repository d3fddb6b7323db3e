//! Warnings of a diagram.
ghost use Rattle.std.specs.Prelude.{◌≡◌, length, IfOk};

use crate::emptiness::warning_about;
use crate::products::{Closed, closure_of, is_dead};
use crate::warnings::{Sort, Warnings};
use crate::writing::DiagramSource;
use std::alloc::{AllocError, Global};
use vpg_diagram::Diagram;
use vpg_game::GuardedGame;
use vpg_guards::{Guard, Tri};
use vpg_models::{Form, attributes_in, features_in};
use vpg_places::{Declared, LINES, Part, declared_of, form_of, lines_of, words_of};
use vpg_system::System;

/// Returns the place where a feature is named first.
fn declared_at(declared: &[Declared<'_>], f: usize) -> usize {
    declared.get(f).map_or(0, |it| it.at)
}

/// Warns of features that are in no product, if the known values are these.
fn warn_of_dead(
    alloc: Global,
    diagram: &Diagram,
    known: &[Tri],
    declared: &[Declared<'_>],
    warnings: &mut Warnings,
) -> Result<(), AllocError>
    ensures { warnings.new.length ≡ warnings.old.length }
{
    let features = diagram.names().len() as u16;
    for f in 0..features {
        if is_dead(alloc, diagram, known, f)? {
            warnings.warn(Sort::Dead, declared_at(declared, f as usize), f as u32)?;
        }
    }
    Ok(())
}

/// Warns of a diagram that has no product, or perhaps none; and of features in no product, if it may have one.
fn warn_of_products(
    alloc: Global,
    diagram: &Diagram,
    declared: &[Declared<'_>],
    warnings: &mut Warnings,
) -> Result<(), AllocError>
    ensures { warnings.new.length ≡ warnings.old.length }
{
    let warning = warning_about(alloc, diagram)?;
    if let Some(sort) = warning {
        warnings.warn(sort, declared_at(declared, 0), 0)?;
    }
    if matches!(warning, Some(Sort::NoProduct)) {
        return Ok(());
    }
    match closure_of(alloc, diagram, &[])? {
        Closed::Known(known) => warn_of_dead(alloc, diagram, known.values(), declared, warnings),
        Closed::Conflict => Ok(()),
    }
}

/// Returns the parent that a line names, if it names one.
fn parent_of<'t>(alloc: Global, line: &'t [u8]) -> Result<Option<&'t [u8]>, AllocError> {
    let words = words_of(alloc, line, b":")?;
    let (Some(first), Some(parent)) = (words.first(), words.get(1)) else {
        return Ok(None);
    };
    match form_of(&LINES, first.bytes) {
        Some(form) if form.parts.contains(&Part::Parent) => Ok(Some(parent.bytes)),
        _ => Ok(None),
    }
}

/// Returns the parents that the lines of a diagram name.
fn parents_of<'t>(alloc: Global, text: &'t [u8]) -> Result<Vec<&'t [u8]>, AllocError> {
    let lines = lines_of(alloc, text)?;
    let mut parents = Vec::new(alloc);
    for line in &lines {
        if let Some(parent) = parent_of(alloc, line.bytes)? {
            parents.push(parent)?;
        }
    }
    Ok(parents)
}

/// Whether a feature has no children and no guard names it.
fn is_unnamed(named: &[bool], parents: &[&[u8]], f: usize, name: &[u8]) -> bool {
    0 < f && named.get(f) == Some(&false) && !parents.iter().any(|parent| *parent == name)
}

/// Warns of features without children that no guard names.
fn warn_of_unnamed(
    named: &[bool],
    parents: &[&[u8]],
    declared: &[Declared<'_>],
    warnings: &mut Warnings,
) -> Result<(), AllocError>
    ensures { warnings.new.length ≡ warnings.old.length }
{
    for (f, it) in declared.iter().enumerate() {
        if f < 512 && is_unnamed(named, parents, f, it.name) {
            warnings.warn(Sort::Unnamed, it.at, f as u32)?;
        }
    }
    Ok(())
}

/// Returns where the text of a feature model names the features of the diagram that it means.
fn declared_in_model<'t>(
    alloc: Global,
    source: DiagramSource<'t>,
    diagram: &'t Diagram,
) -> Result<Vec<Declared<'t>>, AllocError> {
    let names = diagram.names();
    let places = features_in(alloc, source.form, source.file.text, names)?;
    let mut declared = Vec::new(alloc);
    for (f, place) in places.iter().enumerate() {
        if f < names.len() {
            declared.push(Declared {
                at: place.unwrap_or(0),
                name: names.name(f as u16).as_bytes(),
                line: 0,
            })?;
        }
    }
    Ok(declared)
}

/// Returns where the file of a diagram names its features.
fn declared_in<'t>(
    alloc: Global,
    source: DiagramSource<'t>,
    diagram: &'t Diagram,
) -> Result<Vec<Declared<'t>>, AllocError> {
    match source.form {
        Form::Diagram => declared_of(alloc, source.meant),
        Form::Uvl | Form::FeatureIde => declared_in_model(alloc, source, diagram),
    }
}

/// Warns of attributes in a model, which are read over.
fn warn_of_attributes(
    alloc: Global,
    source: DiagramSource<'_>,
    warnings: &mut Warnings,
) -> Result<(), AllocError>
    ensures { warnings.new.length ≡ warnings.old.length }
{
    let places = attributes_in(alloc, source.form, source.file.text)?;
    for at in &places {
        warnings.warn(Sort::Attributes, *at, 0)?;
    }
    Ok(())
}

/// Warns of a diagram, and of its use by guards.
fn warn_of_diagram(
    alloc: Global,
    source: DiagramSource<'_>,
    diagram: &Diagram,
    named: &[bool],
    warnings: &mut Warnings,
) -> Result<(), AllocError>
    ensures { warnings.new.length ≡ warnings.old.length }
{
    let declared = declared_in(alloc, source, diagram)?;
    warn_of_products(alloc, diagram, &declared, warnings)?;
    let parents = parents_of(alloc, source.meant)?;
    warn_of_unnamed(named, &parents, &declared, warnings)?;
    warn_of_attributes(alloc, source, warnings)
}

/// Returns for each feature whether a guard of a game names it.
pub(crate) fn named_in_game(alloc: Global, game: &GuardedGame) -> Result<Vec<bool>, AllocError> {
    let mut named = Vec::new(alloc);
    for f in 0..512u16 {
        named.push(!game.naming(f).is_empty())?;
    }
    Ok(named)
}

/// Notes the features that a guard names.
fn note_named(alloc: Global, guard: &Guard, named: &mut [bool]) -> Result<(), AllocError> {
    let mut features = Vec::new(alloc);
    guard.push_features(&mut features)?;
    for f in &features {
        if let Some(is_named) = named.get_mut(*f as usize) {
            *is_named = true;
        }
    }
    Ok(())
}

/// Returns for each feature whether a guard of a system names it.
pub(crate) fn named_in_system(alloc: Global, system: &System) -> Result<Vec<bool>, AllocError> {
    let mut named = vec![in alloc; false; system.features()]?;
    for transition in system.transitions() {
        note_named(alloc, &transition.guard, &mut named)?;
    }
    Ok(named)
}

/// Returns the warnings of a diagram that was read from a file, and of its use by guards, which name these features.
/// Their places are those in the file. Reasons are: the diagram has no product, or may have none; features in no
/// product, as far as propagation shows it; features without children that no guard names.
pub fn warnings_of_diagram(
    alloc: Global,
    source: DiagramSource<'_>,
    diagram: &Diagram,
    named: &[bool],
) -> Result<Warnings, AllocError>
    ensures { IfOk result (λ warnings. warnings.length ≡ length source.entry.file.text.now) }
{
    let mut warnings = Warnings::new(alloc, source.file.text.len());
    warn_of_diagram(alloc, source, diagram, named, &mut warnings)?;
    Ok(warnings)
}
