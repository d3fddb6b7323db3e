//! Warnings of a system and its requirements.
ghost use Rattle.std.specs.Prelude.{◌≡◌, length, IfOk};
ghost use Rattle.vpg_diagram.specs.FeatureDiagram.{feature_count};

use crate::products::{Closed, closure_of};
use crate::warnings::{Sort, Warnings};
use std::alloc::{AllocError, Global};
use vpg_diagram::Diagram;
use vpg_places::{Line, lines_of};
use vpg_system::System;
use vpg_warnings::{unknown_actions, unmet_guards, unnamed_actions, unreached_states};

/// Returns the lines of a text that are not blank: the header of a system, and one for each transition.
fn lines_in<'t>(alloc: Global, text: &'t [u8]) -> Result<Vec<Line<'t>>, AllocError> {
    let lines = lines_of(alloc, text)?;
    let mut found = Vec::new(alloc);
    for line in &lines {
        if !line.is_blank() {
            found.push(*line)?;
        }
    }
    Ok(found)
}

/// Returns the place where a line of these begins, without the blanks in front.
fn line_at(lines: &[Line<'_>], number: usize) -> usize {
    match lines.get(number) {
        Some(line) => {
            let blanks = line
                .bytes
                .len()
                .saturating_sub(line.bytes.trim_ascii_start().len());
            line.from.saturating_add(blanks)
        }
        None => 0,
    }
}

/// Returns the place where the guard of a line of these begins, after the last `[`; without a guard that of the line.
fn guard_at(lines: &[Line<'_>], number: usize) -> usize {
    let Some(line) = lines.get(number) else {
        return 0;
    };
    match line.bytes.iter().rposition(|b| *b == b'[') {
        Some(at) => line.from.saturating_add(at).saturating_add(1),
        None => line_at(lines, number),
    }
}

/// Returns the line of the first transition from each state, and else that of the header.
fn lines_of_states(alloc: Global, system: &System) -> Result<Vec<usize>, AllocError> {
    let mut numbers = vec![in alloc; 0usize; system.states() as usize]?;
    for (index, transition) in system.transitions().iter().enumerate() {
        if let Some(number) = numbers.get_mut(transition.source as usize) {
            if *number == 0 {
                *number = index.saturating_add(1);
            }
        }
    }
    Ok(numbers)
}

/// Returns the line of the first transition with each action.
fn lines_of_actions(alloc: Global, system: &System) -> Result<Vec<usize>, AllocError> {
    let mut numbers = vec![in alloc; 0usize; system.actions()]?;
    for (index, transition) in system.transitions().iter().enumerate() {
        if let Some(number) = numbers.get_mut(transition.action) {
            if *number == 0 {
                *number = index.saturating_add(1);
            }
        }
    }
    Ok(numbers)
}

/// Returns the number of the line of a state or an action.
fn number_at(numbers: &[usize], index: usize) -> usize {
    numbers.get(index).copied().unwrap_or(0)
}

/// Returns the index of a warning.
fn index_of(number: usize) -> u32 {
    u32::try_from(number).unwrap_or(u32::MAX)
}

/// Warns of states that cannot be reached from the first one.
fn warn_of_states(
    alloc: Global,
    system: &System,
    lines: &[Line<'_>],
    warnings: &mut Warnings,
) -> Result<(), AllocError>
    ensures { warnings.new.length ≡ warnings.old.length }
{
    let states = unreached_states(alloc, system)?;
    let numbers = lines_of_states(alloc, system)?;
    for state in &states {
        let number = number_at(&numbers, *state);
        warnings.warn(Sort::NoPath, line_at(lines, number), index_of(*state))?;
    }
    Ok(())
}

/// Warns of guards that no product meets, if the diagram has one.
fn warn_of_guards(
    alloc: Global,
    diagram: &Diagram,
    system: &System,
    lines: &[Line<'_>],
    warnings: &mut Warnings,
) -> Result<(), AllocError>
    requires { system.now.features ≡ feature_count diagram.now.lines }
    ensures { warnings.new.length ≡ warnings.old.length }
{
    if let Closed::Conflict = closure_of(alloc, diagram, &[])? {
        return Ok(());
    }
    let transitions = unmet_guards(alloc, diagram, system)?;
    for index in &transitions {
        let at = guard_at(lines, index.saturating_add(1));
        warnings.warn(Sort::Unmet, at, index_of(*index))?;
    }
    Ok(())
}

/// Warns of actions that no requirement names.
fn warn_of_actions(
    alloc: Global,
    system: &System,
    requirements: &[u8],
    lines: &[Line<'_>],
    warnings: &mut Warnings,
) -> Result<(), AllocError>
    ensures { warnings.new.length ≡ warnings.old.length }
{
    let actions = unnamed_actions(alloc, system, requirements)?;
    let numbers = lines_of_actions(alloc, system)?;
    for action in &actions {
        let number = number_at(&numbers, *action);
        warnings.warn(Sort::Unasked, line_at(lines, number), index_of(*action))?;
    }
    Ok(())
}

/// Warns of a system.
fn warn_of_system(
    alloc: Global,
    text: &[u8],
    diagram: &Diagram,
    system: &System,
    requirements: &[u8],
    warnings: &mut Warnings,
) -> Result<(), AllocError>
    requires { system.now.features ≡ feature_count diagram.now.lines }
    ensures { warnings.new.length ≡ warnings.old.length }
{
    let lines = lines_in(alloc, text)?;
    warn_of_states(alloc, system, &lines, warnings)?;
    warn_of_guards(alloc, diagram, system, &lines, warnings)?;
    warn_of_actions(alloc, system, requirements, &lines, warnings)
}

/// Returns the warnings of a system that was read from a text: states that cannot be reached from the first one,
/// whatever the guards are; guards that no product meets, as far as propagation shows it; actions that its requirements
/// do not name.
pub fn warnings_of_system(
    alloc: Global,
    text: &[u8],
    diagram: &Diagram,
    system: &System,
    requirements: &[u8],
) -> Result<Warnings, AllocError>
    requires { system.now.features ≡ feature_count diagram.now.lines }
    ensures { IfOk result (λ warnings. warnings.length ≡ length text.now) }
{
    let mut warnings = Warnings::new(alloc, text.len());
    warn_of_system(alloc, text, diagram, system, requirements, &mut warnings)?;
    Ok(warnings)
}

/// Warns of requirements.
fn warn_of_requirements(
    alloc: Global,
    text: &[u8],
    system: &System,
    warnings: &mut Warnings,
) -> Result<(), AllocError>
    ensures { warnings.new.length ≡ warnings.old.length }
{
    let words = unknown_actions(alloc, system, text)?;
    for word in &words {
        warnings.warn(Sort::NoAction, word.at, index_of(word.bytes.len()))?;
    }
    Ok(())
}

/// Returns the warnings of a text of requirements: actions that no transition of the system has.
pub fn warnings_of_requirements(
    alloc: Global,
    text: &[u8],
    system: &System,
) -> Result<Warnings, AllocError>
    ensures { IfOk result (λ warnings. warnings.length ≡ length text.now) }
{
    let mut warnings = Warnings::new(alloc, text.len());
    warn_of_requirements(alloc, text, system, &mut warnings)?;
    Ok(warnings)
}
