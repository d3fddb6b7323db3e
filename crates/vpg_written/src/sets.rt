//! Sets of actions.
ghost use Rattle.std.specs.Prelude.{◌≡◌, ◌∷◌, ◌++◌, [], List, length, IfOk};
ghost use Rattle.vpg_formula.specs.Words as words;
ghost use Rattle.vpg_meaning.specs.Labels as labels;
ghost use Rattle.vpg_requirement.specs.Actions as numbered;
ghost use Rattle.vpg_requirement.specs.Actions.{ActionFormula};
ghost use Rattle.vpg_parts.specs.Sets.{is_permitted, ArePermitted};
ghost use Rattle.vpg_written.specs.Terms.{AreSets, IsSetOf, IsSetBy, joined_actions};
ghost use Rattle.vpg_written.specs.Actions.{AreActions};

use crate::naming::is_same;
use crate::piece::{EVERY_ACTION, NO_ACTION};
use std::alloc::{AllocError, Global};
use vpg_formula::{Label, Mark};
use vpg_parts::Permitted;
use vpg_system::System;

/// Returns a text without its blanks.
fn without_blanks(alloc: Global, text: &[u8]) -> Result<Vec<u8>, AllocError>
    ensures { IfOk result (λ v. v.items ≡ labels.without_blanks text.now) }
{
    text.iter()
        .copied()
        .filter(|b| !is_blank(*b))
        .collect(alloc)
}

/// Whether the byte is a space, a tab, a carriage return or a line feed.
fn is_blank(byte: u8) -> bool
    ensures { result ≡ words.is_blank byte }
{
    matches!(byte, b' ' | b'\t' | b'\r' | b'\n')
}

/// Whether a label names the action of this name.
fn is_named(alloc: Global, label: &Label, name: &[u8]) -> Result<bool, AllocError>
    ensures { IfOk result (λ b. b ≡ labels.is_named label.now name.now) }
{
    if label.quoted {
        return Ok(is_same(label.name.as_bytes(), name));
    }
    let bare = without_blanks(alloc, label.name.as_bytes())?;
    let other = without_blanks(alloc, name)?;
    Ok(is_same(bare.as_slice(), other.as_slice()))
}

/// Returns the actions that a label names.
fn named(alloc: Global, system: &System, label: &Label) -> Result<Permitted, AllocError>
    ensures { IfOk result (λ set. IsSetOf (length system.now.actions) set
        (labels.actions_named label.now 0 system.now.actions)) }
{
    let mut actions = Vec::new(alloc);
    for action in 0..system.actions() {
        actions.push(is_named(alloc, label, system.action_name(action))?)?;
    }
    Ok(Permitted { actions })
}

/// Whether a set has an action.
fn has(sets: &[Permitted], set: u32, action: usize) -> bool
    ensures { result ≡ is_permitted sets.now set action }
{
    match sets.get(set as usize) {
        Some(permitted) => match permitted.actions.get(action) {
            Some(value) => *value,
            None => false,
        },
        None => false,
    }
}

/// Returns the actions that a set does not have.
fn complement(
    alloc: Global,
    count: usize,
    sets: &[Permitted],
    set: u32,
) -> Result<Permitted, AllocError>
    ensures { IfOk result (λ made. (x : ActionFormula) → ArePermitted count sets.now set x →
        IsSetOf count made (numbered.other_than x)) }
{
    let mut actions = Vec::new(alloc);
    for action in 0..count {
        actions.push(!has(sets, set, action))?;
    }
    Ok(Permitted { actions })
}

/// Returns the actions of both sets, or of one of them.
fn joined(
    alloc: Global,
    count: usize,
    sets: &[Permitted],
    is_both: bool,
    first: u32,
    second: u32,
) -> Result<Permitted, AllocError>
    ensures { IfOk result (λ made. (x y : ActionFormula) → ArePermitted count sets.now first x →
        ArePermitted count sets.now second y → IsSetOf count made (joined_actions is_both x y)) }
{
    let mut actions = Vec::new(alloc);
    for action in 0..count {
        let (a, b) = (has(sets, first, action), has(sets, second, action));
        actions.push(if is_both { a && b } else { a || b })?;
    }
    Ok(Permitted { actions })
}

/// Adds a set, and returns its number.
fn added(sets: &mut Vec<Permitted>, set: Permitted) -> Result<u32, AllocError>
    ensures { IfOk result (λ n. (n ≡ length sets.old.items) × (sets.new.items ≡ sets.old.items ++ set ∷ [])) }
{
    match u32::try_from(sets.len()) {
        Ok(number) => {
            sets.push(set)?;
            Ok(number)
        }
        Err(_) => Err(AllocError),
    }
}

/// Returns the set of all actions.
fn full(alloc: Global, system: &System) -> Result<Permitted, AllocError>
    ensures { IfOk result (λ set. IsSetOf (length system.now.actions) set numbered.every_action) }
{
    let mut actions = Vec::new(alloc);
    for _action in 0..system.actions() {
        actions.push(true)?;
    }
    Ok(Permitted { actions })
}

/// Returns the set of no action.
fn empty(alloc: Global) -> Permitted
    ensures { result ≡ [] }
{
    Permitted {
        actions: Vec::new(alloc),
    }
}

/// Returns the sets of every action and of none.
pub(crate) fn constants(alloc: Global, system: &System) -> Result<Vec<Permitted>, AllocError>
    ensures { IfOk result (λ sets. AreSets system.now.actions sets.items
        (numbered.every_action ∷ labels.none_of_them ∷ [])) }
{
    let every = full(alloc, system)?;
    let none = empty(alloc);
    let mut sets = Vec::new(alloc);
    sets.push(every)?;
    sets.push(none)?;
    Ok(sets)
}

/// A set of actions: an existing one, by its number, or another.
#[derive(Drop)]
enum Actions {
    Known(u32),
    New(Permitted),
}

/// Returns the set of a mark, from those of its operands.
fn actions_by_mark(
    alloc: Global,
    system: &System,
    mark: &Mark,
    first: u32,
    second: u32,
    sets: &[Permitted],
) -> Result<Actions, AllocError>
    ensures { IfOk result (λ it. (actions : List ActionFormula) → AreSets system.now.actions sets.now actions →
        AreActions system.now.actions mark.now actions first second it) }
{
    let count = system.actions();
    match mark {
        Mark::EveryAction => Ok(Actions::Known(EVERY_ACTION)),
        Mark::Action(label) => Ok(Actions::New(named(alloc, system, label)?)),
        Mark::OtherThan => Ok(Actions::New(complement(alloc, count, sets, second)?)),
        Mark::Will => Ok(Actions::New(complement(alloc, count, sets, second)?)),
        Mark::BothOf => Ok(Actions::New(joined(alloc, count, sets, true, first, second)?)),
        Mark::EitherOf => Ok(Actions::New(joined(alloc, count, sets, false, first, second)?)),
        _ => Ok(Actions::Known(NO_ACTION)),
    }
}

/// Returns the number of a mark's set of actions, from those of its operands.
pub(crate) fn set_by_mark(
    alloc: Global,
    system: &System,
    mark: &Mark,
    first: u32,
    second: u32,
    sets: &mut Vec<Permitted>,
) -> Result<u32, AllocError>
    ensures { IfOk result (λ n. (actions : List ActionFormula) →
        AreSets system.now.actions sets.old.items actions →
        IsSetBy system.now.actions mark.now actions first second sets.new.items n) }
{
    match actions_by_mark(alloc, system, mark, first, second, sets.as_slice())? {
        Actions::Known(number) => Ok(number),
        Actions::New(set) => Ok(added(sets, set)?),
    }
}
