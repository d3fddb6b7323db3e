//! The states that can be reached over transitions that may be there.
ghost use Rattle.std.specs.Prelude.{◌≡◌, ◌<◌, ◌++◌, [], ◌∷◌, All, IfOk, OnOk, Contains, false, length, replicate, slice_index_or, slice_set};
ghost use Rattle.vpg_guards.specs.Formula.{IsBelow};
ghost use Rattle.vpg_guards.specs.Known.{kleene};
ghost use Rattle.vpg_guards.specs.View.{formula_of};
ghost use Rattle.vpg_system.specs.SystemView.{transition_of};
ghost use Rattle.vpg_system_draw.specs.Reached.{AreReached, AreReachedByAny};
ghost use Rattle.vpg_system_draw.specs.Searched.{may_be, with_target, rows_of, with_any_target, all_rows_of, AreNoted, AreInside, IsSearched};

use crate::transitions::{transition_at, transition_count};
use std::alloc::{AllocError, Global};
use std::marker::Model;
use vpg_guards::Tri;
use vpg_partial::Partial;
use vpg_system::{System, Transition};

/// The targets of the transitions from a state that may be there.
#[derive(Drop)]
struct Row {
    targets: Vec<u32>,
}

impl Model for Row {
    ghost use Rattle.std.specs.Prelude.{ℕ, List};

    ghost Value = { List ℕ };

    ghost view = { λ r. r.targets.items };
}

/// Returns this many rows without targets.
fn empty_rows(alloc: Global, count: u32) -> Result<Vec<Row>, AllocError>
    ensures { IfOk result (λ rows. rows.items ≡ replicate count []) }
{
    let mut rows = Vec::new(alloc);
    for _ in 0..count {
        rows.push(Row {
            targets: Vec::new(alloc),
        })?;
    }
    Ok(rows)
}

/// Adds a target to a row.
fn add_target(rows: &mut Vec<Row>, source: u32, target: u32) -> Result<(), AllocError>
    requires { source < length rows.old.items }
    ensures { IfOk result (λ _. rows.new.items ≡
        slice_set rows.old.items source (slice_index_or rows.old.items source [] ++ target ∷ [])) }
{
    let row = &mut rows[source as usize];
    row.targets.push(target)?;
    Ok(())
}

/// Whether a guard of this value may be true.
fn may_be(value: Tri) -> bool
    ensures { result ≡ may_be value }
{
    match value {
        Tri::No => false,
        Tri::Unknown | Tri::Yes => true,
    }
}

/// Adds the target of a transition that may be there to the row of its source.
fn add_transition(
    rows: &mut Vec<Row>,
    known: &[Tri],
    transition: &Transition,
) -> Result<(), AllocError>
    requires source { transition.now.source < length rows.old.items }
    requires guard { IsBelow (length known.now) (formula_of transition.now.guard) }
    ensures { OnOk result
        (rows.new.items ≡ with_target known.now rows.old.items (transition_of transition.now)) }
{
    if may_be(transition.guard.kleene(known)) {
        add_target(rows, transition.source, transition.target)?;
    }
    Ok(())
}

/// Returns for each state the targets of its transitions that may be there.
fn rows_of(alloc: Global, system: &System, known: &[Tri]) -> Result<Vec<Row>, AllocError>
    requires { length known.now ≡ system.now.features }
    ensures { IfOk result (λ rows. rows.items ≡ rows_of known.now system.now.states system.now.transitions) }
{
    let mut rows = empty_rows(alloc, system.states())?;
    for at in 0..transition_count(system) {
        add_transition(&mut rows, known, transition_at(system, at))?;
    }
    Ok(rows)
}

/// Returns for each state the targets of its transitions.
fn all_rows_of(alloc: Global, system: &System) -> Result<Vec<Row>, AllocError>
    ensures { IfOk result (λ rows. rows.items ≡ all_rows_of system.now.states system.now.transitions) }
{
    let mut rows = empty_rows(alloc, system.states())?;
    for at in 0..transition_count(system) {
        let transition = transition_at(system, at);
        add_target(&mut rows, transition.source, transition.target)?;
    }
    Ok(rows)
}

/// Marks a state that is not marked yet, and puts it among those that wait.
fn note(marks: &mut Vec<bool>, waiting: &mut Vec<u32>, s: u32) -> Result<(), AllocError>
    requires { s < length marks.old.items }
    ensures { OnOk result (AreNoted (λ w. w ≡ s) marks.old.items waiting.old.items marks.new.items
        waiting.new.items) }
{
    if !marks[s as usize] {
        waiting.push(s)?;
        marks[s as usize] = true;
    }
    Ok(())
}

/// Marks each of these states that is not marked yet, and puts it among those that wait.
fn note_each(
    marks: &mut Vec<bool>,
    waiting: &mut Vec<u32>,
    targets: &[u32],
) -> Result<(), AllocError>
    requires { All (λ s. s < length marks.old.items) targets.now }
    ensures { OnOk result (AreNoted (λ s. Contains targets.now s) marks.old.items waiting.old.items
        marks.new.items waiting.new.items) }
{
    for target in targets {
        note(marks, waiting, *target)?;
    }
    Ok(())
}

/// Returns the targets of a row.
fn targets(rows: &[Row], s: u32) -> &[u32]
    ensures { result.now ≡ slice_index_or rows.now s [] }
{
    match rows.get(s as usize) {
        Some(row) => row.targets.as_slice(),
        None => &[],
    }
}

/// Marks the states that can be reached from a state, if no state is marked yet, and none waits.
fn search(
    rows: &[Row],
    first: u32,
    marks: &mut Vec<bool>,
    waiting: &mut Vec<u32>,
) -> Result<(), AllocError>
    requires inside { AreInside rows.now }
    requires first { first < length rows.now }
    requires marks { marks.old.items ≡ replicate (length rows.now) false }
    requires waiting { waiting.old.items ≡ [] }
    ensures { OnOk result (IsSearched rows.now first marks.new.items) }
{
    note(marks, waiting, first)?;
    while let Some(s) = waiting.pop() {
        note_each(marks, waiting, targets(rows, s))?;
    }
    Ok(())
}

/// Returns for each state whether it can be reached from the first one over transitions with guards that are not known
/// to be false.
pub fn reachable(alloc: Global, system: &System, known: &Partial) -> Result<Vec<bool>, AllocError>
    requires { length known.now ≡ system.now.features }
    ensures { IfOk result (λ reached. AreReached known.now system.now reached.items) }
{
    // The contract of `transitions` states the invariant of every system.
    let _transitions = system.transitions();
    let rows = rows_of(alloc, system, known.values())?;
    let mut marks = vec![in alloc; false; rows.len()]?;
    let mut waiting = Vec::new(alloc);
    search(&rows, system.first(), &mut marks, &mut waiting)?;
    Ok(marks)
}

/// Returns for each state whether it can be reached from the first one over transitions, whatever their guards are.
pub fn reachable_by_any(alloc: Global, system: &System) -> Result<Vec<bool>, AllocError>
    ensures { IfOk result (λ reached. AreReachedByAny system.now reached.items) }
{
    // The contract of `transitions` states the invariant of every system.
    let _transitions = system.transitions();
    let rows = all_rows_of(alloc, system)?;
    let mut reached = vec![in alloc; false; rows.len()]?;
    let mut waiting = Vec::new(alloc);
    search(&rows, system.first(), &mut reached, &mut waiting)?;
    Ok(reached)
}
