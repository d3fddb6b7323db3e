//! The marks of a trace.
ghost use Rattle.std.specs.Prelude.{◌≡◌, ◌≤◌, ◌<◌, ◌==◌, ◌++◌, IfOk, OnOk, length, slice_index_or};
ghost use Rattle.std.specs.List.{list_any};
ghost use Rattle.vpg_system_draw.specs.Traced.{ends_below, ends_if, is_in, is_taken, leaving, marking_of, no_marking, taken_of, takes, transition_in};

use crate::arrows::is_marked;
use crate::transitions::{transition_at, transition_count};
use std::alloc::{AllocError, Global};
use std::marker::Model;
use vpg_system::System;

/// A step of a trace.
#[derive(Clone, Copy, Debug, PartialEq, Eq)]
pub struct Step {
    /// The state that it leaves.
    pub state: u32,
    /// The place of its transition among those from there, in file order.
    pub place: usize,
}

/// A trace through a system.
#[derive(Drop)]
pub struct Path {
    pub steps: Vec<Step>,
    /// The states that it comes back to.
    pub loops: Vec<u32>,
    /// The states where it stands.
    pub stands: Vec<u32>,
}

impl Model for Path {
    ghost use Rattle.vpg_system_draw.specs.Traced.{Trail};

    ghost Value = { Trail };

    ghost view = { λ p. record { steps = p.steps.items; loops = p.loops.items; stands = p.stands.items } };
}

/// The marked transitions and states of a picture.
#[derive(Drop)]
pub struct Marks {
    /// For each transition whether it is marked; one past the end is not.
    pub transitions: Vec<bool>,
    /// The states that a trace passes.
    pub passed: Vec<u32>,
    /// The states that it comes back to.
    pub loops: Vec<u32>,
    /// The states where it stands.
    pub stands: Vec<u32>,
}

impl Model for Marks {
    ghost use Rattle.vpg_system_draw.specs.Traced.{Marking};

    ghost Value = { Marking };

    ghost view = { λ m. record {
      transitions = m.transitions.items;
      passed = m.passed.items;
      loops = m.loops.items;
      stands = m.stands.items;
    } };
}

/// Whether a state is one of these.
pub(crate) fn is_in(states: &[u32], s: u32) -> bool
    ensures { result ≡ is_in states.now s }
{
    states.iter().any(|t| *t == s)
}

/// Returns the source of the transition of a number.
fn source_at(system: &System, n: usize) -> u32
    requires { n < length system.now.transitions }
    ensures { result ≡ (transition_in system.now.transitions n).source }
{
    transition_at(system, n).source
}

/// Returns the target of the transition of a number.
fn target_at(system: &System, n: usize) -> u32
    requires { n < length system.now.transitions }
    ensures { result ≡ (transition_in system.now.transitions n).target }
{
    transition_at(system, n).target
}

/// Whether the transition of a number leaves a state.
fn is_from(system: &System, state: u32, n: usize) -> bool
    requires { n < length system.now.transitions }
    ensures { result ≡ ((transition_in system.now.transitions n).source == state) }
{
    source_at(system, n) == state
}

/// Returns the number of transitions from a state among the first ones.
fn leaving(system: &System, state: u32, first: usize) -> usize
    requires { first ≤ length system.now.transitions }
    ensures { result ≡ leaving system.now.transitions state first }
{
    let mut count = 0;
    for n in 0..first {
        if is_from(system, state, n) {
            count += 1;
        }
    }
    count
}

/// Whether some step leaves a state.
fn leaves(steps: &[Step], state: u32) -> bool
    ensures { result ≡ list_any (λ s. s.state == state) steps.now }
{
    steps.iter().any(|s| s.state == state)
}

/// Whether some step takes the transition at a place among those from a state.
fn takes(steps: &[Step], state: u32, place: usize) -> bool
    ensures { result ≡ takes steps.now state place }
{
    steps.iter().any(|s| s.state == state && s.place == place)
}

/// Whether some step takes the transition of a number. The others from its source are counted only if some step leaves
/// that.
fn is_taken(system: &System, steps: &[Step], n: usize) -> bool
    requires { n < length system.now.transitions }
    ensures { result ≡ is_taken system.now.transitions steps.now n }
{
    let source = source_at(system, n);
    if !leaves(steps, source) {
        return false;
    }
    takes(steps, source, leaving(system, source, n))
}

/// Returns for each transition whether some step takes it.
fn taken(alloc: Global, system: &System, steps: &[Step]) -> Result<Vec<bool>, AllocError>
    ensures { IfOk result (λ marks. marks.items ≡ taken_of system.now steps.now) }
{
    let mut marks = Vec::new(alloc);
    for n in 0..transition_count(system) {
        marks.push(is_taken(system, steps, n))?;
    }
    Ok(marks)
}

/// Adds the ends of the transition of a number, if it is marked.
fn add_ends(
    system: &System,
    n: usize,
    is_marked: bool,
    ends: &mut Vec<u32>,
) -> Result<(), AllocError>
    requires { n < length system.now.transitions }
    ensures { OnOk result (ends.new.items
        ≡ ends.old.items ++ ends_if (transition_in system.now.transitions n) is_marked) }
{
    if is_marked {
        ends.push(source_at(system, n))?;
        ends.push(target_at(system, n))?;
    }
    Ok(())
}

/// Returns the states at the ends of marked transitions.
fn passed(alloc: Global, system: &System, marks: &[bool]) -> Result<Vec<u32>, AllocError>
    ensures { IfOk result (λ ends. ends.items
        ≡ ends_below system.now.transitions marks.now (length system.now.transitions)) }
{
    let mut ends = Vec::new(alloc);
    for n in 0..transition_count(system) {
        add_ends(system, n, is_marked(marks, n), &mut ends)?;
    }
    Ok(ends)
}

impl Marks {
    /// Returns the marks of no trace.
    pub fn none(alloc: Global) -> Marks
        ensures { result ≡ no_marking }
    {
        Marks {
            transitions: Vec::new(alloc),
            passed: Vec::new(alloc),
            loops: Vec::new(alloc),
            stands: Vec::new(alloc),
        }
    }

    /// Returns the marks of a trace: on the transitions that its steps take, and on the states at their ends, those
    /// that it comes back to, and those where it stands.
    pub fn of(alloc: Global, system: &System, path: Path) -> Result<Marks, AllocError>
        ensures { IfOk result (λ marks. marks ≡ marking_of system.now path) }
    {
        let transitions = taken(alloc, system, &path.steps)?;
        let passed = passed(alloc, system, &transitions)?;
        let Path {
            steps: _,
            loops,
            stands,
        } = path;
        Ok(Marks {
            transitions,
            passed,
            loops,
            stands,
        })
    }
}
