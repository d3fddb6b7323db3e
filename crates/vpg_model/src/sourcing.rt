//! The source of a game, from a system that was read.
ghost use Rattle.std.specs.Prelude.{◌≡◌, ◌<◌, ◌++◌, ◌∷◌, [], length, replicate, slice_index_or, slice_set, IfOk};
ghost use Rattle.vpg_system.specs.System.{IsSystem};
ghost use Rattle.vpg_system.specs.SystemView.{transition_of, transitions_of};
ghost use Rattle.vpg_model.specs.Pairs.{HaveGuards};
ghost use Rattle.vpg_model.specs.Sources.{departure_of, system_of, ArePlacedBySource};
ghost use Rattle.vpg_model.specs.Laws.{AreOfSystem};

use crate::source::{Source, State, Transition};
use std::alloc::{AllocError, Global};
use vpg_parts::{Part, Permitted};
use vpg_system::System;

/// Returns this many states without transitions.
fn empty_states(alloc: Global, count: u32) -> Result<Vec<State>, AllocError>
    ensures { IfOk result (λ states. states.items ≡ replicate count []) }
{
    let mut states = Vec::new(alloc);
    for _ in 0..count {
        states.push(State {
            transitions: Vec::new(alloc),
        })?;
    }
    Ok(states)
}

/// Returns a transition of the system as one from a known state.
fn departure(alloc: Global, transition: &vpg_system::Transition) -> Result<Transition, AllocError>
    requires { transition.now.action < 4294967296 }
    ensures { IfOk result (λ departure. departure ≡ departure_of (transition_of transition.now)) }
{
    Ok(Transition {
        action: transition.action as u32,
        guard: transition.guard.copy(alloc)?,
        target: transition.target,
    })
}

/// Adds a transition to those of a state.
fn add(states: &mut Vec<State>, source: u32, departure: Transition) -> Result<(), AllocError>
    requires { source < length states.old.items }
    ensures { IfOk result (λ _. states.new.items ≡
        slice_set states.old.items source (slice_index_or states.old.items source [] ++ departure ∷ [])) }
{
    let state = &mut states[source as usize];
    state.transitions.push(departure)?;
    Ok(())
}

/// Returns the transitions from each state.
fn states_of(alloc: Global, system: &System) -> Result<Vec<State>, AllocError>
    ensures { IfOk result (λ states. ArePlacedBySource system.now.states system.now.transitions states.items) }
{
    // The contract of `actions` says that their numbers fit.
    let _actions = system.actions();
    let transitions = system.transitions();
    let mut states = empty_states(alloc, system.states())?;
    for transition in transitions {
        let departure = departure(alloc, transition)?;
        add(&mut states, transition.source, departure)?;
    }
    Ok(states)
}

impl Source {
    /// Returns the source of a game of this system, with these sets of actions and these parts of requirements.
    pub fn of(
        alloc: Global,
        system: &System,
        sets: Vec<Permitted>,
        parts: Vec<Part>,
    ) -> Result<Source, AllocError>
        // It has the system's transitions, and the first state is one of its states.
        ensures system { IfOk result (λ source. AreOfSystem (length system.now.actions) (system_of system.now)
            source.states.items system.now.first) }
        ensures features { IfOk result (λ source. source.features ≡ system.now.features) }
        ensures guards { IfOk result (λ source. HaveGuards source.features source.states.items) }
        ensures sets { IfOk result (λ source. source.sets.items ≡ sets.items) }
        ensures parts { IfOk result (λ source. source.parts.items ≡ parts.items) }
    {
        // The contract of `transitions` has the properties of every system.
        let _transitions = system.transitions();
        let states = states_of(alloc, system)?;
        Ok(Source {
            features: system.features(),
            states,
            sets,
            parts,
        })
    }
}
