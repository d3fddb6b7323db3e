//! Systems.

ghost use Rattle.std.specs.Prelude.{◌≡◌, ◌<◌, ◌≤◌, ◌≢◌, [], List, ℕ, length, IfOk, IfErr, MatchResult, slice_index_or};
ghost use Rattle.vpg_features.specs.Names.{index_of};
ghost use Rattle.vpg_system.specs.SystemView.{transitions_of};

use crate::actions::Actions;
use crate::fault::SystemFault;
use crate::reading::{Reader, read_header, read_lines};
use crate::transition::Transition;
use std::alloc::Global;
use std::marker::Model;
use vpg_features::Names;

/// A featured transition system: states, a first one, and transitions with an action and a guard each.
pub struct System {
    features: usize,
    first: u32,
    states: u32,
    actions: Actions,
    transitions: Vec<Transition>,
}

// Not derived: a derived `drop` would be proved again at each exit that owns such a value.
impl Drop for System {
    fn drop(self) {
        let System {
            features: _,
            first: _,
            states: _,
            actions: _,
            transitions: _,
        } = self;
    }
}

impl Model for System {
    ghost use Rattle.vpg_system.specs.SystemText.{NamedSystem};

    ghost Value = { NamedSystem };

    ghost use Rattle.vpg_system.specs.Coding.{system_code};

    ghost coded = { system_code };

    ghost use Rattle.vpg_system.specs.SystemView.{transitions_of};
    ghost use Rattle.vpg_system.specs.System.{IsSystem};

    ghost view = { λ s. record {
      features = s.features;
      first = s.first;
      states = s.states;
      actions = s.actions;
      transitions = transitions_of s.transitions.items;
    } };

    ghost invariant = { λ s. IsSystem (record {
      features = s.features;
      first = s.first;
      states = s.states;
      actions = s.actions;
      transitions = transitions_of s.transitions.items;
    }) };
}

impl System {
    ghost use Rattle.vpg_system.specs.SystemText.{IsTextOf, NamedSystem};
    ghost use Rattle.vpg_system.specs.TextFaults.{IsFirstFault};
    ghost use Rattle.vpg_system.specs.System.{IsSystem};

    /// Returns the system that a text spells, with guards over these features, of at most 65,536 states and 1,048,576
    /// transitions. If the text is refused, the fault is the first of its first faulty line, in the order of
    /// `SystemFault`.
    pub fn read(alloc: Global, text: &[u8], features: &Names) -> Result<System, SystemFault>
        // The text spells the result.
        ensures found { IfOk result (IsTextOf features.now text.now) }
        // A text that is refused spells no system within the limits.
        ensures refused { IfErr result
            (λ fault. fault ≢ SystemFault.Memory → (s : NamedSystem) → IsTextOf features.now text.now s → ⊥) }
        // The fault is that of the first faulty line, and the first that this line has.
        ensures fault { IfErr result (IsFirstFault features.now text.now) }
        // All that the text spells is read, unless memory runs out.
        ensures only { (s : NamedSystem) → IsTextOf features.now text.now s →
            MatchResult result (λ read. read ≡ s) (λ fault. fault ≡ SystemFault.Memory) }
    {
        // The contract of `len` says that the names are feature names, each once.
        let count = features.len();
        let head = match read_header(alloc, features, text) {
            Ok(head) => head,
            Err(fault) => return Err(fault),
        };
        let mut reader = Reader {
            actions: Actions::new(alloc),
            transitions: Vec::new(alloc),
        };
        match read_lines(alloc, features, head, &mut reader) {
            Ok(()) => Ok(System {
                features: count,
                first: head.header.first,
                states: head.header.states,
                actions: reader.actions,
                transitions: reader.transitions,
            }),
            Err(fault) => Err(fault),
        }
    }

    /// Returns the number of features that its guards are over, at most 512.
    pub fn features(&self) -> usize
        ensures { result ≡ self.now.features }
    {
        self.features
    }

    /// Returns the first state.
    pub fn first(&self) -> u32
        ensures { result ≡ self.now.first }
    {
        self.first
    }

    /// Returns the number of states. They are the numbers below it.
    pub fn states(&self) -> u32
        ensures { result ≡ self.now.states }
    {
        self.states
    }

    /// Returns the transitions, in the order of the text. They lead between states, have one of the actions each, and
    /// guards over the features.
    pub fn transitions(&self) -> &[Transition]
        ensures value { transitions_of result.now ≡ self.now.transitions }
        ensures system { IsSystem self.now }
    {
        &self.transitions
    }

    /// Returns the transitions, in the order of the text, and discards the rest.
    pub fn into_transitions(self) -> Vec<Transition>
        ensures { transitions_of result.items ≡ self.transitions }
    {
        let System {
            features: _,
            first: _,
            states: _,
            actions: _,
            transitions,
        } = self;
        transitions
    }

    /// Returns the number of actions, at most 1,048,576. They are the numbers below it, in the order of their first
    /// use.
    pub fn actions(&self) -> usize
        ensures count { result ≡ length self.now.actions }
        ensures few { result ≤ 1048576 }
    {
        self.actions.len()
    }

    /// Returns the names of the actions.
    pub(crate) fn names(&self) -> &Actions
        ensures { result.now ≡ self.now.actions }
    {
        &self.actions
    }

    /// Returns the name of an action.
    pub fn action_name(&self, action: usize) -> &[u8]
        requires { action < length self.now.actions }
        ensures { result.now ≡ slice_index_or self.now.actions action [] }
    {
        self.actions.name(action)
    }

    /// Returns the action of a name, if there is one.
    pub fn action(&self, name: &[u8]) -> Option<usize>
        ensures { result ≡ index_of self.now.actions name.now }
    {
        self.actions.get(name)
    }
}
