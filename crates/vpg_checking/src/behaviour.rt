//! The origin of a game, by which steps of the system are reported.
ghost use Rattle.std.specs.Prelude.{◌≡◌, ◌<◌, [], length, take, slice_index_or, IfOk};
ghost use Rattle.vpg_model.specs.Forms.{HasLabels};
ghost use Rattle.vpg_model.specs.Pairs.{HaveGuards};

use indexmap::IndexSet;
use std::alloc::{AllocError, Global};
use std::marker::Model;
use vpg_model::Source;
use vpg_part_texts::Text;
use vpg_system::System;

/// The origin of a game: the names of the system's actions, its transitions, and the sets of actions and the parts of
/// the requirements. It also has the state and the part of each vertex.
pub struct Behaviour {
    actions: Vec<Text>,
    source: Source,
    pairs: IndexSet<(u32, u32)>,
}

// Not derived, so that dropping one is one call: a derived drop would be proved again at each exit that owns one.
impl Drop for Behaviour {
    fn drop(self) {
        let Behaviour {
            actions: _,
            source: _,
            pairs: _,
        } = self;
    }
}

impl Model for Behaviour {
    ghost use Rattle.vpg_checking.specs.Behaviours.{Behaviour as Made, IsBehaviour};

    ghost Value = { Made };

    ghost use Rattle.std.specs.Coded.{codes};
    ghost use Rattle.vpg_model.specs.Departures.{departure_code};

    ghost coded = { Prim.hlevel (codes, departure_code) };

    ghost view = { λ b. record {
      features = b.source.features;
      actions = b.actions.items;
      states = b.source.states.items;
      sets = b.source.sets.items;
      parts = b.source.parts.items;
      pairs = b.pairs.keys;
    } };

    ghost invariant = { λ b. IsBehaviour (record {
      features = b.source.features;
      actions = b.actions.items;
      states = b.source.states.items;
      sets = b.source.sets.items;
      parts = b.source.parts.items;
      pairs = b.pairs.keys;
    }) };
}

/// Returns the names of a system's actions.
pub(crate) fn action_names(alloc: Global, system: &System) -> Result<Vec<Text>, AllocError>
    ensures { IfOk result (λ names. names.items ≡ system.now.actions) }
{
    let mut names = Vec::with_capacity(alloc, system.actions())?;
    for action in 0..system.actions() {
        let bytes = Vec::from_slice(alloc, system.action_name(action))?;
        names.push(Text { bytes })?;
    }
    Ok(names)
}

impl Behaviour {
    /// Returns the origin of a game from the names of the actions, its source, and the pairs of its vertices.
    pub fn of(actions: Vec<Text>, source: Source, pairs: IndexSet<(u32, u32)>) -> Behaviour
        requires guards { HaveGuards source.features source.states.items }
        requires labels { HasLabels (length actions.items) source.states.items }
        ensures { result ≡ record {
          features = source.features;
          actions = actions.items;
          states = source.states.items;
          sets = source.sets.items;
          parts = source.parts.items;
          pairs = pairs.keys;
        } }
    {
        Behaviour {
            actions,
            source,
            pairs,
        }
    }

    /// Returns the number of features that the guards are over.
    pub fn features(&self) -> usize
        ensures { result ≡ self.now.features }
    {
        self.source.features
    }

    /// Returns the names of the actions.
    pub fn actions(&self) -> &[Text]
        ensures { result.now ≡ self.now.actions }
    {
        &self.actions
    }

    /// Returns the transitions from each state, and the sets of actions and the parts of the requirements.
    pub fn source(&self) -> &Source
        ensures features { result.now.features ≡ self.now.features }
        ensures states { result.now.states.items ≡ self.now.states }
        ensures sets { result.now.sets.items ≡ self.now.sets }
        ensures parts { result.now.parts.items ≡ self.now.parts }
        ensures guards { HaveGuards self.now.features self.now.states }
        ensures labels { HasLabels (length self.now.actions) self.now.states }
    {
        &self.source
    }

    /// Returns the state of each vertex, and the place of its part.
    pub fn pairs(&self) -> &IndexSet<(u32, u32)>
        ensures { result.now.keys ≡ self.now.pairs }
    {
        &self.pairs
    }
}
