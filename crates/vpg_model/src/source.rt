//! The source of a game: a system, and the parts of requirements.
ghost use Rattle.std.specs.Prelude.{◌≡◌, ◌↔◌, IsTrue};
ghost use Rattle.vpg_parts.specs.Parts.{part_at, resolved_part};
ghost use Rattle.vpg_parts.specs.Sets.{is_permitted};
ghost use Rattle.vpg_model.specs.Pairs.{pair_for, owner_of_part, priority_of_part};

use std::marker::Model;
use vpg_guards::Guard;
use vpg_parts::{FALSE_PLACE, Part, Permitted, TRUE_PLACE};
use vpg_sides::Player;

/// A transition from a known state.
#[derive(Drop)]
pub struct Transition {
    pub action: u32,
    pub guard: Guard,
    pub target: u32,
}

impl Model for Transition {
    ghost use Rattle.vpg_guards.specs.View.{formula_of};
    ghost use Rattle.vpg_model.specs.Departures.{Departure, departure_code};

    ghost Value = { Departure };

    ghost coded = { departure_code };

    ghost view = { λ t. record { action = t.action; guard = formula_of t.guard; target = t.target } };
}

/// The transitions from a state, in file order.
#[derive(Drop)]
pub struct State {
    pub transitions: Vec<Transition>,
}

impl Model for State {
    ghost use Rattle.std.specs.Prelude.{List};
    ghost use Rattle.std.specs.Coded.{coded_list};
    ghost use Rattle.vpg_model.specs.Departures.{Departure, departure_code};

    ghost Value = { List Departure };

    ghost coded = { coded_list departure_code };

    ghost view = { λ s. s.transitions.items };
}

/// A system, the sets of actions that its requirements name, and the parts of these.
#[derive(Drop)]
pub struct Source {
    /// The number of features that the guards are over.
    pub features: usize,
    pub states: Vec<State>,
    pub sets: Vec<Permitted>,
    /// `true` and `false` come first.
    pub parts: Vec<Part>,
}

impl Source {
    /// Returns the part at a place, or `false` if there is none.
    pub fn part(&self, place: u32) -> Part
        ensures { result ≡ part_at self.now.parts.items place }
    {
        match self.parts.get(place as usize) {
            Some(part) => *part,
            None => Part::False,
        }
    }

    /// Whether a set has an action.
    pub fn is_permitted(&self, set: u32, action: u32) -> bool
        ensures { result ≡ is_permitted self.now.sets.items set action }
    {
        match self.sets.get(set as usize) {
            Some(permitted) => match permitted.actions.get(action as usize) {
                Some(is) => *is,
                None => false,
            },
            None => false,
        }
    }

    /// Returns the vertex of a part at a state.
    pub fn pair_for(&self, state: u32, place: u32) -> (u32, u32)
        ensures { result ≡ pair_for self.now.parts.items state place }
    {
        match self.part(place) {
            Part::True => (0, TRUE_PLACE),
            Part::False => (0, FALSE_PLACE),
            Part::Variable { fixpoint } => (state, fixpoint),
            _ => (state, place),
        }
    }

    /// Returns the part that decides at a place: for a variable that is the fixpoint.
    pub fn resolved_part(&self, place: u32) -> Part
        ensures { result ≡ resolved_part self.now.parts.items place }
    {
        match self.part(place) {
            Part::Variable { fixpoint } => self.part(fixpoint),
            part => part,
        }
    }
}

/// Returns who moves at a part.
pub(crate) fn owner(part: Part) -> Player
    ensures { result ≡ owner_of_part part }
{
    match part {
        Part::True | Part::And(_, _) | Part::EveryStep(_, _) => Player::Odd,
        _ => Player::Even,
    }
}

/// Returns the priority of a part.
pub(crate) fn priority(part: Part) -> u32
    ensures { result ≡ priority_of_part part }
{
    match part {
        Part::Fixpoint { priority, .. } => priority,
        _ => 0,
    }
}
