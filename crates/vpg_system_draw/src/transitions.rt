//! The transitions of a system by their numbers.
ghost use Rattle.std.specs.Prelude.{◌≡◌, ◌<◌, length, slice_index_or};
ghost use Rattle.vpg_system.specs.System.{IsTransition};
ghost use Rattle.vpg_system.specs.SystemView.{transition_of};
ghost use Rattle.vpg_system_draw.specs.Arrows.{no_transition};

use vpg_system::{System, Transition};

/// Returns the number of transitions.
pub(crate) fn transition_count(system: &System) -> usize
    ensures { result ≡ length system.now.transitions }
{
    system.transitions().len()
}

/// Returns the transition of a number.
pub(crate) fn transition_at(system: &System, at: usize) -> &Transition
    requires { at < length system.now.transitions }
    ensures value { transition_of result.now ≡ slice_index_or system.now.transitions at no_transition }
    ensures is { IsTransition system.now.features system.now.states (length system.now.actions)
        (transition_of result.now) }
{
    let transitions = system.transitions();
    &transitions[at]
}
