//! The transition of the system that a move of the game goes by.
ghost use Rattle.std.specs.Prelude.{◌≡◌, ◌<◌, All, IfSome, length, position};
ghost use Rattle.vpg_guards.specs.Formula.{IsBelow};
ghost use Rattle.vpg_model.specs.Pairs.{HaveGuards, pair_at};
ghost use Rattle.vpg_trace.specs.Taking.{first_fit, fits, is_pair, is_value, taken_along, taken_by, taken_from};
ghost use Rattle.vpg_trace.specs.Telling.{IsTakenBy};

use indexmap::IndexSet;
use vpg_guards::Tri;
use vpg_model::{Source, Transition};
use vpg_parts::Part;

/// A transition that a move goes by.
#[derive(Clone, Copy, Debug, PartialEq, Eq)]
pub struct Taken {
    /// The state that it leaves.
    pub state: u32,
    /// Its place among the transitions from there.
    pub index: usize,
    /// Whether its guard depends on features that are open. If not, each product that is left has the transition.
    pub depends: bool,
}

/// Whether the values are the same.
fn is_value(value: Tri, wanted: Tri) -> bool
    ensures { result ≡ is_value value wanted }
{
    matches!(
        (value, wanted),
        (Tri::Yes, Tri::Yes) | (Tri::Unknown, Tri::Unknown) | (Tri::No, Tri::No)
    )
}

/// Whether the pairs are the same.
fn is_pair(one: (u32, u32), other: (u32, u32)) -> bool
    ensures { result ≡ is_pair one other }
{
    one.0 == other.0 && one.1 == other.1
}

/// Returns the state and the place of the part of a vertex.
pub(crate) fn pair_of(pairs: &IndexSet<(u32, u32)>, v: u32) -> (u32, u32)
    ensures { result ≡ pair_at pairs.now.keys v }
{
    match pairs.get_index(v as usize) {
        Some(pair) => *pair,
        None => (0, 0),
    }
}

/// The wanted transition: an action of a set, the pair that it leads to with the part at a place, and the value of its
/// guard.
#[derive(Clone, Copy)]
struct Wanted {
    set: u32,
    place: u32,
    to: (u32, u32),
    value: Tri,
}

/// Whether a transition is the wanted one.
fn fits(source: &Source, known: &[Tri], wanted: Wanted, transition: &Transition) -> bool
    requires { IsBelow (length known.now) transition.now.guard }
    ensures { result ≡ fits known.now source.now.sets.items source.now.parts.items wanted.set wanted.place wanted.to
        wanted.value transition.now }
{
    source.is_permitted(wanted.set, transition.action)
        && is_pair(source.pair_for(transition.target, wanted.place), wanted.to)
        && is_value(transition.guard.kleene(known), wanted.value)
}

/// Returns the place of the first of these transitions that is wanted.
fn first_of(
    source: &Source,
    known: &[Tri],
    wanted: Wanted,
    transitions: &[Transition],
) -> Option<usize>
    requires { All (λ t. IsBelow (length known.now) t.guard) transitions.now }
    ensures { result ≡ position (fits known.now source.now.sets.items source.now.parts.items wanted.set wanted.place
        wanted.to wanted.value) transitions.now }
{
    for (i, transition) in transitions.iter().enumerate() {
        if fits(source, known, wanted, transition) {
            return Some(i);
        }
    }
    None
}

/// Returns the place of the first wanted transition from a state.
fn first_fit(source: &Source, known: &[Tri], state: u32, wanted: Wanted) -> Option<usize>
    requires { HaveGuards (length known.now) source.now.states.items }
    ensures { result ≡ first_fit known.now source.now.states.items source.now.sets.items source.now.parts.items state
        wanted.set wanted.place wanted.to wanted.value }
{
    match source.states.get(state as usize) {
        Some(from) => first_of(source, known, wanted, &from.transitions),
        None => None,
    }
}

/// Returns the transition that a move goes by: the one that is there, otherwise the other one, which depends on open
/// features.
fn taken_by(state: u32, there: Option<usize>, other: Option<usize>) -> Option<Taken>
    ensures { result ≡ taken_by state there other }
{
    match there {
        Some(index) => Some(Taken {
            state,
            index,
            depends: false,
        }),
        None => match other {
            Some(index) => Some(Taken {
                state,
                index,
                depends: true,
            }),
            None => None,
        },
    }
}

/// Returns the transition from a state that a move of a box or a diamond goes by.
fn taken_along(
    source: &Source,
    known: &[Tri],
    state: u32,
    set: u32,
    place: u32,
    to: (u32, u32),
) -> Option<Taken>
    requires { HaveGuards (length known.now) source.now.states.items }
    ensures { result ≡ taken_along known.now source.now.states.items source.now.sets.items source.now.parts.items state
        set place to }
{
    let there = Wanted {
        set,
        place,
        to,
        value: Tri::Yes,
    };
    let open = Wanted {
        set,
        place,
        to,
        value: Tri::Unknown,
    };
    taken_by(
        state,
        first_fit(source, known, state, there),
        first_fit(source, known, state, open),
    )
}

/// Returns the transition that a move between two pairs goes by.
fn step_from(source: &Source, known: &[Tri], from: (u32, u32), to: (u32, u32)) -> Option<Taken>
    requires { HaveGuards (length known.now) source.now.states.items }
    ensures { result ≡ taken_from known.now source.now.states.items source.now.sets.items source.now.parts.items from
        to }
{
    match source.resolved_part(from.1) {
        Part::SomeStep(set, next) | Part::EveryStep(set, next) => taken_along(
            source, known, from.0, set, next, to,
        ),
        Part::True
        | Part::False
        | Part::And(_, _)
        | Part::Or(_, _)
        | Part::Fixpoint { .. }
        | Part::Variable { .. } => None,
    }
}

/// Returns the transition that a move between two vertices goes by, under what is known. It is the first one from the
/// state with a true guard, otherwise the first with an open guard. A move within a requirement has none.
pub fn step_between(
    source: &Source,
    pairs: &IndexSet<(u32, u32)>,
    known: &[Tri],
    from: u32,
    to: u32,
) -> Option<Taken>
    requires { HaveGuards (length known.now) source.now.states.items }
    // It leaves the state, its action is permitted, it leads to the move's target, and its guard is true if the
    // transition does not depend on open features.
    ensures taken { IfSome result (IsTakenBy known.now source.now.states.items source.now.sets.items
        source.now.parts.items (pair_at pairs.now.keys from) (pair_at pairs.now.keys to)) }
    // There is one answer.
    ensures one { result ≡ taken_from known.now source.now.states.items source.now.sets.items source.now.parts.items
        (pair_at pairs.now.keys from) (pair_at pairs.now.keys to) }
{
    step_from(source, known, pair_of(pairs, from), pair_of(pairs, to))
}
