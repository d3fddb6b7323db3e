//! The parts of requirements.

/// The place of `true` in each list of parts.
pub const TRUE_PLACE: u32 = 0;

/// The place of `false` in each list of parts.
pub const FALSE_PLACE: u32 = 1;

/// Whether a fixpoint is a least or a greatest one.
#[derive(Clone, Copy, Debug, PartialEq, Eq)]
pub enum Kind {
    Least,
    Greatest,
}

/// A part of a requirement. It names its own parts by their places in the list of all parts, and sets of actions by
/// their places in a list of sets.
#[derive(Clone, Copy, Debug, PartialEq, Eq)]
pub enum Part {
    True,
    False,
    And(u32, u32),
    Or(u32, u32),
    /// Some step by an action of this set leads to a state where this part holds.
    SomeStep(u32, u32),
    /// Each step by an action of this set leads to a state where this part holds.
    EveryStep(u32, u32),
    /// A fixpoint with its priority and its body.
    Fixpoint {
        kind: Kind,
        priority: u32,
        body: u32,
    },
    /// The variable of the fixpoint at this place.
    Variable {
        fixpoint: u32,
    },
}
