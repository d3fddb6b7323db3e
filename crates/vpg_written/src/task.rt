//! Tasks: the rest of a normal form that is still to be written.
use crate::piece::{Parts, Piece};
use vpg_parts::Symbol;

/// A fixpoint around: one made from a word or a star has no name.
#[derive(Clone, Copy)]
pub(crate) enum Binder<'m> {
    Hidden,
    Named(&'m [u8]),
}

/// An entry: its name, and the pieces of its formula.
#[derive(Drop)]
pub(crate) struct Term<'m> {
    pub(crate) name: &'m [u8],
    pub(crate) pieces: Vec<Piece<'m>>,
}

/// A formula, or its negation, after this many entries, inside these fixpoints, innermost last.
#[derive(Drop)]
pub(crate) struct Place<'p, 'm> {
    pub(crate) term: &'p [Piece<'m>],
    pub(crate) is_negated: bool,
    pub(crate) earlier: usize,
    pub(crate) scope: Vec<Binder<'m>>,
}

/// A regular formula, or an action of a set.
#[derive(Clone, Copy)]
pub(crate) enum Way<'p, 'm> {
    Action(u32),
    Regular(&'p [Piece<'m>]),
}

/// A modality: each path or some path, along a regular formula once or any number of times.
#[derive(Clone, Copy)]
pub(crate) struct Step<'p, 'm> {
    pub(crate) is_every: bool,
    pub(crate) is_repeated: bool,
    pub(crate) way: Way<'p, 'm>,
}

/// The goal after modalities.
#[derive(Drop)]
pub(crate) enum Goal<'p, 'm> {
    Variable(u32),
    Constant(bool),
    Formula(Place<'p, 'm>),
    /// `inevitably f`, or its negation.
    Inevitably(Place<'p, 'm>),
}

/// Modalities, the first one last, in front of a goal.
#[derive(Drop)]
pub(crate) struct Task<'p, 'm> {
    pub(crate) steps: Vec<Step<'p, 'm>>,
    pub(crate) goal: Goal<'p, 'm>,
}

/// The opening of a normal form, with the rest after it.
#[derive(Drop)]
pub(crate) enum Opening<'p, 'm> {
    Constant(bool),
    Variable(u32),
    /// Both of two, or one of them.
    Joined(bool, Task<'p, 'm>, Task<'p, 'm>),
    /// Each step by an action of a set, or some step.
    Step(bool, u32, Task<'p, 'm>),
    /// Each path along any number of times, or some path.
    Star(bool, Way<'p, 'm>, Task<'p, 'm>),
    /// A greatest fixpoint, or a least one.
    Binding(bool, Place<'p, 'm>),
    /// `inevitably f`, or its negation.
    Inevitably(Place<'p, 'm>),
    /// `will A`, or its negation, by the set of all other actions.
    Will(bool, u32),
}

/// The result of a look at a formula's mark: its opening, or otherwise the entry that it names, or its parts.
#[derive(Drop)]
pub(crate) enum Found<'p, 'm> {
    Opening(Opening<'p, 'm>),
    Entry(usize),
    Parts(Parts<'p, 'm>),
}

/// An item that is still to be written.
#[derive(Drop)]
pub(crate) enum Item<'p, 'm> {
    Symbol(Symbol),
    Task(Task<'p, 'm>),
}
