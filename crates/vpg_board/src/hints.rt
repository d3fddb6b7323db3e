//! Hints: vertices that lifters pass to one another, since a vertex that they keep an edge to was raised.

ghost use Rattle.std.specs.Prelude.{◌<◌, ℕ, All, IfSome, length};
ghost use Rattle.vpg_board.specs.Hints.{IsHint};
ghost use Rattle.vpg_board.specs.Chains.{LeadFrom};

use crate::predecessors::Chains;
use crossbeam_deque::protocol::{Outcome, Protocol};
use crossbeam_deque::{Steal, Stealer, Worker};
use std::alloc::{AllocError, Global};
use std::marker::{Brand, PhantomData};
use vpg_sides::Which;

/// The number of hints that a lifter's own row has room for at first.
const FIRST_ROOM: usize = 64;

/// The greatest number of hints that a lifter keeps. Further ones are left out: the next sweep comes to their vertices
/// anyway.
const MOST_HELD: u64 = 4096;

/// The number of vertices of a sweep's game. Each sweep picks it.
pub(crate) trait Vertices {
    ghost vertices: { ℕ };
}

impl Vertices for Brand {
    ghost vertices = { 0 };
}

/// The rule of a lifter's hints: each names a vertex of the game.
pub(crate) struct InGame<J> {
    of: PhantomData<J>,
}

impl<J: Vertices> Protocol<(Which, u32), ()> for InGame<J> {
    ghost use Rattle.std.specs.Prelude.{All};
    ghost use Rattle.vpg_board.specs.Hints.{IsHint};

    ghost holds = { λ items _. All (IsHint J.vertices) items };

    ghost first = { tt };

    ghost guest = { tt };
}

impl<J: Vertices> Outcome<(Which, u32), ()> for InGame<J> {
    ghost use Rattle.std.specs.Prelude.{All};
    ghost use Rattle.vpg_board.specs.Hints.{IsHint};

    ghost then = { λ _ xs _. All (IsHint J.vertices) xs };
}

pub(crate) type Own<J> = Worker<(Which, u32), Global, (), InGame<J>>;

pub(crate) type Other<J> = Stealer<(Which, u32), Global, (), InGame<J>>;

/// A lifter's own hints, and those of one other. If there was no memory for them, there are none.
pub(crate) struct Hints<J: Vertices> {
    own: Option<Own<J>>,
    // the greatest number of its own that there may be
    held: u64,
    other: Option<Other<J>>,
}

// Not derived: a derived `drop` would be proved again at each exit that owns such a value.
impl<J: Vertices> Drop for Hints<J> {
    fn drop(self) {
        let Hints {
            own: _,
            held: _,
            other: _,
        } = self;
    }
}

// A hint of one's own.
fn pop<J: Vertices>(own: &mut Own<J>) -> Option<(Which, u32)>
    ensures { IfSome result (IsHint J.vertices) }
{
    own.pop_as::<InGame<J>>()
}

// A hint of another lifter.
fn steal<J: Vertices>(other: &Other<J>) -> Option<(Which, u32)>
    ensures { IfSome result (IsHint J.vertices) }
{
    let mut pass = other.pass();
    match other.steal_as::<InGame<J>>(&mut pass) {
        Steal::Success(hint) => Some(hint),
        Steal::Empty | Steal::Retry => None,
    }
}

// The handle by which one more lifter takes from the last of these.
fn from_last<J: Vertices>(crew: &[Hints<J>]) -> Option<Other<J>> {
    match crew.last() {
        Some(hints) => hints.for_another(),
        None => None,
    }
}

/// Returns hints for this many lifters, fewer if there is no memory. Each takes from the one before it, and the first
/// from the last.
pub(crate) fn hints_of<J: Vertices>(alloc: Global, lifters: u32) -> Vec<Hints<J>> {
    let mut crew = Vec::new(alloc);
    for _ in 0..lifters {
        let other = from_last(&crew);
        if crew.push(Hints::beside(alloc, other)).is_err() {
            return crew;
        }
    }
    if lifters > 1 {
        let last = from_last(&crew);
        if let Some(first) = crew.first_mut() {
            first.take_from(last);
        }
    }
    crew
}

/// Returns the next lifter's hints, or none if none are left.
pub(crate) fn next_hints<J: Vertices>(crew: &mut Vec<Hints<J>>) -> Hints<J> {
    match crew.pop() {
        Some(hints) => hints,
        None => Hints::none(),
    }
}

impl<J: Vertices> Hints<J> {
    /// Returns hints with no room for any.
    pub(crate) fn none() -> Hints<J> {
        Hints {
            own: None,
            held: 0,
            other: None,
        }
    }

    /// Returns hints of its own, with those of another lifter.
    pub(crate) fn beside(alloc: Global, other: Option<Other<J>>) -> Hints<J> {
        Hints {
            own: Worker::lifo_as(alloc, FIRST_ROOM).ok(),
            held: 0,
            other,
        }
    }

    /// Returns the handle by which another lifter takes from these.
    pub(crate) fn for_another(&self) -> Option<Other<J>> {
        self.own.as_ref()?.stealer().ok()
    }

    /// Takes from this other one from now on.
    pub(crate) fn take_from(&mut self, other: Option<Other<J>>) {
        self.other = other;
    }

    // Adds a hint at a vertex. If there is no memory, or many are held, the hint is left out.
    fn give(&mut self, which: Which, v: u32)
        requires { v < J.vertices }
    {
        if self.held >= MOST_HELD {
            return;
        }
        if let Some(own) = self.own.as_mut() {
            if own.push_as::<InGame<J>>((which, v)).is_ok() {
                self.held += 1;
            }
        }
    }

    /// Adds hints at all vertices that keep an edge to a raised vertex.
    pub(crate) fn give_all(&mut self, which: Which, edges: &Chains, v: u32)
        requires { LeadFrom J.vertices edges.now.edges.items }
    {
        let mut at = edges.last_to(v);
        for _ in 0..edges.len() {
            let Some((source, earlier)) = edges.edge_before(at) else {
                return;
            };
            self.give(which, source);
            at = earlier;
        }
    }

    // The newest hint of its own. If none is held, it costs no step.
    fn take_own(&mut self) -> Option<(Which, u32)>
        ensures { IfSome result (IsHint J.vertices) }
    {
        if self.held == 0 {
            return None;
        }
        let hint = pop(self.own.as_mut()?);
        self.held = match hint {
            Some(_) => self.held.saturating_sub(1),
            None => 0,
        };
        hint
    }

    /// Returns the newest hint of its own, or else the oldest of the other's.
    pub(crate) fn take(&mut self) -> Option<(Which, u32)>
        ensures { IfSome result (IsHint J.vertices) }
    {
        let own = self.take_own();
        if own.is_some() {
            return own;
        }
        steal(self.other.as_ref()?)
    }
}
