//! The tangles that were learnt.
use std::alloc::{AllocError, Global};
use vpg_regions::{Found, PerVertex};
use vpg_sides::Player;

/// A vertex of a tangle. If the tangle's player owns it, it chooses a move.
#[derive(Clone, Copy)]
pub(crate) struct Member {
    pub(crate) v: u32,
    pub(crate) choice: Option<u32>,
}

// Where the members and the escapes of a tangle end.
#[derive(Clone, Copy)]
struct Tangle {
    player: Player,
    members: usize,
    escapes: usize,
}

/// A tangle with this escape, and one more than the place of an earlier link of the same escape, or 0.
#[derive(Clone, Copy)]
pub(crate) struct Link {
    pub(crate) tangle: usize,
    pub(crate) earlier: usize,
}

/// Tangles: sets of vertices where a player wins each play that stays. The opponent leaves one only by its escapes.
pub(crate) struct Tangles {
    tangles: Found<Tangle>,
    members: Found<Member>,
    escapes: Found<u32>,
    // one more than the place of the last link of each vertex, or 0
    last: PerVertex<usize>,
    links: Found<Link>,
}

// Not derived: a derived `drop` would be proved again at each exit that owns such a value.
impl Drop for Tangles {
    fn drop(self) {
        let Tangles {
            tangles: _,
            members: _,
            escapes: _,
            last: _,
            links: _,
        } = self;
    }
}

// The items from one place to another.
fn between<T: Copy>(items: &[T], from: usize, to: usize) -> &[T] {
    if from <= to && to <= items.len() {
        &items[from..to]
    } else {
        &[]
    }
}

impl Tangles {
    /// Returns no tangles of a game with this many vertices.
    pub(crate) fn none(alloc: Global, vertices: u32) -> Result<Tangles, AllocError> {
        Ok(Tangles {
            tangles: Found::none(alloc),
            members: Found::none(alloc),
            escapes: Found::none(alloc),
            last: PerVertex::of(alloc, vertices, 0)?,
            links: Found::none(alloc),
        })
    }

    /// Whether a part of a tangle was left out, since memory was refused.
    pub(crate) fn is_refused(&self) -> bool {
        self.tangles.is_refused()
            || self.members.is_refused()
            || self.escapes.is_refused()
            || self.links.is_refused()
    }

    // The ends of the tangle before this one.
    fn before(&self, tangle: usize) -> (usize, usize) {
        match tangle.checked_sub(1) {
            Some(earlier) => match self.tangles.get(earlier) {
                Some(ends) => (ends.members, ends.escapes),
                None => (0, 0),
            },
            None => (0, 0),
        }
    }

    /// Adds the tangle of a player with these members and escapes.
    pub(crate) fn add(&mut self, player: Player, members: &[Member], escapes: &[u32]) {
        for member in members {
            self.members.add(*member);
        }
        self.link_all(escapes);
        self.tangles.add(Tangle {
            player,
            members: self.members.len(),
            escapes: self.escapes.len(),
        });
    }

    // Links the escapes of the tangle that comes next.
    fn link_all(&mut self, escapes: &[u32]) {
        let tangle = self.tangles.len();
        for v in escapes {
            self.escapes.add(*v);
            let earlier = self.last.get(*v);
            self.links.add(Link { tangle, earlier });
            self.last.set(*v, self.links.len());
        }
    }

    /// Returns the number of links.
    pub(crate) fn links(&self) -> usize {
        self.links.len()
    }

    /// Returns one more than the place of the last link of a vertex, or 0.
    pub(crate) fn last_of(&self, v: u32) -> usize {
        self.last.get(v)
    }

    /// Returns the link before this place.
    pub(crate) fn link_before(&self, place: usize) -> Option<Link> {
        self.links.get(place.checked_sub(1)?)
    }

    /// Whether a tangle is this player's.
    pub(crate) fn is_of(&self, tangle: usize, player: Player) -> bool {
        match self.tangles.get(tangle) {
            Some(ends) => ends.player == player,
            None => false,
        }
    }

    /// Returns the members of a tangle.
    pub(crate) fn members(&self, tangle: usize) -> &[Member] {
        let from = self.before(tangle);
        match self.tangles.get(tangle) {
            Some(ends) => between(self.members.items(), from.0, ends.members),
            None => &[],
        }
    }

    /// Returns the escapes of a tangle.
    pub(crate) fn escapes(&self, tangle: usize) -> &[u32] {
        let from = self.before(tangle);
        match self.tangles.get(tangle) {
            Some(ends) => between(self.escapes.items(), from.1, ends.escapes),
            None => &[],
        }
    }
}
