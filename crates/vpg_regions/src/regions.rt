//! The winners of a game, as they are guessed.
use crate::per_vertex::{Choices, PerVertex};
use vpg_sides::Player;

/// The guessed winner of each vertex, and the winner's choices.
pub struct Regions {
    winner: PerVertex<Option<Player>>,
    pub choice: Choices,
}

// Not derived: a derived `drop` would be proved again at each exit that owns such a value.
impl Drop for Regions {
    fn drop(self) {
        let Regions {
            winner: _,
            choice: _,
        } = self;
    }
}

impl Regions {
    /// Returns the regions with these winners and choices.
    pub fn of(winner: PerVertex<Option<Player>>, choice: Choices) -> Regions {
        Regions { winner, choice }
    }

    /// Returns the winner, if the budget sufficed.
    pub fn winner(&self, v: u32) -> Option<Player> {
        self.winner.get(v)
    }

    /// Returns the winner's choice at a vertex of its own.
    pub fn choice(&self, v: u32) -> Option<u32> {
        self.choice.get(v)
    }
}
