//! The two players.

/// Who moves at a vertex: Even wins a play whose greatest recurring priority is even.
#[derive(Clone, Copy, Debug, PartialEq, Eq)]
pub enum Player {
    Even,
    Odd,
}

impl Player {
    ghost use Rattle.std.specs.Prelude.{◌≡◌};
    ghost use Rattle.vpg_sides.specs.Players.{opponent};

    /// Returns the other player.
    pub fn opponent(self) -> Player
        ensures { result ≡ opponent self }
    {
        match self {
            Player::Even => Player::Odd,
            Player::Odd => Player::Even,
        }
    }
}
