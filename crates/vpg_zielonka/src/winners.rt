//! The products that each player wins, for each vertex.
ghost use Rattle.std.specs.Prelude.{◌≡◌, ℕ, ◌<◌, List, Bool, false, IfOk, IfErr, length};
ghost use Rattle.vpg_sides.specs.Players.{opponent};
ghost use Rattle.vpg_zielonka.specs.Universes.{IsGrown, IsTrueFault};
ghost use Rattle.vpg_zielonka.specs.Attractors.{IsJoined};
ghost use Rattle.vpg_zielonka.specs.Parts.{AreSets, part_in, set_at};
ghost use Rattle.vpg_zielonka.specs.Winners.{sets_of, wins_in, AreWinners};

use crate::parts::{joined, same_for_all};
use crate::subset::Subset;
use crate::universe::Universe;
use std::alloc::Global;
use vpg_sets::{Set, SetsFault};
use vpg_sides::Player;

/// Products, divided by who wins in them from a vertex.
#[derive(Clone, Copy, Debug, PartialEq, Eq)]
pub struct Division {
    /// Those in which Even wins.
    pub won: Set,
    /// Those in which Odd wins.
    pub lost: Set,
}

/// Products of a universe, divided in the same way.
#[derive(Clone, Copy, Debug, PartialEq, Eq)]
pub(crate) struct Shares {
    pub(crate) won: Subset,
    pub(crate) lost: Subset,
}

/// For each vertex, in file order, the products in which Even wins from it, and those in which Odd does.
#[derive(Drop)]
pub(crate) struct Winners {
    pub(crate) won: Vec<Subset>,
    pub(crate) lost: Vec<Subset>,
}

impl Winners {
    /// Returns empty sets for both players.
    pub(crate) fn nothing(
        alloc: Global,
        sets: &Universe,
        vertices: usize,
    ) -> Result<Winners, SetsFault>
        ensures sets { IfOk result (AreWinners sets.now vertices) }
        ensures nothing { IfOk result (λ winners. (p : List Bool) (player : Player) (v : ℕ) →
            wins_in sets.now winners p player v ≡ false) }
        ensures failed { IfErr result (IsTrueFault sets.now) }
    {
        Ok(Winners {
            won: same_for_all(alloc, sets, sets.none(), vertices)?,
            lost: same_for_all(alloc, sets, sets.none(), vertices)?,
        })
    }

    /// Returns the sets that a player wins.
    pub(crate) fn of(&self, player: Player) -> &[Subset]
        ensures { result.now ≡ sets_of self.now player }
    {
        match player {
            Player::Even => &self.won,
            Player::Odd => &self.lost,
        }
    }

    /// Returns what each player wins from a vertex.
    pub(crate) fn at(&self, v: u32) -> Shares
        requires won { v < length self.now.won.items }
        requires lost { v < length self.now.lost.items }
        ensures won { result.won ≡ set_at self.now.won.items v }
        ensures lost { result.lost ≡ set_at self.now.lost.items v }
    {
        Shares {
            won: self.won[v as usize],
            lost: self.lost[v as usize],
        }
    }

    /// Adds sets to those that a player wins, vertex by vertex.
    pub(crate) fn give(
        &mut self,
        alloc: Global,
        sets: &mut Universe,
        player: Player,
        more: &[Subset],
    ) -> Result<(), SetsFault>
        requires sets { AreWinners sets.old (length more.now) self.old }
        requires more { AreSets sets.old (length more.now) more.now }
        ensures grown { IsGrown sets.old sets.new }
        ensures sets { IfOk result (λ _. AreWinners sets.new (length more.now) self.new) }
        ensures own { IfOk result (λ _. (p : List Bool) → IsJoined (wins_in sets.new self.new p player)
            (wins_in sets.old self.old p player) (part_in sets.old more.now p)) }
        ensures others { IfOk result (λ _. (p : List Bool) (v : ℕ) →
            wins_in sets.new self.new p (opponent player) v ≡ wins_in sets.old self.old p (opponent player) v) }
        ensures failed { IfErr result (IsTrueFault sets.new) }
    {
        match player {
            Player::Even => self.won = joined(alloc, sets, &self.won, more)?,
            Player::Odd => self.lost = joined(alloc, sets, &self.lost, more)?,
        }
        Ok(())
    }
}
