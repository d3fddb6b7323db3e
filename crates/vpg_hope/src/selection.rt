//! The owners, priorities and edges that a plain game takes from a guarded one.
ghost use Rattle.std.specs.Prelude.{◌≡◌, ◌+◌, ◌<◌, ◌^◌, ◌++◌, length, All, OnOk};
ghost use Rattle.vpg_guards.specs.Formula.{IsBelow};
ghost use Rattle.vpg_guards.specs.Known.{kleene};
ghost use Rattle.vpg_guards.specs.View.{formula_of};
ghost use Rattle.vpg_hope.specs.Kept.{keeps_in_hope, features_under, owner_under, priority_under, is_kept, kept_under};

use std::alloc::AllocError;
use vpg_game::Edge;
use vpg_guards::{Guard, Tri};
use vpg_sides::Player;

/// A choice of owners, priorities and edges of a guarded game, with the values of the features that decide its guards.
#[derive(Clone, Copy)]
pub enum Selection<'a> {
    /// The hopeful game, by what is known.
    Hopeful(&'a [Tri]),
    /// The hopeful game of the dual, by what is known.
    HopefulOfDual(&'a [Tri]),
    /// The cautious game, by what is known.
    Cautious(&'a [Tri]),
    /// The cautious game of the dual, by what is known.
    CautiousOfDual(&'a [Tri]),
    /// The game of a product.
    Product(&'a [bool]),
}

/// Whether a vertex of this owner keeps an edge with this value of its guard: Even's unless it is no, Odd's if it is
/// yes.
fn keeps_in_hope(owner: Player, value: Tri) -> bool
    ensures { result ≡ keeps_in_hope owner value }
{
    match owner {
        Player::Even => value != Tri::No,
        Player::Odd => value == Tri::Yes,
    }
}

/// Returns the value of a guard, by what is known: most edges have the guard that is always true.
fn value(guard: &Guard, known: &[Tri]) -> Tri
    requires { IsBelow (length known.now) (formula_of guard.now) }
    ensures { result ≡ kleene known.now (formula_of guard.now) }
{
    match guard {
        Guard::Always => Tri::Yes,
        _ => guard.kleene(known),
    }
}

impl Selection<'_> {
    /// Returns who moves in the plain game, if this player moves in the guarded one.
    pub fn owner(self, owner: Player) -> Player
        ensures { result ≡ owner_under self.entry owner }
    {
        match self {
            Selection::Hopeful(_) | Selection::Cautious(_) | Selection::Product(_) => owner,
            Selection::HopefulOfDual(_) | Selection::CautiousOfDual(_) => owner.opponent(),
        }
    }

    /// Returns the priority in the plain game.
    pub fn priority(self, priority: u32) -> u32
        requires { priority + 1 < 2 ^ 32 }
        ensures { result ≡ priority_under self.entry priority }
    {
        match self {
            Selection::Hopeful(_) | Selection::Cautious(_) | Selection::Product(_) => priority,
            Selection::HopefulOfDual(_) | Selection::CautiousOfDual(_) => priority + 1,
        }
    }

    /// Whether an edge from a vertex of this owner stays.
    fn keeps(self, owner: Player, guard: &Guard) -> bool
        requires { IsBelow (features_under self) (formula_of guard.now) }
        ensures { result ≡ is_kept self.entry owner (formula_of guard.now) }
    {
        match self {
            Selection::Hopeful(known) | Selection::CautiousOfDual(known) => {
                keeps_in_hope(owner, value(guard, known))
            }
            Selection::HopefulOfDual(known) | Selection::Cautious(known) => {
                keeps_in_hope(owner.opponent(), value(guard, known))
            }
            Selection::Product(set) => guard.eval(set),
        }
    }

    /// Adds the targets of the edges that stay.
    pub fn push_kept(
        self,
        successors: &mut Vec<u32>,
        owner: Player,
        edges: &[Edge],
    ) -> Result<(), AllocError>
        requires { All (λ edge. IsBelow (features_under self) edge.guard) edges.now }
        ensures { OnOk result (successors.new.items ≡ successors.old.items ++ kept_under self.entry owner edges.now) }
    {
        for edge in edges {
            if self.keeps(owner, &edge.guard) {
                successors.push(edge.to)?;
            }
        }
        Ok(())
    }
}
