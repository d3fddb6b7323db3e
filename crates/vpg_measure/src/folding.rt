//! The lift of a vertex from the values of its kept successors, one after another. It serves lifters that load each
//! value on its own and have no table. Definitions: `specs/Lifts`, after Jurdzinski 2000.

ghost use Rattle.std.specs.Prelude.{◌≡◌, ℕ, ◌<◌, ◌≤◌, List, [], ◌∷◌, ◌++◌, length, map, slice_index};
ghost use Rattle.vpg_game.specs.Levels.{top_of};
ghost use Rattle.vpg_hope.specs.Arena.{vertex_at};
ghost use Rattle.vpg_measure.specs.Lifts.{IsTableOf, best_for, lift_of};

use crate::shape::{Shape, prog};
use vpg_hope::Arena;
use vpg_sides::Player;

/// Returns the best of no values: the top if Even moves, 0 if Odd moves.
pub fn best_of_none(shape: &Shape, owner: Player) -> u64
    ensures { result ≡ best_for owner (top_of shape.now) [] }
{
    match owner {
        Player::Even => shape.top(),
        Player::Odd => 0,
    }
}

/// Returns the better of the best so far and one more value: the least if Even moves, the greatest if Odd moves.
pub fn better(owner: Player, best: u64, value: u64) -> u64
    ensures { (top : ℕ) (values : List ℕ) → best ≡ best_for owner top values →
        result ≡ best_for owner top (values ++ value ∷ []) }
{
    match owner {
        Player::Even => best.min(value),
        Player::Odd => best.max(value),
    }
}

/// Returns the lift of a vertex, given the best of its kept successors' values.
pub fn lift_to(shape: &Shape, arena: &Arena, v: u32, best: u64) -> u64
    requires vertex { v < length arena.now }
    requires best { best ≤ top_of shape.now }
    ensures within { result ≤ top_of shape.now }
    ensures lift { (table : List ℕ) → IsTableOf shape.now arena.now table →
        best ≡ best_for (vertex_at arena.now v).owner (top_of shape.now)
        (map (λ w. slice_index table w) (vertex_at arena.now v).successors) →
        result ≡ lift_of shape.now table (vertex_at arena.now v) }
{
    match arena.owner(v) {
        Player::Even => prog(shape, arena.priority(v), best),
        Player::Odd => {
            if arena.kept(v).is_empty() {
                0
            } else {
                prog(shape, arena.priority(v), best)
            }
        }
    }
}
