//! The winners for all products of a set, by decision diagrams.
ghost use Rattle.std.specs.Prelude.{◌≡◌, ◌<◌, ◌≤◌, ◌⊎◌, IfOk, IfSome, IfNone, length};
ghost use Rattle.vpg_game.specs.Game.{graph_of};
ghost use Rattle.vpg_sets.specs.Sets.{IsGrown, IsInside};
ghost use Rattle.vpg_zielonka.specs.Stops.{IsFull};
ghost use Rattle.vpg_zielonka.specs.Universes.{node_of};
ghost use Rattle.vpg_zielonka.specs.Winners.{IsDivided};

use crate::solving::solve_from;
use crate::stop::Stop;
use crate::subset::Subset;
use crate::universe::Universe;
use crate::winners::{Division, Shares};
use std::alloc::{AllocError, Global};
use vpg_game::GuardedGame;
use vpg_sets::{Set, Sets};

/// The sets of a solution, and who wins where if it was found.
#[derive(Drop)]
pub struct Solved {
    /// The sets that were passed, and those that were made.
    pub sets: Sets,
    /// The products that each player wins. Absent if a limit was met.
    pub division: Option<Division>,
}

/// Returns the sets that are nodes of the shares.
fn division_of(shares: Shares) -> Division
    ensures won { result.won ≡ node_of shares.won }
    ensures lost { result.lost ≡ node_of shares.lost }
{
    Division {
        won: shares.won.node(),
        lost: shares.lost.node(),
    }
}

/// Returns in which of the products of a set Even wins from a vertex, and in which Odd does. Each product of the set is
/// in one of the two. Only vertices that plays from this one can come to are solved.
///
/// The sets are taken, and returned with those that were made. The division is `None` if the arena of the sets is full,
/// or if the steps do not suffice; `steps` counts those that are left. A round of the recursion takes a step for each
/// vertex of the game, and one more. A vertex whose edges are looked at takes 64. Out of memory is the only error.
pub fn solve(
    alloc: Global,
    sets: Sets,
    game: &GuardedGame,
    vertex: u32,
    products: Set,
    steps: &mut u64,
) -> Result<Solved, AllocError>
    requires vertex { vertex < length (graph_of game.now) }
    requires products { IsInside sets products }
    requires features { game.now.features ≡ sets.features }
    ensures grown { IfOk result (λ solved. IsGrown sets solved.sets) }
    ensures divided { IfOk result (λ solved.
        IfSome solved.division (IsDivided solved.sets (graph_of game.now) vertex products)) }
    ensures steps { steps.new ≤ steps.old }
    ensures limits { IfOk result (λ solved. IfNone solved.division (IsFull solved.sets ⊎ (steps.new ≡ 0))) }
{
    let mut universe = Universe::Diagrams(sets);
    match solve_from(
        alloc,
        &mut universe,
        game,
        vertex,
        Subset::Node(products),
        steps,
    ) {
        Ok(shares) => Ok(Solved {
            sets: universe.into_sets(),
            division: Some(division_of(shares)),
        }),
        Err(Stop::Memory) => Err(AllocError),
        Err(Stop::Full | Stop::Spent) => Ok(Solved {
            sets: universe.into_sets(),
            division: None,
        }),
    }
}
