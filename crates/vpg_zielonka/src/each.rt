//! The winners for each of some listed products, solved 64 products at a time.
ghost use Rattle.std.specs.Prelude.{◌≡◌, ℕ, ◌+◌, ◌<◌, ◌≤◌, ◌++◌, true, false, All, IfOk, IfErr, IfSome, IfNone, OnOk, length};
ghost use Rattle.vpg_game.specs.Game.{graph_of};
ghost use Rattle.vpg_number.specs.Counted.{AreDistinct};
ghost use Rattle.vpg_zielonka.specs.Winners.{lists_of, AreWinnersOf, AreFirstWinners, ArePlayersOf, players, winner_by};
ghost use Rattle.vpg_zielonka.specs.declared.stop.Stop.{Stop};

use crate::listed::Listed;
use crate::solving::solve_from;
use crate::stop::Stop;
use crate::subset::Subset;
use crate::universe::Universe;
use std::alloc::{AllocError, Global};
use vpg_game::GuardedGame;
use vpg_sides::Player;

/// The greatest number of products that are solved at once: the bits of a word.
const AT_ONCE: usize = 64;

/// Returns Even if the word has the bit, else Odd.
fn winner_by(word: u64, place: u32) -> Player
    requires { place < 64 }
    ensures { result ≡ winner_by word place }
{
    if (word >> place) & 1 == 1 {
        Player::Even
    } else {
        Player::Odd
    }
}

/// Adds the players of the first bits of a word to a list.
fn push_players(found: &mut Vec<Player>, word: u64, count: u32) -> Result<(), AllocError>
    requires { count ≤ 64 }
    ensures { OnOk result (found.new.items ≡ found.old.items ++ players word count) }
{
    for place in 0..count {
        found.push(winner_by(word, place))?;
    }
    Ok(())
}

/// Returns the word of the products in which Even wins from the vertex, for at most 64 products.
fn won_among(
    alloc: Global,
    game: &GuardedGame,
    vertex: u32,
    products: &[Vec<bool>],
    steps: &mut u64,
) -> Result<u64, Stop>
    requires vertex { vertex < length (graph_of game.now) }
    requires few { length products.now ≤ 64 }
    requires products { All (λ p. length p.items ≡ game.now.features) products.now }
    requires distinct { AreDistinct (lists_of products.now) }
    ensures winners { IfOk result (λ word. ArePlayersOf (graph_of game.now) vertex (lists_of products.now) word) }
    ensures steps { steps.new ≤ steps.old }
    ensures full { IfErr result (λ stop. stop ≡ Stop.Full → ⊥) }
    ensures spent { IfErr result (λ stop. stop ≡ Stop.Spent → steps.new ≡ 0) }
{
    // The contract of `vertices` has what holds of every game.
    let _vertices = game.vertices();
    let listed = Listed::of(alloc, game.features() as u16, products)?;
    let all = listed.all();
    let mut universe = Universe::Listed(listed);
    let shares = solve_from(alloc, &mut universe, game, vertex, Subset::Bits(all), steps)?;
    Ok(shares.won.bits())
}

/// Adds the winners of the next products, 64 or those that are left.
fn push_next(
    alloc: Global,
    game: &GuardedGame,
    vertex: u32,
    products: &[Vec<bool>],
    found: &mut Vec<Player>,
    steps: &mut u64,
) -> Result<(), Stop>
    requires vertex { vertex < length (graph_of game.now) }
    requires products { All (λ p. length p.items ≡ game.now.features) products.now }
    requires distinct { AreDistinct (lists_of products.now) }
    requires left { length found.old.items < length products.now }
    requires found { AreFirstWinners (graph_of game.now) vertex (lists_of products.now) found.old.items }
    ensures more { IfOk result (λ _. length found.old.items < length found.new.items) }
    ensures found { IfOk result
        (λ _. AreFirstWinners (graph_of game.now) vertex (lists_of products.now) found.new.items) }
    ensures steps { steps.new ≤ steps.old }
    ensures full { IfErr result (λ stop. stop ≡ Stop.Full → ⊥) }
    ensures spent { IfErr result (λ stop. stop ≡ Stop.Spent → steps.new ≡ 0) }
{
    let start = found.len();
    let count = (products.len() - start).min(AT_ONCE);
    let won = won_among(alloc, game, vertex, &products[start..start + count], steps)?;
    push_players(found, won, count as u32)?;
    Ok(())
}

/// Returns for each of the products, in order, the player that wins from the vertex. The products are distinct, and
/// each has a value for each feature of the game.
///
/// Returns `None` if the steps do not suffice; `steps` counts those that are left. The products are solved 64 at a
/// time. A round of the recursion takes a step for each vertex of the game, and one more. A vertex whose edges are
/// looked at takes one. Out of memory is the only error.
pub fn winners_of(
    alloc: Global,
    game: &GuardedGame,
    vertex: u32,
    products: &[Vec<bool>],
    steps: &mut u64,
) -> Result<Option<Vec<Player>>, AllocError>
    requires vertex { vertex < length (graph_of game.now) }
    requires products { All (λ p. length p.items ≡ game.now.features) products.now }
    requires distinct { AreDistinct (lists_of products.now) }
    ensures winners { IfOk result (λ found. IfSome found
        (λ winners. AreWinnersOf (graph_of game.now) vertex (lists_of products.now) winners.items)) }
    ensures steps { steps.new ≤ steps.old }
    ensures limits { IfOk result (λ found. IfNone found (steps.new ≡ 0)) }
{
    let mut found = Vec::with_capacity(alloc, products.len())?;
    while found.len() < products.len() {
        match push_next(alloc, game, vertex, products, &mut found, steps) {
            Ok(()) => {}
            Err(Stop::Memory) => return Err(AllocError),
            Err(Stop::Full | Stop::Spent) => return Ok(None),
        }
    }
    Ok(Some(found))
}
