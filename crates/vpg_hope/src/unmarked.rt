//! The vertices that a change of known features leaves as they were, in both hopeful games.
ghost use Rattle.std.specs.Prelude.{◌≡◌, IfOk, length};
ghost use Rattle.vpg_game.specs.Game.{graph_of};
ghost use Rattle.vpg_game.specs.Guarded.{dual};
ghost use Rattle.vpg_guards.specs.Known.{kleene};
ghost use Rattle.vpg_hope.specs.Hope.{hopeful_game};
ghost use Rattle.vpg_hope.specs.Unmarked.{AreSameUnmarked};

use crate::changes::concerned;
use std::alloc::{AllocError, Global};
use vpg_game::GuardedGame;
use vpg_partial::Partial;

/// Returns a mark for each vertex that names a feature with another value now. Every other vertex keeps the edges that
/// it kept, in the hopeful game and in that of the dual. More may be known than before, or less.
pub fn concerned_vertices(
    alloc: Global,
    game: &GuardedGame,
    before: &Partial,
    now: &Partial,
) -> Result<Vec<bool>, AllocError>
    requires before { length before.now ≡ game.now.features }
    requires now { length now.now ≡ game.now.features }
    ensures count { IfOk result (λ marks. length marks.items ≡ length (graph_of game.now)) }
    ensures hopeful { IfOk result
        (λ marks. AreSameUnmarked marks.items (hopeful_game (kleene before.now) (graph_of game.now))
        (hopeful_game (kleene now.now) (graph_of game.now))) }
    ensures dual { IfOk result
        (λ marks. AreSameUnmarked marks.items (hopeful_game (kleene before.now) (dual (graph_of game.now)))
        (hopeful_game (kleene now.now) (dual (graph_of game.now)))) }
{
    concerned(alloc, game, before.values(), now.values())
}
