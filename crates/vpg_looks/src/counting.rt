//! The counts of a page, with a mark if no product is left.
ghost use Rattle.std.specs.Arc.{arc_value};
ghost use Rattle.std.specs.Prelude.{ℕ, ◌≡◌, ◌≤◌, All, IfOk, List, length, map};
ghost use Rattle.vpg_diagram.specs.FeatureDiagram.{feature_count};
ghost use Rattle.vpg_game.specs.Game.{graph_of};
ghost use Rattle.vpg_looks.specs.Looked.{IsCountAnswer, left_mark};
ghost use Rattle.vpg_measure.specs.Games.{ArePageGames};
ghost use Rattle.vpg_measure.specs.TwoGames.{top_for};
ghost use Rattle.vpg_partial.specs.Known.{literal_of};
ghost use Rattle.vpg_partial.specs.TableLaws.{AreChoicesOf};
ghost use Rattle.vpg_script.specs.Answer.{Gives};
ghost use Rattle.vpg_texts.specs.Scene.{scene_of};

use crate::left::{Left, left_on};
use std::alloc::{AllocError, Global};
use std::sync::Arc;
use vpg_diagram::Diagram;
use vpg_game::GuardedGame;
use vpg_measure::PageGames;
use vpg_script::{Tone, done};
use vpg_sides::Which;
use vpg_texts::count;
use vpg_trail::Page;
use vpg_why::Limits;

/// Returns the mark at the end of the last line of `count`.
fn mark_of(left: Left) -> &'static [u8]
    ensures { result.now ≡ left_mark left }
{
    match left {
        Left::Product => b"",
        Left::Nothing => b" empty",
        Left::Unsettled => b" unsettled",
    }
}

/// Appends the counts of a page, with the mark of whether a product is left, and returns the answer's tone. The answer
/// is the same with names of vertices.
pub fn counted(
    alloc: Global,
    games: &Arc<PageGames>,
    page: &Page,
    game: &Arc<GuardedGame>,
    diagram: &Arc<Diagram>,
    limits: Limits,
    out: &mut Vec<u8>,
) -> Result<Tone, AllocError>
    requires features { (arc_value game.now).features ≡ feature_count (arc_value diagram.now).lines }
    requires games { ArePageGames (arc_value game.now) (arc_value diagram.now) (map literal_of page.now.decisions)
        (arc_value games.now) }
    requires named { AreChoicesOf (arc_value diagram.now).lines (map literal_of page.now.decisions) }
    requires hopeful { length page.now.hopeful ≡ length (arc_value game.now).vertices }
    requires dual { length page.now.dual ≡ length (arc_value game.now).vertices }
    requires hopeful_within { All (λ n. n ≤ top_for Which.Hopeful (graph_of (arc_value game.now))) page.now.hopeful }
    requires dual_within { All (λ n. n ≤ top_for Which.Dual (graph_of (arc_value game.now))) page.now.dual }
    ensures { (names : List (List ℕ)) → IfOk result (λ tone. Gives
        (IsCountAnswer (scene_of names (arc_value game.now) (arc_value diagram.now)) limits
        page.now.decisions page.now.hopeful page.now.dual) tone out.old.items out.new.items) }
{
    let decisions = page.decisions.as_slice();
    let left = left_on(alloc, games, game, diagram, decisions, limits)?;
    let mark = mark_of(left);
    done(count(alloc, games, page, game, diagram, mark, out))
}
