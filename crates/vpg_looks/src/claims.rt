//! Whether a vertex has the verdicts that are claimed of it.
ghost use Rattle.std.specs.Arc.{arc_value};
ghost use Rattle.std.specs.Prelude.{ℕ, ◌≡◌, ◌≤◌, ◌<◌, All, IfOk, List, length, map};
ghost use Rattle.vpg_diagram.specs.FeatureDiagram.{feature_count};
ghost use Rattle.vpg_game.specs.Game.{graph_of};
ghost use Rattle.vpg_looks.specs.Looked.{TellsClaims};
ghost use Rattle.vpg_measure.specs.Games.{ArePageGames};
ghost use Rattle.vpg_measure.specs.TwoGames.{top_for};
ghost use Rattle.vpg_partial.specs.Known.{literal_of};
ghost use Rattle.vpg_partial.specs.TableLaws.{AreChoicesOf};
ghost use Rattle.vpg_script.specs.Answer.{Gives};
ghost use Rattle.vpg_texts.specs.Scene.{scene_of};

use crate::asserting::failing;
use crate::left::{Left, left_on};
use std::alloc::{AllocError, Global};
use std::sync::Arc;
use vpg_diagram::Diagram;
use vpg_game::GuardedGame;
use vpg_measure::PageGames;
use vpg_script::{Claim, Tone};
use vpg_sides::Which;
use vpg_texts::claims_over;
use vpg_trail::Page;
use vpg_why::Limits;

/// Appends the answer to claims about a vertex, and returns its tone. They fail with `empty` if no product is left, and
/// with `unsettled` if a limit was met in the search for one. The answer is the same with names of vertices.
pub fn claimed(
    alloc: Global,
    games: &Arc<PageGames>,
    page: &Page,
    game: &Arc<GuardedGame>,
    diagram: &Arc<Diagram>,
    vertex: u32,
    claims: &[Claim],
    limits: Limits,
    out: &mut Vec<u8>,
) -> Result<Tone, AllocError>
    requires vertex { vertex < length (arc_value game.now).vertices }
    requires features { (arc_value game.now).features ≡ feature_count (arc_value diagram.now).lines }
    requires games { ArePageGames (arc_value game.now) (arc_value diagram.now) (map literal_of page.now.decisions)
        (arc_value games.now) }
    requires named { AreChoicesOf (arc_value diagram.now).lines (map literal_of page.now.decisions) }
    requires hopeful { length page.now.hopeful ≡ length (arc_value game.now).vertices }
    requires dual { length page.now.dual ≡ length (arc_value game.now).vertices }
    requires hopeful_within { All (λ n. n ≤ top_for Which.Hopeful (graph_of (arc_value game.now))) page.now.hopeful }
    requires dual_within { All (λ n. n ≤ top_for Which.Dual (graph_of (arc_value game.now))) page.now.dual }
    ensures { (names : List (List ℕ)) → IfOk result (λ tone. Gives
        (TellsClaims (scene_of names (arc_value game.now) (arc_value diagram.now)) limits vertex claims.now
        page.now.decisions page.now.hopeful page.now.dual) tone out.old.items out.new.items) }
{
    let decisions = page.decisions.as_slice();
    let left = left_on(alloc, games, game, diagram, decisions, limits)?;
    match left {
        Left::Product => claims_over(alloc, games, page, game, diagram, vertex, claims, out),
        Left::Nothing => failing(b"empty", out),
        Left::Unsettled => failing(b"unsettled", out),
    }
}
