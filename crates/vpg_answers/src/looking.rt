//! Answers that take the page with its games.
ghost use Rattle.std.specs.Arc.{arc_value};
ghost use Rattle.std.specs.Prelude.{ℕ, ◌≡◌, ◌≤◌, ◌<◌, All, IfOk, List, Option, false, length, map};
ghost use Rattle.vpg_answers.specs.Told.{IsTold, TellsOfFeature, TellsOfPage};
ghost use Rattle.vpg_answers.specs.Topics.{IsWithin, feature_takes_order, page_takes_order, takes_order, topic_shown};
ghost use Rattle.vpg_checking.specs.Behaviours.{Behaviour};
ghost use Rattle.vpg_diagram.specs.FeatureDiagram.{feature_count};
ghost use Rattle.vpg_game.specs.Game.{graph_of};
ghost use Rattle.vpg_looks.specs.Meanings.{sight_of};
ghost use Rattle.vpg_measure.specs.Games.{ArePageGames};
ghost use Rattle.vpg_measure.specs.TwoGames.{top_for};
ghost use Rattle.vpg_partial.specs.Known.{literal_of};
ghost use Rattle.vpg_partial.specs.TableLaws.{AreChoicesOf};
ghost use Rattle.vpg_script.specs.Answer.{Gives};
ghost use Rattle.vpg_texts.specs.Scene.{EntryIsWithin, scene_of};

use crate::topic::Topic;
use std::alloc::{AllocError, Global};
use std::sync::Arc;
use vpg_diagram::Diagram;
use vpg_game::{GuardedGame, VertexNames};
use vpg_looks::{claims, counting};
use vpg_measure::PageGames;
use vpg_script::{FeatureLook, PageLook, Tone, done};
use vpg_sides::Which;
use vpg_texts::{
    draw_over, full_over, plan_answer, products, put_known, settled_over, show, trail,
    vertices_over,
};
use vpg_trail::Page;
use vpg_why::Limits;

/// Appends the answer to a look at the page as a whole, and returns its tone.
fn of_page(
    alloc: Global,
    games: &Arc<PageGames>,
    page: &Page,
    game: &Arc<GuardedGame>,
    diagram: &Arc<Diagram>,
    labels: &VertexNames,
    look: PageLook,
    limits: Limits,
    out: &mut Vec<u8>,
) -> Result<Tone, AllocError>
    requires page { page_takes_order look ≡ false }
    requires features { (arc_value game.now).features ≡ feature_count (arc_value diagram.now).lines }
    requires games { ArePageGames (arc_value game.now) (arc_value diagram.now) (map literal_of page.now.decisions)
        (arc_value games.now) }
    requires named { AreChoicesOf (arc_value diagram.now).lines (map literal_of page.now.decisions) }
    requires entries { All (EntryIsWithin (feature_count (arc_value diagram.now).lines)
        (length (arc_value game.now).vertices)) page.now.entries }
    requires hopeful { length page.now.hopeful ≡ length (arc_value game.now).vertices }
    requires dual { length page.now.dual ≡ length (arc_value game.now).vertices }
    requires hopeful_within { All (λ n. n ≤ top_for Which.Hopeful (graph_of (arc_value game.now))) page.now.hopeful }
    requires dual_within { All (λ n. n ≤ top_for Which.Dual (graph_of (arc_value game.now))) page.now.dual }
    ensures { IfOk result (λ tone. Gives
        (TellsOfPage (scene_of labels.now.names (arc_value game.now) (arc_value diagram.now)) limits look
        (sight_of page.now)) tone out.old.items out.new.items) }
{
    match look {
        PageLook::Show => done(show(alloc, games, page, game, diagram, labels, out)),
        PageLook::Trail => done(trail(alloc, page, game, diagram, labels, out)),
        PageLook::Products => done(products(alloc, games, diagram, out)),
        PageLook::Plan => plan_answer(alloc, games, page, game, diagram, labels, out),
        PageLook::Count => counting::counted(alloc, games, page, game, diagram, limits, out),
        PageLook::Draw => done(draw_over(alloc, games, page, game, diagram, labels, out)),
        PageLook::Full => full_over(alloc, games, page, game, diagram, out),
        PageLook::Settled => settled_over(alloc, games, page, game, diagram, out),
        PageLook::Forced | PageLook::Empty | PageLook::Number => unreachable!(),
    }
}

/// Appends the answer to a look at a feature, and returns its tone.
fn of_feature(
    alloc: Global,
    games: &PageGames,
    page: &Page,
    game: &GuardedGame,
    diagram: &Diagram,
    look: FeatureLook,
    feature: u16,
    out: &mut Vec<u8>,
) -> Result<Tone, AllocError>
    requires page { feature_takes_order look ≡ false }
    requires feature { feature < feature_count diagram.now.lines }
    requires games { ArePageGames game.now diagram.now (map literal_of page.now.decisions) games.now }
    ensures { (names : List (List ℕ)) (limits : Limits) → IfOk result (λ tone. Gives
        (TellsOfFeature (scene_of names game.now diagram.now) limits look feature (sight_of page.now)) tone
        out.old.items out.new.items) }
{
    match look {
        FeatureLook::Known => done(put_known(alloc, games, diagram, feature, out)),
        FeatureLook::Why | FeatureLook::Uses => unreachable!(),
    }
}

/// Appends the answer to a look at a page that takes no order, and returns its tone. It is over the games that the
/// page's decisions leave. An assertion of a vertex's verdicts fails with `empty` if no product is left, and with
/// `unsettled` if a limit was met in the search for one. The last line of `count` ends in these words.
pub fn look(
    alloc: Global,
    games: &Arc<PageGames>,
    page: &Page,
    game: &Arc<GuardedGame>,
    diagram: &Arc<Diagram>,
    labels: &VertexNames,
    topic: &Topic,
    limits: Limits,
    out: &mut Vec<u8>,
) -> Result<Tone, AllocError>
    requires page { takes_order (topic_shown topic.now) ≡ false }
    requires within { IsWithin (length (arc_value game.now).vertices) (feature_count (arc_value diagram.now).lines)
        (topic_shown topic.now) }
    requires features { (arc_value game.now).features ≡ feature_count (arc_value diagram.now).lines }
    requires games { ArePageGames (arc_value game.now) (arc_value diagram.now) (map literal_of page.now.decisions)
        (arc_value games.now) }
    requires named { AreChoicesOf (arc_value diagram.now).lines (map literal_of page.now.decisions) }
    requires entries { All (EntryIsWithin (feature_count (arc_value diagram.now).lines)
        (length (arc_value game.now).vertices)) page.now.entries }
    requires hopeful { length page.now.hopeful ≡ length (arc_value game.now).vertices }
    requires dual { length page.now.dual ≡ length (arc_value game.now).vertices }
    requires hopeful_within { All (λ n. n ≤ top_for Which.Hopeful (graph_of (arc_value game.now))) page.now.hopeful }
    requires dual_within { All (λ n. n ≤ top_for Which.Dual (graph_of (arc_value game.now))) page.now.dual }
    ensures { (behaviour : Option Behaviour) → IfOk result (λ tone. Gives
        (IsTold behaviour (scene_of labels.now.names (arc_value game.now) (arc_value diagram.now)) limits
        (topic_shown topic.now) (sight_of page.now)) tone out.old.items out.new.items) }
{
    match topic {
        Topic::OfPage(look) => of_page(
            alloc, games, page, game, diagram, labels, *look, limits, out,
        ),
        Topic::OfVertices(vertices) => {
            done(vertices_over(alloc, games, page, game, labels, vertices, out))
        }
        Topic::OfClaims(vertex, claimed) => claims::claimed(
            alloc, games, page, game, diagram, *vertex, claimed, limits, out,
        ),
        Topic::OfFeature(look, feature) => {
            of_feature(alloc, games, page, game, diagram, *look, *feature, out)
        }
        Topic::OfVertex(_, _) | Topic::OfChoice { .. } => unreachable!(),
    }
}
