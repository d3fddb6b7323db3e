//! Answers that take an order of the page, and search.
ghost use Rattle.std.specs.Prelude.{◌≡◌, ◌<◌, length, true, IfOk};
ghost use Rattle.vpg_answers.specs.Told.{IsTold, TellsOfFeature, TellsOfPage, TellsOfVertex};
ghost use Rattle.vpg_answers.specs.Topics.{HasItsSystem, IsWithin, TopicHasSystem, feature_takes_order, page_takes_order, takes_order, topic_shown};
ghost use Rattle.vpg_diagram.specs.FeatureDiagram.{feature_count};
ghost use Rattle.vpg_looks.specs.Meanings.{ordered_sight};
ghost use Rattle.vpg_script.specs.Answer.{Gives};
ghost use Rattle.vpg_texts.specs.Scene.{scene_of};

use crate::topic::Topic;
use std::alloc::{AllocError, Global};
use vpg_checking::Behaviour;
use vpg_game::VertexNames;
use vpg_looks::{
    asserting, deciding, drawing, edges, examples, losses, needs, numbers, offers, reasons,
    repairs, traces, uses, winners, winning,
};
use vpg_measure::Order;
use vpg_script::{FeatureLook, PageLook, Tone, VertexLook};
use vpg_sides::Which;
use vpg_why::{Aim, Limits};

/// Appends the answer to a look at a vertex, and returns its tone.
fn of_vertex(
    alloc: Global,
    order: &Order,
    labels: &VertexNames,
    behaviour: &Option<Behaviour>,
    look: VertexLook,
    vertex: u32,
    limits: Limits,
    out: &mut Vec<u8>,
) -> Result<Tone, AllocError>
    requires vertex { vertex < length order.now.game.vertices }
    requires system { HasItsSystem (feature_count order.now.diagram.lines) behaviour.now look }
    ensures { IfOk result (λ tone. Gives
        (TellsOfVertex behaviour.now (scene_of labels.now.names order.now.game order.now.diagram) limits look vertex
        (ordered_sight order.now.decisions order.now.hopeful order.now.dual)) tone out.old.items out.new.items) }
{
    match look {
        VertexLook::Why => reasons::vertex(alloc, order, labels, vertex, limits, out),
        VertexLook::Example(which) => {
            let aim = Aim::Won { which, vertex };
            examples::example(alloc, order, aim, limits, out)
        }
        VertexLook::Offer => offers::offers(alloc, order, vertex, limits, out),
        VertexLook::Needs => {
            let which = Which::Hopeful;
            let aim = Aim::Won { which, vertex };
            needs::forced(alloc, order, aim, limits, out)
        }
        VertexLook::Repair => repairs::repairs_at(alloc, order, labels, vertex, limits, out),
        VertexLook::Lost(which) => {
            let aim = Aim::Won { which, vertex };
            losses::loss(alloc, order, labels, aim, limits, out)
        }
        VertexLook::Moves(mover) => {
            winning::moves(alloc, order, labels, mover, vertex, limits, out)
        }
        VertexLook::Draw => drawing::part(alloc, order, labels, vertex, limits, out),
        VertexLook::Trace => traces::trace(alloc, order, labels, behaviour, vertex, limits, out),
        VertexLook::Winners => winners::partition(alloc, order, labels, vertex, limits, out),
        VertexLook::Decide => deciding::decided(alloc, order, labels, vertex, limits, out),
        VertexLook::Is(verdict) => asserting::exact(alloc, order, verdict, vertex, limits, out),
        VertexLook::Edges => edges::put_edges(order, labels, vertex, out),
    }
}

/// Appends the answer to a look at the page as a whole, and returns its tone.
fn of_page(
    alloc: Global,
    order: &Order,
    labels: &VertexNames,
    look: PageLook,
    limits: Limits,
    out: &mut Vec<u8>,
) -> Result<Tone, AllocError>
    requires { page_takes_order look ≡ true }
    ensures { IfOk result (λ tone. Gives
        (TellsOfPage (scene_of labels.now.names order.now.game order.now.diagram) limits look
        (ordered_sight order.now.decisions order.now.hopeful order.now.dual)) tone out.old.items out.new.items) }
{
    match look {
        PageLook::Forced => needs::forced(alloc, order, Aim::Any, limits, out),
        PageLook::Empty => losses::loss(alloc, order, labels, Aim::Any, limits, out),
        PageLook::Number => numbers::left(alloc, order, limits, out),
        PageLook::Show
        | PageLook::Trail
        | PageLook::Products
        | PageLook::Plan
        | PageLook::Count
        | PageLook::Draw
        | PageLook::Full
        | PageLook::Settled => unreachable!(),
    }
}

/// Appends the answer to a look at a feature, and returns its tone.
fn of_feature(
    alloc: Global,
    order: &Order,
    labels: &VertexNames,
    look: FeatureLook,
    feature: u16,
    out: &mut Vec<u8>,
) -> Result<Tone, AllocError>
    requires order { feature_takes_order look ≡ true }
    requires feature { feature < feature_count order.now.diagram.lines }
    ensures { (limits : Limits) → IfOk result (λ tone. Gives
        (TellsOfFeature (scene_of labels.now.names order.now.game order.now.diagram) limits look feature
        (ordered_sight order.now.decisions order.now.hopeful order.now.dual)) tone out.old.items out.new.items) }
{
    match look {
        FeatureLook::Why => reasons::feature(alloc, order, feature, out),
        FeatureLook::Uses => uses::put_uses(alloc, order, labels, feature, out),
        FeatureLook::Known => unreachable!(),
    }
}

/// Appends the answer to a look, and returns its tone.
fn told(
    alloc: Global,
    order: &Order,
    labels: &VertexNames,
    behaviour: &Option<Behaviour>,
    topic: &Topic,
    limits: Limits,
    out: &mut Vec<u8>,
) -> Result<Tone, AllocError>
    requires order { takes_order (topic_shown topic.now) ≡ true }
    requires within { IsWithin (length order.now.game.vertices) (feature_count order.now.diagram.lines)
        (topic_shown topic.now) }
    requires system { TopicHasSystem (feature_count order.now.diagram.lines) behaviour.now (topic_shown topic.now) }
    ensures { IfOk result (λ tone. Gives
        (IsTold behaviour.now (scene_of labels.now.names order.now.game order.now.diagram) limits
        (topic_shown topic.now) (ordered_sight order.now.decisions order.now.hopeful order.now.dual)) tone
        out.old.items out.new.items) }
{
    // The invariant of every order, for the proof.
    let _order = order.game();
    match topic {
        Topic::OfPage(look) => of_page(alloc, order, labels, *look, limits, out),
        Topic::OfVertex(look, vertex) => of_vertex(
            alloc, order, labels, behaviour, *look, *vertex, limits, out,
        ),
        Topic::OfFeature(look, feature) => {
            of_feature(alloc, order, labels, *look, *feature, out)
        }
        Topic::OfChoice { feature, value } => {
            reasons::choice(alloc, order, *feature, *value, out)
        }
        Topic::OfVertices(_) | Topic::OfClaims(_, _) => unreachable!(),
    }
}

/// Appends the answer to a look at an order's page that takes an order, and returns its tone. Lines about vertices end
/// with the names of these. The one error is out of memory; a part may have been appended then.
///
/// A trace needs the system that the order's game was made of, over the features of its diagram; no other look does.
/// The function takes the order, since dropping it costs the prover time: it is dropped only here.
pub fn answer(
    alloc: Global,
    order: Order,
    labels: &VertexNames,
    behaviour: &Option<Behaviour>,
    topic: &Topic,
    limits: Limits,
    out: &mut Vec<u8>,
) -> Result<Tone, AllocError>
    requires order { takes_order (topic_shown topic.now) ≡ true }
    requires within { IsWithin (length order.game.vertices) (feature_count order.diagram.lines)
        (topic_shown topic.now) }
    requires system { TopicHasSystem (feature_count order.diagram.lines) behaviour.now (topic_shown topic.now) }
    ensures { IfOk result (λ tone. Gives
        (IsTold behaviour.now (scene_of labels.now.names order.game order.diagram) limits (topic_shown topic.now)
        (ordered_sight order.decisions order.hopeful order.dual)) tone out.old.items out.new.items) }
{
    told(alloc, &order, labels, behaviour, topic, limits, out)
}
