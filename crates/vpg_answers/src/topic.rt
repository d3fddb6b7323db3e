//! Looks by places in the game and the diagram.
ghost use Rattle.std.specs.Prelude.{[], ◌≡◌, ◌<◌, All, IfOk, IfSome, length, map, option_map};
ghost use Rattle.vpg_answers.specs.Topics.{IsWithin, TopicHasSystem, found_shown, is_answerable, is_over, places_of, takes_order, topic_if, topic_of, topic_shown};
ghost use Rattle.vpg_features.specs.Names.{index_of};
ghost use Rattle.vpg_game.specs.Game.{vertex_ids};
ghost use Rattle.vpg_script.specs.View.{look_shown, vertex_shown};
ghost use Rattle.vpg_texts.specs.Scene.{scene_of};
ghost use Rattle.vpg_texts.specs.Sights.{vertex_of};

use std::alloc::{AllocError, Global};
use thiserror::Error;
use vpg_checking::Behaviour;
use vpg_diagram::Diagram;
use vpg_features::Names;
use vpg_game::GuardedGame;
use vpg_script::{Claim, FeatureLook, Look, PageLook, Vertex, VertexLook};
use vpg_texts::vertex_at;

/// A look at the page. Vertices and features stand by their places in the game and in the diagram.
#[derive(Drop)]
pub enum Topic {
    /// At the page as a whole.
    OfPage(PageLook),
    /// At a vertex.
    OfVertex(VertexLook, u32),
    /// At the verdicts of some vertices.
    OfVertices(Vec<u32>),
    /// Whether a vertex has these verdicts.
    OfClaims(u32, Vec<Claim>),
    /// At a feature.
    OfFeature(FeatureLook, u16),
    /// Why one more decision, that the feature is in, or out, contradicts the page.
    OfChoice { feature: u16, value: bool },
}

/// The reason why a look is refused: no such vertex, no such feature, or no system to trace.
#[derive(Clone, Copy, Debug, Error)]
pub enum Missing {
    #[error("NoVertex")]
    Vertex,
    #[error("UnknownFeature")]
    Feature,
    #[error("NoSystem")]
    System,
}

fn feature_at(names: &Names, name: &[u8]) -> Option<u16>
    ensures feature { result ≡ index_of names.now name.now }
    ensures within { IfSome result (λ f. f < length names.now) }
{
    names.get(name)
}

/// Whether there is a system over this number of features.
fn is_over(features: usize, behaviour: &Option<Behaviour>) -> bool
    ensures { result ≡ is_over features behaviour.now }
{
    match behaviour {
        Some(behaviour) => behaviour.features() == features,
        None => false,
    }
}

/// Whether what a look needs beside the family is there: a trace needs a system.
fn is_answerable(behaviour: &Option<Behaviour>, diagram: &Diagram, look: VertexLook) -> bool
    ensures { result ≡ is_answerable (length diagram.now.names) behaviour.now look }
{
    match look {
        VertexLook::Trace => is_over(diagram.names().len(), behaviour),
        _ => true,
    }
}

/// Returns the look at a vertex, or what it needs that isn't there.
#[tactic(auto, using(crate::proofs::Topics::asked_if, crate::proofs::Topics::has_system))]
fn of_vertex(
    behaviour: &Option<Behaviour>,
    game: &GuardedGame,
    diagram: &Diagram,
    look: VertexLook,
    named: Vertex<'_>,
) -> Result<Topic, Missing>
    ensures topic { found_shown result ≡ topic_if (is_answerable (length diagram.now.names) behaviour.now look) look
        (vertex_of (vertex_ids game.now.vertices) (vertex_shown named.entry)) }
    ensures within { IfOk result
        (λ topic. IsWithin (length game.now.vertices) (length diagram.now.names) (topic_shown topic)) }
    ensures system { IfOk result
        (λ topic. TopicHasSystem (length diagram.now.names) behaviour.now (topic_shown topic)) }
{
    if is_answerable(behaviour, diagram, look) {
        match vertex_at(game, named) {
            Some(vertex) => Ok(Topic::OfVertex(look, vertex)),
            None => Err(Missing::Vertex),
        }
    } else {
        Err(Missing::System)
    }
}

/// Returns the places of vertices that a line names, if the game has each.
fn places(
    alloc: Global,
    game: &GuardedGame,
    vertices: &[Vertex<'_>],
) -> Result<Option<Vec<u32>>, AllocError>
    ensures places { IfOk result (λ found. option_map (λ places. places.items) found
        ≡ places_of (vertex_ids game.now.vertices) (map vertex_shown vertices.now)) }
    ensures within { IfOk result (λ found. IfSome found
        (λ places. All (λ v. v < length game.now.vertices) places.items)) }
{
    let mut places = Vec::new(alloc);
    for vertex in vertices {
        let Some(place) = vertex_at(game, *vertex) else {
            return Ok(None);
        };
        places.push(place)?;
    }
    Ok(Some(places))
}

/// Returns the look by places in the game and the diagram; or what is missing for it. This is decided here alone. First
/// of all a trace is refused without a system over the diagram's features.
pub fn topic_of(
    alloc: Global,
    behaviour: &Option<Behaviour>,
    game: &GuardedGame,
    diagram: &Diagram,
    look: &Look<'_>,
) -> Result<Result<Topic, Missing>, AllocError>
    ensures topic { IfOk result (λ found. found_shown found
        ≡ topic_of behaviour.now (scene_of [] game.now diagram.now) (look_shown look.now)) }
    ensures within { IfOk result (λ found. IfOk found
        (λ topic. IsWithin (length game.now.vertices) (length diagram.now.names) (topic_shown topic))) }
    ensures system { IfOk result (λ found. IfOk found
        (λ topic. TopicHasSystem (length diagram.now.names) behaviour.now (topic_shown topic))) }
{
    match look {
        Look::OfPage(what) => Ok(Ok(Topic::OfPage(*what))),
        Look::OfVertex(what, named) => Ok(of_vertex(behaviour, game, diagram, *what, *named)),
        Look::OfVertices(named) => match places(alloc, game, named)? {
            Some(vertices) => Ok(Ok(Topic::OfVertices(vertices))),
            None => Ok(Err(Missing::Vertex)),
        },
        Look::OfClaims(named, claims) => match vertex_at(game, *named) {
            Some(vertex) => Ok(Ok(Topic::OfClaims(vertex, Vec::from_slice(alloc, claims)?))),
            None => Ok(Err(Missing::Vertex)),
        },
        Look::OfFeature(what, name) => match feature_at(diagram.names(), *name) {
            Some(feature) => Ok(Ok(Topic::OfFeature(*what, feature))),
            None => Ok(Err(Missing::Feature)),
        },
        Look::OfChoice(value, name) => match feature_at(diagram.names(), *name) {
            Some(feature) => Ok(Ok(Topic::OfChoice {
                feature,
                value: *value,
            })),
            None => Ok(Err(Missing::Feature)),
        },
    }
}

/// Whether a look's answer takes an order, and searches. Else it takes the page with its games.
pub fn takes_order(topic: &Topic) -> bool
    ensures { result ≡ takes_order (topic_shown topic.now) }
{
    match topic {
        Topic::OfPage(PageLook::Forced | PageLook::Empty | PageLook::Number)
        | Topic::OfVertex(_, _)
        | Topic::OfFeature(FeatureLook::Why | FeatureLook::Uses, _)
        | Topic::OfChoice { .. } => true,
        Topic::OfPage(_)
        | Topic::OfVertices(_)
        | Topic::OfClaims(_, _)
        | Topic::OfFeature(FeatureLook::Known, _) => false,
    }
}
