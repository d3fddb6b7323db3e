//! The edges whose guard names a feature.
ghost use Rattle.std.specs.Prelude.{◌≡◌, ◌<◌, ◌++◌, All, IfOk, OnOk, flat_map, length};
ghost use Rattle.vpg_game.specs.Game.{graph_of, vertex_ids, vertex_in};
ghost use Rattle.vpg_guards.specs.View.{formula_of};
ghost use Rattle.vpg_looks.specs.Uses.{IsInside, TellsUses, is_named, use_at, use_line, uses_below, uses_text};
ghost use Rattle.vpg_script.specs.Answer.{Gives, IsDone};
ghost use Rattle.vpg_texts.specs.Scene.{scene_of};

use crate::reasons::identifier;
use std::alloc::{AllocError, Global};
use vpg_game::{Edge, VertexNames};
use vpg_guards::Guard;
use vpg_measure::Order;
use vpg_script::{Tone, done};
use vpg_texts::{blank_number, put_beside_both};

/// An edge whose guard names the feature, by its vertex and its successor.
#[derive(Clone, Copy)]
pub(crate) struct Used {
    vertex: u32,
    to: u32,
}

/// Whether the guard names the feature.
fn is_named(alloc: Global, guard: &Guard, feature: u16) -> Result<bool, AllocError>
    ensures { IfOk result (λ is. is ≡ is_named feature (formula_of guard.now)) }
{
    let mut named = Vec::new(alloc);
    guard.push_features(&mut named)?;
    Ok(named.iter().any(|f| *f == feature))
}

/// Adds an edge of the vertex, if its guard names the feature.
fn add_edge(
    alloc: Global,
    feature: u16,
    vertex: u32,
    edge: &Edge,
    listed: &mut Vec<Used>,
) -> Result<(), AllocError>
    ensures { OnOk result (listed.new.items ≡ listed.old.items ++ use_at feature vertex edge.now) }
{
    if !is_named(alloc, &edge.guard, feature)? {
        return Ok(());
    }
    listed.push(Used {
        vertex,
        to: edge.to,
    })?;
    Ok(())
}

/// Adds the edges of the vertex whose guard names the feature, in the order of the game.
fn add_vertex(
    alloc: Global,
    order: &Order,
    feature: u16,
    vertex: u32,
    listed: &mut Vec<Used>,
) -> Result<(), AllocError>
    requires { vertex < length order.now.game.vertices }
    ensures { OnOk result (listed.new.items ≡ listed.old.items
        ++ flat_map (use_at feature vertex) (vertex_in (graph_of order.now.game) vertex).edges) }
{
    let edges = order.game().edges(vertex);
    for edge in edges {
        add_edge(alloc, feature, vertex, edge, listed)?;
    }
    Ok(())
}

/// Returns the edges whose guard names the feature, in the order of the game.
fn list(alloc: Global, order: &Order, feature: u16) -> Result<Vec<Used>, AllocError>
    ensures uses { IfOk result (λ listed. listed.items ≡
        uses_below (graph_of order.now.game) feature (length (graph_of order.now.game))) }
    ensures inside { IfOk result (λ listed. All (IsInside (length order.now.game.vertices)) listed.items) }
{
    let count = order.game().vertices() as u32;
    let mut listed = Vec::new(alloc);
    for v in 0..count {
        add_vertex(alloc, order, feature, v, &mut listed)?;
    }
    Ok(listed)
}

/// Appends the line of an edge.
fn line(
    order: &Order,
    labels: &VertexNames,
    used: Used,
    out: &mut Vec<u8>,
) -> Result<(), AllocError>
    requires { IsInside (length order.now.game.vertices) used }
    ensures { OnOk result (out.new.items ≡ out.old.items
        ++ use_line (vertex_ids order.now.game.vertices) labels.now.names used) }
{
    out.extend_from_slice(b"use")?;
    blank_number(identifier(order, used.vertex) as u64, out)?;
    blank_number(identifier(order, used.to) as u64, out)?;
    put_beside_both(labels.name(used.vertex), labels.name(used.to), out)?;
    out.extend_from_slice(b"\n")
}

/// Appends the lines of the edges.
fn lines(
    order: &Order,
    labels: &VertexNames,
    listed: &[Used],
    out: &mut Vec<u8>,
) -> Result<(), AllocError>
    requires { All (IsInside (length order.now.game.vertices)) listed.now }
    ensures { OnOk result (out.new.items ≡ out.old.items
        ++ flat_map (use_line (vertex_ids order.now.game.vertices) labels.now.names) listed.now) }
{
    for used in listed {
        line(order, labels, *used, out)?;
    }
    Ok(())
}

/// Appends the lines of the edges, and their number.
fn tell(
    order: &Order,
    labels: &VertexNames,
    listed: &[Used],
    out: &mut Vec<u8>,
) -> Result<(), AllocError>
    requires { All (IsInside (length order.now.game.vertices)) listed.now }
    ensures { OnOk result (out.new.items ≡ out.old.items
        ++ uses_text (vertex_ids order.now.game.vertices) labels.now.names listed.now) }
{
    lines(order, labels, listed, out)?;
    out.extend_from_slice(b"uses")?;
    blank_number(listed.len() as u64, out)?;
    out.extend_from_slice(b"\n")
}

/// Appends a line for each edge whose guard names the feature, and the number of these edges. Returns the answer's
/// tone.
pub fn put_uses(
    alloc: Global,
    order: &Order,
    labels: &VertexNames,
    feature: u16,
    out: &mut Vec<u8>,
) -> Result<Tone, AllocError>
    ensures { IfOk result (λ tone. Gives
        (IsDone (TellsUses (scene_of labels.now.names order.now.game order.now.diagram) feature)) tone
        out.old.items out.new.items) }
{
    let listed = list(alloc, order, feature)?;
    done(tell(order, labels, &listed, out))
}
