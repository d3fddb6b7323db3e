//! The edges of a vertex, each with what is known of its guard.
ghost use Rattle.std.specs.Prelude.{◌≡◌, ◌<◌, ◌∷◌, ◌++◌, IfOk, OnOk, flat_map, length, map};
ghost use Rattle.vpg_looks.specs.Edges.{TellsEdges, edge_line, edges_text};
ghost use Rattle.vpg_game.specs.Game.{graph_of, vertex_ids, vertex_in};
ghost use Rattle.vpg_guards.specs.Formula.{IsBelow};
ghost use Rattle.vpg_partial.specs.Known.{literal_of};
ghost use Rattle.vpg_partial.specs.TableLaws.{IsKnownTable};
ghost use Rattle.vpg_script.specs.Answer.{Gives, IsDone};
ghost use Rattle.vpg_texts.specs.Scene.{scene_of};
ghost use Rattle.vpg_texts.specs.Text.{known_word};

use crate::reasons::identifier;
use std::alloc::AllocError;
use vpg_game::{Edge, VertexNames};
use vpg_guards::Tri;
use vpg_measure::Order;
use vpg_script::{Tone, done};
use vpg_texts::{blank_number, put_beside_both};

/// Returns what the order's decisions make known of each feature.
fn known(order: &Order) -> &[Tri]
    ensures table { IsKnownTable order.now.diagram.lines (map literal_of order.now.decisions) result.now }
    ensures count { length result.now ≡ order.now.game.features }
{
    // The invariant of every order, for the proof.
    let _order = order.game();
    order.games().known().values()
}

/// Appends a blank and the word for a guard's value: `in` if it is known to be true, `out` if false, else `open`.
fn word(value: Tri, out: &mut Vec<u8>) -> Result<(), AllocError>
    ensures { OnOk result (out.new.items ≡ out.old.items ++ 32 ∷ known_word value) }
{
    match value {
        Tri::Yes => out.extend_from_slice(b" in"),
        Tri::No => out.extend_from_slice(b" out"),
        Tri::Unknown => out.extend_from_slice(b" open"),
    }
}

/// Appends the line of an edge of the vertex.
fn line(
    order: &Order,
    labels: &VertexNames,
    known: &[Tri],
    vertex: u32,
    edge: &Edge,
    out: &mut Vec<u8>,
) -> Result<(), AllocError>
    requires vertex { vertex < length order.now.game.vertices }
    requires to { edge.now.to < length order.now.game.vertices }
    requires guard { IsBelow (length known.now) edge.now.guard }
    ensures { OnOk result (out.new.items ≡ out.old.items
        ++ edge_line (vertex_ids order.now.game.vertices) labels.now.names known.now vertex edge.now) }
{
    out.extend_from_slice(b"edge")?;
    blank_number(identifier(order, vertex) as u64, out)?;
    blank_number(identifier(order, edge.to) as u64, out)?;
    word(edge.guard.kleene(known), out)?;
    put_beside_both(labels.name(vertex), labels.name(edge.to), out)?;
    out.extend_from_slice(b"\n")
}

/// Appends the lines of the edges, in the order of the game.
fn each(
    order: &Order,
    labels: &VertexNames,
    known: &[Tri],
    vertex: u32,
    out: &mut Vec<u8>,
) -> Result<(), AllocError>
    requires vertex { vertex < length order.now.game.vertices }
    requires known { length known.now ≡ order.now.game.features }
    ensures { OnOk result (out.new.items ≡ out.old.items
        ++ flat_map (edge_line (vertex_ids order.now.game.vertices) labels.now.names known.now vertex)
        (vertex_in (graph_of order.now.game) vertex).edges) }
{
    let edges = order.game().edges(vertex);
    for edge in edges {
        line(order, labels, known, vertex, edge, out)?;
    }
    Ok(())
}

/// Appends the lines of the edges, and their number.
fn tell(
    order: &Order,
    labels: &VertexNames,
    known: &[Tri],
    vertex: u32,
    out: &mut Vec<u8>,
) -> Result<(), AllocError>
    requires vertex { vertex < length order.now.game.vertices }
    requires known { length known.now ≡ order.now.game.features }
    ensures { OnOk result (out.new.items ≡ out.old.items
        ++ edges_text (vertex_ids order.now.game.vertices) labels.now.names known.now vertex
        (vertex_in (graph_of order.now.game) vertex).edges) }
{
    each(order, labels, known, vertex, out)?;
    out.extend_from_slice(b"edges")?;
    blank_number(order.game().edges(vertex).len() as u64, out)?;
    out.extend_from_slice(b"\n")
}

/// Appends a line for each edge of the vertex, with what is known of its guard, and the number of edges. Returns the
/// answer's tone.
pub fn put_edges(
    order: &Order,
    labels: &VertexNames,
    vertex: u32,
    out: &mut Vec<u8>,
) -> Result<Tone, AllocError>
    requires { vertex < length order.now.game.vertices }
    ensures { IfOk result (λ tone. Gives
        (IsDone (TellsEdges (scene_of labels.now.names order.now.game order.now.diagram) vertex order.now.decisions))
        tone out.old.items out.new.items) }
{
    done(tell(order, labels, known(order), vertex, out))
}
