//! The picture of a game on a page.
ghost use Rattle.std.specs.Prelude.{◌≡◌, ◌<◌, ◌++◌, All, OnOk, OnErr, length, map, slice_index, slice_index_or, []};
ghost use Rattle.vpg_guards.specs.Formula.{IsBelow};
ghost use Rattle.vpg_guards.specs.Known.{kleene};
ghost use Rattle.vpg_guards.specs.View.{formula_of};
ghost use Rattle.vpg_game.specs.Game.{vertex_ids, no_vertex};
ghost use Rattle.vpg_partial.specs.Known.{literal_of};
ghost use Rattle.vpg_draw.specs.GameDrawing.{shape_text, colours_text, name_line, vertex_start, vertex_text, no_verdict, vertices_text, style_text, guard_label, edge_start, edge_text, edges_text, all_edges_text, opening_text, defaults_text, heading_text, game_drawing};

use crate::labels::{choices, number, wrapped};
use std::alloc::{AllocError, Global};
use vpg_features::Names;
use vpg_game::{Edge, GuardedGame, VertexNames};
use vpg_guards::{Guard, Tri};
use vpg_partial::{Decision, Partial};
use vpg_sides::{Player, Verdict};

fn shape(owner: Player, out: &mut Vec<u8>) -> Result<(), AllocError>
    ensures { OnOk result (out.new.items ≡ out.old.items ++ shape_text owner) }
{
    match owner {
        Player::Even => out.extend_from_slice(b"diamond"),
        Player::Odd => out.extend_from_slice(b"box"),
    }
}

pub(crate) fn colours(verdict: Verdict, out: &mut Vec<u8>) -> Result<(), AllocError>
    ensures { OnOk result (out.new.items ≡ out.old.items ++ colours_text verdict.hopeless verdict.sure) }
{
    match (verdict.hopeless, verdict.sure) {
        (true, _) => out.extend_from_slice(b", fillcolor=mistyrose, color=firebrick];\n"),
        (false, true) => out.extend_from_slice(b", fillcolor=honeydew, color=darkgreen];\n"),
        (false, false) => out.extend_from_slice(b", fillcolor=white, color=gray40];\n"),
    }
}

/// Appends a name below the text so far.
fn name_line(name: &[u8], out: &mut Vec<u8>) -> Result<(), AllocError>
    ensures { OnOk result (out.new.items ≡ out.old.items ++ name_line name.now) }
{
    if name.is_empty() {
        return Ok(());
    }
    out.extend_from_slice(b"\\n")?;
    wrapped(name, out)
}

/// Returns the identifier of a vertex.
pub(crate) fn identifier(game: &GuardedGame, v: u32) -> u32
    requires { v < length game.now.vertices }
    ensures list { result ≡ slice_index (vertex_ids game.now.vertices) v }
    ensures vertex { result ≡ (slice_index_or game.now.vertices v no_vertex).id }
{
    game.id(v)
}

/// Appends the line of a vertex, up to its colours.
pub(crate) fn vertex_start(
    game: &GuardedGame,
    v: u32,
    name: &[u8],
    out: &mut Vec<u8>,
) -> Result<(), AllocError>
    requires { v < length game.now.vertices }
    ensures { OnOk result
        (out.new.items ≡ out.old.items ++ vertex_start (slice_index_or game.now.vertices v no_vertex) name.now) }
{
    let id = identifier(game, v);
    out.extend_from_slice(b"  ")?;
    number(id, out)?;
    out.extend_from_slice(b" [shape=")?;
    shape(game.owner(v), out)?;
    out.extend_from_slice(b", label=\"")?;
    number(id, out)?;
    out.extend_from_slice(b" : ")?;
    number(game.priority(v), out)?;
    name_line(name, out)?;
    out.extend_from_slice(b"\"")
}

/// Appends the line of a vertex.
fn vertex(
    game: &GuardedGame,
    v: u32,
    name: &[u8],
    verdict: Verdict,
    out: &mut Vec<u8>,
) -> Result<(), AllocError>
    requires { v < length game.now.vertices }
    ensures { OnOk result (out.new.items ≡ out.old.items
        ++ vertex_text (slice_index_or game.now.vertices v no_vertex) name.now verdict) }
{
    vertex_start(game, v, name, out)?;
    colours(verdict, out)
}

/// Appends the lines of all vertices.
fn vertices(
    game: &GuardedGame,
    names: &VertexNames,
    verdicts: &[Verdict],
    out: &mut Vec<u8>,
) -> Result<(), AllocError>
    requires { length verdicts.now ≡ length game.now.vertices }
    ensures { OnOk result (out.new.items ≡ out.old.items
        ++ vertices_text game.now.vertices names.now.names verdicts.now (length game.now.vertices)) }
{
    let count = game.vertices() as u32;
    for v in 0..count {
        vertex(game, v, names.name(v), verdicts[v as usize], out)?;
    }
    Ok(())
}

/// Appends the style of an edge by its guard's value, up to the end of the line: solid if true, dashed if open, dotted
/// if false.
pub fn style(value: Tri, out: &mut Vec<u8>) -> Result<(), AllocError>
    ensures { OnOk result (out.new.items ≡ out.old.items ++ style_text value) }
{
    match value {
        Tri::Yes => out.extend_from_slice(b"style=solid];\n"),
        Tri::Unknown => {
            out.extend_from_slice(b"style=dashed, color=steelblue, fontcolor=steelblue];\n")
        }
        Tri::No => out.extend_from_slice(b"style=dotted, color=gray70, fontcolor=gray50];\n"),
    }
}

/// Appends the label of a guard, unless it is `true`.
fn guard_label(
    alloc: Global,
    names: &Names,
    guard: &Guard,
    out: &mut Vec<u8>,
) -> Result<(), AllocError>
    requires { IsBelow (length names.now) (formula_of guard.now) }
    ensures { OnOk result (out.new.items ≡ out.old.items ++ guard_label names.now (formula_of guard.now)) }
{
    if matches!(guard, Guard::Always) {
        return Ok(());
    }
    out.extend_from_slice(b"label=\"")?;
    guard.write(alloc, names, out)?;
    out.extend_from_slice(b"\", ")
}

/// Appends the line of an edge, up to its style.
pub(crate) fn edge_start(
    alloc: Global,
    features: &Names,
    game: &GuardedGame,
    id: u32,
    edge: &Edge,
    out: &mut Vec<u8>,
) -> Result<(), AllocError>
    requires to { edge.now.to < length game.now.vertices }
    requires guard { IsBelow (length features.now) edge.now.guard }
    ensures { OnOk result (out.new.items ≡ out.old.items
        ++ edge_start features.now game.now.vertices id edge.now) }
{
    out.extend_from_slice(b"  ")?;
    number(id, out)?;
    out.extend_from_slice(b" -> ")?;
    number(identifier(game, edge.to), out)?;
    out.extend_from_slice(b" [")?;
    guard_label(alloc, features, &edge.guard, out)
}

/// Appends the line of an edge.
fn edge(
    alloc: Global,
    features: &Names,
    known: &[Tri],
    game: &GuardedGame,
    id: u32,
    edge: &Edge,
    out: &mut Vec<u8>,
) -> Result<(), AllocError>
    requires known { length known.now ≡ length features.now }
    requires to { edge.now.to < length game.now.vertices }
    requires guard { IsBelow (length features.now) edge.now.guard }
    ensures { OnOk result (out.new.items ≡ out.old.items
        ++ edge_text features.now known.now game.now.vertices id edge.now) }
{
    edge_start(alloc, features, game, id, edge, out)?;
    style(edge.guard.kleene(known), out)
}

/// Appends the lines of the edges of a vertex.
fn edges(
    alloc: Global,
    features: &Names,
    known: &[Tri],
    game: &GuardedGame,
    v: u32,
    out: &mut Vec<u8>,
) -> Result<(), AllocError>
    requires known { length known.now ≡ length features.now }
    requires features { length features.now ≡ game.now.features }
    requires v { v < length game.now.vertices }
    ensures { OnOk result (out.new.items ≡ out.old.items
        ++ edges_text features.now known.now game.now.vertices (slice_index_or game.now.vertices v no_vertex)) }
{
    let _count = game.vertices();
    let id = identifier(game, v);
    let edges = game.edges(v);
    for e in edges {
        edge(alloc, features, known, game, id, e, out)?;
    }
    Ok(())
}

/// Appends the lines of all edges.
fn all_edges(
    alloc: Global,
    features: &Names,
    known: &[Tri],
    game: &GuardedGame,
    out: &mut Vec<u8>,
) -> Result<(), AllocError>
    requires known { length known.now ≡ length features.now }
    requires features { length features.now ≡ game.now.features }
    ensures { OnOk result (out.new.items ≡ out.old.items
        ++ all_edges_text features.now known.now game.now.vertices (length game.now.vertices)) }
{
    let count = game.vertices() as u32;
    for v in 0..count {
        edges(alloc, features, known, game, v, out)?;
    }
    Ok(())
}

#[tactic(auto, unfolding(crate::specs::GameDrawing::opening_text))]
fn opening(out: &mut Vec<u8>) -> Result<(), AllocError>
    ensures { OnOk result (out.new.items ≡ out.old.items ++ opening_text) }
{
    out.extend_from_slice(b"digraph game {\n  graph [label=\"decisions")
}

#[tactic(auto, unfolding(crate::specs::GameDrawing::defaults_text))]
pub(crate) fn defaults(out: &mut Vec<u8>) -> Result<(), AllocError>
    ensures { OnOk result (out.new.items ≡ out.old.items ++ defaults_text) }
{
    out.extend_from_slice(b"\", labelloc=t, rankdir=LR];\n  node [style=filled];\n")
}

/// Appends the beginning of the picture.
fn heading(features: &Names, decisions: &[Decision], out: &mut Vec<u8>) -> Result<(), AllocError>
    requires { All (λ d. d.feature < length features.now) decisions.now }
    ensures { OnOk result (out.new.items ≡ out.old.items ++ heading_text features.now (map literal_of decisions.now)) }
{
    opening(out)?;
    choices(features, decisions, out)?;
    defaults(out)
}

/// Appends the picture of a game on a page. First come the decisions; then each vertex in file order, a diamond for
/// Even and a box for Odd. It has its identifier, its priority, its name if it has one, and a colour for its verdict
/// (red hopeless, green sure). Then comes each edge with its guard, solid if it is kept, dashed if it may be there,
/// dotted if it is left out.
///
/// `known` has the value of each feature, `verdicts` one verdict for each vertex. `Err` leaves the text as it was.
pub fn draw_game(
    alloc: Global,
    game: &GuardedGame,
    features: &Names,
    known: &Partial,
    decisions: &[Decision],
    names: &VertexNames,
    verdicts: &[Verdict],
    out: &mut Vec<u8>,
) -> Result<(), AllocError>
    requires features { length features.now ≡ game.now.features }
    requires known { length known.now ≡ game.now.features }
    requires decisions { All (λ d. d.feature < game.now.features) decisions.now }
    requires verdicts { length verdicts.now ≡ length game.now.vertices }
    ensures drawn { OnOk result
        (out.new.items ≡ out.old.items
        ++ game_drawing features.now known.now (map literal_of decisions.now) names.now.names verdicts.now game.now) }
    ensures unchanged { OnErr result (out.new.items ≡ out.old.items) }
{
    let mut text = Vec::new(alloc);
    heading(features, decisions, &mut text)?;
    vertices(game, names, verdicts, &mut text)?;
    all_edges(alloc, features, known.values(), game, &mut text)?;
    text.extend_from_slice(b"}\n")?;
    out.extend_from_slice(&text)
}
