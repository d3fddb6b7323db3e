//! The picture of a part of a game on a page.
ghost use Rattle.std.specs.Prelude.{◌≡◌, ◌<◌, ◌++◌, ◌==◌, All, OnOk, OnErr, if◌then◌else◌, [], false, length, map, None, slice_index, slice_index_or, List, ℕ};
ghost use Rattle.vpg_guards.specs.Formula.{IsBelow};
ghost use Rattle.vpg_guards.specs.Known.{kleene};
ghost use Rattle.vpg_game.specs.Game.{no_vertex};
ghost use Rattle.vpg_partial.specs.Known.{literal_of};
ghost use Rattle.vpg_draw.specs.GameDrawing.{no_verdict};
ghost use Rattle.vpg_draw.specs.PartDrawing.{first_text, part_vertex_text, part_vertices_text, is_mover, leads_to, is_drawn, move_style, part_style, part_edge_text, part_edges_text, all_part_edges_text, part_opening_text, part_heading_text, part_drawing};

use crate::game::{colours, defaults, edge_start, identifier, style, vertex_start};
use crate::labels::choices;
use std::alloc::{AllocError, Global};
use vpg_features::Names;
use vpg_game::{Edge, GuardedGame, VertexNames};
use vpg_guards::Tri;
use vpg_partial::{Decision, Partial};
use vpg_sides::{Player, Verdict};

/// Appends the mark of the vertex from which the others are reached.
fn first_mark(is_first: bool, out: &mut Vec<u8>) -> Result<(), AllocError>
    ensures { OnOk result (out.new.items ≡ out.old.items ++ first_text is_first) }
{
    if is_first {
        out.extend_from_slice(b", penwidth=3")?;
    }
    Ok(())
}

/// Appends the line of a vertex.
fn vertex(
    game: &GuardedGame,
    v: u32,
    name: &[u8],
    verdict: Verdict,
    is_first: bool,
    out: &mut Vec<u8>,
) -> Result<(), AllocError>
    requires { v < length game.now.vertices }
    ensures { OnOk result (out.new.items ≡ out.old.items
        ++ part_vertex_text (slice_index_or game.now.vertices v no_vertex) name.now verdict is_first) }
{
    vertex_start(game, v, name, out)?;
    first_mark(is_first, out)?;
    colours(verdict, out)
}

/// Appends the line of a vertex, if it is marked.
fn vertex_if(
    game: &GuardedGame,
    v: u32,
    name: &[u8],
    verdict: Verdict,
    first: u32,
    is_marked: bool,
    out: &mut Vec<u8>,
) -> Result<(), AllocError>
    requires { v < length game.now.vertices }
    ensures { OnOk result (out.new.items ≡ out.old.items
        ++ (if is_marked then part_vertex_text (slice_index_or game.now.vertices v no_vertex) name.now verdict
        (v == first) else [])) }
{
    if is_marked {
        vertex(game, v, name, verdict, v == first, out)?;
    }
    Ok(())
}

/// Appends the lines of the marked vertices.
fn vertices(
    game: &GuardedGame,
    names: &VertexNames,
    verdicts: &[Verdict],
    first: u32,
    marks: &[bool],
    out: &mut Vec<u8>,
) -> Result<(), AllocError>
    requires verdicts { length verdicts.now ≡ length game.now.vertices }
    requires marks { length marks.now ≡ length game.now.vertices }
    ensures { OnOk result (out.new.items ≡ out.old.items
        ++ part_vertices_text game.now.vertices names.now.names verdicts.now first marks.now
        (length game.now.vertices)) }
{
    let count = game.vertices() as u32;
    for v in 0..count {
        let at = v as usize;
        vertex_if(game, v, names.name(v), verdicts[at], first, marks[at], out)?;
    }
    Ok(())
}

/// Whether listed moves are those of this player.
fn is_mover(mover: Option<Player>, owner: Player) -> bool
    ensures { result ≡ is_mover mover owner }
{
    match (mover, owner) {
        (Some(Player::Even), Player::Even) => true,
        (Some(Player::Odd), Player::Odd) => true,
        _ => false,
    }
}

/// Whether a move leads to this vertex.
fn leads_to(listed: Option<u32>, w: u32) -> bool
    ensures { result ≡ leads_to listed w }
{
    match listed {
        Some(m) => m == w,
        None => false,
    }
}

/// Whether an edge is drawn.
fn is_drawn(is_listed: bool, is_move: bool, value: Tri) -> bool
    ensures { result ≡ is_drawn is_listed is_move value }
{
    match value {
        Tri::No => false,
        Tri::Unknown | Tri::Yes => !is_listed || is_move,
    }
}

/// Appends the style of a listed move.
fn move_style(owner: Player, out: &mut Vec<u8>) -> Result<(), AllocError>
    ensures { OnOk result (out.new.items ≡ out.old.items ++ move_style owner) }
{
    match owner {
        Player::Even => {
            out.extend_from_slice(b"style=solid, color=\"#3f7d2c\", penwidth=2.6];\n")
        }
        Player::Odd => {
            out.extend_from_slice(b"style=solid, color=\"#b03a1e\", penwidth=2.6];\n")
        }
    }
}

/// Appends the style of an edge.
fn part_style(
    is_listed: bool,
    owner: Player,
    value: Tri,
    out: &mut Vec<u8>,
) -> Result<(), AllocError>
    ensures { OnOk result (out.new.items ≡ out.old.items ++ part_style is_listed owner value) }
{
    if is_listed {
        move_style(owner, out)
    } else {
        style(value, out)
    }
}

/// Appends the line of an edge of a vertex, if it is drawn.
fn edge(
    alloc: Global,
    features: &Names,
    known: &[Tri],
    game: &GuardedGame,
    v: u32,
    mover: Option<Player>,
    listed: Option<u32>,
    edge: &Edge,
    out: &mut Vec<u8>,
) -> Result<(), AllocError>
    requires known { length known.now ≡ length features.now }
    requires v { v < length game.now.vertices }
    requires to { edge.now.to < length game.now.vertices }
    requires guard { IsBelow (length features.now) edge.now.guard }
    ensures { OnOk result (out.new.items ≡ out.old.items
        ++ part_edge_text features.now known.now game.now.vertices (slice_index_or game.now.vertices v no_vertex)
        mover listed edge.now) }
{
    let owner = game.owner(v);
    let is_listed = is_mover(mover, owner);
    let value = edge.guard.kleene(known);
    if is_drawn(is_listed, leads_to(listed, edge.to), value) {
        edge_start(alloc, features, game, identifier(game, v), edge, out)?;
        part_style(is_listed, owner, value, out)?;
    }
    Ok(())
}

/// Appends the lines of the edges of a vertex.
fn edges(
    alloc: Global,
    features: &Names,
    known: &[Tri],
    game: &GuardedGame,
    v: u32,
    mover: Option<Player>,
    listed: Option<u32>,
    out: &mut Vec<u8>,
) -> Result<(), AllocError>
    requires known { length known.now ≡ length features.now }
    requires features { length features.now ≡ game.now.features }
    requires v { v < length game.now.vertices }
    ensures { OnOk result (out.new.items ≡ out.old.items
        ++ part_edges_text features.now known.now game.now.vertices (slice_index_or game.now.vertices v no_vertex)
        mover listed) }
{
    let _count = game.vertices();
    let edges = game.edges(v);
    for e in edges {
        edge(alloc, features, known, game, v, mover, listed, e, out)?;
    }
    Ok(())
}

/// Appends the lines of the edges of a vertex, if it is marked.
fn edges_if(
    alloc: Global,
    features: &Names,
    known: &[Tri],
    game: &GuardedGame,
    v: u32,
    mover: Option<Player>,
    listed: Option<u32>,
    is_marked: bool,
    out: &mut Vec<u8>,
) -> Result<(), AllocError>
    requires known { length known.now ≡ length features.now }
    requires features { length features.now ≡ game.now.features }
    requires v { v < length game.now.vertices }
    ensures { OnOk result (out.new.items ≡ out.old.items
        ++ (if is_marked then part_edges_text features.now known.now game.now.vertices
        (slice_index_or game.now.vertices v no_vertex)
        mover listed else [])) }
{
    if is_marked {
        edges(alloc, features, known, game, v, mover, listed, out)?;
    }
    Ok(())
}

/// Returns the move of a vertex; none if the list has none.
fn move_of(moves: &[Option<u32>], v: u32) -> Option<u32>
    ensures { result ≡ slice_index_or moves.now v None }
{
    match moves.get(v as usize) {
        Some(listed) => *listed,
        None => None,
    }
}

/// Appends the lines of the edges of the marked vertices.
fn all_edges(
    alloc: Global,
    features: &Names,
    known: &[Tri],
    game: &GuardedGame,
    marks: &[bool],
    mover: Option<Player>,
    moves: &[Option<u32>],
    out: &mut Vec<u8>,
) -> Result<(), AllocError>
    requires known { length known.now ≡ length features.now }
    requires features { length features.now ≡ game.now.features }
    requires marks { length marks.now ≡ length game.now.vertices }
    ensures { OnOk result (out.new.items ≡ out.old.items
        ++ all_part_edges_text features.now known.now game.now.vertices marks.now mover moves.now
        (length game.now.vertices)) }
{
    let count = game.vertices() as u32;
    for v in 0..count {
        let listed = move_of(moves, v);
        edges_if(
            alloc,
            features,
            known,
            game,
            v,
            mover,
            listed,
            marks[v as usize],
            out,
        )?;
    }
    Ok(())
}

#[tactic(auto, unfolding(crate::specs::PartDrawing::part_opening_text))]
fn opening(out: &mut Vec<u8>) -> Result<(), AllocError>
    ensures { OnOk result (out.new.items ≡ out.old.items ++ part_opening_text) }
{
    out.extend_from_slice(b"digraph part {\n  graph [label=\"decisions")
}

/// Appends the beginning of the picture.
fn heading(features: &Names, decisions: &[Decision], out: &mut Vec<u8>) -> Result<(), AllocError>
    requires { All (λ d. d.feature < length features.now) decisions.now }
    ensures { OnOk result
        (out.new.items ≡ out.old.items ++ part_heading_text features.now (map literal_of decisions.now)) }
{
    opening(out)?;
    choices(features, decisions, out)?;
    defaults(out)
}

/// Appends the picture of a part of a game on a page. It has the decisions, and the marked vertices as `draw_game` has
/// them, with a thick border round the first one. It has those of their edges that are not known to be left out. Of the
/// mover's vertices, if there is a mover, only the listed move is drawn: thick, green for Even and red for Odd.
///
/// `known` has the value of each feature, `verdicts` one verdict and `marks` one mark for each vertex. A vertex past
/// the end of `moves` has no move. `Err` leaves the text as it was.
pub fn draw_part(
    alloc: Global,
    game: &GuardedGame,
    features: &Names,
    known: &Partial,
    decisions: &[Decision],
    names: &VertexNames,
    verdicts: &[Verdict],
    first: u32,
    marks: &[bool],
    mover: Option<Player>,
    moves: &[Option<u32>],
    out: &mut Vec<u8>,
) -> Result<(), AllocError>
    requires features { length features.now ≡ game.now.features }
    requires known { length known.now ≡ game.now.features }
    requires decisions { All (λ d. d.feature < game.now.features) decisions.now }
    requires verdicts { length verdicts.now ≡ length game.now.vertices }
    requires marks { length marks.now ≡ length game.now.vertices }
    ensures drawn { OnOk result
        (out.new.items ≡ out.old.items
        ++ part_drawing features.now known.now (map literal_of decisions.now) names.now.names verdicts.now game.now
        first marks.now mover moves.now) }
    ensures unchanged { OnErr result (out.new.items ≡ out.old.items) }
{
    let mut text = Vec::new(alloc);
    heading(features, decisions, &mut text)?;
    vertices(game, names, verdicts, first, marks, &mut text)?;
    all_edges(
        alloc,
        features,
        known.values(),
        game,
        marks,
        mover,
        moves,
        &mut text,
    )?;
    text.extend_from_slice(b"}\n")?;
    out.extend_from_slice(&text)
}
