//! The edges of one vertex.
ghost use Rattle.std.specs.Prelude.{◌≡◌, ◌↔◌, ◌<◌, ◌≤◌, ◌^◌, length, IfOk, IsTrue};
ghost use Rattle.vpg_guards.specs.View.{formula_of};
ghost use Rattle.vpg_game.specs.Edges.{join_edge, ArePlaces};

use crate::edge::Edge;
use std::alloc::{AllocError, Global};
use std::mem;
use vpg_guards::Guard;

/// Whether the edges are the same, in order.
pub fn are_same(edges: &[Edge], others: &[Edge]) -> bool
    ensures { IsTrue result ↔ (edges.now ≡ others.now) }
{
    if edges.len() != others.len() {
        return false;
    }
    for i in 0..edges.len() {
        if !edges[i].is_same(&others[i]) {
            return false;
        }
    }
    true
}

/// Returns a copy of the edges.
pub fn copy_edges(alloc: Global, edges: &[Edge]) -> Result<Vec<Edge>, AllocError>
    ensures { IfOk result (λ copy. copy.items ≡ edges.now) }
{
    let mut copy = Vec::with_capacity(alloc, edges.len())?;
    for edge in edges {
        copy.push(edge.copy(alloc)?)?;
    }
    Ok(copy)
}

/// Adds an edge, or joins its guard to the edge that has its target. `places` has the place of each edge, by target.
pub fn join_edge(
    alloc: Global,
    edges: &mut Vec<Edge>,
    places: &mut [usize],
    to: usize,
    guard: Guard,
) -> Result<(), AllocError>
    requires within { to < length places.old }
    requires places { ArePlaces places.old edges.old.items }
    requires small { length places.old ≤ 2 ^ 32 }
    ensures edges { IfOk result
        (λ _. edges.new.items ≡ join_edge edges.old.items (record { to = to; guard = formula_of guard })) }
    ensures places { IfOk result (λ _. ArePlaces places.new edges.new.items) }
{
    let at = places[to];
    let to_vertex = to as u32;
    if at < edges.len() && edges[at].to == to_vertex {
        let edge = mem::replace(
            &mut edges[at],
            Edge {
                to: to_vertex,
                guard: Guard::Never,
            },
        );
        edges[at] = edge.joined(alloc, guard)?;
        return Ok(());
    }
    places[to] = edges.len();
    edges.push(Edge {
        to: to_vertex,
        guard,
    })?;
    Ok(())
}
