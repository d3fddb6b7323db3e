//! For each feature, the vertices that name it in a guard.
ghost use Rattle.std.specs.Prelude.{◌≡◌, ◌<◌, ◌++◌, All, OnOk, IfOk};
ghost use Rattle.vpg_game.specs.Naming.{features_named, IsNaming};

use crate::edge::Edge;
use crate::vertex::Vertex;
use std::alloc::{AllocError, Global};
use vpg_features::Index;

/// Adds the features that the guards of edges name.
fn push_features(edges: &[Edge], features: &mut Vec<u16>) -> Result<(), AllocError>
    ensures { OnOk result (features.new.items ≡ features.old.items ++ features_named edges.now) }
{
    for edge in edges {
        edge.guard.push_features(features)?;
    }
    Ok(())
}

/// Returns for each feature the vertices with an edge that names it in its guard.
pub(crate) fn naming_of(
    alloc: Global,
    features: usize,
    vertices: &[Vertex],
) -> Result<Index, AllocError>
    requires { All (λ v. All (λ f. f < features) (features_named v.edges)) vertices.now }
    ensures { IfOk result (IsNaming features vertices.now) }
{
    let mut naming = Index::new(alloc, features)?;
    let mut named = Vec::new(alloc);
    for v in 0..vertices.len() {
        let vertex = &vertices[v];
        named.clear();
        push_features(&vertex.edges, &mut named)?;
        naming.note_each(v, &named)?;
    }
    Ok(naming)
}
