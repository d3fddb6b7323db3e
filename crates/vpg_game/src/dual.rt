//! The dual of a game.
ghost use Rattle.std.specs.Prelude.{◌≡◌, ◌↔◌, ◌<◌, IfOk, Err, All, map};
ghost use Rattle.vpg_game.specs.Game.{vertex_ids, priorities_of, dual_vertex, dual_of, AreDistinct, IsAtLimit};

use crate::fault::DualFault;
use crate::game::GuardedGame;
use crate::naming::naming_of;
use crate::vertex::Vertex;
use indexmap::IndexSet;
use std::alloc::{AllocError, Global};

impl GuardedGame {
    /// Returns the dual game: the players are exchanged, and each priority is more by one. The error is `AtLimit` if a
    /// priority is 65,536, which only a dual has.
    pub fn dual(&self, alloc: Global) -> Result<GuardedGame, DualFault>
        ensures dual { IfOk result (λ game. game ≡ dual_of self.now) }
        ensures at_limit { (result ≡ Err DualFault.AtLimit) ↔ IsAtLimit self.now }
    {
        if self.is_at_limit() {
            return Err(DualFault::AtLimit);
        }
        let Ok(vertices) = dual_vertices(alloc, &self.vertices) else {
            return Err(DualFault::Memory);
        };
        let Ok(ids) = identifiers(alloc, &self.vertices) else {
            return Err(DualFault::Memory);
        };
        let Ok(naming) = naming_of(alloc, self.features, &vertices) else {
            return Err(DualFault::Memory);
        };
        let (top, dual_top) = self.tops;
        Ok(GuardedGame {
            ids,
            vertices,
            features: self.features,
            tops: (dual_top, top),
            naming,
        })
    }
}

fn dual_vertices(alloc: Global, vertices: &[Vertex]) -> Result<Vec<Vertex>, AllocError>
    requires { All (λ priority. priority < 65536) (priorities_of vertices.now) }
    ensures { IfOk result (λ duals. duals.items ≡ map dual_vertex vertices.now) }
{
    let mut duals = Vec::with_capacity(alloc, vertices.len())?;
    for vertex in vertices {
        duals.push(vertex.dual(alloc)?)?;
    }
    Ok(duals)
}

/// Returns the identifiers of vertices, in order.
fn identifiers(alloc: Global, vertices: &[Vertex]) -> Result<IndexSet<u32>, AllocError>
    requires { AreDistinct (vertex_ids vertices.now) }
    ensures { IfOk result (λ ids. ids.keys ≡ vertex_ids vertices.now) }
{
    let mut ids = IndexSet::with_capacity(alloc, vertices.len())?;
    for vertex in vertices {
        ids.insert(vertex.id)?;
    }
    Ok(ids)
}
