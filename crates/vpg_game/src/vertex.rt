//! Vertices.
ghost use Rattle.std.specs.Prelude.{◌≡◌, ◌↔◌, ◌<◌, IfOk, IsTrue};
ghost use Rattle.vpg_game.specs.Game.{dual_vertex};

use crate::edge::Edge;
use crate::edges::{are_same, copy_edges};
use std::alloc::{AllocError, Global};
use std::marker::Model;
use vpg_sides::Player;

#[derive(Drop)]
pub(crate) struct Vertex {
    pub(crate) id: u32,
    pub(crate) owner: Player,
    pub(crate) priority: u32,
    pub(crate) edges: Vec<Edge>,
}

impl Model for Vertex {
    ghost use Rattle.vpg_game.specs.Game.{NamedVertex};
    ghost use Rattle.vpg_game.specs.Coding.{vertex_code};

    ghost Value = { NamedVertex };

    ghost coded = { vertex_code };

    ghost view = { λ v. record { id = v.id; owner = v.owner; priority = v.priority; edges = v.edges.items } };
}

impl Vertex {
    /// Whether two vertices are the same.
    pub(crate) fn is_same(&self, other: &Vertex) -> bool
        ensures { IsTrue result ↔ (self.now ≡ other.now) }
    {
        self.id == other.id
            && self.owner == other.owner
            && self.priority == other.priority
            && are_same(&self.edges, &other.edges)
    }

    /// Returns the vertex with the players exchanged, and a priority more by one.
    pub(crate) fn dual(&self, alloc: Global) -> Result<Vertex, AllocError>
        requires { self.now.priority < 65536 }
        ensures { IfOk result (λ vertex. vertex ≡ dual_vertex self.now) }
    {
        Ok(Vertex {
            id: self.id,
            owner: self.owner.opponent(),
            priority: self.priority + 1,
            edges: copy_edges(alloc, &self.edges)?,
        })
    }
}
