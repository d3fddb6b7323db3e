//! An edge.
ghost use Rattle.std.specs.Prelude.{◌≡◌, ◌↔◌, IfOk, IsTrue};
ghost use Rattle.vpg_guards.specs.Grammar.{either};
ghost use Rattle.vpg_guards.specs.View.{formula_of};

use std::alloc::{AllocError, Global};
use std::marker::Model;
use vpg_guards::Guard;

/// An edge of a guarded game.
#[derive(Drop)]
pub struct Edge {
    /// The vertex that it leads to.
    pub to: u32,
    /// The guard that has to hold for it.
    pub guard: Guard,
}

impl Model for Edge {
    ghost use Rattle.vpg_guards.specs.Formula.{Formula};
    ghost use Rattle.vpg_guards.specs.View.{formula_of};
    ghost use Rattle.vpg_game.specs.Edges.{GuardedEdge};
    ghost use Rattle.vpg_game.specs.EdgeCoding.{edge_code};

    ghost Value = { GuardedEdge Formula };

    ghost coded = { edge_code };

    ghost view = { λ e. record { to = e.to; guard = formula_of e.guard } };
}

impl Edge {
    /// Whether two edges are the same.
    pub fn is_same(&self, other: &Edge) -> bool
        ensures { IsTrue result ↔ (self.now ≡ other.now) }
    {
        other.to == self.to && self.guard.is_same(&other.guard)
    }

    /// Returns a copy of the edge.
    pub fn copy(&self, alloc: Global) -> Result<Edge, AllocError>
        ensures { IfOk result (λ edge. edge ≡ self.now) }
    {
        Ok(Edge {
            to: self.to,
            guard: self.guard.copy(alloc)?,
        })
    }

    /// Returns the edge with another guard joined to its own.
    pub fn joined(self, alloc: Global, guard: Guard) -> Result<Edge, AllocError>
        ensures { IfOk result (λ e. (e.to ≡ self.to) × (e.guard ≡ either self.guard (formula_of guard))) }
    {
        Ok(Edge {
            to: self.to,
            guard: self.guard.or(alloc, guard)?,
        })
    }
}
