//! The edges of a guarded game, with the products in which each can be taken.
ghost use Rattle.std.specs.Prelude.{◌≡◌, ℕ, ◌<◌, ◌≤◌, ◌^◌, [], ◌∷◌, ◌++◌, IfOk, OnOk, IfErr, ◌+◌, length};
ghost use Rattle.vpg_game.specs.Game.{IsGame, graph_of, vertex_in};
ghost use Rattle.vpg_zielonka.specs.Universes.{features_of, IsGrown, IsTrueFault};
ghost use Rattle.vpg_zielonka.specs.Edges.{AreAllEdges, AreFirstEdges, numbers_at};

use crate::subset::Subset;
use crate::universe::Universe;
use std::alloc::{AllocError, Global};
use vpg_features::Index;
use vpg_game::GuardedGame;
use vpg_sets::SetsFault;

/// An edge, and the products in which its guard holds.
#[derive(Clone, Copy)]
pub(crate) struct Edge {
    pub(crate) from: u32,
    pub(crate) to: u32,
    pub(crate) products: Subset,
}

/// Adds an edge to a list.
fn push(list: &mut Vec<Edge>, edge: Edge) -> Result<(), AllocError>
    ensures { OnOk result (list.new.items ≡ list.old.items ++ edge ∷ []) }
{
    list.push(edge)?;
    Ok(())
}

/// The edges of a game.
#[derive(Drop)]
pub(crate) struct Edges {
    pub(crate) list: Vec<Edge>,
    // for each vertex the places in the list of the edges that leave it, and of those that enter it
    pub(crate) leaving: Index,
    pub(crate) entering: Index,
}

impl Edges {
    /// Returns the edges of a game. Its guards are over the features of the sets.
    pub(crate) fn of(
        alloc: Global,
        sets: &mut Universe,
        game: &GuardedGame,
    ) -> Result<Edges, SetsFault>
        requires { game.now.features ≡ features_of sets.old }
        ensures grown { IsGrown sets.old sets.new }
        ensures edges { IfOk result (AreAllEdges sets.new (graph_of game.now)) }
        ensures failed { IfErr result (IsTrueFault sets.new) }
    {
        let vertices = game.vertices();
        let mut edges = Edges {
            list: Vec::new(alloc),
            leaving: Index::new(alloc, vertices)?,
            entering: Index::new(alloc, vertices)?,
        };
        for v in 0..vertices as u32 {
            edges.add_all(sets, game, v)?;
        }
        Ok(edges)
    }

    /// Adds the edges of a vertex, the next one after those that are there.
    fn add_all(&mut self, sets: &mut Universe, game: &GuardedGame, v: u32) -> Result<(), SetsFault>
        requires game { IsGame game.now }
        requires features { game.now.features ≡ features_of sets.old }
        requires vertex { v < length (graph_of game.now) }
        requires edges { AreFirstEdges sets.old (graph_of game.now) v self.old }
        ensures grown { IsGrown sets.old sets.new }
        ensures edges { IfOk result (λ _. AreFirstEdges sets.new (graph_of game.now) (v + 1) self.new) }
        ensures failed { IfErr result (IsTrueFault sets.new) }
    {
        for edge in game.edges(v) {
            let products = sets.of_guard(&edge.guard)?;
            let number = self.list.len();
            self.leaving.note(number, v as u16)?;
            self.entering.note(number, edge.to as u16)?;
            let to = edge.to;
            push(
                &mut self.list,
                Edge {
                    from: v,
                    to,
                    products,
                },
            )?;
        }
        Ok(())
    }
}
