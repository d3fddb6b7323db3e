//! The kept edges of an order's games the other way round.

ghost use Rattle.std.specs.Prelude.{◌≡◌, ◌⊎◌, ◌<◌, ◌+◌, ◌^◌, ◌==◌, ℕ, if◌then◌else◌, [], ◌∷◌, length, reverse};
ghost use Rattle.std.specs.Prelude.{slice_index, All, OnOk, IfOk, IfSome, MatchOption};
ghost use Rattle.vpg_measure.specs.Orders.{order_arena};
ghost use Rattle.vpg_board.specs.Rule.{times};
ghost use Rattle.vpg_board.specs.Places.{vertices};
ghost use Rattle.vpg_board.specs.Predecessors.{ArePredecessors, predecessors_in};
ghost use Rattle.vpg_board.specs.Chains.{AreLinked, LeadFrom, chain_from, edges_kept, lists_of, sources};

use std::alloc::{AllocError, Global};
use std::marker::Model;
use vpg_hope::Arena;
use vpg_measure::Order;
use vpg_sides::Which;

/// The kept edges to each vertex of a game, as chains: the last edge to a vertex first.
pub(crate) struct Chains {
    // of each vertex one more than the place of the last edge to it, or 0
    last: Vec<u32>,
    // the source of an edge, and one more than the place of the edge before it that leads to the same vertex, or 0
    edges: Vec<(u32, u32)>,
    ghost linked: { AreLinked last.items edges.items },
}

// Not derived: a derived `drop` would be proved again at each exit that owns such a value.
impl Drop for Chains {
    fn drop(self) {
        let Chains { last: _, edges: _ } = self;
    }
}

// The edges of one vertex.
fn add_edges(
    last: &mut Vec<u32>,
    edges: &mut Vec<(u32, u32)>,
    v: u32,
    kept: &[u32],
) -> Result<(), AllocError>
    requires linked { AreLinked last.old.items edges.old.items }
    requires closed { All (λ w. w < length last.old.items) kept.now }
    requires room { length edges.old.items + length kept.now < 2 ^ 32 }
    ensures linked { OnOk result (AreLinked last.new.items edges.new.items) }
    ensures wide { OnOk result (length last.new.items ≡ length last.old.items) }
    ensures count { OnOk result (length edges.new.items ≡ length edges.old.items + length kept.now) }
    // v is one more source of w, as often as w is among the kept.
    ensures each { OnOk result ((u w : ℕ) →
        times u (sources last.new.items edges.new.items w)
        ≡ times u (sources last.old.items edges.old.items w) + (if v == u then times w kept.now else 0)) }
    ensures inside { OnOk result ((n : ℕ) → v < n → LeadFrom n edges.old.items → LeadFrom n edges.new.items) }
{
    for w in kept {
        let latest = last[*w as usize];
        edges.push((v, latest))?;
        last[*w as usize] = edges.len() as u32;
    }
    Ok(())
}

impl Chains {
    // Those of an arena's edges.
    fn of(alloc: Global, arena: &Arena) -> Result<Chains, AllocError>
        requires { edges_kept arena.now < 2 ^ 32 }
        ensures edges { IfOk result (λ chains.
            ArePredecessors arena.now (lists_of chains.last.items chains.edges.items)) }
        ensures inside { IfOk result (λ chains. LeadFrom (length arena.now) chains.edges.items) }
    {
        let mut last = vec![in alloc; 0u32; arena.vertices() as usize]?;
        let mut edges = Vec::new(alloc);
        'vertices: for v in 0..arena.vertices() {
            add_edges(&mut last, &mut edges, v, arena.kept(v))?;
        }
        Ok(Chains { last, edges })
    }

    // Those of no edges.
    fn none(alloc: Global) -> Chains
        ensures edges { lists_of result.last.items result.edges.items ≡ [] }
        ensures inside { (n : ℕ) → LeadFrom n result.edges.items }
    {
        Chains {
            last: Vec::new(alloc),
            edges: Vec::new(alloc),
        }
    }

    /// Returns the number of edges.
    pub(crate) fn len(&self) -> usize {
        self.edges.len()
    }

    /// Returns one more than the place of the last edge to a vertex, or 0.
    pub(crate) fn last_to(&self, v: u32) -> u32
        ensures { result ≡ slice_index self.now.last.items v }
    {
        match self.last.get(v as usize) {
            Some(last) => *last,
            None => 0,
        }
    }

    /// Returns the edge before this place: its source, and one more than the place of the edge before it that leads to
    /// the same vertex, or 0.
    pub(crate) fn edge_before(&self, place: u32) -> Option<(u32, u32)>
        ensures inside { (n : ℕ) → LeadFrom n self.now.edges.items → IfSome result (λ e. e.0 < n) }
        // It is the head of the chain from this place, and its own place leads to the rest.
        ensures chain { let from = chain_from (reverse self.now.edges.items) in
            MatchOption result (from place ≡ []) (λ e. from place ≡ e.0 ∷ from e.1) }
    {
        if place == 0 || place as usize > self.edges.len() {
            return None;
        }
        Some(self.edges[place as usize - 1])
    }
}

/// For each vertex of an order's two games, the vertices that keep an edge to it. Along them the lifters of a sweep
/// hint at the next lifts. They serve every order of the same games.
///
/// Contracts see the number of vertices, and for each vertex a list of those that keep an edge to it, in either game.
#[derive(Drop)]
pub struct Predecessors {
    vertices: u32,
    hopeful: Chains,
    dual: Chains,
}

impl Model for Predecessors {
    ghost use Rattle.vpg_board.specs.Predecessors.{PredecessorsView};
    ghost use Rattle.vpg_board.specs.Chains.{LeadFrom, lists_of};

    ghost Value = { PredecessorsView };

    ghost view = { λ p. record {
      vertices = p.vertices;
      hopeful = lists_of p.hopeful.last.items p.hopeful.edges.items;
      dual = lists_of p.dual.last.items p.dual.edges.items;
    } };

    ghost invariant = { λ p. LeadFrom p.vertices p.hopeful.edges.items × LeadFrom p.vertices p.dual.edges.items };
}

impl Predecessors {
    /// Returns the predecessors in an order's games.
    pub fn of(alloc: Global, order: &Order) -> Result<Predecessors, AllocError>
        ensures vertices { IfOk result (λ predecessors. predecessors.vertices ≡ vertices order.now) }
        // Each vertex is listed as often as it keeps an edge: none is missing, nothing else is there.
        ensures edges { IfOk result (λ predecessors.
            (which : Which) → ArePredecessors (order_arena which order.now) (predecessors_in which predecessors)) }
    {
        let vertices = order.game().vertices() as u32;
        let hopeful = Chains::of(alloc, order.arena(Which::Hopeful))?;
        let dual = Chains::of(alloc, order.arena(Which::Dual))?;
        Ok(Predecessors {
            vertices,
            hopeful,
            dual,
        })
    }

    /// Returns no predecessors, for sweeps without hints.
    pub fn none(alloc: Global, order: &Order) -> Predecessors
        ensures vertices { result.vertices ≡ vertices order.now }
        ensures edges { (which : Which) → predecessors_in which result ≡ [] }
    {
        Predecessors {
            vertices: order.game().vertices() as u32,
            hopeful: Chains::none(alloc),
            dual: Chains::none(alloc),
        }
    }

    /// Returns the predecessors in an order's games, or none if there is no memory for them.
    pub fn of_or_none(alloc: Global, order: &Order) -> Predecessors
        ensures vertices { result.vertices ≡ vertices order.now }
        ensures edges { ((which : Which) → ArePredecessors (order_arena which order.now) (predecessors_in which result))
            ⊎ ((which : Which) → predecessors_in which result ≡ []) }
    {
        match Predecessors::of(alloc, order) {
            Ok(predecessors) => predecessors,
            Err(_) => Predecessors::none(alloc, order),
        }
    }

    /// Whether there are no edges, so that there will be no hints.
    pub(crate) fn are_none(&self) -> bool {
        self.hopeful.len() == 0 && self.dual.len() == 0
    }

    /// Returns the predecessors in either game.
    pub(crate) fn in_game(&self, which: Which) -> &Chains
        ensures edges { lists_of result.now.last.items result.now.edges.items ≡ predecessors_in which self.now }
        ensures inside { LeadFrom self.now.vertices result.now.edges.items }
    {
        match which {
            Which::Hopeful => &self.hopeful,
            Which::Dual => &self.dual,
        }
    }
}
