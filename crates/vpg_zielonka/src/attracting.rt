//! The vertices and products from which a player draws each play into a part of the game.
ghost use Rattle.std.specs.Prelude.{◌≡◌, ℕ, ◌<◌, ◌≤◌, ◌↔◌, ◌⊎◌, List, Bool, true, false, IfOk, IfErr, length, slice_index_or};
ghost use Rattle.vpg_game.specs.Game.{IsGame, graph_of};
ghost use Rattle.vpg_zielonka.specs.Universes.{IsGrown, IsInside, IsTrueFault, has};
ghost use Rattle.vpg_zielonka.specs.Attractors.{IsAttractor, IsWithin};
ghost use Rattle.vpg_zielonka.specs.Drawing.{Confines, Joins, IsSettled, IsDrawnFrom};
ghost use Rattle.vpg_zielonka.specs.Edges.{AreAllEdges, edge_at};
ghost use Rattle.vpg_zielonka.specs.Parts.{AreSets, part_in, game_in};
ghost use Rattle.vpg_zielonka.specs.Rounds.{IsLiveOrSeed};
ghost use Rattle.vpg_zielonka.specs.Stops.{StopsAt};

use crate::edges::Edges;
use crate::stop::{Stop, take_steps};
use crate::subset::Subset;
use crate::universe::Universe;
use crate::worklist::Worklist;
use std::alloc::{AllocError, Global};
use vpg_game::GuardedGame;
use vpg_sets::SetsFault;
use vpg_sides::Player;

/// Returns the products of a set in which each edge from the vertex within the part leads to `drawn`.
pub(crate) fn confined(
    sets: &mut Universe,
    game: &GuardedGame,
    edges: &Edges,
    set: Subset,
    v: u32,
    part: &[Subset],
    drawn: &[Subset],
) -> Result<Subset, SetsFault>
    requires edges { AreAllEdges sets.old (graph_of game.now) edges.now }
    requires set { IsInside sets.old set }
    requires vertex { v < length (graph_of game.now) }
    requires part { AreSets sets.old (length (graph_of game.now)) part.now }
    requires drawn { AreSets sets.old (length (graph_of game.now)) drawn.now }
    ensures grown { IsGrown sets.old sets.new }
    ensures inside { IfOk result (IsInside sets.new) }
    ensures confined { IfOk result (λ kept. (p : List Bool) → (has sets.new kept p ≡ true) ↔
        ((has sets.old set p ≡ true) × Confines (game_in (graph_of game.now) p)
        (part_in sets.old part.now p) (part_in sets.old drawn.now p) v)) }
    ensures failed { IfErr result (IsTrueFault sets.new) }
{
    // The contract of `vertices` says that the game has at most 65,536.
    let _vertices = game.vertices();
    let mut kept = set;
    for number in edges.leaving.numbers(v as u16) {
        let edge = edges.list[*number];
        let to = edge.to as usize;
        kept = sets.cut(kept, edge.products, part[to], drawn[to])?;
    }
    Ok(kept)
}

/// Returns the products in which the vertex that an edge leaves joins `drawn` because of the edge.
fn joining(
    sets: &mut Universe,
    game: &GuardedGame,
    edges: &Edges,
    player: Player,
    number: usize,
    part: &[Subset],
    drawn: &[Subset],
) -> Result<Subset, SetsFault>
    requires edges { AreAllEdges sets.old (graph_of game.now) edges.now }
    requires number { number < length edges.now.list.items }
    requires part { AreSets sets.old (length (graph_of game.now)) part.now }
    requires drawn { AreSets sets.old (length (graph_of game.now)) drawn.now }
    ensures grown { IsGrown sets.old sets.new }
    ensures inside { IfOk result (IsInside sets.new) }
    ensures joining { IfOk result (λ joins. (p : List Bool) → (has sets.new joins p ≡ true) ↔
        ((has sets.old (edge_at edges.now.list.items number).products p ≡ true) ×
        Joins (game_in (graph_of game.now) p) player (part_in sets.old part.now p) (part_in sets.old drawn.now p)
        (edge_at edges.now.list.items number).from (edge_at edges.now.list.items number).to)) }
    ensures failed { IfErr result (IsTrueFault sets.new) }
{
    let edge = edges.list[number];
    let from = edge.from as usize;
    let joins = sets.step(
        part[from],
        edge.products,
        drawn[edge.to as usize],
        drawn[from],
    )?;
    if game.owner(edge.from) == player {
        return Ok(joins);
    }
    confined(sets, game, edges, joins, edge.from, part, drawn)
}

/// Adds to `drawn` what joins it because of the edges that enter a vertex. What grows by it waits.
fn draw(
    sets: &mut Universe,
    game: &GuardedGame,
    edges: &Edges,
    player: Player,
    w: u32,
    part: &[Subset],
    drawn: &mut Vec<Subset>,
    waiting: &mut Worklist,
) -> Result<(), SetsFault>
    requires edges { AreAllEdges sets.old (graph_of game.now) edges.now }
    requires vertex { w < length (graph_of game.now) }
    requires part { AreSets sets.old (length (graph_of game.now)) part.now }
    requires drawn { AreSets sets.old (length (graph_of game.now)) drawn.old.items }
    requires waiting { length waiting.old ≡ length (graph_of game.now) }
    requires settled { (p : List Bool) → IsSettled (game_in (graph_of game.now) p) player
        (part_in sets.old part.now p) (part_in sets.old drawn.old.items p)
        (λ u x. (slice_index_or waiting.old x false ≡ true) ⊎ (x ≡ w)) }
    ensures grown { IsGrown sets.old sets.new }
    ensures drawn { IfOk result (λ _. AreSets sets.new (length (graph_of game.now)) drawn.new.items) }
    ensures waiting { IfOk result (λ _. length waiting.new ≡ length (graph_of game.now)) }
    ensures more { IfOk result (λ _. (p : List Bool) → IsDrawnFrom (game_in (graph_of game.now) p) player
        (part_in sets.old part.now p) (part_in sets.old drawn.old.items p) (part_in sets.new drawn.new.items p)) }
    ensures settled { IfOk result (λ _. (p : List Bool) → IsSettled (game_in (graph_of game.now) p) player
        (part_in sets.old part.now p) (part_in sets.new drawn.new.items p)
        (λ u x. slice_index_or waiting.new x false ≡ true)) }
    ensures failed { IfErr result (IsTrueFault sets.new) }
{
    // The contract of `vertices` says that the game has at most 65,536.
    let _vertices = game.vertices();
    for number in edges.entering.numbers(w as u16) {
        let joins = joining(sets, game, edges, player, *number, part, drawn)?;
        if !sets.is_none(joins) {
            let from = edges.list[*number].from;
            drawn[from as usize] = sets.or(drawn[from as usize], joins)?;
            waiting.add(from)?;
        }
    }
    Ok(())
}

/// Returns the list of the vertices that have a product.
fn waiting_at(
    alloc: Global,
    sets: &Universe,
    game: &GuardedGame,
    part: &[Subset],
) -> Result<Worklist, AllocError>
    requires { AreSets sets.now (length (graph_of game.now)) part.now }
    ensures count { IfOk result (λ waiting. length waiting ≡ length (graph_of game.now)) }
    ensures waits { IfOk result (λ waiting. (p : List Bool) (v : ℕ) → part_in sets.now part.now p v ≡ true →
        slice_index_or waiting v false ≡ true) }
{
    let mut waiting = Worklist::new(alloc, part.len())?;
    for v in 0..game.vertices() as u32 {
        if !sets.is_none(part[v as usize]) {
            waiting.add(v)?;
        }
    }
    Ok(waiting)
}

/// Returns for each vertex the products in which the player draws each play from it into the seeds, within the part.
pub(crate) fn attracted(
    alloc: Global,
    sets: &mut Universe,
    game: &GuardedGame,
    edges: &Edges,
    player: Player,
    part: &[Subset],
    seeds: &[Subset],
    steps: &mut u64,
) -> Result<Vec<Subset>, Stop>
    requires edges { AreAllEdges sets.old (graph_of game.now) edges.now }
    requires part { AreSets sets.old (length (graph_of game.now)) part.now }
    requires seeds { AreSets sets.old (length (graph_of game.now)) seeds.now }
    requires inside { (p : List Bool) → IsWithin (part_in sets.old seeds.now p) (part_in sets.old part.now p) }
    // Where the opponent has no move, there is a seed.
    requires live { (p : List Bool) → IsLiveOrSeed (game_in (graph_of game.now) p) player
        (part_in sets.old part.now p) (part_in sets.old seeds.now p) }
    ensures grown { IsGrown sets.old sets.new }
    ensures sets { IfOk result (λ drawn. AreSets sets.new (length (graph_of game.now)) drawn.items) }
    ensures attractor { IfOk result (λ drawn. (p : List Bool) → IsAttractor (game_in (graph_of game.now) p) player
        (part_in sets.old part.now p) (part_in sets.old seeds.now p) (part_in sets.new drawn.items p)) }
    ensures steps { steps.new ≤ steps.old }
    ensures stopped { IfErr result (StopsAt sets.new steps.new) }
{
    let mut waiting = waiting_at(alloc, sets, game, seeds)?;
    let mut drawn = Vec::from_slice(alloc, seeds)?;
    while let Some(w) = waiting.pop() {
        take_steps(steps, sets.steps_of_a_vertex())?;
        draw(sets, game, edges, player, w, part, &mut drawn, &mut waiting)?;
    }
    Ok(drawn)
}
