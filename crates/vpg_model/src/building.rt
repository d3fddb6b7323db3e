//! The search.
ghost use Rattle.std.specs.Prelude.{◌≡◌, ◌+◌, ◌≤◌, ◌<◌, length, [], ◌∷◌, map, IfOk, IfErr, IfSome, IfNone};
ghost use Rattle.vpg_game.specs.Game.{graph_of, vertex_ids, priorities_of};
ghost use Rattle.vpg_model.specs.Pairs.{AreDistinct, AreNumbered, AreWithin, HaveGuards, IsPairGame, IsRefused, moves_in, pair_for, pair_moves, targets};
ghost use Rattle.vpg_model.specs.Searching.{IsPlaced, AreSuccessors, IsPairAt, IsNewEntry, AreRoots, IsSearched, IsGrowthFault, IsEntryFault, IsSearchFault};
ghost use Rattle.vpg_model.specs.Laws.{IsGameOfParts};

use crate::fault::ModelFault;
use crate::making::game_of;
use crate::moves::Move;
use crate::source::{Source, owner, priority};
use indexmap::IndexSet;
use std::alloc::Global;
use vpg_game::{Entry, GuardedGame, Successor};

/// The greatest number of vertices of a game.
pub const MOST_VERTICES: usize = 65_536;

/// The greatest number of moves of a game, before those to the same vertex are joined.
pub const MOST_MOVES: usize = 1_048_576;

/// A game, and the pair of each of its vertices.
#[derive(Drop)]
pub struct Built {
    /// The state and the part of each vertex.
    pub pairs: IndexSet<(u32, u32)>,
    /// The vertices of the roots.
    pub roots: Vec<usize>,
    /// The game. The identifier of each vertex is its number.
    pub game: GuardedGame,
}

/// Returns the vertex of a pair. A new pair is added at the end.
fn place(pairs: &mut IndexSet<(u32, u32)>, pair: (u32, u32)) -> Result<usize, ModelFault>
    ensures placed { IfOk result (λ at. IsPlaced pairs.old.keys pairs.new.keys pair at) }
    ensures refused { IfErr result (IsGrowthFault pairs.old.keys pairs.new.keys (pair ∷ [])) }
{
    let Ok((at, _)) = pairs.insert_full(pair) else {
        return Err(ModelFault::Memory);
    };
    if pairs.len() > MOST_VERTICES {
        return Err(ModelFault::TooManyVertices);
    }
    Ok(at)
}

/// Returns the successors of a vertex with these moves.
fn successors(
    alloc: Global,
    pairs: &mut IndexSet<(u32, u32)>,
    moves: Vec<Move>,
) -> Result<Vec<Successor>, ModelFault>
    ensures successors { IfOk result
        (λ successors. AreSuccessors pairs.old.keys pairs.new.keys moves.items successors.items) }
    ensures refused { IfErr result (IsGrowthFault pairs.old.keys pairs.new.keys (targets moves.items)) }
{
    let mut successors = Vec::with_capacity(alloc, moves.len())?;
    for step in moves {
        let Move { guard, to } = step;
        let at = place(pairs, to)?;
        successors.push(Successor {
            id: at as u32,
            guard,
        })?;
    }
    Ok(successors)
}

/// Returns the vertices of the roots.
fn place_roots(
    alloc: Global,
    source: &Source,
    pairs: &mut IndexSet<(u32, u32)>,
    first: u32,
    roots: &[u32],
) -> Result<Vec<usize>, ModelFault>
    ensures placed { IfOk result (λ places. AreRoots pairs.old.keys pairs.new.keys
        (map (pair_for source.now.parts.items first) roots.now) places.items) }
    ensures refused { IfErr result (IsGrowthFault pairs.old.keys pairs.new.keys
        (map (pair_for source.now.parts.items first) roots.now)) }
{
    let mut places = Vec::new(alloc);
    for root in roots {
        places.push(place(pairs, source.pair_for(first, *root))?)?;
    }
    Ok(places)
}

/// Returns the pair of this number.
fn pair_of(pairs: &IndexSet<(u32, u32)>, at: usize) -> Option<(u32, u32)>
    ensures found { IfSome result (λ pair. IsPairAt pairs.now.keys at pair) }
    ensures none { IfNone result (length pairs.now.keys ≤ at) }
{
    if at < pairs.len() {
        match pairs.get_index(at) {
            Some(pair) => Some(*pair),
            None => None,
        }
    } else {
        None
    }
}

/// Returns the entry of a pair, which has this number. The pairs that its moves lead to are added, and their number is
/// added to the count.
fn entry(
    alloc: Global,
    source: &Source,
    pairs: &mut IndexSet<(u32, u32)>,
    from: (u32, u32),
    at: u32,
    count: &mut usize,
) -> Result<Entry, ModelFault>
    requires few { count.old ≤ 1048576 }
    ensures entry { IfOk result (λ entry. IsNewEntry source.now.states.items source.now.sets.items
        source.now.parts.items pairs.old.keys pairs.new.keys from at entry) }
    ensures counted { IfOk result (λ _. count.new ≡ count.old + length (pair_moves source.now.states.items
        source.now.sets.items source.now.parts.items from)) }
    ensures few { IfOk result (λ _. count.new ≤ 1048576) }
    ensures refused { IfErr result (IsEntryFault source.now.states.items source.now.sets.items
        source.now.parts.items pairs.old.keys pairs.new.keys from count.old) }
{
    let moves = source.moves(alloc, from)?;
    let room = MOST_MOVES - *count;
    if moves.len() > room {
        return Err(ModelFault::TooManyEdges);
    }
    *count += moves.len();
    let part = source.resolved_part(from.1);
    let successors = successors(alloc, pairs, moves)?;
    Ok(Entry {
        id: at,
        priority: priority(part),
        owner: owner(part),
        successors,
    })
}

/// Returns the entries of the pairs and of those that their moves lead to, which are added to them.
fn entries(
    alloc: Global,
    source: &Source,
    pairs: &mut IndexSet<(u32, u32)>,
) -> Result<Vec<Entry>, ModelFault>
    requires small { length pairs.old.keys ≤ 65536 }
    requires distinct { AreDistinct pairs.old.keys }
    ensures searched { IfOk result (λ entries. IsSearched source.now.states.items source.now.sets.items
        source.now.parts.items pairs.old.keys pairs.new.keys entries.items (moves_in source.now.states.items
        source.now.sets.items source.now.parts.items pairs.new.keys)) }
    ensures all { IfOk result (λ entries. length pairs.new.keys ≤ length entries.items) }
    ensures few { IfOk result (λ _. moves_in source.now.states.items source.now.sets.items source.now.parts.items
        pairs.new.keys ≤ 1048576) }
    ensures refused { IfErr result (IsSearchFault source.now.states.items source.now.sets.items
        source.now.parts.items pairs.old.keys) }
{
    let mut entries = Vec::new(alloc);
    let mut count = 0;
    while let Some(pair) = pair_of(pairs, entries.len()) {
        let at = entries.len() as u32;
        let entry = entry(alloc, source, pairs, pair, at, &mut count)?;
        entries.push(entry)?;
    }
    Ok(entries)
}

/// Returns the game of the requirements with these parts as roots, from this state on. It has what can be reached, in
/// the order of a breadth-first search.
///
/// The game has at most 65,536 vertices and 1,048,576 moves, before those to the same vertex are joined. `true` and
/// `false` have at most one vertex each. A target that is reached twice has the `or` of its guards, in file order.
///
/// `TooManyVertices`: more vertices can be reached. `TooManyEdges`: vertices that can be reached have more moves. The
/// search stops at the first of the two that it meets. Then `TooWide`: a priority is 65,536 or more, or the top measure
/// of the game or of its dual exceeds 2^62.
pub fn build(alloc: Global, source: &Source, first: u32, roots: &[u32]) -> Result<Built, ModelFault>
    requires some { 0 < length roots.now }
    requires few_features { source.now.features ≤ 512 }
    requires guards { HaveGuards source.now.features source.now.states.items }
    // The vertices are pairs, a row for each. Each is a root, or a move of an earlier one leads to it.
    ensures pairs { IfOk result (λ built. IsPairGame source.now.states.items source.now.sets.items
        source.now.parts.items (map (pair_for source.now.parts.items first) roots.now) built.pairs.keys
        built.roots.items (graph_of built.game)) }
    // So it is the game of the system and of the normal forms of the parts.
    ensures game { IfOk result (λ built. IsGameOfParts source.now.states.items source.now.sets.items
        source.now.parts.items first roots.now built.pairs.keys built.roots.items (graph_of built.game)) }
    ensures numbered { IfOk result (λ built. AreNumbered (vertex_ids built.game.vertices)) }
    ensures features { IfOk result (λ built. built.game.features ≡ source.now.features) }

    // It is within the limits, and a game is refused only for them.
    ensures small { IfOk result (λ built. length built.pairs.keys ≤ 65536) }
    ensures few { IfOk result (λ built. moves_in source.now.states.items source.now.sets.items source.now.parts.items
        built.pairs.keys ≤ 1048576) }
    ensures within { IfOk result (λ built. AreWithin (priorities_of built.game.vertices)) }
    ensures refused { IfErr result (IsRefused source.now.states.items source.now.sets.items source.now.parts.items
        (map (pair_for source.now.parts.items first) roots.now)) }
{
    let mut pairs = IndexSet::new(alloc);
    let roots = place_roots(alloc, source, &mut pairs, first, roots)?;
    let entries = entries(alloc, source, &mut pairs)?;
    let game = game_of(alloc, entries, source.features)?;
    Ok(Built { pairs, roots, game })
}
