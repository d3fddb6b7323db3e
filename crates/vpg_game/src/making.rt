//! The game that entries spell.
ghost use Rattle.std.specs.Prelude.{◌≡◌, ◌+◌, ◌<◌, ◌≤◌, ◌^◌, ℕ, [], length, map, IfOk, IfErr, SomeIff, slice_index_or};
ghost use Rattle.vpg_game.specs.Spelled.{SpelledEntry};
ghost use Rattle.vpg_game.specs.Game.{entry_ids, entry_priorities, AreDistinct, joined_edges, AllHeld, AllFound, vertex_of, game_of, top_in, dual_top_in, IsNarrow, AreSound};
ghost use Rattle.vpg_game.specs.Levels.{top_of, levels_of};
ghost use Rattle.vpg_game.specs.Naming.{IsNaming};
ghost use Rattle.vpg_game.specs.Building.{IsNumberingFault, IsJoiningFault, IsResolvingFault, IsMakingFault, IsLimited};

use crate::edge::Edge;
use crate::edges::join_edge;
use crate::entry::{Entry, Successor};
use crate::fault::GameFault;
use crate::game::GuardedGame;
use crate::levels::top_within_limit;
use crate::naming::naming_of;
use crate::vertex::Vertex;
use indexmap::IndexSet;
use std::alloc::{AllocError, Global};
use vpg_features::Index;

/// Returns the identifiers of entries, in order.
fn numbered(alloc: Global, entries: &[Entry]) -> Result<IndexSet<u32>, GameFault>
    ensures ok { IfOk result (λ ids. (ids.keys ≡ entry_ids entries.now) × AreDistinct ids.keys) }
    ensures err { IfErr result (IsNumberingFault (entry_ids entries.now)) }
{
    let Ok(mut ids) = IndexSet::with_capacity(alloc, entries.len()) else {
        return Err(GameFault::Memory);
    };
    for entry in entries {
        match ids.insert(entry.id) {
            Ok(true) => {}
            Ok(false) => return Err(GameFault::DoubleVertex { id: entry.id }),
            Err(_) => return Err(GameFault::Memory),
        }
    }
    Ok(ids)
}

/// Returns the edges that the successors of an entry name. `places` is room for one number per vertex.
fn joined(
    alloc: Global,
    ids: &IndexSet<u32>,
    successors: Vec<Successor>,
    places: &mut [usize],
) -> Result<Vec<Edge>, GameFault>
    requires same { length places.old ≡ length ids.now.keys }
    requires small { length places.old ≤ 2 ^ 32 }
    ensures ok { IfOk result (λ edges. edges.items ≡ joined_edges ids.now.keys [] successors.items) }
    ensures found { IfOk result (λ edges. AllHeld ids.now.keys successors.items) }
    ensures err { IfErr result (IsJoiningFault ids.now.keys successors.items) }
{
    let Ok(mut edges) = Vec::with_capacity(alloc, successors.len()) else {
        return Err(GameFault::Memory);
    };
    for successor in successors {
        let Successor { id, guard } = successor;
        let Some(to) = ids.get_index_of(&id) else {
            return Err(GameFault::MissingVertex { id });
        };
        let Ok(_) = join_edge(alloc, &mut edges, places, to, guard) else {
            return Err(GameFault::Memory);
        };
    }
    Ok(edges)
}

/// Returns the vertices that entries spell, their targets looked up.
fn resolved(
    alloc: Global,
    ids: &IndexSet<u32>,
    entries: Vec<Entry>,
) -> Result<Vec<Vertex>, GameFault>
    requires { length ids.now.keys ≤ 2 ^ 32 }
    ensures ok { IfOk result (λ vertices. vertices.items ≡ map (vertex_of ids.now.keys) entries.items) }
    ensures found { IfOk result (λ _. AllFound ids.now.keys entries.items) }
    ensures err { IfErr result (IsResolvingFault ids.now.keys entries.items) }
{
    let Ok(mut places) = vec![in alloc; 0usize; ids.len()] else {
        return Err(GameFault::Memory);
    };
    let Ok(mut vertices) = Vec::with_capacity(alloc, entries.len()) else {
        return Err(GameFault::Memory);
    };
    for entry in entries {
        let Entry {
            id,
            priority,
            owner,
            successors,
        } = entry;
        let edges = joined(alloc, ids, successors, &mut places)?;
        let Ok(_) = vertices.push(Vertex {
            id,
            owner,
            priority,
            edges,
        }) else {
            return Err(GameFault::Memory);
        };
    }
    Ok(vertices)
}

/// Returns the priorities of entries, and those of the dual game.
fn priorities(alloc: Global, entries: &[Entry]) -> Result<(Vec<u32>, Vec<u32>), AllocError>
    requires { (i : ℕ) → (e : SpelledEntry) → i < length entries.now → e ≡ slice_index_or entries.now i e →
        e.priority < 65536 }
    ensures own { IfOk result (λ v. v.0.items ≡ entry_priorities entries.now) }
    ensures dual { IfOk result (λ v. v.1.items ≡ map (λ p. p + 1) (entry_priorities entries.now)) }
{
    let mut own = Vec::with_capacity(alloc, entries.len())?;
    let mut dual = Vec::with_capacity(alloc, entries.len())?;
    for entry in entries {
        own.push(entry.priority)?;
        dual.push(entry.priority + 1)?;
    }
    Ok((own, dual))
}

/// Returns the numbers of the top measures over these priorities and over those of the dual, if both are within the
/// limit.
fn tops_of(alloc: Global, own: &[u32], dual: &[u32]) -> Result<Option<(u64, u64)>, AllocError>
    ensures { IfOk result (λ tops.
        SomeIff tops ((top_of (levels_of own.now) ≤ 2 ^ 62) × (top_of (levels_of dual.now) ≤ 2 ^ 62))
        (top_of (levels_of own.now), top_of (levels_of dual.now))) }
{
    let Some(top) = top_within_limit(alloc, own)? else {
        return Ok(None);
    };
    let Some(dual_top) = top_within_limit(alloc, dual)? else {
        return Ok(None);
    };
    Ok(Some((top, dual_top)))
}

/// Returns the numbers of the top measures over the priorities of entries, if both are within the limit.
fn tops(alloc: Global, entries: &[Entry]) -> Result<Option<(u64, u64)>, AllocError>
    requires { (i : ℕ) → (e : SpelledEntry) → i < length entries.now → e ≡ slice_index_or entries.now i e →
        e.priority < 65536 }
    ensures { IfOk result (λ tops.
        SomeIff tops (IsNarrow (entry_priorities entries.now))
        (top_in (entry_priorities entries.now), dual_top_in (entry_priorities entries.now))) }
{
    let (own, dual) = priorities(alloc, entries)?;
    tops_of(alloc, &own, &dual)
}

/// The vertices, tops and index that a game keeps with its identifiers.
#[derive(Drop)]
struct Parts {
    vertices: Vec<Vertex>,
    tops: (u64, u64),
    naming: Index,
}

/// Returns the parts of the game that entries with these identifiers spell.
fn parts_of(
    alloc: Global,
    ids: &IndexSet<u32>,
    entries: Vec<Entry>,
    features: usize,
) -> Result<Parts, GameFault>
    requires limited { IsLimited features entries.items }
    requires ids { ids.now.keys ≡ entry_ids entries.items }
    requires distinct { AreDistinct ids.now.keys }
    ensures vertices { IfOk result
        (λ parts. parts.vertices.items ≡ map (vertex_of (entry_ids entries.items)) entries.items) }
    ensures sound { IfOk result (λ _. AreSound entries.items) }
    ensures tops { IfOk result
        (λ parts. parts.tops ≡ (top_in (entry_priorities entries.items), dual_top_in (entry_priorities entries.items))) }
    ensures naming { IfOk result (λ parts. IsNaming features parts.vertices.items parts.naming) }
    ensures err { IfErr result (IsMakingFault entries.items) }
{
    let Ok(tops) = tops(alloc, &entries) else {
        return Err(GameFault::Memory);
    };
    let vertices = resolved(alloc, ids, entries)?;
    let Some(tops) = tops else {
        return Err(GameFault::TooWide);
    };
    let Ok(naming) = naming_of(alloc, features, &vertices) else {
        return Err(GameFault::Memory);
    };
    Ok(Parts {
        vertices,
        tops,
        naming,
    })
}

/// Returns the game that entries spell.
pub(crate) fn make(
    alloc: Global,
    entries: Vec<Entry>,
    features: usize,
) -> Result<GuardedGame, GameFault>
    requires { IsLimited features entries.items }
    ensures ok { IfOk result (λ game. game ≡ game_of features entries.items) }
    ensures sound { IfOk result (λ _. AreSound entries.items) }
    ensures err { IfErr result (IsMakingFault entries.items) }
{
    let ids = numbered(alloc, &entries)?;
    match parts_of(alloc, &ids, entries, features) {
        Ok(
            Parts {
                vertices,
                tops,
                naming,
            },
        ) => Ok(GuardedGame {
            ids,
            vertices,
            features,
            tops,
            naming,
        }),
        Err(fault) => Err(fault),
    }
}
