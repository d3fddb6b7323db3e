//! Guarded games.
ghost use Rattle.std.specs.Prelude.{◌≡◌, ◌<◌, ◌↔◌, Contains, IsTrue, ℕ, length, IfOk, IfErr, IfSome, MatchResult, slice_get, slice_index_or, Some};
ghost use Rattle.vpg_game.specs.Building.{IsLimited, IsMakingFault};
ghost use Rattle.vpg_game.specs.Game.{NamedGame, top_in, dual_top_in, priorities_of, vertex_ids, no_vertex, graph_of, vertex_in, IsGame, IsAtLimit, SpellsGame, game_of, AreSound};
ghost use Rattle.vpg_game.specs.Naming.{features_named};
ghost use Rattle.vpg_game.specs.Refused.{IsRefused};

use crate::edge::Edge;
use crate::entry::Entry;
use crate::fault::GameFault;
use crate::making::make;
use crate::reading::read_entries;
use crate::vertex::Vertex;
use indexmap::IndexSet;
use std::alloc::Global;
use std::marker::Model;
use vpg_features::{Index, Names};
use vpg_sides::Player;

/// The highest priority of a game. One that is read has lower ones; its dual may have it.
pub const HIGHEST_PRIORITY: u32 = 65_536;

/// A guarded game. Vertices are numbered in the order of the file, features in the order of their names.
pub struct GuardedGame {
    pub(crate) ids: IndexSet<u32>,
    pub(crate) vertices: Vec<Vertex>,
    pub(crate) features: usize,
    pub(crate) tops: (u64, u64),
    // for each feature, the vertices with an edge that names it in its guard
    pub(crate) naming: Index,
}

// Not derived: a derived `drop` would be proved again at each exit that owns such a value.
impl Drop for GuardedGame {
    fn drop(self) {
        let GuardedGame {
            ids: _,
            vertices: _,
            features: _,
            tops: _,
            naming: _,
        } = self;
    }
}

impl Model for GuardedGame {
    ghost use Rattle.std.specs.Prelude.{◌≡◌};
    ghost use Rattle.vpg_game.specs.Game.{NamedGame, IsGame, vertex_ids, priorities_of, top_in, dual_top_in};
    ghost use Rattle.vpg_game.specs.Coding.{game_code};
    ghost use Rattle.vpg_game.specs.Naming.{IsNaming};

    ghost Value = { NamedGame };

    ghost coded = { game_code };

    ghost view = { λ g. record { vertices = g.vertices.items; features = g.features } };

    ghost invariant = { λ g. IsGame (record { vertices = g.vertices.items; features = g.features }) ×
        (g.ids.keys ≡ vertex_ids g.vertices.items) × (g.tops.0 ≡ top_in (priorities_of g.vertices.items)) ×
        (g.tops.1 ≡ dual_top_in (priorities_of g.vertices.items)) × IsNaming g.features g.vertices.items g.naming };
}

impl GuardedGame {
    /// Returns the number of vertices, from 1 to 65,536.
    pub fn vertices(&self) -> usize
        ensures count { result ≡ length self.now.vertices }
        ensures graph { result ≡ length (graph_of self.now) }
        ensures game { IsGame self.now }
    {
        self.vertices.len()
    }

    /// Returns the number of features that its guards are over, at most 512.
    pub fn features(&self) -> usize
        ensures { result ≡ self.now.features }
    {
        self.features
    }

    /// Returns the identifier of a vertex.
    pub fn id(&self, v: u32) -> u32
        requires { v < length self.now.vertices }
        ensures { slice_get (vertex_ids self.now.vertices) v ≡ Some result }
    {
        self.vertices[v as usize].id
    }

    /// Returns the vertex of an identifier.
    pub fn find(&self, id: u32) -> Option<u32>
        ensures found { IfSome result (λ v. slice_get (vertex_ids self.now.vertices) v ≡ Some id) }
        ensures held { (v : ℕ) → slice_get (vertex_ids self.now.vertices) v ≡ Some id → result ≡ Some v }
    {
        match self.ids.get_index_of(&id) {
            Some(v) => Some(v as u32),
            None => None,
        }
    }

    /// Returns who moves at a vertex.
    pub fn owner(&self, v: u32) -> Player
        requires { v < length self.now.vertices }
        ensures value { result ≡ (slice_index_or self.now.vertices v no_vertex).owner }
        ensures graph { result ≡ (vertex_in (graph_of self.now) v).owner }
    {
        self.vertices[v as usize].owner
    }

    /// Returns the priority of a vertex, at most 65,536.
    pub fn priority(&self, v: u32) -> u32
        requires { v < length self.now.vertices }
        ensures value { result ≡ (slice_index_or self.now.vertices v no_vertex).priority }
        ensures graph { result ≡ (vertex_in (graph_of self.now) v).priority }
    {
        self.vertices[v as usize].priority
    }

    /// Returns the edges of a vertex, in the order of their first naming.
    pub fn edges(&self, v: u32) -> &[Edge]
        requires { v < length self.now.vertices }
        ensures value { result.now ≡ (slice_index_or self.now.vertices v no_vertex).edges }
        ensures graph { result.now ≡ (vertex_in (graph_of self.now) v).edges }
    {
        &self.vertices[v as usize].edges
    }

    /// Whether some priority is 65,536. Such a game has no dual.
    pub fn is_at_limit(&self) -> bool
        ensures { IsTrue result ↔ IsAtLimit self.now }
    {
        has_highest(&self.vertices)
    }

    /// Whether two games are the same: over as many features, with the same vertices and edges in the same order.
    pub fn is_same(&self, other: &GuardedGame) -> bool
        ensures { IsTrue result ↔ (self.now ≡ other.now) }
    {
        other.features == self.features && are_same(&self.vertices, &other.vertices)
    }

    /// Returns the numbers of the top measures of the game and of its dual, from 1 to 2^62.
    pub fn tops(&self) -> (u64, u64)
        ensures top { result.0 ≡ top_in (priorities_of self.now.vertices) }
        ensures dual { result.1 ≡ dual_top_in (priorities_of self.now.vertices) }
    {
        self.tops
    }

    /// Returns the vertices with an edge that names the feature in its guard, in file order. A guard has the same value
    /// under any two valuations that agree on the features that it names (`vpg_guards::laws`). So only these vertices
    /// change when more or less is known of the feature.
    pub fn naming(&self, feature: u16) -> &[usize]
        ensures { (v : ℕ) → Contains result.now v ↔
            Contains (features_named (vertex_in (graph_of self.now) v).edges) feature }
    {
        self.naming.numbers(feature)
    }
}

impl GuardedGame {
    /// Returns the game that a text spells, over the features of these names.
    ///
    /// It has at most 65,536 entries and 1,048,576 successors as named, priorities up to 65,535 and identifiers up to
    /// 4,294,967,295. Refusals, in their order: the leftmost of `Syntax`, `BadOwner`, `PriorityTooLarge`, `TooMany` and
    /// `Guard`; `DoubleVertex`; `MissingVertex`; `TooWide`, if the number of the top measure of the game or of its dual
    /// exceeds 2^62. `DoubleVertex` and `MissingVertex` name the first place in the file.
    pub fn read(alloc: Global, text: &[u8], names: &Names) -> Result<GuardedGame, GameFault>
        // The text spells the result.
        ensures found { IfOk result (λ game. SpellsGame names.now text.now game) }
        // A refusal comes only if the text, or its entries, show it.
        ensures refused { IfErr result (IsRefused names.now text.now) }
        // All that the text spells is read, unless memory runs out.
        ensures only { (game : NamedGame) → SpellsGame names.now text.now game →
            MatchResult result (λ g. g ≡ game) (λ e. e ≡ GameFault.Memory) }
    {
        // The contract of `len` says that the names are feature names, each once.
        let features = names.len();
        let entries = read_entries(alloc, text, names)?;
        make(alloc, entries, features)
    }

    /// Returns the game of these entries, over this many features. It is the one that `read` returns for a text that
    /// spells them.
    ///
    /// Refusals, in their order: `DoubleVertex`; `MissingVertex`; `TooWide`, if the number of the top measure of the
    /// game or of its dual exceeds 2^62. The first two name the first place among the entries.
    pub fn of(
        alloc: Global,
        entries: Vec<Entry>,
        feature_count: usize,
    ) -> Result<GuardedGame, GameFault>
        // The entries are within the limits of a text.
        requires { IsLimited feature_count entries.items }
        ensures made { IfOk result (λ game. game ≡ game_of feature_count entries.items) }
        ensures sound { IfOk result (λ _. AreSound entries.items) }
        // A refusal comes only if the entries show it.
        ensures refused { IfErr result (IsMakingFault entries.items) }
        // Sound entries make a game, unless memory runs out.
        ensures only { AreSound entries.items → IfErr result (λ fault. fault ≡ GameFault.Memory) }
    {
        make(alloc, entries, feature_count)
    }
}

/// Whether the vertices are the same, in order.
fn are_same(vertices: &[Vertex], others: &[Vertex]) -> bool
    ensures { IsTrue result ↔ (vertices.now ≡ others.now) }
{
    if vertices.len() != others.len() {
        return false;
    }
    for v in 0..vertices.len() {
        if !vertices[v].is_same(&others[v]) {
            return false;
        }
    }
    true
}

/// Whether a vertex has the highest priority.
fn has_highest(vertices: &[Vertex]) -> bool
    ensures { IsTrue result ↔ Contains (priorities_of vertices.now) 65536 }
{
    for vertex in vertices {
        if vertex.priority == HIGHEST_PRIORITY {
            return true;
        }
    }
    false
}
