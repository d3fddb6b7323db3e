//! Raising a table by certified bounds. Definitions: `specs/Bounds`, this project's own over the measures of Jurdzinski
//! 2000.
ghost use Rattle.std.specs.Prelude.{◌≡◌, ◌↔◌, ℕ, ◌<◌, ◌≤◌, max, List, length, All, Any, IsTrue, MatchBool, slice_index};
ghost use Rattle.vpg_game.specs.Levels.{top_of};
ghost use Rattle.vpg_hope.specs.Arena.{vertex_at};
ghost use Rattle.vpg_measure.specs.Bounds.{Supports, IsSupported, AreSupported};
ghost use Rattle.vpg_measure.specs.Lifts.{IsTableOf, IsProgressTable, IsBelowTable};

use crate::shape::{Shape, next_prog, prog};
use crate::table::Table;
use vpg_hope::Arena;
use vpg_sides::Player;

/// Values to which a table is to be raised, with the ranks that show that no progress table is below them.
#[derive(Drop)]
pub struct Certificate {
    /// At most the top of the table's shape, one for each vertex.
    pub bounds: Table,
    /// At most the top of the shape of the dual, one for each vertex.
    pub ranks: Table,
}

// Whether the edge from v, a vertex of this priority, to w supports the bound of v.
fn supports(
    shape: &Shape,
    dual_shape: &Shape,
    certificate: &Certificate,
    priority: u32,
    v: u32,
    w: u32,
) -> bool
    requires bound { v < length certificate.now.bounds }
    requires rank { v < length certificate.now.ranks }
    requires next_bound { w < length certificate.now.bounds }
    requires next_rank { w < length certificate.now.ranks }
    requires bounds { All (λ n. n ≤ top_of shape.now) certificate.now.bounds }
    requires ranks { All (λ n. n ≤ top_of dual_shape.now) certificate.now.ranks }
    ensures { IsTrue result ↔
        Supports shape.now dual_shape.now certificate.now.bounds certificate.now.ranks priority
        (slice_index certificate.now.bounds v) (slice_index certificate.now.ranks v) w }
{
    let Certificate { bounds, ranks } = certificate;
    bounds.get(v) <= prog(shape, priority, bounds.get(w))
        && next_prog(dual_shape, priority, ranks.get(w)) <= ranks.get(v)
}

// Whether every edge from v to one of these supports the bound of v.
fn all_support(
    shape: &Shape,
    dual_shape: &Shape,
    certificate: &Certificate,
    priority: u32,
    v: u32,
    kept: &[u32],
) -> bool
    requires bound { v < length certificate.now.bounds }
    requires kept { All (λ w. w < length certificate.now.bounds) kept.now }
    requires count { length certificate.now.ranks ≡ length certificate.now.bounds }
    requires bounds { All (λ n. n ≤ top_of shape.now) certificate.now.bounds }
    requires ranks { All (λ n. n ≤ top_of dual_shape.now) certificate.now.ranks }
    ensures { IsTrue result ↔
        All (λ w. Supports shape.now dual_shape.now certificate.now.bounds certificate.now.ranks priority
        (slice_index certificate.now.bounds v) (slice_index certificate.now.ranks v) w) kept.now }
{
    for w in kept {
        if !supports(shape, dual_shape, certificate, priority, v, *w) {
            return false;
        }
    }
    true
}

// Whether some edge from v to one of these supports the bound of v.
fn some_supports(
    shape: &Shape,
    dual_shape: &Shape,
    certificate: &Certificate,
    priority: u32,
    v: u32,
    kept: &[u32],
) -> bool
    requires bound { v < length certificate.now.bounds }
    requires kept { All (λ w. w < length certificate.now.bounds) kept.now }
    requires count { length certificate.now.ranks ≡ length certificate.now.bounds }
    requires bounds { All (λ n. n ≤ top_of shape.now) certificate.now.bounds }
    requires ranks { All (λ n. n ≤ top_of dual_shape.now) certificate.now.ranks }
    ensures { IsTrue result ↔
        Any (λ w. Supports shape.now dual_shape.now certificate.now.bounds certificate.now.ranks priority
        (slice_index certificate.now.bounds v) (slice_index certificate.now.ranks v) w) kept.now }
{
    for w in kept {
        if supports(shape, dual_shape, certificate, priority, v, *w) {
            return true;
        }
    }
    false
}

// Whether the bound of v is supported.
fn is_supported(
    shape: &Shape,
    dual_shape: &Shape,
    arena: &Arena,
    certificate: &Certificate,
    v: u32,
) -> bool
    requires vertex { v < length arena.now }
    requires bounds { IsTableOf shape.now arena.now certificate.now.bounds }
    requires ranks { IsTableOf dual_shape.now arena.now certificate.now.ranks }
    ensures supported { IsTrue result ↔
        IsSupported shape.now dual_shape.now certificate.now.bounds certificate.now.ranks (vertex_at arena.now v)
        (slice_index certificate.now.bounds v) (slice_index certificate.now.ranks v) }
    ensures closed { All (λ w. w < length arena.now) (vertex_at arena.now v).successors }
{
    let priority = arena.priority(v);
    let kept = arena.kept(v);
    if certificate.ranks.get(v) == dual_shape.top() {
        return false;
    }
    match arena.owner(v) {
        Player::Even => all_support(shape, dual_shape, certificate, priority, v, kept),
        Player::Odd => some_supports(shape, dual_shape, certificate, priority, v, kept),
    }
}

// Whether every bound that exceeds the table is supported.
fn are_supported(
    shape: &Shape,
    dual_shape: &Shape,
    arena: &Arena,
    certificate: &Certificate,
    table: &Table,
) -> bool
    requires table { IsTableOf shape.now arena.now table.now }
    requires bounds { IsTableOf shape.now arena.now certificate.now.bounds }
    requires ranks { IsTableOf dual_shape.now arena.now certificate.now.ranks }
    ensures supported { IsTrue result ↔
        AreSupported shape.now dual_shape.now arena.now table.now certificate.now.bounds certificate.now.ranks }
    ensures closed { IsTrue result → (v : ℕ) → v < length arena.now →
        slice_index table.now v < slice_index certificate.now.bounds v →
        All (λ w. w < length arena.now) (vertex_at arena.now v).successors }
{
    for v in 0..arena.vertices() {
        if table.get(v) < certificate.bounds.get(v)
            && !is_supported(shape, dual_shape, arena, certificate, v)
        {
            return false;
        }
    }
    true
}

// Raises each value to its bound.
fn raise_all(arena: &Arena, bounds: &Table, table: &mut Table)
    requires bounds { length bounds.now ≡ length arena.now }
    requires table { length table.old ≡ length arena.now }
    ensures length { length table.new ≡ length arena.now }
    ensures values { (v : ℕ) → v < length arena.now →
        slice_index table.new v ≡ max (slice_index table.old v) (slice_index bounds.now v) }
{
    for v in 0..arena.vertices() {
        if table.get(v) < bounds.get(v) {
            table.set(v, bounds.get(v));
        }
    }
}

/// Raises each value of a table to its bound, if the certificate supports every bound that exceeds the table, and
/// returns whether it does. `specs/Bounds` defines this support for each edge. Otherwise the table stays as it was.
/// Whatever was guessed, the table stays below each progress table that it was below. The call is one pass over the
/// edges and takes no memory.
pub fn raise_to_bounds(
    shape: &Shape,
    dual_shape: &Shape,
    arena: &Arena,
    certificate: &Certificate,
    table: &mut Table,
) -> bool
    requires table { IsTableOf shape.now arena.now table.old }
    requires bounds { IsTableOf shape.now arena.now certificate.now.bounds }
    requires ranks { IsTableOf dual_shape.now arena.now certificate.now.ranks }
    ensures supported { IsTrue result ↔
        AreSupported shape.now dual_shape.now arena.now table.old certificate.now.bounds certificate.now.ranks }
    ensures raised { MatchBool result
        ((v : ℕ) → v < length arena.now →
        slice_index table.new v ≡ max (slice_index table.old v) (slice_index certificate.now.bounds v))
        (table.new ≡ table.old) }
    ensures reached { IsTrue result → IsBelowTable certificate.now.bounds table.new }
    ensures table { IsTableOf shape.now arena.now table.new }
    ensures above { IsBelowTable table.old table.new }
    ensures below { (other : List ℕ) → IsTableOf shape.now arena.now other → IsProgressTable shape.now arena.now other →
        IsBelowTable table.old other → IsBelowTable table.new other }
{
    if !are_supported(shape, dual_shape, arena, certificate, table) {
        return false;
    }
    raise_all(arena, &certificate.bounds, table);
    true
}
