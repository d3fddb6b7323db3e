//! The vertices that change when more or less is known.
ghost use Rattle.std.specs.Prelude.{◌≡◌, ◌≢◌, ◌<◌, ◌≤◌, ℕ, All, Contains, IfOk, length, slice_index_or, false, true};
ghost use Rattle.vpg_game.specs.Game.{graph_of, vertex_in};
ghost use Rattle.vpg_game.specs.Naming.{features_named};
ghost use Rattle.vpg_hope.specs.Selection.{AreStill};

use std::alloc::{AllocError, Global};
use vpg_game::GuardedGame;
use vpg_guards::Tri;

/// Marks these vertices.
fn mark_each(marks: &mut [bool], vertices: &[usize])
    requires { All (λ v. v < length marks.old) vertices.now }
    ensures count { length marks.new ≡ length marks.old }
    ensures kept { (v : ℕ) → slice_index_or marks.old v false ≡ true → slice_index_or marks.new v false ≡ true }
    ensures marked { (v : ℕ) → Contains vertices.now v → slice_index_or marks.new v false ≡ true }
{
    for v in vertices {
        marks[*v] = true;
    }
}

/// Marks the vertices that name the feature, if its value is another one now.
fn mark_changed(marks: &mut [bool], game: &GuardedGame, feature: u16, before: Tri, now: Tri)
    requires { length marks.old ≡ length (graph_of game.now) }
    ensures count { length marks.new ≡ length marks.old }
    ensures kept { (v : ℕ) → slice_index_or marks.old v false ≡ true → slice_index_or marks.new v false ≡ true }
    ensures marked { before ≢ now → (v : ℕ) →
        Contains (features_named (vertex_in (graph_of game.now) v).edges) feature →
        slice_index_or marks.new v false ≡ true }
{
    if before == now {
        return;
    }
    mark_each(marks, game.naming(feature));
}

/// Marks the vertices that name a feature with another value now. At the others each guard keeps its value.
fn mark_all(marks: &mut [bool], game: &GuardedGame, before: &[Tri], now: &[Tri])
    requires count { length marks.old ≡ length (graph_of game.now) }
    requires few { length before.now ≤ 512 }
    requires same { length now.now ≡ length before.now }
    ensures count { length marks.new ≡ length marks.old }
    ensures still { (v : ℕ) → slice_index_or marks.new v false ≡ false →
        AreStill before.now now.now (vertex_in (graph_of game.now) v).edges }
{
    for f in 0..before.len() {
        mark_changed(marks, game, f as u16, before[f], now[f]);
    }
}

/// Returns for each vertex whether it names a feature with another value now.
pub(crate) fn concerned(
    alloc: Global,
    game: &GuardedGame,
    before: &[Tri],
    now: &[Tri],
) -> Result<Vec<bool>, AllocError>
    requires before { length before.now ≡ game.now.features }
    requires now { length now.now ≡ game.now.features }
    ensures count { IfOk result (λ marks. length marks.items ≡ length (graph_of game.now)) }
    ensures still { IfOk result
        (λ marks. (v : ℕ) → slice_index_or marks.items v false ≡ false →
        AreStill before.now now.now (vertex_in (graph_of game.now) v).edges) }
{
    let vertices = game.vertices();
    let mut marks = vec![in alloc; false; vertices]?;
    mark_all(&mut marks, game, before, now);
    Ok(marks)
}
