//! The verdicts of all vertices at once.
ghost use Rattle.std.specs.Prelude.{◌≡◌, ◌==◌, ℕ, length, map, zip, IfOk};
ghost use Rattle.vpg_sides.specs.declared.verdict.Verdict.{Verdict as Said};
ghost use Rattle.vpg_desk.specs.Book.{Verdict as AsksVerdict, VerdictIs};
ghost use Rattle.vpg_desk.specs.State.{Replies};
ghost use lib.ListN.{get_elem?};
ghost use mathlib.Core.Option.{some};

use crate::desk::Desk;
use std::alloc::{AllocError, Global};
use vpg_sides::{Verdict, Which};

/// Returns the verdict of each vertex, by its values in two tables and the numbers that stand for the tops of these.
fn verdicts_by(
    alloc: Global,
    hopeful: &[u64],
    dual: &[u64],
    top: u64,
    dual_top: u64,
) -> Result<Vec<Verdict>, AllocError>
    ensures { IfOk result (λ said. said.items ≡
        map (λ p. record { hopeless = p.0 == top; sure = p.1 == dual_top }) (zip hopeful.now dual.now)) }
{
    hopeful
        .iter()
        .zip(dual)
        .map(|(value, dual_value)| Verdict {
            hopeless: *value == top,
            sure: *dual_value == dual_top,
        })
        .collect(alloc)
}

impl Desk {
    /// Returns the verdict of each vertex by the present tables, in file order, as `verdict` does.
    pub fn verdicts(&self, alloc: Global) -> Result<Vec<Verdict>, AllocError>
        ensures count { IfOk result (λ said. length said.items ≡ length self.now.game.vertices) }
        ensures each { IfOk result (λ said. (v : ℕ) (one : Said) → get_elem? said.items v ≡ some one →
            Replies self.now (AsksVerdict v) (VerdictIs one.hopeless one.sure)) }
    {
        let hopeful = self.trail.hopeful();
        let dual = self.trail.dual();
        let top = self.games.shape(Which::Hopeful).top();
        let dual_top = self.games.shape(Which::Dual).top();
        let said = verdicts_by(alloc, hopeful.values(), dual.values(), top, dual_top)?;
        Ok(said)
    }
}
