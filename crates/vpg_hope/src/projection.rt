//! The projection of a guarded game to a product.
ghost use Rattle.std.specs.Prelude.{◌≡◌, ◌↔◌, length, IfOk, OnOk, Err};
ghost use Rattle.vpg_diagram.specs.FeatureDiagram.{feature_count, IsProduct};
ghost use Rattle.vpg_hope.specs.Plain.{projection};

use crate::plain::PlainGame;
use std::alloc::Global;
use thiserror::Error;
use vpg_diagram::Diagram;
use vpg_game::GuardedGame;

/// Why a game isn't projected.
#[derive(Clone, Copy, Debug, PartialEq, Eq, Error)]
pub enum ProjectFault {
    /// The set of features is no product of the diagram.
    #[error("NotAProduct")]
    NotAProduct,
    /// Memory ran out.
    #[error("Memory")]
    Memory,
}

/// Returns the plain game of a product, given as one value for each feature: all vertices, and the edges with guards
/// that the product satisfies (FASE 2020). A set that is no product of the diagram is refused.
pub fn project(
    alloc: Global,
    game: &GuardedGame,
    diagram: &Diagram,
    set: &[bool],
) -> Result<PlainGame, ProjectFault>
    requires features { feature_count diagram.now.lines ≡ game.now.features }
    requires set { length set.now ≡ game.now.features }
    ensures game { IfOk result (λ plain. plain ≡ projection set.now game.now) }
    ensures product { OnOk result (IsProduct diagram.now.lines set.now) }
    ensures refused { (result ≡ Err ProjectFault.NotAProduct) ↔ ¬ (IsProduct diagram.now.lines set.now) }
{
    if !diagram.is_product(set) {
        return Err(ProjectFault::NotAProduct);
    }
    let Ok(plain) = PlainGame::of(alloc, game, set) else {
        return Err(ProjectFault::Memory);
    };
    Ok(plain)
}
