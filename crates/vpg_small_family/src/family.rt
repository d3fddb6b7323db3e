//! The family of two vertices, and the values made of the texts of a family.

ghost use Rattle.std.specs.Arc.{arc_value};
ghost use Rattle.std.specs.Prelude.{◌≡◌, IfOk};
ghost use Rattle.vpg_diagram.specs.FeatureDiagram.{feature_count};

use anyhow::Result;
use std::alloc::Global;
use std::sync::Arc;
use vpg_diagram::Diagram;
use vpg_game::GuardedGame;

/// The diagram of most examples.
pub const DIAGRAM: &[u8] = b"root r\noptional r f\noptional r g\n";

/// The game of most examples.
pub const GAME: &[u8] = b"parity 1; 0 1 0 1[f],0; 1 2 1 0[g],1;";

/// The feature `f` of this diagram.
pub const F: u16 = 1;

/// The feature `g` of this diagram.
pub const G: u16 = 2;

/// A diagram without a product.
pub const CONTRADICTORY: &[u8] = b"root r\nmandatory r a\nexcludes r a\n";

/// Two alternatives.
pub const ALTERNATIVE: &[u8] = b"root r\nalternative r: a b\n";

/// Returns the diagram that a text spells.
pub fn diagram_of(alloc: Global, text: &[u8]) -> Result<Arc<Diagram>> {
    let diagram = Diagram::read(alloc, text)?;
    Ok(Arc::new(alloc, diagram)?)
}

/// Returns the game that a text spells, by the names of a diagram.
pub fn game_of(alloc: Global, text: &[u8], diagram: &Diagram) -> Result<Arc<GuardedGame>>
    ensures { IfOk result (λ game. (arc_value game).features ≡ feature_count diagram.now.lines) }
{
    let game = GuardedGame::read(alloc, text, diagram.names())?;
    Ok(Arc::new(alloc, game)?)
}

/// Returns both, shared once more.
pub fn shared(
    game: &Arc<GuardedGame>,
    diagram: &Arc<Diagram>,
) -> Option<(Arc<GuardedGame>, Arc<Diagram>)> {
    match (Arc::try_clone(game), Arc::try_clone(diagram)) {
        (Ok(game), Ok(diagram)) => Some((game, diagram)),
        _ => None,
    }
}

/// A game of one vertex.
#[derive(Clone, Copy)]
pub enum Lone {
    /// Of priority 0.
    Zero,
    /// Of priority 65,536, which only a dual has: that of the game of the greatest priority.
    AtLimit,
}

/// Returns the game of one vertex, with the diagram's features.
pub fn lone_game(alloc: Global, diagram: &Diagram, game: Lone) -> Result<Arc<GuardedGame>> {
    match game {
        Lone::Zero => game_of(alloc, b"0 0 0 0;", diagram),
        Lone::AtLimit => {
            let highest = game_of(alloc, b"0 65535 0 0;", diagram)?;
            let dual = highest.dual(alloc)?;
            Ok(Arc::new(alloc, dual)?)
        }
    }
}
