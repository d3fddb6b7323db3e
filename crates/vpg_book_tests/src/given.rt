//! Values that a test is given, or stops without.

ghost use Rattle.std.specs.Arc.{arc_value};
ghost use Rattle.std.specs.Prelude.{◌≡◌};
ghost use Rattle.vpg_diagram.specs.FeatureDiagram.{feature_count};

use std::process::Abort;
use std::sync::Arc;
use std::test::*;
use vpg_diagram::Diagram;
use vpg_game::GuardedGame;
use vpg_small_family::{diagram_of, game_of};

/// Returns the value of a call that isn't refused. It stops a test that is refused.
pub fn given<T, F>(rt: &impl Abort, answer: Result<T, F>) -> T {
    match answer {
        Ok(given) => given,
        Err(_) => rt.panic("refused"),
    }
}

/// Stops a test if this doesn't hold. It takes the prover less than `assert!`, which names the line.
pub fn require(rt: &impl Abort, holds: bool, why: &str) {
    if !holds {
        rt.panic(why)
    }
}

/// Stops a test if this doesn't hold of a row of a table.
pub fn require_at(rt: &impl Abort, holds: bool, table: &str, row: usize) {
    assert!(rt; holds, "{table}, row {row}");
}

/// Returns the game and the diagram that these texts spell.
pub fn family<R: Abort + AllocGlobal>(
    rt: &R,
    game: &[u8],
    diagram: &[u8],
) -> (Arc<GuardedGame>, Arc<Diagram>)
    ensures { (arc_value result.0).features ≡ feature_count (arc_value result.1).lines }
{
    let diagram = given(rt, diagram_of(rt.alloc(), diagram));
    let game = given(rt, game_of(rt.alloc(), game, &diagram));
    assert!(rt; game.features() == diagram.features());
    (game, diagram)
}
