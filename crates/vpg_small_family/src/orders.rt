//! Orders of decisions on a family.

ghost use Rattle.std.specs.Arc.{arc_value};
ghost use Rattle.std.specs.Prelude.{◌≡◌, ◌↔◌, ◌<◌, map, IsTrue, All};
ghost use Rattle.vpg_diagram.specs.FeatureDiagram.{feature_count};
ghost use Rattle.vpg_partial.specs.Known.{literal_of};
ghost use Rattle.vpg_partial.specs.TableLaws.{AreChoicesOf};

use std::alloc::{AllocError, Global};
use std::sync::Arc;
use vpg_diagram::Diagram;
use vpg_game::GuardedGame;
use vpg_measure::laws::orders::zeros_are_opening;
use vpg_measure::{Order, Refused, Shape, Table};
use vpg_partial::Decision;

/// Whether each decision is of one of this many features.
pub fn are_below(features: usize, decisions: &[Decision]) -> bool
    ensures { IsTrue result ↔ All (λ d. d.feature < features) decisions.now }
{
    decisions.iter().all(|d| (d.feature as usize) < features)
}

/// Whether a game has a diagram's features, and each decision is of one.
pub fn fit(game: &GuardedGame, diagram: &Diagram, decisions: &[Decision]) -> bool
    ensures features { IsTrue result → game.now.features ≡ feature_count diagram.now.lines }
    ensures named { IsTrue result → AreChoicesOf diagram.now.lines (map literal_of decisions.now) }
{
    if game.features() != diagram.features() {
        return false;
    }
    are_below(diagram.features(), decisions)
}

/// Returns the order of decisions with two tables of zeros, or why there is none.
pub fn order_of(
    alloc: Global,
    game: Arc<GuardedGame>,
    diagram: Arc<Diagram>,
    decisions: Vec<Decision>,
) -> Result<Result<Order, Refused>, AllocError>
    requires features { (arc_value game).features ≡ feature_count (arc_value diagram).lines }
    requires named { AreChoicesOf (arc_value diagram).lines (map literal_of decisions.items) }
{
    zeros_are_opening();
    let vertices = game.vertices() as u32;
    let shape = Shape::of(alloc, &game)?;
    let dual_shape = Shape::of_dual(alloc, &game)?;
    let hopeful = Table::zero(alloc, &shape, vertices)?;
    let dual = Table::zero(alloc, &dual_shape, vertices)?;
    Ok(Order::of(alloc, game, diagram, decisions, hopeful, dual))
}
