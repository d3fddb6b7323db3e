//! Whether a product of a page is left.
ghost use Rattle.std.specs.Arc.{arc_value};
ghost use Rattle.std.specs.Prelude.{[], ◌≡◌, IfOk, length, map, replicate};
ghost use Rattle.vpg_diagram.specs.FeatureDiagram.{feature_count};
ghost use Rattle.vpg_looks.specs.Looked.{IsLeft};
ghost use Rattle.vpg_measure.specs.Games.{ArePageGames};
ghost use Rattle.vpg_partial.specs.Known.{literal_of};
ghost use Rattle.vpg_partial.specs.TableLaws.{AreChoicesOf};
ghost use Rattle.vpg_texts.specs.Scene.{scene_of};
ghost use Rattle.vpg_why.specs.Explained.{choices};

use std::alloc::{AllocError, Global};
use std::sync::Arc;
use vpg_diagram::Diagram;
use vpg_game::GuardedGame;
use vpg_measure::{Order, PageGames, Table};
use vpg_partial::Decision;
use vpg_sides::Which;
use vpg_why::{Aim, Found, Limits, find};

/// Whether a product is left.
#[derive(Clone, Copy, Debug, PartialEq, Eq)]
pub(crate) enum Left {
    /// One is left.
    Product,
    /// None is left.
    Nothing,
    /// A limit was met.
    Unsettled,
}

/// Returns the table of a game in which no vertex is raised.
fn zeros(
    alloc: Global,
    game: &GuardedGame,
    games: &PageGames,
    which: Which,
) -> Result<Table, AllocError>
    ensures { IfOk result (λ table. table ≡ replicate (length game.now.vertices) 0) }
{
    Table::zero(alloc, games.shape(which), game.vertices() as u32)
}

/// Returns the order of a page in which no vertex is raised, of what is passed in.
fn order_over(
    alloc: Global,
    game: Arc<GuardedGame>,
    diagram: Arc<Diagram>,
    decisions: Vec<Decision>,
    games: Arc<PageGames>,
) -> Result<Order, AllocError>
    requires features { (arc_value game).features ≡ feature_count (arc_value diagram).lines }
    requires named { AreChoicesOf (arc_value diagram).lines (map literal_of decisions.items) }
    requires games { ArePageGames (arc_value game) (arc_value diagram) (map literal_of decisions.items)
        (arc_value games) }
    ensures game { IfOk result (λ order. order.game ≡ arc_value game) }
    ensures diagram { IfOk result (λ order. order.diagram ≡ arc_value diagram) }
    ensures decisions { IfOk result (λ order. order.decisions ≡ decisions.items) }
{
    let hopeful = zeros(alloc, &game, &games, Which::Hopeful)?;
    let dual = zeros(alloc, &game, &games, Which::Dual)?;
    Order::over(alloc, game, diagram, decisions, games, hopeful, dual)
}

/// Returns the order of a page in which no vertex is raised.
fn order_of(
    alloc: Global,
    games: &Arc<PageGames>,
    game: &Arc<GuardedGame>,
    diagram: &Arc<Diagram>,
    decisions: &[Decision],
) -> Result<Order, AllocError>
    requires features { (arc_value game.now).features ≡ feature_count (arc_value diagram.now).lines }
    requires games { ArePageGames (arc_value game.now) (arc_value diagram.now) (map literal_of decisions.now)
        (arc_value games.now) }
    requires named { AreChoicesOf (arc_value diagram.now).lines (map literal_of decisions.now) }
    ensures game { IfOk result (λ order. order.game ≡ arc_value game.now) }
    ensures diagram { IfOk result (λ order. order.diagram ≡ arc_value diagram.now) }
    ensures decisions { IfOk result (λ order. order.decisions ≡ decisions.now) }
{
    let decisions = Vec::from_slice(alloc, decisions)?;
    order_over(
        alloc,
        game.clone()?,
        diagram.clone()?,
        decisions,
        games.clone()?,
    )
}

/// Returns whether a product of an order's page is left. The order is dropped.
fn sought(alloc: Global, order: Order, limits: Limits) -> Result<Left, AllocError>
    ensures { IfOk result (IsLeft (scene_of [] order.game order.diagram) limits (choices order.decisions)) }
{
    let found = find(alloc, &order, Aim::Any, limits)?;
    match found {
        Found::Product(_) => Ok(Left::Product),
        Found::Nothing => Ok(Left::Nothing),
        Found::Unsettled => Ok(Left::Unsettled),
    }
}

/// Returns whether a product of the page is left.
pub(crate) fn left_on(
    alloc: Global,
    games: &Arc<PageGames>,
    game: &Arc<GuardedGame>,
    diagram: &Arc<Diagram>,
    decisions: &[Decision],
    limits: Limits,
) -> Result<Left, AllocError>
    requires features { (arc_value game.now).features ≡ feature_count (arc_value diagram.now).lines }
    requires games { ArePageGames (arc_value game.now) (arc_value diagram.now) (map literal_of decisions.now)
        (arc_value games.now) }
    requires named { AreChoicesOf (arc_value diagram.now).lines (map literal_of decisions.now) }
    ensures { IfOk result
        (IsLeft (scene_of [] (arc_value game.now) (arc_value diagram.now)) limits (choices decisions.now)) }
{
    let order = order_of(alloc, games, game, diagram, decisions)?;
    sought(alloc, order, limits)
}
