//! Orders of fewer decisions, with tables that trials begin with.
ghost use Rattle.std.specs.Arc.{arc_value};
ghost use Rattle.std.specs.Prelude.{◌≡◌, ◌↔◌, ◌≤◌, Contains, IfOk, IsTrue};
ghost use Rattle.vpg_measure.specs.Games.{AreGamesOf, ArePageGames, games_arena, games_levels};
ghost use Rattle.vpg_measure.specs.Least.{IsBelowProgressTables};
ghost use Rattle.vpg_measure.specs.Lifts.{IsTableOf};
ghost use Rattle.vpg_measure.specs.Orders.{IsOrder};
ghost use Rattle.vpg_partial.specs.Known.{literal_of};
ghost use Rattle.vpg_partial.specs.TableLaws.{AreAmong, AreChoicesOf};
ghost use Rattle.vpg_why.specs.Explained.{choices};

use crate::asking::{first_table, games_with};
use crate::settling::raise_for;
use std::alloc::{AllocError, Global};
use std::sync::Arc;
use vpg_diagram::Diagram;
use vpg_game::GuardedGame;
use vpg_measure::{Order, PageGames, Shape, Table};
use vpg_partial::Decision;
use vpg_sides::Which;

/// Whether some decision makes the choice of this one.
pub(crate) fn has_choice(decisions: &[Decision], one: &Decision) -> bool
    ensures { IsTrue result ↔ Contains (choices decisions.now) (literal_of one.now) }
{
    decisions
        .iter()
        .any(|d| d.feature == one.feature && d.value == one.value)
}

/// Whether each choice of some decisions is one of others.
pub fn are_among(few: &[Decision], many: &[Decision]) -> bool
    ensures { IsTrue result ↔ AreAmong (choices few.now) (choices many.now) }
{
    few.iter().all(|d| has_choice(many, d))
}

// A table below every progress table of one of the two games, raised by certified bounds if it is to be.
fn table_under(
    alloc: Global,
    order: &Order,
    games: &PageGames,
    which: Which,
    raised: &[Which],
    looks: &mut u64,
) -> Result<Table, AllocError>
    requires { AreGamesOf order.now.game order.now.diagram games.now }
    ensures table { IfOk result (IsTableOf (games_levels which games.now) (games_arena which games.now)) }
    ensures below { IfOk result (IsBelowProgressTables (games_levels which games.now) (games_arena which games.now)) }
    ensures looks { IfOk result (λ table. looks.new ≤ looks.old) }
{
    let shape = games.shape(which);
    let arena = games.arena(which);
    let mut table = first_table(alloc, order, games, which)?;
    if !raised.contains(&which) {
        return Ok(table);
    }
    let again = Shape::of_dual_of_dual(alloc, order.game())?;
    let dual_shape = match which {
        Which::Hopeful => games.shape(Which::Dual),
        Which::Dual => &again,
    };
    raise_for(alloc, shape, dual_shape, arena, &mut table, looks)?;
    Ok(table)
}

// The order's game and diagram, to be shared.
fn shares(order: &Order) -> Result<(Arc<GuardedGame>, Arc<Diagram>), AllocError>
    ensures game { IfOk result (λ shared. arc_value shared.0 ≡ order.now.game) }
    ensures diagram { IfOk result (λ shared. arc_value shared.1 ≡ order.now.diagram) }
    ensures order { IsOrder order.now }
{
    Ok((order.game().clone()?, order.diagram().clone()?))
}

// The order of these decisions over their games.
fn order_over(
    alloc: Global,
    order: &Order,
    games: PageGames,
    decisions: &[Decision],
    raised: &[Which],
    looks: &mut u64,
) -> Result<Order, AllocError>
    requires named { AreChoicesOf order.now.diagram.lines (choices decisions.now) }
    requires games { ArePageGames order.now.game order.now.diagram (choices decisions.now) games }
    ensures game { IfOk result (λ under. under.game ≡ order.now.game) }
    ensures diagram { IfOk result (λ under. under.diagram ≡ order.now.diagram) }
    ensures decisions { IfOk result (λ under. under.decisions ≡ decisions.now) }
    ensures order { IfOk result IsOrder }
    ensures looks { IfOk result (λ under. looks.new ≤ looks.old) }
{
    let hopeful = table_under(alloc, order, &games, Which::Hopeful, raised, looks)?;
    let dual = table_under(alloc, order, &games, Which::Dual, raised, looks)?;
    let own = Vec::from_slice(alloc, decisions)?;
    let shared = games.share(alloc)?;
    let (game, diagram) = shares(order)?;
    let under = Order::over(alloc, game, diagram, own, shared, hopeful, dual)?;
    Ok(under)
}

/// Returns the order of some of the page's decisions alone, over the same game and diagram. Its tables lie below every
/// progress table. Those that are to be raised are raised by certified bounds, which take looks. Trials of more
/// decisions begin with them.
pub fn order_under(
    alloc: Global,
    order: &Order,
    decisions: &[Decision],
    raised: &[Which],
    looks: &mut u64,
) -> Result<Order, AllocError>
    requires { AreAmong (choices decisions.now) (choices order.now.decisions) }
    ensures game { IfOk result (λ under. under.game ≡ order.now.game) }
    ensures diagram { IfOk result (λ under. under.diagram ≡ order.now.diagram) }
    ensures decisions { IfOk result (λ under. under.decisions ≡ decisions.now) }
    ensures order { IfOk result IsOrder }
    ensures looks { IfOk result (λ under. looks.new ≤ looks.old) }
{
    // Properties of every order, for the proof.
    let _order = order.game();
    match games_with(alloc, order, decisions)? {
        Some(games) => {
            let under = order_over(alloc, order, games, decisions, raised, looks)?;
            Ok(under)
        }
        None => unreachable!(),
    }
}
