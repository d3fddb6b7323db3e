//! Easier aims: any product will do where each one that is left meets the aim.
ghost use Rattle.std.specs.Prelude.{◌≡◌, ◌<◌, ◌≤◌, length, IfOk};
ghost use Rattle.vpg_measure.specs.Games.{ArePageGames};
ghost use Rattle.vpg_measure.specs.Orders.{other_table};
ghost use Rattle.vpg_partial.specs.TableLaws.{AreChoicesOf};
ghost use Rattle.vpg_why.specs.Eased.{IsEased};
ghost use Rattle.vpg_why.specs.Explained.{choices};
ghost use Rattle.vpg_why.specs.Suffices.{IsAim};

use crate::asking::is_top_within;
use crate::question::{Aim, Limits, Shown};
use std::alloc::{AllocError, Global};
use vpg_measure::{Order, PageGames};
use vpg_partial::Decision;
use vpg_sides::Which;

/// Returns the other table.
pub(crate) fn opposite(which: Which) -> Which
    ensures { result ≡ other_table which }
{
    match which {
        Which::Hopeful => Which::Dual,
        Which::Dual => Which::Hopeful,
    }
}

/// Returns the aim of any product, if the verdict under these games shows that each product left meets the aim;
/// otherwise the aim itself.
pub(crate) fn eased_under(
    alloc: Global,
    order: &Order,
    games: &PageGames,
    which: Which,
    vertex: u32,
    decisions: &[Decision],
    limits: Limits,
    looks: &mut u64,
) -> Result<Aim, AllocError>
    requires games { ArePageGames order.now.game order.now.diagram (choices decisions.now) games.now }
    requires named { AreChoicesOf order.now.diagram.lines (choices decisions.now) }
    requires vertex { vertex < length order.now.game.vertices }
    ensures eased { IfOk result
        (IsEased order.now.game order.now.diagram (choices decisions.now) (Aim.Won which vertex)) }
    ensures looks { IfOk result (λ aim. looks.new ≤ looks.old) }
{
    // Properties of every order, for the proof.
    let _order = order.game();
    let shown = is_top_within(alloc, order, games, opposite(which), vertex, limits, looks)?;
    match shown {
        Shown::Yes => Ok(Aim::Any),
        _ => Ok(Aim::Won { which, vertex }),
    }
}

/// Returns the aim of any product, if the page's verdict shows that each product left meets the aim; otherwise the aim
/// itself.
pub(crate) fn eased(order: &Order, aim: Aim) -> Aim
    requires { IsAim order.now.game aim }
    ensures { IsEased order.now.game order.now.diagram (choices order.now.decisions) aim result }
{
    match aim {
        Aim::Any => Aim::Any,
        Aim::Won { which, vertex } => {
            let verdict = opposite(which);
            if order.table(verdict).get(vertex) == order.shape(verdict).top() {
                Aim::Any
            } else {
                aim
            }
        }
    }
}
