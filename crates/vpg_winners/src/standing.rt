//! The standing of a vertex under decisions before any split.
ghost use Rattle.std.specs.Prelude.{◌<◌, ◌≤◌, length, IfOk};
ghost use Rattle.vpg_measure.specs.Games.{ArePageGames};
ghost use Rattle.vpg_partial.specs.TableLaws.{AreChoicesOf};
ghost use Rattle.vpg_why.specs.Explained.{choices};
ghost use Rattle.vpg_why.specs.Suffices.{SettlesUnder};
ghost use Rattle.vpg_winners.specs.Standing.{IsStanding, IsStandingExact};

use crate::parts::Winner;
use std::alloc::{AllocError, Global};
use vpg_measure::{Order, PageGames};
use vpg_partial::Decision;
use vpg_sides::Which;
use vpg_why::{Limits, Outlook, games_with, look_at_games};

/// The standing of a vertex under some decisions.
#[derive(Clone, Copy)]
pub(crate) enum Standing {
    /// No product is left.
    Empty,
    /// They leave one product, with this winner; or a limit was met.
    Only(Winner),
    /// This is the winner in each product that is left, whether there is one or not.
    Each(Winner),
    /// The feature is the first that is not known.
    Open { feature: u16 },
}

// The standing under the games of the decisions: first whether Even may win, then whether Odd may.
fn look_under(
    alloc: Global,
    order: &Order,
    games: &PageGames,
    vertex: u32,
    decisions: &[Decision],
    limits: Limits,
    looks: &mut u64,
) -> Result<Standing, AllocError>
    requires games { ArePageGames order.now.game order.now.diagram (choices decisions.now) games.now }
    requires named { AreChoicesOf order.now.diagram.lines (choices decisions.now) }
    requires vertex { vertex < length order.now.game.vertices }
    ensures standing { IfOk result (IsStanding order.now.game order.now.diagram vertex (choices decisions.now)) }
    ensures settled { IfOk result (λ standing.
        SettlesUnder limits.rounds order.now.game order.now.diagram Which.Hopeful (choices decisions.now) →
        SettlesUnder limits.rounds order.now.game order.now.diagram Which.Dual (choices decisions.now) →
        IsStandingExact standing) }
    ensures looks { IfOk result (λ standing. looks.new ≤ looks.old) }
{
    // Properties of every order, for the proof.
    let _order = order.game();
    match look_at_games(
        alloc,
        order,
        games,
        Which::Hopeful,
        vertex,
        decisions,
        limits,
        looks,
    )? {
        Outlook::Lost => return Ok(Standing::Each(Winner::Lost)),
        Outlook::Met(_) => return Ok(Standing::Only(Winner::Won)),
        _ => {}
    }
    match look_at_games(
        alloc,
        order,
        games,
        Which::Dual,
        vertex,
        decisions,
        limits,
        looks,
    )? {
        Outlook::Lost => Ok(Standing::Each(Winner::Won)),
        Outlook::Met(_) => Ok(Standing::Only(Winner::Lost)),
        Outlook::Open { feature } => Ok(Standing::Open { feature }),
        Outlook::Unsettled => Ok(Standing::Only(Winner::Unsettled)),
    }
}

/// Returns the standing of the vertex under the decisions.
pub(crate) fn look(
    alloc: Global,
    order: &Order,
    vertex: u32,
    decisions: &[Decision],
    limits: Limits,
    looks: &mut u64,
) -> Result<Standing, AllocError>
    requires named { AreChoicesOf order.now.diagram.lines (choices decisions.now) }
    requires vertex { vertex < length order.now.game.vertices }
    ensures standing { IfOk result (IsStanding order.now.game order.now.diagram vertex (choices decisions.now)) }
    ensures settled { IfOk result (λ standing.
        SettlesUnder limits.rounds order.now.game order.now.diagram Which.Hopeful (choices decisions.now) →
        SettlesUnder limits.rounds order.now.game order.now.diagram Which.Dual (choices decisions.now) →
        IsStandingExact standing) }
    ensures looks { IfOk result (λ standing. looks.new ≤ looks.old) }
{
    // Properties of every order, for the proof.
    let _order = order.game();
    match games_with(alloc, order, decisions)? {
        Some(games) => look_under(alloc, order, &games, vertex, decisions, limits, looks),
        None => Ok(Standing::Empty),
    }
}
