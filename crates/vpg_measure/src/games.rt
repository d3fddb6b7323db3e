//! The games of a page: what is known of each feature, and the shape and the kept edges of both games.

ghost use Rattle.std.specs.Arc.{arc_value};
ghost use Rattle.std.specs.Prelude.{◌≡◌, ◌↔◌, ℕ, length, map, IfErr, IfOk, Err};
ghost use Rattle.vpg_diagram.specs.Clauses.{clauses_of, counts_of};
ghost use Rattle.vpg_diagram.specs.FeatureDiagram.{feature_count};
ghost use Rattle.vpg_game.specs.Game.{IsAtLimit};
ghost use Rattle.vpg_partial.specs.CloseFaults.{IsCloseFault};
ghost use Rattle.vpg_partial.specs.Known.{literal_of, NamesConflict};
ghost use Rattle.vpg_partial.specs.TableLaws.{AreChoicesOf, IsKnownTable};
ghost use Rattle.vpg_measure.specs.Games.{AreGamesOf, ArePageGames, games_levels, games_arena};
ghost use Rattle.vpg_measure.specs.GamesFields.{IsSideGame};

use crate::fault::OrderFault;
use crate::shape::Shape;
use std::alloc::{AllocError, Global};
use std::marker::Model;
use std::sync::Arc;
use vpg_diagram::Diagram;
use vpg_game::GuardedGame;
use vpg_hope::Arena;
use vpg_partial::{Decision, Partial, PartialFault};
use vpg_sides::Which;

/// The shape and the kept edges of one of the two games.
struct SideGame {
    shape: Shape,
    arena: Arena,
}

// Not derived: a derived `drop` would be proved again at each exit that owns such a value.
impl Drop for SideGame {
    fn drop(self) {
        let SideGame { shape: _, arena: _ } = self;
    }
}

impl SideGame {
    fn of(
        alloc: Global,
        which: Which,
        game: &GuardedGame,
        known: &Partial,
    ) -> Result<SideGame, AllocError>
        requires { length known.now ≡ game.now.features }
        ensures { IfOk result (IsSideGame known.now which game.now) }
    {
        match which {
            Which::Hopeful => Ok(SideGame {
                shape: Shape::of(alloc, game)?,
                arena: Arena::hopeful(alloc, game, known)?,
            }),
            Which::Dual => Ok(SideGame {
                shape: Shape::of_dual(alloc, game)?,
                arena: Arena::hopeful_of_dual(alloc, game, known)?,
            }),
        }
    }
}

/// Returns the features that decisions make known, which must be of the diagram. Questions of features alone need no
/// more, and no games.
///
/// Errors as those of `Partial::close`, in this order: `Conflict` if the decisions have one; `Memory`.
pub fn known_under(
    alloc: Global,
    diagram: &Diagram,
    decisions: &[Decision],
) -> Result<Partial, PartialFault>
    requires { AreChoicesOf diagram.now.lines (map literal_of decisions.now) }
    ensures known { IfOk result (IsKnownTable diagram.now.lines (map literal_of decisions.now)) }
    ensures conflict { IfErr result (IsCloseFault diagram.now.lines (map literal_of decisions.now)) }
{
    Partial::close(alloc, diagram, decisions)
}

/// Returns the features that decisions make known, if the game has a dual.
fn known_for(
    alloc: Global,
    game: &GuardedGame,
    diagram: &Diagram,
    decisions: &[Decision],
) -> Result<Partial, OrderFault>
    requires { AreChoicesOf diagram.now.lines (map literal_of decisions.now) }
    ensures known { IfOk result (IsKnownTable diagram.now.lines (map literal_of decisions.now)) }
    ensures at_limit { (result ≡ Err OrderFault.AtLimit) ↔ IsAtLimit game.now }
    ensures conflict { (f : ℕ) → result ≡ Err (OrderFault.Conflict f) →
        NamesConflict (clauses_of diagram.now.lines) (counts_of diagram.now.lines) (map literal_of decisions.now) f }
{
    if game.is_at_limit() {
        return Err(OrderFault::AtLimit);
    }
    Ok(known_under(alloc, diagram, decisions)?)
}

/// The games that the decisions of a page make of its game. It has what is known of each feature, and for each of the
/// two tables the shape of its measures and the edges that its game keeps.
pub struct PageGames {
    known: Partial,
    hopeful: SideGame,
    dual: SideGame,
}

// Not derived: a derived `drop` would be proved again at each exit that owns such a value.
impl Drop for PageGames {
    fn drop(self) {
        let PageGames {
            known: _,
            hopeful: _,
            dual: _,
        } = self;
    }
}

impl Model for PageGames {
    ghost use Rattle.vpg_measure.specs.Games.{GamesView};
    ghost use Rattle.vpg_measure.specs.GamesFields.{games_of};

    ghost Value = { GamesView };

    ghost view = { games_of };
}

impl PageGames {
    /// Returns the games that decisions on features of the diagram make of the game.
    ///
    /// Errors, in this order: `AtLimit` if a priority of the game is 65,536, so that it has no dual; `Conflict` if the
    /// decisions have one; `Memory`.
    pub fn under(
        alloc: Global,
        game: &GuardedGame,
        diagram: &Diagram,
        decisions: &[Decision],
    ) -> Result<PageGames, OrderFault>
        requires features { game.now.features ≡ feature_count diagram.now.lines }
        requires named { AreChoicesOf diagram.now.lines (map literal_of decisions.now) }
        ensures games { IfOk result (ArePageGames game.now diagram.now (map literal_of decisions.now)) }
        ensures at_limit { (result ≡ Err OrderFault.AtLimit) ↔ IsAtLimit game.now }
        ensures conflict { (f : ℕ) → result ≡ Err (OrderFault.Conflict f) →
            NamesConflict (clauses_of diagram.now.lines) (counts_of diagram.now.lines)
            (map literal_of decisions.now) f }
    {
        let known = known_for(alloc, game, diagram, decisions)?;
        // Properties of every game and every diagram, for the proof.
        let _features = (game.vertices(), diagram.features());
        let hopeful = SideGame::of(alloc, Which::Hopeful, game, &known)?;
        let dual = SideGame::of(alloc, Which::Dual, game, &known)?;
        Ok(PageGames {
            known,
            hopeful,
            dual,
        })
    }

    /// Returns the games that other decisions on features of the diagram make of the same game, made from these. Guards
    /// are looked at only at the vertices that name a feature with another value then.
    ///
    /// Errors as those of `under`.
    pub fn updated(
        &self,
        alloc: Global,
        game: &GuardedGame,
        diagram: &Diagram,
        decisions: &[Decision],
    ) -> Result<PageGames, OrderFault>
        requires features { game.now.features ≡ feature_count diagram.now.lines }
        requires named { AreChoicesOf diagram.now.lines (map literal_of decisions.now) }
        requires held { AreGamesOf game.now diagram.now self.now }
        ensures games { IfOk result (ArePageGames game.now diagram.now (map literal_of decisions.now)) }
        ensures at_limit { (result ≡ Err OrderFault.AtLimit) ↔ IsAtLimit game.now }
        ensures conflict { (f : ℕ) → result ≡ Err (OrderFault.Conflict f) →
            NamesConflict (clauses_of diagram.now.lines) (counts_of diagram.now.lines)
            (map literal_of decisions.now) f }
    {
        let known = known_under(alloc, diagram, decisions)?;
        // Properties of every game and every diagram, for the proof.
        let _features = (game.vertices(), diagram.features());
        let arena = &self.hopeful.arena;
        let (kept, kept_of_dual) = arena.both_updated(
            &self.dual.arena,
            alloc,
            game,
            &self.known,
            &known,
        )?;
        let hopeful = SideGame {
            shape: self.hopeful.shape.copy(alloc)?,
            arena: kept,
        };
        let dual = SideGame {
            shape: self.dual.shape.copy(alloc)?,
            arena: kept_of_dual,
        };
        Ok(PageGames {
            known,
            hopeful,
            dual,
        })
    }

    /// Returns the games, to be shared.
    pub fn share(self, alloc: Global) -> Result<Arc<PageGames>, AllocError>
        ensures { IfOk result (λ shared. arc_value shared ≡ self) }
    {
        Ok(Arc::new(alloc, self)?)
    }

    /// Returns what is known of each feature.
    pub fn known(&self) -> &Partial
        ensures { result.now ≡ self.now.known }
    {
        &self.known
    }

    /// Returns the shape of the measures of either game.
    pub fn shape(&self, which: Which) -> &Shape
        ensures { result.now ≡ games_levels which self.now }
    {
        match which {
            Which::Hopeful => &self.hopeful.shape,
            Which::Dual => &self.dual.shape,
        }
    }

    /// Returns the kept edges of either game.
    pub fn arena(&self, which: Which) -> &Arena
        ensures { result.now ≡ games_arena which self.now }
    {
        match which {
            Which::Hopeful => &self.hopeful.arena,
            Which::Dual => &self.dual.arena,
        }
    }
}
