//! Settled tables that stay so when other features are known.

ghost use Rattle.std.specs.Prelude.{◌≡◌, ◌↔◌, length, IfOk, IsTrue};
ghost use Rattle.vpg_game.specs.Game.{graph_of};
ghost use Rattle.vpg_guards.specs.Known.{kleene};
ghost use Rattle.vpg_measure.specs.Games.{games_levels, games_arena};
ghost use Rattle.vpg_measure.specs.Lifts.{IsTableOf, IsProgressTable};
ghost use Rattle.vpg_measure.specs.Still.{AreGamesOver, AreBothProgress, IsProgressUnmarked};

use crate::games::PageGames;
use crate::lifts::lift;
use crate::table::Table;
use std::alloc::{AllocError, Global};
use vpg_game::GuardedGame;
use vpg_hope::concerned_vertices;
use vpg_sides::Which;

impl PageGames {
    /// Whether both tables are progress tables of these games, if they are progress tables of the games before, of the
    /// same game. Lifts are looked at only at the vertices that name a feature with another value here.
    pub fn stay_settled(
        &self,
        alloc: Global,
        game: &GuardedGame,
        before: &PageGames,
        hopeful: &Table,
        dual: &Table,
    ) -> Result<bool, AllocError>
        requires before { AreGamesOver game.now before.now }
        requires now { AreGamesOver game.now self.now }
        requires settled { AreBothProgress (kleene before.now.known) (graph_of game.now) hopeful.now dual.now }
        ensures { IfOk result (λ stay. IsTrue stay ↔
            AreBothProgress (kleene self.now.known) (graph_of game.now) hopeful.now dual.now) }
    {
        let marks = concerned_vertices(alloc, game, before.known(), self.known())?;
        Ok(self.stays(Which::Hopeful, hopeful, &marks) && self.stays(Which::Dual, dual, &marks))
    }

    /// Whether one of the two stays a progress table, by the marks of the vertices that may change.
    fn stays(&self, which: Which, table: &Table, marks: &[bool]) -> bool
        requires table { IsTableOf (games_levels which self.now) (games_arena which self.now) table.now }
        requires marks { length marks.now ≡ length (games_arena which self.now) }
        requires held { IsProgressUnmarked marks.now (games_levels which self.now)
            (games_arena which self.now) table.now }
        ensures { IsTrue result ↔ IsProgressTable (games_levels which self.now) (games_arena which self.now) table.now }
    {
        let shape = self.shape(which);
        let arena = self.arena(which);
        for v in 0..arena.vertices() {
            if marks[v as usize] && table.get(v) < lift(shape, arena, table, v) {
                return false;
            }
        }
        true
    }
}
