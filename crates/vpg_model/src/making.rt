//! The game of entries.
ghost use Rattle.std.specs.Prelude.{◌≡◌, ◌↔◌, ◌<◌, All, IfOk, IfErr, IsTrue};
ghost use Rattle.vpg_game.specs.Game.{entry_priorities, game_of};
ghost use Rattle.vpg_model.specs.Pairs.{AreWithin};
ghost use Rattle.vpg_model.specs.Searching.{AreEntries, IsGameFault, model_fault};

use crate::fault::ModelFault;
use std::alloc::Global;
use vpg_game::{Entry, GameFault, GuardedGame, HIGHEST_PRIORITY};

/// Whether each priority is below 65,536.
fn are_low(entries: &[Entry]) -> bool
    ensures { IsTrue result ↔ All (λ p. p < 65536) (entry_priorities entries.now) }
{
    for entry in entries {
        if entry.priority >= HIGHEST_PRIORITY {
            return false;
        }
    }
    true
}

/// Returns why there is no model, if a game could not be made.
fn fault_of(fault: GameFault) -> ModelFault
    ensures { result ≡ model_fault fault }
{
    match fault {
        GameFault::TooWide => ModelFault::TooWide,
        _ => ModelFault::Memory,
    }
}

/// Returns the game of entries with their numbers as identifiers.
pub(crate) fn game_of(
    alloc: Global,
    entries: Vec<Entry>,
    features: usize,
) -> Result<GuardedGame, ModelFault>
    requires { AreEntries features entries.items }
    ensures made { IfOk result (λ game. game ≡ game_of features entries.items) }
    ensures within { IfOk result (λ _. AreWithin (entry_priorities entries.items)) }
    ensures refused { IfErr result (IsGameFault entries.items) }
{
    if !are_low(&entries) {
        return Err(ModelFault::TooWide);
    }
    match GuardedGame::of(alloc, entries, features) {
        Ok(game) => Ok(game),
        Err(fault) => Err(fault_of(fault)),
    }
}
