//! Going over to the nearest past or future page.
ghost use Rattle.std.specs.Arc.{arc_value};
ghost use Rattle.std.specs.Prelude.{◌≡◌, ◌==◌, ◌∷◌, ◌<◌, ◌≤◌, List, length, None, MatchOption, IfOk, OnOk, OnErr};
ghost use Rattle.std.specs.List.{AllByRecursion, list_any};
ghost use Rattle.vpg_diagram.specs.FeatureDiagram.{feature_count};
ghost use Rattle.vpg_game.specs.Game.{IsAtLimit};
ghost use Rattle.vpg_measure.specs.Games.{AreGamesOf, ArePageGames};
ghost use Rattle.vpg_trail.specs.Page.{choices_of};
ghost use Rattle.vpg_trail.specs.WellFormed.{IsWellFormed};
ghost use Rattle.vpg_desk.specs.Book.{refuses_redo, refuses_undo};
ghost use Rattle.vpg_desk.specs.Cuts.{IsSwung, SuffixesBelow, cuts_of, notes_of, pages_of, serials_from_top};
ghost use Rattle.vpg_faults.specs.Refusals.{redo_refusal, undo_refusal};
ghost use Rattle.vpg_desk.specs.Setting.{HasConflict};
ghost use Rattle.vpg_desk.specs.State.{setting_between};
ghost use Rattle.vpg_desk.specs.Trail.{FitOver, spliced, Cut as Saved};

use crate::cuts::Cut;
use crate::games::games_of_page;
use std::alloc::{AllocError, Global};
use std::sync::Arc;
use vpg_diagram::Diagram;
use vpg_faults::{RedoFault, UndoFault};
use vpg_game::GuardedGame;
use vpg_measure::PageGames;
use vpg_trail::Trail;

fn has_serial(cuts: &[Cut], serial: u64) -> bool
    ensures { result ≡ list_any (λ c. c.serial == serial) cuts.now }
{
    for cut in cuts {
        if cut.serial == serial {
            return true;
        }
    }
    false
}

/// Returns why the newest past page isn't that of the serial.
pub(crate) fn undo_fault(past: &[Cut], serial: u64) -> Option<UndoFault>
    ensures { MatchOption result (refuses_undo serial (serials_from_top past.now) ≡ None)
        (λ fault. refuses_undo serial (serials_from_top past.now) ≡ undo_refusal fault) }
{
    let Some(newest) = past.last() else {
        return Some(UndoFault::Sealed);
    };
    if newest.serial == serial {
        return None;
    }
    if has_serial(past, serial) {
        return Some(UndoFault::NotNewest {
            newest: newest.serial,
        });
    }
    Some(UndoFault::Sealed)
}

/// Returns why the nearest future page isn't that of the serial.
pub(crate) fn redo_fault(future: &[Cut], serial: u64) -> Option<RedoFault>
    ensures { MatchOption result (refuses_redo serial (serials_from_top future.now) ≡ None)
        (λ fault. refuses_redo serial (serials_from_top future.now) ≡ redo_refusal fault) }
{
    let Some(nearest) = future.last() else {
        return Some(RedoFault::Overtaken);
    };
    if nearest.serial == serial {
        return None;
    }
    if has_serial(future, serial) {
        return Some(RedoFault::NotNext {
            next: nearest.serial,
        });
    }
    Some(RedoFault::Overtaken)
}

/// Returns the games that the decisions of the nearest page leave, from those of the present page.
pub(crate) fn games_over(
    alloc: Global,
    game: &GuardedGame,
    diagram: &Diagram,
    trail: &Trail,
    cuts: &[Cut],
    present: &PageGames,
) -> Result<Arc<PageGames>, AllocError>
    requires some { 0 < length cuts.now }
    requires fits { FitOver trail.now.entries (cuts_of cuts.now) }
    requires features { game.now.features ≡ feature_count diagram.now.lines }
    requires held { AreGamesOf game.now diagram.now present.now }
    requires not_at_limit { ¬ IsAtLimit game.now }
    requires consistent { AllByRecursion
        (λ k. ¬ (HasConflict (setting_between game.now diagram.now) (choices_of k.page)))
        (pages_of trail.now.entries cuts.now) }
    ensures { IfOk result (λ games. (cut : Saved) (further : List Saved) → cuts_of cuts.now ≡ cut ∷ further →
        ArePageGames game.now diagram.now (choices_of (spliced trail.now.entries cut.place cut.suffix))
        (arc_value games)) }
{
    let cut = cuts.last().unwrap();
    let before = &trail.entries()[..cut.place];
    games_of_page(alloc, game, diagram, before, &cut.suffix, present)
}

/// Puts the nearest page of one side in place of the present one, which becomes the nearest of the other side. `was`
/// says whether the present page was known to be settled. Returns whether the page that is present now is known to be
/// settled.
pub(crate) fn swing(
    from: &mut Vec<Cut>,
    trail: &mut Trail,
    to: &mut Vec<Cut>,
    was: bool,
) -> Result<bool, AllocError>
    requires some { 0 < length from.old.items }
    requires fits { FitOver trail.old.entries (cuts_of from.old.items) }
    requires below { SuffixesBelow trail.old.vertices from.old.items }
    requires well_formed { AllByRecursion (λ k. IsWellFormed k.page) (pages_of trail.old.entries from.old.items) }
    ensures swung { OnOk result
        (IsSwung from.old.items trail.old.entries to.old.items from.new.items trail.new.entries to.new.items) }
    ensures note { IfOk result (λ note. notes_of from.old.items ≡ note ∷ notes_of from.new.items) }
    ensures left { OnOk result (notes_of to.new.items ≡ was ∷ notes_of to.old.items) }
    ensures vertices { trail.new.vertices ≡ trail.old.vertices }
    ensures from_below { SuffixesBelow trail.old.vertices from.new.items }
    ensures to_below { SuffixesBelow trail.old.vertices to.old.items → SuffixesBelow trail.old.vertices to.new.items }
    ensures err_from { OnErr result (cuts_of from.new.items ≡ cuts_of from.old.items) }
    ensures err_notes { OnErr result (notes_of from.new.items ≡ notes_of from.old.items) }
    ensures err_trail { OnErr result (trail.new ≡ trail.old) }
    ensures err_to { OnErr result (to.new.items ≡ to.old.items) }
{
    to.reserve(1)?;
    let Cut {
        serial,
        place,
        suffix,
        is_noted,
    } = from.pop().unwrap();
    match trail.splice(place, suffix) {
        Ok(suffix) => {
            to.push(Cut {
                serial,
                place,
                suffix,
                is_noted: was,
            })
            .unwrap();
            Ok(is_noted)
        }
        Err(refused) => {
            from.push(Cut {
                serial,
                place,
                suffix: refused.value,
                is_noted,
            })
            .unwrap();
            Err(AllocError)
        }
    }
}
