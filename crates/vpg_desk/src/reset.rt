//! Retracting every decision at once.
ghost use Rattle.std.specs.Prelude.{◌≡◌, ◌+◌, IfOk, IfErr, OnErr, IfSome};

use crate::desk::{Desk, MOST_CHANGES};
use crate::games::games_of_page;
use crate::retract::{cut_out, gives_back};
use crate::token::Undo;
use std::alloc::Global;
use vpg_faults::ResetFault;
use vpg_trail::{first_decision, free_lifts_after};

impl Desk {
    ghost use Rattle.vpg_desk.specs.Book.{Reset, Changed, Refused};
    ghost use Rattle.vpg_faults.specs.Refusals.{reset_refusal};
    ghost use Rattle.vpg_desk.specs.State.{IsStep, Replies};

    /// Retracts every decision, as the next change, and returns the change's token. It leaves the page that retracting
    /// them one by one would leave: the lifts that assumed no decision stay, with the old values that the entries now
    /// before them give. Refused, in this order: nothing is decided; the desk has made its most changes; out of memory.
    /// A refusal changes nothing.
    pub fn reset(&mut self, alloc: Global, session: u32) -> Result<Undo, ResetFault>
        ensures accepted { IfOk result (λ undo. IsStep self.old session Reset (Changed undo) self.new) }
        ensures refused { IfErr result
            (λ fault. IfSome (reset_refusal fault) (λ refusal. Replies self.old Reset (Refused refusal))) }
        ensures last { IfErr result
            (λ fault. fault ≡ ResetFault.Memory → Replies self.old Reset (Changed (self.old.book.changes + 1))) }
        ensures err { OnErr result (self.new ≡ self.old) }
    {
        let entries = self.trail.entries();
        let Some(place) = first_decision(entries) else {
            return Err(ResetFault::NotDecided);
        };
        if self.changes == MOST_CHANGES {
            return Err(ResetFault::TooManyChanges);
        }
        let kept = free_lifts_after(alloc, entries, place, self.trail.vertices())?;
        let before = &entries[..place];
        let games = games_of_page(alloc, &self.game, &self.diagram, before, &kept, &self.games)?;
        let serial = self.changes + 1;
        let was = self.is_noted;
        let is_noted = gives_back(&self.past, place, &kept);
        cut_out(&mut self.past, &mut self.trail, serial, place, kept, was)?;
        self.future.clear();
        self.games = games;
        self.is_noted = is_noted;
        self.changes = serial;
        self.tokens += 1;
        Ok(Undo::of(serial))
    }
}
