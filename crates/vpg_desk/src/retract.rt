//! Retracting a decision.
ghost use Rattle.std.specs.Prelude.{◌≡◌, ◌+◌, ◌++◌, ◌∷◌, ◌≤◌, ◌↔◌, length, map, take, drop, All, IsTrue, IfOk, IfErr, OnOk, OnErr, IfSome};
ghost use Rattle.vpg_trail.specs.Shown.{entry_of, VertexBelow};
ghost use Rattle.vpg_trail.specs.WellFormed.{LiftsStandAfter};
ghost use Rattle.vpg_desk.specs.Cuts.{cuts_of, notes_of, SuffixesBelow};
ghost use Rattle.vpg_desk.specs.Notes.{GivesBack};

use crate::cuts::Cut;
use crate::desk::{Desk, MOST_CHANGES};
use crate::games::games_of_page;
use crate::token::Undo;
use std::alloc::{AllocError, Global};
use vpg_faults::RetractFault;
use vpg_trail::{Entry, Trail, kept_after, place_of};

/// Whether a retraction returns to the newest past page, and that page is known to be settled: both have the present
/// entries up to the place, and none after them.
pub(crate) fn gives_back(past: &[Cut], place: usize, kept: &[Entry]) -> bool
    ensures { IsTrue result ↔ GivesBack (cuts_of past.now) (notes_of past.now) place (map entry_of kept.now) }
{
    match past.last() {
        Some(newest) => {
            newest.is_noted && newest.place == place && newest.suffix.is_empty() && kept.is_empty()
        }
        None => false,
    }
}

/// Puts the suffix in place of the entries from a place on; its lifts stand. Keeps the page before it under the serial.
/// `was` says whether that page was known to be settled.
pub(crate) fn cut_out(
    past: &mut Vec<Cut>,
    trail: &mut Trail,
    serial: u64,
    place: usize,
    suffix: Vec<Entry>,
    was: bool,
) -> Result<(), AllocError>
    requires place { place ≤ length trail.old.entries }
    requires vertices { All (λ e. VertexBelow trail.old.vertices (entry_of e)) suffix.items }
    requires lifts { LiftsStandAfter (take place trail.old.entries) (map entry_of suffix.items) }
    ensures past { OnOk result
        (cuts_of past.new.items ≡ record { serial = serial; place = place; suffix = drop place trail.old.entries }
        ∷ cuts_of past.old.items) }
    ensures notes { OnOk result (notes_of past.new.items ≡ was ∷ notes_of past.old.items) }
    ensures below { OnOk result
        (SuffixesBelow trail.old.vertices past.old.items → SuffixesBelow trail.old.vertices past.new.items) }
    ensures trail { OnOk result
        (trail.new ≡ record { vertices = trail.old.vertices; entries = take place trail.old.entries ++ map entry_of suffix.items }) }
    ensures err_past { OnErr result (past.new.items ≡ past.old.items) }
    ensures err_trail { OnErr result (trail.new ≡ trail.old) }
{
    past.reserve(1)?;
    let removed = trail.splice(place, suffix)?;
    past.push(Cut {
        serial,
        place,
        suffix: removed,
        is_noted: was,
    })
    .unwrap();
    Ok(())
}

impl Desk {
    ghost use Rattle.vpg_desk.specs.Book.{Retract, Changed, Refused};
    ghost use Rattle.vpg_faults.specs.Refusals.{retract_refusal};
    ghost use Rattle.vpg_desk.specs.State.{IsStep, Replies};

    /// Retracts the decision on a feature, as the next change, and returns the change's token. Of the later entries it
    /// drops the lifts that assumed the decision; the others stay, with the old values that the entries now before them
    /// give. Refused, in this order: the diagram has no such feature; it isn't decided; the desk has made its most
    /// changes; out of memory. A refusal changes nothing.
    pub fn retract(
        &mut self,
        alloc: Global,
        session: u32,
        feature: u16,
    ) -> Result<Undo, RetractFault>
        ensures accepted { IfOk result (λ undo. IsStep self.old session (Retract feature) (Changed undo) self.new) }
        ensures refused { IfErr result
            (λ fault. IfSome (retract_refusal fault)
            (λ refusal. Replies self.old (Retract feature) (Refused refusal))) }
        ensures last { IfErr result
            (λ fault. fault ≡ RetractFault.Memory →
            Replies self.old (Retract feature) (Changed (self.old.book.changes + 1))) }
        ensures err { OnErr result (self.new ≡ self.old) }
    {
        if feature as usize >= self.diagram.features() {
            return Err(RetractFault::UnknownFeature);
        }
        let entries = self.trail.entries();
        let Some(place) = place_of(entries, feature) else {
            return Err(RetractFault::NotDecided);
        };
        if self.changes == MOST_CHANGES {
            return Err(RetractFault::TooManyChanges);
        }
        let kept = kept_after(alloc, entries, place, feature, self.trail.vertices())?;
        let before = &entries[..place];
        let games = games_of_page(alloc, &self.game, &self.diagram, before, &kept, &self.games)?;
        let serial = self.changes + 1;
        let was = self.is_noted;
        let is_noted = gives_back(&self.past, place, &kept);
        cut_out(&mut self.past, &mut self.trail, serial, place, kept, was)?;
        self.future.clear();
        self.games = games;
        self.is_noted = is_noted;
        self.changes = serial;
        self.tokens += 1;
        Ok(Undo::of(serial))
    }
}
