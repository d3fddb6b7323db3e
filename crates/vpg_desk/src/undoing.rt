//! Undoing and redoing changes.
ghost use Rattle.std.specs.Prelude.{◌≡◌, ◌<◌, ℕ, IfOk, IfErr, OnOk, OnErr, IfSome};

use crate::desk::Desk;
use crate::fault::{RedoRefused, UndoRefused};
use crate::swing::{games_over, redo_fault, swing, undo_fault};
use crate::token::{Redo, Undo};
use std::alloc::Global;
use vpg_faults::{RedoFault, UndoFault};

impl Desk {
    ghost use Rattle.vpg_desk.specs.Book.{Undo as AsksUndo, Redo as AsksRedo, Undone, Redone, Refused};
    ghost use Rattle.vpg_faults.specs.Refusals.{undo_refusal, redo_refusal};
    ghost use Rattle.vpg_desk.specs.History.{gives_undo, gives_redo};
    ghost use Rattle.vpg_desk.specs.State.{IsStep, Replies, Restores};

    /// Undoes the token's change, and returns a token to redo it: the present page is the one in which the change was
    /// made. Refused, in this order: the past has no page of this change any more; a newer change has to be undone
    /// first; out of memory. A refusal changes nothing, and the token comes back.
    pub fn undo(&mut self, alloc: Global, token: Undo) -> Result<Redo, UndoRefused>
        requires { 0 < self.old.book.tokens }
        ensures accepted { IfOk result
            (λ redo. (session : ℕ) → IsStep self.old session (AsksUndo token) (Undone redo) self.new) }
        ensures restores { OnOk result (Restores gives_undo self.old token self.new) }
        ensures refused { IfErr result
            (λ r. IfSome (undo_refusal r.fault) (λ refusal. Replies self.old (AsksUndo token) (Refused refusal))) }
        ensures newer { IfErr result (λ r. (n : ℕ) → r.fault ≡ UndoFault.NotNewest n → token < n) }
        ensures last { IfErr result
            (λ r. r.fault ≡ UndoFault.Memory → Replies self.old (AsksUndo token) (Undone token)) }
        ensures err { OnErr result (self.new ≡ self.old) }
        ensures back { IfErr result (λ r. r.token ≡ token) }
    {
        match self.swing_back(alloc, token.serial()) {
            Ok(()) => Ok(Redo::of(token.spend())),
            Err(fault) => Err(UndoRefused { fault, token }),
        }
    }

    /// Redoes the token's change, and returns a token to undo it: the present page is the one in which the change was
    /// undone. Refused, in this order: the future has no page of this change any more; an earlier change has to be
    /// redone first; out of memory. A refusal changes nothing, and the token comes back.
    pub fn redo(&mut self, alloc: Global, token: Redo) -> Result<Undo, RedoRefused>
        requires { 0 < self.old.book.tokens }
        ensures accepted { IfOk result
            (λ undo. (session : ℕ) → IsStep self.old session (AsksRedo token) (Redone undo) self.new) }
        ensures restores { OnOk result (Restores gives_redo self.old token self.new) }
        ensures refused { IfErr result
            (λ r. IfSome (redo_refusal r.fault) (λ refusal. Replies self.old (AsksRedo token) (Refused refusal))) }
        ensures nearer { IfErr result (λ r. (n : ℕ) → r.fault ≡ RedoFault.NotNext n → n < token) }
        ensures last { IfErr result
            (λ r. r.fault ≡ RedoFault.Memory → Replies self.old (AsksRedo token) (Redone token)) }
        ensures err { OnErr result (self.new ≡ self.old) }
        ensures back { IfErr result (λ r. r.token ≡ token) }
    {
        match self.swing_forth(alloc, token.serial()) {
            Ok(()) => Ok(Undo::of(token.spend())),
            Err(fault) => Err(RedoRefused { fault, token }),
        }
    }

    /// Goes back to the newest past page, if that has the serial.
    fn swing_back(&mut self, alloc: Global, serial: u64) -> Result<(), UndoFault>
        ensures accepted { OnOk result
            ((session : ℕ) → IsStep self.old session (AsksUndo serial) (Undone serial) self.new) }
        ensures refused { IfErr result
            (λ fault. IfSome (undo_refusal fault) (λ refusal. Replies self.old (AsksUndo serial) (Refused refusal))) }
        ensures newer { IfErr result (λ fault. (n : ℕ) → fault ≡ UndoFault.NotNewest n → serial < n) }
        ensures last { IfErr result
            (λ fault. fault ≡ UndoFault.Memory → Replies self.old (AsksUndo serial) (Undone serial)) }
        ensures err { OnErr result (self.new ≡ self.old) }
    {
        if let Some(fault) = undo_fault(&self.past, serial) {
            return Err(fault);
        }
        let Ok(games) = games_over(
            alloc,
            &self.game,
            &self.diagram,
            &self.trail,
            &self.past,
            &self.games,
        ) else {
            return Err(UndoFault::Memory);
        };
        let was = self.is_noted;
        let is_noted = swing(&mut self.past, &mut self.trail, &mut self.future, was)?;
        self.games = games;
        self.is_noted = is_noted;
        Ok(())
    }

    /// Goes forth to the nearest future page, if that has the serial.
    fn swing_forth(&mut self, alloc: Global, serial: u64) -> Result<(), RedoFault>
        ensures accepted { OnOk result
            ((session : ℕ) → IsStep self.old session (AsksRedo serial) (Redone serial) self.new) }
        ensures refused { IfErr result
            (λ fault. IfSome (redo_refusal fault) (λ refusal. Replies self.old (AsksRedo serial) (Refused refusal))) }
        ensures nearer { IfErr result (λ fault. (n : ℕ) → fault ≡ RedoFault.NotNext n → n < serial) }
        ensures last { IfErr result
            (λ fault. fault ≡ RedoFault.Memory → Replies self.old (AsksRedo serial) (Redone serial)) }
        ensures err { OnErr result (self.new ≡ self.old) }
    {
        if let Some(fault) = redo_fault(&self.future, serial) {
            return Err(fault);
        }
        let Ok(games) = games_over(
            alloc,
            &self.game,
            &self.diagram,
            &self.trail,
            &self.future,
            &self.games,
        ) else {
            return Err(RedoFault::Memory);
        };
        let was = self.is_noted;
        let is_noted = swing(&mut self.future, &mut self.trail, &mut self.past, was)?;
        self.games = games;
        self.is_noted = is_noted;
        Ok(())
    }
}
