//! Sessions and their calls.
ghost use Rattle.std.specs.Arc.{arc_value};
ghost use Rattle.std.specs.Prelude.{◌≡◌, ◌+◌, ◌<◌, ◌≤◌, true, length, IfOk, IfErr, IfSome, OnOk};
ghost use mathlib.Core.List.{IsPrefix};
ghost use Rattle.vpg_desk.specs.Book as book;
ghost use Rattle.vpg_desk.specs.Commit.{handed_in};
ghost use Rattle.vpg_game.specs.Game.{graph_of};
ghost use Rattle.vpg_measure.specs.Games.{ArePageGames};
ghost use Rattle.vpg_trail.specs.Page.{Hopeful, Dual, choices_of, decisions_of, table_of};
ghost use Rattle.vpg_desk.specs.Headline.{Tells as PageTells, VerdictMeans};
ghost use Rattle.vpg_desk.specs.History.{book_after, page_after};
ghost use Rattle.vpg_desk.specs.Lawful.{PageIsBelow};
ghost use Rattle.vpg_desk.specs.Setting.{IsSetting};
ghost use Rattle.vpg_desk.specs.State.{IsReached, setting_between};
ghost use Rattle.vpg_faults.specs.Refusals.{decide_refusal, redo_refusal, reset_refusal, retract_refusal, undo_refusal};
ghost use Rattle.vpg_office.specs.Faults.{Begins, CommitTells, RefusedFor, Tells, TellsOf, logged};
ghost use Rattle.vpg_faults.specs.Refusals.{never_refused};
ghost use Rattle.vpg_office.specs.Fronts.{Extends, GoesBackTo, family_between};
ghost use Rattle.vpg_office.specs.Story.{IsNamed, IsOf, call_of};
ghost use Rattle.vpg_office.specs.declared.asked.Answer.TheVariants as told;

use crate::calls::{Asked, Call};
use crate::changes::{DecideCall, ResetCall, RetractCall};
use crate::commits::CommitCall;
use crate::fault::Fault;
use crate::front::Front;
use crate::looks::{OrderCall, PageCall, SettledCall, VerdictCall};
use crate::office::Office;
use crate::terms::Terms;
use crate::token::{Redo, Undo};
use crate::tokens::{ForgetCall, KeepCall, RedoCall, UndoCall};
use std::alloc::Global;
use std::marker::Model;
use std::sync::ledger::Share;
use std::sync::{Arc, MutexGuard, Wait};
use vpg_desk::{CommitFault, DecideFault, RedoFault, ResetFault, RetractFault, UndoFault};
use vpg_faults::{Never, Returned};
use vpg_measure::{Harvest, Order, PageGames};
use vpg_sides::Verdict;
use vpg_trail::Page;

/// A session of an office. It can't be copied. Contracts see its number, from 1 to 1,024, and how many calls of the log
/// are its own. A call counts if it is done, or refused by the desk; one that answers `LogFull`, `Doubled` or `Memory`
/// doesn't.
#[derive(Drop)]
pub struct Session<L: Terms> {
    number: u32,
    // of as many parts as its number says
    share: Share<L>,
    // of a part for each of its calls in the log
    made: Share<L>,
}

impl<L: Terms> Model for Session<L> {
    ghost use Rattle.std.specs.Coded.{codes};
    ghost use Rattle.vpg_office.specs.Token.{Caller};

    ghost Value = { Caller };

    ghost coded = { Prim.hlevel codes };

    ghost view = { λ s. record { number = s.number; calls = s.made.parts } };

    ghost use Rattle.std.specs.Prelude.{◌≡◌, ◌≤◌};

    ghost invariant = { λ s. (1 ≤ s.number) × (s.number ≤ 1024) × (s.share.parts ≡ s.number) ×
        (s.share.amount ≡ 0) };
}

impl<L: Terms> Session<L> {
    pub(crate) fn numbered(number: u32, share: Share<L>) -> Session<L>
        requires number { (1 ≤ number) × (number ≤ 1024) }
        requires share { (share.parts ≡ number) × (share.amount ≡ 0) }
        ensures { result ≡ record { number = number; calls = 0 } }
    {
        let mut share = share;
        let made = share.empty();
        Session {
            number,
            share,
            made,
        }
    }

    /// Returns its number.
    pub fn number(&self) -> u32
        ensures number { result ≡ self.now.number }
        ensures range { (1 ≤ result) × (result ≤ 1024) }
    {
        self.number
    }

    /// Makes a call, once the log has the front and that of the call's token. The front grows to end with the call. If
    /// it isn't made, it comes back, and the fault says why: the log is full, or has a further call of this session, or
    /// the desk refuses it, or memory ran out. A call that changes the page publishes its sheet.
    pub fn call<C: Call<L>, R: Wait>(
        &mut self,
        rt: &R,
        office: &Office<L>,
        front: &mut Front<L>,
        call: C,
    ) -> Result<C::Given, Returned<Fault<L, C::Refused>, C>>
        requires takes { C.Takes call }
        ensures done { IfOk result
            (λ given. Extends (family_between L.game L.diagram) front.old self.old.number (C.means call)
            (C.replies given) front.new) }
        ensures gives { IfOk result (C.Gives call front.new) }
        ensures begins { OnOk result (IfSome (C.owns call) (λ own. IsPrefix own.front front.new)) }
        ensures fault { IfErr result
            (λ b. TellsOf (family_between L.game L.diagram) L.limit C.Refused.refusal_of
            (λ r. Extends (family_between L.game L.diagram) front.old self.old.number
            (call_of (C.asks call) (told.Refused r)) (book.Refused r) front.new)
            self.old.number front.old front.new b.fault) }
        // A harvest is refused as one of another game exactly if it is one.
        ensures named { IfErr result
            (λ b. RefusedFor C.Refused.refusal_of
            (λ r. IsNamed L.game L.diagram (C.asks call) (told.Refused r)) b.fault) }
        ensures refused { IfErr result
            (λ b. IfSome (C.owns call) (λ own. Begins own.front front.new b.fault)) }
        ensures back { IfErr result (λ b. b.value ≡ call) }
        ensures same { self.new.number ≡ self.old.number }
        ensures counted { OnOk result (self.new.calls ≡ self.old.calls + 1) }
        ensures fault_counted { IfErr result (λ b. self.new.calls ≡ self.old.calls + logged b.fault) }
    {
        let number = self.number;
        let Asked {
            call: asked,
            own,
            sheet,
        } = call.asked();
        let mut log = office.log_with(rt, front, &own);
        let answer = log.make(rt, &office.row, number, &mut self.made, front, asked, call);
        log.publish(rt, sheet, answer.is_ok());
        MutexGuard::unlock(log);
        answer
    }

    /// Decides a feature in or out, as `Desk::decide`.
    pub fn decide<R: Wait>(
        &mut self,
        rt: &R,
        alloc: Global,
        office: &Office<L>,
        front: &mut Front<L>,
        feature: u16,
        value: bool,
    ) -> Result<Undo<L>, Fault<L, DecideFault>>
        ensures done { IfOk result
            (λ t. Extends (family_between L.game L.diagram) front.old self.old.number (book.Decide feature value)
            (book.Changed t.serial) front.new × (t.history ≡ front.new)) }
        ensures fault { IfErr result
            (Tells (family_between L.game L.diagram) L.limit decide_refusal
            (book.Decide feature value) self.old.number front.old front.new) }
        ensures same { self.new.number ≡ self.old.number }
        ensures counted { OnOk result (self.new.calls ≡ self.old.calls + 1) }
        ensures fault_counted { IfErr result (λ fault. self.new.calls ≡ self.old.calls + logged fault) }
    {
        match self.call(
            rt,
            office,
            front,
            DecideCall {
                alloc,
                feature,
                value,
            },
        ) {
            Ok(undo) => Ok(undo),
            Err(Returned { fault, value: _ }) => Err(fault),
        }
    }

    /// Retracts the decision on a feature, as `Desk::retract`.
    pub fn retract<R: Wait>(
        &mut self,
        rt: &R,
        alloc: Global,
        office: &Office<L>,
        front: &mut Front<L>,
        feature: u16,
    ) -> Result<Undo<L>, Fault<L, RetractFault>>
        ensures done { IfOk result
            (λ t. Extends (family_between L.game L.diagram) front.old self.old.number (book.Retract feature)
            (book.Changed t.serial) front.new × (t.history ≡ front.new)) }
        ensures fault { IfErr result
            (Tells (family_between L.game L.diagram) L.limit retract_refusal
            (book.Retract feature) self.old.number front.old front.new) }
        ensures same { self.new.number ≡ self.old.number }
        ensures counted { OnOk result (self.new.calls ≡ self.old.calls + 1) }
        ensures fault_counted { IfErr result (λ fault. self.new.calls ≡ self.old.calls + logged fault) }
    {
        match self.call(rt, office, front, RetractCall { alloc, feature }) {
            Ok(undo) => Ok(undo),
            Err(Returned { fault, value: _ }) => Err(fault),
        }
    }

    /// Retracts every decision, as `Desk::reset`.
    pub fn reset<R: Wait>(
        &mut self,
        rt: &R,
        alloc: Global,
        office: &Office<L>,
        front: &mut Front<L>,
    ) -> Result<Undo<L>, Fault<L, ResetFault>>
        ensures done { IfOk result
            (λ t. Extends (family_between L.game L.diagram) front.old self.old.number book.Reset
            (book.Changed t.serial) front.new × (t.history ≡ front.new)) }
        ensures fault { IfErr result
            (Tells (family_between L.game L.diagram) L.limit reset_refusal
            book.Reset self.old.number front.old front.new) }
        ensures same { self.new.number ≡ self.old.number }
        ensures counted { OnOk result (self.new.calls ≡ self.old.calls + 1) }
        ensures fault_counted { IfErr result (λ fault. self.new.calls ≡ self.old.calls + logged fault) }
    {
        match self.call(rt, office, front, ResetCall { alloc }) {
            Ok(undo) => Ok(undo),
            Err(Returned { fault, value: _ }) => Err(fault),
        }
    }

    /// Undoes the token's change, as `Desk::undo`: the present page is the one just before the call that gave the
    /// token.
    pub fn undo<R: Wait>(
        &mut self,
        rt: &R,
        alloc: Global,
        office: &Office<L>,
        front: &mut Front<L>,
        token: Undo<L>,
    ) -> Result<Redo<L>, Returned<Fault<L, UndoFault>, Undo<L>>>
        ensures done { IfOk result
            (λ t. Extends (family_between L.game L.diagram) front.old self.old.number (book.Undo token.serial)
            (book.Undone t.serial) front.new × (t.history ≡ front.new)) }
        ensures goes_back { OnOk result (GoesBackTo (family_between L.game L.diagram) front.new token.history) }
        ensures begins { OnOk result (IsPrefix token.history front.new) }
        ensures fault { IfErr result
            (λ b. Tells (family_between L.game L.diagram) L.limit undo_refusal
            (book.Undo token.serial) self.old.number front.old front.new b.fault) }
        ensures refused { IfErr result (λ b. Begins token.history front.new b.fault) }
        ensures back { IfErr result (λ b. b.value ≡ token) }
        ensures same { self.new.number ≡ self.old.number }
        ensures counted { OnOk result (self.new.calls ≡ self.old.calls + 1) }
        ensures fault_counted { IfErr result (λ b. self.new.calls ≡ self.old.calls + logged b.fault) }
    {
        match self.call(rt, office, front, UndoCall { alloc, token }) {
            Ok(redo) => Ok(redo),
            Err(Returned { fault, value }) => Err(Returned {
                fault,
                value: Undo::from(value),
            }),
        }
    }

    /// Redoes the token's change, as `Desk::redo`: the present page is the one just before the call that gave the
    /// token.
    pub fn redo<R: Wait>(
        &mut self,
        rt: &R,
        alloc: Global,
        office: &Office<L>,
        front: &mut Front<L>,
        token: Redo<L>,
    ) -> Result<Undo<L>, Returned<Fault<L, RedoFault>, Redo<L>>>
        ensures done { IfOk result
            (λ t. Extends (family_between L.game L.diagram) front.old self.old.number (book.Redo token.serial)
            (book.Redone t.serial) front.new × (t.history ≡ front.new)) }
        ensures goes_back { OnOk result (GoesBackTo (family_between L.game L.diagram) front.new token.history) }
        ensures begins { OnOk result (IsPrefix token.history front.new) }
        ensures fault { IfErr result
            (λ b. Tells (family_between L.game L.diagram) L.limit redo_refusal
            (book.Redo token.serial) self.old.number front.old front.new b.fault) }
        ensures refused { IfErr result (λ b. Begins token.history front.new b.fault) }
        ensures back { IfErr result (λ b. b.value ≡ token) }
        ensures same { self.new.number ≡ self.old.number }
        ensures counted { OnOk result (self.new.calls ≡ self.old.calls + 1) }
        ensures fault_counted { IfErr result (λ b. self.new.calls ≡ self.old.calls + logged b.fault) }
    {
        match self.call(rt, office, front, RedoCall { alloc, token }) {
            Ok(undo) => Ok(undo),
            Err(Returned { fault, value }) => Err(Returned {
                fault,
                value: Redo::from(value),
            }),
        }
    }

    /// Gives an undo up, as `Desk::keep`.
    pub fn keep<R: Wait>(
        &mut self,
        rt: &R,
        office: &Office<L>,
        front: &mut Front<L>,
        token: Undo<L>,
    ) -> Result<(), Returned<Fault<L, Never>, Undo<L>>>
        ensures done { OnOk result
            (Extends (family_between L.game L.diagram) front.old self.old.number
            (book.Keep token.serial) book.Spent front.new) }
        ensures begins { OnOk result (IsPrefix token.history front.new) }
        ensures fault { IfErr result
            (λ b. Tells (family_between L.game L.diagram) L.limit never_refused
            (book.Keep token.serial) self.old.number front.old front.new b.fault) }
        ensures back { IfErr result (λ b. b.value ≡ token) }
        ensures same { self.new.number ≡ self.old.number }
        ensures counted { OnOk result (self.new.calls ≡ self.old.calls + 1) }
        ensures fault_counted { IfErr result (λ b. self.new.calls ≡ self.old.calls + logged b.fault) }
    {
        match self.call(rt, office, front, KeepCall { token }) {
            Ok(()) => Ok(()),
            Err(Returned { fault, value }) => Err(Returned {
                fault,
                value: Undo::from(value),
            }),
        }
    }

    /// Gives a redo up, as `Desk::forget`.
    pub fn forget<R: Wait>(
        &mut self,
        rt: &R,
        office: &Office<L>,
        front: &mut Front<L>,
        token: Redo<L>,
    ) -> Result<(), Returned<Fault<L, Never>, Redo<L>>>
        ensures done { OnOk result
            (Extends (family_between L.game L.diagram) front.old self.old.number
            (book.Forget token.serial) book.Spent front.new) }
        ensures begins { OnOk result (IsPrefix token.history front.new) }
        ensures fault { IfErr result
            (λ b. Tells (family_between L.game L.diagram) L.limit never_refused
            (book.Forget token.serial) self.old.number front.old front.new b.fault) }
        ensures back { IfErr result (λ b. b.value ≡ token) }
        ensures same { self.new.number ≡ self.old.number }
        ensures counted { OnOk result (self.new.calls ≡ self.old.calls + 1) }
        ensures fault_counted { IfErr result (λ b. self.new.calls ≡ self.old.calls + logged b.fault) }
    {
        match self.call(rt, office, front, ForgetCall { token }) {
            Ok(()) => Ok(()),
            Err(Returned { fault, value }) => Err(Returned {
                fault,
                value: Redo::from(value),
            }),
        }
    }

    /// Returns whether both tables of the present page are progress tables.
    pub fn settled<R: Wait>(
        &mut self,
        rt: &R,
        office: &Office<L>,
        front: &mut Front<L>,
    ) -> Result<bool, Fault<L, Never>>
        ensures done { IfOk result
            (λ r. Extends (family_between L.game L.diagram) front.old self.old.number book.Settled
            (book.IsSettled r) front.new) }
        ensures fault { IfErr result
            (Tells (family_between L.game L.diagram) L.limit never_refused
            book.Settled self.old.number front.old front.new) }
        ensures same { self.new.number ≡ self.old.number }
        ensures counted { OnOk result (self.new.calls ≡ self.old.calls + 1) }
        ensures fault_counted { IfErr result (λ fault. self.new.calls ≡ self.old.calls + logged fault) }
    {
        match self.call(rt, office, front, SettledCall) {
            Ok(settled) => Ok(settled),
            Err(Returned { fault, value: _ }) => Err(fault),
        }
    }

    /// Returns the verdict of a vertex by the present tables, as `Desk::verdict`. If it is hopeless Odd wins from it in
    /// every product left, and if it is sure Even does. It is never both.
    pub fn verdict<R: Wait>(
        &mut self,
        rt: &R,
        office: &Office<L>,
        front: &mut Front<L>,
        vertex: u32,
    ) -> Result<Verdict, Fault<L, Never>>
        requires { vertex < length L.game.vertices }
        ensures done { IfOk result
            (λ r. Extends (family_between L.game L.diagram) front.old self.old.number (book.Verdict vertex)
            (book.VerdictIs r.hopeless r.sure) front.new) }
        // On the page at the end of that front.
        ensures means { IfOk result
            (λ r. VerdictMeans (setting_between L.game L.diagram)
            (page_after (family_between L.game L.diagram) front.new) vertex r.hopeless r.sure) }
        ensures fault { IfErr result
            (Tells (family_between L.game L.diagram) L.limit never_refused
            (book.Verdict vertex) self.old.number front.old front.new) }
        ensures same { self.new.number ≡ self.old.number }
        ensures counted { OnOk result (self.new.calls ≡ self.old.calls + 1) }
        ensures fault_counted { IfErr result (λ fault. self.new.calls ≡ self.old.calls + logged fault) }
    {
        match self.call(rt, office, front, VerdictCall { vertex }) {
            Ok(verdict) => Ok(verdict),
            Err(Returned { fault, value: _ }) => Err(fault),
        }
    }

    /// Returns the present page, as `Desk::page`.
    pub fn page<R: Wait>(
        &mut self,
        rt: &R,
        alloc: Global,
        office: &Office<L>,
        front: &mut Front<L>,
    ) -> Result<Page, Fault<L, Never>>
        ensures done { IfOk result
            (λ r. Extends (family_between L.game L.diagram) front.old self.old.number book.Page
            (book.PageIs r.entries) front.new) }
        ensures decisions { IfOk result (λ r. r.decisions ≡ decisions_of r.entries) }
        ensures hopeful { IfOk result (λ r. r.hopeful ≡ table_of Hopeful r.entries (length (graph_of L.game))) }
        ensures dual { IfOk result (λ r. r.dual ≡ table_of Dual r.entries (length (graph_of L.game))) }
        ensures below { IfOk result (λ r. PageIsBelow (family_between L.game L.diagram) r.entries) }
        ensures tells { IfOk result (λ r. PageTells (setting_between L.game L.diagram) r.entries) }
        ensures setting { OnOk result (IsSetting (setting_between L.game L.diagram)) }
        ensures reached { OnOk result
            (IsReached (setting_between L.game L.diagram)
            (book_after (family_between L.game L.diagram) book.opened front.new)) }
        ensures fault { IfErr result
            (Tells (family_between L.game L.diagram) L.limit never_refused
            book.Page self.old.number front.old front.new) }
        ensures same { self.new.number ≡ self.old.number }
        ensures counted { OnOk result (self.new.calls ≡ self.old.calls + 1) }
        ensures fault_counted { IfErr result (λ fault. self.new.calls ≡ self.old.calls + logged fault) }
    {
        match self.page_with_games(rt, alloc, office, front) {
            Ok((page, _games)) => Ok(page),
            Err(fault) => Err(fault),
        }
    }

    /// Returns the present page, as `Desk::page`, with the games that its decisions leave, as `Desk::games`: one call,
    /// so both are of one page. The games are shared with the desk, and not made again.
    pub fn page_with_games<R: Wait>(
        &mut self,
        rt: &R,
        alloc: Global,
        office: &Office<L>,
        front: &mut Front<L>,
    ) -> Result<(Page, Arc<PageGames>), Fault<L, Never>>
        ensures done { IfOk result
            (λ r. Extends (family_between L.game L.diagram) front.old self.old.number book.Page
            (book.PageIs r.0.entries) front.new) }
        ensures decisions { IfOk result (λ r. r.0.decisions ≡ decisions_of r.0.entries) }
        ensures hopeful { IfOk result (λ r. r.0.hopeful ≡ table_of Hopeful r.0.entries (length (graph_of L.game))) }
        ensures dual { IfOk result (λ r. r.0.dual ≡ table_of Dual r.0.entries (length (graph_of L.game))) }
        ensures games { IfOk result (λ r. ArePageGames L.game L.diagram (choices_of r.0.entries) (arc_value r.1)) }
        ensures below { IfOk result (λ r. PageIsBelow (family_between L.game L.diagram) r.0.entries) }
        ensures tells { IfOk result (λ r. PageTells (setting_between L.game L.diagram) r.0.entries) }
        ensures setting { OnOk result (IsSetting (setting_between L.game L.diagram)) }
        ensures reached { OnOk result
            (IsReached (setting_between L.game L.diagram)
            (book_after (family_between L.game L.diagram) book.opened front.new)) }
        ensures fault { IfErr result
            (Tells (family_between L.game L.diagram) L.limit never_refused
            book.Page self.old.number front.old front.new) }
        ensures same { self.new.number ≡ self.old.number }
        ensures counted { OnOk result (self.new.calls ≡ self.old.calls + 1) }
        ensures fault_counted { IfErr result (λ fault. self.new.calls ≡ self.old.calls + logged fault) }
    {
        match self.call(rt, office, front, PageCall { alloc }) {
            Ok(both) => Ok(both),
            Err(Returned { fault, value: _ }) => Err(fault),
        }
    }

    /// Returns an order of the present page, for lifters.
    pub fn order<R: Wait>(
        &mut self,
        rt: &R,
        alloc: Global,
        office: &Office<L>,
        front: &mut Front<L>,
    ) -> Result<Order, Fault<L, Never>>
        ensures done { IfOk result
            (λ r. Extends (family_between L.game L.diagram) front.old self.old.number book.Order
            (book.Ordered r.decisions r.hopeful r.dual) front.new) }
        ensures ours { IfOk result (λ r. IsOf L.game L.diagram r) }
        ensures fault { IfErr result
            (Tells (family_between L.game L.diagram) L.limit never_refused
            book.Order self.old.number front.old front.new) }
        ensures same { self.new.number ≡ self.old.number }
        ensures counted { OnOk result (self.new.calls ≡ self.old.calls + 1) }
        ensures fault_counted { IfErr result (λ fault. self.new.calls ≡ self.old.calls + logged fault) }
    {
        match self.call(rt, office, front, OrderCall { alloc }) {
            Ok(order) => Ok(order),
            Err(Returned { fault, value: _ }) => Err(fault),
        }
    }

    /// Raises the present tables to the harvest's, as `Desk::commit`.
    pub fn commit<R: Wait>(
        &mut self,
        rt: &R,
        alloc: Global,
        office: &Office<L>,
        front: &mut Front<L>,
        harvest: Harvest,
    ) -> Result<u32, Returned<Fault<L, CommitFault>, Harvest>>
        ensures done { IfOk result
            (λ added. Extends (family_between L.game L.diagram) front.old self.old.number
            (book.Commit (handed_in true harvest)) (book.Added added) front.new) }
        ensures ours { OnOk result (IsOf L.game L.diagram harvest.order) }
        ensures fault { IfErr result
            (λ b. CommitTells L.game L.diagram L.limit harvest self.old.number front.old front.new b.fault) }
        ensures back { IfErr result (λ b. b.value ≡ harvest) }
        ensures same { self.new.number ≡ self.old.number }
        ensures counted { OnOk result (self.new.calls ≡ self.old.calls + 1) }
        ensures fault_counted { IfErr result (λ b. self.new.calls ≡ self.old.calls + logged b.fault) }
    {
        self.hand_in(rt, alloc, office, front, harvest, false)
    }

    /// Commits as `commit` does, for a harvest of an order with the office's game and diagram, as those of `order`
    /// have: the two are not compared.
    pub fn commit_own<R: Wait>(
        &mut self,
        rt: &R,
        alloc: Global,
        office: &Office<L>,
        front: &mut Front<L>,
        harvest: Harvest,
    ) -> Result<u32, Returned<Fault<L, CommitFault>, Harvest>>
        requires ours { IsOf L.game L.diagram harvest.order }
        ensures done { IfOk result
            (λ added. Extends (family_between L.game L.diagram) front.old self.old.number
            (book.Commit (handed_in true harvest)) (book.Added added) front.new) }
        ensures fault { IfErr result
            (λ b. CommitTells L.game L.diagram L.limit harvest self.old.number front.old front.new b.fault) }
        ensures back { IfErr result (λ b. b.value ≡ harvest) }
        ensures same { self.new.number ≡ self.old.number }
        ensures counted { OnOk result (self.new.calls ≡ self.old.calls + 1) }
        ensures fault_counted { IfErr result (λ b. self.new.calls ≡ self.old.calls + logged b.fault) }
    {
        self.hand_in(rt, alloc, office, front, harvest, true)
    }

    /// Commits a harvest; `own` if it is known to be of the office's game and diagram.
    fn hand_in<R: Wait>(
        &mut self,
        rt: &R,
        alloc: Global,
        office: &Office<L>,
        front: &mut Front<L>,
        harvest: Harvest,
        own: bool,
    ) -> Result<u32, Returned<Fault<L, CommitFault>, Harvest>>
        requires { own ≡ true → IsOf L.game L.diagram harvest.order }
        ensures done { IfOk result
            (λ added. Extends (family_between L.game L.diagram) front.old self.old.number
            (book.Commit (handed_in true harvest)) (book.Added added) front.new) }
        ensures ours { OnOk result (IsOf L.game L.diagram harvest.order) }
        ensures fault { IfErr result
            (λ b. CommitTells L.game L.diagram L.limit harvest self.old.number front.old front.new b.fault) }
        ensures back { IfErr result (λ b. b.value ≡ harvest) }
        ensures same { self.new.number ≡ self.old.number }
        ensures counted { OnOk result (self.new.calls ≡ self.old.calls + 1) }
        ensures fault_counted { IfErr result (λ b. self.new.calls ≡ self.old.calls + logged b.fault) }
    {
        match self.call(
            rt,
            office,
            front,
            CommitCall {
                alloc,
                harvest,
                own,
            },
        ) {
            Ok(entries) => Ok(entries),
            Err(Returned { fault, value }) => Err(Returned {
                fault,
                value: Harvest::from(value),
            }),
        }
    }
}
