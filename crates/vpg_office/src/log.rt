//! The parts under the office's lock: the log with the desk that replays it, the purse of tokens, and the press. Each
//! of the three has an invariant of its own; `specs/Locked.antt` joins them.
ghost use Rattle.std.specs.Prelude.{◌≡◌, ◌+◌, ◌-◌, ◌<◌, ◌≤◌, ◌⊎◌, ℕ, List, [], ◌∷◌, ◌++◌, length, drop, true, false, Some, None, IfOk, IfErr, OnOk, OnErr, IfNone, IfSome};
ghost use mathlib.Core.List.{IsPrefix};
ghost use Rattle.boxcar.specs.Table.{Shows};
ghost use Rattle.vpg_desk.specs.Book as book;
ghost use Rattle.vpg_desk.specs.Book.{opened, IsReply};
ghost use Rattle.vpg_desk.specs.History.{book_after};
ghost use Rattle.vpg_desk.specs.Lawful.{HandsIn, IsLawful};
ghost use Rattle.vpg_faults.specs.Refusals.{told_by};
ghost use Rattle.vpg_office.specs.Faults.{StandsFor, Stops, logged};
ghost use Rattle.vpg_office.specs.Fronts.{IsHistory, calls_by, event, family_between};
ghost use Rattle.vpg_office.specs.Kept.{HasOwn, HasRoom, IsChronicle, IsEntryOf, IsLacking, lines_of};
ghost use Rattle.vpg_office.specs.Made.{IsEntered, Leaves};
ghost use Rattle.vpg_office.specs.Story.{IsNamed, call_of, reply_of};

use crate::asked::{Answer, SessionCall};
use crate::calls::{AtFront, Call, Made};
use crate::chronicle::{Chronicle, Row, has_call_since};
use crate::fault::Fault;
use crate::front::{Front, Place};
use crate::purse::Purse;
use crate::replay::Replay;
use crate::session::Session;
use crate::terms::Terms;
use std::alloc::Global;
use std::marker::Model;
use std::sync::Wait;
use std::sync::ledger::Share;
use vpg_faults::{Refuses, Returned};
use vpg_watch::Press;

/// The calls that were made, and their history.
#[derive(Drop)]
pub struct Calls<L: Terms> {
    pub(crate) chronicle: Chronicle,
    // the whole log
    pub(crate) newest: Front<L>,
    // how many calls it takes
    pub(crate) room: usize,
    // a part for each call that comes; a session has those of its calls
    pub(crate) left: Share<L>,
}

/// A session's call, and the row that it is pushed to.
pub struct Request<'a> {
    pub(crate) row: &'a Row,
    pub(crate) session: u32,
    pub(crate) asked: SessionCall,
}

// Not derived: a derived `drop` would be proved again at each exit that owns such a value.
impl Drop for Request<'_> {
    fn drop(self) {
        let Request {
            row: _,
            session: _,
            asked: _,
        } = self;
    }
}

/// The log with the desk that replays it, the purse and the press. Contracts see it as the log's history.
pub struct Log<L: Terms> {
    pub(crate) calls: Calls<L>,
    pub(crate) desk: Replay,
    pub(crate) purse: Purse<L>,
    pub(crate) press: Press<Front<L>>,
}

impl<L: Terms> Model for Log<L> {
    ghost use Rattle.std.specs.Coded.{codes};
    ghost use Rattle.std.specs.Prelude.{List};
    ghost use Rattle.vpg_desk.specs.History.{Event};

    ghost Value = { List Event };

    ghost coded = { Prim.hlevel codes };

    ghost use Rattle.vpg_office.specs.Locked.{IsLog};

    ghost view = { λ g. g.calls.newest };

    ghost invariant = { λ g.
        IsLog L.shelves L.game L.diagram L.limit g.calls.chronicle g.calls.newest g.desk g.calls.room g.purse
        g.calls.left.parts g.press.front };
}

impl<L: Terms> Calls<L> {
    /// Succeeds if the front is a beginning of the log. Else returns the front's last place: the log has another one
    /// there, or none.
    pub(crate) fn has(&self, row: &Row, front: &Front<L>) -> Result<(), Place>
        requires row { row.now ≡ L.shelves }
        requires kept { IsChronicle L.shelves L.game L.diagram self.now.chronicle self.now.newest }
        ensures begins { OnOk result (IsPrefix front.now self.now.newest) }
        ensures lacks { IfErr result
            (IsLacking L.shelves (family_between L.game L.diagram) self.now.chronicle.places.items front.now) }
    {
        let Some((place, _)) = &front.last else {
            return Ok(());
        };
        let count = front.count;
        if count > self.chronicle.places.len() {
            return Err(place.again());
        }
        let mine = &self.chronicle.places[count - 1];
        if mine.index() != place.index() {
            return Err(place.again());
        }
        row.agrees(mine, place);
        Ok(())
    }

    /// Admits a call if the log has room for it and the session made none since the front, and gives it a place.
    pub(crate) fn admit<F, R: Wait>(
        &mut self,
        rt: &R,
        request: &Request<'_>,
        front: &Front<L>,
    ) -> Result<Place, Fault<L, F>>
        requires row { request.now.row.now ≡ L.shelves }
        requires kept { IsChronicle L.shelves L.game L.diagram self.old.chronicle self.old.newest }
        requires seen { IsPrefix front.now self.old.newest }
        requires limit { self.old.room ≡ L.limit }
        ensures newest { self.new.newest ≡ self.old.newest }
        ensures limit { self.new.room ≡ self.old.room }
        ensures left { self.new.left.parts ≡ self.old.left.parts }
        ensures kept { IsChronicle L.shelves L.game L.diagram self.new.chronicle self.new.newest }
        ensures room { OnOk result (HasRoom self.new.chronicle) }
        ensures place { IfOk result
            (λ p. Shows L.shelves p ×
            IsEntryOf (lines_of self.new.chronicle.told.items) request.now.session request.now.asked p.value) }
        ensures fits { OnOk result (length self.new.newest < L.limit) }
        ensures none { OnOk result (calls_by request.now.session (drop (length front.now) self.new.newest) ≡ 0) }
        ensures err { IfErr result (Stops L.limit front.now request.now.session self.new.newest) }
    {
        if self.newest.len() >= self.room {
            return Err(Fault::LogFull {
                front: self.newest.copy(),
            });
        }
        let seen = front.len();
        if has_call_since(request.session, &self.chronicle.told, seen) {
            return Err(Fault::Doubled {
                front: self.newest.copy(),
            });
        }
        match self
            .chronicle
            .prepare(rt, request.row, request.session, &request.asked)
        {
            Ok(place) => Ok(place),
            Err(_) => Err(Fault::Memory),
        }
    }

    /// Appends the call and its answer to the log, and counts it for the session. The front becomes the whole log.
    pub(crate) fn enter(
        &mut self,
        request: &Request<'_>,
        made: &mut Share<L>,
        front: &mut Front<L>,
        place: Place,
        answer: Answer,
    )
        requires kept { IsChronicle L.shelves L.game L.diagram self.old.chronicle self.old.newest }
        requires room { HasRoom self.old.chronicle }
        requires place { Shows L.shelves place ×
            IsEntryOf (lines_of self.old.chronicle.told.items) request.now.session request.now.asked place.value }
        requires fits { length self.old.newest < L.limit }
        requires few { length self.old.newest < 1048576 }
        requires reply { let family = family_between L.game L.diagram in let b =
            book_after family opened self.old.newest in IsReply family b (call_of request.now.asked answer)
            (reply_of family b.present answer) }
        requires hands { HandsIn (IsLawful (family_between L.game L.diagram)) (call_of request.now.asked answer) }
        requires named { IsNamed L.game L.diagram request.now.asked answer }
        requires left { 1 < self.old.left.parts }
        ensures kept { IsChronicle L.shelves L.game L.diagram self.new.chronicle self.new.newest }
        ensures limit { self.new.room ≡ self.old.room }
        ensures newest { let family =
            family_between L.game L.diagram in self.new.newest ≡ self.old.newest
            ++ event request.now.session (call_of request.now.asked answer)
            (reply_of family (book_after family opened self.old.newest).present answer) ∷ [] }
        ensures front { front.new ≡ self.new.newest }
        ensures history { IsHistory (family_between L.game L.diagram) front.new }
        ensures left { self.new.left.parts + 1 ≡ self.old.left.parts }
        ensures made { made.new.parts ≡ made.old.parts + 1 }
    {
        let count = self.newest.len() + 1;
        self.newest = Front::at(&place, answer, count);
        self.chronicle
            .put(place, request.session, &request.asked, answer);
        *front = self.newest.copy();
        self.left.give(made, 1, 0);
    }

    /// Enters the desk's refusal, if the fault is one; else memory ran out.
    pub(crate) fn refuse<F: Refuses>(
        &mut self,
        request: &Request<'_>,
        made: &mut Share<L>,
        front: &mut Front<L>,
        place: Place,
        fault: Option<F>,
    ) -> Fault<L, F>
        requires kept { IsChronicle L.shelves L.game L.diagram self.old.chronicle self.old.newest }
        requires room { HasRoom self.old.chronicle }
        requires place { Shows L.shelves place ×
            IsEntryOf (lines_of self.old.chronicle.told.items) request.now.session request.now.asked place.value }
        requires fits { length self.old.newest < L.limit }
        requires few { length self.old.newest < 1048576 }
        requires reply { IfSome (told_by F.refusal_of fault) (λ r.
            IsReply (family_between L.game L.diagram)
            (book_after (family_between L.game L.diagram) opened self.old.newest)
            (call_of request.now.asked (Answer.Refused r)) (book.Refused r)) }
        requires hands { IfSome (told_by F.refusal_of fault) (λ r.
            HandsIn (IsLawful (family_between L.game L.diagram))
            (call_of request.now.asked (Answer.Refused r))) }
        requires named { IfSome (told_by F.refusal_of fault)
            (λ r. IsNamed L.game L.diagram request.now.asked (Answer.Refused r)) }
        requires left { 1 < self.old.left.parts }
        ensures kept { IsChronicle L.shelves L.game L.diagram self.new.chronicle self.new.newest }
        ensures limit { self.new.room ≡ self.old.room }
        ensures memory { IfNone (told_by F.refusal_of fault)
            ((result ≡ Fault.Memory) × (front.new ≡ front.old) × (self.new.newest ≡ self.old.newest)) }
        ensures refused { IfSome (told_by F.refusal_of fault) (λ r.
            StandsFor F.refusal_of r result × (front.new ≡ self.new.newest) ×
            (self.new.newest ≡ self.old.newest
            ++ event request.now.session (call_of request.now.asked (Answer.Refused r))
            (book.Refused r) ∷ [])) }
        ensures left { self.new.left.parts + logged result ≡ self.old.left.parts }
        ensures made { made.new.parts ≡ made.old.parts + logged result }
    {
        let Some(fault) = fault else {
            return Fault::Memory;
        };
        let Some(refusal) = fault.refusal() else {
            return Fault::Memory;
        };
        self.enter(request, made, front, place, Answer::Refused { refusal });
        Fault::Refused { fault }
    }
}

impl<L: Terms> Log<L> {
    ghost use Rattle.vpg_desk.specs.State.{IsOpened};

    pub(crate) fn open(
        alloc: Global,
        desk: Replay,
        purse: Purse<L>,
        left: Share<L>,
        room: usize,
        press: Press<Front<L>>,
    ) -> Log<L>
        requires of { (desk.game ≡ L.game) × (desk.diagram ≡ L.diagram) }
        requires opened { desk.book ≡ opened }
        requires opens { IsOpened L.game L.diagram }
        requires none { purse ≡ 0 }
        requires left { left.parts ≡ 1048577 }
        requires room { (room ≡ L.limit) × (room ≤ 1048576) }
        requires press { press.front ≡ [] }
        ensures { result ≡ [] }
    {
        let calls = Calls {
            chronicle: Chronicle::new(alloc),
            newest: Front::empty(),
            room,
            left,
        };
        Log {
            calls,
            desk,
            purse,
            press,
        }
    }

    /// Returns a further session, and the log so far.
    pub(crate) fn joined(&mut self) -> Option<(Session<L>, Front<L>)>
        ensures same { self.new ≡ self.old }
        ensures number { IfSome result (λ r. (1 ≤ r.0.number) × (r.0.number ≤ 1024)) }
        ensures fresh { IfSome result (λ r. r.0.calls ≡ 0) }
        ensures history { IfSome result (λ r. IsHistory (family_between L.game L.diagram) r.1) }
    {
        let (number, share) = self.purse.seat()?;
        Some((Session::numbered(number, share), self.calls.newest.copy()))
    }

    /// Returns the front of all calls.
    pub(crate) fn whole(&self) -> Front<L>
        ensures whole { result ≡ self.now }
        ensures history { IsHistory (family_between L.game L.diagram) self.now }
    {
        self.calls.newest.copy()
    }

    /// Makes a call of the session: it is admitted, the desk carries it out, and its answer is entered.
    pub(crate) fn make<C: Call<L>, R: Wait>(
        &mut self,
        rt: &R,
        row: &Row,
        session: u32,
        made: &mut Share<L>,
        front: &mut Front<L>,
        asked: SessionCall,
        call: C,
    ) -> Result<C::Given, Returned<Fault<L, C::Refused>, C>>
        requires row { row.now ≡ L.shelves }
        requires seen { IsPrefix front.old self.old }
        requires asked { asked ≡ C.asks call }
        requires own { IfSome (C.owns call) (HasOwn self.old) }
        requires takes { C.Takes call }
        ensures done { IfOk result
            (λ given. IsEntered (family_between L.game L.diagram) self.old front.old session (C.means call)
            (C.replies given) front.new) }
        ensures gives { IfOk result (C.Gives call front.new) }
        ensures leaves { IfErr result
            (λ b. Leaves L.game L.diagram L.limit C.Refused.refusal_of self.old front.old session (C.asks call)
            front.new b.fault) }
        ensures back { IfErr result (λ b. b.value ≡ call) }
        ensures counted { OnOk result (made.new.parts ≡ made.old.parts + 1) }
        ensures fault_counted { IfErr result (λ b. made.new.parts ≡ made.old.parts + logged b.fault) }
    {
        let request = Request {
            row,
            session,
            asked,
        };
        let place = match self.calls.admit(rt, &request, front) {
            Ok(place) => place,
            Err(fault) => return Err(Returned { fault, value: call }),
        };
        let replay = &mut self.desk;
        let before = replay.desk.entries().len();
        match call.carry_out(&mut replay.desk, &mut self.purse, session) {
            Ok(done) => {
                let Made { given, answer } = done;
                replay
                    .told
                    .follow(&replay.desk, &request.asked, &answer, before);
                self.calls.enter(&request, made, front, place, answer);
                Ok(given.at(front))
            }
            Err(back) => {
                let Returned { fault, value } = back;
                let fault = self.calls.refuse(&request, made, front, place, fault);
                Err(Returned { fault, value })
            }
        }
    }
}
