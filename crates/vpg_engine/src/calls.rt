//! The calls of a client. Each is that of the desk, under the label as session number.
ghost use Rattle.std.specs.Arc.{arc_value};
ghost use Rattle.std.specs.Prelude.{◌≡◌, List, true, None, Some, length, IfOk, IfErr, OnOk};
ghost use Rattle.vpg_game.specs.Game.{graph_of};
ghost use Rattle.vpg_measure.specs.Games.{ArePageGames};
ghost use Rattle.vpg_measure.specs.Orders.{IsOrder};
ghost use Rattle.vpg_trail.specs.Page.{Hopeful, Dual, choices_of, decisions_of, table_of};
ghost use Rattle.vpg_desk.specs.Book as book;
ghost use Rattle.vpg_desk.specs.Commit.{IsOrderOf, handed_in};
ghost use Rattle.vpg_desk.specs.Desk.{family_of};
ghost use Rattle.vpg_desk.specs.Headline.{Tells as PageTells};
ghost use Rattle.vpg_desk.specs.History.{Event};
ghost use Rattle.vpg_desk.specs.Lawful.{PageIsBelow};
ghost use Rattle.vpg_desk.specs.Setting.{IsSetting};
ghost use Rattle.vpg_desk.specs.State.{IsReached, setting_of};
ghost use Rattle.vpg_faults.specs.Refusals.{commit_refusal, never_refused};
ghost use Rattle.vpg_office.specs.Fronts.{before_last};
ghost use Rattle.vpg_office.specs.Made.{IsPage};
ghost use Rattle.vpg_office.specs.Story.{IsNamed, call_of};
ghost use Rattle.vpg_office.specs.declared.asked.Answer.TheVariants as told;
ghost use Rattle.vpg_engine.specs.Client.{IsFrontOf, IsLogged};
ghost use Rattle.vpg_engine.specs.Engine.{IsFaultWithin};
ghost use Rattle.vpg_engine.specs.EngineFields.{IsOwnHarvest};
ghost use Rattle.vpg_engine.specs.Faults.{IsAstray, RefusedFor, Tells, TellsOf, UnlessStray};

use crate::answers::answered;
use crate::client::{Client, seat};
use crate::fault::{Back, ClientFault};
use std::alloc::Global;
use std::sync::{Arc, Wait};
use vpg_desk::CommitFault;
use vpg_faults::{Never, Returned};
use vpg_measure::{Harvest, Order, PageGames};
use vpg_office::{Call, CommitCall, OrderCall, PageCall, Terms};
use vpg_trail::Page;

impl<L: Terms> Client<L> {
    /// Makes a session's call, under the label. What it gives is of a front that ends with the call: so an undo or a
    /// redo restores the page just before the call that gave its token. If the call fails, it comes back; if it
    /// strayed, it or what it gave.
    pub fn call<C: Call<L>, R: Wait>(
        &mut self,
        rt: &R,
        label: u32,
        call: C,
    ) -> Result<C::Given, Returned<ClientFault<C::Refused>, Back<C, C::Given>>>
        requires takes { C.Takes call }
        ensures accepted { IfOk result
            (λ given. IsLogged L.limit self.old label (C.means call) (C.replies given) self.new) }
        ensures gives { IfOk result
            (λ given. (front : List Event) × (IsFrontOf self.old (before_last front) ×
            (IsFrontOf self.new front × C.Gives call front given))) }
        ensures of { (self.old.desk.game ≡ L.game) × (self.old.desk.diagram ≡ L.diagram) }
        ensures game { self.new.desk.game ≡ self.old.desk.game }
        ensures diagram { self.new.desk.diagram ≡ self.old.desk.diagram }
        ensures fault { IfErr result
            (λ r. TellsOf L.limit C.Refused.refusal_of
            (λ refusal. IsLogged L.limit self.old label (call_of (C.asks call) (told.Refused refusal))
            (book.Refused refusal) self.new) self.old label self.new r.fault) }
        ensures astray { IfErr result (λ r. r.fault ≡ ClientFault.Stray → IsAstray self.old label self.new) }
        // A harvest is refused as one of another game exactly if it is one.
        ensures named { IfErr result
            (λ r. RefusedFor C.Refused.refusal_of
            (λ refusal. IsNamed L.game L.diagram (C.asks call) (told.Refused refusal)) r.fault) }
        ensures back { IfErr result (λ r. UnlessStray r.fault (r.value ≡ Back.Call call)) }
    {
        let place = match seat(rt, &self.office, &mut self.sessions, label) {
            Ok(place) => place,
            Err(fault) => return Err(Returned {
                fault,
                value: Back::Call(call),
            }),
        };
        let calls = self.front.len();
        let answer = self.sessions[place].call(rt, &self.office, &mut self.front, call);
        answered(answer, calls, &mut self.front)
    }

    /// Returns an order of the present page, as `Desk::order`.
    pub fn order<R: Wait>(
        &mut self,
        rt: &R,
        alloc: Global,
        label: u32,
    ) -> Result<Order, ClientFault<Never>>
        ensures accepted { IfOk result
            (λ order. IsLogged L.limit self.old label book.Order
            (book.Ordered order.decisions order.hopeful order.dual) self.new) }
        ensures ours { IfOk result (λ order. IsOrderOf self.old.desk order) }
        ensures of { IfOk result (λ order. (order.game ≡ L.game) × (order.diagram ≡ L.diagram)) }
        ensures order { IfOk result IsOrder }
        ensures game { self.new.desk.game ≡ self.old.desk.game }
        ensures diagram { self.new.desk.diagram ≡ self.old.desk.diagram }
        ensures fault { IfErr result (Tells L.limit never_refused self.old label book.Order self.new) }
        ensures astray { IfErr result (λ fault. fault ≡ ClientFault.Stray → IsAstray self.old label self.new) }
    {
        match self.call(rt, label, OrderCall { alloc }) {
            Ok(order) => Ok(order),
            Err(Returned { fault, value: _ }) => Err(fault),
        }
    }

    /// Raises the present tables to the harvest's, as `Desk::commit_own`: its order has to be of this desk's game and
    /// diagram, as those of `order` are. The harvest comes back unless it was committed.
    pub fn commit_own<R: Wait>(
        &mut self,
        rt: &R,
        alloc: Global,
        label: u32,
        harvest: Harvest,
    ) -> Result<u32, Returned<ClientFault<CommitFault>, Option<Harvest>>>
        requires ours { IsOrderOf self.old.desk harvest.order }
        ensures accepted { IfOk result
            (λ added. IsLogged L.limit self.old label (book.Commit (handed_in true harvest))
            (book.Added added) self.new) }
        ensures game { self.new.desk.game ≡ self.old.desk.game }
        ensures diagram { self.new.desk.diagram ≡ self.old.desk.diagram }
        ensures fault { IfErr result
            (λ r. Tells L.limit commit_refusal self.old label (book.Commit (handed_in true harvest)) self.new r.fault) }
        ensures astray { IfErr result (λ r. r.fault ≡ ClientFault.Stray → IsAstray self.old label self.new) }
        ensures named { IfErr result
            (λ r. IsOwnHarvest self.old.desk.game self.old.desk.diagram harvest →
            IsFaultWithin (length self.old.desk.diagram.names) commit_refusal r.fault) }
        ensures back { IfErr result (λ r. UnlessStray r.fault (r.value ≡ Some harvest)) }
    {
        let _ = &self.front;
        let call = CommitCall {
            alloc,
            harvest,
            own: true,
        };
        match self.call(rt, label, call) {
            Ok(added) => Ok(added),
            Err(Returned { fault, value }) => Err(Returned {
                fault,
                value: value.taken(),
            }),
        }
    }

    /// Returns the present page, as `Desk::page`, and the games that its decisions leave, as `Desk::games`. It shares
    /// the games with the desk.
    pub fn page_with_games<R: Wait>(
        &mut self,
        rt: &R,
        alloc: Global,
        label: u32,
    ) -> Result<(Page, Arc<PageGames>), ClientFault<Never>>
        ensures accepted { IfOk result
            (λ r. IsLogged L.limit self.old label book.Page (book.PageIs r.0.entries) self.new) }
        ensures game { self.new.desk.game ≡ self.old.desk.game }
        ensures diagram { self.new.desk.diagram ≡ self.old.desk.diagram }
        ensures shown { IfOk result
            (λ r. IsPage self.old.desk.game self.old.desk.diagram self.old.desk.book r.0.entries r.0.decisions
            r.0.hopeful r.0.dual (arc_value r.1)) }
        ensures decisions { IfOk result (λ r. r.0.decisions ≡ decisions_of self.old.desk.book.present) }
        ensures hopeful { IfOk result
            (λ r. r.0.hopeful ≡ table_of Hopeful self.old.desk.book.present (length (graph_of self.old.desk.game))) }
        ensures dual { IfOk result
            (λ r. r.0.dual ≡ table_of Dual self.old.desk.book.present (length (graph_of self.old.desk.game))) }
        ensures games { IfOk result
            (λ r. ArePageGames self.old.desk.game self.old.desk.diagram (choices_of self.old.desk.book.present)
            (arc_value r.1)) }
        ensures below { OnOk result (PageIsBelow (family_of (setting_of self.old.desk)) self.old.desk.book.present) }
        ensures tells { OnOk result (PageTells (setting_of self.old.desk) self.old.desk.book.present) }
        ensures setting { OnOk result (IsSetting (setting_of self.old.desk)) }
        ensures reached { OnOk result (IsReached (setting_of self.old.desk) self.old.desk.book) }
        ensures fault { IfErr result (Tells L.limit never_refused self.old label book.Page self.new) }
        ensures astray { IfErr result (λ fault. fault ≡ ClientFault.Stray → IsAstray self.old label self.new) }
    {
        match self.call(rt, label, PageCall { alloc }) {
            Ok(both) => Ok(both),
            Err(Returned { fault, value: _ }) => Err(fault),
        }
    }
}
