//! The engine carries out what a script's lines request. It is an office that this run alone serves, with the tokens
//! and harvests that lines leave.
ghost use Rattle.std.specs.Arc.{arc_value};
ghost use Rattle.std.specs.Prelude.{◌≡◌, ◌+◌, ◌<◌, ◌≤◌, Some, OnOk, IfOk, IfErr, IfSome, IsErrOf, length};
ghost use Rattle.vpg_diagram.specs.FeatureDiagram.{feature_count};
ghost use Rattle.vpg_measure.specs.Orders.{IsOrder};
ghost use Rattle.vpg_desk.specs.Book as book;
ghost use Rattle.vpg_desk.specs.Commit.{IsOrderOf};
ghost use Rattle.vpg_desk.specs.State.{IsOpened, Replies};
ghost use Rattle.vpg_faults.specs.Refusals.{never_refused};
ghost use Rattle.vpg_faults.specs.declared.refusal.Refusal.{Refusal};
ghost use Rattle.vpg_office.specs.Fronts.{family_between};
ghost use Rattle.vpg_office.specs.Kept.{IsElsewhere};
ghost use Rattle.vpg_office.specs.Story.{call_of};
ghost use Rattle.vpg_office.specs.Token.{TokenView};
ghost use Rattle.vpg_office.specs.declared.asked.Answer.TheVariants as told;
ghost use Rattle.vpg_engine.specs.Client.{HasUnknownCall, IsLogged};
ghost use Rattle.vpg_engine.specs.Faults.{IsAstray, Tells};
ghost use Rattle.vpg_engine.specs.Answers.{NoFeature, TellsChanged, call_or, first_call};
ghost use Rattle.vpg_engine.specs.Engine.{AnswersBy, AnswersIn, AnswersTo, AnswersWith, SweepsTo, IsNamedWithin, IsOpenFault, deciding, engine_of, scene_at};
ghost use Rattle.vpg_script.specs.Script.{Retract, Reset, Undo as Undoes, Redo as Redoes, Keep, Forget, Lift, Harvest as Harvests, Commit, Settle, Changed, Looks};
ghost use Rattle.vpg_script.specs.View.{look_shown, vertex_shown};

use crate::client::{Client, NotEnded};
use crate::fault::ClientFault;
use crate::held::{
    hold, hold_strayed, put_back_unspent, put_back_unswung, redo_place, return_harvest, take,
    take_harvest, undo_place,
};
use crate::lines;
use std::alloc::{AllocError, Global};
use std::marker::Model;
use std::sync::{Arc, Wait};
use std::thread::Threads;
use vpg_answers::{answer, look, takes_order, topic_of};
use vpg_board::OpenGate;
use vpg_desk::OpenFault;
use vpg_diagram::Diagram;
use vpg_family::Context;
use vpg_faults::{Never, Returned};
use vpg_features::Names;
use vpg_game::{GuardedGame, VertexNames};
use vpg_guess::Groundwork;
use vpg_measure::{Harvest, Order};
use vpg_office::{
    Call, DecideCall, ForgetCall, KeepCall, NotOpened, Redo, RedoCall, ResetCall, RetractCall,
    SettledCall, Site, Terms, Undo, UndoCall,
};
use vpg_script::{Look, ServeFault, Tone, Vertex};
use vpg_settle::swept;
use vpg_sides::{Verdict, Which};
use vpg_texts::{put_changed, verdicts_over, vertex_at};
use vpg_why::Limits;

/// The limits of a look at the page. The bounds of a trial's table may look at 2^27 edges and vertices; if they
/// do not settle it, it has 1,000 rounds of lifts. A search has 10,000 trials.
pub const LIMITS: Limits = Limits {
    budget: 134_217_728,
    rounds: 1_000,
    trials: 10_000,
};

/// The number of calls that the log of an engine's office takes.
const ROOM: u32 = 1_048_576;

/// The sweeps of a `harvest`, and of a `settle` without a number.
const SWEEPS: u64 = 1_000_000;

/// The client of an office, with its game and its diagram. It holds tokens, the harvests that were kept, and the
/// verdicts that were reported last, none before the first time. Harvest K stands at place K - 1 until it is committed.
/// What guesses derive from the game alone is kept from the first guess on. Contracts see the client, and what is held.
/// An engine can't be dropped: `end` spends its tokens.
///
/// Each function that serves a line appends its answer to `out`, and returns the answer's tone. A refusal is an answer
/// too: the engine's own comes before any call, then `LogFull`, then the desk's. Errors: `Memory` if a growth was
/// refused, `Stray` if the log or the sessions show another caller. After an error no clause says what is held, so end
/// the engine.
pub struct Engine<L: Terms> {
    game: Arc<GuardedGame>,
    diagram: Arc<Diagram>,
    client: Client<L>,
    undos: Vec<Undo<L>>,
    redos: Vec<Redo<L>>,
    harvests: Vec<Option<Harvest>>,
    seen: Vec<Verdict>,
    ground: Groundwork,
}

impl<L: Terms> Model for Engine<L> {
    ghost use Rattle.std.specs.Coded.{codes};
    ghost use Rattle.vpg_diagram.specs.Coding.{rule_code};
    ghost use Rattle.vpg_game.specs.Coding.{game_code};
    ghost use Rattle.vpg_engine.specs.Engine.{EngineState};

    ghost Value = { EngineState };

    ghost coded = { Prim.hlevel (codes, game_code, rule_code) };

    ghost use Rattle.std.specs.Arc.{arc_value};
    ghost use Rattle.vpg_engine.specs.EngineFields.{engine_in, IsEngine};

    ghost view = { λ e. engine_in e.client e.undos.items e.redos.items e.harvests.items e.seen.items };

    ghost invariant = { λ e. IsEngine L.limit (arc_value e.game) (arc_value e.diagram) e.client.desk e.harvests.items };
}

/// Returns the game and the diagram, shared once more.
fn shared(
    game: &Arc<GuardedGame>,
    diagram: &Arc<Diagram>,
) -> Result<(Arc<GuardedGame>, Arc<Diagram>), AllocError>
    ensures game { IfOk result (λ both. arc_value both.0 ≡ arc_value game.now) }
    ensures diagram { IfOk result (λ both. arc_value both.1 ≡ arc_value diagram.now) }
{
    Ok((game.clone()?, diagram.clone()?))
}

impl<L: Terms> Engine<L> {
    /// Returns the names of the features.
    fn names(&self) -> &Names
        ensures { result.now ≡ self.now.client.desk.diagram.names }
    {
        self.diagram.names()
    }

    /// Returns the call that decides the feature of a name, if a feature has it.
    fn deciding(&self, alloc: Global, name: &[u8], value: bool) -> Option<DecideCall>
        ensures first { call_or NoFeature (λ c. book.Decide c.feature c.value) result
            ≡ first_call (scene_at self.now) self.now.held (deciding value name.now) }
        ensures named { IfSome result (λ c. c.feature < length self.now.client.desk.diagram.names) }
    {
        match self.names().get(name) {
            Some(feature) => Some(DecideCall {
                alloc,
                feature,
                value,
            }),
            None => None,
        }
    }

    /// Returns the call that retracts the decision on the feature of a name, if a feature has it.
    fn retracting(&self, alloc: Global, name: &[u8]) -> Option<RetractCall>
        ensures { call_or NoFeature (λ c. book.Retract c.feature) result
            ≡ first_call (scene_at self.now) self.now.held (Retract name.now) }
    {
        match self.names().get(name) {
            Some(feature) => Some(RetractCall { alloc, feature }),
            None => None,
        }
    }

    /// Makes a call that changes the page, and holds its undo. There is none if no feature has the command's name.
    fn change<C: Call<L, Given = Undo<L>> + Drop, R: Wait>(
        &mut self,
        rt: &R,
        session: u32,
        call: Option<C>,
        out: &mut Vec<u8>,
    ) -> Result<Tone, ServeFault>
        requires takes { (c : C) → C.Takes c }
        requires changes { (undo : TokenView) → C.replies undo ≡ book.Changed undo.serial }
        requires means { (c : C) (r : Refusal) → call_of (C.asks c) (told.Refused r) ≡ C.means c }
        // A refusal names features that have names.
        requires named { (c : C) → call ≡ Some c → (fault : C.Refused) → IfSome (C.Refused.refusal_of fault)
            (λ r. Replies self.old.client.desk (C.means c) (book.Refused r) →
            IsNamedWithin (length self.old.client.desk.diagram.names) r) }
        ensures answer { IfOk result
            (λ tone. AnswersBy self.old session (call_or NoFeature C.means call) (TellsChanged self.old.held) tone
            out.old.items out.new.items self.new) }
        ensures strayed { IsErrOf result ServeFault.Stray → IsAstray self.old.client session self.new.client }
    {
        let Some(call) = call else {
            return lines::refused(b"UnknownFeature", out);
        };
        self.undos.reserve(1)?;
        match self.client.call(rt, session, call) {
            Ok(undo) => hold(&mut self.undos, undo, b"done", out),
            Err(Returned { fault, value }) => {
                hold_strayed(&mut self.undos, value);
                lines::put_fault(self.names(), fault, out)
            }
        }
    }

    /// Decides the feature of a name in, or out, and holds the undo. `UnknownFeature` if no feature has the name.
    pub fn decide<R: Wait>(
        &mut self,
        rt: &R,
        alloc: Global,
        session: u32,
        name: &[u8],
        value: bool,
        out: &mut Vec<u8>,
    ) -> Result<Tone, ServeFault>
        ensures answer { IfOk result (λ tone. AnswersTo self.old
            (record { label = session; command = deciding value name.now }) tone out.old.items out.new.items self.new) }
        ensures strayed { IsErrOf result ServeFault.Stray → IsAstray self.old.client session self.new.client }
    {
        let call = self.deciding(alloc, name, value);
        self.change(rt, session, call, out)
    }

    /// Retracts the decision on the feature of a name, and holds the undo. `UnknownFeature` if no feature has the name.
    pub fn retract<R: Wait>(
        &mut self,
        rt: &R,
        alloc: Global,
        session: u32,
        name: &[u8],
        out: &mut Vec<u8>,
    ) -> Result<Tone, ServeFault>
        ensures answer { IfOk result (λ tone. AnswersTo self.old
            (record { label = session; command = Retract name.now }) tone out.old.items out.new.items self.new) }
        ensures strayed { IsErrOf result ServeFault.Stray → IsAstray self.old.client session self.new.client }
    {
        let call = self.retracting(alloc, name);
        self.change(rt, session, call, out)
    }

    /// Retracts all decisions, and holds the undo.
    pub fn reset<R: Wait>(
        &mut self,
        rt: &R,
        alloc: Global,
        session: u32,
        out: &mut Vec<u8>,
    ) -> Result<Tone, ServeFault>
        ensures answer { IfOk result (λ tone. AnswersTo self.old
            (record { label = session; command = Reset }) tone out.old.items out.new.items self.new) }
        ensures strayed { IsErrOf result ServeFault.Stray → IsAstray self.old.client session self.new.client }
    {
        let call = Some(ResetCall { alloc });
        self.change(rt, session, call, out)
    }

    /// Undoes a change, and holds the redo. Without a serial it is the change of the undo with the greatest. `NoToken`
    /// if no undo of that serial is held.
    pub fn undo<R: Wait>(
        &mut self,
        rt: &R,
        alloc: Global,
        session: u32,
        serial: Option<u64>,
        out: &mut Vec<u8>,
    ) -> Result<Tone, ServeFault>
        ensures answer { IfOk result (λ tone. AnswersTo self.old
            (record { label = session; command = Undoes serial }) tone out.old.items out.new.items self.new) }
        ensures strayed { IsErrOf result ServeFault.Stray → IsAstray self.old.client session self.new.client }
    {
        let Some(place) = undo_place(&self.undos, serial) else {
            return lines::refused(b"NoToken", out);
        };
        self.redos.reserve(1)?;
        let token = take(&mut self.undos, place);
        match self.client.call(rt, session, UndoCall { alloc, token }) {
            Ok(redo) => hold(&mut self.redos, redo, b"undone", out),
            Err(Returned { fault, value }) => {
                put_back_unswung(&mut self.undos, &mut self.redos, place, value);
                lines::put_fault(self.names(), fault, out)
            }
        }
    }

    /// Redoes a change, and holds the undo. Without a serial it is the change of the redo that came last. `NoToken` if
    /// no redo of that serial is held.
    pub fn redo<R: Wait>(
        &mut self,
        rt: &R,
        alloc: Global,
        session: u32,
        serial: Option<u64>,
        out: &mut Vec<u8>,
    ) -> Result<Tone, ServeFault>
        ensures answer { IfOk result (λ tone. AnswersTo self.old
            (record { label = session; command = Redoes serial }) tone out.old.items out.new.items self.new) }
        ensures strayed { IsErrOf result ServeFault.Stray → IsAstray self.old.client session self.new.client }
    {
        let Some(place) = redo_place(&self.redos, serial) else {
            return lines::refused(b"NoToken", out);
        };
        self.undos.reserve(1)?;
        let token = take(&mut self.redos, place);
        match self.client.call(rt, session, RedoCall { alloc, token }) {
            Ok(undo) => hold(&mut self.undos, undo, b"redone", out),
            Err(Returned { fault, value }) => {
                put_back_unswung(&mut self.redos, &mut self.undos, place, value);
                lines::put_fault(self.names(), fault, out)
            }
        }
    }

    /// Gives an undo up, by its serial. `NoToken` if no undo of that serial is held.
    pub fn keep<R: Wait>(
        &mut self,
        rt: &R,
        session: u32,
        serial: u64,
        out: &mut Vec<u8>,
    ) -> Result<Tone, ServeFault>
        ensures answer { IfOk result (λ tone. AnswersTo self.old
            (record { label = session; command = Keep serial }) tone out.old.items out.new.items self.new) }
        ensures strayed { IsErrOf result ServeFault.Stray → IsAstray self.old.client session self.new.client }
    {
        let Some(place) = undo_place(&self.undos, Some(serial)) else {
            return lines::refused(b"NoToken", out);
        };
        let token = take(&mut self.undos, place);
        match self.client.call(rt, session, KeepCall { token }) {
            Ok(()) => lines::numbered(b"kept", serial, out),
            Err(Returned { fault, value }) => {
                put_back_unspent(&mut self.undos, place, value);
                lines::put_fault(self.names(), fault, out)
            }
        }
    }

    /// Gives a redo up, by its serial. `NoToken` if no redo of that serial is held.
    pub fn forget<R: Wait>(
        &mut self,
        rt: &R,
        session: u32,
        serial: u64,
        out: &mut Vec<u8>,
    ) -> Result<Tone, ServeFault>
        ensures answer { IfOk result (λ tone. AnswersTo self.old
            (record { label = session; command = Forget serial }) tone out.old.items out.new.items self.new) }
        ensures strayed { IsErrOf result ServeFault.Stray → IsAstray self.old.client session self.new.client }
    {
        let Some(place) = redo_place(&self.redos, Some(serial)) else {
            return lines::refused(b"NoToken", out);
        };
        let token = take(&mut self.redos, place);
        match self.client.call(rt, session, ForgetCall { token }) {
            Ok(()) => lines::numbered(b"forgotten", serial, out),
            Err(Returned { fault, value }) => {
                put_back_unspent(&mut self.redos, place, value);
                lines::put_fault(self.names(), fault, out)
            }
        }
    }

    /// Lifts a vertex of the present page once in a table, and commits the harvest. `NoVertex` if the game has no such
    /// vertex.
    pub fn lift<R: Wait>(
        &mut self,
        rt: &R,
        alloc: Global,
        session: u32,
        table: Which,
        vertex: Vertex<'_>,
        out: &mut Vec<u8>,
    ) -> Result<Tone, ServeFault>
        ensures answer { IfOk result (λ tone. AnswersTo self.old
            (record { label = session; command = Lift table (vertex_shown vertex.entry) }) tone
            out.old.items out.new.items self.new) }
        ensures strayed { IsErrOf result ServeFault.Stray → IsAstray self.old.client session self.new.client }
    {
        let Some(v) = vertex_at(&self.game, vertex) else {
            return lines::refused(b"NoVertex", out);
        };
        let order = match self.client.order(rt, alloc, session) {
            Ok(order) => order,
            Err(fault) => return lines::put_fault(self.names(), fault, out),
        };
        let harvest = Harvest::one(order, table, v);
        let added = match self.client.commit_own(rt, alloc, session, harvest) {
            Ok(added) => added,
            Err(Returned { fault, value: _ }) => return lines::put_fault(self.names(), fault, out),
        };
        lines::numbered(b"added", added as u64, out)
    }

    /// Sweeps the present page, 1,000,000 times at most, by 1 to 64 lifters at once. Keeps the harvest under the next
    /// number.
    pub fn harvest<T: Threads + Wait + Sync>(
        &mut self,
        rt: &T,
        alloc: Global,
        session: u32,
        lifters: u32,
        out: &mut Vec<u8>,
    ) -> Result<Tone, ServeFault>
        requires lifters { (1 ≤ lifters) × (lifters ≤ 64) }
        ensures answer { IfOk result (λ tone. SweepsTo self.old lifters
            (record { label = session; command = Harvests }) tone out.old.items out.new.items self.new) }
        ensures strayed { IsErrOf result ServeFault.Stray → IsAstray self.old.client session self.new.client }
    {
        self.harvests.reserve(1)?;
        let order = match self.client.order(rt, alloc, session) {
            Ok(order) => order,
            Err(fault) => return lines::put_fault(self.names(), fault, out),
        };
        let ground = &mut self.ground;
        let harvest = swept(rt, alloc, order, SWEEPS, lifters, &OpenGate, ground).harvest;
        self.harvests.push_reserved(Some(harvest));
        lines::numbered(b"harvest", self.harvests.len() as u64, out)
    }

    /// Commits a kept harvest, by its number. `NoHarvest` if none of that number is kept.
    pub fn commit<R: Wait>(
        &mut self,
        rt: &R,
        alloc: Global,
        session: u32,
        number: u64,
        out: &mut Vec<u8>,
    ) -> Result<Tone, ServeFault>
        ensures answer { IfOk result (λ tone. AnswersTo self.old
            (record { label = session; command = Commit number }) tone out.old.items out.new.items self.new) }
        ensures strayed { IsErrOf result ServeFault.Stray → IsAstray self.old.client session self.new.client }
    {
        let Some(harvest) = take_harvest(&mut self.harvests, number) else {
            return lines::refused(b"NoHarvest", out);
        };
        match self.client.commit_own(rt, alloc, session, harvest) {
            Ok(added) => lines::numbered(b"added", added as u64, out),
            Err(Returned { fault, value }) => {
                return_harvest(&mut self.harvests, number, &fault, value);
                lines::put_fault(self.names(), fault, out)
            }
        }
    }

    /// Sweeps the present page, this many times at most or 1,000,000, by 1 to 64 lifters at once. Commits the harvest,
    /// and says whether the page is settled.
    pub fn settle<T: Threads + Wait + Sync>(
        &mut self,
        rt: &T,
        alloc: Global,
        session: u32,
        sweeps: Option<u64>,
        lifters: u32,
        out: &mut Vec<u8>,
    ) -> Result<Tone, ServeFault>
        requires lifters { (1 ≤ lifters) × (lifters ≤ 64) }
        ensures answer { IfOk result (λ tone. SweepsTo self.old lifters
            (record { label = session; command = Settle sweeps }) tone out.old.items out.new.items self.new) }
        ensures strayed { IsErrOf result ServeFault.Stray → IsAstray self.old.client session self.new.client }
    {
        let order = match self.client.order(rt, alloc, session) {
            Ok(order) => order,
            Err(fault) => return lines::put_fault(self.names(), fault, out),
        };
        let harvest = swept(
            rt,
            alloc,
            order,
            sweeps.unwrap_or(SWEEPS),
            lifters,
            &OpenGate,
            &mut self.ground,
        )
        .harvest;
        let added = match self.client.commit_own(rt, alloc, session, harvest) {
            Ok(added) => added,
            Err(Returned { fault, value: _ }) => return lines::put_fault(self.names(), fault, out),
        };
        let settled = match self.client.call(rt, session, SettledCall) {
            Ok(settled) => settled,
            Err(Returned { fault, value: _ }) => return lines::put_fault(self.names(), fault, out),
        };
        lines::settled(settled, added, out)
    }

    /// Answers a look at the present page, in this context: its names of vertices, and the system that the game was
    /// made of. Refused if a vertex, a feature or the system is missing.
    pub fn look<R: Wait>(
        &mut self,
        rt: &R,
        alloc: Global,
        session: u32,
        context: &Context,
        what: &Look<'_>,
        out: &mut Vec<u8>,
    ) -> Result<Tone, ServeFault>
        ensures answer { IfOk result (λ tone. AnswersIn context.now.labels.names context.now.behaviour self.old
            (record { label = session; command = Looks (look_shown what.now) }) tone
            out.old.items out.new.items self.new) }
        ensures strayed { IsErrOf result ServeFault.Stray → IsAstray self.old.client session self.new.client }
    {
        let (labels, behaviour) = (&context.labels, &context.behaviour);
        let topic = match topic_of(alloc, behaviour, &self.game, &self.diagram, what)? {
            Ok(topic) => topic,
            Err(missing) => return lines::put_missing(missing, out),
        };
        if takes_order(&topic) {
            let order = match self.client.order(rt, alloc, session) {
                Ok(order) => order,
                Err(fault) => return lines::put_fault(self.names(), fault, out),
            };
            let tone = answer(alloc, order, labels, behaviour, &topic, LIMITS, out)?;
            return Ok(tone);
        }
        let (page, games) = match self.client.page_with_games(rt, alloc, session) {
            Ok(both) => both,
            Err(fault) => return lines::put_fault(self.names(), fault, out),
        };
        let (game, diagram) = (&self.game, &self.diagram);
        let tone = look(
            alloc, &games, &page, game, diagram, labels, &topic, LIMITS, out,
        )?;
        Ok(tone)
    }

    /// Writes the verdicts of the present page that differ from those reported last, with these names of vertices.
    pub fn changed<R: Wait>(
        &mut self,
        rt: &R,
        alloc: Global,
        session: u32,
        labels: &VertexNames,
        out: &mut Vec<u8>,
    ) -> Result<Tone, ServeFault>
        ensures answer { IfOk result (λ tone. AnswersWith labels.now.names self.old
            (record { label = session; command = Changed }) tone out.old.items out.new.items self.new) }
        ensures strayed { IsErrOf result ServeFault.Stray → IsAstray self.old.client session self.new.client }
    {
        let (page, games) = match self.client.page_with_games(rt, alloc, session) {
            Ok(both) => both,
            Err(fault) => return lines::put_fault(self.names(), fault, out),
        };
        let verdicts = verdicts_over(alloc, &games, &page, &self.game)?;
        put_changed(alloc, &self.game, labels, &self.seen, &verdicts, out)?;
        self.seen = verdicts;
        Ok(Tone::Done)
    }

    /// Returns an engine with a new office, with room for 1,048,576 calls; nothing is held. Refused as `Client::open`.
    pub fn open<R: Wait>(
        rt: &R,
        alloc: Global,
        site: Site,
        game: Arc<GuardedGame>,
        diagram: Arc<Diagram>,
    ) -> Result<Engine<L>, OpenFault>
        requires features { (arc_value game).features ≡ feature_count (arc_value diagram).lines }
        requires site { (site.row ≡ L.shelves) × (site.name ≡ L.name) × (site.parts ≡ L.parts) }
        requires of { (arc_value game ≡ L.game) × (arc_value diagram ≡ L.diagram) }
        requires room { L.limit ≡ 1048576 }
        ensures opened { IfOk result (λ engine. engine ≡ engine_of (arc_value game) (arc_value diagram)) }
        ensures fits { OnOk result (IsOpened (arc_value game) (arc_value diagram)) }
        ensures refused { IfErr result (IsOpenFault (arc_value game) (arc_value diagram)) }
    {
        let Ok((own_game, own_diagram)) = shared(&game, &diagram) else {
            return Err(OpenFault::Memory);
        };
        match Client::<L>::open(rt, alloc, site, game, diagram, ROOM) {
            Ok(client) => Ok(Engine {
                game: own_game,
                diagram: own_diagram,
                client,
                undos: Vec::new(alloc),
                redos: Vec::new(alloc),
                harvests: Vec::new(alloc),
                seen: Vec::new(alloc),
                ground: Groundwork::none(),
            }),
            Err(refused) => Err(refused.fault),
        }
    }

    /// Spends all tokens, and ends the office. Returns how many further tokens are out. If the log has a call that this
    /// engine doesn't know of, the office and the tokens come back.
    pub fn end<R: Wait>(self, rt: &R) -> Result<u64, NotEnded<L>>
        ensures ended { IfOk result
            (λ further. further + length self.held.undos + length self.held.redos ≡ self.client.desk.book.tokens) }
        ensures others { IfErr result
            (λ back. HasUnknownCall (IsElsewhere L.shelves (family_between L.game L.diagram)) self.client
            back.office) }
    {
        let Engine {
            game: _,
            diagram: _,
            client,
            undos,
            redos,
            harvests: _,
            seen: _,
            ground: _,
        } = self;
        client.end(rt, undos, redos)
    }

    /// Returns its game.
    pub fn game(&self) -> &GuardedGame
        ensures { result.now ≡ self.now.client.desk.game }
    {
        &self.game
    }

    /// Returns its diagram.
    pub fn diagram(&self) -> &Diagram
        ensures { result.now ≡ self.now.client.desk.diagram }
    {
        &self.diagram
    }

    /// Returns an order of the present page, as `Client::order`. What is held stays.
    pub fn order<R: Wait>(
        &mut self,
        rt: &R,
        alloc: Global,
        session: u32,
    ) -> Result<Order, ClientFault<Never>>
        ensures accepted { IfOk result
            (λ order. IsLogged L.limit self.old.client session book.Order
            (book.Ordered order.decisions order.hopeful order.dual) self.new.client) }
        ensures ours { IfOk result (λ order. IsOrderOf self.old.client.desk order) }
        ensures of { IfOk result (λ order. (order.game ≡ L.game) × (order.diagram ≡ L.diagram)) }
        ensures order { IfOk result IsOrder }
        ensures fault { IfErr result
            (Tells L.limit never_refused self.old.client session book.Order self.new.client) }
        ensures held { self.new.held ≡ self.old.held }
        ensures room { L.limit ≡ 1048576 }
    {
        self.client.order(rt, alloc, session)
    }
}
