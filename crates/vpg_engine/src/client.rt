//! The client: an office, the one front that its sessions share, and the sessions by their labels.
ghost use Rattle.std.specs.Arc.{arc_value};
ghost use Rattle.std.specs.Prelude.{◌≡◌, ◌+◌, ◌<◌, ◌≤◌, ◌↔◌, ◌++◌, ◌∷◌, ℕ, [], length, slice_index_or};
ghost use Rattle.std.specs.Prelude.{true, false, IfOk, IfErr, OnOk};
ghost use Rattle.vpg_diagram.specs.FeatureDiagram.{feature_count};
ghost use Rattle.vpg_game.specs.Game.{IsAtLimit};
ghost use Rattle.vpg_partial.specs.KnownLaws.{HasConflictOf};
ghost use Rattle.vpg_desk.specs.Book.{opened};
ghost use Rattle.vpg_desk.specs.History.{book_after};
ghost use Rattle.vpg_desk.specs.State.{IsOpened};
ghost use Rattle.vpg_office.specs.Fronts.{family_between};
ghost use Rattle.vpg_office.specs.Kept.{IsElsewhere};
ghost use Rattle.vpg_engine.specs.Client.{HasUnknownCall, IsBeyond, IsNumbered, calls_of, client_of, nobody, unseated_from};
ghost use Rattle.vpg_engine.specs.Faults.{IsAbsent};

use crate::fault::ClientFault;
use std::alloc::{AllocError, Global};
use std::marker::Model;
use std::sync::{Arc, Wait};
use vpg_desk::OpenFault;
use vpg_diagram::Diagram;
use vpg_game::GuardedGame;
use vpg_office::{Front, NotOpened, Office, Redo, Session, Site, Terms, Undo, Unshared};

/// The one caller of an office, for labels from 1 to 1,024. Contracts see the desk that it serves, the number of calls
/// in the log, how many of them its own sessions made, and the first label whose session has another number. A client
/// can't be dropped: `end` ends it.
pub struct Client<L: Terms> {
    pub(crate) office: Office<L>,
    pub(crate) front: Front<L>,
    // that of label N at place N - 1
    pub(crate) sessions: Vec<Session<L>>,
}

/// The office of a client, whose log has a call that the client doesn't know of, and tokens. It can't be dropped: `end`
/// ends it.
pub struct NotEnded<L: Terms> {
    pub office: Unshared<L>,
    pub undos: Vec<Undo<L>>,
    pub redos: Vec<Redo<L>>,
}

impl<L: Terms> NotEnded<L> {
    /// Spends the tokens, and ends the office. Returns how many further tokens are out.
    pub fn end<R: Wait>(self, rt: &R) -> u64
        ensures { result + length self.undos.items + length self.redos.items
            ≡ (book_after (family_between L.game L.diagram) opened self.office).tokens }
    {
        let NotEnded {
            office,
            undos,
            redos,
        } = self;
        let ended = office.end(rt, undos, redos);
        ended.further()
    }
}

impl<L: Terms> Model for Client<L> {
    ghost use Rattle.std.specs.Coded.{codes};
    ghost use Rattle.vpg_diagram.specs.Coding.{rule_code};
    ghost use Rattle.vpg_game.specs.Coding.{game_code};
    ghost use Rattle.vpg_engine.specs.Client.{ClientState};

    ghost Value = { ClientState };

    ghost coded = { Prim.hlevel (codes, game_code, rule_code) };

    ghost use Rattle.vpg_engine.specs.Client.{client_after};

    ghost view = { λ c. client_after L.game L.diagram c.sessions.items c.front };
}

impl<L: Terms> Client<L> {
    /// Returns the client of a new office with a log of `room` calls. Refused as `Office::open`; the arguments come
    /// back then.
    pub fn open<R: Wait>(
        rt: &R,
        alloc: Global,
        site: Site,
        game: Arc<GuardedGame>,
        diagram: Arc<Diagram>,
        room: u32,
    ) -> Result<Client<L>, NotOpened>
        requires features { (arc_value game).features ≡ feature_count (arc_value diagram).lines }
        requires site { (site.row ≡ L.shelves) × (site.name ≡ L.name) × (site.parts ≡ L.parts) }
        requires of { (arc_value game ≡ L.game) × (arc_value diagram ≡ L.diagram) }
        requires room { (room ≡ L.limit) × (1 ≤ room) × (room ≤ 1048576) }
        ensures opened { IfOk result (λ client. client ≡ client_of L.game L.diagram) }
        ensures fits { OnOk result (IsOpened L.game L.diagram) }
        ensures at_limit { IfErr result (λ refused. (refused.fault ≡ OpenFault.AtLimit) ↔ IsAtLimit (arc_value game)) }
        ensures conflict { IfErr result
            (λ refused. (f : ℕ) → refused.fault ≡ OpenFault.Conflict f → HasConflictOf (arc_value diagram).lines [] ×
            (f ≡ 0)) }
        ensures game_back { IfErr result (λ refused. arc_value refused.game ≡ arc_value game) }
        ensures diagram_back { IfErr result (λ refused. arc_value refused.diagram ≡ arc_value diagram) }
        ensures site_back { IfErr result (λ refused. refused.site ≡ site) }
    {
        match Office::<L>::open(rt, alloc, site, game, diagram, room) {
            Ok(office) => Ok(Client {
                office,
                front: Front::empty(),
                sessions: Vec::new(alloc),
            }),
            Err(refused) => Err(refused),
        }
    }

    /// Spends the tokens handed in, and ends the office. Returns how many further tokens are out. If the log has a call
    /// that this client doesn't know of, the office and the tokens come back.
    pub fn end<R: Wait>(
        self,
        rt: &R,
        undos: Vec<Undo<L>>,
        redos: Vec<Redo<L>>,
    ) -> Result<u64, NotEnded<L>>
        ensures ended { IfOk result
            (λ further. further + length undos.items + length redos.items ≡ self.desk.book.tokens) }
        ensures others { IfErr result
            (λ back. HasUnknownCall (IsElsewhere L.shelves (family_between L.game L.diagram)) self back.office) }
        ensures undos_back { IfErr result (λ back. back.undos ≡ undos) }
        ensures redos_back { IfErr result (λ back. back.redos ≡ redos) }
    {
        let Client {
            office,
            front,
            sessions: _,
        } = self;
        let office = office.unshare();
        if !office.has(&front) {
            return Err(NotEnded {
                office,
                undos,
                redos,
            });
        }
        let log = office.log();
        if log.len() != front.len() {
            return Err(NotEnded {
                office,
                undos,
                redos,
            });
        }
        let ended = office.end(rt, undos, redos);
        Ok(ended.further())
    }
}

/// Returns the place of a label's session. If the label is new, joins the sessions up to it. `Stray` if the session
/// there, or an earlier one, has another number than its label; `Memory` also if the office has no session for it: it
/// has 1,024 at most, from 1.
pub(crate) fn seat<L: Terms, R: Wait, F>(
    rt: &R,
    office: &Office<L>,
    sessions: &mut Vec<Session<L>>,
    label: u32,
) -> Result<usize, ClientFault<F>>
    ensures within { IfOk result (λ place. place < length sessions.new.items) }
    ensures number { IfOk result (λ place. (slice_index_or sessions.new.items place nobody).number ≡ label) }
    ensures own { calls_of sessions.new.items ≡ calls_of sessions.old.items }
    ensures seated { OnOk result (unseated_from 1 sessions.new.items ≡ unseated_from 1 sessions.old.items) }
    ensures absent { IfErr result
        (IsAbsent label (unseated_from 1 sessions.old.items) (unseated_from 1 sessions.new.items)) }
{
    if label == 0 {
        return Err(ClientFault::Memory);
    }
    let Ok(seated) = join(rt, office, sessions, label) else {
        return Err(ClientFault::Memory);
    };
    let place = label as usize - 1;
    if !seated {
        return Err(ClientFault::Stray);
    }
    if has_number(sessions, place, label) {
        return Ok(place);
    }
    Err(ClientFault::Stray)
}

/// Whether the session at a place has this number.
fn has_number<L: Terms>(sessions: &[Session<L>], place: usize, number: u32) -> bool
    ensures yes { result ≡ true → IsNumbered sessions.now place number }
    ensures no { result ≡ false → ¬ IsNumbered sessions.now place number }
{
    if place >= sessions.len() {
        return false;
    }
    sessions[place].number() == number
}

/// Joins sessions until there is one for the label. `false` if the last one that was joined has another number than its
/// label: none is joined after it.
fn join<L: Terms, R: Wait>(
    rt: &R,
    office: &Office<L>,
    sessions: &mut Vec<Session<L>>,
    label: u32,
) -> Result<bool, AllocError>
    ensures own { calls_of sessions.new.items ≡ calls_of sessions.old.items }
    ensures enough { IfOk result (λ seated. seated ≡ true → label ≤ length sessions.new.items) }
    ensures seated { IfOk result
        (λ seated. seated ≡ true → unseated_from 1 sessions.new.items ≡ unseated_from 1 sessions.old.items) }
    ensures beyond { IfOk result (λ seated. seated ≡ false → IsBeyond label (unseated_from 1 sessions.new.items)) }
    ensures failed { IfErr result (λ _. unseated_from 1 sessions.new.items ≡ unseated_from 1 sessions.old.items) }
{
    for next in sessions.len()..label as usize {
        let number = join_one(rt, office, sessions)?;
        if number as usize != next + 1 {
            return Ok(false);
        }
    }
    Ok(true)
}

/// Joins one session more, and returns its number.
fn join_one<L: Terms, R: Wait>(
    rt: &R,
    office: &Office<L>,
    sessions: &mut Vec<Session<L>>,
) -> Result<u32, AllocError>
    ensures joined { IfOk result
        (λ n. sessions.new.items ≡ sessions.old.items ++ record { number = n; calls = 0 } ∷ []) }
    ensures failed { IfErr result (λ _. sessions.new.items ≡ sessions.old.items) }
{
    sessions.reserve(1)?;
    let Ok((session, _log)) = office.join(rt) else {
        return Err(AllocError);
    };
    let number = session.number();
    sessions.push_reserved(session);
    Ok(number)
}

/// Whether the front has exactly one call more than `calls`.
pub(crate) fn has_one_more<L: Terms>(front: &Front<L>, calls: usize) -> bool
    ensures yes { result ≡ true → length front.now ≡ calls + 1 }
    ensures no { result ≡ false → ¬ (length front.now ≡ calls + 1) }
    ensures fits { length front.now ≤ L.limit }
{
    calls < front.len() && front.len() - calls == 1
}
