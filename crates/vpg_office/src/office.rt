//! The office: the row of calls, and the log under a lock.
ghost use Rattle.std.specs.Arc.{arc_value};
ghost use Rattle.std.specs.Prelude.{◌≡◌, ◌⊎◌, ◌+◌, ◌<◌, ◌≤◌, ◌↔◌, ℕ, List, [], length, IfOk, IfErr, IfSome, OnOk};
ghost use Rattle.std.specs.Sync.Mutex.{mutex_guard_value};
ghost use mathlib.Core.List.{IsPrefix};
ghost use Rattle.vpg_diagram.specs.FeatureDiagram.{feature_count};
ghost use Rattle.vpg_game.specs.Game.{IsAtLimit};
ghost use Rattle.vpg_partial.specs.KnownLaws.{HasConflictOf};
ghost use Rattle.vpg_desk.specs.Book.{opened};
ghost use Rattle.vpg_desk.specs.History.{Event, book_after};
ghost use Rattle.vpg_desk.specs.State.{IsOpened};
ghost use Rattle.vpg_office.specs.Fronts.{IsHistory, family_between};
ghost use Rattle.vpg_office.specs.Kept.{HasOwn};

use crate::chronicle::Row;
use crate::ended::Ended;
use crate::fault::NotWatched;
use crate::front::{Front, Own};
use crate::log::Log;
use crate::publishing::opening_press;
use crate::purse::Purse;
use crate::replay::Replay;
use crate::session::Session;
use crate::site::{CALLS, Site};
use crate::terms::Terms;
use crate::token::{Redo, Undo};
use crate::unshared::Unshared;
use std::alloc::{AllocError, Global};
use std::marker::PhantomData;
use std::sync::{Arc, Mutex, MutexGuard, Wait};
use thiserror::Error;
use vpg_desk::{Desk, OpenFault, OpenRefused};
use vpg_diagram::Diagram;
use vpg_game::GuardedGame;
use vpg_watch::{NoPlace, Press, Watch};

/// A row of calls, by its name.
pub trait Rowed {
    ghost use Rattle.boxcar.specs.Table.{Shelves};

    ghost row_of: { Self → Shelves };

    fn is_row(&self) -> bool;
}

impl Rowed for Row {
    ghost row_of = { λ r. r };

    fn is_row(&self) -> bool {
        true
    }
}

/// Sessions share it by reference; `close` or `end` ends it, `unshare` takes it out of its lock. The types of the row
/// and of the log are parameters, so that the check finds that threads may share it.
pub struct Shared<W: Rowed, L: Terms, T> {
    pub(crate) row: W,
    pub(crate) log: Mutex<T>,
    pub(crate) of: PhantomData<L>,
    ghost of_row: { W.row_of row ≡ L.shelves },
}

pub type Office<L> = Shared<Row, L, Log<L>>;

/// An office has at most 1,024 sessions.
#[derive(Clone, Copy, Debug, PartialEq, Eq, Error)]
#[error("TooManySessions")]
pub struct TooManySessions;

/// Tokens of the office are out.
pub struct TokensOut<L: Terms> {
    /// Their exact number, at least one.
    pub tokens: u64,
    pub office: Unshared<L>,
}

/// An office that isn't opened, with the arguments.
#[derive(Drop)]
pub struct NotOpened {
    pub fault: OpenFault,
    pub game: Arc<GuardedGame>,
    pub diagram: Arc<Diagram>,
    pub site: Site,
}

/// Returns further owners of both.
pub(crate) fn again(
    game: &Arc<GuardedGame>,
    diagram: &Arc<Diagram>,
) -> Result<(Arc<GuardedGame>, Arc<Diagram>), AllocError>
    ensures game { IfOk result (λ both. arc_value both.0 ≡ arc_value game.now) }
    ensures diagram { IfOk result (λ both. arc_value both.1 ≡ arc_value diagram.now) }
{
    Ok((game.clone()?, diagram.clone()?))
}

/// Returns why no office is opened if there is no memory: a game at the limit is reported first.
pub(crate) fn memory_fault(game: &Arc<GuardedGame>) -> OpenFault
    ensures at_limit { (result ≡ OpenFault.AtLimit) ↔ IsAtLimit (arc_value game.now) }
    ensures conflict { (f : ℕ) → ¬ (result ≡ OpenFault.Conflict f) }
{
    if game.is_at_limit() {
        return OpenFault::AtLimit;
    }
    OpenFault::Memory
}

/// Returns a desk on a game and a diagram, and a press that shows its sheet.
fn opened_desk<L: Terms, R: Wait>(
    rt: &R,
    alloc: Global,
    game: Arc<GuardedGame>,
    diagram: Arc<Diagram>,
) -> Result<(Replay, Press<Front<L>>), OpenFault>
    requires features { (arc_value game).features ≡ feature_count (arc_value diagram).lines }
    requires of { (arc_value game ≡ L.game) × (arc_value diagram ≡ L.diagram) }
    requires few { L.limit ≤ 1048576 }
    ensures opened { IfOk result (λ r. r.0.book ≡ opened) }
    ensures game { IfOk result (λ r. r.0.game ≡ arc_value game) }
    ensures diagram { IfOk result (λ r. r.0.diagram ≡ arc_value diagram) }
    ensures press { IfOk result (λ r. r.1.front ≡ []) }
    ensures fits { OnOk result (IsOpened (arc_value game) (arc_value diagram)) }
    ensures at_limit { IfErr result (λ fault. (fault ≡ OpenFault.AtLimit) ↔ IsAtLimit (arc_value game)) }
    ensures conflict { IfErr result
        (λ fault. (f : ℕ) → fault ≡ OpenFault.Conflict f → HasConflictOf (arc_value diagram).lines [] × (f ≡ 0)) }
{
    match Desk::open(alloc, game, diagram) {
        Ok(desk) => {
            let mut desk = Replay::of(desk);
            match opening_press::<L, R>(rt, alloc, &mut desk) {
                Ok(press) => Ok((desk, press)),
                Err(_) => Err(OpenFault::Memory),
            }
        }
        Err(refused) => Err(refused.fault),
    }
}

impl<L: Terms> Shared<Row, L, Log<L>> {
    /// Returns an office on a game and a diagram, with a log of `room` calls.
    pub fn open<R: Wait>(
        rt: &R,
        alloc: Global,
        site: Site,
        game: Arc<GuardedGame>,
        diagram: Arc<Diagram>,
        room: u32,
    ) -> Result<Office<L>, NotOpened>
        requires features { (arc_value game).features ≡ feature_count (arc_value diagram).lines }
        requires site { (site.row ≡ L.shelves) × (site.name ≡ L.name) × (site.parts ≡ L.parts) }
        requires of { (arc_value game ≡ L.game) × (arc_value diagram ≡ L.diagram) }
        requires room { (room ≡ L.limit) × (1 ≤ room) × (room ≤ 1048576) }
        ensures fits { OnOk result (IsOpened L.game L.diagram) }
        ensures at_limit { IfErr result (λ refused. (refused.fault ≡ OpenFault.AtLimit) ↔ IsAtLimit (arc_value game)) }
        ensures conflict { IfErr result
            (λ refused. (f : ℕ) → refused.fault ≡ OpenFault.Conflict f → HasConflictOf (arc_value diagram).lines [] ×
            (f ≡ 0)) }
        ensures game_back { IfErr result (λ refused. arc_value refused.game ≡ arc_value game) }
        ensures diagram_back { IfErr result (λ refused. arc_value refused.diagram ≡ arc_value diagram) }
        ensures site_back { IfErr result (λ refused. refused.site ≡ site) }
    {
        let Ok((same_game, same_diagram)) = again(&game, &diagram) else {
            return Err(NotOpened {
                fault: memory_fault(&game),
                game,
                diagram,
                site,
            });
        };
        match opened_desk::<L, R>(rt, alloc, game, diagram) {
            Ok((desk, press)) => {
                let Site { row, blank } = site;
                let (book, mut rest) = blank.open::<L>();
                let left = rest.split_off(CALLS, 0);
                let purse = Purse::of(book, rest);
                let log = Log::open(alloc, desk, purse, left, room as usize, press);
                Ok(Shared {
                    row,
                    log: Mutex::new(log),
                    of: PhantomData,
                })
            }
            Err(fault) => Err(NotOpened {
                fault,
                game: same_game,
                diagram: same_diagram,
                site,
            }),
        }
    }

    /// Returns a further session, with the log so far. Refused if there are 1,024.
    pub fn join<R: Wait>(&self, rt: &R) -> Result<(Session<L>, Front<L>), TooManySessions>
        ensures history { IfOk result (λ r. IsHistory (family_between L.game L.diagram) r.1) }
        ensures number { IfOk result (λ r. (1 ≤ r.0.number) × (r.0.number ≤ 1024)) }
        ensures fresh { IfOk result (λ r. r.0.calls ≡ 0) }
    {
        let mut log = self.log.lock(rt);
        let joined = log.joined();
        MutexGuard::unlock(log);
        match joined {
            Some(joined) => Ok(joined),
            None => Err(TooManySessions),
        }
    }

    /// Returns a watch of the sheets that the office publishes. There is one sheet from the opening, and one for each
    /// accepted decide, retract, reset, undo, redo and commit, if memory allows it. Its first read returns the sheet
    /// that is shown now or a later one. It takes no memory; the one refusal is that there are 64 watches.
    pub fn watch<R: Wait>(&self, rt: &R) -> Result<Watch<Front<L>>, NoPlace>
        ensures history { IfOk result (IsHistory (family_between L.game L.diagram)) }
    {
        let mut log = self.log.lock(rt);
        let watch = log.watch();
        MutexGuard::unlock(log);
        watch
    }

    /// Returns a watch that begins at this front: its first read returns a sheet of this front or of a later one,
    /// whatever was published before. The sheet of the log is published first. Refused if there is no memory for that,
    /// and if there are 64 watches.
    pub fn watch_from<R: Wait>(
        &self,
        rt: &R,
        alloc: Global,
        front: &Front<L>,
    ) -> Result<Watch<Front<L>>, NotWatched>
        ensures begins { IfOk result (IsPrefix front.now) }
        ensures history { IfOk result (IsHistory (family_between L.game L.diagram)) }
    {
        let mut log = self.log_with(rt, front, &None);
        let _whole = log.whole();
        let watch = log.watch_whole(rt, alloc);
        MutexGuard::unlock(log);
        watch
    }

    /// Returns the log, locked, if it has the front and a token's.
    pub(crate) fn log_with<R: Wait>(
        &self,
        rt: &R,
        front: &Front<L>,
        own: &Option<Own<L>>,
    ) -> MutexGuard<'_, Log<L>>
        ensures front { IsPrefix front.now (mutex_guard_value result) }
        ensures own { IfSome own.now (HasOwn (mutex_guard_value result)) }
    {
        'again: for _ in rt.forever() {
            let log = self.log.lock(rt);
            if log.calls.has_both(&self.row, front, own).is_ok() {
                return log;
            }
            MutexGuard::unlock(log);
        }
        unreachable!()
    }

    /// Sets the first front to the longer of both.
    pub fn meet<R: Wait>(&self, rt: &R, front: &mut Front<L>, other: &Front<L>)
        ensures mine { IsPrefix front.old front.new }
        ensures theirs { IsPrefix other.now front.new }
        ensures one { (front.new ≡ front.old) ⊎ (front.new ≡ other.now) }
        ensures history { IsHistory (family_between L.game L.diagram) front.new }
    {
        let own = Some(Own {
            front: other.copy(),
            serial: None,
        });
        let log = self.log_with(rt, front, &own);
        MutexGuard::unlock(log);
        if front.len() < other.len() {
            *front = other.copy();
        }
    }

    /// Returns the office out of its lock: nobody shares it now.
    pub fn unshare(self) -> Unshared<L>
        ensures history { IsHistory (family_between L.game L.diagram) result }
    {
        let Shared { row, log, of: _ } = self;
        let log = log.into_inner();
        let _whole = log.whole();
        Unshared { row, log }
    }

    /// Ends the office if no token of it is out; else it comes back, with their exact number.
    pub fn close<R: Wait>(self, rt: &R) -> Result<Ended<L>, TokensOut<L>>
        ensures closed { IfOk result (λ ended. ended ≡ 0) }
        ensures out { IfErr result
            (λ out. (out.tokens ≡ (book_after (family_between L.game L.diagram) opened out.office).tokens) ×
            (0 < out.tokens)) }
        ensures history { IfErr result (λ out. IsHistory (family_between L.game L.diagram) out.office) }
    {
        let office = self.unshare();
        let tokens = office.tokens();
        if tokens == 0 {
            let Unshared { row, log } = office;
            return Ok(log.dissolve(rt, row));
        }
        Err(TokensOut { tokens, office })
    }

    /// Spends the tokens handed in, and ends the office, whatever the log's room. It is never refused. The result says
    /// how many further tokens are out.
    pub fn end<R: Wait>(self, rt: &R, undos: Vec<Undo<L>>, redos: Vec<Redo<L>>) -> Ended<L>
        ensures further { (log : List Event) ×
            (IsHistory (family_between L.game L.diagram) log ×
            (result + length undos.items + length redos.items
            ≡ (book_after (family_between L.game L.diagram) opened log).tokens)) }
    {
        self.unshare().end(rt, undos, redos)
    }
}
