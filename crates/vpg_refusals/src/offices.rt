//! Offices that make one call with little memory, each try on an office of its own.

ghost use Rattle.std.specs.Prelude.{◌≡◌, ◌<◌, ◌≤◌, length, vec_len, vec_capacity};

use crate::looks::{Caller, asked, called, shown};
use std::alloc::Global;
use std::sync::{Arc, Wait};
use vpg_desk::OpenFault;
use vpg_diagram::Diagram;
use vpg_game::GuardedGame;
use vpg_office::{Front, NotBegun, Office, Terms, TokensOut, Work, with_office};
use vpg_scarce::{
    Anew, End, Heap, HeldToken, OfficeCall, Outcome, Report, joined, serial_of, spent, tried_anew,
};
use vpg_small_family::shared;

/// The number of calls that a log takes.
const ROOM: u32 = 100;

/// At this length of a log each of its lists is full, and the next call makes them grow.
const FULL: usize = 32;

/// At this length the next call makes the row of calls ask ahead.
const AHEAD: usize = 28;

/// More memory than a call and its sheet take.
const PLENTY: usize = 1 << 14;

/// A call that is tried, and the calls before it with ample memory.
#[derive(Clone, Copy)]
struct Row {
    /// Whether there is a watch from the beginning, and the call publishes a sheet.
    is_watched: bool,
    before: &'static [OfficeCall],
    call: OfficeCall,
}

/// A row with the name of its call before it.
pub(crate) type Line = (&'static str, bool, &'static [OfficeCall], OfficeCall);

pub(crate) const NOT_TRIED: Outcome = Outcome {
    end: End::Otherwise,
    holds: false,
};

pub(crate) const OPENED: Outcome = Outcome {
    end: End::Done,
    holds: true,
};

/// A try of a row's call with this much memory.
#[derive(Drop)]
struct Try<'t> {
    heap: &'t mut Heap,
    row: &'t Row,
    bytes: usize,
}

/// Asks whether the page is settled until the log has one call less than its lists have room for. The row of calls asks
/// ahead for its next part, and goes on without it if that is refused: then the call that needs it asks again.
fn fill_up<L: Terms, R: Wait>(rt: &R, heap: &mut Heap, office: &Office<L>, caller: &mut Caller<L>)
    requires { 0 < length L.game.vertices }
{
    let mut asks = !heap.is_marked();
    for _ in 0..FULL {
        let calls = caller.seat.front.len();
        let is_refused = asks && calls == AHEAD;
        if is_refused {
            asks = false;
            heap.leave(0);
        }
        if calls < FULL - 1 {
            asked(rt, heap.alloc(), office, caller, OfficeCall::Settled);
        }
        if is_refused {
            heap.relax();
        }
    }
}

/// Makes all that comes before the call, until the log's lists are full. The look at the page is the last of it.
/// Returns the token that is held then.
fn prepare<L: Terms, R: Wait>(
    rt: &R,
    heap: &mut Heap,
    office: &Office<L>,
    caller: &mut Caller<L>,
    row: &Row,
) -> HeldToken<L>
    requires { 0 < length L.game.vertices }
{
    let alloc = heap.alloc();
    if row.is_watched {
        asked(rt, alloc, office, caller, OfficeCall::Watch);
    }
    let mut held = HeldToken::Nothing;
    for call in row.before {
        let (next, _) = called(rt, alloc, office, caller, held, *call);
        held = next;
    }
    fill_up(rt, heap, office, caller);
    asked(rt, alloc, office, caller, OfficeCall::Page);
    held
}

/// The state of a caller, seen without a call: the front's length, the calls of the shown sheet, whether there is a
/// harvest, and the serial of the held token.
type Seen = (usize, Option<usize>, bool, Option<u64>);

fn look_at<L: Terms>(caller: &mut Caller<L>, held: &HeldToken<L>) -> Seen {
    (
        caller.seat.front.len(),
        shown(caller),
        caller.harvest.is_some(),
        serial_of(held),
    )
}

/// Whether all is as it has to be once the call is done. It is the last of the front, if it is logged. The sheet of a
/// change may be left out, but not if memory is ample. A new watch reads the sheet that is shown.
fn is_done(row: &Row, bytes: usize, before: Seen, now: Seen) -> bool {
    let logged = row.call.is_logged() as usize;
    let needs_sheet = row.is_watched && bytes >= PLENTY;
    let is_shown = match row.call {
        OfficeCall::Watch => now.1.is_some(),
        _ => now.1 == Some(now.0),
    };
    now.0 == before.0.saturating_add(logged) && (is_shown || (now.1 == before.1 && !needs_sheet))
}

/// Makes the call with this much memory. Returns the token that is held then, and the outcome. A refused call leaves
/// the front, the sheet that is shown, the harvest, the token and the page; the look at the page is the next call of
/// the log.
fn try_at<L: Terms, R: Wait>(
    rt: &R,
    heap: &mut Heap,
    office: &Office<L>,
    caller: &mut Caller<L>,
    held: HeldToken<L>,
    row: &Row,
    bytes: usize,
) -> (HeldToken<L>, Outcome)
    requires { 0 < length L.game.vertices }
{
    let is_looked_at = caller.page.is_some();
    let before = look_at(caller, &held);
    heap.leave(bytes);
    let (held, end) = called(rt, heap.alloc(), office, caller, held, row.call);
    heap.relax();
    let now = look_at(caller, &held);
    let holds = match end {
        End::Done => is_done(row, bytes, before, now),
        End::Memory => {
            before == now
                && asked(rt, heap.alloc(), office, caller, OfficeCall::Page) == End::Done
                && caller.seat.front.len() == before.0.saturating_add(1)
        }
        End::Otherwise => false,
    };
    let holds = is_looked_at && holds;
    (held, Outcome { end, holds })
}

/// Joins an office, and makes the call. Returns the token that is left, and the outcome. A token that is not to be
/// handed in is spent.
fn try_on<L: Terms, R: Wait>(
    rt: &R,
    heap: &mut Heap,
    office: &Office<L>,
    row: &Row,
    bytes: usize,
) -> (HeldToken<L>, Outcome)
    requires { 0 < length L.game.vertices }
{
    let Some(seat) = joined(rt, office) else {
        return (HeldToken::Nothing, NOT_TRIED);
    };
    let mut caller = Caller {
        seat,
        harvest: None,
        watch: None,
        page: None,
    };
    let held = prepare(rt, heap, office, &mut caller, row);
    let (held, tried) = try_at(rt, heap, office, &mut caller, held, row, bytes);
    let held = if row.call.tokens() > 0 {
        held
    } else {
        spent(rt, heap.alloc(), office, &mut caller.seat, held)
    };
    (held, tried)
}

/// Returns a list with room for one value. Memory is ample, so there is room at the first try.
fn room<R: Wait, T>(rt: &R, alloc: Global) -> Vec<T>
    ensures { (vec_len result ≡ 0) × (1 ≤ vec_capacity result) }
{
    for _ in rt.forever() {
        if let Ok(room) = Vec::with_capacity(alloc, 1) {
            return room;
        }
    }
    unreachable!()
}

/// Ends an office with no memory, and hands in the token that is held. Returns how many tokens are missed.
fn end<L: Terms, R: Wait>(rt: &R, heap: &mut Heap, office: Office<L>, held: HeldToken<L>) -> u64 {
    let mut undos = room(rt, heap.alloc());
    let mut redos = room(rt, heap.alloc());
    match held {
        HeldToken::Nothing => {}
        HeldToken::Undo(token) => undos.push_reserved(token),
        HeldToken::Redo(token) => redos.push_reserved(token),
    }
    heap.leave(0);
    let further = office.end(rt, undos, redos).further();
    heap.relax();
    further
}

/// Closes an office with no memory, if nothing is held. Returns how many tokens were out. Then it is ended.
fn close<L: Terms, R: Wait>(rt: &R, heap: &mut Heap, office: Office<L>, held: HeldToken<L>) -> u64 {
    let alloc = heap.alloc();
    match held {
        HeldToken::Nothing => {
            heap.leave(0);
            let out = match office.close(rt) {
                Ok(ended) => ended.further(),
                Err(TokensOut { tokens, office }) => {
                    let _further = office.end(rt, Vec::new(alloc), Vec::new(alloc));
                    tokens
                }
            };
            heap.relax();
            out
        }
        held => end(rt, heap, office, held),
    }
}

impl<R: Wait> Work<R> for Try<'_> {
    type Answer = Outcome;

    ghost room = { λ it. 100 };

    fn work<L: Terms + Send + Sync>(
        self,
        rt: &R,
        office: Office<L>,
        _front: Front<L>,
        game: Arc<GuardedGame>,
        _diagram: Arc<Diagram>,
    ) -> Outcome {
        let Try { heap, row, bytes } = self;
        let (held, tried) = if matches!(row.call, OfficeCall::Open) {
            heap.relax();
            (HeldToken::Nothing, OPENED)
        } else if game.vertices() > 0 {
            try_on(rt, heap, &office, row, bytes)
        } else {
            (HeldToken::Nothing, NOT_TRIED)
        };
        let is_held = serial_of(&held).is_some() as usize == row.call.tokens();
        let missed = if matches!(row.call, OfficeCall::Close) {
            close(rt, heap, office, held)
        } else {
            end(rt, heap, office, held)
        };
        Outcome {
            end: tried.end,
            holds: tried.holds && is_held && missed == 0,
        }
    }
}

/// Returns the outcome of an opening that was refused. Then game and diagram come back.
fn not_opened(refused: NotBegun<Try<'_>>) -> Outcome {
    let NotBegun {
        fault,
        game,
        diagram,
        work: Try { heap, row, .. },
    } = refused;
    if !matches!(row.call, OfficeCall::Open) || fault != OpenFault::Memory {
        return NOT_TRIED;
    }
    heap.relax();
    Outcome {
        end: End::Memory,
        holds: game.vertices() == 2 && diagram.features() == 3,
    }
}

/// A row's call on offices on this game and diagram.
#[derive(Drop)]
struct Rowed<'t> {
    game: &'t Arc<GuardedGame>,
    diagram: &'t Arc<Diagram>,
    row: &'t Row,
}

impl<R: Wait> Anew<R> for Rowed<'_> {
    /// Makes the call with this much memory, on an office of its own.
    fn try_within(&mut self, rt: &R, heap: &mut Heap, bytes: usize) -> Outcome {
        let row = self.row;
        let Some((game, diagram)) = shared(self.game, self.diagram) else {
            return NOT_TRIED;
        };
        if game.features() != diagram.features() {
            return NOT_TRIED;
        }
        if matches!(row.call, OfficeCall::Open) {
            heap.leave(bytes);
        }
        let alloc = heap.alloc();
        match with_office(rt, alloc, game, diagram, ROOM, Try { heap, row, bytes }) {
            Ok(tried) => tried,
            Err(refused) => not_opened(refused),
        }
    }
}

/// Makes each line's call with little memory, and notes the result.
pub(crate) fn refuse_each<R: Wait>(
    rt: &R,
    heap: &mut Heap,
    report: &mut Report,
    game: &Arc<GuardedGame>,
    diagram: &Arc<Diagram>,
    lines: &[Line],
) {
    for line in lines {
        let (name, is_watched, before, call) = *line;
        let row = Row {
            is_watched,
            before,
            call,
        };
        let most = if is_watched { PLENTY } else { 0 };
        let mut rowed = Rowed {
            game,
            diagram,
            row: &row,
        };
        let told = tried_anew(rt, heap, &mut rowed, most);
        report.note(heap, name, told);
    }
}
