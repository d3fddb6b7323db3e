//! Calls of a desk, as a table in the order in which they are made.

use crate::desks::{open_on, seen_of, tells};
use crate::held::{Holdings, forget, forgets, keep, let_go, nothing, wait_for_token};
use crate::{done_if, memory_if, told_of};
use std::alloc::Global;
use std::sync::{Arc, Wait};
use vpg_desk::{
    CommitFault, CommitRefused, DecideFault, Desk, OpenFault, RedoFault, RedoRefused, ResetFault,
    RetractFault, TokensOut, Undo, UndoFault, UndoRefused,
};
use vpg_diagram::Diagram;
use vpg_game::GuardedGame;
use vpg_measure::Harvest;
use vpg_scarce::{End, Heap, Report, Trial};

/// The features f and g.
const F: u16 = 1;

const G: u16 = 2;

/// A call of a desk.
#[derive(Clone, Copy)]
enum DeskCall {
    /// Opens another desk on the same game and diagram.
    Open,
    /// Decides a feature; the token is held.
    Decide(u16, bool),
    Retract(u16),
    Reset,
    /// Undoes or redoes the change of the token that is held.
    Undo,
    Redo,
    /// Spends the token that is held.
    Keep,
    /// Spends the token that is held, which is the only one out and has this serial.
    Forget(u64),
    Order,
    Page,
    /// The settled harvest of the page is held.
    Settle,
    /// Hands that in.
    Commit,
    /// The desk's answers about its page and its tokens.
    Tell,
}

/// The calls. One without a name is made with all memory, and nothing is said of it.
const CALLS: &[(Option<&'static str>, DeskCall)] = &[
    (Some("Desk::open"), DeskCall::Open),
    (Some("Desk::decide"), DeskCall::Decide(F, false)),
    (Some("Desk::undo of a decision"), DeskCall::Undo),
    (Some("Desk::redo of a decision"), DeskCall::Redo),
    (None, DeskCall::Keep),
    (Some("Desk::order"), DeskCall::Order),
    (Some("Desk::page"), DeskCall::Page),
    (None, DeskCall::Settle),
    (Some("Desk::commit"), DeskCall::Commit),
    (Some("Desk::retract"), DeskCall::Retract(F)),
    (Some("Desk::undo of a retraction"), DeskCall::Undo),
    (Some("Desk::redo of a retraction"), DeskCall::Redo),
    (None, DeskCall::Keep),
    (None, DeskCall::Decide(G, true)),
    (None, DeskCall::Undo),
    (Some("Redo::serial, Desk::forget"), DeskCall::Forget(3)),
    (None, DeskCall::Decide(G, true)),
    (None, DeskCall::Keep),
    (Some("Desk::reset"), DeskCall::Reset),
    (Some("Desk::undo of a reset"), DeskCall::Undo),
    (Some("Desk::redo of a reset"), DeskCall::Redo),
    (None, DeskCall::Keep),
    (None, DeskCall::Decide(G, true)),
    (Some("Desk::settled, verdict, tokens"), DeskCall::Tell),
];

/// A call, and the desk that it is made of.
#[derive(Drop)]
struct Calling<'t> {
    call: DeskCall,
    desk: &'t mut Desk,
    held: &'t mut Holdings,
}

fn open(alloc: Global, desk: &Desk, held: &mut Holdings) -> End {
    match open_on(alloc, desk.game(), desk.diagram()) {
        Ok(_) => End::Done,
        Err((fault, vertices, features)) => {
            held.is_back = vertices == 2 && features == 3;
            memory_if(fault == OpenFault::Memory)
        }
    }
}

// A token that comes is held. One that was held before is spent, so that no token is lost.

fn decide<R: Wait>(
    rt: &R,
    alloc: Global,
    desk: &mut Desk,
    held: &mut Holdings,
    feature: u16,
    value: bool,
) -> End {
    match desk.decide(alloc, 1, feature, value) {
        Ok(token) => {
            keep(rt, desk, held.undo.replace(token));
            End::Done
        }
        Err(fault) => memory_if(fault == DecideFault::Memory),
    }
}

fn retract<R: Wait>(
    rt: &R,
    alloc: Global,
    desk: &mut Desk,
    held: &mut Holdings,
    feature: u16,
) -> End {
    match desk.retract(alloc, 1, feature) {
        Ok(token) => {
            keep(rt, desk, held.undo.replace(token));
            End::Done
        }
        Err(fault) => memory_if(fault == RetractFault::Memory),
    }
}

fn reset<R: Wait>(rt: &R, alloc: Global, desk: &mut Desk, held: &mut Holdings) -> End {
    match desk.reset(alloc, 1) {
        Ok(token) => {
            keep(rt, desk, held.undo.replace(token));
            End::Done
        }
        Err(fault) => memory_if(fault == ResetFault::Memory),
    }
}

fn undo<R: Wait>(rt: &R, alloc: Global, desk: &mut Desk, held: &mut Holdings) -> End {
    let Some(token) = held.undo.take() else {
        return End::Otherwise;
    };
    wait_for_token(rt, desk);
    match desk.undo(alloc, token) {
        Ok(token) => {
            forget(rt, desk, held.redo.replace(token));
            End::Done
        }
        Err(UndoRefused { fault, token }) => {
            keep(rt, desk, held.undo.replace(token));
            memory_if(fault == UndoFault::Memory)
        }
    }
}

fn redo<R: Wait>(rt: &R, alloc: Global, desk: &mut Desk, held: &mut Holdings) -> End {
    let Some(token) = held.redo.take() else {
        return End::Otherwise;
    };
    wait_for_token(rt, desk);
    match desk.redo(alloc, token) {
        Ok(token) => {
            keep(rt, desk, held.undo.replace(token));
            End::Done
        }
        Err(RedoRefused { fault, token }) => {
            forget(rt, desk, held.redo.replace(token));
            memory_if(fault == RedoFault::Memory)
        }
    }
}

fn order(alloc: Global, desk: &Desk) -> End {
    match desk.order(alloc) {
        Ok(_) => End::Done,
        Err(_) => End::Memory,
    }
}

fn page(alloc: Global, desk: &Desk) -> End {
    match desk.page(alloc) {
        Ok(_) => End::Done,
        Err(_) => End::Memory,
    }
}

fn settle(alloc: Global, desk: &Desk, held: &mut Holdings) -> End {
    match desk.order(alloc) {
        Ok(order) => {
            held.harvest = Some(Harvest::alone(order, 100));
            End::Done
        }
        Err(_) => End::Memory,
    }
}

/// Hands the held harvest in, which adds two entries; if it is refused it is still held.
fn commit(alloc: Global, desk: &mut Desk, held: &mut Holdings) -> End {
    let Some(harvest) = held.harvest.take() else {
        return End::Otherwise;
    };
    match desk.commit(alloc, harvest) {
        Ok(added) => done_if(added == 2),
        Err(CommitRefused { fault, harvest }) => {
            held.harvest = Some(harvest);
            memory_if(fault == CommitFault::Memory)
        }
    }
}

/// Whether a desk's answers are that its page's first vertex is neither hopeless nor sure, that it isn't settled, and
/// that one token is out.
fn is_told(desk: &Desk) -> bool {
    if desk.game().vertices() != 2 {
        return false;
    }
    let verdict = desk.verdict(0);
    !verdict.hopeless && !verdict.sure && !desk.settled() && desk.tokens() == 1
}

fn made<R: Wait>(
    rt: &R,
    alloc: Global,
    call: DeskCall,
    desk: &mut Desk,
    held: &mut Holdings,
) -> End {
    match call {
        DeskCall::Open => open(alloc, desk, held),
        DeskCall::Decide(feature, value) => decide(rt, alloc, desk, held, feature, value),
        DeskCall::Retract(feature) => retract(rt, alloc, desk, held, feature),
        DeskCall::Reset => reset(rt, alloc, desk, held),
        DeskCall::Undo => undo(rt, alloc, desk, held),
        DeskCall::Redo => redo(rt, alloc, desk, held),
        DeskCall::Keep => {
            keep(rt, desk, held.undo.take());
            End::Done
        }
        DeskCall::Forget(serial) => done_if(forgets(rt, desk, held, serial)),
        DeskCall::Order => order(alloc, desk),
        DeskCall::Page => page(alloc, desk),
        DeskCall::Settle => settle(alloc, desk, held),
        DeskCall::Commit => commit(alloc, desk, held),
        DeskCall::Tell => done_if(is_told(desk)),
    }
}

impl<R: Wait> Trial<R> for Calling<'_> {
    fn attempt(&mut self, rt: &R, alloc: Global) -> End {
        made(rt, alloc, self.call, self.desk, self.held)
    }

    fn is_unchanged(&mut self, _rt: &R, alloc: Global) -> bool {
        self.held.is_back && tells(alloc, self.desk, &self.held.before)
    }
}

/// Makes a call with little memory if it has a name, and with all memory if it has none.
fn try_call<R: Wait>(
    rt: &R,
    heap: &mut Heap,
    report: &mut Report,
    calling: &mut Calling<'_>,
    name: Option<&'static str>,
) {
    match name {
        Some(name) => {
            calling.held.before = seen_of(heap.alloc(), calling.desk);
            report.try_call(rt, heap, name, calling);
        }
        None => {
            calling.attempt(rt, heap.alloc());
        }
    }
}

/// Makes each call.
fn try_each<R: Wait>(rt: &R, heap: &mut Heap, report: &mut Report, calling: &mut Calling<'_>) {
    for (name, call) in CALLS {
        calling.call = *call;
        try_call(rt, heap, report, calling, *name);
    }
}

/// Whether a desk with one token out, of serial 6, stays open, and closes once the token is spent.
fn closes<R: Wait>(rt: &R, desk: Desk, token: Undo) -> bool {
    wait_for_token(rt, &desk);
    match desk.close() {
        Err(TokensOut { tokens, desk }) => closes_then(rt, desk, token) && tokens == 1,
        Ok(()) => unreachable!(),
    }
}

fn closes_then<R: Wait>(rt: &R, desk: Desk, token: Undo) -> bool {
    let mut desk = desk;
    let told = token.serial() == 6 && desk.tokens() == 1;
    keep(rt, &mut desk, Some(token));
    let none_out = desk.tokens() == 0;
    desk.close().is_ok() && told && none_out
}

/// Closes a desk with no memory.
fn close<R: Wait>(rt: &R, heap: &mut Heap, report: &mut Report, desk: Desk, token: Option<Undo>) {
    heap.leave(0);
    let is_closed = match token {
        Some(token) => closes(rt, desk, token),
        None => false,
    };
    heap.relax();
    report.note(heap, "Undo::serial, Desk::keep, close", told_of(is_closed));
}

/// Makes each call of a desk, which holds one token then: that one.
fn use_desk<R: Wait>(
    rt: &R,
    heap: &mut Heap,
    report: &mut Report,
    desk: &mut Desk,
) -> Option<Undo> {
    let mut held = nothing();
    let mut calling = Calling {
        call: DeskCall::Open,
        desk,
        held: &mut held,
    };
    try_each(rt, heap, report, &mut calling);
    let token = held.undo.take();
    let_go(rt, desk, held);
    token
}

/// Makes each call with little memory.
pub(crate) fn refuse<R: Wait>(
    rt: &R,
    heap: &mut Heap,
    report: &mut Report,
    game: &Arc<GuardedGame>,
    diagram: &Arc<Diagram>,
) -> Option<()> {
    let mut desk = open_on(heap.alloc(), game, diagram).ok()?;
    let token = use_desk(rt, heap, report, &mut desk);
    close(rt, heap, report, desk, token);
    Some(())
}
