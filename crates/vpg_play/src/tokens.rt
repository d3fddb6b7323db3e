//! Seats of sessions, and their calls that give tokens and spend them. Each call is noted with its answer.
use crate::noting::{Notes, put_failure, put_fault};
use std::alloc::Global;
use std::fmt::Display;
use std::sync::Wait;
use vpg_faults::Returned;
use vpg_office::{Fault, Front, Office, Redo, Session, Terms, Undo};

/// A session with its front.
pub(crate) struct Seat<L: Terms> {
    pub(crate) session: Session<L>,
    pub(crate) front: Front<L>,
}

// Not derived: a derived `drop` would be proved again at each exit that owns such a value.
impl<L: Terms> Drop for Seat<L> {
    fn drop(self) {
        let Seat {
            session: _,
            front: _,
        } = self;
    }
}

/// The token of a change, or of one that was undone, if there is one.
pub(crate) enum Token<L: Terms> {
    Absent,
    Made(Undo<L>),
    Undone(Redo<L>),
}

/// A change of one feature, or of all.
#[derive(Clone, Copy)]
pub(crate) enum Change {
    Select,
    Exclude,
    Retract,
    Reset,
}

/// Returns the token of a change.
fn changed<L: Terms, F: Display + Copy + Drop>(
    notes: &mut Notes,
    answer: Result<Undo<L>, Fault<L, F>>,
) -> Token<L> {
    match answer {
        Ok(token) => {
            notes.put("done");
            notes.put(token.serial());
            Token::Made(token)
        }
        Err(fault) => {
            put_fault(notes, fault);
            Token::Absent
        }
    }
}

/// Decides a feature, and returns the token of that.
fn decide<L: Terms, R: Wait>(
    rt: &R,
    alloc: Global,
    office: &Office<L>,
    seat: &mut Seat<L>,
    notes: &mut Notes,
    feature: u16,
    value: bool,
) -> Token<L> {
    let Seat { session, front } = seat;
    notes.begin(session.number(), if value { "select" } else { "exclude" });
    notes.put(feature);
    let answer = session.decide(rt, alloc, office, front, feature, value);
    let token = changed(notes, answer);
    notes.end(front.len());
    token
}

/// Retracts a feature, and returns the token of that.
fn retract<L: Terms, R: Wait>(
    rt: &R,
    alloc: Global,
    office: &Office<L>,
    seat: &mut Seat<L>,
    notes: &mut Notes,
    feature: u16,
) -> Token<L> {
    let Seat { session, front } = seat;
    notes.begin(session.number(), "retract");
    notes.put(feature);
    let answer = session.retract(rt, alloc, office, front, feature);
    let token = changed(notes, answer);
    notes.end(front.len());
    token
}

/// Retracts every feature, and returns the token of that.
fn reset<L: Terms, R: Wait>(
    rt: &R,
    alloc: Global,
    office: &Office<L>,
    seat: &mut Seat<L>,
    notes: &mut Notes,
) -> Token<L> {
    let Seat { session, front } = seat;
    notes.begin(session.number(), "reset");
    let answer = session.reset(rt, alloc, office, front);
    let token = changed(notes, answer);
    notes.end(front.len());
    token
}

/// Changes a feature, and returns the token of that.
pub(crate) fn make_change<L: Terms, R: Wait>(
    rt: &R,
    alloc: Global,
    office: &Office<L>,
    seat: &mut Seat<L>,
    notes: &mut Notes,
    feature: u16,
    change: Change,
) -> Token<L> {
    match change {
        Change::Select => decide(rt, alloc, office, seat, notes, feature, true),
        Change::Exclude => decide(rt, alloc, office, seat, notes, feature, false),
        Change::Retract => retract(rt, alloc, office, seat, notes, feature),
        Change::Reset => reset(rt, alloc, office, seat, notes),
    }
}

/// Undoes a change. Returns the token that is there then.
pub(crate) fn undo<L: Terms, R: Wait>(
    rt: &R,
    alloc: Global,
    office: &Office<L>,
    seat: &mut Seat<L>,
    notes: &mut Notes,
    token: Undo<L>,
) -> Token<L> {
    let Seat { session, front } = seat;
    notes.begin(session.number(), "undo");
    notes.put(token.serial());
    let left = match session.undo(rt, alloc, office, front, token) {
        Ok(token) => {
            notes.put("undone");
            notes.put(token.serial());
            Token::Undone(token)
        }
        Err(Returned { fault, value }) => {
            put_fault(notes, fault);
            Token::Made(value)
        }
    };
    notes.end(front.len());
    left
}

/// Redoes a change. Returns the token that is there then.
pub(crate) fn redo<L: Terms, R: Wait>(
    rt: &R,
    alloc: Global,
    office: &Office<L>,
    seat: &mut Seat<L>,
    notes: &mut Notes,
    token: Redo<L>,
) -> Token<L> {
    let Seat { session, front } = seat;
    notes.begin(session.number(), "redo");
    notes.put(token.serial());
    let left = match session.redo(rt, alloc, office, front, token) {
        Ok(token) => {
            notes.put("redone");
            notes.put(token.serial());
            Token::Made(token)
        }
        Err(Returned { fault, value }) => {
            put_fault(notes, fault);
            Token::Undone(value)
        }
    };
    notes.end(front.len());
    left
}

/// Keeps a change. Returns the token if it is there still.
fn keep<L: Terms, R: Wait>(
    rt: &R,
    office: &Office<L>,
    seat: &mut Seat<L>,
    notes: &mut Notes,
    token: Undo<L>,
) -> Token<L> {
    let Seat { session, front } = seat;
    notes.begin(session.number(), "keep");
    notes.put(token.serial());
    let left = match session.keep(rt, office, front, token) {
        Ok(()) => {
            notes.put("kept");
            Token::Absent
        }
        Err(Returned { fault, value }) => {
            put_failure(notes, fault);
            Token::Made(value)
        }
    };
    notes.end(front.len());
    left
}

/// Forgets an undone change. Returns the token if it is there still.
fn forget<L: Terms, R: Wait>(
    rt: &R,
    office: &Office<L>,
    seat: &mut Seat<L>,
    notes: &mut Notes,
    token: Redo<L>,
) -> Token<L> {
    let Seat { session, front } = seat;
    notes.begin(session.number(), "forget");
    notes.put(token.serial());
    let left = match session.forget(rt, office, front, token) {
        Ok(()) => {
            notes.put("forgotten");
            Token::Absent
        }
        Err(Returned { fault, value }) => {
            put_failure(notes, fault);
            Token::Undone(value)
        }
    };
    notes.end(front.len());
    left
}

/// Gives a token up. It can't be dropped, so a call that is refused is made again: the log has to have room for it.
pub(crate) fn give_up<L: Terms, R: Wait>(
    rt: &R,
    office: &Office<L>,
    seat: &mut Seat<L>,
    notes: &mut Notes,
    token: Token<L>,
) {
    let mut token = token;
    for _ in rt.forever() {
        token = match token {
            Token::Absent => return,
            Token::Made(undo) => keep(rt, office, seat, notes, undo),
            Token::Undone(redo) => forget(rt, office, seat, notes, redo),
        };
    }
    unreachable!()
}

/// Spends a token or gives it up; `goes_on` if it is spent. Returns the token that is there then.
pub(crate) fn turn<L: Terms, R: Wait>(
    rt: &R,
    alloc: Global,
    office: &Office<L>,
    seat: &mut Seat<L>,
    notes: &mut Notes,
    token: Token<L>,
    goes_on: bool,
) -> Token<L> {
    if !goes_on {
        give_up(rt, office, seat, notes, token);
        return Token::Absent;
    }
    match token {
        Token::Absent => Token::Absent,
        Token::Made(token) => undo(rt, alloc, office, seat, notes, token),
        Token::Undone(token) => redo(rt, alloc, office, seat, notes, token),
    }
}
