//! Seats of sessions, and calls without their clauses, each with how it ended.
use crate::trial::End;
use std::alloc::Global;
use std::sync::Wait;
use vpg_faults::Returned;
use vpg_office::{Fault, Front, Office, Redo, Session, Terms, Undo};

/// A session with its front.
pub struct Seat<L: Terms> {
    pub session: Session<L>,
    pub front: Front<L>,
}

// Not derived: a derived `drop` would be proved again at each exit that owns such a value.
impl<L: Terms> Drop for Seat<L> {
    fn drop(self) {
        let Seat {
            session: _,
            front: _,
        } = self;
    }
}

/// The token of the change that was made or undone last, until it is spent.
pub enum HeldToken<L: Terms> {
    Nothing,
    Undo(Undo<L>),
    Redo(Redo<L>),
}

/// A call of a session, or of its office.
#[derive(Clone, Copy)]
pub enum OfficeCall {
    Decide(u16, bool),
    Retract(u16),
    Reset,
    Undo,
    Redo,
    Keep,
    Forget,
    Order,
    Commit,
    Settled,
    Verdict,
    Page,
    /// A further session.
    Join,
    /// A copy of the front, which a front of before all calls meets.
    Meet,
    Watch,
    /// The sheet of the watch.
    Read,
    /// The values of the harvest and its order, and those made of them.
    Carry,
    /// Opens the office.
    Open,
    /// Closes the office.
    Close,
    /// Ends the office, and hands this many tokens in.
    End(usize),
}

impl OfficeCall {
    /// Whether the call gives a token or spends one.
    pub fn is_of_tokens(self) -> bool {
        matches!(
            self,
            OfficeCall::Decide(..)
                | OfficeCall::Retract(_)
                | OfficeCall::Reset
                | OfficeCall::Undo
                | OfficeCall::Redo
                | OfficeCall::Keep
                | OfficeCall::Forget
        )
    }

    /// Whether the call is logged.
    pub fn is_logged(self) -> bool {
        self.is_of_tokens()
            || matches!(
                self,
                OfficeCall::Order
                    | OfficeCall::Commit
                    | OfficeCall::Settled
                    | OfficeCall::Verdict
                    | OfficeCall::Page
            )
    }

    /// Returns the number of tokens that are held as the office is ended or closed.
    pub fn tokens(self) -> usize {
        match self {
            OfficeCall::End(tokens) => tokens,
            _ => 0,
        }
    }
}

/// Returns the seat of a further session.
pub fn joined<L: Terms, R: Wait>(rt: &R, office: &Office<L>) -> Option<Seat<L>> {
    match office.join(rt) {
        Ok((session, front)) => Some(Seat { session, front }),
        Err(_) => None,
    }
}

/// Returns the end of a refused call. A function that drops a fault itself takes the prover seconds.
pub fn end_of<L: Terms, F: Drop>(fault: Fault<L, F>) -> End {
    match fault {
        Fault::Memory => End::Memory,
        _ => End::Otherwise,
    }
}

/// Returns the serial of the token that is held.
pub fn serial_of<L: Terms>(held: &HeldToken<L>) -> Option<u64> {
    match held {
        HeldToken::Nothing => None,
        HeldToken::Undo(token) => Some(token.serial()),
        HeldToken::Redo(token) => Some(token.serial()),
    }
}

/// Returns the call that spends the token that is held.
fn spending<L: Terms>(held: &HeldToken<L>) -> Option<OfficeCall> {
    match held {
        HeldToken::Nothing => None,
        HeldToken::Undo(_) => Some(OfficeCall::Keep),
        HeldToken::Redo(_) => Some(OfficeCall::Forget),
    }
}

/// Returns the token of a change, and the call's end.
fn changed<L: Terms, F: Drop>(answer: Result<Undo<L>, Fault<L, F>>) -> (HeldToken<L>, End) {
    match answer {
        Ok(token) => (HeldToken::Undo(token), End::Done),
        Err(fault) => (HeldToken::Nothing, end_of(fault)),
    }
}

/// Makes a call that gives a token or spends one. Returns the token that is held then, and the call's end. Undo and
/// keep need the token of a change, redo and forget that of an undone one, and a change needs that none is held.
pub fn made<L: Terms, R: Wait>(
    rt: &R,
    alloc: Global,
    office: &Office<L>,
    seat: &mut Seat<L>,
    held: HeldToken<L>,
    call: OfficeCall,
) -> (HeldToken<L>, End) {
    let Seat { session, front } = seat;
    match held {
        HeldToken::Nothing => match call {
            OfficeCall::Decide(feature, value) => {
                changed(session.decide(rt, alloc, office, front, feature, value))
            }
            OfficeCall::Retract(feature) => changed(session.retract(
                rt, alloc, office, front, feature,
            )),
            OfficeCall::Reset => changed(session.reset(rt, alloc, office, front)),
            _ => (HeldToken::Nothing, End::Otherwise),
        },
        HeldToken::Undo(token) => match call {
            OfficeCall::Undo => match session.undo(rt, alloc, office, front, token) {
                Ok(token) => (HeldToken::Redo(token), End::Done),
                Err(Returned { fault, value }) => (HeldToken::Undo(value), end_of(fault)),
            },
            OfficeCall::Keep => match session.keep(rt, office, front, token) {
                Ok(()) => (HeldToken::Nothing, End::Done),
                Err(Returned { fault, value }) => (HeldToken::Undo(value), end_of(fault)),
            },
            _ => (HeldToken::Undo(token), End::Otherwise),
        },
        HeldToken::Redo(token) => match call {
            OfficeCall::Redo => match session.redo(rt, alloc, office, front, token) {
                Ok(token) => (HeldToken::Undo(token), End::Done),
                Err(Returned { fault, value }) => (HeldToken::Redo(value), end_of(fault)),
            },
            OfficeCall::Forget => match session.forget(rt, office, front, token) {
                Ok(()) => (HeldToken::Nothing, End::Done),
                Err(Returned { fault, value }) => (HeldToken::Redo(value), end_of(fault)),
            },
            _ => (HeldToken::Redo(token), End::Otherwise),
        },
    }
}

/// Spends the token that is held, if one is. Returns the token that is held then. A call that is refused returns it.
pub fn spent<L: Terms, R: Wait>(
    rt: &R,
    alloc: Global,
    office: &Office<L>,
    seat: &mut Seat<L>,
    held: HeldToken<L>,
) -> HeldToken<L> {
    match spending(&held) {
        Some(call) => made(rt, alloc, office, seat, held, call).0,
        None => held,
    }
}
