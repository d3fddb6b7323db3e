//! Why a client's calls are not answered, and the values that come back.
ghost use Rattle.std.specs.Prelude.{◌≡◌, ◌≤◌, None, length, IsSomeAnd};
ghost use Rattle.vpg_engine.specs.Faults.{Sorts, shown_by};

use crate::client::has_one_more;
use std::fmt::Display;
use thiserror::Error;
use vpg_office::{Fault, Front, Terms};

/// Why a call gives no answer. `Refused` is the desk's own refusal, which is logged.
#[derive(Debug, Drop, Error)]
#[error_bound(F: Display)]
pub enum ClientFault<F> {
    /// The log is full.
    #[error("LogFull")]
    LogFull,
    #[error("{fault}")]
    Refused { fault: F },
    /// The log grew by a call that no session of this client made; or the label's session, or that of a lesser label,
    /// has another number.
    #[error("Stray")]
    Stray,
    /// A growth was refused, or the office has no session for the label: it has 1,024 at most, from 1.
    #[error("Memory")]
    Memory,
}

/// The value that a call gives back if it fails: the call, unless it was made and strayed; then what it gave.
#[derive(Drop)]
pub enum Back<C, G> {
    Call(C),
    Given(G),
}

impl<C, G: Drop> Back<C, G> {
    /// Returns what the call took, unless it was made.
    pub fn taken<T: From<C>>(self) -> Option<T>
        ensures back { (call : C) → self ≡ Back.Call call → IsSomeAnd result (T.from_gives call) }
        ensures none { (given : G) → self ≡ Back.Given given → result ≡ None }
    {
        match self {
            Back::Call(call) => Some(T::from(call)),
            Back::Given(_given) => None,
        }
    }
}

/// Turns the office's fault into the client's, if its front had `calls` calls before the call. Sets the front to the
/// log, if the fault has it.
pub(crate) fn sorted<L: Terms, F: Drop>(
    fault: Fault<L, F>,
    calls: usize,
    front: &mut Front<L>,
) -> ClientFault<F>
    ensures shown { front.new ≡ shown_by fault front.old }
    ensures sorts { Sorts calls (length front.new) fault result }
    ensures fits { length front.new ≤ L.limit }
{
    let has_this_call = has_one_more(front, calls);
    match fault {
        Fault::LogFull { front: log } => {
            let is_known = log.len() == calls;
            *front = log;
            if is_known {
                ClientFault::LogFull
            } else {
                ClientFault::Stray
            }
        }
        Fault::Doubled { front: log } => {
            let _calls = log.len();
            *front = log;
            ClientFault::Stray
        }
        Fault::Refused { fault } => {
            if has_this_call {
                ClientFault::Refused { fault }
            } else {
                ClientFault::Stray
            }
        }
        Fault::Memory => ClientFault::Memory,
    }
}
