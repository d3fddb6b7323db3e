//! The counter of an office, where sessions hand things on to one another, and their turns.
use crate::noting::Notes;
use crate::tokens::{Seat, Token};
use std::mem;
use std::sync::atomic::{AtomicU64, Ordering};
use std::sync::{Mutex, MutexGuard, Wait};
use std::thread::yield_now;
use vpg_measure::Harvest;
use vpg_office::{Front, Office, Terms};

/// The things that sessions hand on. Each puts its own there, and takes what it finds.
pub(crate) struct Counter<L: Terms> {
    token: Mutex<Token<L>>,
    harvest: Mutex<Option<Harvest>>,
    front: Mutex<Option<Front<L>>>,
    /// The number of turns that were taken.
    turns: AtomicU64,
}

impl<L: Terms> Counter<L> {
    pub(crate) fn new() -> Counter<L> {
        Counter {
            token: Mutex::new(Token::Absent),
            harvest: Mutex::new(None),
            front: Mutex::new(None),
            turns: AtomicU64::new(0),
        }
    }

    /// Exchanges a token for the one that lies there.
    pub(crate) fn exchange_token<R: Wait>(&self, rt: &R, token: &mut Token<L>) {
        let mut there = self.token.lock(rt);
        mem::swap(&mut *there, token);
        MutexGuard::unlock(there);
    }

    /// Exchanges a harvest for the one that lies there.
    pub(crate) fn exchange_harvest<R: Wait>(&self, rt: &R, harvest: &mut Option<Harvest>) {
        let mut there = self.harvest.lock(rt);
        mem::swap(&mut *there, harvest);
        MutexGuard::unlock(there);
    }

    /// Exchanges a front for the one that lies there.
    fn exchange_front<R: Wait>(&self, rt: &R, front: &mut Option<Front<L>>) {
        let mut there = self.front.lock(rt);
        mem::swap(&mut *there, front);
        MutexGuard::unlock(there);
    }

    /// Puts a copy of the seat's front there. The front meets the one that was there, noted with both lengths.
    pub(crate) fn meet<R: Wait>(
        &self,
        rt: &R,
        office: &Office<L>,
        seat: &mut Seat<L>,
        notes: &mut Notes,
    ) {
        let mut front = Some(seat.front.copy());
        self.exchange_front(rt, &mut front);
        if let Some(other) = front {
            notes.begin(seat.session.number(), "meets");
            notes.put(seat.front.len());
            notes.put(other.len());
            office.meet(rt, &mut seat.front, &other);
            notes.end(seat.front.len());
        }
    }

    /// Waits until this many turns were taken, but not for ever. Returns whether they were.
    pub(crate) fn waits(&self, turns: u64) -> bool {
        for _ in 0..MOST_LOOKS {
            if self.turns.load(Ordering::SeqCst) == turns {
                return true;
            }
            yield_now();
        }
        false
    }

    /// Ends a turn.
    pub(crate) fn ends(&self) {
        self.turns.fetch_add(1, Ordering::SeqCst);
    }

    /// Returns the token that lies there at last.
    pub(crate) fn into_token(self) -> Token<L> {
        let Counter {
            token,
            harvest: _,
            front: _,
            turns: _,
        } = self;
        token.into_inner()
    }
}

/// The number of times that a session looks whether it is its turn.
const MOST_LOOKS: u32 = 100_000_000;
