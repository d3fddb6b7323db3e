//! The tokens that are out and the sessions that joined, as a ledger counts them.
ghost use Rattle.std.specs.Prelude.{◌≡◌, ◌+◌, ◌≤◌, IfSome};

use crate::terms::Terms;
use std::marker::Model;
use std::sync::ledger::{Book, Share};

/// The most sessions of an office.
const MOST_SESSIONS: u32 = 1024;

/// The count of tokens that are out: each has a share of one part and amount 1. A session has a share of as many parts
/// as its number says, and no amount. The other parts are here. Contracts see how many tokens are out.
#[derive(Drop)]
pub struct Purse<L: Terms> {
    book: Book<L>,
    rest: Share<L>,
    // how many sessions joined
    sessions: u32,
}

impl<L: Terms> Model for Purse<L> {
    ghost use Rattle.std.specs.Prelude.{ℕ};

    ghost Value = { ℕ };

    ghost view = { λ p. p.book.total };

    ghost use Rattle.std.specs.Prelude.{◌≡◌, ◌+◌, ◌≤◌};
    ghost use Rattle.vpg_office.specs.Token.{up_to};

    ghost invariant = { λ p. (p.rest.amount ≡ 0) × (p.rest.parts + p.book.total + up_to p.sessions ≡ 2097153) ×
        (p.sessions ≤ 1024) };
}

impl<L: Terms> Purse<L> {
    /// Returns a purse with no token out and no session joined.
    pub(crate) fn of(book: Book<L>, rest: Share<L>) -> Purse<L>
        requires { (book.total ≡ 0) × (rest.amount ≡ 0) × (rest.parts ≡ 2097153) }
        ensures { result ≡ 0 }
    {
        Purse {
            book,
            rest,
            sessions: 0,
        }
    }

    /// Returns the number of a further session, and its share. None if there are 1,024.
    pub(crate) fn seat(&mut self) -> Option<(u32, Share<L>)>
        requires { self.old ≤ 1048576 }
        ensures same { self.new ≡ self.old }
        ensures number { IfSome result (λ r. (1 ≤ r.0) × (r.0 ≤ 1024)) }
        ensures share { IfSome result (λ r. (r.1.parts ≡ r.0) × (r.1.amount ≡ 0)) }
    {
        if self.sessions == MOST_SESSIONS {
            return None;
        }
        self.sessions += 1;
        let share = self.rest.split_off(self.sessions as u64, 0);
        Some((self.sessions, share))
    }

    /// Returns the share of one more token.
    pub(crate) fn issue(&mut self) -> Share<L>
        requires { self.old ≤ 1048576 }
        ensures more { self.new ≡ self.old + 1 }
        ensures amount { result.amount ≡ 1 }
        ensures parts { result.parts ≡ 1 }
    {
        let mut share = self.rest.split_off(1, 0);
        self.book.add(&mut share, 1);
        share
    }

    /// Checks a token's share, which shows that it is out.
    pub(crate) fn audit(&mut self, share: &mut Share<L>)
        ensures same { self.new ≡ self.old }
        ensures amount { share.new.amount ≡ share.old.amount }
        ensures parts { share.new.parts ≡ share.old.parts }
        ensures bound { share.old.amount ≤ self.old }
    {
        self.book.audit(share);
    }

    /// Takes back the share of a spent token.
    pub(crate) fn take_back(&mut self, share: Share<L>)
        requires { (share.amount ≡ 1) × (share.parts ≡ 1) }
        ensures { self.new + 1 ≡ self.old }
    {
        let mut share = share;
        self.book.sub(&mut share, 1);
        self.rest.merge(share);
    }
}
