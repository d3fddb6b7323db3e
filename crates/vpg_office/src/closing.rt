//! The end of an office's log.
ghost use Rattle.std.specs.Prelude.{◌≡◌, ◌+◌};
ghost use Rattle.vpg_desk.specs.Book.{opened};
ghost use Rattle.vpg_desk.specs.History.{book_after};
ghost use Rattle.vpg_office.specs.Fronts.{family_between};
ghost use Rattle.vpg_office.specs.Made.{SpendsToken};

use crate::chronicle::Row;
use crate::ended::Ended;
use crate::front::Front;
use crate::kind::Kind;
use crate::log::{Calls, Log};
use crate::purse::Purse;
use crate::terms::Terms;
use crate::token::Token;
use std::sync::Wait;
use vpg_desk::Desk;
use vpg_watch::Press;

/// Spends a token.
pub(crate) fn spend_one<L: Terms, T: Kind>(desk: &mut Desk, purse: &mut Purse<L>, held: Token<L, T>)
    requires { purse.old ≡ desk.old.book.tokens }
    ensures step { SpendsToken desk.old (T.asks held.serial) desk.new }
    ensures counted { purse.new ≡ desk.new.book.tokens }
    ensures spent { desk.new.book.tokens + 1 ≡ desk.old.book.tokens }
{
    let Token {
        token,
        place: _,
        mut share,
    } = held;
    purse.audit(&mut share);
    token.spend(desk);
    purse.take_back(share);
}

impl<L: Terms> Log<L> {
    /// Returns the number of tokens that are out.
    pub(crate) fn tokens(&self) -> u64
        ensures { result ≡ (book_after (family_between L.game L.diagram) opened self.now).tokens }
    {
        self.desk.desk().tokens()
    }

    /// Ends the log.
    pub(crate) fn dissolve<R: Wait>(self, rt: &R, row: Row) -> Ended<L>
        ensures { result ≡ (book_after (family_between L.game L.diagram) opened self).tokens }
    {
        let Log {
            calls,
            desk,
            purse,
            press,
        } = self;
        let_go(rt, row, calls, press);
        Ended {
            desk: desk.into_desk(),
            purse,
        }
    }
}

/// Closes the press, and drops the rest, here alone.
fn let_go<L: Terms, R: Wait>(rt: &R, _row: Row, _calls: Calls<L>, press: Press<Front<L>>) {
    press.close(rt);
}
