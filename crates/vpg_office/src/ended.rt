//! The rest of an office that has ended: its ledger, which takes tokens that come late.
ghost use Rattle.std.specs.Prelude.{◌≡◌, ◌+◌, length};

use crate::closing::spend_one;
use crate::kind::Kind;
use crate::purse::Purse;
use crate::terms::Terms;
use crate::token::{Redo, Token, Undo};
use std::marker::Model;
use vpg_desk::Desk;

/// The rest of an office that has ended. Contracts see how many of its tokens are still out. Each that comes back is
/// one less, so if none is out nobody has one.
pub struct Ended<L: Terms> {
    pub(crate) desk: Desk,
    pub(crate) purse: Purse<L>,
}

// Not derived: a derived `drop` would be proved again at each exit that owns such a value.
impl<L: Terms> Drop for Ended<L> {
    fn drop(self) {
        let Ended { desk: _, purse: _ } = self;
    }
}

impl<L: Terms> Model for Ended<L> {
    ghost use Rattle.std.specs.Prelude.{ℕ};

    ghost Value = { ℕ };

    ghost view = { λ e. e.purse };

    ghost use Rattle.std.specs.Prelude.{◌≡◌};

    ghost invariant = { λ e. e.purse ≡ e.desk.book.tokens };
}

impl<L: Terms> Ended<L> {
    /// Returns the number of tokens that are out.
    pub fn further(&self) -> u64
        ensures { result ≡ self.now }
    {
        self.desk.tokens()
    }

    /// Spends the token of a change. It is one of those that are out.
    pub fn keep(&mut self, token: Undo<L>)
        ensures { self.new + 1 ≡ self.old }
    {
        self.spend(token);
    }

    /// Spends the token of a change that was undone. It is one of those that are out.
    pub fn forget(&mut self, token: Redo<L>)
        ensures { self.new + 1 ≡ self.old }
    {
        self.spend(token);
    }

    fn spend<T: Kind>(&mut self, token: Token<L, T>)
        ensures { self.new + 1 ≡ self.old }
    {
        spend_one(&mut self.desk, &mut self.purse, token);
    }

    /// Spends tokens, until none is left.
    pub(crate) fn spend_all<T: Kind>(&mut self, tokens: Vec<Token<L, T>>)
        ensures { self.new + length tokens.items ≡ self.old }
    {
        let mut tokens = tokens;
        while let Some(token) = tokens.pop() {
            self.spend(token);
        }
        tokens.destroy_empty();
    }
}

/// If no token of an office is out, nobody has an undo of it.
pub fn no_undo_is_out<L: Terms>(ended: Ended<L>, token: Undo<L>)
    requires { ended ≡ 0 }
    ensures { ⊥ }
{
    let mut ended = ended;
    ended.keep(token);
}

/// If no token of an office is out, nobody has a redo of it.
pub fn no_redo_is_out<L: Terms>(ended: Ended<L>, token: Redo<L>)
    requires { ended ≡ 0 }
    ensures { ⊥ }
{
    let mut ended = ended;
    ended.forget(token);
}
