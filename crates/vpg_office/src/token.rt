//! Tokens of changes that sessions can undo or redo.
ghost use Rattle.std.specs.Prelude.{◌≡◌};

use crate::asked::SessionCall;
use crate::calls::{AtFront, Issued};
use crate::front::Front;
use crate::kind::Kind;
use crate::terms::Terms;
use std::marker::Model;
use std::sync::ledger::Share;

/// The right to undo a change. `Session::undo` or `Session::keep` spends it, or `Office::end`.
pub type Undo<L> = Token<L, vpg_desk::Undo>;

/// The right to redo a change that was undone. `Session::redo` or `Session::forget` spends it, or `Office::end`.
pub type Redo<L> = Token<L, vpg_desk::Redo>;

/// The right to go to another page. It can be neither copied nor dropped. Contracts see the change's serial, and the
/// history up to the call that gave the token.
pub struct Token<L: Terms, T: Kind> {
    pub(crate) token: T,
    pub(crate) place: Front<L>,
    pub(crate) share: Share<L>,
}

impl<L: Terms, T: Kind> Model for Token<L, T> {
    ghost use Rattle.std.specs.Coded.{codes};
    ghost use Rattle.vpg_office.specs.Token.{TokenView};

    ghost Value = { TokenView };

    ghost coded = { Prim.hlevel codes };

    ghost use Rattle.std.specs.Prelude.{◌≡◌, IsTrue};
    ghost use Rattle.vpg_office.specs.Token.{EndsWith};

    ghost view = { λ t. record { serial = T.serial_of t.token; history = t.place } };

    ghost invariant = { λ t. (t.share.amount ≡ 1) × (t.share.parts ≡ 1) ×
        EndsWith (λ reply. IsTrue (T.gives (T.serial_of t.token) reply)) t.place };
}

impl<L: Terms, T: Kind> Token<L, T> {
    ghost use Rattle.std.specs.Prelude.{IsTrue};
    ghost use Rattle.vpg_office.specs.Token.{EndsWith};

    /// Returns the serial of the change.
    pub fn serial(&self) -> u64
        ensures serial { result ≡ self.now.serial }
        // The history of the token ends with the call that gave it.
        ensures own { EndsWith (λ reply. IsTrue (T.gives self.now.serial reply)) self.now.history }
    {
        self.token.serial()
    }

    /// Returns the call that spends it, as the log keeps it.
    pub(crate) fn spending(&self) -> SessionCall
        ensures { result ≡ T.asks self.now.serial }
    {
        self.token.asked()
    }
}

impl<L: Terms, T: Kind> AtFront<L, Token<L, T>> for Issued<L, T> {
    ghost use Rattle.std.specs.Prelude.{◌≡◌, IsTrue};

    ghost Fits = { λ issued reply. (issued.share.amount ≡ 1) × (issued.share.parts ≡ 1) ×
        IsTrue (T.gives (T.serial_of issued.token) reply) };

    ghost placed = { λ issued front. record { serial = T.serial_of issued.token; history = front } };

    fn at(self, front: &Front<L>) -> Token<L, T> {
        let Issued { token, share } = self;
        Token {
            token,
            place: front.copy(),
            share,
        }
    }
}
