//! The two kinds of tokens that a desk gives.

use crate::asked::SessionCall;
use vpg_desk::{Desk, Redo, Undo};

/// A desk's token.
pub trait Kind {
    ghost use Rattle.std.specs.Prelude.{◌≡◌, ◌+◌, ◌<◌, ℕ, Bool};
    ghost use Rattle.vpg_desk.specs.Book.{Reply};
    ghost use Rattle.vpg_office.specs.Made.{SpendsToken};
    ghost use Rattle.vpg_office.specs.declared.asked.SessionCall.{SessionCall};

    /// The serial of its change.
    ghost serial_of: { Self → ℕ };

    /// Whether a reply gives such a token of the serial.
    ghost gives: { ℕ → Reply → Bool };

    /// The call that spends it, as the log keeps it.
    ghost asks: { ℕ → SessionCall };

    /// Returns the serial of its change.
    fn serial(&self) -> u64
        ensures { result ≡ serial_of self.now };

    /// Returns the call that spends it, as the log keeps it.
    fn asked(&self) -> SessionCall
        ensures { result ≡ asks (serial_of self.now) };

    /// Spends it.
    fn spend(self, desk: &mut Desk)
        requires { 0 < desk.old.book.tokens }
        ensures step { SpendsToken desk.old (asks (serial_of self)) desk.new }
        ensures counted { desk.new.book.tokens + 1 ≡ desk.old.book.tokens };
}

impl Kind for Undo {
    ghost use Rattle.vpg_desk.specs.History.{gives_undo};
    ghost use Rattle.vpg_office.specs.declared.asked.SessionCall.TheVariants as ask;

    ghost serial_of = { λ token. token };

    ghost gives = { gives_undo };

    ghost asks = { ask.Keep };

    fn serial(&self) -> u64 {
        self.serial()
    }

    fn asked(&self) -> SessionCall {
        SessionCall::Keep {
            serial: self.serial(),
        }
    }

    fn spend(self, desk: &mut Desk) {
        desk.keep(self);
    }
}

impl Kind for Redo {
    ghost use Rattle.vpg_desk.specs.History.{gives_redo};
    ghost use Rattle.vpg_office.specs.declared.asked.SessionCall.TheVariants as ask;

    ghost serial_of = { λ token. token };

    ghost gives = { gives_redo };

    ghost asks = { ask.Forget };

    fn serial(&self) -> u64 {
        self.serial()
    }

    fn asked(&self) -> SessionCall {
        SessionCall::Forget {
            serial: self.serial(),
        }
    }

    fn spend(self, desk: &mut Desk) {
        desk.forget(self);
    }
}
