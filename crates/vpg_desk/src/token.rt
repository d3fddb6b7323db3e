//! Tokens of changes.
ghost use Rattle.std.specs.Prelude.{◌≡◌};

use std::marker::{Model, PhantomData};

/// To the page before a change.
pub enum Undoing {}

/// To the page after a change.
pub enum Redoing {}

/// The right to undo a change. It can be neither copied nor dropped: `Desk::undo` or `Desk::keep` spends it.
pub type Undo = Token<Undoing>;

/// The right to redo a change that was undone. It can be neither copied nor dropped: `Desk::redo` or `Desk::forget`
/// spends it.
pub type Redo = Token<Redoing>;

/// The right to go to another page: an [`Undo`] or a [`Redo`].
pub struct Token<W> {
    serial: u64,
    way: PhantomData<W>,
}

impl<W> Model for Token<W> {
    ghost use Rattle.std.specs.Prelude.{ℕ};

    ghost Value = { ℕ };

    ghost view = { λ token. token.serial };
}

impl<W> Token<W> {
    pub(crate) fn of(serial: u64) -> Token<W>
        ensures { result ≡ serial }
    {
        Token {
            serial,
            way: PhantomData,
        }
    }

    /// Returns the serial of the change.
    pub fn serial(&self) -> u64
        ensures { result ≡ self.now }
    {
        self.serial
    }

    /// Ends the token, and returns its serial.
    pub(crate) fn spend(self) -> u64
        ensures { result ≡ self }
    {
        let Token { serial, way: _ } = self;
        serial
    }
}
