//! The tokens that are out, and closing a desk.
ghost use Rattle.std.specs.Prelude.{◌≡◌, ◌<◌, IfErr, OnOk};

use crate::desk::Desk;
use crate::fault::TokensOut;

impl Desk {
    /// Returns the number of tokens that are out.
    pub fn tokens(&self) -> u64
        ensures { result ≡ self.now.book.tokens }
    {
        self.tokens
    }

    /// Ends the desk. It comes back if tokens are out.
    pub fn close(self) -> Result<(), TokensOut>
        ensures closed { OnOk result (self.book.tokens ≡ 0) }
        ensures out { IfErr result (λ out. (out.tokens ≡ self.book.tokens) × (0 < out.tokens)) }
        ensures back { IfErr result (λ out. out.desk ≡ self) }
    {
        match self.tokens() {
            0 => Ok(()),
            tokens => Err(TokensOut { tokens, desk: self }),
        }
    }
}
