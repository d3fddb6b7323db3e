//! The signs between formulas that are joined from the left.
ghost use Rattle.std.specs.Prelude.{◌≡◌};
ghost use Rattle.vpg_formula.specs.PhraseCode.{sign_between, mark_between};

use crate::mark::Mark;

/// A sign between two formulas.
#[derive(Clone, Copy, Debug, PartialEq, Eq)]
pub(crate) enum Joint {
    /// `||`.
    Or,
    /// `&&`.
    And,
}

impl Joint {
    /// Returns the sign.
    pub(crate) fn sign(self) -> &'static [u8]
        ensures { result.now ≡ sign_between self }
    {
        match self {
            Joint::Or => b"||",
            Joint::And => b"&&",
        }
    }

    /// Returns the mark of two formulas that it joins.
    pub(crate) fn mark(self) -> Mark
        ensures { result ≡ mark_between self }
    {
        match self {
            Joint::Or => Mark::Or,
            Joint::And => Mark::And,
        }
    }
}
