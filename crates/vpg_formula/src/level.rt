//! The infix signs of regular formulas.
ghost use Rattle.std.specs.Prelude.{◌≡◌};
ghost use Rattle.vpg_formula.specs.Levels.{sign_of, mark_of, is_of_actions, refuses};

use crate::mark::Mark;

/// A sign that stands between two regular formulas. The first binds loosest.
#[derive(Clone, Copy, Debug, PartialEq, Eq)]
pub(crate) enum Level {
    /// `+`.
    Choice,
    /// `.`.
    Sequence,
    /// `||`.
    AnyOf,
    /// `&&`.
    AllOf,
}

impl Level {
    /// Returns the sign.
    pub(crate) fn sign(self) -> &'static [u8]
        ensures { result.now ≡ sign_of self }
    {
        match self {
            Level::Choice => b"+",
            Level::Sequence => b".",
            Level::AnyOf => b"||",
            Level::AllOf => b"&&",
        }
    }

    /// Returns the mark of two formulas that it joins.
    pub(crate) fn mark(self) -> Mark
        ensures { result ≡ mark_of self }
    {
        match self {
            Level::Choice => Mark::Choice,
            Level::Sequence => Mark::Sequence,
            Level::AnyOf => Mark::EitherOf,
            Level::AllOf => Mark::BothOf,
        }
    }

    /// Whether it joins action formulas only, and makes one of them.
    pub(crate) fn is_of_actions(self) -> bool
        ensures { result ≡ is_of_actions self }
    {
        match self {
            Level::Choice | Level::Sequence => false,
            Level::AnyOf | Level::AllOf => true,
        }
    }

    /// Whether it cannot join such a formula.
    pub(crate) fn refuses(self, is_action: bool) -> bool
        ensures { result ≡ refuses self is_action }
    {
        self.is_of_actions() && !is_action
    }
}
