//! Why a text is no rule, and why a rule has no clauses.
use thiserror::Error;

/// Why a text is no rule. `at` counts bytes from 0; the leftmost fault decides.
#[derive(Clone, Copy, Debug, PartialEq, Eq, Error)]
pub enum RuleFault {
    /// The first byte of what cannot stand there, or the length of the text if it ends too early.
    #[error("Syntax {at}")]
    Syntax { at: usize },
    /// The first byte of the `(`, `!`, `=>` or `<=>` that would be the 65th open one.
    #[error("TooDeep {at}")]
    TooDeep { at: usize },
    /// Memory ran out.
    #[error("Memory")]
    Memory,
}

/// Why a rule is not turned into clauses.
#[derive(Clone, Copy, Debug, PartialEq, Eq, Error)]
pub enum ClausesFault {
    /// It has more than 64.
    #[error("TooMany")]
    TooMany,
    /// Memory ran out.
    #[error("Memory")]
    Memory,
}
