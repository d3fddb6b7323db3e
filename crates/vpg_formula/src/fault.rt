//! Why a text is no requirement.
use thiserror::Error;

/// The greatest number of parts that are open at one place.
pub const DEEPEST: usize = 64;

/// The greatest number of entries in a text.
pub const MOST_ENTRIES: usize = 64;

/// Why a text is no formula. `at` counts bytes from 0.
#[derive(Clone, Copy, Debug, PartialEq, Eq, Error)]
pub enum FormulaFault {
    /// The first byte of a word that cannot stand there, or the length of the text where it ends too early.
    #[error("Syntax {at}")]
    Syntax { at: usize },
    /// The first byte of the part that would be the 65th open one.
    #[error("TooDeep {at}")]
    TooDeep { at: usize },
    /// Memory ran out.
    #[error("Memory")]
    Memory,
}

/// Why a text is no text of requirements. `at` counts bytes from 0.
#[derive(Clone, Copy, Debug, PartialEq, Eq, Error)]
pub enum RequirementFault {
    /// The first byte of a word that cannot stand there, or the length of the text where it ends too early.
    #[error("Syntax {at}")]
    Syntax { at: usize },
    /// The first byte of a variable that is not bound there, and names no earlier entry.
    #[error("UnknownVariable {at}")]
    UnknownVariable { at: usize },
    /// The first byte of the part that would be the 65th open one.
    #[error("TooDeep {at}")]
    TooDeep { at: usize },
    /// The first byte of an entry's name that an earlier entry has.
    #[error("Twice {at}")]
    Twice { at: usize },
    /// The first byte of the 65th entry's name.
    #[error("TooMany {at}")]
    TooMany { at: usize },
    /// The first byte of a variable under an odd number of negations within its fixpoint.
    #[error("NegatedVariable {at}")]
    NegatedVariable { at: usize },
    /// Memory ran out.
    #[error("Memory")]
    Memory,
}
