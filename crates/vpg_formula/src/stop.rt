//! Where and why reading words stops.

/// Why words are no formula. `left` counts the words from the faulty one on.
#[derive(Clone, Copy, Debug, PartialEq, Eq)]
pub(crate) enum Stop {
    /// The word cannot stand there.
    Syntax { left: usize },
    /// The part that it begins would be the 65th open one.
    TooDeep { left: usize },
    /// Memory ran out.
    Memory,
}

/// Why words are no requirements. `left` counts the words from the faulty one on.
#[derive(Clone, Copy)]
pub(crate) enum Halt {
    /// The word cannot stand there.
    Syntax { left: usize },
    /// The word names a variable that is not bound, and no earlier entry.
    Unknown { left: usize },
    /// The part that it begins would be the 65th open one.
    TooDeep { left: usize },
    /// The word is the name of an earlier entry.
    Twice { left: usize },
    /// The word is the name of the 65th entry.
    TooMany { left: usize },
    /// The word names a variable under an odd number of negations.
    Negated { left: usize },
    /// Memory ran out.
    Memory,
}
