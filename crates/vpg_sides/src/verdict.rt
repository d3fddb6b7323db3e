//! The verdict of the two tables on a vertex.

/// Hopeless if the hopeful table has the top: Even has no winning strategy in any product that remains. Sure if the
/// dual table has it: Odd has none.
#[derive(Clone, Copy, Debug, PartialEq, Eq)]
pub struct Verdict {
    pub hopeless: bool,
    pub sure: bool,
}
