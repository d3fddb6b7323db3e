//! Groups of features.

/// How many members of a group a configuration has, if it has the group's parent.
#[derive(Clone, Copy, Debug, PartialEq, Eq)]
pub enum Kind {
    /// All.
    Mandatory,
    /// Any number.
    Optional,
    /// One.
    Alternative,
    /// One or more.
    Or,
    /// At least `low`, and at most `high` if there is a `high`.
    Cardinality { low: u32, high: Option<u32> },
}

/// A group of features below one parent.
#[derive(Clone, Copy, Debug, PartialEq, Eq)]
pub struct Group {
    /// The parent's index.
    pub parent: u16,
    pub kind: Kind,
}
