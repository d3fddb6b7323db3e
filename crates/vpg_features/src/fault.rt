//! Why a name is not added.
use thiserror::Error;

/// Why a name is not added: the first reason that holds, in this order.
#[derive(Clone, Copy, Debug, PartialEq, Eq, Error)]
pub enum NameFault {
    /// It is no feature name: a letter or `_`, then letters, digits and `_`, at most 64 bytes, neither `true` nor
    /// `false`.
    #[error("BadName")]
    BadName,
    /// The name is there already, at this index.
    #[error("Twice {index}")]
    Twice { index: u16 },
    /// There are 512 names already.
    #[error("TooMany")]
    TooMany,
    /// Memory ran out.
    #[error("Memory")]
    Memory,
}
