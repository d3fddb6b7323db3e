//! Literals.

/// A feature that is in, or one that is out.
#[derive(Clone, Copy, Debug, PartialEq, Eq)]
pub struct Literal {
    /// The feature's index.
    pub feature: u16,
    /// `true` for the feature in, `false` for the feature out.
    pub value: bool,
}
