//! Warnings, and their places.
ghost use Rattle.std.specs.Prelude.{◌≡◌, All};
ghost use Rattle.vpg_family.specs.Warned.{StandsWithin};

use std::alloc::{AllocError, Global};

/// The subject of a warning.
#[derive(Clone, Copy, PartialEq, Eq)]
pub enum Sort {
    /// The diagram has no product.
    NoProduct,
    /// No product of the diagram was found.
    NoneFound,
    /// A feature that is in no product.
    Dead,
    /// A feature that no guard names.
    Unnamed,
    /// Attributes of a feature, which are read over.
    Attributes,
    /// A vertex without moves.
    Stuck,
    /// A start that is no vertex.
    NoStart,
    /// A vertex that can't be reached from the start.
    Unreached,
    /// A state that can't be reached from the first one.
    NoPath,
    /// A guard that no product meets.
    Unmet,
    /// An action of a system that no requirement names.
    Unasked,
    /// An action of a requirement that no transition has.
    NoAction,
}

/// A warning.
#[derive(Clone, Copy)]
pub struct Warning {
    pub sort: Sort,
    /// The offset of its place in the text.
    pub at: usize,
    /// The feature, the vertex, the state or the action of the warning, or the length of a word; 0 if it has none.
    pub index: u32,
}

/// The warnings of a text, each within it.
#[derive(Drop)]
pub struct Warnings {
    /// The length of the text.
    pub length: usize,
    pub list: Vec<Warning>,
    ghost within: { All (StandsWithin length) list.items },
}

impl Warnings {
    /// Returns no warnings yet, of a text of this length.
    pub fn new(alloc: Global, length: usize) -> Warnings
        ensures { result.length ≡ length }
    {
        Warnings {
            length,
            list: Vec::new(alloc),
        }
    }

    /// Adds one, which stands at an offset, or at the end of the text if the offset is greater.
    pub(crate) fn warn(&mut self, sort: Sort, at: usize, index: u32) -> Result<(), AllocError>
        ensures { self.new.length ≡ self.old.length }
    {
        let at = at.min(self.length);
        self.list.push(Warning { sort, at, index })?;
        Ok(())
    }
}
