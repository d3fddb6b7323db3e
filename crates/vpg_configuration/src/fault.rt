//! Why a text is no configuration.
use thiserror::Error;

/// Why a text is no configuration. The first nine are those of a text that is no document of XML.
#[derive(Clone, Copy, Debug, PartialEq, Eq)]
pub enum Reason {
    /// The text begins with `<?xml`, and no declaration follows.
    Declaration,
    /// A character that may not stand in a text.
    Character,
    /// A `&` that begins no known reference.
    Reference,
    /// A `<` that begins no tag and no comment, or a tag that is not written as one.
    Markup,
    /// An end tag that does not end the innermost open element.
    Closing,
    /// An element after the outermost one.
    SecondRoot,
    /// The element that would be the 65th open one.
    TooDeep,
    /// A character outside all elements that is no blank.
    Outside,
    /// The text ends, and an element is open, or there is none.
    Unfinished,
    /// An outermost element that is no `configuration`, or one in it that is no `feature`, at its start tag.
    UnknownElement,
    /// A value of `manual` or `automatic` that is none of `selected`, `unselected` and `undefined`, at the attribute's
    /// name.
    UnknownValue,
    /// A feature without a name, at its start tag.
    NoName,
    /// A feature whose name is no feature name, at its start tag.
    BadName,
}

/// Why a text is no configuration. `at` counts bytes from 0.
#[derive(Clone, Copy)]
pub(crate) enum TextFault {
    Refused { reason: Reason, at: usize },
    Memory,
}

/// Why a text is no configuration: the first fault of XML, or else of its elements in their order.
#[derive(Clone, Copy, Debug, PartialEq, Eq, Error)]
pub enum ConfigurationFault {
    /// Lines and columns count from 1, columns in characters.
    #[error("{reason:?} {line}:{column}")]
    Refused {
        reason: Reason,
        line: usize,
        column: usize,
    },
    /// Memory ran out.
    #[error("Memory")]
    Memory,
}
