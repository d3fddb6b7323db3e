//! Why a text is no document.
use std::alloc::AllocError;
use thiserror::Error;

/// Why a text is no document. `at` counts bytes from 0. The first token that cannot come there decides.
#[derive(Clone, Copy, Debug, PartialEq, Eq, Error)]
pub enum XmlFault {
    /// The text begins with `<?xml`, and no declaration follows.
    #[error("Declaration {at}")]
    Declaration { at: usize },
    /// A character that may not stand in a text.
    #[error("Character {at}")]
    Character { at: usize },
    /// A `&` that begins no known reference.
    #[error("Reference {at}")]
    Reference { at: usize },
    /// A `<` that begins no tag and no comment, or a tag that is not written as one.
    #[error("Markup {at}")]
    Markup { at: usize },
    /// An end tag that does not end the innermost open element.
    #[error("Closing {at}")]
    Closing { at: usize },
    /// An element after the outermost one.
    #[error("SecondRoot {at}")]
    SecondRoot { at: usize },
    /// The element that would be the 65th open one.
    #[error("TooDeep {at}")]
    TooDeep { at: usize },
    /// A character outside all elements that is no blank.
    #[error("Outside {at}")]
    Outside { at: usize },
    /// The text ends, and an element is open, or there is none.
    #[error("Unfinished {at}")]
    Unfinished { at: usize },
    /// Memory ran out.
    #[error("Memory")]
    Memory,
}

impl From<AllocError> for XmlFault {
    ghost use Rattle.std.specs.Prelude.{◌≡◌};
    ghost use Rattle.vpg_xml.specs.declared.fault.XmlFault.TheVariants.{Memory};

    ghost from_gives = { λ _ e. e ≡ Memory };

    fn from(_e: AllocError) -> XmlFault {
        XmlFault::Memory
    }
}
