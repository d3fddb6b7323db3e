//! Why a text is no feature model.
use std::alloc::AllocError;
use thiserror::Error;
use vpg_xml::XmlFault;

/// Why a text is no feature model. `at` counts bytes from 0. Faults of XML come first, and then those of the features
/// in the order of the elements, and those of constraints in their order.
#[derive(Clone, Copy, Debug, PartialEq, Eq, Error)]
pub enum ModelFault {
    /// It is no document of XML.
    #[error("Xml {0}")]
    Xml(XmlFault),
    /// An element that may not be there, at its start tag.
    #[error("UnknownElement {at}")]
    UnknownElement { at: usize },
    /// A value of `mandatory`, `abstract` or `hidden` that is neither `true` nor `false`, at the attribute's name.
    #[error("UnknownValue {at}")]
    UnknownValue { at: usize },
    /// A feature without a name.
    #[error("NoName {at}")]
    NoName { at: usize },
    /// A feature whose name is no feature name.
    #[error("BadName {at}")]
    BadName { at: usize },
    /// A feature whose name another one before has.
    #[error("Twice {at}")]
    Twice { at: usize },
    /// The 513th feature.
    #[error("TooMany {at}")]
    TooMany { at: usize },
    /// A second outermost feature.
    #[error("SecondRoot {at}")]
    SecondRoot { at: usize },
    /// There is no feature.
    #[error("NoRoot")]
    NoRoot,
    /// A variable that is no feature.
    #[error("UnknownName {at}")]
    UnknownName { at: usize },
    /// A constraint or an operator with too few or too many operands.
    #[error("Operands {at}")]
    Operands { at: usize },
    /// A constraint whose text in a diagram has more than 64 open signs at one place, at its `rule`.
    #[error("TooDeep {at}")]
    TooDeep { at: usize },
    /// Memory ran out.
    #[error("Memory")]
    Memory,
}

impl From<AllocError> for ModelFault {
    ghost use Rattle.std.specs.Prelude.{◌≡◌};
    ghost use Rattle.vpg_featureide.specs.declared.fault.ModelFault.TheVariants.{Memory};

    ghost from_gives = { λ _ e. e ≡ Memory };

    fn from(_e: AllocError) -> ModelFault {
        ModelFault::Memory
    }
}
