//! Why a text is no feature model.
use thiserror::Error;

/// Why a row of a text is refused.
#[derive(Clone, Copy, Debug, PartialEq, Eq)]
pub enum Reason {
    /// A text that cannot stand there.
    Syntax,
    /// A row that is indented neither more than the row above it nor as one of the open rows, a root that is not
    /// indented, or a constraint that is not.
    Indentation,
    /// The word `imports`.
    Import,
    /// A language level other than `Boolean`, `Boolean.*` and `Boolean.group-cardinality`.
    Level,
    /// A feature with a type.
    Typed,
    /// A feature with a cardinality.
    FeatureCardinality,
    /// Attributes that do not end in a `}` at the row's end.
    Attributes,
    /// A constraint among attributes.
    AttributeConstraint,
    /// Double quotes around anything else than a feature's name.
    Quotes,
    /// A name that is no feature name here.
    Name,
    /// A cardinality whose low end is above its high end.
    Range,
    /// A feature that was named before.
    Twice,
    /// The 513th feature.
    TooMany,
    /// A row where the first member of a group has to stand.
    NoMember,
    /// A constraint that is a rule, with a name that no feature has.
    UnknownFeature,
    /// An attribute in a constraint.
    Attribute,
    /// A number or a sign of arithmetic in a constraint.
    Arithmetic,
    /// A comparison in a constraint.
    Comparison,
    /// A text in a constraint.
    Text,
    /// An aggregate or another function in a constraint.
    Aggregate,
    /// A comment that begins with `/*` and has no `*/`.
    Comment,
    /// The 65th sign that is open at one place of a constraint.
    TooDeep,
}

/// Why a text is no feature model, by the number of bytes that come before.
#[derive(Clone, Copy)]
pub(crate) enum TextFault {
    Refused { reason: Reason, at: usize },
    Ended,
    Memory,
}

/// Why a text is no feature model: a comment without an end, or else the first fault in the order of the text.
#[derive(Clone, Copy, Debug, PartialEq, Eq, Error)]
pub enum UvlFault {
    /// A row is refused. Lines and columns count from 1, columns in bytes.
    #[error("{reason:?} {line}:{column}")]
    Refused {
        reason: Reason,
        line: usize,
        column: usize,
    },
    /// The text ends before `features`, before a root, or before the first member of a group.
    #[error("Ended")]
    Ended,
    /// Memory ran out.
    #[error("Memory")]
    Memory,
}
