//! Why a text is no diagram.

use std::alloc::AllocError;
use std::fmt;
use thiserror::Error;

/// Why a text is no diagram, and at which line, counted from 1. The first faulty line decides, and of its faults the
/// first in this order.
#[derive(Clone, Copy, Debug, PartialEq, Eq, Error)]
pub enum DiagramFault {
    /// A line of no known form, or with a word that is no feature name.
    Syntax { line: usize },
    /// All lines are blank.
    NoRoot,
    /// A second root line.
    TwoRoots { line: usize },
    /// A parent, or a feature of a rule, that stands on no earlier line.
    UnknownFeature { line: usize },
    /// A child that was named before as root or child, or twice in one group.
    TwoParents { line: usize },
    /// A formula of more than 64 clauses.
    TooManyClauses { line: usize },
    /// The 513th feature, or the 16,385th rule; each clause of a formula counts as a rule.
    TooMany { line: usize },
    /// A range whose low end is above its high end, or whose high end is above the number of members.
    BadRange { line: usize },
    /// Memory ran out.
    Memory,
}

impl DiagramFault {
    /// Returns the word that names it.
    fn word(&self) -> &'static str {
        match self {
            DiagramFault::Syntax { .. } => "Syntax",
            DiagramFault::NoRoot => "NoRoot",
            DiagramFault::TwoRoots { .. } => "TwoRoots",
            DiagramFault::UnknownFeature { .. } => "UnknownFeature",
            DiagramFault::TwoParents { .. } => "TwoParents",
            DiagramFault::TooManyClauses { .. } => "TooManyClauses",
            DiagramFault::TooMany { .. } => "TooMany",
            DiagramFault::BadRange { .. } => "BadRange",
            DiagramFault::Memory => "Memory",
        }
    }

    /// Returns the line that it is reported for, if there is one.
    fn line(&self) -> Option<usize> {
        match *self {
            DiagramFault::Syntax { line }
            | DiagramFault::TwoRoots { line }
            | DiagramFault::UnknownFeature { line }
            | DiagramFault::TwoParents { line }
            | DiagramFault::TooManyClauses { line }
            | DiagramFault::TooMany { line }
            | DiagramFault::BadRange { line } => Some(line),
            DiagramFault::NoRoot | DiagramFault::Memory => None,
        }
    }
}

/// The word, and after it the line.
impl fmt::Display for DiagramFault {
    fn fmt<W: fmt::Write>(&self, f: &mut fmt::Formatter<W>) -> fmt::Result {
        match self.line() {
            Some(line) => write!(f, "{} {line}", self.word()),
            None => f.write_str(self.word()),
        }
    }
}

/// Why a line is refused.
#[derive(Clone, Copy)]
pub(crate) enum LineFault {
    Syntax,
    TwoRoots,
    UnknownFeature,
    TwoParents,
    TooManyClauses,
    TooMany,
    BadRange,
}

impl LineFault {
    ghost use Rattle.std.specs.Prelude.{◌≡◌};
    ghost use Rattle.vpg_diagram.specs.TextFaults.{fault_at};

    /// Returns the diagram's fault for this fault at a line.
    pub(crate) fn at(self, line: usize) -> DiagramFault
        ensures { result ≡ fault_at line self }
    {
        match self {
            LineFault::Syntax => DiagramFault::Syntax { line },
            LineFault::TwoRoots => DiagramFault::TwoRoots { line },
            LineFault::UnknownFeature => DiagramFault::UnknownFeature { line },
            LineFault::TwoParents => DiagramFault::TwoParents { line },
            LineFault::TooManyClauses => DiagramFault::TooManyClauses { line },
            LineFault::TooMany => DiagramFault::TooMany { line },
            LineFault::BadRange => DiagramFault::BadRange { line },
        }
    }
}

/// Why a line is not read: it is refused, or memory ran out.
#[derive(Clone, Copy)]
pub(crate) enum LineError {
    Refused(LineFault),
    Memory,
}

impl From<AllocError> for LineError {
    ghost use Rattle.std.specs.Prelude.{◌≡◌};
    ghost use Rattle.vpg_diagram.specs.declared.fault.LineError.TheVariants.{Memory};

    ghost from_gives = { λ _ e. e ≡ Memory };

    fn from(_e: AllocError) -> LineError {
        LineError::Memory
    }
}

impl From<LineFault> for LineError {
    ghost use Rattle.std.specs.Prelude.{◌≡◌};
    ghost use Rattle.vpg_diagram.specs.declared.fault.LineError.TheVariants.{Refused};

    ghost from_gives = { λ kind e. e ≡ Refused kind };

    fn from(kind: LineFault) -> LineError {
        LineError::Refused(kind)
    }
}

impl From<AllocError> for DiagramFault {
    ghost use Rattle.std.specs.Prelude.{◌≡◌};
    ghost use Rattle.vpg_diagram.specs.declared.fault.DiagramFault.TheVariants.{Memory};

    ghost from_gives = { λ _ e. e ≡ Memory };

    fn from(_e: AllocError) -> DiagramFault {
        DiagramFault::Memory
    }
}
