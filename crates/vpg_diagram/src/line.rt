//! The lines that a diagram keeps.

ghost use Rattle.std.specs.Prelude.{◌≡◌, IfOk};

use std::alloc::{AllocError, Global};
use vpg_rules::Rule;

/// The members of a group, which follow one another: the features from `first` up to `end`, without `end`.
#[derive(Clone, Copy, PartialEq)]
pub(crate) struct Members {
    pub(crate) first: u16,
    pub(crate) end: u16,
}

impl Members {
    ghost use Rattle.vpg_diagram.specs.LineView.{members_of};

    /// Returns the members in order.
    pub(crate) fn list(self, alloc: Global) -> Result<Vec<u16>, AllocError>
        ensures { IfOk result (λ list. list.items ≡ members_of self) }
    {
        (self.first..self.end).collect(alloc)
    }
}

/// A line below the root line, other than a formula.
#[derive(Clone, Copy, PartialEq)]
pub(crate) enum Line {
    Mandatory {
        parent: u16,
        child: u16,
    },
    Optional {
        parent: u16,
        child: u16,
    },
    Alternative {
        parent: u16,
        members: Members,
    },
    Or {
        parent: u16,
        members: Members,
    },
    Group {
        parent: u16,
        low: u16,
        high: u16,
        members: Members,
    },
    Requires {
        feature: u16,
        needed: u16,
    },
    Excludes {
        feature: u16,
        other: u16,
    },
}

impl Line {
    ghost use Rattle.std.specs.Prelude.{◌≡◌};
    ghost use Rattle.vpg_diagram.specs.DiagramText.{rules_of};
    ghost use Rattle.vpg_diagram.specs.LineView.{line_of};

    /// Returns the number of its rules.
    pub(crate) fn rules(self) -> usize
        ensures { result ≡ rules_of (line_of self) }
    {
        match self {
            Line::Requires { .. } | Line::Excludes { .. } => 1,
            Line::Mandatory { .. }
            | Line::Optional { .. }
            | Line::Alternative { .. }
            | Line::Or { .. }
            | Line::Group { .. } => 0,
        }
    }
}

/// A line below the root line, as a diagram keeps it.
#[derive(Drop)]
pub(crate) enum Kept {
    Line(Line),
    Formula(Rule),
}

impl Kept {
    ghost use Rattle.std.specs.Prelude.{◌≡◌, ◌↔◌, ℕ, IsTrue};
    ghost use Rattle.vpg_diagram.specs.FeatureDiagram.{StandsAfter};
    ghost use Rattle.vpg_diagram.specs.LineView.{kept_line_of};

    /// Whether both are the same line.
    pub(crate) fn is_same(&self, other: &Kept) -> bool
        ensures { (known also : ℕ) → StandsAfter known (kept_line_of self.now) →
            StandsAfter also (kept_line_of other.now) →
            IsTrue result ↔ (kept_line_of self.now ≡ kept_line_of other.now) }
    {
        match self {
            Kept::Line(line) => match other {
                Kept::Line(also) => line == also,
                Kept::Formula(_) => false,
            },
            Kept::Formula(rule) => match other {
                Kept::Formula(also) => rule.is_same(also),
                Kept::Line(_) => false,
            },
        }
    }
}
