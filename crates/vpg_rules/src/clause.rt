//! Clauses over features.

ghost use Rattle.std.specs.Prelude.{◌≡◌, [], ◌∷◌, IfOk};
ghost use Rattle.vpg_rules.specs.Clauses.{has, is_same, joined};

use smallvec::SmallVec;
use std::alloc::{AllocError, Global};
use std::marker::Model;

/// A feature in, or a feature out.
#[derive(Clone, Copy, Debug, Default, PartialEq, Eq)]
pub struct Literal {
    /// The feature's index, from 0.
    pub feature: u16,
    /// `true` for the feature in, `false` for the feature out.
    pub value: bool,
}

impl Literal {
    /// Whether it is the same feature with the same value.
    fn is_same(self, other: Literal) -> bool
        ensures { result ≡ is_same self other }
    {
        self.feature == other.feature && self.value == other.value
    }
}

/// A list of literals. A set of features meets it if at least one of them is true.
#[derive(Drop)]
pub struct Clause {
    literals: SmallVec<Literal, 2>,
}

impl Model for Clause {
    ghost use Rattle.std.specs.Prelude.{List};
    ghost use Rattle.vpg_rules.specs.declared.clause.Literal.{Literal};

    ghost Value = { List Literal };

    ghost view = { λ c. c.literals.items };
}

impl Clause {
    /// Returns the clause of these literals.
    pub fn new(literals: SmallVec<Literal, 2>) -> Clause
        ensures { result ≡ literals.items }
    {
        Clause { literals }
    }

    /// Returns the literals, in order.
    pub fn literals(&self) -> &[Literal]
        ensures { result.now ≡ self.now }
    {
        self.literals.as_slice()
    }

    /// Returns the literals, in order, without taking memory.
    pub fn into_literals(self) -> SmallVec<Literal, 2>
        ensures { result.items ≡ self }
    {
        let Clause { literals } = self;
        literals
    }

    /// Returns the clause without literals, which no set of features meets.
    pub(crate) fn none(alloc: Global) -> Clause
        ensures { result ≡ [] }
    {
        Clause {
            literals: SmallVec::new(alloc),
        }
    }

    /// Returns the clause of one literal.
    pub(crate) fn of(alloc: Global, literal: Literal) -> Result<Clause, AllocError>
        ensures { IfOk result (λ clause. clause ≡ literal ∷ []) }
    {
        Ok(Clause {
            literals: SmallVec::from_slice(alloc, &[literal])?,
        })
    }

    /// Whether it has a literal.
    fn has(&self, literal: Literal) -> bool
        ensures { result ≡ has self.now literal }
    {
        self.literals().iter().any(|own| own.is_same(literal))
    }

    /// Returns the clause of its literals, and of those of the other that it has not.
    pub(crate) fn joined(&self, alloc: Global, other: &Clause) -> Result<Clause, AllocError>
        ensures { IfOk result (λ clause. clause ≡ joined self.now other.now) }
    {
        let mut literals = SmallVec::from_slice(alloc, self.literals())?;
        for literal in other.literals() {
            if !self.has(*literal) {
                literals.push(*literal)?;
            }
        }
        Ok(Clause { literals })
    }
}
