//! Normal forms as lists.
use crate::part::Kind;
use std::marker::Model;

/// A symbol of a normal form in Polish notation. Its operands come after it, the first one directly.
#[derive(Clone, Copy, Debug, PartialEq, Eq)]
pub enum Symbol {
    True,
    False,
    And,
    Or,
    /// Some step by an action of this set leads to a state where the operand holds.
    SomeStep(u32),
    /// Each step by an action of this set leads to a state where the operand holds.
    EveryStep(u32),
    /// A fixpoint, whose operand is its body.
    Fixpoint(Kind),
    /// A variable: this many fixpoints are between it and its own.
    Variable(u32),
}

/// A normal form in Polish notation.
#[derive(Drop)]
pub struct Spelling {
    pub symbols: Vec<Symbol>,
}

impl Model for Spelling {
    ghost use Rattle.std.specs.Prelude.{List};
    ghost use Rattle.vpg_parts.specs.declared.symbol.Symbol.{Symbol};

    ghost Value = { List Symbol };

    ghost view = { λ s. s.symbols.items };
}
