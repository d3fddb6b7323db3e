//! Entries: decisions, and lifts with the decisions that they assumed.
ghost use Rattle.std.specs.Prelude.{◌≡◌, ◌==◌, length, IfOk};
ghost use Rattle.std.specs.List.{list_any};

use std::alloc::AllocError;
use std::marker::Model;
use std::sync::Arc;
use vpg_diagram::Literal;
use vpg_partial::Decision;
use vpg_sides::Which;

/// The decisions that a lift rests on, without their serials, in the order of the page that they were read from.
#[derive(Drop)]
pub struct Assumed {
    literals: Vec<Literal>,
}

impl Model for Assumed {
    ghost use Rattle.std.specs.Prelude.{List};
    ghost use Rattle.vpg_diagram.specs.declared.clause.Literal.{Literal};

    ghost Value = { List Literal };

    ghost view = { λ a. a.literals.items };
}

impl Assumed {
    /// Makes it of a list, without memory.
    pub fn new(literals: Vec<Literal>) -> Assumed
        ensures { result ≡ literals.items }
    {
        Assumed { literals }
    }

    /// Returns the list itself.
    pub fn into_vec(self) -> Vec<Literal>
        ensures { result.items ≡ self }
    {
        self.literals
    }

    /// Returns the literals in their order.
    pub fn literals(&self) -> &[Literal]
        ensures { result.now ≡ self.now }
    {
        self.literals.as_slice()
    }

    pub fn is_empty(&self) -> bool
        ensures { result ≡ (length self.now == 0) }
    {
        self.literals.is_empty()
    }

    /// Whether a literal is on this feature.
    pub fn has(&self, feature: u16) -> bool
        ensures { result ≡ list_any (λ l. l.feature == feature) self.now }
    {
        self.literals.iter().any(|l| l.feature == feature)
    }
}

/// A decision, or a rise of one vertex in one table.
pub enum Entry {
    Decide(Decision),
    Lift {
        table: Which,
        vertex: u32,
        old: u64,
        new: u64,
        under: Arc<Assumed>,
    },
}

// Not derived: a derived `drop` would be proved again at each exit that owns such a value.
impl Drop for Entry {
    fn drop(self) {
        match self {
            Entry::Decide(_) => {}
            Entry::Lift {
                table: _,
                vertex: _,
                old: _,
                new: _,
                under: _,
            } => {}
        }
    }
}

impl Entry {
    ghost use Rattle.vpg_trail.specs.Shown.{entry_of};

    /// Returns a copy of the entry; the assumed decisions are shared.
    pub fn copy(&self) -> Result<Entry, AllocError>
        ensures { IfOk result (λ e. entry_of e ≡ entry_of self.now) }
    {
        match self {
            Entry::Decide(decision) => Ok(Entry::Decide(*decision)),
            Entry::Lift {
                table,
                vertex,
                old,
                new,
                under,
            } => Ok(Entry::Lift {
                table: *table,
                vertex: *vertex,
                old: *old,
                new: *new,
                under: under.clone()?,
            }),
        }
    }
}
