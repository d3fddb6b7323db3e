//! Formulas as lists.
ghost use Rattle.std.specs.Prelude.{◌≡◌, IfOk};

use std::alloc::{AllocError, Global};
use std::marker::Model;

/// A name: bytes, which contracts see.
#[derive(Debug, Drop)]
pub struct Name {
    bytes: Vec<u8>,
}

impl Model for Name {
    ghost use Rattle.std.specs.Prelude.{List, ℕ};

    ghost Value = { List ℕ };

    ghost view = { λ n. n.bytes.items };
}

impl Name {
    /// Returns the name of these bytes.
    pub(crate) fn new(alloc: Global, text: &[u8]) -> Result<Name, AllocError>
        ensures { IfOk result (λ name. name ≡ text.now) }
    {
        let mut bytes = Vec::new(alloc);
        bytes.extend_from_slice(text)?;
        Ok(Name { bytes })
    }

    /// Returns the bytes.
    pub fn as_bytes(&self) -> &[u8]
        ensures { result.now ≡ self.now }
    {
        self.bytes.as_slice()
    }
}

/// An action by its name. In quotes the name has exactly these bytes; without quotes, blanks do not count.
#[derive(Debug, Drop)]
pub struct Label {
    /// Whether it stands in quotes.
    pub quoted: bool,
    /// Its name, without the quotes.
    pub name: Name,
}

impl Model for Label {
    ghost use Rattle.vpg_formula.specs.Coding.{label_code};
    ghost use Rattle.vpg_formula.specs.Regular as spec;

    ghost Value = { spec.Label };

    ghost coded = { label_code };

    ghost view = { λ l. record { quoted = l.quoted; name = l.name } };
}

/// A mark of a formula in Polish notation. Its operands come before it, the last one directly.
#[derive(Debug, Drop)]
pub enum Mark {
    /// Each action, written `true`.
    EveryAction,
    /// No action, written `false`.
    NoAction,
    Action(Label),
    /// `!A`.
    OtherThan,
    /// `A && A`.
    BothOf,
    /// `A || A`.
    EitherOf,
    /// `R . R`.
    Sequence,
    /// `R + R`.
    Choice,
    /// `R*`.
    Repeated,
    /// `R+`.
    RepeatedOnce,
    /// The formula `true`.
    True,
    /// The formula `false`.
    False,
    /// A variable, or an earlier entry.
    Named(Name),
    /// `deadlock free`.
    DeadlockFree,
    /// `can A`.
    Can,
    /// `will A`.
    Will,
    /// `!f`.
    Not,
    /// `<R>f`; R comes before f.
    SomePath,
    /// `[R]f`; R comes before f.
    EveryPath,
    /// `always f`.
    Always,
    /// `never f`.
    Never,
    /// `possibly f`.
    Possibly,
    /// `inevitably f`.
    Inevitably,
    /// `again and again f`.
    AgainAndAgain,
    /// `after A f`; A comes before f.
    After,
    /// `f && g`.
    And,
    /// `f || g`.
    Or,
    /// `f => g`.
    Implies,
    /// `mu X. f`.
    Least(Name),
    /// `nu X. f`.
    Greatest(Name),
}
