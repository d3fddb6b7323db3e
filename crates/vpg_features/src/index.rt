//! For each feature, numbers.
ghost use Rattle.std.specs.Prelude.{◌≡◌, ◌<◌, ◌↔◌, ◌⊎◌, ℕ, [], ◌∷◌, All, OnOk, IfOk, Contains, length, replicate, slice_index_or};
ghost use Rattle.vpg_features.specs.Index.{NotesAlso};

use std::alloc::{AllocError, Global};
use std::marker::Model;

/// The numbers of one feature.
#[derive(Drop)]
struct Row {
    numbers: Vec<usize>,
}

impl Model for Row {
    ghost use Rattle.std.specs.Prelude.{ℕ, List};

    ghost Value = { List ℕ };

    ghost view = { λ r. r.numbers.items };
}

impl Row {
    fn new(alloc: Global) -> Row
        ensures { result ≡ [] }
    {
        Row {
            numbers: Vec::new(alloc),
        }
    }

    /// Adds the number, unless it is the last one.
    fn note(&mut self, number: usize) -> Result<(), AllocError>
        ensures { OnOk result ((k : ℕ) → Contains self.new k ↔ (Contains self.old k ⊎ (k ≡ number))) }
    {
        if let Some(last) = self.numbers.last() {
            if *last == number {
                return Ok(());
            }
        }
        self.numbers.push(number)?;
        Ok(())
    }
}

/// For each feature, the numbers noted of it: for instance those of the vertices or rules that name it.
///
/// Clauses see it as the list of these lists, in the order of the features.
pub struct Index {
    rows: Vec<Row>,
}

// Not derived: a derived `drop` would be proved again at each exit that owns such a value.
impl Drop for Index {
    fn drop(self) {
        let Index { rows: _ } = self;
    }
}

impl Model for Index {
    ghost use Rattle.std.specs.Prelude.{ℕ, List};

    ghost Value = { List (List ℕ) };

    ghost view = { λ i. i.rows.items };
}

impl Index {
    /// Returns the index of this number of features, with nothing noted.
    pub fn new(alloc: Global, features: usize) -> Result<Index, AllocError>
        ensures { IfOk result (λ index. index ≡ replicate features []) }
    {
        let mut rows = Vec::with_capacity(alloc, features)?;
        for _ in 0..features {
            rows.push(Row::new(alloc))?;
        }
        Ok(Index { rows })
    }

    /// Notes the number of the feature. It is not kept twice if it was the last one noted of that feature.
    pub fn note(&mut self, number: usize, feature: u16) -> Result<(), AllocError>
        requires { feature < length self.old }
        ensures { OnOk result (NotesAlso self.old number (feature ∷ []) self.new) }
    {
        self.rows[feature as usize].note(number)
    }

    /// Notes the number of each of the features.
    pub fn note_each(&mut self, number: usize, features: &[u16]) -> Result<(), AllocError>
        requires { All (λ f. f < length self.old) features.now }
        ensures { OnOk result (NotesAlso self.old number features.now self.new) }
    {
        for feature in features {
            self.note(number, *feature)?;
        }
        Ok(())
    }

    /// Returns the numbers noted of the feature, in the order in which they were noted.
    pub fn numbers(&self, feature: u16) -> &[usize]
        ensures { result.now ≡ slice_index_or self.now feature [] }
    {
        match self.rows.get(feature as usize) {
            Some(row) => row.numbers.as_slice(),
            None => &[],
        }
    }
}
