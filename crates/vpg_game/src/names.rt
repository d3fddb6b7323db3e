//! Names of vertices.
ghost use Rattle.std.specs.Prelude.{◌≡◌, ◌++◌, ◌∷◌, [], None, OnOk, OnErr, slice_index_or};
ghost use Rattle.vpg_game.specs.SpelledNames.{Told};

use std::alloc::{AllocError, Global};
use std::marker::Model;

/// The bytes of one name.
#[derive(Drop)]
pub(crate) struct Name {
    pub(crate) bytes: Vec<u8>,
}

impl Model for Name {
    ghost use Rattle.std.specs.Prelude.{ℕ, List};

    ghost Value = { List ℕ };

    ghost view = { λ n. n.bytes.items };
}

/// The names of a game's vertices, in file order, each any bytes but `"`, and the identifier where the game starts.
///
/// The name of a vertex is empty if its entry has none.
#[derive(Drop)]
pub struct VertexNames {
    pub(crate) names: Vec<Name>,
    pub(crate) start: Option<u64>,
}

impl Model for VertexNames {
    ghost use Rattle.vpg_game.specs.SpelledNames.{Told};

    ghost Value = { Told };

    ghost view = { λ n. record { names = n.names.items; start = n.start } };
}

impl VertexNames {
    /// Returns the value without names and without a start.
    pub fn none(alloc: Global) -> VertexNames
        ensures names { result.names ≡ [] }
        ensures start { result.start ≡ None }
    {
        VertexNames {
            names: Vec::new(alloc),
            start: None,
        }
    }

    /// Returns no names yet, and the identifier where the game starts, if it has one.
    pub fn starting(alloc: Global, start: Option<u64>) -> VertexNames
        ensures names { result.names ≡ [] }
        ensures start { result.start ≡ start }
    {
        VertexNames {
            names: Vec::new(alloc),
            start,
        }
    }

    /// Adds the name of the next vertex. If memory is short, nothing changes.
    pub fn add(&mut self, name: Vec<u8>) -> Result<(), AllocError>
        ensures names { OnOk result (self.new.names ≡ self.old.names ++ name.items ∷ []) }
        ensures start { self.new.start ≡ self.old.start }
        ensures unchanged { OnErr result (self.new ≡ self.old) }
    {
        self.names.push(Name { bytes: name })?;
        Ok(())
    }

    /// Returns the name of a vertex, empty if it has none, or if there are fewer names.
    pub fn name(&self, v: u32) -> &[u8]
        ensures { result.now ≡ slice_index_or self.now.names v [] }
    {
        match self.names.get(v as usize) {
            Some(name) => name.bytes.as_slice(),
            None => &[],
        }
    }

    /// Returns the identifier where the game starts, if its text has a start. 4,294,967,296 stands for any number above
    /// the identifiers.
    pub fn start(&self) -> Option<u64>
        ensures { result ≡ self.now.start }
    {
        self.start
    }
}
