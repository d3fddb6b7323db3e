//! The names that lines may give vertices.
ghost use Rattle.std.specs.Prelude.{◌≡◌, ◌++◌, ◌∷◌, [], ◌==◌, not, ◌||◌, bytes_eq, option_map, IfOk, OnErr, OnOk};
ghost use Rattle.std.specs.List.{find};
ghost use Rattle.vpg_script.specs.Calling.{calls, first_called, identifier_of, is_alone, is_called};

use std::alloc::{AllocError, Global};
use std::marker::Model;

/// A name of a vertex, and the vertex's identifier.
#[derive(Drop)]
struct Calling {
    name: Vec<u8>,
    identifier: u32,
}

impl Model for Calling {
    ghost use Rattle.vpg_script.specs.Calling.{Calling as Called};

    ghost Value = { Called };

    ghost view = { λ c. record { name = c.name.items; identifier = c.identifier } };
}

fn is_called(calling: &Calling, name: &[u8]) -> bool
    ensures { result ≡ is_called name.now calling.now }
{
    calling.name.as_slice() == name
}

/// Whether a vertex has another name, or is the one of this identifier.
fn is_other_or(calling: &Calling, name: &[u8], identifier: u32) -> bool
    ensures { result ≡ (not (is_called name.now calling.now) || (calling.now.identifier == identifier)) }
{
    !is_called(calling, name) || calling.identifier == identifier
}

/// The names of vertices. A vertex may have several, and a name may be that of several vertices: such a name stands for
/// none.
#[derive(Drop)]
pub struct Callings {
    callings: Vec<Calling>,
}

impl Model for Callings {
    ghost use Rattle.std.specs.Prelude.{List};
    ghost use Rattle.vpg_script.specs.Calling.{Calling as Called};

    ghost Value = { List Called };

    ghost view = { λ c. c.callings.items };
}

/// Returns the identifier of the first vertex with this name.
fn first_called(callings: &[Calling], name: &[u8]) -> Option<u32>
    ensures { result ≡ first_called callings.now name.now }
{
    match callings.iter().find(|c| is_called(c, name)) {
        Some(calling) => Some(calling.identifier),
        None => None,
    }
}

/// Whether no vertex except the one of this identifier has this name.
fn is_alone(callings: &[Calling], name: &[u8], identifier: u32) -> bool
    ensures { result ≡ is_alone callings.now name.now identifier }
{
    callings.iter().all(|c| is_other_or(c, name, identifier))
}

fn is_name_of_any(callings: &[Calling], name: &[u8]) -> bool
    ensures { result ≡ calls callings.now name.now }
{
    callings.iter().any(|c| is_called(c, name))
}

impl Callings {
    /// Returns no names.
    pub fn none(alloc: Global) -> Callings
        ensures { result ≡ [] }
    {
        Callings {
            callings: Vec::new(alloc),
        }
    }

    /// Adds a name of the vertex that has this identifier.
    pub fn add(&mut self, alloc: Global, name: &[u8], identifier: u32) -> Result<(), AllocError>
        ensures added { OnOk result
            (self.new ≡ self.old ++ record { name = name.now; identifier = identifier } ∷ []) }
        ensures unchanged { OnErr result (self.new ≡ self.old) }
    {
        let name = Vec::from_slice(alloc, name)?;
        self.callings.push(Calling { name, identifier })?;
        Ok(())
    }

    /// Returns the identifier of the vertex with this name; `None` if no vertex has it, or several do.
    pub fn identifier(&self, name: &[u8]) -> Option<u32>
        ensures { result ≡ identifier_of self.now name.now }
    {
        let identifier = first_called(&self.callings, name)?;
        if is_alone(&self.callings, name, identifier) {
            Some(identifier)
        } else {
            None
        }
    }

    /// Whether one or several vertices have this name.
    pub fn calls(&self, name: &[u8]) -> bool
        ensures { result ≡ calls self.now name.now }
    {
        is_name_of_any(&self.callings, name)
    }
}
