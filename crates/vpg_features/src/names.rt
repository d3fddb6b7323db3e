//! The names of features, in order.
ghost use Rattle.std.specs.Prelude.{◌≡◌, ◌<◌, ◌↔◌, [], ◌∷◌, ◌++◌, length, IsTrue, IfOk, IfErr, OnErr, IfSome, IfNone, Some, slice_get, slice_index_or, ℕ};

use crate::fault::NameFault;
use indexmap::IndexSet;
use std::alloc::{AllocError, Global};
use std::marker::Model;
use std::str;

/// The greatest length of a feature name, in bytes.
pub const LONGEST_NAME: usize = 64;

/// The greatest number of features.
pub const MOST_FEATURES: usize = 512;

/// The names of features in order, each once, 512 at most. A name's index is its place, from 0.
pub struct Names {
    set: IndexSet<String>,
}

// Not derived: a derived `drop` would be proved again at each exit that owns such a value.
impl Drop for Names {
    fn drop(self) {
        let Names { set: _ } = self;
    }
}

impl Model for Names {
    ghost use Rattle.std.specs.Prelude.{◌≡◌, List, ℕ, map, string_bytes};

    ghost Value = { List (List ℕ) };

    ghost use Rattle.vpg_features.specs.Names.{AreNames};

    ghost view = { λ a. map string_bytes a.set.keys };

    ghost invariant = { λ a. AreNames (map string_bytes a.set.keys) };
}

ghost use Rattle.std.specs.List.{list_all};
ghost use Rattle.vpg_features.specs.Names.{IsFeatureName, IsNew, IsRefused, AreNames, Lacks, is_name_start, is_name_byte, constant_of, index_of};

impl Names {
    /// Returns the list without names.
    pub fn new(alloc: Global) -> Result<Names, AllocError>
        ensures { IfOk result (λ names. names ≡ []) }
    {
        Ok(Names {
            set: IndexSet::with_capacity(alloc, 0)?,
        })
    }

    /// Returns the number of names, 0 to 512.
    pub fn len(&self) -> usize
        ensures len { result ≡ length self.now }
        ensures names { AreNames self.now }
    {
        self.set.len()
    }

    /// Whether there are no names.
    pub fn is_empty(&self) -> bool
        ensures { IsTrue result ↔ (self.now ≡ []) }
    {
        self.set.is_empty()
    }

    /// Adds a name after the others, and returns its index. A refusal changes nothing; it is the first reason that
    /// holds, in the order of `NameFault`.
    pub fn add(&mut self, alloc: Global, name: &[u8]) -> Result<u16, NameFault>
        ensures ok { IfOk result (λ i. (i ≡ length self.old) × (self.new ≡ self.old ++ name.now ∷ [])) }
        ensures added { IfOk result (λ _. IsNew self.old name.now × (length self.old < 512)) }
        ensures refused { IfErr result (IsRefused self.old name.now) }
        ensures err { OnErr result (self.new ≡ self.old) }
    {
        if !is_feature_name(name) {
            return Err(NameFault::BadName);
        }
        if let Some(index) = self.get(name) {
            return Err(NameFault::Twice { index });
        }
        let index = self.len();
        if index == MOST_FEATURES {
            return Err(NameFault::TooMany);
        }
        let Ok(text) = str::from_utf8(name) else {
            return Err(NameFault::BadName);
        };
        let Ok(text) = String::from_str(alloc, text) else {
            return Err(NameFault::Memory);
        };
        let Ok(_) = self.set.insert(text) else {
            return Err(NameFault::Memory);
        };
        Ok(index as u16)
    }

    /// Returns the index of a name, or `None` if the text is none of the names.
    pub fn get(&self, name: &[u8]) -> Option<u16>
        ensures index { result ≡ index_of self.now name.now }
        ensures found { IfSome result (λ i. slice_get self.now i ≡ Some name.now) }
        ensures held { (i : ℕ) → slice_get self.now i ≡ Some name.now → result ≡ Some i }
        ensures absent { IfNone result (Lacks self.now name.now) }
    {
        let set = &self.set;
        let Ok(text) = str::from_utf8(name) else {
            return None;
        };
        match set.get_index_of(text) {
            Some(index) => Some(index as u16),
            None => None,
        }
    }

    /// Returns the name at an index, which is below `len`.
    pub fn name(&self, f: u16) -> &str
        requires { f < length self.now }
        ensures held { slice_get self.now f ≡ Some result.now }
        ensures value { result.now ≡ slice_index_or self.now f [] }
    {
        match self.set.get_index(f as usize) {
            Some(name) => name.as_str(),
            None => "",
        }
    }
}

/// Whether the byte is a letter, a digit or `_`.
pub fn is_name_byte(b: u8) -> bool
    ensures { result ≡ is_name_byte b }
{
    b.is_ascii_alphanumeric() || b == b'_'
}

/// Whether the byte is a letter or `_`.
fn is_name_start(b: u8) -> bool
    ensures { result ≡ is_name_start b }
{
    b.is_ascii_alphabetic() || b == b'_'
}

/// Returns the constant that a word stands for: `true` or `false`.
pub fn constant_of(word: &[u8]) -> Option<bool>
    ensures { result ≡ constant_of word.now }
{
    if word == b"true".as_slice() {
        return Some(true);
    }
    if word == b"false".as_slice() {
        return Some(false);
    }
    None
}

/// Whether each byte is a letter, a digit or `_`.
fn has_name_bytes(name: &[u8]) -> bool
    ensures { result ≡ list_all is_name_byte name.now }
{
    name.iter().all(|b| is_name_byte(*b))
}

/// Whether a word is a feature name: a letter or `_`, then letters, digits and `_`, all ASCII, 64 bytes at most, and
/// neither `true` nor `false`.
pub fn is_feature_name(name: &[u8]) -> bool
    ensures { IsTrue result ↔ IsFeatureName name.now }
{
    let Some(first) = name.first() else {
        return false;
    };
    if !is_name_start(*first) {
        return false;
    }
    if !has_name_bytes(name) {
        return false;
    }
    if name.len() > LONGEST_NAME {
        return false;
    }
    constant_of(name).is_none()
}
