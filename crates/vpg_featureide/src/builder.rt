//! The features of a model, element by element.
ghost use Rattle.std.specs.Prelude.{◌≡◌, [], ◌∷◌, ◌++◌, Ok, Err, IfOk, IfErr, OnOk, map, option_to_list};
ghost use Rattle.vpg_xml.specs.View.{attribute_of, element_of, elements_of};
ghost use Rattle.vpg_featureide.specs.Model.{nothing, value_of, is_flag, is_constant, is_name, unknown_value, is_mandatory, name_fault, around, number_around, member_of, with_role, with_feature, valued, step};
ghost use Rattle.vpg_featureide.specs.declared.fault.ModelFault.TheVariants.{Memory};
ghost use Rattle.vpg_featureide.specs.View.{seen_of, value_in, IsRefused};

use crate::fault::ModelFault;
use crate::role::{Role, is_feature, is_same, role_under};
use std::alloc::{AllocError, Global};
use vpg_features::{Names, is_feature_name};
use vpg_xml::{Attribute, Element};

/// The greatest number of features.
pub const MOST_FEATURES: usize = 512;

/// Where a feature below the root is.
#[derive(Clone, Copy, Debug, PartialEq, Eq)]
pub struct Member {
    /// The number of the feature that it is below.
    pub parent: usize,
    /// Whether it is in each product that has the parent, if the parent is an `and`.
    pub is_mandatory: bool,
}

/// The roles of the elements up to here.
#[derive(Drop)]
pub(crate) struct Builder {
    pub(crate) names: Names,
    pub(crate) kinds: Vec<Role>,
    pub(crate) members: Vec<Member>,
    pub(crate) roles: Vec<Role>,
    pub(crate) numbers: Vec<usize>,
}

/// Returns the value of the attribute with a name.
fn value_of<'a>(attributes: &'a [Attribute], key: &[u8]) -> Option<&'a [u8]>
    ensures { value_in result ≡ value_of key.now (map attribute_of attributes.now) }
{
    for a in attributes {
        if is_same(a.name, key) {
            return Some(a.value.as_slice());
        }
    }
    None
}

fn is_flag(key: &[u8]) -> bool
    ensures { result ≡ is_flag key.now }
{
    is_same(key, b"mandatory") || (is_same(key, b"abstract") || is_same(key, b"hidden"))
}

fn is_constant(value: &[u8]) -> bool
    ensures { result ≡ is_constant value.now }
{
    is_same(value, b"true") || is_same(value, b"false")
}

/// Returns the place of the first attribute whose value is unknown.
fn unknown_value(attributes: &[Attribute]) -> Option<usize>
    ensures { result ≡ unknown_value (map attribute_of attributes.now) }
{
    for a in attributes {
        if is_flag(a.name) && !is_constant(a.value.as_slice()) {
            return Some(a.at);
        }
    }
    None
}

/// Whether a feature is mandatory.
fn is_mandatory(attributes: &[Attribute]) -> bool
    ensures { result ≡ is_mandatory (map attribute_of attributes.now) }
{
    match value_of(attributes, b"mandatory") {
        Some(value) => is_same(value, b"true"),
        None => false,
    }
}

/// Whether a word is a feature name.
fn is_name(name: &[u8]) -> bool
    ensures { result ≡ is_name name.now }
{
    is_feature_name(name)
}

impl Builder {
    /// Returns what no element is.
    pub(crate) fn new(alloc: Global) -> Result<Builder, AllocError>
        ensures { IfOk result (λ b. seen_of b ≡ nothing) }
    {
        Ok(Builder {
            names: Names::new(alloc)?,
            kinds: Vec::new(alloc),
            members: Vec::new(alloc),
            roles: Vec::new(alloc),
            numbers: Vec::new(alloc),
        })
    }

    /// Returns the role of the element around.
    fn around(&self, parent: Option<usize>) -> Role
        ensures { result ≡ around (seen_of self.now).roles parent }
    {
        let Some(parent) = parent else {
            return Role::Outside;
        };
        match self.roles.get(parent) {
            Some(role) => *role,
            None => Role::Outside,
        }
    }

    /// Returns the number of the feature of the element around.
    fn number_around(&self, parent: Option<usize>) -> usize
        ensures { result ≡ number_around (seen_of self.now) parent }
    {
        let Some(parent) = parent else {
            return 0;
        };
        match self.numbers.get(parent) {
            Some(number) => *number,
            None => 0,
        }
    }

    /// Returns why a name cannot be added.
    fn name_fault(&self, name: &[u8], at: usize) -> Option<ModelFault>
        ensures { result ≡ name_fault (seen_of self.now).names name.now at }
    {
        if !is_name(name) {
            return Some(ModelFault::BadName { at });
        }
        if self.names.get(name).is_some() {
            return Some(ModelFault::Twice { at });
        }
        if self.names.len() < MOST_FEATURES {
            None
        } else {
            Some(ModelFault::TooMany { at })
        }
    }

    /// Adds an element's role.
    fn put_role(&mut self, role: Role) -> Result<(), ModelFault>
        ensures ok { OnOk result (seen_of self.new ≡ with_role (seen_of self.old) role) }
        ensures err { IfErr result (λ e. e ≡ Memory) }
    {
        let Ok(()) = self.numbers.push(self.names.len()) else {
            return Err(ModelFault::Memory);
        };
        let Ok(()) = self.roles.push(role) else {
            return Err(ModelFault::Memory);
        };
        Ok(())
    }

    /// Adds a feature after its role was added.
    fn put_name(
        &mut self,
        alloc: Global,
        role: Role,
        name: &[u8],
        member: Option<Member>,
    ) -> Result<(), ModelFault>
        ensures ok { OnOk result (seen_of self.new ≡ record (seen_of self.old) {
          names = (seen_of self.old).names ++ name.now ∷ [];
          kinds = (seen_of self.old).kinds ++ role ∷ [];
          members = (seen_of self.old).members ++ option_to_list member;
        }) }
        ensures err { IfErr result (λ e. e ≡ Memory) }
    {
        let Ok(_) = self.names.add(alloc, name) else {
            return Err(ModelFault::Memory);
        };
        let Ok(()) = self.kinds.push(role) else {
            return Err(ModelFault::Memory);
        };
        let Some(member) = member else {
            return Ok(());
        };
        let Ok(()) = self.members.push(member) else {
            return Err(ModelFault::Memory);
        };
        Ok(())
    }

    /// Returns the place of a feature: none for the root.
    fn member(&self, e: &Element) -> Option<Member>
        ensures { option_to_list result ≡ member_of (seen_of self.now) (element_of e.now)
            (around (seen_of self.now).roles e.now.parent) }
    {
        if !is_feature(self.around(e.parent)) {
            return None;
        }
        Some(Member {
            parent: self.number_around(e.parent),
            is_mandatory: is_mandatory(&e.tag.attributes),
        })
    }

    /// Returns the name of a feature that may be added.
    fn new_name<'a>(&self, e: &'a Element) -> Result<&'a [u8], ModelFault>
        ensures ok { IfOk result (λ name. (role : Role) →
            valued (seen_of self.now) (element_of e.now) role (unknown_value (element_of e.now).tag.attributes)
            ≡ Ok (with_feature (seen_of self.now) (element_of e.now) role name.now)) }
        ensures err { IfErr result (λ fault. (role : Role) →
            valued (seen_of self.now) (element_of e.now) role (unknown_value (element_of e.now).tag.attributes)
            ≡ Err fault) }
    {
        if let Some(at) = unknown_value(&e.tag.attributes) {
            return Err(ModelFault::UnknownValue { at });
        }
        if !is_feature(self.around(e.parent)) && self.names.len() > 0 {
            return Err(ModelFault::SecondRoot { at: e.at });
        }
        let Some(name) = value_of(&e.tag.attributes, b"name") else {
            return Err(ModelFault::NoName { at: e.at });
        };
        match self.name_fault(name, e.at) {
            Some(fault) => Err(fault),
            None => Ok(name),
        }
    }

    /// Adds a feature's element.
    fn put_feature(&mut self, alloc: Global, e: &Element, role: Role) -> Result<(), ModelFault>
        ensures ok { OnOk result (valued (seen_of self.old) (element_of e.now) role
            (unknown_value (element_of e.now).tag.attributes) ≡ Ok (seen_of self.new)) }
        ensures err { IfErr result (IsRefused (valued (seen_of self.old) (element_of e.now) role
            (unknown_value (element_of e.now).tag.attributes))) }
    {
        let name = match self.new_name(e) {
            Ok(name) => name,
            Err(fault) => return Err(fault),
        };
        let member = self.member(e);
        let Ok(()) = self.put_role(role) else {
            return Err(ModelFault::Memory);
        };
        let Ok(()) = self.put_name(alloc, role, name, member) else {
            return Err(ModelFault::Memory);
        };
        Ok(())
    }

    /// Adds an element.
    pub(crate) fn put(&mut self, alloc: Global, e: &Element) -> Result<(), ModelFault>
        ensures ok { OnOk result (step (seen_of self.old) (element_of e.now) ≡ Ok (seen_of self.new)) }
        ensures err { IfErr result (IsRefused (step (seen_of self.old) (element_of e.now))) }
    {
        let Some(role) = role_under(self.around(e.parent), e.tag.name) else {
            return Err(ModelFault::UnknownElement { at: e.at });
        };
        if is_feature(role) {
            return self.put_feature(alloc, e, role);
        }
        let Ok(()) = self.put_role(role) else {
            return Err(ModelFault::Memory);
        };
        Ok(())
    }
}
