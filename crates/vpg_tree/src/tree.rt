//! Feature trees.
ghost use Rattle.std.specs.Prelude.{◌≡◌, ◌≢◌, ◌<◌, ◌∷◌, [], ◌++◌, length, IfOk, IfErr, OnErr, OnOk, IfSome, slice_get, map};
ghost use Rattle.vpg_features.specs.Names.{IsNew, IsRefused};
ghost use Rattle.vpg_rules.specs.Constraint.{IsBelow};
ghost use Rattle.vpg_rules.specs.View.{constraint_of};
ghost use Rattle.vpg_tree.specs.Tree.{IsTree};

use crate::group::{Group, Kind};
use std::alloc::{AllocError, Global};
use std::marker::Model;
use vpg_features::{NameFault, Names};
use vpg_rules::Rule;

/// A tree of features with cross-tree constraints: the names of the features, their groups, and the constraints.
pub struct Tree {
    names: Names,
    groups: Vec<Group>,
    places: Vec<usize>,
    constraints: Vec<Rule>,
}

// Not derived: a derived `drop` would be proved again at each exit that owns such a value.
impl Drop for Tree {
    fn drop(self) {
        let Tree {
            names: _,
            groups: _,
            places: _,
            constraints: _,
        } = self;
    }
}

impl Model for Tree {
    ghost use Rattle.std.specs.Prelude.{map};
    ghost use Rattle.vpg_rules.specs.View.{constraint_of};
    ghost use Rattle.vpg_tree.specs.Tree.{Tree as FeatureTree, IsTree};

    ghost Value = { FeatureTree };

    ghost use Rattle.std.specs.Coded.{codes};
    ghost use Rattle.vpg_rules.specs.Coding.{rule_code};

    ghost coded = { Prim.hlevel (codes, rule_code) };

    ghost view = { λ t. record {
      names = t.names;
      groups = t.groups.items;
      places = t.places.items;
      constraints = map constraint_of t.constraints.items;
    } };

    ghost invariant = { λ t. IsTree (record {
      names = t.names;
      groups = t.groups.items;
      places = t.places.items;
      constraints = map constraint_of t.constraints.items;
    }) };
}

impl Tree {
    /// Returns the tree of a root alone. A name is refused for the first reason that holds, in the order of
    /// `NameFault`.
    pub fn new(alloc: Global, root: &[u8]) -> Result<Tree, NameFault>
        ensures tree { IfOk result
            (λ tree. tree ≡ record { names = root.now ∷ []; groups = []; places = []; constraints = [] }) }
        ensures refused { IfErr result (λ fault. fault ≢ NameFault.Memory → IsRefused [] root.now fault) }
    {
        let mut names = match Names::new(alloc) {
            Ok(names) => names,
            Err(_) => return Err(NameFault::Memory),
        };
        match names.add(alloc, root) {
            Ok(_) => Ok(Tree {
                names,
                groups: Vec::new(alloc),
                places: Vec::new(alloc),
                constraints: Vec::new(alloc),
            }),
            Err(fault) => Err(fault),
        }
    }

    /// Returns the names of the features, in order. The root is the first.
    pub fn names(&self) -> &Names
        ensures names { result.now ≡ self.now.names }
        ensures tree { IsTree self.now }
    {
        &self.names
    }

    /// Returns the groups, in order.
    pub fn groups(&self) -> &[Group]
        ensures { result.now ≡ self.now.groups }
    {
        self.groups.as_slice()
    }

    /// Returns for each feature below the root, in order, the number of its group.
    pub fn places(&self) -> &[usize]
        ensures { result.now ≡ self.now.places }
    {
        self.places.as_slice()
    }

    /// Returns the constraints, in order.
    pub fn constraints(&self) -> &[Rule]
        ensures { map constraint_of result.now ≡ self.now.constraints }
    {
        self.constraints.as_slice()
    }

    /// Adds a group without members below a feature, after the other groups, and returns its number.
    pub fn add_group(&mut self, parent: u16, kind: Kind) -> Result<usize, AllocError>
        requires { parent < length self.old.names }
        ensures number { IfOk result (λ number. number ≡ length self.old.groups) }
        ensures ok { OnOk result
            (self.new ≡ record self.old { groups = self.old.groups ++ record { parent = parent; kind = kind } ∷ [] }) }
        ensures err { OnErr result (self.new ≡ self.old) }
    {
        let number = self.groups.len();
        self.groups.push(Group { parent, kind })?;
        Ok(number)
    }

    /// Adds a feature as the last member of a group, and returns its index. A refusal changes nothing; it is the first
    /// reason that holds, in the order of `NameFault`.
    pub fn add_feature(
        &mut self,
        alloc: Global,
        group: usize,
        name: &[u8],
    ) -> Result<u16, NameFault>
        requires { group < length self.old.groups }
        ensures index { IfOk result (λ index. index ≡ length self.old.names) }
        ensures ok { OnOk result
            (self.new ≡ record self.old {
              names = self.old.names ++ name.now ∷ [];
              places = self.old.places ++ group ∷ [];
            }) }
        ensures added { OnOk result (IsNew self.old.names name.now × (length self.old.names < 512)) }
        ensures refused { IfErr result
            (λ fault. fault ≢ NameFault.Memory → IsRefused self.old.names name.now fault) }
        ensures err { OnErr result (self.new ≡ self.old) }
    {
        let Ok(_) = self.places.push(group) else {
            return Err(NameFault::Memory);
        };
        match self.names.add(alloc, name) {
            Ok(index) => Ok(index),
            Err(fault) => {
                let _ = self.places.pop();
                Err(fault)
            }
        }
    }

    /// Adds a constraint after the others.
    pub fn add_constraint(&mut self, rule: Rule) -> Result<(), AllocError>
        requires { IsBelow (length self.old.names) (constraint_of rule) }
        ensures ok { OnOk result
            (self.new ≡ record self.old { constraints = self.old.constraints ++ constraint_of rule ∷ [] }) }
        ensures err { OnErr result (self.new ≡ self.old) }
    {
        self.constraints.push(rule)?;
        Ok(())
    }
}
