//! The feature tree that a feature model stands for.
ghost use Rattle.std.specs.Prelude.{◌≡◌, ◌<◌, ◌+◌, ◌++◌, ◌∷◌, [], length, map, reverse, slice_index_or, OnOk, IfOk, IfSome, IfErr};
ghost use Rattle.std.specs.List.{AllByRecursion};
ghost use Rattle.vpg_rules.specs.Constraint.{IsBelow};
ghost use Rattle.vpg_rules.specs.View.{constraint_of};
ghost use Rattle.vpg_featureide.specs.Roles.{Outside};
ghost use Rattle.vpg_featureide.specs.Trees.{has_child, kind_of, groups_of, groups_from, is_and, place_of, tree_of, IsTreeOf, IsTreeIn};
ghost use Rattle.vpg_xml.specs.Elements.{Document};
ghost use Rattle.vpg_xml.specs.Nesting.{Spells};
ghost use Rattle.vpg_featureide.specs.Formulas.{IsRefusedAs, IsFaultOf};
ghost use Rattle.vpg_featureide.specs.declared.fault.ModelFault.TheVariants.{Memory};
ghost use Rattle.vpg_featureide.specs.View.{model_in};

use crate::builder::Member;
use crate::fault::ModelFault;
use crate::model::{Model, read_model};
use crate::role::Role;
use std::alloc::{AllocError, Global};
use vpg_features::Names;
use vpg_rules::Rule;
use vpg_tree::{Kind, Tree};

fn has_child(members: &[Member], f: usize) -> bool
    ensures { result ≡ has_child members.now f }
{
    members.iter().any(|m| m.parent == f)
}

fn kind_of(role: Role, has: bool) -> Kind
    ensures { result ≡ kind_of role has }
{
    match role {
        Role::Or => { if has { Kind::Or } else { Kind::Mandatory } }
        Role::Alternative => {
            if has {
                Kind::Alternative
            } else {
                Kind::Mandatory
            }
        }
        _ => Kind::Mandatory,
    }
}

fn is_and(role: Role) -> bool
    ensures { result ≡ is_and role }
{
    match role {
        Role::And => true,
        _ => false,
    }
}

fn role_at(roles: &[Role], i: usize) -> Role
    ensures { result ≡ slice_index_or roles.now i Outside }
{
    match roles.get(i) {
        Some(role) => *role,
        None => Role::Outside,
    }
}

/// Returns the number of a member's group, unless it is too great for a number.
fn place_of(kinds: &[Role], member: Member) -> Option<usize>
    ensures { IfSome result (λ place. place ≡ place_of kinds.now member) }
{
    if member.parent > 65_536 {
        return None;
    }
    if is_and(role_at(kinds, member.parent)) && !member.is_mandatory {
        Some(2 * member.parent + 1)
    } else {
        Some(2 * member.parent)
    }
}

/// Adds the groups of a feature.
fn put_groups(tree: &mut Tree, members: &[Member], f: u16, role: Role) -> Result<(), AllocError>
    requires { f < length tree.old.names }
    ensures { OnOk result
        (tree.new ≡ record tree.old { groups = tree.old.groups ++ groups_of members.now f role }) }
{
    tree.add_group(f, kind_of(role, has_child(members, f as usize)))?;
    tree.add_group(f, Kind::Optional)?;
    Ok(())
}

/// Adds a feature below the root, and its groups.
fn add(
    alloc: Global,
    tree: &mut Tree,
    members: &[Member],
    place: usize,
    role: Role,
    name: &[u8],
) -> Result<(), ModelFault>
    ensures ok { OnOk result
        (tree.new ≡ record {
          names = tree.old.names ++ name.now ∷ [];
          groups = tree.old.groups ++ groups_of members.now (length tree.old.names) role;
          places = tree.old.places ++ place ∷ [];
          constraints = tree.old.constraints;
        }) }
    ensures err { IfErr result (λ e. e ≡ Memory) }
{
    if place >= tree.groups().len() {
        return Err(ModelFault::Memory);
    }
    let Ok(f) = tree.add_feature(alloc, place, name) else {
        return Err(ModelFault::Memory);
    };
    let Ok(()) = put_groups(tree, members, f, role) else {
        return Err(ModelFault::Memory);
    };
    Ok(())
}

/// Returns the tree of the root.
fn root(alloc: Global, members: &[Member], role: Role, name: &[u8]) -> Result<Tree, ModelFault>
    ensures ok { IfOk result (λ tree. tree ≡ record {
      names = name.now ∷ [];
      groups = groups_of members.now 0 role;
      places = [];
      constraints = [];
    }) }
    ensures err { IfErr result (λ e. e ≡ Memory) }
{
    let Ok(mut tree) = Tree::new(alloc, name) else {
        return Err(ModelFault::Memory);
    };
    let Ok(()) = put_groups(&mut tree, members, 0, role) else {
        return Err(ModelFault::Memory);
    };
    Ok(tree)
}

/// Returns the tree of a model's features. `Memory` would also refuse a model whose numbers do not fit one another. A
/// model that was read has none such, which is not proved.
fn features(
    alloc: Global,
    names: &Names,
    kinds: &[Role],
    members: &[Member],
) -> Result<Tree, ModelFault>
    ensures ok { IfOk result (λ tree. tree ≡ record {
      names = names.now;
      groups = groups_from members.now 0 kinds.now;
      places = map (place_of kinds.now) members.now;
      constraints = [];
    }) }
    ensures err { IfErr result (λ e. e ≡ Memory) }
{
    let count = names.len();
    if count == 0 {
        return Err(ModelFault::Memory);
    }
    if kinds.len() != count {
        return Err(ModelFault::Memory);
    }
    if members.len() != count - 1 {
        return Err(ModelFault::Memory);
    }
    let mut tree = match root(alloc, members, kinds[0], names.name(0).as_bytes()) {
        Ok(tree) => tree,
        Err(fault) => return Err(fault),
    };
    for f in 1..count {
        let Some(place) = place_of(kinds, members[f - 1]) else {
            return Err(ModelFault::Memory);
        };
        let name = names.name(f as u16).as_bytes();
        let Ok(()) = add(alloc, &mut tree, members, place, kinds[f], name) else {
            return Err(ModelFault::Memory);
        };
    }
    Ok(tree)
}

/// Adds rules, the last one first.
fn put_rules(tree: &mut Tree, rules: Vec<Rule>) -> Result<(), ModelFault>
    requires { AllByRecursion (IsBelow (length tree.old.names)) (map constraint_of (reverse rules.items)) }
    ensures ok { OnOk result (tree.new ≡ record tree.old {
      constraints = tree.old.constraints ++ map constraint_of (reverse rules.items);
    }) }
    ensures err { IfErr result (λ e. e ≡ Memory) }
{
    let mut rules = rules;
    while let Some(rule) = rules.pop() {
        let Ok(()) = tree.add_constraint(rule) else {
            return Err(ModelFault::Memory);
        };
    }
    Ok(())
}

/// Returns the tree of a model.
fn tree_of(alloc: Global, model: Model) -> Result<Tree, ModelFault>
    requires { AllByRecursion (IsBelow (length model.names)) (map constraint_of model.rules.items) }
    ensures ok { IfOk result (λ tree. tree ≡ tree_of (model_in model)) }
    ensures err { IfErr result (λ e. e ≡ Memory) }
{
    let Model {
        names,
        kinds,
        members,
        rules,
    } = model;
    let mut tree = match features(alloc, &names, &kinds, &members) {
        Ok(tree) => tree,
        Err(fault) => return Err(fault),
    };
    let mut rules = rules;
    rules.reverse();
    match put_rules(&mut tree, rules) {
        Ok(()) => Ok(tree),
        Err(fault) => Err(fault),
    }
}

/// Returns the feature tree that a text spells. The errors are those of `read_model`.
pub fn read_tree(alloc: Global, text: &[u8]) -> Result<Tree, ModelFault>
    ensures tree { IfOk result (IsTreeOf text.now) }
    ensures only { (d : Document) → Spells text.now d → IfOk result (IsTreeIn d) }
    ensures refused { (d : Document) → Spells text.now d → IfErr result (IsRefusedAs d) }
    ensures fault { IfErr result (IsFaultOf text.now) }
{
    match read_model(alloc, text) {
        Ok(model) => tree_of(alloc, model),
        Err(fault) => Err(fault),
    }
}
