//! The text of the feature diagram that a tree stands for.
ghost use Rattle.std.specs.Prelude.{◌≡◌, ◌+◌, ◌<◌, ◌≤◌, ◌^◌, ◌++◌, ◌∷◌, [], length, map, decimal, codes, OnOk, OnErr, All, List, ℕ};
ghost use Rattle.std.specs.List.{AllByRecursion};
ghost use Rattle.vpg_rules.specs.Constraint.{Constraint, IsBelow};
ghost use Rattle.vpg_rules.specs.View.{constraint_of};
ghost use Rattle.vpg_tree.specs.Lines.{group, group_lines, lines_from, constraint_line, at_most};
ghost use Rattle.vpg_tree.specs.DiagramText.{name_of, members_text, pair_text, pairs_text, line_text, lines_text, diagram_text};
ghost use Rattle.vpg_tree.specs.Short.{IsShort};

use crate::group::{Group, Kind};
use crate::members::members;
use crate::rules::put_rule;
use crate::tree::Tree;
use itoa::Buffer;
use std::alloc::{AllocError, Global};
use vpg_features::Names;
use vpg_rules::Rule;

impl Tree {
    /// Writes the feature diagram that the tree stands for after what is there: the root line, the lines of the groups
    /// in order, and a line for each constraint. `a => b` is a line `requires`, `a => !b` a line `excludes`, and any
    /// other constraint a line `rule`. A refusal writes nothing.
    pub fn write(&self, alloc: Global, out: &mut Vec<u8>) -> Result<(), AllocError>
        ensures ok { OnOk result (out.new.items ≡ out.old.items ++ diagram_text self.now) }
        ensures err { OnErr result (out.new.items ≡ out.old.items) }
    {
        let names = self.names();
        let mut text = Vec::new(alloc);
        put_root(names, &mut text)?;
        put_groups(alloc, self.groups(), self.places(), names, &mut text)?;
        put_constraints(self.constraints(), names, &mut text)?;
        out.extend_from_slice(&text)?;
        Ok(())
    }
}

fn put_number(n: u64, out: &mut Vec<u8>) -> Result<(), AllocError>
    ensures { OnOk result (out.new.items ≡ out.old.items ++ decimal n) }
{
    let mut buffer = Buffer::new();
    out.extend_from_slice(buffer.format(n).as_bytes())
}

fn put_name(f: u16, names: &Names, out: &mut Vec<u8>) -> Result<(), AllocError>
    requires { f < length names.now }
    ensures { OnOk result (out.new.items ≡ out.old.items ++ name_of names.now f) }
{
    out.extend_from_slice(names.name(f).as_bytes())
}

fn put_root(names: &Names, out: &mut Vec<u8>) -> Result<(), AllocError>
    requires { 0 < length names.now }
    ensures { OnOk result (out.new.items ≡ out.old.items ++ (codes "root " ++ name_of names.now 0 ++ codes "\n")) }
{
    out.extend_from_slice(b"root ")?;
    put_name(0, names, out)?;
    out.push(b'\n')?;
    Ok(())
}

/// Writes a line of a word and two features.
fn put_pair(
    word: &[u8],
    first: u16,
    second: u16,
    names: &Names,
    out: &mut Vec<u8>,
) -> Result<(), AllocError>
    requires first { first < length names.now }
    requires second { second < length names.now }
    ensures { OnOk result (out.new.items ≡ out.old.items
        ++ (pair_text names.now word.now first second ++ codes "\n")) }
{
    out.extend_from_slice(word)?;
    put_name(first, names, out)?;
    out.push(b' ')?;
    put_name(second, names, out)?;
    out.push(b'\n')?;
    Ok(())
}

/// Writes a line of a word and two features for each child of a parent.
fn put_pairs(
    word: &[u8],
    parent: u16,
    children: &[u16],
    names: &Names,
    out: &mut Vec<u8>,
) -> Result<(), AllocError>
    requires parent { parent < length names.now }
    requires children { AllByRecursion (λ f. f < length names.now) children.now }
    ensures { OnOk result (out.new.items ≡ out.old.items ++ pairs_text names.now word.now parent children.now) }
{
    for child in children {
        put_pair(word, parent, *child, names, out)?;
    }
    Ok(())
}

/// Writes a colon, each member after a blank, and the line's end.
fn put_members(members: &[u16], names: &Names, out: &mut Vec<u8>) -> Result<(), AllocError>
    requires { AllByRecursion (λ f. f < length names.now) members.now }
    ensures { OnOk result (out.new.items ≡ out.old.items
        ++ (codes ":" ++ members_text names.now members.now ++ codes "\n")) }
{
    out.push(b':')?;
    for member in members {
        out.push(b' ')?;
        put_name(*member, names, out)?;
    }
    out.push(b'\n')?;
    Ok(())
}

/// Writes the line of a group with a cardinality.
fn put_cardinality(
    parent: u16,
    low: u32,
    high: Option<u32>,
    members: &[u16],
    names: &Names,
    out: &mut Vec<u8>,
) -> Result<(), AllocError>
    requires parent { parent < length names.now }
    requires members { AllByRecursion (λ f. f < length names.now) members.now }
    ensures { OnOk result (out.new.items ≡ out.old.items
        ++ (line_text names.now (group parent low (at_most high (length members.now)) members.now) ++ codes "\n")) }
{
    out.extend_from_slice(b"group ")?;
    put_name(parent, names, out)?;
    out.push(b' ')?;
    put_number(u64::from(low), out)?;
    out.push(b' ')?;
    put_number(at_most(high, members.len() as u64), out)?;
    put_members(members, names, out)
}

/// Returns the smaller of a bound and the number of members, or this number if there is no bound.
fn at_most(high: Option<u32>, all: u64) -> u64
    ensures { result ≡ at_most high all }
{
    match high {
        Some(high) => u64::from(high).min(all),
        None => all,
    }
}

/// Writes the line of a group with a word, a parent and members.
fn put_named_group(
    word: &[u8],
    parent: u16,
    members: &[u16],
    names: &Names,
    out: &mut Vec<u8>,
) -> Result<(), AllocError>
    requires parent { parent < length names.now }
    requires members { AllByRecursion (λ f. f < length names.now) members.now }
    ensures { OnOk result (out.new.items ≡ out.old.items
        ++ (word.now ++ name_of names.now parent ++ codes ":" ++ members_text names.now members.now ++ codes "\n")) }
{
    out.extend_from_slice(word)?;
    put_name(parent, names, out)?;
    put_members(members, names, out)
}

/// Writes the lines of a group with these members.
fn put_group(
    group: Group,
    members: &[u16],
    names: &Names,
    out: &mut Vec<u8>,
) -> Result<(), AllocError>
    requires parent { group.parent < length names.now }
    requires members { AllByRecursion (λ f. f < length names.now) members.now }
    ensures { OnOk result (out.new.items ≡ out.old.items
        ++ lines_text names.now (group_lines group.kind group.parent members.now)) }
{
    let parent = group.parent;
    match group.kind {
        Kind::Mandatory => put_pairs(b"mandatory ", parent, members, names, out),
        Kind::Optional => put_pairs(b"optional ", parent, members, names, out),
        Kind::Alternative => put_named_group(b"alternative ", parent, members, names, out),
        Kind::Or => put_named_group(b"or ", parent, members, names, out),
        Kind::Cardinality { low, high } => {
            put_cardinality(parent, low, high, members, names, out)
        }
    }
}

/// Writes the lines of each group.
fn put_groups(
    alloc: Global,
    groups: &[Group],
    places: &[usize],
    names: &Names,
    out: &mut Vec<u8>,
) -> Result<(), AllocError>
    requires parents { AllByRecursion (λ g. g.parent < length names.now) groups.now }
    requires places { length names.now ≡ length places.now + 1 }
    requires few { length names.now ≤ 512 }
    ensures { OnOk result (out.new.items ≡ out.old.items
        ++ lines_text names.now (lines_from 0 groups.now places.now)) }
{
    for (number, group) in groups.iter().enumerate() {
        let members = members(alloc, places, number)?;
        put_group(*group, &members, names, out)?;
    }
    Ok(())
}

/// Writes the line of a constraint.
fn put_constraint(constraint: &Rule, names: &Names, out: &mut Vec<u8>) -> Result<(), AllocError>
    requires { IsBelow (length names.now) (constraint_of constraint.now) }
    ensures { OnOk result (out.new.items ≡ out.old.items
        ++ (line_text names.now (constraint_line (constraint_of constraint.now)) ++ codes "\n")) }
{
    match short_form(constraint) {
        Some(Short::Requires(feature, needed)) => {
            put_pair(b"requires ", feature, needed, names, out)
        }
        Some(Short::Excludes(feature, other)) => {
            put_pair(b"excludes ", feature, other, names, out)
        }
        None => {
            out.extend_from_slice(b"rule ")?;
            put_rule(constraint, names, out)?;
            out.push(b'\n')?;
            Ok(())
        }
    }
}

/// Writes a line for each constraint.
fn put_constraints(constraints: &[Rule], names: &Names, out: &mut Vec<u8>) -> Result<(), AllocError>
    requires { AllByRecursion (IsBelow (length names.now)) (map constraint_of constraints.now) }
    ensures { OnOk result (out.new.items ≡ out.old.items
        ++ lines_text names.now (map constraint_line (map constraint_of constraints.now))) }
{
    for constraint in constraints {
        put_constraint(constraint, names, out)?;
    }
    Ok(())
}

/// A constraint between two features that has a line of its own.
#[derive(Clone, Copy)]
enum Short {
    Requires(u16, u16),
    Excludes(u16, u16),
}

/// Returns the constraint as one between two features, if it is one.
fn short_form(constraint: &Rule) -> Option<Short>
    ensures { IsShort (constraint_of constraint.now) result }
{
    let Rule::Implies(left, right) = constraint else {
        return None;
    };
    let Rule::Feature(first) = &**left else {
        return None;
    };
    match &**right {
        Rule::Feature(second) => Some(Short::Requires(*first, *second)),
        Rule::Not(inner) => match &**inner {
            Rule::Feature(second) => Some(Short::Excludes(*first, *second)),
            _ => None,
        },
        _ => None,
    }
}
