//! The priorities of fixpoints.
ghost use Rattle.std.specs.Prelude.{◌≡◌, ℕ, ◌+◌, ◌-◌, ◌<◌, ◌≤◌, length, reverse, slice_index, IfOk};
ghost use Rattle.vpg_requirement.specs.Priorities.{next_priority};
ghost use Rattle.vpg_parts.specs.Parts.{kind_of};
ghost use Rattle.vpg_normal.specs.Sizes.{sizes_of};
ghost use Rattle.vpg_normal.specs.Ranks.{crossed, share_of, greatest_share, named_from, noted, priority_of, ArePriorities};

use crate::look::{link_at, number_at};
use std::alloc::{AllocError, Global};
use vpg_parts::{Kind, Symbol};

/// Returns the greatest priority of a fixpoint after this place, from one outwards, over at most this many.
fn crossed(
    scopes: &[Option<u32>],
    priorities: &[u32],
    low: u32,
    from: Option<u32>,
    most: u32,
) -> u32
    ensures { result ≡ crossed scopes.now priorities.now low most from }
{
    let mut greatest = 0;
    let mut at = from;
    for _ in 0..most {
        let Some(place) = at else {
            return greatest;
        };
        if place <= low {
            return greatest;
        }
        greatest = greatest.max(number_at(priorities, place));
        at = link_at(scopes, place);
    }
    greatest
}

/// Returns the share of the symbol at a place in the priority of a fixpoint: if it is the fixpoint's variable, the
/// greatest priority of the fixpoints between the two.
fn share(
    scopes: &[Option<u32>],
    fixpoints: &[Option<u32>],
    priorities: &[u32],
    fixpoint: u32,
    place: u32,
) -> u32
    ensures { result ≡ share_of scopes.now fixpoints.now priorities.now fixpoint place }
{
    match link_at(fixpoints, place) {
        Some(named) if named == fixpoint => {
            crossed(scopes, priorities, fixpoint, link_at(scopes, place), place)
        }
        _ => 0,
    }
}

/// Returns the greatest priority of a fixpoint inside this one that has its variable; 0 if there is none.
///
/// Its operand has this size. `variables` has the places of all variables after the fixpoint, the nearest one last.
fn inner_priority(
    scopes: &[Option<u32>],
    fixpoints: &[Option<u32>],
    priorities: &[u32],
    variables: &[u32],
    fixpoint: u32,
    size: u32,
) -> u32
    requires fits { fixpoint + 1 + size ≤ length fixpoints.now }
    requires few { length fixpoints.now < 2147483648 }
    requires variables { reverse variables.now ≡
        named_from fixpoints.now (fixpoint + 1) (length fixpoints.now - (fixpoint + 1)) }
    ensures { result ≡ greatest_share scopes.now fixpoints.now priorities.now fixpoint (fixpoint + 1) size }
{
    let end = fixpoint + 1 + size;
    let mut greatest = 0;
    for left in (0..variables.len()).rev() {
        let variable = variables[left];
        if variable >= end {
            return greatest;
        }
        greatest = greatest.max(share(scopes, fixpoints, priorities, fixpoint, variable));
    }
    greatest
}

/// Returns the least priority of this kind's parity that is at least this number.
fn next_priority(kind: Kind, least: u32) -> u32
    requires { least < 4294967295 }
    ensures { result ≡ next_priority (kind_of kind) least }
{
    let parity = match kind {
        Kind::Least => 1,
        Kind::Greatest => 0,
    };
    if least % 2 == parity {
        least
    } else {
        least + 1
    }
}

/// Returns the priority of the fixpoint at a place, from those after it; 0 for other symbols.
fn priority(
    symbol: Symbol,
    place: u32,
    sizes: &[u32],
    scopes: &[Option<u32>],
    fixpoints: &[Option<u32>],
    priorities: &[u32],
    variables: &[u32],
) -> u32
    requires fits { place + 1 + slice_index sizes.now (place + 1) ≤ length fixpoints.now }
    requires few { length fixpoints.now < 2147483648 }
    requires low { (k : ℕ) → slice_index priorities.now k < 4294967295 }
    requires variables { reverse variables.now ≡
        named_from fixpoints.now (place + 1) (length fixpoints.now - (place + 1)) }
    ensures { result ≡ priority_of sizes.now scopes.now fixpoints.now priorities.now place symbol }
{
    match symbol {
        Symbol::Fixpoint(kind) => {
            let size = number_at(sizes, place + 1);
            let inner = inner_priority(scopes, fixpoints, priorities, variables, place, size);
            next_priority(kind, inner)
        }
        _ => 0,
    }
}

/// Adds a place to those of variables, if a fixpoint is named there.
fn note(variables: &mut Vec<u32>, named: Option<u32>, place: u32) -> Result<(), AllocError>
    ensures { IfOk result (λ _. reverse variables.new.items ≡ noted named place (reverse variables.old.items)) }
{
    if named.is_some() {
        variables.push(place)?;
    }
    Ok(())
}

/// Returns the priority of each fixpoint; 0 for other symbols.
pub fn priorities(
    alloc: Global,
    symbols: &[Symbol],
    sizes: &[u32],
    scopes: &[Option<u32>],
    fixpoints: &[Option<u32>],
) -> Result<Vec<u32>, AllocError>
    requires few { length symbols.now < 2147483648 }
    requires sizes { sizes.now ≡ sizes_of symbols.now }
    requires fixpoints { length fixpoints.now ≡ length symbols.now }
    ensures { IfOk result
        (λ priorities. ArePriorities symbols.now sizes.now scopes.now fixpoints.now priorities.items 0) }
{
    let mut priorities = vec![in alloc; 0; symbols.len()]?;
    let mut variables = Vec::new(alloc);
    for place in (0..symbols.len()).rev() {
        let symbol = symbols[place];
        let at = place as u32;
        let priority = priority(
            symbol,
            at,
            sizes,
            scopes,
            fixpoints,
            &priorities,
            &variables,
        );
        priorities[place] = priority;
        note(&mut variables, link_at(fixpoints, at), at)?;
    }
    Ok(priorities)
}
