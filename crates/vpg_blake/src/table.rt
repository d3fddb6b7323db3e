//! The features that a guard names, and its truth table.
ghost use Rattle.std.specs.Prelude.{◌≡◌, ◌<◌, ◌++◌, ◌==◌, true, length, find, slice_set, All, IfOk, OnOk};
ghost use Rattle.vpg_guards.specs.Formula.{IsBelow};
ghost use Rattle.vpg_guards.specs.View.{formula_of};
ghost use Rattle.vpg_blake.specs.Blake.{named_below};
ghost use Rattle.vpg_blake.specs.Tables.{table_from};

use std::alloc::{AllocError, Global};
use vpg_guards::Guard;

/// Returns the feature of this number, if it is one of these.
fn find_feature(named: &[u16], feature: usize) -> Option<u16>
    ensures { result ≡ find (λ h. h == feature) named.now }
{
    for one in named {
        if usize::from(*one) == feature {
            return Some(*one);
        }
    }
    None
}

/// Returns the features that the guard names, ascending, each once; those from `features` on are left out.
pub(crate) fn named_features(
    alloc: Global,
    guard: &Guard,
    features: usize,
) -> Result<Vec<u16>, AllocError>
    ensures { IfOk result (λ v. v.items ≡ named_below features (formula_of guard.now)) }
{
    let mut named = Vec::new(alloc);
    guard.push_features(&mut named)?;
    let mut ascending = Vec::new(alloc);
    for feature in 0..features {
        if let Some(one) = find_feature(&named, feature) {
            ascending.push(one)?;
        }
    }
    Ok(ascending)
}

/// Returns a copy of the set, with a feature in.
fn with_feature(alloc: Global, set: &[bool], feature: u16) -> Result<Vec<bool>, AllocError>
    requires { feature < length set.now }
    ensures { IfOk result (λ v. v.items ≡ slice_set set.now feature true) }
{
    let mut with = Vec::from_slice(alloc, set)?;
    with[feature as usize] = true;
    Ok(with)
}

/// Adds the truth of the guard for each choice of the features; those with the first feature in come first. The other
/// features are as in the set, and so are chosen features that the choice has out.
pub(crate) fn push_rows(
    alloc: Global,
    guard: &Guard,
    features: &[u16],
    set: &[bool],
    table: &mut Vec<bool>,
) -> Result<(), AllocError>
    requires below { IsBelow (length set.now) (formula_of guard.now) }
    requires within { All (λ f. f < length set.now) features.now }
    ensures { OnOk result (table.new.items ≡
        table.old.items ++ table_from (formula_of guard.now) features.now set.now) }
{
    let Some((first, rest)) = features.split_first() else {
        table.push(guard.eval(set))?;
        return Ok(());
    };
    let with = with_feature(alloc, set, *first)?;
    push_rows(alloc, guard, rest, &with, table)?;
    push_rows(alloc, guard, rest, set, table)?;
    Ok(())
}
