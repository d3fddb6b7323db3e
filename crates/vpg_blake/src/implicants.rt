//! Prime implicants, from a truth table.
ghost use Rattle.std.specs.Prelude.{◌≡◌, ◌≤◌, ◌++◌, ◌∷◌, [], ◌&&◌, map, zip, length, Bool, IfOk, OnOk};
ghost use Rattle.vpg_blake.specs.Blake.{Cube, cubes_in, unshared, with_literal};
ghost use Rattle.vpg_blake.specs.Tables.{both_true, table_implicants};

use crate::literal::Literal;
use std::alloc::{AllocError, Global};

/// Returns the rows that are true in both tables.
fn both_hold(alloc: Global, with: &[bool], without: &[bool]) -> Result<Vec<bool>, AllocError>
    ensures { IfOk result (λ v. v.items ≡ both_true with.now without.now) }
{
    with.iter()
        .zip(without)
        .map(|(one, other)| *one && *other)
        .collect(alloc)
}

/// Adds a cube with a literal in front, unless it is one of the shared ones.
fn push_other(
    mut cube: Vec<Literal>,
    shared: &[Vec<Literal>],
    literal: Literal,
    out: &mut Vec<Vec<Literal>>,
) -> Result<(), AllocError>
    ensures { OnOk result (cubes_in out.new.items ≡
        cubes_in out.old.items ++ with_literal literal (unshared (cube.items ∷ []) (cubes_in shared.now))) }
{
    if shared.contains(&cube) {
        return Ok(());
    }
    cube.insert(0, literal)?;
    out.push(cube)?;
    Ok(())
}

/// Adds each cube with a literal in front, but for the shared ones.
fn push_others(
    cubes: Vec<Vec<Literal>>,
    shared: &[Vec<Literal>],
    literal: Literal,
    out: &mut Vec<Vec<Literal>>,
) -> Result<(), AllocError>
    ensures { OnOk result (cubes_in out.new.items ≡
        cubes_in out.old.items ++ with_literal literal (unshared (cubes_in cubes.items) (cubes_in shared.now))) }
{
    for cube in cubes {
        push_other(cube, shared, literal, out)?;
    }
    Ok(())
}

/// Returns the prime implicants of a table's rows, by splitting on the first feature. First come those that need it in,
/// then those that need it out. Those that do without it are the prime implicants of the rows that are true either way.
pub(crate) fn implicants(
    alloc: Global,
    features: &[u16],
    table: &[bool],
) -> Result<Vec<Vec<Literal>>, AllocError>
    ensures { IfOk result (λ v. cubes_in v.items ≡ table_implicants features.now table.now) }
{
    let mut cubes = Vec::new(alloc);
    if !table.contains(&true) {
        return Ok(cubes);
    }
    let Some((first, rest)) = features.split_first() else {
        if table.first() == Some(&true) {
            cubes.push(Vec::new(alloc))?;
        }
        return Ok(cubes);
    };
    let feature = *first;
    let (with, without) = table.split_at(table.len() / 2);
    // The feature does not matter here, so the three tables below are one.
    if with == without {
        return implicants(alloc, rest, with);
    }
    let mut shared = implicants(alloc, rest, &both_hold(alloc, with, without)?)?;
    let ins = implicants(alloc, rest, with)?;
    let outs = implicants(alloc, rest, without)?;
    push_others(
        ins,
        &shared,
        Literal {
            feature,
            value: true,
        },
        &mut cubes,
    )?;
    push_others(
        outs,
        &shared,
        Literal {
            feature,
            value: false,
        },
        &mut cubes,
    )?;
    cubes.append(&mut shared)?;
    Ok(cubes)
}
