//! Guards from cubes.
ghost use Rattle.std.specs.Prelude.{◌≡◌, IfOk};
ghost use Rattle.vpg_guards.specs.View.{formula_of, formulas_of};
ghost use Rattle.vpg_blake.specs.Blake.{cubes_in, literal_formula, cube_formula, disjunction, and_of, or_of};

use crate::literal::Literal;
use std::alloc::{AllocError, Global};
use vpg_guards::{Guard, Guards};

/// Returns a literal as a guard.
fn literal_guard(alloc: Global, literal: &Literal) -> Result<Guard, AllocError>
    ensures { IfOk result (λ g. formula_of g ≡ literal_formula literal.now) }
{
    let feature = Guard::Feature(literal.feature);
    if literal.value {
        Ok(feature)
    } else {
        Ok(Guard::Not(Box::new(alloc, feature)?))
    }
}

/// Returns the `and` of guards: the guard itself if it is one, `true` if there is none.
fn all_of(mut parts: Vec<Guard>) -> Guard
    ensures { formula_of result ≡ and_of (formulas_of parts.items) }
{
    if 1 < parts.len() {
        return Guard::All(Guards::new(parts));
    }
    match parts.pop() {
        Some(part) => part,
        None => Guard::Always,
    }
}

/// Returns the `or` of guards: the guard itself if it is one, `false` if there is none.
fn any_of(mut parts: Vec<Guard>) -> Guard
    ensures { formula_of result ≡ or_of (formulas_of parts.items) }
{
    if 1 < parts.len() {
        return Guard::Any(Guards::new(parts));
    }
    match parts.pop() {
        Some(part) => part,
        None => Guard::Never,
    }
}

/// Returns a cube as a guard.
fn cube_guard(alloc: Global, cube: &[Literal]) -> Result<Guard, AllocError>
    ensures { IfOk result (λ g. formula_of g ≡ cube_formula cube.now) }
{
    let mut parts = Vec::with_capacity(alloc, cube.len())?;
    for literal in cube {
        parts.push(literal_guard(alloc, literal)?)?;
    }
    Ok(all_of(parts))
}

/// Returns the `or` of cubes as a guard.
pub(crate) fn disjunction(alloc: Global, cubes: &[Vec<Literal>]) -> Result<Guard, AllocError>
    ensures { IfOk result (λ g. formula_of g ≡ disjunction (cubes_in cubes.now)) }
{
    let mut parts = Vec::with_capacity(alloc, cubes.len())?;
    for cube in cubes {
        parts.push(cube_guard(alloc, cube)?)?;
    }
    Ok(any_of(parts))
}
