//! Guards with a three-valued value that is known as early as it can be.
ghost use Rattle.std.specs.Prelude.{◌≡◌, ◌↔◌, IsTrue, List, Bool, IfOk};
ghost use Rattle.vpg_guards.specs.Formula.{truth, named};
ghost use Rattle.vpg_guards.specs.View.{formula_of};
ghost use Rattle.vpg_guards.specs.Writing.{IsReadable};
ghost use Rattle.vpg_blake.specs.Blake.{IsShort};
ghost use Rattle.vpg_blake.specs.Sharp.{IsSharp, AreDifferent};

use crate::form::blake_form;
use std::alloc::{AllocError, Global};
use vpg_guards::Guard;

/// Whether no number occurs twice.
fn are_different(numbers: &[u16]) -> bool
    ensures { IsTrue result ↔ AreDifferent numbers.now }
{
    for i in 0..numbers.len() {
        if numbers[..i].contains(&numbers[i]) {
            return false;
        }
    }
    true
}

/// Returns the guard in a form with a three-valued value that is known wherever all products that agree with what is
/// known agree on the guard.
///
/// A guard that names no feature twice has this form already, and is returned unchanged. Any other is returned in
/// Blake's form, unless that would be too long (`blake_form`).
pub fn sharp_form(alloc: Global, guard: Guard, features: usize) -> Result<Guard, AllocError>
    requires { IsReadable features (formula_of guard) }

    // It is as true in each product.
    ensures truth { IfOk result (λ made. (set : List Bool) →
        truth set (formula_of made) ≡ truth set (formula_of guard)) }

    // Its three-valued value is known as early as it can be, unless it is too long for Blake's form.
    ensures sharp { IfOk result (λ made. IsShort features (formula_of made) → IsSharp (formula_of made)) }

    // A guard that names no feature twice stays as it is.
    ensures kept { AreDifferent (named (formula_of guard)) → IfOk result (λ made. formula_of made ≡ formula_of guard) }

    // It can be written and read again.
    ensures readable { IfOk result (λ made. IsReadable features (formula_of made)) }
{
    let mut named = Vec::new(alloc);
    guard.push_features(&mut named)?;
    if are_different(&named) {
        return Ok(guard);
    }
    blake_form(alloc, guard, features)
}
