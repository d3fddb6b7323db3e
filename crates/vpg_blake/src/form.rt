//! Blake's form.
ghost use Rattle.std.specs.Prelude.{◌≡◌, ℕ, List, Bool, Contains, IfOk, MatchOption};
ghost use Rattle.vpg_guards.specs.declared.tri.Tri.{Tri};
ghost use Rattle.vpg_guards.specs.Formula.{truth, named, IsBelow};
ghost use Rattle.vpg_guards.specs.Known.{kleene};
ghost use Rattle.vpg_guards.specs.View.{formula_of};
ghost use Rattle.vpg_guards.specs.Writing.{IsReadable};
ghost use Rattle.vpg_blake.specs.Blake.{blake, IsShort, IsCertain, tri_of};

use crate::implicants::implicants;
use crate::making::disjunction;
use crate::table::{named_features, push_rows};
use std::alloc::{AllocError, Global};
use vpg_guards::Guard;

/// The greatest number of features in a guard that is brought into Blake's form. The work grows with 3 to their number.
pub const MOST_NAMED: usize = 6;

/// The greatest number of prime implicants in Blake's form. A longer form would serve no reader, and be slow in each
/// evaluation.
pub const MOST_IMPLICANTS: usize = 64;

/// Returns the `or` of the guard's prime implicants, unless the guard names too many features or has too many of them.
fn short_form(alloc: Global, guard: &Guard, features: usize) -> Result<Option<Guard>, AllocError>
    requires { IsBelow features (formula_of guard.now) }
    ensures { IfOk result (λ made. MatchOption made (IsShort features (formula_of guard.now) → ⊥)
        (λ form. IsShort features (formula_of guard.now) × (formula_of form ≡ blake features (formula_of guard.now)))) }
{
    let named = named_features(alloc, guard, features)?;
    if MOST_NAMED < named.len() {
        return Ok(None);
    }
    let set = vec![in alloc; false; features]?;
    let mut table = Vec::new(alloc);
    push_rows(alloc, guard, &named, &set, &mut table)?;
    let cubes = implicants(alloc, &named, &table)?;
    if MOST_IMPLICANTS < cubes.len() {
        return Ok(None);
    }
    Ok(Some(disjunction(alloc, &cubes)?))
}

/// Returns Blake's form of a guard over this many features: the `or` of its prime implicants. A guard is returned
/// unchanged if it names more than `MOST_NAMED` features, or has more than `MOST_IMPLICANTS` prime implicants.
///
/// The implicants come in a fixed order: those that need the first feature in, those that need it out, those that do
/// without it, and so on by the next features. A guard that is always true becomes `true`, one that never is `false`.
pub fn blake_form(alloc: Global, guard: Guard, features: usize) -> Result<Guard, AllocError>
    requires { IsReadable features (formula_of guard) }

    // It is the `or` of the prime implicants, unless that would be too long.
    ensures form { IsShort features (formula_of guard) →
        IfOk result (λ made. formula_of made ≡ blake features (formula_of guard)) }
    ensures kept { (IsShort features (formula_of guard) → ⊥) →
        IfOk result (λ made. formula_of made ≡ formula_of guard) }

    // It is as true in each product.
    ensures truth { IfOk result (λ made. (set : List Bool) →
        truth set (formula_of made) ≡ truth set (formula_of guard)) }

    // It names no feature that the guard does not name.
    ensures named { IfOk result (λ made. (f : ℕ) →
        Contains (named (formula_of made)) f → Contains (named (formula_of guard)) f) }

    // Its three-valued value is known wherever all products that agree with what is known agree on the guard.
    ensures sharp { IsShort features (formula_of guard) → IfOk result (λ made. (known : List Tri) (b : Bool) →
        IsCertain known (formula_of guard) b → kleene known (formula_of made) ≡ tri_of b) }

    // It can be written and read again.
    ensures readable { IfOk result (λ made. IsReadable features (formula_of made)) }
{
    match short_form(alloc, &guard, features)? {
        Some(form) => Ok(form),
        None => Ok(guard),
    }
}
