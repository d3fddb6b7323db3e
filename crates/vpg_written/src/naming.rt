//! Names of variables and of entries.
ghost use Rattle.std.specs.Prelude.{◌≡◌, ◌<◌, ◌≤◌, [], true, length, bytes_eq, slice_index_or, IfOk, IfSome};
ghost use Rattle.vpg_written.specs.Trees.{place_of};
ghost use Rattle.vpg_written.specs.Naming.{around_of, is_binder, names_of, latest_before};

use crate::task::{Binder, Term};
use std::alloc::{AllocError, Global};

/// Whether two texts are the same.
pub(crate) fn is_same(a: &[u8], b: &[u8]) -> bool
    ensures { result ≡ bytes_eq a.now b.now }
{
    a == b
}

/// Whether a fixpoint has this name.
fn is_named(binder: Binder, name: &[u8]) -> bool
    ensures { result ≡ is_binder binder.entry name.now }
{
    match binder {
        Binder::Hidden => false,
        Binder::Named(other) => is_same(name, other),
    }
}

/// Returns the number of the variable of this name.
pub(crate) fn variable(scope: &[Binder], name: &[u8]) -> Option<usize>
    ensures { result ≡ place_of (around_of scope.now) 0 name.now }
{
    let mut rest = scope;
    let mut number = 0;
    while let [outer @ .., inner] = rest {
        if is_named(*inner, name) {
            return Some(number);
        }
        number += 1;
        rest = outer;
    }
    None
}

/// Whether the entry of this number has this name.
fn has_name(terms: &[Term], number: usize, name: &[u8]) -> bool
    ensures within { result ≡ true → number < length terms.now }
    ensures same { number < length terms.now →
        result ≡ bytes_eq name.now (slice_index_or (names_of terms.now) number []) }
{
    match terms.get(number) {
        Some(term) => is_same(name, term.name),
        None => false,
    }
}

/// Returns the number of the latest entry of this name before one.
pub(crate) fn latest(terms: &[Term], entry: usize, name: &[u8]) -> Option<usize>
    ensures earlier { IfSome result (λ n. n < entry) }
    ensures below { IfSome result (λ n. n < length terms.now) }
    ensures found { entry ≤ length terms.now → result ≡ latest_before (names_of terms.now) entry name.now }
{
    let mut number = entry;
    while number > 0 {
        number -= 1;
        if has_name(terms, number, name) {
            return Some(number);
        }
    }
    None
}

/// Returns a copy of the fixpoints.
pub(crate) fn copied<'m>(alloc: Global, scope: &[Binder<'m>]) -> Result<Vec<Binder<'m>>, AllocError>
    ensures { IfOk result (λ s. s.items ≡ scope.now) }
{
    let mut copy = Vec::new(alloc);
    copy.extend_from_slice(scope)?;
    Ok(copy)
}
