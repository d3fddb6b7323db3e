//! The fixpoints that parts stand in.
ghost use Rattle.std.specs.Prelude.{◌≡◌, ◌<◌, [], length, reverse, slice_index_or, IfOk};
ghost use Rattle.vpg_normal.specs.Scopes.{operands_of, scopes_from, walked, fixpoint_of, AreFixpoints};

use crate::look::link_at;
use std::alloc::{AllocError, Global};
use vpg_parts::Symbol;

/// Adds the scopes of the operands of a symbol to those that are awaited, the first operand's last.
fn await_operands(
    awaited: &mut Vec<Option<u32>>,
    symbol: Symbol,
    place: u32,
    scope: Option<u32>,
) -> Result<(), AllocError>
    ensures { IfOk result
        (λ _. reverse awaited.new.items ≡ operands_of symbol place scope (reverse awaited.old.items)) }
{
    match symbol {
        Symbol::True | Symbol::False | Symbol::Variable(_) => {}
        Symbol::And | Symbol::Or => {
            awaited.push(scope)?;
            awaited.push(scope)?;
        }
        Symbol::SomeStep(_) | Symbol::EveryStep(_) => awaited.push(scope)?,
        Symbol::Fixpoint(_) => awaited.push(Some(place))?,
    }
    Ok(())
}

/// Returns the innermost fixpoint around each symbol.
pub fn scopes(alloc: Global, symbols: &[Symbol]) -> Result<Vec<Option<u32>>, AllocError>
    requires { length symbols.now < 2147483648 }
    ensures { IfOk result (λ scopes. scopes.items ≡ scopes_from symbols.now 0 []) }
{
    let mut scopes = Vec::new(alloc);
    let mut awaited = Vec::new(alloc);
    for (place, symbol) in symbols.iter().enumerate() {
        let scope = awaited.pop().flatten();
        scopes.push(scope)?;
        await_operands(&mut awaited, *symbol, place as u32, scope)?;
    }
    Ok(scopes)
}

/// Returns the fixpoint that is this many others further out, from this one outwards.
fn outer(scopes: &[Option<u32>], from: Option<u32>, between: u32) -> Option<u32>
    ensures { result ≡ walked scopes.now between from }
{
    let mut at = from;
    for _ in 0..between {
        let place = at?;
        at = link_at(scopes, place);
    }
    at
}

/// Returns the fixpoint that the variable at a place names; none for other symbols.
fn fixpoint(symbol: Symbol, place: u32, scopes: &[Option<u32>]) -> Option<u32>
    ensures { result ≡ fixpoint_of scopes.now (slice_index_or scopes.now place None) symbol }
{
    match symbol {
        Symbol::Variable(between) => outer(scopes, link_at(scopes, place), between),
        _ => None,
    }
}

/// Returns the fixpoint that each variable names; none for other symbols.
pub fn fixpoints(
    alloc: Global,
    symbols: &[Symbol],
    scopes: &[Option<u32>],
) -> Result<Vec<Option<u32>>, AllocError>
    requires { length symbols.now < 2147483648 }
    ensures { IfOk result (λ fixpoints. AreFixpoints symbols.now scopes.now fixpoints.items) }
{
    let mut fixpoints = Vec::new(alloc);
    for (place, symbol) in symbols.iter().enumerate() {
        fixpoints.push(fixpoint(*symbol, place as u32, scopes))?;
    }
    Ok(fixpoints)
}
