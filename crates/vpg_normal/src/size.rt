//! The number of symbols of each operand.
ghost use Rattle.std.specs.Prelude.{◌≡◌, ℕ, ◌-◌, ◌<◌, ◌≤◌, length, slice_index, IfOk};
ghost use Rattle.vpg_normal.specs.Sizes.{size_of, sizes_of};

use crate::look::number_at;
use std::alloc::{AllocError, Global};
use vpg_parts::Symbol;

/// Returns the size of the operand that begins with this symbol, from the sizes of those that begin after it.
fn size(symbol: Symbol, behind: &[u32]) -> u32
    requires few { length behind.now < 2147483648 }
    requires within { (k : ℕ) → slice_index behind.now k ≤ length behind.now - k }
    ensures { result ≡ size_of symbol behind.now }
{
    match symbol {
        Symbol::True | Symbol::False | Symbol::Variable(_) => 1,
        Symbol::SomeStep(_) | Symbol::EveryStep(_) | Symbol::Fixpoint(_) => 1
            + number_at(behind, 0),
        Symbol::And | Symbol::Or => {
            let first = number_at(behind, 0);
            1 + first + number_at(behind, first)
        }
    }
}

/// Returns the size of the operand that begins at each symbol.
pub fn sizes(alloc: Global, symbols: &[Symbol]) -> Result<Vec<u32>, AllocError>
    requires { length symbols.now < 2147483648 }
    ensures { IfOk result (λ sizes. sizes.items ≡ sizes_of symbols.now) }
{
    let mut sizes = vec![in alloc; 0; symbols.len()]?;
    for place in (0..symbols.len()).rev() {
        let size = size(symbols[place], &sizes[place + 1..]);
        sizes[place] = size;
    }
    Ok(sizes)
}
