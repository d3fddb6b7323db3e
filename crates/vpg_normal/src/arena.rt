//! Parts of requirements in one list.
ghost use Rattle.std.specs.Prelude.{◌≡◌, ◌+◌, ◌<◌, ◌≤◌, List, length, slice_index, All, IfOk};
ghost use Rattle.std.specs.List.{AllZip};
ghost use Rattle.vpg_requirement.specs.Actions.{ActionFormula};
ghost use Rattle.vpg_requirement.specs.NormalForms.{NormalForm};
ghost use Rattle.vpg_requirement.specs.Priorities.{with_priorities, IsClosedBelow};
ghost use Rattle.vpg_parts.specs.Parts.{HasConstants};
ghost use Rattle.vpg_parts.specs.Symbols.{IsSpelled};
ghost use Rattle.vpg_normal.specs.Standing.{StandsAt};
ghost use Rattle.vpg_normal.specs.Sizes.{sizes_of};
ghost use Rattle.vpg_normal.specs.Placing.{all_symbols, starts_from, part_of, AreParts};

use crate::look::{link_at, number_at};
use crate::rank::priorities;
use crate::scope::{fixpoints, scopes};
use crate::size::sizes;
use std::alloc::{AllocError, Global};
use vpg_parts::{Part, Spelling, Symbol};

/// The parts of requirements, all in one list, and the place of each requirement's root.
#[derive(Drop)]
pub struct Arena {
    pub parts: Vec<Part>,
    pub roots: Vec<u32>,
}

/// The symbols of normal forms in one list, and the place at which each begins.
#[derive(Drop)]
struct Joined {
    symbols: Vec<Symbol>,
    roots: Vec<u32>,
}

/// Returns the symbols of all normal forms, after `true` and `false`.
fn join(alloc: Global, forms: &[Spelling]) -> Result<Joined, AllocError>
    requires few { length forms.now ≤ 64 }
    requires short { All (λ ss. length ss ≤ 65536) forms.now }
    ensures symbols { IfOk result (λ joined. joined.symbols.items ≡ all_symbols forms.now) }
    ensures roots { IfOk result (λ joined. joined.roots.items ≡ starts_from 2 forms.now) }
    ensures few { IfOk result (λ joined. length joined.symbols.items < 2147483648) }
{
    let mut symbols = vec![in alloc; Symbol::True, Symbol::False]?;
    let mut roots = Vec::new(alloc);
    for form in forms {
        roots.push(symbols.len() as u32)?;
        symbols.extend_from_slice(&form.symbols)?;
    }
    Ok(Joined { symbols, roots })
}

/// Returns the part at the place of this symbol.
fn part(
    symbol: Symbol,
    place: u32,
    sizes: &[u32],
    fixpoints: &[Option<u32>],
    priorities: &[u32],
) -> Part
    requires { place + 1 + slice_index sizes.now (place + 1) < 4294967296 }
    ensures { result ≡ part_of sizes.now fixpoints.now priorities.now place symbol }
{
    let first = place + 1;
    match symbol {
        Symbol::True => Part::True,
        Symbol::False => Part::False,
        Symbol::And => Part::And(first, first + number_at(sizes, first)),
        Symbol::Or => Part::Or(first, first + number_at(sizes, first)),
        Symbol::SomeStep(set) => Part::SomeStep(set, first),
        Symbol::EveryStep(set) => Part::EveryStep(set, first),
        Symbol::Fixpoint(kind) => Part::Fixpoint {
            kind,
            priority: number_at(priorities, place),
            body: first,
        },
        Symbol::Variable(_) => match link_at(fixpoints, place) {
            Some(fixpoint) => Part::Variable { fixpoint },
            None => Part::False,
        },
    }
}

/// Returns the parts of these symbols.
fn parts(
    alloc: Global,
    symbols: &[Symbol],
    sizes: &[u32],
    fixpoints: &[Option<u32>],
    priorities: &[u32],
) -> Result<Vec<Part>, AllocError>
    requires few { length symbols.now < 2147483648 }
    requires sizes { sizes.now ≡ sizes_of symbols.now }
    ensures { IfOk result (λ parts. AreParts symbols.now sizes.now fixpoints.now priorities.now parts.items) }
{
    let mut parts = Vec::new(alloc);
    for (place, symbol) in symbols.iter().enumerate() {
        parts.push(part(*symbol, place as u32, sizes, fixpoints, priorities))?;
    }
    Ok(parts)
}

/// Returns the parts of normal forms, in one list, with the least priorities under which their games decide them.
///
/// If symbols spell no normal form, the parts are some parts.
pub fn parts_of(alloc: Global, forms: &[Spelling]) -> Result<Arena, AllocError>
    requires few { length forms.now ≤ 64 }
    requires short { All (λ ss. length ss ≤ 65536) forms.now }
    ensures constants { IfOk result (λ arena. HasConstants arena.parts.items) }
    ensures roots { IfOk result (λ arena. length arena.roots.items ≡ length forms.now) }
    // Each root stands for its normal form with priorities.
    ensures stand { IfOk result (λ arena. (actions : List ActionFormula) (fs : List NormalForm) →
        AllZip (IsSpelled actions) fs forms.now → All (IsClosedBelow 0) fs →
        AllZip (λ k f. StandsAt arena.parts.items actions k (with_priorities f)) arena.roots.items fs) }
{
    let Joined { symbols, roots } = join(alloc, forms)?;
    let sizes = sizes(alloc, &symbols)?;
    let scopes = scopes(alloc, &symbols)?;
    let fixpoints = fixpoints(alloc, &symbols, &scopes)?;
    let priorities = priorities(alloc, &symbols, &sizes, &scopes, &fixpoints)?;
    let parts = parts(alloc, &symbols, &sizes, &fixpoints, &priorities)?;
    Ok(Arena { parts, roots })
}
