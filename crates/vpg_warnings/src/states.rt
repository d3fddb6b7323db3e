//! States that cannot be reached.
ghost use Rattle.std.specs.Prelude.{◌≡◌, IfOk, map, not};
ghost use Rattle.vpg_warnings.specs.States.{AreUnreached};

use crate::numbers::numbers_of;
use std::alloc::{AllocError, Global};
use vpg_system::System;
use vpg_system_draw::reachable_by_any;

/// Returns for each mark whether it is false.
fn unmarked(alloc: Global, marks: &[bool]) -> Result<Vec<bool>, AllocError>
    ensures { IfOk result (λ others. others.items ≡ map not marks.now) }
{
    marks.iter().map(|is_marked| !*is_marked).collect(alloc)
}

/// Returns the states that no transitions lead to from the first state, whatever their guards, in the order of their
/// numbers.
pub fn unreached_states(alloc: Global, system: &System) -> Result<Vec<usize>, AllocError>
    ensures { IfOk result (λ states. AreUnreached system.now states.items) }
{
    let reached = reachable_by_any(alloc, system)?;
    let others = unmarked(alloc, &reached)?;
    let states = numbers_of(alloc, &others)?;
    Ok(states)
}
