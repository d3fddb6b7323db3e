//! The levels of a game, and the number of its top measure.
ghost use Rattle.std.specs.Prelude.{◌≡◌, ℕ, ◌+◌, ◌*◌, ◌%◌, ◌^◌, ◌<◌, ◌≤◌, List, length, IfOk, SomeIff, vec_len};
ghost use Rattle.vpg_game.specs.Levels.{top_of, levels_of, bound_of, AreOddCounts};

use std::alloc::{AllocError, Global};

/// An odd priority that occurs, and at how many vertices.
#[derive(Clone, Copy, Debug, PartialEq, Eq)]
pub struct Level {
    pub priority: u32,
    pub count: u64,
}

/// The greatest number of a top measure.
pub const TOP_LIMIT: u64 = 4_611_686_018_427_387_904;

/// Returns one more than the greatest priority.
pub fn bound(priorities: &[u32]) -> usize
    ensures bound { result ≡ bound_of priorities.now }
    ensures limit { result ≤ 2 ^ 32 }
{
    let mut bound = 0;
    for p in priorities {
        bound = bound.max(*p as usize + 1);
    }
    bound
}

/// Returns how often each odd priority occurs, by priority.
pub fn odd_counts(alloc: Global, priorities: &[u32]) -> Result<Vec<u64>, AllocError>
    ensures counts { IfOk result (λ counts. AreOddCounts priorities.now counts.items) }
    ensures limit { IfOk result (λ counts. vec_len counts ≤ 2 ^ 32) }
{
    let mut counts = vec![in alloc; 0u64; bound(priorities)]?;
    for p in priorities {
        if *p % 2 == 1 {
            counts[*p as usize] += 1;
        }
    }
    Ok(counts)
}

/// Returns the number of the top measure over these priorities, if it is within the limit.
pub fn top_within_limit(alloc: Global, priorities: &[u32]) -> Result<Option<u64>, AllocError>
    ensures { IfOk result (λ top.
        SomeIff top (top_of (levels_of priorities.now) ≤ TOP_LIMIT) (top_of (levels_of priorities.now))) }
{
    let counts = odd_counts(alloc, priorities)?;
    let mut top = 1;
    for count in &counts {
        if TOP_LIMIT / top <= *count {
            return Ok(None);
        }
        top *= *count + 1;
    }
    Ok(Some(top))
}
