//! The vertices that lifts raise.
use crate::ground::{kept_in, owner_in, priority_in};
use vpg_hope::Arena;
use vpg_sides::Player;
use vpg_values::{Scale, value_in};

/// Whether a lift raises a vertex whose value is a number over some edge. The scale is the arena's for Even, so its
/// priorities are read there, beside the owner. It takes no division, so it is faster than a lift.
#[inline(always)]
pub(crate) fn would_rise(even: &Scale, arena: &Arena, table: &[u64], v: u32) -> bool {
    let best = best_in(even, table, owner_in(arena, v), kept_in(arena, v));
    even.limit_at(priority_in(arena, v), value_in(table, v)) <= best
}

// The value that a vertex's owner moves to, if it has these successors.
#[inline(always)]
fn best_in(even: &Scale, table: &[u64], owner: Player, successors: &[u32]) -> u64 {
    match owner {
        Player::Even => least_in(table, successors, even.top),
        Player::Odd => greatest_in(table, successors),
    }
}

fn least_in(table: &[u64], vertices: &[u32], top: u64) -> u64 {
    let mut least = top;
    for v in vertices {
        least = least.min(value_in(table, *v));
    }
    least
}

fn greatest_in(table: &[u64], vertices: &[u32]) -> u64 {
    let mut greatest = 0;
    for v in vertices {
        greatest = greatest.max(value_in(table, *v));
    }
    greatest
}
