//! The knowledge of a lifter about its board.

use std::collections::LinkedList;
use vpg_measure::Order;

/// The knowledge of a lifter before it was joined with another.
pub struct Part {
    /// The values of both tables that it had seen.
    pub seen: LinkedList<u64>,
    /// The places that it had claimed.
    pub claims: LinkedList<u64>,
    /// The number of its claims when no place was left.
    pub empty: u64,
    /// The number of its splits.
    pub splits: u64,
    /// The number of seats that it stood for.
    pub stands: u64,
    /// Whether it was the opening one, or had merged that.
    pub opening: bool,
}

/// A join: the knowledge of both lifters before it. `one` merged `other`.
pub struct Joined {
    pub one: Part,
    pub other: Part,
}

/// The knowledge of a seat, for proofs alone: no value of it is ever made. `specs/Lifters` says what each step changes.
pub struct Lifter {
    /// The order that its board is of.
    pub order: Order,
    /// The values of both tables that it has seen, one table after the other.
    pub seen: LinkedList<u64>,
    /// The places that it claimed, in the order of claiming.
    pub claims: LinkedList<u64>,
    /// The number of its claims when no place was left.
    pub empty: u64,
    /// The number of its splits.
    pub splits: u64,
    /// The number of seats that it stands for: itself, and those that it merged.
    pub stands: u64,
    /// Whether it is the opening one, or merged that.
    pub opening: bool,
    /// Its joins, the last one first, and those of the lifters that it merged.
    pub joins: LinkedList<Joined>,
}
