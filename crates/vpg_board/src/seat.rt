//! Seats: the right to step on a board.

use crate::lifter::Lifter;
use std::marker::Model;
use thiserror::Error;

/// The refusal of a further split: this is not the opening seat, or it was split 63 times.
#[derive(Clone, Copy, Debug, PartialEq, Eq, Error)]
#[error("TooManyLifters")]
pub struct TooManyLifters;

/// The seat as the shared words have it.
pub(crate) type Inner = atomic_table::Seat<(), Lifter>;

/// The right of one thread to load, claim and raise on one board. It may be moved to another thread.
///
/// Contracts see the board that it belongs to and its lifter, which is its knowledge.
#[derive(Drop)]
pub struct Seat {
    pub(crate) inner: Inner,
    pub(crate) opening: bool,
    pub(crate) splits: u64,
    // whether a claim found none left
    pub(crate) done: bool,
}

impl Model for Seat {
    ghost use Rattle.std.specs.Coded.{codes};
    ghost use Rattle.vpg_diagram.specs.Coding.{rule_code};
    ghost use Rattle.vpg_game.specs.Coding.{game_code};
    ghost use Rattle.std.specs.Prelude.{◌≡◌, []};
    ghost use Rattle.vpg_board.specs.Seats.{SeatView, IsSeat};

    ghost Value = { SeatView };

    ghost coded = { Prim.hlevel (codes, game_code, rule_code) };

    ghost view = { λ s. record { board = record { table = s.inner.table_id; order = s.inner.me.0.order }; lifter = s.inner.me.0 } };

    ghost invariant = { λ s. (s.inner.me.1 ≡ []) × IsSeat s.inner.table_id s.inner.me.0 s.opening s.splits s.done };
}
