//! The rule of the shared words, and what their steps show.

use crate::lifter::Lifter;
use atomic_table::{Join, Play, Split, TableRule};
use vpg_measure::Order;

/// The words and the seats are a board that some run reached.
pub(crate) struct Keeps;

impl TableRule<(), Lifter, Order> for Keeps {
    ghost use Rattle.vpg_board.specs.Lifters.{opener};
    ghost use Rattle.vpg_board.specs.Steps.{IsBoard};

    ghost holds = { IsBoard };

    ghost first = { opener };
}

pub(crate) struct Load;

impl Play<(), Lifter> for Load {
    ghost use Rattle.vpg_board.specs.Steps.{Loads};

    ghost then = { Loads };
}

pub(crate) struct Raise;

impl Play<(), Lifter> for Raise {
    ghost use Rattle.vpg_board.specs.Steps.{Raises};

    ghost then = { Raises };
}

pub(crate) struct Claim;

impl Play<(), Lifter> for Claim {
    ghost use Rattle.vpg_board.specs.Steps.{Claims};

    ghost then = { Claims };
}

pub(crate) struct Look;

impl Play<(), Lifter> for Look {
    ghost use Rattle.vpg_board.specs.Steps.{Looks};

    ghost then = { Looks };
}

pub(crate) struct Halves;

impl Split<Lifter> for Halves {
    ghost use Rattle.vpg_board.specs.Lifters.{splits, newcomer};

    ghost left = { splits };

    ghost right = { newcomer };
}

pub(crate) struct Both;

impl Join<Lifter> for Both {
    ghost use Rattle.vpg_board.specs.Lifters.{both, spent};

    ghost both = { both };

    ghost spent = { spent };
}
