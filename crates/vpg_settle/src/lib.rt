//! The policy of settling: how an order is swept until it is settled, or for a number of sweeps.
//!
//! `swept` is the work of a script's lines `settle` and `harvest` on an order. A settled order stays as it is. Else
//! tables of zeros are swept once: that settles a simple game. If it doesn't, and if a page was settled before, the
//! tables are raised by certified guesses, and swept on from there. `BUDGET` limits how much a guess may look at, and
//! `MANY_SWEEPS` says when a line of many sweeps gives up. The harvest is lawful whatever the policy does: this crate
//! decides about time, and no layer above or below does.
//!
//! The harvests of sweeps are defined in `specs/Sweeping`. It is this project's own.
//!
//! Trials: tests of `vpg_lifting_tests` (`climbing`, `policy`, `sweeps`).
#![tactic(auto)]

mod sweeping;

pub use sweeping::{
    BUDGET, FEW_SWEEPS, FIRST_SWEEPS, LAST_SWEEPS, MANY_SWEEPS, SweptHarvest, sweep_often, swept,
};
