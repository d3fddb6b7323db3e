//! The family of two vertices that trials begin with, and what is made of the texts of a family: its diagram, its game,
//! and orders of decisions.
//!
//! Tests and programs of the gate use it. Features are numbered in the diagram's order: r is 0, f is 1, g is 2.
#![tactic(auto)]

mod family;
mod orders;

pub use family::{
    ALTERNATIVE, CONTRADICTORY, DIAGRAM, F, G, GAME, Lone, diagram_of, game_of, lone_game, shared,
};
pub use orders::{are_below, fit, order_of};
