//! The picture of a featured transition system on a page, in Graphviz's language (DOT).
//!
//! `draw_system` draws a circle for each state, and arrows for the transitions. They are solid if the guard is true in
//! each product left, dashed if it is open, dotted if it is false in each. Transitions between the same two states that
//! look alike are on one arrow, each in a line of its label. The same arguments give the same text, byte for byte, and
//! no text that comes in can leave its quotes. `reachable` finds the states that can be reached over transitions that
//! may be there; the others are grey. A trace may be marked: `Marks::of` returns the marks of its steps and ends.
//!
//! `specs/SystemDrawing` defines the picture, `specs/Arrows` the arrows and their labels, `specs/Reached` the states
//! that can be reached, and `specs/Traced` the marks of a trace. `specs/Laws` has the statements of the laws in `laws`,
//! on the meaning of arrows for products. `specs/Searched` has words for private functions. Labels and styles are those
//! of pictures of games, of the crate below.
//!
//! Trials: rows of `vpg_text_rows/data/pictures`, scripts of `vpg_examples` (`scripts/drawn`).
#![tactic(auto)]

mod arrows;
mod labels;
pub mod laws;
mod marks;
mod picture;
mod reached;
mod transitions;

pub use marks::{Marks, Path, Step};
pub use picture::draw_system;
pub use reached::{reachable, reachable_by_any};
