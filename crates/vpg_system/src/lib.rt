//! Featured transition systems, read from their text and written.
//!
//! A featured transition system (Classen et al. 2010) is the behaviour of a product line: states, and transitions with
//! an action and a guard over features. The system of a product has the transitions whose guard is true in it. The text
//! is that of the Aldebaran format, as CADP and mCRL2 write it; a guard in brackets at a label's end is an addition.
//!
//! The crates above use `System`: `read` and `write`, its first state and its number of states, its transitions in the
//! order of the text, and the names of its actions. Actions are numbered in the order of their first use.
//!
//! Definitions stand in `specs/`: `SystemText` (which text spells a system); `TextFaults` (which fault a text has);
//! `System` (properties of every system that is read); `Writing` (the one writing of a system); `SystemView` (the
//! code's transitions as those of the definitions); `Coding` (systems as lists of numbers, for models that hold them);
//! `Laws` (statements of the laws of the module `laws`). `SystemReading` and `ReadCode` are the reader as a function on
//! lists; only private contracts name them.
//!
//! Trials: rows of `vpg_text_rows/data/systems`.
#![tactic(auto)]

mod actions;
mod fault;
mod form;
pub mod laws;
mod reading;
mod system;
mod text;
mod transition;
mod writing;

pub use fault::SystemFault;
pub use reading::{MOST_STATES, MOST_TRANSITIONS};
pub use system::System;
pub use transition::Transition;
