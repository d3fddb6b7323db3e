//! Requirements, read from text.
//!
//! A requirement is a formula of the modal mu-calculus as mCRL2 writes it, without data, or in this project's words
//! (`always`, `after pay will serve`). `Requirements::read` reads a whole text of them, `parse_formula` one formula
//! alone, and `parse_regular` the text between `<` and `>`. The result is a list of `Mark`s, operands first, so that
//! nothing nests.
//!
//! In a whole text each name in a formula is bound there, under an even number of negations within its fixpoint, or it
//! is an earlier entry's. `parse_formula` does not ask what names stand for.
//!
//! `action_words` are the words of a text that belong to action and regular formulas, each with its place, and
//! `label` the action that one names.
//!
//! Definitions stand in `specs/`: `Words` (which words a text has), `Places` (where they begin), `Regular` and
//! `RegularGrammar` (action and regular formulas), `Written` and `FormulaGrammar` (formulas), `Standings` (how the
//! names of a formula stand), `Naming` (which words are names), `ActionWords` (which belong to action formulas),
//! `Requirements` (whole texts), `Stops` (where a formula stops), `Faults` (where a text is faulty), `Marks` (a formula
//! as a list). `Reading` and `EntryReading` are the reader as functions on lists, `Needs` is how a fault is searched
//! for; `ReadCode`, `EntryCode`, `NamingCode`, `NeedsCode`, `FaultCode` and `ActionCode` are what the code keeps. Only
//! private contracts name them.
//!
//! Trials: tests of `vpg_family_tests` (`family/models`).
#![tactic(auto)]

mod acts;
mod fault;
mod formula;
mod head;
mod joint;
mod level;
mod mark;
mod mentions;
mod needs;
mod parse;
mod regular;
mod requirement;
mod stop;
mod uses;
mod words;

pub use acts::{PlacedWord, action_words};
pub use fault::{FormulaFault, RequirementFault};
pub use mark::{Label, Mark, Name};
pub use parse::{Formula, Regular, parse_formula, parse_regular};
pub use regular::label;
pub use requirement::{Entry, Requirements};
