//! The translation of requirements into normal forms.
//!
//! [`translate`] takes a system and the requirements that were read. It returns for each entry the symbols of its
//! positive normal form, and the sets of actions that the symbols name. There are no words, names, regular formulas and
//! negations in it: the layer above makes parts and games of the symbols.
//!
//! The code goes from the last mark of an entry on, and writes symbols only at the end of one list. The rest is on a
//! stack of symbols and tasks, so that nothing nests. A task is a formula inside fixpoints, after modalities; a
//! fixpoint made from a word or a star has no name. A normal form of more than 65,536 parts is refused as soon as that
//! is known.
//!
//! Definitions stand in `specs/`: `Translations` has those of the public contract. `Shapes` and `Trees` have the normal
//! form of a formula as a tree of marks. `Parsing`, `Terms`, `Actions`, `Naming`, `Tasks`, `Openings`, `Entries` and
//! `Whole` view the code's values; only private contracts name them.
//!
//! Trials: tests of `vpg_family_tests` (`family/models`), by the games of systems.
#![tactic(auto)]

mod naming;
mod opening;
mod piece;
mod sets;
mod task;
mod terms;
mod translation;
mod writing;

pub use translation::{Translation, TranslationFault, translate};
