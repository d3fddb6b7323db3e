//! The meaning of a requirement in a transition system, and the game that decides it: definitions and laws alone.
//!
//! A family has one system, whose transitions have guards; each product has a plain system, with the transitions whose
//! guard is true in it. A requirement is a formula of the modal mu-calculus. From the two a guarded game is made. Its
//! vertices are situations: a state, a part of the formula, and the fixpoints that the part stands in. In each product
//! Even wins that game exactly if the formula holds in the product's system, and Odd exactly if it does not.
//!
//! The layers above read systems and formulas, build such games, and state what a desk's verdicts mean for them. They
//! use the definitions, and the laws in [`laws`]. This crate knows no texts.
//!
//! Definitions: `specs/Systems` and `specs/Actions` (featured transition systems, after Classen et al. 2010);
//! `specs/Formulas` (formulas and their meaning, `Means`) over `specs/Fixpoints` (by the theorem of Knaster and Tarski,
//! after Kozen 1983); `specs/Words` (words for common formulas, and their meaning on the graph). Games are made from
//! `specs/NormalForms` and `specs/Priorities`; `specs/Situations` has the game of a plain system, `specs/Building` that
//! of a family, and `specs/Construction` the proof that there is one. `specs/Laws` has the theorem, and `specs/Example`
//! an example.
//!
//! No code runs here, so there are no trials.
#![tactic(auto)]

pub mod laws;
