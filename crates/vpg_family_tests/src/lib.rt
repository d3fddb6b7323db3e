//! Tests of families in two files, of the games of systems, of the words that the program is called with, of lines that
//! are typed, of walks over a game, of names beside answers, and of configurations.
//!
//! A crate that has tests is proved once more with them, so the tests of the crates below stand here, in a crate that
//! has nothing else.
#![tactic(auto)]

#[cfg(test)]
mod configured;
#[cfg(test)]
mod family;
#[cfg(test)]
mod games;
#[cfg(test)]
mod said;
#[cfg(test)]
mod typing;
#[cfg(test)]
mod walks;
#[cfg(test)]
mod words;
