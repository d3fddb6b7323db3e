//! Tests of lifters and what they lift: tables of measures, orders, boards, sweeps, harvests, certified guesses.
//!
//! A crate that has tests is proved once more with them, and reads all that is proved below it for that. So the tests
//! of several crates stand here, in one crate that has nothing else.
#![tactic(auto)]

#[cfg(test)]
mod asks;
#[cfg(test)]
mod boards;
#[cfg(test)]
mod climbing;
#[cfg(test)]
mod given;
#[cfg(test)]
mod harvests;
#[cfg(test)]
mod hinted;
#[cfg(test)]
mod orders;
#[cfg(test)]
mod policy;
#[cfg(test)]
mod starts;
#[cfg(test)]
mod sweeps;
#[cfg(test)]
mod tables;
