//! Tests of the book of decisions and those who work on it: trails, desks, offices and sessions, sheets and watches.
//!
//! A crate that has tests is proved once more with them, and reads all that is proved below it for that. So the tests
//! of these crates stand here, in one crate that has nothing else. A row of calls is carried out at a desk or at an
//! office (`calls`).
#![tactic(auto)]

#[cfg(test)]
mod calls;
#[cfg(test)]
mod desks;
#[cfg(test)]
mod given;
#[cfg(test)]
mod offices;
#[cfg(test)]
mod pages;
#[cfg(test)]
mod watching;
