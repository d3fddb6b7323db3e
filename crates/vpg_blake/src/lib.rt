//! Blake's form of a guard: the `or` of its prime implicants.
//!
//! An implicant of a guard is an `and` of literals that makes it true; it is prime if no literal can be left out. The
//! three-valued value of the `or` of all prime implicants is unknown only if the guard may still become true and may
//! still become false (Blake 1937, Quine 1955). Guards joined by `or` are unknown more often: `f | !f` is unknown while
//! `f` is, and its Blake form is `true`.
//!
//! The crate above that makes games uses `sharp_form` on each guard. A guard that names no feature twice is unknown
//! only then, too, and is returned unchanged. Definitions stand in `specs/Blake` and `specs/Sharp`; `specs/Tables` has
//! the steps of the work, for private contracts only.
//!
//! Trials: tests of `vpg_family_tests` (`family/models`), by the games of systems.
#![tactic(auto)]

mod form;
mod implicants;
pub mod laws;
mod literal;
mod making;
mod sharp;
mod table;

pub use form::{MOST_IMPLICANTS, MOST_NAMED, blake_form};
pub use literal::Literal;
pub use sharp::sharp_form;
