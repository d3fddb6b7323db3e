//! Requirements as lists of parts, between the reader of formulas and the builder of games.
//!
//! All parts of all requirements are in one list. Each names its own parts by their places, and a variable its
//! fixpoint's. So a part's place alone determines the part and the fixpoints around it: a vertex of a game is a state
//! and a place. `true` and `false` are at places 0 and 1, for all requirements. `specs/Preorder` has the normal form of
//! each place, and the fixpoints round it; `specs/Parts` the look-ups; `specs/Sets` the sets of actions that parts
//! name.
//!
//! Before there are parts, a normal form is a list of [`Symbol`]s (`specs/Symbols`).
//!
//! Trials: tests of `vpg_family_tests` (`games`, `walks`).
#![tactic(auto)]

mod part;
mod set;
mod symbol;

pub use part::{FALSE_PLACE, Kind, Part, TRUE_PLACE};
pub use set::Permitted;
pub use symbol::{Spelling, Symbol};
