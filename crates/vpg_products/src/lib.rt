//! Propagates decisions over a diagram step by step, and finds those that a conclusion rests on.
//!
//! `Partial::close` (`vpg_partial`) makes known what a whole list of decisions implies, from the first rule on. A
//! search decides one feature after another, thousands of times. So here `grow` goes on from what is known already: it
//! visits the rules that name a feature, then those of the features that they make known, and no others. A `Trail`
//! notes by which rule each feature became known. If a rule fails, `blamed` goes back along the trail and marks the
//! features that the failure rests on. That is a guess, which `is_refuted` checks: whether no product agrees with some
//! decisions.
//!
//! Definitions: `specs/Growing` (what may be added to what is known, and when nothing is left). `specs/Stepping` serves
//! private functions.
//!
//! Trials: rows of `vpg_text_rows/data/small`, by the reasons of `vpg_why`.
#![tactic(auto)]

mod blaming;
mod growing;
mod stepping;
mod trail;

pub use blaming::blamed;
pub use growing::{grow, is_refuted};
pub use trail::Trail;
