//! Rules over features, and their clauses.
//!
//! A rule is a cross-tree constraint of a feature model in any propositional form: beside the operators of guards it
//! has `=>` and `<=>`. This crate reads rules from text and turns them into clauses. It makes no new features.
//!
//! `!` binds closest, then `&`, `|`, `=>` and `<=>`. Both arrows take as much as they can to their right: `a => b => c`
//! is `a => (b => c)`. At most 64 `(`, `!`, `=>` and `<=>` are open at one place.
//!
//! A layer above uses `parse_rule` (the rule that a text spells) and `Rule::clauses` (its clauses, 64 at most). The law
//! `clauses_mean_the_rule` says of every rule that its clauses mean it.
//!
//! Definitions stand in `specs/`: `Constraint` (rules as formulas, and their truth); `View` (the formula of a `Rule`);
//! `Grammar` (which rule a text spells); `Clauses` (the clauses of a rule); `Laws` (statements of the laws of the
//! module `laws`). Only private contracts name `Reading`, the reader as a function on lists, and `Distributing`, lists
//! of clauses that stop at the limit.
//!
//! Trials: the lines `rule` of `vpg_text_rows/data/diagrams`.
#![tactic(auto)]

mod clause;
mod distributing;
mod fault;
pub mod laws;
mod reading;
mod rule;

pub use clause::{Clause, Literal};
pub use distributing::MOST_CLAUSES;
pub use fault::{ClausesFault, RuleFault};
pub use reading::{DEEPEST, parse_rule};
pub use rule::{Rule, Rules};
