//! Answers about a page: why a verdict is so, what else could be decided, a product that is won, and moves that win in
//! every product that is left.
//!
//! Each answer is made from an `Order` (game, diagram, decisions and tables of a page) and changes nothing. A
//! `Question` is whether a list of decisions *alone* makes it so: a vertex hopeless or sure, lost in every product, a
//! feature known, or one more decision contradictory. If some decisions make it so, more do. So an `Explanation` can be
//! short: it lists decisions that suffice, none of which can be left out. There is one such list that prefers older
//! decisions, so the answer is a function of the page. Each trial goes over from the order's games to those of its
//! decisions, and begins with the order's tables if it knows all that the order does: more decisions only raise tables.
//! So explanations of verdicts and losses begin with an order of no decisions (`order_under`), whose tables are raised
//! once. Questions of features alone make no games. Where each product left is shown to meet an aim, a search for one
//! goes on by features alone.
//!
//! In every product that is left Odd wins from a hopeless vertex, and Even from a sure one. `winning_moves` finds moves
//! that serve in all of them at once: those by which the player wins the cautious game (`vpg_hope`). There the player
//! has the edges that are there in each product, and the opponent all that are there in some. Such moves always exist,
//! since parity games are determined (`vpg_determined`). The table of that game is raised by certified bounds and, if
//! these do not settle it, by rounds of lifts. The answer has the moves that a play from the vertex can come to, by a
//! search along them and all edges of the opponent. `reachable` returns the vertices that can be reached over edges
//! that may be there, by such moves or by any.
//!
//! The layer above uses `why_within`, `why_lost`, `losing_decisions`, `why_known`, `why_conflict` (explanations),
//! `find` (an example or a counterexample, or that there is none) and `needs` (the features that all won products
//! share). It uses `foresee` (the verdicts and the winner after one more decision) with `spared_choices` (choices that
//! do not make a verdict, found by trials of many at once), `seek` and `verdict_shown` (what other decisions would
//! bring), `order_under` (tables for their trials), `are_among`, `winning_moves`, and `caution` (the game that those
//! win). `Which::Hopeful` asks for Even, `Which::Dual` for Odd. Every answer has `Limits` of work, and says if it met
//! one: it is then unsettled, never wrong. Its searches share them: each takes looks and trials from what is left, and
//! gives back what it did not need; a line that searches for decisions has `looks_for_decisions`. Only a search of few
//! features has the trials of the limits for itself.
//!
//! Definitions: `specs/Suffices` (what decisions alone make so); `specs/Explained` (explanations); `specs/Products`
//! (the products that decisions leave); `specs/Eased` (aims that each product left meets); `specs/Found`,
//! `specs/Offered`, `specs/Foreseen`, `specs/Spared`, `specs/Repaired` (the meaning of the answers); `specs/Moves`,
//! `specs/Played` and `specs/Reachable` (moves that win, and the vertices that they come to); `specs/Searched` for the
//! search of vertices; `specs/Reasons` (why a search finds nothing). Their laws stand in `laws`.
//!
//! Trials: rows of `vpg_text_rows/data` (`small`, `limits`, `families`).
#![tactic(auto)]

mod answering;
mod asking;
mod easing;
mod explaining;
mod features;
mod forcing;
mod foreseeing;
mod grounds;
pub mod laws;
mod question;
mod reaching;
mod sampling;
mod searching;
mod seeking;
mod settling;
mod sparing;
mod stepping;
mod telling;
mod under;
mod winning;

pub use asking::{games_with, verdict_shown, with_one};
pub use explaining::Explanation;
pub use forcing::{Demand, Forced, needs};
pub use foreseeing::{Findings, Foresight, Side, foresee, no_findings};
pub use question::{Aim, Limits, Question, Shown};
pub use searching::{Example, Found, Outlook, find, look_at_games, search, search_all};
pub use seeking::{is_small, large_limits, looks_for_decisions, seek};
pub use sparing::{Spared, none_spared, spared_choices};
pub use stepping::reachable;
pub use telling::{WhyLost, losing_decisions, why_conflict, why_known, why_lost, why_within};
pub use under::{are_among, order_under};
pub use winning::{Moves, caution, winning_moves};
