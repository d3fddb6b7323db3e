//! The exact winners at a vertex: which of the products that decisions leave are won.
//!
//! The verdicts of a page are cautious: a vertex may be possible though no product that is left is won. `decide`
//! returns the exact winner: Even in each product that is left, Odd in each, or each of them in some, with an example
//! of both. `winners` returns which products these are. Its parts, cut out by literals, have each product that is left
//! in exactly one, and the winner of a part wins in each of its products. That is the family-based answer to a
//! variability parity game, all products at once, for a page.
//!
//! All answers go by two sets of products, those that Even wins and those that Odd does. Vertices that have a verdict
//! on the page are won at once, and the part of that game which the vertex reaches (`vpg_open`) is solved for all
//! products (`vpg_zielonka`), by diagrams with few new nodes. `winners` goes on if these do not suffice: it solves a
//! list of the products, if they are few, or uses more nodes. It cuts the two sets into parts, each with the number of
//! its products. `decide` takes the first product of each. Answers on one player's products go by one of the sets, if
//! the vertex is open on the page: `find` and `why_lost` (its first product), `needs` (the literals that its products
//! share), `findings` and `both_findings` (products and literals for `foresee` of `vpg_why`).
//!
//! If a limit is met, or there are no sets, each call searches, and on that part where it can; there are no findings of
//! one player then, and `winners` counts no products. Before that a few products are solved on the part, which often
//! show what is asked. Where that part is large, `find` and `why_lost` look at the game for the first product alone
//! before they make sets. A search goes over features that are not known, cut off by the verdicts of each trial
//! (`vpg_why`). Parity games are determined (`vpg_determined`): so a product in which Even has
//! no strategy is won by Odd. A search that met a limit is reported as unsettled, and never wrong.
//!
//! Definitions: `specs/Decided` (the winners in the products that are left), `specs/Winners` (the parts, and the rule
//! by which they are made), `specs/Joined` (how parts are joined), `specs/Numbered` (the numbers of their products),
//! `specs/OpenParts` (the part that decides a vertex), `specs/Divided`, `specs/Cutting` and `specs/Pairs` (the two
//! sets), `specs/Finding` and `specs/Gathering` (the products that meet an aim, as a set), `specs/Sampled` (some of
//! them). For the search: `specs/Searched`, `specs/Standing`.
//!
//! Trials: scripts of `vpg_examples` (`scripts/rows`).
#![tactic(auto)]

mod cutting;
mod deciding;
mod dividing;
mod finding;
mod gathering;
mod joining;
pub mod laws;
mod listing;
mod pairing;
mod part;
mod parts;
mod sampling;
mod solving;
mod splitting;
mod standing;
mod trying;
mod two_sets;

pub use deciding::{Decided, decide};
pub use finding::{find, why_lost};
pub use gathering::{both_findings, findings, needs};
pub use parts::{Part, Winner};
pub use splitting::winners;
