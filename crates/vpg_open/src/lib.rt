//! Games in which each vertex with a known winner is won at once, so that only the others are left to solve.
//!
//! On a settled page most vertices have a verdict: from a hopeless one Odd wins in every product left, from a sure one
//! Even does. Only at the others, the open vertices, does the winner depend on the product. So a vertex with a verdict
//! is given to the player that loses there, without a successor: who cannot move loses. Its identifier and priority
//! stay, so the game is within the limits. In every product left the winners stay the same, since parity games are
//! determined (`vpg_determined`).
//!
//! Of that game only what plays from a vertex can come to decides who wins there: [`reached_game`] is that part, a game
//! of its own, with places of its own for its vertices.
//!
//! The layer above takes the part that [`reached_open`] returns, for the vertex that is asked about. It copies no other
//! edges; [`open_game`] is the whole game. [`is_open`] is whether a vertex is open. [`verdicts`] are the winners that
//! an order's tables show, and [`settled`] takes winners from anywhere.
//!
//! Definitions: `specs/SettledGames` (the game for some winners, and who wins it), `specs/OpenVertices` (the verdicts
//! of an order, and open vertices), `specs/ReachedGames` (who wins a part). The main lemmas: a strategy that wins the
//! old game wins the new one (`proofs/PlainGames`), and one that wins a part wins the game (`proofs/Parts`).
//!
//! Trials: scripts of `vpg_examples` (`scripts/rows`), by `winners`.
#![tactic(auto)]

mod cutting;
mod looking;
mod opening;
mod reaching;

pub use cutting::settled;
pub use looking::{is_open, verdicts};
pub use opening::{open_game, reached_open};
pub use reaching::{Reached, reached_game};
