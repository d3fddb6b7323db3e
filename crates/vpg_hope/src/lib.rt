//! Hopeful games and projections: plain parity games made from a guarded game.
//!
//! A guarded game stands for one plain game per product: the one that keeps the edges with guards that the product
//! satisfies. While only some features are known, the hopeful game stands for all products that remain. It gives Even
//! every edge that may be there and Odd only those that must be. So it favours Even at least as much as the game of
//! each remaining product: if Even can't win it, Even can't win any of them. The hopeful game of the dual does the same
//! for Odd. The cautious game is the other way round: moves by which Even wins it win in each of them.
//!
//! The layer above lifts measures over an [`Arena`]. [`Arena::hopeful`] and [`Arena::hopeful_of_dual`] make the two of
//! a page in one pass over the edges, and [`Arena::kept`] is the look-up of each lift. [`project`] and
//! [`PlainGame::write`] give a user the plain game of one product.
//!
//! Definitions: `specs/Games` (plain games); `specs/Strategies` (positional strategies and winning, after Jurdzinski
//! 2000); `specs/Hope` (the game of a product after FASE 2020, the hopeful and the cautious game); `specs/Comparison`
//! (games that favour Even more, the dual); `specs/Plain` (identifiers and the text, in PGSolver's format). [`laws`]
//! states the theorems about them. `specs/Kept` says which edges a game keeps ([`Selection`]). `specs/Arena`,
//! `specs/Drafts`, `specs/Selection` and `specs/PlainParts` serve private contracts alone.
//!
//! Trials: rows of `vpg_text_rows/data/arenas`, calls with little memory in `vpg_refusals` (`decided`, `writing`).
#![tactic(auto)]

pub mod arena;
mod changes;
pub mod laws;
mod plain;
mod projection;
mod selection;
mod unmarked;

pub use arena::Arena;
pub use plain::PlainGame;
pub use projection::{ProjectFault, project};
pub use selection::Selection;
pub use unmarked::concerned_vertices;
