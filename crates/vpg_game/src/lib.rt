//! Guarded games: parity games whose edges have guards over features (FASE 2020), in a profile of PGSolver's text
//! format.
//!
//! `GuardedGame::read` returns the game that a text spells, `of` the one of entries that a program makes. `write`
//! writes its one writing, which is read as the same game, and `dual` returns the game with the players exchanged. The
//! layers above go over `vertices`, `owner`, `priority` and `edges`. Their clauses name the game with its identifiers
//! (`NamedGame`), and its graph without them (`graph_of`). `laws::games_have_graphs` says what holds of every graph,
//! and `top_within_limit` is the number of the top measure.
//!
//! The definitions stand in `specs/`: `Players`; `Guarded`, games over any kind of guard and their duals; `Levels`, the
//! odd priorities that occur and the number of the top measure (Jurdzinski 2000); `Grammar`, the texts as a relation;
//! `Game`, the game that entries spell, and the properties of every game; `Refused`, why a text is no game; `Writing`;
//! `Laws`. `Building` has the limits of entries, and why some make no game. `Edges` compares and joins edges: a vertex
//! has one edge to a target. `SpelledNames` says which names of vertices, and which start, a text spells; a game keeps
//! neither, so `VertexNames::read` reads the text once more. `Spelled`, `Reading`, `Scanning`, `Coding` and
//! `EdgeCoding` serve these.
//!
//! Trials: rows of `vpg_text_rows/data/games`, calls with little memory in `vpg_refusals` (`reading`, `writing`).
#![tactic(auto)]

mod dual;
mod edge;
mod edges;
mod entry;
mod fault;
mod game;
pub mod laws;
mod levels;
mod making;
mod names;
mod naming;
mod reading;
mod scanning;
mod vertex;
mod writing;

pub use edge::Edge;
pub use edges::{are_same, copy_edges, join_edge};
pub use entry::{Entry, Successor};
pub use fault::{DualFault, GameFault};
pub use game::{GuardedGame, HIGHEST_PRIORITY};
pub use levels::{Level, TOP_LIMIT, bound, odd_counts, top_within_limit};
pub use names::VertexNames;
pub use vpg_sides::Player;
