//! Pictures in Graphviz's language (DOT): a game on a page, and a feature diagram with the known features.
//!
//! `draw_game` draws vertices by owner, priority and verdict, and edges by their guards and whether they are kept. The
//! same arguments give the same text, byte for byte. No text that comes in can leave its quotes.
//!
//! `draw_part` draws some of the vertices, with one of them marked as the first, and those of their edges that may be
//! there. If moves of a player are listed, these stand for all edges of that player.
//!
//! `draw_features` draws the features by their known values, and the lines of a diagram's text as edges and groups.
//!
//! Other crates' pictures share `escaped` (text between quotes), `choices` (a line of decisions) and `style` (the look
//! of an edge by its guard's value).
//!
//! `specs/Labels` defines the text between quotes, `specs/GameDrawing`, `specs/PartDrawing` and `specs/FeatureDrawing`
//! the pictures. Graphviz's documentation has the language; the choice of shapes and colours is this project's own,
//! with the owners' shapes of PGSolver.
//!
//! Trials: rows of `vpg_text_rows/data/pictures`.
#![tactic(auto)]

mod features;
mod game;
mod labels;
mod part;

pub use features::draw_features;
pub use game::{draw_game, style};
pub use labels::{choices, escaped};
pub use part::draw_part;
