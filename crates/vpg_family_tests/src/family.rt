//! Facts that no clause states: which fault is reported first, and that the texts are those of `docs/FORMATS.md`.

mod asked;
mod explained;
mod faults;
mod files;
mod meant;
mod models;
mod rows;

use vpg_family::{GamePaths, Paths};

/// A root with two features, each of which may be left out.
const DIAGRAM: &str = "root r\noptional r f\noptional r g\n";

/// Two vertices, each with an edge to itself and one to the other.
const GAME: &str = "parity 1; 0 1 0 1[f],0; 1 2 1 0[g],1;";

/// The files of a family that is explained or warned of.
const PATHS: Paths<'static> = Paths {
    game: GamePaths::Game("explained_game"),
    diagram: "explained_diagram",
};
