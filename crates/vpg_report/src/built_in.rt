//! The built-in family.

/// The built-in diagram: a root with two features, each of which may be left out.
pub const DIAGRAM: &str = "root r\noptional r f\noptional r g\n";

/// The built-in game: two vertices, each with an edge to itself and one to the other.
pub const GAME: &str = "parity 1; 0 1 0 1[f],0; 1 2 1 0[g],1;";
