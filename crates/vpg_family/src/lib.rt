//! A product family in files: read, counted, projected to one product and drawn; and the messages about its faults.
//!
//! `read_known` takes the files of a diagram and a game; or of a diagram, a system and its requirements, and makes
//! their game. It returns a `Known`: the family, the names of its vertices, and the `Context` of a script's lines.
//! `read_diagram_file` takes the file of a diagram, which may have a feature model that means one.
//!
//! A `Family` counts itself (`counted`) and returns the plain game of one product (`projected`). `checked` counts the
//! family of texts, with its requirements, and `drawn` returns a picture of two texts. `linted` warns of a diagram
//! without a product, and of features that are in no product or that no guard names. It warns of vertices without moves
//! or that the game never reaches, and of a start that is no vertex. `page_drawn` returns the picture of a page.
//! `system_drawn` draws a system alone, and `system_on` on a page, with the marks of a trace if there is one. Each
//! fault of the program is a `Fault`, `line_of` returns the line that reports it, and `explained` lines that say where
//! and why; `explained_diagram` those on the file of a diagram alone. The crate knows no desk: scripts are carried out
//! above it.
//!
//! `specs/Families` defines the texts that spell a family, when its game is made, and the words that name a product;
//! `specs/Sources` the diagram that a file means, and `specs/Called` the names of vertices. `specs/Counts`,
//! `specs/Checked`, `specs/Pictures`, `specs/Systems`, `specs/Pages` and `specs/Faults` define the texts that are
//! written, `specs/Warned` the places of warnings, and `specs/Emptiness` what is found of a diagram's products. All are
//! this project's own.
//!
//! Trials: tests of `vpg_family_tests` (`family`).
#![tactic(auto)]

mod checking;
mod counts;
mod drawing;
mod emptiness;
mod explaining;
mod family;
mod fault;
mod features;
mod files;
mod known;
mod limits;
mod linting;
mod modelling;
mod moves;
mod paged;
mod products;
mod sources;
mod system_warnings;
mod systems;
mod telling;
mod warnings;
mod writing;

pub use checking::checked;
pub use drawing::{Subject, drawn};
pub use explaining::{explained, explained_diagram, explained_set};
pub use family::{Family, conflict};
pub use fault::{Fault, Input};
pub use files::{
    GamePaths, ModelPaths, Paths, Texts, Unread, open_script, read_script, read_texts,
};
pub use known::{Context, Known, read_known};
pub use linting::linted;
pub use paged::page_drawn;
pub use sources::{DiagramFile, read_diagram_file};
pub use systems::{system_drawn, system_on};
pub use telling::line_of;
