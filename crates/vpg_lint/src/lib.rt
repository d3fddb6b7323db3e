//! Messages that point: where a fault of a text is, what was found there, what was expected, the nearest name, and
//! hints.
//!
//! `explain_game`, `explain_diagram`, `explain_system` and `explain_requirements` take the fault with which a text was
//! refused. `explain_parts` takes a requirement that is too long. `explain_line` takes a line of a script that is no
//! command, and goes by the forms of commands of `vpg_script`. Each makes a message, and `put_message` writes it.
//! `put_unknown` says of a word alone that no feature has this name. Only lines and columns have contracts: the wording
//! is for people.
//!
//! `specs/Messages` says where a fault is according to its reader, and how a message is written. Lines and columns are
//! those of `vpg_places`.
//!
//! Trials: rows of `vpg_text_rows/data/mistakes`, tests of `vpg_family_tests` (`family/explained`).
#![tactic(auto)]

mod arguments;
mod diagrams;
mod faulty;
mod games;
mod hints;
mod message;
mod naming;
mod requirements;
mod said;
mod scripts;
mod spots;
mod systems;
mod tokens;

pub use diagrams::explain_diagram;
pub use games::{explain_game, put_unknown};
pub use message::{Message, put_message, put_number, put_place, put_shown, put_text};
pub use naming::{nearest, nearest_of};
pub use requirements::{explain_parts, explain_requirements};
pub use scripts::explain_line;
pub use systems::explain_system;
