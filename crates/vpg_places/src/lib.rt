//! Lines and columns of a text, the words of lines and their forms, and the numbers of a game.
//!
//! `place_of` is the line and the column of a byte. `line_at` is a line by its number, whose method `place` is that of
//! a byte of the line. `words_of` are the words of a line. `form_of` is the form of a line of a diagram, which knows
//! where words depart from it. `declared_of` are the features that a diagram's lines name, and `numbers_of` the numbers
//! of a game's entries. Only lines and columns have contracts. The layers above put into words what stands there.
//!
//! `specs/Places` defines lines and columns, and which line of a text has a number.
//!
//! Trials: the lines and columns of `vpg_text_rows/data/mistakes`.
#![tactic(auto)]

mod declared;
mod forms;
mod lines;
mod place;
mod scanning;

pub use declared::{Declared, declared_of, find, names_before};
pub use forms::{Departure, Form, LINES, Part, form_of};
pub use lines::{Line, Word, line_at, lines_of, words_of};
pub use place::{Place, begins_character, place_of};
pub use scanning::{Last, Number, Scan, numbers_of, start_at};
