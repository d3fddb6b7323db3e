//! Runs: they carry a script out at an office and answer each of its lines. Here is also how the program ends after
//! them.
//!
//! The program above uses `run_script`, which carries a script out at an office of a family in a manner and returns the
//! program's fault. `drawn_after` draws the page that a script leaves, `system_drawn_after` the system on it, and
//! `traced_after` the system with the marks of a trace; `exported_after` writes its configuration. `End` is the
//! program's end if nothing fails, and `end_of` makes it of a run's result. `status` returns its exit status,
//! `refused_line` the message about a strict script that was refused. `DIAGRAM` and `GAME` are the built-in family.
//! Below it, `run_as` opens an office and carries a script out at it; `run` does so without a manner, and `run_called`
//! for lines that name vertices. At the end of a run, also after a fault, all tokens are spent and the office is ended.
//!
//! Scripts are read in the crate of scripts, and each line is carried out in the crate of engines. The server of a
//! run's script is an engine in the context of lines: it says what a line means there, and has a function of the engine
//! make the calls of the line and write the answer.
//!
//! `specs/Run` defines how lines change a book, and their answers, over the requests of an engine. `specs/Output` and
//! `specs/Results` define a run's result. `specs/Runs` defines the text that a run on a family reads and writes, and
//! how its end is reported. `specs/Winners` defines who wins by the text, `specs/Settling` when a script has one text.
//! `specs/Left` defines which page a script leaves, `specs/Draws` how it is drawn, and `specs/Exports` which
//! configuration it has. `specs/Ends` defines the program's exit status. All are this project's own.
//!
//! Trials: `scripts` and `refusals` of `vpg_examples`.
#![tactic(auto)]

mod answering;
mod built_in;
mod drawing;
mod ending;
mod exporting;
pub mod laws;
mod leaving;
mod running;
mod runs;

pub use built_in::{DIAGRAM, GAME};
pub use drawing::{drawn_after, system_drawn_after, traced_after};
pub use ending::{End, end_of, ended, refused_line, status};
pub use exporting::exported_after;
pub use running::run_script;
pub use runs::{run, run_as, run_called};
