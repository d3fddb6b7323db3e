//! The program's side to a person: the words that it is called with, and a script that is typed.
//!
//! `read` takes the words, with the program's name first, and returns a `Task` and whether its faults are explained. If
//! there is no task it returns what `clap` prints: help, the version, or the words' fault. `help_end` is the end of the
//! help, with the list of commands, `command_list`; their lines are those of the forms of `vpg_script`.
//! `docs/FORMATS.md` lists words and options. No contract says which words ask for which task: tests do.
//!
//! `Typed` is a script that is typed in: it hands each line on as it comes, and carries out `help`, `goals` and `quit`
//! itself. After some answers it hands on lines of its own. They ask why a decision is refused, and what a settled page
//! says, cautiously and exactly, of the goals: the vertices named so, or the one where the game starts. It hears of
//! answers by an `Ear`, a sink that passes them on.
//!
//! The text beside the answers (a prompt, help, why a line is no command) goes to a sink of its own. So the answers are
//! just those to the lines that are handed on.
//!
//! `specs/Following` defines the kinds of answers and the lines that follow them. It is this project's own.
//!
//! Trials: tests of `vpg_family_tests` (`words`, `typing`).
#![tactic(auto)]

mod following;
mod hearing;
mod help;
mod reading;
mod task;
mod typing;
mod usage;
mod verbs;

pub use hearing::{Ear, Heard};
pub use reading::{not_text, read};
pub use task::{Invocation, Picture, ScriptRun, Talk, Task, Work};
pub use typing::{Setting, Typed};
pub use usage::{command_list, help_end};
