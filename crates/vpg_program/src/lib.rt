//! The program `vpgdesk`.
//!
//! Without words it reads a script of commands from standard input, carries it out on a desk over the built-in game and
//! diagram, and writes the answers to standard output. `run` does so with the files of a game, a diagram and a script.
//! `export` writes the configuration that a script leaves, `project` the plain game of one product, `check` the counts
//! and top measures of a game, and `lint` warns of a family. `diagram` writes the diagram that a feature model means;
//! such a model may stand in place of each diagram. `draw` writes a picture, of the page that a script leaves if one is
//! named. A system and its requirements may stand in place of the game, which `model` writes; and `draw` draws the
//! system itself, with a trace if one is asked for.
//!
//! The status is 0 if all goes well. It is 1 if the input is refused or something fails. Then one line on standard
//! error, `vpgdesk: ` and the fault, says so, and with `--explain` further lines say where and why. It is 2 if the
//! words are wrong, and 3 if an assertion of a script failed, or a line of a strict one was refused. Else an answer
//! `refused ..` to a line of a script leaves 0. All that was written before stays written. Formats, commands and faults
//! are described in `docs/FORMATS.md`; the contract of `run` in `vpg_report` is the promise of a run.
//!
//! It is no program itself: the `main` of `vpgdesk` reads the words, carries their task out, reports what failed, and
//! returns the status.
//!
//! `words` has the words and the messages. `tasks` has a function of another module for each task: `running` runs
//! scripts, after a configuration of `configuring`; `typed` answers a person at a terminal; `texts` writes what files
//! alone decide, and `leaving` what a script leaves.
//!
//! Trials: the rows of words in `vpg_status/data/rows`.
#![tactic(auto)]

mod configuring;
mod family;
mod leaving;
mod output;
mod running;
mod tasks;
mod texts;
mod typed;
mod words;

pub use crate::tasks::carry_out;
use crate::tasks::explanation_of;
use crate::words::tell;
pub use crate::words::{Spoken, asked_by, read_words};
use clap::Error;
use std::alloc::Global;
use vpg_family::{Fault, Texts, line_of};
use vpg_report::{End, refused_line};
use vpg_terminal::Invocation;

/// Reports on standard error what failed, or at which line a strict script was refused. The texts of the task's files
/// explain a fault.
pub fn report(
    rt: &HostRuntime,
    alloc: Global,
    asked: &Result<Invocation<'_>, Error>,
    texts: &Texts,
    ended: &Result<End, Fault>,
) {
    match ended {
        Ok(End::Refused { line }) => tell(rt, refused_line(alloc, *line), b""),
        Ok(_) => {}
        Err(fault) => {
            let lines = explanation_of(rt, alloc, asked, texts, fault);
            tell(rt, line_of(alloc, fault), &lines);
        }
    }
}
