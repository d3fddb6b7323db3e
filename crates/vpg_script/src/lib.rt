//! Scripts of commands: how they are cut into lines, the request of each line, and how a script is answered.
//!
//! A script is read from a `Source`, a piece at a time, and `next_line` returns its next line. A line is blank, a
//! comment, or a command with its arguments, under a label from 1 to 64 or none; `read_line` says which. The commands
//! are `select`, `exclude`, `retract`, `reset`, `undo`, `redo`, `keep`, `forget`, `lift`, `harvest`, `commit`, `settle`
//! and `changed`. All others only look at the page. Such a `Look` says what it is about: the page as a whole
//! (`PageLook`), a vertex (`VertexLook`), a feature (`FeatureLook`), some vertices, asserted verdicts, or one more
//! decision. Each other first word is a fault of its line.
//!
//! The forms of commands are one table, `all_forms`: lines are read by it, messages and help are made of it. A row also
//! says what its command looks at. So a further look is a variant, a row, and a row of `specs/Forms`; the crate of
//! answers has to know it, and the crate of runs does not. `form_named` returns the form of the command that a word
//! names, and `argument_of` what a word says as an argument.
//!
//! A vertex is named by its identifier, or by a name. `Callings` are the names of vertices, and `meant` returns the
//! request with the identifier of each vertex in place of its name.
//!
//! This crate carries nothing out and knows no desk: a `Server` carries requests out, and what is proved here holds for
//! each server. Each of its answers has a text, and a `Tone`: the line was carried out, was refused, or asserts what
//! doesn't hold. `answer_script` reads a script from a `Source` line by line and writes each answer whole to a `Sink`
//! before it reads on; `answer_script_as` also ends at the first refusal, or goes on after a line with a fault, as a
//! `Manner` says. The manner also has the `Form` of the answers: plain, or an object of JSON a line. The result is an
//! `Ending`, or a `RunFault` if the script was not carried out to its end. Tones decide what goes on and how a script
//! ends: no text is read for it. `Device` makes a `Source` of each reader, and a `Sink` of each writer.
//!
//! The meaning of a line is defined in `specs/Script`, by the forms of `specs/Forms`, and that of its names in
//! `specs/Calling`; the next line of a text in `specs/Lines`, and a failed write in `specs/Devices`. `specs/Answer`
//! defines answers, `specs/Framing` their forms, `specs/Output` the output, `specs/Manners` that of scripts in a
//! manner, and `specs/Results` results. All are this project's own.
//!
//! Trials: scripts of `vpg_examples` (`scripts/served`, `scripts/manners`, `scripts/order`).
#![tactic(auto)]

mod answering;
mod arguments;
mod calling;
mod command;
mod device;
mod exact;
mod fault;
mod forms;
mod framing;
pub mod laws;
mod lines;
mod look;
mod meaning;
mod serving;
mod tone;
mod words;

pub use arguments::{Argument, argument_of};
pub use calling::Callings;
pub use command::{Command, LONGEST_LINE, LineFault, ReadFault, Request, read_line};
pub use device::{Device, Failed, Sink, Source};
pub use exact::ExactVerdict;
pub use fault::RunFault;
pub use forms::{CommandForm, Parameter, Verb, all_forms, form_named};
pub use framing::Form;
pub use lines::{MOST_READS, Next, NextFault, next_line, pass_line};
pub use look::{Claim, FeatureLook, Look, PageLook, Vertex, VertexLook};
pub use meaning::meant;
pub use serving::{Ending, Manner, ServeFault, Server, answer_script, answer_script_as};
pub use tone::{Tone, done};
