//! The tasks of the program's words.
use crate::configuring::configuration_form;
use crate::family::read_into;
use crate::leaving::{drawn_after_files, exported, put_left, traced_files};
use crate::output::{put_made, put_out};
use crate::running::{run_built_in, run_files};
use crate::texts::{diagram_text, pictured, projected};
use crate::typed::sit;
use crate::words::print;
use clap::Error;
use std::alloc::Global;
use std::sync::Wait;
use std::thread::Threads;
use vpg_family::{Fault, Texts, checked, explained, explained_diagram, explained_set, linted};
use vpg_report::End;
use vpg_terminal::{Invocation, ScriptRun, Task, Work};

/// Carries out the task that was asked for, or prints the message in its place. The texts of its files are kept in
/// `texts`, to explain a fault.
pub fn carry_out<T: Threads + Wait + Sync>(
    rt: &HostRuntime,
    threads: &T,
    alloc: Global,
    asked: &Result<Invocation<'_>, Error>,
    texts: &mut Texts,
) -> Result<End, Fault> {
    let task = match asked {
        Ok(asked) => &asked.task,
        Err(told) => return print(rt, told),
    };
    match task {
        Task::BuiltIn => run_built_in(rt, threads, alloc),
        Task::Diagram { path } => put_made(rt, diagram_text(rt, alloc, path, texts)),
        Task::Family { paths, work } => match work {
            Work::Run(run) => run_files(rt, threads, alloc, *paths, *run, texts),
            Work::Desk(talk) => sit(rt, threads, alloc, *paths, *talk, texts),
            Work::Export { script, xml } => {
                let form = configuration_form(*xml);
                put_left(
                    rt,
                    exported(rt, threads, alloc, *paths, form, script, texts),
                )
            }
            Work::Model => {
                read_into(rt, alloc, *paths, texts)?;
                put_out(rt, &texts.game)
            }
            Work::Project { features } => put_made(
                rt,
                projected(rt, alloc, *paths, features, texts),
            ),
            Work::Check => {
                read_into(rt, alloc, *paths, texts)?;
                put_made(rt, checked(alloc, texts))
            }
            Work::Lint => {
                read_into(rt, alloc, *paths, texts)?;
                put_made(rt, linted(alloc, *paths, texts))
            }
            Work::Draw {
                picture: _,
                script,
                trace: Some(vertex),
            } => put_left(
                rt,
                traced_files(rt, threads, alloc, *paths, vertex, *script, texts),
            ),
            Work::Draw {
                picture,
                script: Some(script),
                trace: None,
            } => put_left(
                rt,
                drawn_after_files(rt, threads, alloc, *paths, *picture, script, texts),
            ),
            Work::Draw {
                picture,
                script: None,
                trace: None,
            } => put_made(rt, pictured(rt, alloc, *paths, *picture, texts)),
        },
    }
}

/// Returns the script of work whose lines count from its first. Lines of a configuration count before those of its
/// script.
fn explained_script<'a>(work: &Work<'a>) -> Option<&'a str> {
    match work {
        Work::Run(
            ScriptRun {
                config: Some(_),
                ..
            },
        ) => None,
        _ => work.script(),
    }
}

/// Returns lines that say where and why an input is refused. There are none if nobody asked for them, or if memory runs
/// out.
pub(crate) fn explanation_of(
    rt: &HostRuntime,
    alloc: Global,
    asked: &Result<Invocation<'_>, Error>,
    texts: &Texts,
    fault: &Fault,
) -> Vec<u8> {
    let task = match asked {
        Ok(asked) if asked.explains => &asked.task,
        _ => return Vec::new(alloc),
    };
    let lines = match (task, fault) {
        (
            Task::Family {
                paths,
                work: Work::Project { features },
            },
            Fault::NotAProduct,
        ) => explained_set(alloc, paths.diagram, &texts.diagram, features),
        (Task::Family { paths, work }, _) => {
            explained(rt, alloc, *paths, texts, explained_script(work), fault)
        }
        (Task::Diagram { path }, _) => explained_diagram(alloc, path, texts, fault),
        (Task::BuiltIn, _) => return Vec::new(alloc),
    };
    match lines {
        Ok(lines) => lines,
        Err(_) => Vec::new(alloc),
    }
}
