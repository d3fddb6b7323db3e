//! Calls that are refused memory: those of the libraries below an office, of an office and its sessions, and of a
//! press.
//!
//!     vpg_refusals
//!     vpg_refusals marked
//!
//! Without a word each call is made with no memory at all, and with sixteen bytes more each time, until it is done. A
//! line has its name, and
//!
//! - `takes no memory` if it was done with none;
//! - `each growth refused in turn, unchanged` if each refusal was `Memory` and changed nothing, and it was done at
//!   last;
//! - words in capitals if that is not so.
//!
//! A desk is compared by value: its page, the tokens out, whether it is settled. A board is opened and closed until
//! that is done: each time the order comes back with its tables unchanged, or a harvest of it is made. A sweep is made
//! with no memory, and up to more than it takes. With little it has no board, with more no hints, and a thread is
//! refused if the process cannot get its stack. It is done each time.
//!
//! Each try of a call of an office is made on an office of its own, with a log full up to the room of its lists. So the
//! growths of the log are refused too, and after each try all that a refused call has to leave is checked.
//!
//! `marked`: no memory is taken from the program, and each call is marked for `bench/refused.py`. A line has the result
//! of each. Other words are refused.
#![tactic(auto)]

mod boards;
mod calls;
mod decided;
mod desk_calls;
mod desks;
mod held;
mod looks;
mod lookups;
mod office_calls;
mod offices;
mod orders;
mod presses;
mod reading;
mod steps;
mod texts;
mod trails;
mod writing;

use crate::calls::refuse_each;
use crate::lookups::ask_guard;
use crate::orders::ask_order;
use anyhow::{Context, Result, bail};
use std::alloc::Global;
use std::env;
use std::sync::{Arc, Wait};
use std::thread::Threads;
use vpg_diagram::Diagram;
use vpg_game::GuardedGame;
use vpg_scarce::{End, Finding, Heap, Report};
use vpg_small_family::{DIAGRAM, GAME, diagram_of, game_of};

/// Returns the result of calls that were made once, with no memory.
pub(crate) fn told_of(tells: bool) -> Finding {
    if tells {
        Finding::TakesNone
    } else {
        Finding::Otherwise
    }
}

/// Returns the end of a call that wasn't refused: it is done if its answer was right.
pub(crate) fn done_if(gives: bool) -> End {
    if gives { End::Done } else { End::Otherwise }
}

/// Returns the end of a call without an answer.
pub(crate) fn memory_if(is_memory: bool) -> End {
    if is_memory {
        End::Memory
    } else {
        End::Otherwise
    }
}

/// Makes each call of a game and a diagram with little memory: those below an office, and those of an office.
fn refuse_of<R: Threads + Wait + Sync>(
    rt: &R,
    heap: &mut Heap,
    report: &mut Report,
    game: &Arc<GuardedGame>,
    diagram: &Arc<Diagram>,
) -> Option<()> {
    refuse_each(rt, heap, report, game, diagram)?;
    ask_guard(heap, report, diagram.names());
    ask_order(heap, report, game, diagram)?;
    texts::refuse(heap, report, diagram, game)?;
    desk_calls::refuse(rt, heap, report, game, diagram)?;
    boards::refuse(rt, heap, report, game, diagram)?;
    office_calls::refuse(rt, heap, report, game, diagram);
    presses::refuse(rt, heap, report);
    Some(())
}

/// Makes each call with little memory.
fn refuse<R: Threads + Wait + Sync>(rt: &R, heap: &mut Heap, report: &mut Report) -> Result<()> {
    let diagram = diagram_of(heap.alloc(), DIAGRAM)?;
    let game = game_of(heap.alloc(), GAME, &diagram)?;
    refuse_of(rt, heap, report, &game, &diagram).context("nothing to call")
}

/// Makes each call with little memory, and writes the result of each.
fn report_all<R: Threads + Wait + Sync + Print>(
    rt: &R,
    heap: &mut Heap,
    report: &mut Report,
) -> Result<()> {
    refuse(rt, heap, report)?;
    report.write(rt, heap)?;
    Ok(())
}

/// Does so with the memory of the process, or marks each call if there is more than one word.
fn report_within<R: Threads + Wait + Sync + Print>(
    rt: &R,
    alloc: Global,
    words: usize,
) -> Result<()> {
    let mut heap = Heap::new(alloc, words)?;
    let mut report = Report::new(alloc)?;
    report_all(rt, &mut heap, &mut report)
}

/// Carries out what the words ask for.
fn obey<T: Threads + Wait + Sync + Print>(
    rt: &HostRuntime,
    threads: &T,
    words: &[String],
) -> Result<()> {
    if words.len() > 2 || words.len() == 2 && words[1].as_str() != "marked" {
        bail!("there is `marked`, and no other word");
    }
    report_within(threads, rt.alloc(), words.len())
}

fn main(rt: HostRuntime) -> Result<()> {
    let words: Vec<String> = env::args(&rt)?.collect(rt.alloc())?;
    obey(&rt, &rt, words.as_slice())
}
