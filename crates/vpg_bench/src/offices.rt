//! Offices at work: two sessions beside a watcher, sessions that call at once, and readers beside a session that
//! changes the page.

mod day;
mod reading;
mod watcher;
mod working;

ghost use Rattle.std.specs.Arc.{arc_value};
ghost use Rattle.std.specs.Prelude.{◌≡◌, ◌≤◌};
ghost use Rattle.vpg_diagram.specs.FeatureDiagram.{feature_count};

use crate::offices::day::work_in_two;
use crate::offices::watcher::follow;
use crate::offices::working::work_at_once;
use crate::words::task_of;
use anyhow::{Context, Result, bail};
use std::alloc::Global;
use std::fs;
use std::marker::Brand;
use std::sync::atomic::AtomicU64;
use std::sync::{Arc, Wait};
use std::thread::{Threads, join};
use vpg_diagram::Diagram;
use vpg_game::GuardedGame;
use vpg_office::{Office, Site, Terms};
use vpg_scarce::{End, HeldToken, OfficeCall, joined, made};
use vpg_small_family::{diagram_of, game_of};

/// A feature for each of eight sessions.
const DIAGRAM: &[u8] = b"root r\noptional r a\noptional r b\noptional r c\noptional r d
optional r e\noptional r f\noptional r g\noptional r h\n";

const GAME: &[u8] = b"parity 1; 0 1 0 1[a],0; 1 2 1 0[b],1;";

/// The number of calls that a log takes.
pub(crate) const ROOM: u32 = 1_048_576;

/// Who reads while a session changes the page.
#[derive(Clone, Copy)]
pub(crate) enum How {
    Alone,
    Idle,
    Watches,
    Mutex,
}

/// A task on an office.
#[derive(Clone, Copy)]
pub(crate) enum Task {
    TwoSessions,
    Calls {
        sessions: u32,
        rounds: u32,
    },
    Changes {
        feature: u16,
        rounds: u32,
        how: How,
        readers: u32,
    },
}

/// The result of the work.
#[derive(Clone, Copy)]
pub(crate) enum Done {
    /// The number of lifts that the commit added, and whether the token of the undone decision is held.
    TwoSessions { added: u32, undone: bool },
    /// Whether the calls of each session stand in order, and each place has one.
    Calls { in_order: bool },
    Changes { reads: u64 },
}

/// Why some work was not done to its end.
#[derive(Clone, Copy)]
pub(crate) enum Stopped {
    /// A call was refused.
    Refused,
    /// The watcher read no sheet of a change: it was left out.
    Unseen,
    /// The watcher could not print.
    Unprinted,
}

/// The result of a task.
#[derive(Clone, Copy)]
struct TaskResult {
    done: Result<Done, Stopped>,
    calls: usize,
    /// The number of tokens that were out at the end and not handed in.
    further: u64,
}

/// The result of some work, and the token that is left.
pub(crate) type Left<L> = (Result<Done, Stopped>, HeldToken<L>);

/// Decides the feature 1 by one more session. Returns the token that it holds, and the call's end.
fn decided<L: Terms, R: Wait>(rt: &R, alloc: Global, office: &Office<L>) -> (HeldToken<L>, End) {
    match joined(rt, office) {
        Some(mut seat) => {
            made(
                rt,
                alloc,
                office,
                &mut seat,
                HeldToken::Nothing,
                OfficeCall::Decide(1, true),
            )
        }
        None => (HeldToken::Nothing, End::Otherwise),
    }
}

/// Does the task. Except for the task of two sessions, a token of one more is left.
fn carry_out<L: Terms + Send + Sync, R: Threads + Wait + Sync>(
    rt: &R,
    alloc: Global,
    office: &Office<L>,
    task: Task,
    seen: &AtomicU64,
) -> Left<L> {
    if matches!(task, Task::TwoSessions) {
        return work_in_two(rt, alloc, office, seen);
    }
    let done = work_at_once(rt, alloc, office, task);
    let (held, end) = decided(rt, alloc, office);
    match done {
        Some(done) if end == End::Done => (Ok(done), held),
        _ => (Err(Stopped::Refused), held),
    }
}

/// Does the task on an office, and ends it. Room for the tokens is made before there are any, since none can be
/// dropped.
fn work<L: Terms + Send + Sync, R: Threads + Wait + Sync>(
    rt: &R,
    alloc: Global,
    office: Office<L>,
    task: Task,
    seen: &AtomicU64,
) -> Option<TaskResult> {
    let Ok(mut undos) = Vec::with_capacity(alloc, 1) else {
        let _further = office.end(rt, Vec::new(alloc), Vec::new(alloc));
        return None;
    };
    let Ok(mut redos) = Vec::with_capacity(alloc, 1) else {
        let _further = office.end(rt, undos, Vec::new(alloc));
        return None;
    };
    let (done, held) = carry_out(rt, alloc, &office, task, seen);
    match held {
        HeldToken::Nothing => {}
        HeldToken::Undo(token) => undos.push_reserved(token),
        HeldToken::Redo(token) => redos.push_reserved(token),
    }
    let office = office.unshare();
    let calls = office.log().len();
    let further = office.end(rt, undos, redos).further();
    Some(TaskResult {
        done,
        calls,
        further,
    })
}

/// Takes the office, and has two sessions work there. A closure can't hold an office, since it might drop it.
fn work_on<L: Terms + Send + Sync, R: Threads + Wait + Sync>(
    rt: &R,
    alloc: Global,
    lent: &mut Option<Office<L>>,
    seen: &AtomicU64,
) -> Option<TaskResult> {
    let office = lent.take()?;
    work(rt, alloc, office, Task::TwoSessions, seen)
}

/// Returns the result of a task that a watcher followed, if it printed all that it read.
fn printed(told: TaskResult, is_printed: bool) -> TaskResult {
    if is_printed {
        return told;
    }
    TaskResult {
        done: Err(Stopped::Unprinted),
        ..told
    }
}

/// Has two sessions work, which a watcher follows.
fn work_watched<L: Terms + Send + Sync, R: Threads + Wait + Sync + Print>(
    rt: &R,
    alloc: Global,
    office: Office<L>,
) -> Option<TaskResult> {
    let Ok(watch) = office.watch(rt) else {
        let _further = office.end(rt, Vec::new(alloc), Vec::new(alloc));
        return None;
    };
    let seen = AtomicU64::new(0);
    let mut lent = Some(office);
    let (is_printed, told) = join(
        rt,
        || follow(rt, watch, &seen),
        || work_on(rt, alloc, &mut lent, &seen),
    );
    if let Some(office) = lent {
        let _further = office.end(rt, Vec::new(alloc), Vec::new(alloc));
    }
    Some(printed(told?, is_printed))
}

/// Opens an office and does the task there. `L` says which row of calls and which ledger it has.
fn open_and_work<L: Terms + Send + Sync, R: Threads + Wait + Sync + Print>(
    rt: &R,
    alloc: Global,
    site: Site,
    game: Arc<GuardedGame>,
    diagram: Arc<Diagram>,
    room: u32,
    task: Task,
) -> Option<TaskResult>
    requires features { (arc_value game).features ≡ feature_count (arc_value diagram).lines }
    requires site { (site.row ≡ L.shelves) × (site.name ≡ L.name) × (site.parts ≡ L.parts) }
    requires of { (arc_value game ≡ L.game) × (arc_value diagram ≡ L.diagram) }
    requires room { (room ≡ L.limit) × (1 ≤ room) × (room ≤ 1048576) }
{
    match Office::<L>::open(rt, alloc, site, game, diagram, room) {
        Ok(office) => match task {
            Task::TwoSessions => work_watched(rt, alloc, office),
            _ => work(rt, alloc, office, task, &AtomicU64::new(0)),
        },
        Err(_refused) => None,
    }
}

/// Does the task on an office on this game and diagram. There is no result if something is missing.
fn told_on<R: Threads + Wait + Sync + Print>(
    rt: &R,
    alloc: Global,
    game: Arc<GuardedGame>,
    diagram: Arc<Diagram>,
    task: Task,
) -> Option<TaskResult>
    requires { (arc_value game).features ≡ feature_count (arc_value diagram).lines }
{
    let site = Site::new(alloc).ok()?;
    open_and_work::<Brand, R>(rt, alloc, site, game, diagram, ROOM, task)
}

/// Does the task on an office on the game and diagram that these texts spell.
fn told_of<R: Threads + Wait + Sync + Print>(
    rt: &R,
    alloc: Global,
    game: &[u8],
    diagram: &[u8],
    task: Task,
) -> Result<TaskResult> {
    let diagram = diagram_of(alloc, diagram)?;
    let game = game_of(alloc, game, &diagram)?;
    told_on(rt, alloc, game, diagram, task).context("no office, no watch or no room for tokens")
}

/// Returns why some work was not done to its end, in words.
fn word_of(stopped: Stopped) -> &'static str {
    match stopped {
        Stopped::Refused => "a call was refused",
        Stopped::Unseen => "the sheet of a change was not read",
        Stopped::Unprinted => "the watcher could not print",
    }
}

/// Returns the work that was done to its end.
fn done_of(told: TaskResult) -> Result<Done> {
    match told.done {
        Ok(done) => Ok(done),
        Err(stopped) => bail!("{}, further {}", word_of(stopped), told.further),
    }
}

/// Prints the result of a task, without reads.
fn tell(rt: &HostRuntime, told: TaskResult) -> Result<()> {
    let done = done_of(told)?;
    let TaskResult { calls, further, .. } = told;
    if let Done::TwoSessions { added, undone } = done {
        println!(rt; "added {added}\nundone {undone}\ncalls {calls}\nfurther {further}")?;
        return Ok(());
    }
    let in_order = !matches!(done, Done::Calls { in_order: false });
    println!(rt; "calls {calls} in order {in_order} further {further}")?;
    Ok(())
}

/// Does the task on the built-in family, and prints its result.
fn work_built_in<T: Threads + Wait + Sync + Print>(
    rt: &HostRuntime,
    threads: &T,
    task: Task,
) -> Result<()> {
    let told = told_of(threads, rt.alloc(), GAME, DIAGRAM, task)?;
    tell(rt, told)
}

/// A little of each.
const A_LITTLE: [Task; 6] = [
    Task::TwoSessions,
    Task::Calls {
        sessions: 8,
        rounds: 250,
    },
    Task::Changes {
        feature: 1,
        rounds: 100,
        how: How::Alone,
        readers: 2,
    },
    Task::Changes {
        feature: 1,
        rounds: 100,
        how: How::Idle,
        readers: 2,
    },
    Task::Changes {
        feature: 1,
        rounds: 100,
        how: How::Watches,
        readers: 2,
    },
    Task::Changes {
        feature: 1,
        rounds: 100,
        how: How::Mutex,
        readers: 2,
    },
];

/// Does a little of each task on the built-in family.
pub(crate) fn work_on_each<T: Threads + Wait + Sync + Print>(
    rt: &HostRuntime,
    threads: &T,
) -> Result<()> {
    for task in A_LITTLE {
        work_built_in(rt, threads, task)?;
    }
    Ok(())
}

/// Does the task on an office on the game and diagram of these files.
fn told_on_files<T: Threads + Wait + Sync + Print>(
    rt: &HostRuntime,
    threads: &T,
    game: &str,
    diagram: &str,
    task: Task,
) -> Result<TaskResult> {
    let game = fs::read(rt, game)?;
    let diagram = fs::read(rt, diagram)?;
    told_of(threads, rt.alloc(), &game, &diagram, task)
}

/// Prints how many reads there were, and the result of a task.
fn tell_reads(rt: &HostRuntime, told: TaskResult) -> Result<()> {
    if let Ok(Done::Changes { reads }) = told.done {
        println!(rt; "reads {reads}")?;
    }
    tell(rt, told)
}

/// Does the task that the words name, and prints its result.
pub(crate) fn work_as<T: Threads + Wait + Sync + Print>(
    rt: &HostRuntime,
    threads: &T,
    words: &[String],
) -> Result<()> {
    let task = task_of(words)?;
    if words.len() > 3 && matches!(task, Task::Changes { .. }) {
        let told = told_on_files(rt, threads, words[2].as_str(), words[3].as_str(), task)?;
        return tell_reads(rt, told);
    }
    work_built_in(rt, threads, task)
}
