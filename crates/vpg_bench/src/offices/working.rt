//! Sessions at work.
use crate::offices::reading::{Shown, read_on, show};
use crate::offices::{Done, How, Task};
use std::alloc::Global;
use std::sync::atomic::{AtomicU64, Ordering};
use std::sync::{Mutex, Wait};
use std::thread::{Threads, for_each_mut};
use vpg_office::{Front, Office, Terms};
use vpg_scarce::{End, HeldToken, OfficeCall, Seat, joined, made, spent};
use vpg_watch::Watch;

/// A step of a round about a feature.
#[derive(Clone, Copy)]
pub enum Step {
    Decide,
    Retract,
    Undo,
    /// Spends the token that is held.
    Spend,
    /// Puts the sheet that a watch reads under the mutex.
    Show,
}

/// Spends a token. It can't be dropped, so a call that is refused is made again: the log has to have room for it.
fn spend<L: Terms, R: Wait>(
    rt: &R,
    alloc: Global,
    office: &Office<L>,
    seat: &mut Seat<L>,
    held: HeldToken<L>,
) {
    let mut held = held;
    for _ in rt.forever() {
        held = match held {
            HeldToken::Nothing => return,
            held => spent(rt, alloc, office, seat, held),
        };
    }
    unreachable!()
}

/// The places of a session's calls in the log, from 1.
#[derive(Clone, Copy)]
struct Places {
    last: usize,
    /// The sum of the places.
    sum: u64,
    /// Whether each stands after the one before.
    in_order: bool,
}

impl Places {
    /// Notes the call that a front of this length ends with.
    fn note(&mut self, length: usize) {
        self.in_order = self.in_order && self.last < length;
        self.last = length;
        self.sum = self.sum.saturating_add(length as u64);
    }
}

/// The work in a thread of its own.
#[derive(Clone, Copy)]
pub enum Part {
    /// Makes these steps a number of times, about this feature or that of the session's number.
    Call {
        steps: &'static [Step],
        feature: Option<u16>,
        rounds: u32,
    },
    /// Reads by a watch until the calls have ended.
    Read,
    /// Reads under the mutex until then.
    Look,
    /// Has a watch that nobody reads.
    Idle,
}

/// A job. A session that makes calls joins in its thread.
#[derive(Drop)]
pub struct Job<L: Terms> {
    watch: Option<Watch<Front<L>>>,
    part: Part,
    places: Places,
    /// The number of sheets that were read.
    reads: u64,
    /// Whether no call was refused.
    is_done: bool,
}

/// Returns the call of a step.
fn call_of(step: Step, feature: u16) -> OfficeCall {
    match step {
        Step::Decide => OfficeCall::Decide(feature, true),
        Step::Retract => OfficeCall::Retract(feature),
        _ => OfficeCall::Undo,
    }
}

/// Makes a feature's steps in their order, each call noted.
fn round<L: Terms, R: Wait>(
    rt: &R,
    alloc: Global,
    office: &Office<L>,
    seat: &mut Seat<L>,
    job: &mut Job<L>,
    steps: &[Step],
    feature: u16,
    shown: &Shown<L>,
) {
    let mut held = HeldToken::Nothing;
    for step in steps {
        held = match step {
            Step::Show => {
                show(rt, &mut job.watch, shown);
                held
            }
            Step::Spend => {
                spend(rt, alloc, office, seat, held);
                job.places.note(seat.front.len());
                HeldToken::Nothing
            }
            _ => {
                let call = call_of(*step, feature);
                let (held, end) = made(rt, alloc, office, seat, held, call);
                job.places.note(seat.front.len());
                job.is_done = job.is_done && end == End::Done;
                held
            }
        };
    }
    spend(rt, alloc, office, seat, held);
}

/// Makes this many rounds, unless a call is refused, on this feature or that of the session's number.
fn rounds<L: Terms, R: Wait>(
    rt: &R,
    alloc: Global,
    office: &Office<L>,
    seat: &mut Seat<L>,
    job: &mut Job<L>,
    steps: &[Step],
    feature: Option<u16>,
    count: u32,
    shown: &Shown<L>,
) {
    let feature = feature.unwrap_or(seat.session.number() as u16);
    for _ in 0..count {
        if job.is_done {
            round(rt, alloc, office, seat, job, steps, feature, shown);
        }
    }
}

/// Does a job. A session that makes calls joins here, beside the others, and reports that the calls have ended.
fn work<L: Terms, R: Wait>(
    rt: &R,
    alloc: Global,
    office: &Office<L>,
    job: &mut Job<L>,
    ended: &AtomicU64,
    shown: &Shown<L>,
) {
    match job.part {
        Part::Call {
            steps,
            feature,
            rounds: count,
        } => {
            match joined(rt, office) {
                Some(mut seat) => {
                    rounds(
                        rt, alloc, office, &mut seat, job, steps, feature, count, shown,
                    )
                }
                None => job.is_done = false,
            }
            ended.store(1, Ordering::SeqCst);
        }
        Part::Read | Part::Look => job.reads = read_on(rt, &mut job.watch, shown, ended),
        Part::Idle => {}
    }
}

/// More than there are jobs.
const MOST_JOBS: usize = 1024;

/// Does each job in a thread of its own. If no thread can be made, the last goes first.
fn at_once<L: Terms + Send + Sync, R: Threads + Wait + Sync>(
    rt: &R,
    alloc: Global,
    office: &Office<L>,
    jobs: &mut [Job<L>],
    shown: &Shown<L>,
) {
    let ended = AtomicU64::new(0);
    for_each_mut(
        rt,
        jobs,
        MOST_JOBS,
        &|_, job| { work(rt, alloc, office, job, &ended, shown) },
    );
}

/// Adds a job, with a watch if it needs one. The sheet that the watch of a caller reads now is put under the mutex.
/// Returns whether there was memory for all.
fn add_job<L: Terms, R: Wait>(
    rt: &R,
    office: &Office<L>,
    jobs: &mut Vec<Job<L>>,
    part: Part,
    needs_watch: bool,
    shown: &Shown<L>,
) -> bool {
    let mut watch = if needs_watch {
        office.watch(rt).ok()
    } else {
        None
    };
    let is_watching = watch.is_some();
    let is_shown = !matches!(part, Part::Call { .. }) || show(rt, &mut watch, shown);
    let job = Job {
        watch,
        part,
        places: Places {
            last: 0,
            sum: 0,
            in_order: true,
        },
        reads: 0,
        is_done: true,
    };
    jobs.push(job).is_ok() && is_watching == needs_watch && is_shown
}

/// A round of four calls, and a change with its undo: three calls.
const ROUND: &[Step] = &[Step::Decide, Step::Spend, Step::Retract, Step::Spend];

const CHANGE: &[Step] = &[Step::Decide, Step::Undo, Step::Spend];

const SHOWN_CHANGE: &[Step] = &[
    Step::Decide,
    Step::Show,
    Step::Undo,
    Step::Show,
    Step::Spend,
];

/// The sessions at work: this many that read or look on, and then this many that call.
#[derive(Clone, Copy)]
struct Plan {
    readers: u32,
    reader: Part,
    callers: u32,
    caller: Part,
    /// Whether the sheets of the calls are put under the mutex.
    shows: bool,
}

fn plan_of(task: Task) -> Plan {
    match task {
        Task::TwoSessions => Plan {
            readers: 0,
            reader: Part::Idle,
            callers: 0,
            caller: Part::Idle,
            shows: false,
        },
        Task::Calls { sessions, rounds } => Plan {
            readers: 0,
            reader: Part::Idle,
            callers: sessions,
            caller: Part::Call {
                steps: ROUND,
                feature: None,
                rounds,
            },
            shows: false,
        },
        Task::Changes {
            feature,
            rounds,
            how,
            readers,
        } => {
            let shows = matches!(how, How::Mutex);
            Plan {
                readers: if matches!(how, How::Alone) {
                    0
                } else {
                    readers
                },
                reader: match how {
                    How::Alone | How::Idle => Part::Idle,
                    How::Watches => Part::Read,
                    How::Mutex => Part::Look,
                },
                callers: 1,
                caller: Part::Call {
                    steps: if shows { SHOWN_CHANGE } else { CHANGE },
                    feature: Some(feature),
                    rounds,
                },
                shows,
            }
        }
    }
}

/// Adds a job for each of a plan, unless something is lacking. Whether nothing is.
fn add_jobs<L: Terms, R: Wait>(
    rt: &R,
    office: &Office<L>,
    plan: Plan,
    jobs: &mut Vec<Job<L>>,
    shown: &Shown<L>,
) -> bool {
    for k in 0..plan.readers.saturating_add(plan.callers) {
        let (part, needs_watch) = if k < plan.readers {
            (plan.reader, !matches!(plan.reader, Part::Look))
        } else {
            (plan.caller, plan.shows)
        };
        if !add_job(rt, office, jobs, part, needs_watch, shown) {
            return false;
        }
    }
    true
}

/// Returns the result of jobs if no call was refused. It has the number of reads, or whether each session's calls stand
/// in order and all places add up to the sum of the first `calls` numbers from 1.
fn done_by<L: Terms>(jobs: &[Job<L>], task: Task, calls: usize) -> Option<Done> {
    let mut in_order = true;
    let mut sum = 0u64;
    let mut reads = 0u64;
    for job in jobs {
        if !job.is_done {
            return None;
        }
        in_order = in_order && job.places.in_order;
        sum = sum.saturating_add(job.places.sum);
        reads = reads.saturating_add(job.reads);
    }
    if matches!(task, Task::Changes { .. }) {
        return Some(Done::Changes { reads });
    }
    let calls = calls as u64;
    let all = calls.saturating_mul(calls.saturating_add(1));
    Some(Done::Calls {
        in_order: in_order && sum.saturating_mul(2) == all,
    })
}

/// Has sessions work at once, each in a thread of its own. Returns the result, unless something is missing or a call is
/// refused.
pub fn work_at_once<L: Terms + Send + Sync, R: Threads + Wait + Sync>(
    rt: &R,
    alloc: Global,
    office: &Office<L>,
    task: Task,
) -> Option<Done> {
    let mut jobs = Vec::new(alloc);
    let shown = Mutex::new(None);
    let is_ready = add_jobs(rt, office, plan_of(task), &mut jobs, &shown);
    if is_ready {
        at_once(rt, alloc, office, jobs.as_mut_slice(), &shown);
    }
    match joined(rt, office) {
        Some(last) if is_ready => done_by(jobs.as_slice(), task, last.front.len()),
        _ => None,
    }
}
