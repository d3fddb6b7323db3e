//! Sessions in threads of their own.
//!
//! These offices are opened by `Office::open` itself: values that are handed to threads are not yet proved below a
//! method of a trait, as that of `Work` is.
ghost use Rattle.std.specs.Arc.{arc_value};
ghost use Rattle.std.specs.Prelude.{◌≡◌, ◌≤◌};
ghost use Rattle.vpg_diagram.specs.FeatureDiagram.{feature_count};

use crate::calls::{Answer, At, By, Calls, RowCall, hold_harvest};
use crate::given::{family, given, require};
use crate::offices::hands::{Seat, free, hand_of, joined};
use crate::offices::steps::end;
use std::marker::Brand;
use std::process::Abort;
use std::sync::atomic::{AtomicU64, Ordering};
use std::sync::{Arc, Wait};
use std::test::*;
use std::thread;
use std::thread::Threads;
use vpg_board::{Gate, sweep};
use vpg_desk::DecideFault;
use vpg_diagram::Diagram;
use vpg_game::GuardedGame;
use vpg_measure::Harvest;
use vpg_office::{Front, Office, Site, Terms, may_be_shared};
use vpg_small_family::{DIAGRAM, F, GAME};
use vpg_watch::Watch;

/// A diagram with a feature for each of eight sessions.
const WIDE: &[u8] = b"root r\noptional r f\noptional r g\noptional r a\noptional r b
optional r c\noptional r d\noptional r e\noptional r h\n";

/// The work of a session in a thread of its own.
#[derive(Clone, Copy)]
enum Task {
    /// Decides this feature and retracts it a number of times: four calls each time.
    Rounds(u16, u32),
    /// Decides the feature f so. If another commits late, that is between its order and its commit.
    Decide(bool),
    /// Takes an order, which is swept while another session decides, and commits the harvest.
    CommitLate,
    /// Reads by a watch until another session has made its rounds.
    Read,
}

/// The work of sessions at once on an office, each in a thread of its own.
struct Rush {
    name: &'static str,
    diagram: &'static [u8],
    /// The number of calls that the log takes.
    room: u32,
    /// The number of times that this is done, each on an office of its own.
    times: u32,
    tasks: &'static [Task],
    /// Their answers, or these in the other order.
    gives: &'static [Answer],
    or: &'static [Answer],
    /// The sum of the places of all calls in rounds, from 1.
    sum: u64,
    /// The number of calls that the log has at the end.
    calls: usize,
    /// The page at the end, if it is looked at.
    page: Option<&'static str>,
    /// Whether a session commits late.
    is_late: bool,
}

/// The places of a session's calls in the log.
#[derive(Clone, Copy)]
struct Places {
    last: usize,
    sum: u64,
}

impl Places {
    /// Notes the call that a front of this length ends with. It stands after the one noted before.
    fn note(&mut self, rt: &impl Abort, length: usize) {
        require(rt, self.last < length, "a place behind the last");
        self.last = length;
        self.sum = self.sum.saturating_add(length as u64);
    }
}

/// Returns the call of a session in rounds after this many: a feature is decided and retracted, in four calls.
fn call_of(feature: u16, before: u32) -> RowCall {
    match before % 4 {
        0 => RowCall::Decide(At::First, feature, true),
        2 => RowCall::Retract(At::First, feature),
        _ => RowCall::Keep(At::First),
    }
}

/// Returns the number of the front's calls.
fn calls<S: Calls>(rt: &impl Abort, hand: &mut S) -> usize {
    match hand.looks(rt, By::One, RowCall::Calls) {
        Answer::Has(calls) => calls,
        _ => rt.panic("no front"),
    }
}

/// Makes this many rounds, and returns the sum of the places of their calls, from 1.
fn rounds<S: Calls, R: Wait + Abort + AllocGlobal>(
    rt: &R,
    office: &S::Office,
    hand: &mut S,
    feature: u16,
    count: u32,
) -> u64 {
    let mut places = Places { last: 0, sum: 0 };
    for before in 0..count.saturating_mul(4) {
        let call = call_of(feature, before);
        let answer = hand.changes(rt, office, By::One, At::First, call);
        let is_made = matches!(answer, Answer::Token(_) | Answer::Kept);
        require(rt, is_made, "a call in rounds");
        places.note(rt, calls(rt, hand));
    }
    places.sum
}

/// The values that sessions in threads of their own share.
#[derive(Drop)]
struct Shared {
    /// Whether the rounds have ended.
    ended: AtomicU64,
    /// The sum of the places of their calls.
    places: AtomicU64,
    /// Whether an order was taken that is committed late, and whether that was done. From the beginning if none is.
    ordered: AtomicU64,
    committed: AtomicU64,
    /// Whether a session was answered that decided.
    decided: AtomicU64,
    /// Whether the lifter went on then.
    passed: AtomicU64,
}

/// Waits until this is set, but not for ever. Returns whether it was.
fn is_set(flag: &AtomicU64) -> bool {
    for _ in 0..1_000_000u32 {
        if flag.load(Ordering::SeqCst) != 0 {
            return true;
        }
        thread::yield_now();
    }
    false
}

/// Holds the lifter in its first claim until a session was answered.
impl Gate for Shared {
    fn before_claim(&self, _lifter: u32) {
        if self.passed.load(Ordering::SeqCst) == 0 && is_set(&self.decided) {
            self.passed.store(1, Ordering::SeqCst);
        }
    }

    fn after_lift(&self, _lifter: u32) {}
}

/// Decides, unless another was first. Returns the serial of the change, or why there is none. If another commits late,
/// that is between its order and its commit.
fn decide<S: Calls, R: Wait + Abort + AllocGlobal>(
    rt: &R,
    office: &S::Office,
    hand: &mut S,
    value: bool,
    shared: &Shared,
) -> Answer {
    require(rt, is_set(&shared.ordered), "an order was taken");
    let call = RowCall::Decide(At::First, F, value);
    let answer = hand.changes(rt, office, By::One, At::First, call);
    shared.decided.store(1, Ordering::SeqCst);
    require(rt, is_set(&shared.committed), "a harvest was committed");
    if matches!(answer, Answer::Token(_)) {
        hand.changes(rt, office, By::One, At::First, RowCall::Keep(At::First));
    }
    answer
}

/// Sweeps the order of a harvest in which nothing was lifted.
fn swept<R: Threads + Wait + Abort + AllocGlobal + Sync>(
    rt: &R,
    held: &mut Option<Harvest>,
    shared: &Shared,
) {
    let bare = held.take().expect(rt, "no harvest");
    hold_harvest(held, sweep(rt, rt.alloc(), bare.again(), 1, shared));
}

/// Takes an order, which is swept while another session decides, and commits the harvest. Returns how many entries that
/// added.
fn commit_late<S: Calls, R: Threads + Wait + Abort + AllocGlobal + Sync>(
    rt: &R,
    office: &S::Office,
    hand: &mut S,
    shared: &Shared,
) -> Answer {
    hand.asks(rt, office, By::One, RowCall::Bare);
    shared.ordered.store(1, Ordering::SeqCst);
    swept(rt, hand.harvest(), shared);
    let has_passed = shared.passed.load(Ordering::SeqCst) == 1;
    require(rt, has_passed, "the lifter went on");
    let answer = hand.asks(rt, office, By::One, RowCall::Commit);
    require(rt, calls(rt, hand) == 3, "a commit that comes third");
    shared.committed.store(1, Ordering::SeqCst);
    answer
}

/// Reads until the rounds have ended, and then once more. Returns the last sheet. No sheet is of fewer calls than the
/// one before.
fn read_on<S: Calls, R: Wait + Abort>(rt: &R, hand: &mut S, shared: &Shared) -> Answer {
    let mut last = 0;
    for _ in rt.forever() {
        let has_ended = shared.ended.load(Ordering::SeqCst) != 0;
        let answer = hand.looks(rt, By::One, RowCall::Sees);
        let Answer::Sheet(at, _) = answer else {
            rt.panic("no sheet")
        };
        require(rt, last <= at, "a sheet behind the last");
        last = at;
        if has_ended {
            return answer;
        }
        thread::yield_now();
    }
    unreachable!()
}

/// Carries out a session's task, and returns its answer.
fn work<S: Calls, R: Threads + Wait + Abort + AllocGlobal + Sync>(
    rt: &R,
    office: &S::Office,
    hand: &mut S,
    task: Task,
    shared: &Shared,
) -> Answer {
    match task {
        Task::Rounds(feature, count) => {
            let sum = rounds(rt, office, hand, feature, count);
            shared.places.fetch_add(sum, Ordering::SeqCst);
            shared.ended.store(1, Ordering::SeqCst);
            Answer::Done
        }
        Task::Decide(value) => decide(rt, office, hand, value, shared),
        Task::CommitLate => commit_late(rt, office, hand, shared),
        Task::Read => read_on(rt, hand, shared),
    }
}

/// A session, with a watch if it reads.
#[derive(Drop)]
struct Job<L: Terms> {
    seat: Seat<L>,
    watch: Option<Watch<Front<L>>>,
    task: Task,
}

/// Carries out a job, and returns its answer.
fn done<L: Terms, R: Threads + Wait + Abort + AllocGlobal + Sync>(
    rt: &R,
    office: &Office<L>,
    job: Job<L>,
    shared: &Shared,
) -> Answer {
    let Job { seat, watch, task } = job;
    let mut hand = hand_of(rt, seat);
    if let Some(watch) = watch {
        given(rt, hand.sitting.watches.push(watch));
    }
    let answer = work(rt, office, &mut hand, task, shared);
    free(rt, hand);
    answer
}

/// Returns a session for each task. If no thread can be made, the last goes first.
fn jobs_of<L: Terms, R: Wait + Abort + AllocGlobal>(
    rt: &R,
    office: &Office<L>,
    tasks: &[Task],
) -> Vec<Job<L>> {
    let mut jobs = Vec::new(rt.alloc());
    for task in tasks {
        let watch = match task {
            Task::Read => Some(given(rt, office.watch(rt))),
            _ => None,
        };
        let job = Job {
            seat: joined(rt, office),
            watch,
            task: *task,
        };
        given(rt, jobs.push(job));
    }
    jobs
}

/// Carries out each job in a thread of its own, and returns the answers.
fn at_once<L: Terms + Send + Sync, R: Threads + Wait + Abort + AllocGlobal + Sync>(
    rt: &R,
    office: &Office<L>,
    jobs: Vec<Job<L>>,
    shared: &Shared,
) -> Vec<Answer> {
    given(
        rt,
        thread::map_vec(rt, jobs, &|job| done(rt, office, job, shared)),
    )
}

/// Returns the values that sessions share before they begin.
fn shared_for(is_late: bool) -> Shared {
    let passes = !is_late as u64;
    Shared {
        ended: AtomicU64::new(0),
        places: AtomicU64::new(0),
        ordered: AtomicU64::new(passes),
        committed: AtomicU64::new(passes),
        decided: AtomicU64::new(0),
        passed: AtomicU64::new(0),
    }
}

/// Whether a rush has these answers: each call in rounds stood at a place of its own, after those that its session made
/// before.
fn are_given(rush: &Rush, answers: &[Answer], shared: &Shared) -> bool {
    (answers == rush.gives || answers == rush.or)
        && shared.places.load(Ordering::SeqCst) == rush.sum
}

/// Whether the log is as it has to be after a rush. Looking at the page is one further call.
fn is_left<S: Calls, R: Wait + Abort + AllocGlobal>(
    rt: &R,
    office: &S::Office,
    hand: &mut S,
    rush: &Rush,
) -> bool {
    if calls(rt, hand) != rush.calls {
        return false;
    }
    match rush.page {
        Some(text) => {
            hand.asks(rt, office, By::One, RowCall::Page(text)) == Answer::Is(true)
                && calls(rt, hand) == rush.calls.saturating_add(1)
        }
        None => true,
    }
}

/// Opens an office, on which sessions work at once, and closes it then.
fn open_and_run<L: Terms + Send + Sync, R: Threads + Wait + Abort + AllocGlobal + Sync>(
    rt: &R,
    site: Site,
    game: Arc<GuardedGame>,
    diagram: Arc<Diagram>,
    room: u32,
    rush: &Rush,
)
    requires features { (arc_value game).features ≡ feature_count (arc_value diagram).lines }
    requires site { (site.row ≡ L.shelves) × (site.name ≡ L.name) × (site.parts ≡ L.parts) }
    requires of { (arc_value game ≡ L.game) × (arc_value diagram ≡ L.diagram) }
    requires room { (room ≡ L.limit) × (1 ≤ room) × (room ≤ 1048576) }
{
    let office = given(
        rt,
        Office::<L>::open(rt, rt.alloc(), site, game, diagram, room),
    );
    may_be_shared(&office);
    let shared = shared_for(rush.is_late);
    let answers = at_once(rt, &office, jobs_of(rt, &office, rush.tasks), &shared);
    require(rt, are_given(rush, answers.as_slice(), &shared), rush.name);
    let mut hand = hand_of(rt, joined(rt, &office));
    require(rt, is_left(rt, &office, &mut hand, rush), rush.name);
    end(rt, office, &mut hand, true);
    free(rt, hand);
}

/// Sessions work at once on an office of their own.
fn rush_once<R: Threads + Wait + Abort + AllocGlobal + Sync>(rt: &R, rush: &Rush) {
    assert!(rt; 1 <= rush.room && rush.room <= 10_000);
    let (game, diagram) = family(rt, GAME, rush.diagram);
    let site = Site::new(rt.alloc()).expect(rt, "no memory");
    open_and_run::<Brand, R>(rt, site, game, diagram, rush.room, rush);
}

fn make_rush<R: Threads + Wait + Abort + AllocGlobal + Sync>(rt: &R, rush: &Rush) {
    for _ in 0..rush.times {
        rush_once(rt, rush);
    }
}

const EMPTY: &str = "0 decided / 0 0 / 0 0 / ";

const TWO: &Rush = &Rush {
    name: "two threads decide and retract",
    diagram: DIAGRAM,
    room: 1000,
    times: 1,
    tasks: &[Task::Rounds(1, 100), Task::Rounds(2, 100)],
    gives: &[Answer::Done; 2],
    or: &[],
    sum: 320_400,
    calls: 800,
    page: Some(EMPTY),
    is_late: false,
};

const EIGHT: &Rush = &Rush {
    name: "eight threads keep order",
    diagram: WIDE,
    room: 8001,
    times: 1,
    tasks: &[
        Task::Rounds(1, 250),
        Task::Rounds(2, 250),
        Task::Rounds(3, 250),
        Task::Rounds(4, 250),
        Task::Rounds(5, 250),
        Task::Rounds(6, 250),
        Task::Rounds(7, 250),
        Task::Rounds(8, 250),
    ],
    gives: &[Answer::Done; 8],
    or: &[],
    sum: 32_004_000,
    calls: 8000,
    page: Some(EMPTY),
    is_late: false,
};

const SECOND: Answer = Answer::NotDecided(DecideFault::AlreadyDecided { serial: 1 });

/// Two sessions decide one feature, each its own way: one is the first, and the answer to the other says so.
const RACE: &Rush = &Rush {
    name: "two threads decide one feature",
    diagram: DIAGRAM,
    room: 10,
    times: 20,
    tasks: &[Task::Decide(true), Task::Decide(false)],
    gives: &[Answer::Token(1), SECOND],
    or: &[SECOND, Answer::Token(1)],
    sum: 0,
    calls: 3,
    page: None,
    is_late: false,
};

const LAST_SHEET: Answer = Answer::Sheet(1999, false);

/// Eight watches read 1,000 changes and end with the last.
const WATCHED: &Rush = &Rush {
    name: "eight watches never go back",
    diagram: DIAGRAM,
    room: 2000,
    times: 1,
    tasks: &[
        Task::Read,
        Task::Read,
        Task::Read,
        Task::Read,
        Task::Read,
        Task::Read,
        Task::Read,
        Task::Read,
        Task::Rounds(F, 500),
    ],
    gives: &[
        LAST_SHEET,
        LAST_SHEET,
        LAST_SHEET,
        LAST_SHEET,
        LAST_SHEET,
        LAST_SHEET,
        LAST_SHEET,
        LAST_SHEET,
        Answer::Done,
    ],
    or: &[],
    sum: 2_001_000,
    calls: 2000,
    page: None,
    is_late: false,
};

/// A harvest comes after another session decided: it is taken, and the page has both. The two wait for each other, so
/// each needs a thread of its own.
const LATE: &Rush = &Rush {
    name: "a harvest comes late",
    diagram: DIAGRAM,
    room: 10,
    times: 1,
    tasks: &[Task::CommitLate, Task::Decide(false)],
    gives: &[Answer::Added(2), Answer::Token(1)],
    or: &[],
    sum: 0,
    calls: 4,
    page: Some("1 decided / exclude f 1 by 2 / hopeful 0 0 1 / dual 1 0 1 / 1 0 / 0 1 / "),
    is_late: true,
};

const RUSHES: &[&Rush] = &[TWO, EIGHT, RACE, WATCHED, LATE];

#[test]
fn sessions_work_at_once(rt: HostRuntime) {
    for rush in RUSHES {
        make_rush(&rt, rush);
    }
}
