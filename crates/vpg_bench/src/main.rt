//! Settling and offices at work, to be measured from outside.
//!
//!     vpg_bench settle GAME HOW MOST [LIFTERS]
//!     vpg_bench two-sessions
//!     vpg_bench calls SESSIONS CALLS
//!     vpg_bench changes GAME DIAGRAM FEATURE ROUNDS HOW READERS
//!
//! `settle`: both tables of a game over the features r, f and g are raised from zero, until they are settled or MOST
//! sweeps or rounds are made. HOW is `rounds` for rounds of one thread without sweeps, `sweeps` for just MOST sweeps
//! without hints, or `hints` for sweeps with hints. `counted` is `hints` with the lifts counted, and `guesses` makes
//! certified guesses and then sweeps as `counted` does if the guesses leave anything to lift. `board` takes a board
//! that one seat claims and lifts by calls. LIFTERS is how many lifters a sweep has, 1 to 64 and 1 if it is left out.
//! It prints one line: whether the tables are settled, in how many sweeps, how many lifts were counted, and the sums of
//! both tables. `bench/sweeps.py` runs it, and measures time and memory.
//!
//! `two-sessions`: on a built-in office one session lifts while the other decides. Then the page is settled, the
//! decision is undone by its token, and the office is ended. Meanwhile a watcher in a third thread prints the verdicts
//! of a vertex.
//!
//! `calls`: 1 to 8 sessions, each in a thread of its own, make CALLS calls together on a built-in office. It prints how
//! many calls the log then has, whether those of each session stand in order and each place has one, and how many
//! tokens `end` misses.
//!
//! `changes`: on an office on the files' game one session decides the feature of this number and undoes that, ROUNDS
//! times: three calls a time. HOW is `alone` (no watch is ever opened), `idle` (READERS watches that nobody reads) or
//! `watches` (READERS watches, each read without pause in a thread of its own). It may also be `mutex`: READERS threads
//! read without pause the same sheet, which the session puts under a mutex after each change. It prints how many calls
//! the log has, how many reads there were, and how many tokens `end` misses.
//!
//! A log takes 1,048,576 calls. A call that is refused ends a task on an office, and so does a sheet that is left out
//! if the watcher has to read it. Then all threads come to their end, and all tokens are handed in as the office is
//! ended. The program ends with status 1 and a word on standard error, which says how many tokens `end` missed. Its
//! output so far is a beginning of the whole output. `bench/offices.py` runs these, and measures time and memory.
//!
//! Without words it does a little of each on built-in families, and prints no count of reads. Other words are refused.
#![tactic(auto)]

mod offices;
mod settling;
mod words;

use crate::offices::{work_as, work_on_each};
use crate::settling::{settle, sweep_built_in};
use anyhow::Result;
use std::env;
use std::sync::Wait;
use std::thread::Threads;

/// Does a little of all on built-in families.
fn do_a_little<T: Threads + Wait + Sync + Print>(rt: &HostRuntime, threads: &T) -> Result<()> {
    work_on_each(rt, threads)?;
    sweep_built_in(rt, threads)
}

/// Carries out the task of the words.
fn obey<T: Threads + Wait + Sync + Print>(
    rt: &HostRuntime,
    threads: &T,
    words: &[String],
) -> Result<()> {
    if words.len() < 2 {
        return do_a_little(rt, threads);
    }
    if words.len() >= 5 && words[1].as_str() == "settle" {
        return settle(rt, threads, words);
    }
    work_as(rt, threads, words)
}

fn main(rt: HostRuntime) -> Result<()> {
    let words: Vec<String> = env::args(&rt)?.collect(rt.alloc())?;
    obey(&rt, &rt, words.as_slice())
}
