//! Sessions that play on an office at random, each in a thread of its own, to be compared with a book of whole pages.
//!
//!     vpg_play GAME DIAGRAM SEED SESSIONS STEPS HOW
//!
//! On an office on the files' game 1 to 63 sessions take STEPS steps each, 16,000 at most. Their dice, by SEED, choose
//! each step. A session decides, retracts, undoes, redoes, keeps, forgets, commits or asks. It takes an order and lifts
//! it by one lifter or several. It asks with a front that is too short, reads by a watch, or begins to watch again. It
//! leaves a token, a harvest or a front for any session. HOW is `free`, or `turns` for sessions in turn and equal runs.
//!
//! Each session prints its calls, a line for each: its number, the call, the answer, and the place in the log. Among
//! them stand what is no call of the log, with the length of the front then: how an order was raised, reads of a watch
//! (with the place of the sheet), new watches, meetings of fronts, and calls that the office refused as doubled. At the
//! end all tokens are given up. The last line has the number of calls, whether nothing was missing, and how many tokens
//! `end` misses. `bench/replay.py` makes the calls of all sessions again, in the order of their places.
//!
//! Without words five sessions take turns on a built-in family. Other words are refused.
#![tactic(auto)]

mod counter;
mod noting;
mod office;
mod playing;
mod tokens;
mod words;

use crate::noting::Notes;
use crate::office::play_on_texts;
use crate::playing::Play;
use crate::words::play_of;
use anyhow::{Result, bail};
use std::sync::Wait;
use std::thread::Threads;
use std::{env, fs};

const DIAGRAM: &[u8] = b"root r\noptional r a\noptional r b\noptional r c\nexcludes a c\n";

const GAME: &[u8] = b"parity 3; 0 1 0 1[a],2; 1 2 1 0[b],3; 2 0 0 3,2[c]; 3 3 1 0[c],3;";

/// A little, in turn.
const A_LITTLE: Play = Play {
    seed: 1,
    sessions: 5,
    steps: 60,
    in_turn: true,
    features: 1,
};

/// Plays on the family of these texts, and prints what was noted and the end.
fn play<T: Threads + Wait + Sync>(
    rt: &HostRuntime,
    threads: &T,
    game: &[u8],
    diagram: &[u8],
    play: Play,
) -> Result<()> {
    let mut notes = Notes::new(rt.alloc());
    let end = play_on_texts(threads, rt.alloc(), game, diagram, play, &mut notes)?;
    print!(rt; "{}", notes.text())?;
    println!(rt;
        "calls {} whole {} further {}",
        end.calls, notes.is_whole, end.further
    )?;
    Ok(())
}

/// Carries out the words. The runtime is handed in twice: for files, and for threads.
fn obey<T: Threads + Wait + Sync>(rt: &HostRuntime, threads: &T, words: &[String]) -> Result<()> {
    if words.len() < 2 {
        return play(rt, threads, GAME, DIAGRAM, A_LITTLE);
    }
    if words.len() != 7 {
        bail!("there are six words or none: GAME DIAGRAM SEED SESSIONS STEPS HOW");
    }
    let asked = play_of(
        words[3].as_str(),
        words[4].as_str(),
        words[5].as_str(),
        words[6].as_str(),
    )?;
    let game = fs::read(rt, words[1].as_str())?;
    let diagram = fs::read(rt, words[2].as_str())?;
    play(rt, threads, &game, &diagram, asked)
}

fn main(rt: HostRuntime) -> Result<()> {
    let words: Vec<String> = env::args(&rt)?.collect(rt.alloc())?;
    obey(&rt, &rt, words.as_slice())
}
