//! The words that the program is called with.

ghost use Rattle.std.specs.Prelude.{◌≤◌, length, IfOk};

use crate::offices::{How, ROOM, Task};
use crate::settling::{SettlePlan, Way};
use anyhow::{Result, bail};

/// Returns the number that a word spells, up to a most.
fn number_of(word: &str, most: u64) -> Result<u64>
    ensures { IfOk result (λ number. number ≤ most) }
{
    match word.parse::<u64>() {
        Ok(number) if number <= most => Ok(number),
        _ => bail!("{word} is no number up to {most}"),
    }
}

/// Returns the number that a word spells, which is below 2 to the power of 32.
fn small_of(word: &str, most: u32) -> Result<u32>
    ensures { IfOk result (λ number. number ≤ most) }
{
    Ok(number_of(word, u64::from(most))? as u32)
}

/// Returns the way of settling that a word names.
fn way_of(word: &str) -> Result<Way> {
    let way = match word {
        "rounds" => Way::Alone,
        "sweeps" => Way::Plain,
        "hints" => Way::Hinted,
        "counted" => Way::Counted,
        "guesses" => Way::Guessed,
        "board" => Way::Seated,
        _ => bail!("{word} is no way of settling"),
    };
    Ok(way)
}

/// Returns the number of lifters that a word names.
fn lifters_of(word: &str) -> Result<u32>
    ensures { IfOk result (λ lifters. (1 ≤ lifters) × (lifters ≤ 64)) }
{
    let lifters = number_of(word, 64)?;
    if lifters < 1 {
        bail!("there are 1 to 64 lifters");
    }
    Ok(lifters as u32)
}

/// Returns the request of the words after `settle GAME`.
pub(crate) fn asked_by(words: &[String]) -> Result<SettlePlan>
    requires { 5 ≤ length words.now }
    ensures { IfOk result (λ asked. (1 ≤ asked.lifters) × (asked.lifters ≤ 64)) }
{
    let way = way_of(words[3].as_str())?;
    let most = number_of(words[4].as_str(), u64::MAX)?;
    let lifters = match words.get(5) {
        Some(word) => lifters_of(word.as_str())?,
        None => 1,
    };
    Ok(SettlePlan { way, most, lifters })
}

/// Returns the task that the words after `calls` name.
fn calls_of(sessions: &str, calls: &str) -> Result<Task> {
    let sessions = small_of(sessions, 8)?;
    let calls = small_of(calls, ROOM - 8)?;
    if sessions == 0 {
        bail!("there are 1 to 8 sessions");
    }
    Ok(Task::Calls {
        sessions,
        rounds: calls / sessions / 4,
    })
}

/// Returns the way of reading that a word names.
fn how_of(word: &str) -> Result<How> {
    let how = match word {
        "alone" => How::Alone,
        "idle" => How::Idle,
        "watches" => How::Watches,
        "mutex" => How::Mutex,
        _ => bail!("{word} is no way of reading"),
    };
    Ok(how)
}

/// Returns the task that the words after `changes GAME DIAGRAM` name.
fn changes_of(feature: &str, rounds: &str, how: &str, readers: &str) -> Result<Task> {
    let how = how_of(how)?;
    let feature = small_of(feature, 511)? as u16;
    let rounds = small_of(rounds, ROOM / 3 - 1)?;
    let readers = small_of(readers, 63)?;
    Ok(Task::Changes {
        feature,
        rounds,
        how,
        readers,
    })
}

/// Returns the task on an office that the words name. The first word is the program's.
pub(crate) fn task_of(words: &[String]) -> Result<Task> {
    if words.len() == 2 && words[1].as_str() == "two-sessions" {
        return Ok(Task::TwoSessions);
    }
    if words.len() == 4 && words[1].as_str() == "calls" {
        return calls_of(words[2].as_str(), words[3].as_str());
    }
    if words.len() < 8 || words[1].as_str() != "changes" {
        bail!(
            "there is `settle` with three words or four, `two-sessions`, `calls` with two, `changes` with six"
        );
    }
    changes_of(
        words[4].as_str(),
        words[5].as_str(),
        words[6].as_str(),
        words[7].as_str(),
    )
}
