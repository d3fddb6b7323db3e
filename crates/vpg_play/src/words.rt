//! The words that the program is called with.

ghost use Rattle.std.specs.Prelude.{◌≤◌, IfOk};

use crate::playing::Play;
use anyhow::{Result, bail};

/// Returns the number that a word spells, from a least to a most.
fn number_of(word: &str, least: u64, most: u64) -> Result<u64>
    ensures { IfOk result (λ number. (least ≤ number) × (number ≤ most)) }
{
    match word.parse::<u64>() {
        Ok(number) if least <= number && number <= most => Ok(number),
        _ => bail!("{word} is no number from {least} to {most}"),
    }
}

/// Returns the play that the words after `GAME DIAGRAM` name.
pub(crate) fn play_of(seed: &str, sessions: &str, steps: &str, how: &str) -> Result<Play> {
    let in_turn = match how {
        "turns" => true,
        "free" => false,
        _ => bail!("{how} is no way to play"),
    };
    let seed = number_of(seed, 0, u64::MAX)?;
    let sessions = number_of(sessions, 1, 63)? as u32;
    let steps = number_of(steps, 0, 16_000)? as u32;
    Ok(Play {
        seed,
        sessions,
        steps,
        in_turn,
        features: 1,
    })
}
