//! The lines that a session hands on after answers.
ghost use Rattle.std.specs.Prelude.{◌≡◌, IfOk};
ghost use Rattle.vpg_terminal.specs.Following.{goal_line, next_asked, why_line, vertex_line};

use crate::hearing::Heard;
use itoa::Buffer;
use std::alloc::{AllocError, Global};
use vpg_places::{Word, words_of};

/// A question of the session's own about a goal.
#[derive(Clone, Copy, Debug, PartialEq, Eq)]
pub(crate) enum Asked {
    /// Its cautious verdicts.
    Show,
    /// Why it is hopeless.
    Why,
    /// Its exact verdict.
    Decide,
}

/// A question about one of the goals.
#[derive(Clone, Copy)]
pub(crate) struct OfGoal {
    pub(crate) goal: usize,
    pub(crate) asked: Asked,
}

/// The first question about the first goal.
pub(crate) const FIRST: OfGoal = OfGoal {
    goal: 0,
    asked: Asked::Show,
};

/// The session's next step after the answer to a line.
#[derive(Drop)]
pub(crate) enum Following {
    Nothing,
    /// This line, if a decision contradicts the page.
    Why(Vec<u8>),
    /// The questions about the goals, if the page was swept.
    Goals,
    /// The next question about the goals.
    Behind(OfGoal),
}

/// Returns the line that asks why a decision is refused.
fn why_line(alloc: Global, sign: u8, feature: &[u8]) -> Result<Vec<u8>, AllocError>
    ensures { IfOk result (λ line. line.items ≡ why_line sign feature.now) }
{
    let mut line = Vec::from_slice(alloc, b"why ")?;
    line.push(sign)?;
    line.extend_from_slice(feature)?;
    line.push(b'\n')?;
    Ok(line)
}

/// Returns the line of a command about a goal.
fn goal_line(alloc: Global, command: &[u8], goal: &[u8]) -> Result<Vec<u8>, AllocError>
    ensures { IfOk result (λ line. line.items ≡ goal_line command.now goal.now) }
{
    let mut line = Vec::from_slice(alloc, command)?;
    line.push(b' ')?;
    line.extend_from_slice(goal)?;
    line.push(b'\n')?;
    Ok(line)
}

/// Returns the line of a command about a vertex.
fn vertex_line(alloc: Global, command: &[u8], id: u32) -> Result<Vec<u8>, AllocError>
    ensures { IfOk result (λ line. line.items ≡ vertex_line command.now id) }
{
    let mut buffer = Buffer::new();
    let line = goal_line(alloc, command, buffer.format(id).as_bytes())?;
    Ok(line)
}

/// Returns the words after a session's label.
fn without_label<'w, 'l>(words: &'w [Word<'l>]) -> &'w [Word<'l>] {
    match words {
        [label, rest @ ..] if label.bytes.ends_with(b":") => rest,
        _ => words,
    }
}

/// Returns what follows the answer to these words.
pub(crate) fn behind_words(alloc: Global, words: &[Word<'_>]) -> Result<Following, AllocError> {
    match without_label(words) {
        [word, feature] if word.bytes == b"select".as_slice() => {
            Ok(Following::Why(why_line(alloc, b'+', feature.bytes)?))
        }
        [word, feature] if word.bytes == b"exclude".as_slice() => {
            Ok(Following::Why(why_line(alloc, b'-', feature.bytes)?))
        }
        [word, ..] if word.bytes == b"settle".as_slice() => Ok(Following::Goals),
        _ => Ok(Following::Nothing),
    }
}

/// Returns what is asked next about a goal, after an answer of this kind; `None` if nothing is.
fn next_asked(asked: Asked, heard: Heard) -> Option<Asked>
    ensures { result ≡ next_asked asked heard }
{
    match asked {
        Asked::Show => match heard {
            Heard::Hopeless => Some(Asked::Why),
            Heard::Nothing => Some(Asked::Decide),
            Heard::Fault | Heard::Unknown | Heard::Conflict | Heard::Refused | Heard::Swept => None,
        },
        Asked::Why => Some(Asked::Decide),
        Asked::Decide => None,
    }
}

/// Returns the next question about the goals, after an answer of this kind.
pub(crate) fn next_of(place: OfGoal, heard: Heard) -> OfGoal {
    let (goal, asked) = match next_asked(place.asked, heard) {
        Some(asked) => (place.goal, asked),
        None => (place.goal.saturating_add(1), Asked::Show),
    };
    OfGoal { goal, asked }
}

/// Returns the line of a question about the goal of this place, if there is one. A line `goals V ..` names the goals.
/// Before it, the vertex of this identifier is the only one; without it the session asks for `count`, once.
pub(crate) fn line_about(
    alloc: Global,
    goals: &Option<Vec<u8>>,
    start: Option<u32>,
    place: OfGoal,
) -> Result<Option<Vec<u8>>, AllocError> {
    let command: &[u8] = match place.asked {
        Asked::Show => b"show",
        Asked::Why => b"why",
        Asked::Decide => b"decide",
    };
    match (goals, start) {
        (Some(goals), _) => {
            let words = words_of(alloc, goals, b"")?;
            match words.get(place.goal.saturating_add(1)) {
                Some(word) => Ok(Some(goal_line(alloc, command, word.bytes)?)),
                None => Ok(None),
            }
        }
        (None, Some(id)) if place.goal == 0 => Ok(Some(vertex_line(alloc, command, id)?)),
        (None, None) if place.goal == 0 && place.asked == Asked::Show => {
            Ok(Some(Vec::from_slice(alloc, b"count\n")?))
        }
        _ => Ok(None),
    }
}
