//! The kinds of answers that a session hears, and a sink that listens.
ghost use Rattle.std.specs.Prelude.{◌≡◌, ◌≤◌, length};
ghost use Rattle.std.specs.List.{prefix_len};
ghost use Rattle.vpg_terminal.specs.Following.{behind_word, heard_of, is_within_word};

use std::cell::Cell;
use vpg_script::{Failed, Sink};

/// The kind of an answer, as a session hears it.
#[derive(Clone, Copy, Debug, PartialEq, Eq)]
pub enum Heard {
    /// The line is no command.
    Fault,
    /// No feature has the name that the line ends in.
    Unknown,
    /// A decision contradicts the page.
    Conflict,
    /// The line is refused for another reason.
    Refused,
    /// The page was swept.
    Swept,
    /// The vertex of its line, as `show V` answers it, is hopeless.
    Hopeless,
    /// None of these.
    Nothing,
}

/// Returns the number of bytes of the first word.
fn word_len(line: &[u8]) -> usize
    ensures len { result ≡ prefix_len is_within_word line.now }
    ensures within { result ≤ length line.now }
{
    line.iter().take_while(|b| **b != b' ').count()
}

/// Returns the text after the first word and the blank.
fn behind_word(line: &[u8]) -> &[u8]
    ensures { result.now ≡ behind_word line.now }
{
    let rest = &line[word_len(line)..];
    match rest {
        [_, rest @ ..] => rest,
        [] => rest,
    }
}

/// Returns the kind of an answer.
pub fn heard_of(answer: &[u8]) -> Heard
    ensures { result ≡ heard_of answer.now }
{
    if answer.starts_with(b"refused Word") || answer.starts_with(b"refused Args") {
        Heard::Fault
    } else if answer.starts_with(b"refused UnknownFeature") {
        Heard::Unknown
    } else if answer.starts_with(b"refused Conflict ") {
        Heard::Conflict
    } else if answer.starts_with(b"refused ") {
        Heard::Refused
    } else if answer.starts_with(b"settled ") || answer.starts_with(b"unsettled ") {
        Heard::Swept
    } else if behind_word(behind_word(behind_word(answer))).starts_with(b"hopeless ") {
        Heard::Hopeless
    } else {
        Heard::Nothing
    }
}

/// A sink that passes answers on, and notes the kind of each.
#[derive(Drop)]
pub struct Ear<'c, W> {
    writer: W,
    heard: &'c Cell<Heard>,
}

impl<'c, W: Sink> Ear<'c, W> {
    /// Returns an ear that passes on to this writer.
    pub fn new(writer: W, heard: &'c Cell<Heard>) -> Ear<'c, W>
        ensures contents { ⟦<Ear<'c, W> as Sink>⟧.contents result ≡ W.contents writer }
        ensures failed { ⟦<Ear<'c, W> as Sink>⟧.has_failed result ≡ W.has_failed writer }
    {
        Ear { writer, heard }
    }
}

impl<W: Sink> Sink for Ear<'_, W> {
    ghost contents = { λ e. W.contents e.writer };

    ghost has_failed = { λ e. W.has_failed e.writer };

    fn put(&mut self, bytes: &[u8]) -> Result<(), Failed> {
        self.heard.set(heard_of(bytes));
        self.writer.put(bytes)
    }
}
