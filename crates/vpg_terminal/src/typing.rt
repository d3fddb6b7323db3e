//! A script that is typed in.
ghost use Rattle.std.specs.Prelude.{◌≡◌, ◌≤◌, ◌++◌, ◌∷◌, [], None, IfOk, false, length, vec_len};

use crate::following::{FIRST, Following, OfGoal, behind_words, line_about, next_of};
use crate::hearing::Heard;
use crate::help::put_command;
use std::alloc::{AllocError, Global};
use std::cell::Cell;
use std::mem;
use vpg_features::Names;
use vpg_lint::{explain_line, put_message, put_place, put_unknown};
use vpg_places::{Line, Word, words_of};
use vpg_script::{Failed, Next, Sink, Source, next_line};

/// The prompt before each line on a terminal.
const PROMPT: &[u8] = b"> ";

/// The message about a word that names no command.
const UNKNOWN: &[u8] = b"no such command; `help` lists them\n";

/// The help on the session's own command.
const OWN: &str = "  goals V ..             after each `settle`, tell of these vertices";

/// A line's word to the session itself.
#[derive(Clone, Copy)]
enum SessionWord<'l> {
    Nothing,
    Help,
    /// Help on the commands of this word.
    HelpOf(&'l [u8]),
    /// The words after it name the goals.
    Goals,
    Quit,
}

fn asked_of<'l>(words: &[Word<'l>]) -> SessionWord<'l> {
    match words {
        [word, ..] if word.bytes == b"goals".as_slice() => SessionWord::Goals,
        [word] if word.bytes == b"quit".as_slice() => SessionWord::Quit,
        [word] if word.bytes == b"help".as_slice() => SessionWord::Help,
        [word, command] if word.bytes == b"help".as_slice() => SessionWord::HelpOf(command.bytes),
        _ => SessionWord::Nothing,
    }
}

/// The setting of a session: the list of commands, the names of features, whether it writes prompts, the identifier of
/// the first vertex, and the kind of the last answer.
#[derive(Clone, Copy)]
pub struct Setting<'c> {
    pub commands: &'c str,
    pub features: &'c Names,
    pub is_prompted: bool,
    pub start: Option<u32>,
    pub heard: &'c Cell<Heard>,
}

/// A line that is handed on, and what follows its answer.
#[derive(Drop)]
struct Handed {
    line: Vec<u8>,
    following: Following,
}

/// Returns an empty line, which asks a script for nothing.
fn nothing(alloc: Global) -> Result<Handed, AllocError> {
    Ok(Handed {
        line: Vec::from_slice(alloc, b"\n")?,
        following: Following::Nothing,
    })
}

/// Returns the line itself, if it asks nothing of the session.
fn as_typed(alloc: Global, line: &[u8], words: &[Word<'_>]) -> Result<Handed, AllocError>
    ensures { IfOk result (λ handed. handed.line.items ≡ line.now ++ 10 ∷ []) }
{
    let mut copy = Vec::from_slice(alloc, line)?;
    copy.push(b'\n')?;
    let following = behind_words(alloc, words)?;
    Ok(Handed {
        line: copy,
        following,
    })
}

/// Writes how commands are written.
fn tell_help<W: Sink>(
    alloc: Global,
    commands: &str,
    command: &[u8],
    talk: &mut W,
) -> Result<(), AllocError> {
    let mut text = Vec::new(alloc);
    let is_listed = put_command(alloc, commands, command, &mut text)?;
    let is_own = put_command(alloc, OWN, command, &mut text)?;
    if !is_listed && !is_own {
        text.extend_from_slice(UNKNOWN)?;
    }
    // If this fails the answers are still to come.
    let _ = talk.put(&text);
    Ok(())
}

/// Carries out a line that was typed. Returns the line that is handed on for it, or `None` if the session ends.
fn meet<W: Sink>(
    alloc: Global,
    setting: Setting<'_>,
    line: &[u8],
    goals: &mut Option<Vec<u8>>,
    talk: &mut W,
) -> Result<Option<Handed>, AllocError> {
    let words = words_of(alloc, line, b"")?;
    let handed = match asked_of(&words) {
        SessionWord::Quit => return Ok(None),
        SessionWord::Help => {
            let _ = talk.put(setting.commands.as_bytes());
            let _ = talk.put(b"\n");
            let _ = talk.put(OWN.as_bytes());
            let _ = talk.put(b"\n");
            nothing(alloc)?
        }
        SessionWord::Goals => {
            *goals = Some(Vec::from_slice(alloc, line)?);
            nothing(alloc)?
        }
        SessionWord::HelpOf(command) => {
            tell_help(alloc, setting.commands, command, talk)?;
            nothing(alloc)?
        }
        SessionWord::Nothing => as_typed(alloc, line, &words)?,
    };
    Ok(Some(handed))
}

/// Returns the name in a word, which may have the sign of a decision before it, and its place.
fn name_in<'l>(word: Word<'l>) -> Word<'l> {
    match word.bytes {
        [b'+' | b'-', bytes @ ..] => Word {
            at: word.at.saturating_add(1),
            bytes,
        },
        _ => word,
    }
}

/// Returns the message on which feature was perhaps meant by the last word of a line.
fn unknown(alloc: Global, line: Line<'_>, features: &Names) -> Result<Vec<u8>, AllocError> {
    let words = words_of(alloc, line.bytes, b"")?;
    let mut text = Vec::new(alloc);
    if let Some(last) = words.last() {
        let name = name_in(*last);
        put_place("line", line.place(name.at), &mut text)?;
        put_unknown(alloc, features, name.bytes, &mut text)?;
    }
    Ok(text)
}

/// Returns the message why a line is no command.
fn fault_text(alloc: Global, line: Line<'_>) -> Result<Vec<u8>, AllocError> {
    let message = explain_line(alloc, line.number, line.bytes)?;
    let mut text = Vec::new(alloc);
    put_message("line", &message, &mut text)?;
    Ok(text)
}

/// The text that was typed so far, and the line that is handed on.
#[derive(Drop)]
struct Session<'c, R: Source, W> {
    alloc: Global,
    setting: Setting<'c>,
    reader: R,
    talk: W,
    /// Text that was read and not looked at, and how often it was read.
    held: Vec<u8>,
    reads: u32,
    /// The number of lines that were typed.
    typed: usize,
    /// The line that is handed on, how much of it was, and what follows its answer.
    line: Vec<u8>,
    given: usize,
    following: Following,
    /// The line that named the goals, if one did.
    goals: Option<Vec<u8>>,
    /// The next line is the rest of one that is too long.
    is_within: bool,
    has_ended: bool,
    ghost counted: { R.calls reader ≡ reads },
    ghost few: { reads ≤ 16777216 },
    ghost within: { given ≤ vec_len line },
}

impl<'c, R: Source, W: Sink> Session<'c, R, W> {
    fn new(alloc: Global, setting: Setting<'c>, reader: R, talk: W) -> Session<'c, R, W>
        requires { R.calls reader ≡ 0 }
    {
        Session {
            alloc,
            setting,
            reader,
            talk,
            held: Vec::new(alloc),
            reads: 0,
            typed: 0,
            line: Vec::new(alloc),
            given: 0,
            following: Following::Nothing,
            goals: None,
            is_within: false,
            has_ended: false,
        }
    }

    /// Takes a line that is to be handed on, and what follows its answer.
    fn take(&mut self, line: Vec<u8>, following: Following) {
        self.given = 0;
        self.line = line;
        self.following = following;
    }

    /// Takes the end: no line is to be handed on.
    fn end(&mut self) {
        self.take(Vec::new(self.alloc), Following::Nothing);
        self.has_ended = true;
    }

    /// Takes the session's own line after an answer, if there is one. Returns whether there is.
    fn own(&mut self, heard: Heard) -> Result<bool, AllocError> {
        match mem::replace(&mut self.following, Following::Nothing) {
            Following::Why(line) if heard == Heard::Conflict => {
                self.take(line, Following::Nothing);
                Ok(true)
            }
            Following::Goals if heard == Heard::Swept => self.ask(FIRST),
            Following::Behind(place) => self.ask(next_of(place, heard)),
            _ => Ok(false),
        }
    }

    /// Takes the line of a question about the goal of a place, if there is one. Returns whether there is.
    fn ask(&mut self, place: OfGoal) -> Result<bool, AllocError> {
        match line_about(self.alloc, &self.goals, self.setting.start, place)? {
            Some(line) => {
                self.take(line, Following::Behind(place));
                Ok(true)
            }
            None => Ok(false),
        }
    }

    /// Takes a line that was typed, or the rest of one that is too long.
    fn meet(&mut self, line: Vec<u8>) -> Result<(), AllocError> {
        let handed = if self.is_within {
            Some(as_typed(self.alloc, &line, &[])?)
        } else {
            let (goals, talk) = (&mut self.goals, &mut self.talk);
            meet(self.alloc, self.setting, &line, goals, talk)?
        };
        self.is_within = false;
        match handed {
            Some(Handed { line, following }) => self.take(line, following),
            None => self.end(),
        }
        Ok(())
    }

    /// Waits for the next line.
    fn listen(&mut self) -> Result<(), Failed> {
        if self.setting.is_prompted && !self.is_within {
            let _ = self.talk.put(PROMPT);
        }
        self.typed = self.typed.saturating_add(1);
        let (held, reads) = (&mut self.held, &mut self.reads);
        match next_line(self.alloc, held, reads, &mut self.reader) {
            Ok(Next::Line(line)) => return self.meet(line).map_err(|_| Failed),
            Ok(Next::TooLong) => {
                let line = mem::replace(&mut self.held, Vec::new(self.alloc));
                self.is_within = true;
                self.take(line, Following::Nothing);
            }
            Ok(Next::End) => self.end(),
            Err(_) => return Err(Failed),
        }
        Ok(())
    }

    /// Says what is wrong with the line that was answered, if it is wrong.
    fn explain(&mut self, heard: Heard) {
        let text = self.line.as_slice();
        let line = Line {
            number: self.typed,
            from: 0,
            bytes: text.strip_suffix(b"\n").unwrap_or(text),
        };
        let told = match heard {
            Heard::Fault => fault_text(self.alloc, line),
            Heard::Unknown => unknown(self.alloc, line, self.setting.features),
            _ => return,
        };
        if let Ok(text) = told {
            // If this fails the answers are still to come.
            let _ = self.talk.put(&text);
        }
    }

    /// Takes the next line, the session's own or a typed one.
    fn next(&mut self) -> Result<(), Failed> {
        let heard = self.setting.heard.replace(Heard::Nothing);
        self.explain(heard);
        match self.own(heard) {
            Ok(true) => Ok(()),
            Ok(false) => self.listen(),
            Err(_) => Err(Failed),
        }
    }

    /// Whether the line was handed on, and a next one may come.
    fn is_spent(&self) -> bool {
        self.given >= self.line.len() && !self.has_ended
    }

    /// Hands on the rest of the line, as much as there is room for.
    fn hand_on(&mut self, buf: &mut [u8]) -> usize
        ensures bound { result ≤ length buf.new }
        ensures len { length buf.new ≡ length buf.old }
    {
        let n = (self.line.len() - self.given).min(buf.len());
        buf[..n].copy_from_slice(&self.line[self.given..self.given + n]);
        self.given += n;
        n
    }
}

/// A script that is typed in. It ends with its reader, or at a line `quit`.
#[derive(Drop)]
pub struct Typed<'c, R: Source, W> {
    session: Session<'c, R, W>,
    failed: bool,
    calls: u32,
}

impl<'c, R: Source, W: Sink> Typed<'c, R, W> {
    /// Returns a script from this reader, which was not read yet. The text beside the answers goes to `talk`.
    pub fn new(alloc: Global, setting: Setting<'c>, reader: R, talk: W) -> Typed<'c, R, W>
        requires { R.calls reader ≡ 0 }
        ensures unread { ⟦<Typed<'c, R, W> as Source>⟧.calls result ≡ 0 }
        ensures sound { ⟦<Typed<'c, R, W> as Source>⟧.has_failed result ≡ false }
    {
        Typed {
            session: Session::new(alloc, setting, reader, talk),
            failed: false,
            calls: 0,
        }
    }
}

impl<R: Source + Drop, W: Sink> Typed<'_, R, W> {
    /// Returns the sink of the text beside the answers.
    pub fn into_talk(self) -> W {
        let session = self.session;
        session.talk
    }
}

impl<R: Source, W: Sink> Source for Typed<'_, R, W> {
    ghost remaining = { λ _. None };

    ghost has_failed = { λ d. d.failed };

    ghost calls = { λ d. d.calls };

    fn fill(&mut self, buf: &mut [u8]) -> Result<usize, Failed> {
        self.calls += 1;
        if self.session.is_spent() {
            if let Err(failed) = self.session.next() {
                self.failed = true;
                return Err(failed);
            }
        }
        Ok(self.session.hand_on(buf))
    }
}
