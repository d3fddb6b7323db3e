//! The words of the command line, and the messages on standard error.
use clap::Error;
use clap::error::ErrorKind;
use std::alloc::{AllocError, Global};
use std::{env, io};
use vpg_family::Fault;
use vpg_report::End;
use vpg_script::{Device, Sink};
use vpg_terminal::{Invocation, help_end, not_text, read};

/// The program's words, the first of which is its name, and the end of its help.
#[derive(Drop)]
pub struct Spoken {
    words: Vec<String>,
    help: String,
}

/// Returns the program's words.
fn words_of(rt: &HostRuntime, alloc: Global) -> Result<Vec<String>, io::ErrorKind> {
    match env::args(rt) {
        Ok(words) => match words.collect(alloc) {
            Ok(words) => Ok(words),
            Err(_) => Err(io::ErrorKind::OutOfMemory),
        },
        Err(error) => Err(error.kind()),
    }
}

/// Returns the program's words, and the end of its help.
pub fn read_words(rt: &HostRuntime, alloc: Global) -> Result<Spoken, io::ErrorKind> {
    let words = words_of(rt, alloc)?;
    match help_end(alloc) {
        Ok(help) => Ok(Spoken { words, help }),
        Err(_) => Err(io::ErrorKind::OutOfMemory),
    }
}

/// Returns what the words ask for, or the message that is to be printed in its place.
pub fn asked_by(
    alloc: Global,
    spoken: &Result<Spoken, io::ErrorKind>,
) -> Result<Invocation<'_>, Error> {
    match spoken {
        Ok(spoken) => read(alloc, &spoken.words, &spoken.help),
        Err(why) => Err(unread(alloc, *why)),
    }
}

/// Returns the message that the words can't be read, for this reason.
fn unread(alloc: Global, why: io::ErrorKind) -> Error {
    if why == io::ErrorKind::OutOfMemory {
        return Error::from(AllocError);
    }
    match not_text(alloc) {
        Ok(told) => told,
        Err(fault) => Error::from(fault),
    }
}

/// Prints the message about the words: help and the version to standard output, their fault to standard error.
pub(crate) fn print(rt: &HostRuntime, told: &Error) -> Result<End, Fault> {
    let kind = told.kind();
    if matches!(kind, ErrorKind::OutOfMemory) {
        return Err(Fault::Memory);
    }
    let is_printed = told.print(rt).is_ok();
    match kind {
        ErrorKind::DisplayHelp | ErrorKind::DisplayVersion if is_printed => Ok(End::Done),
        ErrorKind::DisplayHelp | ErrorKind::DisplayVersion => Err(Fault::Write),
        // If it isn't printed, only the status says that the words are wrong.
        _ => Ok(End::WrongWords),
    }
}

/// Writes a line and the lines that explain it. If this fails, only the status reports the fault.
fn put_told<W: Sink + Drop>(mut writer: W, line: &[u8], lines: &[u8]) {
    let _ = writer.put(line);
    let _ = writer.put(lines);
}

/// Reports a fault, or the refusal of a strict script, in one line on standard error, and then in the lines that
/// explain it.
pub(crate) fn tell(rt: &HostRuntime, line: Result<Vec<u8>, AllocError>, lines: &[u8]) {
    let writer = Device::writer(rt.stderr().lock());
    match line {
        Ok(line) => put_told(writer, &line, lines),
        Err(_) => put_told(writer, b"vpgdesk: Memory\n", lines),
    }
}
