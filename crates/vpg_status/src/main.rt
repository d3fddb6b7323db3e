//! The program `vpgdesk`, on rows of words and then on its own words.
//!
//! Each line of the file `rows`, in the folder that the program runs in, has the words of a call. The program writes
//! the line, and carries the words out as `vpgdesk` does. Then it writes `ends: ` and the end that its status means:
//! all is done, a fault, the line at which a strict script was refused, an assertion that failed, or wrong words. At
//! last it does what its own words ask for: they end its stored run with status 3, after the refusal of a strict
//! script. It ends with status 1 if the rows can't be read or written.
#![tactic(auto)]

use anyhow::Result;
use std::alloc::Global;
use std::fs;
use std::process::ExitCode;
use std::sync::Wait;
use std::thread::Threads;
use vpg_family::{Fault, Texts, line_of};
use vpg_program::{asked_by, carry_out, read_words};
use vpg_report::{End, refused_line, status};
use vpg_terminal::{help_end, read};

/// Returns the words of a line.
fn words_of(alloc: Global, line: &str) -> Result<Vec<String>> {
    let mut words = Vec::new(alloc);
    for word in line.split(' ') {
        words.push(String::from_str(alloc, word)?)?;
    }
    Ok(words)
}

/// Returns the line of an end.
fn text_of(alloc: Global, ended: &Result<End, Fault>) -> Result<Vec<u8>> {
    Ok(match ended {
        Ok(End::Done) => Vec::from_slice(alloc, b"done\n")?,
        Ok(End::Refused { line }) => refused_line(alloc, *line)?,
        Ok(End::Failed) => Vec::from_slice(alloc, b"failed\n")?,
        Ok(End::WrongWords) => Vec::from_slice(alloc, b"wrong words\n")?,
        Err(fault) => line_of(alloc, fault)?,
    })
}

/// Carries out the words of a line, and writes their end.
fn carry_out_line<T: Threads + Wait + Sync>(
    rt: &HostRuntime,
    threads: &T,
    line: &str,
) -> Result<()> {
    println!(rt; "{line}")?;
    let words = words_of(rt.alloc(), line)?;
    let help = help_end(rt.alloc())?;
    let asked = read(rt.alloc(), &words, &help);
    let mut texts = Texts::none(rt.alloc());
    let ended = carry_out(rt, threads, rt.alloc(), &asked, &mut texts);
    let text = text_of(rt.alloc(), &ended)?;
    print!(rt; "ends: {}", str::from_utf8(&text).unwrap_or("not UTF-8\n"))?;
    Ok(())
}

fn carry_out_all<T: Threads + Wait + Sync>(rt: &HostRuntime, threads: &T) -> Result<()> {
    let rows = fs::read_to_string(rt, "rows")?;
    for line in rows.lines() {
        carry_out_line(rt, threads, line)?;
    }
    Ok(())
}

/// Carries the program's own words out, and returns the status of their end.
fn carry_out_own<T: Threads + Wait + Sync>(rt: &HostRuntime, threads: &T) -> ExitCode {
    let alloc = rt.alloc();
    let spoken = read_words(rt, alloc);
    let asked = asked_by(alloc, &spoken);
    let mut texts = Texts::none(alloc);
    status(&carry_out(rt, threads, alloc, &asked, &mut texts))
}

fn main(rt: HostRuntime) -> ExitCode {
    match carry_out_all(&rt, &rt) {
        Ok(()) => carry_out_own(&rt, &rt),
        Err(_) => ExitCode::FAILURE,
    }
}
