//! `vpgdesk` configures product families whose behaviour is a variability parity game.
//!
//! Its words, its output and its statuses are described at the head of `vpg_program`. Its stored run carries out a
//! script on the built-in family, and ends with status 0.
#![tactic(auto)]

use std::process::ExitCode;
use vpg_family::Texts;
use vpg_program::{asked_by, carry_out, read_words, report};
use vpg_report::status;

fn main(rt: HostRuntime) -> ExitCode {
    let alloc = rt.alloc();
    let spoken = read_words(&rt, alloc);
    let asked = asked_by(alloc, &spoken);
    let mut texts = Texts::none(alloc);
    // (the runtime is handed in twice: for files, and for the threads of lifters)
    let ended = carry_out(&rt, &rt, alloc, &asked, &mut texts);
    report(&rt, alloc, &asked, &texts, &ended);
    status(&ended)
}
