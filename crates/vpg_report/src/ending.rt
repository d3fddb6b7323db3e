//! The program's end.
ghost use Rattle.std.specs.Prelude.{◌≡◌, Ok, Err, IfOk, IfErr};
ghost use Rattle.std.specs.Process.{exit_status};
ghost use Rattle.vpg_report.specs.Ends.{ended, status_of, refused_text};

use std::alloc::{AllocError, Global};
use std::process::ExitCode;
use vpg_family::Fault;
use vpg_script::Ending;

/// The program's end if it doesn't fail.
#[derive(Clone, Copy)]
pub enum End {
    /// The program did what its words asked for.
    Done,
    /// A strict script was refused at the line of this number, from 1; a message says so.
    Refused { line: u64 },
    /// An assertion of the script failed.
    Failed,
    /// The words are wrong; a message says so.
    WrongWords,
}

/// Turns a script's end into the program's.
pub fn ended(ending: Ending) -> End
    ensures { result ≡ ended ending }
{
    match ending {
        Ending::Whole => End::Done,
        Ending::Failed => End::Failed,
        Ending::Refused { line } => End::Refused { line },
    }
}

/// Turns a run's result into the program's.
pub fn end_of(run: Result<Ending, Fault>) -> Result<End, Fault>
    ensures ok { IfOk run (λ ending. result ≡ Ok (ended ending)) }
    ensures fault { IfErr run (λ fault. result ≡ Err fault) }
{
    match run {
        Ok(ending) => Ok(ended(ending)),
        Err(fault) => Err(fault),
    }
}

/// Returns the program's exit status.
pub fn status(ended: &Result<End, Fault>) -> ExitCode
    ensures { exit_status result ≡ status_of ended.now }
{
    match ended {
        Ok(End::Done) => ExitCode::SUCCESS,
        Ok(End::Refused { line: _ }) | Ok(End::Failed) => ExitCode::from(3),
        Ok(End::WrongWords) => ExitCode::from(2),
        Err(_) => ExitCode::FAILURE,
    }
}

/// Returns the message that names the line at which a strict script was refused.
pub fn refused_line(alloc: Global, line: u64) -> Result<Vec<u8>, AllocError>
    ensures { IfOk result (λ text. text.items ≡ refused_text line) }
{
    let number = line.to_string(alloc)?;
    let mut text = Vec::new(alloc);
    text.extend_from_slice(b"vpgdesk: script Line ")?;
    text.extend_from_slice(number.as_bytes())?;
    text.extend_from_slice(b" Refused\n")?;
    Ok(text)
}
