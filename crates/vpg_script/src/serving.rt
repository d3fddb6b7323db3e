//! A script is read and answered line by line.
ghost use Rattle.std.specs.Prelude.{◌≡◌, ℕ, ◌≤◌, OnOk, IfOk, IsErrOf, ◌⊎◌, ◌&&◌, ◌||◌, true};
ghost use Rattle.std.specs.Thread.{IsSync};
ghost use Rattle.vpg_script.specs.View.{request_shown};
ghost use Rattle.vpg_script.specs.Answer.{Gives, is_failed, is_refused};
ghost use Rattle.vpg_script.specs.Results.{UnlessReaderFails, UnlessWriterFails, ending_of};
ghost use Rattle.vpg_script.specs.Output.{Machine, ScriptOutcome};
ghost use Rattle.vpg_script.specs.Manners.{Leaves, MannerOutcome};

use crate::answering::{Asked, answer_fault, next_request, put_answer};
use crate::command::Request;
use crate::device::{Sink, Source};
use crate::fault::RunFault;
use crate::framing::Form;
use crate::tone::Tone;
use std::alloc::{AllocError, Global};
use std::sync::Wait;
use std::thread::Threads;
use thiserror::Error;

/// Why a server doesn't carry a request out.
#[derive(Clone, Copy, Debug, Error)]
pub enum ServeFault {
    #[error("Memory")]
    Memory,
    /// Others used what the server serves.
    #[error("Stray")]
    Stray,
}

impl From<AllocError> for ServeFault {
    ghost use Rattle.vpg_script.specs.declared.serving.ServeFault.TheVariants.{Memory};

    ghost from_gives = { λ _ fault. fault ≡ Memory };

    fn from(_e: AllocError) -> ServeFault {
        ServeFault::Memory
    }
}

/// A server, which carries requests out.
pub trait Server {
    // The part that no request changes.
    ghost Scene: { Type 0 };

    // The part that requests change.
    ghost State: { Type 0 };

    // Its answers to requests, with this many lifters for sweeps.
    ghost answering: { Scene → ℕ → Machine State };

    ghost scene: { Self → Scene };

    ghost state: { Self → State };

    /// Carries a request out, with this many lifters for sweeps. Appends the text of its answer, and returns the
    /// answer's tone.
    fn serve<T: Threads + Wait + Sync>(
        &mut self,
        rt: &T,
        alloc: Global,
        lifters: u32,
        request: &Request<'_>,
        out: &mut Vec<u8>,
    ) -> Result<Tone, ServeFault>
        requires sync { IsSync T.row }
        requires lifters { (1 ≤ lifters) × (lifters ≤ 64) }
        ensures answer { IfOk result
            (λ tone. Gives
            (λ answer. answering (scene self.old) lifters (state self.old) (request_shown request.now) answer
            (state self.new)) tone out.old.items out.new.items) }
        ensures scene { OnOk result (scene self.new ≡ scene self.old) };
}

/// How a script goes on after refusals and lines with a fault, and the form of its answers.
#[derive(Clone, Copy, Debug, PartialEq, Eq)]
pub struct Manner {
    /// The first refusal ends the script.
    pub is_strict: bool,
    /// A line with a fault is answered `refused Word`, `refused Args` or `refused TooLong`, and the script goes on.
    /// Else it ends there.
    pub goes_on: bool,
    /// Each answer is written in this form.
    pub form: Form,
}

/// The end of a script with its lines answered.
#[derive(Clone, Copy, Debug, PartialEq, Eq)]
pub enum Ending {
    /// All lines were answered, and no assertion failed.
    Whole,
    /// All lines were answered, and an assertion failed.
    Failed,
    /// The script is strict, and the line of this number, from 1, was refused. No line after it was carried out.
    Refused { line: u64 },
}

/// Whether an answer ends the script.
fn is_last(tone: Tone, manner: Manner) -> bool
    ensures { result ≡ (is_refused tone && manner.is_strict) }
{
    tone == Tone::Refused && manner.is_strict
}

/// Whether an answer fails, or one before it did.
fn has_failed(failed: bool, tone: Tone) -> bool
    ensures { result ≡ (failed || is_failed tone) }
{
    failed || tone == Tone::Failed
}

/// Returns the ending of a script with all its lines answered, by whether an assertion failed.
fn ending_of(failed: bool) -> Ending
    ensures { result ≡ ending_of failed }
{
    if failed {
        Ending::Failed
    } else {
        Ending::Whole
    }
}

/// Reads a script, and answers its lines in order, each before the next is read.
///
/// A strict script ends at the first refusal: the first answer with the tone `Refused`. Else it ends after its last
/// line, and `Failed` says that some answer had the tone `Failed`, as that of an assertion that fails has. `Line` comes
/// only if a script ends at a line with a fault, and `Read` and `Write` as the script meets them; `Memory` only if a
/// growth was refused, and `Stray` if the server answers so.
pub fn answer_script_as<T: Threads + Wait + Sync, V: Server, R: Source, W: Sink>(
    rt: &T,
    alloc: Global,
    lifters: u32,
    manner: Manner,
    server: &mut V,
    reader: &mut R,
    writer: &mut W,
) -> Result<Ending, RunFault>
    requires unread { R.calls reader.old ≡ 0 }
    requires lifters { (1 ≤ lifters) × (lifters ≤ 64) }
    // The answers to the lines that were read are written, and the result is their end.
    ensures output { MannerOutcome manner (V.answering (V.scene server.old) lifters) (V.state server.old)
        (R.remaining reader.old) (R.remaining reader.new) (W.contents writer.old) (W.contents writer.new) result }
    // A script that came to an ending leaves the server in the state after its answers.
    ensures left { IfOk result (Leaves manner (V.answering (V.scene server.old) lifters) (V.state server.old)
        (V.state server.new) (R.remaining reader.old) (W.contents writer.old) (W.contents writer.new)) }
    // Read and Write are returned only if the device failed, or the reads were used up.
    ensures read { IsErrOf result RunFault.Read → (R.has_failed reader.new ≡ true) ⊎
        (R.calls reader.new ≡ 16777216) }
    ensures write { IsErrOf result RunFault.Write → W.has_failed writer.new ≡ true }
    // A failed device is reported.
    ensures readable { UnlessReaderFails result (R.has_failed reader.new ≡ R.has_failed reader.old) }
    ensures writable { UnlessWriterFails result (W.has_failed writer.new ≡ W.has_failed writer.old) }
{
    let mut held = Vec::new(alloc);
    let mut reads = 0;
    let mut number = 1;
    let mut failed = false;
    'lines: loop {
        let mut line = Vec::new(alloc);
        let asked = next_request(
            alloc,
            manner.goes_on,
            &mut line,
            &mut held,
            &mut reads,
            reader,
        )?;
        let answered = match &asked {
            Asked::Request(request) => {
                let mut text = Vec::new(alloc);
                let tone = server.serve(rt, alloc, lifters, request, &mut text)?;
                put_answer(alloc, manner.form, number, tone, &text, writer)
            }
            Asked::Nothing => Ok(Tone::Done),
            Asked::Fault(fault) => answer_fault(alloc, manner, number, *fault, writer),
            Asked::End => return Ok(ending_of(failed)),
        };
        let tone = answered?;
        if is_last(tone, manner) {
            return Ok(Ending::Refused { line: number });
        }
        failed = has_failed(failed, tone);
        number += 1;
    }
}

/// Reads a script, and answers its lines in order, each before the next is read. Refusals and assertions that fail are
/// answers as others are; a line with a fault ends the script.
///
/// `Line`, `Read` and `Write` come as the script meets them, `Memory` only if a growth was refused, and `Stray` if the
/// server answers so.
pub fn answer_script<T: Threads + Wait + Sync, V: Server, R: Source, W: Sink>(
    rt: &T,
    alloc: Global,
    lifters: u32,
    server: &mut V,
    reader: &mut R,
    writer: &mut W,
) -> Result<(), RunFault>
    requires unread { R.calls reader.old ≡ 0 }
    requires lifters { (1 ≤ lifters) × (lifters ≤ 64) }
    // The output for the lines that were read is written.
    ensures output { ScriptOutcome (V.answering (V.scene server.old) lifters) (V.state server.old)
        (R.remaining reader.old) (R.remaining reader.new) (W.contents writer.old) (W.contents writer.new) result }
    // Read and Write are returned only if the device failed, or the reads were used up.
    ensures read { IsErrOf result RunFault.Read → (R.has_failed reader.new ≡ true) ⊎
        (R.calls reader.new ≡ 16777216) }
    ensures write { IsErrOf result RunFault.Write → W.has_failed writer.new ≡ true }
    // A failed device is reported.
    ensures readable { UnlessReaderFails result (R.has_failed reader.new ≡ R.has_failed reader.old) }
    ensures writable { UnlessWriterFails result (W.has_failed writer.new ≡ W.has_failed writer.old) }
{
    let plain = Manner {
        is_strict: false,
        goes_on: false,
        form: Form::Plain,
    };
    match answer_script_as(rt, alloc, lifters, plain, server, reader, writer) {
        Ok(_) => Ok(()),
        Err(fault) => Err(fault),
    }
}
