//! The next line of a script is read, and its answer written.
ghost use Rattle.std.specs.Prelude.{◌≡◌, ◌++◌, ◌∷◌, [], codes, ℕ, ◌≤◌, ◌<◌, ◌⊎◌, List, OnOk, OnErr, OnSome, IfOk, IfErr, IsErrOf, Ok, Err, true, false, vec_len};
ghost use Rattle.std.specs.Io.KnownBytes.{Appends, prepend_known};
ghost use Rattle.vpg_script.specs.Devices.{AppendsSome};
ghost use Rattle.vpg_script.specs.Script.{said};
ghost use Rattle.vpg_script.specs.Lines.{lines_left};
ghost use Rattle.vpg_script.specs.Framing.{framed};
ghost use Rattle.vpg_script.specs.Manners.{fault_answer};
ghost use Rattle.vpg_script.specs.Results.{UnlessReaderFails, UnlessWriterFails, PutOutcome, FaultOutcome, AskedBy, AskedOutcome, HasLine};
ghost use Rattle.vpg_script.specs.declared.command.LineFault.{LineFault as Fault};

use crate::command::{LineFault, ReadFault, Request, read_line};
use crate::device::{Sink, Source};
use crate::fault::RunFault;
use crate::framing::{Form, json_text};
use crate::lines::{Next, next_line, pass_line};
use crate::serving::Manner;
use crate::tone::Tone;
use std::alloc::Global;

/// Returns the text of the answer to a line with a fault, if the script goes on.
fn fault_text(fault: LineFault) -> &'static [u8]
    ensures { result.now ≡ (fault_answer fault).text }
{
    match fault {
        LineFault::Word => b"refused Word\n",
        LineFault::Args => b"refused Args\n",
        LineFault::TooLong => b"refused TooLong\n",
    }
}

/// Writes the text of an answer.
fn put_text<W: Sink>(text: &[u8], writer: &mut W) -> Result<(), RunFault>
    ensures ok { OnOk result (Appends (W.contents writer.old) (W.contents writer.new) text.now) }
    ensures same { OnOk result (W.has_failed writer.new ≡ W.has_failed writer.old) }
    ensures err { IfErr result (λ stop. stop ≡ RunFault.Write) }
    ensures some { OnErr result (AppendsSome (W.contents writer.old) (W.contents writer.new) text.now) }
    ensures failed { OnErr result (W.has_failed writer.new ≡ true) }
{
    match writer.put(text) {
        Ok(()) => Ok(()),
        Err(_) => Err(RunFault::Write),
    }
}

/// Writes the answer of this tone and text to the line of this number, in a form. Returns the tone.
pub fn put_answer<W: Sink>(
    alloc: Global,
    form: Form,
    number: u64,
    tone: Tone,
    text: &[u8],
    writer: &mut W,
) -> Result<Tone, RunFault>
    ensures outcome { PutOutcome (framed form number (record { tone = tone; text = text.now })) tone
        (W.contents writer.old) (W.contents writer.new) result }
    ensures write_failed { IsErrOf result RunFault.Write → W.has_failed writer.new ≡ true }
    ensures writable { UnlessWriterFails result (W.has_failed writer.new ≡ W.has_failed writer.old) }
{
    match form {
        Form::Plain => {
            put_text(text, writer)?;
            Ok(tone)
        }
        Form::Json => {
            let line = json_text(alloc, number, tone, text)?;
            put_text(&line, writer)?;
            Ok(tone)
        }
    }
}

/// Answers a line with a fault, if the script goes on.
#[tactic(auto, using(crate::proofs::MannerLemmas::fault_is_put))]
pub fn answer_fault<W: Sink>(
    alloc: Global,
    manner: Manner,
    number: u64,
    fault: LineFault,
    writer: &mut W,
) -> Result<Tone, RunFault>
    ensures outcome { FaultOutcome manner number fault (W.contents writer.old) (W.contents writer.new) result }
    ensures write_failed { IsErrOf result RunFault.Write → W.has_failed writer.new ≡ true }
    ensures writable { UnlessWriterFails result (W.has_failed writer.new ≡ W.has_failed writer.old) }
{
    if !manner.goes_on {
        return Err(RunFault::Line {
            line: number,
            fault,
        });
    }
    let text = fault_text(fault);
    put_answer(alloc, manner.form, number, Tone::Refused, text, writer)
}

/// The next line of a script.
pub enum Asked<'l> {
    /// It asks for this.
    Request(Request<'l>),
    /// It is blank, or a comment.
    Nothing,
    Fault(LineFault),
    /// There is none.
    End,
}

// Not derived: a derived `drop` would be proved again at each exit that owns such a value.
impl Drop for Asked<'_> {
    fn drop(self) {
        match self {
            Asked::Request(_) => {}
            Asked::Nothing => {}
            Asked::Fault(_) => {}
            Asked::End => {}
        }
    }
}

/// Returns what a line asks for.
fn asked_by(alloc: Global, line: &[u8]) -> Result<Asked<'_>, RunFault>
    ensures { AskedBy (said line.now) result }
{
    match read_line(alloc, line) {
        Ok(Some(request)) => Ok(Asked::Request(request)),
        Ok(None) => Ok(Asked::Nothing),
        Err(ReadFault::Line(fault)) => Ok(Asked::Fault(fault)),
        Err(ReadFault::Memory) => Err(RunFault::Memory),
    }
}

/// Returns the next line, kept in `line`. One that is too long is read to its end if the script goes on. `held` has the
/// bytes that were read and not used; `reads` counts the reads.
pub fn next_request<'l, R: Source>(
    alloc: Global,
    goes_on: bool,
    line: &'l mut Vec<u8>,
    held: &mut Vec<u8>,
    reads: &mut u32,
    reader: &mut R,
) -> Result<Asked<'l>, RunFault>
    requires few { reads.old ≤ 16777216 }
    requires calls { R.calls reader.old ≡ reads.old }
    ensures calls { R.calls reader.new ≡ reads.new }
    ensures reads { reads.new ≤ 16777216 }
    ensures outcome { AskedOutcome goes_on (prepend_known held.old.items (R.remaining reader.old))
        (prepend_known held.new.items (R.remaining reader.new)) (R.remaining reader.new) result }
    ensures fewer { IfOk result (λ asked. HasLine goes_on asked →
        lines_left reads.new (vec_len held.new) < lines_left reads.old (vec_len held.old)) }
    ensures cause { IsErrOf result RunFault.Read → (R.has_failed reader.new ≡ true) ⊎ (reads.new ≡ 16777216) }
    ensures readable { UnlessReaderFails result (R.has_failed reader.new ≡ R.has_failed reader.old) }
{
    match next_line(alloc, held, reads, reader)? {
        Next::Line(read) => {
            *line = read;
            asked_by(alloc, line)
        }
        Next::TooLong => {
            if goes_on {
                pass_line(held, reads, reader)?;
            }
            Ok(Asked::Fault(LineFault::TooLong))
        }
        Next::End => Ok(Asked::End),
    }
}
