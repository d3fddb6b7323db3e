//! The lines that answer commands.
ghost use Rattle.std.specs.Prelude.{◌≡◌, ◌++◌, ◌∷◌, ◌<◌, ℕ, List, length, codes, IfOk, IsErrOf, IsOkUnless};
ghost use Rattle.vpg_engine.specs.Answers.{full_log, numbered, own_of, own_text, refusal_text, settled_text};
ghost use Rattle.vpg_engine.specs.Engine.{IsFaultWithin, IsNamedWithin, TellsFault};
ghost use Rattle.vpg_script.specs.Answer.{IsGiven, done, refused};
ghost use Rattle.vpg_texts.specs.Text.{blank_number, blank_name};

use crate::fault::ClientFault;
use vpg_answers::Missing;
use vpg_faults::{Refusal, Refuses};
use vpg_features::Names;
use vpg_script::{ServeFault, Tone};
use vpg_texts::{blank_name, blank_number};

/// Writes a word and a number, and returns the tone of a line that is carried out.
pub(crate) fn numbered(word: &[u8], n: u64, out: &mut Vec<u8>) -> Result<Tone, ServeFault>
    ensures told { IfOk result (λ tone. IsGiven (done (numbered word.now n)) tone out.old.items out.new.items) }
    ensures memory { IsOkUnless result ServeFault.Memory }
{
    out.extend_from_slice(word)?;
    blank_number(n, out)?;
    out.extend_from_slice(b"\n")?;
    Ok(Tone::Done)
}

/// Writes whether the page is settled, and how many entries were added.
pub(crate) fn settled(settled: bool, added: u32, out: &mut Vec<u8>) -> Result<Tone, ServeFault>
    ensures told { IfOk result (λ tone. IsGiven (done (settled_text settled added)) tone out.old.items out.new.items) }
    ensures memory { IsOkUnless result ServeFault.Memory }
{
    if settled {
        numbered(b"settled", added as u64, out)
    } else {
        numbered(b"unsettled", added as u64, out)
    }
}

/// Writes a refusal of one word.
pub(crate) fn refused(why: &[u8], out: &mut Vec<u8>) -> Result<Tone, ServeFault>
    ensures told { IfOk result (λ tone. IsGiven (refused why.now) tone out.old.items out.new.items) }
    ensures memory { IsOkUnless result ServeFault.Memory }
{
    out.extend_from_slice(b"refused ")?;
    out.extend_from_slice(why)?;
    out.extend_from_slice(b"\n")?;
    Ok(Tone::Refused)
}

/// Writes the refusal of a look for which this is missing.
pub fn put_missing(what: Missing, out: &mut Vec<u8>) -> Result<Tone, ServeFault>
    ensures told { IfOk result (λ tone. IsGiven (refused (own_text (own_of what))) tone out.old.items out.new.items) }
    ensures memory { IsOkUnless result ServeFault.Memory }
{
    match what {
        Missing::Vertex => refused(b"NoVertex", out),
        Missing::Feature => refused(b"UnknownFeature", out),
        Missing::System => refused(b"NoSystem", out),
    }
}

/// Writes a refusal that names a serial.
fn refused_at(why: &[u8], serial: u64, out: &mut Vec<u8>) -> Result<Tone, ServeFault>
    ensures told { IfOk result
        (λ tone. IsGiven (refused (why.now ++ blank_number serial)) tone out.old.items out.new.items) }
    ensures memory { IsOkUnless result ServeFault.Memory }
{
    out.extend_from_slice(b"refused ")?;
    out.extend_from_slice(why)?;
    blank_number(serial, out)?;
    out.extend_from_slice(b"\n")?;
    Ok(Tone::Refused)
}

/// Writes a refusal that names a feature.
fn refused_feature(
    why: &[u8],
    names: &Names,
    feature: u16,
    out: &mut Vec<u8>,
) -> Result<Tone, ServeFault>
    requires { feature < length names.now }
    ensures told { IfOk result
        (λ tone. IsGiven (refused (why.now ++ blank_name names.now feature)) tone out.old.items out.new.items) }
    ensures memory { IsOkUnless result ServeFault.Memory }
{
    out.extend_from_slice(b"refused ")?;
    out.extend_from_slice(why)?;
    blank_name(names, feature, out)?;
    out.extend_from_slice(b"\n")?;
    Ok(Tone::Refused)
}

/// Writes why a desk refuses a call.
fn put_refusal(names: &Names, refusal: Refusal, out: &mut Vec<u8>) -> Result<Tone, ServeFault>
    requires { IsNamedWithin (length names.now) refusal }
    ensures told { IfOk result
        (λ tone. IsGiven (refused (refusal_text names.now refusal)) tone out.old.items out.new.items) }
    ensures memory { IsOkUnless result ServeFault.Memory }
{
    match refusal {
        Refusal::UnknownFeature => refused(b"UnknownFeature", out),
        Refusal::AlreadyDecided { serial } => refused_at(b"AlreadyDecided", serial, out),
        Refusal::Conflict { feature } => refused_feature(b"Conflict", names, feature, out),
        Refusal::TooManyChanges => refused(b"TooManyChanges", out),
        Refusal::NotDecided => refused(b"NotDecided", out),
        Refusal::Sealed => refused(b"Sealed", out),
        Refusal::NotNewest { newest } => refused_at(b"NotNewest", newest, out),
        Refusal::Overtaken => refused(b"Overtaken", out),
        Refusal::NotNext { next } => refused_at(b"NotNext", next, out),
        Refusal::OtherGame => refused(b"OtherGame", out),
        Refusal::Outdated { feature } => refused_feature(b"Outdated", names, feature, out),
    }
}

/// Writes the answer to a line with a call that finds the log full.
fn full(out: &mut Vec<u8>) -> Result<Tone, ServeFault>
    ensures told { IfOk result (λ tone. IsGiven full_log tone out.old.items out.new.items) }
    ensures memory { IsOkUnless result ServeFault.Memory }
{
    refused(b"LogFull", out)
}

/// Writes the answer to a line with a call that is not made: the desk's refusal, or that the log is full. Other faults,
/// `Memory` and `Stray`, are returned.
pub(crate) fn put_fault<F: Refuses>(
    names: &Names,
    fault: ClientFault<F>,
    out: &mut Vec<u8>,
) -> Result<Tone, ServeFault>
    requires { IsFaultWithin (length names.now) F.refusal_of fault }
    ensures told { IfOk result
        (λ tone. TellsFault names.now F.refusal_of fault tone out.old.items out.new.items) }
    ensures strayed { IsErrOf result ServeFault.Stray → fault ≡ ClientFault.Stray }
{
    match fault {
        ClientFault::LogFull => full(out),
        ClientFault::Refused { fault } => match fault.refusal() {
            Some(refusal) => put_refusal(names, refusal, out),
            None => Err(ServeFault::Memory),
        },
        ClientFault::Stray => Err(ServeFault::Stray),
        ClientFault::Memory => Err(ServeFault::Memory),
    }
}
