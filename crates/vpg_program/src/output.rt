//! Texts for standard output.
ghost use Rattle.std.specs.Io.KnownBytes.{Appends};
ghost use Rattle.std.specs.Prelude.{◌≡◌, true, Err, OnErr, OnOk};

use vpg_family::Fault;
use vpg_report::End;
use vpg_script::{Device, Sink};

/// Writes a text.
fn put<W: Sink>(writer: &mut W, text: &[u8]) -> Result<(), Fault>
    ensures ok { OnOk result (Appends (W.contents writer.old) (W.contents writer.new) text.now) }
    ensures failed { OnErr result ((result ≡ Err Fault.Write) × (W.has_failed writer.new ≡ true)) }
{
    match writer.put(text) {
        Ok(()) => Ok(()),
        Err(_) => Err(Fault::Write),
    }
}

/// Writes a text to standard output.
pub(crate) fn put_out(rt: &HostRuntime, text: &[u8]) -> Result<End, Fault> {
    let mut writer = Device::writer(rt.stdout().lock());
    put(&mut writer, text)?;
    Ok(End::Done)
}

/// Writes the text that was made to standard output, if nothing failed.
pub(crate) fn put_made(rt: &HostRuntime, made: Result<Vec<u8>, Fault>) -> Result<End, Fault> {
    let text = made?;
    put_out(rt, &text)
}
