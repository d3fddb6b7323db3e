//! The tones of answers.
ghost use Rattle.std.specs.Prelude.{◌≡◌};
ghost use Rattle.vpg_script.specs.Answer.{done_if};

/// The tone of an answer. A server returns it beside the answer's text, so nobody reads it off the text.
#[derive(Clone, Copy, Debug, PartialEq, Eq)]
pub enum Tone {
    /// The line was carried out, or asks for nothing.
    Done,
    /// The line was refused.
    Refused,
    /// The line asserts something that doesn't hold.
    Failed,
}

/// Returns `Done` if the text of an answer was written.
pub fn done<E>(written: Result<(), E>) -> Result<Tone, E>
    ensures { result ≡ done_if written }
{
    match written {
        Ok(()) => Ok(Tone::Done),
        Err(fault) => Err(fault),
    }
}
