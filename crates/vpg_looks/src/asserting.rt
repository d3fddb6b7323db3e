//! Whether a vertex has an exact verdict.
ghost use Rattle.std.specs.Prelude.{ℕ, ◌≡◌, ◌<◌, IfOk, List, length};
ghost use Rattle.vpg_looks.specs.Asserted.{TellsExact, answer_by, exact_answer, exact_word, failing, is_same};
ghost use Rattle.vpg_script.specs.Answer.{Gives, IsGiven};
ghost use Rattle.vpg_texts.specs.Scene.{scene_of};
ghost use Rattle.vpg_texts.specs.Sights.{holding};

use std::alloc::{AllocError, Global};
use vpg_measure::Order;
use vpg_script::{ExactVerdict, Tone};
use vpg_why::Limits;
use vpg_winners::{Decided, decide};

fn word(verdict: ExactVerdict) -> &'static [u8]
    ensures { result.now ≡ exact_word verdict }
{
    match verdict {
        ExactVerdict::Won => b"won",
        ExactVerdict::Lost => b"lost",
        ExactVerdict::Mixed => b"mixed",
    }
}

fn is_same(asserted: ExactVerdict, found: ExactVerdict) -> bool
    ensures { result ≡ is_same asserted found }
{
    match (asserted, found) {
        (ExactVerdict::Won, ExactVerdict::Won)
        | (ExactVerdict::Lost, ExactVerdict::Lost)
        | (ExactVerdict::Mixed, ExactVerdict::Mixed) => true,
        _ => false,
    }
}

/// Appends that what is asserted holds.
fn holding(out: &mut Vec<u8>) -> Result<Tone, AllocError>
    ensures { IfOk result (λ tone. IsGiven holding tone out.old.items out.new.items) }
{
    out.extend_from_slice(b"holds\n")?;
    Ok(Tone::Done)
}

/// Appends that an assertion fails, for the reason of this word.
pub(crate) fn failing(word: &[u8], out: &mut Vec<u8>) -> Result<Tone, AllocError>
    ensures { IfOk result (λ tone. IsGiven (failing word.now) tone out.old.items out.new.items) }
{
    out.extend_from_slice(b"fails ")?;
    out.extend_from_slice(word)?;
    out.extend_from_slice(b"\n")?;
    Ok(Tone::Failed)
}

/// Appends whether an assertion holds of a vertex with this exact verdict.
fn compared(
    asserted: ExactVerdict,
    found: ExactVerdict,
    out: &mut Vec<u8>,
) -> Result<Tone, AllocError>
    ensures { IfOk result (λ tone. IsGiven (exact_answer asserted found) tone out.old.items out.new.items) }
{
    if is_same(asserted, found) {
        holding(out)
    } else {
        failing(word(asserted), out)
    }
}

/// Appends whether an assertion holds, by who wins at the vertex, and returns the answer's tone.
fn answered(asserted: ExactVerdict, found: &Decided, out: &mut Vec<u8>) -> Result<Tone, AllocError>
    ensures { IfOk result (λ tone. IsGiven (answer_by asserted found.now) tone out.old.items out.new.items) }
{
    match found {
        Decided::Won => compared(asserted, ExactVerdict::Won, out),
        Decided::Lost => compared(asserted, ExactVerdict::Lost, out),
        Decided::Mixed {
            won: _won,
            lost: _lost,
        } => compared(asserted, ExactVerdict::Mixed, out),
        Decided::Empty => failing(b"empty", out),
        Decided::Unsettled => failing(b"unsettled", out),
    }
}

/// Appends whether the vertex has the exact verdict that is asserted, and returns the answer's tone. If no product is
/// left, or if a limit was met, it has none. The answer is the same with names of vertices.
pub fn exact(
    alloc: Global,
    order: &Order,
    asserted: ExactVerdict,
    vertex: u32,
    limits: Limits,
    out: &mut Vec<u8>,
) -> Result<Tone, AllocError>
    requires { vertex < length order.now.game.vertices }
    ensures { (names : List (List ℕ)) → IfOk result (λ tone. Gives
        (TellsExact (scene_of names order.now.game order.now.diagram) limits asserted vertex order.now.decisions) tone
        out.old.items out.new.items) }
{
    // The invariant of every order, for the proof.
    let _order = order.game();
    let found = decide(alloc, order, vertex, limits)?;
    answered(asserted, &found, out)
}
