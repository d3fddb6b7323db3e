//! Counts the products that are left.
ghost use Rattle.std.specs.Prelude.{ℕ, ◌≡◌, ◌++◌, IfOk, List, OnOk};
ghost use Rattle.vpg_looks.specs.Answers.{TellsNumber};
ghost use Rattle.vpg_looks.specs.Texts.{amount_text, number_line};
ghost use Rattle.vpg_number.specs.Digits.{numeral_of};
ghost use Rattle.vpg_script.specs.Answer.{Gives, IsDone};
ghost use Rattle.vpg_texts.specs.Scene.{scene_of};

use crate::lines;
use std::alloc::{AllocError, Global};
use vpg_measure::Order;
use vpg_number::{Count, Natural, number};
use vpg_script::{Tone, done};
use vpg_why::Limits;

/// Appends a number.
fn numeral(alloc: Global, number: &Natural, out: &mut Vec<u8>) -> Result<(), AllocError>
    ensures { OnOk result (out.new.items ≡ out.old.items ++ numeral_of number.now) }
{
    let text = number.text(alloc)?;
    out.extend_from_slice(&text)
}

/// Appends a number of products, and whether there may be more.
pub(crate) fn amount(alloc: Global, count: &Count, out: &mut Vec<u8>) -> Result<(), AllocError>
    ensures { OnOk result (out.new.items ≡ out.old.items ++ amount_text count.now) }
{
    out.push(b' ')?;
    match count {
        Count::Exactly(number) => numeral(alloc, number, out),
        Count::AtLeast(few) => {
            numeral(alloc, few, out)?;
            lines::more(false, out)
        }
    }
}

fn line(alloc: Global, count: &Count, out: &mut Vec<u8>) -> Result<(), AllocError>
    ensures { OnOk result (out.new.items ≡ out.old.items ++ number_line count.now) }
{
    out.extend_from_slice(b"number")?;
    amount(alloc, count, out)?;
    out.extend_from_slice(b"\n")
}

/// Appends the number of products left, and returns the answer's tone. The answer is the same with names of vertices.
pub fn left(
    alloc: Global,
    order: &Order,
    limits: Limits,
    out: &mut Vec<u8>,
) -> Result<Tone, AllocError>
    ensures { (names : List (List ℕ)) → IfOk result (λ tone. Gives
        (IsDone (TellsNumber (scene_of names order.now.game order.now.diagram) limits order.now.decisions)) tone
        out.old.items out.new.items) }
{
    // The invariant of every order, for the proof.
    let _order = order.game();
    let count = number(alloc, order.diagram(), order.decisions(), limits.trials)?;
    done(line(alloc, &count, out))
}
