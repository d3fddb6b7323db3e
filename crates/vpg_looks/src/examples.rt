//! Products that are won, or lost, at a vertex.
ghost use Rattle.std.specs.Prelude.{[], ◌≡◌, ◌++◌, IfOk, OnOk};
ghost use Rattle.vpg_looks.specs.Answers.{TellsExample};
ghost use Rattle.vpg_looks.specs.Texts.{found_text};
ghost use Rattle.vpg_script.specs.Answer.{Gives, IsDone};
ghost use Rattle.vpg_texts.specs.Scene.{scene_of};
ghost use Rattle.vpg_why.specs.Suffices.{IsAim};

use crate::lines;
use crate::reasons::names;
use std::alloc::{AllocError, Global};
use vpg_features::Names;
use vpg_measure::Order;
use vpg_script::{Tone, done};
use vpg_why::{Aim, Found, Limits};
use vpg_winners::find;

/// Appends a product that was found, or that there is none, or that a limit was met.
fn tell(names: &Names, found: &Found, out: &mut Vec<u8>) -> Result<(), AllocError>
    ensures { OnOk result (out.new.items ≡ out.old.items ++ found_text names.now found.now) }
{
    match found {
        Found::Product(found) => lines::product(names, &found.features, found.first, out),
        Found::Nothing => lines::none(out),
        Found::Unsettled => lines::unsettled(out),
    }
}

/// Appends a product left that meets the aim, or that there is none. In such a product Even wins from the vertex, for
/// the hopeful table, or Odd, for the dual. Returns the answer's tone.
pub fn example(
    alloc: Global,
    order: &Order,
    aim: Aim,
    limits: Limits,
    out: &mut Vec<u8>,
) -> Result<Tone, AllocError>
    requires { IsAim order.now.game aim }
    ensures { IfOk result (λ tone. Gives
        (IsDone (TellsExample (scene_of [] order.now.game order.now.diagram) limits aim order.now.decisions)) tone
        out.old.items out.new.items) }
{
    let names = names(order);
    let found = find(alloc, order, aim, limits)?;
    done(tell(names, &found, out))
}
