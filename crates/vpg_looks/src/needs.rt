//! The features that all products left have or lack that meet an aim: that are won at a vertex, or just any.
ghost use Rattle.std.specs.Prelude.{[], ◌≡◌, ◌<◌, ◌++◌, All, IfOk, OnOk, flat_map, length};
ghost use Rattle.vpg_looks.specs.Answers.{TellsForced, forced_word};
ghost use Rattle.vpg_looks.specs.Texts.{choice_line, demand_text, forced_text};
ghost use Rattle.vpg_script.specs.Answer.{Gives, IsDone};
ghost use Rattle.vpg_texts.specs.Scene.{scene_of};
ghost use Rattle.vpg_why.specs.Explained.{choices};
ghost use Rattle.vpg_why.specs.Found.{AreFoundNeeds};
ghost use Rattle.vpg_why.specs.Suffices.{IsAim};

use crate::lines;
use crate::reasons::names;
use std::alloc::{AllocError, Global};
use vpg_diagram::Literal;
use vpg_features::Names;
use vpg_measure::Order;
use vpg_script::{Tone, done};
use vpg_why::{Aim, Demand, Limits};
use vpg_winners::needs;

/// Returns the first word of its lines.
fn word_of(aim: Aim) -> &'static [u8]
    ensures { result.now ≡ forced_word aim }
{
    match aim {
        Aim::Any => b"forced",
        Aim::Won { .. } => b"needs",
    }
}

fn each(word: &[u8], names: &Names, listed: &[Literal], out: &mut Vec<u8>) -> Result<(), AllocError>
    requires { All (λ l. l.feature < length names.now) listed.now }
    ensures { OnOk result
        (out.new.items ≡ out.old.items ++ flat_map (choice_line word.now names.now) listed.now) }
{
    for l in listed {
        lines::choice_line(word, names, *l, out)?;
    }
    Ok(())
}

fn tell(
    word: &[u8],
    names: &Names,
    listed: &[Literal],
    exact: bool,
    out: &mut Vec<u8>,
) -> Result<(), AllocError>
    requires { All (λ l. l.feature < length names.now) listed.now }
    ensures { OnOk result (out.new.items ≡ out.old.items ++ forced_text word.now names.now listed.now exact) }
{
    each(word, names, listed, out)?;
    lines::total(word, listed.len(), exact, out)
}

/// Appends the choices that are needed, or that no product meets the aim, or that a limit was met.
fn tell_demand(order: &Order, aim: Aim, found: &Demand, out: &mut Vec<u8>) -> Result<(), AllocError>
    requires { AreFoundNeeds order.now.game order.now.diagram aim (choices order.now.decisions) found.now }
    ensures { OnOk result (out.new.items ≡
        out.old.items ++ demand_text (forced_word aim) order.now.diagram.names found.now) }
{
    let names = names(order);
    match found {
        Demand::These(found) => tell(word_of(aim), names, &found.literals, found.exact, out),
        Demand::Nothing => lines::none(out),
        Demand::Unsettled => lines::unsettled(out),
    }
}

/// Appends the features that all products left have or lack that meet the aim, without the known ones; or that there is
/// no such product. Returns the answer's tone.
pub fn forced(
    alloc: Global,
    order: &Order,
    aim: Aim,
    limits: Limits,
    out: &mut Vec<u8>,
) -> Result<Tone, AllocError>
    requires { IsAim order.now.game aim }
    ensures { IfOk result (λ tone. Gives
        (IsDone (TellsForced (scene_of [] order.now.game order.now.diagram) limits aim order.now.decisions)) tone
        out.old.items out.new.items) }
{
    let found = needs(alloc, order, aim, limits)?;
    done(tell_demand(order, aim, &found, out))
}
