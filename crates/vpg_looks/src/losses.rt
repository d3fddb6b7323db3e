//! Why no product left meets an aim: why a vertex is lost, or won, in each of them, or why none is left.
ghost use Rattle.std.specs.Prelude.{◌≡◌, ◌<◌, ◌++◌, All, IfOk, OnOk, length};
ghost use Rattle.vpg_looks.specs.Answers.{TellsLost, lost_for, lost_label};
ghost use Rattle.vpg_looks.specs.Texts.{lost_line, why_text};
ghost use Rattle.vpg_script.specs.Answer.{Gives, IsDone};
ghost use Rattle.vpg_texts.specs.Scene.{scene_of};
ghost use Rattle.vpg_why.specs.Found.{IsWhyLost};
ghost use Rattle.vpg_why.specs.Suffices.{IsAim};

use crate::lines;
use crate::reasons::{identifier, names};
use std::alloc::{AllocError, Global};
use vpg_features::Names;
use vpg_game::VertexNames;
use vpg_measure::Order;
use vpg_partial::Decision;
use vpg_script::{Tone, done};
use vpg_why::{Aim, Limits, WhyLost};
use vpg_winners::why_lost;

fn tell(
    order: &Order,
    labels: &VertexNames,
    names: &Names,
    aim: Aim,
    listed: &[Decision],
    exact: bool,
    out: &mut Vec<u8>,
) -> Result<(), AllocError>
    requires aim { IsAim order.now.game aim }
    requires listed { All (λ d. d.feature < length names.now) listed.now }
    ensures { OnOk result (out.new.items ≡ out.old.items ++
        lost_line (lost_for (scene_of labels.now.names order.now.game order.now.diagram) aim)
        (lost_label (scene_of labels.now.names order.now.game order.now.diagram) aim) names.now listed.now exact) }
{
    match aim {
        Aim::Any => {
            out.extend_from_slice(b"empty")?;
            lines::reason(names, listed, exact, b"", out)
        }
        Aim::Won { which, vertex } => {
            lines::lost_head(which, identifier(order, vertex), out)?;
            lines::reason(names, listed, exact, labels.name(vertex), out)
        }
    }
}

/// Appends the decisions that leave no product that meets the aim, or a product that does, or that a limit was met.
fn tell_why(
    order: &Order,
    labels: &VertexNames,
    aim: Aim,
    found: &WhyLost,
    out: &mut Vec<u8>,
) -> Result<(), AllocError>
    requires aim { IsAim order.now.game aim }
    requires why { IsWhyLost order.now.game order.now.diagram aim order.now.decisions found.now }
    ensures { OnOk result (out.new.items ≡ out.old.items ++
        why_text (lost_for (scene_of labels.now.names order.now.game order.now.diagram) aim)
        (lost_label (scene_of labels.now.names order.now.game order.now.diagram) aim) order.now.diagram.names
        found.now) }
{
    let names = names(order);
    match found {
        WhyLost::Because(found) => tell(
            order,
            labels,
            names,
            aim,
            &found.decisions,
            found.exact,
            out,
        ),
        WhyLost::Unless(example) => lines::product(names, &example.features, example.first, out),
        WhyLost::Unsettled => lines::unsettled(out),
    }
}

/// Appends the decisions that leave no product that meets the aim: one in which Even wins from the vertex, for the
/// hopeful table, or Odd, for the dual; or any. Or appends a product left that meets it. Returns the answer's tone.
pub fn loss(
    alloc: Global,
    order: &Order,
    labels: &VertexNames,
    aim: Aim,
    limits: Limits,
    out: &mut Vec<u8>,
) -> Result<Tone, AllocError>
    requires { IsAim order.now.game aim }
    ensures { IfOk result (λ tone. Gives
        (IsDone (TellsLost (scene_of labels.now.names order.now.game order.now.diagram) limits aim
        order.now.decisions)) tone out.old.items out.new.items) }
{
    let found = why_lost(alloc, order, aim, limits)?;
    done(tell_why(order, labels, aim, &found, out))
}
