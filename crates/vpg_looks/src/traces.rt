//! Traces of verdicts, as steps of the system.
ghost use Rattle.std.specs.Prelude.{◌<◌, IfOk, length};
ghost use Rattle.vpg_looks.specs.Answers.{IsOver, TellsTraced};
ghost use Rattle.vpg_diagram.specs.FeatureDiagram.{feature_count};
ghost use Rattle.vpg_script.specs.Answer.{Gives, IsDone};
ghost use Rattle.vpg_texts.specs.Scene.{scene_of};

use std::alloc::{AllocError, Global};
use vpg_checking::Behaviour;
use vpg_game::VertexNames;
use vpg_measure::Order;
use vpg_script::{Tone, done};
use vpg_texts::put_beside;
use vpg_trace::put_answer;
use vpg_why::Limits;

/// Appends the trace of the page's verdict at the vertex, as steps of the system that the game was made of. Returns the
/// answer's tone.
pub fn trace(
    alloc: Global,
    order: &Order,
    labels: &VertexNames,
    behaviour: &Option<Behaviour>,
    vertex: u32,
    limits: Limits,
    out: &mut Vec<u8>,
) -> Result<Tone, AllocError>
    requires vertex { vertex < length order.now.game.vertices }
    requires system { IsOver (feature_count order.now.diagram.lines) behaviour.now }
    ensures { IfOk result (λ tone. Gives
        (IsDone (TellsTraced behaviour.now (scene_of labels.now.names order.now.game order.now.diagram) limits vertex
        order.now.decisions order.now.hopeful order.now.dual)) tone out.old.items out.new.items) }
{
    // The invariant of every order, for the proof.
    let _order = order.game();
    match behaviour {
        Some(behaviour) => {
            let mut beside = Vec::new(alloc);
            put_beside(labels.name(vertex), &mut beside)?;
            done(put_answer(alloc, order, behaviour, vertex, &beside, limits, out))
        }
        None => unreachable!(),
    }
}
