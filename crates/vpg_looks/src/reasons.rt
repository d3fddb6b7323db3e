//! Reasons, by decisions of the page.
ghost use Rattle.std.specs.Prelude.{[], ◌≡◌, ◌<◌, length, slice_index, IfOk, OnOk};
ghost use Rattle.vpg_looks.specs.Answers.{Appends, TellsChoice, TellsFeature, TellsVerdict, TellsVertex};
ghost use Rattle.vpg_diagram.specs.FeatureDiagram.{feature_count};
ghost use Rattle.vpg_game.specs.Game.{vertex_ids};
ghost use Rattle.vpg_measure.specs.Orders.{IsOrder, order_table};
ghost use Rattle.vpg_script.specs.Answer.{Gives, IsDone};
ghost use Rattle.vpg_texts.specs.Scene.{scene_of};

use crate::lines;
use std::alloc::{AllocError, Global};
use vpg_diagram::Literal;
use vpg_features::Names;
use vpg_game::VertexNames;
use vpg_measure::Order;
use vpg_script::{Tone, done};
use vpg_sides::Which;
use vpg_why::{Limits, why_conflict, why_known, why_within};

pub(crate) fn names(order: &Order) -> &Names
    ensures names { result.now ≡ order.now.diagram.names }
    ensures order { IsOrder order.now }
{
    order.diagram().names()
}

pub(crate) fn identifier(order: &Order, vertex: u32) -> u32
    requires { vertex < length order.now.game.vertices }
    ensures { result ≡ slice_index (vertex_ids order.now.game.vertices) vertex }
{
    order.game().id(vertex)
}

/// Appends why the vertex has the verdict of a table, or that it hasn't, with the looks of the line.
fn verdict(
    alloc: Global,
    order: &Order,
    labels: &VertexNames,
    which: Which,
    vertex: u32,
    limits: Limits,
    looks: &mut u64,
    out: &mut Vec<u8>,
) -> Result<(), AllocError>
    requires { vertex < length order.now.game.vertices }
    ensures { OnOk result (Appends
        (TellsVerdict (scene_of labels.now.names order.now.game order.now.diagram) limits which vertex
        order.now.decisions (order_table which order.now)) out.old.items out.new.items) }
{
    let names = names(order);
    let identifier = identifier(order, vertex);
    let label = labels.name(vertex);
    match why_within(alloc, order, which, vertex, limits, looks)? {
        Some(found) => lines::verdict(
            names,
            which,
            identifier,
            label,
            &found.decisions,
            found.exact,
            out,
        ),
        None => lines::other(which, identifier, label, out),
    }
}

/// Appends why the vertex has its verdicts, and returns the answer's tone.
pub fn vertex(
    alloc: Global,
    order: &Order,
    labels: &VertexNames,
    vertex: u32,
    limits: Limits,
    out: &mut Vec<u8>,
) -> Result<Tone, AllocError>
    requires { vertex < length order.now.game.vertices }
    ensures { IfOk result (λ tone. Gives
        (IsDone (TellsVertex (scene_of labels.now.names order.now.game order.now.diagram) limits vertex
        order.now.decisions order.now.hopeful order.now.dual)) tone out.old.items out.new.items) }
{
    let mut looks = limits.budget;
    verdict(
        alloc,
        order,
        labels,
        Which::Hopeful,
        vertex,
        limits,
        &mut looks,
        out,
    )?;
    done(verdict(
        alloc,
        order,
        labels,
        Which::Dual,
        vertex,
        limits,
        &mut looks,
        out,
    ))
}

/// Appends why the feature is known, or refuses if it isn't. Returns the answer's tone.
pub fn feature(
    alloc: Global,
    order: &Order,
    feature: u16,
    out: &mut Vec<u8>,
) -> Result<Tone, AllocError>
    requires { feature < feature_count order.now.diagram.lines }
    ensures { IfOk result
        (λ tone. Gives (TellsFeature (scene_of [] order.now.game order.now.diagram) feature order.now.decisions) tone
        out.old.items out.new.items) }
{
    let names = names(order);
    if let Some(found) = why_known(alloc, order, feature, true)? {
        return done(lines::known(names, feature, true, &found.decisions, out));
    }
    match why_known(alloc, order, feature, false)? {
        Some(found) => done(lines::known(names, feature, false, &found.decisions, out)),
        None => lines::not_known(out),
    }
}

/// Appends why one more decision contradicts the page, or refuses if it doesn't. Returns the answer's tone.
pub fn choice(
    alloc: Global,
    order: &Order,
    feature: u16,
    value: bool,
    out: &mut Vec<u8>,
) -> Result<Tone, AllocError>
    requires { feature < feature_count order.now.diagram.lines }
    ensures { IfOk result
        (λ tone. Gives
        (TellsChoice (scene_of [] order.now.game order.now.diagram) feature value order.now.decisions) tone
        out.old.items out.new.items) }
{
    let names = names(order);
    let more = Literal { feature, value };
    match why_conflict(alloc, order, feature, value)? {
        Some(found) => done(lines::conflict(names, more, &found.decisions, out)),
        None => lines::no_conflict(out),
    }
}
