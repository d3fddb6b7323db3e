//! Who wins at a vertex in the products left.
ghost use Rattle.std.specs.Prelude.{◌≡◌, ◌<◌, ◌++◌, IfOk, OnOk, length};
ghost use Rattle.vpg_looks.specs.Answers.{TellsDecided};
ghost use Rattle.vpg_looks.specs.Texts.{decided_text, fact_line, mixed_head, mixed_text};
ghost use Rattle.vpg_script.specs.Answer.{Gives, IsDone};
ghost use Rattle.vpg_texts.specs.Scene.{scene_of};

use crate::lines;
use crate::reasons::{identifier, names};
use std::alloc::{AllocError, Global};
use vpg_features::Names;
use vpg_game::VertexNames;
use vpg_measure::Order;
use vpg_script::{Tone, done};
use vpg_sides::Which;
use vpg_texts::blank_number;
use vpg_why::{Example, Limits};
use vpg_winners::{Decided, decide};

/// Appends that the vertex is lost in each product left, or won.
fn fact(which: Which, identifier: u32, label: &[u8], out: &mut Vec<u8>) -> Result<(), AllocError>
    ensures { OnOk result (out.new.items ≡ out.old.items ++ fact_line which identifier label.now) }
{
    lines::lost_head(which, identifier, out)?;
    lines::end(label, out)
}

fn mixed_head(identifier: u32, label: &[u8], out: &mut Vec<u8>) -> Result<(), AllocError>
    ensures { OnOk result (out.new.items ≡ out.old.items ++ mixed_head identifier label.now) }
{
    out.extend_from_slice(b"mixed")?;
    blank_number(identifier as u64, out)?;
    lines::end(label, out)
}

/// Appends a product that is won, and one that is lost.
fn mixed(
    names: &Names,
    identifier: u32,
    label: &[u8],
    won: &Example,
    lost: &Example,
    out: &mut Vec<u8>,
) -> Result<(), AllocError>
    ensures { OnOk result (out.new.items ≡ out.old.items ++
        mixed_text names.now identifier label.now won.now.features.items won.now.first lost.now.features.items
        lost.now.first) }
{
    mixed_head(identifier, label, out)?;
    lines::product(names, &won.features, won.first, out)?;
    lines::product(names, &lost.features, lost.first, out)
}

/// Appends who wins at the vertex, or that no product is left, or that a limit was met.
fn tell(
    names: &Names,
    identifier: u32,
    label: &[u8],
    found: &Decided,
    out: &mut Vec<u8>,
) -> Result<(), AllocError>
    ensures { OnOk result (out.new.items ≡ out.old.items ++ decided_text names.now identifier label.now found.now) }
{
    match found {
        Decided::Won => fact(Which::Dual, identifier, label, out),
        Decided::Lost => fact(Which::Hopeful, identifier, label, out),
        Decided::Mixed { won, lost } => mixed(names, identifier, label, won, lost, out),
        Decided::Empty => out.extend_from_slice(b"empty\n"),
        Decided::Unsettled => lines::unsettled(out),
    }
}

/// Appends who wins at the vertex in the products left, with a product of each kind if both players win some. Returns
/// the answer's tone.
pub fn decided(
    alloc: Global,
    order: &Order,
    labels: &VertexNames,
    vertex: u32,
    limits: Limits,
    out: &mut Vec<u8>,
) -> Result<Tone, AllocError>
    requires { vertex < length order.now.game.vertices }
    ensures { IfOk result (λ tone. Gives
        (IsDone (TellsDecided (scene_of labels.now.names order.now.game order.now.diagram) limits vertex
        order.now.decisions)) tone out.old.items out.new.items) }
{
    let names = names(order);
    let identifier = identifier(order, vertex);
    let found = decide(alloc, order, vertex, limits)?;
    done(tell(names, identifier, labels.name(vertex), &found, out))
}
