//! The picture of a system on a page.
ghost use Rattle.std.specs.Prelude.{◌≡◌, ◌<◌, ◌++◌, All, OnOk, OnErr, length, map};
ghost use Rattle.vpg_partial.specs.Known.{literal_of};
ghost use Rattle.vpg_system_draw.specs.SystemDrawing.{border_text, loop_text, stand_text, reached_text, state_text, states_text, all_arrows_text, system_opening, system_defaults, system_heading, system_drawing};

use crate::arrows::{Look, arrows};
use crate::labels::number;
use crate::marks::{Marks, is_in};
use std::alloc::{AllocError, Global};
use vpg_draw::choices;
use vpg_features::Names;
use vpg_guards::Tri;
use vpg_partial::{Decision, Partial};
use vpg_system::System;

/// Appends the border of the first state, or of another one.
fn border(is_first: bool, out: &mut Vec<u8>) -> Result<(), AllocError>
    ensures { OnOk result (out.new.items ≡ out.old.items ++ border_text is_first) }
{
    if is_first {
        out.extend_from_slice(b"penwidth=3, ")?;
    }
    Ok(())
}

/// Appends the borders of a state that a trace comes back to, or of another one.
fn loop_borders(is_loop: bool, out: &mut Vec<u8>) -> Result<(), AllocError>
    ensures { OnOk result (out.new.items ≡ out.old.items ++ loop_text is_loop) }
{
    if is_loop {
        out.extend_from_slice(b"peripheries=2, ")?;
    }
    Ok(())
}

/// Appends the shape of a state where a trace stands, or of another one.
fn stand_shape(is_stand: bool, out: &mut Vec<u8>) -> Result<(), AllocError>
    ensures { OnOk result (out.new.items ≡ out.old.items ++ stand_text is_stand) }
{
    if is_stand {
        out.extend_from_slice(b"shape=octagon, ")?;
    }
    Ok(())
}

/// Appends the look of a state that can be reached, or cannot, and that a trace passes, or doesn't.
fn reached_look(is_reached: bool, is_passed: bool, out: &mut Vec<u8>) -> Result<(), AllocError>
    ensures { OnOk result (out.new.items ≡ out.old.items ++ reached_text is_reached is_passed) }
{
    match (is_reached, is_passed) {
        (true, true) => out.extend_from_slice(b"fillcolor=khaki, color=gray40];\n"),
        (true, false) => out.extend_from_slice(b"fillcolor=white, color=gray40];\n"),
        (false, true) => {
            out.extend_from_slice(b"fillcolor=khaki, color=gray70, fontcolor=gray60];\n")
        }
        (false, false) => {
            out.extend_from_slice(b"fillcolor=gray92, color=gray70, fontcolor=gray60];\n")
        }
    }
}

/// Appends the line of a state.
fn state(
    s: u32,
    is_first: bool,
    is_reached: bool,
    marks: &Marks,
    out: &mut Vec<u8>,
) -> Result<(), AllocError>
    ensures { OnOk result (out.new.items ≡ out.old.items ++ state_text s is_first is_reached marks.now) }
{
    out.extend_from_slice(b"  ")?;
    number(s, out)?;
    out.extend_from_slice(b" [")?;
    border(is_first, out)?;
    loop_borders(is_in(&marks.loops, s), out)?;
    stand_shape(is_in(&marks.stands, s), out)?;
    reached_look(is_reached, is_in(&marks.passed, s), out)
}

/// Appends the lines of all states.
fn states(
    system: &System,
    reached: &[bool],
    marks: &Marks,
    out: &mut Vec<u8>,
) -> Result<(), AllocError>
    requires { length reached.now ≡ system.now.states }
    ensures { OnOk result (out.new.items ≡ out.old.items
        ++ states_text system.now.first reached.now marks.now system.now.states) }
{
    let first = system.first();
    for s in 0..system.states() {
        state(s, s == first, reached[s as usize], marks, out)?;
    }
    Ok(())
}

/// Appends the arrows of marked transitions, or of the others.
fn all_arrows(
    alloc: Global,
    names: &Names,
    known: &[Tri],
    system: &System,
    marks: &[bool],
    is_marked: bool,
    out: &mut Vec<u8>,
) -> Result<(), AllocError>
    requires known { length known.now ≡ length names.now }
    requires features { length names.now ≡ system.now.features }
    ensures { OnOk result (out.new.items ≡ out.old.items
        ++ all_arrows_text names.now known.now system.now marks.now is_marked) }
{
    let solid = Look {
        value: Tri::Yes,
        is_marked,
    };
    let dashed = Look {
        value: Tri::Unknown,
        is_marked,
    };
    let dotted = Look {
        value: Tri::No,
        is_marked,
    };
    arrows(alloc, names, known, system, marks, solid, out)?;
    arrows(alloc, names, known, system, marks, dashed, out)?;
    arrows(alloc, names, known, system, marks, dotted, out)
}

/// Appends the arrows of transitions with a mark, or of the others.
fn marked_arrows(
    alloc: Global,
    names: &Names,
    known: &[Tri],
    system: &System,
    marks: &Marks,
    is_marked: bool,
    out: &mut Vec<u8>,
) -> Result<(), AllocError>
    requires known { length known.now ≡ length names.now }
    requires features { length names.now ≡ system.now.features }
    ensures { OnOk result (out.new.items ≡ out.old.items
        ++ all_arrows_text names.now known.now system.now marks.now.transitions is_marked) }
{
    all_arrows(
        alloc,
        names,
        known,
        system,
        &marks.transitions,
        is_marked,
        out,
    )
}

#[tactic(auto, unfolding(crate::specs::SystemDrawing::system_opening))]
fn opening(out: &mut Vec<u8>) -> Result<(), AllocError>
    ensures { OnOk result (out.new.items ≡ out.old.items ++ system_opening) }
{
    out.extend_from_slice(b"digraph system {\n  graph [label=\"decisions")
}

#[tactic(auto, unfolding(crate::specs::SystemDrawing::system_defaults))]
fn defaults(out: &mut Vec<u8>) -> Result<(), AllocError>
    ensures { OnOk result (out.new.items ≡ out.old.items ++ system_defaults) }
{
    out.extend_from_slice(b"\", labelloc=t, rankdir=LR];\n  node [shape=circle, style=filled];\n")
}

/// Appends the beginning of the picture.
fn heading(names: &Names, decisions: &[Decision], out: &mut Vec<u8>) -> Result<(), AllocError>
    requires { All (λ d. d.feature < length names.now) decisions.now }
    ensures { OnOk result (out.new.items ≡ out.old.items
        ++ system_heading names.now (map literal_of decisions.now)) }
{
    opening(out)?;
    choices(names, decisions, out)?;
    defaults(out)
}

/// Appends the picture of a system on a page. First come the decisions; then a circle for each state, with a thick
/// border round the first one, and grey if it cannot be reached. Then come the arrows, at most one of each look for two
/// states, with the actions and guards of its transitions in file order. An arrow is solid if its guards are true in
/// each product left, dashed if they are open, and dotted if they are false in each. Arrows of marked transitions are
/// thick. A state that a trace passes is yellow; one that it comes back to has two borders, and one where it stands is
/// an octagon.
///
/// `known` has the value of each feature, and `reached` says of each state whether it can be reached. `Err` leaves the
/// text as it was.
pub fn draw_system(
    alloc: Global,
    system: &System,
    names: &Names,
    known: &Partial,
    decisions: &[Decision],
    reached: &[bool],
    marks: &Marks,
    out: &mut Vec<u8>,
) -> Result<(), AllocError>
    requires features { length names.now ≡ system.now.features }
    requires known { length known.now ≡ system.now.features }
    requires decisions { All (λ d. d.feature < system.now.features) decisions.now }
    requires reached { length reached.now ≡ system.now.states }
    ensures drawn { OnOk result
        (out.new.items ≡ out.old.items
        ++ system_drawing names.now known.now (map literal_of decisions.now) system.now reached.now marks.now) }
    ensures unchanged { OnErr result (out.new.items ≡ out.old.items) }
{
    let values = known.values();
    let mut text = Vec::new(alloc);
    heading(names, decisions, &mut text)?;
    states(system, reached, marks, &mut text)?;
    marked_arrows(alloc, names, values, system, marks, false, &mut text)?;
    marked_arrows(alloc, names, values, system, marks, true, &mut text)?;
    text.extend_from_slice(b"}\n")?;
    out.extend_from_slice(&text)
}
