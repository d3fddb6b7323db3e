//! The arrows of one look.
ghost use Rattle.std.specs.Prelude.{◌≡◌, ◌<◌, ◌++◌, [], false, OnOk, codes, flat_map, length, slice_index_or, slice_set};
ghost use Rattle.vpg_guards.specs.Formula.{IsBelow};
ghost use Rattle.vpg_guards.specs.Known.{kleene};
ghost use Rattle.vpg_guards.specs.View.{formula_of};
ghost use Rattle.vpg_system.specs.SystemView.{transition_of};
ghost use Rattle.vpg_system_draw.specs.Arrows.{same_value, same_mark, looks, arrows_below, with_transition};
ghost use Rattle.vpg_system_draw.specs.Joining.{AreArrows, AreJoined, arrows_in, no_arrow};
ghost use Rattle.vpg_system_draw.specs.SystemDrawing.{mark_text, arrow_text, arrows_text};

use crate::labels::{number, transition_label};
use crate::transitions::{transition_at, transition_count};
use indexmap::IndexSet;
use std::alloc::{AllocError, Global};
use std::marker::Model;
use vpg_draw::style;
use vpg_features::Names;
use vpg_guards::Tri;
use vpg_system::{System, Transition};

/// The look of a transition.
#[derive(Clone, Copy)]
pub(crate) struct Look {
    /// The value of its guard.
    pub(crate) value: Tri,
    pub(crate) is_marked: bool,
}

fn same_value(a: Tri, b: Tri) -> bool
    ensures { result ≡ same_value a b }
{
    match (a, b) {
        (Tri::No, Tri::No) | (Tri::Unknown, Tri::Unknown) | (Tri::Yes, Tri::Yes) => true,
        _ => false,
    }
}

fn same_mark(a: bool, b: bool) -> bool
    ensures { result ≡ same_mark a b }
{
    if a { b } else { !b }
}

/// Whether a transition has this look.
fn looks(known: &[Tri], look: Look, transition: &Transition, is_marked: bool) -> bool
    requires { IsBelow (length known.now) (formula_of transition.now.guard) }
    ensures { result ≡ looks known.now look (transition_of transition.now) is_marked }
{
    let value = transition.guard.kleene(known);
    same_value(look.value, value) && same_mark(look.is_marked, is_marked)
}

/// The label beside an arrow.
#[derive(Drop)]
struct Label {
    text: Vec<u8>,
}

impl Model for Label {
    ghost use Rattle.std.specs.Prelude.{ℕ, List};

    ghost Value = { List ℕ };

    ghost view = { λ l. l.text.items };
}

impl Label {
    /// Adds a line.
    fn add(&mut self, line: &[u8]) -> Result<(), AllocError>
        ensures { OnOk result (self.new ≡ self.old ++ (codes "\\n" ++ line.now)) }
    {
        self.text.extend_from_slice(b"\\n")?;
        self.text.extend_from_slice(line)
    }
}

/// Adds a line to the label of this number.
fn add_line(labels: &mut Vec<Label>, at: usize, line: &[u8]) -> Result<(), AllocError>
    requires { at < length labels.old.items }
    ensures { OnOk result (labels.new.items
        ≡ slice_set labels.old.items at (slice_index_or labels.old.items at [] ++ (codes "\\n" ++ line.now))) }
{
    labels[at].add(line)
}

/// Adds an arrow, or a line to the label of the one with the same ends.
fn join(
    ends: &mut IndexSet<(u32, u32)>,
    labels: &mut Vec<Label>,
    source: u32,
    target: u32,
    text: Vec<u8>,
) -> Result<(), AllocError>
    requires { length labels.old.items ≡ length ends.old.keys }
    ensures { OnOk result (AreJoined ends.old.keys labels.old.items source target text.items ends.new.keys
        labels.new.items) }
{
    let Ok((at, _)) = ends.insert_full((source, target)) else {
        return Err(AllocError);
    };
    if at < labels.len() {
        return add_line(labels, at, &text);
    }
    labels.push(Label { text })?;
    Ok(())
}

/// Adds the arrow of a transition of this look.
fn add(
    alloc: Global,
    names: &Names,
    known: &[Tri],
    system: &System,
    look: Look,
    transition: &Transition,
    is_marked: bool,
    ends: &mut IndexSet<(u32, u32)>,
    labels: &mut Vec<Label>,
) -> Result<(), AllocError>
    requires known { length known.now ≡ length names.now }
    requires action { transition.now.action < length system.now.actions }
    requires guard { IsBelow (length names.now) (formula_of transition.now.guard) }
    requires labels { length labels.old.items ≡ length ends.old.keys }
    ensures { OnOk result (AreArrows
        (with_transition names.now known.now system.now look (arrows_in ends.old.keys labels.old.items)
        (transition_of transition.now) is_marked) ends.new.keys labels.new.items) }
{
    if !looks(known, look, transition, is_marked) {
        return Ok(());
    }
    let mut text = Vec::new(alloc);
    transition_label(alloc, names, system, transition, &mut text)?;
    join(ends, labels, transition.source, transition.target, text)
}

/// Whether the transition of this number is marked.
pub(crate) fn is_marked(marks: &[bool], at: usize) -> bool
    ensures { result ≡ slice_index_or marks.now at false }
{
    match marks.get(at) {
        Some(mark) => *mark,
        None => false,
    }
}

/// Adds the arrows of all transitions of this look.
fn add_all(
    alloc: Global,
    names: &Names,
    known: &[Tri],
    system: &System,
    marks: &[bool],
    look: Look,
    ends: &mut IndexSet<(u32, u32)>,
    labels: &mut Vec<Label>,
) -> Result<(), AllocError>
    requires known { length known.now ≡ length names.now }
    requires features { length names.now ≡ system.now.features }
    requires ends { ends.old.keys ≡ [] }
    requires labels { labels.old.items ≡ [] }
    ensures { OnOk result (AreArrows
        (arrows_below names.now known.now system.now marks.now look (length system.now.transitions))
        ends.new.keys labels.new.items) }
{
    for at in 0..transition_count(system) {
        let transition = transition_at(system, at);
        let is_marked = is_marked(marks, at);
        add(
            alloc, names, known, system, look, transition, is_marked, ends, labels,
        )?;
    }
    Ok(())
}

/// Appends the style of a marked arrow, or of another one.
fn mark(is_marked: bool, out: &mut Vec<u8>) -> Result<(), AllocError>
    ensures { OnOk result (out.new.items ≡ out.old.items ++ mark_text is_marked) }
{
    if is_marked {
        out.extend_from_slice(b"penwidth=2.6, ")?;
    }
    Ok(())
}

/// Appends the line of an arrow.
fn put_arrow(
    look: Look,
    source: u32,
    target: u32,
    text: &[u8],
    out: &mut Vec<u8>,
) -> Result<(), AllocError>
    ensures { OnOk result (out.new.items ≡ out.old.items
        ++ arrow_text look (record { source = source; target = target; label = text.now })) }
{
    out.extend_from_slice(b"  ")?;
    number(source, out)?;
    out.extend_from_slice(b" -> ")?;
    number(target, out)?;
    out.extend_from_slice(b" [label=\"")?;
    out.extend_from_slice(text)?;
    out.extend_from_slice(b"\", ")?;
    mark(look.is_marked, out)?;
    style(look.value, out)
}

/// Returns the ends of the arrow of a number.
fn ends_at(ends: &IndexSet<(u32, u32)>, at: usize) -> (u32, u32)
    requires { at < length ends.now.keys }
    ensures { result ≡ slice_index_or ends.now.keys at (0, 0) }
{
    match ends.get_index(at) {
        Some(pair) => *pair,
        None => (0, 0),
    }
}

/// Returns the label of the arrow of a number.
fn label_at(labels: &[Label], at: usize) -> &[u8]
    ensures { result.now ≡ slice_index_or labels.now at [] }
{
    match labels.get(at) {
        Some(label) => label.text.as_slice(),
        None => &[],
    }
}

/// Appends the line of the arrow of a number.
fn put_at(
    look: Look,
    ends: &IndexSet<(u32, u32)>,
    labels: &[Label],
    at: usize,
    out: &mut Vec<u8>,
) -> Result<(), AllocError>
    requires count { length labels.now ≡ length ends.now.keys }
    requires at { at < length labels.now }
    ensures { OnOk result (out.new.items ≡ out.old.items
        ++ arrow_text look (slice_index_or (arrows_in ends.now.keys labels.now) at no_arrow)) }
{
    let (source, target) = ends_at(ends, at);
    put_arrow(look, source, target, label_at(labels, at), out)
}

/// Appends the lines of arrows.
fn put_arrows(
    look: Look,
    ends: &IndexSet<(u32, u32)>,
    labels: &[Label],
    out: &mut Vec<u8>,
) -> Result<(), AllocError>
    requires { length labels.now ≡ length ends.now.keys }
    ensures { OnOk result (out.new.items ≡ out.old.items
        ++ flat_map (arrow_text look) (arrows_in ends.now.keys labels.now)) }
{
    for at in 0..labels.len() {
        put_at(look, ends, labels, at, out)?;
    }
    Ok(())
}

/// Appends the arrows of this look.
pub(crate) fn arrows(
    alloc: Global,
    names: &Names,
    known: &[Tri],
    system: &System,
    marks: &[bool],
    look: Look,
    out: &mut Vec<u8>,
) -> Result<(), AllocError>
    requires known { length known.now ≡ length names.now }
    requires features { length names.now ≡ system.now.features }
    ensures { OnOk result (out.new.items ≡ out.old.items
        ++ arrows_text names.now known.now system.now marks.now look) }
{
    let mut ends = IndexSet::new(alloc);
    let mut labels = Vec::new(alloc);
    add_all(
        alloc,
        names,
        known,
        system,
        marks,
        look,
        &mut ends,
        &mut labels,
    )?;
    put_arrows(look, &ends, &labels, out)
}
