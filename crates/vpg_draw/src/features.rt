//! The picture of a feature diagram.
ghost use Rattle.std.specs.Prelude.{◌≡◌, ◌∷◌, ◌<◌, ◌++◌, All, IfOk, OnOk, OnErr, List, ℕ, bytes_eq, codes, flat_map, length, map, slice_index_or};
ghost use Rattle.std.specs.List.{slice_split};
ghost use Rattle.vpg_guards.specs.declared.tri.Tri.TheVariants.{Unknown};
ghost use Rattle.vpg_diagram.specs.DiagramText.{is_nonempty};
ghost use Rattle.vpg_partial.specs.Known.{literal_of};
ghost use Rattle.vpg_draw.specs.Labels.{label_byte, feature_name};
ghost use Rattle.vpg_draw.specs.FeatureDrawing.{is_break, pieces, is_line_end, quoted, kind_of, value_look, feature_text, features_text, arrow_text, arrows_text, arc_name, arc_text, group_text, range_look, kind_text, known_kind_text, words_text, line_text, features_opening, features_defaults, feature_drawing};

use crate::labels::{choices, escaped};
use std::alloc::{AllocError, Global};
use vpg_diagram::Diagram;
use vpg_features::Names;
use vpg_guards::Tri;
use vpg_partial::{Decision, Partial};

/// The kinds of lines that draw something.
#[derive(Clone, Copy)]
enum Kind {
    Mandatory,
    Optional,
    Alternative,
    Or,
    Group,
    Requires,
    Excludes,
}

fn is_break(b: u8) -> bool
    ensures { result ≡ is_break b }
{
    b == b' ' || b == b'\t' || b == b'\r' || b == b':'
}

fn is_nonempty(part: &[u8]) -> bool
    ensures { result ≡ is_nonempty part.now }
{
    match part {
        [] => false,
        [_, ..] => true,
    }
}

/// Returns the words of a line.
fn pieces(alloc: Global, line: &[u8]) -> Result<Vec<&[u8]>, AllocError>
    ensures { IfOk result (λ v. map (λ w. w.now) v.items ≡ pieces line.now) }
{
    line.split(|b| is_break(*b))
        .filter(|w| is_nonempty(w))
        .collect(alloc)
}

fn is_line_end(b: u8) -> bool
    ensures { result ≡ is_line_end b }
{
    b == b'\n'
}

fn lines(alloc: Global, text: &[u8]) -> Result<Vec<&[u8]>, AllocError>
    ensures { IfOk result (λ v. map (λ w. w.now) v.items ≡ slice_split is_line_end text.now) }
{
    text.split(|b| is_line_end(*b)).collect(alloc)
}

fn same(a: &[u8], b: &[u8]) -> bool
    ensures { result ≡ bytes_eq a.now b.now }
{
    a == b
}

fn kind_of(word: &[u8]) -> Option<Kind>
    ensures { result ≡ kind_of word.now }
{
    if same(word, b"mandatory") {
        Some(Kind::Mandatory)
    } else if same(word, b"optional") {
        Some(Kind::Optional)
    } else if same(word, b"alternative") {
        Some(Kind::Alternative)
    } else if same(word, b"or") {
        Some(Kind::Or)
    } else if same(word, b"group") {
        Some(Kind::Group)
    } else if same(word, b"requires") {
        Some(Kind::Requires)
    } else if same(word, b"excludes") {
        Some(Kind::Excludes)
    } else {
        None
    }
}

/// Appends a word in quotes.
fn quoted(word: &[u8], out: &mut Vec<u8>) -> Result<(), AllocError>
    ensures { OnOk result (out.new.items ≡ out.old.items ++ quoted word.now) }
{
    out.push(b'"')?;
    escaped(word, out)?;
    out.push(b'"')?;
    Ok(())
}

fn name_at(names: &Names, f: u16) -> &[u8]
    requires { f < length names.now }
    ensures { result.now ≡ feature_name names.now f }
{
    names.name(f).as_bytes()
}

fn value_look(value: Tri, out: &mut Vec<u8>) -> Result<(), AllocError>
    ensures { OnOk result (out.new.items ≡ out.old.items ++ value_look value) }
{
    match value {
        Tri::Yes => out.extend_from_slice(b" [fillcolor=honeydew, color=darkgreen];\n"),
        Tri::Unknown => out.extend_from_slice(b" [fillcolor=white, style=\"filled,dashed\"];\n"),
        Tri::No => out.extend_from_slice(b" [fillcolor=gray92, fontcolor=gray60];\n"),
    }
}

/// Appends the line of a feature.
fn feature(name: &[u8], value: Tri, out: &mut Vec<u8>) -> Result<(), AllocError>
    ensures { OnOk result (out.new.items ≡ out.old.items ++ feature_text name.now value) }
{
    out.extend_from_slice(b"  ")?;
    quoted(name, out)?;
    value_look(value, out)
}

/// Appends the lines of all features.
fn features(names: &Names, known: &Partial, out: &mut Vec<u8>) -> Result<(), AllocError>
    requires { length known.now ≡ length names.now }
    ensures { OnOk result (out.new.items ≡ out.old.items ++ features_text names.now known.now (length names.now)) }
{
    let count = names.len() as u16;
    for f in 0..count {
        feature(name_at(names, f), known.value(f), out)?;
    }
    Ok(())
}

#[tactic(auto, unfolding(crate::specs::FeatureDrawing::arrow_text))]
fn arrow(from: &[u8], look: &[u8], to: &[u8], out: &mut Vec<u8>) -> Result<(), AllocError>
    ensures { OnOk result (out.new.items ≡ out.old.items ++ arrow_text from.now look.now to.now) }
{
    out.extend_from_slice(b"  ")?;
    quoted(from, out)?;
    out.extend_from_slice(b" -> ")?;
    quoted(to, out)?;
    out.extend_from_slice(look)
}

/// Appends an edge to each of the words.
fn arrows(from: &[u8], look: &[u8], words: &[&[u8]], out: &mut Vec<u8>) -> Result<(), AllocError>
    ensures { OnOk result (out.new.items ≡ out.old.items
        ++ arrows_text from.now look.now (map (λ w. w.now) words.now)) }
{
    for word in words {
        arrow(from, look, word, out)?;
    }
    Ok(())
}

/// Returns the name of the node that stands for the arc of a group.
#[tactic(auto, unfolding(crate::specs::FeatureDrawing::arc_name))]
fn arc_name(alloc: Global, first: &[u8]) -> Result<Vec<u8>, AllocError>
    ensures { IfOk result (λ name. name.items ≡ arc_name first.now) }
{
    let mut name = Vec::from_slice(alloc, b"group ")?;
    name.extend_from_slice(first)?;
    Ok(name)
}

/// Appends the arc of a group, and the way to it.
#[tactic(auto, unfolding(crate::specs::FeatureDrawing::arc_text))]
fn arc(parent: &[u8], look: &[u8], arc: &[u8], out: &mut Vec<u8>) -> Result<(), AllocError>
    ensures { OnOk result (out.new.items ≡ out.old.items ++ arc_text parent.now look.now arc.now) }
{
    out.extend_from_slice(b"  ")?;
    quoted(arc, out)?;
    out.extend_from_slice(b" [shape=triangle, height=0.2, width=0.3, ")?;
    out.extend_from_slice(look)?;
    arrow(parent, b" [arrowhead=none];\n", arc, out)
}

/// Appends the picture of a group of these members.
fn members(
    alloc: Global,
    parent: &[u8],
    look: &[u8],
    first: &[u8],
    more: &[&[u8]],
    out: &mut Vec<u8>,
) -> Result<(), AllocError>
    ensures { OnOk result (out.new.items ≡ out.old.items
        ++ group_text parent.now look.now (first.now ∷ map (λ w. w.now) more.now)) }
{
    let name = arc_name(alloc, first)?;
    arc(parent, look, &name, out)?;
    arrow(&name, b" [arrowhead=none];\n", first, out)?;
    arrows(&name, b" [arrowhead=none];\n", more, out)
}

/// Appends the picture of a group.
fn group(
    alloc: Global,
    parent: &[u8],
    look: &[u8],
    words: &[&[u8]],
    out: &mut Vec<u8>,
) -> Result<(), AllocError>
    ensures { OnOk result (out.new.items ≡ out.old.items
        ++ group_text parent.now look.now (map (λ w. w.now) words.now)) }
{
    match words {
        [] => Ok(()),
        [first, more @ ..] => members(alloc, parent, look, first, more, out),
    }
}

/// Returns the look of the arc of a group with a cardinality.
fn range_look(alloc: Global, low: &[u8], high: &[u8]) -> Result<Vec<u8>, AllocError>
    ensures { IfOk result (λ look. look.items ≡ range_look low.now high.now) }
{
    let mut look = Vec::from_slice(alloc, b"fillcolor=white, label=\"\", xlabel=\"")?;
    escaped(low, &mut look)?;
    look.extend_from_slice(b"..")?;
    escaped(high, &mut look)?;
    look.extend_from_slice(b"\"];\n")?;
    Ok(look)
}

fn ranged(
    alloc: Global,
    parent: &[u8],
    low: &[u8],
    high: &[u8],
    words: &[&[u8]],
    out: &mut Vec<u8>,
) -> Result<(), AllocError>
    ensures { OnOk result (out.new.items ≡ out.old.items
        ++ group_text parent.now (range_look low.now high.now) (map (λ w. w.now) words.now)) }
{
    let look = range_look(alloc, low, high)?;
    group(alloc, parent, &look, words, out)
}

/// Appends the picture of a group with a cardinality.
fn range(alloc: Global, parent: &[u8], words: &[&[u8]], out: &mut Vec<u8>) -> Result<(), AllocError>
    ensures { OnOk result (out.new.items ≡ out.old.items
        ++ kind_text Kind.Group parent.now (map (λ w. w.now) words.now)) }
{
    match words {
        [] | [_] => Ok(()),
        [low, high, members @ ..] => ranged(alloc, parent, low, high, members, out),
    }
}

/// Appends the picture of a line of this kind.
fn by_kind(
    alloc: Global,
    kind: Kind,
    parent: &[u8],
    words: &[&[u8]],
    out: &mut Vec<u8>,
) -> Result<(), AllocError>
    ensures { OnOk result (out.new.items ≡ out.old.items ++ kind_text kind parent.now (map (λ w. w.now) words.now)) }
{
    match kind {
        Kind::Mandatory => arrows(parent, b" [arrowhead=dot];\n", words, out),
        Kind::Optional => arrows(parent, b" [arrowhead=odot];\n", words, out),
        Kind::Requires => arrows(
            parent,
            b" [label=requires, style=dashed, constraint=false];\n",
            words,
            out,
        ),
        Kind::Excludes => arrows(
            parent,
            b" [label=excludes, style=dashed, constraint=false, dir=both];\n",
            words,
            out,
        ),
        Kind::Alternative => group(
            alloc,
            parent,
            b"fillcolor=white, label=\"\"];\n",
            words,
            out,
        ),
        Kind::Or => group(
            alloc,
            parent,
            b"fillcolor=black, label=\"\"];\n",
            words,
            out,
        ),
        Kind::Group => range(alloc, parent, words, out),
    }
}

fn of_kind(
    alloc: Global,
    kind: Option<Kind>,
    parent: &[u8],
    words: &[&[u8]],
    out: &mut Vec<u8>,
) -> Result<(), AllocError>
    ensures { OnOk result (out.new.items ≡ out.old.items
        ++ known_kind_text kind parent.now (map (λ w. w.now) words.now)) }
{
    match kind {
        Some(kind) => by_kind(alloc, kind, parent, words, out),
        None => Ok(()),
    }
}

/// Appends the picture of the line of these words.
fn of_words(alloc: Global, words: &[&[u8]], out: &mut Vec<u8>) -> Result<(), AllocError>
    ensures { OnOk result (out.new.items ≡ out.old.items ++ words_text (map (λ w. w.now) words.now)) }
{
    match words {
        [] | [_] => Ok(()),
        [word, parent, rest @ ..] => of_kind(alloc, kind_of(word), parent, rest, out),
    }
}

/// Appends the picture of a line.
fn line(alloc: Global, line: &[u8], out: &mut Vec<u8>) -> Result<(), AllocError>
    ensures { OnOk result (out.new.items ≡ out.old.items ++ line_text line.now) }
{
    let words = pieces(alloc, line)?;
    of_words(alloc, &words, out)
}

/// Appends the pictures of the lines.
fn each_line(alloc: Global, lines: &[&[u8]], out: &mut Vec<u8>) -> Result<(), AllocError>
    ensures { OnOk result (out.new.items ≡ out.old.items ++ flat_map line_text (map (λ w. w.now) lines.now)) }
{
    for bytes in lines {
        line(alloc, bytes, out)?;
    }
    Ok(())
}

/// Appends the pictures of all lines of a text.
fn whole(alloc: Global, text: &[u8], out: &mut Vec<u8>) -> Result<(), AllocError>
    ensures { OnOk result (out.new.items ≡ out.old.items ++ flat_map line_text (slice_split is_line_end text.now)) }
{
    let lines = lines(alloc, text)?;
    each_line(alloc, &lines, out)
}

#[tactic(auto, unfolding(crate::specs::FeatureDrawing::features_opening))]
fn opening(out: &mut Vec<u8>) -> Result<(), AllocError>
    ensures { OnOk result (out.new.items ≡ out.old.items ++ features_opening) }
{
    out.extend_from_slice(b"digraph features {\n  graph [label=\"decisions")
}

#[tactic(auto, unfolding(crate::specs::FeatureDrawing::features_defaults))]
fn defaults(out: &mut Vec<u8>) -> Result<(), AllocError>
    ensures { OnOk result (out.new.items ≡ out.old.items ++ features_defaults) }
{
    out.extend_from_slice(b"\", labelloc=t];\n  node [shape=box, style=filled, height=0.3];\n")
}

/// Appends the picture of a feature diagram. First come the decisions; then each feature in the diagram's order, green
/// if known in, grey if known out, white and dashed if open. Then comes the picture of each line of the text, in their
/// order.
///
/// `text` is the one that the diagram was read from, and `known` has the value of each feature. `Err` leaves `out` as
/// it was.
pub fn draw_features(
    alloc: Global,
    text: &[u8],
    diagram: &Diagram,
    known: &Partial,
    decisions: &[Decision],
    out: &mut Vec<u8>,
) -> Result<(), AllocError>
    requires known { length known.now ≡ length diagram.now.names }
    requires decisions { All (λ d. d.feature < length diagram.now.names) decisions.now }
    ensures drawn { OnOk result
        (out.new.items ≡ out.old.items
        ++ feature_drawing diagram.now.names known.now (map literal_of decisions.now) text.now) }
    ensures unchanged { OnErr result (out.new.items ≡ out.old.items) }
{
    let names = diagram.names();
    let mut drawing = Vec::new(alloc);
    opening(&mut drawing)?;
    choices(names, decisions, &mut drawing)?;
    defaults(&mut drawing)?;
    features(names, known, &mut drawing)?;
    whole(alloc, text, &mut drawing)?;
    drawing.extend_from_slice(b"}\n")?;
    out.extend_from_slice(&drawing)
}
