//! The lines of answers.
ghost use Rattle.std.specs.Prelude.{◌≡◌, ◌<◌, ◌++◌, ◌∷◌, [], All, IfOk, OnOk, false, length, map, slice_index_or};
ghost use Rattle.vpg_partial.specs.Known.{literal_of};
ghost use Rattle.vpg_script.specs.Answer.{IsGiven};
ghost use Rattle.vpg_texts.specs.Labels.{beside};
ghost use Rattle.vpg_texts.specs.Text.{choice_text, choices_text, name_of};
ghost use Rattle.vpg_looks.specs.Texts.{choice_line, conflict_line, doubt_text, known_line, known_word, lost_head, lost_word, more_text, names_in, no_conflict, none_line, not_known, other_line, other_word, product_line, product_word, reason_text, total_line, unsettled_line, verdict_line, verdict_word};

use std::alloc::AllocError;
use vpg_diagram::Literal;
use vpg_features::Names;
use vpg_partial::Decision;
use vpg_script::Tone;
use vpg_sides::Which;
use vpg_texts::{blank_name, blank_number, put_beside};

fn name_at(names: &Names, feature: u16) -> &[u8]
    requires { feature < length names.now }
    ensures { result.now ≡ name_of names.now feature }
{
    names.name(feature).as_bytes()
}

/// Appends a feature that is in, or out.
pub(crate) fn choice(names: &Names, l: Literal, out: &mut Vec<u8>) -> Result<(), AllocError>
    requires { l.feature < length names.now }
    ensures { OnOk result (out.new.items ≡ out.old.items ++ choice_text names.now l) }
{
    out.push(b' ')?;
    out.push(if l.value { b'+' } else { b'-' })?;
    out.extend_from_slice(name_at(names, l.feature))?;
    Ok(())
}

pub(crate) fn literal(d: &Decision) -> Literal
    ensures { result ≡ literal_of d.now }
{
    Literal {
        feature: d.feature,
        value: d.value,
    }
}

/// Appends the choices of some decisions.
fn choices(names: &Names, ds: &[Decision], out: &mut Vec<u8>) -> Result<(), AllocError>
    requires { All (λ d. d.feature < length names.now) ds.now }
    ensures { OnOk result (out.new.items ≡ out.old.items ++ choices_text names.now (map literal_of ds.now)) }
{
    for d in ds {
        choice(names, literal(d), out)?;
    }
    Ok(())
}

fn doubt(exact: bool, out: &mut Vec<u8>) -> Result<(), AllocError>
    ensures { OnOk result (out.new.items ≡ out.old.items ++ doubt_text exact) }
{
    if !exact {
        out.extend_from_slice(b" or fewer")?;
    }
    Ok(())
}

/// Appends the name of a line's vertex, if it has one, and the line's end.
pub(crate) fn end(label: &[u8], out: &mut Vec<u8>) -> Result<(), AllocError>
    ensures { OnOk result (out.new.items ≡ out.old.items ++ beside label.now ++ 10 ∷ []) }
{
    put_beside(label, out)?;
    out.push(b'\n')?;
    Ok(())
}

/// Appends decisions that are a reason, up to the line's end.
pub(crate) fn reason(
    names: &Names,
    listed: &[Decision],
    exact: bool,
    label: &[u8],
    out: &mut Vec<u8>,
) -> Result<(), AllocError>
    requires { All (λ d. d.feature < length names.now) listed.now }
    ensures { OnOk result (out.new.items ≡ out.old.items ++ reason_text names.now listed.now exact label.now) }
{
    choices(names, listed, out)?;
    doubt(exact, out)?;
    end(label, out)
}

/// Appends the word of a verdict.
pub(crate) fn verdict_word(which: Which, out: &mut Vec<u8>) -> Result<(), AllocError>
    ensures { OnOk result (out.new.items ≡ out.old.items ++ verdict_word which) }
{
    match which {
        Which::Hopeful => out.extend_from_slice(b"hopeless")?,
        Which::Dual => out.extend_from_slice(b"sure")?,
    }
    Ok(())
}

/// Appends the word of a table's vertex without the verdict.
pub(crate) fn other_word(which: Which, out: &mut Vec<u8>) -> Result<(), AllocError>
    ensures { OnOk result (out.new.items ≡ out.old.items ++ other_word which) }
{
    match which {
        Which::Hopeful => out.extend_from_slice(b"possible")?,
        Which::Dual => out.extend_from_slice(b"unsure")?,
    }
    Ok(())
}

/// Appends a vertex with a verdict, and the decisions that are its reason.
pub(crate) fn verdict(
    names: &Names,
    which: Which,
    identifier: u32,
    label: &[u8],
    listed: &[Decision],
    exact: bool,
    out: &mut Vec<u8>,
) -> Result<(), AllocError>
    requires { All (λ d. d.feature < length names.now) listed.now }
    ensures { OnOk result (out.new.items ≡
        out.old.items ++ verdict_line names.now which identifier label.now listed.now exact) }
{
    verdict_word(which, out)?;
    blank_number(identifier as u64, out)?;
    reason(names, listed, exact, label, out)
}

/// Appends a vertex without the verdict.
pub(crate) fn other(
    which: Which,
    identifier: u32,
    label: &[u8],
    out: &mut Vec<u8>,
) -> Result<(), AllocError>
    ensures { OnOk result (out.new.items ≡ out.old.items ++ other_line which identifier label.now) }
{
    other_word(which, out)?;
    blank_number(identifier as u64, out)?;
    end(label, out)
}

fn lost_word(which: Which, out: &mut Vec<u8>) -> Result<(), AllocError>
    ensures { OnOk result (out.new.items ≡ out.old.items ++ lost_word which) }
{
    match which {
        Which::Hopeful => out.extend_from_slice(b"lost")?,
        Which::Dual => out.extend_from_slice(b"won")?,
    }
    Ok(())
}

/// Appends a vertex that is lost in every product, or won.
pub(crate) fn lost_head(which: Which, identifier: u32, out: &mut Vec<u8>) -> Result<(), AllocError>
    ensures { OnOk result (out.new.items ≡ out.old.items ++ lost_head which identifier) }
{
    lost_word(which, out)?;
    blank_number(identifier as u64, out)
}

fn known_word(value: bool, out: &mut Vec<u8>) -> Result<(), AllocError>
    ensures { OnOk result (out.new.items ≡ out.old.items ++ known_word value) }
{
    if value {
        out.extend_from_slice(b"in")?;
    } else {
        out.extend_from_slice(b"out")?;
    }
    Ok(())
}

/// Appends a feature that is known, and the decisions that are the reason.
pub(crate) fn known(
    names: &Names,
    feature: u16,
    value: bool,
    listed: &[Decision],
    out: &mut Vec<u8>,
) -> Result<(), AllocError>
    requires feature { feature < length names.now }
    requires listed { All (λ d. d.feature < length names.now) listed.now }
    ensures { OnOk result (out.new.items ≡ out.old.items ++ known_line names.now value feature listed.now) }
{
    known_word(value, out)?;
    blank_name(names, feature, out)?;
    reason(names, listed, true, b"", out)
}

/// Appends the refusal of a feature that is not known.
pub(crate) fn not_known(out: &mut Vec<u8>) -> Result<Tone, AllocError>
    ensures { IfOk result (λ tone. IsGiven not_known tone out.old.items out.new.items) }
{
    out.extend_from_slice(b"refused NotKnown\n")?;
    Ok(Tone::Refused)
}

/// Appends one more decision, and those that contradict it.
pub(crate) fn conflict(
    names: &Names,
    more: Literal,
    listed: &[Decision],
    out: &mut Vec<u8>,
) -> Result<(), AllocError>
    requires feature { more.feature < length names.now }
    requires listed { All (λ d. d.feature < length names.now) listed.now }
    ensures { OnOk result (out.new.items ≡ out.old.items ++ conflict_line names.now more listed.now) }
{
    out.extend_from_slice(b"conflict")?;
    choice(names, more, out)?;
    reason(names, listed, true, b"", out)
}

/// Appends the refusal of one more decision that none contradicts.
pub(crate) fn no_conflict(out: &mut Vec<u8>) -> Result<Tone, AllocError>
    ensures { IfOk result (λ tone. IsGiven no_conflict tone out.old.items out.new.items) }
{
    out.extend_from_slice(b"refused NoConflict\n")?;
    Ok(Tone::Refused)
}

fn has(product: &[bool], feature: u16) -> bool
    ensures { result ≡ slice_index_or product.now feature false }
{
    match product.get(feature as usize) {
        Some(value) => *value,
        None => false,
    }
}

/// Appends the names of the features that a product has.
fn names_in(names: &Names, product: &[bool], out: &mut Vec<u8>) -> Result<(), AllocError>
    ensures { OnOk result (out.new.items ≡ out.old.items ++ names_in names.now product.now (length names.now)) }
{
    let count = names.len() as u16;
    for f in 0..count {
        if has(product, f) {
            blank_name(names, f, out)?;
        }
    }
    Ok(())
}

fn product_word(first: bool, out: &mut Vec<u8>) -> Result<(), AllocError>
    ensures { OnOk result (out.new.items ≡ out.old.items ++ product_word first) }
{
    if first {
        out.extend_from_slice(b"product")
    } else {
        out.extend_from_slice(b"some product")
    }
}

/// Appends a product, and whether it was shown to be the first.
pub(crate) fn product(
    names: &Names,
    product: &[bool],
    first: bool,
    out: &mut Vec<u8>,
) -> Result<(), AllocError>
    ensures { OnOk result (out.new.items ≡ out.old.items ++ product_line names.now product.now first) }
{
    product_word(first, out)?;
    names_in(names, product, out)?;
    out.extend_from_slice(b"\n")
}

/// Appends that there is none.
pub(crate) fn none(out: &mut Vec<u8>) -> Result<(), AllocError>
    ensures { OnOk result (out.new.items ≡ out.old.items ++ none_line) }
{
    out.extend_from_slice(b"none\n")
}

/// Appends that a limit was met.
pub(crate) fn unsettled(out: &mut Vec<u8>) -> Result<(), AllocError>
    ensures { OnOk result (out.new.items ≡ out.old.items ++ unsettled_line) }
{
    out.extend_from_slice(b"unsettled\n")
}

/// Appends one choice after a word.
pub(crate) fn choice_line(
    word: &[u8],
    names: &Names,
    l: Literal,
    out: &mut Vec<u8>,
) -> Result<(), AllocError>
    requires { l.feature < length names.now }
    ensures { OnOk result (out.new.items ≡ out.old.items ++ choice_line word.now names.now l) }
{
    out.extend_from_slice(word)?;
    choice(names, l, out)?;
    out.extend_from_slice(b"\n")
}

/// Appends that there may be other lines, if it was not shown that there are none.
pub(crate) fn more(exact: bool, out: &mut Vec<u8>) -> Result<(), AllocError>
    ensures { OnOk result (out.new.items ≡ out.old.items ++ more_text exact) }
{
    if !exact {
        out.extend_from_slice(b" or more")?;
    }
    Ok(())
}

/// Appends the number of the lines before this one, and whether it was shown that there are no others.
pub(crate) fn total(
    word: &[u8],
    lines: usize,
    exact: bool,
    out: &mut Vec<u8>,
) -> Result<(), AllocError>
    ensures { OnOk result (out.new.items ≡ out.old.items ++ total_line word.now lines exact) }
{
    out.extend_from_slice(word)?;
    blank_number(lines as u64, out)?;
    more(exact, out)?;
    out.extend_from_slice(b"\n")
}
