//! The configuration of a page, as it is written.
ghost use Rattle.std.specs.Prelude.{◌≡◌, ◌<◌, ◌++◌, length, map, flat_map, IfOk, OnOk};
ghost use Rattle.std.specs.List.{list_any};
ghost use Rattle.vpg_partial.specs.Known.{literal_of};
ghost use Rattle.vpg_configuration.specs.Documents.{document_text};
ghost use Rattle.vpg_configuration.specs.Exports.{is_value, features_known, selection_known, is_decision, decided_by, settings_of, line_of, configuration_text};

use crate::document::put_setting;
use crate::form::ConfigurationForm;
use crate::names::put_name;
use crate::selection::Selection;
use std::alloc::{AllocError, Global};
use vpg_features::Names;
use vpg_guards::Tri;
use vpg_partial::{Decision, Partial};

/// Returns what is known of a feature, as a selection.
fn selection_known(value: Tri) -> Selection
    ensures { result ≡ selection_known value }
{
    match value {
        Tri::Yes => Selection::Selected,
        Tri::No => Selection::Unselected,
        Tri::Unknown => Selection::Undefined,
    }
}

/// Whether two values are the same.
fn is_value(a: Tri, b: Tri) -> bool
    ensures { result ≡ is_value a b }
{
    a == b
}

/// Whether a decision is on a feature and has this value.
fn is_decision(feature: u16, value: bool, decision: &Decision) -> bool
    ensures { result ≡ is_decision feature value (literal_of decision.now) }
{
    decision.feature == feature && decision.value == value
}

/// Whether one of the decisions is on a feature and has this value.
fn has_decision(decisions: &[Decision], feature: u16, value: bool) -> bool
    ensures { result ≡ list_any (λ d. is_decision feature value (literal_of d)) decisions.now }
{
    decisions.iter().any(|d| is_decision(feature, value, d))
}

/// Returns what the decisions select of a feature.
fn decided_by(decisions: &[Decision], feature: u16) -> Selection
    ensures { result ≡ decided_by (map literal_of decisions.now) feature }
{
    if has_decision(decisions, feature, true) {
        return Selection::Selected;
    }
    if has_decision(decisions, feature, false) {
        return Selection::Unselected;
    }
    Selection::Undefined
}

/// Appends the line of a feature.
fn put_line(
    form: ConfigurationForm,
    names: &Names,
    known: &Partial,
    decisions: &[Decision],
    feature: u16,
    out: &mut Vec<u8>,
) -> Result<(), AllocError>
    requires known { length known.now ≡ length names.now }
    requires feature { feature < length names.now }
    ensures { OnOk result (out.new.items ≡ out.old.items
        ++ line_of form names.now known.now (map literal_of decisions.now) feature) }
{
    let name = names.name(feature).as_bytes();
    match form {
        ConfigurationForm::Names => put_name(name, out),
        ConfigurationForm::Xml => put_setting(
            selection_known(known.value(feature)),
            decided_by(decisions, feature),
            name,
            out,
        ),
    }
}

/// Appends the lines of the features of which this is known, in the diagram's order.
fn put_lines(
    form: ConfigurationForm,
    names: &Names,
    known: &Partial,
    decisions: &[Decision],
    value: Tri,
    out: &mut Vec<u8>,
) -> Result<(), AllocError>
    requires { length known.now ≡ length names.now }
    ensures { OnOk result (out.new.items ≡ out.old.items
        ++ flat_map (line_of form names.now known.now (map literal_of decisions.now))
        (features_known known.now value (length names.now))) }
{
    let count = names.len() as u16;
    for f in 0..count {
        if is_value(known.value(f), value) {
            put_line(form, names, known, decisions, f, out)?;
        }
    }
    Ok(())
}

/// Appends the document with the lines of all features.
fn put_document(
    names: &Names,
    known: &Partial,
    decisions: &[Decision],
    out: &mut Vec<u8>,
) -> Result<(), AllocError>
    requires { length known.now ≡ length names.now }
    ensures { OnOk result (out.new.items ≡ out.old.items
        ++ document_text (settings_of names.now known.now (map literal_of decisions.now))) }
{
    let form = ConfigurationForm::Xml;
    out.extend_from_slice(
        b"<?xml version=\"1.0\" encoding=\"UTF-8\" standalone=\"no\"?>\n<configuration>\n",
    )?;
    put_lines(form, names, known, decisions, Tri::Yes, out)?;
    put_lines(form, names, known, decisions, Tri::No, out)?;
    put_lines(form, names, known, decisions, Tri::Unknown, out)?;
    out.extend_from_slice(b"</configuration>\n")?;
    Ok(())
}

/// Returns the configuration of a page, whose diagram has features with these names: of its decisions, and of what they
/// make known. As names it has the features that are known to be in, one a line. As XML it has first these, then those
/// known to be out, and then the others. A decision on a feature is its `manual` selection; without one, what is known
/// of it is its `automatic` selection.
pub fn exported(
    alloc: Global,
    form: ConfigurationForm,
    names: &Names,
    known: &Partial,
    decisions: &[Decision],
) -> Result<Vec<u8>, AllocError>
    requires { length known.now ≡ length names.now }
    ensures { IfOk result (λ text.
        text.items ≡ configuration_text form names.now known.now (map literal_of decisions.now)) }
{
    let mut text = Vec::new(alloc);
    match form {
        ConfigurationForm::Names => {
            put_lines(form, names, known, decisions, Tri::Yes, &mut text)?;
        }
        ConfigurationForm::Xml => put_document(names, known, decisions, &mut text)?,
    }
    Ok(text)
}
