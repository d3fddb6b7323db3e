//! The decisions of a configuration in FeatureIDE's XML.
ghost use Rattle.std.specs.Prelude.{◌≡◌, ◌++◌, ◌∷◌, [], List, ℕ, Ok, Err, IfOk, IfErr, OnOk, MatchResult, map, is_some};
ghost use Rattle.vpg_featureide.specs.Model.{is_name, value_of};
ghost use Rattle.vpg_featureide.specs.View.{value_in};
ghost use Rattle.vpg_xml.specs.Elements.{Document};
ghost use Rattle.vpg_xml.specs.Nesting.{Spells};
ghost use Rattle.vpg_xml.specs.View.{attribute_of, element_of, elements_of};
ghost use Rattle.vpg_configuration.specs.Deciding.{Refused, has_selection, selection_of, unknown_value, manual_of, decision_line, feature_line, with_line, unknown, in_configuration, step, lines_with, lines_of, Decides, IsRefused, of_xml, IsTextFault, told, IsConfigurationFault};
ghost use Rattle.vpg_configuration.specs.declared.fault.ConfigurationFault.TheVariants.{Memory};

use crate::fault::{ConfigurationFault, Reason, TextFault};
use crate::selection::{Selection, is_same, selection_of};
use std::alloc::{AllocError, Global};
use vpg_features::is_feature_name;
use vpg_places::place_of;
use vpg_xml::{Attribute, Element, XmlFault, read_document};

/// Whether an attribute with this name has a selection as its value.
fn has_selection(key: &[u8]) -> bool
    ensures { result ≡ has_selection key.now }
{
    is_same(key, b"manual") || is_same(key, b"automatic")
}

/// Whether a word stands for a selection.
fn is_selection(word: &[u8]) -> bool
    ensures { result ≡ is_some (selection_of word.now) }
{
    selection_of(word).is_some()
}

/// Returns the value of the attribute with a name.
fn value_of<'a>(attributes: &'a [Attribute], key: &[u8]) -> Option<&'a [u8]>
    ensures { value_in result ≡ value_of key.now (map attribute_of attributes.now) }
{
    for a in attributes {
        if is_same(a.name, key) {
            return Some(a.value.as_slice());
        }
    }
    None
}

/// Returns the place of the first attribute whose value is unknown.
fn unknown_value(attributes: &[Attribute]) -> Option<usize>
    ensures { result ≡ unknown_value (map attribute_of attributes.now) }
{
    for a in attributes {
        if has_selection(a.name) && !is_selection(a.value.as_slice()) {
            return Some(a.at);
        }
    }
    None
}

/// Returns what a person selected.
fn manual_of(attributes: &[Attribute]) -> Option<Selection>
    ensures { result ≡ manual_of (map attribute_of attributes.now) }
{
    match value_of(attributes, b"manual") {
        Some(word) => selection_of(word),
        None => None,
    }
}

/// Whether a word is a feature name.
fn is_name(name: &[u8]) -> bool
    ensures { result ≡ is_name name.now }
{
    is_feature_name(name)
}

/// Returns the fault for a reason, at a place.
fn refused(reason: Reason, at: usize) -> TextFault
    ensures { result ≡ Refused reason at }
{
    TextFault::Refused { reason, at }
}

/// Returns the name of a feature's element.
fn name_of<'a>(e: &'a Element) -> Result<&'a [u8], TextFault>
    ensures ok { IfOk result (λ name. feature_line (element_of e.now)
        ≡ Ok (decision_line (manual_of (element_of e.now).tag.attributes) name.now)) }
    ensures err { IfErr result (λ fault. feature_line (element_of e.now) ≡ Err fault) }
{
    if let Some(at) = unknown_value(&e.tag.attributes) {
        return Err(refused(Reason::UnknownValue, at));
    }
    let Some(name) = value_of(&e.tag.attributes, b"name") else {
        return Err(refused(Reason::NoName, e.at));
    };
    if is_name(name) {
        Ok(name)
    } else {
        Err(refused(Reason::BadName, e.at))
    }
}

/// Appends a line with a word and the name of a feature.
fn put_line(word: &[u8], name: &[u8], out: &mut Vec<u8>) -> Result<(), AllocError>
    ensures { OnOk result (out.new.items ≡ out.old.items ++ word.now ++ name.now ++ 10 ∷ []) }
{
    out.extend_from_slice(word)?;
    out.extend_from_slice(name)?;
    out.extend_from_slice(b"\n")
}

/// Appends the line of a script for the selection of a feature.
fn put_decision(manual: Option<Selection>, name: &[u8], out: &mut Vec<u8>) -> Result<(), AllocError>
    ensures { OnOk result (out.new.items ≡ out.old.items ++ decision_line manual name.now) }
{
    match manual {
        Some(Selection::Selected) => put_line(b"select ", name, out),
        Some(Selection::Unselected) => put_line(b"exclude ", name, out),
        Some(Selection::Undefined) | None => Ok(()),
    }
}

/// Appends the line of a script for a feature's element.
fn put_feature(e: &Element, out: &mut Vec<u8>) -> Result<(), TextFault>
    ensures ok { OnOk result (with_line out.old.items (feature_line (element_of e.now)) ≡ Ok out.new.items) }
    ensures err { IfErr result (IsRefused (with_line out.old.items (feature_line (element_of e.now)))) }
{
    let name = match name_of(e) {
        Ok(name) => name,
        Err(fault) => return Err(fault),
    };
    let Ok(()) = put_decision(manual_of(&e.tag.attributes), name, out) else {
        return Err(TextFault::Memory);
    };
    Ok(())
}

/// Returns that an element may not be there.
fn unknown(e: &Element) -> TextFault
    ensures { result ≡ unknown (element_of e.now) }
{
    refused(Reason::UnknownElement, e.at)
}

/// Appends the line of a script for an element right in the outermost one.
fn put_inner(e: &Element, out: &mut Vec<u8>) -> Result<(), TextFault>
    ensures ok { OnOk result (in_configuration out.old.items (element_of e.now) ≡ Ok out.new.items) }
    ensures err { IfErr result (IsRefused (in_configuration out.old.items (element_of e.now))) }
{
    if is_same(e.tag.name, b"feature") {
        put_feature(e, out)
    } else {
        Err(unknown(e))
    }
}

/// Appends the line of a script for an element.
fn put_element(e: &Element, out: &mut Vec<u8>) -> Result<(), TextFault>
    ensures ok { OnOk result (step out.old.items (element_of e.now) ≡ Ok out.new.items) }
    ensures err { IfErr result (IsRefused (step out.old.items (element_of e.now))) }
{
    let Some(parent) = e.parent else {
        return if is_same(e.tag.name, b"configuration") {
            Ok(())
        } else {
            Err(unknown(e))
        };
    };
    if parent == 0 {
        put_inner(e, out)
    } else {
        Ok(())
    }
}

/// Returns the lines of a script for a document.
fn lines_of(alloc: Global, elements: &[Element]) -> Result<Vec<u8>, TextFault>
    ensures ok { IfOk result (λ lines. lines_with [] (elements_of elements.now) ≡ Ok lines.items) }
    ensures err { IfErr result (IsRefused (lines_with [] (elements_of elements.now))) }
{
    let mut lines = Vec::new(alloc);
    for e in elements {
        if let Err(fault) = put_element(e, &mut lines) {
            return Err(fault);
        }
    }
    Ok(lines)
}

/// Returns the fault of a text that is no document.
fn of_xml(fault: XmlFault) -> TextFault
    ensures { result ≡ of_xml fault }
{
    match fault {
        XmlFault::Declaration { at } => refused(Reason::Declaration, at),
        XmlFault::Character { at } => refused(Reason::Character, at),
        XmlFault::Reference { at } => refused(Reason::Reference, at),
        XmlFault::Markup { at } => refused(Reason::Markup, at),
        XmlFault::Closing { at } => refused(Reason::Closing, at),
        XmlFault::SecondRoot { at } => refused(Reason::SecondRoot, at),
        XmlFault::TooDeep { at } => refused(Reason::TooDeep, at),
        XmlFault::Outside { at } => refused(Reason::Outside, at),
        XmlFault::Unfinished { at } => refused(Reason::Unfinished, at),
        XmlFault::Memory => TextFault::Memory,
    }
}

/// Returns the lines of a script for a text.
fn decided(alloc: Global, text: &[u8]) -> Result<Vec<u8>, TextFault>
    ensures found { IfOk result (λ lines. Decides text.now lines.items) }
    ensures only { (d : Document) → Spells text.now d → IfOk result (λ lines. lines_of d ≡ Ok lines.items) }
    ensures refused { (d : Document) → Spells text.now d → IfErr result (IsRefused (lines_of d)) }
    ensures fault { IfErr result (IsTextFault text.now) }
{
    match read_document(alloc, text) {
        Ok(elements) => lines_of(alloc, &elements),
        Err(fault) => Err(of_xml(fault)),
    }
}

/// Returns a fault with the line and the column of its place.
fn told(text: &[u8], fault: TextFault) -> ConfigurationFault
    ensures { result ≡ told text.now fault }
{
    match fault {
        TextFault::Refused { reason, at } => {
            let place = place_of(text, at.min(text.len()));
            ConfigurationFault::Refused {
                reason,
                line: place.line,
                column: place.column,
            }
        }
        TextFault::Memory => ConfigurationFault::Memory,
    }
}

/// Returns the lines of a script that decide as a person did in a configuration: `select F` or `exclude F` for each
/// feature whose `manual` selection is not undefined, in the order of the text. Faults of XML come first, and then
/// those of the elements in their order.
pub fn deciding(alloc: Global, text: &[u8]) -> Result<Vec<u8>, ConfigurationFault>
    ensures found { IfOk result (λ lines. Decides text.now lines.items) }
    // Each configuration is read, unless memory runs out.
    ensures only { (lines : List ℕ) → Decides text.now lines →
        MatchResult result (λ read. read.items ≡ lines) (λ fault. fault ≡ Memory) }
    ensures refused { IfErr result (IsConfigurationFault text.now) }
{
    match decided(alloc, text) {
        Ok(lines) => Ok(lines),
        Err(fault) => Err(told(text, fault)),
    }
}
