//! The text of a feature model's fault.
ghost use Rattle.std.specs.Prelude.{◌≡◌, ◌++◌, codes, OnOk};
ghost use Rattle.vpg_models.specs.Told.{reason_text, at_text, uvl_text, xml_text, featureide_text, form_fault_text};

use crate::fault::FormFault;
use std::alloc::AllocError;
use vpg_featureide::ModelFault;
use vpg_lint::put_number;
use vpg_uvl::{Reason, UvlFault};
use vpg_xml::XmlFault;

/// Returns the word for a reason.
fn word_of(reason: Reason) -> &'static [u8]
    ensures { result.now ≡ reason_text reason }
{
    match reason {
        Reason::Syntax => b"Syntax",
        Reason::Indentation => b"Indentation",
        Reason::Import => b"Import",
        Reason::Level => b"Level",
        Reason::Typed => b"Typed",
        Reason::FeatureCardinality => b"FeatureCardinality",
        Reason::Attributes => b"Attributes",
        Reason::AttributeConstraint => b"AttributeConstraint",
        Reason::Quotes => b"Quotes",
        Reason::Name => b"Name",
        Reason::Range => b"Range",
        Reason::Twice => b"Twice",
        Reason::TooMany => b"TooMany",
        Reason::NoMember => b"NoMember",
        Reason::UnknownFeature => b"UnknownFeature",
        Reason::Attribute => b"Attribute",
        Reason::Arithmetic => b"Arithmetic",
        Reason::Comparison => b"Comparison",
        Reason::Text => b"Text",
        Reason::Aggregate => b"Aggregate",
        Reason::Comment => b"Comment",
        Reason::TooDeep => b"TooDeep",
    }
}

/// Appends a word, a blank and a number.
fn put_at(word: &[u8], at: usize, out: &mut Vec<u8>) -> Result<(), AllocError>
    ensures { OnOk result (out.new.items ≡ out.old.items ++ at_text word.now at) }
{
    out.extend_from_slice(word)?;
    out.extend_from_slice(b" ")?;
    put_number(at, out)
}

/// Appends a reason, and `LINE:COLUMN`.
fn put_reason(
    reason: Reason,
    line: usize,
    column: usize,
    out: &mut Vec<u8>,
) -> Result<(), AllocError>
    ensures { OnOk result (out.new.items ≡ out.old.items ++ uvl_text (UvlFault.Refused reason line column)) }
{
    out.extend_from_slice(word_of(reason))?;
    out.extend_from_slice(b" ")?;
    put_number(line, out)?;
    out.extend_from_slice(b":")?;
    put_number(column, out)
}

fn put_uvl(fault: UvlFault, out: &mut Vec<u8>) -> Result<(), AllocError>
    ensures { OnOk result (out.new.items ≡ out.old.items ++ uvl_text fault) }
{
    match fault {
        UvlFault::Refused {
            reason,
            line,
            column,
        } => put_reason(reason, line, column, out),
        UvlFault::Ended => out.extend_from_slice(b"Ended"),
        UvlFault::Memory => out.extend_from_slice(b"Memory"),
    }
}

fn put_xml(fault: XmlFault, out: &mut Vec<u8>) -> Result<(), AllocError>
    ensures { OnOk result (out.new.items ≡ out.old.items ++ xml_text fault) }
{
    match fault {
        XmlFault::Declaration { at } => put_at(b"Declaration", at, out),
        XmlFault::Character { at } => put_at(b"Character", at, out),
        XmlFault::Reference { at } => put_at(b"Reference", at, out),
        XmlFault::Markup { at } => put_at(b"Markup", at, out),
        XmlFault::Closing { at } => put_at(b"Closing", at, out),
        XmlFault::SecondRoot { at } => put_at(b"SecondRoot", at, out),
        XmlFault::TooDeep { at } => put_at(b"TooDeep", at, out),
        XmlFault::Outside { at } => put_at(b"Outside", at, out),
        XmlFault::Unfinished { at } => put_at(b"Unfinished", at, out),
        XmlFault::Memory => out.extend_from_slice(b"Memory"),
    }
}

/// Appends a word and why a text is no document.
fn put_of_xml(fault: XmlFault, out: &mut Vec<u8>) -> Result<(), AllocError>
    ensures { OnOk result (out.new.items ≡ out.old.items ++ codes "Xml " ++ xml_text fault) }
{
    out.extend_from_slice(b"Xml ")?;
    put_xml(fault, out)
}

fn put_featureide(fault: ModelFault, out: &mut Vec<u8>) -> Result<(), AllocError>
    ensures { OnOk result (out.new.items ≡ out.old.items ++ featureide_text fault) }
{
    match fault {
        ModelFault::Xml(fault) => put_of_xml(fault, out),
        ModelFault::UnknownElement { at } => put_at(b"UnknownElement", at, out),
        ModelFault::UnknownValue { at } => put_at(b"UnknownValue", at, out),
        ModelFault::NoName { at } => put_at(b"NoName", at, out),
        ModelFault::BadName { at } => put_at(b"BadName", at, out),
        ModelFault::Twice { at } => put_at(b"Twice", at, out),
        ModelFault::TooMany { at } => put_at(b"TooMany", at, out),
        ModelFault::SecondRoot { at } => put_at(b"SecondRoot", at, out),
        ModelFault::NoRoot => out.extend_from_slice(b"NoRoot"),
        ModelFault::UnknownName { at } => put_at(b"UnknownName", at, out),
        ModelFault::Operands { at } => put_at(b"Operands", at, out),
        ModelFault::TooDeep { at } => put_at(b"TooDeep", at, out),
        ModelFault::Memory => out.extend_from_slice(b"Memory"),
    }
}

/// Appends a word and why a text is no model in UVL.
fn put_of_uvl(fault: UvlFault, out: &mut Vec<u8>) -> Result<(), AllocError>
    ensures { OnOk result (out.new.items ≡ out.old.items ++ codes "uvl " ++ uvl_text fault) }
{
    out.extend_from_slice(b"uvl ")?;
    put_uvl(fault, out)
}

/// Appends a word and why a text is no model of FeatureIDE.
fn put_of_featureide(fault: ModelFault, out: &mut Vec<u8>) -> Result<(), AllocError>
    ensures { OnOk result (out.new.items ≡ out.old.items ++ codes "featureide " ++ featureide_text fault) }
{
    out.extend_from_slice(b"featureide ")?;
    put_featureide(fault, out)
}

/// Appends the language of a model, and its fault in it.
pub fn put_form_fault(fault: FormFault, out: &mut Vec<u8>) -> Result<(), AllocError>
    ensures { OnOk result (out.new.items ≡ out.old.items ++ form_fault_text fault) }
{
    match fault {
        FormFault::Uvl(fault) => put_of_uvl(fault, out),
        FormFault::FeatureIde(fault) => put_of_featureide(fault, out),
        FormFault::Memory => out.extend_from_slice(b"Memory"),
    }
}
