//! Messages on the faults of feature models.
use crate::fault::FormFault;
use std::alloc::{AllocError, Global};
use vpg_featureide::ModelFault;
use vpg_features::is_name_byte;
use vpg_lint::{Message, put_shown};
use vpg_places::{Place, line_at, place_of};
use vpg_uvl::{Reason, UvlFault};
use vpg_xml::XmlFault;

/// Returns what is wrong for a reason, and a hint, which is empty if there is none.
fn said_of(reason: Reason) -> (&'static [u8], &'static [u8]) {
    match reason {
        Reason::Syntax => (b"this cannot stand here", b""),
        Reason::Indentation => (
            b"this line is indented neither more than the one above nor as one around it",
            b"lines below `features` and below `constraints` are indented",
        ),
        Reason::Import => (
            b"imports are not read",
            b"copy what is imported into this file",
        ),
        Reason::Level => (
            b"this language level is not read",
            b"`Boolean`, `Boolean.*` and `Boolean.group-cardinality` are",
        ),
        Reason::Typed => (
            b"a feature with a type is not read",
            b"features are there or not",
        ),
        Reason::FeatureCardinality => (
            b"a feature with a cardinality is not read",
            b"a group may have one: `[1..2]` in a line of its own",
        ),
        Reason::Attributes => (b"attributes end in a `}` at the end of their line", b""),
        Reason::AttributeConstraint => (
            b"a constraint among attributes is not read",
            b"write it below `constraints`",
        ),
        Reason::Quotes => (b"between quotes stands no feature name of diagrams", b""),
        Reason::Name => (
            b"this is no feature name here",
            b"a name has 1 to 64 letters, digits and `_`, begins with no digit, and is not `true` or `false`",
        ),
        Reason::Range => (
            b"the low end of this cardinality is above its high end",
            b"",
        ),
        Reason::Twice => (b"a feature of this name stands above", b""),
        Reason::TooMany => (
            b"this is the 513th feature, and a diagram has at most 512",
            b"",
        ),
        Reason::NoMember => (
            b"the group above has no member",
            b"its members stand below it, indented more",
        ),
        _ => said_of_constraint(reason),
    }
}

/// Returns what is wrong for a reason of a constraint, and a hint.
fn said_of_constraint(reason: Reason) -> (&'static [u8], &'static [u8]) {
    match reason {
        Reason::UnknownFeature => (b"this constraint has a name that no feature has", b""),
        Reason::Attribute => (b"attributes in constraints are not read", b""),
        Reason::Arithmetic => (b"numbers and arithmetic in constraints are not read", b""),
        Reason::Comparison => (b"comparisons in constraints are not read", b""),
        Reason::Text => (b"texts in constraints are not read", b""),
        Reason::Aggregate => (b"functions in constraints are not read", b""),
        Reason::Comment => (b"this comment has no end", b"it ends at the next `*/`"),
        Reason::TooDeep => (b"more than 64 signs are open here", b""),
        _ => (b"this cannot stand here", b""),
    }
}

/// Appends what is wrong, and a hint if there is one.
fn put_said(said: (&[u8], &[u8]), out: &mut Vec<u8>) -> Result<(), AllocError> {
    let (what, hint) = said;
    out.extend_from_slice(what)?;
    out.extend_from_slice(b"\n")?;
    if hint.is_empty() {
        return Ok(());
    }
    out.extend_from_slice(b"  hint: ")?;
    out.extend_from_slice(hint)?;
    out.extend_from_slice(b"\n")
}

/// Returns the word at the front of a text: a name, or else one byte.
fn word_at(text: &[u8]) -> &[u8] {
    let len = text.iter().take_while(|b| is_name_byte(**b)).count();
    text.get(..len.max(1)).unwrap_or(text)
}

/// Appends what was found, if there is something.
fn put_found(text: &[u8], out: &mut Vec<u8>) -> Result<(), AllocError> {
    let word = word_at(text);
    if word.is_empty() {
        return Ok(());
    }
    out.extend_from_slice(b"found `")?;
    put_shown(word, out)?;
    out.extend_from_slice(b"`; ")
}

/// Returns the message on a row that is refused. The column counts bytes, from 1.
fn message_of_row(
    alloc: Global,
    text: &[u8],
    reason: Reason,
    line: usize,
    column: usize,
) -> Result<Message, AllocError> {
    let line = line_at(text, line);
    let at = column.saturating_sub(1).min(line.bytes.len());
    let mut words = Vec::new(alloc);
    put_found(line.bytes.get(at..).unwrap_or(b""), &mut words)?;
    put_said(said_of(reason), &mut words)?;
    Ok(Message {
        place: line.place(at),
        words,
    })
}

/// Returns a message at a place.
fn message_at(alloc: Global, place: Place, said: (&[u8], &[u8])) -> Result<Message, AllocError> {
    let mut words = Vec::new(alloc);
    put_said(said, &mut words)?;
    Ok(Message { place, words })
}

/// Returns the message on the fault of a text in UVL.
fn message_of_uvl(alloc: Global, text: &[u8], fault: UvlFault) -> Result<Message, AllocError> {
    match fault {
        UvlFault::Refused {
            reason,
            line,
            column,
        } => message_of_row(alloc, text, reason, line, column),
        UvlFault::Ended => message_at(
            alloc,
            place_of(text, text.len()),
            (
                b"the text ends before `features`, the root, or the first member of a group",
                b"",
            ),
        ),
        UvlFault::Memory => message_at(alloc, place_of(text, 0), (b"memory ran out", b"")),
    }
}

/// Returns the offset of a fault of XML, and what is wrong there.
fn said_of_xml(fault: XmlFault) -> (usize, &'static [u8]) {
    match fault {
        XmlFault::Declaration { at } => (at, b"this is no declaration of XML"),
        XmlFault::Character { at } => (at, b"this character cannot stand here"),
        XmlFault::Reference { at } => (
            at,
            b"this `&` begins no reference that is read: `&lt;`, `&gt;`, `&amp;`, `&apos;`, `&quot;`, or a number",
        ),
        XmlFault::Markup { at } => (at, b"this begins no tag and no comment"),
        XmlFault::Closing { at } => (at, b"this end tag does not end the innermost open element"),
        XmlFault::SecondRoot { at } => (at, b"a document has one outermost element"),
        XmlFault::TooDeep { at } => (at, b"this is the 65th open element"),
        XmlFault::Outside { at } => (at, b"this stands outside all elements"),
        XmlFault::Unfinished { at } => (at, b"the text ends inside an element, or has none"),
        XmlFault::Memory => (0, b"memory ran out"),
    }
}

/// Returns the offset of a fault of a model of FeatureIDE, and what is wrong there.
fn said_of_featureide(fault: ModelFault) -> (usize, &'static [u8]) {
    match fault {
        ModelFault::Xml(fault) => said_of_xml(fault),
        ModelFault::UnknownElement { at } => (at, b"this element is not read here"),
        ModelFault::UnknownValue { at } => (at, b"this attribute is `true` or `false`"),
        ModelFault::NoName { at } => (at, b"this feature has no name"),
        ModelFault::BadName { at } => (
            at,
            b"the name of this feature is no feature name of diagrams",
        ),
        ModelFault::Twice { at } => (at, b"a feature of this name stands above"),
        ModelFault::TooMany { at } => (
            at,
            b"this is the 513th feature, and a diagram has at most 512",
        ),
        ModelFault::SecondRoot { at } => (at, b"this is a second outermost feature"),
        ModelFault::NoRoot => (0, b"the model has no feature"),
        ModelFault::UnknownName { at } => (at, b"this names no feature"),
        ModelFault::Operands { at } => (at, b"this has too few or too many operands"),
        ModelFault::TooDeep { at } => (
            at,
            b"the formula of this has more than 64 open signs at one place",
        ),
        ModelFault::Memory => (0, b"memory ran out"),
    }
}

/// Returns the message on the fault of the text of a feature model.
pub fn explain_model(alloc: Global, text: &[u8], fault: FormFault) -> Result<Message, AllocError> {
    match fault {
        FormFault::Uvl(fault) => message_of_uvl(alloc, text, fault),
        FormFault::FeatureIde(fault) => {
            let (at, what) = said_of_featureide(fault);
            message_at(alloc, place_of(text, at.min(text.len())), (what, b""))
        }
        FormFault::Memory => message_at(alloc, place_of(text, 0), (b"memory ran out", b"")),
    }
}
