//! Documents, read from their text.
ghost use Rattle.std.specs.Prelude.{◌≡◌, ◌≤◌, ◌<◌, length, IfOk, IfErr};
ghost use Rattle.vpg_xml.specs.Elements.{Document};
ghost use Rattle.vpg_xml.specs.Nesting.{Spells};
ghost use Rattle.vpg_xml.specs.Faults.{IsAt};
ghost use Rattle.vpg_xml.specs.View.{elements_of, unreadable, Halts, IsReadTo};
ghost use Rattle.vpg_xml.specs.declared.fault.XmlFault.TheVariants.{Memory};

use crate::element::Element;
use crate::fault::XmlFault;
use crate::reader::Reader;
use crate::tags::{body, token};
use std::alloc::Global;

/// Returns the fault of a text that begins no token.
fn unreadable(at: usize, rest: &[u8]) -> XmlFault
    ensures { result ≡ unreadable at rest.now }
{
    match rest {
        [] => XmlFault::Unfinished { at },
        [b, ..] => {
            if *b == b'&' {
                XmlFault::Reference { at }
            } else if *b == b'<' {
                XmlFault::Markup { at }
            } else {
                XmlFault::Character { at }
            }
        }
    }
}

/// Returns the elements of a text without its declaration.
fn read_body<'t>(alloc: Global, size: usize, body: &'t [u8]) -> Result<Vec<Element<'t>>, XmlFault>
    requires { length body.now ≤ size }
    ensures read { IfOk result (λ v. IsReadTo size body.now (elements_of v.items)) }
    ensures halts { IfErr result (Halts size body.now) }
{
    let mut reader = Reader::new(alloc);
    let mut rest = body;
    while !rest.is_empty() {
        let at = size - rest.len();
        let Ok(found) = token(alloc, size, rest) else {
            return Err(XmlFault::Memory);
        };
        let Some((token, behind)) = found else {
            return Err(unreadable(at, rest));
        };
        if let Err(fault) = reader.read(alloc, at, token) {
            return Err(fault);
        }
        rest = behind;
    }
    if reader.is_whole() {
        let Reader { elements, open: _ } = reader;
        Ok(elements)
    } else {
        Err(XmlFault::Unfinished { at: size })
    }
}

/// Returns the elements of the document that a text spells, in the order of their start tags. An error is at the first
/// token that cannot come there.
pub fn read_document(alloc: Global, text: &[u8]) -> Result<Vec<Element>, XmlFault>
    ensures spelled { IfOk result (λ v. Spells text.now (elements_of v.items)) }
    ensures only { (d : Document) → Spells text.now d → IfOk result (λ v. elements_of v.items ≡ d) }
    ensures none { (d : Document) → Spells text.now d → IfErr result (λ e. e ≡ Memory) }
    ensures fault { IfErr result (IsAt text.now) }
{
    let Some(rest) = body(alloc, text)? else {
        return Err(XmlFault::Declaration { at: 0 });
    };
    read_body(alloc, text.len(), rest)
}
