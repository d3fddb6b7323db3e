//! Nesting: pieces are read one by one, with the elements that are open.
ghost use Rattle.std.specs.Prelude.{◌≡◌, [], ◌∷◌, Ok, IfOk, IfErr, OnOk, IsTrue, option_map};
ghost use Rattle.vpg_xml.specs.Elements.{character, closing, opening, Tag as Written};
ghost use Rattle.vpg_xml.specs.Tokens.{pieces_of, a_start};
ghost use Rattle.vpg_xml.specs.Reading.{step, run, start, first_frame, add_text, more_text, with_element};
ghost use Rattle.vpg_xml.specs.View.{state_of, frame_of, tag_of, token_of, element_of, elements_of, is_whole, IsPieceError, IsStepError};

use crate::element::{Element, Tag};
use crate::fault::XmlFault;
use crate::scan::{is_blank, is_same};
use crate::token::Token;
use std::alloc::{AllocError, Global};

/// The greatest number of elements that are open at one place.
pub const DEEPEST: usize = 64;

/// An open element.
#[derive(Clone, Copy)]
pub(crate) struct Open<'t> {
    pub(crate) index: usize,
    pub(crate) name: &'t [u8],
}

/// The elements that begin up to here, and the open ones, the innermost last.
#[derive(Drop)]
pub(crate) struct Reader<'t> {
    pub(crate) elements: Vec<Element<'t>>,
    pub(crate) open: Vec<Open<'t>>,
}

/// Adds a byte to the text of an element.
fn say(element: &mut Element, c: u8) -> Result<(), AllocError>
    ensures { OnOk result (element_of element.new ≡ more_text (c ∷ []) (element_of element.old)) }
{
    element.text.push(c)?;
    Ok(())
}

/// Adds a byte to the text of the element at an index.
fn add_text(elements: &mut Vec<Element>, index: usize, c: u8) -> Result<(), AllocError>
    ensures { OnOk result (elements_of elements.new.items ≡ add_text index (c ∷ []) (elements_of elements.old.items)) }
{
    if index >= elements.len() {
        return Ok(());
    }
    say(&mut elements[index], c)
}

impl<'t> Reader<'t> {
    /// Returns the reader before the first piece.
    pub(crate) fn new(alloc: Global) -> Reader<'t>
        ensures { state_of result ≡ start }
    {
        Reader {
            elements: Vec::new(alloc),
            open: Vec::new(alloc),
        }
    }

    /// Returns the innermost open element.
    fn innermost(&self) -> Option<Open<'t>>
        ensures { option_map frame_of result ≡ first_frame (state_of self.now).opened }
    {
        match self.open.as_slice() {
            [] => None,
            [.., last] => Some(*last),
        }
    }

    /// Whether an element has begun, and none is open.
    pub(crate) fn is_whole(&self) -> bool
        ensures { result ≡ is_whole (state_of self.now) }
    {
        !self.elements.is_empty() && self.open.is_empty()
    }

    /// Reads a character at a place.
    fn character(&mut self, at: usize, c: u8) -> Result<(), XmlFault>
        ensures ok { IfOk result (λ _. step (state_of self.old) at (character c) ≡ Ok (state_of self.new)) }
        ensures err { IfErr result (IsPieceError (state_of self.old) at (character c)) }
    {
        let Some(around) = self.innermost() else {
            return if is_blank(c) {
                Ok(())
            } else {
                Err(XmlFault::Outside { at })
            };
        };
        add_text(&mut self.elements, around.index, c)?;
        Ok(())
    }

    /// Reads an end tag at a place.
    fn end(&mut self, at: usize, name: &[u8]) -> Result<(), XmlFault>
        ensures ok { IfOk result (λ _. step (state_of self.old) at (closing name.now) ≡ Ok (state_of self.new)) }
        ensures err { IfErr result (IsPieceError (state_of self.old) at (closing name.now)) }
    {
        let Some(around) = self.open.pop() else {
            return Err(XmlFault::Closing { at });
        };
        if is_same(name, around.name) {
            Ok(())
        } else {
            Err(XmlFault::Closing { at })
        }
    }

    /// Returns the index of the element around the one that begins at a place, if it may begin there.
    fn around(&self, at: usize) -> Result<Option<usize>, XmlFault>
        ensures ok { IfOk result (λ parent. (tag : Written) →
            step (state_of self.now) at (opening tag) ≡ Ok (with_element at tag parent (state_of self.now))) }
        ensures err { IfErr result (λ e. (tag : Written) → IsPieceError (state_of self.now) at (opening tag) e) }
    {
        match self.innermost() {
            Some(around) => {
                if self.open.len() < DEEPEST {
                    Ok(Some(around.index))
                } else {
                    Err(XmlFault::TooDeep { at })
                }
            }
            None => {
                if self.elements.is_empty() {
                    Ok(None)
                } else {
                    Err(XmlFault::SecondRoot { at })
                }
            }
        }
    }

    /// Reads a start tag at a place, or the tag of an empty element.
    fn start(
        &mut self,
        alloc: Global,
        at: usize,
        tag: Tag<'t>,
        is_empty: bool,
    ) -> Result<(), XmlFault>
        ensures ok { IfOk result (λ _.
            run (pieces_of at (a_start (tag_of tag.entry) is_empty)) (state_of self.old) ≡ Ok (state_of self.new)) }
        ensures err { IfErr result (IsPieceError (state_of self.old) at (opening (tag_of tag.entry))) }
    {
        let parent = match self.around(at) {
            Ok(parent) => parent,
            Err(fault) => return Err(fault),
        };
        let open = Open {
            index: self.elements.len(),
            name: tag.name,
        };
        let text = Vec::new(alloc);
        let element = Element {
            at,
            tag,
            parent,
            text,
        };
        let Ok(()) = self.elements.push(element) else {
            return Err(XmlFault::Memory);
        };
        if is_empty {
            return Ok(());
        }
        let Ok(()) = self.open.push(open) else {
            return Err(XmlFault::Memory);
        };
        Ok(())
    }

    /// Reads a token at a place.
    pub(crate) fn read(
        &mut self,
        alloc: Global,
        at: usize,
        token: Token<'t>,
    ) -> Result<(), XmlFault>
        ensures ok { IfOk result (λ _.
            run (pieces_of at (token_of token.entry)) (state_of self.old) ≡ Ok (state_of self.new)) }
        ensures err { IfErr result (IsStepError (state_of self.old) at (token_of token.entry)) }
    {
        match token {
            Token::Character(c) => self.character(at, c),
            Token::Comment => Ok(()),
            Token::Start(tag, is_empty) => self.start(alloc, at, tag, is_empty),
            Token::End(name) => self.end(at, name),
        }
    }
}
