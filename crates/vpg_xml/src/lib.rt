//! Documents of XML, read from their text.
//!
//! The texts are those of W3C's Extensible Markup Language (XML) 1.0, in the subset that feature models are written in:
//! a declaration, elements with attributes, character data, references to ASCII characters, comments. Document types,
//! processing instructions and sections of `CDATA` are refused, and names are of ASCII. At most 64 elements are open at
//! one place, and a tag has at most 64 attributes.
//!
//! The crates above use `read_document`, and of its elements the tag, the parent, the text, and the places.
//!
//! Definitions stand in `specs/`: `Elements` (documents as lists of elements), `Tokens` (the tokens of a text),
//! `Nesting` (which text spells which document), `Faults` (which fault a text has, and where). `Reading` and `View` are
//! the reader as a function on lists; only private contracts name them.
//!
//! Trials: tests of `vpg_family_tests` (`family/meant`, `configured`).
#![tactic(auto)]

mod element;
mod fault;
mod reader;
mod reading;
mod scan;
mod tags;
mod token;

pub use element::{Attribute, Element, Tag};
pub use fault::XmlFault;
pub use reading::read_document;
