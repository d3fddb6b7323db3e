//! The elements of a document.

/// An attribute of a tag.
#[derive(Drop)]
pub struct Attribute<'t> {
    /// The place of the first byte of its name, from 0.
    pub at: usize,
    pub name: &'t [u8],
    /// What its value says: each reference is replaced by its character.
    pub value: Vec<u8>,
}

/// A start tag, or the tag of an empty element.
#[derive(Drop)]
pub struct Tag<'t> {
    pub name: &'t [u8],
    /// The attributes in their order, 64 at most, no two of one name.
    pub attributes: Vec<Attribute<'t>>,
}

/// An element of a document.
#[derive(Drop)]
pub struct Element<'t> {
    /// The place of the first byte of its start tag, from 0.
    pub at: usize,
    pub tag: Tag<'t>,
    /// The index of the element around it, which is below its own; `None` for the outermost one.
    pub parent: Option<usize>,
    /// The characters in it that are in no other element within it.
    pub text: Vec<u8>,
}
