//! The tokens of a text.
use crate::element::Tag;

/// A token. Of a start tag the flag says whether its element is empty.
#[derive(Drop)]
pub(crate) enum Token<'t> {
    Character(u8),
    Comment,
    Start(Tag<'t>, bool),
    End(&'t [u8]),
}
