//! A line that has a fault.
use crate::message::put_found;
use crate::said::Said;
use vpg_places::{Line, Word};

/// A line that has a fault, its words, and the text that it stands in.
#[derive(Drop)]
pub(crate) struct Faulty<'t> {
    pub(crate) text: &'t [u8],
    pub(crate) line: Line<'t>,
    pub(crate) words: Vec<Word<'t>>,
}

impl<'t> Faulty<'t> {
    /// Returns the word at a place, or an empty one at the line's end.
    pub(crate) fn word(&self, place: usize) -> Word<'t> {
        match self.words.get(place) {
            Some(word) => *word,
            None => Word {
                at: self.line.bytes.len(),
                bytes: &[],
            },
        }
    }

    /// Appends what was found at a place, and what was expected. Returns its place in the line.
    pub(crate) fn put_found(&self, place: usize, expected: &[u8], out: &mut Said) -> usize {
        let word = self.word(place);
        put_found(word.bytes, b"the line", expected, out);
        word.at
    }
}
