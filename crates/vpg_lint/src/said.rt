//! The text of a message while it is put together.
ghost use Rattle.std.specs.Prelude.{◌≡◌, IfOk};

use crate::message::{Message, put_number, put_shown};
use std::alloc::{AllocError, Global};
use vpg_places::Place;

/// A text that grows. If memory was refused, this is noted, and reported at the end.
pub(crate) struct Said {
    text: Vec<u8>,
    is_refused: bool,
}

// Not derived: a derived `drop` would be proved again at each exit that owns such a value.
impl Drop for Said {
    fn drop(self) {
        let Said {
            text: _,
            is_refused: _,
        } = self;
    }
}

impl Said {
    pub(crate) fn new(alloc: Global) -> Said {
        Said {
            text: Vec::new(alloc),
            is_refused: false,
        }
    }

    /// Notes that memory was refused.
    pub(crate) fn refuse(&mut self) {
        self.is_refused = true;
    }

    /// Appends that a reader had no memory. Returns 0 as the place.
    pub(crate) fn put_memory(&mut self) -> usize {
        self.put(b"memory ran out\n");
        0
    }

    fn note(&mut self, put: Result<(), AllocError>) {
        if put.is_err() {
            self.is_refused = true;
        }
    }

    /// Appends a text.
    pub(crate) fn put(&mut self, text: &[u8]) {
        let put = self.text.extend_from_slice(text);
        self.note(put);
    }

    /// Appends the front of a word.
    pub(crate) fn put_shown(&mut self, word: &[u8]) {
        let put = put_shown(word, &mut self.text);
        self.note(put);
    }

    /// Appends a number.
    pub(crate) fn put_number(&mut self, n: usize) {
        let put = put_number(n, &mut self.text);
        self.note(put);
    }

    /// Returns the whole text.
    pub(crate) fn into_text(self) -> Result<Vec<u8>, AllocError> {
        let Said { text, is_refused } = self;
        if is_refused {
            Err(AllocError)
        } else {
            Ok(text)
        }
    }

    /// Returns the message at a place.
    pub(crate) fn into_message(self, place: Place) -> Result<Message, AllocError>
        ensures { IfOk result (λ message. message.place ≡ place) }
    {
        match self.into_text() {
            Ok(words) => Ok(Message { place, words }),
            Err(fault) => Err(fault),
        }
    }
}
