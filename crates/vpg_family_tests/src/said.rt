//! A text that is written. If memory runs out this is noted.
use std::alloc::{AllocError, Global};
use std::fmt::Write;
use vpg_family::{Fault, line_of};

/// Whether a text ends in the line that reports a fault.
fn ends_in_line_of(alloc: Global, fault: &Fault, text: &[u8]) -> bool {
    match line_of(alloc, fault) {
        Ok(line) => text.ends_with(&line),
        Err(_) => false,
    }
}

/// The text written so far.
pub(crate) struct Said {
    pub(crate) alloc: Global,
    text: String,
    /// Whether memory ran out.
    lacks: bool,
}

// Not derived: a derived `drop` would be proved again at each exit that owns such a value.
impl Drop for Said {
    fn drop(self) {
        let Said {
            alloc: _,
            text: _,
            lacks: _,
        } = self;
    }
}

impl Said {
    /// Returns a text without words.
    pub(crate) fn new(alloc: Global) -> Said {
        Said {
            alloc,
            text: String::new(alloc),
            lacks: false,
        }
    }

    /// Notes whether a step that takes memory was done.
    pub(crate) fn note(&mut self, done: bool) {
        self.lacks |= !done;
    }

    /// Writes words.
    pub(crate) fn put(&mut self, words: &str) {
        self.lacks |= self.text.push_str(words).is_err();
    }

    /// Writes a number.
    pub(crate) fn put_number(&mut self, number: u32) {
        self.lacks |= write!(self.text, "{number}").is_err();
    }

    /// Writes bytes that are text.
    pub(crate) fn put_text(&mut self, text: &[u8]) {
        self.put(str::from_utf8(text).unwrap_or("not UTF-8"));
    }

    /// Writes a text that was made.
    pub(crate) fn put_made(&mut self, made: Result<Vec<u8>, AllocError>) {
        match made {
            Ok(text) => self.put_text(&text),
            Err(_) => self.lacks = true,
        }
    }

    /// Writes the result of a task on a family, or the line that reports its fault.
    pub(crate) fn put_answer(&mut self, answer: Result<Vec<u8>, Fault>) {
        match answer {
            Ok(text) => self.put_text(&text),
            Err(fault) => self.put_fault(&fault),
        }
    }

    /// Writes a fault by its `Display`, in the line that reports it.
    fn put_fault(&mut self, fault: &Fault) {
        self.lacks |= write!(self.text, "vpgdesk: {fault}\n").is_err();
        if !ends_in_line_of(self.alloc, fault, self.text.as_bytes()) {
            self.put("and otherwise in its line");
        }
    }

    /// Returns the written text, if memory did not run out.
    pub(crate) fn text(&self) -> &str {
        if self.lacks {
            "no memory"
        } else {
            self.text.as_str()
        }
    }
}
