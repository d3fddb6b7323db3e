//! A text that is written. If memory runs out this is noted, and reported once the text is whole.

use std::alloc::{AllocError, Global};
use std::fmt::{Debug, Display};

/// The text written so far.
#[derive(Drop)]
pub(crate) struct Line {
    pub(crate) alloc: Global,
    pub(crate) text: Vec<u8>,
    /// Whether memory ran out.
    pub(crate) lacks: bool,
}

impl Line {
    /// Returns a line without text.
    pub(crate) fn new(alloc: Global) -> Line {
        Line {
            alloc,
            text: Vec::new(alloc),
            lacks: false,
        }
    }

    /// Notes whether a step that takes memory was done.
    pub(crate) fn note(&mut self, done: bool) {
        self.lacks |= !done;
    }

    /// Returns the value that was made, unless memory ran out.
    pub(crate) fn kept<T>(&mut self, made: Result<T, AllocError>) -> Option<T> {
        match made {
            Ok(value) => Some(value),
            Err(_) => {
                self.lacks = true;
                None
            }
        }
    }

    /// Writes bytes.
    pub(crate) fn put_bytes(&mut self, bytes: &[u8]) {
        self.lacks |= self.text.extend_from_slice(bytes).is_err();
    }

    /// Writes words.
    pub(crate) fn put(&mut self, words: &str) {
        self.put_bytes(words.as_bytes());
    }

    /// Writes words, one after the other.
    pub(crate) fn put_each(&mut self, words: &[&str]) {
        for word in words {
            self.put(word);
        }
    }

    /// Writes `yes` if this holds, else `no`.
    pub(crate) fn put_yes_or_no(&mut self, holds: bool) {
        self.put(if holds { "yes" } else { "no" });
    }

    /// Writes a value by its `Display`.
    pub(crate) fn show<T: Display>(&mut self, value: &T) {
        match format!(in self.alloc; "{value}") {
            Ok(text) => self.put(text.as_str()),
            Err(_) => self.lacks = true,
        }
    }

    /// Writes a number after words.
    pub(crate) fn number(&mut self, words: &str, number: u64) {
        self.put(words);
        self.show(&number);
    }

    /// Writes a value as Rust writes it.
    pub(crate) fn debug<T: Debug>(&mut self, value: &T) {
        match format!(in self.alloc; "{value:?}") {
            Ok(text) => self.put(text.as_str()),
            Err(_) => self.lacks = true,
        }
    }
}
