//! One value for each vertex, read and written without a condition.
use std::alloc::{AllocError, Global};

/// One value for each vertex. Past the last vertex it reads as the value that it began with, and a write is lost.
pub struct PerVertex<T> {
    values: Vec<T>,
    rest: T,
    count: u32,
}

// Not derived: a derived `drop` would be proved again at each exit that owns such a value.
impl<T: Drop> Drop for PerVertex<T> {
    fn drop(self) {
        let PerVertex {
            values: _,
            rest: _,
            count: _,
        } = self;
    }
}

impl<T: Copy> PerVertex<T> {
    /// Returns this value at each of this many vertices.
    pub fn of(alloc: Global, vertices: u32, rest: T) -> Result<PerVertex<T>, AllocError> {
        let values = vec![in alloc; rest; vertices as usize]?;
        Ok(PerVertex {
            values,
            rest,
            count: vertices,
        })
    }

    /// Returns the number of vertices.
    pub fn count(&self) -> u32 {
        self.count
    }

    pub fn copy(&self, alloc: Global) -> Result<PerVertex<T>, AllocError> {
        Ok(PerVertex {
            values: Vec::from_slice(alloc, self.values.as_slice())?,
            rest: self.rest,
            count: self.count,
        })
    }

    pub fn get(&self, v: u32) -> T {
        match self.values.get(v as usize) {
            Some(value) => *value,
            None => self.rest,
        }
    }

    /// Sets this value at each vertex.
    pub fn fill(&mut self, value: T) {
        for each in &mut self.values {
            *each = value;
        }
    }

    pub fn set(&mut self, v: u32, value: T) {
        if (v as usize) < self.values.len() {
            self.values[v as usize] = value;
        }
    }
}

/// The number of no vertex: no game has this many.
const NONE: u32 = u32::MAX;

/// One vertex or none for each vertex, in half of the room.
pub struct Choices {
    chosen: PerVertex<u32>,
}

// Not derived: a derived `drop` would be proved again at each exit that owns such a value.
impl Drop for Choices {
    fn drop(self) {
        let Choices { chosen: _ } = self;
    }
}

impl Choices {
    /// Returns none at each of this many vertices.
    pub fn none(alloc: Global, vertices: u32) -> Result<Choices, AllocError> {
        Ok(Choices {
            chosen: PerVertex::of(alloc, vertices, NONE)?,
        })
    }

    pub fn copy(&self, alloc: Global) -> Result<Choices, AllocError> {
        Ok(Choices {
            chosen: self.chosen.copy(alloc)?,
        })
    }

    pub fn get(&self, v: u32) -> Option<u32> {
        let chosen = self.chosen.get(v);
        if chosen == NONE { None } else { Some(chosen) }
    }

    pub fn set(&mut self, v: u32, chosen: Option<u32>) {
        self.chosen.set(v, chosen.unwrap_or(NONE));
    }
}

/// The number of bits in a word of a set.
const WORD: u32 = 64;

/// Some of the vertices, a bit for each, so that a sparse set reads few words. It has no vertex past the last one;
/// adding one there has no effect.
pub struct VertexSet {
    words: Vec<u64>,
    // a bit for each word that has a vertex
    used: Vec<u64>,
    // the number of its vertices
    size: usize,
}

// Not derived: a derived `drop` would be proved again at each exit that owns such a value.
impl Drop for VertexSet {
    fn drop(self) {
        let VertexSet {
            words: _,
            used: _,
            size: _,
        } = self;
    }
}

// A number's bit in its word.
fn bit_of(v: u32) -> u64 {
    1u64 << (v % WORD)
}

// The first bit of these words from this one on.
fn first_bit(words: &[u64], from: u32) -> Option<u32> {
    let mut at = from / WORD;
    let mut word = words.get(at as usize)? & (u64::MAX << (from % WORD));
    for _ in 0..words.len() {
        if word != 0 {
            break;
        }
        at = at.saturating_add(1);
        word = *words.get(at as usize)?;
    }
    Some(
        at.saturating_mul(WORD)
            .saturating_add(word.trailing_zeros()),
    )
}

impl VertexSet {
    /// Returns the empty set, for this many vertices.
    pub fn none(alloc: Global, vertices: u32) -> Result<VertexSet, AllocError> {
        let count = vertices.div_ceil(WORD);
        Ok(VertexSet {
            words: vec![in alloc; 0u64; count as usize]?,
            used: vec![in alloc; 0u64; count.div_ceil(WORD) as usize]?,
            size: 0,
        })
    }

    /// Returns the number of its vertices.
    pub fn size(&self) -> usize {
        self.size
    }

    pub fn has(&self, v: u32) -> bool {
        match self.words.get((v / WORD) as usize) {
            Some(word) => *word & bit_of(v) != 0,
            None => false,
        }
    }

    /// Adds a vertex, if it isn't in the set.
    pub fn add(&mut self, v: u32) {
        let at = (v / WORD) as usize;
        if at < self.words.len() && self.words[at] & bit_of(v) == 0 {
            self.words[at] |= bit_of(v);
            self.size = self.size.saturating_add(1);
            self.note_used(v / WORD);
        }
    }

    // Notes that a word has a vertex.
    fn note_used(&mut self, word: u32) {
        let at = (word / WORD) as usize;
        if at < self.used.len() {
            self.used[at] |= bit_of(word);
        }
    }

    /// Takes a vertex out, if it is in the set.
    pub fn remove(&mut self, v: u32) {
        let at = (v / WORD) as usize;
        if at < self.words.len() && self.words[at] & bit_of(v) != 0 {
            self.words[at] ^= bit_of(v);
            self.size = self.size.saturating_sub(1);
            if self.words[at] == 0 {
                self.note_unused(v / WORD);
            }
        }
    }

    // Notes that a word, which had a vertex, has none.
    fn note_unused(&mut self, word: u32) {
        let at = (word / WORD) as usize;
        if at < self.used.len() {
            self.used[at] ^= bit_of(word);
        }
    }

    /// Returns the first vertex of the set from this one on.
    pub fn first_from(&self, v: u32) -> Option<u32> {
        let mut at = v / WORD;
        let mut word = self.words.get(at as usize)? & (u64::MAX << (v % WORD));
        if word == 0 {
            at = first_bit(&self.used, at.saturating_add(1))?;
            word = *self.words.get(at as usize)?;
        }
        Some(
            at.saturating_mul(WORD)
                .saturating_add(word.trailing_zeros()),
        )
    }
}
