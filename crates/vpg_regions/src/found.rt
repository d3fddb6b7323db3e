//! Lists that grow.
use std::alloc::{AllocError, Global};

/// A list that grows. An item without memory is left out; that is noted, and reported at the end.
pub struct Found<T> {
    items: Vec<T>,
    is_refused: bool,
}

// Not derived: a derived `drop` would be proved again at each exit that owns such a value.
impl<T: Drop> Drop for Found<T> {
    fn drop(self) {
        let Found {
            items: _,
            is_refused: _,
        } = self;
    }
}

impl<T: Copy> Found<T> {
    /// Returns the empty list.
    pub fn none(alloc: Global) -> Found<T> {
        Found::with(Vec::new(alloc))
    }

    /// Returns the list that begins with these.
    pub fn with(items: Vec<T>) -> Found<T> {
        Found {
            items,
            is_refused: false,
        }
    }

    /// Adds one more. If memory is refused, it is left out, and this is noted.
    pub fn add(&mut self, item: T) {
        if self.items.push(item).is_err() {
            self.is_refused = true;
        }
    }

    /// Takes the last one off.
    pub fn pop(&mut self) -> Option<T> {
        self.items.pop()
    }

    /// Empties the list. A note that something was left out stays.
    pub fn clear(&mut self) {
        self.items.clear();
    }

    /// Returns the number of items.
    pub fn len(&self) -> usize {
        self.items.len()
    }

    /// Returns the one at this place, from 0.
    pub fn get(&self, at: usize) -> Option<T> {
        self.items.get(at).copied()
    }

    /// Returns the items found so far.
    pub fn items(&self) -> &[T] {
        &self.items
    }

    /// Whether something was left out.
    pub fn is_refused(&self) -> bool {
        self.is_refused
    }

    /// Returns the whole list, or that memory was refused.
    pub fn list(self) -> Result<Vec<T>, AllocError> {
        let Found { items, is_refused } = self;
        if is_refused {
            return Err(AllocError);
        }
        Ok(items)
    }
}
