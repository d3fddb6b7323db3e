//! The work that a guess may still do.

/// The number of edges and vertices that may still be looked at.
#[derive(Drop)]
pub struct Budget {
    left: u64,
}

impl Budget {
    pub fn new(left: u64) -> Budget {
        Budget { left }
    }

    /// Returns the number that is left.
    pub fn left(&self) -> u64 {
        self.left
    }

    pub fn is_spent(&self) -> bool {
        self.left == 0
    }

    /// Spends the cost of looking at this many edges and vertices.
    pub fn spend(&mut self, looked: usize) {
        self.left = self.left.saturating_sub(looked as u64);
    }

    /// Takes at most this much of it, as a budget of its own.
    pub fn take(&mut self, most: u64) -> Budget {
        let part = most.min(self.left);
        self.left = self.left.saturating_sub(part);
        Budget { left: part }
    }

    /// Takes half of it, as a budget of its own.
    pub fn take_half(&mut self) -> Budget {
        self.take(self.left / 2)
    }

    /// Gives back the rest of a part that was taken.
    pub fn give_back(&mut self, part: Budget) {
        self.left = self.left.saturating_add(part.left);
    }
}
