//! Notes by which rule each feature became known.
use std::alloc::{AllocError, Global};

/// A feature that became known, and the number of the rule that made it so; none if it was decided.
#[derive(Clone, Copy)]
pub(crate) struct Known {
    pub(crate) feature: u16,
    pub(crate) cause: Option<usize>,
}

/// The order in which features became known, and the rules that made them so. It only serves guesses at reasons: no
/// contract rests on it.
#[derive(Drop)]
pub struct Trail {
    steps: Vec<Known>,
    /// The features whose rules are to be visited.
    waiting: Vec<u16>,
    /// The number of visits of rules since a trial was taken, or so.
    work: u64,
}

// The work of one more feature, beside the visits of its rules.
const WORK_OF_FEATURE: usize = 256;

impl Trail {
    /// Returns the trail on which nothing became known.
    pub fn new(alloc: Global) -> Trail {
        Trail {
            steps: Vec::new(alloc),
            waiting: Vec::new(alloc),
            work: 0,
        }
    }

    /// Returns the number of features that became known.
    pub fn len(&self) -> usize {
        self.steps.len()
    }

    /// Forgets the features that became known after this many.
    pub fn truncate(&mut self, len: usize) {
        self.steps.truncate(len);
    }

    /// Returns the features that became known, in order.
    pub(crate) fn steps(&self) -> &[Known] {
        self.steps.as_slice()
    }

    /// Notes that a feature became known. Its rules are to be visited.
    pub(crate) fn note(&mut self, feature: u16, cause: Option<usize>) -> Result<(), AllocError> {
        self.steps.push(Known { feature, cause })?;
        self.waiting.push(feature)?;
        Ok(())
    }

    /// Takes a feature whose rules are to be visited.
    pub(crate) fn next(&mut self) -> Option<u16> {
        self.waiting.pop()
    }

    /// Counts the visits of this number of rules.
    pub(crate) fn count(&mut self, visits: usize) {
        self.work = self.work.saturating_add(visits as u64);
    }

    /// Whether there was so much work, in visits of rules, since this was said last.
    pub fn is_due(&mut self, work: u64) -> bool {
        if self.work < work {
            return false;
        }
        self.work = 0;
        true
    }

    /// Visits no more rules.
    pub(crate) fn stop(&mut self) {
        self.waiting.clear();
        self.count(WORK_OF_FEATURE);
    }
}
