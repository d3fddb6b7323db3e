//! Past and future pages as cuts.

use vpg_trail::Entry;

/// A past or future page: the first entries of the nearer page up to a place, and then the suffix.
#[derive(Drop)]
pub(crate) struct Cut {
    pub(crate) serial: u64,
    pub(crate) place: usize,
    pub(crate) suffix: Vec<Entry>,
    // whether the page that it leads to is known to be settled
    pub(crate) is_noted: bool,
}
