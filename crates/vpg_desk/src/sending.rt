//! A desk can be sent to another thread: sharing one under a lock rests on it.

use crate::desk::Desk;

fn sends<T: Send>(_value: &T) {}

/// A desk can be sent.
pub(crate) fn desk_sends(desk: &Desk) {
    sends(desk);
}
