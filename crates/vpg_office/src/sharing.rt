//! Threads may share an office.
use crate::office::Office;
use crate::terms::Terms;

fn shared<T: Sync>(_value: &T) {}

/// Threads may share an office by reference: the check finds it here, part by part.
pub fn may_be_shared<L: Terms + Send + Sync>(office: &Office<L>) {
    shared(office);
}
