//! The texts of faults of calls and of lines.

use std::alloc::Global;
use std::error::Error;
use vpg_answers::Missing;
use vpg_desk::RedoFault;
use vpg_engine::ClientFault;
use vpg_script::{Failed, LineFault, NextFault, ReadFault};

/// Whether a fault shows itself so.
fn is_shown<E: Error>(alloc: Global, fault: E, wanted: &str) -> bool {
    match format!(in alloc; "{fault}") {
        Ok(text) => text.as_str() == wanted,
        Err(_) => false,
    }
}

/// Whether each fault of a client shows itself as a line answers it, or as a run ends by it.
fn are_those_of_clients(alloc: Global) -> bool {
    let refused = ClientFault::Refused {
        fault: RedoFault::NotNext { next: 2 },
    };
    is_shown(alloc, refused, "NotNext 2")
        && is_shown(alloc, ClientFault::<RedoFault>::LogFull, "LogFull")
        && is_shown(alloc, ClientFault::<RedoFault>::Stray, "Stray")
        && is_shown(alloc, ClientFault::<RedoFault>::Memory, "Memory")
}

/// Whether faults show themselves by their words.
pub(super) fn are_shown(alloc: Global) -> bool {
    are_those_of_clients(alloc)
        && is_shown(alloc, ReadFault::Line(LineFault::Args), "Args")
        && is_shown(alloc, NextFault::Read, "Read")
        && is_shown(alloc, Failed, "Failed")
        && is_shown(alloc, Missing::Vertex, "NoVertex")
}
