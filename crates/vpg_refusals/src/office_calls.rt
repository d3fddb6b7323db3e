//! Calls of an office and of its sessions, as a table.

use crate::offices::{Line, refuse_each};
use std::sync::{Arc, Wait};
use vpg_diagram::Diagram;
use vpg_game::GuardedGame;
use vpg_scarce::{Heap, OfficeCall, Report};

/// The features.
const F: u16 = 1;

const G: u16 = 2;

/// Decisions on g and on f; the first token is spent.
const DECIDED: &[OfficeCall] = &[
    OfficeCall::Decide(G, true),
    OfficeCall::Keep,
    OfficeCall::Decide(F, false),
];

const UNDONE: &[OfficeCall] = &[
    OfficeCall::Decide(G, true),
    OfficeCall::Keep,
    OfficeCall::Decide(F, false),
    OfficeCall::Undo,
];

const ORDERED: &[OfficeCall] = &[
    OfficeCall::Decide(F, false),
    OfficeCall::Keep,
    OfficeCall::Order,
];

/// A decision on f, the lifts that follow from it, and a decision on g.
const LIFTED: &[OfficeCall] = &[
    OfficeCall::Decide(F, false),
    OfficeCall::Keep,
    OfficeCall::Order,
    OfficeCall::Commit,
    OfficeCall::Decide(G, true),
    OfficeCall::Keep,
];

const RETRACTED: &[OfficeCall] = &[
    OfficeCall::Decide(F, false),
    OfficeCall::Keep,
    OfficeCall::Order,
    OfficeCall::Commit,
    OfficeCall::Decide(G, true),
    OfficeCall::Keep,
    OfficeCall::Retract(F),
];

const BACK: &[OfficeCall] = &[
    OfficeCall::Decide(F, false),
    OfficeCall::Keep,
    OfficeCall::Order,
    OfficeCall::Commit,
    OfficeCall::Decide(G, true),
    OfficeCall::Keep,
    OfficeCall::Retract(F),
    OfficeCall::Undo,
];

const WATCHED: &[OfficeCall] = &[OfficeCall::Watch, OfficeCall::Decide(G, true)];

/// The call's name, whether there is a watch from the beginning, the calls before it, and the call.
const LINES: &[Line] = &[
    ("Office::open", false, &[], OfficeCall::Open),
    ("Office::join", false, DECIDED, OfficeCall::Join),
    (
        "Front::copy, Office::meet",
        false,
        DECIDED,
        OfficeCall::Meet,
    ),
    ("Office::watch", false, DECIDED, OfficeCall::Watch),
    ("Watch::read of an office", false, WATCHED, OfficeCall::Read),
    ("Office::close", false, LIFTED, OfficeCall::Close),
    ("Office::end", false, LIFTED, OfficeCall::End(0)),
    (
        "Office::end with an Undo",
        false,
        DECIDED,
        OfficeCall::End(1),
    ),
    ("Office::end with a Redo", false, UNDONE, OfficeCall::End(1)),
    (
        "Session::decide",
        false,
        ORDERED,
        OfficeCall::Decide(G, true),
    ),
    (
        "Session::undo of a decision",
        false,
        DECIDED,
        OfficeCall::Undo,
    ),
    (
        "Session::redo of a decision",
        false,
        UNDONE,
        OfficeCall::Redo,
    ),
    ("Session::keep", false, DECIDED, OfficeCall::Keep),
    ("Session::forget", false, UNDONE, OfficeCall::Forget),
    ("Session::retract", false, LIFTED, OfficeCall::Retract(F)),
    (
        "Session::undo of a retraction",
        false,
        RETRACTED,
        OfficeCall::Undo,
    ),
    (
        "Session::redo of a retraction",
        false,
        BACK,
        OfficeCall::Redo,
    ),
    ("Session::reset", false, LIFTED, OfficeCall::Reset),
    ("Session::order", false, DECIDED, OfficeCall::Order),
    ("Session::commit", false, ORDERED, OfficeCall::Commit),
    ("Session::settled", false, LIFTED, OfficeCall::Settled),
    ("Session::verdict", false, LIFTED, OfficeCall::Verdict),
    ("Session::page", false, LIFTED, OfficeCall::Page),
    (
        "calls of an order and of its harvest",
        false,
        ORDERED,
        OfficeCall::Carry,
    ),
    (
        "Session::decide beside a watch",
        true,
        ORDERED,
        OfficeCall::Decide(G, true),
    ),
    (
        "Session::retract beside a watch",
        true,
        LIFTED,
        OfficeCall::Retract(F),
    ),
    (
        "Session::undo beside a watch",
        true,
        RETRACTED,
        OfficeCall::Undo,
    ),
    ("Session::redo beside a watch", true, BACK, OfficeCall::Redo),
    (
        "Session::commit beside a watch",
        true,
        ORDERED,
        OfficeCall::Commit,
    ),
];

/// Makes each call with little memory.
pub(crate) fn refuse<R: Wait>(
    rt: &R,
    heap: &mut Heap,
    report: &mut Report,
    game: &Arc<GuardedGame>,
    diagram: &Arc<Diagram>,
) {
    refuse_each(rt, heap, report, game, diagram, LINES);
}
