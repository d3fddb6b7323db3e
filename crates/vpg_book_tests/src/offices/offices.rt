//! Offices for tests: each day is spent on an office of its own.

use crate::given::{family, require};
use crate::offices::steps::Day;
use crate::offices::{changes, logs, watchers};
use std::process::Abort;
use std::sync::Wait;
use std::test::*;
use vpg_desk::OpenFault;
use vpg_office::with_office;
use vpg_small_family::{CONTRADICTORY, DIAGRAM, GAME};

/// Spends a day on an office on these texts, and says why there is none.
fn on_texts<R: Wait + Abort + AllocGlobal>(
    rt: &R,
    game: &[u8],
    diagram: &[u8],
    day: Day,
) -> Option<OpenFault> {
    assert!(rt; 1 <= day.room && day.room <= 1000);
    let (game, diagram) = family(rt, game, diagram);
    match with_office(rt, rt.alloc(), game, diagram, day.room, day) {
        Ok(()) => None,
        Err(refused) => Some(refused.fault),
    }
}

/// Spends each day on an office of its own, of the family of most examples.
fn on_each<R: Wait + Abort + AllocGlobal>(rt: &R, days: &[Day]) {
    for day in days {
        require(rt, on_texts(rt, GAME, DIAGRAM, *day).is_none(), day.name);
    }
}

/// A day on an office that isn't opened.
const REFUSED: Day = Day {
    name: "an opening is refused",
    room: 1,
    calls: 0,
    before: &[],
    steps: &[],
    closes: true,
};

#[test]
fn sessions_are_answered(rt: HostRuntime) {
    let fault = on_texts(&rt, b"0 0 0 0;", CONTRADICTORY, REFUSED);
    let is_told = fault == Some(OpenFault::Conflict { feature: 0 });
    require(&rt, is_told, REFUSED.name);
    on_each(&rt, changes::DAYS);
    on_each(&rt, logs::DAYS);
    on_each(&rt, watchers::DAYS);
}
