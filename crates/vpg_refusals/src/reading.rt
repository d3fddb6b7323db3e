//! Calls that read texts.

use crate::done_if;
use std::alloc::Global;
use vpg_diagram::{Diagram, DiagramFault};
use vpg_features::{NameFault, Names};
use vpg_game::{GameFault, GuardedGame};
use vpg_guards::{GuardFault, parse_guard};
use vpg_scarce::End;

const DIAGRAM: &[u8] = b"root r\nmandatory r a\noptional r b\nalternative b: c d\nor a: e f g
group r 1 2: h i j\nrequires c e\nexcludes d h\n";

const GAME: &[u8] =
    b"parity 9; start 1;\n1 1 0 2[a & !(b | c)],3 \"one\";\n2 4 1 1[!a],3[d],3[!d & true];
3 3 0 3[(a | b) & (c | d)],1;\n9 0 1;\n";

/// The names of the diagram's features but the root, in another order than its own.
const TEN: [&str; 10] = ["a", "b", "c", "d", "e", "f", "g", "h", "i", "j"];

/// Whether there are this many names, those ten each at its place.
pub(crate) fn has_ten(names: &Names, count: usize) -> bool {
    for k in 0..TEN.len() {
        if names.get(TEN[k].as_bytes()) != Some(k as u16) {
            return false;
        }
    }
    names.len() == count
}

// Each of these drops the value that was read in one place: more exits take the prover seconds each.

pub(crate) fn make_names(alloc: Global) -> End {
    match Names::new(alloc) {
        Ok(names) => done_if(names.len() == 0),
        Err(_) => End::Memory,
    }
}

pub(crate) fn add_name(alloc: Global, names: &mut Names) -> End {
    match names.add(alloc, b"another") {
        Ok(place) => done_if(place == 10),
        Err(NameFault::Memory) => End::Memory,
        Err(_) => End::Otherwise,
    }
}

pub(crate) fn read_guard(alloc: Global, names: &Names) -> End {
    match parse_guard(alloc, b"!(a|b) & true & (c | d | !!e)", names) {
        Ok(_) => End::Done,
        Err(GuardFault::Memory) => End::Memory,
        Err(_) => End::Otherwise,
    }
}

pub(crate) fn read_diagram(alloc: Global) -> End {
    match Diagram::read(alloc, DIAGRAM) {
        Ok(diagram) => done_if(diagram.features() == 11),
        Err(DiagramFault::Memory) => End::Memory,
        Err(_) => End::Otherwise,
    }
}

/// Returns the diagram of ten names.
pub(crate) fn grouped_of(alloc: Global) -> Option<Diagram> {
    Diagram::read(alloc, DIAGRAM).ok()
}

pub(crate) fn read_game(alloc: Global, names: &Names) -> End {
    match GuardedGame::read(alloc, GAME, names) {
        Ok(game) => done_if(game.vertices() == 4),
        Err(GameFault::Memory) => End::Memory,
        Err(_) => End::Otherwise,
    }
}

/// Returns the ten names.
pub(crate) fn names_of(alloc: Global) -> Option<Names> {
    let mut names = Names::new(alloc).ok()?;
    if add_ten(alloc, &mut names) {
        Some(names)
    } else {
        None
    }
}

fn add_ten(alloc: Global, names: &mut Names) -> bool {
    let mut lacks = false;
    for k in 0..TEN.len() {
        lacks |= names.add(alloc, TEN[k].as_bytes()).is_err();
    }
    !lacks
}
