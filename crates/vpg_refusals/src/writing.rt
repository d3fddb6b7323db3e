//! Calls that write texts, and that make a game of another.

use crate::done_if;
use std::alloc::Global;
use vpg_diagram::Diagram;
use vpg_features::Names;
use vpg_game::{DualFault, GuardedGame};
use vpg_guards::{GuardFault, parse_guard};
use vpg_hope::{PlainGame, ProjectFault, project};
use vpg_scarce::End;

/// The text in front of the written one.
const BEFORE: &[u8] = b"before: ";

/// Returns a text with that alone, which grows with the next byte; empty if there is no memory.
pub(crate) fn text_before(alloc: Global) -> Vec<u8> {
    Vec::from_slice(alloc, BEFORE).unwrap_or(Vec::new(alloc))
}

/// Whether the text is that alone.
pub(crate) fn is_before(text: &[u8]) -> bool {
    text == BEFORE
}

/// Reads a guard and writes it: the written guard is within the names if it was read over them.
pub(crate) fn write_guard(alloc: Global, names: &Names, out: &mut Vec<u8>) -> End {
    let guard = match parse_guard(alloc, b"!(f|g) & true", names) {
        Ok(guard) => guard,
        Err(GuardFault::Memory) => return End::Memory,
        Err(_) => return End::Otherwise,
    };
    match guard.write(alloc, names, out) {
        Ok(()) => done_if(out.as_slice() == b"before: !(f | g) & true".as_slice()),
        Err(_) => End::Memory,
    }
}

pub(crate) fn write_game(
    alloc: Global,
    game: &GuardedGame,
    names: &Names,
    out: &mut Vec<u8>,
) -> End {
    if names.len() != game.features() {
        return End::Otherwise;
    }
    let written = b"before: parity 1;\n0 1 0 1[f],0;\n1 2 1 0[g],1;\n".as_slice();
    match game.write(alloc, names, out) {
        Ok(()) => done_if(out.as_slice() == written),
        Err(_) => End::Memory,
    }
}

pub(crate) fn write_plain(alloc: Global, plain: &PlainGame, out: &mut Vec<u8>) -> End {
    let written = b"before: parity 1;\n0 1 0 0;\n1 2 1 0,1;\n".as_slice();
    match plain.write(alloc, out) {
        Ok(()) => done_if(out.as_slice() == written),
        Err(_) => End::Memory,
    }
}

pub(crate) fn make_dual(alloc: Global, game: &GuardedGame) -> End {
    match game.dual(alloc) {
        Ok(dual) => done_if(dual.tops() == game.tops()),
        Err(DualFault::Memory) => End::Memory,
        Err(_) => End::Otherwise,
    }
}

pub(crate) fn make_projection(alloc: Global, game: &GuardedGame, diagram: &Diagram) -> End {
    let set = [true, false, true];
    if diagram.features() != 3 || game.features() != 3 {
        return End::Otherwise;
    }
    match project(alloc, game, diagram, &set) {
        Ok(_) => End::Done,
        Err(ProjectFault::Memory) => End::Memory,
        Err(_) => End::Otherwise,
    }
}

/// Returns the game of the product of `r` and `g`.
pub(crate) fn plain_of(alloc: Global, diagram: &Diagram, game: &GuardedGame) -> Option<PlainGame> {
    if diagram.features() != 3 || game.features() != 3 {
        return None;
    }
    project(alloc, game, diagram, &[true, false, true]).ok()
}
