//! Warnings of a game.
ghost use Rattle.std.specs.Prelude.{◌≡◌, length, IfOk};

use crate::warnings::{Sort, Warnings};
use std::alloc::{AllocError, Global};
use vpg_game::GuardedGame;
use vpg_places::{Number, numbers_of, start_at};

/// Returns the place where the entry of a vertex begins.
fn entry_at(places: &[Number], v: usize) -> usize {
    places.get(v).map_or(0, |number| number.at)
}

/// Warns of vertices without moves.
fn warn_of_stuck(
    game: &GuardedGame,
    places: &[Number],
    warnings: &mut Warnings,
) -> Result<(), AllocError>
    ensures { warnings.new.length ≡ warnings.old.length }
{
    let vertices = game.vertices() as u32;
    for v in 0..vertices {
        if game.edges(v).is_empty() {
            warnings.warn(Sort::Stuck, entry_at(places, v as usize), v)?;
        }
    }
    Ok(())
}

/// Notes the successors of a vertex that were not seen before.
fn note_successors(
    game: &GuardedGame,
    v: u32,
    seen: &mut [bool],
    waiting: &mut Vec<u32>,
) -> Result<(), AllocError> {
    if v as usize >= game.vertices() {
        return Ok(());
    }
    for edge in game.edges(v) {
        let to = edge.to;
        if let Some(is_seen) = seen.get_mut(to as usize) {
            if !*is_seen {
                *is_seen = true;
                waiting.push(to)?;
            }
        }
    }
    Ok(())
}

/// Notes the vertices that can be reached from those that wait, of this many.
fn reach(
    game: &GuardedGame,
    vertices: usize,
    seen: &mut [bool],
    waiting: &mut Vec<u32>,
) -> Result<(), AllocError> {
    // Each vertex waits once.
    for _ in 0..vertices {
        match waiting.pop() {
            Some(next) => note_successors(game, next, seen, waiting)?,
            None => return Ok(()),
        }
    }
    Ok(())
}

/// Returns for each vertex whether it can be reached from one, over edges with any guard.
fn reached_from(alloc: Global, game: &GuardedGame, v: u32) -> Result<Vec<bool>, AllocError> {
    let vertices = game.vertices();
    let mut seen = vec![in alloc; false; vertices]?;
    let mut waiting = Vec::new(alloc);
    if let Some(is_seen) = seen.get_mut(v as usize) {
        *is_seen = true;
        waiting.push(v)?;
    }
    reach(game, vertices, &mut seen, &mut waiting)?;
    Ok(seen)
}

/// Warns of vertices that were not reached.
fn warn_of_unreached(
    reached: &[bool],
    places: &[Number],
    warnings: &mut Warnings,
) -> Result<(), AllocError>
    ensures { warnings.new.length ≡ warnings.old.length }
{
    for (v, is_reached) in reached.iter().enumerate() {
        if !*is_reached && v < 65_536 {
            warnings.warn(Sort::Unreached, entry_at(places, v), v as u32)?;
        }
    }
    Ok(())
}

/// Returns the vertex of an identifier, if there is one.
fn vertex_of(game: &GuardedGame, id: u64) -> Option<u32> {
    game.find(u32::try_from(id).ok()?)
}

/// Warns of the start of a game.
fn warn_of_start(
    alloc: Global,
    text: &[u8],
    game: &GuardedGame,
    start: u64,
    places: &[Number],
    warnings: &mut Warnings,
) -> Result<(), AllocError>
    ensures { warnings.new.length ≡ warnings.old.length }
{
    match vertex_of(game, start) {
        Some(v) => {
            let reached = reached_from(alloc, game, v)?;
            warn_of_unreached(&reached, places, warnings)
        }
        None => warnings.warn(Sort::NoStart, start_at(text), 0),
    }
}

/// Warns of a game.
fn warn_of_game(
    alloc: Global,
    text: &[u8],
    game: &GuardedGame,
    start: Option<u64>,
    warnings: &mut Warnings,
) -> Result<(), AllocError>
    ensures { warnings.new.length ≡ warnings.old.length }
{
    let places = numbers_of(alloc, text, true)?;
    warn_of_stuck(game, &places, warnings)?;
    match start {
        Some(start) => warn_of_start(alloc, text, game, start, &places, warnings),
        None => Ok(()),
    }
}

/// Returns the warnings of a game that was read from a text. It starts at the vertex of an identifier, if the text says
/// so. They are: vertices without moves; a start that is no vertex, or vertices that can't be reached from it, whatever
/// the guards are.
pub fn warnings_of_game(
    alloc: Global,
    text: &[u8],
    game: &GuardedGame,
    start: Option<u64>,
) -> Result<Warnings, AllocError>
    ensures { IfOk result (λ warnings. warnings.length ≡ length text.now) }
{
    let mut warnings = Warnings::new(alloc, text.len());
    warn_of_game(alloc, text, game, start, &mut warnings)?;
    Ok(warnings)
}
