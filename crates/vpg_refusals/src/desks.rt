//! Desks that are opened, and all answers of a desk.

use std::alloc::Global;
use std::sync::Arc;
use vpg_desk::{Desk, OpenFault, OpenRefused};
use vpg_diagram::Diagram;
use vpg_game::GuardedGame;
use vpg_scarce::is_same_page;
use vpg_small_family::shared;
use vpg_trail::Page;

/// The fault of an opening that was refused, with how many vertices and features came back.
pub(crate) type Unopened = (OpenFault, usize, usize);

fn opened(alloc: Global, game: Arc<GuardedGame>, diagram: Arc<Diagram>) -> Result<Desk, Unopened> {
    if game.features() != diagram.features() {
        return Err((OpenFault::AtLimit, 0, 0));
    }
    match Desk::open(alloc, game, diagram) {
        Ok(desk) => Ok(desk),
        Err(
            OpenRefused {
                fault,
                game,
                diagram,
            },
        ) => Err((fault, game.vertices(), diagram.features())),
    }
}

/// Returns a desk on a game and a diagram; or how its opening ended.
pub(crate) fn open_on(
    alloc: Global,
    game: &Arc<GuardedGame>,
    diagram: &Arc<Diagram>,
) -> Result<Desk, Unopened> {
    match shared(game, diagram) {
        Some((game, diagram)) => opened(alloc, game, diagram),
        None => Err((OpenFault::AtLimit, 0, 0)),
    }
}

/// The answers of a desk to all questions that change nothing.
#[derive(Drop)]
pub(crate) struct Seen {
    page: Page,
    tokens: u64,
    is_settled: bool,
}

/// Returns all answers of a desk.
pub(crate) fn seen_of(alloc: Global, desk: &Desk) -> Option<Seen> {
    match desk.page(alloc) {
        Ok(page) => Some(Seen {
            page,
            tokens: desk.tokens(),
            is_settled: desk.settled(),
        }),
        Err(_) => None,
    }
}

/// Whether two desks have the same answers.
fn is_same(now: &Seen, before: &Seen) -> bool {
    is_same_page(&now.page, &before.page)
        && now.tokens == before.tokens
        && now.is_settled == before.is_settled
}

/// Whether a desk has these answers.
pub(crate) fn tells(alloc: Global, desk: &Desk, before: &Option<Seen>) -> bool {
    match (&seen_of(alloc, desk), before) {
        (Some(now), Some(before)) => is_same(now, before),
        _ => false,
    }
}
