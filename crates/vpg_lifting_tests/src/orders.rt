//! Orders that are made, and those that are refused.

use crate::given::{given, require, require_at};
use crate::starts::{decisions_of, let_go, order_of, small};
use std::process::Abort;
use std::test::*;
use vpg_measure::{Order, OrderFault, Refused};
use vpg_sides::Which;
use vpg_small_family::{ALTERNATIVE, CONTRADICTORY, DIAGRAM, Lone, diagram_of, lone_game};

/// Whether one of an order's games has top 2, and this priority and these kept edges at vertex 1.
fn has_game(order: &Order, which: Which, priority: u32, kept: &[u32]) -> bool {
    let arena = order.arena(which);
    order.shape(which).top() == 2
        && arena.vertices() == 2
        && arena.priority(1) == priority
        && arena.kept(1) == kept
}

/// Whether an order of the game of two vertices has these decisions, and its two games.
fn is_order_of<R: Abort + AllocGlobal>(rt: &R, order: &Order, choices: &[(u16, bool)]) -> bool {
    let decisions = decisions_of(rt, choices);
    order.decisions() == decisions.as_slice()
        && order.game().tops() == (2, 2)
        && order.diagram().features() == 3
        && has_game(order, Which::Hopeful, 2, &[0, 1])
        && has_game(order, Which::Dual, 3, &[0, 1])
}

const BOTH: &[(u16, bool)] = &[(2, true), (1, false)];

/// An order that is refused.
#[derive(Clone, Copy)]
struct Refusal {
    game: Lone,
    diagram: &'static [u8],
    features: usize,
    choices: &'static [(u16, bool)],
    fault: OrderFault,
}

/// Returns the values that come back with a fault.
fn refused<R: Abort + AllocGlobal>(rt: &R, refusal: &Refusal) -> Refused {
    let diagram = given(rt, diagram_of(rt.alloc(), refusal.diagram));
    let game = given(rt, lone_game(rt.alloc(), &diagram, refusal.game));
    match order_of(rt, game, diagram, decisions_of(rt, refusal.choices)) {
        Ok(_) => rt.panic("not refused"),
        Err(refused) => refused,
    }
}

/// Whether the fault is this one, and these decisions came back, with the diagram's features, a game of one vertex and
/// two tables of one zero.
fn is_refused<R: Abort + AllocGlobal>(rt: &R, refused: &Refused, refusal: &Refusal) -> bool {
    let decisions = decisions_of(rt, refusal.choices);
    let tables = [refused.hopeful.values(), refused.dual.values()];
    refused.fault == refusal.fault
        && refused.game.vertices() == 1
        && refused.game.features() == refusal.features
        && refused.diagram.features() == refusal.features
        && refused.decisions.as_slice() == decisions.as_slice()
        && tables == [[0].as_slice(), [0].as_slice()]
}

/// Stops at an order that isn't refused so.
fn are_refused<R: Abort + AllocGlobal>(rt: &R) {
    for k in 0..REFUSED.len() {
        let refused = refused(rt, &REFUSED[k]);
        require_at(
            rt,
            is_refused(rt, &refused, &REFUSED[k]),
            "refused orders",
            k,
        );
    }
}

/// A priority at the limit is reported before a conflict. The root names a conflict of the diagram alone; else the
/// first decision up to which there is one.
const REFUSED: &[Refusal] = &[
    Refusal {
        game: Lone::AtLimit,
        diagram: DIAGRAM,
        features: 3,
        choices: &[(1, true), (0, true)],
        fault: OrderFault::AtLimit,
    },
    Refusal {
        game: Lone::AtLimit,
        diagram: CONTRADICTORY,
        features: 2,
        choices: &[(1, true), (0, true)],
        fault: OrderFault::AtLimit,
    },
    Refusal {
        game: Lone::Zero,
        diagram: CONTRADICTORY,
        features: 2,
        choices: &[(1, true), (0, true)],
        fault: OrderFault::Conflict { feature: 0 },
    },
    Refusal {
        game: Lone::Zero,
        diagram: ALTERNATIVE,
        features: 3,
        choices: &[(1, true), (2, true)],
        fault: OrderFault::Conflict { feature: 2 },
    },
    Refusal {
        game: Lone::Zero,
        diagram: ALTERNATIVE,
        features: 3,
        choices: &[(0, false), (2, true)],
        fault: OrderFault::Conflict { feature: 0 },
    },
];

#[test]
fn no_order_with_a_conflict(rt: HostRuntime) {
    let order = small(&rt, BOTH);
    require(&rt, is_order_of(&rt, &order, BOTH), "an order");
    let_go(order);
    are_refused(&rt);
}
