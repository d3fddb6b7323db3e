//! Decisions and orders that the tests start from.

ghost use Rattle.std.specs.Prelude.{◌≡◌, IsTrue};
ghost use Rattle.vpg_measure.specs.Lifts.{IsTableOf};

use crate::given::given;
use std::process::Abort;
use std::sync::Arc;
use std::test::*;
use vpg_diagram::Diagram;
use vpg_game::GuardedGame;
use vpg_hope::Arena;
use vpg_measure::{Order, Refused, Shape, Table};
use vpg_partial::Decision;
use vpg_small_family::{DIAGRAM, GAME, diagram_of, fit, game_of};

pub(crate) const ROOT: &[u8] = b"root r\n";

/// Decisions with serials from 1, each of a feature, in or out.
pub(crate) fn decisions_of<R: Abort + AllocGlobal>(
    rt: &R,
    choices: &[(u16, bool)],
) -> Vec<Decision> {
    let mut decisions = Vec::new(rt.alloc());
    for k in 0..choices.len() {
        let (feature, value) = choices[k];
        let decision = Decision {
            serial: k as u64 + 1,
            session: 1,
            feature,
            value,
        };
        given(rt, decisions.push(decision));
    }
    decisions
}

/// Returns a copy of a table.
pub(crate) fn copy_of<R: Abort + AllocGlobal>(rt: &R, table: &Table) -> Table
    ensures { result ≡ table.now }
{
    table.copy(rt.alloc()).expect(rt, "no memory")
}

/// Returns the order of decisions with two tables of zeros, or why there is none, if game, diagram and decisions fit
/// together.
pub(crate) fn order_of<R: Abort + AllocGlobal>(
    rt: &R,
    game: Arc<GuardedGame>,
    diagram: Arc<Diagram>,
    decisions: Vec<Decision>,
) -> Result<Order, Refused> {
    assert!(rt; fit(&game, &diagram, &decisions));
    given(
        rt,
        vpg_small_family::order_of(rt.alloc(), game, diagram, decisions),
    )
}

/// Lets an order go. A function that does so itself takes the prover seconds; so all call this one.
pub(crate) fn let_go(_order: Order) {}

/// Returns the order of two texts, a diagram's and a game's, with these decisions.
pub(crate) fn order_from<R: Abort + AllocGlobal>(
    rt: &R,
    options: &[u8],
    game: &[u8],
    choices: &[(u16, bool)],
) -> Order {
    let diagram = given(rt, diagram_of(rt.alloc(), options));
    let game = given(rt, game_of(rt.alloc(), game, &diagram));
    given(rt, order_of(rt, game, diagram, decisions_of(rt, choices)))
}

/// Returns the order of the game of two vertices with these decisions: feature 1 is `f`, feature 2 is `g`.
pub(crate) fn small<R: Abort + AllocGlobal>(rt: &R, choices: &[(u16, bool)]) -> Order {
    order_from(rt, DIAGRAM, GAME, choices)
}

/// Returns the order without decisions of a game of this many vertices of Even, of the priorities 1, 3, 5 and so on.
/// Each has one edge, to itself or, if all lead back, to the first.
pub(crate) fn row_of<R: Abort + AllocGlobal>(
    rt: &R,
    options: &[u8],
    count: u32,
    lead_back: bool,
) -> Order {
    let mut text = String::new(rt.alloc());
    let mut priority = 1u32;
    for v in 0..count {
        let to = if lead_back { 0 } else { v };
        given(rt, write!(text, "{v} {priority} 0 {to};"));
        priority = priority.saturating_add(2);
    }
    order_from(rt, options, text.as_bytes(), &[])
}

/// Whether this is a table of the arena's measures.
pub(crate) fn is_table(shape: &Shape, arena: &Arena, table: &Table) -> bool
    ensures { IsTrue result → IsTableOf shape.now arena.now table.now }
{
    table.values().len() == arena.vertices() as usize
        && table.values().iter().all(|n| *n <= shape.top())
}
