//! Questions to an order: rounds and lifts of its tables, strategies, certified bounds and guesses.

ghost use Rattle.std.specs.Prelude.{◌≡◌};
ghost use Rattle.vpg_measure.specs.Lifts.{IsTableOf};
ghost use Rattle.vpg_measure.specs.Orders.{IsRaised, order_levels, order_arena};

use crate::asks::Ask::{Bounds, Ends, Guess, Lifts, Plan};
use crate::given::{given, require_at};
use crate::starts::{ROOT, copy_of, is_table, let_go, order_from, row_of, small};
use std::process::Abort;
use std::test::*;
use vpg_guess::raise_within;
use vpg_hope::Arena;
use vpg_measure::Outcome::{RanOut, Settled};
use vpg_measure::{
    Certificate, Order, Outcome, Shape, StrategyFault, Table, is_progress, lift, lifts,
    raise_to_bounds, settle_alone, strategy,
};
use vpg_sides::Which;
use vpg_sides::Which::{Dual, Hopeful};

/// A question to a copy of one of an order's tables, and the answer.
#[derive(Clone, Copy)]
pub(crate) enum Ask {
    /// The end of the rounds that made it.
    Ends(Outcome),
    /// Lifts of both vertices, which raise it to these values, and make a progress table of one that is none.
    Lifts([u64; 2]),
    /// The strategy of an order's table; nothing if it is no progress table.
    Plan(Option<&'static [Option<u32>]>),
    /// Bounds with ranks: whether they raise it, and nothing if they are no tables.
    Bounds([u64; 2], [u64; 2], Option<bool>),
    /// Certified guesses within a budget: whether it is a progress table then.
    Guess(u64, bool),
}

/// A table after this many rounds, a question to it, and its values then, if they are compared.
pub(crate) type Row = (Which, u64, Ask, Option<&'static [u64]>);

/// Returns a copy of one of an order's tables after this many rounds, and how they ended.
pub(crate) fn settled<R: Abort + AllocGlobal>(
    rt: &R,
    order: &Order,
    which: Which,
    rounds: u64,
) -> (Table, Outcome)
    ensures table { IsTableOf (order_levels which order.now) (order_arena which order.now) result.0 }
    ensures raised { IsRaised which order.now result.0 }
{
    let mut table = copy_of(rt, order.table(which));
    let outcome = settle_alone(order.shape(which), order.arena(which), &mut table, rounds);
    (table, outcome)
}

/// Whether a lift of each of two vertices raises a table to these values, and makes it a progress table.
fn lifts_to(shape: &Shape, arena: &Arena, table: &mut Table, values: [u64; 2]) -> bool
    requires { IsTableOf shape.now arena.now table.old }
{
    if arena.vertices() != 2 {
        return false;
    }
    let before = is_progress(shape, arena, table);
    let lifted = [lift(shape, arena, table, 0), lift(shape, arena, table, 1)];
    let first = lifts::raise(shape, arena, table, 0);
    let second = lifts::raise(shape, arena, table, 1);
    let after = is_progress(shape, arena, table);
    lifted == values
        && [before, first, second, after] == [false, values[0] > 0, values[1] > 0, true]
}

/// Whether a table is planned so.
fn is_planned<R: Abort + AllocGlobal>(
    rt: &R,
    shape: &Shape,
    arena: &Arena,
    table: &Table,
    plan: Option<&[Option<u32>]>,
) -> bool
    requires { IsTableOf shape.now arena.now table.now }
{
    match strategy(rt.alloc(), shape, arena, table) {
        Ok(choices) => Some(choices.as_slice()) == plan,
        Err(fault) => plan.is_none() && fault == StrategyFault::NotSettled,
    }
}

fn table_of<R: Abort + AllocGlobal>(rt: &R, values: [u64; 2]) -> Table {
    Table::of(given(rt, Vec::from_slice(rt.alloc(), &values)))
}

/// Whether bounds with ranks raise a table; nothing if they are no tables.
fn raised_by<R: Abort + AllocGlobal>(
    rt: &R,
    shape: &Shape,
    dual_shape: &Shape,
    arena: &Arena,
    table: &mut Table,
    bounds: [u64; 2],
    ranks: [u64; 2],
) -> Option<bool>
    requires { IsTableOf shape.now arena.now table.old }
{
    let certificate = Certificate {
        bounds: table_of(rt, bounds),
        ranks: table_of(rt, ranks),
    };
    if is_table(shape, arena, &certificate.bounds)
        && is_table(dual_shape, arena, &certificate.ranks)
    {
        Some(raise_to_bounds(shape, dual_shape, arena, &certificate, table))
    } else {
        None
    }
}

/// Whether a table of one of an order's games, raised within a budget, is a progress table.
fn is_guessed<R: Abort + AllocGlobal>(
    rt: &R,
    order: &Order,
    which: Which,
    table: &mut Table,
    budget: u64,
) -> bool
    requires { IsTableOf (order_levels which order.now) (order_arena which order.now) table.old }
{
    // of the dual of the game, or of its dual
    let shape_of_dual = match which {
        Hopeful => Shape::of_dual(rt.alloc(), order.game()),
        Dual => Shape::of_dual_of_dual(rt.alloc(), order.game()),
    };
    let dual = given(rt, shape_of_dual);
    let (shape, arena) = (order.shape(which), order.arena(which));
    let mut looks = budget;
    given(
        rt,
        raise_within(rt.alloc(), shape, &dual, arena, table, &mut looks),
    )
}

/// Whether a row is answered so. Bounds are asked of a hopeful game.
fn is_row<R: Abort + AllocGlobal>(rt: &R, order: &Order, row: Row) -> bool {
    let (which, rounds, ask, values) = row;
    let (mut table, ended) = settled(rt, order, which, rounds);
    let (shape, arena) = (order.shape(which), order.arena(which));
    let answered = match ask {
        Ends(outcome) => ended == outcome,
        Lifts(values) => lifts_to(shape, arena, &mut table, values),
        Plan(plan) => is_planned(rt, shape, arena, &table, plan),
        Bounds(bounds, ranks, answer) => {
            let dual = order.shape(Dual);
            raised_by(rt, shape, dual, arena, &mut table, bounds, ranks) == answer
        }
        Guess(budget, settled) => is_guessed(rt, order, which, &mut table, budget) == settled,
    };
    match values {
        Some(values) => answered && table.values() == values,
        None => answered,
    }
}

/// Asks all rows of an order, and stops at one that is answered in another way.
fn ask_all<R: Abort + AllocGlobal>(rt: &R, order: Order, rows: &[Row]) {
    for k in 0..rows.len() {
        require_at(rt, is_row(rt, &order, rows[k]), "asks", k);
    }
    let_go(order);
}

/// Without `f` vertex 0 keeps its loop alone, climbs one a round, and has no choice at the top. It is Odd's: only that
/// loop of priority 1 is kept. The rank of vertex 1 is the top of the dual's shape, so that nothing is shown of it. The
/// last bounds are no table: they exceed the top.
const WITHOUT_F: &[Row] = &[
    (Hopeful, 0, Ends(RanOut), Some(&[0, 0])),
    (Hopeful, 1, Ends(RanOut), Some(&[1, 0])),
    (Hopeful, 2, Ends(RanOut), Some(&[2, 0])),
    (Hopeful, 3, Ends(Settled), Some(&[2, 0])),
    (Hopeful, u64::MAX, Ends(Settled), Some(&[2, 0])),
    (Hopeful, 3, Plan(Some(&[None, None])), None),
    (Dual, 3, Plan(Some(&[None, Some(0)])), None),
    (
        Hopeful,
        0,
        Bounds([2, 0], [0, 2], Some(true)),
        Some(&[2, 0]),
    ),
    (
        Hopeful,
        0,
        Bounds([1, 0], [0, 0], Some(true)),
        Some(&[1, 0]),
    ),
    (
        Hopeful,
        0,
        Bounds([2, 0], [2, 0], Some(false)),
        Some(&[0, 0]),
    ),
    (
        Hopeful,
        0,
        Bounds([2, 1], [0, 0], Some(false)),
        Some(&[0, 0]),
    ),
    (Hopeful, 0, Bounds([3, 0], [0, 0], None), Some(&[0, 0])),
];

/// Vertex 0 is never Odd's if it may go on to vertex 1.
const UNDECIDED: &[Row] = &[
    (Hopeful, 0, Lifts([1, 0]), Some(&[1, 0])),
    (Dual, 0, Lifts([0, 1]), Some(&[0, 1])),
    (
        Hopeful,
        0,
        Bounds([2, 0], [0, 0], Some(false)),
        Some(&[0, 0]),
    ),
];

/// With `f` and `g` vertex 0 leaves its loop. A table that isn't settled has no strategy.
const WITH_BOTH: &[Row] = &[
    (Hopeful, 3, Plan(Some(&[Some(1), None])), None),
    (Hopeful, 0, Plan(None), None),
];

pub(crate) const BUDGET: u64 = 1_000_000;

/// Vertex 0 keeps going round priority 1, vertex 3 does until it leaves for priority 3.
const EXIT: &[u8] = b"0 1 0 0; 1 3 0 2; 2 4 0 2; 3 1 0 3,1;";

/// A budget of 1 is used up by the lifts after vertex 0 is raised to the top. One more round follows, and vertex 3
/// climbs still.
const AT_EXIT: &[Row] = &[
    (Hopeful, 0, Guess(BUDGET, true), Some(&[6, 3, 0, 4])),
    (Hopeful, 0, Guess(1, false), Some(&[6, 3, 0, 2])),
    (Dual, 0, Guess(BUDGET, true), Some(&[0, 2, 2, 2])),
];

/// Vertex 0 goes round priority 1 until it leaves for vertex 1 of priority 13. One round of lifts settles all others.
const LATE: &[u8] = b"0 1 0 0,1; 1 13 0 2; 2 14 0 2; 3 3 0 2; 4 5 0 2; 5 7 0 2; 6 9 0 2; 7 11 0 2;";

/// A guess at vertex 0 alone settles the table, by the value of vertex 1. All other ways would take more of the budget.
const AT_LATE: &[Row] = &[(
    Hopeful,
    1,
    Guess(1, true),
    Some(&[65, 64, 0, 2, 4, 8, 16, 32]),
)];

/// A loop of priority 1, and after it 60 vertices of odd priorities of their own. The top is 2^61, and no rounds of
/// lifts would come there. The table of the dual is settled from the start.
const CLIMB: &[Row] = &[
    (
        Hopeful,
        0,
        Guess(BUDGET, true),
        Some(&[2_305_843_009_213_693_952; 61]),
    ),
    (Dual, 0, Guess(BUDGET, true), None),
    (Dual, 0, Guess(1, true), None),
];

#[test]
fn orders_answer(rt: HostRuntime) {
    ask_all(&rt, small(&rt, &[(1, false)]), WITHOUT_F);
    ask_all(&rt, small(&rt, &[]), UNDECIDED);
    ask_all(&rt, small(&rt, &[(1, true), (2, true)]), WITH_BOTH);
    ask_all(&rt, order_from(&rt, ROOT, EXIT, &[]), AT_EXIT);
    ask_all(&rt, order_from(&rt, ROOT, LATE, &[]), AT_LATE);
    ask_all(&rt, row_of(&rt, ROOT, 61, true), CLIMB);
}
