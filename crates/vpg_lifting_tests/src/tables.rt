//! Tables and shapes by themselves.

use crate::given::{given, require, require_at};
use crate::starts::copy_of;
use std::process::Abort;
use std::test::*;
use vpg_game::top_within_limit;
use vpg_measure::{Shape, Table, prog};
use vpg_small_family::{DIAGRAM, GAME, diagram_of, game_of};

/// Returns the shape of a game without guards.
fn shape_of<R: Abort + AllocGlobal>(rt: &R, text: &[u8]) -> Shape {
    let diagram = given(rt, diagram_of(rt.alloc(), DIAGRAM));
    let game = given(rt, game_of(rt.alloc(), text, &diagram));
    given(rt, Shape::of(rt.alloc(), &game))
}

/// A priority, a value, and the least number that fits an edge from a vertex of that priority to one of that value.
const PROGS: &[(u32, u64, u64)] = &[
    (0, 5, 5),
    (1, 5, 6),
    (2, 5, 3),
    (3, 5, 6),
    (4, 5, 0),
    (1, 2, 3),
    (5, 0, 6),
];

/// Stops at a number that is another.
fn have_progs<R: Abort>(rt: &R, shape: &Shape) {
    for k in 0..PROGS.len() {
        let (priority, value, least) = PROGS[k];
        assert!(rt; value <= shape.top());
        require_at(rt, prog(shape, priority, value) == least, "progs", k);
    }
}

/// Whether two vertices of priority 1 and one of priority 3 have the right shape: the radices are 3 and 2.
fn is_shaped<R: Abort + AllocGlobal>(rt: &R) -> bool {
    let top = given(rt, top_within_limit(rt.alloc(), &[1, 1, 3]));
    let shape = shape_of(rt, b"0 1 0 0; 1 1 0 1; 2 3 0 2;");
    have_progs(rt, &shape);
    top == Some(6) && shape.top() == 6
}

/// Gives a vertex of a table this value.
fn put<R: Abort>(rt: &R, table: &mut Table, v: u32, value: u64) {
    assert!(rt; (v as usize) < table.values().len());
    table.set(v, value);
}

/// Whether another table takes these values of a table of two.
fn takes(other: &mut Table, table: &Table, values: [u64; 2]) -> bool {
    if table.values().len() != 2 || other.values().len() != 2 {
        return false;
    }
    other.assign(table);
    other.values() == values.as_slice() && [table.get(0), table.get(1)] == values
}

/// Whether a copy has the values that were set before it, and another table takes all.
fn are_tables<R: Abort + AllocGlobal>(rt: &R) -> bool {
    let shape = shape_of(rt, GAME);
    let mut table = given(rt, Table::zero(rt.alloc(), &shape, 2));
    put(rt, &mut table, 1, 7);
    let copy = copy_of(rt, &table);
    put(rt, &mut table, 0, 5);
    let mut other = Table::of(given(rt, vec![in rt.alloc(); 9; 2]));
    copy.values() == [0, 7].as_slice() && takes(&mut other, &table, [5, 7])
}

#[test]
fn tables_and_shapes(rt: HostRuntime) {
    require(&rt, is_shaped(&rt), "a shape");
    require(&rt, are_tables(&rt), "tables");
}
