//! Calls that take no memory. Each is made without any, and has to have the same answer as otherwise.

use crate::decided::is_table;
use crate::{done_if, told_of};
use vpg_diagram::Diagram;
use vpg_features::Names;
use vpg_game::GuardedGame;
use vpg_guards::{Tri, parse_guard};
use vpg_hope::Arena;
use vpg_measure::{Shape, Table, is_progress, lift, prog, settle_alone};
use vpg_partial::Partial;
use vpg_scarce::{End, Heap, Report};
use vpg_sides::Player;

pub(crate) fn names_tell(names: &Names) -> End {
    if names.len() != 3 {
        return End::Otherwise;
    }
    done_if(names.get(b"f") == Some(1) && names.get(b"h").is_none() && names.name(1) == "f")
}

/// Whether the diagram of ten names has two counts: of its or-group, and of its group with a cardinality.
fn is_counted(grouped: &Diagram) -> bool {
    let [either, group] = grouped.counts() else {
        return false;
    };
    [either.parent(), group.parent()] == [1, 0]
        && either.members() == [5, 6, 7].as_slice()
        && group.members() == [8, 9, 10].as_slice()
        && [either.low(), either.high()] == [1, 3]
        && [group.low(), group.high()] == [1, 2]
}

pub(crate) fn diagram_tells(diagram: &Diagram, grouped: &Diagram) -> End {
    if diagram.features() != 3 {
        return End::Otherwise;
    }
    done_if(
        diagram.is_product(&[true, true, false])
            && !diagram.is_product(&[false, true, false])
            && diagram.clauses().len() == 3
            && diagram.counts().is_empty()
            && is_counted(grouped),
    )
}

pub(crate) fn game_tells(game: &GuardedGame) -> End {
    if game.vertices() != 2 {
        return End::Otherwise;
    }
    done_if(
        matches!(game.owner(1), Player::Odd)
            && game.find(1) == Some(1)
            && game.find(7).is_none()
            && [game.id(1), game.priority(1)] == [1, 2]
            && [game.edges(0).len(), game.features()] == [2, 3]
            && game.tops() == (2, 2),
    )
}

pub(crate) fn known_tells(known: &Partial) -> End {
    if known.values().len() != 3 {
        return End::Otherwise;
    }
    done_if(matches!(known.value(2), Tri::Yes) && known.is_full())
}

pub(crate) fn arena_tells(arena: &Arena) -> End {
    if arena.vertices() != 2 {
        return End::Otherwise;
    }
    done_if(arena.kept(0) == [1, 0].as_slice() && arena.kept(1) == [0, 1].as_slice())
}

/// Checks that the settled table is one that no lift raises.
pub(crate) fn measures_tell(shape: &Shape, arena: &Arena, table: &Table) -> End {
    if arena.vertices() != 2 || !is_table(shape, arena, table) {
        return End::Otherwise;
    }
    done_if(
        [shape.top(), prog(shape, 1, 0), lift(shape, arena, table, 0)] == [2, 1, 1]
            && is_progress(shape, arena, table),
    )
}

/// Settles a table of zeros, and makes it one of zeros again.
pub(crate) fn settles(shape: &Shape, arena: &Arena, table: &mut Table) -> End {
    if arena.vertices() != 2 || !is_table(shape, arena, table) {
        return End::Otherwise;
    }
    settle_alone(shape, arena, table, 10);
    if table.values().len() != 2 {
        return End::Otherwise;
    }
    let told = [table.get(0), table.get(1)];
    table.set(0, 0);
    done_if(told == [1, 0])
}

/// A guard of each kind of part.
const GUARD: &[u8] = b"!(f & g) | r & true";

/// A set of features without the root and `g`, and values of features: only the root is known, and it is out.
const SET: [bool; 3] = [false, true, false];

const KNOWN: [Tri; 3] = [Tri::No, Tri::Unknown, Tri::Unknown];

/// Asks a guard, with no memory, whether it holds in a set, and for its value under known features.
pub(crate) fn ask_guard(heap: &mut Heap, report: &mut Report, names: &Names) {
    if names.len() != SET.len() {
        return;
    }
    if let Ok(guard) = parse_guard(heap.alloc(), GUARD, names) {
        heap.leave(0);
        let tells = guard.eval(&SET) && matches!(guard.kleene(&KNOWN), Tri::Unknown);
        heap.relax();
        report.note(heap, "Guard::eval, kleene", told_of(tells));
    }
}
