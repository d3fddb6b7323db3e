//! The calls that are made of one game and one diagram, as tables.

use crate::decided::{
    DECISIONS, SETTLED, arena_of, close, close_checked, copy_table, make_arena, make_product,
    make_shape, make_strategy, make_zeros,
};
use crate::lookups::{
    arena_tells, diagram_tells, game_tells, known_tells, measures_tell, names_tell, settles,
};
use crate::orders::make_order;
use crate::reading::{
    add_name, grouped_of, has_ten, make_names, names_of, read_diagram, read_game, read_guard,
};
use crate::trails::{append, is_of_first, look, open, splice};
use crate::writing::{
    is_before, make_dual, make_projection, plain_of, text_before, write_game, write_guard,
    write_plain,
};
use std::alloc::Global;
use std::sync::{Arc, Wait};
use vpg_diagram::Diagram;
use vpg_features::Names;
use vpg_game::GuardedGame;
use vpg_hope::{Arena, PlainGame};
use vpg_measure::{Shape, Table};
use vpg_partial::Partial;
use vpg_scarce::{End, Heap, Report, Trial};
use vpg_trail::Trail;

/// A call of a game and a diagram.
#[derive(Clone, Copy)]
enum FamilyCall {
    NewNames,
    ReadGuard,
    ReadDiagram,
    ReadGame,
    AddName,
    WriteGuard,
    WriteGame,
    Dual,
    Project,
    WritePlain,
    Known,
    Product,
    Arena,
    Shape,
    Zeros,
    Copy,
    Strategy,
    AskNames,
    AskDiagram,
    AskGame,
    AskKnown,
    AskArena,
    AskMeasures,
    Settle,
    Order,
    OpenTrail,
    Append,
    Splice,
    Look,
}

/// The calls, those of a trail one after another. Those that ask take no memory: their answers are compared without
/// any.
const CALLS: &[(&str, FamilyCall)] = &[
    ("Names::add", FamilyCall::AddName),
    ("Names::new", FamilyCall::NewNames),
    ("parse_guard", FamilyCall::ReadGuard),
    ("Diagram::read", FamilyCall::ReadDiagram),
    ("GuardedGame::read", FamilyCall::ReadGame),
    ("parse_guard and Guard::write", FamilyCall::WriteGuard),
    ("GuardedGame::write", FamilyCall::WriteGame),
    ("GuardedGame::dual", FamilyCall::Dual),
    ("project", FamilyCall::Project),
    ("PlainGame::write", FamilyCall::WritePlain),
    ("Partial::close", FamilyCall::Known),
    ("Partial::product", FamilyCall::Product),
    ("Arena::hopeful", FamilyCall::Arena),
    ("Shape::of", FamilyCall::Shape),
    ("Table::zero", FamilyCall::Zeros),
    ("Table::copy", FamilyCall::Copy),
    ("strategy", FamilyCall::Strategy),
    ("Names::len, get, name", FamilyCall::AskNames),
    (
        "Diagram::names, is_product, clauses, counts",
        FamilyCall::AskDiagram,
    ),
    (
        "GuardedGame::vertices, features, id, find, owner, priority, edges, tops",
        FamilyCall::AskGame,
    ),
    ("Partial::value, is_full", FamilyCall::AskKnown),
    ("Arena::kept", FamilyCall::AskArena),
    (
        "Shape::top, prog, lift, is_progress",
        FamilyCall::AskMeasures,
    ),
    ("settle_alone, Table::get, set", FamilyCall::Settle),
    ("Order::of", FamilyCall::Order),
    ("Trail::open", FamilyCall::OpenTrail),
    ("Trail::append", FamilyCall::Append),
    ("Trail::splice", FamilyCall::Splice),
    ("Trail::entries, tables, level", FamilyCall::Look),
];

/// The parts that the calls are made of, beside a game and a diagram.
#[derive(Drop)]
struct Parts {
    /// Ten names, and then one more.
    names: Names,
    /// A diagram of ten names, with groups.
    grouped: Diagram,
    /// The game of one product.
    plain: PlainGame,
    /// The written text, after an earlier one.
    out: Vec<u8>,
    known: Partial,
    shape: Shape,
    /// That of the dual game.
    dual_shape: Shape,
    arena: Arena,
    /// The settled table of the hopeful game.
    table: Table,
    /// A table of zeros.
    zeros: Table,
    trail: Trail,
    /// Whether the arguments of the order that was made last came back.
    is_back: bool,
}

/// Returns the parts for a game and a diagram: first those that are dropped by one call.
fn parts_of(alloc: Global, diagram: &Diagram, game: &GuardedGame) -> Option<Parts> {
    let shape = Shape::of(alloc, game).ok()?;
    let dual_shape = Shape::of_dual(alloc, game).ok()?;
    let trail = Trail::open(alloc, &shape, &dual_shape, 2).ok()?;
    let zeros = Table::zero(alloc, &shape, 2).ok()?;
    let table = Table::of(Vec::from_slice(alloc, &SETTLED).ok()?);
    let names = names_of(alloc)?;
    let grouped = grouped_of(alloc)?;
    let plain = plain_of(alloc, diagram, game)?;
    let known = close_checked(alloc, diagram, &DECISIONS).ok()?;
    let arena = arena_of(alloc, game, &known)?;
    Some(Parts {
        names,
        grouped,
        plain,
        out: Vec::new(alloc),
        known,
        shape,
        dual_shape,
        arena,
        table,
        zeros,
        trail,
        is_back: true,
    })
}

/// A call, and the parts that it is made of.
#[derive(Drop)]
struct Calling<'t> {
    call: FamilyCall,
    diagram: &'t Arc<Diagram>,
    game: &'t Arc<GuardedGame>,
    parts: &'t mut Parts,
}

/// Makes a call.
fn made(
    alloc: Global,
    call: FamilyCall,
    diagram: &Arc<Diagram>,
    game: &Arc<GuardedGame>,
    parts: &mut Parts,
) -> End {
    match call {
        FamilyCall::NewNames => make_names(alloc),
        FamilyCall::ReadGuard => read_guard(alloc, &parts.names),
        FamilyCall::ReadDiagram => read_diagram(alloc),
        FamilyCall::ReadGame => read_game(alloc, &parts.names),
        FamilyCall::AddName => add_name(alloc, &mut parts.names),
        FamilyCall::WriteGuard => write_guard(alloc, diagram.names(), &mut parts.out),
        FamilyCall::WriteGame => write_game(alloc, game, diagram.names(), &mut parts.out),
        FamilyCall::Dual => make_dual(alloc, game),
        FamilyCall::Project => make_projection(alloc, game, diagram),
        FamilyCall::WritePlain => write_plain(alloc, &parts.plain, &mut parts.out),
        FamilyCall::Known => close(alloc, diagram),
        FamilyCall::Product => make_product(alloc, &parts.known),
        FamilyCall::Arena => make_arena(alloc, game, &parts.known),
        FamilyCall::Shape => make_shape(alloc, game),
        FamilyCall::Zeros => make_zeros(alloc, &parts.shape),
        FamilyCall::Copy => copy_table(alloc, &parts.table),
        FamilyCall::Strategy => make_strategy(alloc, &parts.shape, &parts.arena, &parts.table),
        FamilyCall::AskNames => names_tell(diagram.names()),
        FamilyCall::AskDiagram => diagram_tells(diagram, &parts.grouped),
        FamilyCall::AskGame => game_tells(game),
        FamilyCall::AskKnown => known_tells(&parts.known),
        FamilyCall::AskArena => arena_tells(&parts.arena),
        FamilyCall::AskMeasures => measures_tell(&parts.shape, &parts.arena, &parts.table),
        FamilyCall::Settle => settles(&parts.shape, &parts.arena, &mut parts.zeros),
        FamilyCall::Order => make_order(alloc, game, diagram, &mut parts.is_back),
        FamilyCall::OpenTrail => open(alloc, &parts.shape, &parts.dual_shape),
        FamilyCall::Append => append(&mut parts.trail),
        FamilyCall::Splice => splice(alloc, &mut parts.trail),
        FamilyCall::Look => look(&parts.trail),
    }
}

impl<R> Trial<R> for Calling<'_> {
    fn attempt(&mut self, _rt: &R, alloc: Global) -> End {
        made(alloc, self.call, self.diagram, self.game, self.parts)
    }

    fn is_unchanged(&mut self, _rt: &R, _alloc: Global) -> bool {
        let parts = &*self.parts;
        let (names, entries) = match self.call {
            FamilyCall::AddName => (10, 0),
            FamilyCall::Splice => (11, 1),
            _ => (11, 0),
        };
        has_ten(&parts.names, names)
            && is_before(&parts.out)
            && parts.is_back
            && parts.known.is_full()
            && parts.table.values() == SETTLED.as_slice()
            && is_of_first(&parts.trail, entries)
    }
}

/// Makes each call with little memory.
fn try_each<R: Wait>(rt: &R, heap: &mut Heap, report: &mut Report, calling: &mut Calling<'_>) {
    for (name, call) in CALLS {
        calling.call = *call;
        calling.parts.out = text_before(heap.alloc());
        report.try_call(rt, heap, name, calling);
    }
}

/// Makes each call of a game and a diagram with little memory.
pub(crate) fn refuse_each<R: Wait>(
    rt: &R,
    heap: &mut Heap,
    report: &mut Report,
    game: &Arc<GuardedGame>,
    diagram: &Arc<Diagram>,
) -> Option<()> {
    let mut parts = parts_of(heap.alloc(), diagram, game)?;
    let mut calling = Calling {
        call: FamilyCall::NewNames,
        diagram,
        game,
        parts: &mut parts,
    };
    try_each(rt, heap, report, &mut calling);
    Some(())
}
