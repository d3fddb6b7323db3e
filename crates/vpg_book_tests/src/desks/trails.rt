//! Trails by hand: over two vertices, with decisions on the features 1 and 2.
ghost use Rattle.std.specs.Prelude.{◌≡◌, [], ◌∷◌, length};
ghost use Rattle.vpg_trail.specs.Page.{Decided, Lifted, Hopeful};
ghost use Rattle.vpg_trail.specs.Shown.{entry_of};

use crate::given::{given, require, require_at};
use crate::pages::are_text;
use std::alloc::{AllocError, Global};
use std::process::Abort;
use std::sync::Arc;
use std::test::*;
use vpg_diagram::Literal;
use vpg_measure::{Shape, Table};
use vpg_partial::Decision;
use vpg_sides::Which;
use vpg_small_family::{DIAGRAM, GAME, diagram_of, game_of};
use vpg_trail::{
    Assumed, Decisions, Entries, Entry, Trail, decided, decisions_among, kept_after, lifts,
    place_of,
};

const OUT: Decision = Decision {
    serial: 1,
    session: 1,
    feature: 1,
    value: false,
};

const IN: Decision = Decision {
    serial: 2,
    session: 1,
    feature: 2,
    value: true,
};

/// The first decision as a literal.
const FIRST: Literal = Literal {
    feature: 1,
    value: false,
};

const SECOND: Literal = Literal {
    feature: 2,
    value: true,
};

/// Whether the trail has these entries and tables.
fn is_trail(alloc: Global, trail: &Trail, entries: &str, hopeful: &[u64], dual: &[u64]) -> bool {
    let (first, second) = trail.tables();
    first.values() == hopeful
        && second.values() == dual
        && are_text(alloc, trail.entries(), entries)
}

fn assumed(rt: &impl Abort, alloc: Global, literals: &[Literal]) -> Arc<Assumed> {
    let literals = Vec::from_slice(alloc, literals).expect(rt, "no memory");
    Arc::new(alloc, Assumed::new(literals)).expect(rt, "no memory")
}

// ---- trails that are made step by step

/// A change of a trail.
enum Deed {
    Decide(Decision),
    /// One vertex is raised by a lift from its present value, under these decisions.
    Raise(Which, u32, u64, &'static [Literal]),
    /// One vertex is raised by a lift that shares the assumptions of the last entry, which is a lift too.
    RaiseAlso(Which, u32, u64),
    /// The decision on the feature is retracted, and that undone if this says so.
    Retract(u16, bool),
    /// All entries are taken, and appended to an empty trail at once.
    PutAgain,
}

/// Raises one vertex by a lift from its present value.
fn raise(trail: &mut Trail, table: Which, vertex: u32, new: u64, under: Arc<Assumed>) -> bool {
    if vertex >= trail.vertices() {
        return false;
    }
    let old = match table {
        Which::Hopeful => trail.hopeful().get(vertex),
        Which::Dual => trail.dual().get(vertex),
    };
    if old < new {
        let entry = Entry::Lift {
            table,
            vertex,
            old,
            new,
            under,
        };
        trail.append(entry).is_ok()
    } else {
        false
    }
}

/// Raises one vertex by a lift that shares the assumptions of the last entry, which is a lift too.
fn raise_also(trail: &mut Trail, table: Which, vertex: u32, new: u64) -> bool {
    let Some(Entry::Lift { under, .. }) = trail.entries().last() else {
        return false;
    };
    match under.clone() {
        Ok(under) => raise(trail, table, vertex, new, under),
        Err(_) => false,
    }
}

/// Retracts a feature, and undoes that if this is asked for.
fn retract(
    alloc: Global,
    trail: &mut Trail,
    feature: u16,
    and_back: bool,
) -> Result<(), AllocError> {
    let Some(place) = place_of(trail.entries(), feature) else {
        return Ok(());
    };
    let kept = kept_after(alloc, trail.entries(), place, feature, trail.vertices())?;
    let cut = trail.splice(place, kept)?;
    if and_back {
        trail.splice(place, cut)?;
    }
    Ok(())
}

/// Takes all entries, and appends them to an empty trail at once.
fn put_again(rt: &impl Abort, alloc: Global, trail: &mut Trail) -> bool {
    let all = trail.splice(0, Vec::new(alloc)).expect(rt, "no memory");
    trail.extend(all).is_ok()
}

/// Makes this change to a trail. Returns whether it could be made.
fn does(rt: &impl Abort, alloc: Global, trail: &mut Trail, deed: &Deed) -> bool {
    match *deed {
        Deed::Decide(decision) => trail.append(Entry::Decide(decision)).is_ok(),
        Deed::Raise(table, vertex, new, under) => {
            raise(trail, table, vertex, new, assumed(rt, alloc, under))
        }
        Deed::RaiseAlso(table, vertex, new) => raise_also(trail, table, vertex, new),
        Deed::Retract(feature, and_back) => retract(alloc, trail, feature, and_back).is_ok(),
        Deed::PutAgain => put_again(rt, alloc, trail),
    }
}

/// Returns a trail without entries over the game of two vertices.
fn opened<R: Abort + AllocGlobal>(rt: &R) -> Trail
    ensures { result ≡ record { vertices = 2; entries = [] } }
{
    let diagram = given(rt, diagram_of(rt.alloc(), DIAGRAM));
    let game = given(rt, game_of(rt.alloc(), GAME, &diagram));
    let hopeful = given(rt, Shape::of(rt.alloc(), &game));
    let dual = given(rt, Shape::of_dual(rt.alloc(), &game));
    Trail::open(rt.alloc(), &hopeful, &dual, 2).expect(rt, "no memory")
}

/// Returns a trail over two vertices after these changes.
fn made<R: Abort + AllocGlobal>(rt: &R, deeds: &[Deed]) -> Trail {
    let mut trail = opened(rt);
    for deed in deeds {
        require(
            rt,
            does(rt, rt.alloc(), &mut trail, deed),
            "a deed of a trail",
        );
    }
    trail
}

/// Two decisions; a lift that assumed both, and two lifts that share one list, of the first alone. One is of the same
/// vertex.
const TWO_DECISIONS: &[Deed] = &[
    Deed::Decide(OUT),
    Deed::Decide(IN),
    Deed::Raise(Which::Hopeful, 0, 1, &[FIRST, SECOND]),
    Deed::Raise(Which::Hopeful, 0, 2, &[FIRST]),
    Deed::RaiseAlso(Which::Dual, 1, 1),
];

/// A decision, and two lifts that assumed nothing.
const ONE_DECISION: &[Deed] = &[
    Deed::Decide(OUT),
    Deed::Raise(Which::Hopeful, 0, 1, &[]),
    Deed::RaiseAlso(Which::Dual, 1, 1),
];

/// The entries of the trail of two decisions.
const TWO_TEXT: &str =
    "exclude f 1 by 1 / select g 2 by 1 / hopeful 0 0 1 -f +g / hopeful 0 1 2 -f / dual 1 0 1 -f / ";

/// A trail, a change of it, and its entries and tables then.
type Row = (
    &'static [Deed],
    Deed,
    &'static str,
    &'static [u64],
    &'static [u64],
);

/// Retracting keeps the lifts that did not assume it.
const ROWS: &[Row] = &[
    (
        TWO_DECISIONS,
        Deed::Retract(2, false),
        "exclude f 1 by 1 / hopeful 0 0 2 -f / dual 1 0 1 -f / ",
        &[2, 0],
        &[0, 1],
    ),
    (
        TWO_DECISIONS,
        Deed::Retract(2, true),
        TWO_TEXT,
        &[2, 0],
        &[0, 1],
    ),
    (
        ONE_DECISION,
        Deed::Retract(1, false),
        "hopeful 0 0 1 / dual 1 0 1 / ",
        &[1, 0],
        &[0, 1],
    ),
    (TWO_DECISIONS, Deed::PutAgain, TWO_TEXT, &[2, 0], &[0, 1]),
];

fn holds<R: Abort + AllocGlobal>(rt: &R, (deeds, then, entries, hopeful, dual): &Row) -> bool {
    let mut trail = made(rt, deeds);
    does(rt, rt.alloc(), &mut trail, then) && is_trail(rt.alloc(), &trail, entries, hopeful, dual)
}

fn all_hold<R: Abort + AllocGlobal>(rt: &R) {
    for k in 0..ROWS.len() {
        require_at(rt, holds(rt, &ROWS[k]), "trails", k);
    }
}

// ---- a splice

/// Returns a lift of the hopeful table at vertex 0, from zero and without assumed decisions.
fn first_lift(rt: &impl Abort, alloc: Global, new: u64) -> Entry
    ensures { entry_of result ≡ Lifted (record { table = Hopeful; vertex = 0; old = 0; new = new; under = [] }) }
{
    Entry::Lift {
        table: Which::Hopeful,
        vertex: 0,
        old: 0,
        new,
        under: Arc::new(alloc, Assumed::new(Vec::new(alloc))).expect(rt, "no memory"),
    }
}

/// Cuts a trail of a decision and a lift to 2, and puts a lift to 1 in place of that one. Returns the entries that were
/// cut.
fn exchange(rt: &impl Abort, alloc: Global, trail: &mut Trail) -> Vec<Entry>
    requires { trail.old ≡ record { vertices = 2; entries = Decided OUT ∷ [] } }
{
    assert!(rt; trail.append(first_lift(rt, alloc, 2)).is_ok());
    let suffix = Vec::from_array(alloc, [first_lift(rt, alloc, 1)]).expect(rt, "no memory");
    trail.splice(1, suffix).expect(rt, "no memory")
}

/// Whether a splice puts in the entries that it gets, and returns those that it cuts.
fn is_exchanged<R: Abort + AllocGlobal>(rt: &R) -> bool {
    let alloc = rt.alloc();
    let mut trail = opened(rt);
    assert!(rt; trail.append(Entry::Decide(OUT)).is_ok());
    let cut = exchange(rt, alloc, &mut trail);
    are_text(alloc, &cut, "hopeful 0 0 2 / ")
        && is_trail(
            alloc,
            &trail,
            "exclude f 1 by 1 / hopeful 0 0 1 / ",
            &[1, 0],
            &[0, 0],
        )
        && trail.entries().len() == 2
        && trail.level(0) == 0
        && trail.level(2) == 1
}

// ---- lists

fn is_copied(rt: &impl Abort, alloc: Global, entries: &[Entry]) -> bool {
    let copy = Entries::copy_of(alloc, entries).expect(rt, "no memory");
    let copy = Entries::new(copy.into_vec());
    are_text(alloc, copy.as_slice(), TWO_TEXT)
}

/// Whether the decisions among entries are both, as a list and back, and the second is found in its place, and one of
/// the root nowhere.
fn are_both(rt: &impl Abort, alloc: Global, entries: &[Entry]) -> bool {
    let decisions = Decisions::new(decisions_among(alloc, entries).expect(rt, "no memory"));
    let listed = decisions.as_slice() == [OUT, IN].as_slice();
    let back = decisions.into_vec();
    listed
        && back.as_slice() == [OUT, IN].as_slice()
        && decided(entries, 2) == Some(IN)
        && decided(entries, 0).is_none()
        && place_of(entries, 2) == Some(1)
        && place_of(entries, 0).is_none()
}

/// Whether assumed decisions are held as a list and back, and asked for.
fn are_held(rt: &impl Abort, alloc: Global) -> bool {
    let assumed = Assumed::new(Vec::from_slice(alloc, &[SECOND]).expect(rt, "no memory"));
    let held = assumed.has(2) && !assumed.has(1);
    let listed = assumed.literals() == [SECOND].as_slice();
    let back = assumed.into_vec();
    held && listed && back.as_slice() == [SECOND].as_slice()
}

/// Returns the lifts of the dual table from zero to three values.
fn lifts_to(rt: &impl Abort, alloc: Global, values: &Table) -> Vec<Entry>
    requires { length values.now ≡ 3 }
{
    let under = assumed(rt, alloc, &[FIRST]);
    let present = Table::of(vec![in alloc; 0; 3].expect(rt, "no memory"));
    lifts(alloc, Which::Dual, &present, values, &under, 3).expect(rt, "no memory")
}

/// Whether the lifts to a table are these.
fn are_lifts(rt: &impl Abort, alloc: Global) -> bool {
    let values = Table::of(Vec::from_slice(alloc, &[2, 0, 1]).expect(rt, "no memory"));
    assert!(rt; values.values().len() == 3);
    let lifts = lifts_to(rt, alloc, &values);
    are_text(alloc, &lifts, "dual 0 0 2 -f / dual 2 0 1 -f / ")
}

#[test]
fn trails_are_as_made(rt: HostRuntime) {
    let alloc = rt.alloc();
    all_hold(&rt);
    let trail = made(&rt, TWO_DECISIONS);
    require(&rt, is_exchanged(&rt), "a splice");
    require(&rt, are_held(&rt, alloc), "what is assumed");
    require(&rt, are_lifts(&rt, alloc), "lifts");
    require(&rt, is_copied(&rt, alloc, trail.entries()), "a copy");
    require(&rt, are_both(&rt, alloc, trail.entries()), "decisions");
}
