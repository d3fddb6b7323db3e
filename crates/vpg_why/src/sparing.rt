//! Further choices that do not make a verdict, each shown together with many others.
ghost use Rattle.std.specs.Prelude.{◌≡◌, ◌<◌, ◌≤◌, ℕ, List, length, Contains, IfOk, IsTrue, OnOk};
ghost use Rattle.vpg_diagram.specs.DiagramText.{NamedDiagram};
ghost use Rattle.vpg_diagram.specs.FeatureDiagram.{feature_count};
ghost use Rattle.vpg_diagram.specs.declared.clause.Literal.{Literal};
ghost use Rattle.vpg_game.specs.Game.{NamedGame};
ghost use Rattle.vpg_partial.specs.TableLaws.{AreChoicesOf};
ghost use Rattle.vpg_why.specs.Explained.{choices};
ghost use Rattle.vpg_why.specs.Spared.{AreBothSpared, AreSpared};

use crate::asking::verdict_shown;
use crate::forcing::with_each;
use crate::foreseeing::{Findings, one_has};
use crate::question::{Limits, Shown};
use std::alloc::{AllocError, Global};
use vpg_diagram::Literal;
use vpg_guards::Tri;
use vpg_measure::Order;
use vpg_sides::Which;

/// Choices that do not make a verdict of a vertex.
#[derive(Drop)]
pub struct Spared {
    /// After one more decision, on one of these, the vertex is not hopeless.
    pub possible: Vec<Literal>,
    /// After one more decision, on one of these, it is not sure.
    pub unsure: Vec<Literal>,
}

// So many choices in turn may fail in trials of few before the others are left out.
const MISSES: u8 = 8;

/// Returns none.
pub fn none_spared(alloc: Global) -> Spared
    ensures { (game : NamedGame) (diagram : NamedDiagram) (vertex : ℕ) (own : List Literal) →
        AreBothSpared game diagram vertex own result }
{
    Spared {
        possible: Vec::new(alloc),
        unsure: Vec::new(alloc),
    }
}

// Which choices of a list are tried next.
#[derive(Clone, Copy)]
struct Batch {
    /// The place of the first one.
    place: usize,
    /// How many are tried together.
    size: usize,
    misses: u8,
}

// The place after the last choice that is tried next.
fn end_of(batch: Batch, count: usize) -> usize
    requires { batch.place < count }
    ensures from { batch.place ≤ result }
    ensures within { result ≤ count }
{
    if batch.size < count - batch.place {
        batch.place + batch.size
    } else {
        count
    }
}

// The choices to try after these: twice as many as the last ones if those were spared, and half of them if not.
fn next_batch(batch: Batch, end: usize, are_spared: bool) -> Batch {
    if are_spared {
        return Batch {
            place: end,
            size: batch.size.saturating_mul(2),
            misses: 0,
        };
    }
    if batch.size > 2 {
        return Batch {
            place: batch.place,
            size: batch.size / 2,
            misses: batch.misses,
        };
    }
    Batch {
        place: batch.place.saturating_add(1),
        size: batch.size,
        misses: batch.misses.saturating_add(1),
    }
}

// Adds the literals to those that are spared, if the decisions do not make the verdict with all of them. Returns
// whether they do not.
fn spare_all(
    alloc: Global,
    order: &Order,
    which: Which,
    vertex: u32,
    literals: &[Literal],
    limits: Limits,
    looks: &mut u64,
    spared: &mut Vec<Literal>,
) -> Result<bool, AllocError>
    requires literals { AreChoicesOf order.now.diagram.lines literals.now }
    requires vertex { vertex < length order.now.game.vertices }
    requires spared { AreSpared order.now.game order.now.diagram which vertex (choices order.now.decisions)
        spared.old.items }
    ensures spared { IfOk result (λ are. AreSpared order.now.game order.now.diagram which vertex
        (choices order.now.decisions) spared.new.items) }
    ensures looks { IfOk result (λ are. looks.new ≤ looks.old) }
{
    let more = with_each(alloc, order.decisions(), literals)?;
    let shown = verdict_shown(alloc, order, which, vertex, &more, limits, looks)?;
    if let Shown::No = shown {
        spared.extend_from_slice(literals)?;
        return Ok(true);
    }
    Ok(false)
}

// Tries the next choices of a list, and adds them if they are spared. Returns which come after them.
fn spare_next(
    alloc: Global,
    order: &Order,
    which: Which,
    vertex: u32,
    literals: &[Literal],
    batch: Batch,
    limits: Limits,
    looks: &mut u64,
    spared: &mut Vec<Literal>,
) -> Result<Batch, AllocError>
    requires literals { AreChoicesOf order.now.diagram.lines literals.now }
    requires vertex { vertex < length order.now.game.vertices }
    requires spared { AreSpared order.now.game order.now.diagram which vertex (choices order.now.decisions)
        spared.old.items }
    ensures spared { IfOk result (λ next. AreSpared order.now.game order.now.diagram which vertex
        (choices order.now.decisions) spared.new.items) }
    ensures looks { IfOk result (λ next. looks.new ≤ looks.old) }
{
    let count = literals.len();
    if batch.place >= count || batch.misses >= MISSES {
        return Ok(batch);
    }
    let end = end_of(batch, count);
    let some = &literals[batch.place..end];
    let are_spared = spare_all(alloc, order, which, vertex, some, limits, looks, spared)?;
    Ok(next_batch(batch, end, are_spared))
}

// Adds those of the literals that trials of many show to be spared.
fn spare(
    alloc: Global,
    order: &Order,
    which: Which,
    vertex: u32,
    literals: &[Literal],
    limits: Limits,
    looks: &mut u64,
    spared: &mut Vec<Literal>,
) -> Result<(), AllocError>
    requires literals { AreChoicesOf order.now.diagram.lines literals.now }
    requires vertex { vertex < length order.now.game.vertices }
    requires spared { AreSpared order.now.game order.now.diagram which vertex (choices order.now.decisions)
        spared.old.items }
    ensures spared { OnOk result (AreSpared order.now.game order.now.diagram which vertex
        (choices order.now.decisions) spared.new.items) }
    ensures looks { OnOk result (looks.new ≤ looks.old) }
{
    let mut batch = Batch {
        place: 0,
        size: literals.len(),
        misses: 0,
    };
    'trying: for _ in 0..literals.len() {
        batch = spare_next(
            alloc, order, which, vertex, literals, batch, limits, looks, spared,
        )?;
    }
    Ok(())
}

// The literals of this value on features that are not known, that none of the products has.
fn unmet(
    alloc: Global,
    order: &Order,
    value: bool,
    findings: &Findings,
) -> Result<Vec<Literal>, AllocError>
    ensures { IfOk result (λ literals. AreChoicesOf order.now.diagram.lines literals.items) }
{
    let known = order.games().known();
    let features = order.diagram().features() as u16;
    let mut literals = Vec::new(alloc);
    'listing: for feature in 0..features {
        let literal = Literal { feature, value };
        if known.value(feature) == Tri::Unknown && !one_has(&findings.met, literal) {
            literals.push(literal)?;
        }
    }
    Ok(literals)
}

// Choices that do not make the verdict of this table, beside those that products of the findings have.
fn spared_for(
    alloc: Global,
    order: &Order,
    which: Which,
    vertex: u32,
    findings: &Findings,
    limits: Limits,
    looks: &mut u64,
) -> Result<Vec<Literal>, AllocError>
    requires { vertex < length order.now.game.vertices }
    ensures spared { IfOk result (λ spared. AreSpared order.now.game order.now.diagram which vertex
        (choices order.now.decisions) spared.items) }
    ensures looks { IfOk result (λ spared. looks.new ≤ looks.old) }
{
    let mut spared = Vec::new(alloc);
    if order.table(which).get(vertex) == order.shape(which).top() {
        return Ok(spared);
    }
    let inside = unmet(alloc, order, true, findings)?;
    spare(
        alloc,
        order,
        which,
        vertex,
        &inside,
        limits,
        looks,
        &mut spared,
    )?;
    let outside = unmet(alloc, order, false, findings)?;
    spare(
        alloc,
        order,
        which,
        vertex,
        &outside,
        limits,
        looks,
        &mut spared,
    )?;
    Ok(spared)
}

/// Returns further choices that do not make a verdict of the vertex, for `foresee`: most of those that do not, where no
/// product of the findings has them. These are of products in which Even wins from the vertex, and of those in which
/// Odd does.
///
/// What more decisions do not make, fewer do not. So a trial with many choices at once shows it for each of them. Where
/// one fails, half as many are tried. A trial has no rounds of lifts. The only error is a lack of memory.
pub fn spared_choices(
    alloc: Global,
    order: &Order,
    vertex: u32,
    limits: Limits,
    looks: &mut u64,
    won: &Findings,
    lost: &Findings,
) -> Result<Spared, AllocError>
    requires { vertex < length order.now.game.vertices }
    ensures spared { IfOk result
        (AreBothSpared order.now.game order.now.diagram vertex (choices order.now.decisions)) }
    // No looks are added.
    ensures looks { IfOk result (λ spared. looks.new ≤ looks.old) }
{
    let quick = Limits {
        budget: limits.budget,
        rounds: 0,
        trials: limits.trials,
    };
    let possible = spared_for(alloc, order, Which::Hopeful, vertex, won, quick, looks)?;
    let unsure = spared_for(alloc, order, Which::Dual, vertex, lost, quick, looks)?;
    Ok(Spared { possible, unsure })
}
