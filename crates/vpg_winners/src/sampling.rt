//! Some of the products that are left, and who wins in them.
ghost use Rattle.std.specs.Prelude.{◌≡◌, List, true, length, All, IfOk, IfSome};
ghost use Rattle.std.specs.List.{AllByRecursion};
ghost use Rattle.vpg_diagram.specs.DiagramText.{NamedDiagram};
ghost use Rattle.vpg_diagram.specs.declared.clause.Literal.{Literal};
ghost use Rattle.vpg_game.specs.Game.{NamedGame};
ghost use Rattle.vpg_number.specs.Counted.{AreDistinct};
ghost use Rattle.vpg_sets.specs.Sets.{has, IsInside};
ghost use Rattle.vpg_why.specs.Explained.{choices};
ghost use Rattle.vpg_why.specs.Found.{IsFoundProduct};
ghost use Rattle.vpg_why.specs.declared.question.Aim.{Aim};
ghost use Rattle.vpg_winners.specs.OpenParts.{IsPartOf};
ghost use Rattle.vpg_winners.specs.Sampled.{AreFound, IsFirstLeft, IsSetOfSome};
ghost use Rattle.vpg_zielonka.specs.Winners.{lists_of};

use crate::listing::{NODES, by_list};
use crate::two_sets::remaining;
use std::alloc::{AllocError, Global};
use vpg_measure::Order;
use vpg_open::Reached;
use vpg_sets::{Set, Sets, SetsFault};
use vpg_sides::Which;
use vpg_why::Example;

/// The number of candidates for a sample: few, since each takes about as long as a game without guards.
pub(crate) const SAMPLE: u16 = 4;

// Whether a candidate is to have a feature: the first has each one, the second none, and the others every other one.
fn is_wished(number: u16, feature: u16) -> bool {
    match number {
        0 => true,
        1 => false,
        _ => (feature ^ number) & 1 == 0,
    }
}

// A list of features, in which each is as it is to be where the set has such a product.
fn candidate(alloc: Global, sets: &Sets, set: Set, number: u16) -> Result<Vec<bool>, AllocError>
    requires { IsInside sets.now set }
    ensures { IfOk result (λ product. length product.items ≡ sets.now.features) }
{
    let features = sets.features();
    let mut product = Vec::with_capacity(alloc, features as usize)?;
    let mut left = set;
    for feature in 0..features {
        let halves = sets.halves(left, feature);
        let chosen = if is_wished(number, feature) {
            !sets.is_none(halves.high)
        } else {
            sets.is_none(halves.low)
        };
        product.push(chosen)?;
        left = if chosen { halves.high } else { halves.low };
    }
    Ok(product)
}

// Lists of features, most of them products of the set.
fn candidates(
    alloc: Global,
    sets: &Sets,
    set: Set,
    count: u16,
) -> Result<Vec<Vec<bool>>, AllocError>
    requires { IsInside sets.now set }
    ensures { IfOk result (λ list. AllByRecursion (λ p. length p.items ≡ sets.now.features) list.items) }
{
    let mut list = Vec::new(alloc);
    for number in 0..count {
        let product = candidate(alloc, sets, set, number)?;
        list.push(product)?;
    }
    Ok(list)
}

// The products of the set, each once, if they are as few as candidates.
fn listed(alloc: Global, sets: &Sets, set: Set) -> Result<Vec<Vec<bool>>, AllocError>
    requires { IsInside sets.now set }
    ensures each { IfOk result (λ list. All
        (λ p. (length p.items ≡ sets.now.features) × (has sets.now set p.items ≡ true)) list.items) }
    ensures distinct { IfOk result (λ list. AreDistinct (lists_of list.items)) }
{
    match sets.products(alloc, set, SAMPLE as usize)? {
        Some(products) => Ok(products),
        None => Ok(Vec::new(alloc)),
    }
}

// Some products of the set, each once.
fn some_of(
    alloc: Global,
    sets: &mut Sets,
    set: Set,
    count: u16,
) -> Result<Vec<Vec<bool>>, SetsFault>
    requires { IsInside sets.old set }
    ensures each { IfOk result (λ list. All
        (λ p. (length p.items ≡ sets.old.features) × (has sets.old set p.items ≡ true)) list.items) }
    ensures distinct { IfOk result (λ list. AreDistinct (lists_of list.items)) }
{
    let list = candidates(alloc, sets, set, count)?;
    let drawn = sets.of_products(alloc, &list)?;
    let own = sets.and(drawn, set)?;
    let found = listed(alloc, sets, own)?;
    Ok(found)
}

// The products of a set, and at the end the first of all that are left, if it is one of them.
fn examples(
    alloc: Global,
    sets: &Sets,
    set: Set,
    first: &[bool],
) -> Result<Vec<Example>, AllocError>
    requires { IsInside sets.now set }
    ensures { IfOk result (λ found. (game : NamedGame) (diagram : NamedDiagram) (aim : Aim) (own : List Literal) →
        IsSetOfSome game diagram aim own sets.now set → length first.now ≡ sets.now.features →
        IsFirstLeft diagram own first.now → AreFound game diagram aim own found.items) }
{
    let mut found = Vec::new(alloc);
    let mut left = listed(alloc, sets, set)?;
    while let Some(features) = left.pop() {
        found.push(Example {
            features,
            first: false,
        })?;
    }
    if !sets.eval(set, first) {
        return Ok(found);
    }
    let features = Vec::from_slice(alloc, first)?;
    found.push(Example {
        features,
        first: true,
    })?;
    Ok(found)
}

// The products of a sample, by the winner at the vertex.
fn sample(
    alloc: Global,
    order: &Order,
    vertex: u32,
    part: &Reached,
    count: u16,
) -> Result<(Vec<Example>, Vec<Example>), SetsFault>
    requires { IsPartOf order.now vertex part.now.game part.now.vertex }
    ensures won { IfOk result (λ two. AreFound order.now.game order.now.diagram (Aim.Won Which.Hopeful vertex)
        (choices order.now.decisions) two.0.items) }
    ensures lost { IfOk result (λ two. AreFound order.now.game order.now.diagram (Aim.Won Which.Dual vertex)
        (choices order.now.decisions) two.1.items) }
{
    // Properties of every order, for the proof.
    let _order = order.game();
    let features = order.diagram().features() as u16;
    let mut sets = Sets::new(alloc, features, NODES)?;
    let left = remaining(alloc, &mut sets, order.diagram(), order.decisions())?;
    let first = match sets.first(alloc, left)? {
        Some(first) => first,
        None => return Ok((Vec::new(alloc), Vec::new(alloc))),
    };
    let products = some_of(alloc, &mut sets, left, count)?;
    let solved = by_list(alloc, &part.game, part.vertex, features, products)?;
    let two = match solved.division {
        Some(two) => two,
        None => return Ok((Vec::new(alloc), Vec::new(alloc))),
    };
    let won = examples(alloc, &solved.sets, two.won, &first)?;
    let lost = examples(alloc, &solved.sets, two.lost, &first)?;
    Ok((won, lost))
}

/// Returns some of the products that are left: those that Even wins from the vertex, and those that Odd does. The first
/// one of all stands last in its list. Both are empty if none is left, or a limit is met.
///
/// The part of the game that decides the vertex is solved for all of them at once. The only error is a lack of memory.
pub(crate) fn sampled(
    alloc: Global,
    order: &Order,
    vertex: u32,
    part: &Reached,
    count: u16,
) -> Result<(Vec<Example>, Vec<Example>), AllocError>
    requires { IsPartOf order.now vertex part.now.game part.now.vertex }
    ensures won { IfOk result (λ two. AreFound order.now.game order.now.diagram (Aim.Won Which.Hopeful vertex)
        (choices order.now.decisions) two.0.items) }
    ensures lost { IfOk result (λ two. AreFound order.now.game order.now.diagram (Aim.Won Which.Dual vertex)
        (choices order.now.decisions) two.1.items) }
{
    match sample(alloc, order, vertex, part, count) {
        Ok(found) => Ok(found),
        Err(SetsFault::Full) => Ok((Vec::new(alloc), Vec::new(alloc))),
        Err(SetsFault::Memory) => Err(AllocError),
    }
}

/// Returns some of the products that are left and meet the aim of this table at the vertex, as `sampled` does.
pub(crate) fn sampled_for(
    alloc: Global,
    order: &Order,
    which: Which,
    vertex: u32,
    part: &Reached,
    count: u16,
) -> Result<Vec<Example>, AllocError>
    requires { IsPartOf order.now vertex part.now.game part.now.vertex }
    ensures { IfOk result (λ found. AreFound order.now.game order.now.diagram (Aim.Won which vertex)
        (choices order.now.decisions) found.items) }
{
    let (won, lost) = sampled(alloc, order, vertex, part, count)?;
    match which {
        Which::Hopeful => Ok(won),
        Which::Dual => Ok(lost),
    }
}

/// Returns the last one of some products: the first of all that are left, if it is one of them.
pub(crate) fn last_of(found: Vec<Example>) -> Option<Example>
    ensures { (game : NamedGame) (diagram : NamedDiagram) (aim : Aim) (own : List Literal) →
        AreFound game diagram aim own found.items →
        IfSome result (λ e. IsFoundProduct game diagram aim own e.features.items e.first) }
{
    let mut left = found;
    left.pop()
}
