//! The verdicts of a vertex after one more decision, and who wins in some product that is left then.
ghost use Rattle.std.specs.Prelude.{◌≡◌, ◌≢◌, ◌<◌, ◌≤◌, ◌++◌, ◌∷◌, [], Contains, List, length, IfOk, IsTrue};
ghost use Rattle.std.specs.List.{list_any};
ghost use Rattle.vpg_diagram.specs.Clauses.{is_true_in};
ghost use Rattle.vpg_diagram.specs.FeatureDiagram.{feature_count};
ghost use Rattle.vpg_diagram.specs.DiagramText.{NamedDiagram};
ghost use Rattle.vpg_diagram.specs.declared.clause.Literal.{Literal};
ghost use Rattle.vpg_game.specs.Game.{NamedGame};
ghost use Rattle.vpg_why.specs.Explained.{choices};
ghost use Rattle.vpg_why.specs.Foreseen.{AreFindings, IsForeseen, IsSide, SomeMeets};
ghost use Rattle.vpg_why.specs.Found.{IsSought};
ghost use Rattle.vpg_why.specs.Offered.{IsShown};
ghost use Rattle.vpg_why.specs.Spared.{AreBothSpared, AreSpared};
ghost use Rattle.vpg_why.specs.Suffices.{IsAim, IsSettled};

use crate::asking::{conflict_shown, verdict_shown, with_one};
use crate::easing::eased;
use crate::forcing::seek_beside;
use crate::question::{Aim, Limits, Question, Shown};
use crate::searching::{Example, Found};
use crate::seeking::{has, is_small};
use crate::sparing::Spared;
use std::alloc::{AllocError, Global};
use vpg_diagram::Literal;
use vpg_measure::Order;
use vpg_sides::Which;

/// The findings of a line's searches for one aim.
#[derive(Drop)]
pub struct Findings {
    /// Products that are left and meet it.
    pub met: Vec<Example>,
    /// Literals that each product has that is left and meets it.
    pub forced: Vec<Literal>,
}

/// The outcome of one more decision for one table.
#[derive(Clone, Copy)]
pub struct Side {
    /// Whether the vertex would be hopeless, for the hopeful table, or sure, for the dual one.
    pub verdict: Shown,
    /// Whether a product would be left in which the verdict does not hold: Even wins from the vertex there, for the
    /// hopeful table, or Odd does, for the dual one.
    pub met: Shown,
}

/// The outcome of one more decision at a vertex.
#[derive(Clone, Copy)]
pub enum Foresight {
    /// It contradicts the others.
    Conflict,
    /// The side of the hopeful table, and that of the dual one.
    Sides { even: Side, odd: Side },
}

/// Returns the findings before any search.
pub fn no_findings(alloc: Global) -> Findings
    ensures { (game : NamedGame) (diagram : NamedDiagram) (aim : Aim) (own : List Literal) →
        AreFindings game diagram aim own result }
{
    Findings {
        met: Vec::new(alloc),
        forced: Vec::new(alloc),
    }
}

fn is_true_in(product: &[bool], literal: Literal) -> bool
    ensures { result ≡ is_true_in product.now literal }
{
    let value = has(product, literal.feature);
    if literal.value { value } else { !value }
}

// Whether one of the products has the literal.
pub(crate) fn one_has(products: &[Example], literal: Literal) -> bool
    ensures { result ≡ list_any (λ e. is_true_in e.features.items literal) products.now }
{
    products.iter().any(|e| is_true_in(&e.features, literal))
}

// The product that later ones are to be unlike.
fn first_met(alloc: Global, products: &[Example]) -> Result<Vec<bool>, AllocError> {
    match products.first() {
        Some(example) => Vec::from_slice(alloc, &example.features),
        None => Ok(Vec::new(alloc)),
    }
}

// A search for any product that is left after one more decision, and meets the aim.
fn seek_after(
    alloc: Global,
    order: &Order,
    aim: Aim,
    choice: Literal,
    findings: &Findings,
    limits: Limits,
    looks: &mut u64,
    trials: &mut u64,
) -> Result<Found, AllocError>
    requires aim { IsAim order.now.game aim }
    requires feature { choice.feature < feature_count order.now.diagram.lines }
    requires findings { AreFindings order.now.game order.now.diagram aim (choices order.now.decisions) findings.now }
    ensures found { IfOk result (IsSought order.now.game order.now.diagram aim
        (choices order.now.decisions ++ choice ∷ [])) }
    ensures settled { IfOk result (λ found.
        IsSettled order.now.game order.now.diagram limits (Question.Lost aim)
        (choices order.now.decisions ++ choice ∷ []) → found ≢ Found.Unsettled) }
    ensures looks { IfOk result (λ found. looks.new ≤ looks.old) }
    ensures left { IfOk result (λ found. trials.new ≤ trials.old) }
{
    let more = with_one(alloc, order.decisions(), choice.feature, choice.value)?;
    let is_small = is_small(alloc, order, &more, limits)?;
    let avoided = first_met(alloc, &findings.met)?;
    let found = seek_beside(
        alloc,
        order,
        eased(order, aim),
        choice.feature,
        choice.value,
        &findings.forced,
        &avoided,
        limits,
        looks,
        is_small,
        trials,
    )?;
    Ok(found)
}

// Whether the list has the literal.
fn is_among(literals: &[Literal], literal: Literal) -> bool
    ensures { IsTrue result → Contains literals.now literal }
{
    for l in literals {
        if l.feature == literal.feature && l.value == literal.value {
            return true;
        }
    }
    false
}

// The verdict of a table after one more decision: that of the page stays, and a choice that is spared does not make it.
fn verdict_after(
    alloc: Global,
    order: &Order,
    which: Which,
    vertex: u32,
    choice: Literal,
    spared: &[Literal],
    limits: Limits,
    looks: &mut u64,
) -> Result<Shown, AllocError>
    requires feature { choice.feature < feature_count order.now.diagram.lines }
    requires vertex { vertex < length order.now.game.vertices }
    requires spared { AreSpared order.now.game order.now.diagram which vertex (choices order.now.decisions) spared.now }
    ensures shown { IfOk result (IsShown limits.rounds order.now.game order.now.diagram vertex
        (choices order.now.decisions ++ choice ∷ []) which) }
    ensures looks { IfOk result (λ shown. looks.new ≤ looks.old) }
{
    if order.table(which).get(vertex) == order.shape(which).top() {
        return Ok(Shown::Yes);
    }
    if is_among(spared, choice) {
        return Ok(Shown::No);
    }
    let more = with_one(alloc, order.decisions(), choice.feature, choice.value)?;
    let shown = verdict_shown(alloc, order, which, vertex, &more, limits, looks)?;
    Ok(shown)
}

// A search for any product that is left after one more decision and in which the verdict does not hold: there is none
// if the decision makes it.
fn seek_by_verdict(
    alloc: Global,
    order: &Order,
    which: Which,
    vertex: u32,
    choice: Literal,
    verdict: Shown,
    findings: &Findings,
    limits: Limits,
    looks: &mut u64,
    trials: &mut u64,
) -> Result<Found, AllocError>
    requires feature { choice.feature < feature_count order.now.diagram.lines }
    requires vertex { vertex < length order.now.game.vertices }
    requires verdict { IsShown limits.rounds order.now.game order.now.diagram vertex
        (choices order.now.decisions ++ choice ∷ []) which verdict }
    requires findings { AreFindings order.now.game order.now.diagram (Aim.Won which vertex)
        (choices order.now.decisions) findings.now }
    ensures found { IfOk result (IsSought order.now.game order.now.diagram (Aim.Won which vertex)
        (choices order.now.decisions ++ choice ∷ [])) }
    ensures settled { IfOk result (λ found.
        IsSettled order.now.game order.now.diagram limits (Question.Lost (Aim.Won which vertex))
        (choices order.now.decisions ++ choice ∷ []) → found ≢ Found.Unsettled) }
    ensures looks { IfOk result (λ found. looks.new ≤ looks.old) }
    ensures left { IfOk result (λ found. trials.new ≤ trials.old) }
{
    // Properties of every order, for the proof.
    let _order = order.game();
    if let Shown::Yes = verdict {
        return Ok(Found::Nothing);
    }
    let aim = Aim::Won { which, vertex };
    let found = seek_after(alloc, order, aim, choice, findings, limits, looks, trials)?;
    Ok(found)
}

// Keeps what a search found after one more decision. Returns whether it found a product.
fn learn(choice: Literal, found: Found, findings: &mut Findings) -> Result<Shown, AllocError>
    ensures yes { IfOk result (λ shown. shown ≡ Shown.Yes → (game : NamedGame) (diagram : NamedDiagram) (aim : Aim)
        (own : List Literal) → IsSought game diagram aim (own ++ choice ∷ []) found →
        SomeMeets game diagram aim (own ++ choice ∷ [])) }
    ensures no { IfOk result (λ shown. shown ≡ Shown.No → found ≡ Found.Nothing) }
    ensures settled { IfOk result (λ shown. found ≢ Found.Unsettled → shown ≢ Shown.Unsettled) }
    ensures findings { IfOk result (λ shown. (game : NamedGame) (diagram : NamedDiagram) (aim : Aim)
        (own : List Literal) → choice.feature < feature_count diagram.lines →
        IsSought game diagram aim (own ++ choice ∷ []) found →
        AreFindings game diagram aim own findings.old → AreFindings game diagram aim own findings.new) }
{
    match found {
        Found::Product(example) => {
            findings.met.push(example)?;
            Ok(Shown::Yes)
        }
        Found::Nothing => {
            findings.forced.push(Literal {
                feature: choice.feature,
                value: !choice.value,
            })?;
            Ok(Shown::No)
        }
        Found::Unsettled => Ok(Shown::Unsettled),
    }
}

// The side of one table after one more decision, and what the searches found then.
fn side_after(
    alloc: Global,
    order: &Order,
    which: Which,
    vertex: u32,
    choice: Literal,
    spared: &[Literal],
    limits: Limits,
    looks: &mut u64,
    trials: &mut u64,
    findings: &mut Findings,
) -> Result<Side, AllocError>
    requires feature { choice.feature < feature_count order.now.diagram.lines }
    requires vertex { vertex < length order.now.game.vertices }
    requires spared { AreSpared order.now.game order.now.diagram which vertex (choices order.now.decisions) spared.now }
    requires findings { AreFindings order.now.game order.now.diagram (Aim.Won which vertex)
        (choices order.now.decisions) findings.old }
    ensures side { IfOk result (IsSide limits order.now.game order.now.diagram vertex
        (choices order.now.decisions ++ choice ∷ []) which) }
    ensures findings { IfOk result (λ side. AreFindings order.now.game order.now.diagram (Aim.Won which vertex)
        (choices order.now.decisions) findings.new) }
    ensures looks { IfOk result (λ side. looks.new ≤ looks.old) }
    ensures left { IfOk result (λ side. trials.new ≤ trials.old) }
{
    // Properties of every order, for the proof.
    let _order = order.game();
    if one_has(&findings.met, choice) {
        return Ok(Side {
            verdict: Shown::No,
            met: Shown::Yes,
        });
    }
    let verdict = verdict_after(alloc, order, which, vertex, choice, spared, limits, looks)?;
    let found = seek_by_verdict(
        alloc, order, which, vertex, choice, verdict, findings, limits, looks, trials,
    )?;
    let met = learn(choice, found, findings)?;
    Ok(Side { verdict, met })
}

/// Returns what one more decision, that the feature is in or out, would bring at the vertex, as one of several such
/// questions of a line. The findings are those of earlier ones: of products in which Even wins from the vertex, and of
/// those in which Odd does. One product answers for each of its literals, so few searches answer all. A choice that is
/// spared is not tried again.
///
/// Looks and trials are taken from those of the line. A search takes half at most of the trials that are left, unless
/// those of the limits suffice for each case of the features that are open then: it has these. The only error is a lack
/// of memory.
pub fn foresee(
    alloc: Global,
    order: &Order,
    choice: Literal,
    vertex: u32,
    spared: &Spared,
    limits: Limits,
    looks: &mut u64,
    trials: &mut u64,
    won: &mut Findings,
    lost: &mut Findings,
) -> Result<Foresight, AllocError>
    requires feature { choice.feature < feature_count order.now.diagram.lines }
    requires vertex { vertex < length order.now.game.vertices }
    requires spared { AreBothSpared order.now.game order.now.diagram vertex (choices order.now.decisions) spared.now }
    requires won { AreFindings order.now.game order.now.diagram (Aim.Won Which.Hopeful vertex)
        (choices order.now.decisions) won.old }
    requires lost { AreFindings order.now.game order.now.diagram (Aim.Won Which.Dual vertex)
        (choices order.now.decisions) lost.old }
    ensures foreseen { IfOk result (IsForeseen limits order.now.game order.now.diagram vertex
        (choices order.now.decisions ++ choice ∷ [])) }
    ensures won { IfOk result (λ foresight. AreFindings order.now.game order.now.diagram (Aim.Won Which.Hopeful vertex)
        (choices order.now.decisions) won.new) }
    ensures lost { IfOk result (λ foresight. AreFindings order.now.game order.now.diagram (Aim.Won Which.Dual vertex)
        (choices order.now.decisions) lost.new) }
    // No looks and no trials are added.
    ensures looks { IfOk result (λ foresight. looks.new ≤ looks.old) }
    ensures left { IfOk result (λ foresight. trials.new ≤ trials.old) }
{
    let decisions = order.decisions();
    match conflict_shown(alloc, order, choice.feature, choice.value, decisions)? {
        Shown::No => {}
        _ => return Ok(Foresight::Conflict),
    }
    let which = Which::Hopeful;
    let even = side_after(
        alloc,
        order,
        which,
        vertex,
        choice,
        &spared.possible,
        limits,
        looks,
        trials,
        won,
    )?;
    let which = Which::Dual;
    let odd = side_after(
        alloc,
        order,
        which,
        vertex,
        choice,
        &spared.unsure,
        limits,
        looks,
        trials,
        lost,
    )?;
    Ok(Foresight::Sides { even, odd })
}
