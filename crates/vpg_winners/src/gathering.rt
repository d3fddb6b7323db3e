//! Findings and needs, by the set of all products that meet an aim.
ghost use Rattle.std.specs.Prelude.{◌≡◌, ◌<◌, ◌++◌, ◌∷◌, [], Bool, List, true, false, not, length, slice_index_or};
ghost use Rattle.std.specs.Prelude.{IfOk, IfSome, IsNone, IsTrue, OnOk};
ghost use Rattle.std.specs.List.{list_any};
ghost use Rattle.vpg_diagram.specs.Clauses.{is_true_in};
ghost use Rattle.vpg_diagram.specs.DiagramText.{NamedDiagram};
ghost use Rattle.vpg_diagram.specs.FeatureDiagram.{feature_count};
ghost use Rattle.vpg_diagram.specs.declared.clause.Literal.{Literal};
ghost use Rattle.vpg_game.specs.Game.{NamedGame};
ghost use Rattle.vpg_partial.specs.KnownLaws.{IsRemaining};
ghost use Rattle.vpg_sets.specs.Sets.{has, IsGrown, IsInside};
ghost use Rattle.vpg_why.specs.Explained.{choices};
ghost use Rattle.vpg_why.specs.Foreseen.{AreFindings};
ghost use Rattle.vpg_why.specs.Found.{AllMeet, AreFoundNeeds, AreNeedsExact};
ghost use Rattle.vpg_why.specs.Products.{AreNeeds, Meets, NoneMeets};
ghost use Rattle.vpg_why.specs.Spared.{AreBothSpared};
ghost use Rattle.vpg_why.specs.Suffices.{IsAim, IsSettled, choice};
ghost use Rattle.vpg_why.specs.declared.question.Aim.{Aim};
ghost use Rattle.vpg_winners.specs.Finding.{IsSetOfMet};
ghost use Rattle.vpg_winners.specs.Gathering.{IsGathered};
ghost use Rattle.vpg_winners.specs.OpenParts.{IsPartOf};
ghost use Rattle.vpg_winners.specs.Sampled.{AreFound};

use crate::finding::{met_at, open_part, sets_at};
use crate::part::{OF_SEVERAL, on_part, order_on};
use crate::sampling::{SAMPLE, sampled, sampled_for};
use crate::two_sets::TwoSets;
use std::alloc::{AllocError, Global};
use vpg_diagram::Literal;
use vpg_guards::Tri;
use vpg_measure::Order;
use vpg_open::Reached;
use vpg_sets::{Set, Sets, SetsFault};
use vpg_sides::Which;
use vpg_why::{
    Aim, Demand, Example, Findings, Forced, Limits, Question, Spared, foresee, is_small,
    no_findings, none_spared,
};

/// Whether a product has a feature.
pub(crate) fn chosen(product: &[bool], feature: u16) -> bool
    ensures { result ≡ slice_index_or product.now feature false }
{
    match product.get(feature as usize) {
        Some(value) => *value,
        None => false,
    }
}

// Whether a literal is true in a product.
fn is_true_in(product: &[bool], literal: Literal) -> bool
    ensures { result ≡ is_true_in product.now literal }
{
    let value = chosen(product, literal.feature);
    if literal.value { value } else { !value }
}

// Whether one of the products has the literal.
fn one_has(products: &[Example], literal: Literal) -> bool
    ensures { result ≡ list_any (λ e. is_true_in e.features.items literal) products.now }
{
    products.iter().any(|e| is_true_in(&e.features, literal))
}

// Keeps a product that was found with a literal; or, if there is none, the opposite literal.
fn learn(
    literal: Literal,
    found: Option<Vec<bool>>,
    findings: &mut Findings,
) -> Result<(), AllocError>
    ensures met { OnOk result (IfSome found (λ features. findings.new.met.items ≡
        findings.old.met.items ++ record { features = features; first = false } ∷ [])) }
    ensures not_forced { OnOk result
        (IfSome found (λ features. findings.new.forced.items ≡ findings.old.forced.items)) }
    ensures not_met { OnOk result (IsNone found → findings.new.met.items ≡ findings.old.met.items) }
    ensures forced { OnOk result (IsNone found → findings.new.forced.items ≡
        findings.old.forced.items ++ choice literal.feature (not literal.value) ∷ []) }
{
    match found {
        Some(features) => findings.met.push(Example {
            features,
            first: false,
        })?,
        None => findings.forced.push(Literal {
            feature: literal.feature,
            value: !literal.value,
        })?,
    }
    Ok(())
}

// Looks for a product of the set with the literal: one of those that were gathered, or else the first. If there is
// none, each product has the opposite literal.
fn gather(
    alloc: Global,
    sets: &mut Sets,
    set: Set,
    literal: Literal,
    findings: &mut Findings,
) -> Result<(), SetsFault>
    requires set { IsInside sets.old set }
    requires below { literal.feature < sets.old.features }
    ensures grown { IsGrown sets.old sets.new }
    ensures findings { OnOk result ((game : NamedGame) (diagram : NamedDiagram) (aim : Aim) (own : List Literal) →
        IsSetOfMet game diagram aim own sets.old set → AreFindings game diagram aim own findings.old →
        AreFindings game diagram aim own findings.new) }
    ensures gathered { OnOk result ((game : NamedGame) (diagram : NamedDiagram) (aim : Aim) (own : List Literal) →
        IsSetOfMet game diagram aim own sets.old set → AreFindings game diagram aim own findings.old →
        IsGathered game diagram aim own literal findings.old.forced.items findings.new.forced.items) }
{
    if one_has(&findings.met, literal) {
        return Ok(());
    }
    let under = sets.under(set, &[literal])?;
    let found = sets.first(alloc, under)?;
    learn(literal, found, findings)?;
    Ok(())
}

// The findings that one product makes.
fn begun(alloc: Global, product: &[bool]) -> Result<Findings, AllocError>
    ensures findings { IfOk result (λ findings. (game : NamedGame) (diagram : NamedDiagram) (aim : Aim)
        (own : List Literal) → IsRemaining diagram.lines own product.now → Meets game aim product.now →
        AreFindings game diagram aim own findings) }
    ensures forced { IfOk result (λ findings. findings.forced.items ≡ []) }
{
    let features = Vec::from_slice(alloc, product)?;
    let mut met = Vec::new(alloc);
    met.push(Example {
        features,
        first: false,
    })?;
    Ok(Findings {
        met,
        forced: Vec::new(alloc),
    })
}

// The findings of a set that has this product: for each feature that is not known one that differs in it, or else the
// literal that each product has.
fn gather_all(
    alloc: Global,
    order: &Order,
    sets: &mut Sets,
    set: Set,
    product: &[bool],
) -> Result<Findings, SetsFault>
    requires set { IsInside sets.old set }
    requires features { feature_count order.now.diagram.lines ≡ sets.old.features }
    requires long { length product.now ≡ sets.old.features }
    requires member { has sets.old set product.now ≡ true }
    ensures grown { IsGrown sets.old sets.new }
    ensures findings { IfOk result (λ findings. (aim : Aim) →
        IsSetOfMet order.now.game order.now.diagram aim (choices order.now.decisions) sets.old set →
        AreFindings order.now.game order.now.diagram aim (choices order.now.decisions) findings) }
    ensures needs { IfOk result (λ findings. (aim : Aim) →
        IsSetOfMet order.now.game order.now.diagram aim (choices order.now.decisions) sets.old set →
        AreNeeds order.now.game order.now.diagram aim (choices order.now.decisions) findings.forced.items true) }
{
    let known = order.games().known();
    let features = order.diagram().features() as u16;
    let mut findings = begun(alloc, product)?;
    for feature in 0..features {
        let tri = known.value(feature);
        if let Tri::Unknown = tri {
            let value = !chosen(product, feature);
            gather(alloc, sets, set, Literal { feature, value }, &mut findings)?;
        }
    }
    Ok(findings)
}

// The findings of the empty set: literals that contradict one another.
fn contrary(alloc: Global, features: usize) -> Result<Findings, AllocError>
    ensures { IfOk result (λ findings. (game : NamedGame) (diagram : NamedDiagram) (aim : Aim) (own : List Literal) →
        features ≡ feature_count diagram.lines → NoneMeets game diagram aim own →
        AreFindings game diagram aim own findings) }
{
    if features == 0 {
        return Ok(no_findings(alloc));
    }
    let mut forced = Vec::new(alloc);
    forced.push(Literal {
        feature: 0,
        value: true,
    })?;
    forced.push(Literal {
        feature: 0,
        value: false,
    })?;
    Ok(Findings {
        met: Vec::new(alloc),
        forced,
    })
}

// The findings of a set.
fn findings_of(
    alloc: Global,
    order: &Order,
    sets: &mut Sets,
    set: Set,
) -> Result<Findings, SetsFault>
    requires set { IsInside sets.old set }
    requires features { feature_count order.now.diagram.lines ≡ sets.old.features }
    ensures grown { IsGrown sets.old sets.new }
    ensures findings { IfOk result (λ findings. (aim : Aim) →
        IsSetOfMet order.now.game order.now.diagram aim (choices order.now.decisions) sets.old set →
        AreFindings order.now.game order.now.diagram aim (choices order.now.decisions) findings) }
{
    match sets.first(alloc, set)? {
        Some(product) => {
            let found = gather_all(alloc, order, sets, set, &product)?;
            Ok(found)
        }
        None => {
            let found = contrary(alloc, order.diagram().features())?;
            Ok(found)
        }
    }
}

// The findings of two sets of one arena.
fn findings_of_both(
    alloc: Global,
    order: &Order,
    sets: &mut Sets,
    won: Set,
    lost: Set,
) -> Result<(Findings, Findings), SetsFault>
    requires won { IsInside sets.old won }
    requires lost { IsInside sets.old lost }
    requires features { feature_count order.now.diagram.lines ≡ sets.old.features }
    ensures won { IfOk result (λ two. (aim : Aim) →
        IsSetOfMet order.now.game order.now.diagram aim (choices order.now.decisions) sets.old won →
        AreFindings order.now.game order.now.diagram aim (choices order.now.decisions) two.0) }
    ensures lost { IfOk result (λ two. (aim : Aim) →
        IsSetOfMet order.now.game order.now.diagram aim (choices order.now.decisions) sets.old lost →
        AreFindings order.now.game order.now.diagram aim (choices order.now.decisions) two.1) }
{
    let one = findings_of(alloc, order, sets, won)?;
    let other = findings_of(alloc, order, sets, lost)?;
    Ok((one, other))
}

// The needs of a set.
fn needs_of(alloc: Global, order: &Order, sets: &mut Sets, set: Set) -> Result<Demand, SetsFault>
    requires set { IsInside sets.old set }
    requires features { feature_count order.now.diagram.lines ≡ sets.old.features }
    ensures needs { IfOk result (λ found. (aim : Aim) →
        IsSetOfMet order.now.game order.now.diagram aim (choices order.now.decisions) sets.old set →
        AreFoundNeeds order.now.game order.now.diagram aim (choices order.now.decisions) found) }
    ensures exact { IfOk result AreNeedsExact }
{
    let product = match sets.first(alloc, set)? {
        Some(product) => product,
        None => return Ok(Demand::Nothing),
    };
    let findings = gather_all(alloc, order, sets, set, &product)?;
    Ok(Demand::These(Forced {
        literals: findings.forced,
        exact: true,
    }))
}

// The needs by a set of all products that are won at the vertex; nothing if a limit is met.
fn needs_by_sets(
    alloc: Global,
    order: &Order,
    which: Which,
    vertex: u32,
    part: &Reached,
) -> Result<Option<Demand>, AllocError>
    requires { IsPartOf order.now vertex part.now.game part.now.vertex }
    ensures needs { IfOk result (λ found. IfSome found
        (AreFoundNeeds order.now.game order.now.diagram (Aim.Won which vertex) (choices order.now.decisions))) }
    ensures exact { IfOk result (λ found. IfSome found AreNeedsExact) }
{
    let mut met = match met_at(alloc, order, which, vertex, part)? {
        Some(met) => met,
        None => return Ok(None),
    };
    match needs_of(alloc, order, &mut met.sets, met.set) {
        Ok(found) => Ok(Some(found)),
        Err(SetsFault::Full) => Ok(None),
        Err(SetsFault::Memory) => Err(AllocError),
    }
}

// Whether a list of needs met no limit.
fn are_exact(found: &Demand) -> bool
    ensures { IsTrue result → AreNeedsExact found.now }
{
    match found {
        Demand::These(found) => found.exact,
        Demand::Nothing => true,
        Demand::Unsettled => false,
    }
}

// The needs by searches on the part. Returns nothing if searches on the whole game have to show more.
fn needs_on_part(
    alloc: Global,
    order: &Order,
    which: Which,
    vertex: u32,
    part: Reached,
    limits: Limits,
) -> Result<Option<Demand>, AllocError>
    requires { IsPartOf order.now vertex part.game part.vertex }
    ensures needs { IfOk result (λ found. IfSome found
        (AreFoundNeeds order.now.game order.now.diagram (Aim.Won which vertex) (choices order.now.decisions))) }
    ensures settled { IfOk result (λ found. IfSome found (λ found.
        IsSettled order.now.game order.now.diagram limits (Question.Lost (Aim.Won which vertex))
        (choices order.now.decisions) → AreNeedsExact found)) }
{
    // Properties of every order, for the proof.
    let _order = order.game();
    let part = match order_on(alloc, order, vertex, part)? {
        Some(part) => part,
        None => return Ok(None),
    };
    let aim = Aim::Won {
        which,
        vertex: part.vertex,
    };
    let own = on_part(alloc, &part.order, limits, OF_SEVERAL)?;
    let found = vpg_why::needs(alloc, &part.order, aim, own)?;
    if are_exact(&found) {
        return Ok(Some(found));
    }
    if is_small(alloc, order, order.decisions(), limits)? {
        return Ok(None);
    }
    Ok(Some(found))
}

// Whether one of the products has the feature, and one lacks it.
fn differ_in(products: &[Example], feature: u16) -> bool
    ensures has { IsTrue result →
        list_any (λ e. is_true_in e.features.items (choice feature true)) products.now ≡ true }
    ensures lacks { IsTrue result →
        list_any (λ e. is_true_in e.features.items (choice feature false)) products.now ≡ true }
{
    let with = Literal {
        feature,
        value: true,
    };
    let without = Literal {
        feature,
        value: false,
    };
    one_has(products, with) && one_has(products, without)
}

// Whether the products differ in each feature that is not known.
fn differ(order: &Order, products: &[Example]) -> bool
    ensures { IsTrue result → (aim : Aim) (p : List Bool) →
        IsRemaining order.now.diagram.lines (choices order.now.decisions) p → Meets order.now.game aim p →
        AllMeet order.now.game order.now.diagram aim (choices order.now.decisions) products.now →
        AreNeeds order.now.game order.now.diagram aim (choices order.now.decisions) [] true }
{
    let known = order.games().known();
    let features = order.diagram().features() as u16;
    for feature in 0..features {
        let value = known.value(feature);
        if let Tri::Unknown = value {
            if !differ_in(products, feature) {
                return false;
            }
        }
    }
    true
}

// That there are no needs, if products of a sample show it.
fn needs_by_sample(
    alloc: Global,
    order: &Order,
    which: Which,
    vertex: u32,
    part: &Reached,
) -> Result<Option<Demand>, AllocError>
    requires { IsPartOf order.now vertex part.now.game part.now.vertex }
    ensures needs { IfOk result (λ found. IfSome found
        (AreFoundNeeds order.now.game order.now.diagram (Aim.Won which vertex) (choices order.now.decisions))) }
    ensures exact { IfOk result (λ found. IfSome found AreNeedsExact) }
{
    // Properties of every order, for the proof.
    let _order = order.game();
    let found = sampled_for(alloc, order, which, vertex, part, SAMPLE)?;
    if found.is_empty() {
        return Ok(None);
    }
    if !differ(order, &found) {
        return Ok(None);
    }
    Ok(Some(Demand::These(Forced {
        literals: Vec::new(alloc),
        exact: true,
    })))
}

// The needs of the products that are won at the vertex. Returns nothing if the vertex is not open, or searches on the
// whole game have to show more.
fn needs_at(
    alloc: Global,
    order: &Order,
    which: Which,
    vertex: u32,
    limits: Limits,
) -> Result<Option<Demand>, AllocError>
    requires { vertex < length order.now.game.vertices }
    ensures needs { IfOk result (λ found. IfSome found
        (AreFoundNeeds order.now.game order.now.diagram (Aim.Won which vertex) (choices order.now.decisions))) }
    ensures settled { IfOk result (λ found. IfSome found (λ found.
        IsSettled order.now.game order.now.diagram limits (Question.Lost (Aim.Won which vertex))
        (choices order.now.decisions) → AreNeedsExact found)) }
{
    let part = match open_part(alloc, order, vertex)? {
        Some(part) => part,
        None => return Ok(None),
    };
    if let Some(found) = needs_by_sets(alloc, order, which, vertex, &part)? {
        return Ok(Some(found));
    }
    if let Some(found) = needs_by_sample(alloc, order, which, vertex, &part)? {
        return Ok(Some(found));
    }
    let found = needs_on_part(alloc, order, which, vertex, part, limits)?;
    Ok(found)
}

// The needs of the aim. Returns nothing for any product, if the vertex is not open, or if searches on the whole game
// have to show more.
fn needs_open(
    alloc: Global,
    order: &Order,
    aim: Aim,
    limits: Limits,
) -> Result<Option<Demand>, AllocError>
    requires { IsAim order.now.game aim }
    ensures needs { IfOk result (λ found. IfSome found
        (AreFoundNeeds order.now.game order.now.diagram aim (choices order.now.decisions))) }
    ensures settled { IfOk result (λ found. IfSome found (λ found.
        IsSettled order.now.game order.now.diagram limits (Question.Lost aim) (choices order.now.decisions) →
        AreNeedsExact found)) }
{
    match aim {
        Aim::Any => Ok(None),
        Aim::Won { which, vertex } => needs_at(alloc, order, which, vertex, limits),
    }
}

/// Returns the needs of the aim beyond what is known: features that each product that is left and meets it has, or
/// lacks. Returns nothing if there is no such product. With `Aim::Any` the call finds what the diagram forces though
/// propagation does not show it, and whether a product is left at all.
///
/// For a vertex that is open on the page the call solves the part of the game that decides it, for all products at
/// once. For each feature that is not known it takes a product of the set that differs from the first one there, if
/// there is one. If a limit is met it solves the part for a few products; where those that meet the aim differ in each
/// such feature, there are no needs. Otherwise it searches on that part. If the page's verdict decides, it searches as
/// `vpg_why::needs` does. The only error is a lack of memory.
pub fn needs(alloc: Global, order: &Order, aim: Aim, limits: Limits) -> Result<Demand, AllocError>
    requires { IsAim order.now.game aim }
    ensures needs { IfOk result
        (AreFoundNeeds order.now.game order.now.diagram aim (choices order.now.decisions)) }
    ensures settled { IfOk result (λ found.
        IsSettled order.now.game order.now.diagram limits (Question.Lost aim) (choices order.now.decisions) →
        AreNeedsExact found) }
{
    if let Some(found) = needs_open(alloc, order, aim, limits)? {
        return Ok(found);
    }
    let found = vpg_why::needs(alloc, order, aim, limits)?;
    Ok(found)
}

/// Returns findings for the questions of a line on one vertex: products that are left and in which Even wins from it,
/// for the hopeful table, or Odd does, for the dual one, and literals that each of these has.
///
/// For a vertex that is open on the page the call solves the part of the game that decides it, for all products at
/// once. Then for each feature that is not known there is a product with it and one without, or a literal. There are no
/// findings if a limit is met, or the page's verdict decides. The only error is a lack of memory.
pub fn findings(
    alloc: Global,
    order: &Order,
    which: Which,
    vertex: u32,
) -> Result<Findings, AllocError>
    requires { vertex < length order.now.game.vertices }
    ensures { IfOk result (AreFindings order.now.game order.now.diagram (Aim.Won which vertex)
        (choices order.now.decisions)) }
{
    let part = match open_part(alloc, order, vertex)? {
        Some(part) => part,
        None => return Ok(no_findings(alloc)),
    };
    let mut met = match met_at(alloc, order, which, vertex, &part)? {
        Some(met) => met,
        None => return Ok(no_findings(alloc)),
    };
    match findings_of(alloc, order, &mut met.sets, met.set) {
        Ok(found) => Ok(found),
        Err(SetsFault::Full) => Ok(no_findings(alloc)),
        Err(SetsFault::Memory) => Err(AllocError),
    }
}

// Adds the findings of both choices of a feature that is not known.
fn learn_open(
    alloc: Global,
    order: &Order,
    feature: u16,
    vertex: u32,
    spared: &Spared,
    limits: Limits,
    looks: &mut u64,
    trials: &mut u64,
    won: &mut Findings,
    lost: &mut Findings,
) -> Result<(), AllocError>
    requires feature { feature < feature_count order.now.diagram.lines }
    requires vertex { vertex < length order.now.game.vertices }
    requires spared { AreBothSpared order.now.game order.now.diagram vertex (choices order.now.decisions) spared.now }
    requires won { AreFindings order.now.game order.now.diagram (Aim.Won Which.Hopeful vertex)
        (choices order.now.decisions) won.old }
    requires lost { AreFindings order.now.game order.now.diagram (Aim.Won Which.Dual vertex)
        (choices order.now.decisions) lost.old }
    ensures won { OnOk result (AreFindings order.now.game order.now.diagram (Aim.Won Which.Hopeful vertex)
        (choices order.now.decisions) won.new) }
    ensures lost { OnOk result (AreFindings order.now.game order.now.diagram (Aim.Won Which.Dual vertex)
        (choices order.now.decisions) lost.new) }
{
    let value = true;
    let choice = Literal { feature, value };
    let _ = foresee(
        alloc, order, choice, vertex, spared, limits, looks, trials, won, lost,
    )?;
    let value = false;
    let choice = Literal { feature, value };
    let _ = foresee(
        alloc, order, choice, vertex, spared, limits, looks, trials, won, lost,
    )?;
    Ok(())
}

// The findings of both players by searches for each choice of a feature that is not known.
fn search_findings(
    alloc: Global,
    order: &Order,
    vertex: u32,
    begun: (Findings, Findings),
    limits: Limits,
    trials: &mut u64,
) -> Result<(Findings, Findings), AllocError>
    requires vertex { vertex < length order.now.game.vertices }
    requires won { AreFindings order.now.game order.now.diagram (Aim.Won Which.Hopeful vertex)
        (choices order.now.decisions) begun.0 }
    requires lost { AreFindings order.now.game order.now.diagram (Aim.Won Which.Dual vertex)
        (choices order.now.decisions) begun.1 }
    ensures won { IfOk result (λ two. AreFindings order.now.game order.now.diagram (Aim.Won Which.Hopeful vertex)
        (choices order.now.decisions) two.0) }
    ensures lost { IfOk result (λ two. AreFindings order.now.game order.now.diagram (Aim.Won Which.Dual vertex)
        (choices order.now.decisions) two.1) }
{
    let known = order.games().known();
    let features = order.diagram().features() as u16;
    let (mut won, mut lost) = begun;
    let mut looks = limits.budget;
    let spared = none_spared(alloc);
    for feature in 0..features {
        if *trials > 1 && known.value(feature) == Tri::Unknown {
            learn_open(
                alloc, order, feature, vertex, &spared, limits, &mut looks, trials, &mut won,
                &mut lost,
            )?;
        }
    }
    Ok((won, lost))
}

// The findings of both players by two sets of products; none if a limit is met.
fn findings_by_sets(
    alloc: Global,
    order: &Order,
    vertex: u32,
    two: TwoSets,
) -> Result<(Findings, Findings), AllocError>
    requires features { feature_count order.now.diagram.lines ≡ two.sets.features }
    requires won_inside { IsInside two.sets two.won }
    requires lost_inside { IsInside two.sets two.lost }
    requires won { IsSetOfMet order.now.game order.now.diagram (Aim.Won Which.Hopeful vertex)
        (choices order.now.decisions) two.sets two.won }
    requires lost { IsSetOfMet order.now.game order.now.diagram (Aim.Won Which.Dual vertex)
        (choices order.now.decisions) two.sets two.lost }
    ensures won { IfOk result (λ two. AreFindings order.now.game order.now.diagram (Aim.Won Which.Hopeful vertex)
        (choices order.now.decisions) two.0) }
    ensures lost { IfOk result (λ two. AreFindings order.now.game order.now.diagram (Aim.Won Which.Dual vertex)
        (choices order.now.decisions) two.1) }
{
    let TwoSets { sets, won, lost } = two;
    let mut sets = sets;
    match findings_of_both(alloc, order, &mut sets, won, lost) {
        Ok(found) => Ok(found),
        Err(SetsFault::Full) => Ok((no_findings(alloc), no_findings(alloc))),
        Err(SetsFault::Memory) => Err(AllocError),
    }
}

// The findings of both players by searches on the part.
fn findings_on_part(
    alloc: Global,
    order: &Order,
    vertex: u32,
    part: Reached,
    begun: (Findings, Findings),
    limits: Limits,
    trials: &mut u64,
) -> Result<(Findings, Findings), AllocError>
    requires part { IsPartOf order.now vertex part.game part.vertex }
    requires won { AreFindings order.now.game order.now.diagram (Aim.Won Which.Hopeful vertex)
        (choices order.now.decisions) begun.0 }
    requires lost { AreFindings order.now.game order.now.diagram (Aim.Won Which.Dual vertex)
        (choices order.now.decisions) begun.1 }
    ensures won { IfOk result (λ two. AreFindings order.now.game order.now.diagram (Aim.Won Which.Hopeful vertex)
        (choices order.now.decisions) two.0) }
    ensures lost { IfOk result (λ two. AreFindings order.now.game order.now.diagram (Aim.Won Which.Dual vertex)
        (choices order.now.decisions) two.1) }
{
    let part = match order_on(alloc, order, vertex, part)? {
        Some(part) => part,
        None => return Ok(begun),
    };
    let own = on_part(alloc, &part.order, limits, OF_SEVERAL)?;
    *trials = own.trials.min(*trials);
    let found = search_findings(alloc, &part.order, part.vertex, begun, limits, trials)?;
    Ok(found)
}

// The findings that some products make.
fn findings_by(alloc: Global, met: Vec<Example>) -> Findings
    ensures { (game : NamedGame) (diagram : NamedDiagram) (aim : Aim) (own : List Literal) →
        AreFound game diagram aim own met.items → AreFindings game diagram aim own result }
{
    Findings {
        met,
        forced: Vec::new(alloc),
    }
}

// The findings of both players by a sample.
fn sampled_findings(
    alloc: Global,
    order: &Order,
    vertex: u32,
    part: &Reached,
) -> Result<(Findings, Findings), AllocError>
    requires { IsPartOf order.now vertex part.now.game part.now.vertex }
    ensures won { IfOk result (λ two. AreFindings order.now.game order.now.diagram (Aim.Won Which.Hopeful vertex)
        (choices order.now.decisions) two.0) }
    ensures lost { IfOk result (λ two. AreFindings order.now.game order.now.diagram (Aim.Won Which.Dual vertex)
        (choices order.now.decisions) two.1) }
{
    let (won, lost) = sampled(alloc, order, vertex, part, SAMPLE)?;
    Ok((findings_by(alloc, won), findings_by(alloc, lost)))
}

// The findings of both players by the part that decides the vertex.
fn findings_at(
    alloc: Global,
    order: &Order,
    vertex: u32,
    part: Reached,
    limits: Limits,
    trials: &mut u64,
) -> Result<(Findings, Findings), AllocError>
    requires { IsPartOf order.now vertex part.game part.vertex }
    ensures won { IfOk result (λ two. AreFindings order.now.game order.now.diagram (Aim.Won Which.Hopeful vertex)
        (choices order.now.decisions) two.0) }
    ensures lost { IfOk result (λ two. AreFindings order.now.game order.now.diagram (Aim.Won Which.Dual vertex)
        (choices order.now.decisions) two.1) }
{
    if let Some(two) = sets_at(alloc, order, vertex, &part)? {
        let found = findings_by_sets(alloc, order, vertex, two)?;
        return Ok(found);
    }
    let begun = sampled_findings(alloc, order, vertex, &part)?;
    let found = findings_on_part(alloc, order, vertex, part, begun, limits, trials)?;
    Ok(found)
}

/// Returns the findings of both players, as `findings` does, and solves the game once: those of products in which Even
/// wins from the vertex, and those of products in which Odd does. If a limit of the sets is met, it solves the part of
/// the game that decides the vertex for a few products, and searches on it for what these do not show. Then only the
/// trials are left that this search leaves.
pub fn both_findings(
    alloc: Global,
    order: &Order,
    vertex: u32,
    limits: Limits,
    trials: &mut u64,
) -> Result<(Findings, Findings), AllocError>
    requires { vertex < length order.now.game.vertices }
    ensures won { IfOk result (λ two. AreFindings order.now.game order.now.diagram (Aim.Won Which.Hopeful vertex)
        (choices order.now.decisions) two.0) }
    ensures lost { IfOk result (λ two. AreFindings order.now.game order.now.diagram (Aim.Won Which.Dual vertex)
        (choices order.now.decisions) two.1) }
{
    match open_part(alloc, order, vertex)? {
        Some(part) => {
            let found = findings_at(alloc, order, vertex, part, limits, trials)?;
            Ok(found)
        }
        None => Ok((no_findings(alloc), no_findings(alloc))),
    }
}
