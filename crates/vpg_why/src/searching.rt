//! A search for a product that meets an aim.
ghost use Rattle.std.specs.Prelude.{◌≡◌, ◌≢◌, ◌<◌, ◌≤◌, ◌+◌, ◌++◌, ◌∷◌, [], List, ℕ, true, false, not, length, Bool};
ghost use Rattle.std.specs.Prelude.{slice_index_or, IfOk, IfSome, IsNone, IsSome, IsTrue};
ghost use Rattle.vpg_guards.specs.declared.tri.Tri.TheVariants.{Unknown};
ghost use Rattle.vpg_guards.specs.Known.{AreAllKnown};
ghost use Rattle.vpg_diagram.specs.DiagramText.{NamedDiagram};
ghost use Rattle.vpg_diagram.specs.declared.clause.Literal.{Literal};
ghost use Rattle.vpg_game.specs.Game.{NamedGame};
ghost use Rattle.vpg_measure.specs.Games.{ArePageGames};
ghost use Rattle.vpg_partial.specs.TableLaws.{AreChoicesOf, IsKnownTable};
ghost use Rattle.vpg_why.specs.Explained.{choices};
ghost use Rattle.vpg_why.specs.Found.{HasRoom, IsOutlook, IsOutlookExact, IsFound, IsFoundExact};
ghost use Rattle.vpg_why.specs.Products.{AgreeBelow, NoneMeets};
ghost use Rattle.vpg_why.specs.Eased.{IsEased};
ghost use Rattle.vpg_why.specs.Reasons.{either_of, HasMarks, IsHalf, IsHalfExact, IsHalfMarked, IsReason, IsReasoned, IsReasonedExact, IsTaken};
ghost use Rattle.vpg_why.specs.Suffices.{choice, IsAim, IsBarred, MayMeet, AimSettles, AimSettlesUnder, AreOpenUpTo, SettlesUnder, IsSettled, most_trials};

use crate::asking::{closed, games_with, is_top_within, with_one};
use crate::easing::{eased, eased_under};
use crate::features::search_features;
use crate::grounds::{grounds, kept_by};
use crate::question::{Aim, Limits, Question, Shown};
use crate::seeking::{has, is_small, large_limits};
use std::alloc::{AllocError, Global};
use vpg_guards::Tri;
use vpg_measure::{Order, PageGames};
use vpg_partial::{Decision, Partial};
use vpg_sides::Which;

/// The outlook of some decisions on an aim.
#[derive(Drop)]
pub enum Outlook {
    /// No product that is left meets it.
    Lost,
    /// They leave only this product, and it meets the aim.
    Met(Vec<bool>),
    /// The feature is the first that is not known.
    Open { feature: u16 },
    /// Everything is known, and a limit was met.
    Unsettled,
}

/// A product that is left and meets an aim.
#[derive(Drop)]
pub struct Example {
    /// For each feature whether the product has it.
    pub features: Vec<bool>,
    /// Whether it was shown to be the first: of the products that are left and meet the aim, none comes before it. In
    /// this order, that of the features, a product with a feature comes before one without.
    pub first: bool,
}

/// The result of a search.
#[derive(Drop)]
pub enum Found {
    /// A product that is left and meets the aim.
    Product(Example),
    /// There is none.
    Nothing,
    /// A limit was met.
    Unsettled,
}

// The first feature that is not known.
fn open_feature(known: &Partial, features: u16) -> Option<u16>
    requires { length known.now ≡ features }
    ensures within { IfSome result (λ f. f < features) }
    ensures open { IfSome result (λ f. slice_index_or known.now f Unknown ≡ Unknown) }
    ensures below { IfSome result (λ f. (g : ℕ) → g < f → slice_index_or known.now g Unknown ≡ Unknown → ⊥) }
    ensures none { IsNone result → AreAllKnown features known.now }
{
    for f in 0..features {
        if known.value(f) == Tri::Unknown {
            return Some(f);
        }
    }
    None
}

// The outlook of the decisions on an aim, if it was shown under what they make known whether the verdict bars the aim.
fn outlook_under(
    alloc: Global,
    order: &Order,
    aim: Aim,
    decisions: &[Decision],
    known: &Partial,
    shown: Shown,
) -> Result<Outlook, AllocError>
    requires named { AreChoicesOf order.now.diagram.lines (choices decisions.now) }
    requires known { IsKnownTable order.now.diagram.lines (choices decisions.now) known.now }
    requires aim { IsAim order.now.game aim }
    requires yes { shown ≡ Shown.Yes → IsBarred order.now.game aim known.now }
    requires no { shown ≡ Shown.No → MayMeet order.now.game aim known.now }
    ensures outlook { IfOk result (IsOutlook order.now.game order.now.diagram aim (choices decisions.now)) }
    ensures settled { IfOk result (λ outlook. shown ≢ Shown.Unsettled → IsOutlookExact outlook) }
{
    let features = order.diagram().features() as u16;
    if let Shown::Yes = shown {
        return Ok(Outlook::Lost);
    }
    if let Some(feature) = open_feature(known, features) {
        return Ok(Outlook::Open { feature });
    }
    if let Shown::No = shown {
        if let Some(product) = known.product(alloc)? {
            return Ok(Outlook::Met(product));
        }
    }
    Ok(Outlook::Unsettled)
}

// The outlook for any product: only the features are looked at.
fn look_at_features(
    alloc: Global,
    order: &Order,
    decisions: &[Decision],
) -> Result<Outlook, AllocError>
    requires { AreChoicesOf order.now.diagram.lines (choices decisions.now) }
    ensures outlook { IfOk result (IsOutlook order.now.game order.now.diagram Aim.Any (choices decisions.now)) }
    ensures exact { IfOk result IsOutlookExact }
{
    // Properties of every order, for the proof.
    let _order = order.game();
    match closed(alloc, order, decisions)? {
        Some(known) => {
            let found = outlook_under(alloc, order, Aim::Any, decisions, &known, Shown::No)?;
            Ok(found)
        }
        None => Ok(Outlook::Lost),
    }
}

/// Returns the outlook of some decisions on a product that is won, under their games. For the hopeful table it is one
/// in which Even wins from the vertex, for the dual one a product in which Odd does.
pub fn look_at_games(
    alloc: Global,
    order: &Order,
    games: &PageGames,
    which: Which,
    vertex: u32,
    decisions: &[Decision],
    limits: Limits,
    looks: &mut u64,
) -> Result<Outlook, AllocError>
    requires games { ArePageGames order.now.game order.now.diagram (choices decisions.now) games.now }
    requires named { AreChoicesOf order.now.diagram.lines (choices decisions.now) }
    requires vertex { vertex < length order.now.game.vertices }
    ensures outlook { IfOk result
        (IsOutlook order.now.game order.now.diagram (Aim.Won which vertex) (choices decisions.now)) }
    ensures settled { IfOk result
        (λ outlook. SettlesUnder limits.rounds order.now.game order.now.diagram which (choices decisions.now) →
        IsOutlookExact outlook) }
    ensures looks { IfOk result (λ outlook. looks.new ≤ looks.old) }
{
    // Properties of every order, for the proof.
    let _order = order.game();
    let shown = is_top_within(alloc, order, games, which, vertex, limits, looks)?;
    let aim = Aim::Won { which, vertex };
    let found = outlook_under(alloc, order, aim, decisions, games.known(), shown)?;
    Ok(found)
}

// The outlook for a product that is won.
fn look_at_game(
    alloc: Global,
    order: &Order,
    which: Which,
    vertex: u32,
    decisions: &[Decision],
    limits: Limits,
    looks: &mut u64,
) -> Result<Outlook, AllocError>
    requires named { AreChoicesOf order.now.diagram.lines (choices decisions.now) }
    requires vertex { vertex < length order.now.game.vertices }
    ensures outlook { IfOk result
        (IsOutlook order.now.game order.now.diagram (Aim.Won which vertex) (choices decisions.now)) }
    ensures settled { IfOk result
        (λ outlook. SettlesUnder limits.rounds order.now.game order.now.diagram which (choices decisions.now) →
        IsOutlookExact outlook) }
    ensures looks { IfOk result (λ outlook. looks.new ≤ looks.old) }
{
    // Properties of every order, for the proof.
    let _order = order.game();
    match games_with(alloc, order, decisions)? {
        Some(games) => look_at_games(
            alloc, order, &games, which, vertex, decisions, limits, looks,
        ),
        None => Ok(Outlook::Lost),
    }
}

pub(crate) fn look(
    alloc: Global,
    order: &Order,
    aim: Aim,
    decisions: &[Decision],
    limits: Limits,
    looks: &mut u64,
) -> Result<Outlook, AllocError>
    requires named { AreChoicesOf order.now.diagram.lines (choices decisions.now) }
    requires aim { IsAim order.now.game aim }
    ensures outlook { IfOk result (IsOutlook order.now.game order.now.diagram aim (choices decisions.now)) }
    ensures settled { IfOk result
        (λ outlook. AimSettlesUnder limits.rounds order.now.game order.now.diagram aim (choices decisions.now) →
        IsOutlookExact outlook) }
    ensures looks { IfOk result (λ outlook. looks.new ≤ looks.old) }
{
    match aim {
        Aim::Any => look_at_features(alloc, order, decisions),
        Aim::Won { which, vertex } => look_at_game(
            alloc, order, which, vertex, decisions, limits, looks,
        ),
    }
}

/// The outlook of some decisions on an aim, and the aim of a search beyond them.
#[derive(Drop)]
pub(crate) struct Scouted {
    pub(crate) outlook: Outlook,
    /// Any product, if it was shown that each one that is left meets the aim.
    pub(crate) aim: Aim,
}

// The aim beyond an outlook: where nothing is left to split, that of before.
fn aim_beyond(
    alloc: Global,
    order: &Order,
    games: &PageGames,
    which: Which,
    vertex: u32,
    decisions: &[Decision],
    limits: Limits,
    looks: &mut u64,
    outlook: &Outlook,
) -> Result<Aim, AllocError>
    requires games { ArePageGames order.now.game order.now.diagram (choices decisions.now) games.now }
    requires named { AreChoicesOf order.now.diagram.lines (choices decisions.now) }
    requires vertex { vertex < length order.now.game.vertices }
    ensures eased { IfOk result
        (IsEased order.now.game order.now.diagram (choices decisions.now) (Aim.Won which vertex)) }
    ensures looks { IfOk result (λ aim. looks.new ≤ looks.old) }
{
    match outlook {
        Outlook::Open { .. } => eased_under(
            alloc, order, games, which, vertex, decisions, limits, looks,
        ),
        _ => Ok(Aim::Won { which, vertex }),
    }
}

// The outlook under the games of the decisions for a product that is won, and the aim beyond.
fn scout_games(
    alloc: Global,
    order: &Order,
    games: &PageGames,
    which: Which,
    vertex: u32,
    decisions: &[Decision],
    limits: Limits,
    looks: &mut u64,
) -> Result<Scouted, AllocError>
    requires games { ArePageGames order.now.game order.now.diagram (choices decisions.now) games.now }
    requires named { AreChoicesOf order.now.diagram.lines (choices decisions.now) }
    requires vertex { vertex < length order.now.game.vertices }
    ensures outlook { IfOk result (λ seen.
        IsOutlook order.now.game order.now.diagram (Aim.Won which vertex) (choices decisions.now) seen.outlook) }
    ensures settled { IfOk result
        (λ seen. SettlesUnder limits.rounds order.now.game order.now.diagram which (choices decisions.now) →
        IsOutlookExact seen.outlook) }
    ensures eased { IfOk result (λ seen.
        IsEased order.now.game order.now.diagram (choices decisions.now) (Aim.Won which vertex) seen.aim) }
    ensures looks { IfOk result (λ seen. looks.new ≤ looks.old) }
{
    let outlook = look_at_games(alloc, order, games, which, vertex, decisions, limits, looks)?;
    let aim = aim_beyond(
        alloc, order, games, which, vertex, decisions, limits, looks, &outlook,
    )?;
    Ok(Scouted { outlook, aim })
}

// The outlook for a product that is won, and the aim beyond.
fn scout_game(
    alloc: Global,
    order: &Order,
    which: Which,
    vertex: u32,
    decisions: &[Decision],
    limits: Limits,
    looks: &mut u64,
) -> Result<Scouted, AllocError>
    requires named { AreChoicesOf order.now.diagram.lines (choices decisions.now) }
    requires vertex { vertex < length order.now.game.vertices }
    ensures outlook { IfOk result (λ seen.
        IsOutlook order.now.game order.now.diagram (Aim.Won which vertex) (choices decisions.now) seen.outlook) }
    ensures settled { IfOk result
        (λ seen. SettlesUnder limits.rounds order.now.game order.now.diagram which (choices decisions.now) →
        IsOutlookExact seen.outlook) }
    ensures eased { IfOk result (λ seen.
        IsEased order.now.game order.now.diagram (choices decisions.now) (Aim.Won which vertex) seen.aim) }
    ensures looks { IfOk result (λ seen. looks.new ≤ looks.old) }
{
    // Properties of every order, for the proof.
    let _order = order.game();
    match games_with(alloc, order, decisions)? {
        Some(games) => scout_games(
            alloc, order, &games, which, vertex, decisions, limits, looks,
        ),
        None => Ok(Scouted {
            outlook: Outlook::Lost,
            aim: Aim::Won { which, vertex },
        }),
    }
}

fn scout(
    alloc: Global,
    order: &Order,
    aim: Aim,
    decisions: &[Decision],
    limits: Limits,
    looks: &mut u64,
) -> Result<Scouted, AllocError>
    requires named { AreChoicesOf order.now.diagram.lines (choices decisions.now) }
    requires aim { IsAim order.now.game aim }
    ensures outlook { IfOk result (λ seen.
        IsOutlook order.now.game order.now.diagram aim (choices decisions.now) seen.outlook) }
    ensures settled { IfOk result
        (λ seen. AimSettlesUnder limits.rounds order.now.game order.now.diagram aim (choices decisions.now) →
        IsOutlookExact seen.outlook) }
    ensures eased { IfOk result (λ seen.
        IsEased order.now.game order.now.diagram (choices decisions.now) aim seen.aim) }
    ensures looks { IfOk result (λ seen. looks.new ≤ looks.old) }
{
    match aim {
        Aim::Any => {
            let outlook = look_at_features(alloc, order, decisions)?;
            Ok(Scouted { outlook, aim })
        }
        Aim::Won { which, vertex } => scout_game(
            alloc, order, which, vertex, decisions, limits, looks,
        ),
    }
}

/// The result of a search, with a reason if it is nothing.
#[derive(Drop)]
pub enum Reasoned {
    /// A product that is left and meets the aim.
    Product(Example),
    /// There is none: for each decision, whether it is one of those that alone leave none.
    Nothing(Vec<bool>),
    /// A limit was met.
    Unsettled,
}

/// Marks, and the last one apart.
#[derive(Drop)]
pub(crate) struct Front {
    pub(crate) marks: Vec<bool>,
    pub(crate) last: bool,
}

// The marks without the last one.
fn without_last(marks: Vec<bool>) -> Front
    requires { 0 < length marks.items }
    ensures { marks.items ≡ result.marks.items ++ result.last ∷ [] }
{
    let mut front = marks;
    match front.pop() {
        Some(last) => Front { marks: front, last },
        None => unreachable!(),
    }
}

// The marks of either list.
fn either(alloc: Global, one: &[bool], other: &[bool]) -> Result<Vec<bool>, AllocError>
    requires { length one.now ≡ length other.now }
    ensures { IfOk result (λ marks. marks.items ≡ either_of one.now other.now) }
{
    let mut marks = Vec::new(alloc);
    for i in 0..one.len() {
        marks.push(one[i] | other[i])?;
    }
    Ok(marks)
}

/// The first half of a split: the result of the whole, or a reason to go on with the other half.
#[derive(Drop)]
pub(crate) enum Half {
    /// It is the result.
    Ends(Reasoned),
    /// The second half is searched too. The first one has a reason, which names the feature, or met a limit.
    GoesOn(Option<Vec<bool>>),
}

// What the first half of a split on this value says. Its result has a last mark for the feature.
pub(crate) fn first_half(count: usize, value: bool, one: Reasoned) -> Half
    requires { HasMarks one (count + 1) }
    ensures found { (game : NamedGame) (diagram : NamedDiagram) (aim : Aim) (chosen : List Literal) (f : ℕ) →
        AgreeBelow diagram chosen f → IsReasoned game diagram aim (chosen ++ choice f value ∷ []) one →
        IsHalf game diagram aim chosen f value result }
    ensures marks { IsHalfMarked count result }
    ensures exact { (avoided : List Bool) → (avoided ≡ [] → value ≡ true) → IsReasonedExact avoided one →
        IsHalfExact avoided result }
{
    match one {
        Reasoned::Product(found) => Half::Ends(Reasoned::Product(Example {
            features: found.features,
            first: found.first & value,
        })),
        Reasoned::Nothing(marks) => {
            let front = without_last(marks);
            if front.last {
                Half::GoesOn(Some(front.marks))
            } else {
                Half::Ends(Reasoned::Nothing(front.marks))
            }
        }
        Reasoned::Unsettled => Half::GoesOn(None),
    }
}

// The result of both halves of a split, on this value first. The first half has a reason, which names the feature, or
// met a limit. The result of the second has a last mark for the feature.
pub(crate) fn both(
    alloc: Global,
    count: usize,
    value: bool,
    one: Option<Vec<bool>>,
    other: Reasoned,
) -> Result<Reasoned, AllocError>
    requires first { IfSome one (λ marks. length marks.items ≡ count) }
    requires second { HasMarks other (count + 1) }
    ensures found { (game : NamedGame) (diagram : NamedDiagram) (aim : Aim) (chosen : List Literal) (f : ℕ) →
        IfSome one (λ marks. IsReason game diagram aim chosen (choice f value ∷ []) marks.items) →
        IsReasoned game diagram aim (chosen ++ choice f (not value) ∷ []) other →
        IfOk result (IsReasoned game diagram aim chosen) }
    ensures exact { (avoided : List Bool) → (avoided ≡ [] → value ≡ true) → IsSome one →
        IsReasonedExact avoided other → IfOk result (IsReasonedExact avoided) }
{
    match other {
        Reasoned::Product(found) => match one {
            Some(_) => Ok(Reasoned::Product(Example {
                features: found.features,
                first: found.first & value,
            })),
            None => Ok(Reasoned::Product(Example {
                features: found.features,
                first: false,
            })),
        },
        Reasoned::Nothing(marks) => {
            let front = without_last(marks);
            if !front.last {
                return Ok(Reasoned::Nothing(front.marks));
            }
            match one {
                Some(first) => {
                    let marks = either(alloc, &first, &front.marks)?;
                    Ok(Reasoned::Nothing(marks))
                }
                None => Ok(Reasoned::Unsettled),
            }
        }
        Reasoned::Unsettled => Ok(Reasoned::Unsettled),
    }
}

// Some of the decisions that leave nothing, which do so alone: the guess, if it holds, or otherwise all of them. The
// first ones, which a search begins with, are always among them.
pub(crate) fn reason(
    alloc: Global,
    order: &Order,
    aim: Aim,
    decisions: &[Decision],
    begun: usize,
    limits: Limits,
    looks: &mut u64,
) -> Result<Vec<bool>, AllocError>
    requires named { AreChoicesOf order.now.diagram.lines (choices decisions.now) }
    requires aim { IsAim order.now.game aim }
    requires lost { NoneMeets order.now.game order.now.diagram aim (choices decisions.now) }
    ensures reason { IfOk result (λ marks.
        IsReason order.now.game order.now.diagram aim (choices decisions.now) [] marks.items) }
    ensures looks { IfOk result (λ marks. looks.new ≤ looks.old) }
{
    if decisions.len() > begun {
        let marks = grounds(alloc, order, aim, decisions, begun, limits, looks)?;
        let kept = kept_by(alloc, decisions, &marks)?;
        if let Outlook::Lost = look(alloc, order, aim, &kept, limits, looks)? {
            return Ok(marks);
        }
    }
    let all = vec![in alloc; true; decisions.len()]?;
    Ok(all)
}

// The trials that a first half leaves to the second one, so that a product there is found though the first half takes
// all that it may.
pub(crate) fn reserve(trials: u64) -> u64
    ensures { result + result ≤ trials }
{
    trials / 64
}

/// The search of `search`, with a reason if there is nothing. If the reason of a split's first half does not name the
/// feature, the second half is left out: no product in it meets the aim either. Where each product that is left meets
/// the aim, it goes on for any, by features alone.
///
/// It tries first for each feature the value that a product to be avoided does not have; with no such product, that it
/// is in. The first `begun` decisions are those that the search began with.
pub(crate) fn search_with_reasons(
    alloc: Global,
    order: &Order,
    aim: Aim,
    decisions: &[Decision],
    avoided: &[bool],
    begun: usize,
    limits: Limits,
    looks: &mut u64,
    is_small: bool,
    depth: u32,
    trials: &mut u64,
) -> Result<Reasoned, AllocError>
    requires named { AreChoicesOf order.now.diagram.lines (choices decisions.now) }
    requires aim { IsAim order.now.game aim }
    ensures found { IfOk result (IsReasoned order.now.game order.now.diagram aim (choices decisions.now)) }
    ensures taken { IfOk result (IsTaken trials.old trials.new) }
    ensures spent { IfOk result (λ found. trials.old ≤ trials.new + most_trials depth) }
    ensures fewer { IfOk result (λ found. (most : ℕ) →
        AreOpenUpTo most order.now.diagram.lines (choices decisions.now) →
        trials.old ≤ trials.new + most_trials (most + 1)) }
    ensures settled { IfOk result
        (λ found. IsTrue is_small → HasRoom order.now.diagram (choices decisions.now) depth trials.old →
        AimSettles limits.rounds order.now.game order.now.diagram aim (choices decisions.now) →
        IsReasonedExact avoided.now found) }
    ensures looks { IfOk result (λ found. looks.new ≤ looks.old) }
{
    if let Aim::Any = aim {
        let sought = search_features(
            alloc, order, decisions, avoided, begun, limits, looks, depth, trials,
        )?;
        return Ok(sought);
    }
    if !is_small && *looks == 0 {
        return Ok(Reasoned::Unsettled);
    }
    if depth == 0 || *trials == 0 {
        return Ok(Reasoned::Unsettled);
    }
    *trials -= 1;
    let seen = scout(alloc, order, aim, decisions, limits, looks)?;
    let outlook = seen.outlook;
    let feature = match outlook {
        Outlook::Lost => {
            let marks = reason(alloc, order, aim, decisions, begun, limits, looks)?;
            return Ok(Reasoned::Nothing(marks));
        }
        Outlook::Met(features) => {
            return Ok(Reasoned::Product(Example {
                features,
                first: true,
            }));
        }
        Outlook::Open { feature } => feature,
        Outlook::Unsettled => return Ok(Reasoned::Unsettled),
    };
    let aim = seen.aim;
    let value = !has(avoided, feature);
    let kept = reserve(*trials);
    *trials -= kept;
    let more = with_one(alloc, decisions, feature, value)?;
    let less = depth - 1;
    let one = search_with_reasons(
        alloc, order, aim, &more, avoided, begun, limits, looks, is_small, less, trials,
    )?;
    *trials += kept;
    let reason = match first_half(decisions.len(), value, one) {
        Half::Ends(found) => return Ok(found),
        Half::GoesOn(reason) => reason,
    };
    let more = with_one(alloc, decisions, feature, !value)?;
    let other = search_with_reasons(
        alloc, order, aim, &more, avoided, begun, limits, looks, is_small, less, trials,
    )?;
    let found = both(alloc, decisions.len(), value, reason, other)?;
    Ok(found)
}

/// Searches as `find` does, among the products that agree with the decisions. Splits nest at most this deep, and each
/// look takes one of the trials. If these are used up, the search gives up. So it does if the looks for certified
/// bounds are, unless it is to go on, with rounds of lifts alone, as in a small family.
pub fn search(
    alloc: Global,
    order: &Order,
    aim: Aim,
    decisions: &[Decision],
    limits: Limits,
    looks: &mut u64,
    is_small: bool,
    depth: u32,
    trials: &mut u64,
) -> Result<Found, AllocError>
    requires named { AreChoicesOf order.now.diagram.lines (choices decisions.now) }
    requires aim { IsAim order.now.game aim }
    ensures found { IfOk result (IsFound order.now.game order.now.diagram aim (choices decisions.now)) }
    // An answer that met no limit took a trial.
    ensures taken { IfOk result (λ found. found ≢ Found.Unsettled → trials.new < trials.old) }
    ensures left { IfOk result (λ found. trials.new ≤ trials.old) }
    ensures spent { IfOk result (λ found. trials.old ≤ trials.new + most_trials depth) }
    ensures fewer { IfOk result (λ found. (most : ℕ) →
        AreOpenUpTo most order.now.diagram.lines (choices decisions.now) →
        trials.old ≤ trials.new + most_trials (most + 1)) }
    ensures settled { IfOk result
        (λ found. IsTrue is_small → HasRoom order.now.diagram (choices decisions.now) depth trials.old →
        AimSettles limits.rounds order.now.game order.now.diagram aim (choices decisions.now) → IsFoundExact found) }
    ensures looks { IfOk result (λ found. looks.new ≤ looks.old) }
{
    let begun = decisions.len();
    match search_with_reasons(
        alloc,
        order,
        aim,
        decisions,
        &[],
        begun,
        limits,
        looks,
        is_small,
        depth,
        trials,
    )? {
        Reasoned::Product(example) => Ok(Found::Product(example)),
        Reasoned::Nothing(_) => Ok(Found::Nothing),
        Reasoned::Unsettled => Ok(Found::Unsettled),
    }
}

// Searches as `search` does, as deep as it may go, with these trials.
fn search_for(
    alloc: Global,
    order: &Order,
    aim: Aim,
    decisions: &[Decision],
    limits: Limits,
    looks: &mut u64,
    is_small: bool,
    trials: &mut u64,
) -> Result<Found, AllocError>
    requires named { AreChoicesOf order.now.diagram.lines (choices decisions.now) }
    requires aim { IsAim order.now.game aim }
    ensures found { IfOk result (IsFound order.now.game order.now.diagram aim (choices decisions.now)) }
    ensures settled { IfOk result (λ found. IsTrue is_small → limits.trials ≤ trials.old →
        IsSettled order.now.game order.now.diagram limits (Question.Lost aim) (choices decisions.now) →
        IsFoundExact found) }
    ensures looks { IfOk result (λ found. looks.new ≤ looks.old) }
    ensures left { IfOk result (λ found. trials.new ≤ trials.old) }
{
    let depth = order.diagram().features() as u32 + 1;
    let found = search(
        alloc, order, aim, decisions, limits, looks, is_small, depth, trials,
    )?;
    Ok(found)
}

/// Searches as `find` does, among the products that agree with the decisions in place of the order's own. Looks and
/// trials are taken from those that are lent, and the search ends where one of them does. But where the trials of the
/// limits suffice for each case of the open features, it has these, and goes on by rounds of lifts.
pub fn search_all(
    alloc: Global,
    order: &Order,
    aim: Aim,
    decisions: &[Decision],
    limits: Limits,
    looks: &mut u64,
    trials: &mut u64,
) -> Result<Found, AllocError>
    requires named { AreChoicesOf order.now.diagram.lines (choices decisions.now) }
    requires aim { IsAim order.now.game aim }
    ensures found { IfOk result (IsFound order.now.game order.now.diagram aim (choices decisions.now)) }
    ensures settled { IfOk result
        (λ found. IsSettled order.now.game order.now.diagram limits (Question.Lost aim) (choices decisions.now) →
        IsFoundExact found) }
    // No looks and no trials are added.
    ensures looks { IfOk result (λ found. looks.new ≤ looks.old) }
    ensures left { IfOk result (λ found. trials.new ≤ trials.old) }
{
    let is_small = is_small(alloc, order, decisions, limits)?;
    if is_small {
        let mut own = limits.trials;
        let found = search_for(alloc, order, aim, decisions, limits, looks, true, &mut own)?;
        return Ok(found);
    }
    let large = large_limits(order, limits, *looks);
    let found = search_for(alloc, order, aim, decisions, large, looks, false, trials)?;
    Ok(found)
}

/// Searches as `find` does, with the looks and the trials that a line has left.
pub(crate) fn find_within(
    alloc: Global,
    order: &Order,
    aim: Aim,
    limits: Limits,
    looks: &mut u64,
    trials: &mut u64,
) -> Result<Found, AllocError>
    requires { IsAim order.now.game aim }
    ensures found { IfOk result (IsFound order.now.game order.now.diagram aim (choices order.now.decisions)) }
    ensures settled { IfOk result (λ found.
        IsSettled order.now.game order.now.diagram limits (Question.Lost aim) (choices order.now.decisions) →
        IsFoundExact found) }
    ensures looks { IfOk result (λ found. looks.new ≤ looks.old) }
    ensures left { IfOk result (λ found. trials.new ≤ trials.old) }
{
    let aim = eased(order, aim);
    let found = search_all(alloc, order, aim, order.decisions(), limits, looks, trials)?;
    Ok(found)
}

/// Returns a product that is left and meets the aim. For the hopeful table Even wins from the vertex in it, for the
/// dual one Odd does; or it is just any. Returns nothing if there is none, however cautious the page's verdict is.
///
/// The search splits over one unknown feature after another, and leaves out what the verdicts of the page and of each
/// trial cut off. If the first half of a split is lost for a reason that does not name the feature, it leaves out the
/// other half too. After this many trials it gives up.
pub fn find(alloc: Global, order: &Order, aim: Aim, limits: Limits) -> Result<Found, AllocError>
    requires { IsAim order.now.game aim }
    ensures found { IfOk result (IsFound order.now.game order.now.diagram aim (choices order.now.decisions)) }
    ensures settled { IfOk result
        (λ found. IsSettled order.now.game order.now.diagram limits (Question.Lost aim) (choices order.now.decisions) →
        IsFoundExact found) }
{
    let mut looks = limits.budget;
    let mut trials = limits.trials;
    let found = find_within(alloc, order, aim, limits, &mut looks, &mut trials)?;
    Ok(found)
}
