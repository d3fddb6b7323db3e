//! Single products that are tried before a search for one.
ghost use Rattle.std.specs.Prelude.{◌≤◌, IfOk, IfSome, IsTrue};
ghost use Rattle.vpg_partial.specs.KnownLaws.{IsRemaining};
ghost use Rattle.vpg_partial.specs.TableLaws.{AreAmong, AreChoicesOf};
ghost use Rattle.vpg_why.specs.Explained.{choices};
ghost use Rattle.vpg_why.specs.Products.{Meets};
ghost use Rattle.vpg_why.specs.Suffices.{Suffice, IsAim, IsAskable};

use crate::features::search_features;
use crate::question::{Aim, Limits, Question};
use crate::searching::{Outlook, Reasoned, look};
use crate::seeking::{has, large_limits};
use std::alloc::{AllocError, Global};
use vpg_measure::Order;
use vpg_partial::Decision;

/// The trials in which a product to try is found, by features alone: few, so that they take no longer than its game.
const FEW: u64 = 4;

// For each feature its value in these decisions, or this one if it has none.
fn values_in(
    alloc: Global,
    order: &Order,
    decisions: &[Decision],
    other: bool,
) -> Result<Vec<bool>, AllocError> {
    let mut values = vec![in alloc; other; order.diagram().features()]?;
    for d in decisions {
        if let Some(it) = values.get_mut(d.feature as usize) {
            *it = d.value;
        }
    }
    Ok(values)
}

// The decisions, and each feature as the product has it.
fn with_product(
    alloc: Global,
    order: &Order,
    decisions: &[Decision],
    product: &[bool],
) -> Result<Vec<Decision>, AllocError>
    requires { AreChoicesOf order.now.diagram.lines (choices decisions.now) }
    ensures named { IfOk result (λ more. AreChoicesOf order.now.diagram.lines (choices more.items)) }
    ensures among { IfOk result (λ more. AreAmong (choices decisions.now) (choices more.items)) }
{
    let features = order.diagram().features() as u16;
    let mut more = Vec::from_slice(alloc, decisions)?;
    for feature in 0..features {
        more.push(Decision {
            serial: 0,
            session: 0,
            feature,
            value: has(product, feature),
        })?;
    }
    Ok(more)
}

// The product itself, if it agrees with the decisions and meets the aim.
fn if_met(
    alloc: Global,
    order: &Order,
    aim: Aim,
    decisions: &[Decision],
    product: &[bool],
    limits: Limits,
    looks: &mut u64,
) -> Result<Option<Vec<bool>>, AllocError>
    requires named { AreChoicesOf order.now.diagram.lines (choices decisions.now) }
    requires aim { IsAim order.now.game aim }
    ensures found { IfOk result (λ found. IfSome found (λ set.
        IsRemaining order.now.diagram.lines (choices decisions.now) set.items × Meets order.now.game aim set.items)) }
    ensures looks { IfOk result (λ found. looks.new ≤ looks.old) }
{
    let more = with_product(alloc, order, decisions, product)?;
    match look(alloc, order, aim, &more, limits, looks)? {
        Outlook::Met(found) => Ok(Some(found)),
        _ => Ok(None),
    }
}

// A product that agrees with the decisions and meets the aim, if that does which is found first, by features alone, as
// unlike these values as it can be.
fn sample_unlike(
    alloc: Global,
    order: &Order,
    aim: Aim,
    decisions: &[Decision],
    avoided: &[bool],
    limits: Limits,
    looks: &mut u64,
    trials: &mut u64,
) -> Result<Option<Vec<bool>>, AllocError>
    requires named { AreChoicesOf order.now.diagram.lines (choices decisions.now) }
    requires aim { IsAim order.now.game aim }
    ensures found { IfOk result (λ found. IfSome found (λ set.
        IsRemaining order.now.diagram.lines (choices decisions.now) set.items × Meets order.now.game aim set.items)) }
    ensures looks { IfOk result (λ found. looks.new ≤ looks.old) }
    ensures left { IfOk result (λ found. trials.new ≤ trials.old) }
{
    if *looks == 0 || *trials == 0 {
        return Ok(None);
    }
    *trials -= 1;
    let mut few = FEW;
    let begun = decisions.len();
    let depth = order.diagram().features() as u32 + 1;
    match search_features(
        alloc, order, decisions, avoided, begun, limits, looks, depth, &mut few,
    )? {
        Reasoned::Product(example) => {
            let large = large_limits(order, limits, *looks);
            let found = if_met(
                alloc,
                order,
                aim,
                decisions,
                &example.features,
                large,
                looks,
            )?;
            Ok(found)
        }
        _ => Ok(None),
    }
}

/// Returns a product that agrees with the decisions and meets the aim, if one of two does. Where they can, both differ
/// from the other decisions that are given; of further features the first has each that it can, and the second none
/// that it can lack. Each is tried by itself, without a split, and takes a trial.
pub(crate) fn sample(
    alloc: Global,
    order: &Order,
    aim: Aim,
    decisions: &[Decision],
    others: &[Decision],
    limits: Limits,
    looks: &mut u64,
    trials: &mut u64,
) -> Result<Option<Vec<bool>>, AllocError>
    requires named { AreChoicesOf order.now.diagram.lines (choices decisions.now) }
    requires aim { IsAim order.now.game aim }
    ensures found { IfOk result (λ found. IfSome found (λ set.
        IsRemaining order.now.diagram.lines (choices decisions.now) set.items × Meets order.now.game aim set.items)) }
    ensures looks { IfOk result (λ found. looks.new ≤ looks.old) }
    ensures left { IfOk result (λ found. trials.new ≤ trials.old) }
{
    let avoided = values_in(alloc, order, others, false)?;
    if let Some(product) = sample_unlike(
        alloc, order, aim, decisions, &avoided, limits, looks, trials,
    )? {
        return Ok(Some(product));
    }
    let avoided = values_in(alloc, order, others, true)?;
    let found = sample_unlike(
        alloc, order, aim, decisions, &avoided, limits, looks, trials,
    )?;
    Ok(found)
}

/// Whether a product of a sample shows that the decisions alone do not make it so: one that agrees with them and is
/// won, for a question whether none is. No other question has a sample.
pub(crate) fn is_refuted(
    alloc: Global,
    order: &Order,
    question: Question,
    decisions: &[Decision],
    others: &[Decision],
    limits: Limits,
    looks: &mut u64,
    trials: &mut u64,
) -> Result<bool, AllocError>
    requires named { AreChoicesOf order.now.diagram.lines (choices decisions.now) }
    requires askable { IsAskable order.now.game order.now.diagram question }
    ensures refuted { IfOk result (λ shown. IsTrue shown →
        Suffice order.now.game order.now.diagram question (choices decisions.now) → ⊥) }
    ensures looks { IfOk result (λ shown. looks.new ≤ looks.old) }
    ensures left { IfOk result (λ shown. trials.new ≤ trials.old) }
{
    let Question::Lost { aim } = question else {
        return Ok(false);
    };
    if let Aim::Any = aim {
        return Ok(false);
    }
    match sample(alloc, order, aim, decisions, others, limits, looks, trials)? {
        Some(_) => Ok(true),
        None => Ok(false),
    }
}
