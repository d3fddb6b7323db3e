//! The verdicts of a vertex after each further decision, and who wins then.
ghost use Rattle.std.specs.List.{AllByRecursion};
ghost use Rattle.std.specs.Prelude.{[], ◌≡◌, ◌<◌, ◌+◌, ◌++◌, ℕ, List, All, IfOk, OnOk, flat_map, length};
ghost use Rattle.vpg_looks.specs.Answers.{TellsOffers};
ghost use Rattle.vpg_looks.specs.Offers.{AreOffers, IsShared, IsOffered, fact_of, prospect_by};
ghost use Rattle.vpg_looks.specs.Texts.{fact_word, offer_line, offer_words, offers_text, shown_word};
ghost use Rattle.vpg_diagram.specs.DiagramText.{NamedDiagram};
ghost use Rattle.vpg_diagram.specs.FeatureDiagram.{feature_count};
ghost use Rattle.vpg_diagram.specs.declared.clause.Literal.{Literal};
ghost use Rattle.vpg_game.specs.Game.{NamedGame};
ghost use Rattle.vpg_partial.specs.TableLaws.{IsKnownTable};
ghost use Rattle.vpg_script.specs.Answer.{Gives, IsDone};
ghost use Rattle.vpg_texts.specs.Scene.{scene_of};
ghost use Rattle.vpg_why.specs.Explained.{choices};

use crate::lines::{choice, other_word, verdict_word};
use crate::reasons::names;
use std::alloc::{AllocError, Global};
use vpg_diagram::Literal;
use vpg_features::Names;
use vpg_guards::Tri;
use vpg_measure::Order;
use vpg_partial::Partial;
use vpg_script::{Tone, done};
use vpg_sides::Which;
use vpg_texts::blank_number;
use vpg_why::{Findings, Foresight, Limits, Shown, Spared, foresee, spared_choices};
use vpg_winners::both_findings;

/// The winner in the products left.
#[derive(Clone, Copy)]
pub(crate) enum Fact {
    /// Even wins in each, and there is one.
    Won,
    /// Odd wins in each, and there is one.
    Lost,
    /// Each of them wins in some.
    Mixed,
    /// No product is left.
    Empty,
    /// A limit was met.
    Unsettled,
}

/// The prospect of one more decision.
#[derive(Clone, Copy)]
pub(crate) enum Prospect {
    /// It contradicts the page.
    Conflict,
    /// The verdicts of the vertex, and the winner in the products left.
    Left {
        hopeless: Shown,
        sure: Shown,
        fact: Fact,
    },
}

/// One more decision, and its prospect at a vertex.
#[derive(Clone, Copy)]
pub(crate) struct Offered {
    choice: Literal,
    prospect: Prospect,
}

/// The looks and trials that the offers of a line have left; their findings, of products in which Even wins from the
/// vertex, and of those in which Odd does; and choices that were shown to make no verdict.
#[derive(Drop)]
pub(crate) struct Shared {
    pub(crate) looks: u64,
    pub(crate) trials: u64,
    pub(crate) won: Findings,
    pub(crate) lost: Findings,
    pub(crate) spared: Spared,
}

/// Returns what there is before the first offer of a line.
fn line_of(alloc: Global, order: &Order, vertex: u32, limits: Limits) -> Result<Shared, AllocError>
    requires { vertex < length order.now.game.vertices }
    ensures { IfOk result
        (IsShared order.now.game order.now.diagram vertex (choices order.now.decisions)) }
{
    let mut trials = limits.trials;
    let (won, lost) = both_findings(alloc, order, vertex, limits, &mut trials)?;
    let mut looks = limits.budget;
    let spared = spared_choices(alloc, order, vertex, limits, &mut looks, &won, &lost)?;
    Ok(Shared {
        looks,
        trials,
        won,
        lost,
        spared,
    })
}

/// Returns the winner, by whether each player wins in some product: first Even, then Odd.
fn fact_of(won: Shown, lost: Shown) -> Fact
    ensures { result ≡ fact_of won lost }
{
    match (won, lost) {
        (Shown::Yes, Shown::Yes) => Fact::Mixed,
        (Shown::Yes, Shown::No) => Fact::Won,
        (Shown::No, Shown::Yes) => Fact::Lost,
        (Shown::No, Shown::No) => Fact::Empty,
        _ => Fact::Unsettled,
    }
}

fn prospect_by(foresight: Foresight) -> Prospect
    ensures { result ≡ prospect_by foresight }
{
    match foresight {
        Foresight::Conflict => Prospect::Conflict,
        Foresight::Sides { even, odd } => Prospect::Left {
            hopeless: even.verdict,
            sure: odd.verdict,
            fact: fact_of(even.met, odd.met),
        },
    }
}

/// Returns the offer of a choice, by what the offers before have found and left of the line's looks and trials.
fn offer_of(
    alloc: Global,
    order: &Order,
    choice: Literal,
    vertex: u32,
    limits: Limits,
    line: &mut Shared,
) -> Result<Offered, AllocError>
    requires feature { choice.feature < feature_count order.now.diagram.lines }
    requires vertex { vertex < length order.now.game.vertices }
    requires line { IsShared order.now.game order.now.diagram vertex (choices order.now.decisions) line.old }
    ensures choice { IfOk result (λ o. o.choice ≡ choice) }
    ensures offer { IfOk result
        (IsOffered (scene_of [] order.now.game order.now.diagram) limits vertex order.now.decisions) }
    ensures line { IfOk result
        (λ o. IsShared order.now.game order.now.diagram vertex (choices order.now.decisions) line.new) }
{
    // The invariant of every order, for the proof.
    let _order = order.game();
    let foresight = foresee(
        alloc,
        order,
        choice,
        vertex,
        &line.spared,
        limits,
        &mut line.looks,
        &mut line.trials,
        &mut line.won,
        &mut line.lost,
    )?;
    let prospect = prospect_by(foresight);
    Ok(Offered { choice, prospect })
}

/// Returns the features that the order's decisions make known.
fn known(order: &Order) -> &Partial
    ensures { IsKnownTable order.now.diagram.lines (choices order.now.decisions) result.now }
{
    order.games().known()
}

/// Appends the offers of both choices of a feature to the list; none if the feature is known.
fn list_open(
    alloc: Global,
    order: &Order,
    known: &Partial,
    feature: u16,
    vertex: u32,
    limits: Limits,
    line: &mut Shared,
    listed: &mut Vec<Offered>,
) -> Result<(), AllocError>
    requires known { length known.now ≡ feature_count order.now.diagram.lines }
    requires feature { feature < feature_count order.now.diagram.lines }
    requires vertex { vertex < length order.now.game.vertices }
    requires line { IsShared order.now.game order.now.diagram vertex (choices order.now.decisions) line.old }
    ensures offers { OnOk result
        (AreOffers (scene_of [] order.now.game order.now.diagram) limits vertex order.now.decisions known.now feature
        listed.old.items →
        AreOffers (scene_of [] order.now.game order.now.diagram) limits vertex order.now.decisions known.now
        (feature + 1) listed.new.items) }
    ensures named { OnOk result
        (AllByRecursion (λ o. o.choice.feature < feature_count order.now.diagram.lines) listed.old.items →
        AllByRecursion (λ o. o.choice.feature < feature_count order.now.diagram.lines) listed.new.items) }
    ensures line { OnOk result
        (IsShared order.now.game order.now.diagram vertex (choices order.now.decisions) line.new) }
{
    if known.value(feature) != Tri::Unknown {
        return Ok(());
    }
    let value = true;
    let inside = offer_of(
        alloc,
        order,
        Literal { feature, value },
        vertex,
        limits,
        line,
    )?;
    listed.push(inside)?;
    let value = false;
    let outside = offer_of(
        alloc,
        order,
        Literal { feature, value },
        vertex,
        limits,
        line,
    )?;
    listed.push(outside)?;
    Ok(())
}

/// Returns the offers of both choices of each feature that isn't known.
fn list(
    alloc: Global,
    order: &Order,
    known: &Partial,
    vertex: u32,
    limits: Limits,
) -> Result<Vec<Offered>, AllocError>
    requires known { length known.now ≡ feature_count order.now.diagram.lines }
    requires vertex { vertex < length order.now.game.vertices }
    ensures offers { IfOk result
        (λ listed. AreOffers (scene_of [] order.now.game order.now.diagram) limits vertex order.now.decisions known.now
        (length known.now) listed.items) }
    ensures named { IfOk result
        (λ listed. AllByRecursion (λ o. o.choice.feature < feature_count order.now.diagram.lines) listed.items) }
{
    let features = order.diagram().features() as u16;
    let mut line = line_of(alloc, order, vertex, limits)?;
    let mut listed = Vec::new(alloc);
    'listing: for feature in 0..features {
        list_open(
            alloc,
            order,
            known,
            feature,
            vertex,
            limits,
            &mut line,
            &mut listed,
        )?;
    }
    Ok(listed)
}

fn shown_word(which: Which, shown: Shown, out: &mut Vec<u8>) -> Result<(), AllocError>
    ensures { OnOk result (out.new.items ≡ out.old.items ++ shown_word which shown) }
{
    if let Shown::Unsettled = shown {
        return out.extend_from_slice(b" unsettled");
    }
    out.push(b' ')?;
    match shown {
        Shown::Yes => verdict_word(which, out),
        _ => other_word(which, out),
    }
}

fn fact_word(fact: Fact, out: &mut Vec<u8>) -> Result<(), AllocError>
    ensures { OnOk result (out.new.items ≡ out.old.items ++ fact_word fact) }
{
    match fact {
        Fact::Won => out.extend_from_slice(b" won"),
        Fact::Lost => out.extend_from_slice(b" lost"),
        Fact::Mixed => out.extend_from_slice(b" mixed"),
        Fact::Empty => out.extend_from_slice(b" empty"),
        Fact::Unsettled => out.extend_from_slice(b" unsettled"),
    }
}

fn words(prospect: Prospect, out: &mut Vec<u8>) -> Result<(), AllocError>
    ensures { OnOk result (out.new.items ≡ out.old.items ++ offer_words prospect) }
{
    match prospect {
        Prospect::Conflict => out.extend_from_slice(b" conflict"),
        Prospect::Left {
            hopeless,
            sure,
            fact,
        } => {
            shown_word(Which::Hopeful, hopeless, out)?;
            shown_word(Which::Dual, sure, out)?;
            fact_word(fact, out)
        }
    }
}

fn line(names: &Names, offered: Offered, out: &mut Vec<u8>) -> Result<(), AllocError>
    requires { offered.choice.feature < length names.now }
    ensures { OnOk result (out.new.items ≡ out.old.items ++ offer_line names.now offered) }
{
    out.extend_from_slice(b"offer")?;
    choice(names, offered.choice, out)?;
    words(offered.prospect, out)?;
    out.extend_from_slice(b"\n")
}

fn lines(names: &Names, listed: &[Offered], out: &mut Vec<u8>) -> Result<(), AllocError>
    requires { All (λ o. o.choice.feature < length names.now) listed.now }
    ensures { OnOk result (out.new.items ≡ out.old.items ++ flat_map (offer_line names.now) listed.now) }
{
    for o in listed {
        line(names, *o, out)?;
    }
    Ok(())
}

fn tell(names: &Names, listed: &[Offered], out: &mut Vec<u8>) -> Result<(), AllocError>
    requires { All (λ o. o.choice.feature < length names.now) listed.now }
    ensures { OnOk result (out.new.items ≡ out.old.items ++ offers_text names.now listed.now) }
{
    lines(names, listed, out)?;
    out.extend_from_slice(b"offers")?;
    blank_number(listed.len() as u64, out)?;
    out.extend_from_slice(b"\n")
}

/// Appends the offer of each further decision at the vertex, and returns the answer's tone. The answer is the same with
/// names of vertices.
pub fn offers(
    alloc: Global,
    order: &Order,
    vertex: u32,
    limits: Limits,
    out: &mut Vec<u8>,
) -> Result<Tone, AllocError>
    requires { vertex < length order.now.game.vertices }
    ensures { (names : List (List ℕ)) → IfOk result (λ tone. Gives
        (IsDone (TellsOffers (scene_of names order.now.game order.now.diagram) limits vertex order.now.decisions)) tone
        out.old.items out.new.items) }
{
    let names = names(order);
    let listed = list(alloc, order, known(order), vertex, limits)?;
    done(tell(names, &listed, out))
}
