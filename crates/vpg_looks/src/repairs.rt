//! The decisions to retract so that Even wins from a vertex in a product left.
ghost use Rattle.std.specs.List.{list_all, list_any};
ghost use Rattle.std.specs.Prelude.{◌≡◌, ◌<◌, ◌+◌, ◌++◌, ◌≤◌, [], All, IfOk, OnOk, count_by, false, length};
ghost use Rattle.vpg_looks.specs.Answers.{Appends, HasSingle, TellsRepair, TellsRetractions};
ghost use Rattle.vpg_looks.specs.Repairs.{AreTried, IsEffect, IsLostBy, is_listed, is_shown, is_winning, rank_of};
ghost use Rattle.vpg_looks.specs.Texts.{line_at, lines_at, mark_text, marked_text, repair_line, several_text, singles_text};
ghost use Rattle.vpg_partial.specs.TableLaws.{AreChoicesOf};
ghost use Rattle.vpg_script.specs.Answer.{Gives, IsDone};
ghost use Rattle.vpg_texts.specs.Scene.{scene_of};
ghost use Rattle.vpg_why.specs.Explained.{choices};

use crate::lines;
use crate::reasons::{identifier, names};
use crate::retracting::{Effect, Tried, effect_of, give_up, lost, tries};
use std::alloc::{AllocError, Global};
use vpg_features::Names;
use vpg_game::VertexNames;
use vpg_measure::Order;
use vpg_partial::Decision;
use vpg_script::{Tone, done};
use vpg_sides::Which;
use vpg_why::{Limits, Shown, looks_for_decisions, order_under, why_within};

fn is_winning(t: &Tried) -> bool
    ensures { result ≡ is_winning t.now.effect }
{
    match t.effect {
        Effect::Won => true,
        Effect::Possible | Effect::Nothing | Effect::Unsettled => false,
    }
}

fn is_shown(t: &Tried) -> bool
    ensures { result ≡ is_shown t.now.effect }
{
    match t.effect {
        Effect::Unsettled => false,
        Effect::Won | Effect::Possible | Effect::Nothing => true,
    }
}

fn is_listed(t: &Tried) -> bool
    ensures { result ≡ is_listed t.now.effect }
{
    match t.effect {
        Effect::Nothing => false,
        Effect::Won | Effect::Possible | Effect::Unsettled => true,
    }
}

/// Whether some decision leaves a product that Even wins if it alone is retracted.
fn has_single(tried: &[Tried]) -> bool
    ensures { result ≡ list_any (λ t. is_winning t.effect) tried.now }
{
    tried.iter().any(|t| is_winning(t))
}

/// Whether no effect met a limit.
fn all_shown(tried: &[Tried]) -> bool
    ensures { result ≡ list_all (λ t. is_shown t.effect) tried.now }
{
    tried.iter().all(|t| is_shown(t))
}

fn count_listed(tried: &[Tried]) -> usize
    ensures count { result ≡ count_by (λ t. is_listed t.effect) tried.now }
    ensures most { result ≤ length tried.now }
{
    tried.iter().filter(|t| is_listed(t)).count()
}

/// Returns the place of an effect: first come those that win, then those that were not settled.
fn rank(effect: Effect) -> u8
    ensures { result ≡ rank_of effect }
{
    match effect {
        Effect::Won => 0,
        Effect::Unsettled => 1,
        Effect::Possible => 2,
        Effect::Nothing => 3,
    }
}

/// Appends the mark of a retraction that leaves no product that is won, or that was not settled.
fn mark(effect: Effect, out: &mut Vec<u8>) -> Result<(), AllocError>
    ensures { OnOk result (out.new.items ≡ out.old.items ++ mark_text effect) }
{
    match effect {
        Effect::Won | Effect::Nothing => {}
        Effect::Possible => out.extend_from_slice(b" lost")?,
        Effect::Unsettled => out.extend_from_slice(b" unsettled")?,
    }
    Ok(())
}

fn line(names: &Names, t: &Tried, out: &mut Vec<u8>) -> Result<(), AllocError>
    requires { t.now.decision.feature < length names.now }
    ensures { OnOk result (out.new.items ≡ out.old.items ++ repair_line names.now t.now) }
{
    out.extend_from_slice(b"repair")?;
    lines::choice(names, lines::literal(&t.decision), out)?;
    mark(t.effect, out)?;
    out.extend_from_slice(b"\n")
}

fn line_at(names: &Names, wanted: u8, t: &Tried, out: &mut Vec<u8>) -> Result<(), AllocError>
    requires { t.now.decision.feature < length names.now }
    ensures { OnOk result (out.new.items ≡ out.old.items ++ line_at names.now wanted t.now) }
{
    if rank(t.effect) == wanted {
        line(names, t, out)?;
    }
    Ok(())
}

/// Appends the lines of those decisions whose effect has this rank.
fn lines_at(names: &Names, wanted: u8, tried: &[Tried], out: &mut Vec<u8>) -> Result<(), AllocError>
    requires { All (λ t. t.decision.feature < length names.now) tried.now }
    ensures { OnOk result (out.new.items ≡ out.old.items ++ lines_at names.now wanted tried.now) }
{
    for t in tried {
        line_at(names, wanted, t, out)?;
    }
    Ok(())
}

/// Appends the lines that are marked, and the number of all lines, with these before.
fn tell_marked(
    names: &Names,
    before: usize,
    tried: &[Tried],
    exact: bool,
    out: &mut Vec<u8>,
) -> Result<(), AllocError>
    requires named { All (λ t. t.decision.feature < length names.now) tried.now }
    requires before { before ≤ 1 }
    ensures { OnOk result (out.new.items ≡ out.old.items ++ marked_text names.now before tried.now exact) }
{
    lines_at(names, 1, tried, out)?;
    lines_at(names, 2, tried, out)?;
    lines::total(b"repairs", before + count_listed(tried), exact, out)
}

fn tell_singles(
    names: &Names,
    tried: &[Tried],
    exact: bool,
    out: &mut Vec<u8>,
) -> Result<(), AllocError>
    requires { All (λ t. t.decision.feature < length names.now) tried.now }
    ensures { OnOk result (out.new.items ≡ out.old.items ++ singles_text names.now tried.now exact) }
{
    lines_at(names, 0, tried, out)?;
    tell_marked(names, 0, tried, exact, out)
}

fn tell_several(
    names: &Names,
    given: &[Decision],
    sure: bool,
    tried: &[Tried],
    exact: bool,
    out: &mut Vec<u8>,
) -> Result<(), AllocError>
    requires given { All (λ d. d.feature < length names.now) given.now }
    requires tried { All (λ t. t.decision.feature < length names.now) tried.now }
    ensures { OnOk result (out.new.items ≡ out.old.items ++ several_text names.now given.now sure tried.now exact) }
{
    out.extend_from_slice(b"repair")?;
    lines::reason(names, given, sure, b"", out)?;
    tell_marked(names, 1, tried, exact, out)
}

/// Appends the page's decisions to retract together, where none alone was shown to do.
fn several(
    alloc: Global,
    order: &Order,
    decisions: &[Decision],
    vertex: u32,
    was_hopeless: bool,
    reason: &[Decision],
    tried: &[Tried],
    limits: Limits,
    looks: &mut u64,
    trials: &mut u64,
    out: &mut Vec<u8>,
) -> Result<(), AllocError>
    requires named { AreChoicesOf order.now.diagram.lines (choices decisions.now) }
    requires vertex { vertex < length order.now.game.vertices }
    requires reason { IsLostBy (scene_of [] order.now.game order.now.diagram) vertex (choices reason.now) }
    requires tried { AreTried (scene_of [] order.now.game order.now.diagram) limits vertex was_hopeless
        decisions.now (length decisions.now) tried.now }
    requires none { HasSingle tried.now → ⊥ }
    requires winner { IsLostBy (scene_of [] order.now.game order.now.diagram) vertex [] → ⊥ }
    ensures { OnOk result (Appends
        (TellsRetractions (scene_of [] order.now.game order.now.diagram) limits vertex was_hopeless decisions.now)
        out.old.items out.new.items) }
{
    let names = names(order);
    let found = give_up(
        alloc, order, decisions, vertex, reason, limits, looks, trials,
    )?;
    let exact = all_shown(tried);
    tell_several(names, &found.given, found.sure, tried, exact, out)
}

/// Appends the page's decisions to retract, where none alone was shown to do; or that nothing does.
fn no_single(
    alloc: Global,
    order: &Order,
    decisions: &[Decision],
    vertex: u32,
    was_hopeless: bool,
    reason: &[Decision],
    tried: &[Tried],
    limits: Limits,
    looks: &mut u64,
    trials: &mut u64,
    out: &mut Vec<u8>,
) -> Result<(), AllocError>
    requires named { AreChoicesOf order.now.diagram.lines (choices decisions.now) }
    requires vertex { vertex < length order.now.game.vertices }
    requires reason { IsLostBy (scene_of [] order.now.game order.now.diagram) vertex (choices reason.now) }
    requires tried { AreTried (scene_of [] order.now.game order.now.diagram) limits vertex was_hopeless
        decisions.now (length decisions.now) tried.now }
    requires none { HasSingle tried.now → ⊥ }
    ensures { OnOk result (Appends
        (TellsRetractions (scene_of [] order.now.game order.now.diagram) limits vertex was_hopeless decisions.now)
        out.old.items out.new.items) }
{
    let names = names(order);
    match lost(alloc, order, &[], vertex, reason, limits, looks, trials)? {
        Shown::Yes => lines::none(out),
        Shown::No => several(
            alloc,
            order,
            decisions,
            vertex,
            was_hopeless,
            reason,
            tried,
            limits,
            looks,
            trials,
            out,
        ),
        Shown::Unsettled => tell_marked(names, 0, tried, false, out),
    }
}

/// Appends the decisions to retract, where no product left is won, as none is that agrees with the reason.
fn retractions(
    alloc: Global,
    order: &Order,
    vertex: u32,
    was_hopeless: bool,
    reason: &[Decision],
    limits: Limits,
    looks: &mut u64,
    trials: &mut u64,
    out: &mut Vec<u8>,
) -> Result<(), AllocError>
    requires vertex { vertex < length order.now.game.vertices }
    requires reason { IsEffect (scene_of [] order.now.game order.now.diagram) limits vertex was_hopeless
        (choices reason.now) Effect.Nothing }
    ensures { OnOk result (Appends
        (TellsRetractions (scene_of [] order.now.game order.now.diagram) limits vertex was_hopeless order.now.decisions)
        out.old.items out.new.items) }
{
    let names = names(order);
    let tried = tries(
        alloc,
        order,
        vertex,
        was_hopeless,
        reason,
        limits,
        looks,
        trials,
    )?;
    if !has_single(&tried) {
        let base = order_under(alloc, order, &[], &[Which::Hopeful, Which::Dual], looks)?;
        return no_single(
            alloc,
            &base,
            order.decisions(),
            vertex,
            was_hopeless,
            reason,
            &tried,
            limits,
            looks,
            trials,
            out,
        );
    }
    tell_singles(names, &tried, all_shown(&tried), out)
}

/// Appends the decisions to retract so that Even wins in a product left; or that the vertex is possible, if one is won.
/// Returns the answer's tone.
pub fn repairs_at(
    alloc: Global,
    order: &Order,
    labels: &VertexNames,
    vertex: u32,
    limits: Limits,
    out: &mut Vec<u8>,
) -> Result<Tone, AllocError>
    requires { vertex < length order.now.game.vertices }
    ensures { IfOk result (λ tone. Gives
        (IsDone (TellsRepair (scene_of labels.now.names order.now.game order.now.diagram) limits vertex
        order.now.decisions order.now.hopeful)) tone out.old.items out.new.items) }
{
    let mut looks = looks_for_decisions(limits);
    let mut trials = limits.trials;
    if let Some(why) = why_within(alloc, order, Which::Hopeful, vertex, limits, &mut looks)? {
        return done(retractions(
            alloc,
            order,
            vertex,
            true,
            &why.decisions,
            limits,
            &mut looks,
            &mut trials,
            out,
        ));
    }
    let found = effect_of(
        alloc,
        order,
        order.decisions(),
        vertex,
        false,
        limits,
        &mut looks,
        &mut trials,
    )?;
    match found {
        Effect::Won => {
            let label = labels.name(vertex);
            done(lines::other(Which::Hopeful, identifier(order, vertex), label, out))
        }
        Effect::Unsettled => done(lines::unsettled(out)),
        _ => done(retractions(
            alloc,
            order,
            vertex,
            false,
            order.decisions(),
            limits,
            &mut looks,
            &mut trials,
            out,
        )),
    }
}
