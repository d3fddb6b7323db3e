//! Which of the products left are won at a vertex.
ghost use Rattle.std.specs.List.{list_all};
ghost use Rattle.std.specs.Prelude.{◌≡◌, ◌<◌, ◌++◌, All, IfOk, OnOk, count_by, length};
ghost use Rattle.vpg_looks.specs.Answers.{Appends, TellsPartLine, TellsPartLines, TellsWinners};
ghost use Rattle.vpg_looks.specs.Numbers.{IsAmount, looks_each};
ghost use Rattle.vpg_looks.specs.Texts.{is_lost, is_told, is_won, part_label, part_line, winner_word, winners_line};
ghost use Rattle.vpg_partial.specs.TableLaws.{AreChoicesOf};
ghost use Rattle.vpg_script.specs.Answer.{Gives, IsDone};
ghost use Rattle.vpg_texts.specs.Scene.{scene_of};
ghost use Rattle.vpg_texts.specs.Text.{choices_text};
ghost use Rattle.vpg_why.specs.Explained.{choices};
ghost use Rattle.vpg_winners.specs.Numbered.{HasItsNumber};
ghost use Rattle.vpg_winners.specs.Winners.{view_of, views};

use crate::reasons::{identifier, names};
use crate::{lines, numbers};
use std::alloc::{AllocError, Global};
use vpg_diagram::Literal;
use vpg_features::Names;
use vpg_game::VertexNames;
use vpg_measure::Order;
use vpg_number::{Count, Natural, number};
use vpg_partial::Decision;
use vpg_script::{Tone, done};
use vpg_texts::blank_number;
use vpg_why::Limits;
use vpg_winners::{Part, Winner, winners};

/// Appends the word of a part's winner.
fn winner_word(winner: Winner, out: &mut Vec<u8>) -> Result<(), AllocError>
    ensures { OnOk result (out.new.items ≡ out.old.items ++ winner_word winner) }
{
    match winner {
        Winner::Won => out.extend_from_slice(b"won")?,
        Winner::Lost => out.extend_from_slice(b"lost")?,
        Winner::Unsettled => out.extend_from_slice(b"unsettled")?,
    }
    Ok(())
}

/// Appends the literals that cut a part out.
fn literals(names: &Names, listed: &[Literal], out: &mut Vec<u8>) -> Result<(), AllocError>
    requires { All (λ l. l.feature < length names.now) listed.now }
    ensures { OnOk result (out.new.items ≡ out.old.items ++ choices_text names.now listed.now) }
{
    for l in listed {
        lines::choice(names, *l, out)?;
    }
    Ok(())
}

/// Returns the name at the end of a part's line: none if a limit was met.
fn part_label(winner: Winner, label: &[u8]) -> &[u8]
    ensures { result.now ≡ part_label winner label.now }
{
    match winner {
        Winner::Won | Winner::Lost => label,
        Winner::Unsettled => b"",
    }
}

/// Appends a part, and how many products it has.
fn part_line(
    alloc: Global,
    names: &Names,
    identifier: u32,
    label: &[u8],
    part: &Part,
    count: &Count,
    out: &mut Vec<u8>,
) -> Result<(), AllocError>
    requires { All (λ l. l.feature < length names.now) part.now.literals.items }
    ensures { OnOk result (out.new.items ≡
        out.old.items ++ part_line names.now identifier label.now (view_of part.now) count.now) }
{
    winner_word(part.winner, out)?;
    blank_number(identifier as u64, out)?;
    literals(names, &part.literals, out)?;
    numbers::amount(alloc, count, out)?;
    lines::end(part_label(part.winner, label), out)
}

/// Returns the decisions, and one for each of the literals.
fn with_all(
    alloc: Global,
    decisions: &[Decision],
    literals: &[Literal],
) -> Result<Vec<Decision>, AllocError>
    ensures { IfOk result (λ more. choices more.items ≡ choices decisions.now ++ literals.now) }
{
    let mut more = Vec::new(alloc);
    more.extend_from_slice(decisions)?;
    for l in literals {
        more.push(Decision {
            serial: 0,
            session: 0,
            feature: l.feature,
            value: l.value,
        })?;
    }
    Ok(more)
}

/// Returns a copy of the part's own number, if it has one.
fn own_number(alloc: Global, part: &Part) -> Result<Option<Natural>, AllocError>
    ensures { IfOk result (λ copy. copy ≡ part.now.number) }
{
    match &part.number {
        Some(number) => {
            let copy = number.plus(alloc, &Natural::zero(alloc))?;
            Ok(Some(copy))
        }
        None => Ok(None),
    }
}

/// Returns the number of products in a part: its own, if it has one.
fn amount(alloc: Global, order: &Order, part: &Part, looks: u64) -> Result<Count, AllocError>
    requires named { AreChoicesOf order.now.diagram.lines part.now.literals.items }
    requires number { HasItsNumber order.now.diagram.lines (choices order.now.decisions) part.now }
    ensures { IfOk result (IsAmount order.now.diagram.lines looks
        (choices order.now.decisions ++ part.now.literals.items)) }
{
    let found = own_number(alloc, part)?;
    if let Some(own) = found {
        return Ok(Count::Exactly(own));
    }
    let more = with_all(alloc, order.decisions(), &part.literals)?;
    let count = number(alloc, order.diagram(), &more, looks)?;
    Ok(count)
}

/// Appends a part, and the number of products in it.
fn counted(
    alloc: Global,
    order: &Order,
    labels: &VertexNames,
    vertex: u32,
    part: &Part,
    looks: u64,
    out: &mut Vec<u8>,
) -> Result<(), AllocError>
    requires vertex { vertex < length order.now.game.vertices }
    requires named { AreChoicesOf order.now.diagram.lines part.now.literals.items }
    requires number { HasItsNumber order.now.diagram.lines (choices order.now.decisions) part.now }
    ensures { OnOk result (Appends
        (TellsPartLine (scene_of labels.now.names order.now.game order.now.diagram) looks vertex
        (choices order.now.decisions) (view_of part.now)) out.old.items out.new.items) }
{
    let names = names(order);
    let identifier = identifier(order, vertex);
    let label = labels.name(vertex);
    let count = amount(alloc, order, part, looks)?;
    part_line(alloc, names, identifier, label, part, &count, out)
}

/// Appends each of the parts.
fn each(
    alloc: Global,
    order: &Order,
    labels: &VertexNames,
    vertex: u32,
    parts: &[Part],
    looks: u64,
    out: &mut Vec<u8>,
) -> Result<(), AllocError>
    requires vertex { vertex < length order.now.game.vertices }
    requires named { All (λ p. AreChoicesOf order.now.diagram.lines p.literals.items) parts.now }
    requires numbers { All (HasItsNumber order.now.diagram.lines (choices order.now.decisions)) parts.now }
    ensures { OnOk result (Appends
        (TellsPartLines (scene_of labels.now.names order.now.game order.now.diagram) looks vertex
        (choices order.now.decisions) (views parts.now)) out.old.items out.new.items) }
{
    for part in parts {
        counted(alloc, order, labels, vertex, part, looks, out)?;
    }
    Ok(())
}

/// Returns how many looks the number of each part may take.
fn looks_each(looks: u64, parts: usize) -> u64
    ensures { result ≡ looks_each looks parts }
{
    looks / (parts as u64 / 100 + 1)
}

fn is_won(part: &Part) -> bool
    ensures { result ≡ is_won part.now.winner }
{
    match part.winner {
        Winner::Won => true,
        Winner::Lost | Winner::Unsettled => false,
    }
}

fn is_lost(part: &Part) -> bool
    ensures { result ≡ is_lost part.now.winner }
{
    match part.winner {
        Winner::Lost => true,
        Winner::Won | Winner::Unsettled => false,
    }
}

fn is_told(part: &Part) -> bool
    ensures { result ≡ is_told part.now.winner }
{
    match part.winner {
        Winner::Unsettled => false,
        Winner::Won | Winner::Lost => true,
    }
}

fn count_won(parts: &[Part]) -> usize
    ensures { result ≡ count_by (λ p. is_won p.winner) parts.now }
{
    parts.iter().filter(|p| is_won(p)).count()
}

fn count_lost(parts: &[Part]) -> usize
    ensures { result ≡ count_by (λ p. is_lost p.winner) parts.now }
{
    parts.iter().filter(|p| is_lost(p)).count()
}

fn are_told(parts: &[Part]) -> bool
    ensures { result ≡ list_all (λ p. is_told p.winner) parts.now }
{
    parts.iter().all(|p| is_told(p))
}

/// Appends the numbers of the parts won and lost, and whether there may be others.
fn total(
    identifier: u32,
    label: &[u8],
    won: usize,
    lost: usize,
    told: bool,
    out: &mut Vec<u8>,
) -> Result<(), AllocError>
    ensures { OnOk result (out.new.items ≡ out.old.items ++ winners_line identifier label.now won lost told) }
{
    out.extend_from_slice(b"winners")?;
    blank_number(identifier as u64, out)?;
    blank_number(won as u64, out)?;
    blank_number(lost as u64, out)?;
    lines::more(told, out)?;
    lines::end(label, out)
}

/// Appends the numbers of the parts won and lost, and whether there may be others.
fn totals(
    identifier: u32,
    label: &[u8],
    parts: &[Part],
    out: &mut Vec<u8>,
) -> Result<(), AllocError>
    ensures { OnOk result (out.new.items ≡ out.old.items ++ winners_line identifier label.now
        (count_by (λ p. is_won p.winner) (views parts.now)) (count_by (λ p. is_lost p.winner) (views parts.now))
        (list_all (λ p. is_told p.winner) (views parts.now))) }
{
    let told = are_told(parts);
    total(
        identifier,
        label,
        count_won(parts),
        count_lost(parts),
        told,
        out,
    )
}

/// Appends the products left, in parts by the winner at the vertex, with the number of products in each part. Returns
/// the answer's tone.
pub fn partition(
    alloc: Global,
    order: &Order,
    labels: &VertexNames,
    vertex: u32,
    limits: Limits,
    out: &mut Vec<u8>,
) -> Result<Tone, AllocError>
    requires { vertex < length order.now.game.vertices }
    ensures { IfOk result (λ tone. Gives
        (IsDone (TellsWinners (scene_of labels.now.names order.now.game order.now.diagram) limits vertex
        order.now.decisions)) tone out.old.items out.new.items) }
{
    let identifier = identifier(order, vertex);
    let parts = winners(alloc, order, vertex, limits)?;
    let looks = looks_each(limits.trials, parts.len());
    each(alloc, order, labels, vertex, &parts, looks, out)?;
    done(totals(identifier, labels.name(vertex), &parts, out))
}
