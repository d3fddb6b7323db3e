//! The verdicts of a page's vertices, and the lines of those that differ from earlier ones.
ghost use Rattle.std.specs.Prelude.{◌≡◌, ◌++◌, ◌<◌, ◌≤◌, if◌then◌else◌, length, slice_index, IfOk, OnOk};
ghost use Rattle.vpg_game.specs.Game.{vertex_ids};
ghost use Rattle.vpg_game.specs.Levels.{top_of};
ghost use Rattle.vpg_texts.specs.Changed.{change_count, change_line, change_lines, change_text, changed_text, same_verdicts, seen_at, verdict_of, verdict_words, verdicts_below};

use crate::labels::put_beside;
use crate::text::{count_line, hopeless, identifier, number, sure};
use std::alloc::{AllocError, Global};
use vpg_game::{GuardedGame, VertexNames};
use vpg_measure::{PageGames, Table};
use vpg_sides::{Verdict, Which};

/// Each vertex of the opening page is possible and unsure.
const UNSEEN: Verdict = Verdict {
    hopeless: false,
    sure: false,
};

/// Returns the verdict of a vertex by two tables.
fn verdict(games: &PageGames, hopeful: &Table, dual: &Table, v: u32) -> Verdict
    requires hopeful { v < length hopeful.now }
    requires dual { v < length dual.now }
    ensures { result ≡ verdict_of (top_of games.now.hopeful_levels) (top_of games.now.dual_levels)
        (slice_index hopeful.now v) (slice_index dual.now v) }
{
    Verdict {
        hopeless: hopeful.get(v) == games.shape(Which::Hopeful).top(),
        sure: dual.get(v) == games.shape(Which::Dual).top(),
    }
}

/// Returns the verdict of each vertex by two tables.
pub(crate) fn verdicts(
    alloc: Global,
    games: &PageGames,
    game: &GuardedGame,
    hopeful: &Table,
    dual: &Table,
) -> Result<Vec<Verdict>, AllocError>
    requires hopeful { length hopeful.now ≡ length game.now.vertices }
    requires dual { length dual.now ≡ length game.now.vertices }
    ensures { IfOk result (λ verdicts. verdicts.items
        ≡ verdicts_below (top_of games.now.hopeful_levels) (top_of games.now.dual_levels) hopeful.now dual.now
        (length game.now.vertices)) }
{
    let count = game.vertices() as u32;
    let mut verdicts = Vec::with_capacity(alloc, count as usize)?;
    for v in 0..count {
        verdicts.push(verdict(games, hopeful, dual, v))?;
    }
    Ok(verdicts)
}

/// Returns the verdict seen of a vertex; if none was seen, that of the opening page.
fn seen_at(seen: &[Verdict], v: u32) -> Verdict
    ensures { result ≡ seen_at seen.now v }
{
    match seen.get(v as usize) {
        Some(verdict) => *verdict,
        None => UNSEEN,
    }
}

fn same(before: Verdict, now: Verdict) -> bool
    ensures { result ≡ same_verdicts before now }
{
    before.hopeless == now.hopeless && before.sure == now.sure
}

fn words(verdict: Verdict, out: &mut Vec<u8>) -> Result<(), AllocError>
    ensures { OnOk result (out.new.items ≡ out.old.items ++ verdict_words verdict) }
{
    hopeless(verdict.hopeless, out)?;
    sure(verdict.sure, out)
}

/// Appends the line of a vertex: its identifier, the verdict seen of it, its verdict now, and its name.
fn change(
    id: u32,
    label: &[u8],
    before: Verdict,
    now: Verdict,
    out: &mut Vec<u8>,
) -> Result<(), AllocError>
    ensures { OnOk result (out.new.items ≡ out.old.items ++ change_line id label.now before now) }
{
    number(id as u64, out)?;
    words(before, out)?;
    words(now, out)?;
    put_beside(label, out)?;
    out.push(b'\n')?;
    Ok(())
}

/// Appends the line of a vertex if its verdict differs from the one seen, and returns the number of lines appended.
fn change_if(
    id: u32,
    label: &[u8],
    before: Verdict,
    now: Verdict,
    out: &mut Vec<u8>,
) -> Result<usize, AllocError>
    ensures count { IfOk result (λ n. n ≡ (if same_verdicts before now then 0 else 1)) }
    ensures few { IfOk result (λ n. n ≤ 1) }
    ensures text { OnOk result (out.new.items ≡ out.old.items ++ change_text id label.now before now) }
{
    if same(before, now) {
        return Ok(0);
    }
    change(id, label, before, now, out)?;
    Ok(1)
}

/// Appends the lines of the vertices with another verdict than was seen, and returns their number.
fn changes(
    game: &GuardedGame,
    labels: &VertexNames,
    seen: &[Verdict],
    present: &[Verdict],
    out: &mut Vec<u8>,
) -> Result<usize, AllocError>
    ensures count { IfOk result (λ n. n ≡ change_count seen.now present.now (length game.now.vertices)) }
    ensures lines { IfOk result (λ _. out.new.items ≡ out.old.items
        ++ change_lines (vertex_ids game.now.vertices) labels.now.names seen.now present.now
        (length game.now.vertices)) }
{
    let count = game.vertices() as u32;
    let mut changed = 0;
    for v in 0..count {
        let before = seen_at(seen, v);
        let verdict = seen_at(present, v);
        changed += change_if(identifier(game, v), labels.name(v), before, verdict, out)?;
    }
    Ok(changed)
}

/// Appends a line for each vertex with another verdict than was seen, and their number.
pub(crate) fn changed(
    game: &GuardedGame,
    labels: &VertexNames,
    seen: &[Verdict],
    present: &[Verdict],
    out: &mut Vec<u8>,
) -> Result<(), AllocError>
    ensures { OnOk result (out.new.items ≡ out.old.items
        ++ changed_text (vertex_ids game.now.vertices) labels.now.names seen.now present.now) }
{
    let count = changes(game, labels, seen, present, out)?;
    count_line(b"changed", count, out)
}
