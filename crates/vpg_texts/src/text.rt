//! The texts of a page.
ghost use Rattle.std.specs.Prelude.{◌≡◌, ◌<◌, ◌≤◌, Some, ◌==◌, ◌++◌, ◌∷◌, [], codes, count_by, decimal, is_some, length, not, map, IfSome, OnOk, OnErr, All, slice_index, suc};
ghost use Rattle.vpg_texts.specs.Labels.{label_of};
ghost use Rattle.vpg_texts.specs.Scene.{EntryIsWithin};
ghost use Rattle.vpg_texts.specs.Text.{blank_number, name_of, blank_name, choice_text, choices_text, decisions_line, answer_line, answer_word, hopeless_text, sure_text, vertex_line, vertex_lines, show_text};
ghost use Rattle.vpg_texts.specs.Text.{count_line, count_lines, state_lines, count_text, deciding_text, table_text, entry_line, trail_text, names_known, products_line, products_text, known_word, known_text, plan_line, plan_text};
ghost use Rattle.vpg_trail.specs.Page.{literal_of};
ghost use Rattle.vpg_trail.specs.Shown.{entry_of};
ghost use Rattle.vpg_game.specs.Game.{vertex_ids};
ghost use Rattle.vpg_game.specs.Levels.{top_of};

use crate::labels::{put_beside, put_beside_both};
use itoa::Buffer;
use std::alloc::AllocError;
use vpg_diagram::Literal;
use vpg_features::Names;
use vpg_game::{GuardedGame, VertexNames};
use vpg_guards::Tri;
use vpg_measure::{PageGames, Table};
use vpg_partial::{Decision, Partial};
use vpg_sides::Which;
use vpg_trail::Entry;

/// Appends a number in decimal.
pub(crate) fn number(n: u64, out: &mut Vec<u8>) -> Result<(), AllocError>
    ensures { OnOk result (out.new.items ≡ out.old.items ++ decimal n) }
{
    let mut buffer = Buffer::new();
    out.extend_from_slice(buffer.format(n).as_bytes())?;
    Ok(())
}

/// Appends a blank and a number in decimal.
pub fn blank_number(n: u64, out: &mut Vec<u8>) -> Result<(), AllocError>
    ensures { OnOk result (out.new.items ≡ out.old.items ++ blank_number n) }
{
    out.push(b' ')?;
    number(n, out)
}

fn name_at(names: &Names, f: u16) -> &[u8]
    requires { f < length names.now }
    ensures { result.now ≡ name_of names.now f }
{
    names.name(f).as_bytes()
}

/// Appends a blank and the name of a feature.
pub fn blank_name(names: &Names, f: u16, out: &mut Vec<u8>) -> Result<(), AllocError>
    requires { f < length names.now }
    ensures { OnOk result (out.new.items ≡ out.old.items ++ blank_name names.now f) }
{
    out.push(b' ')?;
    out.extend_from_slice(name_at(names, f))?;
    Ok(())
}

fn choice(names: &Names, l: Literal, out: &mut Vec<u8>) -> Result<(), AllocError>
    requires { l.feature < length names.now }
    ensures { OnOk result (out.new.items ≡ out.old.items ++ choice_text names.now l) }
{
    out.push(b' ')?;
    out.push(if l.value { b'+' } else { b'-' })?;
    out.extend_from_slice(name_at(names, l.feature))?;
    Ok(())
}

fn literal(d: &Decision) -> Literal
    ensures { result ≡ literal_of d.now }
{
    Literal {
        feature: d.feature,
        value: d.value,
    }
}

/// Appends the choices of some decisions.
fn decided(names: &Names, ds: &[Decision], out: &mut Vec<u8>) -> Result<(), AllocError>
    requires { All (λ d. d.feature < length names.now) ds.now }
    ensures { OnOk result (out.new.items ≡ out.old.items ++ choices_text names.now (map literal_of ds.now)) }
{
    for d in ds {
        choice(names, literal(d), out)?;
    }
    Ok(())
}

/// Appends the choices that a lift assumed.
fn assumed(names: &Names, ls: &[Literal], out: &mut Vec<u8>) -> Result<(), AllocError>
    requires { All (λ l. l.feature < length names.now) ls.now }
    ensures { OnOk result (out.new.items ≡ out.old.items ++ choices_text names.now ls.now) }
{
    for l in ls {
        choice(names, *l, out)?;
    }
    Ok(())
}

fn answer_word(yes: bool, out: &mut Vec<u8>) -> Result<(), AllocError>
    ensures { OnOk result (out.new.items ≡ out.old.items ++ answer_word yes) }
{
    if yes {
        out.extend_from_slice(b" yes")?;
    } else {
        out.extend_from_slice(b" no")?;
    }
    Ok(())
}

fn answer(yes: bool, out: &mut Vec<u8>) -> Result<(), AllocError>
    ensures { OnOk result (out.new.items ≡ out.old.items ++ answer_line yes) }
{
    answer_word(yes, out)?;
    out.push(b'\n')?;
    Ok(())
}

pub(crate) fn hopeless(hopeless: bool, out: &mut Vec<u8>) -> Result<(), AllocError>
    ensures { OnOk result (out.new.items ≡ out.old.items ++ hopeless_text hopeless) }
{
    if hopeless {
        out.extend_from_slice(b" hopeless")?;
    } else {
        out.extend_from_slice(b" possible")?;
    }
    Ok(())
}

pub(crate) fn sure(sure: bool, out: &mut Vec<u8>) -> Result<(), AllocError>
    ensures { OnOk result (out.new.items ≡ out.old.items ++ sure_text sure) }
{
    if sure {
        out.extend_from_slice(b" sure")?;
    } else {
        out.extend_from_slice(b" unsure")?;
    }
    Ok(())
}

fn measures(
    games: &PageGames,
    id: u32,
    label: &[u8],
    h: u64,
    d: u64,
    out: &mut Vec<u8>,
) -> Result<(), AllocError>
    ensures { OnOk result (out.new.items ≡ out.old.items
        ++ vertex_line (top_of games.now.hopeful_levels) (top_of games.now.dual_levels) id label.now h d) }
{
    number(id as u64, out)?;
    blank_number(h, out)?;
    blank_number(d, out)?;
    hopeless(h == games.shape(Which::Hopeful).top(), out)?;
    sure(d == games.shape(Which::Dual).top(), out)?;
    put_beside(label, out)?;
    out.push(b'\n')?;
    Ok(())
}

pub(crate) fn identifier(game: &GuardedGame, v: u32) -> u32
    requires { v < length game.now.vertices }
    ensures { result ≡ slice_index (vertex_ids game.now.vertices) v }
{
    game.id(v)
}

/// Appends the line of a vertex.
pub(crate) fn vertex(
    games: &PageGames,
    game: &GuardedGame,
    labels: &VertexNames,
    hopeful: &Table,
    dual: &Table,
    v: u32,
    out: &mut Vec<u8>,
) -> Result<(), AllocError>
    requires game { v < length game.now.vertices }
    requires hopeful { v < length hopeful.now }
    requires dual { v < length dual.now }
    ensures { OnOk result (out.new.items ≡ out.old.items
        ++ vertex_line (top_of games.now.hopeful_levels) (top_of games.now.dual_levels)
        (slice_index (vertex_ids game.now.vertices) v) (label_of labels.now.names v)
        (slice_index hopeful.now v) (slice_index dual.now v)) }
{
    let id = identifier(game, v);
    measures(games, id, labels.name(v), hopeful.get(v), dual.get(v), out)
}

/// Appends the lines of all vertices.
fn vertices(
    games: &PageGames,
    game: &GuardedGame,
    labels: &VertexNames,
    hopeful: &Table,
    dual: &Table,
    out: &mut Vec<u8>,
) -> Result<(), AllocError>
    requires hopeful { length hopeful.now ≡ length game.now.vertices }
    requires dual { length dual.now ≡ length game.now.vertices }
    ensures { OnOk result (out.new.items ≡ out.old.items
        ++ vertex_lines (top_of games.now.hopeful_levels) (top_of games.now.dual_levels)
        (vertex_ids game.now.vertices) labels.now.names hopeful.now dual.now (length game.now.vertices)) }
{
    let count = game.vertices() as u32;
    for v in 0..count {
        vertex(games, game, labels, hopeful, dual, v, out)?;
    }
    Ok(())
}

/// Appends the lines of a page.
pub(crate) fn page(
    names: &Names,
    game: &GuardedGame,
    labels: &VertexNames,
    games: &PageGames,
    ds: &[Decision],
    full: bool,
    settled: bool,
    hopeful: &Table,
    dual: &Table,
    out: &mut Vec<u8>,
) -> Result<(), AllocError>
    requires decisions { All (λ d. d.feature < length names.now) ds.now }
    requires hopeful { length hopeful.now ≡ length game.now.vertices }
    requires dual { length dual.now ≡ length game.now.vertices }
    ensures { OnOk result (out.new.items ≡ out.old.items
        ++ show_text names.now (vertex_ids game.now.vertices) labels.now.names (top_of games.now.hopeful_levels)
        (top_of games.now.dual_levels) (map literal_of ds.now) full settled hopeful.now dual.now) }
{
    out.extend_from_slice(b"decisions")?;
    decided(names, ds, out)?;
    out.push(b'\n')?;
    out.extend_from_slice(b"full")?;
    answer(full, out)?;
    out.extend_from_slice(b"settled")?;
    answer(settled, out)?;
    vertices(games, game, labels, hopeful, dual, out)
}

pub(crate) fn count_line(word: &[u8], n: usize, out: &mut Vec<u8>) -> Result<(), AllocError>
    ensures { OnOk result (out.new.items ≡ out.old.items ++ count_line word.now n) }
{
    out.extend_from_slice(word)?;
    blank_number(n as u64, out)?;
    out.push(b'\n')?;
    Ok(())
}

/// Returns the number of vertices that have the top.
fn tops(table: &Table, top: u64) -> usize
    ensures { result ≡ count_by (λ n. n == top) table.now }
{
    table.values().iter().filter(|n| **n == top).count()
}

/// Returns the number of vertices that lack the top.
fn others(table: &Table, top: u64) -> usize
    ensures { result ≡ count_by (λ n. not (n == top)) table.now }
{
    table.values().iter().filter(|n| **n != top).count()
}

/// Appends how many vertices have the top, and how many lack it.
fn count_lines(
    at_top: &[u8],
    below: &[u8],
    table: &Table,
    top: u64,
    out: &mut Vec<u8>,
) -> Result<(), AllocError>
    ensures { OnOk result (out.new.items ≡ out.old.items ++ count_lines at_top.now below.now top table.now) }
{
    count_line(at_top, tops(table, top), out)?;
    count_line(below, others(table, top), out)
}

/// Appends whether the page is settled, and whether each feature is known. The mark ends the last line.
fn state_lines(settled: bool, full: bool, mark: &[u8], out: &mut Vec<u8>) -> Result<(), AllocError>
    ensures { OnOk result (out.new.items ≡ out.old.items ++ state_lines settled full mark.now) }
{
    out.extend_from_slice(b"settled")?;
    answer(settled, out)?;
    out.extend_from_slice(b"full")?;
    answer_word(full, out)?;
    out.extend_from_slice(mark)?;
    out.push(b'\n')?;
    Ok(())
}

/// Appends how many vertices have which verdict, and whether the page is settled and full. The mark ends the last line.
pub(crate) fn count(
    games: &PageGames,
    full: bool,
    settled: bool,
    mark: &[u8],
    hopeful: &Table,
    dual: &Table,
    out: &mut Vec<u8>,
) -> Result<(), AllocError>
    ensures { OnOk result (out.new.items ≡ out.old.items
        ++ count_text (top_of games.now.hopeful_levels)
        (top_of games.now.dual_levels) full settled mark.now hopeful.now dual.now) }
{
    let hopeful_top = games.shape(Which::Hopeful).top();
    let dual_top = games.shape(Which::Dual).top();
    count_lines(b"hopeless", b"possible", hopeful, hopeful_top, out)?;
    count_lines(b"sure", b"unsure", dual, dual_top, out)?;
    state_lines(settled, full, mark, out)
}

fn table(which: Which, out: &mut Vec<u8>) -> Result<(), AllocError>
    ensures { OnOk result (out.new.items ≡ out.old.items ++ table_text which) }
{
    match which {
        Which::Hopeful => out.extend_from_slice(b"hopeful")?,
        Which::Dual => out.extend_from_slice(b"dual")?,
    }
    Ok(())
}

fn decision(names: &Names, d: Decision, out: &mut Vec<u8>) -> Result<(), AllocError>
    requires { d.feature < length names.now }
    ensures { OnOk result (out.new.items ≡ out.old.items ++ deciding_text d.value ++ blank_name names.now d.feature
        ++ blank_number d.serial ++ 10 ∷ []) }
{
    if d.value {
        out.extend_from_slice(b"select")?;
    } else {
        out.extend_from_slice(b"exclude")?;
    }
    blank_name(names, d.feature, out)?;
    blank_number(d.serial, out)?;
    out.push(b'\n')?;
    Ok(())
}

/// Appends the line of an entry.
fn entry(
    names: &Names,
    game: &GuardedGame,
    labels: &VertexNames,
    e: &Entry,
    out: &mut Vec<u8>,
) -> Result<(), AllocError>
    requires { EntryIsWithin (length names.now) (length game.now.vertices) (entry_of e.now) }
    ensures { OnOk result (out.new.items ≡ out.old.items
        ++ entry_line names.now (vertex_ids game.now.vertices) labels.now.names (entry_of e.now)) }
{
    match e {
        Entry::Decide(d) => decision(names, *d, out),
        Entry::Lift {
            table: which,
            vertex: v,
            old,
            new,
            under,
        } => {
            table(*which, out)?;
            blank_number(identifier(game, *v) as u64, out)?;
            blank_number(*old, out)?;
            blank_number(*new, out)?;
            assumed(names, under.literals(), out)?;
            put_beside(labels.name(*v), out)?;
            out.push(b'\n')?;
            Ok(())
        }
    }
}

/// Appends the lines of a page's entries, and their number.
pub(crate) fn trail(
    names: &Names,
    game: &GuardedGame,
    labels: &VertexNames,
    entries: &[Entry],
    out: &mut Vec<u8>,
) -> Result<(), AllocError>
    requires { All (EntryIsWithin (length names.now) (length game.now.vertices)) (map entry_of entries.now) }
    ensures { OnOk result (out.new.items ≡ out.old.items
        ++ trail_text names.now (vertex_ids game.now.vertices) labels.now.names (map entry_of entries.now)) }
{
    for e in entries {
        entry(names, game, labels, e, out)?;
    }
    out.extend_from_slice(b"entries")?;
    blank_number(entries.len() as u64, out)?;
    out.push(b'\n')?;
    Ok(())
}

/// Appends the names of the features with this knowledge.
fn names_known(
    names: &Names,
    known: &Partial,
    value: Tri,
    out: &mut Vec<u8>,
) -> Result<(), AllocError>
    requires { length known.now ≡ length names.now }
    ensures { OnOk result (out.new.items ≡ out.old.items ++ names_known names.now known.now value (length names.now)) }
{
    let count = names.len() as u16;
    for f in 0..count {
        if known.value(f) == value {
            blank_name(names, f, out)?;
        }
    }
    Ok(())
}

fn products_line(
    word: &[u8],
    names: &Names,
    known: &Partial,
    value: Tri,
    out: &mut Vec<u8>,
) -> Result<(), AllocError>
    requires { length known.now ≡ length names.now }
    ensures { OnOk result (out.new.items ≡ out.old.items ++ products_line word.now names.now known.now value) }
{
    out.extend_from_slice(word)?;
    names_known(names, known, value, out)?;
    out.push(b'\n')?;
    Ok(())
}

/// Appends the features that are known in, known out, and not known.
pub(crate) fn products(names: &Names, known: &Partial, out: &mut Vec<u8>) -> Result<(), AllocError>
    requires { length known.now ≡ length names.now }
    ensures { OnOk result (out.new.items ≡ out.old.items ++ products_text names.now known.now) }
{
    products_line(b"in", names, known, Tri::Yes, out)?;
    products_line(b"out", names, known, Tri::No, out)?;
    products_line(b"open", names, known, Tri::Unknown, out)
}

fn known_word(value: Tri, out: &mut Vec<u8>) -> Result<(), AllocError>
    ensures { OnOk result (out.new.items ≡ out.old.items ++ known_word value) }
{
    match value {
        Tri::Yes => out.extend_from_slice(b"in")?,
        Tri::No => out.extend_from_slice(b"out")?,
        Tri::Unknown => out.extend_from_slice(b"open")?,
    }
    Ok(())
}

/// Appends the knowledge of a feature, in a word, and its name.
pub(crate) fn known(
    names: &Names,
    known: &Partial,
    feature: u16,
    out: &mut Vec<u8>,
) -> Result<(), AllocError>
    requires known { length known.now ≡ length names.now }
    requires feature { feature < length names.now }
    ensures { OnOk result (out.new.items ≡ out.old.items ++ known_text names.now known.now feature) }
{
    known_word(known.value(feature), out)?;
    blank_name(names, feature, out)?;
    out.push(b'\n')?;
    Ok(())
}

/// Appends the line of a vertex that has a chosen successor.
fn plan_line(
    game: &GuardedGame,
    labels: &VertexNames,
    v: u32,
    chosen: Option<u32>,
    out: &mut Vec<u8>,
) -> Result<(), AllocError>
    requires v { v < length game.now.vertices }
    requires w { IfSome chosen (λ w. w < length game.now.vertices) }
    ensures { OnOk result (out.new.items ≡ out.old.items
        ++ plan_line (vertex_ids game.now.vertices) labels.now.names v chosen) }
{
    match chosen {
        None => Ok(()),
        Some(w) => {
            out.extend_from_slice(b"plan")?;
            blank_number(identifier(game, v) as u64, out)?;
            blank_number(identifier(game, w) as u64, out)?;
            put_beside_both(labels.name(v), labels.name(w), out)?;
            out.push(b'\n')?;
            Ok(())
        }
    }
}

fn chosen_count(chosen: &[Option<u32>]) -> usize
    ensures { result ≡ count_by is_some chosen.now }
{
    chosen.iter().filter(|w| w.is_some()).count()
}

/// Appends the chosen successors, and their number.
pub(crate) fn plan(
    game: &GuardedGame,
    labels: &VertexNames,
    chosen: &[Option<u32>],
    out: &mut Vec<u8>,
) -> Result<(), AllocError>
    requires len { length chosen.now ≡ length game.now.vertices }
    requires below { All (λ w. IfSome w (λ v. v < length game.now.vertices)) chosen.now }
    ensures { OnOk result (out.new.items ≡ out.old.items
        ++ plan_text (vertex_ids game.now.vertices) labels.now.names chosen.now) }
{
    let count = game.vertices() as u32;
    for v in 0..count {
        plan_line(game, labels, v, chosen[v as usize], out)?;
    }
    out.extend_from_slice(b"plans")?;
    blank_number(chosen_count(chosen) as u64, out)?;
    out.push(b'\n')?;
    Ok(())
}
