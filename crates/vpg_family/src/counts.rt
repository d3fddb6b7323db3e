//! The line that counts a family.
ghost use Rattle.std.specs.Prelude.{◌≡◌, ◌++◌, OnOk, option_map};
ghost use Rattle.vpg_game.specs.Game.{edges_in};
ghost use Rattle.vpg_formula.specs.EntryCode.{earlier_of};
ghost use Rattle.vpg_family.specs.Counts.{labelled, root_line, roots_text, counts_text};

use itoa::Buffer;
use std::alloc::AllocError;
use vpg_formula::Entry;
use vpg_game::GuardedGame;

/// Returns the number of edges: of distinct successors, over all vertices.
fn edges(game: &GuardedGame) -> u32
    ensures { result ≡ edges_in game.now.vertices }
{
    let mut edges = 0;
    for v in 0..game.vertices() as u32 {
        edges += game.edges(v).len() as u32;
    }
    edges
}

/// Appends a word, a blank and a number.
pub(crate) fn put_labelled(word: &[u8], n: u64, out: &mut Vec<u8>) -> Result<(), AllocError>
    ensures { OnOk result (out.new.items ≡ out.old.items ++ labelled word.now n) }
{
    let mut buffer = Buffer::new();
    out.extend_from_slice(word)?;
    out.push(b' ')?;
    out.extend_from_slice(buffer.format(n).as_bytes())?;
    Ok(())
}

/// Appends one line: the vertices, the edges and the features, and the top measures of the game and of its dual.
pub(crate) fn put_counts(game: &GuardedGame, out: &mut Vec<u8>) -> Result<(), AllocError>
    ensures { OnOk result (out.new.items ≡ out.old.items ++ counts_text game.now) }
{
    let (top, dual_top) = game.tops();
    put_labelled(b"vertices", game.vertices() as u64, out)?;
    put_labelled(b" edges", edges(game) as u64, out)?;
    put_labelled(b" features", game.features() as u64, out)?;
    put_labelled(b" top", top, out)?;
    put_labelled(b"", dual_top, out)?;
    out.push(b'\n')?;
    Ok(())
}

/// Appends the line of an entry and a vertex, if there are both.
fn put_root(
    entry: Option<&Entry>,
    vertex: Option<&usize>,
    out: &mut Vec<u8>,
) -> Result<(), AllocError>
    ensures { OnOk result (out.new.items ≡ out.old.items
        ++ root_line (option_map (λ e. e.now.name) entry.entry) (option_map (λ v. v.now) vertex.entry)) }
{
    match (entry, vertex) {
        (Some(entry), Some(vertex)) => {
            put_labelled(entry.name.as_bytes(), *vertex as u64, out)?;
            out.push(b'\n')?;
            Ok(())
        }
        _ => Ok(()),
    }
}

/// Appends a line for each entry, with its name and the vertex of its requirement.
pub(crate) fn put_roots(
    entries: &[Entry],
    vertices: &[usize],
    out: &mut Vec<u8>,
) -> Result<(), AllocError>
    ensures { OnOk result (out.new.items ≡ out.old.items ++ roots_text (earlier_of entries.now) vertices.now) }
{
    for n in 0..entries.len() {
        put_root(entries.get(n), vertices.get(n), out)?;
    }
    Ok(())
}
