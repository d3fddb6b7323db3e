//! The texts of some vertices of a page, and of assertions about it.
ghost use Rattle.std.specs.Prelude.{◌≡◌, ◌==◌, ◌++◌, ◌<◌, All, IfSome, flat_map, length, not, position, IfOk, OnOk};
ghost use Rattle.std.specs.List.{list_all};
ghost use Rattle.vpg_game.specs.Game.{vertex_ids};
ghost use Rattle.vpg_game.specs.Levels.{top_of};
ghost use Rattle.vpg_script.specs.View.{vertex_shown};
ghost use Rattle.vpg_script.specs.Answer.{IsGiven, failed};
ghost use Rattle.vpg_texts.specs.Sights.{claim_text, failing_text, full_answer, holding, holds, is_open, lines_at, open_text, settled_answer, verdicts_answer, verdicts_at, vertex_of};

use crate::text;
use std::alloc::AllocError;
use vpg_game::{GuardedGame, VertexNames};
use vpg_measure::{PageGames, Table};
use vpg_script::{Claim, Tone, Vertex};
use vpg_sides::Which;

/// Returns the place of the vertex of an identifier.
fn found(game: &GuardedGame, identifier: u32) -> Option<u32>
    ensures vertex { result ≡ position (λ n. n == identifier) (vertex_ids game.now.vertices) }
    ensures within { IfSome result (λ v. v < length game.now.vertices) }
{
    game.find(identifier)
}

/// Returns the place of a vertex that a line names: that of its identifier. `None` for each name: a game has no names
/// of vertices.
pub fn vertex_at(game: &GuardedGame, vertex: Vertex<'_>) -> Option<u32>
    ensures vertex { result ≡ vertex_of (vertex_ids game.now.vertices) (vertex_shown vertex.entry) }
    ensures within { IfSome result (λ v. v < length game.now.vertices) }
{
    match vertex {
        Vertex::Number(identifier) => found(game, identifier),
        Vertex::Name(_) => None,
    }
}

/// Appends the lines of the vertices at these places.
pub(crate) fn lines_at(
    games: &PageGames,
    game: &GuardedGame,
    labels: &VertexNames,
    hopeful: &Table,
    dual: &Table,
    vertices: &[u32],
    out: &mut Vec<u8>,
) -> Result<(), AllocError>
    requires vertices { All (λ v. v < length game.now.vertices) vertices.now }
    requires hopeful { length hopeful.now ≡ length game.now.vertices }
    requires dual { length dual.now ≡ length game.now.vertices }
    ensures { OnOk result (out.new.items ≡ out.old.items
        ++ lines_at (top_of games.now.hopeful_levels) (top_of games.now.dual_levels)
        (vertex_ids game.now.vertices) labels.now.names hopeful.now dual.now vertices.now) }
{
    for v in vertices {
        text::vertex(games, game, labels, hopeful, dual, *v, out)?;
    }
    Ok(())
}

fn holds(claim: Claim, settled: bool, hopeless: bool, sure: bool) -> bool
    ensures { result ≡ holds settled hopeless sure claim }
{
    match claim {
        Claim::Hopeless => hopeless,
        Claim::Possible => settled && !hopeless,
        Claim::Sure => sure,
        Claim::Unsure => settled && !sure,
    }
}

/// Whether settling the page could still change a claim's truth.
fn is_open(claim: Claim, settled: bool, hopeless: bool, sure: bool) -> bool
    ensures { result ≡ is_open settled hopeless sure claim }
{
    match claim {
        Claim::Hopeless | Claim::Possible => !settled && !hopeless,
        Claim::Sure | Claim::Unsure => !settled && !sure,
    }
}

fn claim(claim: Claim, out: &mut Vec<u8>) -> Result<(), AllocError>
    ensures { OnOk result (out.new.items ≡ out.old.items ++ claim_text claim) }
{
    match claim {
        Claim::Hopeless => out.extend_from_slice(b" hopeless")?,
        Claim::Possible => out.extend_from_slice(b" possible")?,
        Claim::Sure => out.extend_from_slice(b" sure")?,
        Claim::Unsure => out.extend_from_slice(b" unsure")?,
    }
    Ok(())
}

/// Appends the claims that are wrong.
fn failing(
    settled: bool,
    hopeless: bool,
    sure: bool,
    claims: &[Claim],
    out: &mut Vec<u8>,
) -> Result<(), AllocError>
    ensures { OnOk result (out.new.items ≡ out.old.items
        ++ flat_map (failing_text settled hopeless sure) claims.now) }
{
    for c in claims {
        if !holds(*c, settled, hopeless, sure) {
            claim(*c, out)?;
        }
    }
    Ok(())
}

/// Appends the end of a line: whether settling the page could still change one of the claims.
fn open_end(none: bool, out: &mut Vec<u8>) -> Result<(), AllocError>
    ensures { OnOk result (out.new.items ≡ out.old.items ++ open_text none) }
{
    if none {
        out.extend_from_slice(b"\n")
    } else {
        out.extend_from_slice(b" unsettled\n")
    }
}

fn all_hold(claims: &[Claim], settled: bool, hopeless: bool, sure: bool) -> bool
    ensures { result ≡ list_all (holds settled hopeless sure) claims.now }
{
    claims.iter().all(|c| holds(*c, settled, hopeless, sure))
}

fn none_is_open(claims: &[Claim], settled: bool, hopeless: bool, sure: bool) -> bool
    ensures { result ≡ list_all (λ claim. not (is_open settled hopeless sure claim)) claims.now }
{
    claims.iter().all(|c| !is_open(*c, settled, hopeless, sure))
}

/// Appends that what is asserted holds.
fn holding(out: &mut Vec<u8>) -> Result<Tone, AllocError>
    ensures { IfOk result (λ tone. IsGiven holding tone out.old.items out.new.items) }
{
    out.extend_from_slice(b"holds\n")?;
    Ok(Tone::Done)
}

/// Appends that what is asserted doesn't hold.
fn fails(text: &[u8], out: &mut Vec<u8>) -> Result<Tone, AllocError>
    ensures { IfOk result (λ tone. IsGiven (failed text.now) tone out.old.items out.new.items) }
{
    out.extend_from_slice(text)?;
    Ok(Tone::Failed)
}

/// Appends whether all claims are right, or those that are not.
fn verdicts(
    settled: bool,
    hopeless: bool,
    sure: bool,
    claims: &[Claim],
    out: &mut Vec<u8>,
) -> Result<Tone, AllocError>
    ensures { IfOk result (λ tone. IsGiven (verdicts_answer settled hopeless sure claims.now) tone
        out.old.items out.new.items) }
{
    if all_hold(claims, settled, hopeless, sure) {
        return holding(out);
    }
    out.extend_from_slice(b"fails")?;
    failing(settled, hopeless, sure, claims, out)?;
    open_end(none_is_open(claims, settled, hopeless, sure), out)?;
    Ok(Tone::Failed)
}

/// Appends whether each feature is known.
pub(crate) fn full_line(full: bool, out: &mut Vec<u8>) -> Result<Tone, AllocError>
    ensures { IfOk result (λ tone. IsGiven (full_answer full) tone out.old.items out.new.items) }
{
    if full {
        holding(out)
    } else {
        fails(b"fails full\n", out)
    }
}

/// Appends whether both tables are progress tables.
pub(crate) fn settled_line(settled: bool, out: &mut Vec<u8>) -> Result<Tone, AllocError>
    ensures { IfOk result (λ tone. IsGiven (settled_answer settled) tone out.old.items out.new.items) }
{
    if settled {
        holding(out)
    } else {
        fails(b"fails settled\n", out)
    }
}

/// Appends whether the vertex at a place has these verdicts, or those that it has not, and returns the answer's tone.
pub(crate) fn verdicts_at(
    games: &PageGames,
    hopeful: &Table,
    dual: &Table,
    settled: bool,
    claims: &[Claim],
    vertex: u32,
    out: &mut Vec<u8>,
) -> Result<Tone, AllocError>
    requires hopeful { vertex < length hopeful.now }
    requires dual { vertex < length dual.now }
    ensures { IfOk result (λ tone. IsGiven
        (verdicts_at (top_of games.now.hopeful_levels) (top_of games.now.dual_levels) hopeful.now dual.now settled
        claims.now vertex) tone out.old.items out.new.items) }
{
    let hopeless = hopeful.get(vertex) == games.shape(Which::Hopeful).top();
    let sure = dual.get(vertex) == games.shape(Which::Dual).top();
    verdicts(settled, hopeless, sure, claims, out)
}
