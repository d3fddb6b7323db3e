//! Assertions.
ghost use Rattle.std.specs.Prelude.{◌≡◌, IfOk, map, option_map};
ghost use Rattle.vpg_script.specs.Script.{assert_command, asserted, claim_in, claims_in, exact_in, exact_named, exact_or, verdicts_command};
ghost use Rattle.vpg_script.specs.View.{argument_shown, command_shown, vertex_shown};

use crate::arguments::{Argument, same};
use crate::command::Command;
use crate::look::{Claim, Look, PageLook, Vertex, VertexLook};
use std::alloc::{AllocError, Global};

/// An exact verdict of a vertex, that a line asserts.
#[derive(Clone, Copy, Debug, PartialEq, Eq)]
pub enum ExactVerdict {
    /// Even wins in each product left, and there is one.
    Won,
    /// Odd wins in each product left, and there is one.
    Lost,
    /// Even wins in one product left, and Odd in another.
    Mixed,
}

pub(crate) fn exact_named(word: &[u8]) -> Option<ExactVerdict>
    ensures { result ≡ exact_named word.now }
{
    if same(word, b"won") {
        Some(ExactVerdict::Won)
    } else if same(word, b"lost") {
        Some(ExactVerdict::Lost)
    } else if same(word, b"mixed") {
        Some(ExactVerdict::Mixed)
    } else {
        None
    }
}

fn exact_in(argument: Argument<'_>) -> Option<ExactVerdict>
    ensures { result ≡ exact_in (argument_shown argument.entry) }
{
    match argument {
        Argument::Exact(verdict) => Some(verdict),
        _ => None,
    }
}

fn claim_in(argument: Argument<'_>) -> Option<Claim>
    ensures { result ≡ claim_in (argument_shown argument.entry) }
{
    match argument {
        Argument::Claim(claim) => Some(claim),
        _ => None,
    }
}

/// Returns the verdicts that arguments name, if each names one.
fn claims_in(alloc: Global, arguments: &[Argument<'_>]) -> Result<Option<Vec<Claim>>, AllocError>
    ensures { IfOk result (λ found. option_map (λ claims. claims.items) found
        ≡ claims_in (map argument_shown arguments.now)) }
{
    let mut claims = Vec::new(alloc);
    for argument in arguments {
        let Some(claim) = claim_in(*argument) else {
            return Ok(None);
        };
        claims.push(claim)?;
    }
    Ok(Some(claims))
}

/// Returns the assertion of the verdicts of a vertex that arguments name.
fn verdicts_command<'t>(
    alloc: Global,
    vertex: Vertex<'t>,
    arguments: &[Argument<'_>],
) -> Result<Option<Command<'t>>, AllocError>
    ensures { IfOk result (λ found. option_map command_shown found
        ≡ option_map (verdicts_command (vertex_shown vertex.entry)) (claims_in (map argument_shown arguments.now))) }
{
    let Some(claims) = claims_in(alloc, arguments)? else {
        return Ok(None);
    };
    Ok(Some(Command::Look(Look::OfClaims(vertex, claims))))
}

/// Returns the assertion of a vertex: of the exact verdict if there is one, or else of those that arguments name.
fn exact_or<'t>(
    alloc: Global,
    vertex: Vertex<'t>,
    exact: Option<ExactVerdict>,
    arguments: &[Argument<'_>],
) -> Result<Option<Command<'t>>, AllocError>
    ensures { IfOk result (λ found. option_map command_shown found
        ≡ exact_or (vertex_shown vertex.entry) exact (map argument_shown arguments.now)) }
{
    match exact {
        Some(verdict) => Ok(Some(Command::Look(Look::OfVertex(VertexLook::Is(verdict), vertex)))),
        None => verdicts_command(alloc, vertex, arguments),
    }
}

/// Returns the assertion of a word alone, or of a vertex and the verdicts that arguments name.
fn asserted<'t>(
    alloc: Global,
    state: Option<PageLook>,
    vertex: Vertex<'t>,
    arguments: &[Argument<'_>],
) -> Result<Option<Command<'t>>, AllocError>
    ensures { IfOk result (λ found. option_map command_shown found
        ≡ asserted state (vertex_shown vertex.entry) (map argument_shown arguments.now)) }
{
    match arguments {
        [] => match state {
            Some(state) => Ok(Some(Command::Look(Look::OfPage(state)))),
            None => Ok(None),
        },
        [verdict] => exact_or(alloc, vertex, exact_in(*verdict), arguments),
        [_, _, ..] => verdicts_command(alloc, vertex, arguments),
    }
}

/// Returns the command that asserts what its arguments say.
pub(crate) fn assert_command<'t>(
    alloc: Global,
    first: Argument<'t>,
    more: &[Argument<'_>],
) -> Result<Option<Command<'t>>, AllocError>
    ensures { IfOk result (λ found. option_map command_shown found
        ≡ assert_command (argument_shown first.entry) (map argument_shown more.now)) }
{
    match first {
        Argument::Asserted(state, vertex) => asserted(alloc, state, vertex, more),
        _ => Ok(None),
    }
}
