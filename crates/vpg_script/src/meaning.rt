//! The meaning of lines with names for vertices.
ghost use Rattle.std.specs.Prelude.{◌≡◌, map, IfOk, is_some};
ghost use Rattle.vpg_features.specs.Names.{index_of};
ghost use Rattle.vpg_script.specs.Calling.{calls, meant, meant_command, meant_feature, meant_look, meant_name, meant_vertex};
ghost use Rattle.vpg_script.specs.View.{command_shown, look_shown, request_shown, vertex_shown};

use crate::calling::Callings;
use crate::command::{Command, Request};
use crate::look::{Claim, FeatureLook, Look, Vertex, VertexLook};
use std::alloc::{AllocError, Global};
use vpg_features::Names;

/// Returns a vertex by its identifier, if its name stands for one.
fn meant_vertex<'t>(callings: &Callings, vertex: Vertex<'t>) -> Vertex<'t>
    ensures { vertex_shown result ≡ meant_vertex callings.now (vertex_shown vertex.entry) }
{
    match vertex {
        Vertex::Number(identifier) => Vertex::Number(identifier),
        Vertex::Name(name) => match callings.identifier(name) {
            Some(identifier) => Vertex::Number(identifier),
            None => Vertex::Name(name),
        },
    }
}

/// Returns these vertices by their identifiers, if their names stand for some.
fn meant_vertices<'t>(
    alloc: Global,
    callings: &Callings,
    vertices: &[Vertex<'t>],
) -> Result<Vec<Vertex<'t>>, AllocError>
    ensures { IfOk result (λ r. map vertex_shown r.items
        ≡ map (meant_vertex callings.now) (map vertex_shown vertices.now)) }
{
    let mut numbered = Vec::new(alloc);
    for vertex in vertices {
        numbered.push(meant_vertex(callings, *vertex))?;
    }
    Ok(numbered)
}

fn is_feature(features: &Names, name: &[u8]) -> bool
    ensures { result ≡ is_some (index_of features.now name.now) }
{
    features.get(name).is_some()
}

/// Returns the look at why the feature of a name is known, or else at why a vertex of this name has its verdicts.
fn meant_name<'t>(callings: &Callings, features: &Names, name: &'t [u8]) -> Look<'t>
    ensures { look_shown result ≡ meant_name (is_some (index_of features.now name.now)) (calls callings.now name.now)
        callings.now name.now }
{
    if is_feature(features, name) || !callings.calls(name) {
        return Look::OfFeature(FeatureLook::Why, name);
    }
    Look::OfVertex(VertexLook::Why, meant_vertex(callings, Vertex::Name(name)))
}

/// Returns a look at a feature. Only `why` has a second meaning.
fn meant_feature<'t>(
    callings: &Callings,
    features: &Names,
    look: FeatureLook,
    name: &'t [u8],
) -> Look<'t>
    ensures { look_shown result ≡ meant_feature callings.now features.now look name.now }
{
    match look {
        FeatureLook::Known => Look::OfFeature(look, name),
        FeatureLook::Uses => Look::OfFeature(look, name),
        FeatureLook::Why => meant_name(callings, features, name),
    }
}

fn meant_look<'t>(
    alloc: Global,
    callings: &Callings,
    features: &Names,
    look: &Look<'t>,
) -> Result<Look<'t>, AllocError>
    ensures { IfOk result (λ r. look_shown r ≡ meant_look callings.now features.now (look_shown look.now)) }
{
    match look {
        Look::OfPage(what) => Ok(Look::OfPage(*what)),
        Look::OfVertex(what, vertex) => {
            Ok(Look::OfVertex(*what, meant_vertex(callings, *vertex)))
        }
        Look::OfVertices(vertices) => {
            Ok(Look::OfVertices(meant_vertices(alloc, callings, vertices)?))
        }
        Look::OfClaims(vertex, claims) => {
            let claims: Vec<Claim> = Vec::from_slice(alloc, claims)?;
            Ok(Look::OfClaims(meant_vertex(callings, *vertex), claims))
        }
        Look::OfFeature(what, name) => Ok(meant_feature(callings, features, *what, *name)),
        Look::OfChoice(value, name) => Ok(Look::OfChoice(*value, *name)),
    }
}

fn meant_command<'t>(
    alloc: Global,
    callings: &Callings,
    features: &Names,
    command: &Command<'t>,
) -> Result<Command<'t>, AllocError>
    ensures { IfOk result (λ r. command_shown r
        ≡ meant_command callings.now features.now (command_shown command.now)) }
{
    match command {
        Command::Select(name) => Ok(Command::Select(*name)),
        Command::Exclude(name) => Ok(Command::Exclude(*name)),
        Command::Retract(name) => Ok(Command::Retract(*name)),
        Command::Reset => Ok(Command::Reset),
        Command::Undo(serial) => Ok(Command::Undo(*serial)),
        Command::Redo(serial) => Ok(Command::Redo(*serial)),
        Command::Keep(serial) => Ok(Command::Keep(*serial)),
        Command::Forget(serial) => Ok(Command::Forget(*serial)),
        Command::Lift(table, vertex) => {
            Ok(Command::Lift(*table, meant_vertex(callings, *vertex)))
        }
        Command::Harvest => Ok(Command::Harvest),
        Command::Commit(number) => Ok(Command::Commit(*number)),
        Command::Settle(sweeps) => Ok(Command::Settle(*sweeps)),
        Command::Changed => Ok(Command::Changed),
        Command::Look(look) => Ok(Command::Look(meant_look(alloc, callings, features, look)?)),
    }
}

/// Returns the request as meant, with these names of vertices and over these features: each name of a vertex is
/// replaced by the identifier that it stands for. A name that stands for none stays. `why F` asks about the feature F,
/// if there is one, and else about the vertex of that name.
pub fn meant<'t>(
    alloc: Global,
    callings: &Callings,
    features: &Names,
    request: &Request<'t>,
) -> Result<Request<'t>, AllocError>
    ensures { IfOk result (λ r. request_shown r ≡ meant callings.now features.now (request_shown request.now)) }
{
    let command = meant_command(alloc, callings, features, &request.command)?;
    Ok(Request {
        label: request.label,
        command,
    })
}
