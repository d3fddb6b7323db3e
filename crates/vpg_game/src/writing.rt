//! The one writing of a game.
ghost use Rattle.std.specs.Prelude.{◌≡◌, ◌<◌, ◌++◌, length, decimal, OnOk, OnErr};
ghost use Rattle.vpg_guards.specs.Formula.{IsBelow};
ghost use Rattle.vpg_game.specs.Game.{vertex_ids, AreEdges, AreVertices, IsAtLimit, SpellsGame};
ghost use Rattle.vpg_game.specs.Writing.{game_text, vertex_text, vertices_text, edge_text, edges_behind, owner_digit, greatest};

use crate::edge::Edge;
use crate::game::GuardedGame;
use crate::vertex::Vertex;
use itoa::Buffer;
use std::alloc::{AllocError, Global};
use vpg_features::Names;
use vpg_guards::Guard;
use vpg_sides::Player;

impl GuardedGame {
    /// Writes the game after what is there: `parity` and the greatest identifier, then a line for each vertex.
    pub fn write(&self, alloc: Global, names: &Names, out: &mut Vec<u8>) -> Result<(), AllocError>
        requires { length names.now ≡ self.now.features }
        ensures ok { OnOk result (out.new.items ≡ out.old.items ++ game_text names.now self.now) }
        ensures err { OnErr result (out.new.items ≡ out.old.items) }
        // The text that is written spells the game, so `read` returns it again, except for a dual with a priority at
        // the limit.
        ensures again { OnOk result
            (¬ IsAtLimit self.now → SpellsGame names.now (game_text names.now self.now) self.now) }
    {
        // The contract of `len` says that the names are feature names, each once.
        let _count = names.len();
        let mut text = Vec::from_slice(alloc, b"parity ")?;
        put_number(greatest_id(&self.vertices), &mut text)?;
        text.extend_from_slice(b";\n")?;
        put_vertices(alloc, &self.vertices, names, &mut text)?;
        out.extend_from_slice(&text)?;
        Ok(())
    }
}

/// Returns the greatest identifier.
fn greatest_id(vertices: &[Vertex]) -> u32
    ensures { result ≡ greatest (vertex_ids vertices.now) }
{
    let mut greatest = 0;
    for vertex in vertices {
        greatest = greatest.max(vertex.id);
    }
    greatest
}

fn put_number(n: u32, out: &mut Vec<u8>) -> Result<(), AllocError>
    ensures { OnOk result (out.new.items ≡ out.old.items ++ decimal n) }
{
    let mut buffer = Buffer::new();
    out.extend_from_slice(buffer.format(n).as_bytes())
}

/// Writes a line for each vertex.
fn put_vertices(
    alloc: Global,
    vertices: &[Vertex],
    names: &Names,
    out: &mut Vec<u8>,
) -> Result<(), AllocError>
    requires { AreVertices (length vertices.now) (length names.now) vertices.now }
    ensures { OnOk result (out.new.items ≡ out.old.items ++ vertices_text names.now vertices.now vertices.now) }
{
    for vertex in vertices {
        vertex.put(alloc, vertices, names, out)?;
    }
    Ok(())
}

/// Writes edges joined by `,`, after a first byte.
fn put_edges(
    alloc: Global,
    edges: &[Edge],
    vertices: &[Vertex],
    names: &Names,
    out: &mut Vec<u8>,
) -> Result<(), AllocError>
    requires { AreEdges (length vertices.now) (length names.now) edges.now }
    ensures { OnOk result (out.new.items ≡ out.old.items ++ edges_behind names.now vertices.now 32 edges.now) }
{
    let mut sign = b' ';
    for edge in edges {
        out.push(sign)?;
        put_edge(alloc, edge, vertices, names, out)?;
        sign = b',';
    }
    Ok(())
}

fn owner_digit(owner: Player) -> u8
    ensures { result ≡ owner_digit owner }
{
    match owner {
        Player::Even => b'0',
        Player::Odd => b'1',
    }
}

impl Vertex {
    fn put(
        &self,
        alloc: Global,
        vertices: &[Vertex],
        names: &Names,
        out: &mut Vec<u8>,
    ) -> Result<(), AllocError>
        requires { AreEdges (length vertices.now) (length names.now) self.now.edges }
        ensures { OnOk result (out.new.items ≡ out.old.items ++ vertex_text names.now vertices.now self.now) }
    {
        put_number(self.id, out)?;
        out.push(b' ')?;
        put_number(self.priority, out)?;
        out.push(b' ')?;
        out.push(owner_digit(self.owner))?;
        put_edges(alloc, &self.edges, vertices, names, out)?;
        out.extend_from_slice(b";\n")
    }
}

fn put_edge(
    alloc: Global,
    edge: &Edge,
    vertices: &[Vertex],
    names: &Names,
    out: &mut Vec<u8>,
) -> Result<(), AllocError>
    requires to { edge.now.to < length vertices.now }
    requires guard { IsBelow (length names.now) edge.now.guard }
    ensures { OnOk result (out.new.items ≡ out.old.items ++ edge_text names.now vertices.now edge.now) }
{
    let target = &vertices[edge.to as usize];
    put_number(target.id, out)?;
    if matches!(edge.guard, Guard::Always) {
        return Ok(());
    }
    out.push(b'[')?;
    edge.guard.write(alloc, names, out)?;
    out.push(b']')?;
    Ok(())
}
