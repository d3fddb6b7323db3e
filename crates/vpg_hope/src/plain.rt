//! Plain games with the identifiers of their vertices.
ghost use Rattle.std.specs.Prelude.{◌≡◌, ◌<◌, ◌++◌, length, decimal, All, IfOk, OnOk, OnErr};
ghost use Rattle.vpg_game.specs.Game.{vertex_ids};
ghost use Rattle.vpg_game.specs.Writing.{greatest};
ghost use Rattle.vpg_hope.specs.Plain.{projection, plain_text};
ghost use Rattle.vpg_hope.specs.PlainParts.{marked_text, line_text};

use crate::arena::Arena;
use crate::selection::Selection;
use itoa::Buffer;
use std::alloc::{AllocError, Global};
use std::marker::Model;
use vpg_game::GuardedGame;
use vpg_sides::Player;

/// A plain game with the identifiers of its vertices: the game of a product.
///
/// Clauses see it as an `IdentifiedGame` of `specs/Plain`.
pub struct PlainGame {
    ids: Vec<u32>,
    arena: Arena,
}

// Not derived: a derived `drop` would be proved again at each exit that owns such a value.
impl Drop for PlainGame {
    fn drop(self) {
        let PlainGame { ids: _, arena: _ } = self;
    }
}

impl Model for PlainGame {
    ghost use Rattle.std.specs.Prelude.{◌≡◌, length};
    ghost use Rattle.vpg_hope.specs.Plain.{IdentifiedGame};

    ghost Value = { IdentifiedGame };

    ghost view = { λ p. record { ids = p.ids.items; game = p.arena } };

    ghost invariant = { λ p. length p.ids.items ≡ length p.arena };
}

impl PlainGame {
    /// Returns the game of a set of features.
    pub(crate) fn of(
        alloc: Global,
        game: &GuardedGame,
        set: &[bool],
    ) -> Result<PlainGame, AllocError>
        requires { length set.now ≡ game.now.features }
        ensures { IfOk result (λ plain. plain ≡ projection set.now game.now) }
    {
        let ids = ids_of(alloc, game)?;
        let arena = Arena::selected(alloc, game, Selection::Product(set))?;
        Ok(PlainGame { ids, arena })
    }

    /// Writes the game after what is there, in PGSolver's format. First come `parity`, the greatest identifier and `;`,
    /// then a line for each vertex in file order. A line has the identifier, the priority, the owner (0 for Even, 1 for
    /// Odd), a blank and the successors with commas between if there are any, and `;`. If memory runs out, nothing is
    /// written.
    pub fn write(&self, alloc: Global, out: &mut Vec<u8>) -> Result<(), AllocError>
        ensures ok { OnOk result (out.new.items ≡ out.old.items ++ plain_text self.now) }
        ensures err { OnErr result (out.new.items ≡ out.old.items) }
    {
        let mut text = Vec::new(alloc);
        self.put(&mut text)?;
        out.extend_from_slice(&text)?;
        Ok(())
    }

    fn put(&self, text: &mut Vec<u8>) -> Result<(), AllocError>
        ensures { OnOk result (text.new.items ≡ text.old.items ++ plain_text self.now) }
    {
        text.extend_from_slice(b"parity ")?;
        put_number(text, greatest_of(&self.ids))?;
        text.extend_from_slice(b";\n")?;
        for v in 0..self.arena.vertices() {
            self.put_vertex(text, v)?;
        }
        Ok(())
    }

    fn put_vertex(&self, text: &mut Vec<u8>, v: u32) -> Result<(), AllocError>
        requires { v < length self.now.game }
        ensures { OnOk result (text.new.items ≡ text.old.items ++ line_text self.now v) }
    {
        put_number(text, self.ids[v as usize])?;
        text.push(b' ')?;
        put_number(text, self.arena.priority(v))?;
        text.push(b' ')?;
        text.push(match self.arena.owner(v) {
            Player::Even => b'0',
            Player::Odd => b'1',
        })?;
        put_successors(text, &self.ids, self.arena.kept(v))?;
        text.extend_from_slice(b";\n")?;
        Ok(())
    }
}

/// Returns the identifiers of a game's vertices.
fn ids_of(alloc: Global, game: &GuardedGame) -> Result<Vec<u32>, AllocError>
    ensures { IfOk result (λ ids. ids.items ≡ vertex_ids game.now.vertices) }
{
    let vertices = game.vertices();
    let mut ids = Vec::with_capacity(alloc, vertices)?;
    for v in 0..vertices as u32 {
        ids.push(game.id(v))?;
    }
    Ok(ids)
}

/// Returns the greatest of some identifiers, or 0.
fn greatest_of(ids: &[u32]) -> u32
    ensures { result ≡ greatest ids.now }
{
    let mut most = 0;
    for id in ids {
        most = most.max(*id);
    }
    most
}

fn put_number(text: &mut Vec<u8>, number: u32) -> Result<(), AllocError>
    ensures { OnOk result (text.new.items ≡ text.old.items ++ decimal number) }
{
    let mut buffer = Buffer::new();
    text.extend_from_slice(buffer.format(number).as_bytes())
}

fn put_successors(text: &mut Vec<u8>, ids: &[u32], successors: &[u32]) -> Result<(), AllocError>
    requires { All (λ w. w < length ids.now) successors.now }
    ensures { OnOk result (text.new.items ≡ text.old.items ++ marked_text 32 ids.now successors.now) }
{
    let mut mark = b' ';
    for w in successors {
        text.push(mark)?;
        put_number(text, ids[*w as usize])?;
        mark = b',';
    }
    Ok(())
}
