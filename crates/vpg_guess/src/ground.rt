//! The graphs and scales for guesses of a table.
use crate::raising::Raising;
use std::alloc::{AllocError, Global};
use vpg_game::GuardedGame;
use vpg_hope::Arena;
use vpg_measure::Shape;
use vpg_regions::{Arrivals, Draft, PerVertex, Predecessors};
use vpg_sides::Player;
use vpg_values::{GuessGround, Scale, TableGround};

/// Lists of an earlier page serve if at most one in this many of their edges and vertices is gone.
const STALE: u64 = 8;

/// The lists of a game that guesses keep from one of its pages to the next: those that lifts of either table use, and
/// the shape of the dual's dual. The groundwork of another game costs time, and never a clause.
pub struct Groundwork {
    pub(crate) hopeful: Option<TableGround>,
    pub(crate) dual: Option<TableGround>,
    pub(crate) dual_of_dual: Option<Shape>,
}

// Not derived: a derived `drop` would be proved again at each exit that owns such a value.
impl Drop for Groundwork {
    fn drop(self) {
        let Groundwork {
            hopeful: _,
            dual: _,
            dual_of_dual: _,
        } = self;
    }
}

impl Groundwork {
    /// Returns the groundwork with nothing yet.
    pub fn none() -> Groundwork {
        Groundwork {
            hopeful: None,
            dual: None,
            dual_of_dual: None,
        }
    }
}

/// Returns the shape of the dual's dual of a game, made first if it isn't kept.
pub(crate) fn shape_in<'a>(
    alloc: Global,
    game: &GuardedGame,
    kept: &'a mut Option<Shape>,
) -> Result<&'a Shape, AllocError> {
    let shape = match kept.take() {
        Some(shape) => shape,
        None => Shape::of_dual_of_dual(alloc, game)?,
    };
    Ok(kept.insert(shape))
}

/// Returns the predecessors of each vertex of an arena.
pub(crate) fn predecessors_of(alloc: Global, arena: &Arena) -> Result<Predecessors, AllocError> {
    let mut arrivals = Arrivals::none(alloc, arena.vertices())?;
    for v in 0..arena.vertices() {
        arrivals.count(arena.kept(v));
    }
    let mut places = arrivals.into_places(alloc)?;
    for v in 0..arena.vertices() {
        places.write(v, arena.kept(v));
    }
    Ok(places.finish())
}

// The vertices of an arena, with their edges.
fn write_down(arena: &Arena, draft: &mut Draft) {
    for v in 0..arena.vertices() {
        draft.edges(arena.kept(v));
        draft.vertex(arena.owner(v), arena.priority(v));
    }
}

// The number by which priorities are raised: those of the dual are one greater.
fn raise_for(player: Player) -> u32 {
    match player {
        Player::Even => 0,
        Player::Odd => 1,
    }
}

/// Returns the scale of an arena's shape for Even, or of the shape of its dual for Odd.
pub(crate) fn scale_of(
    alloc: Global,
    arena: &Arena,
    shape: &Shape,
    player: Player,
) -> Result<Scale, AllocError> {
    let raise = raise_for(player);
    let mut priorities = PerVertex::of(alloc, arena.vertices(), 0)?;
    let mut greatest = 0u32;
    for v in 0..arena.vertices() {
        let priority = arena.priority(v).saturating_add(raise);
        priorities.set(v, priority);
        greatest = greatest.max(priority);
    }
    scale_with(alloc, shape, player, priorities, greatest)
}

/// Returns the scale of the game of these vertices of the arena, in this order: of its shape for Even, of the shape of
/// its dual for Odd.
pub(crate) fn scale_of_part(
    alloc: Global,
    arena: &Arena,
    shape: &Shape,
    player: Player,
    vertices: &[u32],
) -> Result<Scale, AllocError> {
    let raise = raise_for(player);
    let count = u32::try_from(vertices.len()).unwrap_or(u32::MAX);
    let mut priorities = PerVertex::of(alloc, count, 0)?;
    let mut greatest = 0u32;
    let mut place = 0u32;
    for v in vertices {
        let priority = priority_in(arena, *v).saturating_add(raise);
        priorities.set(place, priority);
        greatest = greatest.max(priority);
        place = place.saturating_add(1);
    }
    scale_with(alloc, shape, player, priorities, greatest)
}

// The scale of these priorities, of which this is the greatest.
fn scale_with(
    alloc: Global,
    shape: &Shape,
    player: Player,
    priorities: PerVertex<u32>,
    greatest: u32,
) -> Result<Scale, AllocError> {
    let mut weights = PerVertex::of(alloc, greatest.saturating_add(1), 1)?;
    for priority in 0..=greatest {
        weights.set(priority, shape.weight(u64::from(priority)));
    }
    Scale::with(alloc, player, shape.top(), priorities, weights)
}

/// Whether the lists serve another page of the game, with this arena: it has as many edges or a few less.
pub(crate) fn serves(lifts: &TableGround, arena: &Arena) -> bool {
    let listed = lifts.predecessors.size();
    let present = size_of(arena);
    present <= listed && listed.saturating_sub(listed / STALE) <= present
}

/// Returns the lists that lifts use on another page of the game, with this arena, made new.
pub(crate) fn renewed(
    alloc: Global,
    lifts: TableGround,
    arena: &Arena,
) -> Result<TableGround, AllocError> {
    let (_, even) = lifts.into_parts();
    let predecessors = predecessors_of(alloc, arena)?;
    Ok(TableGround { predecessors, even })
}

/// Returns the graph and the scales for guesses of a table.
pub(crate) fn ground_of(raising: &Raising<'_>) -> Result<GuessGround, AllocError> {
    let even = scale_of(raising.alloc, raising.arena, raising.shape, Player::Even)?;
    let predecessors = predecessors_of(raising.alloc, raising.arena)?;
    ground_over(raising, TableGround { predecessors, even })
}

/// Returns the graph and the scales for guesses of a table, from the lists that its lifts use.
pub(crate) fn ground_over(
    raising: &Raising<'_>,
    lifts: TableGround,
) -> Result<GuessGround, AllocError> {
    let (alloc, arena) = (raising.alloc, raising.arena);
    let (predecessors, even) = lifts.into_parts();
    let odd = scale_of(alloc, arena, raising.dual_shape, Player::Odd)?;
    let mut draft = Draft::with_room(alloc, arena.vertices() as usize, predecessors.edges())?;
    write_down(arena, &mut draft);
    let graph = draft.finish_with(alloc, predecessors)?;
    Ok(GuessGround { graph, even, odd })
}

// The number of edges and vertices in an arena.
fn size_of(arena: &Arena) -> u64 {
    let mut size = u64::from(arena.vertices());
    for v in 0..arena.vertices() {
        size = size.saturating_add(arena.kept(v).len() as u64);
    }
    size
}

/// Returns a vertex's priority in an arena.
pub(crate) fn priority_in(arena: &Arena, v: u32) -> u32 {
    if v < arena.vertices() {
        arena.priority(v)
    } else {
        0
    }
}

/// Returns a vertex's owner in an arena.
pub(crate) fn owner_in(arena: &Arena, v: u32) -> Player {
    if v < arena.vertices() {
        arena.owner(v)
    } else {
        Player::Even
    }
}

/// Returns the successors of a vertex in an arena.
pub(crate) fn kept_in(arena: &Arena, v: u32) -> &[u32] {
    if v < arena.vertices() {
        arena.kept(v)
    } else {
        &[]
    }
}
