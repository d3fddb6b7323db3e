//! Bounds for the vertices that Odd is guessed to win, and for values cut to a weight, with ranks to show them.
use crate::ground::{GuessGround, value_in};
use crate::improve::Guess;
use crate::subgame::{Solved, Subgame};
use crate::values::Evaluation;
use std::alloc::{AllocError, Global};
use vpg_regions::{Budget, Choices, Found, PerVertex, Regions};
use vpg_sides::Player;

// Values that a table is to be raised to, and the vertices at which they exceed it.
struct Raises {
    bounds: PerVertex<u64>,
    exceeding: Vec<u32>,
}

// Not derived: a derived `drop` would be proved again at each exit that owns such a value.
impl Drop for Raises {
    fn drop(self) {
        let Raises {
            bounds: _,
            exceeding: _,
        } = self;
    }
}

impl Raises {
    fn of(bounds: PerVertex<u64>, exceeding: Found<u32>) -> Result<Raises, AllocError> {
        let exceeding = exceeding.list()?;
        Ok(Raises { bounds, exceeding })
    }

    // Its values, with these ranks to show them.
    fn with_ranks(self, ranks: PerVertex<u64>) -> RankedBounds {
        let Raises {
            bounds,
            exceeding: _,
        } = self;
        RankedBounds { bounds, ranks }
    }

    fn into_bounds(self) -> PerVertex<u64> {
        let Raises {
            bounds,
            exceeding: _,
        } = self;
        bounds
    }
}

/// Bounds with the ranks to show them.
pub struct RankedBounds {
    pub bounds: PerVertex<u64>,
    pub ranks: PerVertex<u64>,
}

// Not derived: a derived `drop` would be proved again at each exit that owns such a value.
impl Drop for RankedBounds {
    fn drop(self) {
        let RankedBounds {
            bounds: _,
            ranks: _,
        } = self;
    }
}

// The top where Odd is guessed to win, and the table elsewhere.
fn raises_to_top(
    alloc: Global,
    ground: &GuessGround,
    regions: &Regions,
    table: &[u64],
) -> Result<Raises, AllocError> {
    let mut bounds = PerVertex::of(alloc, ground.graph.vertices(), 0)?;
    let mut exceeding = Found::none(alloc);
    for v in 0..ground.graph.vertices() {
        let present = value_in(table, v);
        bounds.set(v, present);
        if regions.winner(v) == Some(Player::Odd) && present < ground.even.top {
            bounds.set(v, ground.even.top);
            exceeding.add(v);
        }
    }
    Raises::of(bounds, exceeding)
}

// Values cut to a weight, nowhere below the table.
fn raises_to(
    alloc: Global,
    ground: &GuessGround,
    values: &PerVertex<u64>,
    table: &[u64],
    weight: u64,
) -> Result<Raises, AllocError> {
    let mut bounds = PerVertex::of(alloc, ground.graph.vertices(), 0)?;
    let mut exceeding = Found::none(alloc);
    for v in 0..ground.graph.vertices() {
        let present = value_in(table, v);
        let bound = ground.even.cut(values.get(v), weight).max(present);
        bounds.set(v, bound);
        if present < bound {
            exceeding.add(v);
        }
    }
    Raises::of(bounds, exceeding)
}

// Whether the bound of v follows from that of w.
fn follows(ground: &GuessGround, bounds: &PerVertex<u64>, v: u32, w: u32) -> bool {
    ground.even.reaches(v, bounds.get(v), bounds.get(w))
}

// Solves the game of some vertices to be raised: Odd has the edges over which the bound follows, and wins elsewhere.
fn solve_raising(
    alloc: Global,
    ground: &GuessGround,
    bounds: &PerVertex<u64>,
    vertices: Vec<u32>,
    budget: &mut Budget,
) -> Result<Solved, AllocError> {
    let mut game = Subgame::new(alloc, &ground.graph, vertices)?;
    write_raising(ground, bounds, &mut game);
    game.solve(alloc, budget)
}

fn write_raising(ground: &GuessGround, bounds: &PerVertex<u64>, game: &mut Subgame) {
    for at in 0..game.vertices.len() {
        if let Some(vertex) = game.vertices.get(at) {
            let v = *vertex;
            raising_edges(ground, bounds, game, v);
            game.vertex(&ground.graph, v);
        }
    }
}

fn raising_edges(ground: &GuessGround, bounds: &PerVertex<u64>, game: &mut Subgame, v: u32) {
    let even = ground.graph.owner(v) == Player::Even;
    for w in ground.graph.successors(v) {
        if even || follows(ground, bounds, v, *w) {
            game.edge(*w);
        }
    }
}

// Odd's move at a vertex of its own: the game's choice, or one that leaves the game and still supports the bound.
fn move_of(ground: &GuessGround, bounds: &PerVertex<u64>, solved: &Solved, v: u32) -> Option<u32> {
    if let Some(w) = solved.choice(v) {
        return Some(w);
    }
    for w in ground.graph.successors(v) {
        if !solved.has(*w) && follows(ground, bounds, v, *w) {
            return Some(*w);
        }
    }
    None
}

// Ranks these vertices along Odd's choices, where the others have theirs.
fn rank_along(
    alloc: Global,
    ground: &GuessGround,
    choice: &Choices,
    vertices: &[u32],
    ranks: &mut PerVertex<u64>,
    budget: &mut Budget,
) -> Result<(), AllocError> {
    let mut evaluation = Evaluation::new(alloc, ground.graph.vertices())?;
    evaluation.run(
        alloc,
        &ground.graph,
        &ground.odd,
        choice,
        vertices,
        ranks,
        budget,
    )
}

// Whether zeros are ranks of these vertices along Odd's choices: all have odd priorities, and Odd has a choice at each
// of its own.
fn zeros_are_ranks(ground: &GuessGround, choice: &Choices, vertices: &[u32]) -> bool {
    for v in vertices {
        let is_stuck = ground.graph.owner(*v) == Player::Odd && choice.get(*v).is_none();
        if is_stuck || ground.odd.is_strict(*v) {
            return false;
        }
    }
    true
}

// Ranks of these vertices along Odd's choices.
fn ranks_along(
    alloc: Global,
    ground: &GuessGround,
    choice: &Choices,
    raised: &[u32],
    budget: &mut Budget,
) -> Result<PerVertex<u64>, AllocError> {
    let mut ranks = PerVertex::of(alloc, ground.graph.vertices(), 0)?;
    if !zeros_are_ranks(ground, choice, raised) {
        rank_along(alloc, ground, choice, raised, &mut ranks, budget)?;
    }
    Ok(ranks)
}

// The vertices to be raised, and the guess for them.
#[derive(Drop)]
struct Straight<'a> {
    ground: &'a GuessGround,
    guess: &'a Guess,
    raises: &'a Raises,
    table: &'a [u64],
    rising: PerVertex<bool>,
}

impl<'a> Straight<'a> {
    // Odd's move that gives v its bound: the guess's move where Odd is guessed to win; otherwise one out of the
    // vertices to be raised; otherwise one to the greatest present value.
    fn move_from(&self, v: u32) -> Option<u32> {
        let bounds = &self.raises.bounds;
        if self.ground.even.top <= bounds.get(v)
            && let Some(w) = self.guess.choice.get(v)
            && follows(self.ground, bounds, v, w)
        {
            return Some(w);
        }
        self.greatest_from(v)
    }

    fn greatest_from(&self, v: u32) -> Option<u32> {
        let mut chosen = None;
        let mut greatest = 0;
        for w in self.ground.graph.successors(v) {
            if follows(self.ground, &self.raises.bounds, v, *w) {
                if !self.rising.get(*w) {
                    return Some(*w);
                }
                let value = value_in(self.table, *w);
                if chosen.is_none() || greatest < value {
                    chosen = Some(*w);
                    greatest = value;
                }
            }
        }
        chosen
    }

    fn choices(&self, alloc: Global) -> Result<Choices, AllocError> {
        let graph = &self.ground.graph;
        let mut choice = Choices::none(alloc, graph.vertices())?;
        for v in &self.raises.exceeding {
            if graph.owner(*v) == Player::Odd {
                choice.set(*v, self.move_from(*v));
            }
        }
        Ok(choice)
    }
}

// Odd's straight moves at the vertices to be raised.
fn straight_choices(
    alloc: Global,
    ground: &GuessGround,
    guess: &Guess,
    raises: &Raises,
    table: &[u64],
) -> Result<Choices, AllocError> {
    let mut rising = PerVertex::of(alloc, ground.graph.vertices(), false)?;
    for v in &raises.exceeding {
        rising.set(*v, true);
    }
    let straight = Straight {
        ground,
        guess,
        raises,
        table,
        rising,
    };
    straight.choices(alloc)
}

// Those of some vertices without a rank below the top.
fn unranked(
    alloc: Global,
    ground: &GuessGround,
    ranks: &PerVertex<u64>,
    vertices: &[u32],
) -> Result<Vec<u32>, AllocError> {
    let mut unranked = Found::none(alloc);
    for v in vertices {
        if ground.odd.top <= ranks.get(*v) {
            unranked.add(*v);
        }
    }
    unranked.list()
}

// Bounds, Odd's moves that give them, and the ranks along these.
struct Ranking {
    bounds: PerVertex<u64>,
    choice: Choices,
    ranks: PerVertex<u64>,
}

// Not derived: a derived `drop` would be proved again at each exit that owns such a value.
impl Drop for Ranking {
    fn drop(self) {
        let Ranking {
            bounds: _,
            choice: _,
            ranks: _,
        } = self;
    }
}

impl Ranking {
    // Takes Odd's moves where it wins a game; elsewhere there the table's values stay. Returns the vertices that it
    // wins, which have no ranks yet.
    fn take_over(
        &mut self,
        alloc: Global,
        ground: &GuessGround,
        solved: &Solved,
        table: &[u64],
    ) -> Result<Vec<u32>, AllocError> {
        let mut won = Found::none(alloc);
        for v in solved.vertices() {
            self.ranks.set(*v, 0);
            if solved.winner(*v) == Some(Player::Odd) {
                self.choice
                    .set(*v, move_of(ground, &self.bounds, solved, *v));
                won.add(*v);
            } else {
                self.bounds.set(*v, value_in(table, *v));
            }
        }
        won.list()
    }

    // Ranks these vertices, where the others have theirs.
    fn rank(
        &mut self,
        alloc: Global,
        ground: &GuessGround,
        vertices: &[u32],
        budget: &mut Budget,
    ) -> Result<(), AllocError> {
        rank_along(
            alloc,
            ground,
            &self.choice,
            vertices,
            &mut self.ranks,
            budget,
        )
    }

    fn into_bounds(self) -> RankedBounds {
        let Ranking {
            bounds,
            choice: _,
            ranks,
        } = self;
        RankedBounds { bounds, ranks }
    }
}

// Ranks by a game over those vertices that have none along Odd's straight moves.
fn rank_by_game(
    alloc: Global,
    ground: &GuessGround,
    ranking: Ranking,
    unranked: Vec<u32>,
    table: &[u64],
    budget: &mut Budget,
) -> Result<RankedBounds, AllocError> {
    let mut ranking = ranking;
    let solved = solve_raising(alloc, ground, &ranking.bounds, unranked, budget)?;
    let won = ranking.take_over(alloc, ground, &solved, table)?;
    ranking.rank(alloc, ground, &won, budget)?;
    Ok(ranking.into_bounds())
}

// Ranks by straight moves, and by a game where those do not suffice.
fn rank_raises(
    alloc: Global,
    ground: &GuessGround,
    guess: &Guess,
    raises: Raises,
    table: &[u64],
    budget: &mut Budget,
) -> Result<RankedBounds, AllocError> {
    let choice = straight_choices(alloc, ground, guess, &raises, table)?;
    let ranks = ranks_along(alloc, ground, &choice, &raises.exceeding, budget)?;
    let unranked = unranked(alloc, ground, &ranks, &raises.exceeding)?;
    if unranked.is_empty() {
        return Ok(raises.with_ranks(ranks));
    }
    let ranking = Ranking {
        bounds: raises.into_bounds(),
        choice,
        ranks,
    };
    rank_by_game(alloc, ground, ranking, unranked, table, budget)
}

/// Returns bounds and ranks for the top where Odd is guessed to win, or nothing if that raises nothing.
pub fn ranked_top(
    alloc: Global,
    ground: &GuessGround,
    regions: &Regions,
    table: &[u64],
    budget: &mut Budget,
) -> Result<Option<RankedBounds>, AllocError> {
    let raises = raises_to_top(alloc, ground, regions, table)?;
    if raises.exceeding.is_empty() {
        return Ok(None);
    }
    let ranks = ranks_along(alloc, ground, &regions.choice, &raises.exceeding, budget)?;
    Ok(Some(raises.with_ranks(ranks)))
}

/// Returns bounds and ranks for values cut to a weight, or nothing if they exceed the table nowhere.
pub fn ranked(
    alloc: Global,
    ground: &GuessGround,
    guess: &Guess,
    table: &[u64],
    weight: u64,
    budget: &mut Budget,
) -> Result<Option<RankedBounds>, AllocError> {
    budget.spend(ground.graph.vertices() as usize);
    let raises = raises_to(alloc, ground, &guess.values, table, weight)?;
    if raises.exceeding.is_empty() {
        return Ok(None);
    }
    Ok(Some(rank_raises(alloc, ground, guess, raises, table, budget)?))
}
