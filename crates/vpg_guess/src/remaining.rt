//! Lifts of the vertices with a successor that rose, round after round in the order of the vertices.
ghost use Rattle.std.specs.Prelude.{◌≡◌, IsTrue};
ghost use Rattle.vpg_guess.specs.Kept.{IsRaisedFrom, IsSettled, after_round};

use crate::ground::kept_in;
use crate::raising::Raising;
use crate::rising::would_rise;
use std::alloc::{AllocError, Global};
use vpg_hope::Arena;
use vpg_measure::lifts::{Outcome, raise, settle_alone};
use vpg_regions::{Budget, Found, PerVertex, VertexSet};
use vpg_values::{LiftGround, Scale, value_in};

/// Rounds go on while the number of waiting vertices falls by one in this many.
const FALL: usize = 16;

/// If more than one in this many rose at once, all are looked at again.
const MANY: usize = 4;

/// The number of rounds of lifts that come first if all wait, and the number of vertices that are asked before each
/// whether they would rise.
const ROUNDS: u32 = 2;

const ASKED: u32 = 256;

/// Most would rise if all but one in this many of them would.
const MOST: u32 = 8;

/// The number of times that a vertex rises in the first turn before it is guessed to climb.
const CLIMBS: u8 = 2;

/// A turn's looks for each vertex that waits are also for a few more.
const FEW: u64 = 16;

/// The vertices that go round are guessed at alone if they are less than one in this many of those that move; and again
/// if they are half as many as then.
const LOCAL: usize = 16;

/// The number of edges and vertices that a turn of lifts looks at while as many wait as before, until it ends.
#[derive(Clone, Copy)]
pub(crate) struct Patience {
    pub(crate) most: u64,
    /// The number for each vertex that waits: where few do, they go round soon.
    pub(crate) each: u64,
}

impl Patience {
    // The number while this many wait.
    fn at(self, count: usize) -> u64 {
        let waiting = (count as u64).saturating_add(FEW);
        self.most.min(waiting.saturating_mul(self.each))
    }
}

/// The vertices to be looked at: those with a lift that may exceed their value. It also has how often each rose in this
/// turn, and the last turn in which each was found to move.
pub(crate) struct Waiting {
    waits: VertexSet,
    // this many rounds of lifts may come before the next turn; none if not all below the top wait
    rounds: u32,
    // whether most still rose after these
    is_climbing: bool,
    raises: PerVertex<u8>,
    // the last turn at the end of which it moved; zero for none
    moved: PerVertex<u8>,
    turn: u8,
    // the number of times that a vertex rises in a turn before it is guessed to climb
    climbs: u8,
    // the number of times that fewer waited than before, and that number when each vertex rose last
    falls: u16,
    rose: PerVertex<u16>,
    // the number of vertices that went round when those alone were guessed at last
    round: usize,
}

// Not derived: a derived `drop` would be proved again at each exit that owns such a value.
impl Drop for Waiting {
    fn drop(self) {
        let Waiting {
            waits: _,
            rounds: _,
            is_climbing: _,
            raises: _,
            moved: _,
            turn: _,
            climbs: _,
            falls: _,
            rose: _,
            round: _,
        } = self;
    }
}

impl Waiting {
    /// Returns the state in which all below the top wait.
    pub(crate) fn all(
        alloc: Global,
        ground: LiftGround<'_>,
        table: &[u64],
    ) -> Result<Waiting, AllocError> {
        let mut waiting = Waiting::none(alloc, ground.vertices())?;
        waiting.add_all(ground, table);
        Ok(waiting)
    }

    /// Returns the state after a round of lifts that raised these vertices, in this order: a vertex after a raised one
    /// has seen it rise.
    pub(crate) fn left_by_round(
        alloc: Global,
        ground: LiftGround<'_>,
        table: &[u64],
        risen: &[u32],
    ) -> Result<Waiting, AllocError> {
        let mut waiting = Waiting::none(alloc, ground.vertices())?;
        for v in risen {
            waiting.wake_before(ground, table, *v);
        }
        Ok(waiting)
    }

    // Marks the vertices that move to v and do not come after it, if that may raise them.
    fn wake_before(&mut self, ground: LiftGround<'_>, table: &[u64], v: u32) {
        let value = value_in(table, v);
        for u in ground.predecessors.before(v) {
            if *u <= v && ground.even.limit(*u, value_in(table, *u)) <= value {
                self.waits.add(*u);
            }
        }
    }

    // The state in which none waits.
    fn none(alloc: Global, vertices: u32) -> Result<Waiting, AllocError> {
        Ok(Waiting {
            waits: VertexSet::none(alloc, vertices)?,
            rounds: 0,
            is_climbing: false,
            raises: PerVertex::of(alloc, vertices, 0)?,
            moved: PerVertex::of(alloc, vertices, 0)?,
            turn: 0,
            climbs: CLIMBS,
            falls: 1,
            rose: PerVertex::of(alloc, vertices, 0)?,
            round: usize::MAX,
        })
    }

    // Lets all wait that are below the top.
    fn add_all(&mut self, ground: LiftGround<'_>, table: &[u64]) {
        for v in 0..ground.vertices() {
            if value_in(table, v) < ground.even.top {
                self.waits.add(v);
            } else {
                self.waits.remove(v);
            }
        }
    }

    /// Whether most vertices wait.
    pub(crate) fn are_most(&self, ground: LiftGround<'_>) -> bool {
        ground.are_most(self.waits.size())
    }

    /// Begins with rounds of lifts: all wait that are below the top.
    pub(crate) fn begin_rounds(&mut self) {
        self.rounds = ROUNDS;
    }

    // Marks the vertices that move to v, which rose. To ask first whether that may raise them takes longer.
    #[inline(always)]
    fn wake(&mut self, ground: LiftGround<'_>, v: u32) {
        self.raises.set(v, self.raises.get(v).saturating_add(1));
        self.rose.set(v, self.falls);
        for u in ground.predecessors.before(v) {
            self.waits.add(*u);
        }
    }

    /// Marks all vertices below the top to be looked at again, by rounds of lifts first.
    pub(crate) fn wake_all(&mut self, ground: LiftGround<'_>, table: &[u64]) {
        self.add_all(ground, table);
        self.begin_rounds();
    }

    /// Marks all vertices below the top to be looked at again, by rounds of lifts first, if any wait.
    pub(crate) fn wake_the_rest(&mut self, ground: LiftGround<'_>, table: &[u64]) {
        if self.waits.size() > 0 {
            self.wake_all(ground, table);
        }
    }

    /// Marks the vertices that move to risen ones to be looked at again.
    pub(crate) fn wake_risen(&mut self, ground: LiftGround<'_>, table: &[u64], risen: &[u32]) {
        if ground.vertices() as usize / MANY < risen.len() {
            self.wake_all(ground, table);
            return;
        }
        for v in risen {
            self.wake(ground, *v);
        }
    }

    // Whether a round of lifts comes next: if nothing seems to rise, since the round may show that, and the first time
    // that most do. If most rise again, they climb.
    fn asks_for_round(&mut self, arena: &Arena, ground: LiftGround<'_>, table: &[u64]) -> bool {
        if self.rounds == 0 {
            return false;
        }
        self.rounds = self.rounds.saturating_sub(1);
        match ask(arena, ground, table) {
            Rising::Nothing => true,
            Rising::Several => false,
            Rising::Most => {
                self.is_climbing = self.rounds == 0;
                !self.is_climbing
            }
        }
    }

    // Begins a turn: nothing rose yet.
    fn begin_turn(&mut self) {
        self.rounds = 0;
        self.turn = self.turn.saturating_add(1);
        self.raises.fill(0);
    }

    /// Returns the vertices that wait or climbed when this turn ended, and those with moves that lead there over others
    /// that did so when an earlier turn ended. None are returned if nothing waits.
    pub(crate) fn moving(
        &mut self,
        alloc: Global,
        ground: LiftGround<'_>,
    ) -> Result<Vec<u32>, AllocError> {
        self.is_climbing = false;
        let mut moving = Found::none(alloc);
        if self.waits.size() == 0 {
            return moving.list();
        }
        for v in 0..ground.vertices() {
            if self.waits.has(v) || self.climbs <= self.raises.get(v) {
                self.moved.set(v, self.turn);
                moving.add(v);
            }
        }
        for at in 0..ground.vertices() as usize {
            let Some(v) = moving.get(at) else {
                break;
            };
            self.add_leading(ground, v, &mut moving);
        }
        self.climbs = 1;
        moving.list()
    }

    /// Returns the vertices for a guess at a part: those that move, or those of them that go round, if these are far
    /// fewer.
    pub(crate) fn part(
        &mut self,
        alloc: Global,
        ground: LiftGround<'_>,
    ) -> Result<Vec<u32>, AllocError> {
        let moving = self.moving(alloc, ground)?;
        if ground.is_small_part(moving.len()) {
            self.local(alloc, moving)
        } else {
            Ok(moving)
        }
    }

    /// Returns the vertices for a guess at the whole: those that move, or those of them that go round, if these are far
    /// fewer; but all below the top, if most move.
    pub(crate) fn whole(
        &mut self,
        alloc: Global,
        ground: LiftGround<'_>,
        table: &[u64],
    ) -> Result<Vec<u32>, AllocError> {
        if self.are_most(ground) {
            self.move_all();
            return below_top(alloc, ground, table);
        }
        let moving = self.moving(alloc, ground)?;
        if ground.are_most(moving.len()) {
            below_top(alloc, ground, table)
        } else {
            self.local(alloc, moving)
        }
    }

    // Ends a turn in which all are guessed to move.
    fn move_all(&mut self) {
        self.is_climbing = false;
        self.climbs = 1;
        self.moved.fill(self.turn);
    }

    // Those that move, or those of them that go round, if these are far fewer.
    fn local(&mut self, alloc: Global, moving: Vec<u32>) -> Result<Vec<u32>, AllocError> {
        let round = self.round_of(alloc, &moving)?;
        if round.len() < moving.len() / LOCAL && round.len() <= self.round / 2 {
            self.round = round.len();
            Ok(round)
        } else {
            Ok(moving)
        }
    }

    // Those that wait, or rose since the number of those that wait fell last.
    fn round_of(&self, alloc: Global, moving: &[u32]) -> Result<Vec<u32>, AllocError> {
        let mut round = Found::none(alloc);
        for v in moving {
            if self.waits.has(*v) || self.rose.get(*v) == self.falls {
                round.add(*v);
            }
        }
        round.list()
    }

    // Those that move to v and moved when an earlier turn ended.
    fn add_leading(&mut self, ground: LiftGround<'_>, v: u32, moving: &mut Found<u32>) {
        for u in ground.predecessors.before(v) {
            let moved = self.moved.get(*u);
            if moved != 0 && moved != self.turn {
                self.moved.set(*u, self.turn);
                moving.add(*u);
            }
        }
    }
}

// The vertices below the top.
fn below_top(alloc: Global, ground: LiftGround<'_>, table: &[u64]) -> Result<Vec<u32>, AllocError> {
    let mut below = Found::none(alloc);
    for v in 0..ground.vertices() {
        if value_in(table, v) < ground.even.top {
            below.add(v);
        }
    }
    below.list()
}

/// The number of asked vertices that would rise.
#[derive(Clone, Copy)]
enum Rising {
    Nothing,
    Several,
    Most,
}

// Asks vertices here and there that are below the top.
fn ask(arena: &Arena, ground: LiftGround<'_>, table: &[u64]) -> Rising {
    let stride = (ground.vertices() / ASKED).saturating_add(1);
    let mut asked = 0u32;
    let mut rising = 0u32;
    for at in 0..ASKED {
        let v = at.saturating_mul(stride);
        if v < ground.vertices() && value_in(table, v) < ground.even.top {
            asked = asked.saturating_add(1);
            if would_rise(ground.even, arena, table, v) {
                rising = rising.saturating_add(1);
            }
        }
    }
    if rising == 0 {
        Rising::Nothing
    } else if rising < asked.saturating_sub(asked / MOST) {
        Rising::Several
    } else {
        Rising::Most
    }
}

impl Raising<'_> {
    // Lifts a vertex once; returns whether its value rose.
    fn lift_vertex(&mut self, v: u32) -> bool
        ensures { IsRaisedFrom self.old self.new }
    {
        if v < self.arena.vertices() {
            raise(self.shape, self.arena, &mut self.table, v)
        } else {
            false
        }
    }

    /// Lifts each vertex that would rise once, in the order of the vertices; returns those that rose.
    #[tactic(auto, using(crate::proofs::Kept::kept_self, crate::proofs::Kept::kept_then))]
    pub(crate) fn lift_each(&mut self, even: &Scale) -> Result<Vec<u32>, AllocError>
        ensures { IsRaisedFrom self.old self.new }
    {
        let mut risen = Found::none(self.alloc);
        for v in 0..self.arena.vertices() {
            if would_rise(even, self.arena, self.table.values(), v) && self.lift_vertex(v) {
                risen.add(v);
            }
        }
        risen.list()
    }

    // Lifts a vertex that waits, which waits no more.
    fn look(&mut self, ground: LiftGround<'_>, waiting: &mut Waiting, v: u32, budget: &mut Budget)
        ensures { IsRaisedFrom self.old self.new }
    {
        waiting.waits.remove(v);
        budget.spend(kept_in(self.arena, v).len().saturating_add(1));
        if would_rise(ground.even, self.arena, self.table.values(), v) && self.lift_vertex(v) {
            waiting.wake(ground, v);
        }
    }

    // Lifts what waits in the order of the vertices, once round.
    #[tactic(auto, using(crate::proofs::Kept::kept_self, crate::proofs::Kept::kept_then))]
    fn look_round(&mut self, ground: LiftGround<'_>, waiting: &mut Waiting, budget: &mut Budget)
        ensures { IsRaisedFrom self.old self.new }
    {
        let mut from = 0u32;
        for _ in 0..self.arena.vertices() {
            let Some(v) = waiting.waits.first_from(from) else {
                break;
            };
            self.look(ground, waiting, v, budget);
            from = v.saturating_add(1);
        }
    }

    // Lifts what waits, until nothing does, as many wait round after round, or the budget is spent.
    #[tactic(auto, using(crate::proofs::Kept::kept_self, crate::proofs::Kept::kept_then))]
    fn lift_waiting(
        &mut self,
        ground: LiftGround<'_>,
        waiting: &mut Waiting,
        patience: Patience,
        budget: &mut Budget,
    )
        ensures { IsRaisedFrom self.old self.new }
    {
        let mut least = usize::MAX;
        let mut left = budget.left();
        for _ in 0..u64::MAX {
            if waiting.waits.size() == 0 || waiting.is_climbing || budget.is_spent() {
                break;
            }
            self.look_round(ground, waiting, budget);
            if waiting.waits.size() < least.saturating_sub(least / FALL) {
                least = waiting.waits.size();
                left = budget.left();
                waiting.falls = waiting.falls.saturating_add(1);
            } else if budget
                .left()
                .saturating_add(patience.at(waiting.waits.size()))
                < left
            {
                break;
            }
        }
    }

    /// Lifts a round, which takes no memory; returns whether it raised nothing.
    pub(crate) fn lift_round(&mut self) -> bool
        ensures raised { IsRaisedFrom self.old self.new }
        ensures round { self.new.table ≡ after_round self.old }
        ensures settled { IsTrue result → IsSettled self.new }
    {
        match settle_alone(self.shape, self.arena, &mut self.table, 1) {
            Outcome::Settled => true,
            Outcome::RanOut => false,
        }
    }

    /// Lifts rounds, if they come first; returns whether one raised nothing. They wake nothing: all wait.
    #[tactic(auto, using(crate::proofs::Kept::kept_self, crate::proofs::Kept::kept_then))]
    pub(crate) fn lift_all(
        &mut self,
        ground: LiftGround<'_>,
        waiting: &mut Waiting,
        budget: &mut Budget,
    ) -> bool
        ensures raised { IsRaisedFrom self.old self.new }
        ensures settled { IsTrue result → IsSettled self.new }
    {
        for _ in 0..ROUNDS {
            if !waiting.asks_for_round(self.arena, ground, self.table.values()) {
                break;
            }
            budget.spend(ground.looks(1) as usize);
            if self.lift_round() {
                return true;
            }
        }
        false
    }

    /// Lifts until nothing waits, or this many edges and vertices were looked at, or the budget is spent. It also ends
    /// once the patience's number was looked at and as many wait as before.
    pub(crate) fn lift_remaining(
        &mut self,
        ground: LiftGround<'_>,
        waiting: &mut Waiting,
        looks: u64,
        patience: Patience,
        budget: &mut Budget,
    )
        ensures { IsRaisedFrom self.old self.new }
    {
        waiting.begin_turn();
        let mut turn = budget.take(looks);
        self.lift_waiting(ground, waiting, patience, &mut turn);
        budget.give_back(turn);
    }
}
