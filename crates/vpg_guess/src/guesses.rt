//! Raising tables by certified guesses.
ghost use Rattle.std.specs.Prelude.{◌≤◌, ◌↔◌, ℕ, List, IfOk, IsTrue};
ghost use Rattle.vpg_guess.specs.Kept.{IsRaisedFrom, IsSettled, after_round};
ghost use Rattle.vpg_measure.specs.Lifts.{IsTableOf, IsProgressTable, IsBelowTable, after_rounds};

use crate::ground::{ground_of, ground_over, predecessors_of, renewed, scale_of, serves};
use crate::part::Part;
use crate::raising::Raising;
use crate::remaining::{Patience, Waiting};
use std::alloc::{AllocError, Global};
use std::mem;
use vpg_hope::Arena;
use vpg_measure::{Certificate, Shape, Table, is_progress, raise_to_bounds};
use vpg_regions::{Budget, Found, Regions};
use vpg_sides::Player;
use vpg_tangles::solve_regions;
use vpg_values::{
    Guess, GuessGround, LiftGround, RankedBounds, TableGround, guess_table, ranked, ranked_top,
    value_in,
};

/// The number of times that lifts may look at all edges and vertices in a turn, and in a turn of a part; and the number
/// of turns.
const LOOKS: u64 = 8;

const PART_LOOKS: u64 = 4;

const TURNS: u32 = 24;

/// From this turn on all vertices below the top are guessed at: those guessed to stay may have to move.
const LAST_TURNS: u32 = 12;

/// The number of turns that guess the moving vertices alone.
const PART_TURNS: u32 = 8;

/// A turn of lifts ends if as many vertices wait as before, after looks at one in this many of all edges and vertices,
/// or after this many for each vertex that waits. A guess of the moving vertices alone costs less than one of all.
const PATIENCE: u64 = 2;

const PART_PATIENCE: u64 = 8;

const LOOKS_EACH: u64 = 1024;

const PART_LOOKS_EACH: u64 = 128;

// The vertices at which bounds exceed a table.
fn rising_to(alloc: Global, table: &[u64], bounds: &[u64]) -> Result<Vec<u32>, AllocError> {
    let mut rising = Found::none(alloc);
    let mut v = 0u32;
    for bound in bounds {
        if value_in(table, v) < *bound {
            rising.add(v);
        }
        v = v.saturating_add(1);
    }
    rising.list()
}

fn is_of_zeros(table: &[u64]) -> bool {
    for value in table {
        if *value != 0 {
            return false;
        }
    }
    true
}

impl Raising<'_> {
    // Raises the table to bounds, if their certificate shows them. The vertices that may rise then wait.
    fn take_over(
        &mut self,
        ground: LiftGround<'_>,
        certificate: &Certificate,
        waiting: &mut Waiting,
    ) -> Result<(), AllocError>
        requires bounds { IsTableOf self.old.levels self.old.arena certificate.now.bounds }
        requires ranks { IsTableOf self.old.dual_levels self.old.arena certificate.now.ranks }
        ensures { IsRaisedFrom self.old self.new }
    {
        let rising = rising_to(self.alloc, self.table.values(), certificate.bounds.values())?;
        if raise_to_bounds(
            self.shape,
            self.dual_shape,
            self.arena,
            certificate,
            &mut self.table,
        ) {
            waiting.wake_risen(ground, self.table.values(), &rising);
        }
        Ok(())
    }

    // Raises the table to bounds, if there are any and their ranks show them.
    fn raise_to(
        &mut self,
        ground: LiftGround<'_>,
        bounds: Option<RankedBounds>,
        waiting: &mut Waiting,
    ) -> Result<(), AllocError>
        ensures { IsRaisedFrom self.old self.new }
    {
        let Some(ranked) = bounds else {
            return Ok(());
        };
        let certificate = self.certificate_of(&ranked)?;
        self.take_over(ground, &certificate, waiting)
    }

    // Sets to the top each vertex that Odd is guessed to win, if a certificate shows it.
    fn raise_to_top(
        &mut self,
        ground: &GuessGround,
        regions: &Regions,
        waiting: &mut Waiting,
        budget: &mut Budget,
    ) -> Result<(), AllocError>
        ensures { IsRaisedFrom self.old self.new }
    {
        let bounds = ranked_top(self.alloc, ground, regions, self.table.values(), budget)?;
        self.raise_to(ground.lifts(), bounds, waiting)
    }

    // Raises the table to the guessed values, each cut to a weight, if a certificate shows them.
    fn raise_stage(
        &mut self,
        ground: &GuessGround,
        guess: &Guess,
        weight: u64,
        waiting: &mut Waiting,
        budget: &mut Budget,
    ) -> Result<(), AllocError>
        ensures { IsRaisedFrom self.old self.new }
    {
        let table = self.table.values();
        let bounds = ranked(self.alloc, ground, guess, table, weight, budget)?;
        self.raise_to(ground.lifts(), bounds, waiting)
    }

    // Raises the table to the guessed values: all digits at once, and then stage by stage, from the greatest weight.
    #[tactic(auto, using(crate::proofs::Kept::kept_self, crate::proofs::Kept::kept_then))]
    fn raise_to_values(
        &mut self,
        ground: &GuessGround,
        guess: &Guess,
        waiting: &mut Waiting,
        budget: &mut Budget,
    ) -> Result<(), AllocError>
        ensures { IsRaisedFrom self.old self.new }
    {
        self.raise_stage(ground, guess, 1, waiting, budget)?;
        if ground.is_reached(&guess.values, self.table.values()) {
            return Ok(());
        }
        for weight in &ground.weights(self.alloc)? {
            if budget.is_spent() {
                break;
            }
            self.raise_stage(ground, guess, *weight, waiting, budget)?;
        }
        Ok(())
    }

    // Guesses the least progress table, if only the moving vertices rise, and raises the table to it as far as
    // certificates show it.
    fn raise_to_guess(
        &mut self,
        ground: &GuessGround,
        regions: &Regions,
        moving: &[u32],
        waiting: &mut Waiting,
        budget: &mut Budget,
    ) -> Result<(), AllocError>
        ensures { IsRaisedFrom self.old self.new }
    {
        let table = self.table.values();
        let mut share = budget.take_half();
        let guess = guess_table(self.alloc, ground, regions, table, moving, &mut share)?;
        budget.give_back(share);
        let mut share = budget.take_half();
        let raised = self.raise_to_values(ground, &guess, waiting, &mut share);
        budget.give_back(share);
        raised
    }

    // Lifts in turns, and guesses the values that each turn leaves. Returns whether the table is known to be settled.
    #[tactic(auto, using(crate::proofs::Kept::kept_self, crate::proofs::Kept::kept_then))]
    fn raise_by_values(
        &mut self,
        ground: &GuessGround,
        regions: &Regions,
        waiting: &mut Waiting,
        budget: &mut Budget,
    ) -> Result<bool, AllocError>
        ensures raised { IsRaisedFrom self.old self.new }
        ensures settled { IfOk result (λ settled. IsTrue settled → IsSettled self.new) }
    {
        let lifts = ground.lifts();
        let patience = Patience {
            most: lifts.looks(1) / PATIENCE,
            each: LOOKS_EACH,
        };
        let looks = lifts.looks(LOOKS);
        for turn in 0..TURNS {
            if self.lift_all(lifts, waiting, budget) {
                return Ok(true);
            }
            self.lift_remaining(lifts, waiting, looks, patience, budget);
            if LAST_TURNS <= turn {
                waiting.wake_the_rest(lifts, self.table.values());
            }
            let moving = waiting.whole(self.alloc, lifts, self.table.values())?;
            if moving.is_empty() || budget.is_spent() {
                break;
            }
            self.raise_to_guess(ground, regions, &moving, waiting, budget)?;
        }
        Ok(false)
    }

    // Guesses the vertices that Odd wins, sets them to the top, and raises the others by lifts and guessed values.
    // Returns whether the table is known to be settled.
    #[tactic(auto, using(crate::proofs::Kept::kept_self, crate::proofs::Kept::kept_then))]
    fn raise_whole(
        &mut self,
        ground: &GuessGround,
        waiting: &mut Waiting,
        budget: &mut Budget,
    ) -> Result<bool, AllocError>
        ensures raised { IsRaisedFrom self.old self.new }
        ensures settled { IfOk result (λ settled. IsTrue settled → IsSettled self.new) }
    {
        let lost = ground.lost(self.alloc, self.table.values())?;
        let mut share = budget.take_half();
        let regions = solve_regions(self.alloc, &ground.graph, lost, &mut share)?;
        budget.give_back(share);
        self.raise_to_top(ground, &regions, waiting, budget)?;
        self.raise_by_values(ground, &regions, waiting, budget)
    }

    // Guesses the values of the moving vertices, where all others stay, and raises the table to them, if a certificate
    // shows them.
    fn raise_part(
        &mut self,
        ground: LiftGround<'_>,
        moving: &[u32],
        waiting: &mut Waiting,
        budget: &mut Budget,
    ) -> Result<(), AllocError>
        ensures { IsRaisedFrom self.old self.new }
    {
        let part = Part::of(self, moving)?;
        let Some(ranked) = part.ranked(self.alloc, budget)? else {
            return Ok(());
        };
        let certificate = self.certificate_around(&part, &ranked)?;
        self.take_over(ground, &certificate, waiting)
    }

    // Lifts, and guesses the values that lifts leave, as long as few vertices move; returns whether none is left. Does
    // nothing if most vertices wait from the beginning.
    #[tactic(auto, using(crate::proofs::Kept::kept_self, crate::proofs::Kept::kept_then))]
    fn raise_parts(
        &mut self,
        ground: LiftGround<'_>,
        waiting: &mut Waiting,
        budget: &mut Budget,
    ) -> Result<bool, AllocError>
        ensures { IsRaisedFrom self.old self.new }
    {
        if waiting.are_most(ground) {
            return Ok(false);
        }
        let patience = Patience {
            most: ground.looks(1) / PART_PATIENCE,
            each: PART_LOOKS_EACH,
        };
        let looks = ground.looks(PART_LOOKS);
        let mut last = 0;
        for _ in 0..PART_TURNS {
            self.lift_remaining(ground, waiting, looks, patience, budget);
            let moving = waiting.part(self.alloc, ground)?;
            if moving.is_empty() {
                return Ok(true);
            }
            if moving.len() == last || !ground.is_small_part(moving.len()) {
                break;
            }
            last = moving.len();
            self.raise_part(ground, &moving, waiting, budget)?;
        }
        Ok(false)
    }

    // Raises the whole table, and keeps the lists that its lifts use. Returns whether it is known to be settled.
    fn raise_rest(
        &mut self,
        lifts: TableGround,
        kept: &mut Option<TableGround>,
        waiting: &mut Waiting,
        budget: &mut Budget,
    ) -> Result<bool, AllocError>
        ensures raised { IsRaisedFrom self.old self.new }
        ensures settled { IfOk result (λ settled. IsTrue settled → IsSettled self.new) }
    {
        let ground = ground_over(self, lifts)?;
        let settled = self.raise_whole(&ground, waiting, budget)?;
        *kept = Some(ground.into_lifts());
        Ok(settled)
    }

    // Raises a table of zeros as a whole. Returns whether it is known to be settled.
    fn raise_zeros(&mut self, budget: &mut Budget) -> Result<bool, AllocError>
        ensures raised { IsRaisedFrom self.old self.new }
        ensures settled { IfOk result (λ settled. IsTrue settled → IsSettled self.new) }
    {
        let ground = ground_of(self)?;
        let mut waiting = Waiting::all(self.alloc, ground.lifts(), self.table.values())?;
        waiting.begin_rounds();
        self.raise_whole(&ground, &mut waiting, budget)
    }

    // Raises the rest after a round of lifts that raised these vertices: parts first, since a change usually needs no
    // more. Keeps the lists that lifts use. Returns whether the table is known to be settled.
    #[tactic(auto, using(crate::proofs::Kept::kept_self, crate::proofs::Kept::kept_then))]
    fn raise_after_round(
        &mut self,
        lifts: TableGround,
        kept: &mut Option<TableGround>,
        risen: &[u32],
        budget: &mut Budget,
    ) -> Result<bool, AllocError>
        ensures raised { IsRaisedFrom self.old self.new }
        ensures settled { IfOk result (λ settled. IsTrue settled → IsSettled self.new) }
    {
        let table = self.table.values();
        let mut waiting = Waiting::left_by_round(self.alloc, lifts.lifts(), table, risen)?;
        if self.raise_parts(lifts.lifts(), &mut waiting, budget)? {
            *kept = Some(lifts);
            return Ok(false);
        }
        self.raise_rest(lifts, kept, &mut waiting, budget)
    }

    // Lifts a round, and raises the rest. Returns whether the table is known to be settled. No lists are made if the
    // round settles it.
    #[tactic(auto, using(crate::proofs::Kept::kept_self, crate::proofs::Kept::kept_then))]
    fn raise_with_new_lists(
        &mut self,
        kept: &mut Option<TableGround>,
        budget: &mut Budget,
    ) -> Result<bool, AllocError>
        ensures raised { IsRaisedFrom self.old self.new }
        ensures settled { IfOk result (λ settled. IsTrue settled → IsSettled self.new) }
    {
        let even = scale_of(self.alloc, self.arena, self.shape, Player::Even)?;
        let risen = self.lift_each(&even)?;
        let ended = is_progress(self.shape, self.arena, &self.table);
        if ended {
            return Ok(true);
        }
        let predecessors = predecessors_of(self.alloc, self.arena)?;
        let lifts = TableGround { predecessors, even };
        self.raise_after_round(lifts, kept, &risen, budget)
    }

    // Lifts a round, and raises the rest with the lists of an earlier page. Returns whether the table is known to be
    // settled. If the lists missed an edge that mattered, nothing is kept, and the table isn't settled.
    #[tactic(auto, using(crate::proofs::Kept::kept_self, crate::proofs::Kept::kept_then))]
    fn raise_with_lists(
        &mut self,
        lifts: TableGround,
        kept: &mut Option<TableGround>,
        budget: &mut Budget,
    ) -> Result<bool, AllocError>
        ensures raised { IsRaisedFrom self.old self.new }
        ensures settled { IfOk result (λ settled. IsTrue settled → IsSettled self.new) }
    {
        let risen = self.lift_each(&lifts.even)?;
        let table = self.table.values();
        let mut waiting = Waiting::left_by_round(self.alloc, lifts.lifts(), table, &risen)?;
        if !self.raise_parts(lifts.lifts(), &mut waiting, budget)? {
            let lifts = renewed(self.alloc, lifts, self.arena)?;
            waiting.wake_all(lifts.lifts(), self.table.values());
            return self.raise_rest(lifts, kept, &mut waiting, budget);
        }
        let has_settled = self.lift_round();
        if has_settled {
            *kept = Some(lifts);
        }
        Ok(has_settled)
    }

    // Raises the table by what is kept, if that serves; otherwise nothing is kept then. Returns whether the table is
    // known to be settled.
    fn raise_with_kept_lists(
        &mut self,
        kept: &mut Option<TableGround>,
        budget: &mut Budget,
    ) -> Result<bool, AllocError>
        ensures raised { IsRaisedFrom self.old self.new }
        ensures settled { IfOk result (λ settled. IsTrue settled → IsSettled self.new) }
    {
        let Some(lifts) = kept.take() else {
            return Ok(false);
        };
        if !serves(&lifts, self.arena) {
            return Ok(false);
        }
        self.raise_with_lists(lifts, kept, budget)
    }

    // Raises the table where it moves: by the lists of an earlier page, and with new lists if those do not suffice.
    // Returns whether the table is known to be settled.
    #[tactic(auto, using(crate::proofs::Kept::kept_self, crate::proofs::Kept::kept_then))]
    fn raise_where_it_moves(
        &mut self,
        kept: &mut Option<TableGround>,
        budget: &mut Budget,
    ) -> Result<bool, AllocError>
        ensures raised { IsRaisedFrom self.old self.new }
        ensures settled { IfOk result (λ settled. IsTrue settled → IsSettled self.new) }
    {
        let settled = self.raise_with_kept_lists(kept, budget)?;
        if settled || kept.is_some() {
            return Ok(settled);
        }
        self.raise_with_new_lists(kept, budget)
    }

    // Raises a table of zeros as a whole, and another one where it moves. Returns whether it is known to be settled.
    fn raise_by_lifts_and_guess(
        &mut self,
        kept: &mut Option<TableGround>,
        budget: &mut Budget,
    ) -> Result<bool, AllocError>
        ensures raised { IsRaisedFrom self.old self.new }
        ensures settled { IfOk result (λ settled. IsTrue settled → IsSettled self.new) }
    {
        if is_of_zeros(self.table.values()) {
            self.raise_zeros(budget)
        } else {
            self.raise_where_it_moves(kept, budget)
        }
    }

    // Lifts a last round, unless the table is known to be settled. Returns whether it is known then.
    #[tactic(auto, using(crate::proofs::Kept::kept_self, crate::proofs::Kept::round_stays))]
    fn lift_last(&mut self, settled: bool) -> bool
        requires { IsTrue settled → IsSettled self.old }
        ensures raised { IsRaisedFrom self.old self.new }
        ensures round { IsBelowTable (after_round self.old) self.new.table }
        ensures settled { IsTrue result → IsSettled self.new }
    {
        let _ = &self.table;
        if settled {
            return true;
        }
        self.lift_round()
    }

    // Raises the table by lifts and guesses, and then by a round of lifts, even if memory runs out. Returns whether it
    // is known to be settled.
    #[tactic(auto, using(crate::proofs::Kept::kept_then, crate::proofs::Kept::round_above))]
    fn raise_and_round(
        &mut self,
        kept: &mut Option<TableGround>,
        budget: &mut Budget,
    ) -> Result<bool, AllocError>
        ensures raised { IsRaisedFrom self.old self.new }
        ensures round { IsBelowTable (after_round self.old) self.new.table }
        ensures settled { IfOk result (λ settled. IsTrue settled → IsSettled self.new) }
    {
        match self.raise_by_lifts_and_guess(kept, budget) {
            Ok(settled) => Ok(self.lift_last(settled)),
            Err(error) => {
                self.lift_last(false);
                Err(error)
            }
        }
    }

    /// Raises the table as `raise_within` does, within a budget that several tables may share, and by what is kept of
    /// the game. Returns whether it is a progress table then.
    #[tactic(auto, using(crate::proofs::Kept::kept_self, crate::proofs::Kept::round_stays))]
    pub(crate) fn raise(
        &mut self,
        kept: &mut Option<TableGround>,
        budget: &mut Budget,
    ) -> Result<bool, AllocError>
        ensures settled { IfOk result
            (λ settled. IsTrue settled ↔ IsProgressTable self.old.levels self.old.arena self.new.table) }
        ensures raised { IsRaisedFrom self.old self.new }
        ensures round { IsBelowTable (after_round self.old) self.new.table }
    {
        if is_progress(self.shape, self.arena, &self.table) {
            return Ok(true);
        }
        if self.raise_and_round(kept, budget)? {
            return Ok(true);
        }
        Ok(is_progress(self.shape, self.arena, &self.table))
    }
}

/// Raises a table towards the least progress table on or above it, and returns whether it is a progress table then.
///
/// A table that is one stays as it is. If the table is not of zeros, lifts come first, and guesses at what moves. If
/// these leave something, the vertices that Odd is guessed to win are raised to the top, and lifts and guesses of
/// values follow. Each guess counts as far as certificates show it. A round of lifts comes last, even if memory runs
/// out. `dual_shape` is the shape of the arena's dual, whose priorities are one greater: another shape costs
/// certificates, and never the clauses.
///
/// `looks` is the number of edges and vertices that all of it may look at, and what it looks at is taken from it. One
/// more valuation of a strategy, one certificate and a few passes over the edges come on top. When it is spent, all
/// that is known is certified and raised. If memory runs out, the table keeps what was raised until then.
pub fn raise_within(
    alloc: Global,
    shape: &Shape,
    dual_shape: &Shape,
    arena: &Arena,
    table: &mut Table,
    looks: &mut u64,
) -> Result<bool, AllocError>
    requires { IsTableOf shape.now arena.now table.old }
    ensures settled { IfOk result (λ settled. IsTrue settled ↔ IsProgressTable shape.now arena.now table.new) }
    ensures table { IsTableOf shape.now arena.now table.new }
    ensures above { IsBelowTable table.old table.new }
    ensures below { (other : List ℕ) → IsTableOf shape.now arena.now other → IsProgressTable shape.now arena.now other →
        IsBelowTable table.old other → IsBelowTable table.new other }
    // The table is on or above itself after a round of lifts, even if memory runs out.
    ensures round { IsBelowTable (after_rounds shape.now arena.now 1 table.old) table.new }
    // No looks are added.
    ensures left { looks.new ≤ looks.old }
{
    let mut budget = Budget::new(*looks);
    let mut kept = None;
    let mut raising = Raising {
        alloc,
        shape,
        dual_shape,
        arena,
        table: mem::replace(table, Table::of(Vec::new(alloc))),
    };
    let settled = raising.raise(&mut kept, &mut budget);
    *looks = budget.left().min(*looks);
    *table = raising.into_table();
    settled
}
