//! The moves from a vertex.
ghost use Rattle.std.specs.Prelude.{◌≡◌, IfOk};
ghost use Rattle.vpg_guards.specs.View.{formula_of};
ghost use Rattle.vpg_model.specs.Pairs.{free_to, move_under, leaving_moves, pair_moves};

use crate::source::Source;
use std::alloc::{AllocError, Global};
use std::marker::Model;
use vpg_guards::Guard;
use vpg_parts::Part;

/// A move to a vertex, under a guard.
#[derive(Drop)]
pub struct Move {
    pub guard: Guard,
    pub to: (u32, u32),
}

impl Model for Move {
    ghost use Rattle.vpg_guards.specs.View.{formula_of};
    ghost use Rattle.vpg_model.specs.Departures.{PairMove, move_code};

    ghost Value = { PairMove };

    ghost coded = { move_code };

    ghost view = { λ m. record { guard = formula_of m.guard; to = m.to } };
}

/// Returns a move in each product.
fn free(to: (u32, u32)) -> Move
    ensures { result ≡ free_to to }
{
    Move {
        guard: Guard::Always,
        to,
    }
}

/// Returns a move under a guard.
fn guarded(alloc: Global, guard: &Guard, to: (u32, u32)) -> Result<Move, AllocError>
    ensures { IfOk result (λ step. step ≡ move_under (formula_of guard.now) to) }
{
    Ok(Move {
        guard: guard.copy(alloc)?,
        to,
    })
}

impl Source {
    /// Returns the moves to a part by the transitions from a state with an action of the set.
    fn leaving(
        &self,
        alloc: Global,
        state: u32,
        set: u32,
        place: u32,
    ) -> Result<Vec<Move>, AllocError>
        ensures { IfOk result (λ moves. moves.items ≡
            leaving_moves self.now.states.items self.now.sets.items self.now.parts.items state set place) }
    {
        let mut moves = Vec::new(alloc);
        let Some(from) = self.states.get(state as usize) else {
            return Ok(moves);
        };
        for transition in &from.transitions {
            if self.is_permitted(set, transition.action) {
                let to = self.pair_for(transition.target, place);
                moves.push(guarded(alloc, &transition.guard, to)?)?;
            }
        }
        Ok(moves)
    }

    /// Returns the moves from a vertex.
    pub(crate) fn moves(&self, alloc: Global, from: (u32, u32)) -> Result<Vec<Move>, AllocError>
        ensures { IfOk result (λ moves. moves.items ≡
            pair_moves self.now.states.items self.now.sets.items self.now.parts.items from) }
    {
        let (state, place) = from;
        match self.resolved_part(place) {
            Part::True | Part::False | Part::Variable { .. } => Ok(Vec::new(alloc)),
            Part::And(left, right) | Part::Or(left, right) => {
                let mut moves = Vec::new(alloc);
                moves.push(free(self.pair_for(state, left)))?;
                moves.push(free(self.pair_for(state, right)))?;
                Ok(moves)
            }
            Part::SomeStep(set, next) | Part::EveryStep(set, next) => self.leaving(
                alloc, state, set, next,
            ),
            Part::Fixpoint { body, .. } => {
                let mut moves = Vec::new(alloc);
                moves.push(free(self.pair_for(state, body)))?;
                Ok(moves)
            }
        }
    }
}
