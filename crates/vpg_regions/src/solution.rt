//! A game that is being solved: its guessed winners, and the vertices that a player can force.
use crate::budget::Budget;
use crate::found::Found;
use crate::graph::Graph;
use crate::per_vertex::{Choices, PerVertex};
use std::alloc::{AllocError, Global};
use vpg_sides::Player;

/// Returns the player that a priority is of.
pub fn player_of(priority: u32) -> Player {
    if priority % 2 == 1 {
        Player::Odd
    } else {
        Player::Even
    }
}

/// The vertices that are still played on, and the winners at the others.
pub struct Solution<'a> {
    pub graph: &'a Graph,
    /// The winner's choices, and others where there is no winner yet.
    pub choice: Choices,
    winner: PerVertex<Option<Player>>,
    // the vertices of the present game
    alive: PerVertex<bool>,
    // the last attractor that took the vertex
    mark: PerVertex<u32>,
    // the last attractor that counted its successors, and the number that is left
    seen: PerVertex<u32>,
    left: PerVertex<u32>,
    stamp: u32,
}

// Not derived: a derived `drop` would be proved again at each exit that owns such a value.
impl<'a> Drop for Solution<'a> {
    fn drop(self) {
        let Solution {
            graph: _,
            choice: _,
            winner: _,
            alive: _,
            mark: _,
            seen: _,
            left: _,
            stamp: _,
        } = self;
    }
}

impl<'a> Solution<'a> {
    pub fn new(alloc: Global, graph: &'a Graph) -> Result<Solution<'a>, AllocError> {
        let vertices = graph.vertices();
        Ok(Solution {
            graph,
            choice: Choices::none(alloc, vertices)?,
            winner: PerVertex::of(alloc, vertices, None)?,
            alive: PerVertex::of(alloc, vertices, true)?,
            mark: PerVertex::of(alloc, vertices, 0)?,
            seen: PerVertex::of(alloc, vertices, 0)?,
            left: PerVertex::of(alloc, vertices, 0)?,
            stamp: 0,
        })
    }

    pub fn is_alive(&self, v: u32) -> bool {
        self.alive.get(v)
    }

    /// Returns the first move that stays in the present game.
    pub fn first_alive(&self, v: u32) -> Option<u32> {
        for w in self.graph.successors(v) {
            if self.alive.get(*w) {
                return Some(*w);
            }
        }
        None
    }

    fn count_alive(&self, v: u32) -> u32 {
        let mut count = 0u32;
        for w in self.graph.successors(v) {
            if self.alive.get(*w) {
                count = count.saturating_add(1);
            }
        }
        count
    }

    // Whether the attractor takes u, which has an edge to v that it took.
    fn takes(&mut self, u: u32, v: u32, player: Player, budget: &mut Budget) -> bool {
        if !self.alive.get(u) || self.mark.get(u) == self.stamp {
            return false;
        }
        if self.graph.owner(u) == player {
            self.choice.set(u, Some(v));
            return true;
        }
        if self.seen.get(u) != self.stamp {
            self.seen.set(u, self.stamp);
            let count = self.count_alive(u);
            self.left.set(u, count);
            budget.spend(self.graph.successors(u).len());
        }
        let left = self.left.get(u).saturating_sub(1);
        self.left.set(u, left);
        left == 0
    }

    /// Returns the vertices from which a player can force play into the seed; they leave the present game.
    pub fn attract(
        &mut self,
        player: Player,
        seed: Vec<u32>,
        budget: &mut Budget,
    ) -> Result<Vec<u32>, AllocError> {
        self.attract_around(player, seed, &[], budget)
    }

    // The vertices that a player can force into the seed, without the barred ones, which the opponent has for sure.
    fn attract_around(
        &mut self,
        player: Player,
        seed: Vec<u32>,
        barred: &[u32],
        budget: &mut Budget,
    ) -> Result<Vec<u32>, AllocError> {
        self.stamp = self.stamp.saturating_add(1);
        self.mark_all(barred);
        self.mark_all(&seed);
        let taken = self.take_all(player, seed, budget)?;
        self.leave(&taken);
        Ok(taken)
    }

    fn mark_all(&mut self, vertices: &[u32]) {
        for v in vertices {
            self.mark.set(*v, self.stamp);
        }
    }

    // The seed, the vertices that lead to it, and so on.
    fn take_all(
        &mut self,
        player: Player,
        seed: Vec<u32>,
        budget: &mut Budget,
    ) -> Result<Vec<u32>, AllocError> {
        let mut taken = Found::with(seed);
        for at in 0..self.graph.vertices() as usize {
            let Some(v) = taken.get(at) else {
                break;
            };
            self.take_from(player, v, &mut taken, budget);
        }
        taken.list()
    }

    fn take_from(&mut self, player: Player, v: u32, taken: &mut Found<u32>, budget: &mut Budget) {
        let graph = self.graph;
        budget.spend(graph.predecessors(v).len());
        for u in graph.predecessors(v) {
            if self.takes(*u, v, player, budget) {
                self.mark.set(*u, self.stamp);
                taken.add(*u);
            }
        }
    }

    /// Gives a player the seed and the vertices from which it can force play there; they leave the present game.
    pub fn win(
        &mut self,
        player: Player,
        seed: Vec<u32>,
        budget: &mut Budget,
    ) -> Result<Vec<u32>, AllocError> {
        let taken = self.attract(player, seed, budget)?;
        self.give(player, &taken);
        Ok(taken)
    }

    /// Gives a player some vertices.
    pub fn give(&mut self, player: Player, vertices: &[u32]) {
        for v in vertices {
            self.winner.set(*v, Some(player));
        }
    }

    /// Gives a player the opponent's vertices without a move, and the vertices from which it can force play there.
    pub fn win_dead_ends(
        &mut self,
        alloc: Global,
        player: Player,
        budget: &mut Budget,
    ) -> Result<(), AllocError> {
        let mut dead = Found::none(alloc);
        for v in 0..self.graph.vertices() {
            if self.alive.get(v) && self.graph.owner(v) != player && self.first_alive(v).is_none() {
                dead.add(v);
            }
        }
        self.win(player, dead.list()?, budget)?;
        Ok(())
    }

    pub fn revive(&mut self, vertices: &[u32]) {
        for v in vertices {
            self.alive.set(*v, true);
        }
    }

    /// Returns those of some vertices that are in the present game.
    pub fn living(&self, alloc: Global, vertices: &[u32]) -> Result<Vec<u32>, AllocError> {
        let mut living = Found::with(Vec::with_capacity(alloc, vertices.len())?);
        for v in vertices {
            if self.alive.get(*v) {
                living.add(*v);
            }
        }
        living.list()
    }

    /// Returns the vertices of the present game.
    pub fn all_living(&self, alloc: Global) -> Result<Vec<u32>, AllocError> {
        let mut living = Found::none(alloc);
        for v in 0..self.graph.vertices() {
            if self.alive.get(v) {
                living.add(v);
            }
        }
        living.list()
    }

    /// Returns those of some vertices in the present game that a player was given.
    pub fn won_by(
        &self,
        alloc: Global,
        player: Player,
        vertices: &[u32],
    ) -> Result<Vec<u32>, AllocError> {
        let mut won = Found::none(alloc);
        for v in vertices {
            if self.alive.get(*v) && self.winner.get(*v) == Some(player) {
                won.add(*v);
            }
        }
        won.list()
    }

    /// Chooses any move within the present game, if there is no choice.
    pub fn choose_any(&mut self, vertices: &[u32]) {
        for v in vertices {
            if self.choice.get(*v).is_none() {
                let first = self.first_alive(*v);
                self.choice.set(*v, first);
            }
        }
    }

    /// Takes some vertices back from the players that they were given to.
    pub fn forget(&mut self, vertices: &[u32]) {
        for v in vertices {
            self.winner.set(*v, None);
        }
    }

    /// Goes on with those of some vertices that no player was given.
    pub fn reopen(&mut self, vertices: &[u32]) {
        for v in vertices {
            self.alive.set(*v, self.winner.get(*v).is_none());
        }
    }

    /// Leaves some vertices.
    pub fn leave(&mut self, vertices: &[u32]) {
        for v in vertices {
            self.alive.set(*v, false);
        }
    }

    // A move out of the present game to where the player was given the vertex.
    fn exit_of(&self, v: u32, player: Player) -> Option<u32> {
        for w in self.graph.successors(v) {
            if !self.alive.get(*w) && self.winner.get(*w) == Some(player) {
                return Some(*w);
            }
        }
        None
    }

    // The vertices of a player, among these, with a move out of the present game into its own vertices. They choose it.
    fn exits(
        &mut self,
        alloc: Global,
        player: Player,
        vertices: &[u32],
    ) -> Result<Vec<u32>, AllocError> {
        let mut exits = Found::none(alloc);
        for v in vertices {
            if self.graph.owner(*v) == player {
                let exit = self.exit_of(*v, player);
                if exit.is_some() {
                    self.choice.set(*v, exit);
                    exits.add(*v);
                }
            }
        }
        exits.list()
    }

    // The seed, and those of these vertices from which the opponent of a player has to move out of the present game.
    fn with_stuck(
        &self,
        player: Player,
        vertices: &[u32],
        seed: Vec<u32>,
    ) -> Result<Vec<u32>, AllocError> {
        let other = player.opponent();
        let mut all = Found::with(seed);
        for v in vertices {
            if self.alive.get(*v)
                && self.graph.owner(*v) == other
                && self.first_alive(*v).is_none()
                && self.exit_of(*v, other).is_none()
            {
                all.add(*v);
            }
        }
        all.list()
    }

    /// Gives both players the vertices from which they can force play out of the present game, which is of these
    /// vertices, to where they win. No move from there may lead to a vertex that no player was given.
    pub fn win_exits(
        &mut self,
        alloc: Global,
        vertices: &[u32],
        budget: &mut Budget,
    ) -> Result<(), AllocError> {
        let even = self.exits(alloc, Player::Even, vertices)?;
        let odd = self.exits(alloc, Player::Odd, vertices)?;
        self.win_by_exits(Player::Even, vertices, even, &odd, budget)?;
        self.win_by_exits(Player::Odd, vertices, odd, &[], budget)
    }

    // Gives a player the vertices from which it can force play to its exits without the barred vertices. It also gets
    // those from which the opponent has to move to where it wins.
    fn win_by_exits(
        &mut self,
        player: Player,
        vertices: &[u32],
        exits: Vec<u32>,
        barred: &[u32],
        budget: &mut Budget,
    ) -> Result<(), AllocError> {
        let seed = self.with_stuck(player, vertices, exits)?;
        let taken = self.attract_around(player, seed, barred, budget)?;
        self.give(player, &taken);
        Ok(())
    }

    // A move by which the owner of a vertex wins, if the vertex is a component of its own.
    fn winning_move(&self, v: u32) -> Option<u32> {
        let owner = self.graph.owner(v);
        for w in self.graph.successors(v) {
            let is_winning = if *w == v {
                player_of(self.graph.priority(v)) == owner
            } else {
                self.winner.get(*w) == Some(owner)
            };
            if is_winning {
                return Some(*w);
            }
        }
        None
    }

    /// Gives a vertex its winner, if it is a component of its own. Each of its other moves must lead to a vertex that
    /// was given to a player.
    pub fn win_alone(&mut self, v: u32, budget: &mut Budget) {
        budget.spend(self.graph.successors(v).len());
        let owner = self.graph.owner(v);
        match self.winning_move(v) {
            Some(w) => {
                self.choice.set(v, Some(w));
                self.winner.set(v, Some(owner));
            }
            None => self.winner.set(v, Some(owner.opponent())),
        }
    }

    /// Returns the winners and the choices.
    pub fn finish(self) -> (PerVertex<Option<Player>>, Choices) {
        let Solution {
            graph: _,
            choice,
            winner,
            alive: _,
            mark: _,
            seen: _,
            left: _,
            stamp: _,
        } = self;
        (winner, choice)
    }
}
