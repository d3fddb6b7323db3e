//! Vertices that a player wins by its own moves alone: cycles over its vertices whose greatest priority is its own.
use crate::budget::Budget;
use crate::components::{Components, Moves};
use crate::found::Found;
use crate::per_vertex::PerVertex;
use crate::solution::{Solution, player_of};
use std::alloc::{AllocError, Global};
use vpg_sides::Player;

struct Cycles {
    player: Player,
    components: Components,
    // the last component with this vertex; one more once it is known to lead to the greatest priority there
    mark: PerVertex<u32>,
    stamp: u32,
    // parts to be searched
    parts: Vec<Vec<u32>>,
    // the vertices that lead to such cycles, each with a choice
    found: Found<u32>,
}

// Not derived: a derived `drop` would be proved again at each exit that owns such a value.
impl Drop for Cycles {
    fn drop(self) {
        let Cycles {
            player: _,
            components: _,
            mark: _,
            stamp: _,
            parts: _,
            found: _,
        } = self;
    }
}

// A player's vertices among some.
fn own_vertices(
    alloc: Global,
    player: Player,
    solution: &Solution<'_>,
    vertices: &[u32],
) -> Result<Vec<u32>, AllocError> {
    let mut own = Found::none(alloc);
    for v in vertices {
        if solution.graph.owner(*v) == player {
            own.add(*v);
        }
    }
    own.list()
}

// The members of other priorities.
fn lesser(
    alloc: Global,
    solution: &Solution<'_>,
    members: &[u32],
    greatest: u32,
) -> Result<Vec<u32>, AllocError> {
    let mut rest = Found::none(alloc);
    for v in members {
        if solution.graph.priority(*v) != greatest {
            rest.add(*v);
        }
    }
    rest.list()
}

impl Cycles {
    fn new(alloc: Global, player: Player, vertices: u32) -> Result<Cycles, AllocError> {
        Ok(Cycles {
            player,
            components: Components::new(alloc, vertices)?,
            mark: PerVertex::of(alloc, vertices, 0)?,
            stamp: 0,
            parts: Vec::new(alloc),
            found: Found::none(alloc),
        })
    }

    // Finds all cycles over these vertices.
    fn run(
        &mut self,
        alloc: Global,
        solution: &mut Solution<'_>,
        own: Vec<u32>,
        budget: &mut Budget,
    ) -> Result<(), AllocError> {
        self.parts.push(own)?;
        for _ in 0..u64::MAX {
            match self.parts.pop() {
                Some(part) => self.split(alloc, solution, &part, budget)?,
                None => break,
            }
        }
        Ok(())
    }

    fn into_found(self) -> Result<Vec<u32>, AllocError> {
        let Cycles {
            player: _,
            components: _,
            mark: _,
            stamp: _,
            parts: _,
            found,
        } = self;
        found.list()
    }

    fn search(
        &mut self,
        solution: &Solution<'_>,
        part: &[u32],
        budget: &mut Budget,
    ) -> Result<(), AllocError> {
        let moves = Moves {
            graph: solution.graph,
            player: None,
            choice: &solution.choice,
        };
        self.components.search(&moves, part, budget)
    }

    // Looks at each component of a part.
    fn split(
        &mut self,
        alloc: Global,
        solution: &mut Solution<'_>,
        part: &[u32],
        budget: &mut Budget,
    ) -> Result<(), AllocError> {
        self.search(solution, part, budget)?;
        let mut from = 0;
        for at in 0..self.components.ends.len() {
            let Some(to) = self.components.ends.get(at) else {
                break;
            };
            self.look_between(alloc, solution, from, to)?;
            from = to;
        }
        Ok(())
    }

    // Looks at the component between two ends, unless it is a vertex without a move to itself.
    fn look_between(
        &mut self,
        alloc: Global,
        solution: &mut Solution<'_>,
        from: usize,
        to: usize,
    ) -> Result<(), AllocError> {
        if let Some(v) = self.components.single(from, to)
            && !solution.graph.successors(v).contains(&v)
        {
            return Ok(());
        }
        let members = self.components.between(alloc, from, to)?;
        self.look(alloc, solution, &members)
    }

    // Looks at a component that has a cycle. If its greatest priority is the player's, it is won; else it falls into
    // smaller ones.
    fn look(
        &mut self,
        alloc: Global,
        solution: &mut Solution<'_>,
        members: &[u32],
    ) -> Result<(), AllocError> {
        let greatest = solution.graph.greatest_priority(members);
        if player_of(greatest) == self.player {
            self.win(solution, members, greatest);
            return Ok(());
        }
        self.parts
            .push(lesser(alloc, solution, members, greatest)?)?;
        Ok(())
    }

    // Each member chooses a way to the greatest priority, and that one to stay in the component.
    fn win(&mut self, solution: &mut Solution<'_>, members: &[u32], greatest: u32) {
        self.stamp = self.stamp.saturating_add(2);
        for v in members {
            self.mark.set(*v, self.stamp);
        }
        let from = self.found.len();
        self.find_greatest(solution, members, greatest);
        for at in from..from.saturating_add(members.len()) {
            if let Some(v) = self.found.get(at) {
                self.lead(solution, v);
            }
        }
    }

    // Finds the members of the greatest priority.
    fn find_greatest(&mut self, solution: &mut Solution<'_>, members: &[u32], greatest: u32) {
        for v in members {
            if solution.graph.priority(*v) == greatest {
                self.mark.set(*v, self.stamp.saturating_add(1));
                let member = self.member_from(solution, *v);
                solution.choice.set(*v, member);
                self.found.add(*v);
            }
        }
    }

    // A move that stays in the component.
    fn member_from(&self, solution: &Solution<'_>, v: u32) -> Option<u32> {
        for w in solution.graph.successors(v) {
            if self.stamp <= self.mark.get(*w) {
                return Some(*w);
            }
        }
        None
    }

    // The members that move to v lead to the greatest priority, too.
    fn lead(&mut self, solution: &mut Solution<'_>, v: u32) {
        let graph = solution.graph;
        for u in graph.predecessors(v) {
            if self.mark.get(*u) == self.stamp {
                self.mark.set(*u, self.stamp.saturating_add(1));
                solution.choice.set(*u, Some(v));
                self.found.add(*u);
            }
        }
    }
}

/// Gives a player the vertices of the present game that it wins by its own moves alone, and those from which it can
/// force play there.
pub fn win_cycles(
    alloc: Global,
    player: Player,
    solution: &mut Solution<'_>,
    living: &[u32],
    budget: &mut Budget,
) -> Result<(), AllocError> {
    let own = own_vertices(alloc, player, solution, living)?;
    let mut cycles = Cycles::new(alloc, player, solution.graph.vertices())?;
    cycles.run(alloc, solution, own, budget)?;
    solution.win(player, cycles.into_found()?, budget)?;
    Ok(())
}
