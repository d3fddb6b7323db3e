//! The winners of a game, by tangles that are learnt (van Dijk 2018).
//!
//! A round takes the priorities from the greatest on. The vertices of a priority that are left, and those from which
//! its player can force play there, over moves or over a tangle that it learnt, are a region. If the opponent can't
//! leave a part of the region for what is left of the round, the components where the player's moves end there are new
//! tangles. One without an escape is won. The others help in the next round.
use crate::tangles::{Member, Tangles};
use std::alloc::{AllocError, Global};
use vpg_regions::{Budget, Components, Found, Graph, Moves, PerVertex, Solution, player_of};
use vpg_sides::Player;

/// The region of a vertex that the round has left.
const FREE: u32 = 0;

/// The region of a vertex outside the game.
const OUT: u32 = u32::MAX;

/// A round ends once something is won, if it took less than one look for this many vertices. What is left is easier.
const EARLY: usize = 16;

/// What is known of the present region's vertices: the opponent can, or can't, be forced to stay there.
#[derive(Clone, Copy, PartialEq, Eq)]
enum Stay {
    Elsewhere,
    Closed,
    Open,
}

struct Learning {
    living: Vec<u32>,
    // one more than a vertex of each priority, and than the next one of the same priority, or 0
    first: PerVertex<u32>,
    next: PerVertex<u32>,
    greatest: u32,
    // the region of each vertex in this round
    region: PerVertex<u32>,
    number: u32,
    stay: PerVertex<Stay>,
    // of a vertex of the region's priority, the moves that stay
    moves: PerVertex<u32>,
    // the last component with this vertex, or with an escape to it
    mark: PerVertex<u32>,
    stamp: u32,
    components: Components,
    tangles: Tangles,
    // what each player was found to win in this round
    even: Found<u32>,
    odd: Found<u32>,
    has_learnt: bool,
}

// Not derived: a derived `drop` would be proved again at each exit that owns such a value.
impl Drop for Learning {
    fn drop(self) {
        let Learning {
            living: _,
            first: _,
            next: _,
            greatest: _,
            region: _,
            number: _,
            stay: _,
            moves: _,
            mark: _,
            stamp: _,
            components: _,
            tangles: _,
            even: _,
            odd: _,
            has_learnt: _,
        } = self;
    }
}

impl Learning {
    fn of(alloc: Global, graph: &Graph, living: Vec<u32>) -> Result<Learning, AllocError> {
        let vertices = graph.vertices();
        let greatest = graph.greatest_priority(&living);
        Ok(Learning {
            living,
            first: PerVertex::of(alloc, greatest.saturating_add(1), 0)?,
            next: PerVertex::of(alloc, vertices, 0)?,
            greatest,
            region: PerVertex::of(alloc, vertices, OUT)?,
            number: 0,
            stay: PerVertex::of(alloc, vertices, Stay::Elsewhere)?,
            moves: PerVertex::of(alloc, vertices, 0)?,
            mark: PerVertex::of(alloc, vertices, 0)?,
            stamp: 0,
            components: Components::new(alloc, vertices)?,
            tangles: Tangles::none(alloc, vertices)?,
            even: Found::none(alloc),
            odd: Found::none(alloc),
            has_learnt: false,
        })
    }

    // Chains the vertices of each priority.
    fn chain(&mut self, graph: &Graph) {
        self.first.fill(0);
        for v in &self.living {
            let priority = graph.priority(*v);
            self.next.set(*v, self.first.get(priority));
            self.first.set(priority, v.saturating_add(1));
        }
    }

    // Sets the region of the vertices that the game had so far.
    fn set_regions(&mut self, region: u32) {
        for v in &self.living {
            self.region.set(*v, region);
        }
    }

    // Begins a round; returns whether anything is left.
    fn begin(
        &mut self,
        alloc: Global,
        solution: &Solution<'_>,
        budget: &mut Budget,
    ) -> Result<bool, AllocError> {
        self.number = 0;
        self.has_learnt = false;
        budget.spend(self.living.len());
        self.set_regions(OUT);
        self.living = solution.living(alloc, &self.living)?;
        self.set_regions(FREE);
        self.chain(solution.graph);
        Ok(!self.living.is_empty())
    }

    // Begins a region with the vertices of a priority that are left. They have no choices yet.
    fn heads(&mut self, solution: &mut Solution<'_>, priority: u32, heads: &mut Found<u32>) {
        self.number = self.number.saturating_add(1);
        let mut at = self.first.get(priority);
        for _ in 0..self.living.len() {
            let Some(v) = at.checked_sub(1) else {
                break;
            };
            if self.region.get(v) == FREE {
                solution.choice.set(v, None);
                self.region.set(v, self.number);
                heads.add(v);
            }
            at = self.next.get(v);
        }
    }

    fn has_free(&self, vertices: &[u32]) -> bool {
        for v in vertices {
            if self.region.get(*v) == FREE {
                return true;
            }
        }
        false
    }

    // Adds to the region what can be forced there.
    fn attract(
        &mut self,
        solution: &mut Solution<'_>,
        player: Player,
        region: &mut Found<u32>,
        budget: &mut Budget,
    ) {
        for at in 0..self.living.len() {
            let Some(w) = region.get(at) else {
                break;
            };
            if budget.is_spent() {
                break;
            }
            self.attract_to(solution, player, w, region, budget);
            self.attract_tangles_to(solution, player, w, region, budget);
        }
    }

    // Adds the vertices that have to move to w, or choose to.
    fn attract_to(
        &mut self,
        solution: &mut Solution<'_>,
        player: Player,
        w: u32,
        region: &mut Found<u32>,
        budget: &mut Budget,
    ) {
        let graph = solution.graph;
        budget.spend(graph.predecessors(w).len().saturating_add(1));
        for u in graph.predecessors(w) {
            if self.region.get(*u) != FREE {
                continue;
            }
            if graph.owner(*u) == player {
                solution.choice.set(*u, Some(w));
            } else {
                budget.spend(graph.successors(*u).len());
                if self.has_free(graph.successors(*u)) {
                    continue;
                }
            }
            self.region.set(*u, self.number);
            region.add(*u);
        }
    }

    // Adds the tangles that can only be left over w or for earlier regions.
    fn attract_tangles_to(
        &mut self,
        solution: &mut Solution<'_>,
        player: Player,
        w: u32,
        region: &mut Found<u32>,
        budget: &mut Budget,
    ) {
        let mut place = self.tangles.last_of(w);
        for _ in 0..self.tangles.links() {
            let Some(link) = self.tangles.link_before(place) else {
                break;
            };
            if self.is_attracted(player, link.tangle, budget) {
                self.take(solution, link.tangle, region);
            }
            place = link.earlier;
        }
    }

    // Whether no escape of a tangle is left, and its vertices are left or in this region.
    fn is_attracted(&self, player: Player, tangle: usize, budget: &mut Budget) -> bool {
        if !self.tangles.is_of(tangle, player) {
            return false;
        }
        let escapes = self.tangles.escapes(tangle);
        let members = self.tangles.members(tangle);
        budget.spend(escapes.len().saturating_add(members.len()));
        if self.has_free(escapes) {
            return false;
        }
        let mut is_new = false;
        for member in members {
            let region = self.region.get(member.v);
            if region == FREE {
                is_new = true;
            } else if region != self.number {
                return false;
            }
        }
        is_new
    }

    // Adds a tangle's vertices to the region.
    fn take(&mut self, solution: &mut Solution<'_>, tangle: usize, region: &mut Found<u32>) {
        for member in self.tangles.members(tangle) {
            if self.region.get(member.v) == FREE {
                self.region.set(member.v, self.number);
                solution.choice.set(member.v, member.choice);
                region.add(member.v);
            }
        }
    }

    // The number of moves to this region.
    fn count_inside(&self, vertices: &[u32]) -> u32 {
        let mut count = 0u32;
        for v in vertices {
            if self.region.get(*v) == self.number {
                count = count.saturating_add(1);
            }
        }
        count
    }

    // Whether a vertex of the region can or has to leave it for what is left.
    fn opens(&mut self, solution: &Solution<'_>, player: Player, v: u32) -> bool {
        let successors = solution.graph.successors(v);
        if solution.graph.owner(v) != player {
            return self.has_free(successors);
        }
        if solution.choice.get(v).is_some() {
            return false;
        }
        let count = self.count_inside(successors);
        self.moves.set(v, count);
        count == 0
    }

    // The vertices of the region that can or have to leave it for what is left.
    fn add_open(
        &mut self,
        solution: &Solution<'_>,
        player: Player,
        region: &[u32],
        open: &mut Found<u32>,
        budget: &mut Budget,
    ) {
        for v in region {
            budget.spend(solution.graph.successors(*v).len());
            if self.opens(solution, player, *v) {
                self.stay.set(*v, Stay::Open);
                open.add(*v);
            } else {
                self.stay.set(*v, Stay::Closed);
            }
        }
    }

    // Whether u, which has a move to an open vertex, is open for it.
    fn follows(&mut self, solution: &Solution<'_>, player: Player, u: u32, w: u32) -> bool {
        if self.stay.get(u) != Stay::Closed {
            return false;
        }
        if solution.graph.owner(u) != player {
            return true;
        }
        match solution.choice.get(u) {
            Some(choice) => choice == w,
            None => {
                let left = self.moves.get(u).saturating_sub(1);
                self.moves.set(u, left);
                left == 0
            }
        }
    }

    // Opens what leads to an open vertex.
    fn spread(
        &mut self,
        solution: &Solution<'_>,
        player: Player,
        w: u32,
        open: &mut Found<u32>,
        budget: &mut Budget,
    ) {
        let graph = solution.graph;
        budget.spend(graph.predecessors(w).len());
        for u in graph.predecessors(w) {
            if self.follows(solution, player, *u, w) {
                self.stay.set(*u, Stay::Open);
                open.add(*u);
            }
        }
    }

    // Opens all that leads to open vertices.
    fn spread_all(
        &mut self,
        solution: &Solution<'_>,
        player: Player,
        open: &mut Found<u32>,
        budget: &mut Budget,
    ) {
        for at in 0..self.living.len() {
            let Some(w) = open.get(at) else {
                break;
            };
            self.spread(solution, player, w, open, budget);
        }
    }

    // The vertices of the region that the opponent can't leave for what is left.
    fn closed(
        &mut self,
        alloc: Global,
        solution: &Solution<'_>,
        player: Player,
        region: &[u32],
        budget: &mut Budget,
    ) -> Result<Vec<u32>, AllocError> {
        let mut open = Found::none(alloc);
        self.add_open(solution, player, region, &mut open, budget);
        self.spread_all(solution, player, &mut open, budget);
        let mut closed = Found::none(alloc);
        if open.is_refused() {
            return Err(AllocError);
        }
        for v in region {
            if self.stay.get(*v) == Stay::Closed {
                closed.add(*v);
            }
        }
        closed.list()
    }

    fn first_closed(&self, vertices: &[u32]) -> Option<u32> {
        for v in vertices {
            if self.stay.get(*v) == Stay::Closed {
                return Some(*v);
            }
        }
        None
    }

    // Chooses a move that stays for each vertex of the player that has none.
    fn choose(&self, solution: &mut Solution<'_>, player: Player, closed: &[u32]) {
        let graph = solution.graph;
        for v in closed {
            if graph.owner(*v) == player && solution.choice.get(*v).is_none() {
                solution
                    .choice
                    .set(*v, self.first_closed(graph.successors(*v)));
            }
        }
    }

    // Forgets which vertices stay.
    fn clear(&mut self, region: &[u32]) {
        for v in region {
            self.stay.set(*v, Stay::Elsewhere);
        }
    }

    // Finds the region of a priority, and learns its tangles. Returns whether the budget sufficed.
    fn look(
        &mut self,
        alloc: Global,
        solution: &mut Solution<'_>,
        priority: u32,
        budget: &mut Budget,
    ) -> Result<bool, AllocError> {
        let player = player_of(priority);
        let mut region = Found::none(alloc);
        self.heads(solution, priority, &mut region);
        self.attract(solution, player, &mut region, budget);
        let region = region.list()?;
        if budget.is_spent() {
            return Ok(false);
        }
        let closed = self.closed(alloc, solution, player, &region, budget)?;
        self.choose(solution, player, &closed);
        self.learn_all(alloc, solution, player, &closed, budget)?;
        self.clear(&region);
        Ok(true)
    }

    // The number of those closed vertices that are of the region's priority. They come first, and all lead there.
    fn heads_of(&self, graph: &Graph, closed: &[u32]) -> usize {
        let priority = graph.greatest_priority(closed.get(..1).unwrap_or(&[]));
        let mut count = 0usize;
        for v in closed {
            if graph.priority(*v) != priority {
                break;
            }
            count = count.saturating_add(1);
        }
        count
    }

    // Learns the tangles among the closed vertices of a region.
    fn learn_all(
        &mut self,
        alloc: Global,
        solution: &Solution<'_>,
        player: Player,
        closed: &[u32],
        budget: &mut Budget,
    ) -> Result<(), AllocError> {
        let moves = Moves {
            graph: solution.graph,
            player: Some(player),
            choice: &solution.choice,
        };
        let heads = self.heads_of(solution.graph, closed);
        self.components
            .search_from_first(&moves, closed, heads, budget)?;
        let mut from = 0;
        for at in 0..self.components.ends.len() {
            let Some(to) = self.components.ends.get(at) else {
                break;
            };
            self.learn_between(alloc, &moves, player, from, to)?;
            from = to;
        }
        Ok(())
    }

    // Learns the component between two ends, unless it is a vertex without a move to itself.
    fn learn_between(
        &mut self,
        alloc: Global,
        moves: &Moves<'_>,
        player: Player,
        from: usize,
        to: usize,
    ) -> Result<(), AllocError> {
        if let Some(v) = self.components.single(from, to)
            && !moves.has_loop(v)
        {
            return Ok(());
        }
        let members = self.components.between(alloc, from, to)?;
        self.learn(alloc, moves, player, &members)
    }

    // Learns a component with a cycle as a tangle, if it has no move on within the region.
    fn learn(
        &mut self,
        alloc: Global,
        moves: &Moves<'_>,
        player: Player,
        members: &[u32],
    ) -> Result<(), AllocError> {
        self.stamp = self.stamp.saturating_add(1);
        for v in members {
            self.mark.set(*v, self.stamp);
        }
        if !self.is_tangle(moves, members) {
            return Ok(());
        }
        self.has_learnt = true;
        let escapes = self.escapes(alloc, moves, members)?;
        if escapes.is_empty() {
            self.win(player, members);
            return Ok(());
        }
        let tangle = tangle_of(alloc, moves, members)?;
        self.tangles.add(player, &tangle, &escapes);
        Ok(())
    }

    // Whether a component has no move on within the region.
    fn is_tangle(&self, moves: &Moves<'_>, members: &[u32]) -> bool {
        for v in members {
            if self.leads_on(moves, *v) {
                return false;
            }
        }
        true
    }

    // Whether a move leads to a closed vertex outside the component.
    fn leads_on(&self, moves: &Moves<'_>, v: u32) -> bool {
        for w in moves.free(v) {
            if self.is_beside(*w) {
                return true;
            }
        }
        match moves.chosen(v) {
            Some(w) => self.is_beside(w),
            None => false,
        }
    }

    fn is_beside(&self, w: u32) -> bool {
        self.stay.get(w) == Stay::Closed && self.mark.get(w) != self.stamp
    }

    // The vertices of the game that the opponent can leave a component for, each once.
    fn escapes(
        &mut self,
        alloc: Global,
        moves: &Moves<'_>,
        members: &[u32],
    ) -> Result<Vec<u32>, AllocError> {
        let mut escapes = Found::none(alloc);
        for v in members {
            self.add_escapes(moves.free(*v), &mut escapes);
        }
        escapes.list()
    }

    fn add_escapes(&mut self, vertices: &[u32], escapes: &mut Found<u32>) {
        for w in vertices {
            if self.region.get(*w) != OUT && self.mark.get(*w) != self.stamp {
                self.mark.set(*w, self.stamp);
                escapes.add(*w);
            }
        }
    }

    // Notes vertices that a player wins.
    fn win(&mut self, player: Player, members: &[u32]) {
        for v in members {
            match player {
                Player::Even => self.even.add(*v),
                Player::Odd => self.odd.add(*v),
            }
        }
    }

    // Gives the players what this round found.
    fn give(
        &mut self,
        alloc: Global,
        solution: &mut Solution<'_>,
        budget: &mut Budget,
    ) -> Result<(), AllocError> {
        if self.even.is_refused() || self.odd.is_refused() || self.tangles.is_refused() {
            return Err(AllocError);
        }
        let even = Vec::from_slice(alloc, self.even.items())?;
        let odd = Vec::from_slice(alloc, self.odd.items())?;
        self.even.clear();
        self.odd.clear();
        solution.win(Player::Even, even, budget)?;
        solution.win(Player::Odd, odd, budget)?;
        Ok(())
    }

    // Whether this round found vertices that a player wins.
    fn has_won(&self) -> bool {
        0 < self.even.len() || 0 < self.odd.len()
    }

    // Takes all priorities, from the greatest on, or the first ones, if something is won early. Returns whether the
    // budget sufficed.
    fn look_all(
        &mut self,
        alloc: Global,
        solution: &mut Solution<'_>,
        budget: &mut Budget,
    ) -> Result<bool, AllocError> {
        let early = (self.living.len() / EARLY) as u64;
        let late = budget.left().saturating_sub(early);
        for below in 0..=self.greatest {
            let priority = self.greatest.saturating_sub(below);
            if !self.look(alloc, solution, priority, budget)? {
                return Ok(false);
            }
            if late < budget.left() && self.has_won() {
                break;
            }
        }
        Ok(true)
    }

    // Makes a round. Returns whether another one may find more.
    fn round(
        &mut self,
        alloc: Global,
        solution: &mut Solution<'_>,
        budget: &mut Budget,
    ) -> Result<bool, AllocError> {
        let all = self.look_all(alloc, solution, budget)?;
        self.give(alloc, solution, budget)?;
        Ok(all && self.has_learnt && !budget.is_spent())
    }
}

// The members of a tangle, with their choices.
fn tangle_of(alloc: Global, moves: &Moves<'_>, members: &[u32]) -> Result<Vec<Member>, AllocError> {
    let mut tangle = Found::with(Vec::with_capacity(alloc, members.len())?);
    for v in members {
        tangle.add(Member {
            v: *v,
            choice: moves.chosen(*v),
        });
    }
    tangle.list()
}

/// Gives each vertex of the present game, which is of some of these, its winner, or those known when the budget is
/// spent. Returns whether all are given.
pub fn solve_by_tangles(
    alloc: Global,
    solution: &mut Solution<'_>,
    vertices: &[u32],
    budget: &mut Budget,
) -> Result<bool, AllocError> {
    budget.spend(solution.graph.vertices() as usize);
    let living = solution.living(alloc, vertices)?;
    let mut learning = Learning::of(alloc, solution.graph, living)?;
    for _ in 0..u64::MAX {
        if !learning.begin(alloc, solution, budget)? {
            return Ok(true);
        }
        if !learning.round(alloc, solution, budget)? {
            break;
        }
    }
    Ok(!learning.begin(alloc, solution, budget)?)
}
