//! How numbers of measures grow along the edges of a graph.
use std::alloc::{AllocError, Global};
use vpg_regions::PerVertex;
use vpg_sides::Player;

/// The measures by which one player wins: those of the game for Even, those of its dual for Odd.
pub struct Scale {
    pub player: Player,
    pub top: u64,
    // each vertex's priority, as the shape counts it
    priorities: PerVertex<u32>,
    // the value of one more at each priority
    weights: PerVertex<u64>,
    // these weights where the other player wins if that priority recurs, and otherwise nothing
    steps: PerVertex<u64>,
    // the weights less these
    gaps: PerVertex<u64>,
}

// Not derived: a derived `drop` would be proved again at each exit that owns such a value.
impl Drop for Scale {
    fn drop(self) {
        let Scale {
            player: _,
            top: _,
            priorities: _,
            weights: _,
            steps: _,
            gaps: _,
        } = self;
    }
}

impl Scale {
    /// Returns the scale of a player with this top, of vertices with these priorities. The value of one more is given
    /// for each priority up to the greatest.
    pub fn with(
        alloc: Global,
        player: Player,
        top: u64,
        priorities: PerVertex<u32>,
        weights: PerVertex<u64>,
    ) -> Result<Scale, AllocError> {
        let mut steps = PerVertex::of(alloc, weights.count(), 0)?;
        let mut gaps = PerVertex::of(alloc, weights.count(), 0)?;
        for priority in 0..weights.count() {
            if priority % 2 == 1 {
                steps.set(priority, weights.get(priority));
            } else {
                gaps.set(priority, weights.get(priority));
            }
        }
        Ok(Scale {
            player,
            top,
            priorities,
            weights,
            steps,
            gaps,
        })
    }

    pub fn weight(&self, v: u32) -> u64 {
        self.weights.get(self.priorities.get(v))
    }

    /// Returns the value of one more at a vertex if the other player wins when its priority recurs; otherwise nothing.
    pub fn step(&self, v: u32) -> u64 {
        self.steps.get(self.priorities.get(v))
    }

    /// Whether the other player wins when the priority of this vertex recurs.
    pub fn is_strict(&self, v: u32) -> bool {
        self.priorities.get(v) % 2 == 1
    }

    /// Returns the least number over an edge from this vertex to one of this value.
    pub fn prog(&self, v: u32, value: u64) -> u64 {
        if self.top <= value {
            return self.top;
        }
        cut(value, self.weight(v))
            .saturating_add(self.step(v))
            .min(self.top)
    }

    /// Returns `prog` over an edge from v to w, whose value is the top or a multiple of w's weight. Nothing is cut off
    /// unless w's weight is less than v's.
    pub fn prog_to(&self, v: u32, w: u32, value: u64) -> u64 {
        if self.weight(w) < self.weight(v) {
            return self.prog(v, value);
        }
        if self.top <= value {
            return self.top;
        }
        value.saturating_add(self.step(v)).min(self.top)
    }

    /// Whether the least number over an edge from this vertex to one of this value is at least a bound, itself such a
    /// number.
    pub fn reaches(&self, v: u32, bound: u64, value: u64) -> bool {
        bound <= value.saturating_add(self.step(v))
    }

    /// Returns the least value over an edge that makes the number at this vertex exceed its own, itself such a number.
    /// It is past all values at the top.
    #[inline(always)]
    pub fn limit(&self, v: u32, own: u64) -> u64 {
        self.limit_at(self.priorities.get(v), own)
    }

    /// Returns the least such value at a vertex of this priority.
    #[inline(always)]
    pub fn limit_at(&self, priority: u32, own: u64) -> u64 {
        if own < self.top {
            own.saturating_add(self.gaps.get(priority))
        } else {
            u64::MAX
        }
    }

    /// Returns the value without its part below a weight; the top stays.
    pub fn cut(&self, value: u64, weight: u64) -> u64 {
        if self.top <= value {
            self.top
        } else {
            cut(value, weight)
        }
    }
}

/// Returns the greatest multiple of a weight up to a value.
fn cut(value: u64, weight: u64) -> u64 {
    if weight <= 1 {
        value
    } else {
        value.saturating_sub(value % weight)
    }
}
