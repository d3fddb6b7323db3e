//! Looking at the present page without copies of it.
ghost use Rattle.std.specs.Prelude.{◌≡◌, ◌↔◌, true, false, length, map, IfSome, IsNone, IsTrue, MatchOption};
ghost use Rattle.vpg_game.specs.Game.{graph_of};
ghost use Rattle.vpg_measure.specs.Lifts.{IsProgressTable, IsTableOf};
ghost use Rattle.vpg_trail.specs.Page.{choices_of, table_of};
ghost use Rattle.vpg_trail.specs.Shown.{entry_of};
ghost use Rattle.vpg_desk.specs.Book.{Settled, IsSettled};
ghost use Rattle.vpg_desk.specs.Desk.{family_of, IsProgressUnder};
ghost use Rattle.vpg_desk.specs.State.{Replies, setting_of};

use crate::desk::Desk;
use vpg_hope::Arena;
use vpg_measure::{Shape, Table, lift};
use vpg_sides::Which;
use vpg_trail::Entry;

/// Whether a lift raises the vertex.
fn rises_in(shape: &Shape, arena: &Arena, table: &Table, v: u32) -> bool
    requires { IsTableOf shape.now arena.now table.now }
    ensures { IsTrue result → ¬ (IsProgressTable shape.now arena.now table.now) }
{
    if v < arena.vertices() {
        if table.get(v) < lift(shape, arena, table, v) {
            return true;
        }
    }
    false
}

/// Returns the first vertex that a lift raises.
fn first_raised(shape: &Shape, arena: &Arena, table: &Table) -> Option<u32>
    requires { IsTableOf shape.now arena.now table.now }
    ensures { IsNone result ↔ IsProgressTable shape.now arena.now table.now }
{
    for v in 0..arena.vertices() {
        if table.get(v) < lift(shape, arena, table, v) {
            return Some(v);
        }
    }
    None
}

impl Desk {
    /// Returns the entries of the present page, in their order.
    pub fn entries(&self) -> &[Entry]
        ensures { map entry_of result.now ≡ self.now.book.present }
    {
        self.trail.entries()
    }

    /// Returns the number in a table that stands for the top.
    pub fn top(&self, which: Which) -> u64
        ensures { result ≡ (family_of (setting_of self.now)).top which }
    {
        self.games.shape(which).top()
    }

    /// Whether a lift raises this vertex of the present table. Then the page isn't settled.
    pub fn rises(&self, which: Which, v: u32) -> bool
        ensures { IsTrue result → Replies self.now Settled (IsSettled false) }
    {
        let shape = self.games.shape(which);
        let arena = self.games.arena(which);
        match which {
            Which::Hopeful => rises_in(shape, arena, self.trail.hopeful(), v),
            Which::Dual => rises_in(shape, arena, self.trail.dual(), v),
        }
    }

    /// Returns a vertex of one of the present tables that a lift raises; none if the page is settled, which is noted
    /// then. Without that note it is a pass over the kept edges, as `settled`. The vertices that name the feature of a
    /// decision just made come first: if it left a settled page unsettled, usually a lift raises one of them.
    pub fn note(&mut self) -> Option<(Which, u32)>
        ensures same { self.new ≡ self.old }
        ensures reply { MatchOption result (Replies self.old Settled (IsSettled true))
            (λ raised. Replies self.old Settled (IsSettled false)) }
    {
        if self.is_noted {
            return None;
        }
        if let Some(raised) = self.raised_by_newest() {
            return Some(raised);
        }
        self.look()
    }

    /// Returns a vertex that names the feature of the newest entry, a decision, and that a lift raises.
    fn raised_by_newest(&self) -> Option<(Which, u32)>
        ensures { IfSome result (λ raised. Replies self.now Settled (IsSettled false)) }
    {
        let Some(Entry::Decide(decision)) = self.trail.entries().last() else {
            return None;
        };
        for named in self.game.naming(decision.feature) {
            let v = u32::try_from(*named).unwrap_or(u32::MAX);
            if let Some(which) = self.raised_at(v) {
                return Some((which, v));
            }
        }
        None
    }

    /// Returns a table in which a lift raises the vertex.
    fn raised_at(&self, v: u32) -> Option<Which>
        ensures { IfSome result (λ which. Replies self.now Settled (IsSettled false)) }
    {
        if self.rises(Which::Hopeful, v) {
            return Some(Which::Hopeful);
        }
        if self.rises(Which::Dual, v) {
            return Some(Which::Dual);
        }
        None
    }

    /// Returns the first vertex of a present table that a lift raises; none if the page is settled, which is noted
    /// then.
    fn look(&mut self) -> Option<(Which, u32)>
        ensures same { self.new ≡ self.old }
        ensures reply { MatchOption result (Replies self.old Settled (IsSettled true))
            (λ raised. Replies self.old Settled (IsSettled false)) }
    {
        if let Some(v) = self.raised(Which::Hopeful) {
            return Some((Which::Hopeful, v));
        }
        if let Some(v) = self.raised(Which::Dual) {
            return Some((Which::Dual, v));
        }
        self.is_noted = true;
        None
    }

    /// Returns the first vertex of a present table that a lift raises.
    fn raised(&self, which: Which) -> Option<u32>
        ensures { IsNone result ↔
            IsProgressUnder (setting_of self.now) (choices_of self.now.book.present) which
            (table_of which self.now.book.present (length (graph_of self.now.game))) }
    {
        let shape = self.games.shape(which);
        let arena = self.games.arena(which);
        match which {
            Which::Hopeful => first_raised(shape, arena, self.trail.hopeful()),
            Which::Dual => first_raised(shape, arena, self.trail.dual()),
        }
    }
}
