//! Plain games kept for look-ups: measures are lifted over them.
ghost use Rattle.std.specs.Prelude.{◌≡◌, ℕ, ◌<◌, ◌+◌, ◌^◌, ◌++◌, [], length, map, IfOk, OnOk, All, true, false};
ghost use Rattle.std.specs.Arc.{arc_slice_items};
ghost use Rattle.vpg_guards.specs.Known.{kleene};
ghost use Rattle.vpg_game.specs.Game.{IsGame, graph_of, vertex_in};
ghost use Rattle.vpg_game.specs.Guarded.{dual};
ghost use Rattle.vpg_hope.specs.Arena.{vertex_at, row_vertices, AreRows};
ghost use Rattle.vpg_hope.specs.Drafts.{IsHeldDraft, IsSelectedDraft};
ghost use Rattle.vpg_hope.specs.Hope.{hopeful_game, cautious_game};
ghost use Rattle.vpg_hope.specs.Kept.{features_under, owner_under, priority_under, kept_under};
ghost use Rattle.vpg_hope.specs.Selection.{vertex_under, IsHeldUnmarked};

use crate::changes::concerned;
use crate::selection::Selection;
use std::alloc::{AllocError, Global};
use std::marker::Model;
use std::sync::ArcSlice;
use vpg_game::GuardedGame;
use vpg_partial::Partial;
use vpg_sides::Player;

/// A vertex: its successors are those from `start` up to `end` in the arena's own list, or in the one that it shares.
#[derive(Clone, Copy)]
struct Row {
    owner: Player,
    is_own: bool,
    priority: u32,
    start: u32,
    end: u32,
}

/// A plain game: vertices in file order, each with its kept successors.
///
/// Clauses see it as a list of vertices, which is a game of `specs/Games`.
pub struct Arena {
    rows: Vec<Row>,
    // the successors of all vertices, one after another: shared with the arenas made from this one
    shared: ArcSlice<u32>,
    // the successors of the vertices that differ from there, and of those that differed before
    own: Vec<u32>,
}

// Not derived: a derived `drop` would be proved again at each exit that owns such a value.
impl Drop for Arena {
    fn drop(self) {
        let Arena {
            rows: _,
            shared: _,
            own: _,
        } = self;
    }
}

impl Model for Arena {
    ghost use Rattle.std.specs.Prelude.{List};
    ghost use Rattle.std.specs.Arc.{arc_slice_items};
    ghost use Rattle.vpg_hope.specs.Arena.{Vertex, row_vertices, AreRows};

    ghost Value = { List Vertex };

    ghost view = { λ a. row_vertices a.rows.items (arc_slice_items a.shared) a.own.items };

    ghost invariant = { λ a. AreRows a.rows.items (arc_slice_items a.shared) a.own.items };
}

/// Returns a list of the same numbers, with room for this many.
fn copy_with_room(alloc: Global, numbers: &[u32], room: usize) -> Result<Vec<u32>, AllocError>
    ensures { IfOk result (λ copy. copy.items ≡ numbers.now) }
{
    let mut copy = Vec::with_capacity(alloc, room)?;
    copy.extend_from_slice(numbers)?;
    Ok(copy)
}

/// Adds the kept successors of a vertex to an arena's own list, and returns its row.
fn push_row(
    own: &mut Vec<u32>,
    game: &GuardedGame,
    selection: Selection<'_>,
    v: u32,
) -> Result<Row, AllocError>
    requires game { IsGame game.now }
    requires vertex { v < length game.now.vertices }
    requires features { features_under selection ≡ game.now.features }
    requires room { length own.old.items + length (vertex_in (graph_of game.now) v).edges < 2 ^ 32 }
    ensures own { OnOk result
        (own.new.items ≡ own.old.items
        ++ kept_under selection.entry (vertex_in (graph_of game.now) v).owner (vertex_in (graph_of game.now) v).edges) }
    ensures row { IfOk result (λ row. row ≡ record {
      owner = owner_under selection.entry (vertex_in (graph_of game.now) v).owner;
      is_own = true;
      priority = priority_under selection.entry (vertex_in (graph_of game.now) v).priority;
      start = length own.old.items;
      end = length own.new.items;
    }) }
{
    let owner = game.owner(v);
    let start = own.len() as u32;
    selection.push_kept(own, owner, game.edges(v))?;
    Ok(Row {
        owner: selection.owner(owner),
        is_own: true,
        priority: selection.priority(game.priority(v)),
        start,
        end: own.len() as u32,
    })
}

/// An arena in the making: its rows, the list that it shares, and its own. Clauses name these.
#[derive(Drop)]
struct Draft {
    rows: Vec<Row>,
    shared: ArcSlice<u32>,
    own: Vec<u32>,
}

impl Draft {
    /// Returns a copy of an arena's rows and of its own list, with room there for a sixteenth of what it shares.
    fn of(
        alloc: Global,
        rows: &[Row],
        shared: &ArcSlice<u32>,
        own: &[u32],
    ) -> Result<Draft, AllocError>
        ensures rows { IfOk result (λ draft. draft.rows.items ≡ rows.now) }
        ensures shared { IfOk result (λ draft. arc_slice_items draft.shared ≡ arc_slice_items shared.now) }
        ensures own { IfOk result (λ draft. draft.own.items ≡ own.now) }
    {
        let room = own.len() + shared.len() / 16;
        let shared = shared.clone()?;
        let rows = Vec::from_slice(alloc, rows)?;
        let own = copy_with_room(alloc, own, room)?;
        Ok(Draft { rows, shared, own })
    }

    /// Returns the arena that was made.
    fn arena(self) -> Arena
        requires { AreRows self.rows.items (arc_slice_items self.shared) self.own.items }
        ensures { result ≡ row_vertices self.rows.items (arc_slice_items self.shared) self.own.items }
    {
        Arena {
            rows: self.rows,
            shared: self.shared,
            own: self.own,
        }
    }
}

/// Gives marked vertices their selected successors, looking at each once for both drafts. The others have theirs
/// already.
fn replace_marked(
    one: &mut Draft,
    two: &mut Draft,
    game: &GuardedGame,
    first: Selection<'_>,
    second: Selection<'_>,
    marks: &[bool],
) -> Result<(), AllocError>
    requires features { features_under first ≡ game.now.features }
    requires second_features { features_under second ≡ game.now.features }
    requires marks { length marks.now ≡ length (graph_of game.now) }
    requires held { IsHeldDraft first marks.now (graph_of game.now)
        one.old.rows.items (arc_slice_items one.old.shared) one.old.own.items }
    requires second_held { IsHeldDraft second marks.now (graph_of game.now)
        two.old.rows.items (arc_slice_items two.old.shared) two.old.own.items }
    ensures first { OnOk result (IsSelectedDraft first.entry (graph_of game.now)
        one.new.rows.items (arc_slice_items one.new.shared) one.new.own.items) }
    ensures second { OnOk result (IsSelectedDraft second.entry (graph_of game.now)
        two.new.rows.items (arc_slice_items two.new.shared) two.new.own.items) }
{
    for v in 0..game.vertices() as u32 {
        if marks[v as usize] {
            one.rows[v as usize] = push_row(&mut one.own, game, first, v)?;
            two.rows[v as usize] = push_row(&mut two.own, game, second, v)?;
        }
    }
    Ok(())
}

impl Arena {
    /// Returns the hopeful game: Even's vertices keep the edges unless their guard is known false, Odd's keep those
    /// with a guard known true. Each guard is looked at once. `specs/Hope` defines it, after FASE 2020 and strong
    /// Kleene logic.
    pub fn hopeful(alloc: Global, game: &GuardedGame, known: &Partial) -> Result<Arena, AllocError>
        requires { length known.now ≡ game.now.features }
        ensures { IfOk result (λ arena. arena ≡ hopeful_game (kleene known.now) (graph_of game.now)) }
    {
        Arena::selected(alloc, game, Selection::Hopeful(known.values()))
    }

    /// Returns the hopeful game of the dual: owners are exchanged and priorities are one greater. It is made from the
    /// game itself: no dual is built.
    pub fn hopeful_of_dual(
        alloc: Global,
        game: &GuardedGame,
        known: &Partial,
    ) -> Result<Arena, AllocError>
        requires { length known.now ≡ game.now.features }
        ensures { IfOk result (λ arena. arena ≡ hopeful_game (kleene known.now) (dual (graph_of game.now))) }
    {
        Arena::selected(alloc, game, Selection::HopefulOfDual(known.values()))
    }

    /// Returns the cautious game: Even's vertices keep the edges with a guard known true, Odd's keep the edges unless
    /// their guard is known false. Moves by which Even wins there win in each product that agrees with what is known.
    pub fn cautious(alloc: Global, game: &GuardedGame, known: &Partial) -> Result<Arena, AllocError>
        requires { length known.now ≡ game.now.features }
        ensures { IfOk result (λ arena. arena ≡ cautious_game (kleene known.now) (graph_of game.now)) }
    {
        Arena::selected(alloc, game, Selection::Cautious(known.values()))
    }

    /// Returns the cautious game of the dual, made from the game itself: no dual is built.
    pub fn cautious_of_dual(
        alloc: Global,
        game: &GuardedGame,
        known: &Partial,
    ) -> Result<Arena, AllocError>
        requires { length known.now ≡ game.now.features }
        ensures { IfOk result (λ arena. arena ≡ cautious_game (kleene known.now) (dual (graph_of game.now))) }
    {
        Arena::selected(alloc, game, Selection::CautiousOfDual(known.values()))
    }

    /// Returns both hopeful games under what is known now, that of the game and that of its dual. They are made from
    /// these two, which are those under what was known before. Guards are looked at only at the vertices that name a
    /// feature of another value now; all else is copied. More may be known than before, or less.
    pub fn both_updated(
        &self,
        of_dual: &Arena,
        alloc: Global,
        game: &GuardedGame,
        before: &Partial,
        known: &Partial,
    ) -> Result<(Arena, Arena), AllocError>
        requires before { length before.now ≡ game.now.features }
        requires known { length known.now ≡ game.now.features }
        requires held { self.now ≡ hopeful_game (kleene before.now) (graph_of game.now) }
        requires dual_held { of_dual.now ≡ hopeful_game (kleene before.now) (dual (graph_of game.now)) }
        ensures hopeful { IfOk result (λ both. both.0 ≡ hopeful_game (kleene known.now) (graph_of game.now)) }
        ensures dual { IfOk result (λ both. both.1 ≡ hopeful_game (kleene known.now) (dual (graph_of game.now))) }
    {
        let marks = concerned(alloc, game, before.values(), known.values())?;
        let first = Selection::Hopeful(known.values());
        let second = Selection::HopefulOfDual(known.values());
        self.reselected(of_dual, alloc, game, first, second, &marks)
    }

    /// Returns two selections of a game; only marked vertices are looked at, each once for both. The others keep what
    /// they have in these arenas. The successors of marked vertices come after an arena's own list. If one of these
    /// lists gets long, new lists are made.
    fn reselected(
        &self,
        other: &Arena,
        alloc: Global,
        game: &GuardedGame,
        first: Selection<'_>,
        second: Selection<'_>,
        marks: &[bool],
    ) -> Result<(Arena, Arena), AllocError>
        requires features { features_under first ≡ game.now.features }
        requires second_features { features_under second ≡ game.now.features }
        requires count { length self.now ≡ length (graph_of game.now) }
        requires other_count { length other.now ≡ length (graph_of game.now) }
        requires marks { length marks.now ≡ length (graph_of game.now) }
        requires held { IsHeldUnmarked first marks.now (graph_of game.now) self.now }
        requires other_held { IsHeldUnmarked second marks.now (graph_of game.now) other.now }
        ensures first { IfOk result (λ both. both.0 ≡ map (vertex_under first.entry) (graph_of game.now)) }
        ensures second { IfOk result (λ both. both.1 ≡ map (vertex_under second.entry) (graph_of game.now)) }
    {
        if self.own.len() > self.shared.len() / 4 || other.own.len() > other.shared.len() / 4 {
            let one = self.gathered(alloc, game, first, marks)?;
            let two = other.gathered(alloc, game, second, marks)?;
            return Ok((one, two));
        }
        let mut one = Draft::of(alloc, &self.rows, &self.shared, &self.own)?;
        let mut two = Draft::of(alloc, &other.rows, &other.shared, &other.own)?;
        replace_marked(&mut one, &mut two, game, first, second, marks)?;
        Ok((one.arena(), two.arena()))
    }

    /// Returns the arena of a selection, with the successors of all vertices in one new list.
    fn gathered(
        &self,
        alloc: Global,
        game: &GuardedGame,
        selection: Selection<'_>,
        marks: &[bool],
    ) -> Result<Arena, AllocError>
        requires features { features_under selection ≡ game.now.features }
        requires count { length self.now ≡ length (graph_of game.now) }
        requires marks { length marks.now ≡ length (graph_of game.now) }
        requires held { IsHeldUnmarked selection marks.now (graph_of game.now) self.now }
        ensures { IfOk result (λ arena. arena ≡ map (vertex_under selection.entry) (graph_of game.now)) }
    {
        let count = game.vertices();
        let room = self.shared.len();
        let mut rows = Vec::with_capacity(alloc, count)?;
        let mut successors = Vec::with_capacity(alloc, room)?;
        for v in 0..count as u32 {
            let start = successors.len() as u32;
            self.push_held(&mut successors, game, selection, v, marks[v as usize])?;
            rows.push(Row {
                owner: selection.owner(game.owner(v)),
                is_own: false,
                priority: selection.priority(game.priority(v)),
                start,
                end: successors.len() as u32,
            })?;
        }
        Arena::over(alloc, rows, successors)
    }

    /// Returns an arena with all successors in one list.
    fn over(alloc: Global, rows: Vec<Row>, successors: Vec<u32>) -> Result<Arena, AllocError>
        requires { AreRows rows.items successors.items [] }
        ensures { IfOk result (λ arena. arena ≡ row_vertices rows.items successors.items []) }
    {
        let shared = ArcSlice::from_vec(successors)?;
        Ok(Arena {
            rows,
            shared,
            own: Vec::new(alloc),
        })
    }

    /// Adds the kept successors of a vertex. Without a mark they are those that it has here.
    fn push_held(
        &self,
        successors: &mut Vec<u32>,
        game: &GuardedGame,
        selection: Selection<'_>,
        v: u32,
        is_marked: bool,
    ) -> Result<(), AllocError>
        requires game { IsGame game.now }
        requires vertex { v < length game.now.vertices }
        requires features { features_under selection ≡ game.now.features }
        requires count { length self.now ≡ length (graph_of game.now) }
        requires held { is_marked ≡ false →
            (vertex_at self.now v).successors
            ≡ kept_under selection (vertex_in (graph_of game.now) v).owner (vertex_in (graph_of game.now) v).edges }
        ensures { OnOk result (successors.new.items ≡ successors.old.items
            ++ kept_under selection.entry (vertex_in (graph_of game.now) v).owner
            (vertex_in (graph_of game.now) v).edges) }
    {
        if is_marked {
            selection.push_kept(successors, game.owner(v), game.edges(v))?;
            return Ok(());
        }
        successors.extend_from_slice(self.kept(v))?;
        Ok(())
    }

    /// Returns the plain game that a selection takes from a game, in one pass over its edges.
    pub(crate) fn selected(
        alloc: Global,
        game: &GuardedGame,
        selection: Selection<'_>,
    ) -> Result<Arena, AllocError>
        requires { features_under selection ≡ game.now.features }
        ensures { IfOk result (λ arena. arena ≡ map (vertex_under selection.entry) (graph_of game.now)) }
    {
        let vertices = game.vertices();
        let mut rows = Vec::with_capacity(alloc, vertices)?;
        let mut successors = Vec::new(alloc);
        for v in 0..vertices as u32 {
            let owner = game.owner(v);
            let start = successors.len() as u32;
            selection.push_kept(&mut successors, owner, game.edges(v))?;
            rows.push(Row {
                owner: selection.owner(owner),
                is_own: false,
                priority: selection.priority(game.priority(v)),
                start,
                end: successors.len() as u32,
            })?;
        }
        Arena::over(alloc, rows, successors)
    }

    /// Returns the number of vertices.
    pub fn vertices(&self) -> u32
        ensures { result ≡ length self.now }
    {
        self.rows.len() as u32
    }

    /// Returns who moves at a vertex.
    pub fn owner(&self, v: u32) -> Player
        requires { v < length self.now }
        ensures { result ≡ (vertex_at self.now v).owner }
    {
        self.rows[v as usize].owner
    }

    /// Returns the priority of a vertex.
    pub fn priority(&self, v: u32) -> u32
        requires { v < length self.now }
        ensures { result ≡ (vertex_at self.now v).priority }
    {
        self.rows[v as usize].priority
    }

    /// Returns the kept successors of a vertex, in the order named. Each is a vertex of the arena.
    pub fn kept(&self, v: u32) -> &[u32]
        requires { v < length self.now }
        ensures kept { result.now ≡ (vertex_at self.now v).successors }
        ensures closed { All (λ w. w < length self.now) result.now }
    {
        let row = self.rows[v as usize];
        let list: &[u32] = if row.is_own { &self.own } else { &self.shared };
        &list[row.start as usize..row.end as usize]
    }
}
