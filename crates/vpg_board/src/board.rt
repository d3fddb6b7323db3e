//! Boards: an order's tables as words that all seats share.

ghost use Rattle.std.specs.Prelude.{◌≡◌, ◌⊎◌, ℕ, ◌+◌, ◌<◌, ◌≤◌, Bool, true, false, [], ◌∷◌, ◌++◌, length, map, slice_index, take, drop, All, IsTrue, None, OnOk, IfOk, IfErr, IfSome, IfNone, MatchOption, MatchResult};
ghost use Rattle.std.specs.Mem.Slots.{slots_items, slots_len, IsFull};
ghost use Rattle.vpg_hope.specs.Arena.{vertex_at};
ghost use Rattle.vpg_measure.specs.Lifts.{lift_of, IsBelowTable};
ghost use Rattle.vpg_measure.specs.Orders.{IsOrder, IsSameOrder, IsHarvest, IsRaised, order_levels, order_arena, harvest_table};
ghost use Rattle.vpg_board.specs.Places.{vertices, places, place_of, values, table_in, lift_in};
ghost use Rattle.vpg_board.specs.Lifters.{splits, newcomer, both};
ghost use Rattle.vpg_board.specs.Run.{claim, split};
ghost use Rattle.vpg_board.specs.Taken.{IsOnBoard, Takes, TakesAll, load_of, lift_steps};
ghost use Rattle.vpg_board.specs.Seats.{opening_seat, SeesMore, IsSafe, AreOnce, HasAllAtEnd};
ghost use Rattle.vpg_board.specs.Joins.{IsEndOf};

use crate::lifter::Lifter;
use crate::seat::{Inner, Seat, TooManyLifters};
use crate::steps::{Both, Claim, Halves, Keeps, Load, Look, Raise};
use atomic_table::{Closed, Table};
use std::alloc::{AllocError, Global};
use std::marker::Model;
use vpg_measure::folding::{best_of_none, better, lift_to};
use vpg_measure::{Harvest, Order};
use vpg_sides::Which;

/// An order whose two tables several seats raise at once.
///
/// Contracts see which board it is, and its order. Each call requires that the seat is of this board.
pub struct Board {
    pub(crate) order: Order,
    vertices: u32,
    pub(crate) table: Table<(), Lifter, Order, Keeps, Global>,
}

impl Model for Board {
    ghost use Rattle.std.specs.Coded.{codes};
    ghost use Rattle.vpg_diagram.specs.Coding.{rule_code};
    ghost use Rattle.vpg_game.specs.Coding.{game_code};
    ghost use Rattle.vpg_board.specs.Seats.{BoardView};
    ghost use Rattle.vpg_board.specs.BoardFields.{board_of, AreBoardFields};

    ghost Value = { BoardView };

    ghost coded = { Prim.hlevel (codes, game_code, rule_code) };

    ghost view = { board_of };

    ghost invariant = { AreBoardFields };
}

// The claim word, and after it the values of both tables.
fn words_of(alloc: Global, order: &Order) -> Result<Vec<u64>, AllocError>
    ensures { IfOk result (λ words. words.items ≡ 0 ∷ values order.now) }
{
    let hopeful = order.table(Which::Hopeful).values();
    let dual = order.table(Which::Dual).values();
    let mut words = Vec::with_capacity(alloc, 1 + hopeful.len() + dual.len())?;
    words.push(0)?;
    words.extend_from_slice(hopeful)?;
    words.extend_from_slice(dual)?;
    Ok(words)
}

// This many of the words, from one on.
fn copy_words(
    alloc: Global,
    closed: &Closed<(), Global>,
    from: usize,
    count: u32,
) -> Result<Vec<u64>, AllocError>
    requires full { IsFull closed.now.words }
    requires words { from + count ≤ slots_len closed.now.words }
    ensures { IfOk result (λ copy. copy.items ≡ take count (drop from (slots_items closed.now.words))) }
{
    let mut copy = Vec::with_capacity(alloc, count as usize)?;
    for k in 0..count as usize {
        copy.push(closed.word(from + k))?;
    }
    Ok(copy)
}

// Both tables, as they stand in the words.
fn copy_tables(
    alloc: Global,
    closed: &Closed<(), Global>,
    vertices: u32,
) -> Result<(Vec<u64>, Vec<u64>), AllocError>
    requires full { IsFull closed.now.words }
    requires words { slots_len closed.now.words ≡ vertices + vertices + 1 }
    ensures hopeful { IfOk result (λ tables. tables.0.items ≡ take vertices (drop 1 (slots_items closed.now.words))) }
    ensures dual { IfOk result
        (λ tables. tables.1.items ≡ take vertices (drop (vertices + 1) (slots_items closed.now.words))) }
{
    let hopeful = copy_words(alloc, closed, 1, vertices)?;
    let dual = copy_words(alloc, closed, vertices as usize + 1, vertices)?;
    Ok((hopeful, dual))
}

impl Board {
    /// Returns a board of the order, and its opening seat, which has seen the order's tables. The only error is a lack
    /// of memory; then the order comes back.
    pub fn open(alloc: Global, order: Order) -> Result<(Board, Seat), Order>
        ensures order { IfOk result (λ opened. opened.0.order ≡ order) }
        ensures is_order { IfOk result (λ opened. IsOrder opened.0.order) }
        ensures seat { IfOk result (λ opened. opened.1 ≡ opening_seat opened.0) }
        ensures safe { IfOk result (λ opened. IsSafe opened.1.lifter) }
        ensures run { IfOk result (λ opened. IsOnBoard opened.1.lifter) }
        ensures back { IfErr result (λ returned. returned ≡ order) }
    {
        let Ok(words) = words_of(alloc, &order) else {
            return Err(order);
        };
        let vertices = order.game().vertices() as u32;
        let Ok((table, inner)) = Table::<(), Lifter, Order, Keeps, Global>::of_words(
            alloc,
            words.as_slice(),
            &order,
        ) else {
            return Err(order);
        };
        let seat = Seat {
            inner,
            opening: true,
            splits: 0,
            done: false,
        };
        Ok((
            Board {
                order,
                vertices,
                table,
            },
            seat,
        ))
    }

    /// Returns a new seat, which has seen what this one has and has no claims. Only the opening seat, or a seat that
    /// merged it, splits, and at most 63 times. Any other call is refused and changes nothing.
    pub fn split(&self, seat: &mut Seat) -> Result<Seat, TooManyLifters>
        requires { seat.old.board ≡ self.now }
        ensures board { seat.new.board ≡ seat.old.board }
        ensures split { IfOk result (λ _. seat.new.lifter ≡ splits seat.old.lifter) }
        ensures other { IfOk result
            (λ other. (other.board ≡ seat.old.board) × (other.lifter ≡ newcomer seat.old.lifter)) }
        ensures step { IfOk result (λ _. Takes split seat.old.lifter seat.new.lifter) }
        ensures run { IfOk result (λ other. IsOnBoard other.lifter) }
        ensures allowed { OnOk result ((seat.old.lifter.opening ≡ true) × (seat.old.lifter.splits < 63)) }
        ensures same { IfErr result (λ _. seat.new ≡ seat.old) }
        ensures refused { IfErr result (λ _. (seat.old.lifter.opening ≡ false) ⊎ (seat.old.lifter.splits ≡ 63)) }
    {
        if !seat.opening || seat.splits >= 63 {
            return Err(TooManyLifters);
        }
        let inner = self.table.shared.split_seat::<Halves>(&mut seat.inner);
        seat.splits += 1;
        Ok(Seat {
            inner,
            opening: false,
            splits: 0,
            done: false,
        })
    }

    /// Returns the next vertex that no seat has claimed: those of the hopeful table, then those of the dual, in file
    /// order over all seats. A seat that got `None`, or merged one that did, gets `None` without a step.
    pub fn claim(&self, seat: &mut Seat) -> Option<(Which, u32)>
        requires { seat.old.board ≡ self.now }
        ensures board { seat.new.board ≡ seat.old.board }
        ensures claimed { IfSome result
            (λ c. seat.new.lifter ≡ record seat.old.lifter { claims = seat.old.lifter.claims ++ place_of self.now.order c.0 c.1 ∷ [] }) }
        ensures vertex { IfSome result (λ c. c.1 < vertices self.now.order) }
        ensures later { IfSome result
            (λ c. All (λ earlier. earlier < place_of self.now.order c.0 c.1) seat.old.lifter.claims) }
        ensures once { AreOnce seat.new.lifter.claims }
        ensures none { IfNone result
            ((seat.new.lifter ≡ record seat.old.lifter { empty = seat.new.lifter.empty }) ×
            (0 < seat.new.lifter.empty)) }
        ensures still_none { 0 < seat.old.lifter.empty → (result ≡ None) × (seat.new ≡ seat.old) }

        // The call is the step `claim` on a board that some run reached.
        ensures step { seat.old.lifter.empty ≡ 0 → Takes claim seat.old.lifter seat.new.lifter }

        // Once none is left and this seat stands for all, its claims are all vertices of both tables, each once.
        ensures all { HasAllAtEnd seat.new.lifter }
    {
        if seat.done {
            return None;
        }
        let place = self.table.shared.fetch_add::<Claim>(&mut seat.inner, 0, 1);
        let claimed = self.vertex_at(place);
        seat.done = claimed.is_none();
        claimed
    }

    /// Loads the word and the kept successors of a vertex, and raises the word to the lift of the values seen then, by
    /// one `fetch_max`. The raise is left out if the word was already that great. Returns whether the word was raised.
    pub fn lift(&self, seat: &mut Seat, which: Which, v: u32) -> bool
        requires board { seat.old.board ≡ self.now }
        requires vertex { v < vertices self.now.order }
        ensures board { seat.new.board ≡ seat.old.board }
        ensures seen { SeesMore seat.old.lifter seat.new.lifter }
        ensures safe { IsSafe seat.new.lifter }

        // The call loads the word and those of the kept successors, and raises the word once or not at all, each time
        // on a board that some run reached.
        ensures steps { (raises : Bool) ×
            TakesAll (lift_steps self.now.order which v raises) seat.old.lifter seat.new.lifter }

        ensures lifted { lift_in self.now.order which seat.old.lifter.seen v ≤ slice_index
            (table_in self.now.order which seat.new.lifter.seen) v }
        ensures raised { IsTrue result →
            slice_index (table_in self.now.order which seat.old.lifter.seen) v < slice_index
            (table_in self.now.order which seat.new.lifter.seen) v }
    {
        self.raise(&mut seat.inner, which, v)
    }

    /// Merges another seat of this board into `seat`: what it has seen, its claims, and the seats that it stands for.
    pub fn join(&self, seat: &mut Seat, other: Seat)
        requires board { seat.old.board ≡ self.now }
        requires other { other.board ≡ self.now }
        ensures board { seat.new.board ≡ seat.old.board }
        ensures both { seat.new.lifter ≡ both seat.old.lifter other.lifter }
        ensures safe { IsSafe seat.new.lifter }
        ensures run { IsOnBoard seat.new.lifter }
        ensures once { AreOnce seat.new.lifter.claims }
        ensures all { HasAllAtEnd seat.new.lifter }
    {
        let Seat {
            inner,
            opening,
            splits,
            done,
        } = other;
        self.table.shared.join_seat::<Both>(&mut seat.inner, inner);
        self.table.shared.load::<Look>(&mut seat.inner, 0);
        seat.opening = seat.opening || opening;
        seat.splits += splits;
        seat.done = seat.done || done;
    }

    /// Ends the board, and returns the harvest of its order, on or above all that the seat and those merged into it
    /// have seen. The only error is a lack of memory; then the order comes back.
    pub fn close(self, alloc: Global, seat: Seat) -> Result<Harvest, Order>
        requires { seat.board ≡ self }
        ensures order { IfOk result (λ harvest. IsSameOrder harvest.order self.order) }
        ensures seen { IfOk result
            (λ harvest. (which : Which) →
            IsBelowTable (table_in self.order which seat.lifter.seen) (harvest_table which harvest)) }

        // One run led to the words, which are its tables, and to the seat, with all joins of that seat.
        ensures words { IfOk result (IsEndOf self.order seat.lifter) }

        // On or above the order's tables, and below every progress table of its games.
        ensures harvest { IfOk result IsHarvest }
        ensures back { IfErr result (λ order. order ≡ self.order) }
    {
        let Board {
            order,
            vertices,
            table,
        } = self;
        let Seat {
            inner,
            opening: _,
            splits: _,
            done: _,
        } = seat;
        let closed = table.close_with(inner);
        let tables = copy_tables(alloc, &closed, vertices);
        closed.free();
        let Ok((hopeful, dual)) = tables else {
            return Err(order);
        };
        Ok(Harvest::of(order, hopeful, dual))
    }

    // The vertex at a place.
    fn vertex_at(&self, place: u64) -> Option<(Which, u32)>
        ensures { MatchOption result (places self.now.order ≤ place)
            (λ c. (c.1 < vertices self.now.order) × (place_of self.now.order c.0 c.1 ≡ place)) }
    {
        let vertices = self.vertices as u64;
        if place < vertices {
            Some((Which::Hopeful, place as u32))
        } else if place < vertices + vertices {
            Some((Which::Dual, (place - vertices) as u32))
        } else {
            None
        }
    }

    // The word of a vertex.
    fn word_of(&self, which: Which, v: u32) -> usize
        requires { v < vertices self.now.order }
        ensures { result ≡ place_of self.now.order which v + 1 }
    {
        match which {
            Which::Hopeful => v as usize + 1,
            Which::Dual => self.vertices as usize + v as usize + 1,
        }
    }

    // The lift of the values that the seat has seen, once it has loaded the kept successors.
    fn loaded_lift(&self, seat: &mut Inner, which: Which, v: u32) -> u64
        requires board { seat.old.table_id ≡ self.now.table }
        requires order { seat.old.me.0.order ≡ self.now.order }
        requires stands { 0 < seat.old.me.0.stands }
        requires safe { IsSafe seat.old.me.0 }
        requires run { IsOnBoard seat.old.me.0 }
        requires vertex { v < vertices self.now.order }
        ensures table { seat.new.table_id ≡ seat.old.table_id }
        ensures slots { seat.new.me.1 ≡ seat.old.me.1 }
        ensures seen { SeesMore seat.old.me.0 seat.new.me.0 }
        ensures safe { IsSafe seat.new.me.0 }
        ensures steps { TakesAll
            (map (load_of self.now.order which)
            (vertex_at (order_arena which self.now.order) v).successors) seat.old.me.0 seat.new.me.0 }
        ensures run { IsOnBoard seat.new.me.0 }
        ensures lift { result ≡ lift_in self.now.order which seat.new.me.0.seen v }
    {
        let shape = self.order.shape(which);
        let arena = self.order.arena(which);
        let owner = arena.owner(v);
        let mut best = best_of_none(shape, owner);
        let kept = arena.kept(v);
        for successor in kept {
            let word = self.word_of(which, *successor);
            let value = self.table.shared.load::<Load>(seat, word);
            best = better(owner, best, value);
        }
        lift_to(shape, arena, v, best)
    }

    // Most lifts raise nothing: so the word is loaded first, and written only if that is less.
    fn raise(&self, seat: &mut Inner, which: Which, v: u32) -> bool
        requires board { seat.old.table_id ≡ self.now.table }
        requires order { seat.old.me.0.order ≡ self.now.order }
        requires stands { 0 < seat.old.me.0.stands }
        requires safe { IsSafe seat.old.me.0 }
        requires vertex { v < vertices self.now.order }
        ensures table { seat.new.table_id ≡ seat.old.table_id }
        ensures slots { seat.new.me.1 ≡ seat.old.me.1 }
        ensures seen { SeesMore seat.old.me.0 seat.new.me.0 }
        ensures safe { IsSafe seat.new.me.0 }
        ensures steps { (raises : Bool) ×
            TakesAll (lift_steps self.now.order which v raises) seat.old.me.0 seat.new.me.0 }
        ensures run { IsOnBoard seat.new.me.0 }
        ensures lifted { lift_in self.now.order which seat.old.me.0.seen v ≤ slice_index
            (table_in self.now.order which seat.new.me.0.seen) v }
        ensures raised { IsTrue result →
            slice_index (table_in self.now.order which seat.old.me.0.seen) v < slice_index
            (table_in self.now.order which seat.new.me.0.seen) v }
    {
        let word = self.word_of(which, v);
        let before = self.table.shared.load::<Load>(seat, word);
        let lifted = self.loaded_lift(seat, which, v);
        if lifted <= before {
            return false;
        }
        let found = self.table.shared.fetch_max::<Raise>(seat, word, lifted);
        found < lifted
    }
}
