//! Orders: what lifters take from a page.

ghost use Rattle.std.specs.Arc.{arc_value};
ghost use Rattle.std.specs.Prelude.{◌≡◌, ◌↔◌, ◌<◌, ℕ, length, map, sum, IfOk, IfErr, IsTrue, Err, MatchBool};
ghost use Rattle.vpg_diagram.specs.Clauses.{clauses_of, counts_of};
ghost use Rattle.vpg_diagram.specs.FeatureDiagram.{feature_count};
ghost use Rattle.vpg_game.specs.Game.{IsAtLimit, graph_of};
ghost use Rattle.vpg_partial.specs.Known.{literal_of, NamesConflict};
ghost use Rattle.vpg_partial.specs.TableLaws.{AreChoicesOf};
ghost use Rattle.vpg_guards.specs.Known.{kleene};
ghost use Rattle.vpg_measure.specs.Games.{ArePageGames};
ghost use Rattle.vpg_measure.specs.Lifts.{IsProgressTable, IsTableOf, raised, after_rounds};
ghost use Rattle.vpg_measure.specs.Orders.{IsOrder, IsOpeningTable, IsSettledOrder, order_table, order_room, with_room, order_levels, order_arena};
ghost use Rattle.vpg_measure.specs.TwoGames.{IsTableBelow};

use crate::fault::OrderFault;
use crate::games::PageGames;
use crate::lifts::{is_progress, raise, settle_alone};
use crate::shape::Shape;
use crate::table::Table;
use std::alloc::{AllocError, Global};
use std::marker::Model;
use std::sync::Arc;
use std::{fmt, mem};
use thiserror::Error;
use vpg_diagram::Diagram;
use vpg_game::GuardedGame;
use vpg_hope::Arena;
use vpg_partial::Decision;
use vpg_sides::Which;

/// The game, the diagram, the decisions and both tables of a page, with all that lifters need: the page's games, and
/// room for two raised tables. It may hold a note that its tables are progress tables; then `check` looks at no edge.
pub struct Order {
    game: Arc<GuardedGame>,
    diagram: Arc<Diagram>,
    decisions: Vec<Decision>,
    games: Arc<PageGames>,
    hopeful: Table,
    dual: Table,
    hopeful_room: Table,
    dual_room: Table,
    // whether the tables are known to be progress tables
    is_noted: bool,
}

// Not derived: a derived `drop` would be proved again at each exit that owns such a value.
impl Drop for Order {
    fn drop(self) {
        let Order {
            game: _,
            diagram: _,
            decisions: _,
            games: _,
            hopeful: _,
            dual: _,
            hopeful_room: _,
            dual_room: _,
            is_noted: _,
        } = self;
    }
}

impl Model for Order {
    ghost use Rattle.std.specs.Coded.{codes};
    ghost use Rattle.vpg_diagram.specs.Coding.{rule_code};
    ghost use Rattle.vpg_game.specs.Coding.{game_code};
    ghost use Rattle.vpg_measure.specs.Orders.{OrderView};

    ghost Value = { OrderView };

    ghost coded = { Prim.hlevel (codes, game_code, rule_code) };

    ghost use Rattle.vpg_measure.specs.OrderFields.{order_of, AreFields};

    ghost view = { order_of };

    ghost invariant = { AreFields };
}

/// A refused order: the fault, and all that was passed in.
#[derive(Drop, Error)]
#[error("{fault}")]
pub struct Refused {
    pub fault: OrderFault,
    pub game: Arc<GuardedGame>,
    pub diagram: Arc<Diagram>,
    pub decisions: Vec<Decision>,
    pub hopeful: Table,
    pub dual: Table,
}

// Written by hand: the values that are handed back are not shown.
impl fmt::Debug for Refused {
    fn fmt<W: fmt::Write>(&self, f: &mut fmt::Formatter<W>) -> fmt::Result {
        f.debug_struct("Refused")
            .field("fault", &self.fault)
            .finish_non_exhaustive()
    }
}

// Room for the two tables of a game.
fn two_rooms(
    alloc: Global,
    game: &GuardedGame,
    games: &PageGames,
) -> Result<(Table, Table), AllocError>
    ensures hopeful { IfOk result (λ rooms. length rooms.0 ≡ length game.now.vertices) }
    ensures dual { IfOk result (λ rooms. length rooms.1 ≡ length game.now.vertices) }
{
    let vertices = game.vertices() as u32;
    let hopeful = Table::zero(alloc, games.shape(Which::Hopeful), vertices)?;
    let dual = Table::zero(alloc, games.shape(Which::Dual), vertices)?;
    Ok((hopeful, dual))
}

// The games of decisions, to be shared, and room for their two tables.
fn games_and_room(
    alloc: Global,
    game: &GuardedGame,
    diagram: &Diagram,
    decisions: &[Decision],
) -> Result<(Arc<PageGames>, Table, Table), OrderFault>
    requires features { game.now.features ≡ feature_count diagram.now.lines }
    requires named { AreChoicesOf diagram.now.lines (map literal_of decisions.now) }
    ensures games { IfOk result
        (λ made. ArePageGames game.now diagram.now (map literal_of decisions.now) (arc_value made.0)) }
    ensures hopeful { IfOk result (λ made. length made.1 ≡ length game.now.vertices) }
    ensures dual { IfOk result (λ made. length made.2 ≡ length game.now.vertices) }
    ensures at_limit { (result ≡ Err OrderFault.AtLimit) ↔ IsAtLimit game.now }
    ensures conflict { (f : ℕ) → result ≡ Err (OrderFault.Conflict f) →
        NamesConflict (clauses_of diagram.now.lines) (counts_of diagram.now.lines) (map literal_of decisions.now) f }
{
    let games = PageGames::under(alloc, game, diagram, decisions)?.share(alloc)?;
    let (hopeful, dual) = two_rooms(alloc, game, &games)?;
    Ok((games, hopeful, dual))
}

impl Order {
    /// Returns the order of a page: each table has one value for each vertex, below every progress table of its game.
    ///
    /// Errors, in this order: `AtLimit` if a priority of the game is 65,536, so that it has no dual; `Conflict` if the
    /// decisions have one; `Memory`. All that was passed in comes back with the fault.
    pub fn of(
        alloc: Global,
        game: Arc<GuardedGame>,
        diagram: Arc<Diagram>,
        decisions: Vec<Decision>,
        hopeful: Table,
        dual: Table,
    ) -> Result<Order, Refused>
        requires features { (arc_value game).features ≡ feature_count (arc_value diagram).lines }
        requires named { AreChoicesOf (arc_value diagram).lines (map literal_of decisions.items) }
        requires hopeful { IsOpeningTable (arc_value game) (arc_value diagram) decisions.items Which.Hopeful hopeful }
        requires dual { IsOpeningTable (arc_value game) (arc_value diagram) decisions.items Which.Dual dual }

        // The order holds what was passed in.
        ensures game { IfOk result (λ order. order.game ≡ arc_value game) }
        ensures diagram { IfOk result (λ order. order.diagram ≡ arc_value diagram) }
        ensures decisions { IfOk result (λ order. order.decisions ≡ decisions.items) }
        ensures hopeful { IfOk result (λ order. order.hopeful ≡ hopeful) }
        ensures dual { IfOk result (λ order. order.dual ≡ dual) }
        ensures order { IfOk result IsOrder }

        // `AtLimit` is returned whenever a priority is at the limit, `Conflict` only if there is a conflict.
        ensures at_limit { IfErr result (λ refused. (refused.fault ≡ OrderFault.AtLimit) ↔ IsAtLimit (arc_value game)) }
        ensures conflict { IfErr result (λ refused. (f : ℕ) → refused.fault ≡ OrderFault.Conflict f →
            NamesConflict (clauses_of (arc_value diagram).lines) (counts_of (arc_value diagram).lines)
            (map literal_of decisions.items) f) }

        // The arguments of a refused call come back.
        ensures game_back { IfErr result (λ refused. arc_value refused.game ≡ arc_value game) }
        ensures diagram_back { IfErr result (λ refused. arc_value refused.diagram ≡ arc_value diagram) }
        ensures decisions_back { IfErr result (λ refused. refused.decisions.items ≡ decisions.items) }
        ensures hopeful_back { IfErr result (λ refused. refused.hopeful ≡ hopeful) }
        ensures dual_back { IfErr result (λ refused. refused.dual ≡ dual) }
    {
        match games_and_room(alloc, &game, &diagram, &decisions) {
            Ok((games, hopeful_room, dual_room)) => Ok(Order {
                game,
                diagram,
                decisions,
                games,
                hopeful,
                dual,
                hopeful_room,
                dual_room,
                is_noted: false,
            }),
            Err(fault) => Err(Refused {
                fault,
                game,
                diagram,
                decisions,
                hopeful,
                dual,
            }),
        }
    }

    /// Returns the order of a page with games that are made already: they are those of these decisions. No edge is
    /// looked at. Each table has one value for each vertex, below every progress table of its game.
    pub fn over(
        alloc: Global,
        game: Arc<GuardedGame>,
        diagram: Arc<Diagram>,
        decisions: Vec<Decision>,
        games: Arc<PageGames>,
        hopeful: Table,
        dual: Table,
    ) -> Result<Order, AllocError>
        requires features { (arc_value game).features ≡ feature_count (arc_value diagram).lines }
        requires named { AreChoicesOf (arc_value diagram).lines (map literal_of decisions.items) }
        requires games { ArePageGames (arc_value game) (arc_value diagram) (map literal_of decisions.items)
            (arc_value games) }
        requires hopeful { IsOpeningTable (arc_value game) (arc_value diagram) decisions.items Which.Hopeful hopeful }
        requires dual { IsOpeningTable (arc_value game) (arc_value diagram) decisions.items Which.Dual dual }
        ensures game { IfOk result (λ order. order.game ≡ arc_value game) }
        ensures diagram { IfOk result (λ order. order.diagram ≡ arc_value diagram) }
        ensures decisions { IfOk result (λ order. order.decisions ≡ decisions.items) }
        ensures hopeful { IfOk result (λ order. order.hopeful ≡ hopeful) }
        ensures dual { IfOk result (λ order. order.dual ≡ dual) }
        ensures order { IfOk result IsOrder }
    {
        let (hopeful_room, dual_room) = two_rooms(alloc, &game, &games)?;
        Ok(Order {
            game,
            diagram,
            decisions,
            games,
            hopeful,
            dual,
            hopeful_room,
            dual_room,
            is_noted: false,
        })
    }

    /// Returns the game.
    pub fn game(&self) -> &Arc<GuardedGame>
        ensures game { arc_value result.now ≡ self.now.game }
        ensures order { IsOrder self.now }
    {
        &self.game
    }

    /// Returns the diagram.
    pub fn diagram(&self) -> &Arc<Diagram>
        ensures diagram { arc_value result.now ≡ self.now.diagram }
        ensures order { IsOrder self.now }
    {
        &self.diagram
    }

    /// Returns the decisions, in the page's order.
    pub fn decisions(&self) -> &[Decision]
        ensures decisions { result.now ≡ self.now.decisions }
        ensures order { IsOrder self.now }
    {
        &self.decisions
    }

    /// Returns the games that the decisions make of the game.
    pub fn games(&self) -> &Arc<PageGames>
        ensures { ArePageGames self.now.game self.now.diagram (map literal_of self.now.decisions)
            (arc_value result.now) }
    {
        &self.games
    }

    /// Returns the table of the hopeful game.
    pub fn hopeful(&self) -> &Table
        ensures { result.now ≡ self.now.hopeful }
    {
        &self.hopeful
    }

    /// Returns the table of the hopeful game of the dual.
    pub fn dual(&self) -> &Table
        ensures { result.now ≡ self.now.dual }
    {
        &self.dual
    }

    /// Returns either table.
    pub fn table(&self, which: Which) -> &Table
        ensures table { result.now ≡ order_table which self.now }
        ensures order { IsOrder self.now }
    {
        match which {
            Which::Hopeful => &self.hopeful,
            Which::Dual => &self.dual,
        }
    }

    /// Returns the shape of the measures of either game.
    pub fn shape(&self, which: Which) -> &Shape
        ensures { result.now ≡ order_levels which self.now }
    {
        self.games.shape(which)
    }

    /// Returns the kept edges of either game.
    pub fn arena(&self, which: Which) -> &Arena
        ensures { result.now ≡ order_arena which self.now }
    {
        self.games.arena(which)
    }

    /// Whether both tables are progress tables. Without a note of it, the call is a pass over the kept edges, which
    /// ends at the first vertex that a lift raises.
    pub fn check(&self) -> bool
        ensures { IsTrue result ↔ IsSettledOrder self.now }
    {
        self.is_noted || self.looks_settled()
    }

    /// Adds a note that both tables are progress tables: a later `check` looks at no edge.
    pub fn noted(self) -> Order
        requires { IsSettledOrder self }
        ensures { result ≡ self }
    {
        let mut noted = self;
        noted.is_noted = true;
        noted
    }

    // Whether both tables are progress tables, by looking at the kept edges.
    fn looks_settled(&self) -> bool
        ensures { IsTrue result ↔ IsSettledOrder self.now }
    {
        self.is_settled(Which::Hopeful) && self.is_settled(Which::Dual)
    }

    // Whether one table is a progress table.
    fn is_settled(&self, which: Which) -> bool
        ensures { IsTrue result ↔
            IsProgressTable (order_levels which self.now) (order_arena which self.now) (order_table which self.now) }
    {
        is_progress(self.shape(which), self.arena(which), self.table(which))
    }
}

// The room of an order, for harvests.
impl Order {
    /// Returns the table in the room for either table.
    pub(crate) fn room(&self, which: Which) -> &Table
        ensures { result.now ≡ order_room which self.now }
    {
        match which {
            Which::Hopeful => &self.hopeful_room,
            Which::Dual => &self.dual_room,
        }
    }

    /// Writes the tables into the room.
    pub(crate) fn fill_room(&mut self)
        ensures order { IsOrder self.old }
        ensures filled { self.new ≡ record self.old { hopeful_room = self.old.hopeful; dual_room = self.old.dual } }
    {
        self.hopeful_room.assign(&self.hopeful);
        self.dual_room.assign(&self.dual);
    }

    /// Lifts a vertex of the table in the room once, if that is greater, and returns whether its value rose.
    pub(crate) fn raise_room(&mut self, which: Which, v: u32) -> bool
        requires vertex { v < length self.old.game.vertices }
        requires table { IsTableOf (order_levels which self.old) (order_arena which self.old)
            (order_room which self.old) }
        ensures raised { self.new
            ≡ with_room which (raised (order_levels which self.old) (order_arena which self.old)
            (order_room which self.old) v) self.old }
        ensures rose { MatchBool result (sum (order_room which self.old) < sum (order_room which self.new))
            (order_room which self.new ≡ order_room which self.old) }
    {
        let shape = self.games.shape(which);
        let arena = self.games.arena(which);
        match which {
            Which::Hopeful => raise(shape, arena, &mut self.hopeful_room, v),
            Which::Dual => raise(shape, arena, &mut self.dual_room, v),
        }
    }

    /// Settles the table in the room, by this many rounds at most.
    pub(crate) fn settle_room(&mut self, which: Which, rounds: u64)
        requires { IsTableOf (order_levels which self.old) (order_arena which self.old) (order_room which self.old) }
        ensures { self.new ≡ with_room which
            (after_rounds (order_levels which self.old) (order_arena which self.old) rounds
            (order_room which self.old)) self.old }
    {
        let shape = self.games.shape(which);
        let arena = self.games.arena(which);
        match which {
            Which::Hopeful => settle_alone(shape, arena, &mut self.hopeful_room, rounds),
            Which::Dual => settle_alone(shape, arena, &mut self.dual_room, rounds),
        };
    }

    /// Puts other tables into the room.
    pub(crate) fn put_room(&mut self, hopeful: Table, dual: Table)
        requires hopeful { length hopeful ≡ length self.old.hopeful }
        requires dual { length dual ≡ length self.old.dual }
        ensures order { IsOrder self.old }
        ensures put { self.new ≡ record self.old { hopeful_room = hopeful; dual_room = dual } }
    {
        self.hopeful_room = hopeful;
        self.dual_room = dual;
    }

    /// Exchanges the tables with those in the room.
    pub(crate) fn exchange_room(&mut self)
        requires { (which : Which) →
            IsTableBelow (kleene self.old.known) which (graph_of self.old.game) (order_room which self.old) }
        ensures { self.new ≡ record self.old {
          hopeful = self.old.hopeful_room;
          dual = self.old.dual_room;
          hopeful_room = self.old.hopeful;
          dual_room = self.old.dual;
        } }
    {
        mem::swap(&mut self.hopeful, &mut self.hopeful_room);
        mem::swap(&mut self.dual, &mut self.dual_room);
        self.is_noted = false;
    }
}
