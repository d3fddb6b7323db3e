//! Harvests: what lifters bring back.

ghost use Rattle.std.specs.Prelude.{◌≡◌, ◌↔◌, ◌<◌, ℕ, length, slice_index, sum, IsTrue, MatchBool};
ghost use Rattle.vpg_measure.specs.Lifts.{raised, after_rounds, IsProgressTable};
ghost use Rattle.vpg_measure.specs.Orders.{IsHarvest, IsRaised, IsSameOrder, IsSettledHarvest, IsOrderAgain, order_table, harvest_table, other_table, order_levels, order_arena};

use crate::lifts::is_progress;
use crate::order::Order;
use crate::table::Table;
use std::marker::Model;
use vpg_sides::Which;

/// An order, and two tables on or above its own, below every progress table of its two games.
///
/// No call on it takes memory: its tables stand in the order's room. It may hold a note that they are progress tables;
/// then `check` looks at no edge.
#[derive(Drop)]
pub struct Harvest {
    order: Order,
    // whether the tables are known to be progress tables
    is_noted: bool,
}

impl Model for Harvest {
    ghost use Rattle.std.specs.Coded.{codes};
    ghost use Rattle.vpg_diagram.specs.Coding.{rule_code};
    ghost use Rattle.vpg_game.specs.Coding.{game_code};
    ghost use Rattle.vpg_measure.specs.Orders.{HarvestView, harvest_of};
    ghost use Rattle.vpg_measure.specs.HarvestFields.{AreHarvestFields};

    ghost Value = { HarvestView };

    ghost coded = { Prim.hlevel (codes, game_code, rule_code) };

    ghost view = { λ h. harvest_of h.order };

    ghost invariant = { AreHarvestFields };
}

impl Harvest {
    /// Returns the order as it stands.
    pub fn of_order(order: Order) -> Harvest
        ensures order { IsSameOrder result.order order }
        ensures tables { (which : Which) → harvest_table which result ≡ order_table which order }
    {
        let mut filled = order;
        filled.fill_room();
        Harvest {
            order: filled,
            is_noted: false,
        }
    }

    /// Returns the order with one vertex of one table lifted once, if that is greater.
    pub fn one(order: Order, which: Which, v: u32) -> Harvest
        requires { v < length order.game.vertices }
        ensures order { IsSameOrder result.order order }
        ensures raised { harvest_table which result
            ≡ raised (order_levels which order) (order_arena which order) (order_table which order) v }
        ensures other { harvest_table (other_table which) result ≡ order_table (other_table which) order }
    {
        let mut order = order;
        order.fill_room();
        order.raise_room(which, v);
        Harvest {
            order,
            is_noted: false,
        }
    }

    /// Returns the order with both tables settled by one thread, in this many rounds each at most.
    pub fn alone(order: Order, rounds: u64) -> Harvest
        ensures order { IsSameOrder result.order order }
        ensures settled { (which : Which) →
            harvest_table which result
            ≡ after_rounds (order_levels which order) (order_arena which order) rounds (order_table which order) }
    {
        let mut order = order;
        order.fill_room();
        order.settle_room(Which::Hopeful, rounds);
        order.settle_room(Which::Dual, rounds);
        Harvest {
            order,
            is_noted: false,
        }
    }

    /// Returns the order with these tables, one value for each vertex.
    pub fn of(order: Order, hopeful: Vec<u64>, dual: Vec<u64>) -> Harvest
        requires hopeful { IsRaised Which.Hopeful order hopeful.items }
        requires dual { IsRaised Which.Dual order dual.items }
        ensures order { IsSameOrder result.order order }
        ensures hopeful { result.hopeful ≡ hopeful.items }
        ensures dual { result.dual ≡ dual.items }
    {
        let mut order = order;
        order.put_room(Table::of(hopeful), Table::of(dual));
        Harvest {
            order,
            is_noted: false,
        }
    }

    /// Lifts one vertex of either table once, if that is greater, and returns whether its value rose.
    pub fn raise(&mut self, which: Which, v: u32) -> bool
        requires { v < length self.old.order.game.vertices }
        ensures order { IsSameOrder self.new.order self.old.order }
        ensures raised { harvest_table which self.new
            ≡ raised (order_levels which self.old.order) (order_arena which self.old.order)
            (harvest_table which self.old) v }
        ensures other { harvest_table (other_table which) self.new ≡ harvest_table (other_table which) self.old }
        ensures rose { MatchBool result (sum (harvest_table which self.old) < sum (harvest_table which self.new))
            (harvest_table which self.new ≡ harvest_table which self.old) }
        ensures harvests { IsHarvest self.old × IsHarvest self.new }
    {
        self.is_noted = false;
        self.order.raise_room(which, v)
    }

    /// Returns the order that the harvest came from.
    pub fn order(&self) -> &Order
        ensures order { result.now ≡ self.now.order }
        ensures harvest { IsHarvest self.now }
    {
        &self.order
    }

    /// Returns either table.
    pub fn table(&self, which: Which) -> &Table
        ensures table { result.now ≡ harvest_table which self.now }
        ensures harvest { IsHarvest self.now }
    {
        self.order.room(which)
    }

    /// Returns the value of a vertex in either table.
    pub fn value(&self, which: Which, v: u32) -> u64
        requires { v < length self.now.order.game.vertices }
        ensures { result ≡ slice_index (harvest_table which self.now) v }
    {
        self.table(which).get(v)
    }

    /// Whether both tables are progress tables. Without a note of it, the call is a pass over the kept edges, which
    /// ends at the first vertex that a lift raises.
    pub fn check(&self) -> bool
        ensures { IsTrue result ↔ IsSettledHarvest self.now }
    {
        self.is_noted || self.looks_settled()
    }

    /// Adds a note that both tables are progress tables: a later `check` looks at no edge.
    pub fn noted(self) -> Harvest
        requires { IsSettledHarvest self }
        ensures { result ≡ self }
    {
        let mut noted = self;
        noted.is_noted = true;
        noted
    }

    /// Whether there is a note that both tables are progress tables. They may be so without one.
    pub fn is_noted(&self) -> bool
        ensures { IsTrue result → IsSettledHarvest self.now }
    {
        self.is_noted
    }

    // Whether both tables are progress tables, by looking at the kept edges.
    fn looks_settled(&self) -> bool
        ensures { IsTrue result ↔ IsSettledHarvest self.now }
    {
        self.is_settled(Which::Hopeful) && self.is_settled(Which::Dual)
    }

    // Whether one table is a progress table.
    fn is_settled(&self, which: Which) -> bool
        ensures { IsTrue result ↔
            IsProgressTable (order_levels which self.now.order) (order_arena which self.now.order)
            (harvest_table which self.now) }
    {
        is_progress(
            self.order.shape(which),
            self.order.arena(which),
            self.order.room(which),
        )
    }

    /// Returns the order of the same page with the raised tables.
    pub fn again(self) -> Order
        ensures { IsOrderAgain result self }
    {
        let Harvest { order, .. } = self;
        let mut order = order;
        order.exchange_room();
        order
    }
}
