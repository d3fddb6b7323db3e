//! Lifts, settling by rounds, and strategies. Definitions: `specs/Lifts`, after Jurdzinski 2000.

ghost use Rattle.std.specs.Prelude.{◌≡◌, ◌≢◌, ℕ, ◌+◌, ◌-◌, ◌<◌, ◌≤◌, ◌^◌, ◌↔◌, List, length, map, IfOk, OnOk, All, IsTrue, MatchBool, Err, ◌==◌, slice_index, sum, sum_by};
ghost use Rattle.std.specs.List.{find};
ghost use Rattle.vpg_game.specs.Levels.{top_of, prog_of};
ghost use Rattle.vpg_hope.specs.Arena.{vertex_at};
ghost use Rattle.vpg_hope.specs.Strategies.{Wins};
ghost use Rattle.vpg_measure.specs.Views.{strategy_of};
ghost use Rattle.vpg_measure.specs.Lifts.{IsTableOf, NumberFitsAt, IsProgressTable, IsBelowTable, least_of, greatest_of, lift_of, raised, round_of, after_rounds, EndsAs, choice_of, AreChoices};

use crate::shape::{Shape, prog};
use crate::table::Table;
use std::alloc::Global;
use thiserror::Error;
use vpg_hope::arena::Arena;
use vpg_sides::Player;

/// How settling ended.
#[derive(Clone, Copy, Debug, PartialEq, Eq)]
pub enum Outcome {
    /// A round raised nothing: the table is a progress table.
    Settled,
    /// Each of the rounds allowed raised something.
    RanOut,
}

/// Why there is no strategy.
#[derive(Clone, Copy, Debug, PartialEq, Eq, Error)]
pub enum StrategyFault {
    /// The table is no progress table.
    #[error("NotSettled")]
    NotSettled,
    /// Memory ran out.
    #[error("Memory")]
    Memory,
}

fn least_value(table: &Table, kept: &[u32], top: u64) -> u64
    requires { All (λ w. w < length table.now) kept.now }
    ensures { result ≡ least_of top (map (λ w. slice_index table.now w) kept.now) }
{
    let mut least = top;
    for w in kept {
        least = least.min(table.get(*w));
    }
    least
}

fn greatest_value(table: &Table, kept: &[u32]) -> u64
    requires { All (λ w. w < length table.now) kept.now }
    ensures { result ≡ greatest_of (map (λ w. slice_index table.now w) kept.now) }
{
    let mut greatest = 0u64;
    for w in kept {
        greatest = greatest.max(table.get(*w));
    }
    greatest
}

// The prog of the best successor: the least for Even, the greatest for Odd.
fn best_prog(shape: &Shape, arena: &Arena, table: &Table, v: u32) -> u64
    requires vertex { v < length arena.now }
    requires table { IsTableOf shape.now arena.now table.now }
    ensures lift { result ≡ lift_of shape.now table.now (vertex_at arena.now v) }
    ensures within { result ≤ top_of shape.now }
{
    let kept = arena.kept(v);
    match arena.owner(v) {
        Player::Even => prog(
            shape,
            arena.priority(v),
            least_value(table, kept, shape.top()),
        ),
        Player::Odd => {
            if kept.is_empty() {
                0
            } else {
                prog(shape, arena.priority(v), greatest_value(table, kept))
            }
        }
    }
}

/// Returns the least number that fits at a vertex, at most top.
pub fn lift(shape: &Shape, arena: &Arena, table: &Table, v: u32) -> u64
    requires vertex { v < length arena.now }
    requires table { IsTableOf shape.now arena.now table.now }
    ensures lift { result ≡ lift_of shape.now table.now (vertex_at arena.now v) }
    ensures within { result ≤ top_of shape.now }

    // The numbers that fit are those from the result on.
    ensures least { (n : ℕ) → n ≤ top_of shape.now → NumberFitsAt shape.now table.now (vertex_at arena.now v) n ↔
        (result ≤ n) }
{
    best_prog(shape, arena, table, v)
}

/// Whether no lift raises the table.
pub fn is_progress(shape: &Shape, arena: &Arena, table: &Table) -> bool
    requires { IsTableOf shape.now arena.now table.now }
    ensures { IsTrue result ↔ IsProgressTable shape.now arena.now table.now }
{
    for v in 0..arena.vertices() {
        if table.get(v) < lift(shape, arena, table, v) {
            return false;
        }
    }
    true
}

/// Lifts one vertex, if that is greater, and returns whether its value rose.
pub fn raise(shape: &Shape, arena: &Arena, table: &mut Table, v: u32) -> bool
    requires vertex { v < length arena.now }
    requires table { IsTableOf shape.now arena.now table.old }
    ensures table { IsTableOf shape.now arena.now table.new }
    ensures raised { table.new ≡ raised shape.now arena.now table.old v }
    ensures rose { MatchBool result (sum table.old < sum table.new) (table.new ≡ table.old) }
{
    if shape.top() <= table.get(v) {
        return false;
    }
    let lifted = lift(shape, arena, table, v);
    if table.get(v) < lifted {
        table.set(v, lifted);
        true
    } else {
        false
    }
}

// Lifts every vertex once, in file order, and returns whether a value rose.
fn lift_all(shape: &Shape, arena: &Arena, table: &mut Table) -> bool
    requires { IsTableOf shape.now arena.now table.old }
    ensures table { IsTableOf shape.now arena.now table.new }
    ensures round { table.new ≡ round_of shape.now arena.now table.old }
    ensures rose { MatchBool result (sum table.old < sum table.new) (table.new ≡ table.old) }
{
    let mut rose = false;
    for v in 0..arena.vertices() {
        if raise(shape, arena, table, v) {
            rose = true;
        }
    }
    rose
}

/// Lifts every vertex once a round, in file order, each seeing earlier raises, until a round raises nothing (`Settled`)
/// or the rounds run out (`RanOut`, also if none are allowed). No value falls.
pub fn settle_alone(shape: &Shape, arena: &Arena, table: &mut Table, rounds: u64) -> Outcome
    requires { IsTableOf shape.now arena.now table.old }
    ensures after { table.new ≡ after_rounds shape.now arena.now rounds table.old }
    ensures rounds { EndsAs result shape.now arena.now rounds table.old table.new }

    // `RanOut` never comes if there are more rounds than the values are below the top in sum.
    ensures bound { result ≡ Outcome.RanOut → rounds ≤ sum_by (λ n. top_of shape.now - n) table.old }
    ensures progress { result ≡ Outcome.Settled → IsProgressTable shape.now arena.now table.new }
    ensures table { IsTableOf shape.now arena.now table.new }
    ensures above { IsBelowTable table.old table.new }
    ensures below { (other : List ℕ) → IsTableOf shape.now arena.now other → IsProgressTable shape.now arena.now other →
        IsBelowTable table.old other → IsBelowTable table.new other }

    // A greater table ends no smaller.
    ensures monotone { (other : List ℕ) → IsTableOf shape.now arena.now other → IsBelowTable table.old other →
        IsBelowTable table.new (after_rounds shape.now arena.now rounds other) }
{
    for done in 0..rounds {
        if !lift_all(shape, arena, table) {
            return Outcome::Settled;
        }
    }
    Outcome::RanOut
}

// The first kept successor with this prog.
fn first_of(shape: &Shape, table: &Table, kept: &[u32], priority: u32, least: u64) -> Option<u32>
    requires kept { All (λ w. w < length table.now) kept.now }
    requires within { All (λ n. n ≤ top_of shape.now) table.now }
    ensures { result ≡ find (λ w. prog_of shape.now priority (slice_index table.now w) == least) kept.now }
{
    for w in kept {
        if prog(shape, priority, table.get(*w)) == least {
            return Some(*w);
        }
    }
    None
}

// The strategy's choice at a vertex.
fn choice(shape: &Shape, arena: &Arena, table: &Table, v: u32) -> Option<u32>
    requires vertex { v < length arena.now }
    requires table { IsTableOf shape.now arena.now table.now }
    ensures choice { result ≡ choice_of shape.now table.now (vertex_at arena.now v) (slice_index table.now v) }
    ensures closed { All (λ w. w < length arena.now) (vertex_at arena.now v).successors }
{
    let kept = arena.kept(v);
    match arena.owner(v) {
        Player::Even => {
            if table.get(v) < shape.top() {
                let least = lift(shape, arena, table, v);
                first_of(shape, table, kept, arena.priority(v), least)
            } else {
                None
            }
        }
        Player::Odd => None,
    }
}

/// Returns for each vertex of Even below top the first kept successor of least `prog`; `None` for every other vertex.
/// Errors, in this order: `NotSettled` if the table is no progress table; `Memory`.
pub fn strategy(
    alloc: Global,
    shape: &Shape,
    arena: &Arena,
    table: &Table,
) -> Result<Vec<Option<u32>>, StrategyFault>
    requires { IsTableOf shape.now arena.now table.now }
    ensures settled { OnOk result (IsProgressTable shape.now arena.now table.now) }
    ensures not_settled { (result ≡ Err StrategyFault.NotSettled) ↔ (¬ IsProgressTable shape.now arena.now table.now) }
    ensures choices { IfOk result (λ choices. AreChoices shape.now arena.now table.now choices.items) }

    // They win for Even from every vertex below top, by reachable cycles: `Wins` stands in the crate of hopeful games.
    ensures wins { IfOk result (λ choices. (v : ℕ) → v < length arena.now → slice_index table.now v < top_of shape.now →
        Wins arena.now Player.Even (strategy_of choices.items) v) }
{
    if !is_progress(shape, arena, table) {
        return Err(StrategyFault::NotSettled);
    }
    let mut choices = Vec::new(alloc);
    for v in 0..arena.vertices() {
        if choices.push(choice(shape, arena, table, v)).is_err() {
            return Err(StrategyFault::Memory);
        }
    }
    Ok(choices)
}
