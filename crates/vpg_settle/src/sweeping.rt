//! Sweeps: the work of the lines `settle` and `harvest` on an order.
ghost use Rattle.std.specs.Prelude.{◌≡◌, ◌⊎◌, ◌+◌, ◌<◌, ◌≤◌, ℕ, sum, IfOk, IfErr, IfSome, IsTrue, Some};
ghost use Rattle.vpg_measure.specs.Lifts.{after_rounds};
ghost use Rattle.vpg_measure.specs.Orders.{IsSameOrder, IsHarvest, IsSettledOrder, IsSettledHarvest, order_table, harvest_table, order_levels, order_arena};
ghost use Rattle.vpg_board.specs.Alone.{Rises};
ghost use Rattle.vpg_board.specs.Places.{vertices};
ghost use Rattle.vpg_settle.specs.Sweeping.{IsSweptOrder, IsSweptTo, IsSweptBy, IsGuessed, IsLeft, AreSweeps, AreSweepsAlone, Leave, Settles, RoundsSettleOrder, EndsBy, HasEnded};

use std::alloc::Global;
use std::sync::Wait;
use std::thread::Threads;
use vpg_board::{Gate, Predecessors, sweep_along};
use vpg_guess::{Groundwork, harvest_by_bounds, harvest_by_bounds_at_once};
use vpg_measure::{Harvest, Order, Table};
use vpg_sides::Which;

/// The greatest number of a line that asks for sweeps alone.
pub const FEW_SWEEPS: u64 = 4;

/// The number of sweeps before a guess at tables of zeros: a simple game is settled by them. A guess at others begins
/// with a round of lifts itself.
pub const FIRST_SWEEPS: u64 = 1;

/// The number of edges and vertices that a guess at both tables may look at, in all its parts together.
pub const BUDGET: u64 = 1 << 27;

/// The least number of a line with which the sweeps after a guess may end early: nobody waits for a million sweeps.
/// They end when the tables exceed, in sum, those that the line began with by the line's number.
pub const MANY_SWEEPS: u64 = 1_000_000;

/// The number of sweeps after a guess before that sum is looked at.
pub const LAST_SWEEPS: u64 = 16;

/// Returns a settled order as it stands, as a harvest.
fn as_it_stands(order: Order) -> Harvest
    requires { IsSettledOrder order }
    ensures swept { (sweeps : ℕ) → IsSweptOrder order sweeps result }
    ensures left { IsLeft order result }
    ensures settled { IsSettledHarvest result }
{
    let harvest = Harvest::of_order(order);
    let _order = harvest.order();
    harvest.noted()
}

/// Returns the order after at most this many rounds of one lifter. It takes no memory.
fn by_rounds(order: Order, rounds: u64) -> Harvest
    ensures swept { IsSweptOrder order rounds result }
    ensures tables { (which : Which) →
        harvest_table which result
        ≡ after_rounds (order_levels which order) (order_arena which order) rounds (order_table which order) }
{
    let _game = order.game();
    let harvest = Harvest::alone(order, rounds);
    let _order = harvest.order();
    harvest
}

/// The harvest of sweeps, and their number.
#[derive(Drop)]
pub struct SweptHarvest {
    pub harvest: Harvest,
    pub sweeps: u64,
}

/// Returns the order after one sweep. Only this contract says that it is one, by this many lifters.
fn sweep<G: Gate + Sync, T: Threads + Wait + Sync>(
    rt: &T,
    alloc: Global,
    order: Order,
    lifters: u32,
    gate: &G,
    predecessors: &Predecessors,
) -> Harvest
    requires lifters { (1 ≤ lifters) × (lifters ≤ 64) }
    requires predecessors { predecessors.now.vertices ≡ vertices order }
    ensures swept { IsSweptOrder order 1 result }
    ensures by { IsSweptBy lifters order result }
{
    sweep_along(rt, alloc, order, lifters, gate, predecessors)
}

/// Sweeps an order until a sweep settles it, at most this many times. If none settles it, returns the order that they
/// left.
pub fn sweep_often<G: Gate + Sync, T: Threads + Wait + Sync>(
    rt: &T,
    alloc: Global,
    order: Order,
    sweeps: u64,
    lifters: u32,
    gate: &G,
    predecessors: &Predecessors,
) -> Result<SweptHarvest, Order>
    requires lifters { (1 ≤ lifters) × (lifters ≤ 64) }
    requires predecessors { predecessors.now.vertices ≡ vertices order }
    ensures swept { IfOk result (λ found. IsSweptOrder order sweeps found.harvest) }
    ensures settled { IfOk result (λ found. IsSettledHarvest found.harvest) }
    ensures some { IfOk result (λ found. 0 < found.sweeps) }
    ensures few { IfOk result (λ found. found.sweeps ≤ sweeps) }
    ensures made { IfOk result (λ found. AreSweepsAlone lifters found.sweeps order found.harvest) }
    ensures left { IfErr result (λ last. Leave lifters sweeps order last) }
{
    let mut order = order;
    for done in 0..sweeps {
        let harvest = sweep(rt, alloc, order, lifters, gate, predecessors);
        if harvest.check() {
            return Ok(SweptHarvest {
                harvest: harvest.noted(),
                sweeps: done + 1,
            });
        }
        order = harvest.again();
    }
    Err(order)
}

/// Returns the order after at most this many sweeps.
fn by_sweeps<G: Gate + Sync, T: Threads + Wait + Sync>(
    rt: &T,
    alloc: Global,
    order: Order,
    sweeps: u64,
    lifters: u32,
    gate: &G,
    predecessors: &Predecessors,
) -> SweptHarvest
    requires lifters { (1 ≤ lifters) × (lifters ≤ 64) }
    requires predecessors { predecessors.now.vertices ≡ vertices order }
    ensures swept { IsSweptOrder order sweeps result.harvest }
    ensures few { result.sweeps ≤ sweeps }
    ensures made { AreSweepsAlone lifters result.sweeps order result.harvest }
    ensures ended { IsSettledHarvest result.harvest ⊎ (result.sweeps ≡ sweeps) }
    ensures none { sweeps ≡ 0 → (which : Which) → harvest_table which result.harvest ≡ order_table which order }
{
    match sweep_often(rt, alloc, order, sweeps, lifters, gate, predecessors) {
        Ok(swept) => swept,
        Err(order) => SweptHarvest {
            harvest: by_rounds(order, 0),
            sweeps,
        },
    }
}

/// Returns the sum of a table's values, or `None` if it exceeds 128 bits.
fn sum_of(table: &Table) -> Option<u128>
    ensures { IfSome result (λ total. total ≡ sum table.now) }
{
    let mut total = 0u128;
    for value in table.values() {
        total = total.checked_add(u128::from(*value))?;
    }
    Some(total)
}

/// Returns the sum that both tables have to reach before a line's sweeps may end early. `None` if there are fewer than
/// `MANY_SWEEPS`, or if the sum exceeds 128 bits: then all are made.
fn goal_of(order: &Order, sweeps: u64) -> Option<u128>
    ensures goal { IfSome result (λ goal. sum order.now.hopeful + sum order.now.dual + sweeps ≤ goal) }
    ensures many { IfSome result (λ _. 1000000 ≤ sweeps) }
{
    if sweeps < MANY_SWEEPS {
        return None;
    }
    let hopeful = sum_of(order.hopeful())?;
    let dual = sum_of(order.dual())?;
    hopeful.checked_add(dual)?.checked_add(u128::from(sweeps))
}

/// Whether both tables of a harvest together have at least this sum. `false` if a table's sum exceeds 128 bits.
fn is_reached(harvest: &Harvest, goal: u128) -> bool
    ensures { IsTrue result → goal ≤ sum harvest.now.hopeful + sum harvest.now.dual }
{
    match (
        sum_of(harvest.table(Which::Hopeful)),
        sum_of(harvest.table(Which::Dual)),
    ) {
        (Some(hopeful), Some(dual)) => goal.saturating_sub(hopeful) <= dual,
        _ => false,
    }
}

/// Whether a harvest is settled, or reached the goal after enough sweeps.
fn is_enough(harvest: &Harvest, done: u64, goal: u128) -> bool
    ensures settled { IsSettledHarvest harvest.now → IsTrue result }
    ensures enough { IsTrue result → (¬ IsSettledHarvest harvest.now) →
        goal ≤ sum harvest.now.hopeful + sum harvest.now.dual }
    ensures late { IsTrue result → IsSettledHarvest harvest.now ⊎ (16 ≤ done) }
{
    if harvest.check() {
        return true;
    }
    LAST_SWEEPS <= done && is_reached(harvest, goal)
}

/// Returns the order after at most this many sweeps. They end when one settles it, or when its tables have reached the
/// goal after more than `LAST_SWEEPS` sweeps.
fn by_sweeps_to<G: Gate + Sync, T: Threads + Wait + Sync>(
    rt: &T,
    alloc: Global,
    order: Order,
    sweeps: u64,
    goal: u128,
    lifters: u32,
    gate: &G,
    predecessors: &Predecessors,
) -> SweptHarvest
    requires lifters { (1 ≤ lifters) × (lifters ≤ 64) }
    requires predecessors { predecessors.now.vertices ≡ vertices order }
    ensures swept { IsSweptTo order sweeps (Some goal) result.harvest }
    ensures few { result.sweeps ≤ sweeps }
    ensures made { AreSweeps lifters result.sweeps order result.harvest }
    ensures ended { EndsBy (Some goal) sweeps result.sweeps result.harvest }
{
    let mut order = order;
    for done in 0..sweeps {
        let harvest = sweep(rt, alloc, order, lifters, gate, predecessors);
        if is_enough(&harvest, done, goal) {
            let sweeps = done + 1;
            return SweptHarvest { harvest, sweeps };
        }
        order = harvest.again();
    }
    SweptHarvest {
        harvest: by_rounds(order, 0),
        sweeps,
    }
}

/// Returns the order after at most this many sweeps, which may end at the goal if there is one. Lifters hint at the
/// vertices to lift next.
fn by_hints<G: Gate + Sync, T: Threads + Wait + Sync>(
    rt: &T,
    alloc: Global,
    order: Order,
    sweeps: u64,
    goal: Option<u128>,
    lifters: u32,
    gate: &G,
) -> SweptHarvest
    requires lifters { (1 ≤ lifters) × (lifters ≤ 64) }
    ensures swept { IsSweptTo order sweeps goal result.harvest }
    ensures few { result.sweeps ≤ sweeps }
    ensures made { AreSweeps lifters result.sweeps order result.harvest }
    ensures ended { EndsBy goal sweeps result.sweeps result.harvest }
{
    let predecessors = Predecessors::of_or_none(alloc, &order);
    match goal {
        Some(goal) => by_sweeps_to(rt, alloc, order, sweeps, goal, lifters, gate, &predecessors),
        None => by_sweeps(rt, alloc, order, sweeps, lifters, gate, &predecessors),
    }
}

/// Lifts a vertex until it does not rise, or has risen this often. Returns how often others may still rise.
fn climb_at(harvest: &mut Harvest, which: Which, v: u32, most: u64) -> u64
    requires harvest { IsHarvest harvest.old }
    requires vertex { v < vertices harvest.old.order }
    ensures { Rises harvest.old harvest.new }
{
    'climbing: for made in 0..most {
        if !harvest.raise(which, v) {
            return most - made;
        }
    }
    0
}

/// Lifts each vertex of a table until it does not rise, or all have risen this often. Returns how often others may
/// still rise.
fn climb_table(harvest: &mut Harvest, which: Which, most: u64) -> u64
    requires { IsHarvest harvest.old }
    ensures { Rises harvest.old harvest.new }
{
    let mut left = most;
    let count = harvest.order().game().vertices() as u32;
    'vertices: for v in 0..count {
        left = climb_at(harvest, which, v, left);
    }
    left
}

/// Returns the order after lifts of each vertex, while it rises. All rise at most this often together. It takes no
/// memory.
fn climb(order: Order, most: u64) -> Harvest
    ensures order { IsSameOrder result.order order }
    ensures harvest { IsHarvest result }
{
    let _game = order.game();
    let mut harvest = Harvest::alone(order, 0);
    let _order = harvest.order();
    let left = climb_table(&mut harvest, Which::Hopeful, most);
    climb_table(&mut harvest, Which::Dual, left);
    harvest
}

/// Returns the order raised by certified guesses, on two threads, one for each table, if there are several lifters.
fn raise_tables<T: Threads + Wait + Sync>(
    rt: &T,
    alloc: Global,
    order: Order,
    lifters: u32,
    kept: &mut Groundwork,
) -> Result<Harvest, Order>
    ensures order { IfOk result (λ harvest. IsSameOrder harvest.order order) }
    ensures harvest { IfOk result IsHarvest }
    ensures back { IfErr result (λ same. same ≡ order) }
{
    if lifters > 1 {
        harvest_by_bounds_at_once(rt, alloc, order, kept, BUDGET)
    } else {
        harvest_by_bounds(alloc, order, kept, BUDGET)
    }
}

/// Returns the order raised by certified guesses, or by lifts if memory runs out. Only this contract says that guesses
/// raised it.
fn guess<T: Threads + Wait + Sync>(
    rt: &T,
    alloc: Global,
    order: Order,
    lifters: u32,
    kept: &mut Groundwork,
) -> Harvest
    ensures order { IsSameOrder result.order order }
    ensures harvest { IsHarvest result }
    ensures guessed { IsGuessed order result }
{
    match raise_tables(rt, alloc, order, lifters, kept) {
        Ok(harvest) => harvest,
        Err(order) => climb(order, MANY_SWEEPS),
    }
}

/// Returns the order raised by guesses, and swept from there if they don't settle it: at most this many times, or up to
/// the goal.
fn by_guesses<G: Gate + Sync, T: Threads + Wait + Sync>(
    rt: &T,
    alloc: Global,
    order: Order,
    sweeps: u64,
    goal: Option<u128>,
    lifters: u32,
    gate: &G,
    kept: &mut Groundwork,
) -> SweptHarvest
    requires lifters { (1 ≤ lifters) × (lifters ≤ 64) }
    ensures swept { IsSweptTo order sweeps goal result.harvest }
    ensures few { result.sweeps ≤ sweeps }
    ensures made { Settles lifters result.sweeps order result.harvest }
    ensures ended { EndsBy goal sweeps result.sweeps result.harvest }
{
    let harvest = guess(rt, alloc, order, lifters, kept);
    if harvest.check() {
        let harvest = harvest.noted();
        return SweptHarvest { harvest, sweeps: 0 };
    }
    by_hints(rt, alloc, harvest.again(), sweeps, goal, lifters, gate)
}

/// Whether a table has a value above zero. Usually its page was settled before, and only the last change is left to
/// work out.
fn has_risen(table: &Table) -> bool {
    table.values().iter().any(|value| *value != 0)
}

/// Returns the order after at most this many sweeps, by this many lifters at once. An order that is settled stays as it
/// is.
///
/// If there are more than `FEW_SWEEPS`, guesses raise the tables before the sweeps. Tables of zeros are swept once
/// before a guess, and if this settles them there is no guess. That sweep has no hints: with one lifter it raises what
/// a round raises. The call never fails: if a board or a hint lacks memory, the sweeps go on without it. If a
/// guess lacks it, each vertex is lifted while it rises, and all rise at most 1,000,000 times. The lifters call the
/// gate.
///
/// A guess has one budget for both tables. When it is spent, all that is known by then is certified and raised. With
/// two lifters or more each table has a thread and half of the budget. Sweeps follow, up to the number. From
/// `MANY_SWEEPS` on they end, settled or not, when the tables exceed the order's in sum by the number.
///
/// `kept` holds the results of guesses that depend on the game alone, for the next order of the same game. If it is
/// empty, a guess fills it.
pub fn swept<G: Gate + Sync, T: Threads + Wait + Sync>(
    rt: &T,
    alloc: Global,
    order: Order,
    sweeps: u64,
    lifters: u32,
    gate: &G,
    kept: &mut Groundwork,
) -> SweptHarvest
    requires lifters { (1 ≤ lifters) × (lifters ≤ 64) }
    ensures swept { IsSweptOrder order sweeps result.harvest }

    // At most this many sweeps, each by this many lifters, and certified guesses made the harvest.
    ensures few { result.sweeps ≤ sweeps }
    ensures made { Settles lifters result.sweeps order result.harvest }

    // If at most four sweeps are asked for, there is no guess.
    ensures alone { sweeps ≤ 4 → AreSweepsAlone lifters result.sweeps order result.harvest }

    // If the harvest isn't settled, all sweeps were made; of 1,000,000 or more at least 17.
    ensures ended { HasEnded sweeps result.sweeps result.harvest }

    // If a number of rounds, at most that of the sweeps asked for, settles both tables, the harvest is settled. With
    // 1,000,000 sweeps or more this holds for at most 16 rounds.
    ensures rounds { (rounds : ℕ) → rounds ≤ sweeps → (rounds ≤ 16) ⊎ (sweeps < 1000000) →
        RoundsSettleOrder rounds order → IsSettledHarvest result.harvest }

    // If no sweep is asked for, the tables stay as they are.
    ensures none { sweeps ≡ 0 → (which : Which) → harvest_table which result.harvest ≡ order_table which order }

    // A settled order is not swept.
    ensures settled { IsSettledOrder order → (result.sweeps ≡ 0) × IsLeft order result.harvest }
{
    let _game = order.game();
    if order.check() {
        return SweptHarvest {
            harvest: as_it_stands(order),
            sweeps: 0,
        };
    }
    let plain = Predecessors::none(alloc, &order);
    if sweeps <= FEW_SWEEPS {
        return by_sweeps(rt, alloc, order, sweeps, lifters, gate, &plain);
    }
    let goal = goal_of(&order, sweeps);
    if has_risen(order.hopeful()) || has_risen(order.dual()) {
        return by_guesses(rt, alloc, order, sweeps, goal, lifters, gate, kept);
    }
    match sweep_often(rt, alloc, order, FIRST_SWEEPS, lifters, gate, &plain) {
        Ok(swept) => swept,
        Err(order) => {
            let left = sweeps - FIRST_SWEEPS;
            let more = by_guesses(rt, alloc, order, left, goal, lifters, gate, kept);
            SweptHarvest {
                harvest: more.harvest,
                sweeps: FIRST_SWEEPS + more.sweeps,
            }
        }
    }
}
