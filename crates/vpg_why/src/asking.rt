//! Asking a question of decisions.
ghost use Rattle.std.specs.Prelude.{◌≡◌, ◌≢◌, ◌↔◌, ◌<◌, ◌≤◌, ◌++◌, ◌∷◌, [], length, map, IfOk, IfSome, IsNone, IsTrue};
ghost use Rattle.vpg_guards.specs.Known.{IsFiner, IsFinerValue};
ghost use Rattle.vpg_diagram.specs.FeatureDiagram.{feature_count};
ghost use Rattle.vpg_measure.specs.Games.{AreGamesOf, ArePageGames, games_arena, games_levels};
ghost use Rattle.vpg_measure.specs.Least.{IsBelowProgressTables};
ghost use Rattle.vpg_measure.specs.Lifts.{IsTableOf};
ghost use Rattle.vpg_partial.specs.Known.{literal_of};
ghost use Rattle.vpg_partial.specs.KnownLaws.{HasConflictOf};
ghost use Rattle.vpg_partial.specs.KnownTable.{literals_in};
ghost use Rattle.vpg_partial.specs.TableLaws.{AreChoicesOf, IsKnownTable};
ghost use Rattle.vpg_why.specs.Suffices.{choice, IsTopUnder, IsLowUnder, Suffice, RoundsReachTop, SettlesWithin, IsSettled};

use crate::question::{Limits, Question, Shown};
use crate::settling::raise;
use std::alloc::{AllocError, Global};
use vpg_guards::Tri;
use vpg_measure::{Order, OrderFault, PageGames, Shape, Table, known_under};
use vpg_partial::{Decision, Partial, PartialFault};
use vpg_sides::Which;

// Whether the second value of a feature is the first, if that is known.
fn stays(known: Tri, more: Tri) -> bool
    ensures { IsTrue result → IsFinerValue known more }
{
    match (known, more) {
        (Tri::Unknown, _) => true,
        (Tri::No, Tri::No) => true,
        (Tri::Yes, Tri::Yes) => true,
        _ => false,
    }
}

// Whether all that is known first is known then, with the same value.
fn refines(known: &Partial, more: &Partial, features: u16) -> bool
    requires known { length known.now ≡ features }
    requires more { length more.now ≡ features }
    ensures { IsTrue result → IsFiner known.now more.now }
{
    for f in 0..features {
        if !stays(known.value(f), more.value(f)) {
            return false;
        }
    }
    true
}

// A table of one of the two games to begin with, below every progress table: the page's, if all that is known on the
// page is known in the games too, since what is known only raises tables. Otherwise it is of zeros.
pub(crate) fn first_table(
    alloc: Global,
    order: &Order,
    games: &PageGames,
    which: Which,
) -> Result<Table, AllocError>
    requires { AreGamesOf order.now.game order.now.diagram games.now }
    ensures table { IfOk result (IsTableOf (games_levels which games.now) (games_arena which games.now)) }
    ensures below { IfOk result (IsBelowProgressTables (games_levels which games.now) (games_arena which games.now)) }
{
    let features = order.diagram().features() as u16;
    if refines(order.games().known(), games.known(), features) {
        let table = order.table(which).copy(alloc)?;
        return Ok(table);
    }
    let table = Table::zero(alloc, games.shape(which), games.arena(which).vertices())?;
    Ok(table)
}

/// Whether every progress table of one of the two games has the top at the vertex: the least one has it. The games are
/// those of some decisions. Looks for certified bounds are taken from those that are lent.
pub(crate) fn is_top_within(
    alloc: Global,
    order: &Order,
    games: &PageGames,
    which: Which,
    vertex: u32,
    limits: Limits,
    looks: &mut u64,
) -> Result<Shown, AllocError>
    requires games { AreGamesOf order.now.game order.now.diagram games.now }
    requires vertex { vertex < length order.now.game.vertices }
    ensures yes { IfOk result (λ shown. shown ≡ Shown.Yes → IsTopUnder order.now.game which vertex games.now.known) }
    ensures no { IfOk result (λ shown. shown ≡ Shown.No → IsTopUnder order.now.game which vertex games.now.known → ⊥) }
    ensures low { IfOk result (λ shown. shown ≡ Shown.No → IsLowUnder order.now.game which vertex games.now.known) }
    ensures settled { IfOk result (λ shown. SettlesWithin limits.rounds order.now.game which games.now.known → shown ≢ Shown.Unsettled) }
    // Yes is shown, settled or not, if this many rounds from zeros bring the vertex to the top.
    ensures raised { IfOk result (λ shown.
        RoundsReachTop limits.rounds order.now.game which vertex games.now.known → shown ≡ Shown.Yes) }
    ensures looks { IfOk result (λ shown. looks.new ≤ looks.old) }
{
    let shape = games.shape(which);
    let arena = games.arena(which);
    let mut table = first_table(alloc, order, games, which)?;
    if table.get(vertex) == shape.top() {
        return Ok(Shown::Yes);
    }
    let again = Shape::of_dual_of_dual(alloc, order.game())?;
    let dual_shape = match which {
        Which::Hopeful => games.shape(Which::Dual),
        Which::Dual => &again,
    };
    let settled = raise(alloc, shape, dual_shape, arena, &mut table, limits, looks)?;
    if table.get(vertex) == shape.top() {
        Ok(Shown::Yes)
    } else if settled {
        Ok(Shown::No)
    } else {
        Ok(Shown::Unsettled)
    }
}

/// Whether a feature is known so.
fn is_known(known: &Partial, feature: u16, value: bool) -> bool
    requires { feature < length known.now }
    ensures { IsTrue result ↔ IsTrue (literals_in known.now (choice feature value)) }
{
    match known.value(feature) {
        Tri::No => !value,
        Tri::Unknown => false,
        Tri::Yes => value,
    }
}

// The features that the decisions make known; nothing if they have a conflict. It serves questions of features alone,
// without a game.
pub(crate) fn closed(
    alloc: Global,
    order: &Order,
    decisions: &[Decision],
) -> Result<Option<Partial>, AllocError>
    requires { AreChoicesOf order.now.diagram.lines (map literal_of decisions.now) }
    ensures known { IfOk result (λ found. IfSome found (λ known. IsKnownTable order.now.diagram.lines (map literal_of decisions.now) known)) }
    ensures conflict { IfOk result (λ found. IsNone found → HasConflictOf order.now.diagram.lines (map literal_of decisions.now)) }
{
    match known_under(alloc, order.diagram(), decisions) {
        Ok(known) => Ok(Some(known)),
        Err(PartialFault::Conflict { feature: _ }) => Ok(None),
        Err(PartialFault::Memory) => Err(AllocError),
    }
}

/// Returns the games that the decisions make of the order's game, made from the order's own games; nothing if they have
/// a conflict.
pub fn games_with(
    alloc: Global,
    order: &Order,
    decisions: &[Decision],
) -> Result<Option<PageGames>, AllocError>
    requires { AreChoicesOf order.now.diagram.lines (map literal_of decisions.now) }
    ensures games { IfOk result (λ found. IfSome found (λ games. ArePageGames order.now.game order.now.diagram (map literal_of decisions.now) games)) }
    ensures conflict { IfOk result (λ found. IsNone found → HasConflictOf order.now.diagram.lines (map literal_of decisions.now)) }
{
    match order
        .games()
        .updated(alloc, order.game(), order.diagram(), decisions)
    {
        Ok(games) => Ok(Some(games)),
        Err(OrderFault::Conflict { feature: _ }) => Ok(None),
        Err(OrderFault::AtLimit) => unreachable!(),
        Err(OrderFault::Memory) => Err(AllocError),
    }
}

/// Whether the decisions alone make the vertex hopeless, for the hopeful table, or sure, for the dual one. Looks for
/// certified bounds are taken from those of the line.
pub fn verdict_shown(
    alloc: Global,
    order: &Order,
    which: Which,
    vertex: u32,
    decisions: &[Decision],
    limits: Limits,
    looks: &mut u64,
) -> Result<Shown, AllocError>
    requires named { AreChoicesOf order.now.diagram.lines (map literal_of decisions.now) }
    requires vertex { vertex < length order.now.game.vertices }
    ensures yes { IfOk result (λ shown. shown ≡ Shown.Yes → Suffice order.now.game order.now.diagram (Question.Verdict which vertex) (map literal_of decisions.now)) }
    ensures no { IfOk result (λ shown. shown ≡ Shown.No → Suffice order.now.game order.now.diagram (Question.Verdict which vertex) (map literal_of decisions.now) → ⊥) }
    ensures settled { IfOk result (λ shown.
        IsSettled order.now.game order.now.diagram limits (Question.Verdict which vertex)
        (map literal_of decisions.now) → shown ≢ Shown.Unsettled) }
    ensures looks { IfOk result (λ shown. looks.new ≤ looks.old) }
{
    match games_with(alloc, order, decisions)? {
        Some(games) => {
            let shown = is_top_within(alloc, order, &games, which, vertex, limits, looks)?;
            Ok(shown)
        }
        None => Ok(Shown::Yes),
    }
}

pub(crate) fn known_shown(
    alloc: Global,
    order: &Order,
    feature: u16,
    value: bool,
    decisions: &[Decision],
) -> Result<Shown, AllocError>
    requires named { AreChoicesOf order.now.diagram.lines (map literal_of decisions.now) }
    requires feature { feature < feature_count order.now.diagram.lines }
    ensures yes { IfOk result (λ shown. shown ≡ Shown.Yes → Suffice order.now.game order.now.diagram (Question.Known feature value) (map literal_of decisions.now)) }
    ensures no { IfOk result (λ shown. shown ≡ Shown.No → Suffice order.now.game order.now.diagram (Question.Known feature value) (map literal_of decisions.now) → ⊥) }
    ensures settled { IfOk result (λ shown. shown ≢ Shown.Unsettled) }
{
    match closed(alloc, order, decisions)? {
        Some(known) => {
            if is_known(&known, feature, value) {
                Ok(Shown::Yes)
            } else {
                Ok(Shown::No)
            }
        }
        None => Ok(Shown::Yes),
    }
}

/// Returns the decisions and one more.
pub fn with_one(
    alloc: Global,
    decisions: &[Decision],
    feature: u16,
    value: bool,
) -> Result<Vec<Decision>, AllocError>
    ensures { IfOk result (λ more. map literal_of more.items ≡ map literal_of decisions.now ++ choice feature value ∷ []) }
{
    let mut more = Vec::with_capacity(alloc, decisions.len())?;
    more.extend_from_slice(decisions)?;
    more.push(Decision {
        serial: 0,
        session: 0,
        feature,
        value,
    })?;
    Ok(more)
}

pub(crate) fn conflict_shown(
    alloc: Global,
    order: &Order,
    feature: u16,
    value: bool,
    decisions: &[Decision],
) -> Result<Shown, AllocError>
    requires named { AreChoicesOf order.now.diagram.lines (map literal_of decisions.now) }
    requires feature { feature < feature_count order.now.diagram.lines }
    ensures yes { IfOk result (λ shown. shown ≡ Shown.Yes → Suffice order.now.game order.now.diagram (Question.Conflict feature value) (map literal_of decisions.now)) }
    ensures no { IfOk result (λ shown. shown ≡ Shown.No → Suffice order.now.game order.now.diagram (Question.Conflict feature value) (map literal_of decisions.now) → ⊥) }
    ensures settled { IfOk result (λ shown. shown ≢ Shown.Unsettled) }
{
    let more = with_one(alloc, decisions, feature, value)?;
    match closed(alloc, order, &more)? {
        Some(_) => Ok(Shown::No),
        None => Ok(Shown::Yes),
    }
}
