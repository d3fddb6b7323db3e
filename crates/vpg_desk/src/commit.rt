//! Commits of lifters' harvests.
ghost use Rattle.std.specs.Bool.{Decides};
ghost use Rattle.std.specs.Prelude.{◌≡◌, ℕ, ◌⊎◌, Bool, true, length, map, None, All, IfOk, IfErr, OnOk, OnErr, IfSome, IsTrue};
ghost use Rattle.vpg_measure.specs.Orders.{IsSettledHarvest};
ghost use Rattle.vpg_partial.specs.TableLaws.{IsKnownTable};
ghost use Rattle.vpg_trail.specs.Page.{literal_of, choices_of, stands};
ghost use Rattle.vpg_trail.specs.Shown.{entry_of, VertexBelow};
ghost use Rattle.vpg_desk.specs.Book.{first_missing as missing_among};
ghost use Rattle.vpg_desk.specs.Commit.{raised_by};

use crate::desk::Desk;
use crate::fault::CommitRefused;
use std::alloc::{AllocError, Global};
use std::sync::Arc;
use vpg_diagram::{Diagram, Literal};
use vpg_faults::CommitFault;
use vpg_game::GuardedGame;
use vpg_guards::Tri;
use vpg_measure::{Harvest, Order, PageGames};
use vpg_partial::Decision;
use vpg_sides::Which;
use vpg_trail::{Assumed, Entry, Trail, decisions_among, lifts};

/// Whether the order is of this game and this diagram.
fn is_order_of(order: &Order, game: &GuardedGame, diagram: &Diagram) -> bool
    ensures { Decides result ((order.now.game ≡ game.now) × (order.now.diagram ≡ diagram.now)) }
{
    order.game().is_same(game) && order.diagram().is_same(diagram)
}

/// Whether a decision among these is on the same feature with the same value.
fn is_made(made: &[Decision], decision: Decision) -> bool
    ensures { result ≡ stands (map literal_of made.now) (literal_of decision) }
{
    for one in made {
        if decision.feature == one.feature && decision.value == one.value {
            return true;
        }
    }
    false
}

/// Returns the feature of the first decision that isn't among those made with the same value.
fn first_not_made(made: &[Decision], decisions: &[Decision]) -> Option<u16>
    ensures { result ≡ missing_among (map literal_of made.now) (map literal_of decisions.now) }
{
    for decision in decisions {
        if !is_made(made, *decision) {
            return Some(decision.feature);
        }
    }
    None
}

/// Whether a decision among the entries is on the same feature with the same value.
fn is_among(entries: &[Entry], decision: Decision) -> bool
    ensures { result ≡ stands (choices_of (map entry_of entries.now)) (literal_of decision) }
{
    for entry in entries {
        if let Entry::Decide(made) = entry {
            if decision.feature == made.feature && decision.value == made.value {
                return true;
            }
        }
    }
    false
}

/// Returns the feature of the first decision that isn't among the entries with the same value, without memory.
fn first_not_among(entries: &[Entry], decisions: &[Decision]) -> Option<u16>
    ensures { result ≡ missing_among (choices_of (map entry_of entries.now)) (map literal_of decisions.now) }
{
    for decision in decisions {
        if !is_among(entries, *decision) {
            return Some(decision.feature);
        }
    }
    None
}

/// Returns the feature of the first decision that isn't among the entries with the same value. One pass finds the
/// entries' decisions. Without memory for these, each decision has a pass of its own.
fn first_missing(alloc: Global, entries: &[Entry], decisions: &[Decision]) -> Option<u16>
    ensures { result ≡ missing_among (choices_of (map entry_of entries.now)) (map literal_of decisions.now) }
{
    match decisions_among(alloc, entries) {
        Ok(made) => first_not_made(&made, decisions),
        Err(_) => first_not_among(entries, decisions),
    }
}

/// Returns the decisions without their serials.
fn literals_of(alloc: Global, decisions: &[Decision]) -> Result<Vec<Literal>, AllocError>
    ensures { IfOk result (λ literals. literals.items ≡ map literal_of decisions.now) }
{
    let mut literals = Vec::with_capacity(alloc, decisions.len())?;
    for decision in decisions {
        literals.push(Literal {
            feature: decision.feature,
            value: decision.value,
        })?;
    }
    Ok(literals)
}

/// Returns the lifts that raise the trail's tables to the harvest's. All of them share the list of their assumptions.
fn raise(alloc: Global, trail: &Trail, harvest: &Harvest) -> Result<Vec<Entry>, AllocError>
    requires { length harvest.now.order.game.vertices ≡ trail.now.vertices }
    ensures lifts { IfOk result (λ raised. map entry_of raised.items ≡ raised_by harvest.now trail.now) }
    ensures below { IfOk result (λ raised. All (λ e. VertexBelow trail.now.vertices (entry_of e)) raised.items) }
{
    let literals = literals_of(alloc, harvest.order().decisions())?;
    let under = Arc::new(alloc, Assumed::new(literals))?;
    let vertices = trail.vertices();
    let mut raised = lifts(
        alloc,
        Which::Hopeful,
        trail.hopeful(),
        harvest.table(Which::Hopeful),
        &under,
        vertices,
    )?;
    let mut dual = lifts(
        alloc,
        Which::Dual,
        trail.dual(),
        harvest.table(Which::Dual),
        &under,
        vertices,
    )?;
    raised.append(&mut dual)?;
    Ok(raised)
}

/// Whether the same is known of each feature.
fn are_same(one: &[Tri], other: &[Tri]) -> bool
    ensures { IsTrue result → one.now ≡ other.now }
{
    if one.len() != other.len() {
        return false;
    }
    for f in 0..one.len() {
        if one[f] != other[f] {
            return false;
        }
    }
    true
}

/// Whether a page is known to be settled after it has taken a harvest. It was so before, or the harvest is, and its
/// decisions make known exactly what is known of the page.
fn settles(was: bool, harvest: &Harvest, present: &PageGames) -> bool
    ensures { IsTrue result → IsTrue was ⊎
        (IsSettledHarvest harvest.now ×
        IsKnownTable harvest.now.order.diagram.lines (map literal_of harvest.now.order.decisions) present.now.known) }
{
    if was {
        return true;
    }
    let order = harvest.order();
    harvest.is_noted() && are_same(order.games().known().values(), present.known().values())
}

impl Desk {
    ghost use Rattle.vpg_desk.specs.Book.{Commit, Added, Refused, refuses_commit};
    ghost use Rattle.vpg_desk.specs.Commit.{IsOrderOf, handed_in};
    ghost use Rattle.vpg_faults.specs.Refusals.{commit_refusal};
    ghost use Rattle.vpg_desk.specs.State.{IsStep, Replies};

    /// Raises the present tables to the harvest's, by one lift for each value above the present one, and returns the
    /// number of these lifts: at most 131,072. Refused, in this order: the order's game or diagram isn't the desk's; a
    /// decision of the order doesn't stand; out of memory. A refusal changes nothing, and the harvest comes back.
    pub fn commit(&mut self, alloc: Global, harvest: Harvest) -> Result<u32, CommitRefused>
        ensures accepted { IfOk result
            (λ added. (session : ℕ) →
            IsStep self.old session (Commit (handed_in true harvest)) (Added added) self.new) }
        ensures same { OnOk result (IsOrderOf self.old harvest.order) }
        ensures refused { IfErr result
            (λ r. IfSome (commit_refusal r.fault)
            (λ refusal. (b : Bool) ×
            (Decides b (IsOrderOf self.old harvest.order) ×
            Replies self.old (Commit (handed_in b harvest)) (Refused refusal)))) }
        ensures last { IfErr result
            (λ r. r.fault ≡ CommitFault.Memory → IsOrderOf self.old harvest.order ×
            (refuses_commit self.old.book (handed_in true harvest) ≡ None)) }
        ensures err { OnErr result (self.new ≡ self.old) }
        ensures back { IfErr result (λ r. r.harvest ≡ harvest) }
    {
        if !is_order_of(harvest.order(), &self.game, &self.diagram) {
            return Err(CommitRefused {
                fault: CommitFault::OtherGame,
                harvest,
            });
        }
        self.commit_own(alloc, harvest)
    }

    /// Commits as `commit` does, for a harvest of an order with this desk's game and diagram: the two are not compared.
    pub fn commit_own(&mut self, alloc: Global, harvest: Harvest) -> Result<u32, CommitRefused>
        requires { IsOrderOf self.old harvest.order }
        ensures accepted { IfOk result
            (λ added. (session : ℕ) →
            IsStep self.old session (Commit (handed_in true harvest)) (Added added) self.new) }
        ensures refused { IfErr result
            (λ r. IfSome (commit_refusal r.fault)
            (λ refusal. Replies self.old (Commit (handed_in true harvest)) (Refused refusal))) }
        ensures last { IfErr result
            (λ r. r.fault ≡ CommitFault.Memory → refuses_commit self.old.book (handed_in true harvest) ≡ None) }
        ensures err { OnErr result (self.new ≡ self.old) }
        ensures back { IfErr result (λ r. r.harvest ≡ harvest) }
    {
        match self.take_own(alloc, &harvest) {
            Ok(added) => Ok(added),
            Err(fault) => Err(CommitRefused { fault, harvest }),
        }
    }

    fn take_own(&mut self, alloc: Global, harvest: &Harvest) -> Result<u32, CommitFault>
        requires { IsOrderOf self.old harvest.now.order }
        ensures accepted { IfOk result
            (λ added. (session : ℕ) →
            IsStep self.old session (Commit (handed_in true harvest.now)) (Added added) self.new) }
        ensures refused { IfErr result
            (λ fault. IfSome (commit_refusal fault)
            (λ refusal. Replies self.old (Commit (handed_in true harvest.now)) (Refused refusal))) }
        ensures last { IfErr result
            (λ fault. fault ≡ CommitFault.Memory → refuses_commit self.old.book (handed_in true harvest.now) ≡ None) }
        ensures err { OnErr result (self.new ≡ self.old) }
    {
        let order = harvest.order();
        if let Some(feature) = first_missing(alloc, self.trail.entries(), order.decisions()) {
            return Err(CommitFault::Outdated { feature });
        }
        let is_noted = settles(self.is_noted, harvest, &self.games);
        let raised = raise(alloc, &self.trail, harvest)?;
        let added = raised.len() as u32;
        self.trail.extend(raised)?;
        self.is_noted = is_noted;
        Ok(added)
    }
}
