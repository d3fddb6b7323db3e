//! Deciding a feature.
ghost use Rattle.std.specs.Arc.{arc_value};
ghost use Rattle.std.specs.Prelude.{◌≡◌, ◌<◌, ◌++◌, ◌∷◌, [], length, map, None, IfOk, IfErr, IsTrue, OnOk, OnErr, IfSome, IfNone};
ghost use Rattle.std.specs.List.{AllByRecursion};
ghost use Rattle.vpg_diagram.specs.FeatureDiagram.{feature_count};
ghost use Rattle.vpg_game.specs.Game.{IsAtLimit, graph_of};
ghost use Rattle.vpg_guards.specs.Known.{kleene};
ghost use Rattle.vpg_partial.specs.KnownTable.{is_known_as};
ghost use Rattle.vpg_measure.specs.Games.{AreGamesOf, ArePageGames};
ghost use Rattle.vpg_measure.specs.TwoGames.{IsProgressOf};
ghost use Rattle.vpg_trail.specs.Page.{Decided, Which as Side, choices_of, decisions_of, decision_on, table_of};
ghost use Rattle.vpg_trail.specs.Shown.{entry_of};
ghost use Rattle.vpg_desk.specs.Cuts.{cuts_of, notes_of, SuffixesBelow};
ghost use Rattle.vpg_desk.specs.Faults.{ClosesWith};

use crate::cuts::Cut;
use crate::desk::{Desk, MOST_CHANGES};
use crate::token::Undo;
use std::alloc::{AllocError, Global};
use std::sync::Arc;
use vpg_diagram::Diagram;
use vpg_faults::DecideFault;
use vpg_game::GuardedGame;
use vpg_guards::Tri;
use vpg_measure::{OrderFault, PageGames};
use vpg_partial::Decision;
use vpg_trail::{Entry, Trail, decided, decisions_among};

/// Whether a feature is known to have this value.
fn is_known(known: Tri, value: bool) -> bool
    ensures { result ≡ is_known_as known value }
{
    match known {
        Tri::No => !value,
        Tri::Unknown => false,
        Tri::Yes => value,
    }
}

/// Returns the games with one more decision, from the present ones.
fn games_with(
    alloc: Global,
    game: &GuardedGame,
    diagram: &Diagram,
    entries: &[Entry],
    decision: Decision,
    present: &PageGames,
) -> Result<Arc<PageGames>, DecideFault>
    requires features { game.now.features ≡ feature_count diagram.now.lines }
    requires held { AreGamesOf game.now diagram.now present.now }
    requires not_at_limit { ¬ IsAtLimit game.now }
    requires inside { AllByRecursion (λ d. d.feature < feature_count diagram.now.lines)
        (decisions_of (map entry_of entries.now) ++ decision ∷ []) }
    ensures games { IfOk result
        (λ games. ArePageGames game.now diagram.now (choices_of (map entry_of entries.now ++ Decided decision ∷ []))
        (arc_value games)) }
    ensures fault { IfErr result
        (ClosesWith diagram.now.lines
        (choices_of (map entry_of entries.now ++ Decided decision ∷ [])) decision.feature) }
{
    let mut decisions = decisions_among(alloc, entries)?;
    decisions.push(decision)?;
    match present.updated(alloc, game, diagram, &decisions) {
        Ok(games) => Ok(games.share(alloc)?),
        Err(OrderFault::AtLimit) => unreachable!(),
        Err(OrderFault::Conflict { .. }) => Err(DecideFault::Conflict {
            feature: decision.feature,
        }),
        Err(OrderFault::Memory) => Err(DecideFault::Memory),
    }
}

/// Appends a decision to the present page, and keeps the page before it under the decision's serial. `was` says whether
/// that page was known to be settled.
fn push_decision(
    alloc: Global,
    past: &mut Vec<Cut>,
    trail: &mut Trail,
    decision: Decision,
    was: bool,
) -> Result<(), AllocError>
    ensures past { OnOk result
        (cuts_of past.new.items ≡ record { serial = decision.serial; place = length trail.old.entries; suffix = [] }
        ∷ cuts_of past.old.items) }
    ensures notes { OnOk result (notes_of past.new.items ≡ was ∷ notes_of past.old.items) }
    ensures below { OnOk result
        (SuffixesBelow trail.old.vertices past.old.items → SuffixesBelow trail.old.vertices past.new.items) }
    ensures trail { OnOk result
        (trail.new ≡ record { vertices = trail.old.vertices; entries = trail.old.entries ++ Decided decision ∷ [] }) }
    ensures err_past { OnErr result (past.new.items ≡ past.old.items) }
    ensures err_trail { OnErr result (trail.new ≡ trail.old) }
{
    past.reserve(1)?;
    let place = trail.entries().len();
    trail.append(Entry::Decide(decision))?;
    past.push(Cut {
        serial: decision.serial,
        place,
        suffix: Vec::new(alloc),
        is_noted: was,
    })
    .unwrap();
    Ok(())
}

impl Desk {
    ghost use Rattle.vpg_desk.specs.Book.{Decide, Changed, Refused};
    ghost use Rattle.vpg_desk.specs.Faults.{KnownRefusesNone};
    ghost use Rattle.vpg_faults.specs.Refusals.{decide_refusal};
    ghost use Rattle.vpg_desk.specs.State.{IsStep, Replies};

    /// Decides a feature in or out, as the next change, and returns the change's token. A feature that is known but not
    /// decided may be decided the same way. Refused, in this order: the diagram has no such feature; it is decided; the
    /// decision contradicts diagram and present decisions; the desk has made its most changes; out of memory. Knowledge
    /// of the present page comes first, without memory: known the other way, a feature contradicts it, and known the
    /// same way it doesn't. If nothing is known of the feature yet, finding a contradiction takes memory, so `Memory`
    /// may come in place of the last two. A refusal changes nothing.
    pub fn decide(
        &mut self,
        alloc: Global,
        session: u32,
        feature: u16,
        value: bool,
    ) -> Result<Undo, DecideFault>
        ensures accepted { IfOk result
            (λ undo. IsStep self.old session (Decide feature value) (Changed undo) self.new) }
        ensures refused { IfErr result
            (λ fault. IfSome (decide_refusal fault)
            (λ refusal. Replies self.old (Decide feature value) (Refused refusal))) }
        ensures last { IfErr result
            (λ fault. fault ≡ DecideFault.Memory → (feature < feature_count self.old.diagram.lines) ×
            (decision_on feature self.old.book.present ≡ None)) }
        ensures known { IfErr result
            (λ fault. fault ≡ DecideFault.Memory → KnownRefusesNone self.old feature value) }
        ensures err { OnErr result (self.new ≡ self.old) }
    {
        if feature as usize >= self.diagram.features() {
            return Err(DecideFault::UnknownFeature);
        }
        if let Some(decision) = decided(self.trail.entries(), feature) {
            return Err(DecideFault::AlreadyDecided {
                serial: decision.serial,
            });
        }
        if let Some(fault) = self.refused_as_known(feature, value) {
            return Err(fault);
        }
        let serial = self.changes + 1;
        let decision = Decision {
            serial,
            session,
            feature,
            value,
        };
        let entries = self.trail.entries();
        let games = games_with(
            alloc,
            &self.game,
            &self.diagram,
            entries,
            decision,
            &self.games,
        )?;
        if self.changes == MOST_CHANGES {
            return Err(DecideFault::TooManyChanges);
        }
        let was = self.is_noted;
        let is_noted = self.stays_settled(alloc, &games);
        push_decision(alloc, &mut self.past, &mut self.trail, decision, was)?;
        self.future.clear();
        self.games = games;
        self.is_noted = is_noted;
        self.changes = serial;
        self.tokens += 1;
        Ok(Undo::of(serial))
    }

    /// Returns why a feature that is not decided cannot be decided so, if the knowledge of the present page shows it.
    fn refused_as_known(&self, feature: u16, value: bool) -> Option<DecideFault>
        requires feature { feature < feature_count self.now.diagram.lines }
        requires fresh { decision_on feature self.now.book.present ≡ None }
        ensures refused { IfSome result
            (λ fault. IfSome (decide_refusal fault)
            (λ refusal. Replies self.now (Decide feature value) (Refused refusal))) }
        ensures not_memory { IfSome result (λ fault. ¬ (fault ≡ DecideFault.Memory)) }
        ensures none { IfNone result (KnownRefusesNone self.now feature value) }
    {
        let known = self.games.known().value(feature);
        if is_known(known, !value) {
            return Some(DecideFault::Conflict { feature });
        }
        if is_known(known, value) && self.changes == MOST_CHANGES {
            return Some(DecideFault::TooManyChanges);
        }
        None
    }

    /// Whether the present page is known to be settled, and stays so under these games of the same game. It looks for
    /// lifts only at the vertices that the new knowledge concerns. `false` if there is no memory to look.
    fn stays_settled(&self, alloc: Global, games: &PageGames) -> bool
        requires { AreGamesOf self.now.game self.now.diagram games.now }
        ensures { IsTrue result → (which : Side) →
            IsProgressOf (kleene games.now.known) which (graph_of self.now.game)
            (table_of which self.now.book.present (length (graph_of self.now.game))) }
    {
        if !self.is_noted {
            return false;
        }
        let hopeful = self.trail.hopeful();
        let dual = self.trail.dual();
        games
            .stay_settled(alloc, &self.game, &self.games, hopeful, dual)
            .unwrap_or(false)
    }
}
