//! The text of a plan: Even's moves at a full and settled page.
ghost use Rattle.std.specs.Prelude.{◌≡◌, ◌≤◌, ◌↔◌, ◌++◌, ℕ, List, length, map, All, None, Ok, Err, IfOk, IfErr, IfSome, OnOk, OnErr};
ghost use Rattle.vpg_guards.specs.Known.{AreAllKnown};
ghost use Rattle.vpg_diagram.specs.FeatureDiagram.{feature_count};
ghost use Rattle.vpg_partial.specs.Known.{literal_of};
ghost use Rattle.vpg_partial.specs.TableLaws.{AreChoicesOf};
ghost use Rattle.vpg_game.specs.Game.{graph_of};
ghost use Rattle.vpg_measure.specs.Games.{ArePageGames};
ghost use Rattle.vpg_measure.specs.Lifts.{IsTableOf, AreChoices};
ghost use Rattle.vpg_measure.specs.TwoGames.{top_for};
ghost use Rattle.vpg_script.specs.Answer.{Gives};
ghost use Rattle.vpg_texts.specs.Plan.{IsPlanned, IsPlanFault, PlanWins};
ghost use Rattle.vpg_texts.specs.Scene.{AreSettledTables, scene_of};
ghost use Rattle.vpg_texts.specs.Sights.{IsPlanAnswer};

use crate::showing::page::is_settled_table;
use crate::text;
use std::alloc::{AllocError, Global};
use thiserror::Error;
use vpg_diagram::Diagram;
use vpg_game::{GuardedGame, VertexNames};
use vpg_measure::{PageGames, StrategyFault, Table, strategy};
use vpg_script::Tone;
use vpg_sides::Which;
use vpg_trail::Page;

/// Why a page has no plan.
#[derive(Clone, Copy, Debug, PartialEq, Eq, Error)]
pub enum PlanFault {
    /// Some feature is neither known in nor known out.
    #[error("NotFull")]
    NotFull,
    /// Some table is no progress table.
    #[error("NotSettled")]
    NotSettled,
    #[error("Memory")]
    Memory,
}

impl From<AllocError> for PlanFault {
    ghost use Rattle.vpg_texts.specs.declared.showing.plans.PlanFault.TheVariants.{Memory};

    ghost from_gives = { λ _ fault. fault ≡ Memory };

    fn from(_: AllocError) -> PlanFault {
        PlanFault::Memory
    }
}

/// Returns the choices of the hopeful table; none if a lift raises some table.
fn choices(
    alloc: Global,
    games: &PageGames,
    hopeful: &Table,
    dual: &Table,
) -> Result<Option<Vec<Option<u32>>>, AllocError>
    requires hopeful { IsTableOf games.now.hopeful_levels games.now.hopeful_arena hopeful.now }
    requires dual { IsTableOf games.now.dual_levels games.now.dual_arena dual.now }
    ensures settled { IfOk result (λ found. IfSome found (λ _. AreSettledTables games.now hopeful.now dual.now)) }
    ensures chosen { IfOk result
        (λ found. IfSome found (λ chosen.
        AreChoices games.now.hopeful_levels games.now.hopeful_arena hopeful.now chosen.items)) }
    ensures unsettled { (result ≡ Ok None) ↔ ¬ (AreSettledTables games.now hopeful.now dual.now) }
{
    if !is_settled_table(games, Which::Dual, dual) {
        return Ok(None);
    }
    let shape = games.shape(Which::Hopeful);
    let arena = games.arena(Which::Hopeful);
    match strategy(alloc, shape, arena, hopeful) {
        Ok(chosen) => Ok(Some(chosen)),
        Err(StrategyFault::NotSettled) => Ok(None),
        Err(StrategyFault::Memory) => Err(AllocError),
    }
}

/// Appends a plan: for each vertex of Even that isn't hopeless, in file order, the first kept successor of least
/// `prog`; then how many there are. The tables have one number up to the top for each vertex.
///
/// Errors, in this order: `NotFull` if some feature isn't known, `NotSettled` if some table is no progress table,
/// `Memory`. Neither of the first two takes memory.
pub fn plan(
    alloc: Global,
    games: &PageGames,
    page: &Page,
    game: &GuardedGame,
    diagram: &Diagram,
    labels: &VertexNames,
    out: &mut Vec<u8>,
) -> Result<(), PlanFault>
    requires features { game.now.features ≡ feature_count diagram.now.lines }
    requires games { ArePageGames game.now diagram.now (map literal_of page.now.decisions) games.now }
    requires named { AreChoicesOf diagram.now.lines (map literal_of page.now.decisions) }
    requires hopeful { length page.now.hopeful ≡ length game.now.vertices }
    requires dual { length page.now.dual ≡ length game.now.vertices }
    requires hopeful_within { All (λ n. n ≤ top_for Which.Hopeful (graph_of game.now)) page.now.hopeful }
    requires dual_within { All (λ n. n ≤ top_for Which.Dual (graph_of game.now)) page.now.dual }
    ensures planned { OnOk result
        ((text : List ℕ) ×
        (IsPlanned (scene_of labels.now.names game.now diagram.now) page.now.decisions page.now.hopeful page.now.dual
        text ×
        (out.new.items ≡ out.old.items ++ text))) }
    ensures refused { IfErr result
        (IsPlanFault (scene_of labels.now.names game.now diagram.now) page.now.decisions page.now.hopeful
        page.now.dual) }

    // Out of memory takes the place of neither.
    ensures not_full { (result ≡ Err PlanFault.NotFull) ↔
        ¬ (AreAllKnown (length games.now.known) games.now.known) }
    ensures not_settled { (result ≡ Err PlanFault.NotSettled) ↔
        (AreAllKnown (length games.now.known) games.now.known ×
        ¬ (AreSettledTables games.now page.now.hopeful page.now.dual)) }

    // Even wins by the choices, in the one product that remains.
    ensures wins { OnOk result
        (PlanWins (scene_of labels.now.names game.now diagram.now) page.now.decisions page.now.hopeful) }
    ensures unchanged { OnErr result (out.new.items ≡ out.old.items) }
{
    if !games.known().is_full() {
        return Err(PlanFault::NotFull);
    }
    let Some(chosen) = choices(alloc, games, &page.hopeful, &page.dual)? else {
        return Err(PlanFault::NotSettled);
    };
    let mut text = Vec::new(alloc);
    text::plan(game, labels, &chosen, &mut text)?;
    out.extend_from_slice(&text)?;
    Ok(())
}

/// Appends a refusal.
fn refused(text: &[u8], out: &mut Vec<u8>) -> Result<Tone, AllocError>
    ensures given { IfOk result
        (λ tone. (tone ≡ Tone.Refused) × (out.new.items ≡ out.old.items ++ text.now)) }
    ensures unchanged { OnErr result (out.new.items ≡ out.old.items) }
{
    out.extend_from_slice(text)?;
    Ok(Tone::Refused)
}

/// Appends a plan, or why there is none, and returns the answer's tone.
pub fn plan_answer(
    alloc: Global,
    games: &PageGames,
    page: &Page,
    game: &GuardedGame,
    diagram: &Diagram,
    labels: &VertexNames,
    out: &mut Vec<u8>,
) -> Result<Tone, AllocError>
    requires features { game.now.features ≡ feature_count diagram.now.lines }
    requires games { ArePageGames game.now diagram.now (map literal_of page.now.decisions) games.now }
    requires named { AreChoicesOf diagram.now.lines (map literal_of page.now.decisions) }
    requires hopeful { length page.now.hopeful ≡ length game.now.vertices }
    requires dual { length page.now.dual ≡ length game.now.vertices }
    requires hopeful_within { All (λ n. n ≤ top_for Which.Hopeful (graph_of game.now)) page.now.hopeful }
    requires dual_within { All (λ n. n ≤ top_for Which.Dual (graph_of game.now)) page.now.dual }
    ensures planned { IfOk result
        (λ tone. Gives
        (IsPlanAnswer (scene_of labels.now.names game.now diagram.now) page.now.decisions page.now.hopeful
        page.now.dual) tone out.old.items out.new.items) }
    ensures unchanged { OnErr result (out.new.items ≡ out.old.items) }
{
    match plan(alloc, games, page, game, diagram, labels, out) {
        Ok(()) => Ok(Tone::Done),
        Err(PlanFault::NotFull) => refused(b"refused NotFull\n", out),
        Err(PlanFault::NotSettled) => refused(b"refused NotSettled\n", out),
        Err(PlanFault::Memory) => Err(AllocError),
    }
}
