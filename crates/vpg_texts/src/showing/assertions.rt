//! The answers to assertions.
ghost use Rattle.std.specs.Prelude.{[], ◌≡◌, ◌≤◌, ◌<◌, length, map, All, IfOk, OnErr};
ghost use Rattle.vpg_game.specs.Game.{graph_of};
ghost use Rattle.vpg_measure.specs.Games.{ArePageGames};
ghost use Rattle.vpg_measure.specs.TwoGames.{top_for};
ghost use Rattle.vpg_partial.specs.Known.{literal_of};
ghost use Rattle.vpg_script.specs.Answer.{Gives};
ghost use Rattle.vpg_texts.specs.Scene.{scene_of};
ghost use Rattle.vpg_texts.specs.Sights.{AreClaimed, IsFullAnswer, IsSettledAnswer};

use crate::showing::page::is_settled;
use crate::sights;
use std::alloc::{AllocError, Global};
use vpg_diagram::Diagram;
use vpg_game::GuardedGame;
use vpg_measure::PageGames;
use vpg_script::{Claim, Tone};
use vpg_sides::Which;
use vpg_trail::Page;

/// Appends whether the vertex at a place has these verdicts, and returns the answer's tone.
pub fn claims_over(
    alloc: Global,
    games: &PageGames,
    page: &Page,
    game: &GuardedGame,
    diagram: &Diagram,
    vertex: u32,
    claims: &[Claim],
    out: &mut Vec<u8>,
) -> Result<Tone, AllocError>
    requires vertex { vertex < length game.now.vertices }
    requires games { ArePageGames game.now diagram.now (map literal_of page.now.decisions) games.now }
    requires hopeful { length page.now.hopeful ≡ length game.now.vertices }
    requires dual { length page.now.dual ≡ length game.now.vertices }
    requires hopeful_within { All (λ n. n ≤ top_for Which.Hopeful (graph_of game.now)) page.now.hopeful }
    requires dual_within { All (λ n. n ≤ top_for Which.Dual (graph_of game.now)) page.now.dual }
    ensures claimed { IfOk result
        (λ tone. Gives
        (AreClaimed (scene_of [] game.now diagram.now) vertex claims.now page.now.decisions page.now.hopeful
        page.now.dual) tone out.old.items out.new.items) }
    ensures unchanged { OnErr result (out.new.items ≡ out.old.items) }
{
    let settled = is_settled(games, game, diagram, &page.hopeful, &page.dual);
    // For the proof: whether each feature is known.
    let _full = games.known().is_full();
    let mut text = Vec::new(alloc);
    let tone = sights::verdicts_at(
        games,
        &page.hopeful,
        &page.dual,
        settled,
        claims,
        vertex,
        &mut text,
    )?;
    out.extend_from_slice(&text)?;
    Ok(tone)
}

/// Appends whether each feature is known, and returns the answer's tone.
pub fn full_over(
    alloc: Global,
    games: &PageGames,
    page: &Page,
    game: &GuardedGame,
    diagram: &Diagram,
    out: &mut Vec<u8>,
) -> Result<Tone, AllocError>
    requires games { ArePageGames game.now diagram.now (map literal_of page.now.decisions) games.now }
    requires hopeful { length page.now.hopeful ≡ length game.now.vertices }
    requires dual { length page.now.dual ≡ length game.now.vertices }
    requires hopeful_within { All (λ n. n ≤ top_for Which.Hopeful (graph_of game.now)) page.now.hopeful }
    requires dual_within { All (λ n. n ≤ top_for Which.Dual (graph_of game.now)) page.now.dual }
    ensures full { IfOk result
        (λ tone. Gives
        (IsFullAnswer (scene_of [] game.now diagram.now) page.now.decisions page.now.hopeful page.now.dual) tone
        out.old.items out.new.items) }
    ensures unchanged { OnErr result (out.new.items ≡ out.old.items) }
{
    // For the proof: whether both tables are progress tables.
    let _settled = is_settled(games, game, diagram, &page.hopeful, &page.dual);
    let mut text = Vec::new(alloc);
    let tone = sights::full_line(games.known().is_full(), &mut text)?;
    out.extend_from_slice(&text)?;
    Ok(tone)
}

/// Appends whether both tables are progress tables, and returns the answer's tone.
pub fn settled_over(
    alloc: Global,
    games: &PageGames,
    page: &Page,
    game: &GuardedGame,
    diagram: &Diagram,
    out: &mut Vec<u8>,
) -> Result<Tone, AllocError>
    requires games { ArePageGames game.now diagram.now (map literal_of page.now.decisions) games.now }
    requires hopeful { length page.now.hopeful ≡ length game.now.vertices }
    requires dual { length page.now.dual ≡ length game.now.vertices }
    requires hopeful_within { All (λ n. n ≤ top_for Which.Hopeful (graph_of game.now)) page.now.hopeful }
    requires dual_within { All (λ n. n ≤ top_for Which.Dual (graph_of game.now)) page.now.dual }
    ensures settled { IfOk result
        (λ tone. Gives
        (IsSettledAnswer (scene_of [] game.now diagram.now) page.now.decisions page.now.hopeful page.now.dual) tone
        out.old.items out.new.items) }
    ensures unchanged { OnErr result (out.new.items ≡ out.old.items) }
{
    let settled = is_settled(games, game, diagram, &page.hopeful, &page.dual);
    // For the proof: whether each feature is known.
    let _full = games.known().is_full();
    let mut text = Vec::new(alloc);
    let tone = sights::settled_line(settled, &mut text)?;
    out.extend_from_slice(&text)?;
    Ok(tone)
}
