//! The office of a family that sessions play on.

ghost use Rattle.std.specs.Arc.{arc_value};
ghost use Rattle.std.specs.Prelude.{◌≡◌, ◌≤◌, IfOk};
ghost use Rattle.vpg_diagram.specs.FeatureDiagram.{feature_count};

use crate::noting::Notes;
use crate::playing::{Play, play_out};
use crate::tokens::Token;
use anyhow::{Context, Result};
use std::alloc::Global;
use std::marker::Brand;
use std::sync::{Arc, Wait};
use std::thread::Threads;
use vpg_diagram::Diagram;
use vpg_game::GuardedGame;
use vpg_office::{Office, Site, Terms};

/// The number of calls that a log takes.
const ROOM: u32 = 1_048_576;

/// The end of a play.
#[derive(Clone, Copy)]
pub(crate) struct End {
    /// The number of calls in the log.
    pub(crate) calls: usize,
    /// The number of tokens that were out at the end and not handed in.
    pub(crate) further: u64,
}

/// Plays on an office, and ends it. Room for the last token is made before there is any, since none can be dropped.
fn play_and_end<L: Terms + Send + Sync, R: Threads + Wait + Sync>(
    rt: &R,
    alloc: Global,
    office: Office<L>,
    play: Play,
    notes: &mut Notes,
) -> Option<End> {
    let Ok(mut undos) = Vec::with_capacity(alloc, 1) else {
        let _further = office.end(rt, Vec::new(alloc), Vec::new(alloc));
        return None;
    };
    let Ok(mut redos) = Vec::with_capacity(alloc, 1) else {
        let _further = office.end(rt, undos, Vec::new(alloc));
        return None;
    };
    match play_out(rt, alloc, &office, play, notes) {
        Token::Absent => {}
        Token::Made(token) => undos.push_reserved(token),
        Token::Undone(token) => redos.push_reserved(token),
    }
    let office = office.unshare();
    let calls = office.log().len();
    let further = office.end(rt, undos, redos).further();
    Some(End { calls, further })
}

/// Opens an office and plays there. `L` says which row of calls and which ledger it has.
fn open_and_play<L: Terms + Send + Sync, R: Threads + Wait + Sync>(
    rt: &R,
    alloc: Global,
    site: Site,
    game: Arc<GuardedGame>,
    diagram: Arc<Diagram>,
    room: u32,
    play: Play,
    notes: &mut Notes,
) -> Option<End>
    requires features { (arc_value game).features ≡ feature_count (arc_value diagram).lines }
    requires site { (site.row ≡ L.shelves) × (site.name ≡ L.name) × (site.parts ≡ L.parts) }
    requires of { (arc_value game ≡ L.game) × (arc_value diagram ≡ L.diagram) }
    requires room { (room ≡ L.limit) × (1 ≤ room) × (room ≤ 1048576) }
{
    match Office::<L>::open(rt, alloc, site, game, diagram, room) {
        Ok(office) => play_and_end(rt, alloc, office, play, notes),
        Err(_refused) => None,
    }
}

/// Plays on an office of this game and diagram. There is no end if something is missing.
fn play_on<R: Threads + Wait + Sync>(
    rt: &R,
    alloc: Global,
    game: Arc<GuardedGame>,
    diagram: Arc<Diagram>,
    play: Play,
    notes: &mut Notes,
) -> Option<End>
    requires { (arc_value game).features ≡ feature_count (arc_value diagram).lines }
{
    let site = Site::new(alloc).ok()?;
    open_and_play::<Brand, R>(rt, alloc, site, game, diagram, ROOM, play, notes)
}

/// Returns the diagram that a text spells.
fn diagram_of(alloc: Global, text: &[u8]) -> Result<Arc<Diagram>> {
    let diagram = Diagram::read(alloc, text)?;
    Ok(Arc::new(alloc, diagram)?)
}

/// Returns the game that a text spells, by the names of a diagram.
fn game_of(alloc: Global, text: &[u8], diagram: &Diagram) -> Result<Arc<GuardedGame>>
    ensures { IfOk result (λ game. (arc_value game).features ≡ feature_count diagram.now.lines) }
{
    let game = GuardedGame::read(alloc, text, diagram.names())?;
    Ok(Arc::new(alloc, game)?)
}

/// Plays on an office of the game and diagram that these texts spell, with all their features.
pub(crate) fn play_on_texts<R: Threads + Wait + Sync>(
    rt: &R,
    alloc: Global,
    game: &[u8],
    diagram: &[u8],
    play: Play,
    notes: &mut Notes,
) -> Result<End> {
    let diagram = diagram_of(alloc, diagram)?;
    let game = game_of(alloc, game, &diagram)?;
    let features = diagram.features().min(512) as u32;
    let play = Play { features, ..play };
    play_on(rt, alloc, game, diagram, play, notes).context("no office, or no room for tokens")
}
