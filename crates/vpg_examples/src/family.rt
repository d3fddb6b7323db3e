//! A family, and runs on it.

ghost use Rattle.std.specs.Prelude.{◌≡◌};

use anyhow::Result;
use std::alloc::Global;
use std::io::{Read, Write};
use std::sync::{Arc, Wait};
use std::thread::Threads;
use vpg_diagram::Diagram;
use vpg_game::GuardedGame;
use vpg_report::{DIAGRAM, GAME, run, run_as};
use vpg_script::{Device, Ending, Manner, RunFault, Sink, Source};

/// A game with its diagram.
pub(crate) struct Family {
    game: Arc<GuardedGame>,
    diagram: Arc<Diagram>,
}

// Not derived: a derived `drop` would be proved again at each exit that owns such a value.
impl Drop for Family {
    fn drop(self) {
        let Family {
            game: _,
            diagram: _,
        } = self;
    }
}

fn diagram_of(alloc: Global, text: &[u8]) -> Result<Arc<Diagram>> {
    let diagram = Diagram::read(alloc, text)?;
    Ok(Arc::new(alloc, diagram)?)
}

fn game_of(alloc: Global, text: &[u8], diagram: &Diagram) -> Result<Arc<GuardedGame>> {
    let game = GuardedGame::read(alloc, text, diagram.names())?;
    Ok(Arc::new(alloc, game)?)
}

impl Family {
    /// Returns the family of these texts.
    pub(crate) fn read(alloc: Global, diagram: &[u8], game: &[u8]) -> Result<Family> {
        let diagram = diagram_of(alloc, diagram)?;
        let game = game_of(alloc, game, &diagram)?;
        Ok(Family { game, diagram })
    }

    /// Returns the family of most examples, which is built in.
    pub(crate) fn built_in(alloc: Global) -> Result<Family> {
        Family::read(alloc, DIAGRAM.as_bytes(), GAME.as_bytes())
    }

    /// Whether nothing else has the game, as each office of it has.
    fn is_alone(&self) -> bool {
        Arc::strong_count(&self.game) == 1 && Arc::strong_count(&self.diagram) == 1
    }
}

/// Runs a script on a family, in a manner if one is given. Nothing if there is no run.
pub(crate) fn run_on<R: Threads + Wait + Sync, S: Source, T: Sink>(
    rt: &R,
    alloc: Global,
    family: &Family,
    lifters: u32,
    manner: Option<Manner>,
    reader: &mut S,
    writer: &mut T,
) -> Option<Result<Ending, RunFault>>
    requires { S.calls reader.old ≡ 0 }
{
    let game = Arc::try_clone(&family.game).ok()?;
    let diagram = Arc::try_clone(&family.diagram).ok()?;
    if game.features() != diagram.features() {
        return None;
    }
    let lifters = lifters.clamp(1, 64);
    Some(match manner {
        Some(manner) => run_as(rt, alloc, game, diagram, reader, writer, lifters, manner),
        None => match run(rt, alloc, game, diagram, reader, writer, lifters) {
            Ok(()) => Ok(Ending::Whole),
            Err(fault) => Err(fault),
        },
    })
}

/// Returns the result of a run over these devices. Nothing if there is no run, or if its office is still there
/// afterwards.
pub(crate) fn outcome<R: Threads + Wait + Sync, S: Read + Drop, T: Write + Drop>(
    rt: &R,
    alloc: Global,
    family: &Family,
    lifters: u32,
    manner: Option<Manner>,
    reader: S,
    writer: T,
) -> Option<Result<Ending, RunFault>> {
    let mut reader = Device::reader(reader);
    let mut writer = Device::writer(writer);
    let ended = run_on(rt, alloc, family, lifters, manner, &mut reader, &mut writer);
    if family.is_alone() { ended } else { None }
}
