//! Warnings of a family that is read.
ghost use Rattle.std.specs.Prelude.{IfErr};
ghost use Rattle.vpg_family.specs.Families.{IsFamilyFault};

use crate::family::{read_diagram, read_game};
use crate::fault::Fault;
use crate::files::{GamePaths, Paths, Texts};
use crate::systems::read_system;
use crate::writing::{DiagramSource, File, warned_of_game, warned_of_system};
use std::alloc::{AllocError, Global};
use vpg_diagram::Diagram;
use vpg_game::GuardedGame;
use vpg_models::{Form, form_of};

/// Returns the texts of a diagram's file.
fn source_of<'t>(name: &'t str, texts: &'t Texts) -> DiagramSource<'t> {
    let form = form_of(name);
    let text = match form {
        Form::Diagram => texts.diagram.as_slice(),
        Form::Uvl | Form::FeatureIde => texts.model.as_slice(),
    };
    DiagramSource {
        file: File { name, text },
        form,
        meant: &texts.diagram,
    }
}

/// Returns lines of warnings of a family that was read from these texts.
fn warned(
    alloc: Global,
    paths: Paths<'_>,
    texts: &Texts,
    diagram: &Diagram,
    game: &GuardedGame,
) -> Result<Vec<u8>, AllocError> {
    let of_diagram = source_of(paths.diagram, texts);
    let files = match paths.game {
        GamePaths::Model(files) => files,
        GamePaths::Game(name) | GamePaths::System(name) => {
            let of_game = File {
                name,
                text: &texts.game,
            };
            return warned_of_game(alloc, of_diagram, of_game, diagram, game);
        }
    };
    let Ok(system) = read_system(alloc, &texts.system, diagram) else {
        return Err(AllocError);
    };
    let of_system = File {
        name: files.system,
        text: &texts.system,
    };
    let of_requirements = File {
        name: files.requirements,
        text: &texts.requirements,
    };
    warned_of_system(
        alloc,
        of_diagram,
        of_system,
        of_requirements,
        diagram,
        &system,
    )
}

/// Returns lines that warn of the family that the texts of these files spell, and a last one that counts the warnings.
/// A fault of the diagram comes before any of the game. If the game is made from a system and its requirements, the
/// warnings are of these.
pub fn linted(alloc: Global, paths: Paths<'_>, texts: &Texts) -> Result<Vec<u8>, Fault>
    ensures { IfErr result (IsFamilyFault texts.now.diagram.items texts.now.game.items) }
{
    let diagram = match read_diagram(alloc, &texts.diagram) {
        Ok(diagram) => diagram,
        Err(fault) => return Err(fault),
    };
    let game = match read_game(alloc, &texts.game, &diagram) {
        Ok(game) => game,
        Err(fault) => return Err(fault),
    };
    match warned(alloc, paths, texts, &diagram, &game) {
        Ok(lines) => Ok(lines),
        Err(_) => Err(Fault::Memory),
    }
}
