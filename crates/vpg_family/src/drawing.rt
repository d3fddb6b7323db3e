//! Pictures of a family under no decisions.
ghost use Rattle.std.specs.Prelude.{◌≡◌, [], length, IfOk, IfErr};
ghost use Rattle.vpg_diagram.specs.DiagramText.{IsTextOf};
ghost use Rattle.vpg_diagram.specs.FeatureDiagram.{feature_count};
ghost use Rattle.vpg_game.specs.Game.{SpellsGame};
ghost use Rattle.vpg_partial.specs.TableLaws.{IsKnownTable};
ghost use Rattle.vpg_family.specs.Pictures.{no_verdicts, TellsNames, IsGameDrawn, AreFeaturesDrawn, IsDrawn, TellsContradiction, IsPicture, IsUndrawn};
ghost use Rattle.vpg_draw.specs.GameDrawing.{game_drawing};

use crate::family::{conflict, read_diagram, read_game};
use crate::fault::Fault;
use std::alloc::{AllocError, Global};
use vpg_diagram::Diagram;
use vpg_draw::{draw_features, draw_game};
use vpg_game::{GuardedGame, VertexNames};
use vpg_measure::known_under;
use vpg_partial::{Partial, PartialFault};
use vpg_sides::Verdict;

/// The subject of a family's picture.
#[derive(Clone, Copy, PartialEq, Eq)]
pub enum Subject {
    Game,
    /// The feature diagram.
    Features,
}

/// Returns the features that a diagram makes known without any decision.
pub(crate) fn known_alone(alloc: Global, diagram: &Diagram) -> Result<Partial, Fault>
    ensures known { IfOk result (IsKnownTable diagram.now.lines []) }
    ensures refused { IfErr result (TellsContradiction diagram.now) }
{
    match known_under(alloc, diagram, &[]) {
        Ok(known) => Ok(known),
        Err(PartialFault::Conflict { feature }) => Err(conflict(alloc, diagram, feature)),
        Err(PartialFault::Memory) => Err(Fault::Memory),
    }
}

/// Returns for each vertex the verdict that nothing is known of it.
fn no_verdicts(alloc: Global, vertices: usize) -> Result<Vec<Verdict>, AllocError>
    ensures { IfOk result (λ verdicts. verdicts.items ≡ no_verdicts vertices) }
{
    let nothing = Verdict {
        hopeless: false,
        sure: false,
    };
    vec![in alloc; nothing; vertices]
}

/// Returns the picture of a game, under what is known, with these names.
fn game_picture(
    alloc: Global,
    diagram: &Diagram,
    known: &Partial,
    game: &GuardedGame,
    names: &VertexNames,
) -> Result<Vec<u8>, AllocError>
    requires features { game.now.features ≡ feature_count diagram.now.lines }
    requires known { length known.now ≡ feature_count diagram.now.lines }
    ensures { IfOk result (λ picture. picture.items
        ≡ game_drawing diagram.now.names known.now [] names.now.names
        (no_verdicts (length game.now.vertices)) game.now) }
{
    let verdicts = no_verdicts(alloc, game.vertices())?;
    let mut picture = Vec::new(alloc);
    let features = diagram.names();
    draw_game(
        alloc,
        game,
        features,
        known,
        &[],
        names,
        &verdicts,
        &mut picture,
    )?;
    Ok(picture)
}

/// Returns the picture of a game, with the names in its text.
fn game_drawn(
    alloc: Global,
    diagram: &Diagram,
    known: &Partial,
    game: &GuardedGame,
    text: &[u8],
) -> Result<Vec<u8>, AllocError>
    requires features { game.now.features ≡ feature_count diagram.now.lines }
    requires known { IsKnownTable diagram.now.lines [] known.now }
    ensures { IfOk result (λ picture. IsGameDrawn diagram.now game.now text.now picture.items) }
{
    let names = VertexNames::read(alloc, text)?;
    match game_picture(alloc, diagram, known, game, &names) {
        Ok(picture) => Ok(picture),
        Err(fault) => Err(fault),
    }
}

/// Returns the picture of a diagram that is read from this text.
fn features_drawn(
    alloc: Global,
    diagram: &Diagram,
    known: &Partial,
    text: &[u8],
) -> Result<Vec<u8>, AllocError>
    requires { IsKnownTable diagram.now.lines [] known.now }
    ensures { IfOk result (λ picture. AreFeaturesDrawn diagram.now text.now picture.items) }
{
    let mut picture = Vec::new(alloc);
    // The diagram has a name for each feature.
    let _features = diagram.features();
    draw_features(alloc, text, diagram, known, &[], &mut picture)?;
    Ok(picture)
}

/// Returns the picture of a family, under what its diagram alone makes known.
fn family_drawn(
    alloc: Global,
    subject: Subject,
    diagram: &Diagram,
    game: &GuardedGame,
    diagram_text: &[u8],
    game_text: &[u8],
) -> Result<Vec<u8>, Fault>
    requires { game.now.features ≡ feature_count diagram.now.lines }
    ensures drawn { IfOk result
        (λ picture. IsDrawn subject diagram.now game.now diagram_text.now game_text.now picture.items) }
    ensures refused { IfErr result (TellsContradiction diagram.now) }
{
    let known = match known_alone(alloc, diagram) {
        Ok(known) => known,
        Err(fault) => return Err(fault),
    };
    match subject {
        Subject::Game => match game_drawn(alloc, diagram, &known, game, game_text) {
            Ok(picture) => Ok(picture),
            Err(_) => Err(Fault::Memory),
        },
        Subject::Features => match features_drawn(alloc, diagram, &known, diagram_text) {
            Ok(picture) => Ok(picture),
            Err(_) => Err(Fault::Memory),
        },
    }
}

/// Returns the picture of the family that two texts spell, under no decisions. Errors, in this order: a fault of the
/// diagram, one of the game, a diagram that contradicts itself.
pub fn drawn(
    alloc: Global,
    subject: Subject,
    diagram_text: &[u8],
    game_text: &[u8],
) -> Result<Vec<u8>, Fault>
    ensures drawn { IfOk result (λ picture. IsPicture subject diagram_text.now game_text.now picture.items) }
    ensures refused { IfErr result (IsUndrawn diagram_text.now game_text.now) }
{
    let diagram = match read_diagram(alloc, diagram_text) {
        Ok(diagram) => diagram,
        Err(fault) => return Err(fault),
    };
    let game = match read_game(alloc, game_text, &diagram) {
        Ok(game) => game,
        Err(fault) => return Err(fault),
    };
    family_drawn(alloc, subject, &diagram, &game, diagram_text, game_text)
}
