//! The game of a system and its requirements, over a diagram.
ghost use Rattle.std.specs.Prelude.{◌≡◌, List, ℕ, Err, IfOk, IfErr, OnErr};
ghost use Rattle.vpg_diagram.specs.DiagramText.{NamedDiagram};
ghost use Rattle.vpg_game.specs.Game.{NamedGame, SpellsGame};
ghost use Rattle.vpg_formula.specs.EntryCode.{earlier_of};
ghost use Rattle.vpg_checking.specs.Faults.{IsCheckingFault};
ghost use Rattle.vpg_family.specs.Families.{IsNameOfEntry, IsModelFault, IsModelOver};
ghost use Rattle.vpg_family.specs.Made.{IsMadeOf};

use crate::fault::Fault;
use std::alloc::Global;
use vpg_checking::{Behaviour, CheckingFault, Model};
use vpg_diagram::Diagram;
use vpg_formula::{Entry, Requirements};

/// Returns the name of the entry of a number, of requirements that were read before.
fn entry_name(alloc: Global, text: &[u8], entry: usize) -> Result<Vec<u8>, Fault>
    ensures name { IfOk result (λ name. IsNameOfEntry text.now entry name.items) }
    ensures refused { OnErr result (result ≡ Err Fault.Memory) }
{
    let Ok(requirements) = Requirements::read(alloc, text) else {
        return Err(Fault::Memory);
    };
    match requirements.entries.get(entry) {
        Some(it) => Ok(Vec::from_slice(alloc, it.name.as_bytes())?),
        None => Err(Fault::Memory),
    }
}

/// Returns the fault of a system and requirements that have no game.
fn told_of(alloc: Global, requirements: &[u8], fault: CheckingFault) -> Fault
    ensures { (diagram : NamedDiagram) (system_text : List ℕ) →
        IsCheckingFault diagram.names system_text requirements.now fault →
        IsModelFault diagram system_text requirements.now result }
{
    match fault {
        CheckingFault::System(fault) => Fault::System { fault },
        CheckingFault::Requirements(fault) => Fault::Requirements { fault },
        CheckingFault::TooManyParts { entry } => match entry_name(alloc, requirements, entry) {
            Ok(name) => Fault::TooManyParts { name },
            Err(fault) => fault,
        },
        CheckingFault::Game(fault) => Fault::Model { fault },
        CheckingFault::Memory => Fault::Memory,
    }
}

/// The text of the game of a system and its requirements, these, the vertex of each, and the system.
#[derive(Drop)]
pub(crate) struct Modelled {
    pub(crate) game: Vec<u8>,
    pub(crate) entries: Vec<Entry>,
    pub(crate) vertices: Vec<usize>,
    pub(crate) behaviour: Behaviour,
}

/// Returns the game of a system and its requirements over a diagram, by their texts.
pub(crate) fn model_of(
    alloc: Global,
    diagram: &Diagram,
    system: &[u8],
    requirements: &[u8],
) -> Result<Modelled, Fault>
    ensures found { IfOk result (λ made. (game : NamedGame) × SpellsGame diagram.now.names made.game.items game ×
        IsModelOver diagram.now system.now requirements.now game (earlier_of made.entries.items) made.vertices.items ×
        IsMadeOf diagram.now system.now game made.behaviour) }
    ensures refused { IfErr result (IsModelFault diagram.now system.now requirements.now) }
{
    let model = match Model::read(alloc, system, requirements, diagram) {
        Ok(model) => model,
        Err(fault) => return Err(told_of(alloc, requirements, fault)),
    };
    // The diagram has a name for each feature.
    let _features = diagram.features();
    let mut game = Vec::new(alloc);
    model.write(alloc, diagram.names(), &mut game)?;
    let Model {
        roots,
        requirements,
        pairs,
        source,
        actions,
        ..
    } = model;
    Ok(Modelled {
        game,
        entries: requirements.entries,
        vertices: roots,
        behaviour: Behaviour::of(actions, source, pairs),
    })
}
