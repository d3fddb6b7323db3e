//! A product family: a game over the features of a diagram.
ghost use Rattle.std.specs.Arc.{arc_value};
ghost use Rattle.std.specs.Prelude.{◌≡◌, Some, slice_get, map, IfOk, IfErr, OnErr, MatchResult};
ghost use Rattle.vpg_diagram.specs.DiagramText.{NamedDiagram, IsTextOf};
ghost use Rattle.vpg_diagram.specs.FeatureDiagram.{feature_count};
ghost use Rattle.vpg_game.specs.Game.{NamedGame, SpellsGame};
ghost use Rattle.vpg_family.specs.Counts.{counts_text};
ghost use Rattle.vpg_family.specs.Families.{IsDiagramFault, IsGameFault, SpellsFamily, IsFamilyFault, TellsConflict, IsUnknown, IsNamedSet, TellsUnknown, IsProjected, IsNotProjected};

use crate::counts::put_counts;
use crate::fault::Fault;
use std::alloc::{AllocError, Global};
use std::sync::Arc;
use vpg_diagram::{Diagram, DiagramFault};
use vpg_features::Names;
use vpg_game::{GameFault, GuardedGame};
use vpg_hope::{ProjectFault, project};

/// A game and a diagram with the features of its guards.
#[derive(Drop)]
pub struct Family {
    pub game: Arc<GuardedGame>,
    pub diagram: Arc<Diagram>,
}

/// Returns the diagram that a text spells.
pub(crate) fn read_diagram(alloc: Global, text: &[u8]) -> Result<Diagram, Fault>
    ensures found { IfOk result (IsTextOf text.now) }
    ensures only { (diagram : NamedDiagram) → IsTextOf text.now diagram →
        MatchResult result (λ read. read ≡ diagram) (λ fault. fault ≡ Fault.Memory) }
    ensures refused { IfErr result (IsDiagramFault text.now) }
{
    match Diagram::read(alloc, text) {
        Ok(diagram) => Ok(diagram),
        Err(DiagramFault::Memory) => Err(Fault::Memory),
        Err(fault) => Err(Fault::Diagram { fault }),
    }
}

/// Returns the game over a diagram that a text spells.
pub(crate) fn read_game(alloc: Global, text: &[u8], diagram: &Diagram) -> Result<GuardedGame, Fault>
    ensures found { IfOk result (SpellsGame diagram.now.names text.now) }
    ensures only { (game : NamedGame) → SpellsGame diagram.now.names text.now game →
        MatchResult result (λ read. read ≡ game) (λ fault. fault ≡ Fault.Memory) }
    ensures features { IfOk result (λ game. game.features ≡ feature_count diagram.now.lines) }
    ensures refused { IfErr result (IsGameFault diagram.now.names text.now) }
{
    match GuardedGame::read(alloc, text, diagram.names()) {
        Ok(game) => Ok(game),
        Err(fault) => match fault {
            GameFault::Memory => Err(Fault::Memory),
            _ => Err(Fault::Game { fault }),
        },
    }
}

/// Returns the fault that reports a conflict of the root.
pub fn conflict(alloc: Global, diagram: &Diagram, root: u16) -> Fault
    requires { root ≡ 0 }
    ensures { TellsConflict diagram.now.names root result }
{
    match String::from_str(alloc, diagram.names().name(root)) {
        Ok(feature) => Fault::Conflict { feature },
        Err(_) => Fault::Memory,
    }
}

/// Returns the index of a feature that a word names.
fn feature(alloc: Global, names: &Names, word: &str) -> Result<u16, Fault>
    ensures found { IfOk result (λ f. slice_get names.now f ≡ Some word.now) }
    ensures unknown { IfErr result (IsUnknown names.now word.now) }
{
    match names.get(word.as_bytes()) {
        Some(f) => Ok(f),
        None => Err(Fault::UnknownFeature {
            name: String::from_str(alloc, word)?,
        }),
    }
}

/// Returns the set of the features that words name, each once or more. The fault names the first word that names none.
fn features_named(alloc: Global, names: &Names, words: &[&str]) -> Result<Vec<bool>, Fault>
    ensures set { IfOk result (λ set. IsNamedSet names.now (map (λ word. word.now) words.now) set.items) }
    ensures unknown { IfErr result (TellsUnknown names.now (map (λ word. word.now) words.now)) }
{
    let mut set = vec![in alloc; false; names.len()]?;
    for word in words {
        let f = feature(alloc, names, word)?;
        set[f as usize] = true;
    }
    Ok(set)
}

impl Family {
    /// Returns the family that the texts of a diagram and a game spell. A fault of the diagram comes before any of the
    /// game.
    pub fn read(alloc: Global, diagram: &[u8], game: &[u8]) -> Result<Family, Fault>
        ensures found { IfOk result
            (λ family. SpellsFamily diagram.now game.now (arc_value family.diagram) (arc_value family.game)) }
        // All that the texts spell is read, unless memory runs out.
        ensures only { (d : NamedDiagram) (g : NamedGame) → SpellsFamily diagram.now game.now d g →
            MatchResult result (λ family. (arc_value family.diagram ≡ d) × (arc_value family.game ≡ g))
            (λ fault. fault ≡ Fault.Memory) }
        ensures features { IfOk result
            (λ family. (arc_value family.game).features ≡ feature_count (arc_value family.diagram).lines) }
        ensures refused { IfErr result (IsFamilyFault diagram.now game.now) }
    {
        let diagram = read_diagram(alloc, diagram)?;
        let game = read_game(alloc, game, &diagram)?;
        Family::of(alloc, game, diagram)
    }

    /// Returns the family of a game and the diagram of its features.
    fn of(alloc: Global, game: GuardedGame, diagram: Diagram) -> Result<Family, Fault>
        requires { game.features ≡ feature_count diagram.lines }
        ensures both { IfOk result (λ family. (arc_value family.game ≡ game) × (arc_value family.diagram ≡ diagram)) }
        ensures refused { OnErr result (result ≡ Err Fault.Memory) }
    {
        let (Ok(game), Ok(diagram)) = (Arc::new(alloc, game), Arc::new(alloc, diagram)) else {
            return Err(Fault::Memory);
        };
        Ok(Family { game, diagram })
    }

    /// Returns the text of the plain game of the product that has just the features that the words name, each once or
    /// more. The fault of the first word that names none comes before that of words that are no product.
    pub fn projected(self, alloc: Global, words: &[&str]) -> Result<Vec<u8>, Fault>
        requires { (arc_value self.game).features ≡ feature_count (arc_value self.diagram).lines }
        ensures text { IfOk result
            (λ text. IsProjected (arc_value self.diagram) (arc_value self.game)
            (map (λ word. word.now) words.now) text.items) }
        ensures refused { IfErr result (IsNotProjected (arc_value self.diagram) (map (λ word. word.now) words.now)) }
    {
        let set = features_named(alloc, self.diagram.names(), words)?;
        match project(alloc, &self.game, &self.diagram, &set) {
            Ok(plain) => {
                let mut text = Vec::new(alloc);
                plain.write(alloc, &mut text)?;
                Ok(text)
            }
            Err(ProjectFault::NotAProduct) => Err(Fault::NotAProduct),
            Err(ProjectFault::Memory) => Err(Fault::Memory),
        }
    }

    /// Returns the same family once more.
    pub fn again(&self) -> Result<Family, AllocError>
        ensures game { IfOk result (λ family. arc_value family.game ≡ arc_value self.now.game) }
        ensures diagram { IfOk result (λ family. arc_value family.diagram ≡ arc_value self.now.diagram) }
    {
        let game = self.game.clone()?;
        let diagram = self.diagram.clone()?;
        Ok(Family { game, diagram })
    }

    /// Returns the line that counts the family.
    pub fn counted(&self, alloc: Global) -> Result<Vec<u8>, AllocError>
        ensures { IfOk result (λ text. text.items ≡ counts_text (arc_value self.now.game)) }
    {
        let mut text = Vec::new(alloc);
        put_counts(&self.game, &mut text)?;
        Ok(text)
    }
}
