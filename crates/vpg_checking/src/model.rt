//! The game of a family.
ghost use Rattle.std.specs.Prelude.{◌≡◌, ◌≤◌, List, length, map, bytes_eq, IfOk, IfErr};
ghost use Rattle.vpg_diagram.specs.FeatureDiagram.{Line, feature_count};
ghost use Rattle.vpg_game.specs.Game.{graph_of, vertex_ids, IsAtLimit};
ghost use Rattle.vpg_model.specs.Forms.{HasLabels};
ghost use Rattle.vpg_model.specs.Laws.{AreOfSystem};
ghost use Rattle.vpg_model.specs.Pairs.{AreNumbered, HaveGuards, pair_for};
ghost use Rattle.vpg_model.specs.Sharpening.{AreSharp};
ghost use Rattle.vpg_model.specs.Sources.{system_of};
ghost use Rattle.vpg_part_texts.specs.SetTexts.{set_text};
ghost use Rattle.vpg_formula.specs.EntryCode.{entries_of, earlier_of};
ghost use Rattle.vpg_formula.specs.Requirements as spec;
ghost use Rattle.vpg_formula.specs.Requirements.{SpellsRequirements, marked};
ghost use Rattle.vpg_system.specs.System.{IsSystem};
ghost use Rattle.vpg_system.specs.SystemText.{NamedSystem, IsTextOf};
ghost use Rattle.vpg_checking.specs.Checking.{IsModelOfEntries, IsModelOfTexts, AreNamed, vertex_named};
ghost use Rattle.vpg_checking.specs.Faults.{IsCheckingFault, IsRequirementsFault};
ghost use Rattle.vpg_checking.specs.Texts.{AreVerticesOf};

use crate::behaviour::action_names;
use crate::fault::CheckingFault;
use indexmap::IndexSet;
use std::alloc::Global;
use std::mem;
use vpg_diagram::Diagram;
use vpg_formula::{Entry, Requirements};
use vpg_game::GuardedGame;
use vpg_meaning::laws::{requirements_are_positive, requirements_mean_what_is_written};
use vpg_model::{Built, Source, build, sharpened};
use vpg_normal::{Arena, parts_of};
use vpg_part_texts::{Text, set_texts};
use vpg_system::System;
use vpg_system::laws::spelled_are_systems;
use vpg_written::{Translation, translate};

/// The model-checking game of a family and its requirements.
///
/// In each product Even wins at the vertex of a requirement exactly if the requirement holds at the first state of the
/// product's system.
#[derive(Drop)]
pub struct Model {
    /// The game. The identifier of each vertex is its number.
    pub game: GuardedGame,
    /// The vertex of each requirement.
    pub roots: Vec<usize>,
    /// The requirements.
    pub requirements: Requirements,
    /// The state of each vertex, and the place of its part.
    pub pairs: IndexSet<(u32, u32)>,
    /// The places of the requirements.
    pub places: Vec<u32>,
    /// The system, and the parts of all requirements.
    pub source: Source,
    /// The texts of the sets of actions that parts name.
    pub sets: Vec<Text>,
    /// The names of the system's actions.
    pub actions: Vec<Text>,
}

/// Whether the requirement has this name.
fn is_named(entry: &Entry, name: &[u8]) -> bool
    ensures { result ≡ bytes_eq entry.now.name name.now }
{
    entry.name.as_bytes() == name
}

impl Model {
    /// Returns the game of a system and of the requirements that a text spells.
    fn of(alloc: Global, system: System, text: &[u8]) -> Result<Model, CheckingFault>
        requires few_features { system.features ≤ 512 }
        requires system { IsSystem system }
        ensures spelled { IfOk result (λ _. (entries : List spec.Entry) × SpellsRequirements text.now entries) }
        ensures model { IfOk result (λ model. (lines : List Line) (entries : List spec.Entry) →
            SpellsRequirements text.now entries →
            IsModelOfEntries lines system entries (graph_of model.game) model.roots.items) }
        ensures features { IfOk result (λ model. model.game.features ≡ system.features) }
        ensures numbered { IfOk result (λ model. AreNumbered (vertex_ids model.game.vertices)) }
        ensures below { IfOk result (λ model. ¬ IsAtLimit model.game) }
        ensures sharp { IfOk result (λ model. AreSharp model.game.features (graph_of model.game)) }
        ensures requirements { IfOk result (λ model. (entries : List spec.Entry) →
            SpellsRequirements text.now entries →
            entries_of model.requirements.entries.items ≡ marked entries) }
        ensures named { IfOk result (λ model. (entries : List spec.Entry) →
            SpellsRequirements text.now entries →
            AreNamed entries (earlier_of model.requirements.entries.items) model.roots.items) }
        ensures vertices { IfOk result (λ model. AreVerticesOf model.source.states.items model.source.sets.items
            model.source.parts.items (map (pair_for model.source.parts.items system.first) model.places.items)
            model.pairs.keys model.roots.items (graph_of model.game)) }
        ensures sets { IfOk result (λ model.
            model.sets.items ≡ map (set_text system.actions) model.source.sets.items) }
        ensures actions { IfOk result (λ model. model.actions.items ≡ system.actions) }
        ensures system { IfOk result (λ model. AreOfSystem (length system.actions) (system_of system)
            model.source.states.items system.first) }
        ensures guards { IfOk result (λ model. HaveGuards model.source.features model.source.states.items) }
        ensures labels { IfOk result (λ model. HasLabels (length model.actions.items) model.source.states.items) }
        ensures over { IfOk result (λ model. model.source.features ≡ model.game.features) }
        ensures refused { IfErr result (IsRequirementsFault system text.now) }
    {
        requirements_are_positive();
        requirements_mean_what_is_written();
        let requirements = Requirements::read(alloc, text)?;
        let Translation { sets, forms } = translate(alloc, &system, &requirements)?;
        let Arena {
            parts,
            roots: places,
        } = parts_of(alloc, &forms)?;
        let texts = set_texts(alloc, &system, sets.as_slice())?;
        let actions = action_names(alloc, &system)?;
        let source = Source::of(alloc, &system, sets, parts)?;
        let first = system.first();
        // The source has all of the system that the game needs.
        mem::drop(system);
        let Built { pairs, roots, game } = build(alloc, &source, first, &places)?;
        let game = sharpened(alloc, game)?;
        Ok(Model {
            game,
            roots,
            requirements,
            pairs,
            places,
            source,
            sets: texts,
            actions,
        })
    }

    /// Returns the game of a system and its requirements, as their texts spell them, over the features of a diagram.
    ///
    /// Returns the first fault, in the order of `CheckingFault`: that of the system's text, that of the requirements'
    /// text, a requirement of more than 65,536 parts, a limit of games.
    pub fn read(
        alloc: Global,
        system: &[u8],
        requirements: &[u8],
        diagram: &Diagram,
    ) -> Result<Model, CheckingFault>
        // It is the game of what both texts spell, and decides the requirements in each product.
        ensures found { IfOk result (λ model. IsModelOfTexts diagram.now.names diagram.now.lines system.now
            requirements.now (graph_of model.game) model.roots.items) }
        ensures features { IfOk result (λ model. model.game.features ≡ feature_count diagram.now.lines) }
        ensures numbered { IfOk result (λ model. AreNumbered (vertex_ids model.game.vertices)) }
        ensures below { IfOk result (λ model. ¬ IsAtLimit model.game) }
        // The three-valued value of each guard is known as early as it can be, unless the guard is too long for that.
        ensures sharp { IfOk result (λ model. AreSharp model.game.features (graph_of model.game)) }
        ensures requirements { IfOk result (λ model. (entries : List spec.Entry) →
            SpellsRequirements requirements.now entries →
            entries_of model.requirements.entries.items ≡ marked entries) }
        ensures named { IfOk result (λ model. (entries : List spec.Entry) →
            SpellsRequirements requirements.now entries →
            AreNamed entries (earlier_of model.requirements.entries.items) model.roots.items) }
        // Its vertices are pairs of a state and a part, from the first state on; the sets of actions have their texts.
        ensures vertices { IfOk result (λ model. (s : NamedSystem) → IsTextOf diagram.now.names system.now s →
            AreVerticesOf model.source.states.items model.source.sets.items model.source.parts.items
            (map (pair_for model.source.parts.items s.first) model.places.items) model.pairs.keys
            model.roots.items (graph_of model.game)) }
        ensures sets { IfOk result (λ model. (s : NamedSystem) → IsTextOf diagram.now.names system.now s →
            model.sets.items ≡ map (set_text s.actions) model.source.sets.items) }
        // It has the names of the system's actions, and the system's transitions by their sources. So a report of a
        // step of the source holds of the system.
        ensures actions { IfOk result (λ model. (s : NamedSystem) → IsTextOf diagram.now.names system.now s →
            model.actions.items ≡ s.actions) }
        ensures system { IfOk result (λ model. (s : NamedSystem) → IsTextOf diagram.now.names system.now s →
            AreOfSystem (length s.actions) (system_of s) model.source.states.items s.first) }
        ensures guards { IfOk result (λ model. HaveGuards model.source.features model.source.states.items) }
        ensures labels { IfOk result (λ model. HasLabels (length model.actions.items) model.source.states.items) }
        ensures over { IfOk result (λ model. model.source.features ≡ model.game.features) }
        ensures refused { IfErr result (IsCheckingFault diagram.now.names system.now requirements.now) }
    {
        spelled_are_systems();
        let system = System::read(alloc, system, diagram.names())?;
        Model::of(alloc, system, requirements)
    }

    /// Returns the vertex of the requirement of this name, if there is one.
    pub fn vertex_of(&self, name: &[u8]) -> Option<usize>
        ensures { result ≡
            vertex_named (earlier_of self.now.requirements.entries.items) self.now.roots.items name.now }
    {
        let entries = &self.requirements.entries;
        let count = entries.len().min(self.roots.len());
        for n in 0..count {
            if is_named(&entries[n], name) {
                return Some(self.roots[n]);
            }
        }
        None
    }
}
