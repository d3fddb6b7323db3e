//! A family with the names that lines may give its vertices.
ghost use Rattle.std.specs.Arc.{arc_value};
ghost use Rattle.std.specs.Prelude.{◌≡◌, ◌++◌, [], None, length, option_map, slice_get, IfErr, IfOk, OnOk};
ghost use Rattle.vpg_diagram.specs.FeatureDiagram.{feature_count};
ghost use Rattle.vpg_diagram.specs.DiagramText.{NamedDiagram};
ghost use Rattle.vpg_game.specs.Game.{NamedGame, vertex_ids};
ghost use Rattle.vpg_formula.specs.EntryCode.{earlier_of};
ghost use Rattle.vpg_script.specs.Script.{is_nonempty};
ghost use Rattle.vpg_family.specs.Called.{AreCallings, IsKnown, calling_of, callings_of, entry_calling, entry_callings, text_callings};
ghost use Rattle.vpg_family.specs.Families.{IsFamilyFault, IsUnread, IsOfPaths, SpellsFamily};
ghost use Rattle.vpg_family.specs.Pictures.{TellsNames};
ghost use Rattle.vpg_family.specs.Sources.{AreOfFileBy};
ghost use Rattle.vpg_models.specs.Forms.{form_of};

use crate::family::Family;
use crate::fault::Fault;
use crate::files::{Paths, Texts, Unread, read_texts};
use std::alloc::{AllocError, Global};
use std::mem;
use std::rt::Files;
use vpg_checking::Behaviour;
use vpg_formula::Entry;
use vpg_game::{GuardedGame, VertexNames};
use vpg_script::Callings;

/// Returns the identifier of the vertex at a place, if there is one.
fn identifier_at(game: &GuardedGame, vertex: usize) -> Option<u32>
    ensures { result ≡ slice_get (vertex_ids game.now.vertices) vertex }
{
    if vertex < game.vertices() {
        Some(game.id(vertex as u32))
    } else {
        None
    }
}

fn is_nonempty(name: &[u8]) -> bool
    ensures { result ≡ is_nonempty name.now }
{
    match name {
        [] => false,
        [_, ..] => true,
    }
}

/// Adds a name of the vertex of an identifier, if there are both.
fn add_name(
    alloc: Global,
    name: &[u8],
    identifier: Option<u32>,
    callings: &mut Callings,
) -> Result<(), AllocError>
    ensures { OnOk result (callings.new ≡ callings.old ++ calling_of name.now identifier) }
{
    if !is_nonempty(name) {
        return Ok(());
    }
    match identifier {
        Some(identifier) => callings.add(alloc, name, identifier),
        None => Ok(()),
    }
}

/// Adds the names that a game's text gives its vertices.
fn add_names(
    alloc: Global,
    game: &GuardedGame,
    names: &VertexNames,
    callings: &mut Callings,
) -> Result<(), AllocError>
    ensures { OnOk result (callings.new ≡ callings.old
        ++ text_callings names.now.names (vertex_ids game.now.vertices) (length (vertex_ids game.now.vertices))) }
{
    for v in 0..game.vertices() {
        add_name(
            alloc,
            names.name(v as u32),
            identifier_at(game, v),
            callings,
        )?;
    }
    Ok(())
}

/// Adds the name of an entry, for the vertex at a place, if there are both.
fn add_entry(
    alloc: Global,
    game: &GuardedGame,
    entry: Option<&Entry>,
    vertex: Option<&usize>,
    callings: &mut Callings,
) -> Result<(), AllocError>
    ensures { OnOk result (callings.new ≡ callings.old
        ++ entry_calling (vertex_ids game.now.vertices) (option_map (λ e. e.now.name) entry.entry)
        (option_map (λ v. v.now) vertex.entry)) }
{
    match (entry, vertex) {
        (Some(entry), Some(vertex)) => {
            let identifier = identifier_at(game, *vertex);
            add_name(alloc, entry.name.as_bytes(), identifier, callings)
        }
        _ => Ok(()),
    }
}

/// Adds the names of entries, each for its vertex.
fn add_entries(
    alloc: Global,
    game: &GuardedGame,
    entries: &[Entry],
    vertices: &[usize],
    callings: &mut Callings,
) -> Result<(), AllocError>
    ensures { OnOk result (callings.new ≡ callings.old
        ++ entry_callings (vertex_ids game.now.vertices) (earlier_of entries.now) vertices.now
        (length (earlier_of entries.now))) }
{
    for n in 0..entries.len() {
        add_entry(alloc, game, entries.get(n), vertices.get(n), callings)?;
    }
    Ok(())
}

/// Returns the names of the vertices of a game: those that its text gives them, and those of requirements.
fn callings_of(
    alloc: Global,
    game: &GuardedGame,
    names: &VertexNames,
    entries: &[Entry],
    vertices: &[usize],
) -> Result<Callings, AllocError>
    ensures { IfOk result (λ callings. callings
        ≡ callings_of names.now.names (vertex_ids game.now.vertices) (earlier_of entries.now) vertices.now) }
{
    let mut callings = Callings::none(alloc);
    add_names(alloc, game, names, &mut callings)?;
    add_entries(alloc, game, entries, vertices, &mut callings)?;
    Ok(callings)
}

/// The context of a script's lines beside the family: the names that they may give its vertices, the system that its
/// game was made of, if there is one, and the names that end the answers' lines about vertices, none unless asked for.
#[derive(Drop)]
pub struct Context {
    pub callings: Callings,
    pub behaviour: Option<Behaviour>,
    pub labels: VertexNames,
}

impl Context {
    /// Returns a context without names of either kind, and without a system.
    pub fn none(alloc: Global) -> Context
        ensures callings { result.callings ≡ [] }
        ensures behaviour { result.behaviour ≡ None }
        ensures labels { result.labels.names ≡ [] }
    {
        Context {
            callings: Callings::none(alloc),
            behaviour: None,
            labels: VertexNames::none(alloc),
        }
    }
}

/// A family, the names that its game's text gives vertices, and the context of lines.
pub struct Known {
    pub family: Family,
    pub names: VertexNames,
    pub context: Context,
}

// Not derived: a derived `drop` would be proved again at each exit that owns such a value.
impl Drop for Known {
    fn drop(self) {
        let Known {
            family: _,
            names: _,
            context: _,
        } = self;
    }
}

impl Known {
    /// Returns the family of some texts. Refused as `Family::read`.
    pub fn read(alloc: Global, texts: &Texts) -> Result<Known, Fault>
        ensures spelled { IfOk result (λ known. SpellsFamily texts.now.diagram.items texts.now.game.items
            (arc_value known.family.diagram) (arc_value known.family.game)) }
        // Lines call a vertex by the name that the game's text gives it, and that of a requirement by its name.
        ensures called { IfOk result (λ known. AreCallings (arc_value known.family.game) texts.now.game.items
            (earlier_of texts.now.entries.items) texts.now.vertices.items known.context.callings) }
        // The names and the start are those in the game's text.
        ensures names { IfOk result (λ known. TellsNames texts.now.game.items known.names) }
        // No line of an answer ends with a name yet.
        ensures labels { IfOk result (λ known. known.context.labels.names ≡ []) }
        ensures features { IfOk result (λ known.
            (arc_value known.family.game).features ≡ feature_count (arc_value known.family.diagram).lines) }
        // All that the texts spell is read.
        ensures only { IfOk result (λ known. (diagram : NamedDiagram) (game : NamedGame) →
            SpellsFamily texts.now.diagram.items texts.now.game.items diagram game →
            (arc_value known.family.diagram ≡ diagram) × (arc_value known.family.game ≡ game)) }
        ensures refused { IfErr result (IsFamilyFault texts.now.diagram.items texts.now.game.items) }
    {
        let family = match Family::read(alloc, &texts.diagram, &texts.game) {
            Ok(family) => family,
            Err(fault) => return Err(fault),
        };
        let Ok(names) = VertexNames::read(alloc, &texts.game) else {
            return Err(Fault::Memory);
        };
        match callings_of(alloc, &family.game, &names, &texts.entries, &texts.vertices) {
            Ok(callings) => Ok(Known {
                family,
                names,
                context: Context {
                    callings,
                    behaviour: None,
                    labels: VertexNames::none(alloc),
                },
            }),
            Err(_) => Err(Fault::Memory),
        }
    }

    /// Has lines of answers end with the names of their vertices. The names, and with them the start, go to the
    /// context.
    pub fn label(&mut self)
        ensures labels { self.new.context.labels ≡ self.old.names }
        ensures callings { self.new.context.callings ≡ self.old.context.callings }
        ensures behaviour { self.new.context.behaviour ≡ self.old.context.behaviour }
        ensures family { self.new.family ≡ self.old.family }
    {
        mem::swap(&mut self.names, &mut self.context.labels);
    }
}

/// Returns the family of some files, with the names of its vertices. The diagram is read, and refused, before the game,
/// or the files in its place. The fault is that of the texts that come back with it.
pub fn read_known<R: Files + AllocGlobal>(
    rt: &R,
    alloc: Global,
    paths: Paths<'_>,
) -> Result<Known, Unread>
    // All of it is of one reading of the files: the diagram, the game, the names, and the system that the game was made
    // of. A made game is that of the texts of the system and the requirements.
    ensures known { IfOk result (λ known. IsKnown paths.entry.game (form_of paths.entry.diagram.now)
        (arc_value known.family.diagram) (arc_value known.family.game) known.context.callings known.names
        known.context.behaviour) }
    // No line of an answer ends with a name yet.
    ensures labels { IfOk result (λ known. known.context.labels.names ≡ []) }
    ensures features { IfOk result (λ known.
        (arc_value known.family.game).features ≡ feature_count (arc_value known.family.diagram).lines) }
    ensures refused { IfErr result (λ unread. IsUnread unread.texts.diagram.items unread.texts.game.items
        unread.texts.system.items unread.texts.requirements.items unread.fault) }
    // A fault of a model is that of its text.
    ensures file { IfErr result (λ unread. AreOfFileBy unread.fault (form_of paths.entry.diagram.now)
        unread.texts.model.items unread.texts.diagram.items) }
    // It is one of a file that the paths name.
    ensures of_paths { IfErr result (λ unread. IsOfPaths paths.entry.game unread.fault) }
{
    let texts = match read_texts(rt, alloc, paths) {
        Ok(texts) => texts,
        Err(unread) => return Err(unread),
    };
    match Known::read(alloc, &texts) {
        Ok(mut known) => {
            let Texts { behaviour, .. } = texts;
            known.context.behaviour = behaviour;
            Ok(known)
        }
        Err(fault) => Err(Unread { fault, texts }),
    }
}
