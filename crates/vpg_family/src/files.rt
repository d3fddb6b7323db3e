//! The files that the words name.
ghost use Rattle.std.specs.IoError.{error_kind};
ghost use Rattle.std.specs.Prelude.{◌≡◌, ◌⊎◌, [], None, Ok, Err, IfOk, IfErr, MatchResult};
ghost use Rattle.vpg_diagram.specs.DiagramText.{IsTextOf};
ghost use Rattle.vpg_formula.specs.EntryCode.{earlier_of};
ghost use Rattle.vpg_family.specs.Limits.{IsWithin, IsWithinBoth, IsGameWithin, AreWithin};
ghost use Rattle.vpg_family.specs.Made.{AreTextsOf, IsModelText};
ghost use Rattle.vpg_family.specs.Families.{IsUnread, IsOfGame, IsOfModel, IsOfSystem, IsOfPaths, IsSomeDiagram};
ghost use Rattle.vpg_family.specs.Sources.{AreOfFile, AreOfFileBy, IsLater};
ghost use Rattle.vpg_models.specs.Forms.{form_of};

use crate::fault::{Fault, Input};
use crate::limits::{MOST_BYTES, is_within, over_limit};
use crate::modelling::{Modelled, model_of};
use crate::sources::{DiagramFile, read_diagram_file};
use std::alloc::Global;
use std::fs::File;
use std::io::{Error, ErrorKind, Read};
use std::rt::Files;
use vpg_checking::Behaviour;
use vpg_diagram::Diagram;
use vpg_formula::Entry;

/// The files that stand in place of a game.
#[derive(Clone, Copy)]
pub struct ModelPaths<'a> {
    pub system: &'a str,
    pub requirements: &'a str,
}

/// The files of a family's game.
#[derive(Clone, Copy)]
pub enum GamePaths<'a> {
    /// The game has a file.
    Game(&'a str),
    /// There is none, only a system that is drawn.
    Model(ModelPaths<'a>),
    /// There is none, but a system that is drawn.
    System(&'a str),
}

/// The files of a product family.
#[derive(Clone, Copy)]
pub struct Paths<'a> {
    pub game: GamePaths<'a>,
    pub diagram: &'a str,
}

/// Returns the fault for an error: out of memory stays `Memory`, each other failure is this fault.
fn unreadable(error: Error, fault: Fault) -> Fault
    ensures memory { error_kind error ≡ ErrorKind.OutOfMemory → result ≡ Fault.Memory }
    ensures other { ¬ (error_kind error ≡ ErrorKind.OutOfMemory) → result ≡ fault }
    ensures one { (result ≡ Fault.Memory) ⊎ (result ≡ fault) }
{
    match error.kind() {
        ErrorKind::OutOfMemory => Fault::Memory,
        _ => fault,
    }
}

/// Returns the bytes of a file, at most one more than the limit.
fn bytes_of<R: Files + AllocGlobal>(rt: &R, path: &str) -> Result<Vec<u8>, Error> {
    let file = File::open(rt, path)?;
    let mut bytes = Vec::new(rt.alloc());
    file.take(MOST_BYTES as u64 + 1).read_to_end(&mut bytes)?;
    Ok(bytes)
}

/// Returns the text of a file, at most one byte more than the limit, or the fault if it cannot be read.
pub(crate) fn read_file<R: Files + AllocGlobal>(
    rt: &R,
    path: &str,
    fault: Fault,
) -> Result<Vec<u8>, Fault>
    ensures refused { IfErr result (λ told. (told ≡ Fault.Memory) ⊎ (told ≡ fault)) }
{
    match bytes_of(rt, path) {
        Ok(text) => Ok(text),
        Err(error) => Err(unreadable(error, fault)),
    }
}

/// The texts of a family.
#[derive(Drop)]
pub struct Texts {
    pub diagram: Vec<u8>,
    /// The text of the feature model that means the diagram. It is empty if the file is a diagram.
    pub model: Vec<u8>,
    pub game: Vec<u8>,
    /// The requirements that the game is made for. There are none if it has a file.
    pub entries: Vec<Entry>,
    /// The vertex of each of them.
    pub vertices: Vec<usize>,
    /// The text of the system. It is empty if the game has a file.
    pub system: Vec<u8>,
    /// The text of the requirements. It is empty if the game has a file.
    pub requirements: Vec<u8>,
    /// The system that the game was made of. It is nothing if the game has a file.
    pub behaviour: Option<Behaviour>,
}

impl Texts {
    /// Returns the texts of no file: each is empty.
    pub fn none(alloc: Global) -> Texts {
        Texts {
            diagram: Vec::new(alloc),
            model: Vec::new(alloc),
            game: Vec::new(alloc),
            entries: Vec::new(alloc),
            vertices: Vec::new(alloc),
            system: Vec::new(alloc),
            requirements: Vec::new(alloc),
            behaviour: None,
        }
    }
}

/// A family that is not read: why, and its texts so far. A text is empty if it was not read.
#[derive(Drop)]
pub struct Unread {
    pub fault: Fault,
    pub texts: Texts,
}

/// Returns the fault of texts before there is a game, beside them.
fn not_read(
    alloc: Global,
    fault: Fault,
    diagram: Vec<u8>,
    game: Vec<u8>,
    system: Vec<u8>,
    requirements: Vec<u8>,
) -> Unread
    requires { IsUnread diagram.items game.items system.items requirements.items fault }
    ensures unread { IsUnread result.texts.diagram.items result.texts.game.items result.texts.system.items
        result.texts.requirements.items result.fault }
    ensures fault { result.fault ≡ fault }
    ensures text { result.texts.diagram.items ≡ diagram.items }
    ensures system { result.texts.system.items ≡ system.items }
    ensures requirements { result.texts.requirements.items ≡ requirements.items }
{
    Unread {
        fault,
        texts: Texts {
            diagram,
            model: Vec::new(alloc),
            game,
            entries: Vec::new(alloc),
            vertices: Vec::new(alloc),
            system,
            requirements,
            behaviour: None,
        },
    }
}

/// Returns the fault of a diagram's file, beside its text.
pub(crate) fn no_diagram(alloc: Global, fault: Fault, text: Vec<u8>) -> Unread
    requires { IsUnread text.items [] [] [] fault }
    ensures unread { IsUnread result.texts.diagram.items result.texts.game.items result.texts.system.items
        result.texts.requirements.items result.fault }
    ensures fault { result.fault ≡ fault }
    ensures text { result.texts.diagram.items ≡ text.items }
{
    not_read(
        alloc,
        fault,
        text,
        Vec::new(alloc),
        Vec::new(alloc),
        Vec::new(alloc),
    )
}

/// Returns the fault of a system or of its requirements, beside their texts and that of the diagram.
fn no_model(
    alloc: Global,
    fault: Fault,
    diagram: Vec<u8>,
    system: Vec<u8>,
    requirements: Vec<u8>,
) -> Unread
    requires { IsUnread diagram.items [] system.items requirements.items fault }
    ensures unread { IsUnread result.texts.diagram.items result.texts.game.items result.texts.system.items
        result.texts.requirements.items result.fault }
    ensures fault { result.fault ≡ fault }
    ensures text { result.texts.diagram.items ≡ diagram.items }
    ensures system { result.texts.system.items ≡ system.items }
    ensures requirements { result.texts.requirements.items ≡ requirements.items }
{
    not_read(alloc, fault, diagram, Vec::new(alloc), system, requirements)
}

/// Returns the text of a diagram, and that of a game's file.
fn game_texts<R: Files + AllocGlobal>(
    rt: &R,
    alloc: Global,
    diagram: Vec<u8>,
    path: &str,
) -> Result<Texts, Unread>
    requires diagram { IsSomeDiagram diagram.items }
    requires within { IsWithin diagram.items }
    ensures none { IfOk result (λ texts. (texts.system.items ≡ []) × (texts.requirements.items ≡ []) ×
        (earlier_of texts.entries.items ≡ []) × (texts.vertices.items ≡ []) × (texts.behaviour ≡ None)) }
    ensures within { IfOk result (λ texts. AreWithin texts.diagram.items texts.system.items texts.requirements.items) }
    ensures game { IfOk result (λ texts. IsWithinBoth texts.game.items) }
    ensures refused { IfErr result (λ unread. IsUnread unread.texts.diagram.items unread.texts.game.items
        unread.texts.system.items unread.texts.requirements.items unread.fault) }
    ensures of_game { IfErr result (λ unread. IsOfGame unread.fault) }
    ensures later { IfErr result (λ unread. IsLater unread.fault) }
    ensures text { MatchResult result (λ texts. texts.diagram.items ≡ diagram.items)
        (λ unread. unread.texts.diagram.items ≡ diagram.items) }
{
    let game = match read_file(rt, path, Fault::GameUnreadable) {
        Ok(game) => game,
        Err(fault) => return Err(no_diagram(alloc, fault, diagram)),
    };
    if let Some(fault) = over_limit(&game) {
        let none = Vec::new(alloc);
        return Err(not_read(alloc, fault, diagram, game, none, Vec::new(alloc)));
    }
    Ok(Texts {
        diagram,
        model: Vec::new(alloc),
        game,
        entries: Vec::new(alloc),
        vertices: Vec::new(alloc),
        system: Vec::new(alloc),
        requirements: Vec::new(alloc),
        behaviour: None,
    })
}

/// Returns the text of a diagram, and that of a system's file. There is no game.
fn system_texts<R: Files + AllocGlobal>(
    rt: &R,
    alloc: Global,
    diagram: Vec<u8>,
    path: &str,
) -> Result<Texts, Unread>
    requires diagram { IsSomeDiagram diagram.items }
    requires within { IsWithin diagram.items }
    ensures none { IfOk result (λ texts. (texts.requirements.items ≡ []) × (texts.game.items ≡ []) ×
        (earlier_of texts.entries.items ≡ []) × (texts.vertices.items ≡ []) × (texts.behaviour ≡ None)) }
    ensures within { IfOk result (λ texts. AreWithin texts.diagram.items texts.system.items texts.requirements.items) }
    ensures refused { IfErr result (λ unread. IsUnread unread.texts.diagram.items unread.texts.game.items
        unread.texts.system.items unread.texts.requirements.items unread.fault) }
    ensures of_system { IfErr result (λ unread. IsOfSystem unread.fault) }
    ensures later { IfErr result (λ unread. IsLater unread.fault) }
    ensures text { MatchResult result (λ texts. texts.diagram.items ≡ diagram.items)
        (λ unread. unread.texts.diagram.items ≡ diagram.items) }
{
    let system = match read_file(rt, path, Fault::SystemUnreadable) {
        Ok(system) => system,
        Err(fault) => return Err(no_diagram(alloc, fault, diagram)),
    };
    if !is_within(&system) {
        let fault = Fault::TooLarge {
            input: Input::System,
        };
        return Err(no_model(alloc, fault, diagram, system, Vec::new(alloc)));
    }
    Ok(Texts {
        diagram,
        model: Vec::new(alloc),
        game: Vec::new(alloc),
        entries: Vec::new(alloc),
        vertices: Vec::new(alloc),
        system,
        requirements: Vec::new(alloc),
        behaviour: None,
    })
}

/// Returns the text of a diagram, and that of the game of a system and its requirements over it, by the texts of these.
fn made_texts(
    alloc: Global,
    text: Vec<u8>,
    diagram: &Diagram,
    system: Vec<u8>,
    requirements: Vec<u8>,
) -> Result<Texts, Unread>
    requires diagram { IsTextOf text.items diagram.now }
    requires within { AreWithin text.items system.items requirements.items }
    ensures model { IfOk result (λ texts. IsModelText texts.diagram.items texts.system.items texts.requirements.items
        texts.game.items (earlier_of texts.entries.items) texts.vertices.items texts.behaviour) }
    // The texts that were handed in come back.
    ensures system { MatchResult result (λ texts. texts.system.items ≡ system.items)
        (λ unread. unread.texts.system.items ≡ system.items) }
    ensures requirements { MatchResult result (λ texts. texts.requirements.items ≡ requirements.items)
        (λ unread. unread.texts.requirements.items ≡ requirements.items) }
    ensures within { IfOk result (λ texts. AreWithin texts.diagram.items texts.system.items texts.requirements.items) }
    ensures refused { IfErr result (λ unread. IsUnread unread.texts.diagram.items unread.texts.game.items
        unread.texts.system.items unread.texts.requirements.items unread.fault) }
    ensures of_model { IfErr result (λ unread. IsOfModel unread.fault) }
    ensures later { IfErr result (λ unread. IsLater unread.fault) }
    ensures text { MatchResult result (λ texts. texts.diagram.items ≡ text.items)
        (λ unread. unread.texts.diagram.items ≡ text.items) }
{
    match model_of(alloc, diagram, &system, &requirements) {
        Ok(
            Modelled {
                game,
                entries,
                vertices,
                behaviour,
            },
        ) => Ok(Texts {
            diagram: text,
            model: Vec::new(alloc),
            game,
            entries,
            vertices,
            system,
            requirements,
            behaviour: Some(behaviour),
        }),
        Err(fault) => Err(no_model(alloc, fault, text, system, requirements)),
    }
}

/// Returns the texts of a diagram and of a made game by their files. Both are opened before either is refused.
fn model_texts<R: Files + AllocGlobal>(
    rt: &R,
    alloc: Global,
    text: Vec<u8>,
    diagram: &Diagram,
    files: ModelPaths<'_>,
) -> Result<Texts, Unread>
    requires diagram { IsTextOf text.items diagram.now }
    requires within { IsWithin text.items }
    ensures model { IfOk result (λ texts. IsModelText texts.diagram.items texts.system.items texts.requirements.items
        texts.game.items (earlier_of texts.entries.items) texts.vertices.items texts.behaviour) }
    ensures within { IfOk result (λ texts. AreWithin texts.diagram.items texts.system.items texts.requirements.items) }
    ensures refused { IfErr result (λ unread. IsUnread unread.texts.diagram.items unread.texts.game.items
        unread.texts.system.items unread.texts.requirements.items unread.fault) }
    ensures of_model { IfErr result (λ unread. IsOfModel unread.fault) }
    ensures later { IfErr result (λ unread. IsLater unread.fault) }
    ensures text { MatchResult result (λ texts. texts.diagram.items ≡ text.items)
        (λ unread. unread.texts.diagram.items ≡ text.items) }
{
    let system = match read_file(rt, files.system, Fault::SystemUnreadable) {
        Ok(system) => system,
        Err(fault) => return Err(no_diagram(alloc, fault, text)),
    };
    if !is_within(&system) {
        let fault = Fault::TooLarge {
            input: Input::System,
        };
        return Err(no_model(alloc, fault, text, system, Vec::new(alloc)));
    }
    let requirements = match read_file(rt, files.requirements, Fault::RequirementsUnreadable) {
        Ok(requirements) => requirements,
        Err(fault) => return Err(no_model(alloc, fault, text, system, Vec::new(alloc))),
    };
    if !is_within(&requirements) {
        let input = Input::Requirements;
        return Err(no_model(alloc, Fault::TooLarge { input }, text, system, requirements));
    }
    made_texts(alloc, text, diagram, system, requirements)
}

/// Returns the texts of a family, or why there is none, with the text of the feature model that means its diagram.
fn with_model(read: Result<Texts, Unread>, model: Vec<u8>) -> Result<Texts, Unread>
    ensures { MatchResult read (λ texts. result ≡ Ok (record texts { model = model }))
        (λ unread. result ≡ Err (record unread { texts = record unread.texts { model = model } })) }
{
    match read {
        Ok(mut texts) => {
            texts.model = model;
            Ok(texts)
        }
        Err(mut unread) => {
            unread.texts.model = model;
            Err(unread)
        }
    }
}

/// Returns the texts of a family's files. That of the diagram is read, and refused, before any other is. It may be a
/// feature model, which means a diagram: the end of its name says so. If a system and its requirements stand in
/// place of the game, it is made: they are read, and then the system is refused before the requirements are. A file of
/// more than 268,435,456 bytes is refused as one that cannot be read is, and so is that of a game with more than
/// 8,388,608 signs `!`, `&` and `|`. The fault is that of the texts that come back with it.
pub fn read_texts<R: Files + AllocGlobal>(
    rt: &R,
    alloc: Global,
    paths: Paths<'_>,
) -> Result<Texts, Unread>
    // If the file of the diagram has a feature model, its text means that of the diagram.
    ensures meant { IfOk result (λ texts.
        AreOfFile (form_of paths.entry.diagram.now) texts.model.items texts.diagram.items) }
    // A game that is made is the model-checking game of the texts of the system and the requirements that were read.
    ensures model { IfOk result (λ texts. AreTextsOf paths.entry.game texts.diagram.items texts.system.items
        texts.requirements.items texts.game.items (earlier_of texts.entries.items) texts.vertices.items
        texts.behaviour) }
    // Each file that was read is within the limits.
    ensures within { IfOk result (λ texts. AreWithin texts.diagram.items texts.system.items texts.requirements.items) }
    ensures game { IfOk result (λ texts. IsGameWithin paths.entry.game texts.game.items) }
    ensures refused { IfErr result (λ unread. IsUnread unread.texts.diagram.items unread.texts.game.items
        unread.texts.system.items unread.texts.requirements.items unread.fault) }
    // A fault of a model is that of its text.
    ensures file { IfErr result (λ unread. AreOfFileBy unread.fault (form_of paths.entry.diagram.now)
        unread.texts.model.items unread.texts.diagram.items) }
    // It is one of a file that the paths name.
    ensures of_paths { IfErr result (λ unread. IsOfPaths paths.entry.game unread.fault) }
{
    let DiagramFile {
        model,
        text,
        diagram,
    } = match read_diagram_file(rt, alloc, paths.diagram) {
        Ok(file) => file,
        Err(refused) => return Err(refused),
    };
    let read = match paths.game {
        GamePaths::Game(path) => game_texts(rt, alloc, text, path),
        GamePaths::Model(files) => model_texts(rt, alloc, text, &diagram, files),
        GamePaths::System(path) => system_texts(rt, alloc, text, path),
    };
    with_model(read, model)
}

/// Returns the fault of a script that cannot be opened, or read as a whole.
fn no_script(error: Error) -> Fault
    ensures memory { error_kind error ≡ ErrorKind.OutOfMemory → result ≡ Fault.Memory }
    ensures other { ¬ (error_kind error ≡ ErrorKind.OutOfMemory) → result ≡ Fault.ScriptUnreadable }
    ensures one { (result ≡ Fault.Memory) ⊎ (result ≡ Fault.ScriptUnreadable) }
{
    unreadable(error, Fault::ScriptUnreadable)
}

/// Returns a script that is to be read.
pub fn open_script<R: Files>(rt: &R, path: &str) -> Result<R::File, Fault>
    ensures refused { IfErr result (λ fault. (fault ≡ Fault.Memory) ⊎ (fault ≡ Fault.ScriptUnreadable)) }
{
    match File::open(rt, path) {
        Ok(file) => Ok(file),
        Err(error) => Err(no_script(error)),
    }
}

/// Returns the text of a script that is read as a whole, of at most 268,435,456 bytes.
pub fn read_script<R: Files + AllocGlobal>(rt: &R, path: &str) -> Result<Vec<u8>, Fault>
    ensures within { IfOk result (λ text. IsWithin text.items) }
    ensures refused { IfErr result (λ fault. (fault ≡ Fault.Memory) ⊎
        ((fault ≡ Fault.ScriptUnreadable) ⊎ (fault ≡ Fault.TooLarge Input.Script))) }
{
    let text = read_file(rt, path, Fault::ScriptUnreadable)?;
    if !is_within(&text) {
        return Err(Fault::TooLarge {
            input: Input::Script,
        });
    }
    Ok(text)
}
