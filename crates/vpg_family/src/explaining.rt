//! Lines that say where and why the files of a family, a script over it, or words for its features are refused.
ghost use Rattle.std.specs.Prelude.{◌≡◌, IfOk, length};
ghost use Rattle.vpg_diagram.specs.FeatureDiagram.{feature_count};

use crate::family::read_diagram;
use crate::fault::{Fault, Input};
use crate::files::{GamePaths, ModelPaths, Paths, Texts, read_script};
use std::alloc::{AllocError, Global};
use std::fs;
use std::rt::Files;
use vpg_diagram::{Diagram, DiagramFault};
use vpg_lint::{
    Message, explain_diagram, explain_game, explain_line, explain_parts, explain_requirements,
    explain_system, put_message, put_number, put_place, put_shown, put_text, put_unknown,
};
use vpg_model::ModelFault;
use vpg_models::{Form, diagram_of, explain_model, features_in, form_of};
use vpg_places::{Line, declared_of, line_at, lines_of, place_of};

/// Returns the text of a file within the limit, if it can be read once more. A pipe gives its bytes once.
fn text_of<R: Files + AllocGlobal>(rt: &R, path: &str) -> Option<Vec<u8>> {
    match fs::metadata(rt, path) {
        Ok(it) if it.is_file() => read_script(rt, path).ok(),
        _ => None,
    }
}

/// Appends why a file is not read, or not as a whole.
fn put_unread(path: &str, why: &[u8], out: &mut Vec<u8>) -> Result<(), AllocError> {
    put_text(path.as_bytes(), out)?;
    out.extend_from_slice(why)
}

/// Appends that the file of a game has too many signs, the first of them at a place.
fn put_signs(path: &str, text: &[u8], at: usize, out: &mut Vec<u8>) -> Result<(), AllocError> {
    put_place(path, place_of(text, at.min(text.len())), out)?;
    out.extend_from_slice(
        b"a game has at most 8,388,608 signs `!`, `&` and `|`, and here is one more\n",
    )
}

/// Appends a message on the file of this name, if there was memory for it.
fn put_told(
    path: &str,
    message: Result<Message, AllocError>,
    out: &mut Vec<u8>,
) -> Result<(), AllocError> {
    let message = message?;
    put_message(path, &message, out)
}

/// A diagram's file: its name, the text of the diagram, and that of the feature model that means it, which is empty if
/// the file is a diagram.
#[derive(Clone, Copy)]
struct DiagramTexts<'t> {
    path: &'t str,
    text: &'t [u8],
    model: &'t [u8],
}

/// Returns the texts of a diagram's file.
fn texts_of<'t>(path: &'t str, texts: &'t Texts) -> DiagramTexts<'t> {
    DiagramTexts {
        path,
        text: &texts.diagram,
        model: &texts.model,
    }
}

/// Appends why the text of a diagram is refused. If a feature model means it, its line is quoted.
fn put_diagram(
    alloc: Global,
    file: DiagramTexts<'_>,
    fault: DiagramFault,
    out: &mut Vec<u8>,
) -> Result<(), AllocError> {
    let message = explain_diagram(alloc, file.text, fault)?;
    if matches!(form_of(file.path), Form::Diagram) {
        return put_message(file.path, &message, out);
    }
    put_text(file.path.as_bytes(), out)?;
    out.extend_from_slice(b": line ")?;
    put_number(message.place.line, out)?;
    out.extend_from_slice(b" of the diagram that it means, `")?;
    put_shown(line_at(file.text, message.place.line).bytes, out)?;
    out.extend_from_slice(b"`: ")?;
    out.extend_from_slice(&message.words)
}

/// Returns the words for the limit that a made game exceeds.
fn limit_of(fault: ModelFault) -> &'static [u8] {
    match fault {
        ModelFault::TooManyVertices => b"more than 65,536 vertices",
        ModelFault::TooManyEdges => b"more than 1,048,576 moves",
        ModelFault::TooWide => b"a top measure above 2^62",
        ModelFault::Memory => b"no memory",
    }
}

/// Appends which limit the game of requirements passes.
fn put_limit(path: &str, fault: ModelFault, out: &mut Vec<u8>) -> Result<(), AllocError> {
    put_text(path.as_bytes(), out)?;
    out.extend_from_slice(b": the game of the system and these requirements has ")?;
    out.extend_from_slice(limit_of(fault))?;
    out.extend_from_slice(
        b"\n  hint: a vertex is a state and a part of a requirement; ask fewer requirements at a time\n",
    )
}

/// Returns the place of the root in the text of a feature model that means a diagram.
fn root_in(alloc: Global, file: DiagramTexts<'_>) -> Result<usize, AllocError> {
    let Ok(diagram) = read_diagram(alloc, file.text) else {
        return Ok(0);
    };
    let places = features_in(alloc, form_of(file.path), file.model, diagram.names())?;
    Ok(places.first().copied().flatten().unwrap_or(0))
}

/// Appends that the lines of a diagram contradict each other, which stands at its root.
fn put_conflict(
    alloc: Global,
    file: DiagramTexts<'_>,
    out: &mut Vec<u8>,
) -> Result<(), AllocError> {
    let (text, root) = if matches!(form_of(file.path), Form::Diagram) {
        let declared = declared_of(alloc, file.text)?;
        (file.text, declared.first().map_or(0, |it| it.at))
    } else {
        (file.model, root_in(alloc, file)?)
    };
    put_place(file.path, place_of(text, root.min(text.len())), out)?;
    out.extend_from_slice(b"the diagram has no product: its lines contradict each other\n")
}

/// Appends that a word names no feature of a diagram.
fn put_word(
    alloc: Global,
    diagram: &[u8],
    word: &[u8],
    out: &mut Vec<u8>,
) -> Result<(), AllocError> {
    match read_diagram(alloc, diagram) {
        Ok(diagram) => put_unknown(alloc, diagram.names(), word, out),
        Err(_) => Ok(()),
    }
}

/// Appends the meaning of a fault of a diagram that was read from these texts.
fn put_of_diagram(
    alloc: Global,
    file: DiagramTexts<'_>,
    fault: &Fault,
    out: &mut Vec<u8>,
) -> Result<(), AllocError> {
    match fault {
        Fault::FeatureModel { fault } => {
            put_told(file.path, explain_model(alloc, file.model, *fault), out)
        }
        Fault::Diagram { fault } => put_diagram(alloc, file, *fault, out),
        Fault::Conflict { .. } => put_conflict(alloc, file, out),
        Fault::UnknownFeature { name } => put_word(alloc, file.text, name.as_bytes(), out),
        _ => Ok(()),
    }
}

/// Appends the meaning of a fault of a diagram, if its file can be read once more.
fn put_of_diagram_file<R: Files + AllocGlobal>(
    rt: &R,
    alloc: Global,
    path: &str,
    fault: &Fault,
    out: &mut Vec<u8>,
) -> Result<(), AllocError> {
    let Some(model) = text_of(rt, path) else {
        return Ok(());
    };
    let Ok(text) = diagram_of(alloc, form_of(path), &model) else {
        return Ok(());
    };
    let file = DiagramTexts {
        path,
        text: &text,
        model: &model,
    };
    put_of_diagram(alloc, file, fault, out)
}

/// Appends the meaning of a fault of a game, or of the files in its place, by the texts that were read.
fn put_of_game(
    alloc: Global,
    paths: GamePaths<'_>,
    texts: &Texts,
    fault: &Fault,
    out: &mut Vec<u8>,
) -> Result<(), AllocError> {
    let Ok(diagram) = read_diagram(alloc, &texts.diagram) else {
        return Ok(());
    };
    let names = diagram.names();
    match (paths, fault) {
        (GamePaths::Game(path), Fault::Game { fault }) => {
            put_told(path, explain_game(alloc, &texts.game, names, *fault), out)
        }
        (GamePaths::Game(path), Fault::TooManySigns { at }) => put_signs(
            path,
            &texts.game,
            *at,
            out,
        ),
        (
            GamePaths::Model(ModelPaths { system: path, .. }) | GamePaths::System(path),
            Fault::System { fault },
        ) => put_told(
            path,
            explain_system(alloc, &texts.system, names, *fault),
            out,
        ),
        (GamePaths::Model(files), Fault::Requirements { fault }) => {
            let message = explain_requirements(alloc, &texts.requirements, *fault);
            put_told(files.requirements, message, out)
        }
        (GamePaths::Model(files), Fault::TooManyParts { name }) => {
            let message = explain_parts(alloc, &texts.requirements, name);
            put_told(files.requirements, message, out)
        }
        (GamePaths::Model(files), Fault::Model { fault }) => {
            put_limit(files.requirements, *fault, out)
        }
        _ => Ok(()),
    }
}

/// Returns the path of a file, if there is one.
fn path_of<'a>(paths: Paths<'a>, script: Option<&'a str>, input: Input) -> Option<&'a str> {
    match (input, paths.game) {
        (Input::Diagram, _) => Some(paths.diagram),
        (Input::Script, _) => script,
        (Input::Game, GamePaths::Game(path)) => Some(path),
        (Input::System, GamePaths::Model(files)) => Some(files.system),
        (Input::System, GamePaths::System(path)) => Some(path),
        (Input::Requirements, GamePaths::Model(files)) => Some(files.requirements),
        _ => None,
    }
}

/// Returns the file that is not read, or not as a whole, if this is the fault, and why.
fn unread_input(fault: &Fault) -> Option<(Input, &'static [u8])> {
    let input = match fault {
        Fault::DiagramUnreadable => Input::Diagram,
        Fault::ScriptUnreadable => Input::Script,
        Fault::GameUnreadable => Input::Game,
        Fault::SystemUnreadable => Input::System,
        Fault::RequirementsUnreadable => Input::Requirements,
        Fault::TooLarge { input } => return Some((
            *input,
            b": it has more than 268,435,456 bytes\n",
        )),
        _ => return None,
    };
    Some((input, b": there is no such file, or it cannot be read\n"))
}

/// Appends why a line of a script is no command, if its file can be read once more.
fn put_of_script<R: Files + AllocGlobal>(
    rt: &R,
    alloc: Global,
    path: &str,
    number: usize,
    out: &mut Vec<u8>,
) -> Result<(), AllocError> {
    match text_of(rt, path) {
        Some(text) => {
            let line = line_at(&text, number).bytes;
            put_told(path, explain_line(alloc, number, line), out)
        }
        None => Ok(()),
    }
}

/// Appends the meaning of a fault: of texts that were read, or of a file that is read once more.
fn put_explained<R: Files + AllocGlobal>(
    rt: &R,
    alloc: Global,
    paths: Paths<'_>,
    texts: &Texts,
    script: Option<&str>,
    fault: &Fault,
    out: &mut Vec<u8>,
) -> Result<(), AllocError> {
    match (fault, script) {
        (Fault::Line { line, .. }, Some(path)) => put_of_script(
            rt,
            alloc,
            path,
            *line as usize,
            out,
        ),
        (Fault::Conflict { .. } | Fault::UnknownFeature { .. }, _) if texts.diagram.is_empty() =>
            put_of_diagram_file(rt, alloc, paths.diagram, fault, out),
        (
            Fault::FeatureModel { .. }
            | Fault::Diagram { .. }
            | Fault::Conflict { .. }
            | Fault::UnknownFeature { .. },
            _,
        ) => put_of_diagram(alloc, texts_of(paths.diagram, texts), fault, out),
        _ => put_of_game(alloc, paths.game, texts, fault, out),
    }
}

/// Returns for each feature of a diagram whether it is among these.
fn set_of(alloc: Global, diagram: &Diagram, features: &[&str]) -> Result<Vec<bool>, AllocError>
    ensures { IfOk result (λ set. length set.items ≡ feature_count diagram.now.lines) }
{
    let names = diagram.names();
    let count = diagram.features();
    let mut set = vec![in alloc; false; count]?;
    for feature in features {
        if let Some(f) = names.get(feature.as_bytes()) {
            if let Some(is_in) = set.get_mut(f as usize) {
                *is_in = true;
            }
        }
    }
    Ok(set)
}

/// Whether the features are a product of the diagram that these lines are. Lines without a root are none.
fn meet(alloc: Global, lines: &[u8], features: &[&str]) -> Result<bool, AllocError> {
    let Ok(diagram) = read_diagram(alloc, lines) else {
        return Ok(true);
    };
    let set = set_of(alloc, &diagram, features)?;
    Ok(diagram.is_product(&set))
}

/// Returns the first line of a diagram that these features do not meet, if there is one. A feature's parent is named
/// before the feature, so the lines up to each line are a diagram.
fn unmet_line<'t>(
    alloc: Global,
    text: &'t [u8],
    features: &[&str],
) -> Result<Option<Line<'t>>, AllocError> {
    let lines = lines_of(alloc, text)?;
    let mut met = 0usize;
    let mut behind = lines.len();
    // A text has less than 2^32 lines.
    for _ in 0..32 {
        let middle = met.saturating_add(behind.saturating_sub(met) / 2);
        if let (Some(line), true) = (lines.get(middle), met < behind) {
            let end = line.from.saturating_add(line.bytes.len());
            if meet(alloc, text.get(..end).unwrap_or(text), features)? {
                met = middle.saturating_add(1);
            } else {
                behind = middle;
            }
        }
    }
    Ok(lines.get(met).copied())
}

/// Returns lines that say which line of a diagram's text these features do not meet, the first one.
pub fn explained_set(
    alloc: Global,
    path: &str,
    text: &[u8],
    features: &[&str],
) -> Result<Vec<u8>, AllocError> {
    let mut told = Vec::new(alloc);
    if let Some(line) = unmet_line(alloc, text, features)? {
        put_place(path, line.place(0), &mut told)?;
        told.extend_from_slice(b"these features do not meet `")?;
        put_shown(line.bytes, &mut told)?;
        told.extend_from_slice(b"`\n")?;
    }
    Ok(told)
}

/// Returns lines that say where and why a file of a family, a line of a script over it, or a word for one of its
/// features is refused: `FILE:LINE:COLUMN: ..`, and hints. There are none for other faults. `texts` are those that were
/// read of the family's files. A script is read once more, if it is a regular file, and so is the diagram if there is
/// no text of it.
pub fn explained<R: Files + AllocGlobal>(
    rt: &R,
    alloc: Global,
    paths: Paths<'_>,
    texts: &Texts,
    script: Option<&str>,
    fault: &Fault,
) -> Result<Vec<u8>, AllocError> {
    let mut lines = Vec::new(alloc);
    if let Some((input, why)) = unread_input(fault) {
        if let Some(path) = path_of(paths, script, input) {
            put_unread(path, why, &mut lines)?;
        }
        return Ok(lines);
    }
    put_explained(rt, alloc, paths, texts, script, fault, &mut lines)?;
    Ok(lines)
}

/// Returns lines that say where and why the file of a diagram is refused, by the texts that were read of it.
pub fn explained_diagram(
    alloc: Global,
    path: &str,
    texts: &Texts,
    fault: &Fault,
) -> Result<Vec<u8>, AllocError> {
    let mut lines = Vec::new(alloc);
    match unread_input(fault) {
        Some((_, why)) => put_unread(path, why, &mut lines)?,
        None => put_of_diagram(alloc, texts_of(path, texts), fault, &mut lines)?,
    }
    Ok(lines)
}
