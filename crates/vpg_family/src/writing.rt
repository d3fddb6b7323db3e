//! The text of warnings.
ghost use Rattle.std.specs.Prelude.{◌≡◌, ◌≤◌, length};
ghost use Rattle.vpg_diagram.specs.FeatureDiagram.{feature_count};

use crate::features::{named_in_game, named_in_system, warnings_of_diagram};
use crate::moves::warnings_of_game;
use crate::system_warnings::{warnings_of_requirements, warnings_of_system};
use crate::warnings::{Sort, Warning, Warnings};
use std::alloc::{AllocError, Global};
use vpg_diagram::Diagram;
use vpg_features::Names;
use vpg_game::{GuardedGame, VertexNames};
use vpg_lint::{nearest_of, put_number, put_place, put_shown, put_text};
use vpg_models::Form;
use vpg_places::place_of;
use vpg_sides::Player;
use vpg_system::System;

/// The number of warnings of each sort that are written with their places.
const MOST_TOLD: usize = 10;

/// The sorts, in the order in which they are written, and the words for the warnings of each.
const SORTS: [(Sort, &[u8]); 12] = [
    (Sort::NoProduct, b"diagrams without a product"),
    (Sort::NoneFound, b"diagrams that may have no product"),
    (Sort::Dead, b"features that are in no product"),
    (Sort::Unnamed, b"features that no guard names"),
    (Sort::Attributes, b"attributes that are read over"),
    (Sort::Stuck, b"vertices without moves"),
    (Sort::NoStart, b"starts that are no vertices"),
    (
        Sort::Unreached,
        b"vertices that cannot be reached from the start",
    ),
    (
        Sort::NoPath,
        b"states that cannot be reached from the first state",
    ),
    (Sort::Unmet, b"guards that are true in no product"),
    (Sort::Unasked, b"actions that no requirement names"),
    (Sort::NoAction, b"actions that no transition has"),
];

/// Appends what is wrong with a feature.
fn put_feature(names: &Names, f: u32, what: &[u8], out: &mut Vec<u8>) -> Result<(), AllocError> {
    if f as usize >= names.len() {
        return Ok(());
    }
    out.extend_from_slice(b"`")?;
    put_shown(names.name(f as u16).as_bytes(), out)?;
    out.extend_from_slice(b"` ")?;
    out.extend_from_slice(what)
}

/// Appends a name in quotes, if there is one.
fn put_name(name: &[u8], out: &mut Vec<u8>) -> Result<(), AllocError> {
    if name.is_empty() {
        return Ok(());
    }
    out.extend_from_slice(b" \"")?;
    put_shown(name, out)?;
    out.extend_from_slice(b"\"")
}

/// Appends what is wrong with a vertex.
fn put_vertex(
    game: &GuardedGame,
    names: &VertexNames,
    v: u32,
    what: &[u8],
    out: &mut Vec<u8>,
) -> Result<(), AllocError> {
    if v as usize >= game.vertices() {
        return Ok(());
    }
    out.extend_from_slice(b"vertex ")?;
    put_number(game.id(v) as usize, out)?;
    put_name(names.name(v), out)?;
    out.extend_from_slice(b" ")?;
    out.extend_from_slice(what)
}

/// Returns the player who loses at a vertex without moves.
fn loss_of(game: &GuardedGame, v: u32) -> &'static [u8] {
    if v as usize >= game.vertices() {
        return b"has no moves";
    }
    match game.owner(v) {
        Player::Even => b"has no moves: Even, who owns it, loses there",
        Player::Odd => b"has no moves: Odd, who owns it, loses there",
    }
}

/// Appends what is wrong with a state.
fn put_state(s: u32, out: &mut Vec<u8>) -> Result<(), AllocError> {
    out.extend_from_slice(b"state ")?;
    put_number(s as usize, out)?;
    out.extend_from_slice(b" cannot be reached from the first state")
}

/// Appends what is wrong with an action.
fn put_action(system: &System, action: u32, out: &mut Vec<u8>) -> Result<(), AllocError> {
    if action as usize >= system.actions() {
        return Ok(());
    }
    out.extend_from_slice(b"`")?;
    put_shown(system.action_name(action as usize), out)?;
    out.extend_from_slice(b"` is named by no requirement")
}

/// Returns the names of a system's actions.
fn names_of_actions(alloc: Global, system: &System) -> Result<Vec<&[u8]>, AllocError> {
    let mut names = Vec::new(alloc);
    for action in 0..system.actions() {
        names.push(system.action_name(action))?;
    }
    Ok(names)
}

/// Returns the name that a word spells: the word without its quotes, if it stands in quotes.
fn unquoted(word: &[u8]) -> &[u8] {
    match word {
        [b'"', inside @ .., b'"'] => inside,
        _ => word,
    }
}

/// Appends what is wrong with a word that names no action, and the action that was perhaps meant.
fn put_unknown(
    alloc: Global,
    system: &System,
    word: &[u8],
    out: &mut Vec<u8>,
) -> Result<(), AllocError> {
    let names = names_of_actions(alloc, system)?;
    let word = unquoted(word);
    out.extend_from_slice(b"`")?;
    put_shown(word, out)?;
    out.extend_from_slice(b"` is the action of no transition")?;
    match nearest_of(alloc, &names, word)? {
        Some(other) => {
            out.extend_from_slice(b"; is `")?;
            put_shown(other, out)?;
            out.extend_from_slice(b"` meant?")
        }
        None => Ok(()),
    }
}

/// Returns the word of this length at an offset of a text.
fn word_at(text: &[u8], at: usize, len: u32) -> &[u8] {
    text.get(at..at.saturating_add(len as usize)).unwrap_or(&[])
}

/// A text, and the name of its file.
#[derive(Clone, Copy)]
pub struct File<'t> {
    pub name: &'t str,
    pub text: &'t [u8],
}

/// The file of a diagram, its form, and the text of the diagram that it means.
#[derive(Clone, Copy)]
pub struct DiagramSource<'t> {
    pub file: File<'t>,
    pub form: Form,
    pub meant: &'t [u8],
}

/// A game, and the names of its vertices.
#[derive(Clone, Copy)]
struct Named<'f> {
    game: &'f GuardedGame,
    names: &'f VertexNames,
}

/// The subjects of warnings, beside the features of a diagram.
#[derive(Clone, Copy)]
enum Guarded<'f> {
    Game(Named<'f>),
    System(&'f System),
}

/// The subjects of warnings: features, and the vertices of a game, or the states and actions of a system.
#[derive(Clone, Copy)]
struct About<'f> {
    alloc: Global,
    features: &'f Names,
    guarded: Guarded<'f>,
}

/// Appends the message of a warning of a diagram.
fn put_of_feature(features: &Names, warning: Warning, out: &mut Vec<u8>) -> Result<(), AllocError> {
    let index = warning.index;
    match warning.sort {
        Sort::NoProduct => out.extend_from_slice(
            b"the diagram has no product: its lines contradict each other",
        ),
        Sort::NoneFound => out.extend_from_slice(
            b"the diagram may have no product: none was found",
        ),
        Sort::Dead => put_feature(features, index, b"is in no product", out),
        Sort::Unnamed => put_feature(features, index, b"is named by no guard", out),
        Sort::Attributes => out.extend_from_slice(b"these attributes are read over"),
        _ => Ok(()),
    }
}

/// Appends the message of a warning of a game.
fn put_of_vertex(named: Named<'_>, warning: Warning, out: &mut Vec<u8>) -> Result<(), AllocError> {
    let (game, names, index) = (named.game, named.names, warning.index);
    match warning.sort {
        Sort::Stuck => put_vertex(game, names, index, loss_of(game, index), out),
        Sort::NoStart => out.extend_from_slice(b"no entry has the identifier of this start"),
        Sort::Unreached => {
            put_vertex(game, names, index, b"cannot be reached from the start", out)
        }
        _ => Ok(()),
    }
}

/// Appends the message of a warning of a system, or of requirements with this text.
fn put_of_system(
    alloc: Global,
    system: &System,
    text: &[u8],
    warning: Warning,
    out: &mut Vec<u8>,
) -> Result<(), AllocError> {
    let index = warning.index;
    match warning.sort {
        Sort::NoPath => put_state(index, out),
        Sort::Unmet => out.extend_from_slice(b"this guard is true in no product"),
        Sort::Unasked => put_action(system, index, out),
        Sort::NoAction => put_unknown(alloc, system, word_at(text, warning.at, index), out),
        _ => Ok(()),
    }
}

/// Appends the message of a warning of a text.
fn put_said(
    text: &[u8],
    about: &About<'_>,
    warning: Warning,
    out: &mut Vec<u8>,
) -> Result<(), AllocError> {
    if matches!(
        warning.sort,
        Sort::NoProduct | Sort::NoneFound | Sort::Dead | Sort::Unnamed | Sort::Attributes
    ) {
        return put_of_feature(about.features, warning, out);
    }
    match about.guarded {
        Guarded::Game(named) => put_of_vertex(named, warning, out),
        Guarded::System(system) => put_of_system(about.alloc, system, text, warning, out),
    }
}

/// Appends a warning.
fn put_warning(
    file: File<'_>,
    about: &About<'_>,
    warning: Warning,
    out: &mut Vec<u8>,
) -> Result<(), AllocError>
    requires { warning.at ≤ length file.text.now }
{
    put_place(file.name, place_of(file.text, warning.at), out)?;
    out.extend_from_slice(b"warning: ")?;
    put_said(file.text, about, warning, out)?;
    out.extend_from_slice(b"\n")
}

/// Appends how many more there are of a sort, which is called so.
fn put_more(name: &str, more: usize, called: &[u8], out: &mut Vec<u8>) -> Result<(), AllocError> {
    put_text(name.as_bytes(), out)?;
    out.extend_from_slice(b": warning: ")?;
    out.extend_from_slice(called)?;
    out.extend_from_slice(b": ")?;
    put_number(more, out)?;
    out.extend_from_slice(b" more\n")
}

/// Appends the warnings of a sort, which are called so.
fn put_sort(
    file: File<'_>,
    about: &About<'_>,
    warnings: &Warnings,
    sort: Sort,
    called: &[u8],
    out: &mut Vec<u8>,
) -> Result<(), AllocError>
    requires { warnings.now.length ≤ length file.text.now }
{
    let mut of_sort = 0usize;
    for warning in &warnings.list {
        if warning.sort == sort {
            if of_sort < MOST_TOLD {
                put_warning(file, about, *warning, out)?;
            }
            of_sort = of_sort.saturating_add(1);
        }
    }
    if of_sort > MOST_TOLD {
        put_more(file.name, of_sort - MOST_TOLD, called, out)?;
    }
    Ok(())
}

/// Appends a line for each warning of a text.
fn put_warnings(
    file: File<'_>,
    about: &About<'_>,
    warnings: &Warnings,
    out: &mut Vec<u8>,
) -> Result<(), AllocError>
    requires { warnings.now.length ≤ length file.text.now }
{
    for (sort, called) in SORTS {
        put_sort(file, about, warnings, sort, called, out)?;
    }
    Ok(())
}

/// Appends a line that counts the warnings.
fn put_count(count: usize, out: &mut Vec<u8>) -> Result<(), AllocError> {
    out.extend_from_slice(b"warnings ")?;
    put_number(count, out)?;
    out.extend_from_slice(b"\n")
}

/// Returns a line for each warning of a family that was read from these files, `FILE:LINE:COLUMN: warning: ..`, and a
/// last one that counts them. Of each sort at most ten are written with their places, and then how many more there are.
pub fn warned_of_game<'x>(
    alloc: Global,
    of_diagram: DiagramSource<'_>,
    of_game: File<'_>,
    diagram: &'x Diagram,
    game: &'x GuardedGame,
) -> Result<Vec<u8>, AllocError> {
    let names = VertexNames::read(alloc, of_game.text)?;
    let named = Named {
        game,
        names: &names,
    };
    let about = About {
        alloc,
        features: diagram.names(),
        guarded: Guarded::Game(named),
    };
    let in_guards = named_in_game(alloc, game)?;
    let in_diagram = warnings_of_diagram(alloc, of_diagram, diagram, &in_guards)?;
    let in_game = warnings_of_game(alloc, of_game.text, game, names.start())?;
    let mut lines = Vec::new(alloc);
    put_warnings(of_diagram.file, &about, &in_diagram, &mut lines)?;
    put_warnings(of_game, &about, &in_game, &mut lines)?;
    let count = in_diagram.list.len().saturating_add(in_game.list.len());
    put_count(count, &mut lines)?;
    Ok(lines)
}

/// Returns the warnings of a diagram, a system over its features, and the requirements that it has to meet, as
/// `warned_of_game` does. The game that is made from them gets no warnings.
pub fn warned_of_system(
    alloc: Global,
    of_diagram: DiagramSource<'_>,
    of_system: File<'_>,
    of_requirements: File<'_>,
    diagram: &Diagram,
    system: &System,
) -> Result<Vec<u8>, AllocError>
    requires { system.now.features ≡ feature_count diagram.now.lines }
{
    let about = About {
        alloc,
        features: diagram.names(),
        guarded: Guarded::System(system),
    };
    let in_guards = named_in_system(alloc, system)?;
    let in_diagram = warnings_of_diagram(alloc, of_diagram, diagram, &in_guards)?;
    let asked = of_requirements.text;
    let in_system = warnings_of_system(alloc, of_system.text, diagram, system, asked)?;
    let in_requirements = warnings_of_requirements(alloc, asked, system)?;
    let mut lines = Vec::new(alloc);
    put_warnings(of_diagram.file, &about, &in_diagram, &mut lines)?;
    put_warnings(of_system, &about, &in_system, &mut lines)?;
    put_warnings(of_requirements, &about, &in_requirements, &mut lines)?;
    let of_model = in_system
        .list
        .len()
        .saturating_add(in_requirements.list.len());
    let count = in_diagram.list.len().saturating_add(of_model);
    put_count(count, &mut lines)?;
    Ok(lines)
}
