//! The command that a line of a script spells.
ghost use Rattle.std.specs.Prelude.{◌≡◌, map, option_map, IfOk};
ghost use Rattle.vpg_script.specs.Script.{bare_change, bare_command, command_from, command_of, command_with, command_with_few, feature_change, feature_command, label_of, lift_of, is_comment, numbered_command, table_in, vertex_command, vertex_in, vertices_in};
ghost use Rattle.vpg_script.specs.Forms.{form_shown};
ghost use Rattle.vpg_script.specs.View.{argument_shown, command_shown, texts, vertex_shown};

use crate::arguments::{Argument, arguments_of, number};
use crate::exact::assert_command;
use crate::forms::{CommandForm, Verb, form_named};
use crate::look::{Look, Vertex};
use crate::words::words_of;
use std::alloc::{AllocError, Global};
use thiserror::Error;
use vpg_sides::Which;

/// The most bytes of a line before its end.
pub const LONGEST_LINE: usize = 4096;

const MOST_LABELS: u64 = 64;

/// A command. Names stand in the line that was read.
#[derive(Drop)]
pub enum Command<'t> {
    Select(&'t [u8]),
    Exclude(&'t [u8]),
    Retract(&'t [u8]),
    Reset,
    Undo(Option<u64>),
    Redo(Option<u64>),
    Keep(u64),
    Forget(u64),
    /// A table and a vertex.
    Lift(Which, Vertex<'t>),
    Harvest,
    Commit(u64),
    Settle(Option<u64>),
    /// The verdicts that differ from those at the last `changed`.
    Changed,
    Look(Look<'t>),
}

/// The fault of a line.
#[derive(Clone, Copy, Debug, PartialEq, Eq, Error)]
pub enum LineFault {
    /// No command has this name, or the label is none from 1 to 64.
    #[error("Word")]
    Word,
    /// An argument is missing, is one too many, or has not its form.
    #[error("Args")]
    Args,
    /// The line has more than 4,096 bytes before its end.
    #[error("TooLong")]
    TooLong,
}

/// A command under its label.
#[derive(Drop)]
pub struct Request<'t> {
    pub label: u32,
    pub command: Command<'t>,
}

/// Returns a command without arguments that is no look.
fn bare_change<'t>(verb: Verb) -> Option<Command<'t>>
    ensures { option_map command_shown result ≡ bare_change verb }
{
    match verb {
        Verb::Reset => Some(Command::Reset),
        Verb::Undo => Some(Command::Undo(None)),
        Verb::Redo => Some(Command::Redo(None)),
        Verb::Harvest => Some(Command::Harvest),
        Verb::Settle => Some(Command::Settle(None)),
        Verb::Changed => Some(Command::Changed),
        _ => None,
    }
}

/// Returns a command without arguments.
fn bare_command<'t>(form: &CommandForm) -> Option<Command<'t>>
    ensures { option_map command_shown result ≡ bare_command (form_shown form.now) }
{
    match form.of_page {
        Some(look) => Some(Command::Look(Look::OfPage(look))),
        None => bare_change(form.verb?),
    }
}

/// Returns a command about a feature that is no look.
fn feature_change<'t>(verb: Verb, name: &'t [u8]) -> Option<Command<'t>>
    ensures { option_map command_shown result ≡ feature_change verb name.now }
{
    match verb {
        Verb::Select => Some(Command::Select(name)),
        Verb::Exclude => Some(Command::Exclude(name)),
        Verb::Retract => Some(Command::Retract(name)),
        _ => None,
    }
}

/// Returns a command about a feature.
fn feature_command<'t>(form: &CommandForm, name: &'t [u8]) -> Option<Command<'t>>
    ensures { option_map command_shown result ≡ feature_command (form_shown form.now) name.now }
{
    match form.of_feature {
        Some(look) => Some(Command::Look(Look::OfFeature(look, name))),
        None => feature_change(form.verb?, name),
    }
}

/// Returns a command with a number.
fn numbered_command<'t>(verb: Verb, n: u64) -> Option<Command<'t>>
    ensures { option_map command_shown result ≡ numbered_command verb n }
{
    match verb {
        Verb::Undo => Some(Command::Undo(Some(n))),
        Verb::Redo => Some(Command::Redo(Some(n))),
        Verb::Keep => Some(Command::Keep(n)),
        Verb::Forget => Some(Command::Forget(n)),
        Verb::Commit => Some(Command::Commit(n)),
        Verb::Settle => Some(Command::Settle(Some(n))),
        _ => None,
    }
}

/// Returns a command about a vertex.
fn vertex_command<'t>(form: &CommandForm, vertex: Vertex<'t>) -> Option<Command<'t>>
    ensures { option_map command_shown result ≡ vertex_command (form_shown form.now) (vertex_shown vertex.entry) }
{
    match form.of_vertex {
        Some(look) => Some(Command::Look(Look::OfVertex(look, vertex))),
        None => None,
    }
}

/// Returns a command with one argument.
fn command_with<'t>(form: &CommandForm, argument: Argument<'t>) -> Option<Command<'t>>
    ensures { option_map command_shown result ≡ command_with (form_shown form.now) (argument_shown argument.entry) }
{
    match argument {
        Argument::Name(name) => feature_command(form, name),
        Argument::Number(n) => numbered_command(form.verb?, n),
        Argument::Vertex(vertex) => vertex_command(form, vertex),
        Argument::Choice(value, name) => Some(Command::Look(Look::OfChoice(value, name))),
        Argument::Table(_) | Argument::Asserted(_, _) | Argument::Claim(_) | Argument::Exact(_) =>
            None,
    }
}

/// Returns a command with one argument, if there are no more.
fn command_with_few<'t>(
    form: &CommandForm,
    argument: Argument<'t>,
    more: &[Argument<'t>],
) -> Option<Command<'t>>
    ensures { option_map command_shown result
        ≡ command_with_few (form_shown form.now) (argument_shown argument.entry) (map argument_shown more.now) }
{
    match more {
        [] => command_with(form, argument),
        [_, ..] => None,
    }
}

fn vertex_in<'t>(argument: Argument<'t>) -> Option<Vertex<'t>>
    ensures { option_map vertex_shown result ≡ vertex_in (argument_shown argument.entry) }
{
    match argument {
        Argument::Vertex(vertex) => Some(vertex),
        _ => None,
    }
}

/// Returns the vertices that arguments name, if each names one.
fn vertices_in<'t>(
    alloc: Global,
    arguments: &[Argument<'t>],
) -> Result<Option<Vec<Vertex<'t>>>, AllocError>
    ensures { IfOk result (λ found. option_map (λ vs. map vertex_shown vs.items) found
        ≡ vertices_in (map argument_shown arguments.now)) }
{
    let mut vertices = Vec::new(alloc);
    for argument in arguments {
        let Some(vertex) = vertex_in(*argument) else {
            return Ok(None);
        };
        vertices.push(vertex)?;
    }
    Ok(Some(vertices))
}

fn table_in(argument: Argument<'_>) -> Option<Which>
    ensures { result ≡ table_in (argument_shown argument.entry) }
{
    match argument {
        Argument::Table(table) => Some(table),
        _ => None,
    }
}

/// Returns a lift of a table and a vertex.
fn lift_of<'t>(first: Argument<'t>, more: &[Argument<'t>]) -> Option<Command<'t>>
    ensures { option_map command_shown result
        ≡ lift_of (argument_shown first.entry) (map argument_shown more.now) }
{
    match more {
        [] => None,
        [second] => {
            let table = table_in(first)?;
            let vertex = vertex_in(*second)?;
            Some(Command::Lift(table, vertex))
        }
        [_, _, ..] => None,
    }
}

/// Returns the command of a form and its arguments.
fn command_from<'t>(
    alloc: Global,
    form: &CommandForm,
    arguments: &[Argument<'t>],
) -> Result<Option<Command<'t>>, AllocError>
    ensures { IfOk result (λ found. option_map command_shown found
        ≡ command_from (form_shown form.now) (map argument_shown arguments.now)) }
{
    let [first, more @ ..] = arguments else {
        return Ok(bare_command(form));
    };
    match form.verb {
        Some(Verb::Show) => match vertices_in(alloc, arguments)? {
            Some(vertices) => Ok(Some(Command::Look(Look::OfVertices(vertices)))),
            None => Ok(None),
        },
        Some(Verb::Lift) => Ok(lift_of(*first, more)),
        Some(Verb::Assert) => assert_command(alloc, *first, more),
        _ => Ok(command_with_few(form, *first, more)),
    }
}

/// Returns the command of a form, and of words that fit it.
fn command_of<'t>(
    alloc: Global,
    form: &CommandForm,
    words: &[&'t [u8]],
) -> Result<Option<Command<'t>>, AllocError>
    ensures { IfOk result (λ found. option_map command_shown found
        ≡ command_of (form_shown form.now) (texts words.now)) }
{
    match arguments_of(alloc, form, words)? {
        Some(arguments) => command_from(alloc, form, &arguments),
        None => Ok(None),
    }
}

/// Returns the label that a word spells.
fn label(word: &[u8]) -> Option<u32>
    ensures { result ≡ label_of word.now }
{
    match word {
        [digits @ .., b':'] => match number(digits, MOST_LABELS) {
            Some(0) => None,
            Some(n) => Some(n as u32),
            None => None,
        },
        _ => None,
    }
}

ghost use Rattle.std.specs.Prelude.{Some};
ghost use Rattle.vpg_script.specs.Script.{requested, with_form, after_label, labelled, said_by, said};
ghost use Rattle.vpg_script.specs.View.{Says};

/// Why a line gives no request.
#[derive(Clone, Copy, Debug, Error)]
pub enum ReadFault {
    #[error("{0}")]
    Line(LineFault),
    #[error("Memory")]
    Memory,
}

fn is_comment(word: &[u8]) -> bool
    ensures { result ≡ is_comment word.now }
{
    match word {
        [] => false,
        [first, ..] => *first == b'#',
    }
}

fn after_label<'t>(
    alloc: Global,
    label: u32,
    words: &[&'t [u8]],
) -> Result<Option<Request<'t>>, ReadFault>
    ensures { Says result (after_label label (texts words.now)) }
{
    let [word, args @ ..] = words else {
        return Err(ReadFault::Line(LineFault::Word));
    };
    let Some(form) = form_named(word) else {
        return Err(ReadFault::Line(LineFault::Word));
    };
    match command_of(alloc, &form, args) {
        Ok(Some(command)) => Ok(Some(Request { label, command })),
        Ok(None) => Err(ReadFault::Line(LineFault::Args)),
        Err(_) => Err(ReadFault::Memory),
    }
}

fn said_by<'t>(alloc: Global, words: &[&'t [u8]]) -> Result<Option<Request<'t>>, ReadFault>
    ensures { Says result (said_by (texts words.now)) }
{
    let [word, rest @ ..] = words else {
        return Ok(None);
    };
    if is_comment(word) {
        return Ok(None);
    }
    match label(word) {
        Some(n) => after_label(alloc, n, rest),
        None => after_label(alloc, 1, words),
    }
}

/// Returns the meaning of a line: nothing, or a command under its label.
pub fn read_line(alloc: Global, line: &[u8]) -> Result<Option<Request>, ReadFault>
    ensures { Says result (said line.now) }
{
    if line.len() > LONGEST_LINE {
        return Err(ReadFault::Line(LineFault::TooLong));
    }
    let Ok(words) = words_of(alloc, line) else {
        return Err(ReadFault::Memory);
    };
    said_by(alloc, &words)
}
