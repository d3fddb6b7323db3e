//! The parser of the program's words.
use crate::task::{Invocation, Picture, ScriptRun, Talk, Task, Work};
use crate::usage::{ABOUT, SHORT_AFTER};
use crate::verbs::{Argument, Kind, VERBS, Verb, verb_of};
use clap::builder::ValueParser;
use clap::error::ErrorKind;
use clap::{Arg, ArgAction, ArgMatches, Command, Error};
use std::alloc::{AllocError, Global};
use vpg_family::{GamePaths, ModelPaths, Paths, Subject};
use vpg_script::{Form, Manner};

fn arg_of<'a>(alloc: Global, argument: Argument) -> Result<Arg<'a>, AllocError> {
    let arg = Arg::new(alloc, argument.name).help(argument.help);
    match argument.kind {
        Kind::Word => Ok(arg.required(true)),
        Kind::Last => arg.required_unless_present("system"),
        Kind::Words => Ok(arg.required(true).num_args(1..)),
        Kind::Optional => Ok(arg),
        Kind::Flag => Ok(arg.long(argument.name).action(ArgAction::SetTrue)),
        Kind::Choice { with, without } => {
            let flag = arg.long(argument.name).action(ArgAction::SetTrue);
            flag.requires_arg(with)?.conflicts_with(without)
        }
        Kind::Lifters => {
            let arg = arg.long("lifters").value_name("N").default_value("1");
            Ok(arg.value_parser(ValueParser::unsigned(1, 64)))
        }
        Kind::Value { value, with } => {
            arg.long(argument.name).value_name(value).requires_arg(with)
        }
        Kind::Lone { value } => Ok(arg.long(argument.name).value_name(value)),
    }
}

/// Returns a command with these arguments.
fn with_arguments<'a>(
    alloc: Global,
    command: Command<'a>,
    arguments: &[Argument],
) -> Result<Command<'a>, AllocError> {
    let mut command = command;
    for argument in arguments {
        let arg = arg_of(alloc, *argument)?;
        command = command.arg(arg)?;
    }
    Ok(command)
}

fn command_of<'a>(alloc: Global, verb: &Verb) -> Result<Command<'a>, AllocError> {
    let command = Command::new(alloc, verb.name).about(verb.about);
    let command = match verb.usage {
        Some(usage) => command.override_usage(usage),
        None => command,
    };
    let command = with_arguments(alloc, command, verb.first)?;
    with_arguments(alloc, command, verb.rest)
}

/// Returns the command with everything that the program may be called with. Its long help ends with this text.
fn command<'a>(alloc: Global, help_end: &'a str) -> Result<Command<'a>, AllocError> {
    let mut command = Command::new(alloc, "vpgdesk")
        .version("0.1.0")
        .about("Configures a product family whose behaviour is a variability parity game")
        .long_about(ABOUT)
        .after_help(SHORT_AFTER)
        .after_long_help(help_end);
    for verb in &VERBS {
        let inner = command_of(alloc, verb)?;
        command = command.subcommand(inner)?;
    }
    Ok(command)
}

/// Returns the message about words that are wrong.
fn wrong(alloc: Global, kind: ErrorKind, why: &str) -> Result<Error, AllocError> {
    let mut command = command(alloc, "")?;
    command.error(kind, why)
}

/// Returns the message about words that no text in UTF-8 spells.
pub fn not_text(alloc: Global) -> Result<Error, AllocError> {
    wrong(
        alloc,
        ErrorKind::ValueValidation,
        "a word is not text in UTF-8",
    )
}

/// Returns the message about a word too many.
fn unexpected(alloc: Global, name: &str, word: &str) -> Result<Error, AllocError> {
    let told = format!(in alloc; "unexpected argument '{word}' found")?;
    let mut command = match verb_of(name) {
        Some(verb) => command_of(alloc, &verb)?,
        None => command(alloc, "")?,
    };
    command.error(ErrorKind::UnknownArgument, told.as_str())
}

/// The words of a command that name files.
#[derive(Clone, Copy)]
struct Files<'a> {
    paths: Paths<'a>,
    script: Option<&'a str>,
    /// The first word too many.
    unexpected: Option<&'a str>,
}

/// Returns the files of a game that is made of a system and its requirements.
fn model_of<'a>(system: &'a str, requirements: &'a str) -> GamePaths<'a> {
    GamePaths::Model(ModelPaths {
        system,
        requirements,
    })
}

/// Returns the first option that a system alone does not take: a picture of features, or a trace.
fn untaken(matches: &ArgMatches<'_>) -> Option<&'static str> {
    if matches.get_flag("features") {
        Some("--features")
    } else {
        matches.get_str("trace").map(|_| "--trace")
    }
}

/// Returns the files that a command names. It has them if it was accepted. With a system in place of the game each word
/// stands where the one before it would. A system that is drawn alone takes no script, no picture of features, and no
/// trace.
fn files_of<'a>(name: &str, matches: &ArgMatches<'a>) -> Option<Files<'a>> {
    let (first, second) = (matches.get_str("GAME"), matches.get_str("DIAGRAM"));
    let third = matches.get_str("SCRIPT");
    let takes_script = name == "run" || name == "draw" || name == "export";
    let (game, diagram, script, unexpected) = if name == "model" {
        let (system, requirements) = (matches.get_str("SYSTEM")?, matches.get_str("REQUIREMENTS")?);
        (model_of(system, requirements), second, None, None)
    } else {
        match (matches.get_str("system"), matches.get_str("requirements")) {
            (Some(system), Some(requirements)) if takes_script => {
                (model_of(system, requirements), first, second, third)
            }
            (Some(system), Some(requirements)) => {
                (model_of(system, requirements), first, None, second)
            }
            (Some(system), None) => {
                let unexpected = second.or(untaken(matches));
                (GamePaths::System(system), first, None, unexpected)
            }
            _ => (GamePaths::Game(first?), second, third, None),
        }
    };
    let diagram = diagram?;
    Some(Files {
        paths: Paths { game, diagram },
        script,
        unexpected,
    })
}

/// Returns the picture that a command draws of these files.
fn picture_of(paths: Paths<'_>, matches: &ArgMatches<'_>) -> Picture {
    if matches!(paths.game, GamePaths::System(_)) || matches.get_flag("states") {
        Picture::System
    } else if matches.get_flag("features") {
        Picture::Family(Subject::Features)
    } else {
        Picture::Family(Subject::Game)
    }
}

/// Returns the form that answers are asked for in.
fn form_of(matches: &ArgMatches<'_>) -> Form {
    if matches.get_flag("json") {
        Form::Json
    } else {
        Form::Plain
    }
}

/// Returns the run of a script that a command asks for, if it has one.
fn run_of<'a>(script: Option<&'a str>, matches: &ArgMatches<'a>) -> Option<ScriptRun<'a>> {
    Some(ScriptRun {
        script: script?,
        config: matches.get_str("config"),
        lifters: matches.get_one("lifters").unwrap_or(1),
        manner: Manner {
            is_strict: matches.get_flag("strict"),
            goes_on: matches.get_flag("keep-going"),
            form: form_of(matches),
        },
        is_named: matches.get_flag("names"),
    })
}

/// Returns the work of a command on a family of these files, `None` if it lacks a word.
fn work_of<'a>(
    alloc: Global,
    name: &str,
    files: Files<'a>,
    matches: &ArgMatches<'a>,
) -> Result<Option<Work<'a>>, AllocError> {
    let Files { paths, script, .. } = files;
    match name {
        "run" => Ok(run_of(script, matches).map(Work::Run)),
        "desk" => Ok(Some(Work::Desk(Talk {
            lifters: matches.get_one("lifters").unwrap_or(1),
            form: form_of(matches),
            is_named: matches.get_flag("names"),
        }))),
        "export" => Ok(script.map(|script| Work::Export {
            script,
            xml: matches.get_flag("xml"),
        })),
        "model" => Ok(Some(Work::Model)),
        "project" => Ok(Some(Work::Project {
            features: Vec::from_slice(alloc, matches.get_strs("FEATURE").unwrap_or(&[]))?,
        })),
        "check" => Ok(Some(Work::Check)),
        "lint" => Ok(Some(Work::Lint)),
        "draw" => Ok(Some(Work::Draw {
            picture: picture_of(paths, matches),
            script,
            trace: matches.get_str("trace"),
        })),
        _ => Ok(None),
    }
}

/// Returns the task of a command, `None` if it lacks a word. The parser refuses such words before.
fn task_of<'a>(
    alloc: Global,
    name: &str,
    matches: &ArgMatches<'a>,
) -> Result<Option<Task<'a>>, Error> {
    if name == "diagram" {
        return Ok(matches.get_str("MODEL").map(|path| Task::Diagram { path }));
    }
    let Some(files) = files_of(name, matches) else {
        return Ok(None);
    };
    if let Some(word) = files.unexpected {
        return Err(unexpected(alloc, name, word)?);
    }
    let paths = files.paths;
    let work = work_of(alloc, name, files, matches)?;
    Ok(work.map(|work| Task::Family { paths, work }))
}

/// Returns the request of a command. The parser accepts a sign before the number of lifters, and a line feed in the
/// vertex of a trace: both are refused here. The faults of `lint` and `desk` are always explained.
fn asked<'a>(alloc: Global, name: &str, matches: &ArgMatches<'a>) -> Result<Invocation<'a>, Error> {
    let (lifters, trace) = (matches.get_str("lifters"), matches.get_str("trace"));
    let (kind, why) = if lifters.is_some_and(|word| word.starts_with('+')) {
        let why = "the number of lifters is digits alone";
        (ErrorKind::ValueValidation, why)
    } else if trace.is_some_and(|word| word.contains('\n')) {
        let why = "the vertex of a trace is in one line";
        (ErrorKind::ValueValidation, why)
    } else if let Some(task) = task_of(alloc, name, matches)? {
        let explains = name == "lint" || name == "desk" || matches.get_flag("explain");
        return Ok(Invocation { task, explains });
    } else {
        (ErrorKind::MissingRequiredArgument, "a word is missing")
    };
    Err(wrong(alloc, kind, why)?)
}

/// Parses the words, the first of them being the program's name; `Err` is what `clap` prints, also help and the
/// version. The help ends with the text of `help_end`.
pub fn read<'a>(
    alloc: Global,
    words: &'a [String],
    help_end: &'a str,
) -> Result<Invocation<'a>, Error> {
    let matches = command(alloc, help_end)?.try_get_matches_from(words)?;
    match matches.subcommand() {
        Some((name, inner)) => asked(alloc, name, inner),
        None => Ok(Invocation {
            task: Task::BuiltIn,
            explains: false,
        }),
    }
}
