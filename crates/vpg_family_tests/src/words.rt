//! The tasks that the words of the command line ask for.
use crate::said::Said;
use clap::Error;
use clap::error::ErrorKind;
use std::alloc::Global;
use std::test::*;
use vpg_family::{GamePaths, Subject};
use vpg_script::Form;
use vpg_terminal::{Invocation, Picture, ScriptRun, Talk, Task, Work, help_end, not_text, read};

/// Words after the program's name, with one blank between them, and after ` = ` the task that they ask for.
///
/// A task is its command, its files, and after commas its number of lifters or its features, and its options. `shown`
/// ends with status 0, and `wrong` with status 2.
const CALLS: &str = "\
run g d s = run g d s, 1
 = built-in
run -- g d -s = run g d -s, 1
run help g d = run help g d, 1
run g d s --lifters 64 = run g d s, 64
run --lifters=1 g d s = run g d s, 1
run g d s --lifters 0 = wrong
run g d s --lifters +1 = wrong
run g d s --lifters=+064 = wrong
run g d s --lifters=-1 = wrong
run g d s --lifters 064 = run g d s, 64
run g d s --lifters 65 = wrong
run g d s --lifters x = wrong
check g d --lifters 1 = wrong
check g d = check g d
project g d r = project g d, r
project g d r f f x = project g d, r, f, f, x
draw g d = draw g d
draw --features g d = draw g d, features
draw g d s = draw g d s
draw g --features d s = draw g d s, features
draw g d s x = wrong
draw g d s --names = wrong
check g d --features = wrong
lint g d = lint g d, explained
lint g d s = wrong
lint g d --explain = wrong
run g d s --explain --lifters 2 = run g d s, 2, explained
run g d s --explain --explain = wrong
desk g d = desk g d, 1, explained
desk g --lifters 2 d = desk g d, 2, explained
desk g d --names = desk g d, 1, names, explained
check g d --names = wrong
desk g d s = wrong
help = shown
help run = shown
-h = shown
--help = shown
run --help = shown
project g -h = shown
-V = shown
--version = shown
run = wrong
run g = wrong
run g d = wrong
run g d s x = wrong
run g d s -x = wrong
project = wrong
project g = wrong
project g d = wrong
project g d --all = wrong
check = wrong
check g = wrong
check g d s = wrong
rum g d s = wrong
RUN g d s = wrong
g d s = wrong
help rum = wrong
--frob = wrong
run a b c = run a b c, 1
run --strict g d s = run g d s, 1, strict
run g d s --keep-going = run g d s, 1, keep-going
run g --keep-going d --lifters 2 s --strict = run g d s, 2, strict, keep-going
run g d s -- --strict = wrong
run g d s --strict --strict = wrong
run g d s --strict=1 = wrong
run g d s --keep = wrong
run g d s --json = run g d s, 1, json
run g d s --config c = run g d s, 1, config c
run --config c --system x --requirements y d s = run --system x --requirements y d s, 1, config c
run g d s --config = wrong
desk g d --config c = wrong
export g d s = export g d s
export --explain g d s = export g d s, explained
export --system x --requirements y d s = export --system x --requirements y d s
export --xml g d s = export g d s, xml
run g d s --xml = wrong
export g d = wrong
export g d s x = wrong
export g d s --lifters 2 = wrong
export --help = shown
run --json --strict g d s --keep-going = run g d s, 1, strict, keep-going, json
run g d s --json --names = run g d s, 1, names, json
desk g d --json = desk g d, 1, json, explained
desk --names g d --json = desk g d, 1, names, json, explained
check g d --json = wrong
check g d --strict = wrong
project a b r f f x = project a b, r, f, f, x
project a b -- r -- -f = project a b, r, --, -f
check a b = check a b
run -h = shown
project --help = shown
check --help = shown
draw --help = shown
desk --help = shown
lint --help = shown
model --help = shown
model s r d = model --system s --requirements r d
model s r d --explain = model --system s --requirements r d, explained
model s r = wrong
diagram m = diagram m
diagram m --explain = diagram m, explained
diagram --help = shown
diagram = wrong
diagram m d = wrong
diagram m --system s = wrong
model s r d x = wrong
model --system s --requirements r d = wrong
run --system s --requirements r d x = run --system s --requirements r d x, 1
run d --system s x --requirements r --names = run --system s --requirements r d x, 1, names
run --system s --requirements r d = wrong
run --system s --requirements r d x y = wrong
run --system s d x = wrong
run --requirements r d x = wrong
run --requirements r g d x = wrong
run --system s --system s --requirements r d x = wrong
desk --system s --requirements r d = desk --system s --requirements r d, 1, explained
desk --system s --requirements r d x = wrong
desk --system s --requirements r = wrong
check --system s --requirements=r d --explain = check --system s --requirements r d, explained
check --system s --requirements r d x = wrong
check --system = wrong
lint --system s --requirements r d = lint --system s --requirements r d, explained
lint --system s --requirements r d x = wrong
draw --system s --requirements r d = draw --system s --requirements r d
draw --system s --requirements r d x --features = draw --system s --requirements r d x, features
draw --system s --requirements r d x y = wrong
draw --system s --requirements r d --states = draw --system s --requirements r d, states
draw --states --system s d x --requirements r = draw --system s --requirements r d x, states
draw --system s --requirements r d --states --features = wrong
draw --system s --requirements r --states = wrong
draw --system s --requirements r d --states --trace v = draw --system s --requirements r d, states, trace v
draw --trace=-1 --states --system s d x --requirements r = draw --system s --requirements r d x, states, trace -1
draw --system s --requirements r d --trace v = wrong
draw --system s --requirements r d --states --trace = wrong
draw --system s --requirements r d --states --trace v --trace v = wrong
draw --system s d --states --trace v = wrong
draw g d --trace v = wrong
draw --system s d = draw --system s d, states
draw d --system s --explain = draw --system s d, states, explained
draw --system s d --states = draw --system s d, states
draw --system s d --features = wrong
draw --system s d x = wrong
draw --system s = wrong
draw g d --states = wrong
draw --requirements r d = wrong
project --system s --requirements r d f = wrong
";

/// The most columns of a line of help.
const COLUMNS: usize = 80;

/// Adds a word to a line.
fn add(word: &str, line: &mut Vec<String>, said: &mut Said) {
    match String::from_str(said.alloc, word) {
        Ok(word) => said.note(line.push(word).is_ok()),
        Err(_) => said.note(false),
    }
}

/// Adds the words after the program's name.
fn add_all(words: &str, line: &mut Vec<String>, said: &mut Said) {
    if !words.is_empty() {
        for word in words.split(' ') {
            add(word, line, said);
        }
    }
}

/// Returns the command of a task.
fn command_of(task: &Task<'_>) -> &'static str {
    match task {
        Task::BuiltIn => "built-in",
        Task::Diagram { .. } => "diagram",
        Task::Family { work, .. } => match work {
            Work::Run(_) => "run",
            Work::Desk(_) => "desk",
            Work::Export { .. } => "export",
            Work::Model => "model",
            Work::Project { .. } => "project",
            Work::Check => "check",
            Work::Lint => "lint",
            Work::Draw { .. } => "draw",
        },
    }
}

/// Writes the path of a file.
fn put_path(path: &str, said: &mut Said) {
    said.put(" ");
    said.put(path);
}

/// Writes the paths of a game's files.
fn put_game(paths: GamePaths<'_>, said: &mut Said) {
    match paths {
        GamePaths::Game(path) => put_path(path, said),
        GamePaths::Model(files) => {
            said.put(" --system");
            put_path(files.system, said);
            said.put(" --requirements");
            put_path(files.requirements, said);
        }
        GamePaths::System(path) => {
            said.put(" --system");
            put_path(path, said);
        }
    }
}

/// Writes the paths of a task's files.
fn put_paths(task: &Task<'_>, said: &mut Said) {
    match task {
        Task::BuiltIn => {}
        Task::Diagram { path } => put_path(path, said),
        Task::Family { paths, work } => {
            put_game(paths.game, said);
            put_path(paths.diagram, said);
            if let Some(script) = work.script() {
                put_path(script, said);
            }
        }
    }
}

/// Writes a word after a comma, if this holds.
fn put_where(holds: bool, word: &str, said: &mut Said) {
    if holds {
        said.put(", ");
        said.put(word);
    }
}

/// Writes a number of lifters.
fn put_lifters(lifters: u32, said: &mut Said) {
    said.put(", ");
    said.put_number(lifters);
}

/// Writes features.
fn put_features(features: &[&str], said: &mut Said) {
    for feature in features {
        put_where(true, feature, said);
    }
}

/// Writes the subject of a picture, if it is not the game.
fn put_picture(picture: Picture, said: &mut Said) {
    put_where(
        picture == Picture::Family(Subject::Features),
        "features",
        said,
    );
    put_where(picture == Picture::System, "states", said);
}

/// Writes an option with its value, if it is given.
fn put_value(name: &str, value: Option<&str>, said: &mut Said) {
    if let Some(value) = value {
        put_where(true, name, said);
        said.put(" ");
        said.put(value);
    }
}

/// Writes the words of a run beside its files.
fn put_run(run: &ScriptRun<'_>, said: &mut Said) {
    put_lifters(run.lifters, said);
    put_where(run.manner.is_strict, "strict", said);
    put_where(run.manner.goes_on, "keep-going", said);
    put_where(run.is_named, "names", said);
    put_where(run.manner.form == Form::Json, "json", said);
    put_value("config", run.config, said);
}

/// Writes the words of a session beside its files.
fn put_talk(talk: &Talk, said: &mut Said) {
    put_lifters(talk.lifters, said);
    put_where(talk.is_named, "names", said);
    put_where(talk.form == Form::Json, "json", said);
}

/// Writes the words of work beside its files.
fn put_options(work: &Work<'_>, said: &mut Said) {
    match work {
        Work::Run(run) => put_run(run, said),
        Work::Desk(talk) => put_talk(talk, said),
        Work::Export { xml, .. } => put_where(*xml, "xml", said),
        Work::Project { features } => put_features(features, said),
        Work::Draw { picture, trace, .. } => {
            put_picture(*picture, said);
            put_value("trace", *trace, said);
        }
        _ => {}
    }
}

/// Writes the task that words ask for.
fn put_asked(asked: &Invocation<'_>, said: &mut Said) {
    said.put(command_of(&asked.task));
    put_paths(&asked.task, said);
    if let Task::Family { work, .. } = &asked.task {
        put_options(work, said);
    }
    put_where(asked.explains, "explained", said);
}

/// Writes the message about words that ask for no task, after a line on where it is written.
fn put_told(told: &Error, said: &mut Said) {
    said.note(told.kind() != ErrorKind::OutOfMemory);
    said.put(if told.use_stderr() {
        "wrong\n"
    } else {
        "shown\n"
    });
    match told.to_string(said.alloc) {
        Ok(text) => said.put(text.as_str()),
        Err(_) => said.note(false),
    }
}

/// Writes the task of words, or the help, which ends with this text.
fn put_read(words: &[String], help: &str, said: &mut Said) {
    match read(said.alloc, words, help) {
        Ok(asked) => put_asked(&asked, said),
        Err(told) => put_told(&told, said),
    }
}

/// Writes the task of words.
fn put_taken(words: &[String], said: &mut Said) {
    match help_end(said.alloc) {
        Ok(help) => put_read(words, &help, said),
        Err(_) => said.note(false),
    }
}

/// Returns the task of words.
fn taken(alloc: Global, words: &str) -> Said {
    let mut said = Said::new(alloc);
    let mut line = Vec::new(alloc);
    add("vpgdesk", &mut line, &mut said);
    add_all(words, &mut line, &mut said);
    put_taken(&line, &mut said);
    said
}

/// Whether a text is there, and no line of it is wider than a terminal.
fn is_narrow(text: &str) -> bool {
    for line in text.lines() {
        if line.chars().count() > COLUMNS {
            return false;
        }
    }
    !text.is_empty()
}

/// Returns a text's first line, and the text after it.
fn first_line(text: &str) -> (&str, &str) {
    text.split_once('\n').unwrap_or((text, ""))
}

/// Whether words are taken as their row says, and the shown text is no wider than a terminal.
fn holds(alloc: Global, row: &str) -> bool {
    let (words, wanted) = row.split_once(" = ").unwrap_or((row, ""));
    let taken = taken(alloc, words);
    let (how, text) = first_line(taken.text());
    how == wanted && (wanted != "shown" || is_narrow(text))
}

/// Returns the first row that does not hold.
fn first_wrong(alloc: Global) -> Option<&'static str> {
    for row in CALLS.lines() {
        if !holds(alloc, row) {
            return Some(row);
        }
    }
    None
}

#[test]
fn words_are_taken(rt: HostRuntime) -> Result<(), Fail> {
    assert_eq!(rt; first_wrong(rt.alloc()), None);
    Ok(())
}

/// Returns the message about words that are not text.
fn told_of_no_text(alloc: Global) -> Said {
    let mut said = Said::new(alloc);
    match not_text(alloc) {
        Ok(told) => put_told(&told, &mut said),
        Err(_) => said.note(false),
    }
    said
}

/// The message about a word too many.
const TOO_MANY: &str = "\
wrong
error: unexpected argument 'x' found

Usage: vpgdesk check [OPTIONS] <GAME> <DIAGRAM>
       vpgdesk check [OPTIONS] --system <SYSTEM> --requirements <FILE> <DIAGRAM>

For more information, try '--help'.
";

/// Words with a vertex that would be two lines of a script.
const BROKEN: &str = "draw --system s --requirements r d --states --trace v\nw";

const IN_ONE_LINE: &str = "wrong\nerror: the vertex of a trace is in one line\n";

/// Whether the version, help and words that are not text get these messages.
fn are_told(version: &str, help: &str, no_text: &str) -> bool {
    version == "shown\nvpgdesk 0.1.0\n"
        && help.contains("Usage: vpgdesk [COMMAND]")
        && help.contains("docs/FORMATS.md")
        && help.contains("retract F")
        && no_text.starts_with("wrong\nerror: a word is not text in UTF-8\n")
}

/// The texts of help, of the version and of words that are not UTF-8 are these.
#[test]
fn told_texts(rt: HostRuntime) -> Result<(), Fail> {
    let version = taken(rt.alloc(), "--version");
    let help = taken(rt.alloc(), "--help");
    let no_text = told_of_no_text(rt.alloc());
    let too_many = taken(rt.alloc(), "check --system s --requirements r d x");
    let are_told = are_told(version.text(), help.text(), no_text.text());
    assert!(rt; are_told);
    assert_eq!(rt; too_many.text(), TOO_MANY);
    let broken = taken(rt.alloc(), BROKEN);
    let is_told = broken.text().starts_with(IN_ONE_LINE);
    assert!(rt; is_told);
    Ok(())
}
