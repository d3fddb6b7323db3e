//! Lines that are typed: the lines handed on as a script, and the text beside the answers.
ghost use Rattle.std.specs.Prelude.{◌≡◌, ◌≤◌, length, IfSome};

use std::alloc::Global;
use std::cell::Cell;
use std::test::*;
use vpg_family::Family;
use vpg_script::{Device, Sink, Source};
use vpg_terminal::{Ear, Heard, Setting, Typed};

/// The start of the game, the typed text, the answers to the lines that are handed on, these lines, and the text beside
/// the answers.
struct Typing {
    start: Option<u32>,
    typed: &'static str,
    answers: &'static [&'static str],
    handed: &'static str,
    said: &'static str,
}

static TYPINGS: [Typing; 13] = [
    Typing {
        start: Some(7),
        typed: "",
        answers: &[],
        handed: "",
        said: "> ",
    },
    Typing {
        start: Some(7),
        typed: "exclude f\r\n\nundo",
        answers: &["done 1\n", "", "undone 1\n"],
        handed: "exclude f\n\nundo\n",
        said: "> > > > ",
    },
    Typing {
        start: Some(7),
        typed: "exclude f\n quit\t\nundo\n",
        answers: &["done 1\n"],
        handed: "exclude f\n",
        said: "> > ",
    },
    Typing {
        start: Some(7),
        typed: "help undo\nhelp frob\nhelp\nhelp select f\n",
        answers: &["", "", "", "refused Word\n"],
        handed: "\n\n\nhelp select f\n",
        said: ">   undo     takes back\n           a change\n> no such command; `help` lists them\n\
            > select F, exclude F      decides\n  undo     takes back\n           a change\n  \
            goals V ..             after each `settle`, tell of these vertices\n\
            > line:4:1: found `help`; expected a command\n  hint: is `keep` meant?\n> ",
    },
    // A feature that was perhaps meant.
    Typing {
        start: Some(7),
        typed: "select ff\n3:  why -G\n",
        answers: &["refused UnknownFeature\n", "refused UnknownFeature\n"],
        handed: "select ff\n3:  why -G\n",
        said: "> line:1:8: found `ff`; expected the name of a feature of the diagram\n  hint: is `f` meant?\n\
            > line:2:10: found `G`; expected the name of a feature of the diagram\n> ",
    },
    // A refused decision is explained, under a label too.
    Typing {
        start: Some(7),
        typed: "exclude f\n2: select g\nselect f\n",
        answers: &[
            "refused Conflict h\n",
            "conflict -f +g\n",
            "refused Conflict f\n",
            "conflict +g -f\n",
            "refused AlreadyDecided 1\n",
        ],
        handed: "exclude f\nwhy -f\n2: select g\nwhy +g\nselect f\n",
        said: "> > > > ",
    },
    // The start is shown after each settling, and decided. If it is hopeless the session says why.
    Typing {
        start: Some(7),
        typed: "settle\nsettle 3\nshow 7\n",
        answers: &[
            "settled 3\n",
            "7 0 1 possible sure\n",
            "won 7\n",
            "unsettled 0\n",
            "7 5 1 hopeless unsure\n",
            "hopeless 7\nunsure 7\n",
            "lost 7\n",
            "7 5 1 hopeless unsure\n",
        ],
        handed: "settle\nshow 7\ndecide 7\nsettle 3\nshow 7\nwhy 7\ndecide 7\nshow 7\n",
        said: "> > > > ",
    },
    // The goals take its place. Of one that is refused nothing more is asked.
    Typing {
        start: Some(7),
        typed: "goals 3 \"a b\"  x\nsettle\ngoals\nsettle\n",
        answers: &[
            "",
            "settled 0\n",
            "3 0 1 possible unsure\n",
            "mixed 3\nproduct r f\nproduct r\n",
            "refused NoVertex\n",
            "4 5 1 hopeless unsure\n",
            "hopeless 4\nunsure 4\n",
            "empty\n",
            "",
            "settled 0\n",
        ],
        handed: "\nsettle\nshow 3\ndecide 3\nshow \"a b\"\nshow x\nwhy x\ndecide x\n\nsettle\n",
        said: "> > > > > ",
    },
    Typing {
        start: Some(7),
        typed: "help goals\n2: goals 3\n",
        answers: &["", "refused Word\n"],
        handed: "\n2: goals 3\n",
        said: ">   goals V ..             after each `settle`, tell of these vertices\n\
            > line:2:4: found `goals`; expected a command\n  \
            hint: `vpgdesk --help` lists the commands\n> ",
    },
    Typing {
        start: Some(7),
        typed: "settle x\n",
        answers: &["refused Args\n"],
        handed: "settle x\n",
        said: "> line:1:8: found `x`; expected a number\n  hint: it is written `settle [N]`\n  \
            hint: a number is digits alone\n> ",
    },
    Typing {
        start: Some(7),
        typed: "# help\nhelp: select f\n",
        answers: &["", "refused Word\n"],
        handed: "# help\nhelp: select f\n",
        said: "> > line:2:1: found `help:`; expected a command\n  \
            hint: a label is a number from 1 to 64 and `:`, with a blank behind it\n> ",
    },
    Typing {
        start: Some(7),
        typed: "settle\n",
        answers: &["refused LogFull\n"],
        handed: "settle\n",
        said: "> > ",
    },
    // Without a goal and a start the vertices are counted.
    Typing {
        start: None,
        typed: "settle\ngoals\nsettle\n",
        answers: &[
            "settled 0\n",
            "hopeless 1\npossible 0\nsure 0\nunsure 1\nsettled yes\nfull no\n",
            "",
            "settled 0\n",
        ],
        handed: "settle\ncount\n\nsettle\n",
        said: "> > > > ",
    },
];

/// A stand-in for the list of commands.
const COMMANDS: &str =
    "select F, exclude F      decides\n  undo     takes back\n           a change";

const DIAGRAM: &str = "root r\noptional r f\noptional r g\n";

const GAME: &str = "7 0 0 7;";

/// Answers a line that was handed on, as a run does.
fn answer<W: Sink>(answers: &[&str], lines: usize, writer: &mut W) -> Option<()> {
    match answers.get(lines) {
        Some(text) if !text.is_empty() => writer.put(text.as_bytes()).ok(),
        _ => Some(()),
    }
}

/// The most reads of a row's lines.
const MOST_READS: u32 = 1_000;

/// A source, and how often it was read.
#[derive(Drop)]
struct Counted<R: Source> {
    source: R,
    reads: u32,
    ghost counted: { R.calls source ≡ reads },
}

impl<R: Source + Drop> Counted<R> {
    fn new(source: R) -> Counted<R>
        requires { R.calls source ≡ 0 }
    {
        Counted { source, reads: 0 }
    }

    /// Reads into the buffer, if that does not fail and is not once too often.
    fn fill(&mut self, buf: &mut [u8]) -> Option<usize>
        ensures bound { IfSome result (λ n. n ≤ length buf.new) }
        ensures len { length buf.new ≡ length buf.old }
    {
        if self.reads >= MOST_READS {
            return None;
        }
        self.reads += 1;
        self.source.fill(buf).ok()
    }

    fn into_source(self) -> R {
        self.source
    }
}

/// Hands on the typed text, with this many bytes a read, and answers each line. `None` if that does not end.
fn hand_on<R: Source + Drop, W: Sink>(
    answers: &[&str],
    most: usize,
    lines: &mut Counted<R>,
    writer: &mut W,
    handed: &mut Vec<u8>,
) -> Option<()> {
    let mut answered = 0usize;
    let mut buf = [0u8; 64];
    for _ in 0..MOST_READS {
        let n = lines.fill(&mut buf[..most.min(64)])?;
        if n == 0 {
            return Some(());
        }
        handed.extend_from_slice(&buf[..n]).ok()?;
        if handed.last() == Some(&b'\n') {
            answer(answers, answered, writer)?;
            answered = answered.saturating_add(1);
        }
    }
    None
}

/// Whether a row is handed on so, with this many bytes a read, and this is the text beside the answers.
fn holds(alloc: Global, family: &Family, row: &Typing, most: usize) -> bool {
    let heard = Cell::new(Heard::Nothing);
    let setting = Setting {
        commands: COMMANDS,
        features: family.diagram.names(),
        is_prompted: true,
        start: row.start,
        heard: &heard,
    };
    let talk = Device::writer(Vec::new(alloc));
    let reader = Device::reader(row.typed.as_bytes());
    let mut lines = Counted::new(Typed::new(alloc, setting, reader, talk));
    let mut writer = Ear::new(Device::writer(Vec::new(alloc)), &heard);
    let mut handed = Vec::new(alloc);
    let ended = hand_on(row.answers, most, &mut lines, &mut writer, &mut handed);
    let said = lines.into_source().into_talk().into_writer();
    ended.is_some()
        && handed.as_slice() == row.handed.as_bytes()
        && said.as_slice() == row.said.as_bytes()
}

/// Returns the typed text of the first row that does not hold, with a byte or with 64 a read.
fn first_of_family(alloc: Global, family: &Family) -> Option<&'static str> {
    for row in &TYPINGS {
        if !holds(alloc, family, row, 1) || !holds(alloc, family, row, 64) {
            return Some(row.typed);
        }
    }
    None
}

fn first_wrong(alloc: Global) -> Option<&'static str> {
    match Family::read(alloc, DIAGRAM.as_bytes(), GAME.as_bytes()) {
        Ok(family) => first_of_family(alloc, &family),
        Err(_) => Some("no family"),
    }
}

#[test]
fn lines_that_are_typed(rt: HostRuntime) -> Result<(), Fail> {
    assert_eq!(rt; first_wrong(rt.alloc()), None);
    Ok(())
}
