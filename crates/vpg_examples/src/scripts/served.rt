//! Lines and devices over a server that refuses.

use crate::devices::{Gives, Takes, then_fails, whole};
use std::alloc::Global;
use std::sync::Wait;
use std::thread::Threads;
use vpg_script::{
    Command, Device, LineFault, Request, RunFault, ServeFault, Server, Tone, answer_script,
};

/// Returns the refusal of a command that needs a token or a harvest.
fn refusal(command: &Command<'_>) -> Result<&'static [u8], ServeFault> {
    match command {
        Command::Undo(_) | Command::Redo(_) | Command::Keep(_) | Command::Forget(_) => {
            Ok(b"refused NoToken\n")
        }
        Command::Commit(_) => Ok(b"refused NoHarvest\n"),
        Command::Look(_) => Err(ServeFault::Stray),
        _ => Err(ServeFault::Memory),
    }
}

// Refuses commands that need a token or a harvest; it has no desk for the rest.
#[derive(Drop)]
struct Refuser;

impl Server for Refuser {
    ghost use Rattle.std.specs.Prelude.{◌≡◌, true, []};
    ghost use Rattle.vpg_engine.specs.Line.{Between, begun};
    ghost use Rattle.vpg_script.specs.Answer.{is_refusal};
    ghost use Rattle.vpg_texts.specs.Scene.{Scene as OfScene};

    ghost Scene = { OfScene };

    ghost State = { Between };

    // Each answer is a refusal.
    ghost answering = { λ _ _ _ _ answer _. is_refusal answer ≡ true };

    ghost scene = { λ _. record { game = []; lines = []; names = []; identifiers = []; labels = [] } };

    ghost state = { λ _. begun };

    fn serve<T: Threads + Wait + Sync>(
        &mut self,
        _rt: &T,
        _alloc: Global,
        _lifters: u32,
        request: &Request<'_>,
        out: &mut Vec<u8>,
    ) -> Result<Tone, ServeFault> {
        out.extend_from_slice(refusal(&request.command)?)?;
        Ok(Tone::Refused)
    }
}

/// Returns the end of a script over these devices, with this server.
fn served<T: Threads + Wait + Sync>(
    rt: &T,
    alloc: Global,
    gives: Gives<'_>,
    takes: Takes<'_>,
) -> Result<(), RunFault> {
    let mut reader = Device::reader(gives);
    let mut writer = Device::writer(takes);
    answer_script(rt, alloc, 1, &mut Refuser, &mut reader, &mut writer)
}

/// Whether a script ends so, after these answers, if the writer takes this many calls, of two bytes each.
fn is_served<T: Threads + Wait + Sync>(
    rt: &T,
    alloc: Global,
    gives: Gives<'_>,
    calls: usize,
    ended: Result<(), RunFault>,
    answers: &[u8],
) -> bool {
    let mut got = Vec::new(alloc);
    let takes = Takes {
        got: &mut got,
        bytes: 2,
        calls,
    };
    let result = served(rt, alloc, gives, takes);
    result == ended && got.as_slice() == answers
}

/// Whether lines are answered, except those that are blank or a comment.
pub(super) fn answers_lines<T: Threads + Wait + Sync>(rt: &T, alloc: Global) -> bool {
    let script = whole(b"# none\r\n\n 2: keep 1 \r\nundo 007\ncommit 1");
    let answers = b"refused NoToken\nrefused NoToken\nrefused NoHarvest\n";
    is_served(rt, alloc, script, 100, Ok(()), answers)
}

/// Lines with words that their command doesn't take.
static ARGS: [&str; 46] = [
    "settle 1000000001",
    "lift hopeful 4294967296",
    "keep 18446744073709551616",
    "undo -1",
    "show -f",
    "show \"f",
    "show \"f\"g",
    "show 1 4294967296",
    "assert",
    "assert 1",
    "assert 1 full",
    "assert 1 sure possible never",
    "assert full settled",
    "assert 1 won lost",
    "assert 1 sure mixed",
    "assert sure 1",
    "count 1",
    "draw +f",
    "draw 0 1",
    "changed 1",
    "forced f",
    "empty 0",
    "number 1",
    "known",
    "known +f",
    "why",
    "why 4294967296",
    "why +",
    "why -1",
    "example",
    "counterexample \"a\"b\"",
    "offer 0 1",
    "needs",
    "repair true",
    "spoil",
    "spoil f g",
    "winners",
    "decide 0 1",
    "plan f.",
    "plan 0 1",
    "select",
    "select 9",
    "edges",
    "edges 0 1",
    "uses",
    "uses +f",
];

/// Lines with a first word that is no command, or a label that is none.
static WORDS: [&str; 4] = ["65: undo", "0: undo", "2:undo", "2:"];

/// Whether the last line of a script, the one of this number, is refused so, after these answers.
fn is_refused<T: Threads + Wait + Sync>(
    rt: &T,
    alloc: Global,
    text: &[u8],
    line: u64,
    fault: LineFault,
    answers: &[u8],
) -> bool {
    let ended = Err(RunFault::Line { line, fault });
    is_served(rt, alloc, whole(text), 100, ended, answers)
}

/// Returns the place of the first of these lines that is not refused so as a script of its own.
fn first_of<T: Threads + Wait + Sync>(
    rt: &T,
    alloc: Global,
    lines: &[&str],
    fault: LineFault,
) -> Option<usize> {
    for k in 0..lines.len() {
        if !is_refused(rt, alloc, lines[k].as_bytes(), 1, fault, b"") {
            return Some(k);
        }
    }
    None
}

/// Returns the place of the first line that is not refused as such a fault: for its words, or for its first word.
pub(super) fn first_other<T: Threads + Wait + Sync>(
    rt: &T,
    alloc: Global,
    fault: LineFault,
) -> Option<usize> {
    match fault {
        LineFault::Args => first_of(rt, alloc, &ARGS, fault),
        _ => first_of(rt, alloc, &WORDS, fault),
    }
}

/// Whether the faulty line of a script is named, after the answers to those before it.
pub(super) fn names_the_line<T: Threads + Wait + Sync>(rt: &T, alloc: Global) -> bool {
    let (script, answers) = (b"redo\nfrob", b"refused NoToken\n");
    is_refused(rt, alloc, script, 2, LineFault::Word, answers)
}

/// Whether a script ends at a reader that fails, and at a writer that does.
pub(super) fn ends_at_devices<T: Threads + Wait + Sync>(rt: &T, alloc: Global) -> bool {
    let reader = then_fails(b"undo\nredo");
    let read = is_served(
        rt,
        alloc,
        reader,
        100,
        Err(RunFault::Read),
        b"refused NoToken\n",
    );
    let (script, written) = (whole(b"undo\nundo\n"), Err(RunFault::Write));
    read && is_served(rt, alloc, script, 9, written, b"refused NoToken\nre")
}
