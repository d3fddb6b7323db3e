//! Scripts in each manner, with their answers and ends.

use super::runs::{ends_so, put_lines};
use crate::devices::{then_fails, whole};
use crate::family::Family;
use std::alloc::Global;
use std::sync::Wait;
use std::thread::Threads;
use vpg_script::{Ending, Form, LineFault, Manner, RunFault};

/// A manner, a script, its answers, and its end. Lines are separated by ` / `, and the last line of the script has no
/// end. The line `LONG` stands for 4,097 bytes, `LONGEST` for 4,096, and `HUGE` for 30,000.
struct Row {
    manner: Manner,
    script: &'static str,
    answers: &'static str,
    ended: Result<Ending, RunFault>,
}

/// Each line is answered, and a fault ends the script.
pub(super) const PLAIN: Manner = Manner {
    is_strict: false,
    goes_on: false,
    form: Form::Plain,
};

/// The first refusal ends the script.
pub(super) const STRICT: Manner = Manner {
    is_strict: true,
    goes_on: false,
    form: Form::Plain,
};

const GOES_ON: Manner = Manner {
    is_strict: false,
    goes_on: true,
    form: Form::Plain,
};

const BOTH: Manner = Manner {
    is_strict: true,
    goes_on: true,
    form: Form::Plain,
};

/// Answers in JSON, also to a line with a fault.
const JSON: Manner = Manner {
    is_strict: false,
    goes_on: true,
    form: Form::Json,
};

/// Answers in JSON, up to the first refusal.
const STRICT_JSON: Manner = Manner {
    is_strict: true,
    goes_on: false,
    form: Form::Json,
};

static ROWS: [Row; 27] = [
    Row {
        manner: PLAIN,
        script: "",
        answers: "",
        ended: Ok(Ending::Whole),
    },
    Row {
        manner: PLAIN,
        script: "undo / exclude f",
        answers: "refused NoToken / done 1",
        ended: Ok(Ending::Whole),
    },
    Row {
        manner: PLAIN,
        script: "assert full / assert settled",
        answers: "fails full / fails settled",
        ended: Ok(Ending::Failed),
    },
    // A failure is not forgotten.
    Row {
        manner: PLAIN,
        script: "exclude f / assert full / settle / assert settled",
        answers: "done 1 / fails full / settled 2 / holds",
        ended: Ok(Ending::Failed),
    },
    Row {
        manner: PLAIN,
        script: "assert full / frob / exclude f",
        answers: "fails full",
        ended: Err(RunFault::Line {
            line: 2,
            fault: LineFault::Word,
        }),
    },
    Row {
        manner: STRICT,
        script: "",
        answers: "",
        ended: Ok(Ending::Whole),
    },
    Row {
        manner: STRICT,
        script: "undo / exclude f",
        answers: "refused NoToken",
        ended: Ok(Ending::Refused { line: 1 }),
    },
    // Blank lines and comments count.
    Row {
        manner: STRICT,
        script: "# none /  / exclude f / select f / exclude g",
        answers: "done 1 / refused AlreadyDecided 1",
        ended: Ok(Ending::Refused { line: 4 }),
    },
    Row {
        manner: STRICT,
        script: "exclude f / settle / assert 0 hopeless",
        answers: "done 1 / settled 2 / holds",
        ended: Ok(Ending::Whole),
    },
    Row {
        manner: STRICT,
        script: "exclude f / assert settled / assert 0 hopeless / settle",
        answers: "done 1 / fails settled / fails hopeless unsettled / settled 2",
        ended: Ok(Ending::Failed),
    },
    Row {
        manner: STRICT,
        script: "assert full / assert 9 sure / show",
        answers: "fails full / refused NoVertex",
        ended: Ok(Ending::Refused { line: 2 }),
    },
    // Refusals that come with the text of a page, and with the answer to a question.
    Row {
        manner: STRICT,
        script: "plan / exclude f",
        answers: "refused NotFull",
        ended: Ok(Ending::Refused { line: 1 }),
    },
    Row {
        manner: STRICT,
        script: "why f / exclude f",
        answers: "refused NotKnown",
        ended: Ok(Ending::Refused { line: 1 }),
    },
    Row {
        manner: STRICT,
        script: "why +f / exclude f",
        answers: "refused NoConflict",
        ended: Ok(Ending::Refused { line: 1 }),
    },
    Row {
        manner: STRICT,
        script: "exclude f / undo x",
        answers: "done 1",
        ended: Err(RunFault::Line {
            line: 2,
            fault: LineFault::Args,
        }),
    },
    Row {
        manner: GOES_ON,
        script: "frob / exclude f",
        answers: "refused Word / done 1",
        ended: Ok(Ending::Whole),
    },
    Row {
        manner: GOES_ON,
        script: "exclude f / undo x",
        answers: "done 1 / refused Args",
        ended: Ok(Ending::Whole),
    },
    Row {
        manner: GOES_ON,
        script: "assert 0 / assert full / redo 1 / settle -1",
        answers: "refused Args / fails full / refused NoToken / refused Args",
        ended: Ok(Ending::Failed),
    },
    Row {
        manner: GOES_ON,
        script: "exclude f / LONG / undo / LONG",
        answers: "done 1 / refused TooLong / undone 1 / refused TooLong",
        ended: Ok(Ending::Whole),
    },
    Row {
        manner: GOES_ON,
        script: "LONGEST / exclude f",
        answers: "done 1",
        ended: Ok(Ending::Whole),
    },
    Row {
        manner: GOES_ON,
        script: "HUGE / exclude f / HUGE",
        answers: "refused TooLong / done 1 / refused TooLong",
        ended: Ok(Ending::Whole),
    },
    Row {
        manner: BOTH,
        script: "exclude f / frob / exclude g",
        answers: "done 1 / refused Word",
        ended: Ok(Ending::Refused { line: 2 }),
    },
    Row {
        manner: BOTH,
        script: "exclude f / HUGE / exclude g",
        answers: "done 1 / refused TooLong",
        ended: Ok(Ending::Refused { line: 2 }),
    },
    Row {
        manner: BOTH,
        script: "assert full / exclude f",
        answers: "fails full / done 1",
        ended: Ok(Ending::Failed),
    },
    Row {
        manner: BOTH,
        script: "LONG",
        answers: "refused TooLong",
        ended: Ok(Ending::Refused { line: 1 }),
    },
    Row {
        manner: JSON,
        script: "# none / exclude f / select f /  / exclude r / LONG / assert full / products",
        answers: "{\"answer\":[\"done 1\"],\"line\":2,\"tone\":\"done\"} \
            / {\"answer\":[\"refused AlreadyDecided 1\"],\"line\":3,\
            \"refused\":{\"cause\":\"AlreadyDecided\",\"serial\":1},\"tone\":\"refused\"} \
            / {\"answer\":[\"refused Conflict r\"],\"line\":5,\
            \"refused\":{\"cause\":\"Conflict\",\"feature\":\"r\"},\"tone\":\"refused\"} \
            / {\"answer\":[\"refused TooLong\"],\"line\":6,\
            \"refused\":{\"cause\":\"TooLong\"},\"tone\":\"refused\"} \
            / {\"answer\":[\"fails full\"],\"line\":7,\"tone\":\"failed\"} \
            / {\"answer\":[\"in r\",\"out f\",\"open g\"],\"line\":8,\"tone\":\"done\"}",
        ended: Ok(Ending::Failed),
    },
    Row {
        manner: STRICT_JSON,
        script: "undo / exclude f",
        answers: "{\"answer\":[\"refused NoToken\"],\"line\":1,\
            \"refused\":{\"cause\":\"NoToken\"},\"tone\":\"refused\"}",
        ended: Ok(Ending::Refused { line: 1 }),
    },
];

/// Appends the script of a row, without an end of its last line; or answers that there was no memory.
fn put_script(alloc: Global, row: &Row, out: &mut Vec<u8>) -> bool {
    let done = put_lines(alloc, row.script, out);
    out.pop();
    done
}

/// Appends the answers of a row.
fn put_answers(alloc: Global, row: &Row, out: &mut Vec<u8>) -> bool {
    row.answers.is_empty() || put_lines(alloc, row.answers, out)
}

fn is_answered<T: Threads + Wait + Sync>(
    rt: &T,
    alloc: Global,
    family: &Family,
    row: &Row,
) -> bool {
    let (mut script, mut wanted) = (Vec::new(alloc), Vec::new(alloc));
    let done = put_script(alloc, row, &mut script) & put_answers(alloc, row, &mut wanted);
    let manner = Some(row.manner);
    done && ends_so(
        rt,
        alloc,
        family,
        1,
        manner,
        whole(&script),
        row.ended,
        &wanted,
    )
}

/// Returns the place of the first row that is answered otherwise.
pub(super) fn first_other<T: Threads + Wait + Sync>(
    rt: &T,
    alloc: Global,
    family: &Family,
) -> Option<usize> {
    for k in 0..ROWS.len() {
        if !is_answered(rt, alloc, family, &ROWS[k]) {
            return Some(k);
        }
    }
    None
}

/// Whether a run that goes on ends if its reader fails within a line that is too long.
pub(super) fn ends_in_a_long_line<T: Threads + Wait + Sync>(
    rt: &T,
    alloc: Global,
    family: &Family,
) -> bool {
    let (manner, read) = (Some(GOES_ON), Err(RunFault::Read));
    match vec![in alloc; b'#'; 5000] {
        Ok(front) => ends_so(rt, alloc, family, 1, manner, then_fails(&front), read, b""),
        Err(_) => false,
    }
}
