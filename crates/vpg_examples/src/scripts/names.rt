//! Scripts that name vertices, and one whose answers do, each with its whole output. Lines are separated by ` / `.

use super::ends::{ending, ending_on, known_of};
use super::manners::PLAIN;
use super::runs::put_lines;
use crate::devices::{all, whole};
use std::alloc::Global;
use std::sync::Wait;
use std::thread::Threads;
use vpg_report::DIAGRAM;

/// A game over the built-in diagram, a script, and its answers.
struct Row {
    game: &'static str,
    script: &'static str,
    answers: &'static str,
}

static ROWS: [Row; 6] = [
    Row {
        game: "0 1 0 1[f],0 \"door, open\"; 1 2 1 0[g],1 \"door\";",
        script: "exclude f / settle / why \"door, open\" / assert \"door, open\" hopeless \
            / spoil \"door, open\" / show \"door, open\" 1 door",
        answers: "done 1 / settled 2 / hopeless 0 -f / unsure 0 / holds / spoils 0 \
            / 0 2 0 hopeless unsure / 1 0 1 possible unsure / 1 0 1 possible unsure",
    },
    // A name of two vertices stands for none, and so does one that no vertex has.
    Row {
        game: "0 1 0 1[f],0 \"door\"; 1 2 1 0[g],1 \"door\";",
        script: "why door / show 0 door / why \"door\" / assert door possible / lift hopeful door \
            / show wall / draw \"wall\" / why \"wall\" / why wall",
        answers: "refused NoVertex / refused NoVertex / refused NoVertex / refused NoVertex \
            / refused NoVertex / refused NoVertex / refused NoVertex / refused NoVertex \
            / refused UnknownFeature",
    },
    // A feature and a vertex of the same name.
    Row {
        game: "0 1 0 1[f],0 \"f\"; 1 2 1 0[g],1;",
        script: "exclude f / settle / why f / why \"f\" / repair f / why +f",
        answers: "done 1 / settled 2 / out f -f / hopeless 0 -f / unsure 0 / repair -f / repairs 1 \
            / conflict +f -f",
    },
    // Digits are an identifier, but in quotes.
    Row {
        game: "0 1 0 1[f],0 \"1\"; 1 2 1 0[g],1;",
        script: "show 1 \"1\" / lift hopeful \"1\" / lift dual 1 / show \"1\" 1",
        answers: "1 0 0 possible unsure / 0 0 0 possible unsure / added 1 / added 1 \
            / 0 1 0 possible unsure / 1 0 1 possible unsure",
    },
    // A vertex without a name has none.
    Row {
        game: "0 1 0 1[f],0 \"true\"; 1 2 1 0[g],1;",
        script: "show \"true\" / show \"\"",
        answers: "0 0 0 possible unsure / refused NoVertex",
    },
    // Words that are no vertex: the run ends there.
    Row {
        game: "0 1 0 1[f],0 \"a\"; 1 2 1 0[g],1;",
        script: "show a / show \"a\"b",
        answers: "",
    },
];

/// Lines of answers that end with the names of their vertices: 1 has none.
static LABELLED: Row = Row {
    game: "0 1 0 1[f],0 \"door\topen\"; 1 2 1 0[g],1; 12 0 1 0,12 \"+f or fewer\";",
    script: "show 12 1 / exclude f / settle / show / changed / trail / count / why 0 / lost 12 / won 12 \
        / decide 0 / winners 12 / spoil 0 / plan / assert 0 hopeless / reset / select g / select f / settle / plan \
        / decide 12 / repair 12 / known f",
    answers: "12 0 0 possible unsure \"+f or fewer\" / 1 0 0 possible unsure / done 1 / settled 4 / decisions -f \
        / full no / settled yes / 0 2 0 hopeless unsure \"door?open\" / 1 0 2 possible unsure \
        / 12 2 1 hopeless unsure \"+f or fewer\" / 0 possible unsure hopeless unsure \"door?open\" \
        / 12 possible unsure hopeless unsure \"+f or fewer\" / changed 2 / exclude f 1 \
        / hopeful 0 0 2 -f \"door?open\" / hopeful 12 0 2 -f \"+f or fewer\" / dual 1 0 2 -f \
        / dual 12 0 1 -f \"+f or fewer\" / entries 5 / hopeless 2 / possible 1 / sure 0 / unsure 3 / settled yes \
        / full no / hopeless 0 -f \"door?open\" / unsure 0 \"door?open\" / lost 12 -f \"+f or fewer\" \
        / product r g / lost 0 \"door?open\" / lost 12 2 \"+f or fewer\" / winners 12 0 1 \"+f or fewer\" \
        / spoils 0 / refused NotFull / holds / done 2 / done 3 / done 4 / settled 5 \
        / plan 0 1 \"door?open\" \"\" / plans 1 / won 12 \"+f or fewer\" / possible 12 \"+f or fewer\" / in f",
};

/// Whether the lines of a row's answers end with names.
fn is_labelled<T: Threads + Wait + Sync>(rt: &T, alloc: Global, row: &Row) -> bool {
    let (mut script, mut wanted) = (Vec::new(alloc), Vec::new(alloc));
    let mut got = Vec::new(alloc);
    let done = put_lines(alloc, row.script, &mut script)
        & put_lines(alloc, row.answers, &mut wanted);
    let Ok(mut known) = known_of(alloc, (DIAGRAM, row.game)) else {
        return false;
    };
    known.label();
    let ended = ending_on(rt, alloc, &known, PLAIN, whole(&script), all(&mut got));
    done && ended.is_ok() && got.as_slice() == wanted.as_slice()
}

/// Whether a row is answered so; or ends in a fault, if it has no answers.
fn is_answered<T: Threads + Wait + Sync>(rt: &T, alloc: Global, row: &Row) -> bool {
    let (mut script, mut wanted) = (Vec::new(alloc), Vec::new(alloc));
    let mut got = Vec::new(alloc);
    let done = put_lines(alloc, row.script, &mut script)
        & put_lines(alloc, row.answers, &mut wanted);
    let texts = (DIAGRAM, row.game);
    match ending(rt, alloc, texts, PLAIN, whole(&script), all(&mut got)) {
        Ok(_) => done && got.as_slice() == wanted.as_slice(),
        Err(_) => done && row.answers.is_empty(),
    }
}

/// Returns the place of the first row that is answered otherwise.
pub(super) fn first_other<T: Threads + Wait + Sync>(rt: &T, alloc: Global) -> Option<usize> {
    for k in 0..ROWS.len() {
        if !is_answered(rt, alloc, &ROWS[k]) {
            return Some(k);
        }
    }
    if is_labelled(rt, alloc, &LABELLED) {
        None
    } else {
        Some(ROWS.len())
    }
}
