//! Worked scripts, each with its whole output, by 1, 4 and 64 lifters. Lines are separated by ` / `.

use super::runs::{ends_so, put_lines};
use crate::devices::whole;
use crate::family::Family;
use std::alloc::Global;
use std::fmt::Write;
use std::sync::Wait;
use std::thread::Threads;
use vpg_report::{DIAGRAM, GAME};
use vpg_script::Ending;

/// A game of one vertex that Even wins.
const DOT: &str = "0 0 0 0;";

/// A script on a family, and its answers.
struct Row {
    diagram: &'static str,
    game: &'static str,
    script: &'static str,
    answers: &'static str,
}

/// The subject of a table's rows.
#[derive(Clone, Copy)]
pub(super) enum Worked {
    Settling,
    Changes,
    Harvests,
    Knowledge,
    Plans,
    Counts,
    OtherVerdicts,
    Pictures,
    ProductsLeft,
    Known,
    Sights,
    Whys,
    Examples,
    Offers,
    NeedsAndRepairs,
    Moves,
}

/// Whether a script ends without a fault by this many lifters, and answers just this.
fn is_answered_by<T: Threads + Wait + Sync>(
    rt: &T,
    alloc: Global,
    family: &Family,
    lifters: u32,
    script: &[u8],
    answers: &[u8],
) -> bool {
    let ended = Ok(Ending::Whole);
    ends_so(
        rt,
        alloc,
        family,
        lifters,
        None,
        whole(script),
        ended,
        answers,
    )
}

/// Whether a script ends without a fault by 1, 4 and 64 lifters, and answers just this.
fn is_answered_on<T: Threads + Wait + Sync>(
    rt: &T,
    alloc: Global,
    family: &Family,
    script: &str,
    answers: &str,
) -> bool {
    let (mut text, mut wanted) = (Vec::new(alloc), Vec::new(alloc));
    let done = put_lines(alloc, script, &mut text) & put_lines(alloc, answers, &mut wanted);
    done && is_answered_by(rt, alloc, family, 1, &text, &wanted)
        && is_answered_by(rt, alloc, family, 4, &text, &wanted)
        && is_answered_by(rt, alloc, family, 64, &text, &wanted)
}

/// Whether a script on the family of these texts ends without a fault, and answers just this.
fn is_answered<T: Threads + Wait + Sync>(
    rt: &T,
    alloc: Global,
    diagram: &str,
    game: &str,
    script: &str,
    answers: &str,
) -> bool {
    match Family::read(alloc, diagram.as_bytes(), game.as_bytes()) {
        Ok(family) => is_answered_on(rt, alloc, &family, script, answers),
        Err(_) => false,
    }
}

/// Returns the place of the first row of a table that is answered otherwise.
pub(super) fn first_other<T: Threads + Wait + Sync>(
    rt: &T,
    alloc: Global,
    table: Worked,
) -> Option<usize> {
    let rows = rows_of(table);
    for k in 0..rows.len() {
        let row = &rows[k];
        if !is_answered(rt, alloc, row.diagram, row.game, row.script, row.answers) {
            return Some(k);
        }
    }
    None
}

/// Returns the rows of a table.
fn rows_of(table: Worked) -> &'static [Row] {
    match table {
        Worked::Settling => &SETTLING,
        Worked::Changes => &CHANGES,
        Worked::Harvests => &HARVESTS,
        Worked::Knowledge => &KNOWLEDGE,
        Worked::Plans => &PLANS,
        Worked::Counts => &COUNTS,
        Worked::OtherVerdicts => &OTHER_VERDICTS,
        Worked::Pictures => &PICTURES,
        Worked::ProductsLeft => &PRODUCTS_LEFT,
        Worked::Known => &KNOWN,
        Worked::Sights => &SIGHTS,
        Worked::Whys => &WHYS,
        Worked::Examples => &EXAMPLES,
        Worked::Offers => &OFFERS,
        Worked::NeedsAndRepairs => &NEEDS_AND_REPAIRS,
        Worked::Moves => &MOVES,
    }
}

static SETTLING: [Row; 11] = [
    Row {
        diagram: DIAGRAM,
        game: GAME,
        script: "settle / show / products",
        answers: "\
            settled 2 / decisions / full no / settled yes / 0 1 0 possible unsure / 1 0 1 possible unsure / in r / out \
            / open f g",
    },
    Row {
        diagram: DIAGRAM,
        game: GAME,
        script: "exclude f / settle / show / trail",
        answers: "\
            done 1 / settled 2 / decisions -f / full no / settled yes / 0 2 0 hopeless unsure / 1 0 1 possible unsure \
            / exclude f 1 / hopeful 0 0 2 -f / dual 1 0 1 -f / entries 3",
    },
    Row {
        diagram: DIAGRAM,
        game: GAME,
        script: "select f / settle / show",
        answers: "\
            done 1 / settled 3 / decisions +f / full no / settled yes / 0 1 2 possible sure / 1 0 2 possible sure",
    },
    Row {
        diagram: DIAGRAM,
        game: GAME,
        script: "exclude f / select g / select r / settle / show / products / plan",
        answers: "\
            done 1 / done 2 / done 3 / settled 3 / decisions -f +g +r / full yes / settled yes / 0 2 0 hopeless unsure \
            / 1 2 1 hopeless unsure / in r g / out f / open / plans 0",
    },
    Row {
        diagram: DIAGRAM,
        game: "parity 0; 0 0 0 0[f];",
        script: "exclude f / settle / show",
        answers: "done 1 / settled 1 / decisions -f / full no / settled yes / 0 1 0 hopeless unsure",
    },
    Row {
        diagram: DIAGRAM,
        game: "parity 0; 0 1 1 0[f];",
        script: "settle / show",
        answers: "settled 0 / decisions / full no / settled yes / 0 0 0 possible unsure",
    },
    Row {
        diagram: DIAGRAM,
        game: "parity 0; 0 1 1 0[f];",
        script: "exclude f / settle / show",
        answers: "done 1 / settled 1 / decisions -f / full no / settled yes / 0 0 1 possible sure",
    },
    Row {
        diagram: DIAGRAM,
        game: "parity 0; 0 1 1 0[f];",
        script: "select f / settle / show",
        answers: "done 1 / settled 1 / decisions +f / full no / settled yes / 0 2 0 hopeless unsure",
    },
    Row {
        diagram: DIAGRAM,
        game: GAME,
        script: "settle 0 / settle 1 / settle 0 / trail",
        answers: "unsettled 0 / settled 2 / settled 0 / hopeful 0 0 1 / dual 1 0 1 / entries 2",
    },
    Row {
        diagram: DIAGRAM,
        game: GAME,
        script: "exclude f / settle 1 / settle 1 / settle 1",
        answers: "done 1 / unsettled 2 / settled 1 / settled 0",
    },
    Row {
        diagram: DIAGRAM,
        game: "parity 1; 0 1 0 1[f & !g]; 1 2 0 1;",
        script: "select g / settle / show",
        answers: "\
            done 1 / settled 2 / decisions +g / full no / settled yes / 0 2 0 hopeless unsure / 1 0 2 possible sure",
    },
];

static CHANGES: [Row; 11] = [
    Row {
        diagram: DIAGRAM,
        game: GAME,
        script: "exclude f / settle / undo / trail / lift hopeful 0 / redo / trail / undo / trail",
        answers: "\
            done 1 / settled 2 / undone 1 / entries 0 / added 1 / redone 1 / exclude f 1 / hopeful 0 0 2 -f / dual 1 0 \
            1 -f / entries 3 / undone 1 / hopeful 0 0 1 / entries 1",
    },
    Row {
        diagram: DIAGRAM,
        game: GAME,
        script: "select f / select g / settle / retract f / trail / settle / show",
        answers: "\
            done 1 / done 2 / settled 3 / done 3 / select g 2 / entries 1 / settled 2 / decisions +g / full no / \
            settled yes / 0 1 0 possible unsure / 1 0 1 possible unsure",
    },
    Row {
        diagram: DIAGRAM,
        game: GAME,
        script: "select f / select g / settle / retract f / undo / show / trail",
        answers: "\
            done 1 / done 2 / settled 3 / done 3 / undone 3 / decisions +f +g / full yes / settled yes / 0 1 2 \
            possible sure / 1 0 2 possible sure / select f 1 / select g 2 / hopeful 0 0 1 +f +g / dual 0 0 2 +f +g / \
            dual 1 0 2 +f +g / entries 5",
    },
    Row {
        diagram: DIAGRAM,
        game: GAME,
        script: "select f / 2: select f / 2: exclude f / retract g / retract r / select x",
        answers: "\
            done 1 / refused AlreadyDecided 1 / refused AlreadyDecided 1 / refused NotDecided / refused NotDecided / \
            refused UnknownFeature",
    },
    Row {
        diagram: DIAGRAM,
        game: GAME,
        script: "select f / select g / undo 1 / keep 2 / undo 1",
        answers: "done 1 / done 2 / refused NotNewest 2 / kept 2 / refused Sealed",
    },
    Row {
        diagram: DIAGRAM,
        game: GAME,
        script: "select f / undo / select g / redo / forget 1 / redo",
        answers: "done 1 / undone 1 / done 2 / refused Overtaken / forgotten 1 / refused NoToken",
    },
    Row {
        diagram: DIAGRAM,
        game: GAME,
        script: "select f / select g / undo / undo / redo 2 / redo / redo / undo / undo / forget 1 / redo 2",
        answers: "\
            done 1 / done 2 / undone 2 / undone 1 / refused NotNext 1 / redone 1 / redone 2 / undone 2 / undone 1 / \
            forgotten 1 / refused Overtaken",
    },
    Row {
        diagram: DIAGRAM,
        game: GAME,
        script: "lift dual 1 / lift hopeful 9 / commit 7",
        answers: "added 1 / refused NoVertex / refused NoHarvest",
    },
    Row {
        diagram: DIAGRAM,
        game: GAME,
        script: "select f / exclude f / select x",
        answers: "done 1 / refused AlreadyDecided 1 / refused UnknownFeature",
    },
    Row {
        diagram: DIAGRAM,
        game: GAME,
        script: "select f / 2: undo / 64: redo 1 / 01: undo",
        answers: "done 1 / undone 1 / redone 1 / undone 1",
    },
    Row {
        diagram: DIAGRAM,
        game: GAME,
        script: "settle 1000000000 / keep 18446744073709551615 / lift hopeful 4294967295 / commit 18446744073709551615",
        answers: "settled 2 / refused NoToken / refused NoVertex / refused NoHarvest",
    },
];

static HARVESTS: [Row; 10] = [
    Row {
        diagram: DIAGRAM,
        game: GAME,
        script: "exclude f / harvest / retract f / commit 1 / 2: exclude f / commit 1 / show",
        answers: "\
            done 1 / harvest 1 / done 2 / refused Outdated f / done 3 / added 2 / decisions -f / full no / settled yes \
            / 0 2 0 hopeless unsure / 1 0 1 possible unsure",
    },
    Row {
        diagram: DIAGRAM,
        game: GAME,
        script: "exclude f / harvest / retract f / commit 1 / exclude f / commit 1 / show",
        answers: "\
            done 1 / harvest 1 / done 2 / refused Outdated f / done 3 / added 2 / decisions -f / full no / settled yes \
            / 0 2 0 hopeless unsure / 1 0 1 possible unsure",
    },
    Row {
        diagram: DIAGRAM,
        game: GAME,
        script: "exclude f / harvest / select g / commit 1",
        answers: "done 1 / harvest 1 / done 2 / added 2",
    },
    Row {
        diagram: DIAGRAM,
        game: GAME,
        script: "exclude f / harvest / undo / commit 1 / redo / commit 1",
        answers: "done 1 / harvest 1 / undone 1 / refused Outdated f / redone 1 / added 2",
    },
    Row {
        diagram: DIAGRAM,
        game: GAME,
        script: "exclude f / harvest / retract f / select f / commit 1",
        answers: "done 1 / harvest 1 / done 2 / done 3 / refused Outdated f",
    },
    Row {
        diagram: DIAGRAM,
        game: GAME,
        script: "exclude f / harvest / keep 1 / commit 1",
        answers: "done 1 / harvest 1 / kept 1 / added 2",
    },
    Row {
        diagram: DIAGRAM,
        game: GAME,
        script: "exclude f / harvest / settle / commit 1 / commit 1",
        answers: "done 1 / harvest 1 / settled 2 / added 0 / refused NoHarvest",
    },
    Row {
        diagram: DIAGRAM,
        game: GAME,
        script: "harvest / exclude f / commit 1 / retract f / trail",
        answers: "harvest 1 / done 1 / added 2 / done 2 / hopeful 0 0 1 / dual 1 0 1 / entries 2",
    },
    Row {
        diagram: DIAGRAM,
        game: GAME,
        script: "exclude f / harvest / select g / lift hopeful 0 / commit 1 / retract g / trail / undo / trail",
        answers: "\
            done 1 / harvest 1 / done 2 / added 1 / added 2 / done 3 / exclude f 1 / hopeful 0 0 2 -f / dual 1 0 1 -f \
            / entries 3 / undone 3 / exclude f 1 / select g 2 / hopeful 0 0 1 -f +g / hopeful 0 1 2 -f / dual 1 0 1 -f \
            / entries 5",
    },
    Row {
        diagram: DIAGRAM,
        game: GAME,
        script: "\
            reset / harvest / exclude f / 2: select g / commit 1 / lift hopeful 0 / trail / 3: reset / trail / reset \
            / undo / trail / redo / show",
        answers: "\
            refused NotDecided / harvest 1 / done 1 / done 2 / added 2 / added 1 / exclude f 1 / select g 2 \
            / hopeful 0 0 1 / dual 1 0 1 / hopeful 0 1 2 -f +g / entries 5 / done 3 / hopeful 0 0 1 / dual 1 0 1 \
            / entries 2 / refused NotDecided / undone 3 / exclude f 1 / select g 2 / hopeful 0 0 1 / dual 1 0 1 \
            / hopeful 0 1 2 -f +g / entries 5 / redone 3 / decisions / full no / settled yes / 0 1 0 possible unsure \
            / 1 0 1 possible unsure",
    },
];

static KNOWLEDGE: [Row; 9] = [
    Row {
        diagram: DIAGRAM,
        game: GAME,
        script: "select f / select g / show",
        answers: "\
            done 1 / done 2 / decisions +f +g / full yes / settled no / 0 0 0 possible unsure / 1 0 0 possible unsure",
    },
    Row {
        diagram: DIAGRAM,
        game: GAME,
        script: "exclude r",
        answers: "refused Conflict r",
    },
    Row {
        diagram: "root r\nalternative r: a b\n",
        game: DOT,
        script: "select a / products / select b / products",
        answers: "done 1 / in r a / out b / open / refused Conflict b / in r a / out b / open",
    },
    Row {
        diagram: "root r\ngroup r 1 1: a b\n",
        game: DOT,
        script: "select a / products / select b / products",
        answers: "done 1 / in r a / out b / open / refused Conflict b / in r a / out b / open",
    },
    Row {
        diagram: "\
            root r\nalternative r: a b\nalternative r: c d\nexcludes a c\nexcludes a d\nexcludes b c\nexcludes b d\n",
        game: DOT,
        script: "select a / exclude a",
        answers: "refused Conflict a / refused Conflict a",
    },
    Row {
        diagram: "root r\nor r: a b\ngroup r 1 2: c d e\n",
        game: DOT,
        script: "exclude a / products / exclude b / select c / select d / products / select e",
        answers: "\
            done 1 / in r b / out a / open c d e / refused Conflict b / done 2 / done 3 / in r b c d / out a e / open \
            / refused Conflict e",
    },
    Row {
        diagram: "root r\nor r: a b\ngroup r 1 2: c d e\n",
        game: DOT,
        script: "exclude c / exclude d / products",
        answers: "done 1 / done 2 / in r e / out c d / open a b",
    },
    Row {
        diagram: "root r\noptional r p\ngroup p 2 2: a b\n",
        game: DOT,
        script: "exclude a / products",
        answers: "done 1 / in r / out p a b / open",
    },
    Row {
        diagram: "root r\ngroup r 0 0: a\n",
        game: DOT,
        script: "select a",
        answers: "refused Conflict a",
    },
];

static PLANS: [Row; 1] = [Row {
    diagram: DIAGRAM,
    game: GAME,
    script: "plan / select f / select g / plan / settle / plan",
    answers: "refused NotFull / done 1 / done 2 / refused NotSettled / settled 3 / plan 0 1 / plans 1",
}];

static COUNTS: [Row; 3] = [
    Row {
        diagram: DIAGRAM,
        game: GAME,
        script: "\
            count / select f / select g / settle / count / retract f / retract g / exclude f / 2: settle / 2: count",
        answers: "\
            hopeless 0 / possible 2 / sure 0 / unsure 2 / settled no / full no / done 1 / done 2 / settled 3 / \
            hopeless 0 / possible 2 / sure 2 / unsure 0 / settled yes / full yes / done 3 / done 4 / done 5 / settled \
            2 / hopeless 1 / possible 1 / sure 0 / unsure 2 / settled yes / full no",
    },
    Row {
        diagram: DIAGRAM,
        game: DOT,
        script: "settle / count",
        answers: "settled 1 / hopeless 0 / possible 1 / sure 1 / unsure 0 / settled yes / full no",
    },
    // A page that is empty without a conflict.
    Row {
        diagram: "root r\nor r: a b\nor r: c d\nexcludes a c\nexcludes a d\nexcludes b c\nexcludes b d\n",
        game: DOT,
        script: "settle / count",
        answers: "settled 1 / hopeless 0 / possible 1 / sure 1 / unsure 0 / settled yes / full no empty",
    },
];

static OTHER_VERDICTS: [Row; 2] = [
    // Undo and redo change no verdict that was reported: the next `changed` reports theirs.
    Row {
        diagram: DIAGRAM,
        game: GAME,
        script: "\
            changed / exclude f / changed / 2: settle / 3: changed / changed / undo / changed / redo / settle / \
            changed / select g / exclude h / settle / changed",
        answers: "\
            changed 0 / done 1 / changed 0 / settled 2 / 0 possible unsure hopeless unsure / changed 1 / \
            changed 0 / undone 1 / 0 hopeless unsure possible unsure / changed 1 / redone 1 / settled 0 / 0 \
            possible unsure hopeless unsure / changed 1 / done 2 / refused UnknownFeature / settled 1 / 1 \
            possible unsure hopeless unsure / changed 1",
    },
    Row {
        diagram: DIAGRAM,
        game: "0 1 0 0[f],1; 7 0 0 7; 1 1 1 1[!g],7[f & g];",
        script: "\
            settle / changed / select f / settle / changed / select g / settle / changed / retract f / settle / \
            changed",
        answers: "\
            settled 2 / 7 possible unsure possible sure / changed 1 / done 1 / settled 0 / changed 0 / done 2 / \
            settled 4 / 0 possible unsure possible sure / 1 possible unsure possible sure / changed 2 / done 3 \
            / settled 2 / changed 0",
    },
];

static PICTURES: [Row; 2] = [
    // A name of a vertex is not drawn.
    Row {
        diagram: DIAGRAM,
        game: "parity 7; 7 1 0 7,0[!g | (f & !!r)] \"one\"; 0 2 1 7[!(f | g)],0;",
        script: "draw / exclude f / select g / settle / draw",
        answers: "\
            digraph game { /   graph [label=\"decisions\", labelloc=t, rankdir=LR]; /   node [style=filled]; /   7 \
            [shape=diamond, label=\"7 : 1\", fillcolor=white, color=gray40]; /   0 [shape=box, label=\"0 : 2\", \
            fillcolor=white, color=gray40]; /   7 -> 7 [style=solid]; /   7 -> 0 [label=\"!g | f & !!r\", \
            style=dashed, color=steelblue, fontcolor=steelblue]; /   0 -> 7 [label=\"!(f | g)\", style=dashed, \
            color=steelblue, fontcolor=steelblue]; /   0 -> 0 [style=solid]; / } / done 1 / done 2 / settled 2 \
            / digraph game { /   graph [label=\"decisions -f +g\", labelloc=t, rankdir=LR]; /   node \
            [style=filled]; /   7 [shape=diamond, label=\"7 : 1\", fillcolor=mistyrose, color=firebrick]; /   0 \
            [shape=box, label=\"0 : 2\", fillcolor=honeydew, color=darkgreen]; /   7 -> 7 [style=solid]; /   7 \
            -> 0 [label=\"!g | f & !!r\", style=dotted, color=gray70, fontcolor=gray50]; /   0 -> 7 \
            [label=\"!(f | g)\", style=dotted, color=gray70, fontcolor=gray50]; /   0 -> 0 [style=solid]; / }",
    },
    // Parts that can be reached: over any edge that may be there, by Odd's moves, by Even's, and if an edge is gone.
    Row {
        diagram: "root r\noptional r a\noptional r b\noptional r c\n",
        game: "0 1 1 1,2[c]; 1 1 0 0,3[a]; 2 0 1 2; 3 1 1 3; 4 0 0 4[b],5; 5 0 0 4,5[c];",
        script: "draw 1 / settle / draw 0 / draw 4 / exclude a / settle / 2: draw 1 / draw 7",
        answers: "\
            digraph part { /   graph [label=\"decisions\", labelloc=t, rankdir=LR]; /   node \
            [style=filled]; /   0 [shape=box, label=\"0 : 1\", fillcolor=white, color=gray40]; /   1 \
            [shape=diamond, label=\"1 : 1\", penwidth=3, fillcolor=white, color=gray40]; /   2 [shape=box, \
            label=\"2 : 0\", fillcolor=white, color=gray40]; /   3 [shape=box, label=\"3 : 1\", \
            fillcolor=white, color=gray40]; /   0 -> 1 [style=solid]; /   0 -> 2 [label=\"c\", \
            style=dashed, color=steelblue, fontcolor=steelblue]; /   1 -> 0 [style=solid]; /   1 -> 3 \
            [label=\"a\", style=dashed, color=steelblue, fontcolor=steelblue]; /   2 -> 2 [style=solid]; \
            /   3 -> 3 [style=solid]; / } / settled 6 / digraph part { /   graph [label=\"decisions\", \
            labelloc=t, rankdir=LR]; /   node [style=filled]; /   0 [shape=box, label=\"0 : 1\", \
            penwidth=3, fillcolor=mistyrose, color=firebrick]; /   1 [shape=diamond, label=\"1 : 1\", \
            fillcolor=mistyrose, color=firebrick]; /   3 [shape=box, label=\"3 : 1\", fillcolor=mistyrose, \
            color=firebrick]; /   0 -> 1 [style=solid, color=\"#b03a1e\", penwidth=2.6]; /   1 -> 0 \
            [style=solid]; /   1 -> 3 [label=\"a\", style=dashed, color=steelblue, fontcolor=steelblue]; \
            /   3 -> 3 [style=solid, color=\"#b03a1e\", penwidth=2.6]; / } / digraph part { /   graph \
            [label=\"decisions\", labelloc=t, rankdir=LR]; /   node [style=filled]; /   4 [shape=diamond, \
            label=\"4 : 0\", penwidth=3, fillcolor=honeydew, color=darkgreen]; /   5 [shape=diamond, \
            label=\"5 : 0\", fillcolor=honeydew, color=darkgreen]; /   4 -> 5 [style=solid, \
            color=\"#3f7d2c\", penwidth=2.6]; /   5 -> 4 [style=solid, color=\"#3f7d2c\", penwidth=2.6]; / \
            } / done 1 / settled 0 / digraph part { /   graph [label=\"decisions -a\", labelloc=t, \
            rankdir=LR]; /   node [style=filled]; /   0 [shape=box, label=\"0 : 1\", fillcolor=mistyrose, \
            color=firebrick]; /   1 [shape=diamond, label=\"1 : 1\", penwidth=3, fillcolor=mistyrose, \
            color=firebrick]; /   0 -> 1 [style=solid, color=\"#b03a1e\", penwidth=2.6]; /   1 -> 0 \
            [style=solid]; / } / refused NoVertex",
    },
];

static PRODUCTS_LEFT: [Row; 2] = [
    // d is in each product with a, though no line alone makes it known.
    Row {
        diagram: "root r\noptional r a\nor a : b c\noptional r d\nrequires b d\nrequires c d\n",
        game: DOT,
        script: "\
            forced / empty / number / select a / forced / number / known d / empty / select c / exclude b / forced / \
            number",
        answers: "\
            forced 0 / product r a b c d / number 5 / done 1 / forced +d / forced 1 / number 3 / open d / \
            product r a b c d / done 2 / done 3 / forced 0 / number 1",
    },
    // No product has b, and no decision conflicts.
    Row {
        diagram: "\
            root r\noptional r b\nor b : c d\nalternative r : p q\nrequires c p\nrequires c q\nrequires d p\n\
            requires d q\n",
        game: "parity 1; 0 1 0 1[b],0; 1 2 1 0[p],1;",
        script: "\
            forced / empty / winners 0 / number / select b / forced / empty / number / example 0 / winners 0 / \
            decide 0 / select p / empty / retract b / empty / forced",
        answers: "\
            forced -b / forced -c / forced -d / forced 3 / product r p / lost 0 2 / winners 0 0 1 / number 2 / \
            done 1 / none / empty +b / number 0 / none / winners 0 0 0 / empty / refused Conflict p / empty +b / \
            done 2 / product r p / forced -b / forced -c / forced -d / forced 3",
    },
];

static KNOWN: [Row; 3] = [
    Row {
        diagram: DIAGRAM,
        game: GAME,
        script: "known r / known f / exclude f / 2: known f / why f / select g / known g / undo / known g / \
            known h / known r / why r",
        answers: "in r / open f / done 1 / out f / out f -f / done 2 / in g / undone 2 / open g / \
            refused UnknownFeature / in r / in r",
    },
    // Each product has c, though it isn't known.
    Row {
        diagram: "root r\noptional r c\nalternative r: a b\nrequires a c\nrequires b c\n",
        game: DOT,
        script: "known c / select a / known c / known b / retract a / known c",
        answers: "open c / done 1 / in c / out b / done 2 / open c",
    },
    // A guard that names a feature in vain uses it, a successor that is named twice is one edge, and decisions make no
    // difference.
    Row {
        diagram: "root r\noptional r a\noptional r b\nexcludes a b\n",
        game: "5 1 0 3[a],5[!a | b],3[b],4[a & !a]; 3 2 0; 4 0 1 5[b & false],4;",
        script: "uses a / uses b / uses r / select a / uses b / uses c",
        answers: "\
            use 5 3 / use 5 5 / use 5 4 / uses 3 / use 5 3 / use 5 5 / use 4 5 / uses 3 / uses 0 / done 1 / use 5 3 / \
            use 5 5 / use 4 5 / uses 3 / refused UnknownFeature",
    },
];

static SIGHTS: [Row; 9] = [
    Row {
        diagram: DIAGRAM,
        game: GAME,
        script: "show 1 / exclude f / settle / show 00 1",
        answers: "1 0 0 possible unsure / done 1 / settled 2 / 0 2 0 hopeless unsure / 1 0 1 possible unsure",
    },
    Row {
        diagram: DIAGRAM,
        game: GAME,
        script: "show 7 / show 0 7 / assert 7 sure",
        answers: "refused NoVertex / refused NoVertex / refused NoVertex",
    },
    Row {
        diagram: DIAGRAM,
        game: GAME,
        script: "exclude f / assert 0 hopeless / assert 0 possible / assert 0 sure unsure hopeless",
        answers: "done 1 / fails hopeless unsettled / fails possible unsettled / fails sure unsure hopeless unsettled",
    },
    Row {
        diagram: DIAGRAM,
        game: GAME,
        script: "exclude f / 2: settle / assert 0 hopeless unsure / assert 0 sure / assert 0 sure possible unsure",
        answers: "done 1 / settled 2 / holds / fails sure / fails sure possible",
    },
    Row {
        diagram: DIAGRAM,
        game: GAME,
        script: "assert settled / settle / assert settled / assert full / select f / exclude g / assert full",
        answers: "fails settled / settled 2 / holds / fails full / done 1 / done 2 / holds",
    },
    Row {
        diagram: DIAGRAM,
        game: "5 1 0 5; 3 2 0 3; 4 0 1 5[f],3;",
        script: "lift hopeful 5 / lift hopeful 5 / assert 5 hopeless / assert 5 hopeless unsure / assert 5 possible",
        answers: "added 1 / added 1 / holds / fails unsure unsettled / fails possible",
    },
    Row {
        diagram: DIAGRAM,
        game: "5 1 0 5; 3 2 0 3; 4 0 1 5[f],3;",
        script: "lift hopeful 5 / lift hopeful 5 / assert 5 possible sure / settle / assert 4 possible unsure",
        answers: "added 1 / added 1 / fails possible sure unsettled / settled 2 / holds",
    },
    // An exact verdict may be asserted before the page is settled.
    Row {
        diagram: DIAGRAM,
        game: GAME,
        script: "assert 0 won / assert 0 mixed / exclude f / assert 0 lost / assert 0 won / 2: assert 0 hopeless / \
            assert 7 won / undo / select f / exclude g / assert 0 won / assert 1 lost",
        answers: "fails won / holds / done 1 / holds / fails won / fails hopeless unsettled / refused NoVertex / \
            undone 1 / done 2 / done 3 / holds / fails lost",
    },
    // No product has b, and no decision conflicts.
    Row {
        diagram: "\
            root r\noptional r b\nor b : c d\nalternative r : p q\nrequires c p\nrequires c q\nrequires d p\n\
            requires d q\n",
        game: "parity 1; 0 1 0 1[b],0; 1 2 1 0[p],1;",
        script: "\
            assert 0 lost / select b / settle / assert 0 sure / assert 0 won / assert 0 mixed / \
            assert 0 hopeless possible / assert full / retract b / assert 0 hopeless / assert 0 lost",
        answers: "\
            holds / done 1 / settled 3 / fails empty / fails empty / fails empty / fails empty / fails full / \
            done 2 / fails hopeless unsettled / holds",
    },
];

static WHYS: [Row; 3] = [
    Row {
        diagram: DIAGRAM,
        game: GAME,
        script: "\
            why 0 / why r / why f / why +r / why -r / why -f / exclude g / exclude f / why 0 / settle / why 0 / why 1 \
            / why f / why +f / 2: why -f / why 7 / why h / why +h / retract f / select f / settle / why 0 / why 1 / \
            why g",
        answers: "\
            possible 0 / unsure 0 / in r / refused NotKnown / refused NoConflict / conflict -r / refused NoConflict / \
            done 1 / done 2 / possible 0 / unsure 0 / settled 2 / hopeless 0 -f / unsure 0 / possible 1 / sure 1 -g / \
            out f -f / conflict +f -f / refused NoConflict / refused NoVertex / refused UnknownFeature / refused \
            UnknownFeature / done 3 / done 4 / settled 3 / possible 0 / sure 0 +f / possible 1 / sure 1 -g / out g -g",
    },
    // Two decisions are needed together, and of two that suffice the older one is named.
    Row {
        diagram: "\
            root r\noptional r a\noptional r b\noptional r c\noptional r d\nrequires a d\nrequires b d\nexcludes c d\n",
        game: "0 0 0 1[!a | !b]; 1 0 0 1;",
        script: "\
            select c / why d / why a / why +a / why +d / retract c / select b / select a / why d / why +c / why -d / \
            settle / why 0 / retract b / select b / why d / settle / why 0",
        answers: "\
            done 1 / out d +c / out a +c / conflict +a +c / conflict +d +c / done 2 / done 3 / done 4 / in d +b / \
            conflict +c +b / conflict -d +b / settled 2 / hopeless 0 +b +a / unsure 0 / done 5 / done 6 / in d +a / \
            settled 2 / hopeless 0 +a +b / unsure 0",
    },
    Row {
        diagram: "root r\noptional r a\noptional r b\noptional r c\n",
        game: "0 0 0 1[!a & !b]; 1 0 0 1;",
        script: "select c / select b / select a / settle / why 0 / why 1",
        answers: "done 1 / done 2 / done 3 / settled 2 / hopeless 0 +b / unsure 0 / possible 1 / sure 1",
    },
];

static EXAMPLES: [Row; 4] = [
    Row {
        diagram: DIAGRAM,
        game: GAME,
        script: "\
            example 0 / counterexample 0 / example 1 / counterexample 1 / exclude f / example 0 / 2: counterexample 0 \
            / select g / counterexample 1 / example 7 / counterexample 7",
        answers: "\
            product r f g / product r g / product r f g / product r g / done 1 / none / product r g / done 2 / product \
            r g / refused NoVertex / refused NoVertex",
    },
    Row {
        diagram: "root r\noptional r a\noptional r b\nexcludes a b\n",
        game: "0 0 0 1[a & b],0[!a]; 1 0 0 1; 2 0 0 1[a],1[!a]; 3 0 1 1[a],1[!a],3[a & b];",
        script: "\
            settle / example 0 / counterexample 0 / example 2 / counterexample 2 / select a / settle / why 0 / example \
            0 / why 2 / counterexample 2",
        answers: "\
            settled 2 / product r b / product r a / product r a / none / done 1 / settled 2 / hopeless 0 +a / unsure 0 \
            / none / possible 2 / sure 2 +a / none",
    },
    Row {
        diagram: DIAGRAM,
        game: GAME,
        script: "\
            winners 0 / decide 0 / winners 1 / decide 1 / exclude f / winners 0 / decide 0 / winners 1 / 2: select g / \
            winners 1 / winners 7 / decide 7",
        answers: "\
            won 0 +f 2 / lost 0 -f 2 / winners 0 1 1 / mixed 0 / product r f g / product r g / won 1 +f 2 / \
            lost 1 -f +g 1 / won 1 -f -g 1 / winners 1 2 1 / mixed 1 / product r f g / product r g / done 1 / \
            lost 0 2 / winners 0 0 1 / lost 0 / lost 1 +g 1 / won 1 -g 1 / winners 1 1 1 / done 2 / lost 1 1 / \
            winners 1 0 1 / refused NoVertex / refused NoVertex",
    },
    // Parts with a and without it are joined.
    Row {
        diagram: "root r\noptional r a\noptional r b\n",
        game: "0 0 0 0[b];",
        script: "winners 0 / decide 0",
        answers: "won 0 +b 2 / lost 0 -b 2 / winners 0 1 1 / mixed 0 / product r a b / product r a",
    },
];

static OFFERS: [Row; 3] = [
    Row {
        diagram: DIAGRAM,
        game: GAME,
        script: "offer 0 / offer 1 / select f / settle / 2: offer 0 / offer 1 / select g / offer 0 / offer 7",
        answers: "\
            offer +f possible sure won / offer -f hopeless unsure lost / offer +g possible unsure mixed / offer -g \
            possible unsure mixed / offers 4 / offer +f possible sure won / offer -f possible unsure mixed / offer +g \
            possible unsure mixed / offer -g possible sure won / offers 4 / done 1 / settled 3 / offer +g possible \
            sure won / offer -g possible sure won / offers 2 / offer +g possible sure won / offer -g possible sure won \
            / offers 2 / done 2 / offers 0 / refused NoVertex",
    },
    // Each product has c, though it isn't known; to exclude it contradicts.
    Row {
        diagram: "root r\noptional r c\nalternative r: a b\nrequires a c\nrequires b c\n",
        game: "0 0 0 1[c],2[a]; 1 1 1 1[b],0[!b]; 2 0 1;",
        script: "offer 0 / offer 2 / exclude a / settle / offer 1",
        answers: "\
            offer +c possible unsure mixed / offer -c conflict / offer +a possible sure won / offer -a hopeless unsure \
            lost / offer +b hopeless unsure lost / offer -b possible sure won / offers 6 / offer +c possible sure won \
            / offer -c conflict / offer +a possible sure won / offer -a possible sure won / offer +b possible sure won \
            / offer -b possible sure won / offers 6 / done 1 / settled 4 / offers 0",
    },
    // A successor that is named twice is one edge, and a vertex may have none.
    Row {
        diagram: "root r\noptional r a\noptional r b\nexcludes a b\n",
        game: "5 1 0 3[a],5[!a],3[b],4[a & b]; 3 2 0; 4 0 1 5;",
        script: "\
            edges 5 / edges 3 / edges 4 / select a / 2: edges 5 / retract a / exclude a / edges 5 / edges 7",
        answers: "\
            edge 5 3 open / edge 5 5 open / edge 5 4 open / edges 3 / edges 0 / edge 4 5 in / edges 1 / done 1 / \
            edge 5 3 in / edge 5 5 out / edge 5 4 out / edges 3 / done 2 / done 3 / edge 5 3 open / edge 5 5 in / \
            edge 5 4 out / edges 3 / refused NoVertex",
    },
];

static NEEDS_AND_REPAIRS: [Row; 4] = [
    Row {
        diagram: DIAGRAM,
        game: GAME,
        script: "\
            needs 0 / needs 1 / repair 0 / exclude g / exclude f / settle / needs 0 / 2: repair 0 / repair 1 / \
            needs 7 / repair 7",
        answers: "\
            needs +f / needs 1 / needs 0 / possible 0 / done 1 / done 2 / settled 2 / none / repair -f / \
            repairs 1 / possible 1 / refused NoVertex / refused NoVertex",
    },
    Row {
        diagram: "\
            root r\noptional r a\noptional r b\noptional r c\noptional r d\nrequires a d\nrequires b d\nexcludes c d\n",
        game: "0 0 0 1[!a | !b]; 1 0 0 1; 2 0 0 1[a],0[c]; 3 1 0 3;",
        script: "\
            needs 0 / needs 2 / needs 3 / repair 3 / select b / select a / repair 0 / settle / repair 0 / \
            repair 3 / needs 0 / needs 2",
        answers: "\
            needs 0 / needs 0 / none / none / done 1 / done 2 / repair +b / repair +a / repairs 2 / settled 4 / repair \
            +b / repair +a / repairs 2 / none / none / needs 0",
    },
    // Each of two decisions is enough, so both are retracted together; the oldest stays.
    Row {
        diagram: "root r\noptional r a\noptional r b\noptional r c\n",
        game: "0 0 0 1[!a & !b]; 1 0 0 1;",
        script: "\
            needs 0 / select c / select b / select a / settle / repair 0 / needs 0 / retract a / settle / \
            repair 0",
        answers: "\
            needs -a / needs -b / needs 2 / done 1 / done 2 / done 3 / settled 2 / repair +b +a / repairs 1 / \
            none / done 4 / settled 2 / repair +b / repairs 1",
    },
    // No product has f and g. Without the decision on f the vertex is possible, and still lost: that is marked.
    Row {
        diagram: "root r\noptional r f\noptional r g\noptional r h\noptional r k\nexcludes f g\n",
        game: "0 0 0 1[f & g],1[h & k]; 1 0 0 1;",
        script: "\
            exclude f / exclude h / repair 0 / settle / repair 0 / offer 0 / exclude k / repair 0 / settle / repair 0 \
            / why 0",
        answers: "\
            done 1 / done 2 / repair -h / repairs 1 / settled 2 / repair -h / repair -f lost / repairs 2 / \
            offer +g hopeless unsure lost / offer -g hopeless unsure lost / offer +k hopeless unsure lost / \
            offer -k hopeless unsure lost / offers 4 / done 3 / repair -h -k / repair -f lost / repairs 2 / settled 0 \
            / repair -h -k / repair -f lost / repairs 2 / hopeless 0 -f -h / unsure 0",
    },
];

static MOVES: [Row; 2] = [
    Row {
        diagram: DIAGRAM,
        game: GAME,
        script: "\
            plan / spoil 0 / plan 0 / exclude f / settle / spoil 0 / 2: spoil 1 / plan 0 / retract f / \
            select f / settle / plan 0 / 2: plan 1 / spoil 0 / spoil 7 / plan 7",
        answers: "\
            refused NotFull / possible 0 / unsure 0 / done 1 / settled 2 / spoils 0 / possible 1 / unsure 0 / \
            done 2 / done 3 / settled 3 / plan 0 1 / plans 1 / plan 0 1 / plans 1 / possible 0 / \
            refused NoVertex / refused NoVertex",
    },
    // Moves along edges that are open are not made, but met: 0 to 2 and 4 to itself, and 1 to 3.
    Row {
        diagram: "root r\noptional r a\noptional r b\noptional r c\n",
        game: "0 1 1 1,2[c]; 1 1 0 0,3[a]; 2 0 1 2; 3 1 1 3; 4 0 0 4[b],5; 5 0 0 4,5[c];",
        script: "\
            spoil 0 / plan 4 / settle / spoil 0 / spoil 1 / spoil 4 / plan 2 / plan 4 / plan 5 / exclude a / \
            settle / spoil 0 / select b / settle / plan 4 / plan 5 / plan",
        answers: "\
            possible 0 / unsure 4 / settled 6 / spoil 0 1 / spoil 3 3 / spoils 2 / spoil 0 1 / spoil 3 3 / \
            spoils 2 / possible 4 / plans 0 / plan 4 5 / plan 5 4 / plans 2 / plan 4 5 / plan 5 4 / plans 2 / \
            done 1 / settled 0 / spoil 0 1 / spoils 1 / done 2 / settled 0 / plan 4 4 / plans 1 / \
            plan 4 4 / plan 5 4 / plans 2 / refused NotFull",
    },
];

/// Appends vertices of Even with an edge to themselves alone, each of an odd priority of its own; or answers that there
/// was no memory.
fn put_climbers(vertices: u32, text: &mut String) -> bool {
    let mut done = true;
    let mut priority: u32 = 1;
    for v in 0..vertices {
        done &= write!(text, "{v} {priority} 0 {v};").is_ok();
        priority = priority.saturating_add(2);
    }
    done
}

/// Whether a vertex rises to the limit: with 62 odd priorities the top is 2^62, and the vertex of the greatest priority
/// rises to it in two lifts.
pub(super) fn rises_to_the_limit<T: Threads + Wait + Sync>(rt: &T, alloc: Global) -> bool {
    let script =
        "lift hopeful 61 / lift hopeful 61 / lift hopeful 61 / lift hopeful 0 / lift dual 61 / trail";
    let answers = "\
        added 1 / added 1 / added 0 / added 1 / added 0 / hopeful 61 0 2305843009213693952 / \
        hopeful 61 2305843009213693952 4611686018427387904 / hopeful 0 0 1 / entries 3";
    let mut game = String::new(alloc);
    put_climbers(62, &mut game) && is_answered(rt, alloc, DIAGRAM, game.as_str(), script, answers)
}
