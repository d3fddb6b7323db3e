//! Messages about a system and requirements in place of a game.
use super::DIAGRAM;
use crate::said::Said;
use std::alloc::Global;
use std::fs;
use std::test::*;
use vpg_family::{
    GamePaths, ModelPaths, Paths, Unread, checked, explained, line_of, linted, read_texts,
};

/// The files of a system, requirements and a diagram.
const PATHS: Paths<'static> = Paths {
    game: GamePaths::Model(ModelPaths {
        system: "modelled_system",
        requirements: "modelled_requirements",
    }),
    diagram: "modelled_diagram",
};

/// The texts of a diagram, a system and requirements, and the message about the first that is refused.
struct Row {
    diagram: &'static str,
    system: &'static str,
    requirements: &'static str,
    told: &'static str,
}

/// A system of two states.
const SYSTEM: &str = "des (0, 2, 2)\n(0, \"a [f]\", 1)\n(1, b, 0)\n";

/// A requirement.
const LIVE: &str = "deadlock free";

/// Requirements of 114,000 parts together, each within the limit.
const WIDE: &str = "\
a0 = <a>can b && can a; a1 = a0 && a0; a2 = a1 && a1; a3 = a2 && a2; a4 = a3 && a3; a5 = a4 && a4;\n\
a6 = a5 && a5; a7 = a6 && a6; a8 = a7 && a7; a9 = a8 && a8; a10 = a9 && a9; a11 = a10 && a10;\n\
a12 = a11 && a11; a13 = a12 && a12;\n";

/// Requirements with a last one that is beyond the limit.
const LONG: &str = "\
a0 = <a>can b && can a; a1 = a0 && a0; a2 = a1 && a1; a3 = a2 && a2; a4 = a3 && a3; a5 = a4 && a4;\n\
a6 = a5 && a5; a7 = a6 && a6; a8 = a7 && a7; a9 = a8 && a8; a10 = a9 && a9; a11 = a10 && a10;\n\
a12 = a11 && a11; a13 = a12 && a12; a14 = a13 && a13;\n";

/// A requirement with more parts open at one place than there may be.
const DEEP: &str = "!!!!!!!!!!!!!!!!!!!!!!!!!!!!!!!!!!!!!!!!!!!!!!!!!!!!!!!!!!!!!!!!!";

/// A requirement that is cut short where as many parts are open as there may be.
const CUT: &str = "!!!!!!!!!!!!!!!!!!!!!!!!!!!!!!!!!!!!!!!!!!!!!!!!!!!!!!!!!!!!!!!!&";

static ROWS: [Row; 30] = [
    Row {
        diagram: "root",
        system: "",
        requirements: "",
        told: "\
vpgdesk: diagram Syntax 1
modelled_diagram:1:5: the line ends; expected the name of the root
  hint: such a line is written `root NAME`
",
    },
    Row {
        diagram: DIAGRAM,
        system: " \n",
        requirements: "",
        told: "\
vpgdesk: system NoHeader 1
modelled_system:1:2: the line ends; expected `des`
  hint: the first line is written `des (FIRST, TRANSITIONS, STATES)`
",
    },
    Row {
        diagram: DIAGRAM,
        system: "des (0, two, 2)\n",
        requirements: "",
        told: "\
vpgdesk: system NoHeader 1
modelled_system:1:9: found `two`; expected the number of transitions
  hint: the first line is written `des (FIRST, TRANSITIONS, STATES)`
",
    },
    Row {
        diagram: DIAGRAM,
        system: "des (0, 0, 65537)\n",
        requirements: "",
        told: "\
vpgdesk: system TooMany 1
modelled_system:1:12: found `65537`; expected at most 65,536 states
",
    },
    Row {
        diagram: DIAGRAM,
        system: "des (0, 2, 2)\n(0, a, 1)\n0, b, 1)\n",
        requirements: "",
        told: "\
vpgdesk: system Syntax 3
modelled_system:3:1: found `0`; expected `(`
  hint: a transition is written `(SOURCE, \"LABEL\", TARGET)`
",
    },
    Row {
        diagram: DIAGRAM,
        system: "des (0, 2, 2)\n(0, a, 1)\n",
        requirements: "",
        told: "\
vpgdesk: system WrongCount 1
modelled_system:1:9: found `2`; expected the number of transitions below
  hint: lines below that are not blank: 1
",
    },
    Row {
        diagram: DIAGRAM,
        system: "\ndes (0, 1, 2)\n(0, a, 1)\n\n(1, b, 0)\n",
        requirements: "",
        told: "\
vpgdesk: system WrongCount 5
modelled_system:5:1: found `(`; expected no more transitions than the header counts
  hint: the header stands on line 2
",
    },
    Row {
        diagram: DIAGRAM,
        system: "des (0, 1, 2)\n(0, \"a f]\", 1)\n",
        requirements: "",
        told: "\
vpgdesk: system Label 2
modelled_system:2:5: found `\"a f]\"`; expected the name of an action, and then perhaps a guard between `[` and `]`
  hint: is a `[` missing before the guard?
",
    },
    Row {
        diagram: DIAGRAM,
        system: "des (0, 1, 2)\n(0, a, 2)\n",
        requirements: "",
        told: "\
vpgdesk: system NoState 2
modelled_system:2:8: found `2`; expected a state
  hint: states are the numbers below `2`, as the header says
",
    },
    Row {
        diagram: DIAGRAM,
        system: "des (0, 1, 2)\n(0, \"a [f & hh]\", 1)\n",
        requirements: "",
        told: "\
vpgdesk: system Guard 2 8 UnknownFeature 4
modelled_system:2:13: found `hh`; expected the name of a feature of the diagram
",
    },
    Row {
        diagram: DIAGRAM,
        system: SYSTEM,
        requirements: "",
        told: "\
vpgdesk: requirements Syntax 0
modelled_requirements:1:1: the text ends; expected a formula, or entries `NAME = FORMULA;`
",
    },
    Row {
        diagram: DIAGRAM,
        system: SYSTEM,
        requirements: "live = deadlock free\nsafe = never can b;",
        told: "\
vpgdesk: requirements Syntax 21
modelled_requirements:2:1: found `safe`; expected `&&`, `||`, `=>`, or the end of the formula
  hint: is `&&`, `||`, or the `;` of an entry missing before it?
",
    },
    Row {
        diagram: DIAGRAM,
        system: SYSTEM,
        requirements: "[a.b*]<c; true",
        told: "\
vpgdesk: requirements Syntax 8
modelled_requirements:1:9: found `;`; expected `.`, `+`, `*`, `&&`, `||`, or what closes it
",
    },
    Row {
        diagram: DIAGRAM,
        system: SYSTEM,
        requirements: "[!(a . b)]true",
        told: "\
vpgdesk: requirements Syntax 5
modelled_requirements:1:6: found `.`; expected `&&`, `||` or `)`
  hint: `!`, `&&`, `||`, `can`, `will` and `after` take action formulas, without `.`, `+` and `*`
",
    },
    Row {
        diagram: DIAGRAM,
        system: SYSTEM,
        requirements: "[(a . b) && c]true",
        told: "\
vpgdesk: requirements Syntax 9
modelled_requirements:1:10: found `&&`; expected `.`, `+`, `*`, or what closes it
  hint: `&&` and `||` join action formulas; `+` joins regular formulas
",
    },
    Row {
        diagram: DIAGRAM,
        system: SYSTEM,
        requirements: "[a && (b*)]true",
        told: "\
vpgdesk: requirements Syntax 8
modelled_requirements:1:9: found `*`; expected `&&`, `||` or `)`
  hint: `!`, `&&`, `||`, `can`, `will` and `after` take action formulas, without `.`, `+` and `*`
",
    },
    Row {
        diagram: DIAGRAM,
        system: SYSTEM,
        requirements: "can (a || b . c)",
        told: "\
vpgdesk: requirements Syntax 12
modelled_requirements:1:13: found `.`; expected `&&`, `||` or `)`
  hint: `!`, `&&`, `||`, `can`, `will` and `after` take action formulas, without `.`, `+` and `*`
",
    },
    Row {
        diagram: DIAGRAM,
        system: SYSTEM,
        requirements: "[a+ && b]true",
        told: "\
vpgdesk: requirements Syntax 4
modelled_requirements:1:5: found `&&`; expected an action, `!`, `(`, `.`, `+`, `*`, or what closes it
  hint: `&&` and `||` join action formulas; `+` joins regular formulas
",
    },
    Row {
        diagram: DIAGRAM,
        system: SYSTEM,
        requirements: "after (a) && b",
        told: "\
vpgdesk: requirements Syntax 10
modelled_requirements:1:11: found `&&`; expected a formula
",
    },
    Row {
        diagram: DIAGRAM,
        system: SYSTEM,
        requirements: "deadlock fret",
        told: "\
vpgdesk: requirements Syntax 9
modelled_requirements:1:10: found `fret`; expected `free`
",
    },
    Row {
        diagram: DIAGRAM,
        system: SYSTEM,
        requirements: DEEP,
        told: "\
vpgdesk: requirements TooDeep 64
modelled_requirements:1:65: found `!`; expected at most 64 parts that are open at one place
",
    },
    Row {
        diagram: DIAGRAM,
        system: SYSTEM,
        requirements: CUT,
        told: "\
vpgdesk: requirements Syntax 64
modelled_requirements:1:65: found `&`; expected a formula
  hint: `&&` stands for and
",
    },
    Row {
        diagram: DIAGRAM,
        system: SYSTEM,
        requirements: "live = nu X. <true>true && [true]Y;",
        told: "\
vpgdesk: requirements UnknownVariable 33
modelled_requirements:1:34: found `Y`; expected a variable that is bound there, or the name of an entry before
  hint: an action stands behind `can`, `will` or `after`, or between `<` and `>` or `[` and `]`
",
    },
    Row {
        diagram: DIAGRAM,
        system: SYSTEM,
        requirements: "live = deadlock free;\nsafe = lives || allways live;",
        told: "\
vpgdesk: requirements UnknownVariable 29
modelled_requirements:2:8: found `lives`; expected a variable that is bound there, or the name of an entry before
  hint: is `live` meant?
",
    },
    Row {
        diagram: DIAGRAM,
        system: SYSTEM,
        requirements: "a = b; b = true;",
        told: "\
vpgdesk: requirements UnknownVariable 4
modelled_requirements:1:5: found `b`; expected a variable that is bound there, or the name of an entry before
  hint: an entry is named before it is used; it is named on line 1
",
    },
    Row {
        diagram: DIAGRAM,
        system: SYSTEM,
        requirements: "a = true; % twice\na = false;",
        told: "\
vpgdesk: requirements Twice 18
modelled_requirements:2:1: found `a`; expected a name that no entry before has
  hint: the other entry stands on line 1
",
    },
    Row {
        diagram: DIAGRAM,
        system: SYSTEM,
        requirements: "mu X. !X",
        told: "\
vpgdesk: requirements NegatedVariable 7
modelled_requirements:1:8: found `X`; expected a variable under an even number of negations within its fixpoint
  hint: `!`, `never` and the left side of `=>` negate
",
    },
    Row {
        diagram: DIAGRAM,
        system: SYSTEM,
        requirements: LONG,
        told: "\
vpgdesk: requirements TooManyParts a14
modelled_requirements:3:37: `a14` has more than 65,536 parts
  hint: the parts of an entry count anew wherever a later one names it
",
    },
    Row {
        diagram: DIAGRAM,
        system: SYSTEM,
        requirements: WIDE,
        told: "\
vpgdesk: model TooManyVertices
modelled_requirements: the game of the system and these requirements has more than 65,536 vertices
  hint: a vertex is a state and a part of a requirement; ask fewer requirements at a time
",
    },
    Row {
        diagram: DIAGRAM,
        system: SYSTEM,
        requirements: LIVE,
        told: "vertices 9 edges 10 features 3 top 1 10\nrequirement 0\n",
    },
];

/// Systems and requirements with warnings, and these.
static WARNED: [Row; 3] = [
    Row {
        diagram: DIAGRAM,
        system: "\
des (0, 4, 4)
(0, \"log [f & !f]\", 1)
(1, serve, 0)
 (0, \"pay [g]\", 2)
(3, x, 0)
",
        requirements: "live = can serv;\nsafe = after pay (can x);\n",
        told: "\
modelled_system:5:1: warning: state 3 cannot be reached from the first state
modelled_system:2:11: warning: this guard is true in no product
modelled_system:2:1: warning: `log` is named by no requirement
modelled_system:3:1: warning: `serve` is named by no requirement
modelled_requirements:1:12: warning: `serv` is the action of no transition; is `serve` meant?
warnings 5
",
    },
    Row {
        diagram: DIAGRAM,
        system: "des (1, 2, 3)\n(1, \"a [f]\", 1)\n(1, \"send(d1, true) [g]\", 1)\n",
        requirements: "[!a]can send(d1,true) && <\"send(d1,true)\">true",
        told: "\
modelled_system:1:1: warning: state 0 cannot be reached from the first state
modelled_system:1:1: warning: state 2 cannot be reached from the first state
modelled_requirements:1:27: warning: `send(d1,true)` is the action of no transition; is `send(d1, true)` meant?
warnings 3
",
    },
    Row {
        diagram: DIAGRAM,
        system: SYSTEM,
        requirements: LIVE,
        told: "\
modelled_diagram:3:12: warning: `g` is named by no guard
modelled_system:2:1: warning: `a` is named by no requirement
modelled_system:3:1: warning: `b` is named by no requirement
warnings 3
",
    },
];

/// Writes the line that reports a fault, and the message about it.
fn put_fault(rt: &HostRuntime, unread: &Unread, said: &mut Said) {
    let Unread { fault, texts } = unread;
    said.put_made(line_of(said.alloc, fault));
    said.put_made(explained(rt, said.alloc, PATHS, texts, None, fault));
}

/// Writes the counts of the family, or the message about its files.
fn put_files(rt: &HostRuntime, said: &mut Said) {
    match read_texts(rt, said.alloc, PATHS) {
        Ok(texts) => said.put_answer(checked(said.alloc, &texts)),
        Err(unread) => put_fault(rt, &unread, said),
    }
}

/// Writes the warnings of the family, or the message about its files.
fn put_warned(rt: &HostRuntime, said: &mut Said) {
    match read_texts(rt, said.alloc, PATHS) {
        Ok(texts) => said.put_answer(linted(said.alloc, PATHS, &texts)),
        Err(unread) => put_fault(rt, &unread, said),
    }
}

fn are_written(rt: &HostRuntime, row: &Row) -> bool {
    fs::write(rt, "modelled_diagram", row.diagram).is_ok()
        && fs::write(rt, "modelled_system", row.system).is_ok()
        && fs::write(rt, "modelled_requirements", row.requirements).is_ok()
}

fn holds(rt: &HostRuntime, alloc: Global, row: &Row) -> bool {
    let mut said = Said::new(alloc);
    if are_written(rt, row) {
        put_files(rt, &mut said);
    }
    said.text() == row.told
}

/// Returns the wanted message of the first row that doesn't hold.
fn first_wrong(rt: &HostRuntime, alloc: Global) -> Option<&'static str> {
    for row in &ROWS {
        if !holds(rt, alloc, row) {
            return Some(row.told);
        }
    }
    None
}

/// Whether the warnings are those of the row.
fn is_warned_of(rt: &HostRuntime, alloc: Global, row: &Row) -> bool {
    let mut said = Said::new(alloc);
    if are_written(rt, row) {
        put_warned(rt, &mut said);
    }
    said.text() == row.told
}

/// Returns the wanted warnings of the first row that doesn't hold.
fn first_unwarned(rt: &HostRuntime, alloc: Global) -> Option<&'static str> {
    for row in &WARNED {
        if !is_warned_of(rt, alloc, row) {
            return Some(row.told);
        }
    }
    None
}

/// The messages about files that are not there, one after the other.
const GONE: &str = "\
vpgdesk: requirements unreadable
modelled_requirements: there is no such file, or it cannot be read
vpgdesk: system unreadable
modelled_system: there is no such file, or it cannot be read
vpgdesk: diagram unreadable
modelled_diagram: there is no such file, or it cannot be read
";

/// Writes the messages while one file after the other is removed. Returns whether each was there.
fn put_gone(rt: &HostRuntime, said: &mut Said) -> bool {
    let mut were_there = true;
    for path in [
        "modelled_requirements",
        "modelled_system",
        "modelled_diagram",
    ] {
        were_there = fs::remove_file(rt, path).is_ok() && were_there;
        put_files(rt, said);
    }
    were_there
}

#[test]
fn systems_and_requirements_are_refused_or_warned_of(rt: HostRuntime) -> Result<(), Fail> {
    let wrong = first_wrong(&rt, rt.alloc());
    let unwarned = first_unwarned(&rt, rt.alloc());
    let mut gone = Said::new(rt.alloc());
    let were_there = put_gone(&rt, &mut gone);
    assert_eq!(rt; wrong, None);
    assert_eq!(rt; unwarned, None);
    assert!(rt; were_there);
    assert_eq!(rt; gone.text(), GONE);
    Ok(())
}
