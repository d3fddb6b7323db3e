//! Messages about files that are refused.
use super::{DIAGRAM, GAME, PATHS};
use crate::said::Said;
use std::alloc::Global;
use std::fs;
use std::test::*;
use vpg_family::{Fault, Input, Texts, Unread, explained, explained_set, read_known};
use vpg_script::LineFault;

const GAME_FILE: &str = "explained_game";

const SCRIPT: &str = "explained_script";

/// The texts of a diagram, a game and a script, and the message about the first that is refused.
struct Row {
    diagram: &'static str,
    game: &'static str,
    script: &'static str,
    said: &'static str,
}

static ROWS: [Row; 5] = [
    Row {
        diagram: "root r\noptional r: f\n",
        game: "",
        script: "",
        said: "\
explained_diagram:2:11: found `:`; expected the name of a child
  hint: such a line is written `optional PARENT CHILD`
  hint: a name is missing before the `:`, or a `:` is left over
",
    },
    Row {
        diagram: GAME,
        game: DIAGRAM,
        script: "",
        said: "\
explained_diagram:1:1: found `parity`; expected `root`, `mandatory`, `optional`, `alternative`, `or`, `group`, \
`requires`, `excludes` or `rule`
  hint: this looks like the other file; GAME comes before DIAGRAM
",
    },
    Row {
        diagram: DIAGRAM,
        game: "0 1 0 0;\n1 2 1 0[h];",
        script: "",
        said: "explained_game:2:9: found `h`; expected the name of a feature of the diagram\n",
    },
    Row {
        diagram: DIAGRAM,
        game: GAME,
        script: "show\r\nslect f\n",
        said: "explained_script:2:1: found `slect`; expected a command\n  hint: is `select` meant?\n",
    },
    Row {
        diagram: DIAGRAM,
        game: GAME,
        script: "show\n  undo -1",
        said: "\
explained_script:2:8: found `-1`; expected the number of a change
  hint: it is written `undo [S]`
  hint: a number is digits alone
",
    },
];

/// Writes the message about a fault of these texts, or of a file.
fn put_explained(rt: &HostRuntime, texts: &Texts, fault: &Fault, said: &mut Said) {
    said.put_made(explained(rt, said.alloc, PATHS, texts, Some(SCRIPT), fault));
}

/// Writes the message about the fault of a family's files, and else about the second line of a script.
fn put_files(rt: &HostRuntime, said: &mut Said) {
    let unread = match read_known(rt, said.alloc, PATHS) {
        Ok(_) => Unread {
            fault: Fault::Line {
                line: 2,
                fault: LineFault::Word,
            },
            texts: Texts::none(said.alloc),
        },
        Err(unread) => unread,
    };
    put_explained(rt, &unread.texts, &unread.fault, said);
}

fn are_written(rt: &HostRuntime, row: &Row) -> bool {
    fs::write(rt, PATHS.diagram, row.diagram).is_ok()
        && fs::write(rt, GAME_FILE, row.game).is_ok()
        && fs::write(rt, SCRIPT, row.script).is_ok()
}

fn are_removed(rt: &HostRuntime) -> bool {
    fs::remove_file(rt, PATHS.diagram).is_ok()
        && fs::remove_file(rt, GAME_FILE).is_ok()
        && fs::remove_file(rt, SCRIPT).is_ok()
}

fn holds(rt: &HostRuntime, alloc: Global, row: &Row) -> bool {
    let mut said = Said::new(alloc);
    if are_written(rt, row) {
        put_files(rt, &mut said);
    }
    said.text() == row.said
}

/// Returns the wanted message of the first row that doesn't hold.
fn first_wrong(rt: &HostRuntime, alloc: Global) -> Option<&'static str> {
    for row in &ROWS {
        if !holds(rt, alloc, row) {
            return Some(row.said);
        }
    }
    None
}

/// Writes the message about a fault with a name.
fn put_named(rt: &HostRuntime, name: &str, is_conflict: bool, said: &mut Said) {
    match String::from_str(said.alloc, name) {
        Ok(name) => {
            let fault = if is_conflict {
                Fault::Conflict { feature: name }
            } else {
                Fault::UnknownFeature { name }
            };
            put_explained(rt, &Texts::none(said.alloc), &fault, said);
        }
        Err(_) => said.note(false),
    }
}

/// The messages about faults of another file, or of a word. An empty line follows each.
const BESIDE: &str = "\
found `gg`; expected the name of a feature of the diagram
  hint: is `g` meant?

explained_diagram:1:6: the diagram has no product: its lines contradict each other

explained_game: there is no such file, or it cannot be read

explained_game: it has more than 268,435,456 bytes

";

/// Writes the messages about faults of another file, or of a word.
fn put_beside(rt: &HostRuntime, said: &mut Said) {
    put_named(rt, "gg", false, said);
    said.put("\n");
    put_named(rt, "r", true, said);
    said.put("\n");
    let none = Texts::none(said.alloc);
    put_explained(rt, &none, &Fault::GameUnreadable, said);
    said.put("\n");
    let large = Fault::TooLarge { input: Input::Game };
    put_explained(rt, &none, &large, said);
    said.put("\n");
    put_explained(rt, &none, &Fault::NotAProduct, said);
}

/// Features of the diagram `LINES`, and the message about them, which is empty if they are a product.
struct Set {
    features: &'static [&'static str],
    said: &'static str,
}

static SETS: [Set; 5] = [
    Set {
        features: &["r", "f", "i"],
        said: "",
    },
    Set {
        features: &["f"],
        said: "lines:2:1: these features do not meet `root r`\n",
    },
    Set {
        features: &["r", "g"],
        said: "lines:4:1: these features do not meet `optional f g`\n",
    },
    Set {
        features: &["r", "h"],
        said: "lines:5:1: these features do not meet `or f: h i`\n",
    },
    Set {
        features: &["r", "f", "h", "g"],
        said: "lines:6:1: these features do not meet `excludes g h`\n",
    },
];

const LINES: &[u8] =
    b"\nroot r\noptional r f\noptional f g\nor f: h i\nexcludes g h\noptional r k\n";

fn is_explained(alloc: Global, set: &Set) -> bool {
    let mut said = Said::new(alloc);
    said.put_made(explained_set(alloc, "lines", LINES, set.features));
    said.text() == set.said
}

/// Returns the wanted message about the first set that isn't explained so.
fn first_unexplained(alloc: Global) -> Option<&'static str> {
    for set in &SETS {
        if !is_explained(alloc, set) {
            return Some(set.said);
        }
    }
    None
}

#[test]
fn sets_are_explained(rt: HostRuntime) -> Result<(), Fail> {
    assert_eq!(rt; first_unexplained(rt.alloc()), None);
    Ok(())
}

#[test]
fn faults_are_explained(rt: HostRuntime) -> Result<(), Fail> {
    let mut beside = Said::new(rt.alloc());
    let mut gone = Said::new(rt.alloc());
    let wrong = first_wrong(&rt, rt.alloc());
    put_beside(&rt, &mut beside);
    let are_removed = are_removed(&rt);
    // Files that are gone can't be read once more.
    put_files(&rt, &mut gone);
    let is_right = are_removed
        && beside.text() == BESIDE
        && gone.text() == "explained_diagram: there is no such file, or it cannot be read\n";
    assert_eq!(rt; wrong, None);
    assert!(rt; is_right);
    Ok(())
}
