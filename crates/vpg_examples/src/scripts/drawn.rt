//! Pages that scripts leave, drawn, and systems on them. A fault is the text that reports it.
ghost use Rattle.std.specs.Arc.{arc_value};
ghost use Rattle.std.specs.Prelude.{◌≡◌};
ghost use Rattle.vpg_diagram.specs.FeatureDiagram.{feature_count};

use std::alloc::{AllocError, Global};
use std::sync::Wait;
use std::thread::Threads;
use vpg_family::{Fault, Known, Subject, Texts, drawn, line_of};
use vpg_report::{DIAGRAM, drawn_after, system_drawn_after, traced_after};
use vpg_script::Ending;

/// The subject of a row's picture.
#[derive(Clone, Copy)]
enum Shown {
    Family(Subject),
    System,
    /// The system with the trace of the vertex 0.
    Trace,
}

/// A family, a system, a script, and the picture on the page that it leaves.
struct Row {
    shown: Shown,
    diagram: &'static str,
    game: &'static str,
    system: &'static str,
    script: &'static str,
    written: &'static str,
}

/// A game whose first vertex has a name.
const HERE: &str = "0 1 0 1[f],0 \"he\\re\"; 1 2 1 0[g],1;";

/// A system of three states: transitions that look alike between the same two, and actions as mCRL2 writes them.
const SYSTEM: &str = "des (0, 7, 3)
(0, \"send(\"a\") [f]\", 1)
(0, \"tau\", 0)
(0, \"log(\"\\\") [f]\", 1)
(1, \"a&b [r]\", 0)
(1, \"stop [f & g | !f]\", 2)
(1, \"back\", 0)
(2, \"never [!r]\", 2)
";

static ROWS: [Row; 10] = [
    // Both verdicts, and a name. What the script draws itself is not the picture.
    Row {
        shown: Shown::Family(Subject::Game),
        diagram: DIAGRAM,
        game: HERE,
        system: "",
        script: "draw\nexclude f\nexclude g\ndraw\nsettle",
        written: "\
digraph game {
  graph [label=\"decisions -f -g\", labelloc=t, rankdir=LR];
  node [style=filled];
  0 [shape=diamond, label=\"0 : 1\\nhe\\\\re\", fillcolor=mistyrose, color=firebrick];
  1 [shape=box, label=\"1 : 2\", fillcolor=honeydew, color=darkgreen];
  0 -> 1 [label=\"f\", style=dotted, color=gray70, fontcolor=gray50];
  0 -> 0 [style=solid];
  1 -> 0 [label=\"g\", style=dotted, color=gray70, fontcolor=gray50];
  1 -> 1 [style=solid];
}
",
    },
    // Sessions share the page. An undone change is not on it.
    Row {
        shown: Shown::Family(Subject::Features),
        diagram: DIAGRAM,
        game: HERE,
        system: "",
        script: "2: exclude g\n1: select f\n1: undo\n",
        written: "\
digraph features {
  graph [label=\"decisions -g\", labelloc=t];
  node [shape=box, style=filled, height=0.3];
  \"r\" [fillcolor=honeydew, color=darkgreen];
  \"f\" [fillcolor=white, style=\"filled,dashed\"];
  \"g\" [fillcolor=gray92, fontcolor=gray60];
  \"r\" -> \"f\" [arrowhead=odot];
  \"r\" -> \"g\" [arrowhead=odot];
}
",
    },
    // Without f nothing leads from the first state to the others.
    Row {
        shown: Shown::System,
        diagram: DIAGRAM,
        game: HERE,
        system: SYSTEM,
        script: "exclude f",
        written: "\
digraph system {
  graph [label=\"decisions -f\", labelloc=t, rankdir=LR];
  node [shape=circle, style=filled];
  0 [penwidth=3, fillcolor=white, color=gray40];
  1 [fillcolor=gray92, color=gray70, fontcolor=gray60];
  2 [fillcolor=gray92, color=gray70, fontcolor=gray60];
  0 -> 0 [label=\"tau\", style=solid];
  1 -> 0 [label=\"a&amp;b [r]\\nback\", style=solid];
  1 -> 2 [label=\"stop [f & g | !f]\", style=solid];
  0 -> 1 [label=\"send(\\\"a\\\") [f]\\nlog(\\\"\\\\\\\") [f]\", style=dotted, color=gray70, fontcolor=gray50];
  2 -> 2 [label=\"never [!r]\", style=dotted, color=gray70, fontcolor=gray50];
}
",
    },
    Row {
        shown: Shown::Family(Subject::Game),
        diagram: DIAGRAM,
        game: HERE,
        system: "",
        script: "count\nfrob",
        written: "vpgdesk: script Line 2 Word\n",
    },
    Row {
        shown: Shown::Family(Subject::Features),
        diagram: DIAGRAM,
        game: HERE,
        system: "",
        script: "lift",
        written: "vpgdesk: script Line 1 Args\n",
    },
    Row {
        shown: Shown::Family(Subject::Game),
        diagram: "root r\nmandatory r a\nexcludes r a\n",
        game: "0 0 0 0;",
        system: "",
        script: "frob",
        written: "vpgdesk: Conflict r\n",
    },
    // A script is faulty before its system is.
    Row {
        shown: Shown::System,
        diagram: DIAGRAM,
        game: HERE,
        system: "des (0, 1, 1)\n",
        script: "frob",
        written: "vpgdesk: script Line 1 Word\n",
    },
    Row {
        shown: Shown::System,
        diagram: DIAGRAM,
        game: HERE,
        system: "des (0, 1, 1)\n",
        script: "exclude f",
        written: "vpgdesk: system WrongCount 1\n",
    },
    // A trace is of the system that the game was made of.
    Row {
        shown: Shown::Trace,
        diagram: DIAGRAM,
        game: HERE,
        system: SYSTEM,
        script: "exclude f\nsettle",
        written: "vpgdesk: NoTrace refused NoSystem\n",
    },
    Row {
        shown: Shown::Trace,
        diagram: DIAGRAM,
        game: HERE,
        system: SYSTEM,
        script: "frob",
        written: "vpgdesk: NoTrace refused NoSystem\n",
    },
];

/// The number of vertices of the large game.
const MANY: u32 = 1_200;

/// Returns the texts of a family and its system.
fn texts_of(alloc: Global, diagram: &str, game: &str, system: &str) -> Result<Texts, AllocError> {
    Ok(Texts {
        diagram: Vec::from_slice(alloc, diagram.as_bytes())?,
        model: Vec::new(alloc),
        game: Vec::from_slice(alloc, game.as_bytes())?,
        entries: Vec::new(alloc),
        vertices: Vec::new(alloc),
        system: Vec::from_slice(alloc, system.as_bytes())?,
        requirements: Vec::new(alloc),
        behaviour: None,
    })
}

/// Returns the picture of a known family on the page that a script leaves.
fn shown_of<T: Threads + Wait + Sync>(
    rt: &T,
    alloc: Global,
    shown: Shown,
    texts: &Texts,
    known: &Known,
    script: &[u8],
) -> Result<(Ending, Vec<u8>), Fault>
    requires { (arc_value known.now.family.game).features ≡ feature_count (arc_value known.now.family.diagram).lines }
{
    let family = &known.family;
    let context = &known.context;
    match shown {
        Shown::Family(subject) => {
            drawn_after(rt, alloc, subject, texts, family, context, script)
        }
        Shown::System => system_drawn_after(rt, alloc, texts, family, context, script),
        Shown::Trace => {
            let system = &texts.system;
            traced_after(rt, alloc, system, family, context, b"0", script)
        }
    }
}

/// Returns the picture of the family of some texts on the page that a script leaves.
fn picture<T: Threads + Wait + Sync>(
    rt: &T,
    alloc: Global,
    shown: Shown,
    texts: &Texts,
    script: &[u8],
) -> Result<Vec<u8>, Fault> {
    let known = match Known::read(alloc, texts) {
        Ok(known) => known,
        Err(fault) => return Err(fault),
    };
    match shown_of(rt, alloc, shown, texts, &known, script) {
        Ok((_, picture)) => Ok(picture),
        Err(fault) => Err(fault),
    }
}

/// Returns the text that a row writes.
fn written<T: Threads + Wait + Sync>(
    rt: &T,
    alloc: Global,
    row: &Row,
) -> Result<Vec<u8>, AllocError> {
    let texts = texts_of(alloc, row.diagram, row.game, row.system)?;
    match picture(rt, alloc, row.shown, &texts, row.script.as_bytes()) {
        Ok(picture) => Ok(picture),
        Err(fault) => line_of(alloc, &fault),
    }
}

/// Returns the place of the first row that is drawn otherwise.
pub(super) fn first_other<T: Threads + Wait + Sync>(rt: &T, alloc: Global) -> Option<usize> {
    for k in 0..ROWS.len() {
        match written(rt, alloc, &ROWS[k]) {
            Ok(text) if text.as_slice() == ROWS[k].written.as_bytes() => {}
            _ => return Some(k),
        }
    }
    None
}

/// Returns the text of a game of many vertices, each with an edge to itself.
fn large_game(alloc: Global) -> Result<String, AllocError> {
    let mut text = String::new(alloc);
    for v in 0..MANY {
        let line = format!(in alloc; "{v} 0 0 {v};\n")?;
        text.push_str(line.as_str())?;
    }
    Ok(text)
}

/// Returns the texts of a family with the large game.
fn large_texts(alloc: Global) -> Result<Texts, AllocError> {
    let game = large_game(alloc)?;
    texts_of(alloc, "root r\n", game.as_str(), "")
}

/// Whether the large game is drawn after a script that changes nothing as it is drawn without one.
pub(super) fn is_large_drawn<T: Threads + Wait + Sync>(rt: &T, alloc: Global) -> bool {
    let Ok(texts) = large_texts(alloc) else {
        return false;
    };
    let game = Shown::Family(Subject::Game);
    match (
        picture(rt, alloc, game, &texts, b"count"),
        drawn(alloc, Subject::Game, &texts.diagram, &texts.game),
    ) {
        (Ok(after), Ok(before)) => after.as_slice() == before.as_slice(),
        _ => false,
    }
}
