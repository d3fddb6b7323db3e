//! Scripts carried out on families, with the texts that report their ends. Most rows have the built-in family.
ghost use Rattle.std.specs.Arc.{arc_value};
ghost use Rattle.std.specs.Prelude.{◌≡◌, IfOk};
ghost use Rattle.vpg_diagram.specs.FeatureDiagram.{feature_count};

use super::manners::{PLAIN, STRICT};
use crate::devices::{Gives, Takes, all, then_fails, whole};
use std::alloc::{AllocError, Global};
use std::sync::Wait;
use std::thread::Threads;
use vpg_family::{Fault, Known, Texts, line_of};
use vpg_report::{DIAGRAM, End, GAME, end_of, refused_line, run_script};
use vpg_script::{Device, Ending, Manner};

/// A family, a script, and the text on standard output, or else on standard error.
struct Row {
    diagram: &'static str,
    game: &'static str,
    script: &'static str,
    written: &'static str,
}

static ROWS: [Row; 4] = [
    Row {
        diagram: DIAGRAM,
        game: GAME,
        script: "select r\nproducts",
        written: "done 1\nin r\nout\nopen f g\n",
    },
    // The diagram contradicts itself. The fault of the line is reported only if an office is opened.
    Row {
        diagram: "root r\nmandatory r a\nexcludes r a\n",
        game: "0 0 0 0;",
        script: "frob",
        written: "vpgdesk: Conflict r\n",
    },
    Row {
        diagram: DIAGRAM,
        game: GAME,
        script: "show\nfrob",
        written: "vpgdesk: script Line 2 Word\n",
    },
    Row {
        diagram: DIAGRAM,
        game: GAME,
        script: "# none\r\nundo x\nfrob",
        written: "vpgdesk: script Line 2 Args\n",
    },
];

/// Returns the texts of a family.
fn texts_of(alloc: Global, diagram: &str, game: &str) -> Result<Texts, AllocError> {
    Ok(Texts {
        diagram: Vec::from_slice(alloc, diagram.as_bytes())?,
        model: Vec::new(alloc),
        game: Vec::from_slice(alloc, game.as_bytes())?,
        entries: Vec::new(alloc),
        vertices: Vec::new(alloc),
        system: Vec::new(alloc),
        requirements: Vec::new(alloc),
        behaviour: None,
    })
}

/// Returns a script's end on a family, in its context.
pub(super) fn ending_on<T: Threads + Wait + Sync>(
    rt: &T,
    alloc: Global,
    known: &Known,
    manner: Manner,
    gives: Gives<'_>,
    takes: Takes<'_>,
) -> Result<Ending, Fault>
    requires { (arc_value known.now.family.game).features ≡ feature_count (arc_value known.now.family.diagram).lines }
{
    let mut reader = Device::reader(gives);
    let mut writer = Device::writer(takes);
    let Ok(family) = known.family.again() else {
        return Err(Fault::Memory);
    };
    run_script(
        rt,
        alloc,
        family,
        &known.context,
        &mut reader,
        &mut writer,
        1,
        manner,
    )
}

/// Returns the family of these texts.
pub(super) fn known_of(alloc: Global, texts: (&str, &str)) -> Result<Known, Fault>
    ensures { IfOk result (λ known.
        (arc_value known.family.game).features ≡ feature_count (arc_value known.family.diagram).lines) }
{
    let Ok(texts) = texts_of(alloc, texts.0, texts.1) else {
        return Err(Fault::Memory);
    };
    match Known::read(alloc, &texts) {
        Ok(known) => Ok(known),
        Err(fault) => Err(fault),
    }
}

/// Returns a script's end on a family of these texts.
pub(super) fn ending<T: Threads + Wait + Sync>(
    rt: &T,
    alloc: Global,
    texts: (&str, &str),
    manner: Manner,
    gives: Gives<'_>,
    takes: Takes<'_>,
) -> Result<Ending, Fault> {
    match known_of(alloc, texts) {
        Ok(known) => ending_on(rt, alloc, &known, manner, gives, takes),
        Err(fault) => Err(fault),
    }
}

/// Returns the text that a row writes.
fn written<T: Threads + Wait + Sync>(
    rt: &T,
    alloc: Global,
    row: &Row,
) -> Result<Vec<u8>, AllocError> {
    let mut got = Vec::new(alloc);
    let texts = (row.diagram, row.game);
    let script = whole(row.script.as_bytes());
    match ending(rt, alloc, texts, PLAIN, script, all(&mut got)) {
        Ok(_) => Ok(got),
        Err(fault) => line_of(alloc, &fault),
    }
}

/// Whether this is the text.
fn is_text(text: Result<Vec<u8>, AllocError>, wanted: &str) -> bool {
    match text {
        Ok(text) => text.as_slice() == wanted.as_bytes(),
        Err(_) => false,
    }
}

/// Returns the place of the first row that doesn't hold.
pub(super) fn first_other<T: Threads + Wait + Sync>(rt: &T, alloc: Global) -> Option<usize> {
    for k in 0..ROWS.len() {
        if !is_text(written(rt, alloc, &ROWS[k]), ROWS[k].written) {
            return Some(k);
        }
    }
    None
}

/// Returns the end of a script with answers that go to a broken device.
fn unwritten<T: Threads + Wait + Sync>(
    rt: &T,
    alloc: Global,
    script: &str,
) -> Result<Ending, Fault> {
    let mut got = Vec::new(alloc);
    let broken = Takes {
        got: &mut got,
        bytes: usize::MAX,
        calls: 0,
    };
    let script = whole(script.as_bytes());
    ending(rt, alloc, (DIAGRAM, GAME), PLAIN, script, broken)
}

/// Returns the end of a script that comes from a broken device.
fn unread<T: Threads + Wait + Sync>(rt: &T, alloc: Global) -> Result<Ending, Fault> {
    let mut got = Vec::new(alloc);
    let broken = then_fails(b"");
    ending(rt, alloc, (DIAGRAM, GAME), PLAIN, broken, all(&mut got))
}

/// Whether broken devices end a script. If nothing is written a broken device is no failure.
pub(super) fn breaks<T: Threads + Wait + Sync>(rt: &T, alloc: Global) -> bool {
    matches!(unread(rt, alloc), Err(Fault::Read))
        && matches!(
            unwritten(rt, alloc, "# none\nshow\nfrob"),
            Err(Fault::Write)
        )
        && unwritten(rt, alloc, "# none\n").is_ok()
}

/// Returns the end of a script in a manner, on the built-in family. Nothing if it fails.
fn end<T: Threads + Wait + Sync>(
    rt: &T,
    alloc: Global,
    script: &str,
    manner: Manner,
) -> Option<End> {
    let mut got = Vec::new(alloc);
    let script = whole(script.as_bytes());
    end_of(ending(rt, alloc, (DIAGRAM, GAME), manner, script, all(&mut got))).ok()
}

/// Whether scripts end in each manner as they should, with the right message about a refusal.
pub(super) fn is_told<T: Threads + Wait + Sync>(rt: &T, alloc: Global) -> bool {
    let refused = end(rt, alloc, "show\nundo\nfrob", STRICT);
    matches!(end(rt, alloc, "show", STRICT), Some(End::Done))
        && matches!(end(rt, alloc, "assert full", PLAIN), Some(End::Failed))
        && matches!(refused, Some(End::Refused { line: 2 }))
        && is_text(refused_line(alloc, 20), "vpgdesk: script Line 20 Refused\n")
}
