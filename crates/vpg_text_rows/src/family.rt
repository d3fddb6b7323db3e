//! A family with the names of its vertices, its pictures, and that of a system over its features.
ghost use Rattle.std.specs.Prelude.{◌≡◌, length};

use crate::decisions::{are_below, close_checked, decisions_of};
use crate::diagrams::diagram_of;
use crate::games::game_of;
use crate::line::Line;
use std::alloc::{AllocError, Global};
use vpg_diagram::Diagram;
use vpg_draw::{draw_features, draw_game};
use vpg_game::{GuardedGame, VertexNames};
use vpg_partial::{Decision, Partial};
use vpg_sides::Verdict;
use vpg_system::System;
use vpg_system_draw::{Marks, Path, Step, draw_system, reachable};

/// A diagram with each form of line, to look for mistakes in games over it.
pub(crate) const DIAGRAM: &[u8] = b"root node\nmandatory node f\nor f: g h\ngroup node 0 1: i
alternative i: graph strict\nexcludes g i\nrequires strict h\n";

const GAME: &[u8] = b"parity 9; start 3;\n3 1 0 7[g|i],3[h] \"says \\ & done, or so\";\n7 2 1 3[!h];
8 0 0 9[true], 9 [strict] \"two\nlines; [not a guard] p s\";\n9 65535 1 \"\";\n";

/// Transitions between the same two states, and actions with quotes, a backslash and an ampersand.
const SYSTEM: &[u8] = b"des (1, 7, 4)
(1, \"send(\"d1\") [g]\", 2)\n(1, \"send(\"d2\") [g]\", 2)\n(2, \"path\\to\", 1)\n(2, \"a&b [strict | h]\", 1)
(3, tau, 1)\n(1, \"tau [i]\", 3)\n(2, \"tau [!f]\", 2)\n";

/// Steps by the second and the third transition from state 1, and one that no transition makes.
const STEPS: [Step; 3] = [
    Step { state: 1, place: 1 },
    Step { state: 1, place: 2 },
    Step { state: 0, place: 0 },
];

/// Returns a verdict for each vertex: hopeless at each second, sure at two of four.
fn verdicts(vertices: usize, line: &mut Line) -> Vec<Verdict> {
    let mut list = Vec::new(line.alloc);
    for v in 0..vertices {
        let verdict = Verdict {
            hopeless: v % 2 == 0,
            sure: v % 4 > 0 && v % 4 < 3,
        };
        line.note(list.push(verdict).is_ok());
    }
    list
}

/// Draws the game.
fn put_game(
    diagram: &Diagram,
    game: &GuardedGame,
    names: &VertexNames,
    known: &Partial,
    decisions: &[Decision],
    line: &mut Line,
) {
    let features = diagram.names();
    let verdicts = verdicts(game.vertices(), line);
    let done = features.len() == game.features()
        && known.values().len() == game.features()
        && verdicts.len() == game.vertices()
        && are_below(game.features(), decisions)
        && draw_game(
            line.alloc,
            game,
            features,
            known,
            decisions,
            names,
            &verdicts,
            &mut line.text,
        )
        .is_ok();
    line.note(done);
}

/// Draws the diagram.
fn put_diagram(diagram: &Diagram, known: &Partial, decisions: &[Decision], line: &mut Line) {
    let count = diagram.names().len();
    let done = known.values().len() == count
        && are_below(count, decisions)
        && draw_features(
            line.alloc,
            DIAGRAM,
            diagram,
            known,
            decisions,
            &mut line.text,
        )
        .is_ok();
    line.note(done);
}

/// Returns the marks of a trace with these steps, which comes back to state 1 and stands in state 2.
fn marks_of(alloc: Global, system: &System) -> Result<Marks, AllocError> {
    let path = Path {
        steps: Vec::from_slice(alloc, &STEPS)?,
        loops: Vec::from_slice(alloc, &[1])?,
        stands: Vec::from_slice(alloc, &[2])?,
    };
    Marks::of(alloc, system, path)
}

/// Draws a system over the diagram's features.
fn put_drawn(
    diagram: &Diagram,
    system: &System,
    known: &Partial,
    decisions: &[Decision],
    line: &mut Line,
) {
    let names = diagram.names();
    let fits = names.len() == system.features()
        && known.values().len() == system.features()
        && are_below(system.features(), decisions);
    line.note(fits);
    if !fits {
        return;
    }
    let Ok(reached) = reachable(line.alloc, system, known) else {
        line.note(false);
        return;
    };
    let Ok(marks) = marks_of(line.alloc, system) else {
        line.note(false);
        return;
    };
    let done = draw_system(
        line.alloc,
        system,
        names,
        known,
        decisions,
        &reached,
        &marks,
        &mut line.text,
    );
    line.note(done.is_ok());
}

/// Draws the system.
fn put_system(diagram: &Diagram, known: &Partial, decisions: &[Decision], line: &mut Line) {
    match System::read(line.alloc, SYSTEM, diagram.names()) {
        Ok(system) => put_drawn(diagram, &system, known, decisions, line),
        Err(_) => line.note(false),
    }
}

/// Draws them under the decisions of a row.
fn put_decided(
    diagram: &Diagram,
    game: &GuardedGame,
    names: &VertexNames,
    row: &[u8],
    line: &mut Line,
) {
    if let Some(decisions) = decisions_of(diagram.names(), row, line) {
        if let Some(known) = close_checked(diagram, &decisions, line) {
            put_game(diagram, game, names, &known, &decisions, line);
            put_diagram(diagram, &known, &decisions, line);
            put_system(diagram, &known, &decisions, line);
        }
    }
}

/// Returns the names of the game's vertices.
fn names_of(line: &mut Line) -> Option<VertexNames> {
    let names = VertexNames::read(line.alloc, GAME);
    line.kept(names)
}

/// Writes the vertex where the game starts.
pub(crate) fn put_start(line: &mut Line) {
    if let Some(names) = names_of(line) {
        line.put("start ");
        line.debug(&names.start());
        line.put("\n");
    }
}

/// Writes the pictures over a diagram.
fn put_over(diagram: &Diagram, row: &[u8], line: &mut Line) {
    if let Some(game) = game_of(diagram.names(), GAME, line) {
        if let Some(names) = names_of(line) {
            put_decided(diagram, &game, &names, row, line);
        }
    }
}

/// Writes the pictures under the decisions of a row, below it.
pub(crate) fn put_pictures(row: &str, line: &mut Line) {
    line.put("\n");
    if let Some(diagram) = diagram_of(DIAGRAM, line) {
        put_over(&diagram, row.as_bytes(), line);
    }
    line.put("\n");
}
