//! Families, questions about them, and the answers.
use super::{DIAGRAM, GAME};

/// A diagram that contradicts itself, and a game that Even wins.
const NONE: &str = "root r\nmandatory r a\nexcludes r a\n";

const DOT: &str = "0 0 0 0;";

/// A system of three states: transitions that look alike between the same two, and actions as mCRL2 writes them.
const SYSTEM: &str = "des (0, 7, 3)
(0, \"send(\"a\") [f]\", 1)
(0, \"tau\", 0)
(0, \"log(\"\\\") [f]\", 1)
(1, \"a&b [r]\", 0)
(1, \"stop [f & g | !f]\", 2)
(1, \"back\", 0)
(2, \"never [!r]\", 2)
";

/// 62 vertices of odd priorities, one each: no game has a greater top.
const WIDEST: &str = "\
    0 1 0 0; 1 3 0 1; 2 5 0 2; 3 7 0 3; 4 9 0 4; 5 11 0 5; 6 13 0 6; 7 15 0 7; 8 17 0 8; 9 19 0 9; 10 21 0 10; \
    11 23 0 11; 12 25 0 12; 13 27 0 13; 14 29 0 14; 15 31 0 15; 16 33 0 16; 17 35 0 17; 18 37 0 18; 19 39 0 19; \
    20 41 0 20; 21 43 0 21; 22 45 0 22; 23 47 0 23; 24 49 0 24; 25 51 0 25; 26 53 0 26; 27 55 0 27; 28 57 0 28; \
    29 59 0 29; 30 61 0 30; 31 63 0 31; 32 65 0 32; 33 67 0 33; 34 69 0 34; 35 71 0 35; 36 73 0 36; 37 75 0 37; \
    38 77 0 38; 39 79 0 39; 40 81 0 40; 41 83 0 41; 42 85 0 42; 43 87 0 43; 44 89 0 44; 45 91 0 45; 46 93 0 46; \
    47 95 0 47; 48 97 0 48; 49 99 0 49; 50 101 0 50; 51 103 0 51; 52 105 0 52; 53 107 0 53; 54 109 0 54; \
    55 111 0 55; 56 113 0 56; 57 115 0 57; 58 117 0 58; 59 119 0 59; 60 121 0 60; 61 123 0 61;";

/// A family, a question about it, and the text on standard output, or else on standard error.
#[derive(Drop)]
pub(super) struct Row<'t> {
    /// A word. `project` takes the words of a text with one blank between them. `draw` is about the game, with
    /// `-features` about the diagram, and with `-system` about the system in place of the game.
    pub(super) asked: &'t str,
    pub(super) text: &'t str,
    pub(super) diagram: &'t str,
    pub(super) game: &'t str,
    pub(super) written: &'t str,
}

/// Returns the text that a part of a row stands for: a text by its name, or itself.
fn meant(part: &str) -> &str {
    match part {
        "DIAGRAM" => DIAGRAM,
        "GAME" => GAME,
        "NONE" => NONE,
        "DOT" => DOT,
        "WIDEST" => WIDEST,
        "SYSTEM" => SYSTEM,
        _ => part,
    }
}

/// Returns the text before the next `¦`, and the text after it.
fn cut(text: &str) -> (&str, &str) {
    text.split_once('¦').unwrap_or((text, ""))
}

/// Returns the row that is written so.
pub(super) fn row_of(writing: &str) -> Row<'_> {
    let (_, rest) = cut(writing);
    let (asked, rest) = cut(rest);
    let (diagram, rest) = cut(rest);
    let (game, rest) = cut(rest);
    let (text, written) = cut(rest);
    Row {
        asked,
        text,
        diagram: meant(diagram),
        game: meant(game),
        written,
    }
}

/// The rows, each with a `§` after it. The parts of a row stand beside `¦`: a remark, the question, the texts of the
/// diagram and of the game or their names, its text, and the answer.
pub(super) static TABLES: [&str; 5] = [REFUSED, DONE, PICTURES, SYSTEMS, WARNED];

/// Families that are refused, and words that name no product.
const REFUSED: &str = "\
¦check¦¦¦¦vpgdesk: diagram NoRoot\n§\
¦check¦root r\nroot s¦0 0 0 7;¦¦vpgdesk: diagram TwoRoots 2\n§\
¦check¦root r\nmandatory s f¦GAME¦¦vpgdesk: diagram UnknownFeature 2\n§\
¦project¦root r\noptional r f\nmandatory r f¦GAME¦x¦vpgdesk: diagram TwoParents 3\n§\
¦check¦root 9¦GAME¦¦vpgdesk: diagram Syntax 1\n§\
¦check¦root r\ngroup r 2 1: a b¦GAME¦¦vpgdesk: diagram BadRange 2\n§\
¦check¦DIAGRAM¦¦¦vpgdesk: game Syntax 0\n§\
¦check¦DIAGRAM¦0 1 0 1[f¦¦vpgdesk: game Syntax 9\n§\
¦check¦DIAGRAM¦0 2 2 0;¦¦vpgdesk: game BadOwner 4\n§\
¦check¦DIAGRAM¦0 65536 0 0;¦¦vpgdesk: game PriorityTooLarge 2\n§\
¦check¦DIAGRAM¦0 0 0 0[f &];¦¦vpgdesk: game Guard 8 Syntax 3\n§\
¦check¦DIAGRAM¦0 0 0 0[h];¦¦vpgdesk: game Guard 8 UnknownFeature 0\n§\
¦check¦DIAGRAM¦0 0 0 0; 0 0 0 0;¦¦vpgdesk: game DoubleVertex 0\n§\
¦project¦DIAGRAM¦parity 0; 0 0 0 7;¦x¦vpgdesk: game MissingVertex 7\n§\
¦project¦DIAGRAM¦GAME¦g x y¦vpgdesk: UnknownFeature x\n§\
¦project¦DIAGRAM¦GAME¦r f\ng\u{7f}¦vpgdesk: UnknownFeature f?g?\n§\
¦project¦DIAGRAM¦GAME¦g¦vpgdesk: NotAProduct\n§\
";

/// The counts of families, and the games of products.
const DONE: &str = "\
¦check¦DIAGRAM¦GAME¦¦vertices 2 edges 4 features 3 top 2 2\n§\
¦check¦NONE¦DOT¦¦vertices 1 edges 1 features 2 top 1 2\n§\
¦check¦DIAGRAM¦WIDEST¦¦vertices 62 edges 62 features 3 top 4611686018427387904 1\n§\
¦project¦NONE¦DOT¦r a¦vpgdesk: NotAProduct\n§\
¦project¦DIAGRAM¦GAME¦r g¦parity 1;\n0 1 0 0;\n1 2 1 0,1;\n§\
¦project¦DIAGRAM¦GAME¦g r g f¦parity 1;\n0 1 0 1,0;\n1 2 1 0,1;\n§\
";

/// Pictures of families.
const PICTURES: &str = "\
¦draw¦DIAGRAM¦GAME¦¦digraph game {
  graph [label=\"decisions\", labelloc=t, rankdir=LR];
  node [style=filled];
  0 [shape=diamond, label=\"0 : 1\", fillcolor=white, color=gray40];
  1 [shape=box, label=\"1 : 2\", fillcolor=white, color=gray40];
  0 -> 1 [label=\"f\", style=dashed, color=steelblue, fontcolor=steelblue];
  0 -> 0 [style=solid];
  1 -> 0 [label=\"g\", style=dashed, color=steelblue, fontcolor=steelblue];
  1 -> 1 [style=solid];
}
§\
¦draw¦root r\nmandatory r f\noptional f g\nexcludes f g\n¦start 7; 7 0 1 7[f],7[g] \"here\";¦¦digraph game {
  graph [label=\"decisions\", labelloc=t, rankdir=LR];
  node [style=filled];
  7 [shape=box, label=\"7 : 0\\nhere\", fillcolor=white, color=gray40];
  7 -> 7 [label=\"f | g\", style=solid];
}
§\
¦draw-features¦DIAGRAM¦GAME¦¦digraph features {
  graph [label=\"decisions\", labelloc=t];
  node [shape=box, style=filled, height=0.3];
  \"r\" [fillcolor=honeydew, color=darkgreen];
  \"f\" [fillcolor=white, style=\"filled,dashed\"];
  \"g\" [fillcolor=white, style=\"filled,dashed\"];
  \"r\" -> \"f\" [arrowhead=odot];
  \"r\" -> \"g\" [arrowhead=odot];
}
§\
¦draw-features¦NONE¦DOT¦¦vpgdesk: Conflict r\n§\
";

/// Pictures of systems.
const SYSTEMS: &str = "\
¦draw-system¦DIAGRAM¦SYSTEM¦¦digraph system {
  graph [label=\"decisions\", labelloc=t, rankdir=LR];
  node [shape=circle, style=filled];
  0 [penwidth=3, fillcolor=white, color=gray40];
  1 [fillcolor=white, color=gray40];
  2 [fillcolor=white, color=gray40];
  0 -> 0 [label=\"tau\", style=solid];
  1 -> 0 [label=\"a&amp;b [r]\\nback\", style=solid];
  0 -> 1 [label=\"send(\\\"a\\\") [f]\\nlog(\\\"\\\\\\\") [f]\", style=dashed, color=steelblue, fontcolor=steelblue];
  1 -> 2 [label=\"stop [f & g | !f]\", style=dashed, color=steelblue, fontcolor=steelblue];
  2 -> 2 [label=\"never [!r]\", style=dotted, color=gray70, fontcolor=gray50];
}
§\
¦draw-system¦root¦¦¦vpgdesk: diagram Syntax 1\n§\
¦draw-system¦DIAGRAM¦des (0, 1, 1)\n¦¦vpgdesk: system WrongCount 1\n§\
¦draw-system¦NONE¦des (0, 0, 0)\n¦¦vpgdesk: system NoState 1\n§\
¦draw-system¦NONE¦des (0, 0, 1)\n¦¦vpgdesk: Conflict r\n§\
";

/// Warnings of families.
const WARNED: &str = "\
¦lint¦DIAGRAM¦GAME¦¦warnings 0\n§\
¦lint¦DIAGRAM¦0 1 0 0[f];¦¦explained_diagram:3:12: warning: `g` is named by no guard\nwarnings 1\n§\
¦lint¦root r
mandatory r a
excludes r a
¦0 0 0 0[a];¦¦explained_diagram:1:6: warning: the diagram has no product: its lines contradict each other
warnings 1
§\
¦lint¦root r
or r: a b
or r: c d
excludes a c
excludes a d
excludes b c
excludes b d
¦0 0 0 0[a & b & c & d];¦¦explained_diagram:1:6: warning: the diagram has no product: its lines contradict each other
warnings 1
§\
¦lint¦root r
optional r a
or r: b c
or r: d e
rule a | !b | !d
rule a | !b | !e
rule a | !c | !d
rule a | !c | !e
¦0 0 0 0[a & b & c & d & e];¦¦warnings 0
§\
¦lint¦root r
optional r f
optional r g
excludes f f
¦GAME¦¦explained_diagram:2:12: warning: `f` is in no product
warnings 1
§\
¦lint¦DIAGRAM¦start 7; 0 1 0 ;
1 2 1 0[f],1[g];¦¦explained_game:1:10: warning: vertex 0 has no moves: Even, who owns it, loses there
explained_game:1:7: warning: no entry has the identifier of this start
warnings 2
§\
¦lint¦DIAGRAM¦start 0; 0 1 0 0[f];
1 2 1 0[g] \"lost\";¦¦explained_game:2:1: warning: vertex 1 \"lost\" cannot be reached from the start
warnings 1
§\
¦lint¦DIAGRAM¦0 0 1 0[f & g];1 0 1;2 0 1;3 0 1;4 0 1;5 0 1;6 0 1;7 0 1;8 0 1;9 0 1;10 0 1;11 0 1;12 0 1;¦¦\
explained_game:1:16: warning: vertex 1 has no moves: Odd, who owns it, loses there
explained_game:1:22: warning: vertex 2 has no moves: Odd, who owns it, loses there
explained_game:1:28: warning: vertex 3 has no moves: Odd, who owns it, loses there
explained_game:1:34: warning: vertex 4 has no moves: Odd, who owns it, loses there
explained_game:1:40: warning: vertex 5 has no moves: Odd, who owns it, loses there
explained_game:1:46: warning: vertex 6 has no moves: Odd, who owns it, loses there
explained_game:1:52: warning: vertex 7 has no moves: Odd, who owns it, loses there
explained_game:1:58: warning: vertex 8 has no moves: Odd, who owns it, loses there
explained_game:1:64: warning: vertex 9 has no moves: Odd, who owns it, loses there
explained_game:1:70: warning: vertex 10 has no moves: Odd, who owns it, loses there
explained_game: warning: vertices without moves: 2 more
warnings 12
§\
";
