//! Files of feature models: the diagrams that they mean, messages about their faults, and warnings.
use super::GAME;
use crate::said::Said;
use std::alloc::Global;
use std::fs;
use std::test::*;
use vpg_family::{
    DiagramFile, GamePaths, Paths, Unread, explained_diagram, line_of, linted, read_diagram_file,
    read_texts,
};

/// The name and the text of a file, and the diagram that it means, or the message about its fault.
struct Row {
    file: &'static str,
    text: &'static str,
    told: &'static str,
}

/// A model in UVL that means a diagram of each kind of line.
const SANDWICH: &str = "\
// a sandwich
namespace Lunch
features
\tSandwich {extended__ true}
\t\tmandatory
\t\t\tBread {Calories 203}
\t\toptional
\t\t\tSauce
\t\t\t\talternative
\t\t\t\t\tKetchup
\t\t\t\t\tMustard
\t\t\tCheese
\t\t\t\t[1..2]
\t\t\t\t\tGouda
\t\t\t\t\tCheddar
constraints
\tKetchup => Cheese
\tMustard => !Cheese
\tGouda | Sauce & Cheddar
";

/// That model in FeatureIDE's XML.
const SANDWICH_XML: &str = "\
<?xml version=\"1.0\" encoding=\"UTF-8\" standalone=\"no\"?>
<featureModel>
  <struct>
    <and abstract=\"true\" mandatory=\"true\" name=\"Sandwich\">
      <feature mandatory=\"true\" name=\"Bread\"/>
      <alt name=\"Sauce\">
        <feature name=\"Ketchup\"/>
        <feature name=\"Mustard\"/>
      </alt>
    </and>
  </struct>
  <constraints>
    <rule><imp><var>Ketchup</var><not><var>Bread</var></not></imp></rule>
  </constraints>
</featureModel>
";

static ROWS: [Row; 9] = [
    Row {
        file: "meant.uvl",
        text: SANDWICH,
        told: "\
root Sandwich
mandatory Sandwich Bread
optional Sandwich Sauce
optional Sandwich Cheese
alternative Sauce: Ketchup Mustard
group Cheese 1 2: Gouda Cheddar
requires Ketchup Cheese
excludes Mustard Cheese
rule Gouda | Sauce & Cheddar
",
    },
    Row {
        file: "meant.xml",
        text: SANDWICH_XML,
        told: "\
root Sandwich
mandatory Sandwich Bread
optional Sandwich Sauce
alternative Sauce: Ketchup Mustard
excludes Ketchup Bread
",
    },
    Row {
        file: "meant_diagram",
        text: "root r\r\n optional  r f\n",
        told: "root r\r\n optional  r f\n",
    },
    Row {
        file: "meant_diagram",
        text: SANDWICH,
        told: "\
vpgdesk: diagram Syntax 1
meant_diagram:1:1: found `//`; expected `root`, `mandatory`, `optional`, `alternative`, `or`, `group`, `requires`, \
`excludes` or `rule`
  hint: a diagram has no comments
",
    },
    Row {
        file: "meant.uvl",
        text: "features\n\tr\n\t\toptional\n\t\t\tInteger n\n",
        told: "\
vpgdesk: uvl Typed 4:4
meant.uvl:4:4: found `Integer`; a feature with a type is not read
  hint: features are there or not
",
    },
    Row {
        file: "meant.uvl",
        text: "features\n\tr\n\t\tor\n",
        told: "\
vpgdesk: uvl Ended
meant.uvl:4:1: the text ends before `features`, the root, or the first member of a group
",
    },
    Row {
        file: "meant.uvl",
        text: "features\n    r\n        [3..4]\n            f\n            g\n",
        told: "\
vpgdesk: diagram BadRange 2
meant.uvl: line 2 of the diagram that it means, `group r 3 2: f g`: found `3`; expected a number that is not above \
the next
",
    },
    Row {
        file: "meant.xml",
        text: "<featureModel><struct><xor name=\"r\"/></struct></featureModel>",
        told: "\
vpgdesk: featureide UnknownElement 22
meant.xml:1:23: this element is not read here
",
    },
    Row {
        file: "meant.xml",
        text: "<featureModel>\n<struct>\n",
        told: "\
vpgdesk: featureide Xml Unfinished 24
meant.xml:3:1: the text ends inside an element, or has none
",
    },
];

/// Writes the line that reports why a file is refused, and lines that explain it.
fn put_unread(file: &str, unread: &Unread, said: &mut Said) {
    said.put_made(line_of(said.alloc, &unread.fault));
    said.put_made(explained_diagram(said.alloc, file, &unread.texts, &unread.fault));
}

/// Writes the diagram that a file means, or the message about its fault.
fn put_meant(rt: &HostRuntime, file: &str, said: &mut Said) {
    match read_diagram_file(rt, said.alloc, file) {
        Ok(DiagramFile { text, .. }) => said.put_text(&text),
        Err(unread) => put_unread(file, &unread, said),
    }
}

fn holds(rt: &HostRuntime, alloc: Global, row: &Row) -> bool {
    let mut said = Said::new(alloc);
    if fs::write(rt, row.file, row.text).is_ok() {
        put_meant(rt, row.file, &mut said);
        said.note(fs::remove_file(rt, row.file).is_ok());
    }
    said.text() == row.told
}

/// Returns the wanted message of the first row that doesn't hold.
fn first_wrong(rt: &HostRuntime, alloc: Global) -> Option<&'static str> {
    for row in &ROWS {
        if !holds(rt, alloc, row) {
            return Some(row.told);
        }
    }
    None
}

#[test]
fn a_feature_model_means_a_diagram(rt: HostRuntime) -> Result<(), Fail> {
    assert_eq!(rt; first_wrong(&rt, rt.alloc()), None);
    Ok(())
}

/// A model with features that are dead, or that no guard names.
const WARNED: &str = "\
features
    r
        optional
            f {cost 3}
            \"g\"
            h
            i
constraints
    !h
";

const WARNED_XML: &str = "\
<featureModel>
  <struct>
    <and name=\"r\">
      <feature name=\"f\"/>
      <feature name=\"g\"/>
      <feature name=\"h\"/>
    </and>
  </struct>
  <constraints><rule><not><var>h</var></not></rule></constraints>
</featureModel>
";

/// Writes the warnings of a family over this file of a diagram.
fn put_warned(rt: &HostRuntime, diagram: &str, said: &mut Said) {
    let paths = Paths {
        game: GamePaths::Game("warned_game"),
        diagram,
    };
    match read_texts(rt, said.alloc, paths) {
        Ok(texts) => said.put_answer(linted(said.alloc, paths, &texts)),
        Err(unread) => put_unread(diagram, &unread, said),
    }
}

#[test]
fn a_model_is_warned_of_at_its_own_places(rt: HostRuntime) -> Result<(), Fail> {
    let mut said = Said::new(rt.alloc());
    fs::write(&rt, "warned_game", GAME)?;
    fs::write(&rt, "warned.uvl", WARNED)?;
    fs::write(&rt, "warned.xml", WARNED_XML)?;
    put_warned(&rt, "warned.uvl", &mut said);
    put_warned(&rt, "warned.xml", &mut said);
    fs::remove_file(&rt, "warned_game")?;
    fs::remove_file(&rt, "warned.uvl")?;
    fs::remove_file(&rt, "warned.xml")?;
    assert_eq!(rt;
        said.text(),
        "\
warned.uvl:6:13: warning: `h` is in no product
warned.uvl:6:13: warning: `h` is named by no guard
warned.uvl:7:13: warning: `i` is named by no guard
warned.uvl:4:15: warning: these attributes are read over
warnings 4
warned.xml:6:7: warning: `h` is in no product
warned.xml:6:7: warning: `h` is named by no guard
warnings 2
"
    );
    Ok(())
}
