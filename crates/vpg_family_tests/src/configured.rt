//! Configurations: they are written in both forms, and in FeatureIDE's XML read and refused.
use crate::said::Said;
use std::alloc::Global;
use std::process::Abort;
use std::test::*;
use vpg_configuration::{deciding, exported, form_of};
use vpg_diagram::Diagram;
use vpg_family::Fault;
use vpg_partial::{Decision, Partial};

/// A diagram that makes features known: three are in, and two out.
const DIAGRAM: &[u8] = b"\
root elevator
optional elevator overload
mandatory elevator sensor
optional elevator fast
mandatory elevator lift
optional elevator slow
excludes lift fast
excludes lift slow
";

/// The decisions of a page: `sensor` is in, and `slow` out.
const DECISIONS: [Decision; 2] = [
    Decision {
        serial: 1,
        session: 1,
        feature: 2,
        value: true,
    },
    Decision {
        serial: 2,
        session: 1,
        feature: 5,
        value: false,
    },
];

/// The configuration of the page as names.
const NAMES: &str = "elevator\nsensor\nlift\n";

/// Its configuration as a document.
const DOCUMENT: &str = "\
<?xml version=\"1.0\" encoding=\"UTF-8\" standalone=\"no\"?>
<configuration>
\t<feature automatic=\"selected\" manual=\"undefined\" name=\"elevator\"/>
\t<feature automatic=\"undefined\" manual=\"selected\" name=\"sensor\"/>
\t<feature automatic=\"selected\" manual=\"undefined\" name=\"lift\"/>
\t<feature automatic=\"unselected\" manual=\"undefined\" name=\"fast\"/>
\t<feature automatic=\"undefined\" manual=\"unselected\" name=\"slow\"/>
\t<feature automatic=\"undefined\" manual=\"undefined\" name=\"overload\"/>
</configuration>
";

/// Returns the configuration of the page for a file with a name.
fn configuration(rt: &impl Abort, alloc: Global, file: &str) -> Result<Vec<u8>, Fail> {
    let diagram = Diagram::read(alloc, DIAGRAM)?;
    let names = diagram.names();
    let known = Partial::close(alloc, &diagram, &[])?;
    assert!(rt; known.values().len() == names.len());
    let text = exported(alloc, form_of(file), names, &known, &DECISIONS)?;
    Ok(text)
}

#[test]
fn a_configuration_is_written(rt: HostRuntime) -> Result<(), Fail> {
    let names = configuration(&rt, rt.alloc(), "page.config")?;
    assert_eq!(rt; names.as_slice(), NAMES.as_bytes());
    let document = configuration(&rt, rt.alloc(), "page.xml")?;
    assert_eq!(rt; document.as_slice(), DOCUMENT.as_bytes());
    Ok(())
}

/// The text of a document, and the lines that it decides, or the line that reports its fault.
const ROWS: [[&str; 2]; 15] = [
    [DOCUMENT, "select sensor\nexclude slow\n"],
    ["<configuration/>", ""],
    [
        "<configuration>\n<!-- é --><feature name='a' manual='selected'>\n<attribute name='b' manual='x'/></feature>\
        <feature manual=\"unselected\" automatic=\"selected\" name=\"_b1\" color=\"x\"></feature></configuration>",
        "select a\nexclude _b1\n",
    ],
    [
        "<configurations/>",
        "vpgdesk: configuration UnknownElement 1:1\n",
    ],
    [
        "<configuration>\n <feature name='a'/>\n é<and/></configuration>",
        "vpgdesk: configuration UnknownElement 3:3\n",
    ],
    [
        "<configuration><feature name=\"a\" manual=\"true\"/></configuration>",
        "vpgdesk: configuration UnknownValue 1:34\n",
    ],
    [
        "<configuration><feature automatic=\"\"/></configuration>",
        "vpgdesk: configuration UnknownValue 1:25\n",
    ],
    [
        "<configuration><feature manual=\"selected\"/></configuration>",
        "vpgdesk: configuration NoName 1:16\n",
    ],
    [
        "<configuration><feature name=\"a&#10;settle\"/></configuration>",
        "vpgdesk: configuration BadName 1:16\n",
    ],
    [
        "<configuration>\n</feature>",
        "vpgdesk: configuration Closing 2:1\n",
    ],
    [
        "<configuration>\n",
        "vpgdesk: configuration Unfinished 2:1\n",
    ],
    ["", "vpgdesk: configuration Unfinished 1:1\n"],
    [
        "<configuration/><configuration/>",
        "vpgdesk: configuration SecondRoot 1:17\n",
    ],
    ["sensor\n", "vpgdesk: configuration Outside 1:1\n"],
    ["<?xml?><configuration/>", ""],
];

/// Writes what a document decides.
fn put_decided(text: &str, said: &mut Said) {
    said.put_answer(match deciding(said.alloc, text.as_bytes()) {
        Ok(lines) => Ok(lines),
        Err(fault) => Err(Fault::Configuration { fault }),
    });
}

#[test]
fn configurations_are_read(rt: HostRuntime) -> Result<(), Fail> {
    for [text, told] in &ROWS {
        let mut said = Said::new(rt.alloc());
        put_decided(text, &mut said);
        assert_eq!(rt; said.text(), *told);
    }
    Ok(())
}
