//! Which fault of which file is reported first.
use super::{DIAGRAM, GAME};
use crate::said::Said;
use std::alloc::Global;
use std::fs;
use std::test::*;
use vpg_family::{Fault, GamePaths, Known, Paths, Unread, open_script, read_known};

/// The files of a game and a diagram, and the message about them. `none` is missing, `.` is a folder, `empty` has no
/// bytes, and `/dev/zero` no end. `model.uvl` is a feature model that means the diagram; `empty.uvl` has no bytes.
/// `full` has as many signs as a game may have, and `fuller` one more.
const ROWS: [[&str; 3]; 15] = [
    ["none", "none", "vpgdesk: diagram unreadable\n"],
    ["game", ".", "vpgdesk: diagram unreadable\n"],
    ["none", "empty", "vpgdesk: diagram NoRoot\n"],
    ["diagram", "game", "vpgdesk: diagram Syntax 1\n"],
    ["none", "diagram", "vpgdesk: game unreadable\n"],
    [".", "diagram", "vpgdesk: game unreadable\n"],
    ["empty", "diagram", "vpgdesk: game Syntax 0\n"],
    ["none", "/dev/zero", "vpgdesk: diagram TooLarge\n"],
    ["/dev/zero", "diagram", "vpgdesk: game TooLarge\n"],
    ["full", "diagram", "vpgdesk: game Syntax 0\n"],
    ["fuller", "diagram", "vpgdesk: game TooManySigns 8388608\n"],
    [
        "game",
        "model.uvl",
        "vertices 2 edges 4 features 3 top 2 2\n",
    ],
    ["none", "empty.uvl", "vpgdesk: uvl Ended\n"],
    ["none", "model.uvl", "vpgdesk: game unreadable\n"],
    ["game", "diagram", "vertices 2 edges 4 features 3 top 2 2\n"],
];

/// Writes the counts of a family, or the line that reports its fault.
fn put_counts(known: Result<Known, Unread>, said: &mut Said) {
    match known {
        Ok(known) => said.put_made(known.family.counted(said.alloc)),
        Err(unread) => {
            let Unread { fault, texts: _ } = unread;
            said.put_answer(Err(fault));
        }
    }
}

fn holds(rt: &HostRuntime, alloc: Global, row: [&str; 3]) -> bool {
    let [game, diagram, told] = row;
    let mut said = Said::new(alloc);
    let paths = Paths {
        game: GamePaths::Game(game),
        diagram,
    };
    put_counts(read_known(rt, alloc, paths), &mut said);
    said.text() == told
}

/// Returns the wanted message of the first row that doesn't hold.
fn first_wrong(rt: &HostRuntime, alloc: Global) -> Option<&'static str> {
    for row in ROWS {
        if !holds(rt, alloc, row) {
            return Some(row[2]);
        }
    }
    None
}

#[test]
fn the_diagram_is_read_before_the_game(rt: HostRuntime) -> Result<(), Fail> {
    fs::write(&rt, "diagram", DIAGRAM)?;
    fs::write(&rt, "game", GAME)?;
    fs::write(&rt, "empty", "")?;
    fs::write(&rt, "empty.uvl", "")?;
    fs::write(
        &rt,
        "model.uvl",
        "features\n\tr\n\t\toptional\n\t\t\tf\n\t\t\tg\n",
    )?;
    let full = vec![in rt.alloc(); b'!'; 8_388_608]?;
    let fuller = vec![in rt.alloc(); b'!'; 8_388_609]?;
    fs::write(&rt, "full", full)?;
    fs::write(&rt, "fuller", fuller)?;
    let wrong = first_wrong(&rt, rt.alloc());
    fs::remove_file(&rt, "diagram")?;
    fs::remove_file(&rt, "game")?;
    fs::remove_file(&rt, "empty")?;
    fs::remove_file(&rt, "empty.uvl")?;
    fs::remove_file(&rt, "model.uvl")?;
    fs::remove_file(&rt, "full")?;
    fs::remove_file(&rt, "fuller")?;
    assert_eq!(rt; wrong, None);
    Ok(())
}

#[test]
fn a_script_is_opened_or_not(rt: HostRuntime) -> Result<(), Fail> {
    fs::write(&rt, "script", "show\n")?;
    let is_opened = open_script(&rt, "script").is_ok();
    fs::remove_file(&rt, "script")?;
    assert!(rt; is_opened);
    assert!(rt; matches!(open_script(&rt, "none"), Err(Fault::ScriptUnreadable)));
    Ok(())
}
