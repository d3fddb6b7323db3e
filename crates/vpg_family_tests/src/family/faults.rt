//! Messages about faults that no family in texts meets.
use crate::said::Said;
use std::alloc::Global;
use std::test::*;
use vpg_configuration::{ConfigurationFault, Reason};
use vpg_family::{Fault, Input};
use vpg_script::LineFault;

/// The number of these faults.
const FAULTS: u32 = 19;

/// Returns the fault at a place.
fn fault_at(place: u32) -> Fault {
    match place {
        0 => Fault::DiagramUnreadable,
        1 => Fault::GameUnreadable,
        2 => Fault::ScriptUnreadable,
        3 => Fault::AtLimit,
        4 => Fault::Line {
            line: 20,
            fault: LineFault::TooLong,
        },
        5 => Fault::Read,
        6 => Fault::Write,
        7 => Fault::LogFull,
        8 => Fault::Stray,
        9 => Fault::SystemUnreadable,
        10 => Fault::RequirementsUnreadable,
        11 => Fault::TooLarge {
            input: Input::Diagram,
        },
        12 => Fault::TooLarge { input: Input::Game },
        13 => Fault::TooLarge {
            input: Input::System,
        },
        14 => Fault::TooLarge {
            input: Input::Requirements,
        },
        15 => Fault::TooLarge {
            input: Input::Script,
        },
        16 => Fault::TooManySigns { at: 8_388_608 },
        17 => Fault::Configuration {
            fault: ConfigurationFault::Refused {
                reason: Reason::UnknownValue,
                line: 3,
                column: 14,
            },
        },
        _ => Fault::Memory,
    }
}

/// Returns the fault of a trace that is none.
fn untraced(alloc: Global) -> Fault {
    match Vec::from_slice(alloc, b"possible 0 unsure") {
        Ok(answer) => Fault::NoTrace { answer },
        Err(_) => Fault::Memory,
    }
}

const LINES: &str = "\
vpgdesk: diagram unreadable
vpgdesk: game unreadable
vpgdesk: script unreadable
vpgdesk: game AtLimit
vpgdesk: script Line 20 TooLong
vpgdesk: script Read
vpgdesk: Write
vpgdesk: script LogFull
vpgdesk: script Stray
vpgdesk: system unreadable
vpgdesk: requirements unreadable
vpgdesk: diagram TooLarge
vpgdesk: game TooLarge
vpgdesk: system TooLarge
vpgdesk: requirements TooLarge
vpgdesk: script TooLarge
vpgdesk: game TooManySigns 8388608
vpgdesk: configuration UnknownValue 3:14
vpgdesk: Memory
vpgdesk: NoTrace possible 0 unsure
";

#[test]
fn other_faults_are_told(rt: HostRuntime) -> Result<(), Fail> {
    let mut said = Said::new(rt.alloc());
    for place in 0..FAULTS {
        said.put_answer(Err(fault_at(place)));
    }
    said.put_answer(Err(untraced(rt.alloc())));
    assert_eq!(rt; said.text(), LINES);
    Ok(())
}
