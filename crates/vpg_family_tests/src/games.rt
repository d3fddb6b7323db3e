//! The games of two small systems, vertex by vertex, against an independent calculation.
use std::alloc::{AllocError, Global};
use std::test::Fail;
use vpg_features::Names;
use vpg_guards::Guard;
use vpg_model::{Built, Source, build};
use vpg_parts::{FALSE_PLACE, Kind, Part, Permitted, TRUE_PLACE};
use vpg_system::System;

/// Returns the vertices, a line each: owner, priority and edges.
fn text(alloc: Global, built: &Built) -> Result<String, Fail> {
    let mut lines = String::new(alloc);
    for v in 0..built.game.vertices() as u32 {
        let line = format!(in alloc; "{:?} {}", built.game.owner(v), built.game.priority(v))?;
        lines.push_str(line.as_str())?;
        for edge in built.game.edges(v) {
            let word = match edge.guard {
                Guard::Always => "",
                Guard::Feature(_) => "f",
                Guard::Any(_) => "|",
                _ => "?",
            };
            let target = format!(in alloc; " {}{word}", edge.to)?;
            lines.push_str(target.as_str())?;
        }
        lines.push_str("; ")?;
    }
    Ok(lines)
}

/// Returns the system of this text, over the features `f` and `g`.
fn system_of(alloc: Global, text: &[u8]) -> Result<System, AllocError> {
    let mut names = Names::new(alloc)?;
    let Ok(_) = names.add(alloc, b"f") else {
        return Err(AllocError);
    };
    let Ok(_) = names.add(alloc, b"g") else {
        return Err(AllocError);
    };
    match System::read(alloc, text, &names) {
        Ok(system) => Ok(system),
        Err(_) => Err(AllocError),
    }
}

/// Returns the sets of the first of two actions, and of the second.
fn sets(alloc: Global) -> Result<Vec<Permitted>, AllocError> {
    let mut sets = Vec::new(alloc);
    sets.push(Permitted {
        actions: vec![in alloc; true, false]?,
    })?;
    sets.push(Permitted {
        actions: vec![in alloc; false, true]?,
    })?;
    sets.push(Permitted {
        actions: vec![in alloc; true, true]?,
    })?;
    Ok(sets)
}

/// `nu X. (mu Y. <a>true || <true>Y) && [true]X` over two states.
#[test]
fn always_possibly_can(rt: HostRuntime) -> Result<(), Fail> {
    let alloc = rt.alloc();
    let system = system_of(
        alloc,
        b"des (0, 4, 2)\n(0, \"a [f]\", 1)\n(0, b, 0)\n(1, \"b [g]\", 0)\n(1, \"b [f]\", 0)\n",
    )?;
    let parts = vec![in alloc;
        Part::True,
        Part::False,
        Part::Fixpoint {
            kind: Kind::Greatest,
            priority: 0,
            body: 3
        },
        Part::And(4, 9),
        Part::Fixpoint {
            kind: Kind::Least,
            priority: 1,
            body: 5
        },
        Part::Or(6, 7),
        Part::SomeStep(0, TRUE_PLACE),
        Part::SomeStep(2, 8),
        Part::Variable { fixpoint: 4 },
        Part::EveryStep(2, 10),
        Part::Variable { fixpoint: 2 },
    ]?;
    let source = Source::of(alloc, &system, sets(alloc)?, parts)?;
    assert!(rt; source.features <= 512);
    let built = build(alloc, &source, system.first(), &[2])?;
    assert_eq!(rt;
        text(alloc, &built)?.as_str(),
        "Even 0 1; Odd 0 2 3; Even 1 4; Odd 0 5f 0; Even 0 6 7; Even 0 8; Even 0 9f; Even 0 10f 2; Odd 0 10 11; \
         Odd 0; Even 1 12; Odd 0 0|; Even 0 13 14; Even 0; Even 0 2|; "
    );
    Ok(())
}

/// `[b]false` and `<a>true && <b>true`, as two roots, over one state. `true` is shared.
#[test]
fn two_roots(rt: HostRuntime) -> Result<(), Fail> {
    let alloc = rt.alloc();
    let system = system_of(alloc, b"des (0, 2, 1)\n(0, \"a [f]\", 0)\n(0, b, 0)\n")?;
    let parts = vec![in alloc;
        Part::True,
        Part::False,
        Part::EveryStep(1, FALSE_PLACE),
        Part::And(4, 5),
        Part::SomeStep(0, TRUE_PLACE),
        Part::SomeStep(1, TRUE_PLACE),
    ]?;
    let source = Source::of(alloc, &system, sets(alloc)?, parts)?;
    assert!(rt; source.features <= 512);
    let built = build(alloc, &source, system.first(), &[2, 3])?;
    assert_eq!(rt;
        text(alloc, &built)?.as_str(),
        "Odd 0 2; Odd 0 3 4; Even 0; Even 0 5f; Even 0 5; Odd 0; "
    );
    Ok(())
}
