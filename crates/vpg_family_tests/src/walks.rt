//! Walks over a small family, against texts that were written by hand.
use std::alloc::Global;
use std::process::Abort;
use std::test::Fail;
use vpg_diagram::Diagram;
use vpg_hope::Arena;
use vpg_model::{Source, build};
use vpg_part_texts::Text;
use vpg_partial::Partial;
use vpg_parts::{Kind, Part, Permitted, TRUE_PLACE};
use vpg_sides::Which;
use vpg_system::System;
use vpg_trace::{follow, put_trace};

const SYSTEM: &[u8] = b"des (0, 3, 2)\n(0, \"a [f]\", 1)\n(0, b, 0)\n(1, \"b [g]\", 0)\n";

/// Returns the sets of `a`, of `b`, and of both.
fn sets(alloc: Global) -> Result<Vec<Permitted>, Fail> {
    let mut sets = Vec::new(alloc);
    sets.push(Permitted {
        actions: vec![in alloc; true, false]?,
    })?;
    sets.push(Permitted {
        actions: vec![in alloc; false, true]?,
    })?;
    sets.push(Permitted {
        actions: vec![in alloc; true, true]?,
    })?;
    Ok(sets)
}

/// Returns the parts of `nu X. <b>true && [true]X`.
fn parts(alloc: Global) -> Result<Vec<Part>, Fail> {
    let parts = vec![in alloc;
        Part::True,
        Part::False,
        Part::Fixpoint {
            kind: Kind::Greatest,
            priority: 0,
            body: 3
        },
        Part::And(4, 5),
        Part::SomeStep(1, TRUE_PLACE),
        Part::EveryStep(2, 6),
        Part::Variable { fixpoint: 2 },
    ]?;
    Ok(parts)
}

/// Returns the text of the walk over the system's game by these moves, under what the diagram makes known.
fn walk(
    rt: &impl Abort,
    alloc: Global,
    diagram: &[u8],
    winner: Which,
    moves: &[Option<u32>],
) -> Result<Vec<u8>, Fail> {
    let diagram = Diagram::read(alloc, diagram)?;
    let names = diagram.names();
    let system = System::read(alloc, SYSTEM, names)?;
    let source = Source::of(alloc, &system, sets(alloc)?, parts(alloc)?)?;
    assert!(rt; source.features <= 512);
    let built = build(alloc, &source, system.first(), &[2])?;
    let known = Partial::close(alloc, &diagram, &[])?;
    assert!(rt; known.values().len() == built.game.features());
    assert!(rt; known.values().len() == names.len());
    assert!(rt; source.features == names.len());
    let arena = match winner {
        Which::Hopeful => Arena::cautious(alloc, &built.game, &known)?,
        Which::Dual => Arena::cautious_of_dual(alloc, &built.game, &known)?,
    };
    let trace = follow(alloc, &arena, moves, 0)?;
    let mut actions = Vec::new(alloc);
    for action in 0..system.actions() {
        let bytes = Vec::from_slice(alloc, system.action_name(action))?;
        actions.push(Text { bytes })?;
    }
    assert!(rt; actions.len() == system.actions());
    let mut out = Vec::new(alloc);
    put_trace(
        alloc,
        names,
        &actions,
        &source,
        &built.pairs,
        known.values(),
        &trace,
        &mut out,
    )?;
    Ok(out)
}

/// With `f` and without `g`, `a` leads to a state where `b` is missing.
#[test]
fn a_counterexample(rt: HostRuntime) -> Result<(), Fail> {
    let moves = [
        None,
        Some(3),
        None,
        Some(5),
        None,
        None,
        Some(7),
        None,
        None,
    ];
    let text = walk(
        &rt,
        rt.alloc(),
        b"root r\nmandatory r f\noptional r g\nexcludes r g\n",
        Which::Dual,
        &moves,
    )?;
    assert_eq!(rt;
        text.as_slice(),
        b"0 -a[f]-> 1\nno b from 1\nsteps 1\n".as_slice()
    );
    Ok(())
}

/// With `g`, `b` is there in both states; whether `a` is depends on `f`.
#[test]
fn a_witness(rt: HostRuntime) -> Result<(), Fail> {
    let moves = [
        Some(1),
        None,
        Some(4),
        None,
        None,
        Some(6),
        None,
        Some(4),
        None,
    ];
    let text = walk(
        &rt,
        rt.alloc(),
        b"root r\noptional r f\nmandatory r g\n",
        Which::Hopeful,
        &moves,
    )?;
    assert_eq!(rt;
        text.as_slice(),
        b"  0 -b-> 0\n  true\n  0 -a[f]-> 1 depends\n    1 -b[g]-> 0\n    true\n  1 -b[g]-> 0\n  loop to 0\n\
          0 -b-> 0\nloop to 0\nsteps 5\n"
            .as_slice()
    );
    Ok(())
}
