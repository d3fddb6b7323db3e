//! The path of a walk through the system.
ghost use Rattle.std.specs.Prelude.{◌≡◌, ◌++◌, IfOk, OnOk, length};
ghost use Rattle.vpg_model.specs.Pairs.{HaveGuards, pair_at};
ghost use Rattle.vpg_steps.specs.Steps.{loops_of, one_loop, one_stand, one_step, stands_of, state_unless, steps_of, trail_over};
ghost use Rattle.vpg_trace.specs.Texts.{state_of, step_from};
ghost use Rattle.vpg_trace.specs.Walks.{visit_at, visit_before};

use indexmap::IndexSet;
use std::alloc::{AllocError, Global};
use vpg_guards::Tri;
use vpg_model::Source;
use vpg_parts::Part;
use vpg_system_draw::{Path, Step};
use vpg_trace::{End, Taken, Visit, step_between};

/// Returns the visit of a number. Past the last one it is a visit of the first vertex, which stands.
fn visit_at(visits: &[Visit], n: usize) -> Visit
    ensures { result ≡ visit_at visits.now n }
{
    match visits.get(n) {
        Some(visit) => *visit,
        None => Visit {
            vertex: 0,
            before: None,
            depth: 0,
            end: End::Stands,
        },
    }
}

/// Returns the state and the place of the part of a vertex.
fn pair_at(pairs: &IndexSet<(u32, u32)>, v: u32) -> (u32, u32)
    ensures { result ≡ pair_at pairs.now.keys v }
{
    match pairs.get_index(v as usize) {
        Some(pair) => *pair,
        None => (0, 0),
    }
}

/// Returns the state of a visit.
fn state_of(pairs: &IndexSet<(u32, u32)>, visits: &[Visit], n: usize) -> u32
    ensures { result ≡ state_of pairs.now.keys visits.now n }
{
    pair_at(pairs, visit_at(visits, n).vertex).0
}

/// Returns the transition by which a visit is reached, if there is one.
fn step_to(
    source: &Source,
    pairs: &IndexSet<(u32, u32)>,
    known: &[Tri],
    visits: &[Visit],
    visit: Visit,
) -> Option<Taken>
    requires { HaveGuards (length known.now) source.now.states.items }
    ensures { result ≡ step_from known.now source.now.states.items source.now.sets.items source.now.parts.items
        pairs.now.keys visits.now visit.before visit.vertex }
{
    match visit.before {
        Some(n) => step_between(
            source,
            pairs,
            known,
            visit_at(visits, n).vertex,
            visit.vertex,
        ),
        None => None,
    }
}

/// Adds the step of a transition, if there is one.
fn add_step(steps: &mut Vec<Step>, taken: Option<Taken>) -> Result<(), AllocError>
    ensures { OnOk result (steps.new.items ≡ steps.old.items ++ one_step taken) }
{
    if let Some(taken) = taken {
        steps.push(Step {
            state: taken.state,
            place: taken.index,
        })?;
    }
    Ok(())
}

/// Returns the steps by which visits are reached.
fn steps_of(
    alloc: Global,
    source: &Source,
    pairs: &IndexSet<(u32, u32)>,
    known: &[Tri],
    visits: &[Visit],
) -> Result<Vec<Step>, AllocError>
    requires { HaveGuards (length known.now) source.now.states.items }
    ensures { IfOk result (λ steps. steps.items ≡ steps_of known.now source.now.states.items source.now.sets.items
        source.now.parts.items pairs.now.keys visits.now (length visits.now)) }
{
    let mut steps = Vec::new(alloc);
    for n in 0..visits.len() {
        let visit = visit_at(visits, n);
        add_step(&mut steps, step_to(source, pairs, known, visits, visit))?;
    }
    Ok(steps)
}

/// Adds the state that a visit comes back to, if it closes a loop.
fn add_loop(
    pairs: &IndexSet<(u32, u32)>,
    visits: &[Visit],
    end: End,
    loops: &mut Vec<u32>,
) -> Result<(), AllocError>
    ensures { OnOk result (loops.new.items ≡ loops.old.items ++ one_loop pairs.now.keys visits.now end) }
{
    match end {
        End::Loop(n) => {
            loops.push(state_of(pairs, visits, n))?;
            Ok(())
        }
        End::GoesOn | End::Seen(_) | End::Stands | End::Cut => Ok(()),
    }
}

/// Returns the states that visits come back to.
fn loops_of(
    alloc: Global,
    pairs: &IndexSet<(u32, u32)>,
    visits: &[Visit],
) -> Result<Vec<u32>, AllocError>
    ensures { IfOk result (λ loops. loops.items ≡ loops_of pairs.now.keys visits.now (length visits.now)) }
{
    let mut loops = Vec::new(alloc);
    for n in 0..visits.len() {
        add_loop(pairs, visits, visit_at(visits, n).end, &mut loops)?;
    }
    Ok(loops)
}

/// Adds a state, unless the part is `true` or `false` alone.
fn add_state(part: Part, state: u32, stands: &mut Vec<u32>) -> Result<(), AllocError>
    ensures { OnOk result (stands.new.items ≡ stands.old.items ++ state_unless part state) }
{
    match part {
        Part::True | Part::False => Ok(()),
        Part::And(_, _)
        | Part::Or(_, _)
        | Part::SomeStep(_, _)
        | Part::EveryStep(_, _)
        | Part::Fixpoint { .. }
        | Part::Variable { .. } => {
            stands.push(state)?;
            Ok(())
        }
    }
}

/// Adds the state of a visit if nobody moves there.
fn add_stand(
    source: &Source,
    pair: (u32, u32),
    end: End,
    stands: &mut Vec<u32>,
) -> Result<(), AllocError>
    ensures { OnOk result (stands.new.items ≡ stands.old.items ++ one_stand source.now.parts.items pair end) }
{
    match end {
        End::Stands => add_state(source.resolved_part(pair.1), pair.0, stands),
        End::GoesOn | End::Loop(_) | End::Seen(_) | End::Cut => Ok(()),
    }
}

/// Returns the states of visits where nobody moves.
fn stands_of(
    alloc: Global,
    source: &Source,
    pairs: &IndexSet<(u32, u32)>,
    visits: &[Visit],
) -> Result<Vec<u32>, AllocError>
    ensures { IfOk result (λ stands. stands.items
        ≡ stands_of source.now.parts.items pairs.now.keys visits.now (length visits.now)) }
{
    let mut stands = Vec::new(alloc);
    for n in 0..visits.len() {
        let visit = visit_at(visits, n);
        add_stand(source, pair_at(pairs, visit.vertex), visit.end, &mut stands)?;
    }
    Ok(stands)
}

/// Returns the path of visits: the steps by which they are reached, the states that they come back to, and those where
/// nobody moves.
pub(crate) fn path_of(
    alloc: Global,
    source: &Source,
    pairs: &IndexSet<(u32, u32)>,
    known: &[Tri],
    visits: &[Visit],
) -> Result<Path, AllocError>
    requires { HaveGuards (length known.now) source.now.states.items }
    ensures { IfOk result (λ path. path ≡ trail_over known.now source.now.states.items source.now.sets.items
        source.now.parts.items pairs.now.keys visits.now) }
{
    let steps = steps_of(alloc, source, pairs, known, visits)?;
    let loops = loops_of(alloc, pairs, visits)?;
    let stands = stands_of(alloc, source, pairs, visits)?;
    Ok(Path {
        steps,
        loops,
        stands,
    })
}
