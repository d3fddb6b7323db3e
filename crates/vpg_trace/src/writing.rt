//! The text of a walk.
ghost use Rattle.std.specs.Prelude.{◌≡◌, ◌<◌, ◌++◌, [], ℕ, List, IfSome, OnErr, OnOk, decimal, length, slice_index_or};
ghost use Rattle.vpg_guards.specs.Formula.{IsBelow};
ghost use Rattle.vpg_guards.specs.View.{formula_of};
ghost use Rattle.vpg_model.specs.Forms.{HasLabels};
ghost use Rattle.vpg_model.specs.Pairs.{HaveGuards, departures_at};
ghost use Rattle.vpg_parts.specs.Sets.{is_permitted};
ghost use Rattle.vpg_trace.specs.Taking.{departure_at};
ghost use Rattle.vpg_trace.specs.Texts.{action_if, all_permitted, arrow_text, asked_text, cut_text, end_text, family_of, guard_part, indent, mark_text, missing_text, permitted_text, return_line, some_permitted, standing_line, standing_text, state_of, step_from, step_line, step_text, steps_in, trace_text, unmoved_text, visit_text, visits_text, wanted_text};

use crate::taking::{Taken, pair_of, step_between};
use crate::walking::{End, Trace, Visit, visit_at};
use indexmap::IndexSet;
use itoa::Buffer;
use std::alloc::{AllocError, Global};
use vpg_features::Names;
use vpg_guards::{Guard, Tri};
use vpg_model::{Source, Transition};
use vpg_part_texts::Text;
use vpg_parts::Part;

/// Appends a number in decimal.
pub(crate) fn put_number(n: u64, out: &mut Vec<u8>) -> Result<(), AllocError>
    ensures { OnOk result (out.new.items ≡ out.old.items ++ decimal n) }
{
    let mut buffer = Buffer::new();
    out.extend_from_slice(buffer.format(n).as_bytes())
}

/// Returns the name of an action. Past the last one it is empty.
fn name_of(actions: &[Text], action: usize) -> &[u8]
    ensures { result.now ≡ slice_index_or actions.now action [] }
{
    match actions.get(action) {
        Some(name) => name.bytes.as_slice(),
        None => b"",
    }
}

/// Appends two blanks for each side branch.
fn put_indent(depth: u32, out: &mut Vec<u8>) -> Result<(), AllocError>
    ensures { OnOk result (out.new.items ≡ out.old.items ++ indent depth) }
{
    for _ in 0..depth {
        out.extend_from_slice(b"  ")?;
    }
    Ok(())
}

/// Appends a guard in brackets, unless it is always true.
fn put_guard(
    alloc: Global,
    names: &Names,
    guard: &Guard,
    out: &mut Vec<u8>,
) -> Result<(), AllocError>
    requires { IsBelow (length names.now) (formula_of guard.now) }
    ensures { OnOk result (out.new.items ≡ out.old.items ++ guard_part names.now (formula_of guard.now)) }
{
    match guard {
        Guard::Always => Ok(()),
        _ => {
            out.extend_from_slice(b"[")?;
            guard.write(alloc, names, out)?;
            out.extend_from_slice(b"]")
        }
    }
}

/// Appends the action of a transition with its guard, and the state that it leads to.
fn put_arrow(
    alloc: Global,
    names: &Names,
    actions: &[Text],
    transition: &Transition,
    out: &mut Vec<u8>,
) -> Result<(), AllocError>
    requires guard { IsBelow (length names.now) transition.now.guard }
    requires action { transition.now.action < length actions.now }
    ensures { OnOk result (out.new.items ≡ out.old.items
        ++ arrow_text names.now actions.now transition.now) }
{
    out.extend_from_slice(b" -")?;
    out.extend_from_slice(name_of(actions, transition.action as usize))?;
    put_guard(alloc, names, &transition.guard, out)?;
    out.extend_from_slice(b"-> ")?;
    put_number(transition.target as u64, out)
}

/// Appends the mark of a step that is not one of each product that is left, and ends the line.
fn put_mark(depends: bool, out: &mut Vec<u8>) -> Result<(), AllocError>
    ensures { OnOk result (out.new.items ≡ out.old.items ++ mark_text depends) }
{
    if depends {
        out.extend_from_slice(b" depends\n")
    } else {
        out.extend_from_slice(b"\n")
    }
}

/// Returns the transition that is taken.
fn transition_of(source: &Source, taken: Taken) -> &Transition
    requires { taken.index < length (departures_at source.now.states.items taken.state) }
    ensures { result.now ≡ departure_at source.now.states.items taken }
{
    &source.states[taken.state as usize].transitions[taken.index]
}

/// Appends the line of a step.
fn put_step(
    alloc: Global,
    names: &Names,
    actions: &[Text],
    source: &Source,
    depth: u32,
    taken: Taken,
    out: &mut Vec<u8>,
) -> Result<(), AllocError>
    requires guards { HaveGuards (length names.now) source.now.states.items }
    requires labels { HasLabels (length actions.now) source.now.states.items }
    requires within { taken.index < length (departures_at source.now.states.items taken.state) }
    ensures { OnOk result (out.new.items ≡ out.old.items
        ++ step_line names.now actions.now source.now.states.items depth taken) }
{
    put_indent(depth, out)?;
    put_number(taken.state as u64, out)?;
    put_arrow(alloc, names, actions, transition_of(source, taken), out)?;
    put_mark(taken.depends, out)
}

/// Whether a set has an action.
fn is_in(source: &Source, set: u32, action: usize) -> bool
    ensures { result ≡ is_permitted source.now.sets.items set action }
{
    match source.sets.get(set as usize) {
        Some(permitted) => match permitted.actions.get(action) {
            Some(is) => *is,
            None => false,
        },
        None => false,
    }
}

/// Whether a set has all of these actions.
fn has_all(actions: &[Text], source: &Source, set: u32) -> bool
    ensures { result ≡ all_permitted source.now.sets.items set (length actions.now) }
{
    let mut has = true;
    for action in 0..actions.len() {
        has = has && is_in(source, set, action);
    }
    has
}

/// Appends the name of an action, if a set has it.
fn put_action_if(
    actions: &[Text],
    action: usize,
    is_permitted: bool,
    out: &mut Vec<u8>,
) -> Result<(), AllocError>
    requires { action < length actions.now }
    ensures { OnOk result (out.new.items ≡ out.old.items ++ action_if actions.now action is_permitted) }
{
    if is_permitted {
        out.push(b' ')?;
        out.extend_from_slice(name_of(actions, action))?;
    }
    Ok(())
}

/// Appends the names of the actions that a set has.
fn put_permitted(
    actions: &[Text],
    source: &Source,
    set: u32,
    out: &mut Vec<u8>,
) -> Result<(), AllocError>
    ensures { OnOk result (out.new.items ≡ out.old.items
        ++ permitted_text actions.now source.now.sets.items set (length actions.now)) }
{
    for action in 0..actions.len() {
        let is_permitted = is_in(source, set, action);
        put_action_if(actions, action, is_permitted, out)?;
    }
    Ok(())
}

/// Whether a set has some of these actions.
fn has_some(actions: &[Text], source: &Source, set: u32) -> bool
    ensures { result ≡ some_permitted source.now.sets.items set (length actions.now) }
{
    let mut has = false;
    for action in 0..actions.len() {
        has = has || is_in(source, set, action);
    }
    has
}

/// Appends the names of the wanted actions, if the system has some of them.
fn put_wanted(
    actions: &[Text],
    source: &Source,
    set: u32,
    out: &mut Vec<u8>,
) -> Result<(), AllocError>
    ensures { OnOk result (out.new.items ≡ out.old.items
        ++ wanted_text actions.now source.now.sets.items set) }
{
    if has_some(actions, source, set) {
        put_permitted(actions, source, set, out)
    } else {
        out.extend_from_slice(b" such action")
    }
}

/// Appends the wanted steps: any step, or one of a set's actions.
fn put_asked(
    actions: &[Text],
    source: &Source,
    set: u32,
    out: &mut Vec<u8>,
) -> Result<(), AllocError>
    ensures { OnOk result (out.new.items ≡ out.old.items
        ++ asked_text actions.now source.now.sets.items set) }
{
    if has_all(actions, source, set) {
        out.extend_from_slice(b" step")
    } else {
        put_wanted(actions, source, set, out)
    }
}

/// Appends that none of the wanted steps is there.
fn put_missing(
    actions: &[Text],
    source: &Source,
    state: u32,
    set: u32,
    out: &mut Vec<u8>,
) -> Result<(), AllocError>
    ensures { OnOk result (out.new.items ≡ out.old.items
        ++ missing_text actions.now source.now.sets.items state set) }
{
    out.extend_from_slice(b"no")?;
    put_asked(actions, source, set, out)?;
    out.extend_from_slice(b" from ")?;
    put_number(state as u64, out)
}

/// Appends that there is no move within a requirement.
fn put_unmoved(state: u32, out: &mut Vec<u8>) -> Result<(), AllocError>
    ensures { OnOk result (out.new.items ≡ out.old.items ++ unmoved_text state) }
{
    out.extend_from_slice(b"no move from ")?;
    put_number(state as u64, out)
}

/// Appends the text for a part where nobody moves.
fn put_standing(
    actions: &[Text],
    source: &Source,
    state: u32,
    part: Part,
    out: &mut Vec<u8>,
) -> Result<(), AllocError>
    ensures { OnOk result (out.new.items ≡ out.old.items
        ++ standing_text actions.now source.now.sets.items state part) }
{
    match part {
        Part::True => out.extend_from_slice(b"true"),
        Part::False => out.extend_from_slice(b"false"),
        Part::SomeStep(set, _) | Part::EveryStep(set, _) => {
            put_missing(actions, source, state, set, out)
        }
        Part::And(_, _) | Part::Or(_, _) | Part::Fixpoint { .. } | Part::Variable { .. } => {
            put_unmoved(state, out)
        }
    }
}

/// Appends the line for a pair where nobody moves.
fn put_standing_line(
    actions: &[Text],
    source: &Source,
    depth: u32,
    pair: (u32, u32),
    out: &mut Vec<u8>,
) -> Result<(), AllocError>
    ensures { OnOk result (out.new.items ≡ out.old.items
        ++ standing_line actions.now source.now.sets.items source.now.parts.items depth pair) }
{
    put_indent(depth, out)?;
    put_standing(actions, source, pair.0, source.resolved_part(pair.1), out)?;
    out.extend_from_slice(b"\n")
}

/// Returns the state of a visit.
fn state_of(pairs: &IndexSet<(u32, u32)>, visits: &[Visit], k: usize) -> u32
    ensures { result ≡ state_of pairs.now.keys visits.now k }
{
    pair_of(pairs, visit_at(visits, k).vertex).0
}

/// Appends that a visit ends at the state of another one, as a line.
fn put_return(depth: u32, word: &[u8], state: u32, out: &mut Vec<u8>) -> Result<(), AllocError>
    ensures { OnOk result (out.new.items ≡ out.old.items ++ return_line depth word.now state) }
{
    put_indent(depth, out)?;
    out.extend_from_slice(word)?;
    put_number(state as u64, out)?;
    out.extend_from_slice(b"\n")
}

/// Appends how a visit ends, unless it goes on.
fn put_end(
    actions: &[Text],
    source: &Source,
    pairs: &IndexSet<(u32, u32)>,
    visits: &[Visit],
    visit: Visit,
    out: &mut Vec<u8>,
) -> Result<(), AllocError>
    ensures { OnOk result (out.new.items ≡ out.old.items ++ end_text actions.now source.now.sets.items
        source.now.parts.items pairs.now.keys visits.now visit.depth visit.vertex visit.end) }
{
    match visit.end {
        End::GoesOn => Ok(()),
        End::Loop(k) => put_return(visit.depth, b"loop to ", state_of(pairs, visits, k), out),
        End::Seen(k) => put_return(visit.depth, b"seen ", state_of(pairs, visits, k), out),
        End::Stands => put_standing_line(
            actions,
            source,
            visit.depth,
            pair_of(pairs, visit.vertex),
            out,
        ),
        End::Cut => {
            put_indent(visit.depth, out)?;
            out.extend_from_slice(b"cut\n")
        }
    }
}

/// Returns the transition by which a visit is reached, if there is one.
fn step_to(
    source: &Source,
    pairs: &IndexSet<(u32, u32)>,
    known: &[Tri],
    visits: &[Visit],
    visit: Visit,
) -> Option<Taken>
    requires { HaveGuards (length known.now) source.now.states.items }
    ensures within { IfSome result (λ taken.
        taken.index < length (departures_at source.now.states.items taken.state)) }
    ensures step { result ≡ step_from known.now source.now.states.items source.now.sets.items source.now.parts.items
        pairs.now.keys visits.now visit.before visit.vertex }
{
    match visit.before {
        Some(p) => step_between(
            source,
            pairs,
            known,
            visit_at(visits, p).vertex,
            visit.vertex,
        ),
        None => None,
    }
}

/// Appends the line of a step, if there is one.
fn put_step_if(
    alloc: Global,
    names: &Names,
    actions: &[Text],
    source: &Source,
    depth: u32,
    step: Option<Taken>,
    out: &mut Vec<u8>,
) -> Result<(), AllocError>
    requires guards { HaveGuards (length names.now) source.now.states.items }
    requires labels { HasLabels (length actions.now) source.now.states.items }
    requires within { IfSome step (λ taken.
        taken.index < length (departures_at source.now.states.items taken.state)) }
    ensures { OnOk result (out.new.items ≡ out.old.items
        ++ step_text names.now actions.now source.now.states.items depth step) }
{
    match step {
        Some(taken) => put_step(alloc, names, actions, source, depth, taken, out),
        None => Ok(()),
    }
}

/// Appends the lines of a visit: of the step to it, and of its end.
fn put_visit(
    alloc: Global,
    names: &Names,
    actions: &[Text],
    source: &Source,
    pairs: &IndexSet<(u32, u32)>,
    known: &[Tri],
    visits: &[Visit],
    visit: Visit,
    out: &mut Vec<u8>,
) -> Result<(), AllocError>
    requires guards { HaveGuards (length names.now) source.now.states.items }
    requires labels { HasLabels (length actions.now) source.now.states.items }
    requires known { length known.now ≡ length names.now }
    ensures { OnOk result (out.new.items ≡ out.old.items ++ visit_text (family_of names.now actions.now known.now
        source.now.states.items source.now.sets.items source.now.parts.items pairs.now.keys) visits.now visit) }
{
    let step = step_to(source, pairs, known, visits, visit);
    put_step_if(alloc, names, actions, source, visit.depth, step, out)?;
    put_end(actions, source, pairs, visits, visit, out)
}

/// Appends the lines of all visits.
fn put_visits(
    alloc: Global,
    names: &Names,
    actions: &[Text],
    source: &Source,
    pairs: &IndexSet<(u32, u32)>,
    known: &[Tri],
    visits: &[Visit],
    out: &mut Vec<u8>,
) -> Result<(), AllocError>
    requires guards { HaveGuards (length names.now) source.now.states.items }
    requires labels { HasLabels (length actions.now) source.now.states.items }
    requires known { length known.now ≡ length names.now }
    ensures { OnOk result (out.new.items ≡ out.old.items
        ++ visits_text (family_of names.now actions.now known.now source.now.states.items
        source.now.sets.items source.now.parts.items pairs.now.keys) visits.now (length visits.now)) }
{
    for i in 0..visits.len() {
        let visit = visit_at(visits, i);
        put_visit(
            alloc, names, actions, source, pairs, known, visits, visit, out,
        )?;
    }
    Ok(())
}

/// Returns the number of visits that are reached by a step of the system.
fn steps_in(source: &Source, pairs: &IndexSet<(u32, u32)>, known: &[Tri], visits: &[Visit]) -> usize
    requires { HaveGuards (length known.now) source.now.states.items }
    ensures { (features actions : List (List ℕ)) → result ≡ steps_in (family_of features actions known.now
        source.now.states.items source.now.sets.items source.now.parts.items pairs.now.keys) visits.now
        (length visits.now) }
{
    let mut count = 0;
    for i in 0..visits.len() {
        if step_to(source, pairs, known, visits, visit_at(visits, i)).is_some() {
            count += 1;
        }
    }
    count
}

/// Appends whether a walk was cut, and ends the line.
fn put_cut(is_cut: bool, out: &mut Vec<u8>) -> Result<(), AllocError>
    ensures { OnOk result (out.new.items ≡ out.old.items ++ cut_text is_cut) }
{
    if is_cut {
        out.extend_from_slice(b" cut\n")
    } else {
        out.extend_from_slice(b"\n")
    }
}

/// Appends the text of a walk: the lines of its visits, and the number of steps of the system.
fn put(
    alloc: Global,
    names: &Names,
    actions: &[Text],
    source: &Source,
    pairs: &IndexSet<(u32, u32)>,
    known: &[Tri],
    trace: &Trace,
    out: &mut Vec<u8>,
) -> Result<(), AllocError>
    requires guards { HaveGuards (length names.now) source.now.states.items }
    requires labels { HasLabels (length actions.now) source.now.states.items }
    requires known { length known.now ≡ length names.now }
    ensures { OnOk result (out.new.items ≡ out.old.items
        ++ trace_text (family_of names.now actions.now known.now source.now.states.items
        source.now.sets.items source.now.parts.items pairs.now.keys) trace.now.visits.items trace.now.is_cut) }
{
    put_visits(
        alloc,
        names,
        actions,
        source,
        pairs,
        known,
        &trace.visits,
        out,
    )?;
    out.extend_from_slice(b"steps ")?;
    put_number(steps_in(source, pairs, known, &trace.visits) as u64, out)?;
    put_cut(trace.is_cut, out)
}

/// Appends a walk, over the features of these names. If memory runs out, it appends nothing.
///
/// Each visit that is reached by a transition of the system has a line, as `0 -pay[paid]-> 1`. It has the state that
/// the transition leaves, its action, its guard unless that is always true, and the state that it leads to. It ends in
/// ` depends` if the guard is open under what is known. Moves within the requirement have no line. If a visit doesn't
/// go on, there is a line with its end. `loop to 1` and `seen 1` name the state of the visit that the walk is back at
/// or that was seen. `no tea from 1` names the wanted step that is not there, `true` and `false` the part that is
/// reached, and `cut` says that the walk doesn't go on. Side branches are indented by two more blanks. The last line
/// has the number of steps.
pub fn put_trace(
    alloc: Global,
    names: &Names,
    actions: &[Text],
    source: &Source,
    pairs: &IndexSet<(u32, u32)>,
    known: &[Tri],
    trace: &Trace,
    out: &mut Vec<u8>,
) -> Result<(), AllocError>
    requires guards { HaveGuards (length names.now) source.now.states.items }
    requires labels { HasLabels (length actions.now) source.now.states.items }
    requires known { length known.now ≡ length names.now }
    ensures ok { OnOk result (out.new.items ≡ out.old.items
        ++ trace_text (family_of names.now actions.now known.now source.now.states.items
        source.now.sets.items source.now.parts.items pairs.now.keys) trace.now.visits.items trace.now.is_cut) }
    ensures err { OnErr result (out.new.items ≡ out.old.items) }
{
    let mut text = Vec::new(alloc);
    put(
        alloc, names, actions, source, pairs, known, trace, &mut text,
    )?;
    out.extend_from_slice(&text)?;
    Ok(())
}
