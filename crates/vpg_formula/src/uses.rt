//! How the names of a formula stand.
ghost use Rattle.std.specs.Prelude.{◌≡◌, ◌∷◌, [], reverse, if◌then◌else◌, bytes_eq, IfOk, OnOk, IfSome, IfNone};
ghost use Rattle.vpg_formula.specs.Standings as spec;
ghost use Rattle.vpg_formula.specs.EntryReading as reading;
ghost use Rattle.vpg_formula.specs.EntryCode.{context_of, visit_of, earlier_of};

use crate::mark::Mark;
use crate::requirement::Entry;
use crate::words::is_same;
use std::alloc::{AllocError, Global};

/// How a name stands in a formula.
#[derive(Clone, Copy)]
pub(crate) enum Standing {
    /// It is an earlier entry's, or bound, and under an even number of negations within its fixpoint.
    Known,
    /// It is neither bound nor an earlier entry's.
    Unknown,
    /// It is bound, and under an odd number of negations within its fixpoint.
    Negated,
}

/// A variable of a fixpoint, and whether the fixpoint stands under an odd number of negations.
#[derive(Clone, Copy)]
pub(crate) struct Bound<'m> {
    pub(crate) name: &'m [u8],
    pub(crate) is_odd: bool,
}

/// The context of a part of a formula: whether it is under an odd number of negations, and in which fixpoints,
/// outermost first.
#[derive(Drop)]
pub(crate) struct Context<'m> {
    pub(crate) is_odd: bool,
    pub(crate) scope: Vec<Bound<'m>>,
}

/// Whether an entry has this name.
pub(crate) fn is_entry(entries: &[Entry], name: &[u8]) -> bool
    ensures { result ≡ spec.is_among (earlier_of entries.now) name.now }
{
    for entry in entries {
        if is_same(entry.name.as_bytes(), name) {
            return true;
        }
    }
    false
}

/// Returns how a variable stands that is bound here.
fn standing_under(bound: &Bound, is_odd: bool) -> Standing
    ensures { result ≡ spec.standing_under bound.now.is_odd is_odd }
{
    match (bound.is_odd, is_odd) {
        (true, true) | (false, false) => Standing::Known,
        (true, false) | (false, true) => Standing::Negated,
    }
}

/// Returns how a name stands inside one more fixpoint, if it stands like `without` outside of it.
fn standing_inside(bound: &Bound, is_odd: bool, without: Standing, name: &[u8]) -> Standing
    ensures { result ≡ (if bytes_eq bound.now.name.now name.now then spec.standing_under bound.now.is_odd is_odd
        else without) }
{
    if is_same(bound.name, name) {
        standing_under(bound, is_odd)
    } else {
        without
    }
}

/// Returns how a name stands that no fixpoint binds.
fn standing_outside(entries: &[Entry], name: &[u8]) -> Standing
    ensures { result ≡ (if spec.is_among (earlier_of entries.now) name.now then Standing.Known else Standing.Unknown) }
{
    if is_entry(entries, name) {
        Standing::Known
    } else {
        Standing::Unknown
    }
}

/// Returns how a name stands there.
fn standing_of(entries: &[Entry], context: &Context, name: &[u8]) -> Standing
    ensures { result ≡ spec.standing_of (earlier_of entries.now) (context_of context.now) name.now }
{
    let mut standing = standing_outside(entries, name);
    for bound in &context.scope {
        standing = standing_inside(bound, context.is_odd, standing, name);
    }
    standing
}

/// Returns a copy of the context.
fn copy<'m>(alloc: Global, context: &Context<'m>) -> Result<Context<'m>, AllocError>
    ensures { IfOk result (λ c. context_of c ≡ context_of context.now) }
{
    let mut scope = Vec::new(alloc);
    scope.extend_from_slice(context.scope.as_slice())?;
    Ok(Context {
        is_odd: context.is_odd,
        scope,
    })
}

/// Returns the context under one more negation.
fn negated(context: Context) -> Context
    ensures { context_of result ≡ spec.negated_in (context_of context.entry) }
{
    let Context { is_odd, scope } = context;
    Context {
        is_odd: !is_odd,
        scope,
    }
}

/// Returns the context inside a fixpoint of this name.
fn inside<'m>(context: Context<'m>, name: &'m [u8]) -> Result<Context<'m>, AllocError>
    ensures { IfOk result (λ c. context_of c ≡ spec.inside name.now (context_of context.entry)) }
{
    let Context { is_odd, mut scope } = context;
    scope.push(Bound { name, is_odd })?;
    Ok(Context { is_odd, scope })
}

/// The rest of a formula: contexts of the parts that are still to come, and how the names so far stand. Both have the
/// last first.
#[derive(Drop)]
pub(crate) struct Visit<'m> {
    pub(crate) parts: Vec<Context<'m>>,
    pub(crate) standings: Vec<Standing>,
}

/// Returns the context of a whole formula.
fn nothing_around<'m>(alloc: Global) -> Context<'m>
    ensures { context_of result ≡ spec.nothing_around }
{
    Context {
        is_odd: false,
        scope: Vec::new(alloc),
    }
}

/// Notes a part that is still to come.
fn add_part<'m>(visit: &mut Visit<'m>, context: Context<'m>) -> Result<(), AllocError>
    ensures { OnOk result (visit_of visit.new ≡
        (context_of context.entry ∷ (visit_of visit.old).0, (visit_of visit.old).1)) }
{
    visit.parts.push(context)?;
    Ok(())
}

/// Notes how a name stands.
fn add_standing(visit: &mut Visit, standing: Standing) -> Result<(), AllocError>
    ensures { OnOk result (visit_of visit.new ≡ ((visit_of visit.old).0, standing ∷ (visit_of visit.old).1)) }
{
    visit.standings.push(standing)?;
    Ok(())
}

/// Returns the part that is next, if any.
fn next_part<'m>(visit: &mut Visit<'m>) -> Option<Context<'m>>
    ensures none { IfNone result ((visit_of visit.old).0 ≡ [] × (visit_of visit.new ≡ visit_of visit.old)) }
    ensures some { IfSome result (λ c. visit_of visit.old ≡
        (context_of c ∷ (visit_of visit.new).0, (visit_of visit.new).1)) }
{
    visit.parts.pop()
}

/// Whether the mark is of a formula, and not of the regular formulas in it.
fn is_of_formula(mark: &Mark) -> bool
    ensures { result ≡ reading.is_of_formula mark.now }
{
    match mark {
        Mark::EveryAction
        | Mark::NoAction
        | Mark::Action(_)
        | Mark::OtherThan
        | Mark::BothOf
        | Mark::EitherOf
        | Mark::Sequence
        | Mark::Choice
        | Mark::Repeated
        | Mark::RepeatedOnce => false,
        _ => true,
    }
}

/// Goes on with the mark in front, in a known context.
fn go_on<'m>(
    alloc: Global,
    entries: &[Entry],
    mark: &'m Mark,
    context: Context<'m>,
    visit: &mut Visit<'m>,
) -> Result<(), AllocError>
    ensures { OnOk result (visit_of visit.new ≡
        reading.go_on (earlier_of entries.now) mark.now (context_of context.entry) (visit_of visit.old)) }
{
    match mark {
        Mark::Named(name) => add_standing(visit, standing_of(entries, &context, name.as_bytes()))?,
        Mark::Not | Mark::Never => add_part(visit, negated(context))?,
        Mark::SomePath
        | Mark::EveryPath
        | Mark::Always
        | Mark::Possibly
        | Mark::Inevitably
        | Mark::AgainAndAgain
        | Mark::After => add_part(visit, context)?,
        Mark::And | Mark::Or => {
            add_part(visit, copy(alloc, &context)?)?;
            add_part(visit, context)?
        }
        Mark::Implies => {
            add_part(visit, negated(copy(alloc, &context)?))?;
            add_part(visit, context)?
        }
        Mark::Least(name) | Mark::Greatest(name) => add_part(
            visit,
            inside(context, name.as_bytes())?,
        )?,
        _ => (),
    }
    Ok(())
}

/// Goes on with the mark in front.
fn step<'m>(
    alloc: Global,
    entries: &[Entry],
    mark: &'m Mark,
    visit: &mut Visit<'m>,
) -> Result<(), AllocError>
    ensures { OnOk result (visit_of visit.new ≡
        reading.step (earlier_of entries.now) mark.now (visit_of visit.old)) }
{
    if !is_of_formula(mark) {
        return Ok(());
    }
    match next_part(visit) {
        Some(context) => go_on(alloc, entries, mark, context, visit),
        None => Ok(()),
    }
}

/// Returns how the names of a formula stand, the last first.
pub(crate) fn standings(
    alloc: Global,
    entries: &[Entry],
    marks: &[Mark],
) -> Result<Vec<Standing>, AllocError>
    ensures { IfOk result (λ ss. reverse ss.items ≡ reading.standings_of (earlier_of entries.now) marks.now) }
{
    let mut visit = Visit {
        parts: Vec::new(alloc),
        standings: Vec::new(alloc),
    };
    add_part(&mut visit, nothing_around(alloc))?;
    let mut rest = marks;
    while let [front @ .., last] = rest {
        step(alloc, entries, last, &mut visit)?;
        rest = front;
    }
    Ok(visit.standings)
}

fn is_like(standing: Standing, wanted: Standing) -> bool
    ensures { result ≡ spec.is_like wanted standing }
{
    match (standing, wanted) {
        (Standing::Known, Standing::Known)
        | (Standing::Unknown, Standing::Unknown)
        | (Standing::Negated, Standing::Negated) => true,
        _ => false,
    }
}

/// Returns the place of the first name that stands so. The list has the last first.
pub(crate) fn first(standings: &[Standing], wanted: Standing) -> Option<usize>
    ensures { result ≡ reading.first_like wanted (reverse standings.now) }
{
    let mut rest = standings;
    let mut at = 0;
    while let [front @ .., last] = rest {
        if is_like(*last, wanted) {
            return Some(at);
        }
        at += 1;
        rest = front;
    }
    None
}
