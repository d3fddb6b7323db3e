//! The beginnings of normal forms.
ghost use Rattle.std.specs.Prelude.{◌≡◌, ◌<◌, ◌≤◌, ◌-◌, ◌∷◌, true, false, List, length, take, drop, Some, IfOk, IfSome, IfNone};
ghost use Rattle.vpg_requirement.specs.NormalForms.{NormalForm, variable};
ghost use Rattle.vpg_parts.specs.Sets.{actions_at};
ghost use Rattle.vpg_written.specs.Shapes.{joined_form, step_form, shift_form, star};
ghost use Rattle.vpg_written.specs.Trees as spec;
ghost use Rattle.vpg_written.specs.declared.task.Binder.{Binder};
ghost use Rattle.vpg_written.specs.Trees.{Tree};
ghost use Rattle.vpg_written.specs.Openings.{is_series, IsSeries, is_negation, IsNegation, IsBare, is_opened, IsFound, IsEarlier, IsNamed};
ghost use Rattle.vpg_written.specs.Terms.{ArePartsOf};
ghost use Rattle.vpg_written.specs.Naming.{around_of};
ghost use Rattle.vpg_written.specs.Tasks.{Basis, IsTree, IsPlace, IsTask, IsGoal, IsStep, IsOpening, AreTerms, form_at, form_in};

use crate::naming::{copied, latest, variable};
use crate::piece::{EVERY_ACTION, NO_ACTION, Parts, Piece, part, set_of, split};
use crate::task::{Binder, Found, Goal, Opening, Place, Step, Task, Term, Way};
use std::alloc::{AllocError, Global};
use vpg_formula::Mark;

/// Returns a formula in place of another.
fn at<'p, 'm>(place: Place<'p, 'm>, term: &'p [Piece<'m>], is_negated: bool) -> Place<'p, 'm>
    ensures sign { result.is_negated ≡ is_negated }
    ensures place { (g : Basis) (t : Tree) → IsTree g t term.now → place.entry.earlier ≤ length g.entries →
        IsPlace g result (form_in g place.entry is_negated t) }
{
    let Place {
        term: _,
        is_negated: _,
        earlier,
        scope,
    } = place;
    Place {
        term,
        is_negated,
        earlier,
        scope,
    }
}

/// Returns a formula in place of another, inside one more fixpoint.
fn at_inside<'p, 'm>(
    place: Place<'p, 'm>,
    term: &'p [Piece<'m>],
    name: &'m [u8],
) -> Result<Place<'p, 'm>, AllocError>
    ensures { IfOk result (λ p. (g : Basis) (t : Tree) → IsTree g t term.now →
        place.entry.earlier ≤ length g.entries → IsPlace g p (form_at g place.entry.earlier place.entry.is_negated
        (Some name.now ∷ around_of place.entry.scope.items) t)) }
{
    let Place {
        term: _,
        is_negated,
        earlier,
        mut scope,
    } = place;
    scope.push(Binder::Named(name))?;
    Ok(Place {
        term,
        is_negated,
        earlier,
        scope,
    })
}

/// Returns the formula inside one more fixpoint without a name.
pub(crate) fn hidden<'p, 'm>(place: Place<'p, 'm>) -> Result<Place<'p, 'm>, AllocError>
    ensures sign { IfOk result (λ p. p.is_negated ≡ place.entry.is_negated) }
    ensures place { IfOk result (λ p. (g : Basis) (f : NormalForm) → IsPlace g place.entry f →
        IsPlace g p (shift_form 0 f)) }
{
    let Place {
        term,
        is_negated,
        earlier,
        mut scope,
    } = place;
    scope.push(Binder::Hidden)?;
    Ok(Place {
        term,
        is_negated,
        earlier,
        scope,
    })
}

/// Returns a copy of the place.
fn copy_place<'p, 'm>(alloc: Global, place: &Place<'p, 'm>) -> Result<Place<'p, 'm>, AllocError>
    ensures term { IfOk result (λ p. p.term.now ≡ place.now.term.now) }
    ensures sign { IfOk result (λ p. p.is_negated ≡ place.now.is_negated) }
    ensures earlier { IfOk result (λ p. p.earlier ≡ place.now.earlier) }
    ensures scope { IfOk result (λ p. p.scope.items ≡ place.now.scope.items) }
{
    Ok(Place {
        term: place.term,
        is_negated: place.is_negated,
        earlier: place.earlier,
        scope: copied(alloc, place.scope.as_slice())?,
    })
}

/// Returns a goal without a modality in front.
pub(crate) fn plain<'p, 'm>(alloc: Global, goal: Goal<'p, 'm>) -> Task<'p, 'm>
    ensures { (g : Basis) (f : NormalForm) → IsGoal g goal.entry f → IsTask g result f }
{
    Task {
        steps: Vec::new(alloc),
        goal,
    }
}

/// Returns a formula in place of another, with no modality in front.
fn formula<'p, 'm>(
    alloc: Global,
    place: Place<'p, 'm>,
    term: &'p [Piece<'m>],
    is_negated: bool,
) -> Task<'p, 'm>
    ensures { (g : Basis) (t : Tree) → IsTree g t term.now → place.entry.earlier ≤ length g.entries →
        IsTask g result (form_in g place.entry is_negated t) }
{
    plain(alloc, Goal::Formula(at(place, term, is_negated)))
}

/// Returns one step by an action of a set.
pub(crate) fn by_action<'p, 'm>(is_every: bool, set: u32) -> Step<'p, 'm>
    ensures { (g : Basis) (f : NormalForm) → IsStep g result f (step_form is_every (actions_at g.actions set) f) }
{
    Step {
        is_every,
        is_repeated: false,
        way: Way::Action(set),
    }
}

/// Returns the task after one more modality.
pub(crate) fn behind_step<'p, 'm>(
    task: Task<'p, 'm>,
    step: Step<'p, 'm>,
) -> Result<Task<'p, 'm>, AllocError>
    ensures { IfOk result (λ t. (g : Basis) (f h : NormalForm) → IsTask g task.entry f → IsStep g step.entry f h →
        IsTask g t h) }
{
    let Task { mut steps, goal } = task;
    steps.push(step)?;
    Ok(Task { steps, goal })
}

/// Returns a copy of the goal.
fn copy_goal<'p, 'm>(alloc: Global, goal: &Goal<'p, 'm>) -> Result<Goal<'p, 'm>, AllocError>
    ensures { IfOk result (λ c. (g : Basis) (f : NormalForm) → IsGoal g goal.now f → IsGoal g c f) }
{
    match goal {
        Goal::Variable(number) => Ok(Goal::Variable(*number)),
        Goal::Constant(value) => Ok(Goal::Constant(*value)),
        Goal::Formula(place) => Ok(Goal::Formula(copy_place(alloc, place)?)),
        Goal::Inevitably(place) => Ok(Goal::Inevitably(copy_place(alloc, place)?)),
    }
}

/// Returns a copy of the task.
fn copy_task<'p, 'm>(alloc: Global, task: &Task<'p, 'm>) -> Result<Task<'p, 'm>, AllocError>
    ensures { IfOk result (λ c. (g : Basis) (f : NormalForm) → IsTask g task.now f → IsTask g c f) }
{
    let mut steps = Vec::new(alloc);
    steps.extend_from_slice(task.steps.as_slice())?;
    Ok(Task {
        steps,
        goal: copy_goal(alloc, &task.goal)?,
    })
}

/// Returns a modality over a regular formula.
fn once<'p, 'm>(is_every: bool, term: &'p [Piece<'m>]) -> Step<'p, 'm>
    ensures { (g : Basis) (t : Tree) (f : NormalForm) → IsTree g t term.now →
        IsStep g result f (spec.along g.names is_every t f) }
{
    Step {
        is_every,
        is_repeated: false,
        way: Way::Regular(term),
    }
}

/// Returns a modality over a regular formula, any number of times.
fn many<'p, 'm>(is_every: bool, term: &'p [Piece<'m>]) -> Step<'p, 'm>
    ensures { (g : Basis) (t : Tree) (f : NormalForm) → IsTree g t term.now →
        IsStep g result f (star is_every (spec.along g.names is_every t (variable 0)) f) }
{
    Step {
        is_every,
        is_repeated: true,
        way: Way::Regular(term),
    }
}

/// Returns where the first part of a regular formula begins and ends, if the formula is a sequence, and the modality
/// over the rest after it.
fn first_part<'p, 'm>(is_every: bool, term: &'p [Piece<'m>]) -> Option<(Step<'p, 'm>, usize, usize)>
    ensures none { IfNone result ((g : Basis) (t : Tree) → IsTree g t term.now → is_series t ≡ false) }
    ensures some { IfSome result (λ p. (g : Basis) (t : Tree) (f : NormalForm) → IsTree g t term.now →
        IsSeries g is_every t p.0 (take (p.2 - p.1) (drop p.1 term.now)) f) }
    ensures start { IfSome result (λ p. p.1 ≤ p.2) }
    ensures end { IfSome result (λ p. p.2 < length term.now) }
{
    match split(term) {
        Some(it) => match it.piece.mark {
            Mark::Sequence => Some((once(is_every, it.second), 0, it.first.len())),
            Mark::RepeatedOnce => Some((
                many(is_every, it.second),
                it.first.len(),
                it.first.len() + it.second.len(),
            )),
            _ => None,
        },
        None => None,
    }
}

/// Returns the opening of a task after one of two regular formulas.
fn choice<'p, 'm>(
    alloc: Global,
    is_every: bool,
    it: Parts<'p, 'm>,
    task: Task<'p, 'm>,
) -> Result<Opening<'p, 'm>, AllocError>
    ensures { IfOk result (λ o. (g : Basis) (s t : Tree) (f : NormalForm) → IsTree g s it.entry.first.now →
        IsTree g t it.entry.second.now → IsTask g task.entry f → IsOpening g o
        (joined_form is_every (spec.along g.names is_every s f) (spec.along g.names is_every t f))) }
{
    let copy = copy_task(alloc, &task)?;
    let step = once(is_every, it.first);
    let first = behind_step(copy, step)?;
    let other = once(is_every, it.second);
    let second = behind_step(task, other)?;
    Ok(Opening::Joined(is_every, first, second))
}

/// Returns the opening of a task after a regular formula that is no sequence.
fn along_one<'p, 'm>(
    alloc: Global,
    is_every: bool,
    term: &'p [Piece<'m>],
    task: Task<'p, 'm>,
) -> Result<Opening<'p, 'm>, AllocError>
    ensures { IfOk result (λ o. (g : Basis) (t : Tree) (f : NormalForm) → IsTree g t term.now →
        is_series t ≡ false → IsTask g task.entry f → IsOpening g o (spec.along g.names is_every t f)) }
{
    match split(term) {
        Some(it) => match it.piece.mark {
            Mark::Choice => Ok(choice(alloc, is_every, it, task)?),
            Mark::Repeated => Ok(Opening::Star(is_every, Way::Regular(it.second), task)),
            _ => Ok(Opening::Step(is_every, it.piece.set, task)),
        },
        None => Ok(Opening::Step(is_every, NO_ACTION, task)),
    }
}

/// Returns the opening of a task after a regular formula.
fn along<'p, 'm>(
    alloc: Global,
    is_every: bool,
    regular: &'p [Piece<'m>],
    task: Task<'p, 'm>,
) -> Result<Opening<'p, 'm>, AllocError>
    ensures { IfOk result (λ o. (g : Basis) (t : Tree) (f : NormalForm) → IsTree g t regular.now →
        IsTask g task.entry f → IsOpening g o (spec.along g.names is_every t f)) }
{
    let mut from = 0;
    let mut to = regular.len();
    let mut rest = task;
    while let Some((step, start, end)) = first_part(is_every, part(regular, from, to)) {
        rest = behind_step(rest, step)?;
        to = from + end;
        from += start;
    }
    Ok(along_one(alloc, is_every, part(regular, from, to), rest)?)
}

/// Returns the opening of two formulas in place of another: both hold, or one.
fn joined<'p, 'm>(
    alloc: Global,
    is_both: bool,
    place: Place<'p, 'm>,
    is_first_negated: bool,
    it: Parts<'p, 'm>,
) -> Result<Opening<'p, 'm>, AllocError>
    ensures { IfOk result (λ o. (g : Basis) (s t : Tree) → IsTree g s it.entry.first.now →
        IsTree g t it.entry.second.now → place.entry.earlier ≤ length g.entries → IsOpening g o (joined_form is_both
        (form_in g place.entry is_first_negated s) (form_in g place.entry place.entry.is_negated t))) }
{
    let sign = place.is_negated;
    let first = formula(
        alloc,
        copy_place(alloc, &place)?,
        it.first,
        is_first_negated,
    );
    let second = formula(alloc, place, it.second, sign);
    Ok(Opening::Joined(is_both, first, second))
}

/// Returns the opening of a formula, by its mark.
fn by_mark<'p, 'm>(
    alloc: Global,
    place: Place<'p, 'm>,
    it: Parts<'p, 'm>,
) -> Result<Opening<'p, 'm>, AllocError>
    ensures { IfOk result (λ o. (g : Basis) (t : Tree) → ArePartsOf g.names g.actions t it.entry →
        is_opened it.entry.piece.mark.now ≡ true → place.entry.earlier ≤ length g.entries →
        IsOpening g o (form_in g place.entry place.entry.is_negated t)) }
{
    let sign = place.is_negated;
    let every = Way::Action(EVERY_ACTION);
    match it.piece.mark {
        Mark::True => Ok(Opening::Constant(!sign)),
        Mark::DeadlockFree => {
            let task = plain(alloc, Goal::Constant(!sign));
            let task = behind_step(task, by_action(sign, EVERY_ACTION))?;
            Ok(Opening::Star(!sign, every, task))
        }
        Mark::Can => {
            let task = plain(alloc, Goal::Constant(!sign));
            Ok(Opening::Step(sign, set_of(it.second), task))
        }
        Mark::Will => Ok(Opening::Will(sign, it.piece.set)),
        Mark::SomePath => {
            let task = formula(alloc, place, it.second, sign);
            Ok(along(alloc, sign, it.first, task)?)
        }
        Mark::EveryPath => {
            let task = formula(alloc, place, it.second, sign);
            Ok(along(alloc, !sign, it.first, task)?)
        }
        Mark::Always => Ok(Opening::Star(!sign, every, formula(alloc, place, it.second, sign))),
        Mark::Never => Ok(Opening::Star(!sign, every, formula(alloc, place, it.second, !sign))),
        Mark::Possibly => Ok(Opening::Star(sign, every, formula(alloc, place, it.second, sign))),
        Mark::Inevitably => Ok(Opening::Inevitably(at(place, it.second, sign))),
        Mark::AgainAndAgain => {
            let task = plain(alloc, Goal::Inevitably(at(place, it.second, sign)));
            Ok(Opening::Star(!sign, every, task))
        }
        Mark::After => {
            let task = formula(alloc, place, it.second, sign);
            let task = behind_step(task, by_action(!sign, set_of(it.first)))?;
            Ok(Opening::Star(!sign, every, task))
        }
        Mark::And => Ok(joined(alloc, !sign, place, sign, it)?),
        Mark::Or => Ok(joined(alloc, sign, place, sign, it)?),
        Mark::Implies => Ok(joined(alloc, sign, place, !sign, it)?),
        Mark::Least(name) => Ok(Opening::Binding(
            sign,
            at_inside(place, it.second, name.as_bytes())?,
        )),
        Mark::Greatest(name) => Ok(Opening::Binding(
            !sign,
            at_inside(place, it.second, name.as_bytes())?,
        )),
        _ => Ok(Opening::Constant(sign)),
    }
}

/// Returns where the negated term begins and ends, if the term is a negation.
fn negation(term: &[Piece]) -> Option<(usize, usize)>
    ensures none { IfNone result ((g : Basis) (t : Tree) → IsTree g t term.now → is_negation t ≡ false) }
    ensures some { IfSome result (λ p. (g : Basis) (t : Tree) → IsTree g t term.now →
        IsNegation g t (take (p.1 - p.0) (drop p.0 term.now))) }
    ensures start { IfSome result (λ p. p.0 ≤ p.1) }
    ensures end { IfSome result (λ p. p.1 < length term.now) }
{
    match split(term) {
        Some(it) => match it.piece.mark {
            Mark::Not => Some((it.first.len(), it.first.len() + it.second.len())),
            _ => None,
        },
        None => None,
    }
}

/// Returns a term without the negations in front, and its sign: `is_negated`, changed if their number is odd.
fn without_negations<'p, 'm>(formula: &'p [Piece<'m>], is_negated: bool) -> (&'p [Piece<'m>], bool)
    ensures { (g : Basis) (t : Tree) → IsTree g t formula.now → IsBare g t is_negated result.0.now result.1 }
{
    let mut from = 0;
    let mut to = formula.len();
    let mut sign = is_negated;
    while let Some((start, end)) = negation(part(formula, from, to)) {
        to = from + end;
        from += start;
        sign = !sign;
    }
    (part(formula, from, to), sign)
}

/// Returns a variable.
fn numbered<'p, 'm>(number: usize) -> Result<Opening<'p, 'm>, AllocError>
    ensures { IfOk result (λ o. o ≡ Opening.Variable number) }
{
    match u32::try_from(number) {
        Ok(number) => Ok(Opening::Variable(number)),
        Err(_) => Err(AllocError),
    }
}

/// Returns what is found of a name that no fixpoint binds.
fn by_entry<'p, 'm>(terms: &[Term], earlier: usize, is_negated: bool, name: &[u8]) -> Found<'p, 'm>
    ensures found { (g : Basis) (bs : List Binder) → AreTerms g terms.now → earlier ≤ length g.entries →
        IsFound g is_negated earlier bs result (spec.before g.names g.entries earlier name.now is_negated) }
    ensures earlier { IsEarlier earlier result }
    ensures below { IsEarlier (length terms.now) result }
{
    match latest(terms, earlier, name) {
        Some(entry) => Found::Entry(entry),
        None => Found::Opening(Opening::Constant(is_negated)),
    }
}

/// Returns what is found of a name.
fn by_name<'p, 'm>(
    terms: &[Term],
    scope: &[Binder],
    earlier: usize,
    is_negated: bool,
    name: &[u8],
) -> Result<Found<'p, 'm>, AllocError>
    ensures found { IfOk result (λ it. (g : Basis) (t : Tree) → AreTerms g terms.now → earlier ≤ length g.entries →
        IsNamed t name.now → IsFound g is_negated earlier scope.now it
        (form_at g earlier is_negated (around_of scope.now) t)) }
    ensures earlier { IfOk result (IsEarlier earlier) }
    ensures below { IfOk result (IsEarlier (length terms.now)) }
{
    match variable(scope, name) {
        Some(number) => {
            let opening = numbered(number)?;
            Ok(Found::Opening(opening))
        }
        None => Ok(by_entry(terms, earlier, is_negated, name)),
    }
}

/// Returns what is found of a term that is no negation.
fn find<'p, 'm>(
    terms: &[Term],
    scope: &[Binder],
    earlier: usize,
    is_negated: bool,
    term: &'p [Piece<'m>],
) -> Result<Found<'p, 'm>, AllocError>
    ensures found { IfOk result (λ it. (g : Basis) (t : Tree) → AreTerms g terms.now → earlier ≤ length g.entries →
        IsTree g t term.now → is_negation t ≡ false → IsFound g is_negated earlier scope.now it
        (form_at g earlier is_negated (around_of scope.now) t)) }
    ensures earlier { IfOk result (IsEarlier earlier) }
    ensures below { IfOk result (IsEarlier (length terms.now)) }
{
    match split(term) {
        Some(it) => match it.piece.mark {
            Mark::Named(name) => Ok(by_name(terms, scope, earlier, is_negated, name.as_bytes())?),
            _ => Ok(Found::Parts(it)),
        },
        None => Ok(Found::Opening(Opening::Constant(is_negated))),
    }
}

/// Returns the opening of a formula.
fn open_formula<'p, 'm>(
    alloc: Global,
    terms: &'p [Term<'m>],
    place: Place<'p, 'm>,
) -> Result<Opening<'p, 'm>, AllocError>
    ensures { IfOk result (λ o. (g : Basis) (f : NormalForm) → AreTerms g terms.now → IsPlace g place.entry f →
        IsOpening g o f) }
{
    let Place {
        mut term,
        mut is_negated,
        mut earlier,
        mut scope,
    } = place;
    'entries: loop {
        let (inner, sign) = without_negations(term, is_negated);
        match find(terms, scope.as_slice(), earlier, sign, inner)? {
            Found::Opening(opening) => return Ok(opening),
            Found::Parts(it) => {
                let place = Place {
                    term: inner,
                    is_negated: sign,
                    earlier,
                    scope,
                };
                return Ok(by_mark(alloc, place, it)?);
            }
            Found::Entry(entry) => {
                earlier = entry;
                is_negated = sign;
                term = terms[entry].pieces.as_slice();
                scope.clear();
            }
        }
    }
}

/// Returns the opening of a task after a modality.
fn open_step<'p, 'm>(
    alloc: Global,
    step: Step<'p, 'm>,
    task: Task<'p, 'm>,
) -> Result<Opening<'p, 'm>, AllocError>
    ensures { IfOk result (λ o. (g : Basis) (f h : NormalForm) → IsTask g task.entry f → IsStep g step.entry f h →
        IsOpening g o h) }
{
    if step.is_repeated {
        return Ok(Opening::Star(step.is_every, step.way, task));
    }
    match step.way {
        Way::Action(set) => Ok(Opening::Step(step.is_every, set, task)),
        Way::Regular(term) => Ok(along(alloc, step.is_every, term, task)?),
    }
}

/// Returns the opening of a task.
pub(crate) fn opening_of<'p, 'm>(
    alloc: Global,
    terms: &'p [Term<'m>],
    task: Task<'p, 'm>,
) -> Result<Opening<'p, 'm>, AllocError>
    ensures { IfOk result (λ o. (g : Basis) (f : NormalForm) → AreTerms g terms.now → IsTask g task.entry f →
        IsOpening g o f) }
{
    let Task { mut steps, goal } = task;
    match steps.pop() {
        Some(step) => Ok(open_step(alloc, step, Task { steps, goal })?),
        None => match goal {
            Goal::Variable(number) => Ok(Opening::Variable(number)),
            Goal::Constant(value) => Ok(Opening::Constant(value)),
            Goal::Formula(place) => Ok(open_formula(alloc, terms, place)?),
            Goal::Inevitably(place) => Ok(Opening::Inevitably(place)),
        },
    }
}
