//! Normal forms, written symbol by symbol.
ghost use Rattle.std.specs.Prelude.{◌≡◌, ◌≤◌, ◌<◌, ◌∷◌, ◌++◌, [], List, length, reverse, IfOk, IfErr, OnOk};
ghost use Rattle.vpg_requirement.specs.NormalForms as spec;
ghost use Rattle.vpg_requirement.specs.NormalForms.{NormalForm, variable};
ghost use Rattle.vpg_parts.specs.Sets.{actions_at};
ghost use Rattle.vpg_parts.specs.Symbols.{IsSpelled};
ghost use Rattle.vpg_written.specs.Translations.{size};
ghost use Rattle.vpg_written.specs.Shapes.{constant_form, joined_form, step_form, kind_for, shift_form, star, coming, inevitable};
ghost use Rattle.vpg_written.specs.Tasks.{Basis, IsPlace, IsTask, IsGoal, IsWay, IsOpening, Opens, Fill, IsToCome, Writes, AreTerms, entry_form};

use crate::opening::{behind_step, hidden, opening_of, plain};
use crate::piece::EVERY_ACTION;
use crate::task::{Goal, Item, Opening, Place, Step, Task, Term, Way};
use std::alloc::{AllocError, Global};
use vpg_parts::{Kind, Spelling, Symbol};

/// The greatest number of parts of a normal form.
const MOST_PARTS: usize = 65536;

/// Why a normal form is not written.
#[derive(Clone, Copy, Drop)]
pub(crate) enum WritingFault {
    TooManyParts,
    Memory,
}

impl From<AllocError> for WritingFault {
    ghost use Rattle.vpg_written.specs.declared.writing.WritingFault.TheVariants.{Memory};

    ghost from_gives = { λ _ fault. fault ≡ Memory };

    fn from(_error: AllocError) -> WritingFault {
        WritingFault::Memory
    }
}

/// Returns `true` or `false`.
fn constant(value: bool) -> Symbol
    ensures { (g : Basis) → Opens g.actions result (constant_form value) [] }
{
    if value { Symbol::True } else { Symbol::False }
}

/// Returns `&&` or `||`.
fn joint(is_both: bool) -> Symbol
    ensures { (g : Basis) (e f : NormalForm) → Opens g.actions result (joined_form is_both e f) (e ∷ f ∷ []) }
{
    if is_both { Symbol::And } else { Symbol::Or }
}

/// Returns the symbol for each step by an action of a set, or for some step.
fn step(is_every: bool, set: u32) -> Symbol
    ensures { (g : Basis) (f : NormalForm) →
        Opens g.actions result (step_form is_every (actions_at g.actions set) f) (f ∷ []) }
{
    if is_every {
        Symbol::EveryStep(set)
    } else {
        Symbol::SomeStep(set)
    }
}

/// Returns the symbol of a greatest fixpoint, or of a least one.
fn fixpoint(is_greatest: bool) -> Symbol
    ensures { (g : Basis) (f : NormalForm) →
        Opens g.actions result (spec.fixpoint (kind_for is_greatest) 0 f) (f ∷ []) }
{
    if is_greatest {
        Symbol::Fixpoint(Kind::Greatest)
    } else {
        Symbol::Fixpoint(Kind::Least)
    }
}

/// Returns the goal inside one more fixpoint without a name.
fn hidden_goal<'p, 'm>(goal: Goal<'p, 'm>) -> Result<Goal<'p, 'm>, AllocError>
    ensures { IfOk result (λ h. (g : Basis) (f : NormalForm) → IsGoal g goal.entry f → IsGoal g h (shift_form 0 f)) }
{
    match goal {
        Goal::Variable(number) => match number.checked_add(1) {
            Some(next) => Ok(Goal::Variable(next)),
            None => Err(AllocError),
        },
        Goal::Constant(value) => Ok(Goal::Constant(value)),
        Goal::Formula(place) => Ok(Goal::Formula(hidden(place)?)),
        Goal::Inevitably(place) => Ok(Goal::Inevitably(hidden(place)?)),
    }
}

/// Returns the task inside one more fixpoint without a name.
fn hidden_task<'p, 'm>(task: Task<'p, 'm>) -> Result<Task<'p, 'm>, AllocError>
    ensures { IfOk result (λ h. (g : Basis) (f : NormalForm) → IsTask g task.entry f → IsTask g h (shift_form 0 f)) }
{
    let Task { steps, goal } = task;
    let goal = hidden_goal(goal)?;
    Ok(Task { steps, goal })
}

/// Puts a symbol in front of the rest.
fn put_symbol<'p, 'm>(items: &mut Vec<Item<'p, 'm>>, symbol: Symbol) -> Result<(), AllocError>
    ensures { OnOk result ((g : Basis) (fs hs : List NormalForm) (f : NormalForm) → Opens g.actions symbol f hs →
        IsToCome g (hs ++ fs) items.old.items → IsToCome g (f ∷ fs) items.new.items) }
{
    items.push(Item::Symbol(symbol))?;
    Ok(())
}

/// Puts a task in front of the rest.
fn put_task<'p, 'm>(items: &mut Vec<Item<'p, 'm>>, task: Task<'p, 'm>) -> Result<(), AllocError>
    ensures { OnOk result ((g : Basis) (fs : List NormalForm) (f : NormalForm) → IsTask g task.entry f →
        IsToCome g fs items.old.items → IsToCome g (f ∷ fs) items.new.items) }
{
    items.push(Item::Task(task))?;
    Ok(())
}

/// Puts `can true && [A]X`, or its negation, in front, where A is the set.
fn put_coming<'p, 'm>(items: &mut Vec<Item<'p, 'm>>, sign: bool, set: u32) -> Result<(), AllocError>
    ensures { OnOk result ((g : Basis) (fs : List NormalForm) → IsToCome g fs items.old.items →
        IsToCome g (coming sign (actions_at g.actions set) ∷ fs) items.new.items) }
{
    put_symbol(items, Symbol::Variable(0))?;
    put_symbol(items, step(!sign, set))?;
    put_symbol(items, constant(!sign))?;
    put_symbol(items, step(sign, EVERY_ACTION))?;
    put_symbol(items, joint(!sign))?;
    Ok(())
}

/// Puts two tasks in front, both to hold or one of them, and returns their symbol.
fn put_joined<'p, 'm>(
    items: &mut Vec<Item<'p, 'm>>,
    is_both: bool,
    first: Task<'p, 'm>,
    second: Task<'p, 'm>,
) -> Result<Symbol, AllocError>
    ensures { IfOk result (λ s. (g : Basis) (e f : NormalForm) → IsTask g first.entry e → IsTask g second.entry f →
        Writes g (joined_form is_both e f) s items.old.items items.new.items) }
{
    put_task(items, second)?;
    put_task(items, first)?;
    Ok(joint(is_both))
}

/// Puts a task in front, and returns the symbol of a step to it.
fn put_step<'p, 'm>(
    items: &mut Vec<Item<'p, 'm>>,
    is_every: bool,
    set: u32,
    task: Task<'p, 'm>,
) -> Result<Symbol, AllocError>
    ensures { IfOk result (λ s. (g : Basis) (f : NormalForm) → IsTask g task.entry f →
        Writes g (step_form is_every (actions_at g.actions set) f) s items.old.items items.new.items) }
{
    put_task(items, task)?;
    Ok(step(is_every, set))
}

/// Puts the form of a star in front, and returns its symbol.
fn put_star<'p, 'm>(
    alloc: Global,
    items: &mut Vec<Item<'p, 'm>>,
    is_every: bool,
    way: Way<'p, 'm>,
    task: Task<'p, 'm>,
) -> Result<Symbol, AllocError>
    ensures { IfOk result (λ s. (g : Basis) (f again : NormalForm) → IsTask g task.entry f →
        IsWay g way.entry is_every (variable 0) again →
        Writes g (star is_every again f) s items.old.items items.new.items) }
{
    let step = Step {
        is_every,
        is_repeated: false,
        way,
    };
    let again = behind_step(plain(alloc, Goal::Variable(0)), step)?;
    put_task(items, again)?;
    let inner = hidden_task(task)?;
    put_task(items, inner)?;
    put_symbol(items, joint(is_every))?;
    Ok(fixpoint(is_every))
}

/// Puts the body of a fixpoint in front, and returns its symbol.
fn put_binding<'p, 'm>(
    alloc: Global,
    items: &mut Vec<Item<'p, 'm>>,
    is_greatest: bool,
    place: Place<'p, 'm>,
) -> Result<Symbol, AllocError>
    ensures { IfOk result (λ s. (g : Basis) (f : NormalForm) → IsPlace g place.entry f →
        Writes g (spec.fixpoint (kind_for is_greatest) 0 f) s items.old.items items.new.items) }
{
    let task = plain(alloc, Goal::Formula(place));
    put_task(items, task)?;
    Ok(fixpoint(is_greatest))
}

/// Puts the form of `inevitably` in front, and returns its symbol.
fn put_inevitable<'p, 'm>(
    alloc: Global,
    items: &mut Vec<Item<'p, 'm>>,
    place: Place<'p, 'm>,
) -> Result<Symbol, AllocError>
    ensures { IfOk result (λ s. (g : Basis) (f : NormalForm) → IsPlace g place.entry f →
        Writes g (inevitable place.entry.is_negated f) s items.old.items items.new.items) }
{
    let sign = place.is_negated;
    put_coming(items, sign, EVERY_ACTION)?;
    let inner = hidden(place)?;
    let task = plain(alloc, Goal::Formula(inner));
    put_task(items, task)?;
    put_symbol(items, joint(sign))?;
    Ok(fixpoint(sign))
}

/// Puts the form of `will A` in front, by the set of all other actions, and returns its symbol.
fn put_will<'p, 'm>(
    items: &mut Vec<Item<'p, 'm>>,
    sign: bool,
    set: u32,
) -> Result<Symbol, AllocError>
    ensures { IfOk result (λ s. (g : Basis) → Writes g (spec.fixpoint (kind_for sign) 0
        (coming sign (actions_at g.actions set))) s items.old.items items.new.items) }
{
    put_coming(items, sign, set)?;
    Ok(fixpoint(sign))
}

/// Returns the first symbol, and puts the items after it in front of the rest.
fn put<'p, 'm>(
    alloc: Global,
    opening: Opening<'p, 'm>,
    items: &mut Vec<Item<'p, 'm>>,
) -> Result<Symbol, AllocError>
    ensures { IfOk result (λ s. (g : Basis) (f : NormalForm) → IsOpening g opening.entry f →
        Writes g f s items.old.items items.new.items) }
{
    match opening {
        Opening::Constant(value) => Ok(constant(value)),
        Opening::Variable(number) => Ok(Symbol::Variable(number)),
        Opening::Joined(is_both, first, second) => Ok(put_joined(items, is_both, first, second)?),
        Opening::Step(is_every, set, task) => Ok(put_step(items, is_every, set, task)?),
        Opening::Star(is_every, way, task) => Ok(put_star(alloc, items, is_every, way, task)?),
        Opening::Binding(is_greatest, place) => Ok(put_binding(alloc, items, is_greatest, place)?),
        Opening::Inevitably(place) => Ok(put_inevitable(alloc, items, place)?),
        Opening::Will(sign, set) => Ok(put_will(items, sign, set)?),
    }
}

/// Returns the first symbol of the next item, and puts the items after it in front of the rest.
fn next<'p, 'm>(
    alloc: Global,
    terms: &'p [Term<'m>],
    item: Item<'p, 'm>,
    items: &mut Vec<Item<'p, 'm>>,
) -> Result<Symbol, AllocError>
    ensures { IfOk result (λ s. (g : Basis) (fs : List NormalForm) → AreTerms g terms.now →
        Fill g fs (item.entry ∷ reverse items.old.items) → Fill g fs (Item.Symbol s ∷ reverse items.new.items)) }
{
    match item {
        Item::Symbol(symbol) => Ok(symbol),
        Item::Task(task) => {
            let opening = opening_of(alloc, terms, task)?;
            Ok(put(alloc, opening, items)?)
        }
    }
}

/// Returns the normal form of an entry.
pub(crate) fn write(alloc: Global, terms: &[Term], entry: usize) -> Result<Spelling, WritingFault>
    requires { entry < length terms.now }
    ensures spelled { IfOk result (λ ss. (g : Basis) (f : NormalForm) → AreTerms g terms.now →
        f ≡ entry_form g entry → IsSpelled g.actions f ss) }
    ensures short { IfOk result (λ ss. length ss ≤ 65536) }
    ensures many { IfErr result (λ fault. fault ≡ WritingFault.TooManyParts → (g : Basis) → AreTerms g terms.now →
        65536 < size (entry_form g entry)) }
{
    let mut symbols = Vec::new(alloc);
    let mut items = started(alloc, terms, entry)?;
    while let Some(item) = items.pop() {
        if symbols.len() + items.len() >= MOST_PARTS {
            return Err(WritingFault::TooManyParts);
        }
        let symbol = next(alloc, terms, item, &mut items)?;
        add(&mut symbols, symbol)?;
    }
    Ok(Spelling { symbols })
}

/// Adds a symbol at the end.
fn add(symbols: &mut Vec<Symbol>, symbol: Symbol) -> Result<(), AllocError>
    ensures { OnOk result (symbols.new.items ≡ symbols.old.items ++ symbol ∷ []) }
{
    symbols.push(symbol)?;
    Ok(())
}

/// Returns the formula of an entry, still to be written.
fn started<'p, 'm>(
    alloc: Global,
    terms: &'p [Term<'m>],
    entry: usize,
) -> Result<Vec<Item<'p, 'm>>, AllocError>
    requires { entry < length terms.now }
    ensures { IfOk result (λ items. (g : Basis) → AreTerms g terms.now →
        IsToCome g (entry_form g entry ∷ []) items.items) }
{
    let scope = Vec::new(alloc);
    let term = terms[entry].pieces.as_slice();
    let place = Place {
        term,
        is_negated: false,
        earlier: entry,
        scope,
    };
    let mut items = Vec::new(alloc);
    put_task(&mut items, plain(alloc, Goal::Formula(place)))?;
    Ok(items)
}
