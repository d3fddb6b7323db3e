//! The reader of formulas.
ghost use Rattle.std.specs.Prelude.{◌≡◌, ◌≤◌, ◌++◌, ◌∷◌, [], length, option_map, IfOk, IfSome, OnOk};
ghost use Rattle.vpg_formula.specs.Regular.{is_action};
ghost use Rattle.vpg_formula.specs.Written.{again, after_action, parenthesis, modality, binder, of_action};
ghost use Rattle.vpg_formula.specs.FormulaGrammar.{an_operand, a_formula};
ghost use Rattle.vpg_formula.specs.Marks.{regular_marks, phrase_marks, is_endless};
ghost use Rattle.vpg_formula.specs.Heads.{leaf_head, leaf_mark, after_leaf, opening_head, made_by, modality_of, binder_of};
ghost use Rattle.vpg_formula.specs.Reading.{operand_at, action_at, phrase_at};
ghost use Rattle.vpg_formula.specs.PhraseCode.{leaf_behind, inner_behind, behind_marks, item_between, joined_by};
ghost use Rattle.vpg_formula.specs.ReadCode.{texts, Gives};

use crate::head::{ActionWord, Binder, Bracket, Head, Leaf, Opening, is_variable, read_head};
use crate::joint::Joint;
use crate::level::Level;
use crate::mark::{Mark, Name};
use crate::regular::{after_word, operand, series};
use crate::stop::Stop;
use std::alloc::{AllocError, Global};

/// Puts the mark of a leaf of one word.
fn put_leaf(alloc: Global, leaf: Leaf, word: &[u8], out: &mut Vec<Mark>) -> Result<(), AllocError>
    ensures { OnOk result (out.new.items ≡ out.old.items ++ leaf_mark word.now leaf ∷ []) }
{
    match leaf {
        Leaf::True => out.push(Mark::True)?,
        Leaf::False => out.push(Mark::False)?,
        Leaf::Name => out.push(Mark::Named(Name::new(alloc, word)?))?,
        Leaf::Deadlock => out.push(Mark::DeadlockFree)?,
    }
    Ok(())
}

/// Returns the words after a leaf that begins with this word.
fn after_leaf<'a, 't>(leaf: Leaf, words: &'a [&'t [u8]]) -> Option<&'a [&'t [u8]]>
    ensures rest { option_map (λ r. texts r.now) result ≡ after_leaf leaf (texts words.now) }
    ensures shorter { IfSome result (λ r. length r.now ≤ length words.now) }
{
    match leaf {
        Leaf::True | Leaf::False | Leaf::Name => Some(words),
        Leaf::Deadlock => after_word(words, b"free"),
    }
}

/// Reads a leaf whose first word is read already.
fn read_leaf<'a, 't>(
    alloc: Global,
    leaf: Leaf,
    word: &[u8],
    words: &'a [&'t [u8]],
    out: &mut Vec<Mark>,
) -> Result<(bool, &'a [&'t [u8]]), Stop>
    ensures gives { Gives phrase_marks is_endless out.old.items out.new.items result
        (leaf_behind (leaf_head word.now leaf) (texts words.now)) }
    ensures shorter { IfOk result (λ x. length x.1.now ≤ length words.now) }
{
    let Some(rest) = after_leaf(leaf, words) else {
        return Err(Stop::Syntax { left: words.len() });
    };
    let Ok(()) = put_leaf(alloc, leaf, word, out) else {
        return Err(Stop::Memory);
    };
    Ok((false, rest))
}

/// Reads an action formula after `can`, `will` or `after`.
fn action<'a, 't>(
    alloc: Global,
    words: &'a [&'t [u8]],
    depth: usize,
    out: &mut Vec<Mark>,
) -> Result<(bool, &'a [&'t [u8]]), Stop>
    ensures gives { Gives regular_marks is_action out.old.items out.new.items result
        (action_at depth (texts words.now)) }
    ensures shorter { IfOk result (λ x. length x.1.now ≤ length words.now) }
{
    let (is_action, rest) = operand(alloc, words, depth, out)?;
    if !is_action {
        return Err(Stop::Syntax { left: words.len() });
    }
    Ok((true, rest))
}

/// Reads an action formula after `can` or `will`.
fn read_action<'a, 't>(
    alloc: Global,
    word: ActionWord,
    words: &'a [&'t [u8]],
    depth: usize,
    out: &mut Vec<Mark>,
) -> Result<(bool, &'a [&'t [u8]]), Stop>
    ensures gives { Gives phrase_marks is_endless out.old.items out.new.items result
        (inner_behind depth (of_action (made_by word)) (texts words.now)) }
    ensures shorter { IfOk result (λ x. length x.1.now ≤ length words.now) }
{
    let (_, rest) = action(alloc, words, depth, out)?;
    let Ok(()) = out.push(word.mark()) else {
        return Err(Stop::Memory);
    };
    Ok((false, rest))
}

/// Reads an operand. `depth` says how many more parts may be open.
#[cycle(phrase)]
fn part<'a, 't>(
    alloc: Global,
    words: &'a [&'t [u8]],
    depth: usize,
    out: &mut Vec<Mark>,
) -> Result<(bool, &'a [&'t [u8]]), Stop>
    ensures gives { Gives phrase_marks is_endless out.old.items out.new.items result
        (phrase_at an_operand depth (texts words.now)) }
    ensures shorter { IfOk result (λ x. length x.1.now ≤ length words.now) }
{
    let [first, rest @ ..] = words else {
        return Err(Stop::Syntax { left: 0 });
    };
    match read_head(first) {
        Head::Leaf(leaf) => read_leaf(alloc, leaf, first, rest, out),
        Head::Opening(opening) => {
            if depth == 0 {
                return Err(Stop::TooDeep { left: words.len() });
            }
            inner(alloc, opening, rest, depth - 1, out)
        }
        Head::Other => Err(Stop::Syntax { left: words.len() }),
    }
}

/// Reads a part whose first word is read already.
#[cycle(phrase)]
fn inner<'a, 't>(
    alloc: Global,
    opening: Opening,
    words: &'a [&'t [u8]],
    depth: usize,
    out: &mut Vec<Mark>,
) -> Result<(bool, &'a [&'t [u8]]), Stop>
    ensures gives { Gives phrase_marks is_endless out.old.items out.new.items result
        (inner_behind depth (opening_head opening) (texts words.now)) }
    ensures shorter { IfOk result (λ x. length x.1.now ≤ length words.now) }
{
    match opening {
        Opening::Action(word) => read_action(alloc, word, words, depth, out),
        Opening::Parenthesis => enclosed(alloc, words, depth, out),
        Opening::Front(front) => behind(alloc, front.mark(), words, depth, out),
        Opening::Bracket(bracket) => modal(alloc, bracket, words, depth, out),
        Opening::Again => again(alloc, words, depth, out),
        Opening::After => after(alloc, words, depth, out),
        Opening::Binder(binder) => binding(alloc, binder, words, depth, out),
    }
}

/// Reads an operand, and puts the mark of what stands in front of it.
#[cycle(phrase)]
fn behind<'a, 't>(
    alloc: Global,
    mark: Mark,
    words: &'a [&'t [u8]],
    depth: usize,
    out: &mut Vec<Mark>,
) -> Result<(bool, &'a [&'t [u8]]), Stop>
    ensures gives { Gives (behind_marks mark) is_endless out.old.items out.new.items result
        (phrase_at an_operand depth (texts words.now)) }
    ensures shorter { IfOk result (λ x. length x.1.now ≤ length words.now) }
{
    let (is_endless, rest) = part(alloc, words, depth, out)?;
    let Ok(()) = out.push(mark) else {
        return Err(Stop::Memory);
    };
    Ok((is_endless, rest))
}

/// Reads a formula up to the closing parenthesis.
#[cycle(phrase)]
fn enclosed<'a, 't>(
    alloc: Global,
    words: &'a [&'t [u8]],
    depth: usize,
    out: &mut Vec<Mark>,
) -> Result<(bool, &'a [&'t [u8]]), Stop>
    ensures gives { Gives phrase_marks is_endless out.old.items out.new.items result
        (inner_behind depth parenthesis (texts words.now)) }
    ensures shorter { IfOk result (λ x. length x.1.now ≤ length words.now) }
{
    let (_, rest) = formula(alloc, words, depth, out)?;
    match after_word(rest, b")") {
        Some(rest) => Ok((false, rest)),
        None => Err(Stop::Syntax { left: rest.len() }),
    }
}

/// Reads a regular formula up to its closing bracket, and an operand.
#[cycle(phrase)]
fn modal<'a, 't>(
    alloc: Global,
    bracket: Bracket,
    words: &'a [&'t [u8]],
    depth: usize,
    out: &mut Vec<Mark>,
) -> Result<(bool, &'a [&'t [u8]]), Stop>
    ensures gives { Gives phrase_marks is_endless out.old.items out.new.items result
        (inner_behind depth (modality (modality_of bracket)) (texts words.now)) }
    ensures shorter { IfOk result (λ x. length x.1.now ≤ length words.now) }
{
    let (_, rest) = series(alloc, Level::Choice, words, depth, out)?;
    let Some(left) = after_word(rest, bracket.closing()) else {
        return Err(Stop::Syntax { left: rest.len() });
    };
    behind(alloc, bracket.mark(), left, depth, out)
}

/// Reads what comes after the first `again`.
#[cycle(phrase)]
fn again<'a, 't>(
    alloc: Global,
    words: &'a [&'t [u8]],
    depth: usize,
    out: &mut Vec<Mark>,
) -> Result<(bool, &'a [&'t [u8]]), Stop>
    ensures gives { Gives phrase_marks is_endless out.old.items out.new.items result
        (inner_behind depth again (texts words.now)) }
    ensures shorter { IfOk result (λ x. length x.1.now ≤ length words.now) }
{
    let Some(rest) = after_word(words, b"and") else {
        return Err(Stop::Syntax { left: words.len() });
    };
    let Some(left) = after_word(rest, b"again") else {
        return Err(Stop::Syntax { left: rest.len() });
    };
    behind(alloc, Mark::AgainAndAgain, left, depth, out)
}

/// Reads what comes after `after`.
#[cycle(phrase)]
fn after<'a, 't>(
    alloc: Global,
    words: &'a [&'t [u8]],
    depth: usize,
    out: &mut Vec<Mark>,
) -> Result<(bool, &'a [&'t [u8]]), Stop>
    ensures gives { Gives phrase_marks is_endless out.old.items out.new.items result
        (inner_behind depth after_action (texts words.now)) }
    ensures shorter { IfOk result (λ x. length x.1.now ≤ length words.now) }
{
    let (_, rest) = action(alloc, words, depth, out)?;
    behind(alloc, Mark::After, rest, depth, out)
}

/// Reads what comes after `mu` or `nu`.
#[cycle(phrase)]
fn binding<'a, 't>(
    alloc: Global,
    kind: Binder,
    words: &'a [&'t [u8]],
    depth: usize,
    out: &mut Vec<Mark>,
) -> Result<(bool, &'a [&'t [u8]]), Stop>
    ensures gives { Gives phrase_marks is_endless out.old.items out.new.items result
        (inner_behind depth (binder (binder_of kind)) (texts words.now)) }
    ensures shorter { IfOk result (λ x. length x.1.now ≤ length words.now) }
{
    let [name, rest @ ..] = words else {
        return Err(Stop::Syntax { left: 0 });
    };
    if !is_variable(name) {
        return Err(Stop::Syntax { left: words.len() });
    }
    let Some(left) = after_word(rest, b".") else {
        return Err(Stop::Syntax { left: rest.len() });
    };
    let (_, rest) = formula(alloc, left, depth, out)?;
    let Ok(name) = Name::new(alloc, name) else {
        return Err(Stop::Memory);
    };
    let Ok(()) = out.push(kind.mark(name)) else {
        return Err(Stop::Memory);
    };
    Ok((true, rest))
}

/// Reads one of the formulas that a sign joins.
#[cycle(phrase)]
fn side<'a, 't>(
    alloc: Global,
    joint: Joint,
    words: &'a [&'t [u8]],
    depth: usize,
    out: &mut Vec<Mark>,
) -> Result<(bool, &'a [&'t [u8]]), Stop>
    ensures gives { Gives phrase_marks is_endless out.old.items out.new.items result
        (item_between joint (phrase_at an_operand depth) (texts words.now)) }
    ensures shorter { IfOk result (λ x. length x.1.now ≤ length words.now) }
{
    match joint {
        Joint::Or => joined(alloc, Joint::And, words, depth, out),
        Joint::And => part(alloc, words, depth, out),
    }
}

/// Reads formulas joined by a sign, one or more.
#[cycle(phrase)]
fn joined<'a, 't>(
    alloc: Global,
    joint: Joint,
    words: &'a [&'t [u8]],
    depth: usize,
    out: &mut Vec<Mark>,
) -> Result<(bool, &'a [&'t [u8]]), Stop>
    ensures gives { Gives phrase_marks is_endless out.old.items out.new.items result
        (joined_by joint (phrase_at an_operand depth) (texts words.now)) }
    ensures shorter { IfOk result (λ x. length x.1.now ≤ length words.now) }
{
    let (mut is_endless, mut rest) = side(alloc, joint, words, depth, out)?;
    while let Some(next) = after_word(rest, joint.sign()) {
        if is_endless {
            return Err(Stop::Syntax { left: rest.len() });
        }
        let (ends, left) = side(alloc, joint, next, depth, out)?;
        let Ok(()) = out.push(joint.mark()) else {
            return Err(Stop::Memory);
        };
        is_endless = ends;
        rest = left;
    }
    Ok((is_endless, rest))
}

/// Reads a formula. `depth` says how many more parts may be open.
#[cycle(phrase)]
pub(crate) fn formula<'a, 't>(
    alloc: Global,
    words: &'a [&'t [u8]],
    depth: usize,
    out: &mut Vec<Mark>,
) -> Result<(bool, &'a [&'t [u8]]), Stop>
    ensures gives { Gives phrase_marks is_endless out.old.items out.new.items result
        (phrase_at a_formula depth (texts words.now)) }
    ensures shorter { IfOk result (λ x. length x.1.now ≤ length words.now) }
{
    let (is_endless, rest) = joined(alloc, Joint::Or, words, depth, out)?;
    let Some(next) = after_word(rest, b"=>") else {
        return Ok((is_endless, rest));
    };
    if is_endless {
        return Err(Stop::Syntax { left: rest.len() });
    }
    if depth == 0 {
        return Err(Stop::TooDeep { left: rest.len() });
    }
    let (is_endless, left) = formula(alloc, next, depth - 1, out)?;
    let Ok(()) = out.push(Mark::Implies) else {
        return Err(Stop::Memory);
    };
    Ok((is_endless, left))
}
