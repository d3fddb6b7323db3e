//! The terms of entries.
ghost use Rattle.std.specs.Prelude.{◌≡◌, ◌+◌, ◌≤◌, ◌∷◌, ◌++◌, [], List, ℕ, length, IfOk};
ghost use Rattle.vpg_requirement.specs.Actions.{ActionFormula};
ghost use Rattle.vpg_written.specs.Trees.{Tree};
ghost use Rattle.vpg_written.specs.Terms.{AreSets, length_at_end};
ghost use Rattle.vpg_written.specs.Parsing.{arity, reduced, parsed, AreStacked, IsLastTerm, AreOperands, IsMade};
ghost use Rattle.vpg_written.specs.Entries.{AreMade};

use crate::piece::{Piece, set_of};
use crate::sets::set_by_mark;
use crate::task::Term;
use std::alloc::{AllocError, Global};
use vpg_formula::{Entry, Mark};
use vpg_parts::Permitted;
use vpg_system::System;

/// Returns the number of operands in front of a mark.
fn operand_count(mark: &Mark) -> usize
    ensures { result ≡ arity mark.now }
{
    match mark {
        Mark::OtherThan
        | Mark::Repeated
        | Mark::RepeatedOnce
        | Mark::Can
        | Mark::Will
        | Mark::Not
        | Mark::Always
        | Mark::Never
        | Mark::Possibly
        | Mark::Inevitably
        | Mark::AgainAndAgain
        | Mark::Least(_)
        | Mark::Greatest(_) => 1,
        Mark::BothOf
        | Mark::EitherOf
        | Mark::Sequence
        | Mark::Choice
        | Mark::SomePath
        | Mark::EveryPath
        | Mark::After
        | Mark::And
        | Mark::Or
        | Mark::Implies => 2,
        _ => 0,
    }
}

/// Returns the number of pieces of the last term.
fn last_length(pieces: &[Piece]) -> usize
    ensures { result ≡ length_at_end pieces.now }
{
    match pieces {
        [] => 0,
        [.., piece] => piece.length,
    }
}

/// Splits the pieces before the last term.
fn last_term<'p, 'm>(pieces: &'p [Piece<'m>]) -> (&'p [Piece<'m>], &'p [Piece<'m>])
    ensures count { length result.0.now + length result.1.now ≡ length pieces.now }
    ensures last { (names : List (List ℕ)) (actions : List ActionFormula) (ts : List Tree) →
        AreStacked names actions ts pieces.now →
        IsLastTerm names actions ts pieces.now result.0.now result.1.now }
{
    let length = last_length(pieces);
    pieces.split_at(pieces.len().saturating_sub(length))
}

/// Returns the operands of a mark after these pieces.
fn operands<'p, 'm>(pieces: &'p [Piece<'m>], mark: &Mark) -> (&'p [Piece<'m>], &'p [Piece<'m>])
    ensures count { length result.0.now + length result.1.now ≤ length pieces.now }
    ensures operands { (names : List (List ℕ)) (actions : List ActionFormula) (ts : List Tree) →
        AreStacked names actions ts pieces.now →
        AreOperands names actions (arity mark.now) ts pieces.now result.0.now result.1.now }
{
    let count = operand_count(mark);
    let (none, _) = pieces.split_at(0);
    if count == 0 {
        return (none, none);
    }
    let (front, last) = last_term(pieces);
    if count == 1 {
        return (none, last);
    }
    let (_, first) = last_term(front);
    (first, last)
}

/// Returns the piece of a mark after these pieces.
fn made<'m>(
    alloc: Global,
    system: &System,
    mark: &'m Mark,
    pieces: &[Piece<'m>],
    sets: &mut Vec<Permitted>,
) -> Result<Piece<'m>, AllocError>
    ensures { IfOk result (λ p. (actions : List ActionFormula) (ts : List Tree) →
        AreSets system.now.actions sets.old.items actions → AreStacked system.now.actions actions ts pieces.now →
        IsMade system.now.actions actions (reduced (arity mark.now) mark.now ts) sets.new.items
        (pieces.now ++ p ∷ [])) }
{
    let (first, second) = operands(pieces, mark);
    let set = set_by_mark(alloc, system, mark, set_of(first), set_of(second), sets)?;
    Ok(Piece {
        mark,
        length: first.len() + second.len() + 1,
        last: second.len(),
        set,
    })
}

/// Returns the pieces of a formula.
fn pieces<'m>(
    alloc: Global,
    system: &System,
    marks: &'m [Mark],
    sets: &mut Vec<Permitted>,
) -> Result<Vec<Piece<'m>>, AllocError>
    ensures { IfOk result (λ ps. (actions : List ActionFormula) → AreSets system.now.actions sets.old.items actions →
        IsMade system.now.actions actions (parsed [] marks.now) sets.new.items ps.items) }
{
    let mut pieces = Vec::new(alloc);
    for mark in marks {
        let piece = made(alloc, system, mark, pieces.as_slice(), sets)?;
        pieces.push(piece)?;
    }
    Ok(pieces)
}

/// Returns the terms of the entries.
pub(crate) fn terms<'m>(
    alloc: Global,
    system: &System,
    entries: &'m [Entry],
    sets: &mut Vec<Permitted>,
) -> Result<Vec<Term<'m>>, AllocError>
    ensures { IfOk result (λ made. (actions : List ActionFormula) →
        AreSets system.now.actions sets.old.items actions →
        AreMade system.now.actions actions entries.now (length entries.now) sets.new.items made.items) }
{
    let mut terms = Vec::new(alloc);
    for entry in entries {
        let pieces = pieces(alloc, system, entry.formula.marks.as_slice(), sets)?;
        terms.push(Term {
            name: entry.name.as_bytes(),
            pieces,
        })?;
    }
    Ok(terms)
}
