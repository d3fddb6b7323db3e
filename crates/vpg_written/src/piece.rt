//! Marks with facts on the terms that they end.
ghost use Rattle.std.specs.Prelude.{◌≡◌, ◌<◌, ◌≤◌, ◌-◌, ◌+◌, [], length, take, drop, IfSome, IfNone};
ghost use Rattle.vpg_written.specs.Terms.{IsSplit, set_at_end};

use vpg_formula::Mark;

/// The set of all actions.
pub(crate) const EVERY_ACTION: u32 = 0;

/// The set of no action.
pub(crate) const NO_ACTION: u32 = 1;

/// A mark of a formula, with facts on the term that it ends.
#[derive(Clone, Copy)]
pub(crate) struct Piece<'m> {
    pub(crate) mark: &'m Mark,
    /// The number of marks of the term.
    pub(crate) length: usize,
    /// The number of marks of the last operand.
    pub(crate) last: usize,
    /// The number of the set of actions.
    pub(crate) set: u32,
}

/// A term: the piece at its end, and its operands. The first of two is in front of the second, which may be alone.
#[derive(Clone, Copy)]
pub(crate) struct Parts<'p, 'm> {
    pub(crate) piece: Piece<'m>,
    pub(crate) first: &'p [Piece<'m>],
    pub(crate) second: &'p [Piece<'m>],
}

/// Returns the parts of a term, if it has a mark.
pub(crate) fn split<'p, 'm>(term: &'p [Piece<'m>]) -> Option<Parts<'p, 'm>>
    ensures none { IfNone result (term.now ≡ []) }
    ensures some { IfSome result (IsSplit term.now) }
    ensures shorter { IfSome result (λ it. length it.second.now < length term.now) }
    ensures first_shorter { IfSome result (λ it. length it.first.now < length term.now) }
{
    match term {
        [] => None,
        [operands @ .., piece] => {
            let (first, second) = operands.split_at(operands.len().saturating_sub(piece.last));
            Some(Parts {
                piece: *piece,
                first,
                second,
            })
        }
    }
}

/// Returns the number of a term's set of actions.
pub(crate) fn set_of(term: &[Piece]) -> u32
    ensures { result ≡ set_at_end term.now }
{
    match term {
        [] => NO_ACTION,
        [.., piece] => piece.set,
    }
}

/// Returns a part of a term.
pub(crate) fn part<'p, 'm>(term: &'p [Piece<'m>], from: usize, to: usize) -> &'p [Piece<'m>]
    requires start { from ≤ to }
    requires end { to ≤ length term.now }
    ensures is { result.now ≡ take (to - from) (drop from term.now) }
    ensures len { length result.now ≡ to - from }
{
    &term[from..to]
}
