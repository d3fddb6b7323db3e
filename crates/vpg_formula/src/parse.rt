//! Whole texts.
ghost use Rattle.std.specs.Prelude.{◌≡◌, IfOk, MatchResult};
ghost use Rattle.vpg_formula.specs.Regular as regular;
ghost use Rattle.vpg_formula.specs.RegularGrammar.{SpellsRegular};
ghost use Rattle.vpg_formula.specs.FormulaGrammar.{SpellsFormula};
ghost use Rattle.vpg_formula.specs.Written.{Phrase};
ghost use Rattle.vpg_formula.specs.Marks.{regular_marks, phrase_marks, AreMarksOf};
ghost use Rattle.vpg_formula.specs.Reading.{regular_at, formula_at};
ghost use Rattle.vpg_formula.specs.ReadCode.{texts, GivesAll, is_memory, is_out_of_memory};
ghost use Rattle.vpg_formula.specs.FaultCode.{place_left};

use crate::fault::{DEEPEST, FormulaFault};
use crate::formula::formula;
use crate::level::Level;
use crate::mark::Mark;
use crate::regular::series;
use crate::stop::Stop;
use crate::words::{Words, split_words};
use std::alloc::Global;

/// A regular formula: its marks, operands first.
#[derive(Debug, Drop)]
pub struct Regular {
    pub marks: Vec<Mark>,
}

/// A formula: its marks, operands first.
#[derive(Debug, Drop)]
pub struct Formula {
    pub marks: Vec<Mark>,
}

/// Returns the byte at which this many words are left.
pub(crate) fn place(places: &[usize], left: usize) -> usize
    ensures { result ≡ place_left places.now left }
{
    if left < places.len() {
        return places[places.len() - 1 - left];
    }
    match places {
        [] => 0,
        [first, ..] => *first,
    }
}

/// Returns the place in the text at which reading stopped, as a fault.
fn fault(words: &Words, stop: Stop) -> FormulaFault
    ensures { is_out_of_memory result ≡ is_memory stop }
{
    match stop {
        Stop::Syntax { left } => FormulaFault::Syntax {
            at: place(&words.places, left),
        },
        Stop::TooDeep { left } => FormulaFault::TooDeep {
            at: place(&words.places, left),
        },
        Stop::Memory => FormulaFault::Memory,
    }
}

/// Returns the marks of the regular formula that all the words are.
fn whole_regular(alloc: Global, words: &[&[u8]]) -> Result<Vec<Mark>, Stop>
    ensures { GivesAll (λ v. v.items) regular_marks result (regular_at (texts words.now)) }
{
    let mut out = Vec::new(alloc);
    let (_, rest) = series(alloc, Level::Choice, words, DEEPEST, &mut out)?;
    if !rest.is_empty() {
        return Err(Stop::Syntax { left: rest.len() });
    }
    Ok(out)
}

/// Returns the marks of the formula that all the words are.
fn whole_formula(alloc: Global, words: &[&[u8]]) -> Result<Vec<Mark>, Stop>
    ensures { GivesAll (λ v. v.items) phrase_marks result (formula_at (texts words.now)) }
{
    let mut out = Vec::new(alloc);
    let (_, rest) = formula(alloc, words, DEEPEST, &mut out)?;
    if !rest.is_empty() {
        return Err(Stop::Syntax { left: rest.len() });
    }
    Ok(out)
}

/// Returns the regular formula that a text spells.
///
/// Tightest first: `!`, `&&`, `||`, `*` and `+` after a formula, `.`, and `+` between two; `!`, `&&` and `||` stand
/// with action formulas alone. An action is a word that begins with a letter or `_`, with its arguments (`send(d1,
/// true)`), or any bytes in quotes; `true` is each action, `false` none. Blanks and comments, from `%` to the end of
/// the line, are free between words. At most 64 `(` and `!` are open at one place.
///
/// A refusal other than `Memory` comes only if the text spells none.
pub fn parse_regular(alloc: Global, text: &[u8]) -> Result<Regular, FormulaFault>
    // The text spells the result.
    ensures found { IfOk result (λ r. AreMarksOf regular_marks (SpellsRegular text.now) r.marks.items) }
    // All that the text spells is read, unless memory runs out.
    ensures only { (x : regular.Regular) → SpellsRegular text.now x →
        MatchResult result (λ r. r.marks.items ≡ regular_marks x) (λ e. e ≡ FormulaFault.Memory) }
{
    let Ok(words) = split_words(alloc, text) else {
        return Err(FormulaFault::Memory);
    };
    match whole_regular(alloc, &words.words) {
        Ok(marks) => Ok(Regular { marks }),
        Err(stop) => Err(fault(&words, stop)),
    }
}

/// Returns the formula that a text spells.
///
/// Tightest first: `!`, modalities and words, `&&`, `||`, and `=>`, which goes to the right. A fixpoint, `mu X. f` or
/// `nu X. f`, is an operand that is as long as it can be. The words are `can`, `will`, `always`, `never`, `possibly`,
/// `inevitably`, `again and again`, `after` and `deadlock free`. Between `<` and `>`, or `[` and `]`, stands a regular
/// formula, as `parse_regular` reads it. At most 64 parts are open at one place: `(`, `!`, `<`, `[`, `mu`, `nu`, `=>`
/// and the words, each until its part ends.
///
/// Names of variables are read as they stand; that each is bound is not asked here. A refusal other than `Memory` comes
/// only if the text spells no formula.
pub fn parse_formula(alloc: Global, text: &[u8]) -> Result<Formula, FormulaFault>
    // The text spells the result.
    ensures found { IfOk result (λ f. AreMarksOf phrase_marks (SpellsFormula text.now) f.marks.items) }
    // All that the text spells is read, unless memory runs out.
    ensures only { (p : Phrase) → SpellsFormula text.now p →
        MatchResult result (λ f. f.marks.items ≡ phrase_marks p) (λ e. e ≡ FormulaFault.Memory) }
{
    let Ok(words) = split_words(alloc, text) else {
        return Err(FormulaFault::Memory);
    };
    match whole_formula(alloc, &words.words) {
        Ok(marks) => Ok(Formula { marks }),
        Err(stop) => Err(fault(&words, stop)),
    }
}
