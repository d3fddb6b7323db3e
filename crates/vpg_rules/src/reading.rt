//! The rule that a text spells.
ghost use Rattle.std.specs.Prelude.{◌≡◌, ◌<◌, ◌≤◌, ℕ, suc, length, take, drop, IfOk, IfErr, IfSome, option_map, MatchResult};
ghost use Rattle.std.specs.List.{prefix_len};
ghost use Rattle.vpg_features.specs.Names.{is_name_byte};
ghost use Rattle.vpg_guards.specs.Grammar.{is_blank};
ghost use Rattle.vpg_guards.specs.Reading.{after_blanks};
ghost use Rattle.vpg_rules.specs.Constraint.{renamed, all, any};
ghost use Rattle.vpg_rules.specs.View.{constraint_of, constraints_of};
ghost use Rattle.vpg_rules.specs.Grammar.{NamedRule, Spells, alone_or, index_or_end};
ghost use Rattle.vpg_rules.specs.Reading.{Gives, is_feature_name, IsToldAt, after_mark, word_at, factor_at, factor_with, conjunction_with, disjunction_with, implication_at, rule_at, whole_at};

use crate::fault::RuleFault;
use crate::rule::{Rule, Rules};
use std::alloc::Global;
use vpg_features::{Names, constant_of, is_feature_name, is_name_byte};

/// The greatest number of `(`, `!`, `=>` and `<=>` that are open at one place.
pub const DEEPEST: usize = 64;

/// Whether the byte is a space, a tab, a carriage return or a line feed.
fn is_blank(b: u8) -> bool
    ensures { result ≡ is_blank b }
{
    b == b' ' || b == b'\t' || b == b'\r' || b == b'\n'
}

/// Returns the number of blanks at the front.
fn blanks_len(text: &[u8]) -> usize
    ensures { result ≡ prefix_len is_blank text.now }
{
    text.iter().take_while(|b| is_blank(**b)).count()
}

/// Returns the length of the word at the front.
fn word_len(text: &[u8]) -> usize
    ensures { result ≡ prefix_len is_name_byte text.now }
{
    text.iter().take_while(|b| is_name_byte(**b)).count()
}

/// Returns the text after the blanks at the front.
#[tactic(auto, using(crate::proofs::Marks::front_within))]
fn after_blanks(text: &[u8]) -> &[u8]
    ensures rest { result.now ≡ after_blanks text.now }
    ensures shorter { length result.now ≤ length text.now }
{
    &text[blanks_len(text)..]
}

/// Returns the text after the mark, if the mark comes next. A mark has one byte or more.
fn after_mark<'t>(text: &'t [u8], mark: &[u8]) -> Option<&'t [u8]>
    requires { 0 < length mark.now }
    ensures rest { option_map (λ r. r.now) result ≡ after_mark mark.now text.now }
    ensures shorter { IfSome result (λ r. length r.now < length text.now) }
{
    after_blanks(text).strip_prefix(mark)
}

/// Splits the text after the word at its front.
#[tactic(auto, using(crate::proofs::Marks::front_within))]
fn split_word(text: &[u8]) -> (&[u8], &[u8])
    ensures word { result.0.now ≡ take (prefix_len is_name_byte text.now) text.now }
    ensures rest { result.1.now ≡ drop (prefix_len is_name_byte text.now) text.now }
    ensures shorter { length result.1.now ≤ length text.now }
{
    text.split_at(word_len(text))
}

/// Whether a word is a feature's name.
fn is_name(word: &[u8]) -> bool
    ensures { result ≡ is_feature_name word.now }
{
    is_feature_name(word)
}

/// Returns the index of a name, or the number of names if it is not among them.
fn index_or_end(names: &Names, name: &[u8]) -> u16
    ensures { result ≡ index_or_end names.now name.now }
{
    match names.get(name) {
        Some(f) => f,
        None => names.len() as u16,
    }
}

/// Reads the rule that the word at the front stands for. A word that stands for none is told at its place, `at`.
#[tactic(auto, unfolding(crate::specs::Reading::word_at))]
fn word<'t>(names: &Names, text: &'t [u8], at: usize) -> Result<(Rule, &'t [u8]), RuleFault>
    ensures gives { Gives (λ x. (constraint_of x.0, x.1.now)) result (word_at (index_or_end names.now) text.now) }
    ensures place { IfErr result (λ fault. IsToldAt at fault) }
    ensures shorter { IfOk result (λ x. length x.1.now ≤ length text.now) }
{
    let (word, rest) = split_word(text);
    match constant_of(word) {
        Some(true) => return Ok((Rule::Always, rest)),
        Some(false) => return Ok((Rule::Never, rest)),
        None => {}
    }
    if !is_name(word) {
        return Err(RuleFault::Syntax { at });
    }
    Ok((Rule::Feature(index_or_end(names, word)), rest))
}

/// Returns the rule that is alone, or the `All` of several.
fn all_of(mut parts: Vec<Rule>) -> Rule
    ensures { constraint_of result ≡ alone_or all (constraints_of parts.items) }
{
    if parts.len() != 1 {
        return Rule::All(Rules { items: parts });
    }
    match parts.pop() {
        Some(only) => only,
        None => Rule::All(Rules { items: parts }),
    }
}

/// Returns the rule that is alone, or the `Any` of several.
fn any_of(mut parts: Vec<Rule>) -> Rule
    ensures { constraint_of result ≡ alone_or any (constraints_of parts.items) }
{
    if parts.len() != 1 {
        return Rule::Any(Rules { items: parts });
    }
    match parts.pop() {
        Some(only) => only,
        None => Rule::Any(Rules { items: parts }),
    }
}

/// Reads a factor at the front, and returns the text after it too. `whole` is the length of the whole text, and `depth`
/// says how many more signs may be open.
#[cycle(read)]
fn factor<'t>(
    alloc: Global,
    names: &Names,
    text: &'t [u8],
    whole: usize,
    depth: usize,
) -> Result<(Rule, &'t [u8]), RuleFault>
    requires { length text.now ≤ whole }
    ensures gives { Gives (λ x. (constraint_of x.0, x.1.now)) result
        (factor_at (index_or_end names.now) (suc depth) text.now) }
    ensures shorter { IfOk result (λ x. length x.1.now ≤ length text.now) }
{
    let word_text = after_blanks(text);
    let at = whole - word_text.len();
    if let Some(rest) = after_mark(text, b"!") {
        if depth == 0 {
            return Err(RuleFault::TooDeep { at });
        }
        let (inner, rest) = factor(alloc, names, rest, whole, depth - 1)?;
        let Ok(inner) = Box::new(alloc, inner) else {
            return Err(RuleFault::Memory);
        };
        return Ok((Rule::Not(inner), rest));
    }
    if let Some(rest) = after_mark(text, b"(") {
        if depth == 0 {
            return Err(RuleFault::TooDeep { at });
        }
        let (inner, rest) = rule(alloc, names, rest, whole, depth - 1)?;
        return match after_mark(rest, b")") {
            Some(rest) => Ok((inner, rest)),
            None => Err(RuleFault::Syntax {
                at: whole - after_blanks(rest).len(),
            }),
        };
    }
    word(names, word_text, at)
}

/// Reads factors joined by `&` at the front, and returns the text after them too.
#[cycle(read)]
fn conjunction<'t>(
    alloc: Global,
    names: &Names,
    text: &'t [u8],
    whole: usize,
    depth: usize,
) -> Result<(Rule, &'t [u8]), RuleFault>
    requires { length text.now ≤ whole }
    ensures gives { Gives (λ x. (constraint_of x.0, x.1.now)) result
        (conjunction_with (factor_at (index_or_end names.now) (suc depth)) text.now) }
    ensures shorter { IfOk result (λ x. length x.1.now ≤ length text.now) }
{
    let (first, mut rest) = factor(alloc, names, text, whole, depth)?;
    let mut parts = Vec::new(alloc);
    let Ok(_) = parts.push(first) else {
        return Err(RuleFault::Memory);
    };
    while let Some(behind) = after_mark(rest, b"&") {
        let (next, left) = factor(alloc, names, behind, whole, depth)?;
        let Ok(_) = parts.push(next) else {
            return Err(RuleFault::Memory);
        };
        rest = left;
    }
    Ok((all_of(parts), rest))
}

/// Reads conjunctions joined by `|` at the front, and returns the text after them too.
#[cycle(read)]
fn disjunction<'t>(
    alloc: Global,
    names: &Names,
    text: &'t [u8],
    whole: usize,
    depth: usize,
) -> Result<(Rule, &'t [u8]), RuleFault>
    requires { length text.now ≤ whole }
    ensures gives { Gives (λ x. (constraint_of x.0, x.1.now)) result
        (disjunction_with (factor_at (index_or_end names.now) (suc depth)) text.now) }
    ensures shorter { IfOk result (λ x. length x.1.now ≤ length text.now) }
{
    let (first, mut rest) = conjunction(alloc, names, text, whole, depth)?;
    let mut parts = Vec::new(alloc);
    let Ok(_) = parts.push(first) else {
        return Err(RuleFault::Memory);
    };
    while let Some(behind) = after_mark(rest, b"|") {
        let (next, left) = conjunction(alloc, names, behind, whole, depth)?;
        let Ok(_) = parts.push(next) else {
            return Err(RuleFault::Memory);
        };
        rest = left;
    }
    Ok((any_of(parts), rest))
}

/// Reads a rule without an outer `<=>` at the front, and returns the text after it too.
#[cycle(read)]
fn implication<'t>(
    alloc: Global,
    names: &Names,
    text: &'t [u8],
    whole: usize,
    depth: usize,
) -> Result<(Rule, &'t [u8]), RuleFault>
    requires { length text.now ≤ whole }
    ensures gives { Gives (λ x. (constraint_of x.0, x.1.now)) result
        (implication_at (index_or_end names.now) (suc depth) text.now) }
    ensures shorter { IfOk result (λ x. length x.1.now ≤ length text.now) }
{
    let (left, rest) = disjunction(alloc, names, text, whole, depth)?;
    let Some(behind) = after_mark(rest, b"=>") else {
        return Ok((left, rest));
    };
    if depth == 0 {
        return Err(RuleFault::TooDeep {
            at: whole - after_blanks(rest).len(),
        });
    }
    let (right, rest) = implication(alloc, names, behind, whole, depth - 1)?;
    let Ok(left) = Box::new(alloc, left) else {
        return Err(RuleFault::Memory);
    };
    let Ok(right) = Box::new(alloc, right) else {
        return Err(RuleFault::Memory);
    };
    Ok((Rule::Implies(left, right), rest))
}

/// Reads a rule at the front, and returns the text after it too.
#[cycle(read)]
fn rule<'t>(
    alloc: Global,
    names: &Names,
    text: &'t [u8],
    whole: usize,
    depth: usize,
) -> Result<(Rule, &'t [u8]), RuleFault>
    requires { length text.now ≤ whole }
    ensures gives { Gives (λ x. (constraint_of x.0, x.1.now)) result
        (rule_at (index_or_end names.now) (suc depth) text.now) }
    ensures shorter { IfOk result (λ x. length x.1.now ≤ length text.now) }
{
    let (left, rest) = implication(alloc, names, text, whole, depth)?;
    let Some(behind) = after_mark(rest, b"<=>") else {
        return Ok((left, rest));
    };
    if depth == 0 {
        return Err(RuleFault::TooDeep {
            at: whole - after_blanks(rest).len(),
        });
    }
    let (right, rest) = rule(alloc, names, behind, whole, depth - 1)?;
    let Ok(left) = Box::new(alloc, left) else {
        return Err(RuleFault::Memory);
    };
    let Ok(right) = Box::new(alloc, right) else {
        return Err(RuleFault::Memory);
    };
    Ok((Rule::Iff(left, right), rest))
}

/// Reads the rule that a whole text spells.
fn whole_rule(alloc: Global, names: &Names, text: &[u8]) -> Result<Rule, RuleFault>
    ensures { Gives (λ rule. constraint_of rule) result (whole_at (index_or_end names.now) text.now) }
{
    let (rule, rest) = rule(alloc, names, text, text.len(), DEEPEST)?;
    let rest = after_blanks(rest);
    if !rest.is_empty() {
        return Err(RuleFault::Syntax {
            at: text.len() - rest.len(),
        });
    }
    Ok(rule)
}

/// Returns the rule that a text spells. A name that is not among the names stands as the number of names, which is no
/// feature's index.
///
/// The operators are `!`, `&`, `|`, `=>` and `<=>`, the closest binding first, around the constants `true` and `false`,
/// names of features, and rules between `(` and `)`. Both arrows take as much as they can to their right: `a => b => c`
/// is `a => (b => c)`, and likewise `<=>`, where the place of the parentheses does not change the truth. Blanks
/// (spaces, tabs, carriage returns, line feeds) are free between words. At most 64 `(`, `!`, `=>` and `<=>` are open at
/// one place; a `!` is open until its factor ends, an arrow until its right side ends.
///
/// A refusal other than `Memory` comes only if the text spells no rule; it is the leftmost fault.
pub fn parse_rule(alloc: Global, text: &[u8], names: &Names) -> Result<Rule, RuleFault>
    // The text spells the rule that is read, over names that stand as their indices.
    ensures found { IfOk result
        (λ rule. (c : NamedRule) × Spells text.now c × (constraint_of rule ≡ renamed (index_or_end names.now) c)) }
    // A rule that the text spells is read, unless memory runs out.
    ensures only { (c : NamedRule) → Spells text.now c →
        MatchResult result (λ rule. constraint_of rule ≡ renamed (index_or_end names.now) c)
        (λ e. e ≡ RuleFault.Memory) }
{
    whole_rule(alloc, names, text)
}
