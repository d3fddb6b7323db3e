//! Constraints.
ghost use Rattle.std.specs.Prelude.{ℕ, ◌≡◌, ◌≢◌, ◌<◌, ◌≤◌, ◌+◌, ◌^◌, length, IfOk, IfErr, MatchResult};
ghost use Rattle.vpg_rules.specs.Constraint.{Constraint, IsBelow, renamed};
ghost use Rattle.vpg_rules.specs.Grammar.{NamedRule, index_or_end};
ghost use Rattle.vpg_rules.specs.View.{constraint_of};
ghost use Rattle.vpg_uvl.specs.Model.{SpellsGrouped, SpellsConstraint};
ghost use Rattle.vpg_uvl.specs.Views.{row_of, IsSpelledBy, IsRuleFault, IsRowFault, IsPlaced, IsOfRule, Tells, TellsRule};

use crate::arrows::{enclosed, is_chained};
use crate::fault::{Reason, TextFault};
use crate::quotes::unquoted;
use crate::row::Row;
use crate::words::{blanks_len, indentation, is_blank, is_nothing, split_name};
use std::alloc::Global;
use vpg_features::{Names, constant_of, is_name_byte};
use vpg_rules::{Rule, RuleFault, parse_rule};

/// Returns the byte at a place, or a blank after the end.
fn byte_at(bytes: &[u8], at: usize) -> u8 {
    match bytes.get(at) {
        Some(b) => *b,
        None => b' ',
    }
}

/// Whether a text begins with a word that is neither a constant nor the name of a feature.
fn is_unknown(names: &Names, text: &[u8]) -> bool {
    let (word, _) = split_name(text);
    !is_nothing(word) && constant_of(word).is_none() && names.get(word).is_none()
}

/// Returns the place of the first word that is neither a constant nor the name of a feature, or 0.
fn unknown_at(names: &Names, bytes: &[u8]) -> usize {
    let mut before = b' ';
    for at in 0..bytes.len() {
        if !is_name_byte(before) && is_unknown(names, &bytes[at..]) {
            return at;
        }
        before = bytes[at];
    }
    0
}

/// Returns why a byte cannot stand in a rule.
fn reason_of_byte(b: u8) -> Reason
    ensures { IsOfRule result }
{
    match b {
        b'.' => Reason::Attribute,
        b'"' => Reason::Quotes,
        b'\'' => Reason::Text,
        b'+' | b'-' | b'*' | b'/' | b'0'..=b'9' => Reason::Arithmetic,
        b'=' | b'<' | b'>' | b'!' => Reason::Comparison,
        b'(' => Reason::Aggregate,
        _ => Reason::Syntax,
    }
}

/// Returns the length of a row without the blanks at its end.
fn visible_len(bytes: &[u8]) -> usize
    ensures { result ≤ length bytes.now }
{
    let mut len = 0;
    for (at, b) in bytes.iter().enumerate() {
        if !is_blank(*b) {
            len = at + 1;
        }
    }
    len
}

/// Returns the fault of a row for a reason at a place, which counts the row's bytes from 0. A place after the last
/// word is reported directly after it.
fn refused(row: Row, reason: Reason, at: usize) -> TextFault
    requires { row.start + length row.bytes.now < 2 ^ 64 }
    ensures placed { IsPlaced (row_of row.entry) result }
    ensures tells { Tells reason result }
{
    TextFault::Refused {
        reason,
        at: row.start + at.min(visible_len(row.bytes)),
    }
}

/// Returns the fault of a row that spells no rule. Its reason names the text where the rule ends.
fn fault_of(row: Row, fault: RuleFault) -> TextFault
    requires { row.start + length row.bytes.now < 2 ^ 64 }
    ensures placed { fault ≢ RuleFault.Memory → IsPlaced (row_of row.entry) result }
    ensures memory { fault ≡ RuleFault.Memory → result ≡ TextFault.Memory }
    ensures tells { TellsRule result }
{
    match fault {
        RuleFault::Memory => TextFault::Memory,
        RuleFault::Syntax { at } => refused(row, reason_of_byte(byte_at(row.bytes, at)), at),
        RuleFault::TooDeep { at } => refused(row, Reason::TooDeep, at),
    }
}

/// Returns the fault of a row whose chains of `=>` are too long.
fn chain_fault(row: Row, fault: RuleFault) -> TextFault
    requires { row.start + length row.bytes.now < 2 ^ 64 }
    ensures placed { fault ≢ RuleFault.Memory → IsPlaced (row_of row.entry) result }
    ensures memory { fault ≡ RuleFault.Memory → result ≡ TextFault.Memory }
    ensures tells { TellsRule result }
{
    match fault {
        RuleFault::Memory => TextFault::Memory,
        RuleFault::Syntax { .. } | RuleFault::TooDeep { .. } => {
            refused(row, Reason::TooDeep, blanks_len(row.bytes))
        }
    }
}

/// Returns the rule that the text of a row spells, where arrows group to the left.
fn rule_of(alloc: Global, names: &Names, row: Row, text: &[u8]) -> Result<Rule, TextFault>
    requires { row.start + length row.bytes.now < 2 ^ 64 }
    ensures found { IfOk result (IsSpelledBy names.now text.now) }
    ensures refused { IfErr result (IsRuleFault (row_of row.entry) text.now) }
    ensures only { (c : NamedRule) → SpellsGrouped text.now c →
        MatchResult result (λ rule. constraint_of rule ≡ renamed (index_or_end names.now) c)
        (λ fault. fault ≡ TextFault.Memory) }
{
    let rule = match parse_rule(alloc, text, names) {
        Ok(rule) => rule,
        Err(fault) => return Err(fault_of(row, fault)),
    };
    if !is_chained(text) {
        return Ok(rule);
    }
    let Ok(chain) = enclosed(alloc, text) else {
        return Err(TextFault::Memory);
    };
    match parse_rule(alloc, &chain, names) {
        Ok(rule) => Ok(rule),
        Err(fault) => Err(chain_fault(row, fault)),
    }
}

/// Returns the constraint that a row spells.
pub(crate) fn constraint(alloc: Global, names: &Names, row: Row) -> Result<Rule, TextFault>
    requires { row.start + length row.bytes.now < 2 ^ 64 }
    ensures found { IfOk result (λ rule. SpellsConstraint names.now (row_of row.entry) (constraint_of rule)) }
    ensures below { IfOk result (λ rule. IsBelow (length names.now) (constraint_of rule)) }
    ensures refused { IfErr result (IsRowFault names.now (row_of row.entry)) }
    ensures only { (c : Constraint ℕ) → SpellsConstraint names.now (row_of row.entry) c →
        MatchResult result (λ rule. constraint_of rule ≡ c) (λ fault. fault ≡ TextFault.Memory) }
{
    if indentation(row.bytes) == 0 {
        return Err(refused(row, Reason::Indentation, 0));
    }
    let Ok(text) = unquoted(alloc, row.bytes) else {
        return Err(TextFault::Memory);
    };
    let rule = match rule_of(alloc, names, row, &text) {
        Ok(rule) => rule,
        Err(fault) => return Err(fault),
    };
    if !rule.is_below(names.len()) {
        return Err(refused(row, Reason::UnknownFeature, unknown_at(names, &text)));
    }
    Ok(rule)
}
