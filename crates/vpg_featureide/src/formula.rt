//! The constraints of a model.
ghost use Rattle.std.specs.Prelude.{◌≡◌, ℕ, ◌≤◌, ◌<◌, [], length, map, slice_index_or, Ok, Err, IfOk, IfErr};
ghost use Rattle.std.specs.List.{list_all, prefix_len};
ghost use Rattle.vpg_rules.specs.Constraint.{Constraint, negation, all, any};
ghost use Rattle.vpg_rules.specs.View.{constraint_of};
ghost use Rattle.vpg_xml.specs.Tokens.{is_blank};
ghost use Rattle.vpg_featureide.specs.Roles.{Outside};
ghost use Rattle.vpg_xml.specs.View.{element_of, elements_of};
ghost use Rattle.vpg_featureide.specs.Formulas.{is_child, is_formula, is_rule, is_operand, operands_with, word_len, feature_in, variable, alone, several, pair, joined, formula_with, shallow, rule_at, rules_with};
ghost use Rattle.vpg_featureide.specs.Spans.{AreSpans};
ghost use Rattle.vpg_featureide.specs.View.{IsRefused};

use crate::fault::ModelFault;
use crate::role::{Role, is_same};
use crate::spans::{Span, spans};
use std::alloc::Global;
use vpg_features::Names;
use vpg_rules::{Rule, Rules};
use vpg_tree::is_shallow;
use vpg_xml::Element;

fn is_blank(b: u8) -> bool
    ensures { result ≡ is_blank b }
{
    b == b' ' || (b == b'\t' || (b == b'\r' || b == b'\n'))
}

fn gap_len(text: &[u8]) -> usize
    ensures len { result ≡ prefix_len is_blank text.now }
    ensures within { result ≤ length text.now }
{
    text.iter().take_while(|b| is_blank(**b)).count()
}

fn word_len(text: &[u8]) -> usize
    ensures len { result ≡ word_len text.now }
    ensures within { result ≤ length text.now }
{
    text.iter().take_while(|b| !is_blank(**b)).count()
}

fn is_all_blank(text: &[u8]) -> bool
    ensures { result ≡ list_all is_blank text.now }
{
    text.iter().all(|b| is_blank(*b))
}

/// Returns the feature whose name is the only word of a text, which begins with it.
fn feature_in(names: &Names, text: &[u8]) -> Option<u16>
    ensures { result ≡ feature_in names.now text.now }
{
    let len = word_len(text);
    if is_all_blank(&text[len..]) {
        names.get(&text[..len])
    } else {
        None
    }
}

fn is_child(i: usize, parent: Option<usize>) -> bool
    ensures { result ≡ is_child i parent }
{
    match parent {
        Some(p) => p == i,
        None => false,
    }
}

fn is_formula(role: Role) -> bool
    ensures { result ≡ is_formula role }
{
    match role {
        Role::Formula => true,
        _ => false,
    }
}

fn is_rule(role: Role) -> bool
    ensures { result ≡ is_rule role }
{
    match role {
        Role::Rule => true,
        _ => false,
    }
}

fn role_at(roles: &[Role], i: usize) -> Role
    ensures { result ≡ slice_index_or roles.now i Outside }
{
    match roles.get(i) {
        Some(role) => *role,
        None => Role::Outside,
    }
}

/// Whether the element at an index is an operand of the one at another index.
fn is_operand(roles: &[Role], i: usize, j: usize, e: &Element) -> bool
    ensures { result ≡ is_operand roles.now i j (element_of e.now) }
{
    is_child(i, e.parent) && is_formula(role_at(roles, j))
}

fn variable(names: &Names, e: &Element, parts: Vec<Rule>) -> Result<Rule, ModelFault>
    ensures ok { IfOk result (λ r. variable names.now (element_of e.now) (map constraint_of parts.items)
        ≡ Ok (constraint_of r)) }
    ensures err { IfErr result (IsRefused (variable names.now (element_of e.now) (map constraint_of parts.items))) }
{
    if !parts.is_empty() {
        return Err(ModelFault::Operands { at: e.at });
    }
    let text = e.text.as_slice();
    match feature_in(names, &text[gap_len(text)..]) {
        Some(f) => Ok(Rule::Feature(f)),
        None => Err(ModelFault::UnknownName { at: e.at }),
    }
}

/// Returns the only one of some rules.
fn only(at: usize, parts: Vec<Rule>) -> Result<Rule, ModelFault>
    ensures ok { IfOk result (λ r. alone at (λ c. c) (map constraint_of parts.items) ≡ Ok (constraint_of r)) }
    ensures err { IfErr result
        (λ e. (make : Constraint ℕ → Constraint ℕ) → alone at make (map constraint_of parts.items) ≡ Err e) }
    ensures make { IfOk result (λ r. (make : Constraint ℕ → Constraint ℕ) →
        alone at make (map constraint_of parts.items) ≡ Ok (make (constraint_of r))) }
{
    let mut parts = parts;
    let Some(last) = parts.pop() else {
        return Err(ModelFault::Operands { at });
    };
    if parts.is_empty() {
        Ok(last)
    } else {
        Err(ModelFault::Operands { at })
    }
}

fn negated(alloc: Global, at: usize, parts: Vec<Rule>) -> Result<Rule, ModelFault>
    ensures ok { IfOk result (λ r. alone at negation (map constraint_of parts.items) ≡ Ok (constraint_of r)) }
    ensures err { IfErr result (IsRefused (alone at negation (map constraint_of parts.items))) }
{
    let part = match only(at, parts) {
        Ok(part) => part,
        Err(fault) => return Err(fault),
    };
    match Box::new(alloc, part) {
        Ok(part) => Ok(Rule::Not(part)),
        Err(_) => Err(ModelFault::Memory),
    }
}

fn conjunction(at: usize, parts: Vec<Rule>) -> Result<Rule, ModelFault>
    ensures ok { IfOk result (λ r. several at all (map constraint_of parts.items) ≡ Ok (constraint_of r)) }
    ensures err { IfErr result (λ e. several at all (map constraint_of parts.items) ≡ Err e) }
{
    if parts.len() < 2 {
        return only(at, parts);
    }
    Ok(Rule::All(Rules::new(parts)))
}

fn disjunction(at: usize, parts: Vec<Rule>) -> Result<Rule, ModelFault>
    ensures ok { IfOk result (λ r. several at any (map constraint_of parts.items) ≡ Ok (constraint_of r)) }
    ensures err { IfErr result (λ e. several at any (map constraint_of parts.items) ≡ Err e) }
{
    if parts.len() < 2 {
        return only(at, parts);
    }
    Ok(Rule::Any(Rules::new(parts)))
}

/// Returns the two rules of a list that has no others.
fn two(alloc: Global, at: usize, parts: Vec<Rule>) -> Result<(Box<Rule>, Box<Rule>), ModelFault>
    ensures ok { IfOk result (λ p. (make : Constraint ℕ → Constraint ℕ → Constraint ℕ) →
        pair at make (map constraint_of parts.items) ≡ Ok (make (constraint_of p.0.value) (constraint_of p.1.value))) }
    ensures err { IfErr result (λ e. (make : Constraint ℕ → Constraint ℕ → Constraint ℕ) →
        IsRefused (pair at make (map constraint_of parts.items)) e) }
{
    let mut parts = parts;
    let Some(second) = parts.pop() else {
        return Err(ModelFault::Operands { at });
    };
    let Some(first) = parts.pop() else {
        return Err(ModelFault::Operands { at });
    };
    if !parts.is_empty() {
        return Err(ModelFault::Operands { at });
    }
    let Ok(first) = Box::new(alloc, first) else {
        return Err(ModelFault::Memory);
    };
    let Ok(second) = Box::new(alloc, second) else {
        return Err(ModelFault::Memory);
    };
    Ok((first, second))
}

/// Returns the rule of an element, by those of its operands.
fn joined(alloc: Global, names: &Names, e: &Element, parts: Vec<Rule>) -> Result<Rule, ModelFault>
    ensures ok { IfOk result (λ r. joined names.now (element_of e.now) (map constraint_of parts.items)
        ≡ Ok (constraint_of r)) }
    ensures err { IfErr result (IsRefused (joined names.now (element_of e.now) (map constraint_of parts.items))) }
{
    let name = e.tag.name;
    if is_same(name, b"var") {
        return variable(names, e, parts);
    }
    if is_same(name, b"not") {
        return negated(alloc, e.at, parts);
    }
    if is_same(name, b"conj") {
        return conjunction(e.at, parts);
    }
    if is_same(name, b"disj") {
        return disjunction(e.at, parts);
    }
    let is_implication = is_same(name, b"imp");
    match two(alloc, e.at, parts) {
        Ok((first, second)) => {
            if is_implication {
                Ok(Rule::Implies(first, second))
            } else {
                Ok(Rule::Iff(first, second))
            }
        }
        Err(fault) => Err(fault),
    }
}

/// Returns the rule of the element at an index. `depth` bounds how many elements nest in it.
#[cycle(formula)]
fn formula(
    alloc: Global,
    names: &Names,
    roles: &[Role],
    elements: &[Element],
    spans: &[Span],
    i: usize,
    depth: usize,
) -> Result<Rule, ModelFault>
    requires spans { AreSpans (length elements.now) spans.now (elements_of elements.now) }
    requires within { i < length elements.now }
    ensures ok { IfOk result (λ r. formula_with depth names.now roles.now (elements_of elements.now) i
        ≡ Ok (constraint_of r)) }
    ensures err { IfErr result (IsRefused (formula_with depth names.now roles.now (elements_of elements.now) i)) }
{
    if depth == 0 {
        return Err(ModelFault::Operands { at: 0 });
    }
    match operands(alloc, names, roles, elements, spans, i, depth - 1) {
        Ok(parts) => joined(alloc, names, &elements[i], parts),
        Err(fault) => Err(fault),
    }
}

/// Returns the rules of the operands of the element at an index.
#[cycle(formula)]
fn operands(
    alloc: Global,
    names: &Names,
    roles: &[Role],
    elements: &[Element],
    spans: &[Span],
    i: usize,
    depth: usize,
) -> Result<Vec<Rule>, ModelFault>
    requires spans { AreSpans (length elements.now) spans.now (elements_of elements.now) }
    requires within { i < length elements.now }
    ensures ok { IfOk result (λ v. operands_with (formula_with depth names.now roles.now (elements_of elements.now))
        roles.now i 0 [] (elements_of elements.now) ≡ Ok (map constraint_of v.items)) }
    ensures err { IfErr result (IsRefused (operands_with
        (formula_with depth names.now roles.now (elements_of elements.now)) roles.now i 0 []
        (elements_of elements.now))) }
{
    let span = spans[i];
    let mut parts = Vec::new(alloc);
    for j in span.from..span.to {
        if is_operand(roles, i, j, &elements[j]) {
            let part = match formula(alloc, names, roles, elements, spans, j, depth) {
                Ok(part) => part,
                Err(fault) => return Err(fault),
            };
            let Ok(()) = parts.push(part) else {
                return Err(ModelFault::Memory);
            };
        }
    }
    Ok(parts)
}

/// The greatest number of elements that nest in a rule.
const DEEPEST: usize = 64;

/// Returns a rule, if its text can be read: at most 64 signs are open at one place.
fn shallow(at: usize, rule: Rule) -> Result<Rule, ModelFault>
    ensures ok { IfOk result (λ r. shallow at (constraint_of rule) ≡ Ok (constraint_of r)) }
    ensures err { IfErr result (λ e. shallow at (constraint_of rule) ≡ Err e) }
{
    if is_shallow(&rule) {
        Ok(rule)
    } else {
        Err(ModelFault::TooDeep { at })
    }
}

/// Returns the rule of a `rule` element at an index.
fn rule_at(
    alloc: Global,
    names: &Names,
    roles: &[Role],
    elements: &[Element],
    spans: &[Span],
    i: usize,
    e: &Element,
) -> Result<Rule, ModelFault>
    requires spans { AreSpans (length elements.now) spans.now (elements_of elements.now) }
    requires within { i < length elements.now }
    ensures ok { IfOk result (λ r. rule_at names.now roles.now (elements_of elements.now) i (element_of e.now)
        ≡ Ok (constraint_of r)) }
    ensures err { IfErr result
        (IsRefused (rule_at names.now roles.now (elements_of elements.now) i (element_of e.now))) }
{
    let parts = match operands(alloc, names, roles, elements, spans, i, DEEPEST) {
        Ok(parts) => parts,
        Err(fault) => return Err(fault),
    };
    match only(e.at, parts) {
        Ok(rule) => shallow(e.at, rule),
        Err(fault) => Err(fault),
    }
}

/// Returns the rules of all `rule` elements, whose operands are in these spans.
fn rules_in_spans(
    alloc: Global,
    names: &Names,
    roles: &[Role],
    elements: &[Element],
    spans: &[Span],
) -> Result<Vec<Rule>, ModelFault>
    requires { AreSpans (length elements.now) spans.now (elements_of elements.now) }
    ensures ok { IfOk result (λ v. rules_with names.now roles.now (elements_of elements.now) 0 []
        (elements_of elements.now) ≡ Ok (map constraint_of v.items)) }
    ensures err { IfErr result (IsRefused (rules_with names.now roles.now (elements_of elements.now) 0 []
        (elements_of elements.now))) }
{
    let mut found = Vec::new(alloc);
    for (i, e) in elements.iter().enumerate() {
        if is_rule(role_at(roles, i)) {
            let rule = match rule_at(alloc, names, roles, elements, spans, i, e) {
                Ok(rule) => rule,
                Err(fault) => return Err(fault),
            };
            let Ok(()) = found.push(rule) else {
                return Err(ModelFault::Memory);
            };
        }
    }
    Ok(found)
}

/// Returns the rules of all `rule` elements.
pub(crate) fn rules(
    alloc: Global,
    names: &Names,
    roles: &[Role],
    elements: &[Element],
) -> Result<Vec<Rule>, ModelFault>
    ensures ok { IfOk result (λ v. rules_with names.now roles.now (elements_of elements.now) 0 []
        (elements_of elements.now) ≡ Ok (map constraint_of v.items)) }
    ensures err { IfErr result (IsRefused (rules_with names.now roles.now (elements_of elements.now) 0 []
        (elements_of elements.now))) }
{
    match spans(alloc, elements) {
        Ok(spans) => rules_in_spans(alloc, names, roles, elements, &spans),
        Err(_) => Err(ModelFault::Memory),
    }
}
