//! Reading the lines of a diagram.

ghost use Rattle.std.specs.Prelude.{◌≡◌, ◌+◌, ◌++◌, ◌∷◌, [], ◌<◌, ◌≤◌, ◌^◌, ℕ, List, Ok, Err, length, IfOk, IfErr, nat_le, ◌&&◌};
ghost use Rattle.vpg_diagram.specs.DiagramText.{rules_of};
ghost use Rattle.vpg_diagram.specs.DiagramReading.{behind_rule, are_new, place_of_name, rule_at, line_at, new_names};
ghost use Rattle.vpg_diagram.specs.FeatureDiagram.{Line as DiagramLine};
ghost use Rattle.vpg_diagram.specs.FormView.{texts, view_form};

use crate::fault::{DiagramFault, LineError, LineFault};
use crate::line::{Kept, Line, Members};
use crate::text::{LineForm, behind_rule, first_line, form_of, is_blank_line, number};
use indexmap::IndexSet;
use std::alloc::{AllocError, Global};
use vpg_features::{MOST_FEATURES, Names};
use vpg_rules::{ClausesFault, Rule, RuleFault, parse_rule};

/// The greatest number of rules in a diagram.
pub const MOST_RULES: usize = 16_384;

/// Whether each word is new: not among the names, and not twice.
fn are_new(alloc: Global, names: &Names, words: &[&[u8]]) -> Result<bool, AllocError>
    ensures { IfOk result (λ new. new ≡ are_new names.now (texts words.now)) }
{
    let mut seen = IndexSet::with_capacity(alloc, 0)?;
    are_unseen(names, words, &mut seen)
}

/// Whether each word is new, if none is seen yet.
fn are_unseen<'a>(
    names: &Names,
    words: &[&'a [u8]],
    seen: &mut IndexSet<&'a [u8]>,
) -> Result<bool, AllocError>
    requires { seen.old.keys ≡ [] }
    ensures { IfOk result (λ new. new ≡ are_new names.now (texts words.now)) }
{
    for word in words {
        if names.get(word).is_some() {
            return Ok(false);
        }
        if !seen.insert(*word)? {
            return Ok(false);
        }
    }
    Ok(true)
}

/// Adds names that are new, if there is room for them.
fn add_names(alloc: Global, names: &mut Names, words: &[&[u8]]) -> Result<(), AllocError>
    ensures { IfOk result (λ _. names.new ≡ names.old ++ texts words.now) }
{
    for word in words {
        // A feature name, new, and not the 513th: only a growth can fail.
        let Ok(_) = names.add(alloc, word) else {
            return Err(AllocError);
        };
    }
    Ok(())
}

/// A parent with children after all earlier features.
#[derive(Clone, Copy)]
struct Family {
    parent: u16,
    members: Members,
}

ghost use Rattle.vpg_diagram.specs.ReadCode.{IsFamily, IsChildrenError, IsFormError};

/// Adds the children of a parent.
fn add_children(
    alloc: Global,
    names: &mut Names,
    parent: &[u8],
    members: &[&[u8]],
    fits: bool,
) -> Result<Family, LineError>
    ensures family { IfOk result (IsFamily names.old parent.now (texts members.now) fits) }
    ensures names { IfOk result (λ _. names.new ≡ names.old ++ texts members.now) }
    ensures refused { IfErr result (IsChildrenError names.old parent.now (texts members.now) fits) }
{
    let Some(parent) = names.get(parent) else {
        return Err(LineError::Refused(LineFault::UnknownFeature));
    };
    if !are_new(alloc, names, members)? {
        return Err(LineError::Refused(LineFault::TwoParents));
    }
    let known = names.len();
    if members.len() > MOST_FEATURES - known {
        return Err(LineError::Refused(LineFault::TooMany));
    }
    if !fits {
        return Err(LineError::Refused(LineFault::BadRange));
    }
    add_names(alloc, names, members)?;
    let members = Members {
        first: known as u16,
        end: (known + members.len()) as u16,
    };
    Ok(Family { parent, members })
}

/// Returns the two features of a rule, after this number of rules.
fn rule_of(
    names: &Names,
    rules: usize,
    first: &[u8],
    second: &[u8],
) -> Result<(u16, u16), LineFault>
    ensures ok { IfOk result
        (λ pair. (line : ℕ → ℕ → DiagramLine) →
        rule_at rules (place_of_name names.now first.now) (place_of_name names.now second.now) line
        ≡ Ok (line pair.0 pair.1)) }
    ensures err { IfErr result
        (λ kind. (line : ℕ → ℕ → DiagramLine) →
        rule_at rules (place_of_name names.now first.now) (place_of_name names.now second.now) line ≡ Err kind) }
{
    let Some(first) = names.get(first) else {
        return Err(LineFault::UnknownFeature);
    };
    let Some(second) = names.get(second) else {
        return Err(LineFault::UnknownFeature);
    };
    if rules >= MOST_RULES {
        return Err(LineFault::TooMany);
    }
    Ok((first, second))
}

/// Whether a range fits this number of members.
fn is_range(low: u64, high: u64, members: usize) -> bool
    ensures { result ≡ (nat_le low high && nat_le high members) }
{
    low <= high && high <= members as u64
}

/// Returns the line of a form, and adds its new names.
fn line_at(
    alloc: Global,
    names: &mut Names,
    rules: usize,
    form: &LineForm,
) -> Result<Line, LineError>
    ensures line { IfOk result (λ line. line_at names.old rules (view_form form.now) ≡ Ok (line_of line)) }
    ensures names { IfOk result (λ _. names.new ≡ names.old ++ new_names (view_form form.now)) }
    ensures refused { IfErr result (IsFormError names.old rules (view_form form.now)) }
{
    match form {
        LineForm::Root(_) => Err(LineError::Refused(LineFault::TwoRoots)),
        LineForm::Mandatory(parent, child) => {
            let family = add_children(alloc, names, parent, &[*child], true)?;
            Ok(Line::Mandatory {
                parent: family.parent,
                child: family.members.first,
            })
        }
        LineForm::Optional(parent, child) => {
            let family = add_children(alloc, names, parent, &[*child], true)?;
            Ok(Line::Optional {
                parent: family.parent,
                child: family.members.first,
            })
        }
        LineForm::Alternative(parent, members) => {
            let family = add_children(alloc, names, parent, members, true)?;
            Ok(Line::Alternative {
                parent: family.parent,
                members: family.members,
            })
        }
        LineForm::Or(parent, members) => {
            let family = add_children(alloc, names, parent, members, true)?;
            Ok(Line::Or {
                parent: family.parent,
                members: family.members,
            })
        }
        LineForm::Group(parent, low, high, members) => {
            let low = number(low);
            let high = number(high);
            let fits = is_range(low, high, members.len());
            let family = add_children(alloc, names, parent, members, fits)?;
            Ok(Line::Group {
                parent: family.parent,
                low: low as u16,
                high: high as u16,
                members: family.members,
            })
        }
        LineForm::Requires(feature, needed) => {
            let (feature, needed) = rule_of(names, rules, feature, needed)?;
            Ok(Line::Requires { feature, needed })
        }
        LineForm::Excludes(feature, other) => {
            let (feature, other) = rule_of(names, rules, feature, other)?;
            Ok(Line::Excludes { feature, other })
        }
    }
}

/// The names and lines read so far.
#[derive(Drop)]
pub(crate) struct Reader {
    pub(crate) names: Names,
    pub(crate) lines: Vec<Kept>,
    rules: usize,
}

ghost use Rattle.vpg_diagram.specs.ReadCode.{IsReadRule, ReadsRule, IsRuleError};

/// Returns the rule that a text spells, if it spells one. A name that is not among the names is no feature's index.
fn read_rule(alloc: Global, names: &Names, text: &[u8]) -> Result<Option<Rule>, AllocError>
    ensures { IfOk result (IsReadRule names.now text.now) }
{
    match parse_rule(alloc, text, names) {
        Ok(rule) => Ok(Some(rule)),
        Err(RuleFault::Syntax { .. }) => Ok(None),
        Err(RuleFault::TooDeep { .. }) => Ok(None),
        Err(RuleFault::Memory) => Err(AllocError),
    }
}

/// Returns the rule of a formula and the number of its clauses, after this number of rules.
fn formula_line(
    alloc: Global,
    names: &Names,
    rules: usize,
    text: &[u8],
) -> Result<(Rule, usize), LineError>
    requires { rules ≤ MOST_RULES }
    ensures line { IfOk result (λ x. ReadsRule names.now rules text.now (constraint_of x.0) x.1) }
    ensures bound { IfOk result (λ x. rules + x.1 ≤ MOST_RULES) }
    ensures refused { IfErr result (IsRuleError names.now rules text.now) }
{
    let Some(rule) = read_rule(alloc, names, text)? else {
        return Err(LineError::Refused(LineFault::Syntax));
    };
    if !rule.is_below(names.len()) {
        return Err(LineError::Refused(LineFault::UnknownFeature));
    }
    let count = match rule.clauses(alloc) {
        Ok(clauses) => clauses.len(),
        Err(ClausesFault::Memory) => return Err(LineError::Memory),
        Err(ClausesFault::TooMany) => return Err(LineError::Refused(LineFault::TooManyClauses)),
    };
    if count > MOST_RULES - rules {
        return Err(LineError::Refused(LineFault::TooMany));
    }
    Ok((rule, count))
}

ghost use Rattle.vpg_diagram.specs.ReadCode.{ReadsLine, AddsLine, IsLineError};

/// Reads a line that is neither blank nor a rule, after this number of rules, and adds its new names.
fn read_plain(
    alloc: Global,
    names: &mut Names,
    rules: usize,
    bytes: &[u8],
) -> Result<Line, LineError>
    requires { behind_rule bytes.now ≡ None }
    ensures line { IfOk result
        (λ line. ReadsLine names.old rules bytes.now names.new (line_of line) (rules_of (line_of line))) }
    ensures refused { IfErr result (IsLineError names.old rules bytes.now) }
{
    let Some(form) = form_of(alloc, bytes)? else {
        return Err(LineError::Refused(LineFault::Syntax));
    };
    line_at(alloc, names, rules, &form)
}

/// Reads a line that is not blank, after this number of rules, and adds its new names. Returns the number of its rules
/// too.
fn read_line(
    alloc: Global,
    names: &mut Names,
    rules: usize,
    bytes: &[u8],
) -> Result<(Kept, usize), LineError>
    requires { rules ≤ MOST_RULES }
    ensures line { IfOk result (λ x. ReadsLine names.old rules bytes.now names.new (kept_line_of x.0) x.1) }
    ensures bound { IfOk result (λ x. rules + x.1 ≤ MOST_RULES) }
    ensures refused { IfErr result (IsLineError names.old rules bytes.now) }
{
    if let Some(text) = behind_rule(bytes) {
        let (rule, count) = formula_line(alloc, names, rules, text)?;
        return Ok((Kept::Formula(rule), count));
    }
    let line = read_plain(alloc, names, rules, bytes)?;
    Ok((Kept::Line(line), line.rules()))
}

/// Reads a line that is not blank after the others.
fn add_line(alloc: Global, reader: &mut Reader, bytes: &[u8]) -> Result<(), LineError>
    requires { reader.old.rules ≤ MOST_RULES }
    ensures ok { IfOk result (λ _. AddsLine reader.old bytes.now reader.new) }
    ensures bound { IfOk result (λ _. reader.new.rules ≤ MOST_RULES) }
    ensures refused { IfErr result (IsLineError reader.old.names reader.old.rules bytes.now) }
{
    let (line, rules) = read_line(alloc, &mut reader.names, reader.rules, bytes)?;
    let Ok(()) = reader.lines.push(line) else {
        return Err(LineError::Memory);
    };
    reader.rules += rules;
    Ok(())
}

/// The root line: its name, the text after the line, and the line's number.
#[derive(Clone, Copy)]
struct Root<'a> {
    name: &'a [u8],
    behind: &'a [u8],
    number: usize,
}

ghost use Rattle.std.specs.Str.Lines.{lines};
ghost use Rattle.vpg_diagram.specs.DiagramReading.{after_root, reading, form_of as line_form};
ghost use Rattle.std.specs.Prelude.{Some, None, option_map};
ghost use Rattle.vpg_diagram.specs.DiagramText.{RootLine, FormulaLine};
ghost use Rattle.vpg_diagram.specs.LineView.{line_of, kept_line_of, lines_of};
ghost use Rattle.vpg_rules.specs.Reading.{named_rule_at};
ghost use Rattle.vpg_rules.specs.View.{constraint_of};
ghost use Rattle.vpg_diagram.specs.ReadCode.{IsReadingFault, behind_root};

/// Returns the fault of a first line that begins with the word `rule`.
fn root_rule(alloc: Global, text: &[u8], number: usize) -> DiagramFault
    ensures { (rest : List (List ℕ)) →
        IsReadingFault (after_root number (option_map FormulaLine (named_rule_at text.now)) rest) result }
{
    let Ok(names) = Names::new(alloc) else {
        return DiagramFault::Memory;
    };
    match read_rule(alloc, &names, text) {
        Ok(Some(_)) => DiagramFault::UnknownFeature { line: number },
        Ok(None) => DiagramFault::Syntax { line: number },
        Err(_) => DiagramFault::Memory,
    }
}

/// Returns the name in a first line that is no rule.
fn plain_root(alloc: Global, line: &[u8], number: usize) -> Result<&[u8], DiagramFault>
    requires { behind_rule line.now ≡ None }
    ensures name { IfOk result (λ name. line_form line.now ≡ Some (RootLine name.now)) }
    ensures refused { IfErr result
        (λ e. (rest : List (List ℕ)) → IsReadingFault (after_root number (line_form line.now) rest) e) }
{
    let Some(form) = form_of(alloc, line)? else {
        return Err(DiagramFault::Syntax { line: number });
    };
    match form {
        LineForm::Root(name) => Ok(name),
        _ => Err(DiagramFault::UnknownFeature { line: number }),
    }
}

/// Returns the name in a root line.
fn root_name(alloc: Global, line: &[u8], number: usize) -> Result<&[u8], DiagramFault>
    ensures name { IfOk result (λ name. line_form line.now ≡ Some (RootLine name.now)) }
    ensures refused { IfErr result
        (λ e. (rest : List (List ℕ)) → IsReadingFault (after_root number (line_form line.now) rest) e) }
{
    match behind_rule(line) {
        Some(text) => Err(root_rule(alloc, text, number)),
        None => plain_root(alloc, line, number),
    }
}

/// Reads up to the root line.
fn read_root(alloc: Global, text: &[u8]) -> Result<Root, DiagramFault>
    ensures root { IfOk result (λ root. reading text.now ≡ behind_root root.name.now root.number root.behind.now) }
    ensures number { IfOk result (λ root. root.number + length root.behind.now ≤ length text.now) }
    ensures refused { IfErr result (IsReadingFault (reading text.now)) }
{
    let mut rest = text;
    let mut number = 0;
    while !rest.is_empty() {
        let (line, behind) = first_line(rest);
        number += 1;
        if !is_blank_line(line) {
            let name = root_name(alloc, line, number)?;
            return Ok(Root {
                name,
                behind,
                number,
            });
        }
        rest = behind;
    }
    Err(DiagramFault::NoRoot)
}

/// Reads the names and lines of a text.
pub(crate) fn read_text(alloc: Global, text: &[u8]) -> Result<Reader, DiagramFault>
    ensures read { IfOk result
        (λ r. reading text.now ≡ Ok (record { names = r.names; lines = lines_of r.lines.items })) }
    ensures refused { IfErr result (IsReadingFault (reading text.now)) }
{
    let root = read_root(alloc, text)?;
    let mut reader = Reader {
        names: Names::new(alloc)?,
        lines: Vec::new(alloc),
        rules: 0,
    };
    match read_behind(alloc, root, &mut reader) {
        Ok(()) => Ok(reader),
        Err(fault) => Err(fault),
    }
}

/// Reads the name of the root and the lines after it, if nothing is read yet.
fn read_behind(alloc: Global, root: Root, reader: &mut Reader) -> Result<(), DiagramFault>
    requires names { reader.old.names ≡ [] }
    requires lines { reader.old.lines.items ≡ [] }
    requires rules { reader.old.rules ≡ 0 }
    requires room { root.number + length root.behind.now < 2 ^ 64 }
    ensures read { IfOk result
        (λ _. behind_root root.entry.name.now root.entry.number root.entry.behind.now
        ≡ Ok (record { names = reader.new.names; lines = lines_of reader.new.lines.items })) }
    ensures refused { IfErr result
        (IsReadingFault (behind_root root.entry.name.now root.entry.number root.entry.behind.now)) }
{
    add_names(alloc, &mut reader.names, &[root.name])?;
    let mut rest = root.behind;
    let mut number = root.number;
    while !rest.is_empty() {
        let (line, behind) = first_line(rest);
        number += 1;
        rest = behind;
        if is_blank_line(line) {
            continue;
        }
        match add_line(alloc, reader, line) {
            Ok(()) => {}
            Err(LineError::Refused(kind)) => return Err(kind.at(number)),
            Err(LineError::Memory) => return Err(DiagramFault::Memory),
        }
    }
    Ok(())
}
