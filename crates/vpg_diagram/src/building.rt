//! The clauses and counts of the lines of a diagram.

ghost use Rattle.std.specs.Prelude.{◌≡◌, ◌++◌, ◌∷◌, [], map, filter_map, IfOk};
ghost use Rattle.vpg_diagram.specs.Clauses.{feature_in, feature_out, parent_clauses, pair_clauses, rule_clause, line_clauses, clauses_of, counts_of};
ghost use Rattle.vpg_diagram.specs.LineView.{line_of, kept_line_of, lines_of};
ghost use Rattle.vpg_rules.specs.Clauses as rules;
ghost use Rattle.vpg_rules.specs.View.{constraint_of};

use crate::clause::{Clause, Count};
use crate::line::{Kept, Line};
use std::alloc::{AllocError, Global};
use vpg_rules::Rule;

/// Adds the clauses that keep members below their parent.
fn push_parents(
    alloc: Global,
    clauses: &mut Vec<Clause>,
    parent: u16,
    members: &[u16],
) -> Result<(), AllocError>
    ensures { IfOk result (λ _. clauses.new.items ≡ clauses.old.items ++ parent_clauses parent members.now) }
{
    for member in members {
        clauses.push(Clause::implies(alloc, *member, parent))?;
    }
    Ok(())
}

/// Adds the clauses that keep a feature apart from each of the others.
fn push_pairs_of(
    alloc: Global,
    clauses: &mut Vec<Clause>,
    feature: u16,
    others: &[u16],
) -> Result<(), AllocError>
    ensures { IfOk result (λ _. clauses.new.items ≡ clauses.old.items
        ++ map (λ d. feature_out feature ∷ feature_out d ∷ []) others.now) }
{
    for other in others {
        clauses.push(Clause::not_both(alloc, feature, *other))?;
    }
    Ok(())
}

/// Adds the clauses that keep members apart from one another.
fn push_pairs(alloc: Global, clauses: &mut Vec<Clause>, members: &[u16]) -> Result<(), AllocError>
    ensures { IfOk result (λ _. clauses.new.items ≡ clauses.old.items ++ pair_clauses members.now) }
{
    for i in 0..members.len() {
        push_pairs_of(alloc, clauses, members[i], &members[i + 1..])?;
    }
    Ok(())
}

/// Adds the clauses of an alternative group.
fn push_alternative(
    alloc: Global,
    clauses: &mut Vec<Clause>,
    parent: u16,
    members: &[u16],
) -> Result<(), AllocError>
    ensures { IfOk result (λ _. clauses.new.items ≡ clauses.old.items
        ++ (feature_out parent ∷ map feature_in members.now)
        ∷ (parent_clauses parent members.now ++ pair_clauses members.now)) }
{
    clauses.push(Clause::some_member(alloc, parent, members)?)?;
    push_parents(alloc, clauses, parent, members)?;
    push_pairs(alloc, clauses, members)
}

/// Adds the clauses of a line.
fn push_line(alloc: Global, clauses: &mut Vec<Clause>, line: Line) -> Result<(), AllocError>
    ensures { IfOk result (λ _. clauses.new.items ≡ clauses.old.items ++ line_clauses (line_of line)) }
{
    match line {
        Line::Mandatory { parent, child } => {
            clauses.push(Clause::implies(alloc, child, parent))?;
            clauses.push(Clause::implies(alloc, parent, child))?;
        }
        Line::Optional { parent, child } => clauses.push(Clause::implies(alloc, child, parent))?,
        Line::Alternative { parent, members } => push_alternative(
            alloc,
            clauses,
            parent,
            &members.list(alloc)?,
        )?,
        Line::Or { parent, members }
        | Line::Group {
            parent,
            members,
            ..
        } => push_parents(alloc, clauses, parent, &members.list(alloc)?)?,
        Line::Requires { feature, needed } => clauses.push(Clause::implies(
            alloc, feature, needed,
        ))?,
        Line::Excludes { feature, other } => clauses.push(Clause::not_both(alloc, feature, other))?,
    }
    Ok(())
}

/// Adds the clauses of a rule of at most 64 clauses.
fn push_rule(alloc: Global, clauses: &mut Vec<Clause>, rule: &Rule) -> Result<(), AllocError>
    ensures { IfOk result (λ _. clauses.new.items ≡ clauses.old.items
        ++ map rule_clause (rules.clauses_of (constraint_of rule.now))) }
{
    // The reader has counted them: only a growth can fail.
    let Ok(parts) = rule.clauses(alloc) else {
        return Err(AllocError);
    };
    for part in &parts {
        clauses.push(Clause::of_rule(alloc, part)?)?;
    }
    Ok(())
}

/// Adds the clauses of a line of a diagram.
fn push_kept(alloc: Global, clauses: &mut Vec<Clause>, line: &Kept) -> Result<(), AllocError>
    ensures { IfOk result (λ _. clauses.new.items ≡ clauses.old.items ++ line_clauses (kept_line_of line.now)) }
{
    match line {
        Kept::Line(line) => push_line(alloc, clauses, *line),
        Kept::Formula(rule) => push_rule(alloc, clauses, rule),
    }
}

/// Returns the clauses of a diagram.
pub(crate) fn clauses_of(alloc: Global, lines: &[Kept]) -> Result<Vec<Clause>, AllocError>
    ensures { IfOk result (λ clauses. clauses.items ≡ clauses_of (lines_of lines.now)) }
{
    let mut clauses = Vec::new(alloc);
    clauses.push(Clause::always(alloc, 0)?)?;
    for line in lines {
        push_kept(alloc, &mut clauses, line)?;
    }
    Ok(clauses)
}

/// Returns the counts of a diagram.
pub(crate) fn counts_of(alloc: Global, lines: &[Kept]) -> Result<Vec<Count>, AllocError>
    ensures { IfOk result (λ counts. counts.items ≡ counts_of (lines_of lines.now)) }
{
    let mut counts = Vec::new(alloc);
    for line in lines {
        let Kept::Line(line) = line else {
            continue;
        };
        match *line {
            Line::Or { parent, members } => {
                let members = members.list(alloc)?;
                let high = members.len();
                counts.push(Count::new(parent, members, 1, high))?;
            }
            Line::Group {
                parent,
                low,
                high,
                members,
            } => {
                let members = members.list(alloc)?;
                counts.push(Count::new(parent, members, low as usize, high as usize))?;
            }
            _ => {}
        }
    }
    Ok(counts)
}
