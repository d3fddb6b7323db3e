//! The one writing of a rule.
ghost use Rattle.std.specs.Prelude.{◌≡◌, ◌++◌, ◌∷◌, length, nat_lt, OnOk};
ghost use Rattle.vpg_rules.specs.Constraint.{IsBelow, AreBelow};
ghost use Rattle.vpg_rules.specs.View.{constraint_of, constraints_of};
ghost use Rattle.vpg_tree.specs.RuleText.{closeness, enclosed_if, rule_text, all_text, any_text};

use std::alloc::AllocError;
use vpg_features::Names;
use vpg_rules::Rule;

/// Returns how closely the outermost operator binds.
pub(crate) fn closeness(rule: &Rule) -> u8
    ensures { result ≡ closeness (constraint_of rule.now) }
{
    match rule {
        Rule::Iff(_, _) => 0,
        Rule::Implies(_, _) => 1,
        Rule::Any(_) => 2,
        Rule::All(_) => 3,
        Rule::Always | Rule::Never | Rule::Feature(_) | Rule::Not(_) => 4,
    }
}

/// Writes a rule after what is there.
#[cycle(put)]
pub(crate) fn put_rule(rule: &Rule, names: &Names, out: &mut Vec<u8>) -> Result<(), AllocError>
    requires { IsBelow (length names.now) (constraint_of rule.now) }
    ensures { OnOk result (out.new.items ≡ out.old.items ++ rule_text names.now (constraint_of rule.now)) }
{
    match rule {
        Rule::Always => out.extend_from_slice(b"true"),
        Rule::Never => out.extend_from_slice(b"false"),
        Rule::Feature(f) => {
            out.extend_from_slice(names.name(*f).as_bytes())?;
            Ok(())
        }
        Rule::Not(inner) => {
            out.push(b'!')?;
            put_closer(inner, 4, names, out)
        }
        Rule::All(parts) => put_all(parts.as_slice(), names, out),
        Rule::Any(parts) => put_any(parts.as_slice(), names, out),
        Rule::Implies(left, right) => {
            put_closer(left, 2, names, out)?;
            out.extend_from_slice(b" => ")?;
            put_closer(right, 1, names, out)
        }
        Rule::Iff(left, right) => {
            put_closer(left, 1, names, out)?;
            out.extend_from_slice(b" <=> ")?;
            put_rule(right, names, out)
        }
    }
}

/// Writes a rule, in parentheses unless it binds this closely.
#[cycle(put)]
fn put_closer(rule: &Rule, least: u8, names: &Names, out: &mut Vec<u8>) -> Result<(), AllocError>
    requires { IsBelow (length names.now) (constraint_of rule.now) }
    ensures { OnOk result (out.new.items ≡ out.old.items
        ++ enclosed_if (nat_lt (closeness (constraint_of rule.now)) least)
        (rule_text names.now (constraint_of rule.now))) }
{
    if closeness(rule) >= least {
        return put_rule(rule, names, out);
    }
    out.push(b'(')?;
    put_rule(rule, names, out)?;
    out.push(b')')?;
    Ok(())
}

/// Writes the `and` of rules.
#[cycle(put)]
fn put_all(parts: &[Rule], names: &Names, out: &mut Vec<u8>) -> Result<(), AllocError>
    requires { AreBelow (length names.now) (constraints_of parts.now) }
    ensures { OnOk result (out.new.items ≡ out.old.items ++ all_text names.now (constraints_of parts.now)) }
{
    let [first, others @ ..] = parts else {
        return out.extend_from_slice(b"true");
    };
    put_closer(first, 4, names, out)?;
    for part in others {
        out.extend_from_slice(b" & ")?;
        put_closer(part, 4, names, out)?;
    }
    Ok(())
}

/// Writes the `or` of rules.
#[cycle(put)]
fn put_any(parts: &[Rule], names: &Names, out: &mut Vec<u8>) -> Result<(), AllocError>
    requires { AreBelow (length names.now) (constraints_of parts.now) }
    ensures { OnOk result (out.new.items ≡ out.old.items ++ any_text names.now (constraints_of parts.now)) }
{
    let [first, others @ ..] = parts else {
        return out.extend_from_slice(b"false");
    };
    put_closer(first, 3, names, out)?;
    for part in others {
        out.extend_from_slice(b" | ")?;
        put_closer(part, 3, names, out)?;
    }
    Ok(())
}
