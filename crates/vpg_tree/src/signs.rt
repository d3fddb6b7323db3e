//! How many signs are open at one place of a rule's text.
ghost use Rattle.std.specs.Prelude.{◌≡◌, nat_le, nat_lt};
ghost use Rattle.vpg_rules.specs.View.{constraint_of, constraints_of};
ghost use Rattle.vpg_tree.specs.RuleText.{closeness};
ghost use Rattle.vpg_tree.specs.Laws.{more_if, open_signs, most_open};

use crate::rules::closeness;
use vpg_rules::Rule;

/// The greatest number of signs that are open at one place of a rule's text, if the text can be read.
pub const MOST_OPEN: u8 = 64;

/// Returns whether the text of a rule can be read: at most 64 of `(`, `!`, `=>` and `<=>` are open at one place.
pub fn is_shallow(rule: &Rule) -> bool
    ensures { result ≡ nat_le (open_signs (constraint_of rule.now)) 64 }
{
    opens_at_most(rule, MOST_OPEN)
}

/// Whether at most this many signs are open at one place of a rule's text.
#[cycle(open)]
fn opens_at_most(rule: &Rule, most: u8) -> bool
    ensures { result ≡ nat_le (open_signs (constraint_of rule.now)) most }
{
    match rule {
        Rule::Always | Rule::Never | Rule::Feature(_) => true,
        Rule::Not(inner) => 0 < most && closer_opens_at_most(inner, 4, most - 1),
        Rule::All(parts) => each_opens_at_most(parts.as_slice(), 4, most),
        Rule::Any(parts) => each_opens_at_most(parts.as_slice(), 3, most),
        Rule::Implies(left, right) => {
            closer_opens_at_most(left, 2, most)
                && (0 < most && closer_opens_at_most(right, 1, most - 1))
        }
        Rule::Iff(left, right) => {
            closer_opens_at_most(left, 1, most) && (0 < most && opens_at_most(right, most - 1))
        }
    }
}

/// Whether at most this many signs are open where a rule stands in parentheses, unless it binds this closely.
#[cycle(open)]
fn closer_opens_at_most(rule: &Rule, least: u8, most: u8) -> bool
    ensures { result ≡ nat_le (more_if (nat_lt (closeness (constraint_of rule.now)) least)
        (open_signs (constraint_of rule.now))) most }
{
    if closeness(rule) >= least {
        return opens_at_most(rule, most);
    }
    0 < most && opens_at_most(rule, most - 1)
}

/// Whether at most this many signs are open in each of these parts.
#[cycle(open)]
fn each_opens_at_most(parts: &[Rule], least: u8, most: u8) -> bool
    ensures { result ≡ nat_le (most_open least (constraints_of parts.now)) most }
{
    for part in parts {
        if !closer_opens_at_most(part, least, most) {
            return false;
        }
    }
    true
}
