//! Rules: formulas over features, with arrows.
ghost use Rattle.std.specs.Prelude.{◌≡◌, ◌↔◌, IsTrue};
ghost use Rattle.vpg_rules.specs.Constraint.{IsBelow, AreBelow};
ghost use Rattle.vpg_rules.specs.View.{constraint_of, constraints_of, parts_in};

/// A formula over features. `parse_rule` returns rules in which each `All` and `Any` has two parts or more. `All`
/// without parts is true, and `Any` without parts is false.
#[cycle(rule)]
#[derive(Debug, Drop)]
pub enum Rule {
    /// True in every set of features, written `true`.
    Always,
    /// True in none, written `false`.
    Never,
    /// True in the sets that have the feature of this index.
    Feature(u16),
    /// True if the rule inside is not.
    Not(Box<Rule>),
    /// True if all parts are.
    All(Rules),
    /// True if some part is.
    Any(Rules),
    /// True unless the left side is true and the right side is false, written `=>`.
    Implies(Box<Rule>, Box<Rule>),
    /// True if both sides are, or neither is, written `<=>`.
    Iff(Box<Rule>, Box<Rule>),
}

/// The parts of an `All` or an `Any`, in order. Contracts see the list of their constraints. It is made from a `Vec`
/// and gives it back without taking memory.
#[cycle(rule)]
#[derive(Debug, Drop)]
pub struct Rules {
    pub(crate) items: Vec<Rule>,
}

impl Rule {
    /// Whether each feature that it names is below this number.
    #[cycle(below)]
    pub fn is_below(&self, features: usize) -> bool
        ensures { IsTrue result ↔ IsBelow features (constraint_of self.now) }
    {
        match self {
            Rule::Always => true,
            Rule::Never => true,
            Rule::Feature(f) => (*f as usize) < features,
            Rule::Not(inner) => inner.is_below(features),
            Rule::All(parts) => parts.are_below(features),
            Rule::Any(parts) => parts.are_below(features),
            Rule::Implies(left, right) => left.is_below(features) && right.is_below(features),
            Rule::Iff(left, right) => left.is_below(features) && right.is_below(features),
        }
    }

    /// Whether both are the same formula.
    #[cycle(same)]
    pub fn is_same(&self, other: &Rule) -> bool
        ensures { IsTrue result ↔ (constraint_of self.now ≡ constraint_of other.now) }
    {
        match self {
            Rule::Always => match other {
                Rule::Always => true,
                _ => false
            },
            Rule::Never => match other {
                Rule::Never => true,
                _ => false
            },
            Rule::Feature(f) => match other {
                Rule::Feature(g) => f == g,
                _ => false
            },
            Rule::Not(inner) => match other {
                Rule::Not(also) => inner.is_same(also),
                _ => false
            },
            Rule::All(parts) => match other {
                Rule::All(also) => parts.are_same(also),
                _ => false
            },
            Rule::Any(parts) => match other {
                Rule::Any(also) => parts.are_same(also),
                _ => false
            },
            Rule::Implies(left, right) => match other {
                Rule::Implies(a, b) => left.is_same(a) && right.is_same(b),
                _ => false
            },
            Rule::Iff(left, right) => match other {
                Rule::Iff(a, b) => left.is_same(a) && right.is_same(b),
                _ => false
            },
        }
    }
}

impl Rules {
    /// Whether each feature that the rules name is below this number.
    #[cycle(below)]
    fn are_below(&self, features: usize) -> bool
        ensures { IsTrue result ↔ AreBelow features (parts_in self.now) }
    {
        for place in (0..self.items.len()).rev() {
            if !self.items[place].is_below(features) {
                return false;
            }
        }
        true
    }

    /// Whether both are the same formulas, in the same order.
    #[cycle(same)]
    fn are_same(&self, other: &Rules) -> bool
        ensures { IsTrue result ↔ (parts_in self.now ≡ parts_in other.now) }
    {
        if self.items.len() != other.items.len() {
            return false;
        }
        for place in (0..self.items.len()).rev() {
            if !self.items[place].is_same(&other.items[place]) {
                return false;
            }
        }
        true
    }

    /// Returns the list of these rules.
    pub fn new(parts: Vec<Rule>) -> Rules
        ensures { parts_in result ≡ constraints_of parts.items }
    {
        Rules { items: parts }
    }

    /// Returns the rules of the list, in order.
    pub fn into_vec(self) -> Vec<Rule>
        ensures { constraints_of result.items ≡ parts_in self }
    {
        let Rules { items } = self;
        items
    }

    /// Returns the rules of the list, in order.
    pub fn as_slice(&self) -> &[Rule]
        ensures { constraints_of result.now ≡ parts_in self.now }
    {
        self.items.as_slice()
    }
}
