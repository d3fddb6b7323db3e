//! Roles of elements.
ghost use Rattle.std.specs.Prelude.{◌≡◌, bytes_eq};
ghost use Rattle.vpg_featureide.specs.Roles.{feature_role, is_remark, remark_role, or_remark, is_operator, formula_role, whole_role, part_role, rule_role, role_under, is_feature};

/// The role of an element in a feature model.
#[derive(Clone, Copy, Debug, PartialEq, Eq)]
pub enum Role {
    /// Outside the outermost element.
    Outside,
    /// The model.
    Whole,
    /// The part with the features.
    Structure,
    /// A feature whose children are optional or mandatory, each for itself.
    And,
    /// A feature that needs at least one of its children.
    Or,
    /// A feature that needs exactly one of its children.
    Alternative,
    /// A feature without children.
    Leaf,
    /// The part with the constraints.
    Constraints,
    /// A constraint.
    Rule,
    /// A part of a constraint.
    Formula,
    /// Read over.
    Over,
}

/// Whether two texts are the same.
pub(crate) fn is_same(a: &[u8], b: &[u8]) -> bool
    ensures { result ≡ bytes_eq a.now b.now }
{
    a == b
}

fn feature_role(name: &[u8]) -> Option<Role>
    ensures { result ≡ feature_role name.now }
{
    if is_same(name, b"and") {
        return Some(Role::And);
    }
    if is_same(name, b"or") {
        return Some(Role::Or);
    }
    if is_same(name, b"alt") {
        return Some(Role::Alternative);
    }
    if is_same(name, b"feature") {
        return Some(Role::Leaf);
    }
    None
}

fn is_remark(name: &[u8]) -> bool
    ensures { result ≡ is_remark name.now }
{
    is_same(name, b"description") || (is_same(name, b"graphics") || is_same(name, b"attribute"))
}

fn remark_role(name: &[u8]) -> Option<Role>
    ensures { result ≡ remark_role name.now }
{
    if is_remark(name) {
        Some(Role::Over)
    } else {
        None
    }
}

fn or_remark(name: &[u8], role: Option<Role>) -> Option<Role>
    ensures { result ≡ or_remark name.now role }
{
    match role {
        Some(role) => Some(role),
        None => remark_role(name),
    }
}

fn is_operator(name: &[u8]) -> bool
    ensures { result ≡ is_operator name.now }
{
    is_same(name, b"var")
        || (is_same(name, b"not")
            || (is_same(name, b"conj")
                || (is_same(name, b"disj") || (is_same(name, b"imp") || is_same(name, b"eq")))))
}

fn formula_role(name: &[u8]) -> Option<Role>
    ensures { result ≡ formula_role name.now }
{
    if is_operator(name) {
        Some(Role::Formula)
    } else {
        None
    }
}

fn whole_role(name: &[u8]) -> Option<Role>
    ensures { result ≡ whole_role name.now }
{
    if is_same(name, b"featureModel") || is_same(name, b"extendedFeatureModel") {
        Some(Role::Whole)
    } else {
        None
    }
}

fn part_role(name: &[u8]) -> Option<Role>
    ensures { result ≡ part_role name.now }
{
    if is_same(name, b"struct") {
        return Some(Role::Structure);
    }
    if is_same(name, b"constraints") {
        return Some(Role::Constraints);
    }
    if is_same(name, b"properties")
        || (is_same(name, b"calculations")
            || (is_same(name, b"comments") || is_same(name, b"featureOrder")))
    {
        return Some(Role::Over);
    }
    None
}

fn rule_role(name: &[u8]) -> Option<Role>
    ensures { result ≡ rule_role name.now }
{
    if is_same(name, b"rule") {
        Some(Role::Rule)
    } else {
        None
    }
}

/// Returns the role of an element with a name in an element of a role, if it may be there.
pub(crate) fn role_under(around: Role, name: &[u8]) -> Option<Role>
    ensures { result ≡ role_under around name.now }
{
    match around {
        Role::Outside => whole_role(name),
        Role::Whole => part_role(name),
        Role::Structure => feature_role(name),
        Role::And | Role::Or | Role::Alternative => or_remark(name, feature_role(name)),
        Role::Leaf => remark_role(name),
        Role::Constraints => rule_role(name),
        Role::Rule => or_remark(name, formula_role(name)),
        Role::Formula => formula_role(name),
        Role::Over => Some(Role::Over),
    }
}

/// Whether an element of a role is a feature.
pub(crate) fn is_feature(role: Role) -> bool
    ensures { result ≡ is_feature role }
{
    match role {
        Role::And | Role::Or | Role::Alternative | Role::Leaf => true,
        _ => false,
    }
}
