//! Laws over the definitions: calls that say what follows, and do nothing.
ghost use Rattle.vpg_tree.specs.Laws.{ConfigurationsMeetTheLines, WrittenRulesReadBack, ReadRulesReadBack};

/// The configurations of a tree are the sets with the root that meet each line of the diagram that the tree stands for.
pub fn configurations_meet_the_lines()
    ensures { ConfigurationsMeetTheLines }
{}

/// The text that is written for a rule reads back as the rule, by `parse_rule`. The rule is one as `parse_rule` returns
/// it: each `All` and `Any` has two parts or more, and at most 64 signs are open at one place of the text.
pub fn written_rules_read_back()
    ensures { WrittenRulesReadBack }
{}

/// A rule that `parse_rule` returned for a text, over features with these names, reads back from the text that is
/// written for it.
pub fn read_rules_read_back()
    ensures { ReadRulesReadBack }
{}
