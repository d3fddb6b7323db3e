//! Laws of the definitions. Each function does nothing: its contract is the law.
ghost use Rattle.vpg_rules.specs.Laws.{ClausesMeanTheRule, TextsSpellOneRule};

/// A set of features meets a rule exactly if it meets each of its clauses, however many they are.
pub fn clauses_mean_the_rule()
    ensures { ClausesMeanTheRule }
{}

/// A text spells one rule at most.
pub fn texts_spell_one_rule()
    ensures { TextsSpellOneRule }
{}
