//! Laws of the definitions. Each function does nothing: its contract is the law.
ghost use Rattle.vpg_system.specs.Laws.{TextsSpellOneSystem, SpelledAreSystems, WritingsSpellTheSystem};

/// A text spells one system at most.
pub fn texts_spell_one_system()
    ensures { TextsSpellOneSystem }
{}

/// A system that a text spells is within the limits, leads between its states, and has guards over the features.
pub fn spelled_are_systems()
    ensures { SpelledAreSystems }
{}

/// The text that is written spells the system.
pub fn writings_spell_the_system()
    ensures { WritingsSpellTheSystem }
{}
