//! Laws over the definitions: calls that say what follows, and do nothing.
ghost use Rattle.vpg_uvl.specs.Laws.{ChainsGroupToTheLeft, SpelledTreesAreInOrder};

/// In a chain of two `=>` without parentheses, the first one with both of its sides is the left side of the second.
pub fn chains_group_to_the_left()
    ensures { ChainsGroupToTheLeft }
{}

/// Each tree that a text spells is in order: the text that is written for it is made of lines of diagrams.
pub fn spelled_trees_are_in_order()
    ensures { SpelledTreesAreInOrder }
{}
