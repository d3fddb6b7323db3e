//! Laws over the definitions: calls that say what follows, and do nothing.
ghost use Rattle.vpg_featureide.specs.Laws.{TreesAreInOrder};

/// Each tree that a text stands for is in order: the text that is written for it is made of lines of diagrams.
pub fn trees_are_in_order()
    ensures { TreesAreInOrder }
{}
