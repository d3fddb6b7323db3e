//! Laws over the definitions: calls that say what follows, and do nothing.
ghost use Rattle.vpg_configuration.specs.Laws.{WrittenDecisionsReadBack, WrittenNamesReadBack};

/// The document that is written of a page decides what the page's decisions select, in the document's order.
pub fn written_decisions_read_back()
    ensures { WrittenDecisionsReadBack }
{}

/// The list of names that is written of a page selects each feature that is known to be in, in the diagram's order.
pub fn written_names_read_back()
    ensures { WrittenNamesReadBack }
{}
