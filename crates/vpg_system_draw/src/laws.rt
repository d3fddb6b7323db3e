//! Laws of the definitions. Each function does nothing: its contract is the law.
ghost use Rattle.vpg_system_draw.specs.Laws.{ArrowsTellOfProducts};

/// Each product left has the transitions on solid arrows, and none has those on dotted ones.
pub fn arrows_tell_of_products()
    ensures { ArrowsTellOfProducts }
{}
